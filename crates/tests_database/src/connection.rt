//! A connection that hands out given steps, and its levels.
ghost use Rattle.std.specs.Prelude.{◌≡◌, IfOk};

use crate::letters::single;
use crate::{Asked, Toy, ToyQueryResult, ToyRow};
use sqlx_text::{Depth, Error, OutOfMemory, SqlStr};
use sqlx_traits::*;
use std::alloc::Global;
use std::collections::VecDeque;

/// A connection. It hands its steps out once, and then lists without items.
#[derive(Drop)]
pub struct ToyConnection {
    pub(crate) steps: Option<VecDeque<Either<ToyQueryResult, ToyRow>>>,
    pub(crate) breaks: bool,
    pub(crate) depth: usize,
    pub(crate) faults: u64,
    /// What it was asked last.
    pub asked: Option<Asked>,
}

impl ToyConnection {
    /// A connection by letters: a digit is a result of so many rows, another letter a row of the one value that it is
    /// in [`crate::letters::row_of`], and behind them `!` is an error.
    pub fn new(alloc: Global, letters: &str) -> Result<ToyConnection, OutOfMemory>
        ensures { IfOk result (λ conn. conn.depth ≡ 0) }
    {
        let steps = steps_of(alloc, letters)?;
        Ok(ToyConnection::of_steps(steps, letters.ends_with('!')))
    }

    /// A connection that hands out this row.
    pub fn of_row(alloc: Global, row: ToyRow) -> Result<ToyConnection, OutOfMemory> {
        let mut steps = VecDeque::new(alloc);
        steps.push_back(Either::Right(row))?;
        Ok(ToyConnection::of_steps(steps, false))
    }

    // A connection that hands out these steps, and behind them an error where it breaks.
    fn of_steps(steps: VecDeque<Either<ToyQueryResult, ToyRow>>, breaks: bool) -> ToyConnection
        ensures { result.depth ≡ 0 }
    {
        ToyConnection {
            steps: Some(steps),
            breaks,
            depth: 0,
            faults: 0,
            asked: None,
        }
    }
}

// The steps of letters.
fn steps_of(
    alloc: Global,
    letters: &str,
) -> Result<VecDeque<Either<ToyQueryResult, ToyRow>>, OutOfMemory> {
    let mut steps = VecDeque::new(alloc);
    for letter in letters.chars() {
        if letter != '!' {
            steps.push_back(step_of(alloc, letter)?)?;
        }
    }
    Ok(steps)
}

// The step of a letter.
fn step_of(alloc: Global, letter: char) -> Result<Either<ToyQueryResult, ToyRow>, OutOfMemory> {
    match letter.to_digit(10) {
        Some(rows) => Ok(Either::Left(ToyQueryResult(u64::from(rows)))),
        None => Ok(Either::Right(single(alloc, letter)?)),
    }
}

impl Depth for ToyConnection {
    ghost levels = { λ conn. conn.depth };

    fn depth(&self) -> usize {
        self.depth
    }
}

impl Faults for ToyConnection {
    ghost faults = { λ conn. conn.faults };
}

impl Connection<Toy> for ToyConnection {
    ghost use Rattle.std.specs.Prelude.{true};

    ghost closes = { λ _. true };

    fn close(self) -> Result<(), Error> {
        drop(self);
        Ok(())
    }

    fn close_hard(self) -> Result<(), Error> {
        drop(self);
        Ok(())
    }

    fn ping(&mut self) -> Result<(), Error> {
        Ok(())
    }

    fn cached_statements_size(&self) -> usize {
        0
    }

    fn clear_cached_statements(&mut self) -> Result<(), Error> {
        Ok(())
    }

    fn shrink_buffers(&mut self) {}

    fn flush(&mut self) -> Result<(), Error> {
        Ok(())
    }

    fn should_flush(&self) -> bool {
        false
    }
}

/// The levels of a connection.
pub struct ToyTransactionManager;

impl TransactionManager<Toy> for ToyTransactionManager {
    fn begin(
        _alloc: Global,
        conn: &mut ToyConnection,
        statement: Option<SqlStr>,
    ) -> Result<(), Error> {
        if let Some(sql) = statement {
            drop(sql);
            if conn.depth > 0 {
                return Err(Error::InvalidSavePointStatement);
            }
        }
        match conn.depth.checked_add(1) {
            Some(depth) => {
                conn.depth = depth;
                Ok(())
            }
            None => Err(Error::OutOfMemory),
        }
    }

    fn commit(_alloc: Global, conn: &mut ToyConnection) -> Result<(), Error> {
        conn.depth -= 1;
        Ok(())
    }

    fn rollback(_alloc: Global, conn: &mut ToyConnection) -> Result<(), Error> {
        conn.depth -= 1;
        Ok(())
    }

    fn start_rollback(conn: &mut ToyConnection) {
        conn.depth -= 1;
    }

    fn get_transaction_depth(conn: &ToyConnection) -> usize {
        conn.depth
    }
}
