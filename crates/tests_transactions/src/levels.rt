//! Levels within levels, as values and around calls, over any database and whatever holds its connection.
ghost use Rattle.std.specs.Prelude.{◌≡◌, ◌-◌, ◌<◌};
ghost use Rattle.sqlx_tx.specs.Begun.{holder_of, levels_after, outcome_of};

use crate::writes::Writes;
use sqlx_any::Database;
use sqlx_text::Error;
use sqlx_tx::{Borrowed, Hold, Transaction, calls};
use std::alloc::Global;

/// How a level ends.
#[derive(Clone, Copy)]
pub enum End {
    /// What was written in it is kept.
    Commit,
    /// It is undone.
    Rollback,
    /// It is undone, without an answer.
    GiveUp,
}

/// How levels are opened and ended.
#[derive(Clone, Copy)]
pub enum By {
    /// As values.
    Values,
    /// Around calls, which answer Ok where the level is to be kept.
    Calls,
}

/// What is done on a connection. It leaves the depth.
trait Within<DB: Database, W: Writes<DB>> {
    /// On the connection that something holds, by levels as values.
    fn by_values<H: Hold<DB>>(&self, alloc: Global, outer: H) -> (H, Result<(), Error>)
        ensures { DB.Connection.levels (H.held result.0) ≡ DB.Connection.levels (H.held outer) };

    /// By levels around calls.
    fn by_calls(&self, alloc: Global, conn: &mut DB::Connection) -> Result<(), Error>
        ensures { DB.Connection.levels conn.new ≡ DB.Connection.levels conn.old };
}

#[derive(Drop)]
struct Nothing;

impl<DB: Database, W: Writes<DB>> Within<DB, W> for Nothing {
    fn by_values<H: Hold<DB>>(&self, _alloc: Global, outer: H) -> (H, Result<(), Error>) {
        (outer, Ok(()))
    }

    fn by_calls(&self, _alloc: Global, _conn: &mut DB::Connection) -> Result<(), Error> {
        Ok(())
    }
}

// A value that is written in a level, and what is done within that.
#[derive(Drop)]
struct Level<I> {
    value: i64,
    end: End,
    inner: I,
}

impl<DB: Database, W: Writes<DB>, I: Within<DB, W>> Within<DB, W> for Level<I> {
    fn by_values<H: Hold<DB>>(&self, alloc: Global, outer: H) -> (H, Result<(), Error>) {
        match begun::<DB, W, H>(alloc, outer, self.value) {
            Ok(level) => {
                let (level, inner) = self.inner.by_values::<Transaction<DB, H>>(alloc, level);
                let (outer, answer) = ended(alloc, level, self.end);
                (outer, both(inner, answer))
            }
            Err(refused) => {
                let (error, outer) = refused;
                (outer, Err(error))
            }
        }
    }

    fn by_calls(&self, alloc: Global, conn: &mut DB::Connection) -> Result<(), Error> {
        calls::transaction::<DB, _, _, _>(alloc, conn, |conn| {
            let written = W::write(alloc, conn, self.value);
            drop(self.inner.by_calls(alloc, conn));
            answered(self.end, written)
        })
    }
}

/// Writes 1, 2 and 3 in three levels, each within the one before it, and ends them.
pub fn nests<DB: Database, W: Writes<DB>>(
    alloc: Global,
    conn: &mut DB::Connection,
    by: By,
    ends: [End; 3],
) -> Result<(), Error> {
    let [first, second, third] = ends;
    let inner = Level {
        value: 3,
        end: third,
        inner: Nothing,
    };
    let middle = Level {
        value: 2,
        end: second,
        inner,
    };
    let outer = Level {
        value: 1,
        end: first,
        inner: middle,
    };
    done::<DB, W, Level<Level<Level<Nothing>>>>(alloc, conn, by, &outer)
}

fn done<DB: Database, W: Writes<DB>, I: Within<DB, W>>(
    alloc: Global,
    conn: &mut DB::Connection,
    by: By,
    what: &I,
) -> Result<(), Error> {
    match by {
        By::Values => {
            let (holder, answer) = what.by_values::<Borrowed<'_, DB>>(alloc, Borrowed(conn));
            let Borrowed(_conn) = holder;
            answer
        }
        By::Calls => what.by_calls(alloc, conn),
    }
}

// Opens a level and writes in it.
fn begun<DB: Database, W: Writes<DB>, H: Hold<DB>>(
    alloc: Global,
    outer: H,
    value: i64,
) -> Result<Transaction<DB, H>, (Error, H)>
    ensures { DB.Connection.levels (H.held (holder_of result)) ≡ levels_after (DB.Connection.levels (H.held outer)) (outcome_of result) }
{
    match Transaction::<DB, H>::begin(alloc, outer, None) {
        Ok(level) => Ok(written::<DB, W, Transaction<DB, H>>(alloc, level, value)),
        Err(refused) => Err(refused),
    }
}

// Writes on the connection that is held. A refused write is seen by what stands in the rows.
fn written<DB: Database, W: Writes<DB>, H: Hold<DB>>(alloc: Global, holder: H, value: i64) -> H
    ensures { DB.Connection.levels (H.held result) ≡ DB.Connection.levels (H.held holder) }
{
    let mut holder = holder;
    let answer = W::write(alloc, holder.as_mut(), value);
    drop(answer);
    holder
}

/// Ends a level.
pub fn ended<DB: Database, H: Hold<DB>>(
    alloc: Global,
    level: Transaction<DB, H>,
    end: End,
) -> (H, Result<(), Error>)
    requires { 0 < DB.Connection.levels (H.held level) }
    ensures { DB.Connection.levels (H.held result.0) ≡ DB.Connection.levels (H.held level) - 1 }
{
    match end {
        End::Commit => level.commit(alloc),
        End::Rollback => level.rollback(alloc),
        End::GiveUp => (level.give_up(), Ok(())),
    }
}

// What a call answers by which its level is to end so: the refusal of the write, or one of its own.
fn answered(end: End, written: Result<(), Error>) -> Result<(), Error> {
    match end {
        End::Commit => written,
        End::Rollback | End::GiveUp => {
            drop(written);
            Err(Error::RowNotFound)
        }
    }
}

/// The first refusal of two answers.
pub fn both(first: Result<(), Error>, second: Result<(), Error>) -> Result<(), Error> {
    match first {
        Ok(()) => second,
        Err(error) => {
            drop(second);
            Err(error)
        }
    }
}
