//! A backend that hands out given steps, and keeps what it was handed.
ghost use Rattle.std.specs.Prelude.{◌≡◌, ◌≤◌, IfErr, IfOk, Option, Result};
ghost use Rattle.sqlx_text.specs.declared.fault.Fault.{Fault};
ghost use Rattle.sqlx_traits.specs.Faults.{FaultCause, HasRisen};
ghost use Rattle.sqlx_traits.specs.StepList.{StepCauses};

use crate::{Call, Handed, cells};
use sqlx_any::*;
use sqlx_text::{Error, IoFault, OutOfMemory};
use std::alloc::Global;
use std::collections::VecDeque;

/// It hands its steps out once, and then lists without items.
#[derive(Drop)]
pub struct StubBackend {
    steps: Option<VecDeque<Either<AnyQueryResult, AnyRow>>>,
    breaks: bool,
    pub(crate) depth: usize,
    pub(crate) faults: u64,
    /// Whether each call besides queries is refused that may be.
    pub refuses: bool,
    /// The last call besides queries.
    pub last: Option<Call>,
    /// What came with the last query.
    pub handed: Option<Handed>,
}

impl StubBackend {
    /// A backend by letters: `i` is a row of the whole number 5, `t` one of the text `x`, a digit a
    /// result of so many rows, and behind them `!` is an error.
    pub fn new(alloc: Global, letters: &str) -> Result<StubBackend, Error>
        ensures { IfOk result (λ backend. backend.depth ≡ 0) }
    {
        Ok(StubBackend {
            steps: Some(steps_of(alloc, letters)?),
            breaks: letters.ends_with('!'),
            depth: 0,
            faults: 0,
            refuses: false,
            last: None,
            handed: None,
        })
    }

    /// What came with the last query, as [`Handed::shown`] writes it; `nothing` where none came.
    pub fn handed_shown(&self, alloc: Global) -> Result<String, OutOfMemory> {
        match &self.handed {
            Some(handed) => handed.shown(alloc),
            None => Ok("nothing".to_string(alloc)?),
        }
    }

    // The steps that are left, and behind them the error.
    #[tactic(auto, using(sqlx_traits::proofs::StepLemmas::causes_of_items))]
    pub(crate) fn hand_out(&mut self, alloc: Global) -> FetchMany<Any<StubBackend>>
        ensures rises { self.old.faults ≤ self.new.faults }
        ensures causes { (arguments : Result (Option AnyArguments) Fault) → StepCauses self.old.faults self.new.faults arguments result }
    {
        let items = match self.steps.take() {
            Some(steps) => steps,
            None => VecDeque::new(alloc),
        };
        if self.breaks {
            self.faults = self.faults.saturating_add(1);
            StepList::new(items, Some(Error::Io(IoFault::Other)))
        } else {
            StepList::new(items, None)
        }
    }

    // The refusal of a call, which is counted.
    pub(crate) fn refused(&mut self) -> Error
        ensures error { result ≡ Error.Io IoFault.Other }
        ensures depth { self.new.depth ≡ self.old.depth }
        ensures rises { self.old.faults ≤ self.new.faults }
        ensures risen { HasRisen self.old.faults self.new.faults }
    {
        self.faults = self.faults.saturating_add(1);
        Error::Io(IoFault::Other)
    }

    // A call that is refused on demand, and leaves the depth.
    pub(crate) fn called(&mut self, call: Call) -> Result<(), Error>
        ensures error { IfErr result (λ e. e ≡ Error.Io IoFault.Other) }
        ensures depth { self.new.depth ≡ self.old.depth }
        ensures rises { self.old.faults ≤ self.new.faults }
        ensures cause { IfErr result (λ e. FaultCause self.old.faults self.new.faults e) }
    {
        self.last = Some(call);
        if self.refuses {
            Err(self.refused())
        } else {
            Ok(())
        }
    }
}

// The steps of letters.
fn steps_of(
    alloc: Global,
    letters: &str,
) -> Result<VecDeque<Either<AnyQueryResult, AnyRow>>, Error> {
    let mut steps = VecDeque::new(alloc);
    for letter in letters.chars() {
        if letter != '!' {
            let step = step_of(alloc, letter)?;
            keep(&mut steps, step)?;
        }
    }
    Ok(steps)
}

// Puts a step behind the others.
fn keep(
    steps: &mut VecDeque<Either<AnyQueryResult, AnyRow>>,
    step: Either<AnyQueryResult, AnyRow>,
) -> Result<(), OutOfMemory> {
    Ok(steps.push_back(step)?)
}

// The step of a letter.
fn step_of(alloc: Global, letter: char) -> Result<Either<AnyQueryResult, AnyRow>, Error> {
    match letter.to_digit(10) {
        Some(rows) => Ok(Either::Left(AnyQueryResult {
            rows_affected: u64::from(rows),
            last_insert_id: None,
        })),
        None => match row_of(alloc, letter) {
            Ok(row) => Ok(Either::Right(row)),
            Err(error) => Err(error),
        },
    }
}

// The row of a letter.
fn row_of(alloc: Global, letter: char) -> Result<AnyRow, Error> {
    if letter == 't' {
        cells::row(alloc, "text", cells::text("x"))
    } else {
        cells::row(alloc, "number", AnyValueKind::BigInt(5))
    }
}

impl Faults for StubBackend {
    ghost faults = { λ backend. backend.faults };
}
