//! A connection to a database, and its levels.
ghost use Rattle.std.specs.Prelude.{◌≡◌, ◌≢◌, ◌≤◌, ◌<◌, ◌+◌, ◌-◌, ℕ, Bool, Err, IfErr, IfOk, IsOkAnd, List, OnErr, OnOk};
ghost use Rattle.sqlx_text.specs.declared.error.Error.{Error};
ghost use Rattle.sqlx_traits.specs.Faults.{BeginCause, CloseCause, FaultCause, HasRisen};
ghost use Rattle.sqlite_base.specs.Refusals.{refusal_error};
ghost use Rattle.sqlite_base.specs.Ran.{RanOn, RefusedOn, in_transaction};
ghost use Rattle.sqlite_base.specs.Closed.{HasClosed, RefusesClose};
ghost use Rattle.sqlite_base.specs.Queries.{all_taken};
ghost use Rattle.sqlite_driver.specs.Does.{Begins, BeginsBy, Ends, Pings, RefusesText, RunsText, given_up};
ghost use Rattle.sqlite_driver.specs.Opened.{IsFresh};
ghost use Rattle.sqlite_driver.specs.Runs.{GivesItems, RefusesItems};

use sqlite_base::{Base, Items, Refusal};
use sqlx_any::AnyArguments;
use sqlx_text::{Error, OutOfMemory, SqlStr};
use std::alloc::Global;

/// A connection to a database. It keeps its depth by the calls that succeeded.
#[derive(Drop)]
pub struct SqliteConnection {
    base: Base,
    alloc: Global,
    pub(crate) depth: usize,
    /// To which depth levels that ended without a text are still to be rolled back.
    goes_back_to: Option<usize>,
    pub(crate) faults: u64,
}

impl SqliteConnection {
    /// A connection over the database's own, which has no level open.
    pub(crate) fn new(alloc: Global, base: Base) -> Self
        ensures fresh { IsFresh result }
        ensures base { result.base ≡ base }
    {
        SqliteConnection {
            base,
            alloc,
            depth: 0,
            goes_back_to: None,
            faults: 0,
        }
    }

    /// Counts a refusal, and tells it.
    pub(crate) fn refuse(&mut self, refusal: Refusal) -> Error
        ensures rest { self.new ≡ record self.old { faults = self.new.faults } }
        ensures rises { self.old.faults ≤ self.new.faults }
        ensures risen { HasRisen self.old.faults self.new.faults }
        ensures value { result ≡ refusal_error refusal }
        ensures cause { FaultCause self.old.faults self.new.faults result }
        ensures inside { result ≢ Error.InvalidSavePointStatement }
        ensures failed { result ≢ Error.BeginFailed }
    {
        self.count_fault();
        refusal.error()
    }

    fn count_fault(&mut self)
        ensures rest { self.new ≡ record self.old { faults = self.new.faults } }
        ensures risen { HasRisen self.old.faults self.new.faults }
        ensures rises { self.old.faults ≤ self.new.faults }
    {
        self.faults = self.faults.saturating_add(1);
    }

    /// Rolls back the levels that ended without a text.
    pub(crate) fn settle(&mut self) -> Result<(), Error>
        ensures depth { self.new.depth ≡ self.old.depth }
        ensures pings { Pings self.old result self.new }
        ensures rises { self.old.faults ≤ self.new.faults }
        ensures cause { IfErr result (FaultCause self.old.faults self.new.faults) }
        ensures inside { result ≢ Err Error.InvalidSavePointStatement }
        ensures failed { result ≢ Err Error.BeginFailed }
    {
        let Some(depth) = self.goes_back_to else {
            return Ok(());
        };
        match self.base.roll_back_to(self.alloc, depth) {
            Ok(()) => {
                self.goes_back_to = None;
                Ok(())
            }
            Err(refusal) => Err(self.refuse(refusal)),
        }
    }

    /// Runs a text with its arguments, once what was to be rolled back is.
    pub(crate) fn run(
        &mut self,
        alloc: Global,
        text: &str,
        arguments: &Option<AnyArguments>,
    ) -> Result<Items, Error>
        ensures gave { IfOk result (λ items. GivesItems text.now (all_taken arguments.now) self.old items.items self.new) }
        ensures refused { IfErr result (λ e. RefusesItems text.now (all_taken arguments.now) self.old e self.new) }
        ensures depth { self.new.depth ≡ self.old.depth }
        ensures rises { self.old.faults ≤ self.new.faults }
        ensures cause { IfErr result (FaultCause self.old.faults self.new.faults) }
    {
        match self.settle() {
            Ok(()) => match self.base.run(alloc, text, arguments) {
                Ok(items) => Ok(items),
                Err(refusal) => Err(self.refuse(refusal)),
            },
            Err(error) => Err(error),
        }
    }

    /// Runs a text of a level, likewise.
    fn perform(&mut self, text: Result<SqlStr, OutOfMemory>) -> Result<(), Error>
        ensures ran { OnOk result (IsOkAnd text (λ text. RunsText text self.old self.new)) }
        ensures refused { IfErr result (λ e. (due : List ℕ) → IfOk text (λ text. text ≡ due) → RefusesText due self.old e self.new) }
        ensures depth { self.new.depth ≡ self.old.depth }
        ensures rises { self.old.faults ≤ self.new.faults }
        ensures cause { IfErr result (FaultCause self.old.faults self.new.faults) }
        ensures inside { result ≢ Err Error.InvalidSavePointStatement }
        ensures failed { result ≢ Err Error.BeginFailed }
    {
        match self.settle() {
            Ok(()) => match text {
                Ok(text) => self.hand_on(text),
                Err(OutOfMemory) => Err(Error::OutOfMemory),
            },
            Err(error) => Err(error),
        }
    }

    fn hand_on(&mut self, text: SqlStr) -> Result<(), Error>
        ensures ran { OnOk result (RanOn text self.old.base self.new.base) }
        ensures refused { IfErr result (RefusedOn text self.old.base self.new.base) }
        ensures noted { self.new.goes_back_to ≡ self.old.goes_back_to }
        ensures risen { OnErr result (HasRisen self.old.faults self.new.faults) }
        ensures depth { self.new.depth ≡ self.old.depth }
        ensures rises { self.old.faults ≤ self.new.faults }
        ensures cause { IfErr result (FaultCause self.old.faults self.new.faults) }
        ensures inside { result ≢ Err Error.InvalidSavePointStatement }
        ensures failed { result ≢ Err Error.BeginFailed }
    {
        let done = self.base.perform(self.alloc, text.as_str());
        drop(text);
        match done {
            Ok(()) => Ok(()),
            Err(refusal) => Err(self.refuse(refusal)),
        }
    }

    /// Begins a level by its text.
    pub(crate) fn begin_level(&mut self, text: Result<SqlStr, OutOfMemory>) -> Result<(), Error>
        ensures begins { (due : List ℕ) → IfOk text (λ text. text ≡ due) → Begins due self.old result self.new }
        ensures ok { OnOk result (self.new.depth ≡ self.old.depth + 1) }
        ensures err { OnErr result (self.new.depth ≡ self.old.depth) }
        ensures rises { self.old.faults ≤ self.new.faults }
        ensures cause { IfErr result (BeginCause self.old.faults self.new.faults) }
        ensures inside { result ≢ Err Error.InvalidSavePointStatement }
        ensures failed { result ≢ Err Error.BeginFailed }
    {
        let Some(deeper) = self.depth.checked_add(1) else {
            return Err(Error::OutOfMemory);
        };
        match self.perform(text) {
            Ok(()) => {
                self.depth = deeper;
                Ok(())
            }
            Err(error) => Err(error),
        }
    }

    /// Begins a level by a text of the caller's own, outside of any.
    pub(crate) fn begin_by(&mut self, text: SqlStr) -> Result<(), Error>
        requires { self.old.depth ≡ 0 }
        ensures begins { BeginsBy text self.old result self.new }
        ensures ok { OnOk result (self.new.depth ≡ 1) }
        ensures err { OnErr result (self.new.depth ≡ 0) }
        ensures rises { self.old.faults ≤ self.new.faults }
        ensures cause { IfErr result (BeginCause self.old.faults self.new.faults) }
        ensures inside { result ≢ Err Error.InvalidSavePointStatement }
    {
        match self.perform(Ok(text)) {
            Ok(()) => self.begun(),
            Err(error) => Err(error),
        }
    }

    /// Whether what ran has begun a transaction.
    fn begun(&mut self) -> Result<(), Error>
        requires { self.old.depth ≡ 0 }
        ensures begun { OnOk result (in_transaction self.new.base ≡ Bool.true) }
        ensures told { IfErr result (λ e. e ≡ Error.BeginFailed) }
        ensures none { OnErr result (in_transaction self.new.base ≡ Bool.false) }
        ensures risen { OnErr result (HasRisen self.old.faults self.new.faults) }
        ensures rest { (self.new.base ≡ self.old.base) × (self.new.goes_back_to ≡ self.old.goes_back_to) }
        ensures ok { OnOk result (self.new.depth ≡ 1) }
        ensures err { OnErr result (self.new.depth ≡ 0) }
        ensures rises { self.old.faults ≤ self.new.faults }
        ensures cause { IfErr result (BeginCause self.old.faults self.new.faults) }
        ensures inside { result ≢ Err Error.InvalidSavePointStatement }
    {
        if self.base.is_autocommit() {
            self.count_fault();
            Err(Error::BeginFailed)
        } else {
            self.depth = 1;
            Ok(())
        }
    }

    /// Ends the innermost level by its text, and without one where that is refused.
    pub(crate) fn end_level(&mut self, text: Result<SqlStr, OutOfMemory>) -> Result<(), Error>
        requires { 0 < self.old.depth }
        ensures ends { (due : List ℕ) → IfOk text (λ text. text ≡ due) → Ends due self.old result self.new }
        ensures levels { self.new.depth ≡ self.old.depth - 1 }
        ensures rises { self.old.faults ≤ self.new.faults }
        ensures cause { IfErr result (FaultCause self.old.faults self.new.faults) }
    {
        match self.perform(text) {
            Ok(()) => {
                self.depth -= 1;
                Ok(())
            }
            Err(error) => {
                self.give_up();
                Err(error)
            }
        }
    }

    /// Ends the innermost level, which is rolled back before the next statement or ping.
    pub(crate) fn give_up(&mut self)
        requires { 0 < self.old.depth }
        ensures new { self.new ≡ given_up self.old }
        ensures levels { self.new.depth ≡ self.old.depth - 1 }
        ensures faults { self.new.faults ≡ self.old.faults }
    {
        self.depth -= 1;
        let depth = match self.goes_back_to {
            Some(noted) if noted < self.depth => noted,
            _ => self.depth,
        };
        self.goes_back_to = Some(depth);
    }

    /// Closes the database. What isn't committed is rolled back.
    pub(crate) fn end(self) -> Result<(), Error>
        ensures closed { OnOk result (HasClosed self.base) }
        ensures refused { IfErr result (RefusesClose self.base) }
        ensures cause { IfErr result CloseCause }
    {
        let SqliteConnection { base, alloc, .. } = self;
        match base.close(alloc) {
            Ok(()) => Ok(()),
            Err(refusal) => Err(refusal.error()),
        }
    }
}
