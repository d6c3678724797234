//! How a session begins and ends levels.
ghost use Rattle.std.specs.Prelude.{◌≡◌, ◌≢◌, ◌≤◌, ◌<◌, ◌-◌, ◌+◌, Err, Some, None, IfErr, OnErr, OnOk};
ghost use Rattle.sqlx_text.specs.declared.error.Error.{Error};
ghost use Rattle.sqlx_traits.specs.Faults.{BeginCause, FaultCause, HasRisen};
ghost use Rattle.mem_store.specs.Acts.{level_refusal, refusal_of};
ghost use Rattle.mem_store.specs.Store.{state_of};
ghost use Rattle.mem_store.specs.Undo.{Counts};
ghost use Rattle.mem_store.specs.declared.act.Act.{Act as Doing};
ghost use Rattle.mem_driver.specs.Asked.{asked as what_is_asked};
ghost use Rattle.mem_driver.specs.Backend.{Begins, BeginsAt, BeginsBy, Ends, HasBegun};
ghost use Rattle.mem_driver.specs.Session.{acted, depth, undo};

use crate::asked::asked;
use crate::session::MemSession;
use mem_store::{Act, statement_of};
use sqlx_pool_places::Steps;
use sqlx_savepoints::LevelText;
use sqlx_text::{Error, OutOfMemory, SqlStr};
use std::sync::ledger::Ledger;

impl MemSession {
    /// Begins a level by its text.
    pub(crate) fn level(&mut self, level: LevelText) -> Result<(), Error>
        ensures begins { Begins (Doing.Level level) self.old result self.new }
        ensures ran { OnOk result ((level_refusal level (state_of self.old.work) ≡ None) × (self.new ≡ acted (Doing.Level level) self.old)) }
        ensures refused { OnErr result (depth self.new ≡ depth self.old) }
        ensures rises { self.old.faults ≤ self.new.faults }
        ensures cause { IfErr result (λ e. FaultCause self.old.faults self.new.faults e) }
    {
        match self.work.admitted(Some(Act::Level(level))) {
            Ok(act) => match self.run(act) {
                Ok(()) => Ok(()),
                Err(OutOfMemory) => Err(Error::OutOfMemory),
            },
            Err(refusal) => {
                self.refuse();
                Err(refusal.error())
            }
        }
    }

    /// Ends the innermost level by its text, and without one where that doesn't run. A text that
    /// rolls back has a step for each change that it undoes.
    pub(crate) fn end<L: Ledger>(
        &mut self,
        level: LevelText,
        steps: &mut Steps<L>,
    ) -> Result<(), Error>
        requires { 1 ≤ depth self.old }
        ensures ends { Ends (Doing.Level level) self.old result self.new }
        ensures ran { OnOk result ((level_refusal level (state_of self.old.work) ≡ None) × (self.new ≡ acted (Doing.Level level) self.old)) }
        ensures refused { OnErr result (depth self.new ≡ depth self.old - 1) }
        ensures rises { self.old.faults ≤ self.new.faults }
        ensures cause { IfErr result (λ e. FaultCause self.old.faults self.new.faults e) }
        ensures count { OnOk result (Counts level steps.old (undo self.old) steps.new (undo self.new)) }
        ensures uncounted { OnErr result (steps.new ≡ steps.old) }
    {
        match self.work.admitted(Some(Act::Level(level))) {
            Ok(_) => match self.work.run_level(level, steps) {
                Ok(()) => Ok(()),
                Err(OutOfMemory) => {
                    self.roll_back();
                    Err(Error::OutOfMemory)
                }
            },
            Err(refusal) => {
                self.refuse();
                self.roll_back();
                Err(refusal.error())
            }
        }
    }

    /// Begins a level by a text of the caller's own: inside of a level it is refused, and a text
    /// that ran and began none is a failed begin.
    pub(crate) fn begin_by(&mut self, statement: SqlStr) -> Result<(), Error>
        ensures begins { BeginsAt (depth self.old) (what_is_asked statement None) self.old result self.new }
        ensures ok { OnOk result (depth self.new ≡ depth self.old + 1) }
        ensures err { OnErr result (depth self.new ≡ depth self.old) }
        ensures inside { 0 < depth self.old → (result ≡ Err Error.InvalidSavePointStatement) × (self.new ≡ self.old) }
        ensures only_inside { IfErr result (λ e. e ≡ Error.InvalidSavePointStatement → 0 < depth self.old) }
        ensures only_custom { IfErr result (λ e. e ≡ Error.BeginFailed → depth self.new ≡ 0) }
        ensures rises { self.old.faults ≤ self.new.faults }
        ensures cause { IfErr result (λ e. BeginCause self.old.faults self.new.faults e) }
    {
        if self.depth() > 0 {
            drop(statement);
            return Err(Error::InvalidSavePointStatement);
        }
        let act = asked(statement_of(statement.as_str()), &None);
        drop(statement);
        self.begin_outside(act)
    }

    /// Does what is to begin a level outside of any.
    fn begin_outside(&mut self, act: Option<Act>) -> Result<(), Error>
        requires { depth self.old ≡ 0 }
        ensures begins { BeginsBy act self.old (refusal_of act self.old.work) result self.new }
        ensures ok { OnOk result (depth self.new ≡ 1) }
        ensures err { OnErr result (depth self.new ≡ 0) }
        ensures outside { IfErr result (λ e. e ≢ Error.InvalidSavePointStatement) }
        ensures rises { self.old.faults ≤ self.new.faults }
        ensures cause { IfErr result (λ e. BeginCause self.old.faults self.new.faults e) }
    {
        match self.work.admitted(act) {
            Ok(act) => match self.run(act) {
                Ok(()) => self.begun(),
                Err(OutOfMemory) => Err(Error::OutOfMemory),
            },
            Err(refusal) => {
                self.refuse();
                Err(refusal.error())
            }
        }
    }

    /// Whether what ran has begun a level.
    #[tactic(auto, using(crate::proofs::BeginLemmas::has_begun, crate::proofs::BeginLemmas::has_failed))]
    fn begun(&mut self) -> Result<(), Error>
        ensures begun { HasBegun (depth self.old) self.old result self.new }
        ensures ok { OnOk result ((0 < depth self.old) × (self.new ≡ self.old)) }
        ensures err { OnErr result ((depth self.old ≡ 0) × (depth self.new ≡ 0)) }
        ensures risen { IfErr result (λ e. (e ≡ Error.BeginFailed) × HasRisen self.old.faults self.new.faults) }
        ensures rises { self.old.faults ≤ self.new.faults }
    {
        if self.depth() > 0 {
            Ok(())
        } else {
            self.count_fault();
            Err(Error::BeginFailed)
        }
    }
}
