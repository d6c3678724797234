//! Rollbacks that count the changes that they undo.
ghost use Rattle.std.specs.Prelude.{◌≡◌, ◌≤◌, ◌<◌, ◌-◌, IfErr, OnErr, OnOk};
ghost use Rattle.sqlx_traits.specs.Calls as call;
ghost use Rattle.sqlx_traits.specs.Faults.{FaultCause};
ghost use Rattle.mem_store.specs.Undo.{CountsFall};
ghost use Rattle.mem_driver.specs.Backend.{Does};
ghost use Rattle.mem_driver.specs.Session.{depth, rolled_back, undo};

use crate::session::MemSession;
use mem_store::{commit_at, rollback_at};
use sqlx_pool_places::Steps;
use sqlx_text::Error;
use std::sync::ledger::{Blank, Ledger};

impl MemSession {
    /// How many changes of the own writes can be undone: none outside a level. A write in a level
    /// adds one, and a level that is rolled back takes away what it undoes.
    pub fn undo_len(&self) -> usize
        ensures { result ≡ (undo self.now).len }
    {
        self.work.undo_len()
    }

    /// Rolls the innermost level back by its text, as `rollback` of `AnyTransactionManager` does.
    /// Each change that is undone is a step. A refused one has none: its level is rolled back
    /// without a count.
    #[tactic(auto, using(crate::proofs::LevelDepths::rollback_lowers, crate::proofs::CountLemmas::rollback_counts))]
    pub fn rollback_counted<L: Ledger>(&mut self, steps: &mut Steps<L>) -> Result<(), Error>
        requires { 1 ≤ depth self.old }
        ensures does { Does call.rollback self.old result self.new }
        ensures levels { depth self.new ≡ depth self.old - 1 }
        ensures rises { self.old.faults ≤ self.new.faults }
        ensures cause { IfErr result (λ e. FaultCause self.old.faults self.new.faults e) }
        ensures count { OnOk result (CountsFall steps.old (undo self.old) steps.new (undo self.new)) }
        ensures uncounted { OnErr result (steps.new ≡ steps.old) }
    {
        let level = rollback_at(self.depth());
        match self.end(level, steps) {
            Ok(()) => Ok(()),
            Err(error) => Err(error),
        }
    }

    /// Rolls the innermost level back without a text, as `start_rollback` of `AnyTransactionManager`
    /// does. Each change that is undone is a step.
    pub fn start_rollback_counted<L: Ledger>(&mut self, steps: &mut Steps<L>)
        requires { 1 ≤ depth self.old }
        ensures new { self.new ≡ rolled_back self.old }
        ensures levels { depth self.new ≡ depth self.old - 1 }
        ensures count { CountsFall steps.old (undo self.old) steps.new (undo self.new) }
    {
        self.work.start_rollback_counted(steps);
    }
}

/// Rolls the innermost level back by its text, and keeps no count.
pub(crate) fn roll_back<L: Ledger>(session: &mut MemSession, blank: Blank) -> Result<(), Error>
    requires level { 1 ≤ depth session.old }
    requires named { blank.name ≡ L.name }
    requires whole { blank.parts ≡ L.parts }
    requires some { 0 < blank.parts }
    ensures does { Does call.rollback session.old result session.new }
    ensures levels { depth session.new ≡ depth session.old - 1 }
    ensures rises { session.old.faults ≤ session.new.faults }
    ensures cause { IfErr result (λ e. FaultCause session.old.faults session.new.faults e) }
{
    let mut steps = Steps::<L>::new(blank);
    session.rollback_counted(&mut steps)
}

/// Ends the innermost level by its commit text, which undoes nothing.
#[tactic(auto, using(crate::proofs::LevelDepths::commit_lowers))]
pub(crate) fn commit<L: Ledger>(session: &mut MemSession, blank: Blank) -> Result<(), Error>
    requires level { 1 ≤ depth session.old }
    requires named { blank.name ≡ L.name }
    requires whole { blank.parts ≡ L.parts }
    requires some { 0 < blank.parts }
    ensures does { Does call.commit session.old result session.new }
    ensures levels { depth session.new ≡ depth session.old - 1 }
    ensures rises { session.old.faults ≤ session.new.faults }
    ensures cause { IfErr result (λ e. FaultCause session.old.faults session.new.faults e) }
{
    let mut steps = Steps::<L>::new(blank);
    let level = commit_at(session.depth());
    match session.end(level, &mut steps) {
        Ok(()) => Ok(()),
        Err(error) => Err(error),
    }
}
