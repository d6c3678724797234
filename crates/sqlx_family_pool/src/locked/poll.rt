//! The steps of a poll.

ghost use Rattle.std.specs.Prelude.{◌≡◌, ℕ, ◌+◌, ◌^◌, ◌<◌, ◌≤◌, is_some, false};
ghost use Rattle.sqlx_pool_lists.specs.declared.steps.Start.{Start};
ghost use Rattle.sqlx_pool_lists.specs.declared.steps.AfterTest.{AfterTest};
ghost use Rattle.sqlx_pool_lists.specs.declared.steps.AfterConnect.{AfterConnect};
ghost use Rattle.sqlx_pool_lists.specs.Core.{ticket_of};
ghost use Rattle.sqlx_pool_core.specs.Logs.{moment_of};
ghost use Rattle.sqlx_pool_lists.specs.PollSteps.{phase_for, judged, start_marks, verdict_answer, test_marks, after_test, connect_answer, connect_marks, after_connect};
ghost use Rattle.sqlx_pool_lists.specs.PollSteps.{may_cancel, cancel_marks, cancelled};
ghost use Rattle.sqlx_pool_core.specs.CameTo.{IfAccepted};
ghost use Rattle.sqlx_family.specs.Pools.{pool_in};
ghost use Rattle.sqlx_family.specs.Permits.{stepped};
ghost use Rattle.sqlx_pool_parts.specs.Answers.{lends_tested, IfTestLends, lends_new, IfTryLends, IfTried, is_fatal, is_ended};
ghost use Rattle.sqlx_pool_parts.specs.Booked.{CountsIf};
ghost use Rattle.sqlx_family_pool.specs.FamilyState.{IsNamed, IsUnnamed, with_made};
ghost use Rattle.sqlx_family_steps.specs.FamilySteps.{start_answer_in, family_after_start};

use super::LockedFamily;
use sqlx_family_steps::polling;
use sqlx_pool::{Held, Loans, Tally};
use sqlx_pool_core::{AfterConnect, AfterTest, Start, Tried, Verdict};
use sqlx_pool_parts::answers::{lends_new, lends_tested};
use sqlx_text::{Depth, Moment};
use std::sync::ledger::Ledger;

impl<C: Depth, O, H: Ledger, L: Loans> LockedFamily<C, O, H, L> {
    /// Begins a poll. A ticket that waits leaves the line where it is entitled in its own line; a child's is entitled in the
    /// root's line too while the child owns fewer permits than its maximum, and then takes one free permit from the root.
    pub fn start(&mut self, pool: u32, client: u32, ticket: u64, now: Moment) -> Start<C>
        ensures answer { IsNamed pool self.old → let f = self.old.family in result ≡ start_answer_in pool client ticket (moment_of (pool_in pool f) now) f }
        ensures marks { IsNamed pool self.old → self.new.logs ≡ with_made pool (start_marks ticket (phase_for client ticket (pool_in pool self.old.family).tickets) result) self.old.logs }
        ensures becomes { IsNamed pool self.old → let f = self.old.family in self.new.family ≡ family_after_start pool client ticket (moment_of (pool_in pool f) now) result f }
        ensures unnamed { IsUnnamed pool self.old → (result ≡ Start.NotHeld) × (self.new ≡ self.old) }
        ensures starts { self.new.starts ≡ self.old.starts }
        ensures connect { self.new.connect ≡ self.old.connect }
        ensures booked { self.new.booked ≡ self.old.booked }
    {
        if !self.is_named(pool) {
            return Start::NotHeld;
        }
        let log = &mut self.logs[pool as usize];
        polling::start(&mut self.family, log, pool, client, ticket, now)
    }

    /// Tells what the test of an idle connection came to; a connection that is accepted has no level open. Where one is
    /// lent, the tally counts it, and its share comes beside it.
    pub fn finish_test(
        &mut self,
        pool: u32,
        client: u32,
        ticket: u64,
        verdict: Verdict<C>,
        tally: &mut Tally<L>,
    ) -> (AfterTest<C>, Option<Held<H>>)
        requires flat { IfAccepted verdict (λ raw. C.levels raw ≡ 0) }
        ensures answer { IsNamed pool self.old → let core = pool_in pool self.old.family in result.0 ≡ verdict_answer client ticket core.closed core verdict }
        ensures marks { IsNamed pool self.old → self.new.logs ≡ with_made pool (test_marks client ticket (judged verdict) result.0) self.old.logs }
        ensures becomes { IsNamed pool self.old → self.new.family ≡ stepped pool (after_test client ticket result.0 (pool_in pool self.old.family)) self.old.family }
        ensures unnamed { IsUnnamed pool self.old → (result.0 ≡ AfterTest.NotHeld verdict) × (self.new ≡ self.old) }
        ensures starts { self.new.starts ≡ self.old.starts }
        ensures connect { self.new.connect ≡ self.old.connect }
        ensures held { is_some result.1 ≡ lends_tested result.0 }
        ensures tally { CountsIf (lends_tested result.0) tally.old tally.new }
        ensures flat { IfTestLends result.0 (λ lent. C.levels lent.raw ≡ 0) }
    {
        if !self.is_named(pool) {
            return (AfterTest::NotHeld(verdict), None);
        }
        self.family.bounds();
        let log = &mut self.logs[pool as usize];
        let after = polling::finish_test(&mut self.family, log, pool, client, ticket, verdict);
        let held = self.books.lend_if(lends_tested(&after), tally);
        (after, held)
    }

    /// Tells what a try of a connect came to; a connection that was opened has no level open. Where one is lent, the
    /// tally counts it, and its share comes beside it.
    pub fn finish_connect(
        &mut self,
        pool: u32,
        client: u32,
        ticket: u64,
        now: Moment,
        tried: Tried<C>,
        tally: &mut Tally<L>,
    ) -> (AfterConnect<C>, Option<Held<H>>)
        requires flat { IfTried tried (λ raw. C.levels raw ≡ 0) }
        ensures answer { IsNamed pool self.old → let core = pool_in pool self.old.family in result.0 ≡ connect_answer (ticket_of client ticket core.tickets) core.closed core.next_conn (moment_of core now) tried }
        ensures marks { IsNamed pool self.old → self.new.logs ≡ with_made pool (connect_marks client ticket (moment_of (pool_in pool self.old.family) now) result.0) self.old.logs }
        ensures becomes { IsNamed pool self.old → let core = pool_in pool self.old.family in self.new.family ≡ stepped pool (after_connect client ticket (moment_of core now) result.0 core) self.old.family }
        ensures unnamed { IsUnnamed pool self.old → (result.0 ≡ AfterConnect.NotHeld tried) × (self.new ≡ self.old) }
        ensures starts { self.new.starts ≡ self.old.starts }
        ensures connect { self.new.connect ≡ self.old.connect }
        ensures held { is_some result.1 ≡ lends_new result.0 }
        ensures tally { CountsIf (lends_new result.0) tally.old tally.new }
        ensures calm { is_fatal tried ≡ false → is_ended result.0 ≡ false }
        ensures flat { IfTryLends result.0 (λ lent. C.levels lent.raw ≡ 0) }
    {
        if !self.is_named(pool) {
            return (AfterConnect::NotHeld(tried), None);
        }
        self.family.bounds();
        let log = &mut self.logs[pool as usize];
        let family = &mut self.family;
        let after = polling::finish_connect(family, log, pool, client, ticket, now, tried);
        let held = self.books.lend_if(lends_new(&after), tally);
        (after, held)
    }

    /// Ends a ticket that waits or is in backoff, and frees what it held. False, and nothing changes, where the client has
    /// no such ticket.
    pub fn cancel(&mut self, pool: u32, client: u32, ticket: u64) -> bool
        ensures answer { IsNamed pool self.old → result ≡ may_cancel (phase_for client ticket (pool_in pool self.old.family).tickets) }
        ensures marks { IsNamed pool self.old → self.new.logs ≡ with_made pool (cancel_marks ticket result) self.old.logs }
        ensures becomes { IsNamed pool self.old → self.new.family ≡ stepped pool (cancelled ticket result (pool_in pool self.old.family)) self.old.family }
        ensures unnamed { IsUnnamed pool self.old → (result ≡ false) × (self.new ≡ self.old) }
        ensures starts { self.new.starts ≡ self.old.starts }
        ensures connect { self.new.connect ≡ self.old.connect }
        ensures booked { self.new.booked ≡ self.old.booked }
    {
        if !self.is_named(pool) {
            return false;
        }
        let log = &mut self.logs[pool as usize];
        polling::cancel(&mut self.family, log, pool, client, ticket)
    }
}
