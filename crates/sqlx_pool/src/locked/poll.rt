//! The steps of a poll.

ghost use Rattle.std.specs.Prelude.{◌≡◌, ℕ, ◌+◌, ◌^◌, ◌<◌, ◌≤◌, ◌++◌, List, Some, IfSome, is_some, true, false};
ghost use Rattle.std.specs.List.{list_any};
ghost use Rattle.sqlx_pool_marks.specs.Marks.{is_shut, next_conn};
ghost use Rattle.sqlx_pool_lists.specs.Core.{ticket_of};
ghost use Rattle.sqlx_pool_core.specs.Logs.{moment_of};
ghost use Rattle.sqlx_pool_core.specs.Answers.{ServesFirst};
ghost use Rattle.sqlx_pool_core.specs.CameTo.{IfAccepted};
ghost use Rattle.sqlx_pool_lists.specs.PollTable.{phase_turn};
ghost use Rattle.sqlx_pool_lists.specs.PollSteps.{phase_for, judged, start_answer, start_marks, started, test_marks, after_test, connect_answer, connect_marks, after_connect, may_cancel, cancel_marks, cancelled, try_lent, first_marks, after_first};
ghost use Rattle.sqlx_pool_parts.specs.Answers.{lent_alone, test_answer_in, lends_tested, IfTestLends, lends_new, IfTryLends, IfTried, is_fatal, is_ended};
ghost use Rattle.sqlx_pool_parts.specs.Booked.{CountsIf};

use super::Locked;
use crate::{Held, Loans, Tally};
use sqlx_pool_core::{AfterConnect, AfterTest, Lent, Mark, Start, Tried, Verdict};
use sqlx_pool_parts::answers::{judged_of, lends_new, lends_tested};
use sqlx_pool_parts::record;
use sqlx_text::{Depth, Moment};
use std::sync::ledger::Ledger;

impl<C: Depth, O, H: Ledger, L: Loans> Locked<C, O, H, L> {
    /// Begins a poll, by the poll table.
    pub fn start(&mut self, client: u32, ticket: u64, now: Moment) -> Start<C>
        ensures answer { result ≡ start_answer (phase_turn L.max self.old.core.places self.old.marks client ticket (moment_of self.old.core now) (phase_for client ticket self.old.core.tickets)) self.old.core.idle }
        ensures marks { self.new.marks ≡ self.old.marks ++ start_marks ticket (phase_for client ticket self.old.core.tickets) result }
        ensures becomes { self.new.core ≡ started ticket (moment_of self.old.core now) result self.old.core }
        ensures connect { self.new.connect ≡ self.old.connect }
    {
        let waited = self.core.waits(client, ticket);
        let start = self.core.start(client, ticket, now);
        record::start(&mut self.log, ticket, waited, &start);
        start
    }

    /// Polls a ticket and lends the first idle connection at once, without a test: what `start` and an accepted `finish_test`
    /// come to where the ticket is the first of all, waits and is in time, the pool is open, a permit is free, and a
    /// connection is idle. None, and nothing changes, otherwise: then `start` tells what comes of it.
    pub fn serve_polled(
        &mut self,
        client: u32,
        ticket: u64,
        now: Moment,
        tally: &mut Tally<L>,
    ) -> Option<(Lent<C>, Held<H>)>
        ensures serves { is_some result ≡ true → ServesFirst client ticket (moment_of self.old.core now) self.old.core }
        ensures first { IfSome (lent_alone result) (λ lent. Some lent ≡ try_lent true self.old.core.idle) }
        ensures marks { self.new.marks ≡ self.old.marks ++ first_marks client ticket (lent_alone result) }
        ensures becomes { self.new.core ≡ after_first client ticket (moment_of self.old.core now) (lent_alone result) self.old.core }
        ensures tally { CountsIf (is_some result) tally.old tally.new }
        ensures flat { IfSome (lent_alone result) (λ lent. C.levels lent.raw ≡ 0) }
        ensures connect { self.new.connect ≡ self.old.connect }
    {
        self.core.bounds();
        match self.core.serve_first(client, ticket, now) {
            Some(lent) => {
                self.log.take(ticket, lent.id);
                self.log.lend(client, ticket, lent.id);
                let held = self.books.lend(tally);
                Some((lent, held))
            }
            None => None,
        }
    }

    /// Tells what the test of an idle connection came to; a connection that is accepted has no level open. Where one is
    /// lent, the tally counts it, and its share comes beside it.
    pub fn finish_test(
        &mut self,
        client: u32,
        ticket: u64,
        verdict: Verdict<C>,
        tally: &mut Tally<L>,
    ) -> (AfterTest<C>, Option<Held<H>>)
        requires flat { IfAccepted verdict (λ raw. C.levels raw ≡ 0) }
        ensures answer { result.0 ≡ test_answer_in self.old verdict (phase_for client ticket self.old.core.tickets) }
        ensures marks { self.new.marks ≡ self.old.marks ++ test_marks client ticket (judged verdict) result.0 }
        ensures becomes { self.new.core ≡ after_test client ticket result.0 self.old.core }
        ensures connect { self.new.connect ≡ self.old.connect }
        ensures held { is_some result.1 ≡ lends_tested result.0 }
        ensures tally { CountsIf (lends_tested result.0) tally.old tally.new }
        ensures flat { IfTestLends result.0 (λ lent. C.levels lent.raw ≡ 0) }
    {
        self.core.bounds();
        let conn = judged_of(&verdict);
        let after = self.core.finish_test(client, ticket, verdict);
        record::test(&mut self.log, client, ticket, conn, &after);
        let held = self.books.lend_if(lends_tested(&after), tally);
        (after, held)
    }

    /// Tells what a try of a connect came to; a connection that was opened has no level open. Where one is lent, the
    /// tally counts it, and its share comes beside it.
    pub fn finish_connect(
        &mut self,
        client: u32,
        ticket: u64,
        now: Moment,
        tried: Tried<C>,
        tally: &mut Tally<L>,
    ) -> (AfterConnect<C>, Option<Held<H>>)
        requires flat { IfTried tried (λ raw. C.levels raw ≡ 0) }
        ensures answer { result.0 ≡ connect_answer (ticket_of client ticket self.old.core.tickets) (list_any is_shut self.old.marks) (next_conn self.old.marks) (moment_of self.old.core now) tried }
        ensures marks { self.new.marks ≡ self.old.marks ++ connect_marks client ticket (moment_of self.old.core now) result.0 }
        ensures becomes { self.new.core ≡ after_connect client ticket (moment_of self.old.core now) result.0 self.old.core }
        ensures connect { self.new.connect ≡ self.old.connect }
        ensures held { is_some result.1 ≡ lends_new result.0 }
        ensures tally { CountsIf (lends_new result.0) tally.old tally.new }
        ensures calm { is_fatal tried ≡ false → is_ended result.0 ≡ false }
        ensures flat { IfTryLends result.0 (λ lent. C.levels lent.raw ≡ 0) }
    {
        self.core.bounds();
        let moment = self.core.moment(now);
        let after = self.core.finish_connect(client, ticket, now, tried);
        record::connect(&mut self.log, client, ticket, moment.0, &after);
        let held = self.books.lend_if(lends_new(&after), tally);
        (after, held)
    }

    /// Ends a ticket that waits or is in backoff, and frees what it held. Otherwise nothing changes.
    pub fn cancel(&mut self, client: u32, ticket: u64) -> bool
        ensures answer { result ≡ may_cancel (phase_for client ticket self.old.core.tickets) }
        ensures marks { self.new.marks ≡ self.old.marks ++ cancel_marks ticket result }
        ensures becomes { self.new.core ≡ cancelled ticket result self.old.core }
        ensures connect { self.new.connect ≡ self.old.connect }
    {
        let ends = self.core.cancel(client, ticket);
        record::if_so(&mut self.log, ends, Mark::Ended { ticket });
        ends
    }
}
