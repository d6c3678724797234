//! The steps that end a poll: what a test and what a connect came to.

ghost use Rattle.std.specs.Prelude.{◌≡◌, ◌<◌, ℕ, false, max, List, Option};
ghost use Rattle.std.specs.List.{list_any};
ghost use Rattle.sqlx_pool_marks.specs.declared.mark.Mark.{Mark};
ghost use Rattle.sqlx_pool_marks.specs.Marks.{is_shut, next_conn};
ghost use Rattle.sqlx_pool_core.specs.Logs.{Logs, moment_of};
ghost use Rattle.sqlx_pool_lists.specs.Core.{ticket_of};
ghost use Rattle.sqlx_pool_lists.specs.Balance.{Balance};
ghost use Rattle.sqlx_pool_lists.specs.StandsFor.{StandsFor};
ghost use Rattle.sqlx_pool_lists.specs.PollSteps.{judged, verdict_answer, test_marks, after_test, connect_answer, connect_marks, after_connect};
ghost use Rattle.sqlx_pool_core.specs.KeptLine.{Looks};
ghost use Rattle.sqlx_pool_core.specs.LonePool.{KeepsEntitled, LeavesEdge};

use super::{PoolCore, line};
use sqlx_pool_lists::{AfterConnect, AfterTest, Tried, Verdict};
use sqlx_pool_places::Steps;
use sqlx_text::Moment;
use std::marker::Brand;
use std::sync::ledger::{Blank, Ledger};

impl<C> PoolCore<C> {
    /// Tells what the test of an idle connection came to. Behind a refused one the first idle connection is tested,
    /// where fewer than `idle_tries` were tested in this poll; else a connection is opened. The moment of opening is the one that the pool keeps,
    /// whatever `lent.created` says.
    pub fn finish_test(&mut self, client: u32, ticket: u64, verdict: Verdict<C>) -> AfterTest<C>
        ensures marks { (marks : List Mark) → StandsFor self.old.pool marks → result ≡ verdict_answer client ticket (list_any is_shut marks) self.old.pool verdict }
        ensures answer { result ≡ verdict_answer client ticket self.old.pool.shut self.old.pool verdict }
        ensures makes { Logs self.old.pool (test_marks client ticket (judged verdict) result) self.new.pool }
        ensures balance { Balance self.old.pool self.new.pool (test_marks client ticket (judged verdict) result) 0 0 }
        ensures becomes { self.new.pool ≡ after_test client ticket result self.old.pool }
        ensures edge { KeepsEntitled self.old self.new }
        // In an open pool no permit is freed: the edge stays.
        ensures open { self.old.pool.shut ≡ false → LeavesEdge self.old self.new }
    {
        self.uncounted_finish_test::<Brand>(client, ticket, verdict, Blank::new(1))
    }

    // The same with a counter of its own.
    fn uncounted_finish_test<L: Ledger>(
        &mut self,
        client: u32,
        ticket: u64,
        verdict: Verdict<C>,
        blank: Blank,
    ) -> AfterTest<C>
        requires named { blank.name ≡ L.name }
        requires whole { blank.parts ≡ L.parts }
        requires some { 0 < blank.parts }
        ensures marks { (marks : List Mark) → StandsFor self.old.pool marks → result ≡ verdict_answer client ticket (list_any is_shut marks) self.old.pool verdict }
        ensures answer { result ≡ verdict_answer client ticket self.old.pool.shut self.old.pool verdict }
        ensures makes { Logs self.old.pool (test_marks client ticket (judged verdict) result) self.new.pool }
        ensures balance { Balance self.old.pool self.new.pool (test_marks client ticket (judged verdict) result) 0 0 }
        ensures becomes { self.new.pool ≡ after_test client ticket result self.old.pool }
        ensures edge { KeepsEntitled self.old self.new }
        ensures open { self.old.pool.shut ≡ false → LeavesEdge self.old self.new }
    {
        let mut steps = Steps::<L>::new(blank);
        self.finish_test_counted(client, ticket, verdict, &mut steps)
    }

    /// The same; each look at the line is a step.
    pub fn finish_test_counted<L: Ledger>(
        &mut self,
        client: u32,
        ticket: u64,
        verdict: Verdict<C>,
        steps: &mut Steps<L>,
    ) -> AfterTest<C>
        ensures marks { (marks : List Mark) → StandsFor self.old.pool marks → result ≡ verdict_answer client ticket (list_any is_shut marks) self.old.pool verdict }
        ensures answer { result ≡ verdict_answer client ticket self.old.pool.shut self.old.pool verdict }
        ensures makes { Logs self.old.pool (test_marks client ticket (judged verdict) result) self.new.pool }
        ensures balance { Balance self.old.pool self.new.pool (test_marks client ticket (judged verdict) result) 0 0 }
        ensures becomes { self.new.pool ≡ after_test client ticket result self.old.pool }
        ensures cost { Looks self.old self.new steps.old steps.new }
        ensures open { self.old.pool.shut ≡ false → LeavesEdge self.old self.new }
    {
        self.pool.sound();
        let after = self.pool.finish_test(client, ticket, verdict);
        self.pool.sound();
        line::serve(&self.pool, &mut self.line, steps);
        after
    }

    /// Tells what a connect came to. A new connection has this moment as that of its opening.
    pub fn finish_connect(
        &mut self,
        client: u32,
        ticket: u64,
        now: Moment,
        tried: Tried<C>,
    ) -> AfterConnect<C>
        ensures marks { (marks : List Mark) → StandsFor self.old.pool marks →
            result ≡ connect_answer (ticket_of client ticket self.old.pool.tickets) (list_any is_shut marks) (next_conn marks) (moment_of self.old.pool now) tried }
        ensures answer { result ≡ connect_answer (ticket_of client ticket self.old.pool.tickets) self.old.pool.shut self.old.pool.next_conn (moment_of self.old.pool now) tried }
        ensures makes { Logs self.old.pool (connect_marks client ticket (moment_of self.old.pool now) result) self.new.pool }
        ensures balance { Balance self.old.pool self.new.pool (connect_marks client ticket (moment_of self.old.pool now) result) 0 0 }
        ensures becomes { self.new.pool ≡ after_connect client ticket (moment_of self.old.pool now) result self.old.pool }
        ensures edge { KeepsEntitled self.old self.new }
    {
        self.uncounted_finish_connect::<Brand>(client, ticket, now, tried, Blank::new(1))
    }

    // The same with a counter of its own.
    fn uncounted_finish_connect<L: Ledger>(
        &mut self,
        client: u32,
        ticket: u64,
        now: Moment,
        tried: Tried<C>,
        blank: Blank,
    ) -> AfterConnect<C>
        requires named { blank.name ≡ L.name }
        requires whole { blank.parts ≡ L.parts }
        requires some { 0 < blank.parts }
        ensures marks { (marks : List Mark) → StandsFor self.old.pool marks →
            result ≡ connect_answer (ticket_of client ticket self.old.pool.tickets) (list_any is_shut marks) (next_conn marks) (moment_of self.old.pool now) tried }
        ensures answer { result ≡ connect_answer (ticket_of client ticket self.old.pool.tickets) self.old.pool.shut self.old.pool.next_conn (moment_of self.old.pool now) tried }
        ensures makes { Logs self.old.pool (connect_marks client ticket (moment_of self.old.pool now) result) self.new.pool }
        ensures balance { Balance self.old.pool self.new.pool (connect_marks client ticket (moment_of self.old.pool now) result) 0 0 }
        ensures becomes { self.new.pool ≡ after_connect client ticket (moment_of self.old.pool now) result self.old.pool }
        ensures edge { KeepsEntitled self.old self.new }
    {
        let mut steps = Steps::<L>::new(blank);
        self.finish_connect_counted(client, ticket, now, tried, &mut steps)
    }

    /// The same; each look at the line is a step.
    pub fn finish_connect_counted<L: Ledger>(
        &mut self,
        client: u32,
        ticket: u64,
        now: Moment,
        tried: Tried<C>,
        steps: &mut Steps<L>,
    ) -> AfterConnect<C>
        ensures marks { (marks : List Mark) → StandsFor self.old.pool marks →
            result ≡ connect_answer (ticket_of client ticket self.old.pool.tickets) (list_any is_shut marks) (next_conn marks) (moment_of self.old.pool now) tried }
        ensures answer { result ≡ connect_answer (ticket_of client ticket self.old.pool.tickets) self.old.pool.shut self.old.pool.next_conn (moment_of self.old.pool now) tried }
        ensures makes { Logs self.old.pool (connect_marks client ticket (moment_of self.old.pool now) result) self.new.pool }
        ensures balance { Balance self.old.pool self.new.pool (connect_marks client ticket (moment_of self.old.pool now) result) 0 0 }
        ensures becomes { self.new.pool ≡ after_connect client ticket (moment_of self.old.pool now) result self.old.pool }
        ensures cost { Looks self.old self.new steps.old steps.new }
    {
        let moment = self.pool.moment(now);
        self.pool.sound();
        let after = self.pool.finish_connect(client, ticket, moment, tried);
        self.pool.sound();
        line::serve(&self.pool, &mut self.line, steps);
        after
    }
}
