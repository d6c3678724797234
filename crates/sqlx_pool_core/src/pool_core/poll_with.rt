//! A whole poll: its steps, with the outside asked between them.

ghost use Rattle.std.specs.Prelude.{◌≡◌, ◌≤◌, false, Some};
ghost use Rattle.sqlx_pool_lists.specs.declared.ticket.Phase.TheVariants.{Connecting};
ghost use Rattle.sqlx_pool_lists.specs.Core.{ticket_of};
ghost use Rattle.sqlx_pool_core.specs.Logs.{Logs, moment_of};
ghost use Rattle.sqlx_pool_lists.specs.CoreTurn.{core_turn};
ghost use Rattle.sqlx_pool_core.specs.CameTo.{IsForGood};
ghost use Rattle.sqlx_pool_core.specs.LonePool.{KeepsEntitled, LeavesEdge};
ghost use Rattle.sqlx_pool_core.specs.PollParts.{BacksOff, IfBackoff, IfReady, IfRefused, TurnsByTable, WhereIdleRests, tried_answer, next_try_at};
ghost use Rattle.sqlx_pool_lists.specs.PollSteps.{phase_for, start_answer, judged, tested_at, may_test_next, test_answer, test_marks, after_test, connect_answer, connect_marks, after_connect};
ghost use Rattle.sqlx_pool_core.specs.Walk.{GoesOn, IfAnswer, Polls, Test, Connect, first, last, tried_of};

use super::PoolCore;
use crate::Outside;
use crate::idle_check::{self, Opening};
use sqlx_pool_lists::{AfterConnect, AfterTest, Idle, Polled, Start, Tried, Verdict};
use sqlx_text::Moment;
use std::alloc::Global;

impl<C> PoolCore<C> {
    // Tells what the test of the connection came to that is under test for a ticket in an open pool.
    fn test_ended(
        &mut self,
        client: u32,
        ticket: u64,
        _created: Moment,
        verdict: Verdict<C>,
    ) -> AfterTest<C>
        requires tested { tested_at (judged verdict) (phase_for client ticket self.old.pool.tickets) ≡ Some _created }
        requires open { self.old.pool.shut ≡ false }
        ensures answer { result ≡ test_answer (Some _created) false (may_test_next self.old.pool.options.idle_tries (phase_for client ticket self.old.pool.tickets)) self.old.pool.idle verdict }
        ensures makes { Logs self.old.pool (test_marks client ticket (judged verdict) result) self.new.pool }
        ensures becomes { self.new.pool ≡ after_test client ticket result self.old.pool }
        ensures edge { KeepsEntitled self.old self.new }
        ensures still { LeavesEdge self.old self.new }
    {
        self.finish_test(client, ticket, verdict)
    }

    // Tells what a connect came to, for a ticket that connects in an open pool, at the pool's own moment.
    fn connect_ended(
        &mut self,
        client: u32,
        ticket: u64,
        moment: Moment,
        tried: Tried<C>,
    ) -> AfterConnect<C>
        requires connecting { phase_for client ticket self.old.pool.tickets ≡ Some Connecting }
        requires open { self.old.pool.shut ≡ false }
        requires at { moment.0 ≡ self.old.pool.last }
        ensures tells { result ≡ connect_answer (ticket_of client ticket self.old.pool.tickets) self.old.pool.shut self.old.pool.next_conn moment.0 tried }
        ensures answer { result ≡ tried_answer self.old.pool.next_conn moment.0 (next_try_at moment.0 (ticket_of client ticket self.old.pool.tickets)) tried }
        ensures makes { Logs self.old.pool (connect_marks client ticket moment.0 result) self.new.pool }
        ensures becomes { self.new.pool ≡ after_connect client ticket moment.0 result self.old.pool }
        ensures edge { KeepsEntitled self.old self.new }
    {
        self.finish_connect(client, ticket, moment, tried)
    }

    // Tells what a try came to, and ends the poll.
    fn tell(&mut self, client: u32, ticket: u64, moment: Moment, opening: Opening<C>) -> Polled<C>
        requires connecting { phase_for client ticket self.old.pool.tickets ≡ Some Connecting }
        requires open { self.old.pool.shut ≡ false }
        requires at { moment.0 ≡ self.old.pool.last }
        ensures answer { result ≡ last (connect_answer (ticket_of client ticket self.old.pool.tickets) self.old.pool.shut self.old.pool.next_conn moment.0 (tried_of opening)) opening }
        ensures becomes { self.new.pool ≡ after_connect client ticket moment.0
            (connect_answer (ticket_of client ticket self.old.pool.tickets) self.old.pool.shut self.old.pool.next_conn moment.0 (tried_of opening)) self.old.pool }
        ensures makes { Logs self.old.pool
            (connect_marks client ticket moment.0 (connect_answer (ticket_of client ticket self.old.pool.tickets) self.old.pool.shut self.old.pool.next_conn moment.0 (tried_of opening))) self.new.pool }
        ensures edge { KeepsEntitled self.old self.new }
    {
        match opening {
            Opening::Opened(raw) => match self.connect_ended(
                client,
                ticket,
                moment,
                Tried::Opened(raw),
            ) {
                AfterConnect::Ready(lent) => Polled::Ready(lent),
                _ => unreachable!(),
            },
            Opening::Rejected => match self.connect_ended(client, ticket, moment, Tried::Rejected) {
                AfterConnect::Backoff(until) => Polled::Backoff(until),
                _ => unreachable!(),
            },
            Opening::Transient => match self.connect_ended(
                client,
                ticket,
                moment,
                Tried::Transient,
            ) {
                AfterConnect::Backoff(until) => Polled::Backoff(until),
                _ => unreachable!(),
            },
            Opening::Failed(error) => match self.connect_ended(
                client,
                ticket,
                moment,
                Tried::Fatal,
            ) {
                AfterConnect::Ended => Polled::Refused(error),
                _ => unreachable!(),
            },
        }
    }

    // Tries to open a connection for a ticket that connects in an open pool, and ends its poll.
    fn connect<O, X: Outside<C, O>>(
        &mut self,
        alloc: Global,
        client: u32,
        ticket: u64,
        moment: Moment,
        options: &O,
        out: &mut X,
    ) -> Polled<C>
        requires connecting { phase_for client ticket self.old.pool.tickets ≡ Some Connecting }
        requires open { self.old.pool.shut ≡ false }
        requires at { moment.0 ≡ self.old.pool.last }
        ensures goes { GoesOn X.does X.depth options.now client ticket moment.0 Connect self.old.pool self.new.pool out.old out.new result }
        ensures edge { KeepsEntitled self.old self.new }
    {
        let hook = self.options().get_after_connect();
        let opening = idle_check::try_connect::<C, O, X>(alloc, hook, options, out);
        self.tell(client, ticket, moment, opening)
    }

    // Tests the idle connection that was taken for a ticket, and goes on from there: at most `idle_tries` times.
    fn test_taken<O, X: Outside<C, O>>(
        &mut self,
        alloc: Global,
        client: u32,
        ticket: u64,
        moment: Moment,
        idle: Idle<C>,
        options: &O,
        out: &mut X,
    ) -> Polled<C>
        requires tested { tested_at idle.lent.id (phase_for client ticket self.old.pool.tickets) ≡ Some idle.lent.created }
        requires open { self.old.pool.shut ≡ false }
        requires at { moment.0 ≡ self.old.pool.last }
        ensures goes { GoesOn X.does X.depth options.now client ticket moment.0 (Test idle) self.old.pool self.new.pool out.old out.new result }
        ensures edge { KeepsEntitled self.old self.new }
    {
        let set = *self.options();
        let created = idle.lent.created;
        let verdict = idle_check::test::<C, O, X>(&set, idle, moment, out);
        match self.test_ended(client, ticket, created, verdict) {
            AfterTest::Ready(lent) => Polled::Ready(lent),
            AfterTest::Test(next) => self.test_taken::<O, X>(
                alloc, client, ticket, moment, next, options, out,
            ),
            AfterTest::Connect => self.connect::<O, X>(alloc, client, ticket, moment, options, out),
            _ => unreachable!(),
        }
    }

    /// Polls a ticket: the first idle connection is tested by ping and hook where they are set. Where the test refuses
    /// it, it is closed and the next one is tested, at most `idle_tries` in a poll; then, or where none is idle, a
    /// connection is opened. `now` below the last moment counts as the last one.
    pub fn poll_with<O, X: Outside<C, O>>(
        &mut self,
        alloc: Global,
        client: u32,
        ticket: u64,
        now: Moment,
        options: &O,
        out: &mut X,
    ) -> Polled<C>
        ensures polls { Polls X.does X.depth options.now client ticket (moment_of self.old.pool now) self.old.pool self.new.pool out.old out.new result }
        // The turn is the poll table's, by the marks that the core stands for.
        ensures turn { TurnsByTable self.old.pool client ticket (moment_of self.old.pool now) }
        // A connect is refused for good for want of memory, or a fault was counted; it isn't a refusal that may pass.
        ensures cause { IfRefused result (λ e. IsForGood (X.faults out.old) (X.faults out.new) e) }
        // What the turn answers at once is the answer.
        ensures at_once { IfAnswer (first (start_answer (core_turn self.old.pool client ticket (moment_of self.old.pool now)) self.old.pool.idle)) (λ answer. result ≡ answer) }
        // A ticket backs off where that is its turn, or where a refusal was counted.
        ensures backs_off { IfBackoff result (BacksOff (core_turn self.old.pool client ticket (moment_of self.old.pool now)) (X.faults out.old) (X.faults out.new) (X.refusals out.old) (X.refusals out.new)) }
        // The counts never fall.
        ensures counts { (X.faults out.old ≤ X.faults out.new) × (X.refusals out.old ≤ X.refusals out.new) }
        // What is lent has no level open, where a hook looks at it, or else where the idle connections have none.
        ensures rests { WhereIdleRests X.depth self.old.pool out.old (IfReady result (λ lent. X.depth out.new lent.raw ≡ 0)) }
        // The edge stays or moves once, however many steps the poll has, and who was entitled stays so while it waits.
        ensures edge { KeepsEntitled self.old self.new }
    {
        let moment = self.moment(now);
        match self.start(client, ticket, now) {
            Start::NotHeld => Polled::NotHeld,
            Start::Closed => Polled::Closed,
            Start::TimedOut => Polled::TimedOut,
            Start::Exhausted => Polled::Exhausted,
            Start::Waiting => Polled::Waiting,
            Start::Backoff(until) => Polled::Backoff(until),
            Start::Test(idle) => self.test_taken::<O, X>(
                alloc, client, ticket, moment, idle, options, out,
            ),
            Start::Connect => self.connect::<O, X>(alloc, client, ticket, moment, options, out),
        }
    }
}
