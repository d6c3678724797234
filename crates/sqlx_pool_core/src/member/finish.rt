//! The steps that end a poll: what a test and what a connect came to.

ghost use Rattle.std.specs.Prelude.{◌≡◌, ℕ, ◌+◌, ◌-◌, ◌*◌, ◌/◌, ◌^◌, ◌<◌, ◌≤◌, min, List, [], ◌∷◌, Option, Some, None, IfSome, length, true, if◌then◌else◌, not};
ghost use Rattle.sqlx_pool_marks.specs.declared.mark.Mark.{Mark};
ghost use Rattle.sqlx_pool_marks.specs.Backoff.{next_wait, cap};
ghost use Rattle.sqlx_pool_lists.specs.declared.ticket.Phase.{Phase};
ghost use Rattle.sqlx_pool_lists.specs.declared.steps.AfterTest.TheVariants as tested;
ghost use Rattle.sqlx_pool_lists.specs.Core.{ticket_of, is_out};
ghost use Rattle.sqlx_pool_lists.specs.Sound.{IsSound};
ghost use Rattle.sqlx_pool_lists.specs.StandsFor.{StandsIn};
ghost use Rattle.sqlx_pool_lists.specs.Makes.{MakesIn};
ghost use Rattle.sqlx_pool_core.specs.Numbers.{Draws, Stays};
ghost use Rattle.sqlx_pool_lists.specs.Balance.{Balance};
ghost use Rattle.sqlx_pool_lists.specs.PollSteps.{phase_for, accepted_raw, opened_raw, tested_at, judged, may_test_next, after_refusal, test_answer, verdict_answer, test_marks, after_test, connect_answer, connect_marks, after_connect, wait_of};
ghost use Rattle.sqlx_pool_lists.specs.Edits.{at_moment, core_without_ticket, tested_so_far, to_connect, to_back_off, with_ticket, lent_to, opened};

use super::Member;
use sqlx_pool_lists::{
    AfterConnect, AfterTest, Idle, Lent, OwnedConn, Phase, Ticket, Tried, Verdict,
};
use sqlx_text::Moment;

// The first wait after a refused connect, in nanoseconds.
const FIRST_WAIT: u128 = 10_000_000;

// The number that a verdict names.
fn judged_of<C>(verdict: &Verdict<C>) -> u64
    ensures { result ≡ judged verdict.now }
{
    match verdict {
        Verdict::Accepted(lent) => lent.id,
        Verdict::Refused(conn) => *conn,
    }
}

// When the connection under test was opened, where it is this one.
fn tested_since(ticket: &Ticket, conn: u64) -> Option<Moment>
    ensures { result ≡ tested_at conn (Some ticket.now.phase) }
{
    match ticket.phase {
        Phase::Testing {
            conn: tested,
            created,
            ..
        } if conn == tested => Some(created),
        _ => None,
    }
}

// How many connections were tested in this poll, where the one under test is refused.
fn tested_so_far(ticket: &Ticket) -> u64
    ensures { result ≡ tested_so_far ticket.now.phase }
{
    match ticket.phase {
        Phase::Testing { before, .. } => u64::from(before) + 1,
        _ => 0,
    }
}

// How long the next refused connect makes a ticket wait.
fn wait_after(ticket: &Ticket) -> u128
    ensures { result ≡ wait_of ticket.now }
{
    let cap = ticket
        .deadline
        .saturating_sub(u128::from(ticket.first_try.0))
        / 5;
    match ticket.last_wait {
        None => FIRST_WAIT,
        Some(wait) => wait.saturating_mul(2).min(cap),
    }
}

impl<C> Member<C> {
    // Ends a ticket.
    pub(super) fn end_ticket(&mut self, number: u64)
        ensures { self.new ≡ core_without_ticket number self.old }
    {
        self.tickets.end(number);
    }

    // Lends the connection that is under test for a ticket, and ends the ticket.
    fn lend_tested(&mut self, found: Ticket, conn: u64, created: Moment)
        requires tested { tested_at conn (Some found.phase) ≡ Some created }
        requires found { ticket_of found.client found.number self.old.tickets ≡ Some found }
        ensures { self.new ≡ core_without_ticket found.number (lent_to found.client conn created self.old) }
    {
        let client = found.client;
        self.held.push_reserved(OwnedConn {
            conn,
            client,
            created,
        });
        self.tickets.end(found.number);
    }

    // The connection that was under test for a ticket is gone: the ticket connects.
    fn connect_untested(&mut self, found: Ticket)
        requires out { is_out found.phase ≡ true }
        requires found { ticket_of found.client found.number self.old.tickets ≡ Some found }
        ensures { self.new ≡ record self.old { tickets = with_ticket found.number to_connect self.old.tickets } }
    {
        let phase = Phase::Connecting;
        self.tickets.put(Ticket { phase, ..found });
    }

    // The connection that was under test for a ticket is gone: the first idle one is tested.
    fn test_next(&mut self, found: Ticket, before: u32) -> Idle<C>
        requires some { 0 < length self.old.idle }
        requires out { is_out found.phase ≡ true }
        requires before { before ≡ tested_so_far found.phase }
        requires found { ticket_of found.client found.number self.old.tickets ≡ Some found }
        ensures first { self.old.idle ≡ result ∷ self.new.idle }
        ensures becomes { self.new ≡ after_test found.client found.number (tested.Test result) self.old }
    {
        let Some(idle) = self.idle.pop_front() else {
            unreachable!();
        };
        let phase = Phase::Testing {
            conn: idle.lent.id,
            created: idle.lent.created,
            before,
        };
        self.tickets.put(Ticket { phase, ..found });
        idle
    }

    // What follows a refused test: the next one, where it may be, else a connect.
    fn refused_test(&mut self, found: Ticket) -> AfterTest<C>
        requires out { is_out found.phase ≡ true }
        requires found { ticket_of found.client found.number self.old.tickets ≡ Some found }
        ensures answer { result ≡ after_refusal (may_test_next self.old.options.idle_tries (Some found.phase)) self.old.idle }
        ensures becomes { self.new ≡ after_test found.client found.number result self.old }
    {
        let tested = tested_so_far(&found);
        if tested < u64::from(self.options.get_idle_tries()) && !self.idle.is_empty() {
            AfterTest::Test(self.test_next(found, tested as u32))
        } else {
            self.connect_untested(found);
            AfterTest::Connect
        }
    }

    /// Tells what the test of an idle connection came to.
    pub fn finish_test(&mut self, client: u32, ticket: u64, verdict: Verdict<C>) -> AfterTest<C>
        ensures answer { result ≡ verdict_answer client ticket self.old.closed self.old verdict }
        ensures makes { (marks : List Mark) → StandsIn self.old marks → MakesIn self.old.options.max_connections marks (test_marks client ticket (judged verdict) result) self.new }
        ensures stays { Stays self.old self.new }
        ensures draws { Draws self.old self.new (test_marks client ticket (judged verdict) result) }
        ensures balance { Balance self.old self.new (test_marks client ticket (judged verdict) result) 0 0 }
        ensures becomes { self.new ≡ after_test client ticket result self.old }
    {
        self.test_done(client, ticket, verdict)
    }

    // What a test came to.
    fn test_done(&mut self, client: u32, ticket: u64, verdict: Verdict<C>) -> AfterTest<C>
        ensures answer { result ≡ verdict_answer client ticket self.old.closed self.old verdict }
        ensures becomes { self.new ≡ after_test client ticket result self.old }
        ensures sound { IsSound self.old }
    {
        let Some(found) = self.find(client, ticket) else {
            return AfterTest::NotHeld(verdict);
        };
        let Some(created) = tested_since(&found, judged_of(&verdict)) else {
            return AfterTest::NotHeld(verdict);
        };
        if self.closed {
            self.end_ticket(ticket);
            return AfterTest::Closed(accepted(verdict));
        }
        match verdict {
            Verdict::Accepted(lent) => {
                self.lend_tested(found, lent.id, created);
                AfterTest::Ready(Lent { created, ..lent })
            }
            Verdict::Refused(_) => self.refused_test(found),
        }
    }

    // Opens the next connection for a ticket that connects, lends it, and ends the ticket.
    fn lend_new(&mut self, found: Ticket, moment: Moment, raw: C) -> Lent<C>
        requires numbers { self.old.next_conn < 2 ^ 64 - 1 }
        requires connects { found.phase ≡ Phase.Connecting }
        requires found { ticket_of found.client found.number self.old.tickets ≡ Some found }
        ensures lent { result ≡ record { id = self.old.next_conn; created = moment; raw = raw } }
        ensures becomes { self.new ≡ at_moment moment.0 (core_without_ticket found.number (lent_to found.client self.old.next_conn moment (opened self.old))) }
    {
        let conn = self.next_conn;
        self.held.push_reserved(OwnedConn {
            conn,
            client: found.client,
            created: moment,
        });
        self.tickets.end(found.number);
        self.next_conn += 1;
        self.last = moment;
        Lent {
            id: conn,
            created: moment,
            raw,
        }
    }

    // A ticket whose connect was refused waits for its next try, which is due at the moment that is answered.
    fn back_off(&mut self, found: Ticket, moment: Moment) -> u128
        requires connects { found.phase ≡ Phase.Connecting }
        requires found { ticket_of found.client found.number self.old.tickets ≡ Some found }
        ensures until { result ≡ moment.0 + wait_of found }
        ensures becomes { self.new ≡ at_moment moment.0 (record self.old { tickets = with_ticket found.number (λ x. to_back_off (wait_of x) result x) self.old.tickets }) }
    {
        let wait = wait_after(&found);
        let until = u128::from(moment.0) + wait;
        let ticket = Ticket {
            phase: Phase::Backoff { until },
            last_wait: Some(wait),
            ..found
        };
        self.tickets.put(ticket);
        self.last = moment;
        until
    }

    /// Tells what a connect came to at a moment. A new connection has it as that of its opening.
    pub fn finish_connect(
        &mut self,
        client: u32,
        ticket: u64,
        moment: Moment,
        tried: Tried<C>,
    ) -> AfterConnect<C>
        requires numbers { self.old.next_conn < 2 ^ 64 - 1 }
        ensures answer { result ≡ connect_answer (ticket_of client ticket self.old.tickets) self.old.closed self.old.next_conn moment.0 tried }
        ensures makes { (marks : List Mark) → StandsIn self.old marks → MakesIn self.old.options.max_connections marks (connect_marks client ticket moment.0 result) self.new }
        ensures stays { Stays self.old self.new }
        ensures draws { Draws self.old self.new (connect_marks client ticket moment.0 result) }
        ensures balance { Balance self.old self.new (connect_marks client ticket moment.0 result) 0 0 }
        ensures becomes { self.new ≡ after_connect client ticket moment.0 result self.old }
    {
        self.connect_done(client, ticket, moment, tried)
    }

    // What a connect came to at a moment.
    fn connect_done(
        &mut self,
        client: u32,
        ticket: u64,
        moment: Moment,
        tried: Tried<C>,
    ) -> AfterConnect<C>
        requires numbers { self.old.next_conn < 2 ^ 64 - 1 }
        ensures answer { result ≡ connect_answer (ticket_of client ticket self.old.tickets) self.old.closed self.old.next_conn moment.0 tried }
        ensures becomes { self.new ≡ after_connect client ticket moment.0 result self.old }
        ensures sound { IsSound self.old }
    {
        let found = match self.find(client, ticket) {
            Some(found) if matches!(found.phase, Phase::Connecting) => found,
            _ => return AfterConnect::NotHeld(tried),
        };
        if self.closed {
            self.end_at(ticket, moment);
            return AfterConnect::Closed(opened_by(tried));
        }
        match tried {
            Tried::Opened(raw) => AfterConnect::Ready(self.lend_new(found, moment, raw)),
            Tried::Rejected | Tried::Transient => AfterConnect::Backoff(self.back_off(
                found, moment,
            )),
            Tried::Fatal => {
                self.end_at(ticket, moment);
                AfterConnect::Ended
            }
        }
    }
}

// The connection that a connect opened.
fn opened_by<C>(tried: Tried<C>) -> Option<C>
    ensures { result ≡ opened_raw tried }
{
    match tried {
        Tried::Opened(raw) => Some(raw),
        _ => None,
    }
}

// The connection of an accepting verdict.
fn accepted<C>(verdict: Verdict<C>) -> Option<C>
    ensures { result ≡ accepted_raw verdict }
{
    match verdict {
        Verdict::Accepted(lent) => Some(lent.raw),
        Verdict::Refused(_) => None,
    }
}
