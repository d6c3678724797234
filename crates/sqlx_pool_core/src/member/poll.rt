//! The start of a poll. Tests and connects run behind it, outside the core.

ghost use Rattle.std.specs.Prelude.{◌≡◌, ℕ, ◌+◌, ◌<◌, ◌≤◌, List, [], ◌∷◌, Option, Some, None, IfSome, length, if◌then◌else◌, not, nat_lt, true};
ghost use Rattle.sqlx_pool_marks.specs.declared.mark.Mark.{Mark};
ghost use Rattle.sqlx_pool_marks.specs.declared.turn.Turn.{Turn};
ghost use Rattle.sqlx_pool_marks.specs.PollTable.{numbered, first_idle};
ghost use Rattle.sqlx_pool_lists.specs.Core.{ticket_of, free};
ghost use Rattle.sqlx_pool_lists.specs.Sound.{IsSound};
ghost use Rattle.sqlx_pool_lists.specs.StandsFor.{StandsIn};
ghost use Rattle.sqlx_pool_core.specs.Numbers.{Draws, Stays};
ghost use Rattle.sqlx_pool_lists.specs.Balance.{Balance};
ghost use Rattle.sqlx_pool_lists.specs.CoreTurn.{is_first_in_line, turn_of, StartMakes};
ghost use Rattle.sqlx_pool_lists.specs.PollSteps.{start_answer, start_marks, started, phase_for};
ghost use Rattle.sqlx_pool_lists.specs.Edits.{at_moment, core_without_ticket, to_try};
ghost use Rattle.sqlx_pool_lists.specs.declared.steps.Start.TheVariants as start;

use super::{Member, NUMBERS};
use sqlx_pool_lists::{Idle, Phase, Start, Ticket};
use sqlx_pool_marks::Turn;
use sqlx_text::Moment;

impl<C> Member<C> {
    // A try, where the numbers of connections aren't used up.
    fn numbered(&self, due: Turn) -> Turn
        ensures { result ≡ numbered self.now.next_conn due }
    {
        if self.next_conn > NUMBERS {
            Turn::Exhausted
        } else {
            due
        }
    }

    // The turn of a ticket that waits, in time and in an open pool.
    fn turn_in_line(&self, entitled: bool) -> Turn
        ensures { result ≡ (if entitled then numbered self.now.next_conn (first_idle self.now.idle) else Turn.Waiting) }
    {
        if !entitled {
            Turn::Waiting
        } else if self.idle.is_empty() {
            self.numbered(Turn::Connect)
        } else {
            self.numbered(Turn::Test)
        }
    }

    /// The ticket is entitled by the pool's own line: fewer waiting tickets precede it than permits are free.
    pub fn is_first(&self, ticket: u64) -> bool
        ensures { result ≡ is_first_in_line ticket self.now }
    {
        self.tickets
            .are_fewer_before(ticket, self.num_free() as usize)
    }

    // What the poll of a ticket comes to at a moment, entitled or not.
    fn turn(&self, ticket: &Ticket, moment: Moment, entitled: bool) -> Turn
        ensures { result ≡ turn_of entitled self.now.closed moment.0 self.now (Some ticket.now) }
    {
        if matches!(ticket.phase, Phase::Testing { .. } | Phase::Connecting) {
            return Turn::NotHeld;
        }
        if self.closed {
            return Turn::Closed;
        }
        if ticket.deadline <= u128::from(moment.0) {
            return Turn::TimedOut;
        }
        match ticket.phase {
            Phase::Backoff { until } if u128::from(moment.0) < until => Turn::Backoff(until),
            Phase::Backoff { .. } => self.numbered(Turn::Connect),
            _ => self.turn_in_line(entitled),
        }
    }

    // This client's ticket of this number.
    pub fn find(&self, client: u32, number: u64) -> Option<Ticket>
        ensures found { result ≡ ticket_of client number self.now.tickets }
        ensures own { IfSome result (λ x. ticket_of x.client x.number self.now.tickets ≡ Some x) }
        ensures number { IfSome result (λ x. x.number ≡ number) }
        ensures client { IfSome result (λ x. x.client ≡ client) }
        ensures sound { IsSound self.now }
    {
        self.tickets.find(client, number)
    }

    // Ends a ticket at a moment.
    pub(super) fn end_at(&mut self, number: u64, moment: Moment)
        ensures { self.new ≡ at_moment moment.0 (core_without_ticket number self.old) }
    {
        self.tickets.end(number);
        self.last = moment;
    }

    /// Begins a poll at a moment. A ticket that waits leaves the line only where it is entitled.
    pub fn start(&mut self, client: u32, ticket: u64, moment: Moment, entitled: bool) -> Start<C>
        requires permit { entitled ≡ true → 0 < free self.old }
        ensures answer { result ≡ start_answer (turn_of entitled self.old.closed moment.0 self.old (ticket_of client ticket self.old.tickets)) self.old.idle }
        ensures makes { (marks : List Mark) → StandsIn self.old marks → StartMakes self.old marks ticket entitled (start_marks ticket (phase_for client ticket self.old.tickets) result) self.new }
        ensures stays { Stays self.old self.new }
        ensures draws { Draws self.old self.new (start_marks ticket (phase_for client ticket self.old.tickets) result) }
        ensures balance { Balance self.old self.new (start_marks ticket (phase_for client ticket self.old.tickets) result) 0 0 }
        ensures becomes { self.new ≡ started ticket moment.0 result self.old }
    {
        self.start_at(client, ticket, moment, entitled)
    }

    // Begins a poll at a moment. A ticket that waits leaves the line only where it is entitled.
    fn start_at(&mut self, client: u32, ticket: u64, moment: Moment, entitled: bool) -> Start<C>
        requires permit { entitled ≡ true → 0 < free self.old }
        ensures answer { result ≡ start_answer (turn_of entitled self.old.closed moment.0 self.old (ticket_of client ticket self.old.tickets)) self.old.idle }
        ensures becomes { self.new ≡ started ticket moment.0 result self.old }
        ensures sound { IsSound self.old }
    {
        let Some(found) = self.find(client, ticket) else {
            return Start::NotHeld;
        };
        match self.turn(&found, moment, entitled) {
            Turn::NotHeld => Start::NotHeld,
            Turn::Waiting => Start::Waiting,
            Turn::Backoff(until) => Start::Backoff(until),
            Turn::Closed => {
                self.end_at(ticket, moment);
                Start::Closed
            }
            Turn::TimedOut => {
                self.end_at(ticket, moment);
                Start::TimedOut
            }
            Turn::Exhausted => {
                self.end_at(ticket, moment);
                Start::Exhausted
            }
            Turn::Test => Start::Test(self.begin_test(found, moment, entitled)),
            Turn::Connect => {
                self.begin_connect(found, moment, entitled);
                Start::Connect
            }
        }
    }

    // The ticket leaves the line with the first idle connection, which is to be tested.
    fn begin_test(&mut self, found: Ticket, moment: Moment, _entitled: bool) -> Idle<C>
        requires turn { turn_of _entitled self.old.closed moment.0 self.old (Some found) ≡ Turn.Test }
        requires permit { _entitled ≡ true → 0 < free self.old }
        requires found { ticket_of found.client found.number self.old.tickets ≡ Some found }
        ensures first { self.old.idle ≡ result ∷ self.new.idle }
        ensures becomes { self.new ≡ started found.number moment.0 (start.Test result) self.old }
    {
        let Some(idle) = self.idle.pop_front() else {
            unreachable!();
        };
        let phase = Phase::Testing {
            conn: idle.lent.id,
            created: idle.lent.created,
            before: 0,
        };
        let ticket = Ticket {
            phase,
            first_try: moment,
            last_wait: None,
            ..found
        };
        self.tickets.put(ticket);
        self.last = moment;
        idle
    }

    // The ticket connects: one that waited leaves the line.
    fn begin_connect(&mut self, found: Ticket, moment: Moment, _entitled: bool)
        requires turn { turn_of _entitled self.old.closed moment.0 self.old (Some found) ≡ Turn.Connect }
        requires permit { _entitled ≡ true → 0 < free self.old }
        requires found { ticket_of found.client found.number self.old.tickets ≡ Some found }
        ensures becomes { self.new ≡ started found.number moment.0 start.Connect self.old }
    {
        self.tickets.put(trying(found, moment));
        self.last = moment;
    }
}

// A ticket that connects: one that waited leaves the line at this moment.
fn trying(found: Ticket, moment: Moment) -> Ticket
    ensures { result ≡ to_try moment.0 found }
{
    match found.phase {
        Phase::Waiting => Ticket {
            phase: Phase::Connecting,
            first_try: moment,
            last_wait: None,
            ..found
        },
        _ => Ticket {
            phase: Phase::Connecting,
            ..found
        },
    }
}
