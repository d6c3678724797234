//! Who owns a connection, how many connections and tickets there are, and what a step would find.

ghost use Rattle.std.specs.Prelude.{◌≡◌, ℕ, ◌<◌, ◌≤◌, true, nat_lt, List, length, is_some};
ghost use Rattle.sqlx_pool_marks.specs.declared.mark.Mark.{Mark};
ghost use Rattle.sqlx_pool_marks.specs.Marks.{owner_of, tickets_of, loans_of, leaked_of, next_ticket, next_conn};
ghost use Rattle.sqlx_pool_marks.specs.Counts.{asked_in};
ghost use Rattle.sqlx_pool_marks.specs.EventTable.{may_pass};
ghost use Rattle.sqlx_pool_marks.specs.Answers.{owns, lent_past_at, waits_if};
ghost use Rattle.sqlx_pool_lists.specs.StandsFor.{StandsFor};
ghost use Rattle.sqlx_pool_lists.specs.Core.{loan_of, waiting, free};
ghost use Rattle.sqlx_pool_lists.specs.CoreTurn.{is_first_in_line};
ghost use Rattle.sqlx_pool_lists.specs.PollSteps.{phase_for, is_in_line, try_lent};
ghost use Rattle.sqlx_pool_core.specs.KeptLine.{let_in};

use super::PoolCore;
use sqlx_pool_lists::Numbers;

impl<C> PoolCore<C> {
    /// Whether the client owns the connection of this number.
    pub fn owns(&self, client: u32, id: u64) -> bool
        ensures marks { (marks : List Mark) → StandsFor self.now.pool marks → result ≡ owns client (owner_of id marks) }
        ensures owns { result ≡ is_some (loan_of client id self.now.pool.held) }
    {
        self.pool.sound();
        self.pool.owns(client, id)
    }

    /// How many connections have an owner.
    pub fn num_held(&self) -> usize
        ensures marks { (marks : List Mark) → StandsFor self.now.pool marks → result ≡ length (loans_of marks) }
        ensures own { result ≡ length self.now.pool.held }
    {
        self.pool.num_held()
    }

    /// How many connections were leaked.
    pub fn num_leaked(&self) -> u32
        ensures marks { (marks : List Mark) → StandsFor self.now.pool marks → result ≡ leaked_of marks }
        ensures own { result ≡ self.now.pool.leaked }
    {
        self.pool.num_leaked()
    }

    /// How many tickets haven't ended, those in backoff among them.
    pub fn num_tickets(&self) -> usize
        ensures marks { (marks : List Mark) → StandsFor self.now.pool marks → result ≡ length (tickets_of marks) }
        ensures own { result ≡ length self.now.pool.tickets }
    {
        self.pool.num_tickets()
    }

    /// Whether the client has a ticket of this number that stands in the line.
    pub fn waits(&self, client: u32, ticket: u64) -> bool
        ensures marks { (marks : List Mark) → StandsFor self.now.pool marks → result ≡ waits_if (asked_in client ticket (tickets_of marks)) }
        ensures own { result ≡ is_in_line (phase_for client ticket self.now.pool.tickets) }
    {
        self.pool.waits(client, ticket)
    }

    /// How often the edge of the entitled tickets moved: at most once for each ticket that was asked.
    pub fn edge_moves(&self) -> u64
        ensures marks { (marks : List Mark) → StandsFor self.now.pool marks → result < next_ticket marks }
        ensures moves { result ≡ self.now.moves }
        ensures asked { result < self.now.pool.next_ticket }
        ensures let_in { result ≤ let_in self.now.pool }
    {
        self.line.moves()
    }

    /// Behind the ticket that was entitled last: a ticket that waits is entitled exactly where its number is below.
    pub fn edge(&self) -> u64
        ensures edge { result ≡ self.now.edge }
        ensures asked { result ≤ self.now.pool.next_ticket }
        ensures tells { (client ticket : ℕ) → is_in_line (phase_for client ticket self.now.pool.tickets) ≡ true → is_first_in_line ticket self.now.pool ≡ nat_lt ticket result }
    {
        self.pool.sound();
        self.line.edge()
    }

    /// The numbers that the next ticket and the next connection get.
    pub fn numbers(&self) -> Numbers
        ensures marks { (marks : List Mark) → StandsFor self.now.pool marks → result ≡ record { next_ticket = next_ticket marks; next_conn = next_conn marks } }
        ensures own { result ≡ record { next_ticket = self.now.pool.next_ticket; next_conn = self.now.pool.next_conn } }
    {
        self.pool.numbers()
    }

    /// How many places are held for the minimum.
    pub fn num_places(&self) -> u32
        ensures { result ≡ self.now.pool.places }
    {
        self.pool.num_places()
    }

    /// Whether `try_acquire` would lend a connection.
    pub fn may_lend(&self) -> bool
        ensures marks { (marks : List Mark) → StandsFor self.now.pool marks → result ≡ is_some (lent_past_at self.now.pool.options.max_connections self.now.pool.places marks) }
        ensures own { result ≡ is_some (try_lent (may_pass self.now.pool.shut (waiting self.now.pool.tickets) (free self.now.pool)) self.now.pool.idle) }
    {
        let passes = self.pool.may_pass();
        self.pool.may_lend(passes)
    }
}
