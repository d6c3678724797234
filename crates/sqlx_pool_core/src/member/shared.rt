//! What a pool of a family hears of the others, and the permits that it owns.

ghost use Rattle.std.specs.Prelude.{◌≡◌, ℕ, ◌+◌, ◌<◌, ◌≤◌, ◌^◌, not, ◌&&◌, nat_lt, true, false};
ghost use Rattle.sqlx_pool_lists.specs.Core.{taken, waiting};
ghost use Rattle.sqlx_pool_lists.specs.Shared.{told, shared_of, with_permits, waiting_before, wants_permits, waits_in_time};

use super::Member;
use sqlx_pool_lists::{Phase, Shared};
use sqlx_text::Moment;

impl<C> Member<C> {
    /// The pool hears of the others.
    pub fn hear(&mut self, closed: bool, shared: Shared)
        requires tickets { self.old.next_ticket ≤ shared.next_ticket }
        requires few { shared.next_ticket ≤ 2 ^ 63 + 1 }
        requires conns { self.old.next_conn ≤ shared.next_conn }
        requires own { closed ≡ false → self.old.shut ≡ false }
        ensures { self.new ≡ told closed shared self.old }
    {
        self.closed = closed;
        self.next_ticket = shared.next_ticket;
        self.next_conn = shared.next_conn;
        self.last = shared.last;
    }

    /// What the pool knows of what all share.
    pub fn shared(&self) -> Shared
        ensures { result ≡ shared_of self.now }
    {
        Shared {
            next_ticket: self.next_ticket,
            next_conn: self.next_conn,
            last: self.last,
        }
    }

    /// How many permits the pool owns.
    pub fn permits(&self) -> u32
        ensures { result ≡ self.now.permits }
    {
        self.permits
    }

    /// The pool owns so many permits from now on.
    pub fn set_permits(&mut self, permits: u32)
        requires paid { taken self.old ≤ permits }
        requires owns { permits ≤ self.old.options.max_connections }
        ensures { self.new ≡ with_permits permits self.old }
    {
        self.permits = permits;
    }

    /// Whether the pool owns fewer permits than its maximum.
    pub fn wants_permits(&self) -> bool
        ensures { result ≡ wants_permits self.now }
    {
        self.permits < self.options.get_max_connections()
    }

    /// How many tickets wait.
    pub fn num_waiting(&self) -> usize
        ensures { result ≡ waiting self.now.tickets }
    {
        self.tickets.waiting()
    }

    /// How many of the pool's waiting tickets have a smaller number.
    pub fn waiting_before(&self, ticket: u64) -> usize
        ensures { result ≡ waiting_before ticket self.now }
    {
        self.tickets.waiting_before(ticket)
    }

    /// Whether the client's ticket waits, and its deadline isn't there at this moment.
    pub fn waits_in_time(&self, client: u32, ticket: u64, moment: Moment) -> bool
        ensures { result ≡ waits_in_time client ticket moment.0 self.now }
    {
        let Some(found) = self.find(client, ticket) else {
            return false;
        };
        matches!(found.phase, Phase::Waiting) && u128::from(moment.0) < found.deadline
    }
}
