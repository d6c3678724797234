//! How many connections, tickets and places a pool of a family has, and what a step would find.

ghost use Rattle.std.specs.Prelude.{◌≡◌, ◌<◌, ◌≤◌, length, is_some};
ghost use Rattle.sqlx_pool_lists.specs.Core.{loan_of, size};
ghost use Rattle.sqlx_pool_lists.specs.Balance.{marks_due};
ghost use Rattle.sqlx_pool_lists.specs.PollSteps.{phase_for, is_in_line, try_lent};
ghost use Rattle.sqlx_family.specs.Pools.{pool_in};
ghost use Rattle.sqlx_family.specs.RootLine.{passes_in};

use super::Family;
use sqlx_pool_lists::{Numbers, PoolOptions};

impl<C> Family<C> {
    /// How a pool was set up.
    pub fn options(&self, pool: u32) -> &PoolOptions
        requires named { pool < length self.now.pools }
        ensures { result.now ≡ (pool_in pool self.now).options }
    {
        self.pools[pool as usize].core.options()
    }

    /// How many connections of a pool there are or may be: at most its maximum.
    pub fn size(&self, pool: u32) -> u32
        requires named { pool < length self.now.pools }
        ensures size { result ≡ size (pool_in pool self.now) }
        ensures most { result ≤ (pool_in pool self.now).options.max_connections }
    {
        let pool = &self.pools[pool as usize];
        pool.core.sound();
        pool.core.size()
    }

    /// How many connections of a pool are idle: at most its maximum.
    pub fn num_idle(&self, pool: u32) -> usize
        requires named { pool < length self.now.pools }
        ensures idle { result ≡ length (pool_in pool self.now).idle }
        ensures most { result ≤ (pool_in pool self.now).options.max_connections }
    {
        let pool = &self.pools[pool as usize];
        pool.core.sound();
        pool.core.num_idle()
    }

    /// How many connections of a pool have an owner.
    pub fn num_held(&self, pool: u32) -> usize
        requires named { pool < length self.now.pools }
        ensures { result ≡ length (pool_in pool self.now).held }
    {
        self.pools[pool as usize].core.num_held()
    }

    /// How many connections of a pool were leaked.
    pub fn num_leaked(&self, pool: u32) -> u32
        requires named { pool < length self.now.pools }
        ensures { result ≡ (pool_in pool self.now).leaked }
    {
        self.pools[pool as usize].core.num_leaked()
    }

    /// How many tickets of a pool haven't ended, those in backoff among them.
    pub fn num_tickets(&self, pool: u32) -> usize
        requires named { pool < length self.now.pools }
        ensures { result ≡ length (pool_in pool self.now).tickets }
    {
        self.pools[pool as usize].core.num_tickets()
    }

    /// How many places of a pool are held for its minimum.
    pub fn num_places(&self, pool: u32) -> u32
        requires named { pool < length self.now.pools }
        ensures { result ≡ (pool_in pool self.now).places }
    {
        self.pools[pool as usize].core.num_places()
    }

    /// Whether the client owns the pool's connection of this number.
    pub fn owns(&self, pool: u32, client: u32, id: u64) -> bool
        requires named { pool < length self.now.pools }
        ensures { result ≡ is_some (loan_of client id (pool_in pool self.now).held) }
    {
        self.pools[pool as usize].core.owns(client, id)
    }

    /// Whether the client has a ticket of this number that stands in the pool's line.
    pub fn waits(&self, pool: u32, client: u32, ticket: u64) -> bool
        requires named { pool < length self.now.pools }
        ensures { result ≡ is_in_line (phase_for client ticket (pool_in pool self.now).tickets) }
    {
        self.pools[pool as usize].core.waits(client, ticket)
    }

    /// How many marks a pool makes at most before it is closed and empty, where nothing new begins.
    pub fn due(&self, pool: u32) -> usize
        requires named { pool < length self.now.pools }
        ensures { result ≡ marks_due (pool_in pool self.now) }
    {
        self.pools[pool as usize].core.due()
    }

    /// Whether `try_acquire` would lend a connection of a pool.
    pub fn may_lend(&self, pool: u32) -> bool
        requires named { pool < length self.now.pools }
        ensures { result ≡ is_some (try_lent (passes_in pool self.now) (pool_in pool self.now).idle) }
    {
        self.passes(pool) && self.num_idle(pool) > 0
    }

    /// How many pools there are. Their names are the numbers below that.
    pub fn num_pools(&self) -> usize
        ensures { result ≡ length self.now.pools }
    {
        self.pools.len()
    }

    /// The numbers that the next ticket and the next connection of any pool get.
    pub fn numbers(&self) -> Numbers
        ensures { result ≡ record { next_ticket = self.now.shared.next_ticket; next_conn = self.now.shared.next_conn } }
    {
        Numbers {
            next_ticket: self.shared.next_ticket,
            next_conn: self.shared.next_conn,
        }
    }
}
