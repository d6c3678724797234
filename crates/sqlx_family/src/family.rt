//! A root and its children, and how permits move between them. The steps stand in the modules below.

ghost use Rattle.std.specs.Prelude.{◌≡◌, ℕ, ◌+◌, ◌-◌, ◌<◌, ◌≤◌, ◌^◌, ◌||◌, max, true, false, Option, Some, None, length, IfOk, OnOk, OnErr, IfErr, Err, ◌↔◌, ◌⊎◌};
ghost use Rattle.sqlx_text.specs.declared.Error.{Error};
ghost use Rattle.sqlx_pool_lists.specs.Core.{free};
ghost use Rattle.sqlx_family.specs.Pools.{entry_of, root_of, counts_as_closed, new_family, with_child};
ghost use Rattle.sqlx_family.specs.IsFamily.{IsFamily};
ghost use Rattle.sqlx_family.specs.RootLine.{ahead, lined_ahead, root_admits, has_permit_left, passes_in};
ghost use Rattle.sqlx_family.specs.Permits.{moved, settled, owned_by, with_less};

mod ask;
mod closing;
mod counts;
mod finish;
mod give;
mod maintenance;
mod poll;

use sqlx_pool_core::{Member, Shared};
use sqlx_pool_lists::PoolOptions;
use sqlx_text::{Error, Moment, OutOfMemory};
use std::alloc::Global;
use std::marker::Model;

// So many pools have a name.
const MOST: usize = (1 << 32) - 1;

// A pool of a family.
#[derive(Drop)]
struct FamilyPool<C> {
    core: Member<C>,
    // What it frees goes to the root.
    retired: bool,
}

/// A root and its children. A pool's name is its number in the order of adding, 0 being the root's.
pub struct Family<C> {
    pools: Vec<FamilyPool<C>>,
    shared: Shared,
}

impl<C: Drop> Drop for Family<C> {
    fn drop(self) {
        let Family { pools, shared: _ } = self;
        drop(pools);
    }
}

impl<C> Model for Family<C> {
    ghost use Rattle.sqlx_family.specs.Pools.{Pools, pools_of};
    ghost use Rattle.sqlx_family.specs.IsFamily.{IsFamily};

    ghost Value = { Pools C };

    ghost view = { λ s. pools_of s.pools.items s.shared };

    ghost invariant = { λ s. IsFamily (pools_of s.pools.items s.shared) };
}

impl<C> FamilyPool<C> {
    // How many waiting tickets precede this one, or wait at all.
    fn ahead(&self, ticket: Option<u64>) -> usize
        ensures { result ≡ ahead ticket self.now.core }
    {
        match ticket {
            Some(ticket) => self.core.waiting_before(ticket),
            None => self.core.num_waiting(),
        }
    }

    // How many of a child's waiting tickets precede this one in the root's line, or stand there at all.
    fn lined_ahead(&self, ticket: Option<u64>) -> usize
        ensures { result ≡ lined_ahead ticket self.now }
    {
        if self.core.wants_permits() {
            self.ahead(ticket)
        } else {
            0
        }
    }
}

impl<C> Family<C> {
    /// A family of one pool, the root, which owns as many permits as its maximum.
    pub fn root(alloc: Global, options: PoolOptions) -> Result<Self, OutOfMemory>
        requires some { 1 ≤ options.max_connections }
        requires tries { (1 ≤ options.idle_tries) × (options.idle_tries ≤ 16) }
        ensures { IfOk result (λ f. f ≡ new_family options) }
    {
        let Ok(mut pools) = Vec::with_capacity(alloc, 1) else {
            return Err(OutOfMemory);
        };
        let Ok(core) = Member::new(alloc, options, options.get_max_connections()) else {
            pools.destroy_empty();
            return Err(OutOfMemory);
        };
        core.sound();
        let retired = false;
        pools.push_reserved(FamilyPool { core, retired });
        let shared = Shared {
            next_ticket: 1,
            next_conn: 1,
            last: Moment(0),
        };
        Ok(Family { pools, shared })
    }

    /// Adds a child, which owns no permit yet, and answers its name. It is `Exhausted` where 2^32 - 1 pools are there.
    pub fn add_child(&mut self, options: PoolOptions) -> Result<u32, Error>
        requires some { 1 ≤ options.max_connections }
        requires tries { (1 ≤ options.idle_tries) × (options.idle_tries ≤ 16) }
        requires fits { options.max_connections ≤ (root_of self.old).options.max_connections }
        ensures name { IfOk result (λ q. q ≡ length self.old.pools) }
        ensures exhausted { (result ≡ Err Error.Exhausted) ↔ (length self.old.pools ≡ 2 ^ 32 - 1) }
        ensures causes { IfErr result (λ e. (e ≡ Error.Exhausted) ⊎ (e ≡ Error.OutOfMemory)) }
        ensures becomes { OnOk result (self.new ≡ with_child options self.old) }
        ensures err { OnErr result (self.new ≡ self.old) }
    {
        let name = self.pools.len();
        if name == MOST {
            return Err(Error::Exhausted);
        }
        if self.pools.reserve(1).is_err() {
            return Err(Error::OutOfMemory);
        }
        let alloc = *self.pools.allocator();
        let Ok(core) = Member::new(alloc, options, 0) else {
            return Err(Error::OutOfMemory);
        };
        let retired = false;
        self.pools.push_reserved(FamilyPool { core, retired });
        Ok(name as u32)
    }

    /// What holds of every family: the permits that its pools own add up to the root's maximum, each pool owns a permit for
    /// all that is under way in it and no more than its own maximum, and the numbers have a bound. It does nothing.
    pub fn bounds(&self)
        ensures { IsFamily self.now }
    {
        let _ = &self.shared;
    }

    /// How many permits a pool owns.
    pub fn owned(&self, pool: u32) -> u32
        requires named { pool < length self.now.pools }
        ensures { result ≡ owned_by pool self.now }
    {
        self.pools[pool as usize].core.permits()
    }

    // A pool counts as closed where it or the root is shut.
    fn counts_as_closed(&self, pool: u32) -> bool
        requires named { pool < length self.now.pools }
        ensures { result ≡ counts_as_closed pool self.now }
    {
        self.pools[pool as usize].core.is_shut() || self.pools[0].core.is_shut()
    }

    // Fewer tickets precede this one in the root's line, or stand there at all, than the root has free permits.
    fn root_admits(&self, ticket: Option<u64>) -> bool
        ensures { result ≡ root_admits ticket self.now }
    {
        let root = &self.pools[0];
        let free = root.core.num_free() as usize;
        let ahead = root.ahead(ticket);
        if free <= ahead {
            return false;
        }
        let mut left = free - ahead;
        for i in 1..self.pools.len() {
            let more = self.pools[i].lined_ahead(ticket);
            if left <= more {
                return false;
            }
            left -= more;
        }
        true
    }

    // Connections may be lent, reaped or opened past the line.
    fn passes(&self, pool: u32) -> bool
        requires named { pool < length self.now.pools }
        ensures answer { result ≡ passes_in pool self.now }
        ensures permit { result ≡ true → 0 < free (entry_of pool self.now).core }
        ensures open { result ≡ true → counts_as_closed pool self.now ≡ false }
    {
        !self.counts_as_closed(pool) && self.has_permit_left(pool)
    }

    // Fewer tickets wait in the line of a pool than it has free permits.
    fn has_permit_left(&self, pool: u32) -> bool
        requires named { pool < length self.now.pools }
        ensures answer { result ≡ has_permit_left pool self.now }
        ensures permit { result ≡ true → 0 < free (entry_of pool self.now).core }
    {
        if pool == 0 {
            self.root_admits(None)
        } else {
            let core = &self.pools[pool as usize].core;
            core.num_waiting() < core.num_free() as usize
        }
    }

    /// The moment that a step goes by: one below the last moment counts as the last one.
    pub fn moment(&self, now: Moment) -> Moment
        ensures { result.0 ≡ max self.now.shared.last.0 now.0 }
    {
        Moment(self.shared.last.0.max(now.0))
    }

    // Permits move from one pool to another.
    fn move_permits(&mut self, from: u32, to: u32, count: u32)
        requires from { from < length self.old.pools }
        requires to { to < length self.old.pools }
        requires free { count ≤ free (entry_of from self.old).core }
        requires room { owned_by to (with_less from count self.old) + count ≤ (entry_of to self.old).core.options.max_connections }
        ensures freed { count ≤ free (entry_of to self.new).core }
        ensures becomes { self.new ≡ moved from to count self.old }
        ensures names { length self.new.pools ≡ length self.old.pools }
    {
        let lender = &mut self.pools[from as usize].core;
        lender.sound();
        lender.set_permits(lender.permits() - count);
        let taker = &mut self.pools[to as usize].core;
        taker.sound();
        taker.set_permits(taker.permits() + count);
    }

    // What a retired pool has free goes to the root.
    fn settle(&mut self, pool: u32)
        requires named { pool < length self.old.pools }
        ensures becomes { self.new ≡ settled pool self.old }
        ensures names { length self.new.pools ≡ length self.old.pools }
    {
        let settling = &self.pools[pool as usize];
        if settling.retired {
            let count = settling.core.num_free();
            self.move_permits(pool, 0, count);
        }
    }
}
