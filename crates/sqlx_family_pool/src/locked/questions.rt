//! What the value under the lock is asked without a change, and its connect options.

ghost use Rattle.std.specs.Prelude.{◌≡◌, ℕ, ◌+◌, ◌<◌, ◌≤◌, Bool, true, false, List, [], IfOk, length, max, nat_lt, sum_by};
ghost use Rattle.sqlx_pool_marks.specs.FairLog.{IsSafe};
ghost use Rattle.sqlx_pool_marks.specs.EventTable.{closes};
ghost use Rattle.sqlx_pool_lists.specs.Balance.{lents};
ghost use Rattle.sqlx_pool_lists.specs.Core.{size};
ghost use Rattle.sqlx_pool_lists.specs.Limits.{limits_of};
ghost use Rattle.sqlx_pool_core.specs.Logs.{moment_of};
ghost use Rattle.sqlx_family.specs.Pools.{pool_in, counts_as_closed};
ghost use Rattle.sqlx_family.specs.Permits.{owned_by};
ghost use Rattle.sqlx_family.specs.IsFamily.{IsFamily};
ghost use Rattle.sqlx_family_steps.specs.FamilySteps.{closing_in};
ghost use Rattle.sqlx_pool_parts.specs.MarkLog.{IsUncut};
ghost use Rattle.sqlx_family_pool.specs.FamilyState.{IsStanding, IsNamed, IsUnnamed, forgotten, loans_told, since_start_in, start_at, start_in};

use super::LockedFamily;
use sqlx_family_steps::questions;
use sqlx_pool::{Loans, MarkLog, Tally};
use sqlx_pool_core::CloseState;
use sqlx_text::{Depth, Moment, OutOfMemory};
use std::alloc::Global;
use std::mem;
use std::sync::ledger::Ledger;

impl<C: Depth, O, H: Ledger, L: Loans> LockedFamily<C, O, H, L> {
    /// What holds of the value whenever its lock is free.
    pub fn facts(&self)
        ensures { IsStanding C.levels L.max L.cuts self.now }
    {
        let _ = &self.family;
    }

    /// What holds of its family, as of every one: the permits that its pools own add up to the root's maximum.
    pub fn bounds(&self)
        ensures { IsFamily self.now.family }
    {
        self.family.bounds();
    }

    /// Whether a pool has this name.
    pub fn is_named(&self, pool: u32) -> bool
        ensures { result ≡ nat_lt pool (length self.now.family.pools) }
    {
        questions::is_named(&self.family, pool)
    }

    /// Whether a pool is closed: a close came to it, or to the root. So is one that nobody added.
    pub fn is_closed(&self, pool: u32) -> bool
        ensures answer { result ≡ counts_as_closed pool self.now.family }
        ensures named { result ≡ false → IsNamed pool self.now }
    {
        questions::is_closed(&self.family, pool)
    }

    /// How many permits a pool owns: at most the root's maximum. One that nobody added owns none.
    pub fn owned(&self, pool: u32) -> u32
        ensures owned { result ≡ owned_by pool self.now.family }
        ensures most { result ≤ L.max }
    {
        self.facts();
        self.bounds();
        if self.is_named(pool) {
            self.family.owned(pool)
        } else {
            0
        }
    }

    /// How many connections of a pool there are or may be: at most the root's maximum. One that nobody added has none.
    pub fn size(&self, pool: u32) -> u32
        ensures size { result ≡ size (pool_in pool self.now.family) }
        ensures most { result ≤ L.max }
    {
        self.facts();
        if self.is_named(pool) {
            self.family.size(pool)
        } else {
            0
        }
    }

    /// How many connections of a pool are idle: at most the root's maximum. One that nobody added has none.
    pub fn num_idle(&self, pool: u32) -> usize
        ensures idle { result ≡ length (pool_in pool self.now.family).idle }
        ensures most { result ≤ L.max }
    {
        self.facts();
        if self.is_named(pool) {
            self.family.num_idle(pool)
        } else {
            0
        }
    }

    /// The options by which connections are opened.
    pub fn connect_options(&self) -> &O
        ensures { result.now ≡ self.now.connect }
    {
        &self.connect
    }

    /// The moment that a step goes by: one below the last moment counts as the last one.
    pub fn moment(&self, now: Moment) -> Moment
        ensures { result.0 ≡ max self.now.family.shared.last.0 now.0 }
    {
        self.family.moment(now)
    }

    /// Whether a connection of this opening would be closed rather than kept: its pool or the root is closed, or its age is
    /// above the lifetime. One of a pool that nobody added would be.
    pub fn must_close(&self, pool: u32, created: Moment, now: Moment) -> bool
        ensures named { IsNamed pool self.now → let core = pool_in pool self.now.family in result ≡ closes (limits_of core.options) core.closed created.0 (moment_of core now) }
        ensures unnamed { IsUnnamed pool self.now → result ≡ true }
    {
        !self.is_named(pool) || self.family.must_close(pool, created, now)
    }

    /// How far a pool is closed, by whether a close came to it or to the root. One that nobody added is closed.
    pub fn closing(&self, pool: u32) -> CloseState
        ensures { result ≡ closing_in pool self.now.family }
    {
        questions::closing(&self.family, pool)
    }

    /// How many marks a pool's log has behind its start. One that nobody added has none.
    pub fn log_len(&self, pool: u32) -> usize
        ensures { result ≡ length (since_start_in self.now pool) }
    {
        if self.is_named(pool) {
            self.logs[pool as usize].len() - self.starts[pool as usize].len
        } else {
            0
        }
    }

    /// Sets the options by which connections are opened from now on; the former ones come back.
    pub fn set_connect_options(&mut self, options: O) -> O
        ensures former { result ≡ self.old.connect }
        ensures set { self.new ≡ record self.old { connect = options } }
    {
        mem::replace(&mut self.connect, options)
    }

    /// Counts the loans by the tally with every part: they are the `Lent` marks of all logs, and those that cuts forgot.
    pub fn audit(&mut self, all: &mut Tally<L>)
        requires { all.old.parts ≡ L.parts }
        ensures counted { sum_by forgotten self.new.starts + sum_by lents self.new.logs ≡ all.old.loans }
        ensures family { self.new.family ≡ self.old.family }
        ensures logs { self.new.logs ≡ self.old.logs }
        ensures starts { self.new.starts ≡ self.old.starts }
        ensures connect { self.new.connect ≡ self.old.connect }
        ensures same { all.new ≡ all.old }
    {
        self.books.audit(all);
    }

    /// The maximum of a pool, and a copy of its log, which is safe behind its start for that maximum. The start is empty
    /// where logs may not be cut.
    pub fn read_log(&self, pool: u32, alloc: Global) -> Result<(u32, MarkLog), OutOfMemory>
        ensures most { IfOk result (λ read. read.0 ≡ (pool_in pool self.now.family).options.max_connections) }
        ensures start { IfOk result (λ read. read.1.start.items ≡ start_in self.now pool) }
        ensures before { IfOk result (λ read. read.1.lent_before ≡ (start_at self.now pool).lent_before) }
        ensures marks { IfOk result (λ read. read.1.marks.items ≡ since_start_in self.now pool) }
        ensures uncut { IfOk result (λ read. L.cuts ≡ false → IsUncut read.1) }
        ensures safe { IfOk result (λ read. IsSafe read.0 read.1.start.items read.1.marks.items) }
    {
        if self.is_named(pool) {
            let log = &self.logs[pool as usize];
            let start = self.starts[pool as usize];
            questions::read_log(&self.family, log, start, pool, alloc)
        } else {
            Ok((0, MarkLog::new(Vec::new(alloc), 0, Vec::new(alloc))))
        }
    }

    /// A copy of each pool's log, by the pools' names.
    pub fn read_logs(&self, alloc: Global) -> Result<Vec<MarkLog>, OutOfMemory>
        ensures each { IfOk result (λ logs. length logs.items ≡ length self.now.family.pools) }
        ensures loans { IfOk result (λ logs. sum_by loans_told logs.items ≡ sum_by forgotten self.now.starts + sum_by lents self.now.logs) }
    {
        self.facts();
        self.family.bounds();
        let mut logs = Vec::new(alloc);
        for pool in 0..self.family.num_pools() as u32 {
            let (_, log) = self.read_log(pool, alloc)?;
            let Ok(()) = logs.push(log) else {
                return Err(OutOfMemory);
            };
        }
        Ok(logs)
    }
}
