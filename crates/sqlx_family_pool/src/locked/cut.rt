//! Cutting the log of a pool.

ghost use Rattle.std.specs.Prelude.{◌≡◌, ◌+◌, ◌<◌, ◌≤◌, true, false, length, if◌then◌else◌};
ghost use Rattle.sqlx_pool_parts.specs.LogStart.{is_long};
ghost use Rattle.sqlx_family_pool.specs.FamilyState.{IsNamed, IsUnnamed, IsWithinLimitIn, cut_at, limited_at, log_of, start_at};

use super::LockedFamily;
use sqlx_family_steps::cutting;
use sqlx_pool::Loans;
use sqlx_text::Depth;
use std::sync::ledger::Ledger;

impl<C: Depth, O, H: Ledger, L: Loans> LockedFamily<C, O, H, L> {
    /// The marks of a pool's log that later ones still look at become its start; the other pools' logs are as they were.
    /// It takes no memory.
    #[cold]
    #[inline(never)]
    pub fn cut(&mut self, pool: u32)
        requires { L.cuts ≡ true }
        ensures becomes { IsNamed pool self.old → self.new ≡ cut_at pool self.old }
        ensures unnamed { IsUnnamed pool self.old → self.new ≡ self.old }
    {
        if !self.is_named(pool) {
            return;
        }
        self.family.bounds();
        let log = &mut self.logs[pool as usize];
        let start = &mut self.starts[pool as usize];
        cutting::cut(&self.family, log, start, pool);
    }

    /// Cuts a pool's log where it has a limit, and behind its start there are at least as many marks as that, and as the
    /// start has, and tells whether it did. Where it has none nothing changes.
    pub fn cut_if_long(&mut self, pool: u32) -> bool
        ensures told { result ≡ is_long (start_at self.old pool) (length (log_of self.old pool)) }
        ensures same { result ≡ false → self.new ≡ self.old }
        ensures becomes { IsNamed pool self.old → self.new ≡ (if is_long (start_at self.old pool) (length (log_of self.old pool)) then cut_at pool self.old else self.old) }
        ensures within { IsWithinLimitIn self.new pool }
        ensures unnamed { IsUnnamed pool self.old → self.new ≡ self.old }
    {
        self.facts();
        if self.is_long(pool) {
            self.cut(pool);
            true
        } else {
            false
        }
    }

    // A pool's log is to be cut. One that nobody added has none.
    fn is_long(&self, pool: u32) -> bool
        ensures { result ≡ is_long (start_at self.now pool) (length (log_of self.now pool)) }
    {
        self.is_named(pool) && self.starts[pool as usize].is_long(self.logs[pool as usize].len())
    }

    /// Sets by how many marks behind its start a pool's log is one to be cut.
    pub fn set_log_limit(&mut self, pool: u32, limit: Option<usize>)
        requires { L.cuts ≡ true }
        ensures becomes { IsNamed pool self.old → self.new ≡ limited_at pool limit self.old }
        ensures unnamed { IsUnnamed pool self.old → self.new ≡ self.old }
    {
        if !self.is_named(pool) {
            return;
        }
        self.starts[pool as usize].limit = limit;
    }
}
