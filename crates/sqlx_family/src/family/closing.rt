//! Closing a pool, retiring a child, and how far a pool is closed.

ghost use Rattle.std.specs.Prelude.{◌≡◌, ℕ, ◌<◌, true, length};
ghost use Rattle.sqlx_pool_marks.specs.declared.mark.Mark.{Mark};
ghost use Rattle.sqlx_pool_lists.specs.Balance.{Balance};
ghost use Rattle.sqlx_pool_lists.specs.MaintenanceSteps.{close_marks, close_answer, closed_from, close_state};
ghost use Rattle.sqlx_family.specs.Pools.{pool_in, with_pool, counts_as_closed, entry_of};
ghost use Rattle.sqlx_family.specs.Permits.{retiring, settled};
ghost use Rattle.sqlx_family.specs.FamilyLogs.{FamilyLogs};

use super::Family;
use sqlx_pool_lists::{CloseState, Idle};
use std::collections::VecDeque;

impl<C> Family<C> {
    /// Closes a pool, where no close came to it before: its idle connections come back in their order, and the caller closes
    /// them. Where it is the root, each child counts as closed from now on; a child's idle connections stay until its own close.
    pub fn close(&mut self, pool: u32) -> VecDeque<Idle<C>>
        requires named { pool < length self.old.pools }
        ensures answer { let core = pool_in pool self.old in result.items ≡ close_answer core.shut core.idle }
        ensures makes { FamilyLogs self.old pool (close_marks (pool_in pool self.old).shut result.items) self.new }
        ensures balance { Balance (pool_in pool self.old) (pool_in pool self.new) (close_marks (pool_in pool self.old).shut result.items) 0 0 }
        ensures becomes { let core = pool_in pool self.old in self.new ≡ with_pool pool (closed_from core.shut core) self.old }
        ensures names { length self.new.pools ≡ length self.old.pools }
    {
        let closed = self.counts_as_closed(pool);
        let member = &mut self.pools[pool as usize].core;
        member.hear(closed, self.shared);
        let answer = member.close();
        member.sound();
        self.shared = member.shared();
        answer
    }

    /// Closes a child, as `close`, and hands its free permits to the root; a permit that it frees later goes there at once. Of
    /// the root it is a close.
    pub fn retire(&mut self, pool: u32) -> VecDeque<Idle<C>>
        requires named { pool < length self.old.pools }
        ensures answer { let core = pool_in pool self.old in result.items ≡ close_answer core.shut core.idle }
        ensures makes { FamilyLogs self.old pool (close_marks (pool_in pool self.old).shut result.items) self.new }
        ensures balance { Balance (pool_in pool self.old) (pool_in pool self.new) (close_marks (pool_in pool self.old).shut result.items) 0 0 }
        ensures becomes { let core = pool_in pool self.old in self.new ≡ settled pool (retiring pool (with_pool pool (closed_from core.shut core) self.old)) }
        ensures names { length self.new.pools ≡ length self.old.pools }
    {
        let idle = self.close(pool);
        self.mark_retired(pool);
        self.settle(pool);
        idle
    }

    // The pool is retired from now on.
    fn mark_retired(&mut self, pool: u32)
        requires named { pool < length self.old.pools }
        ensures becomes { self.new ≡ retiring pool self.old }
        ensures names { length self.new.pools ≡ length self.old.pools }
    {
        self.pools[pool as usize].retired = true;
    }

    /// How far a pool is closed. A child whose root is closed counts as closed.
    pub fn closing(&self, pool: u32) -> CloseState
        requires named { pool < length self.now.pools }
        ensures { let core = pool_in pool self.now in result ≡ close_state core.closed (length core.held) core.leaked (length core.tickets) }
    {
        let core = &self.pools[pool as usize].core;
        if !self.counts_as_closed(pool) {
            CloseState::NotShut
        } else if core.num_held() == 0 && core.num_leaked() == 0 && core.num_tickets() == 0 {
            CloseState::Closed
        } else {
            CloseState::Closing
        }
    }

    /// Whether a pool is closed: a close came to it, or to the root.
    pub fn is_closed(&self, pool: u32) -> bool
        requires named { pool < length self.now.pools }
        ensures { result ≡ counts_as_closed pool self.now }
    {
        self.counts_as_closed(pool)
    }

    /// Whether a close came to a pool itself.
    pub fn is_shut(&self, pool: u32) -> bool
        requires named { pool < length self.now.pools }
        ensures { result ≡ (pool_in pool self.now).shut }
    {
        self.pools[pool as usize].core.is_shut()
    }
}
