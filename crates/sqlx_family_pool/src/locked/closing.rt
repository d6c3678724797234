//! Closing a pool, and retiring a child.

ghost use Rattle.std.specs.Prelude.{◌≡◌, ℕ, ◌+◌, [], true};
ghost use Rattle.sqlx_pool_lists.specs.MaintenanceSteps.{close_marks, close_answer, closed_from};
ghost use Rattle.sqlx_family.specs.Pools.{pool_in, with_pool};
ghost use Rattle.sqlx_family.specs.Permits.{retiring, settled};
ghost use Rattle.sqlx_family_pool.specs.FamilyState.{IsNamed, IsUnnamed, with_made};

use super::LockedFamily;
use sqlx_family_steps::closing;
use sqlx_pool::Loans;
use sqlx_pool_core::Idle;
use sqlx_text::Depth;
use std::collections::VecDeque;
use std::sync::ledger::Ledger;

impl<C: Depth, O, H: Ledger, L: Loans> LockedFamily<C, O, H, L> {
    /// Closes a pool, where no close came to it before: its idle connections come back in their order, and the caller
    /// closes them. Where it is the root, each child counts as closed from now on; a child's idle connections stay until
    /// its own close, and its log gets no `Shut` by this.
    pub fn close(&mut self, pool: u32) -> VecDeque<Idle<C>>
        ensures answer { IsNamed pool self.old → let core = pool_in pool self.old.family in result.items ≡ close_answer core.shut core.idle }
        ensures marks { IsNamed pool self.old → self.new.logs ≡ with_made pool (close_marks (pool_in pool self.old.family).shut result.items) self.old.logs }
        ensures becomes { IsNamed pool self.old → let core = pool_in pool self.old.family in self.new.family ≡ with_pool pool (closed_from core.shut core) self.old.family }
        ensures unnamed { IsUnnamed pool self.old → (result.items ≡ []) × (self.new ≡ self.old) }
        ensures starts { self.new.starts ≡ self.old.starts }
        ensures connect { self.new.connect ≡ self.old.connect }
        ensures booked { self.new.booked ≡ self.old.booked }
    {
        if !self.is_named(pool) {
            return VecDeque::new(self.alloc);
        }
        closing::close(&mut self.family, &mut self.logs[pool as usize], pool)
    }

    /// Closes a child, as `close`, and hands its free permits to the root; a permit that it frees later goes there at
    /// once. Of the root it is a close.
    pub fn retire(&mut self, pool: u32) -> VecDeque<Idle<C>>
        ensures answer { IsNamed pool self.old → let core = pool_in pool self.old.family in result.items ≡ close_answer core.shut core.idle }
        ensures marks { IsNamed pool self.old → self.new.logs ≡ with_made pool (close_marks (pool_in pool self.old.family).shut result.items) self.old.logs }
        ensures becomes { IsNamed pool self.old → let core = pool_in pool self.old.family in self.new.family ≡ settled pool (retiring pool (with_pool pool (closed_from core.shut core) self.old.family)) }
        ensures unnamed { IsUnnamed pool self.old → (result.items ≡ []) × (self.new ≡ self.old) }
        ensures starts { self.new.starts ≡ self.old.starts }
        ensures connect { self.new.connect ≡ self.old.connect }
        ensures booked { self.new.booked ≡ self.old.booked }
    {
        if !self.is_named(pool) {
            return VecDeque::new(self.alloc);
        }
        closing::retire(&mut self.family, &mut self.logs[pool as usize], pool)
    }
}
