//! The steps that keep a pool in shape: reaping, and places for the minimum.

ghost use Rattle.std.specs.Prelude.{◌≡◌, ℕ, ◌+◌, [], false, None, Ok, max, IfSome, IfOk, OnErr};
ghost use Rattle.sqlx_pool_core.specs.Logs.{moment_of};
ghost use Rattle.sqlx_pool_lists.specs.MaintenanceSteps.{reap_answer, reap_marks, reaped, has_place_if, placed};
ghost use Rattle.sqlx_family.specs.Pools.{pool_in, with_pool};
ghost use Rattle.sqlx_family.specs.RootLine.{passes_in};
ghost use Rattle.sqlx_pool.specs.Places.{holds_place, back_if};
ghost use Rattle.sqlx_family_pool.specs.FamilyState.{IsNamed, IsUnnamed, with_made};
ghost use Rattle.sqlx_family_pool.specs.FamilyPlaces.{marks_of_done, family_after_done};

use super::LockedFamily;
use sqlx_family_steps::{asking, upkeep};
use sqlx_pool::Loans;
use sqlx_pool_core::Idle;
use sqlx_text::{Depth, Moment, OutOfMemory};
use std::alloc::Global;
use std::sync::ledger::Ledger;

// How many marks a place for the minimum may lead to.
const PLACE_ROOM: usize = 3;

impl<C: Depth, O, H: Ledger, L: Loans> LockedFamily<C, O, H, L> {
    /// Takes the first idle connection of a pool that rests for longer than the idle limit or is older than the lifetime,
    /// which the caller closes: where the pool is open, and fewer tickets wait than permits are free. The root counts the
    /// tickets of the root's line, a child its own. Otherwise nothing changes, as its family sees the pool.
    pub fn reap(&mut self, pool: u32, now: Moment) -> Option<Idle<C>>
        ensures answer { IsNamed pool self.old → let core = pool_in pool self.old.family in result ≡ reap_answer (passes_in pool self.old.family) core.options (moment_of core now) core.idle }
        ensures marks { IsNamed pool self.old → self.new.logs ≡ with_made pool (reap_marks result) self.old.logs }
        ensures becomes { IsNamed pool self.old → let core = pool_in pool self.old.family in self.new.family ≡ with_pool pool (reaped (moment_of core now) result core) self.old.family }
        ensures unnamed { IsUnnamed pool self.old → (result ≡ None) × (self.new ≡ self.old) }
        ensures starts { self.new.starts ≡ self.old.starts }
        ensures connect { self.new.connect ≡ self.old.connect }
        ensures booked { self.new.booked ≡ self.old.booked }
    {
        if !self.is_named(pool) {
            return None;
        }
        upkeep::reap(&mut self.family, &mut self.logs[pool as usize], pool, now)
    }

    /// Holds a place for one connection of a pool that is opened before any client asks: as `minimum_place`, but at a
    /// minimum of 0 as at 1.
    pub fn first_place(&mut self, pool: u32, _alloc: Global) -> Result<bool, OutOfMemory>
        ensures answer { IsNamed pool self.old → let core = pool_in pool self.old.family in IfOk result (λ place. place ≡ has_place_if (passes_in pool self.old.family) (max core.options.min_connections 1) core) }
        ensures becomes { IsNamed pool self.old → let f = self.old.family in IfOk result (λ place. self.new.family ≡ with_pool pool (placed place (pool_in pool f)) f) }
        ensures unnamed { IsUnnamed pool self.old → (result ≡ Ok false) × (self.new ≡ self.old) }
        ensures logs { self.new.logs ≡ self.old.logs }
        ensures starts { self.new.starts ≡ self.old.starts }
        ensures connect { self.new.connect ≡ self.old.connect }
        ensures booked { self.new.booked ≡ self.old.booked }
        ensures err { OnErr result (self.new ≡ self.old) }
    {
        if !self.is_named(pool) {
            return Ok(false);
        }
        if !asking::reserve(
            &self.family,
            &mut self.logs[pool as usize],
            pool,
            PLACE_ROOM,
        ) {
            return Err(OutOfMemory);
        }
        Ok(self.family.first_place(pool))
    }

    /// Holds a place for one connection of a pool's minimum, which the caller opens and tells of by `minimum_done`: where
    /// the pool is open, fewer tickets wait than permits are free, and the pool lacks a connection of its minimum. The root
    /// counts the tickets of the root's line, a child its own. The memory for the marks of the connection is reserved here,
    /// before the rules are asked.
    pub fn minimum_place(&mut self, pool: u32, _alloc: Global) -> Result<bool, OutOfMemory>
        ensures answer { IsNamed pool self.old → let core = pool_in pool self.old.family in IfOk result (λ place. place ≡ has_place_if (passes_in pool self.old.family) core.options.min_connections core) }
        ensures becomes { IsNamed pool self.old → let f = self.old.family in IfOk result (λ place. self.new.family ≡ with_pool pool (placed place (pool_in pool f)) f) }
        ensures unnamed { IsUnnamed pool self.old → (result ≡ Ok false) × (self.new ≡ self.old) }
        ensures logs { self.new.logs ≡ self.old.logs }
        ensures starts { self.new.starts ≡ self.old.starts }
        ensures connect { self.new.connect ≡ self.old.connect }
        ensures booked { self.new.booked ≡ self.old.booked }
        ensures err { OnErr result (self.new ≡ self.old) }
    {
        if !self.is_named(pool) {
            return Ok(false);
        }
        if !asking::reserve(
            &self.family,
            &mut self.logs[pool as usize],
            pool,
            PLACE_ROOM,
        ) {
            return Err(OutOfMemory);
        }
        Ok(self.family.minimum_place(pool))
    }

    /// Tells what came of the connection for which a place was held; it has no level open. A new connection is put last
    /// among the idle; in a pool that counts as closed by now it comes back, and the caller closes it. Where no place is held
    /// nothing changes, and what was handed in comes back.
    pub fn minimum_done(&mut self, pool: u32, now: Moment, raw: Option<C>) -> Option<C>
        requires flat { IfSome raw (λ conn. C.levels conn ≡ 0) }
        ensures answer { IsNamed pool self.old → let core = pool_in pool self.old.family in result ≡ back_if (holds_place core) core.closed raw }
        ensures marks { IsNamed pool self.old → let core = pool_in pool self.old.family in self.new.logs ≡ with_made pool (marks_of_done core (moment_of core now) raw) self.old.logs }
        ensures becomes { IsNamed pool self.old → let core = pool_in pool self.old.family in self.new.family ≡ family_after_done (holds_place core) pool (moment_of core now) raw self.old.family }
        ensures unnamed { IsUnnamed pool self.old → (result ≡ raw) × (self.new ≡ self.old) }
        ensures starts { self.new.starts ≡ self.old.starts }
        ensures connect { self.new.connect ≡ self.old.connect }
        ensures booked { self.new.booked ≡ self.old.booked }
    {
        if !self.is_named(pool) || self.family.num_places(pool) == 0 {
            return raw;
        }
        let log = &mut self.logs[pool as usize];
        upkeep::minimum_done(&mut self.family, log, pool, now, raw)
    }
}
