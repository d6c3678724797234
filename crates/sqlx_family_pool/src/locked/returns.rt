//! The steps that end a loan. Each takes the share of the connection, and hands it back where nothing ended.

ghost use Rattle.std.specs.Prelude.{◌≡◌, ℕ, ◌+◌, true, false, not, is_some};
ghost use Rattle.sqlx_pool_lists.specs.declared.steps.Given.{Given};
ghost use Rattle.sqlx_pool_core.specs.Answers.{is_kept, is_held};
ghost use Rattle.sqlx_pool_lists.specs.Core.{loan_of};
ghost use Rattle.sqlx_pool_core.specs.Logs.{moment_of};
ghost use Rattle.sqlx_pool_core.specs.ReturnSteps.{give_answer, give_marks, end_marks, detach_marks, leak_marks, released, leaked};
ghost use Rattle.sqlx_family.specs.Pools.{pool_in, with_pool};
ghost use Rattle.sqlx_family.specs.Permits.{stepped};
ghost use Rattle.sqlx_family_pool.specs.FamilyState.{IsNamed, IsUnnamed, with_made};
ghost use Rattle.sqlx_family_steps.specs.FamilySteps.{core_after_return};

use super::LockedFamily;
use sqlx_family_steps::returning;
use sqlx_pool::{Held, Loans};
use sqlx_pool_core::{Given, Lent};
use sqlx_pool_parts::answers::is_held;
use sqlx_text::{Depth, Moment};
use std::sync::ledger::Ledger;

impl<C: Depth, O, H: Ledger, L: Loans> LockedFamily<C, O, H, L> {
    /// Gives a connection back to its pool; one that is accepted has no level open. It is kept where the caller's checks
    /// accepted it, its pool and the root are open and its age isn't above the lifetime; else the caller closes what comes
    /// back. A permit that this frees stays with the pool, or goes to the root where the pool was retired.
    pub fn give(
        &mut self,
        pool: u32,
        client: u32,
        lent: Lent<C>,
        now: Moment,
        accepted: bool,
        held: Held<H>,
    ) -> (Given<C>, Option<Held<H>>)
        requires flat { accepted ≡ true → C.levels lent.raw ≡ 0 }
        ensures answer { IsNamed pool self.old → let core = pool_in pool self.old.family in result.0 ≡ give_answer core.options core.closed (moment_of core now) accepted (loan_of client lent.id core.held) lent }
        ensures marks { IsNamed pool self.old → self.new.logs ≡ with_made pool (give_marks lent.id (moment_of (pool_in pool self.old.family) now) result.0) self.old.logs }
        ensures becomes { IsNamed pool self.old → let f = self.old.family in let core = pool_in pool f in self.new.family ≡ stepped pool (core_after_return client lent (moment_of core now) result.0 core) f }
        ensures unnamed { IsUnnamed pool self.old → (result.0 ≡ Given.NotHeld lent.raw) × (self.new ≡ self.old) }
        ensures starts { self.new.starts ≡ self.old.starts }
        ensures connect { self.new.connect ≡ self.old.connect }
        ensures refused { accepted ≡ false → is_kept result.0 ≡ false }
        ensures held { is_some result.1 ≡ not (is_held result.0) }
    {
        if !self.is_named(pool) {
            return (Given::NotHeld(lent.raw), Some(held));
        }
        let log = &mut self.logs[pool as usize];
        let given = returning::give(&mut self.family, log, pool, client, lent, now, accepted);
        let left = self.books.take_back_if(is_held(&given), held);
        (given, left)
    }

    /// Ends the loan of a connection, which the caller closes. False, and nothing changes, where the client doesn't own
    /// it.
    pub fn end(&mut self, pool: u32, client: u32, id: u64, held: Held<H>) -> (bool, Option<Held<H>>)
        ensures answer { IsNamed pool self.old → result.0 ≡ is_some (loan_of client id (pool_in pool self.old.family).held) }
        ensures marks { IsNamed pool self.old → self.new.logs ≡ with_made pool (end_marks id result.0) self.old.logs }
        ensures becomes { IsNamed pool self.old → self.new.family ≡ stepped pool (released id result.0 (pool_in pool self.old.family)) self.old.family }
        ensures unnamed { IsUnnamed pool self.old → (result.0 ≡ false) × (self.new ≡ self.old) }
        ensures starts { self.new.starts ≡ self.old.starts }
        ensures connect { self.new.connect ≡ self.old.connect }
        ensures held { is_some result.1 ≡ not result.0 }
    {
        if !self.is_named(pool) {
            return (false, Some(held));
        }
        let log = &mut self.logs[pool as usize];
        let ends = returning::end(&mut self.family, log, pool, client, id);
        (ends, self.books.take_back_if(ends, held))
    }

    /// Takes a connection out of its pool: its permit is free again. False, and nothing changes, where the client doesn't
    /// own it.
    pub fn detach(
        &mut self,
        pool: u32,
        client: u32,
        id: u64,
        held: Held<H>,
    ) -> (bool, Option<Held<H>>)
        ensures answer { IsNamed pool self.old → result.0 ≡ is_some (loan_of client id (pool_in pool self.old.family).held) }
        ensures marks { IsNamed pool self.old → self.new.logs ≡ with_made pool (detach_marks id result.0) self.old.logs }
        ensures becomes { IsNamed pool self.old → self.new.family ≡ stepped pool (released id result.0 (pool_in pool self.old.family)) self.old.family }
        ensures unnamed { IsUnnamed pool self.old → (result.0 ≡ false) × (self.new ≡ self.old) }
        ensures starts { self.new.starts ≡ self.old.starts }
        ensures connect { self.new.connect ≡ self.old.connect }
        ensures held { is_some result.1 ≡ not result.0 }
    {
        if !self.is_named(pool) {
            return (false, Some(held));
        }
        let log = &mut self.logs[pool as usize];
        let ends = returning::detach(&mut self.family, log, pool, client, id);
        (ends, self.books.take_back_if(ends, held))
    }

    /// Takes a connection out of its pool, which keeps its permit for good. False, and nothing changes, where the client
    /// doesn't own it.
    pub fn leak(
        &mut self,
        pool: u32,
        client: u32,
        id: u64,
        held: Held<H>,
    ) -> (bool, Option<Held<H>>)
        ensures answer { IsNamed pool self.old → result.0 ≡ is_some (loan_of client id (pool_in pool self.old.family).held) }
        ensures marks { IsNamed pool self.old → self.new.logs ≡ with_made pool (leak_marks id result.0) self.old.logs }
        ensures becomes { IsNamed pool self.old → self.new.family ≡ with_pool pool (leaked id result.0 (pool_in pool self.old.family)) self.old.family }
        ensures unnamed { IsUnnamed pool self.old → (result.0 ≡ false) × (self.new ≡ self.old) }
        ensures starts { self.new.starts ≡ self.old.starts }
        ensures connect { self.new.connect ≡ self.old.connect }
        ensures held { is_some result.1 ≡ not result.0 }
    {
        if !self.is_named(pool) {
            return (false, Some(held));
        }
        let log = &mut self.logs[pool as usize];
        let ends = returning::leak(&mut self.family, log, pool, client, id);
        (ends, self.books.take_back_if(ends, held))
    }
}
