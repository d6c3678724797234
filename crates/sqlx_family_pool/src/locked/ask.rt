//! Asking, and lending past the line.

ghost use Rattle.std.specs.Prelude.{◌≡◌, ℕ, ◌+◌, ◌^◌, ◌<◌, ◌≤◌, ◌↔◌, ◌⊎◌, [], ◌∷◌, true, false, None, is_some, Ok, Err, IfSome, IfOk, IfErr, OnOk, OnErr};
ghost use Rattle.sqlx_text.specs.declared.error.Error.{Error};
ghost use Rattle.sqlx_pool_marks.specs.declared.mark.Mark.{Mark};
ghost use Rattle.sqlx_pool_core.specs.Logs.{moment_of};
ghost use Rattle.sqlx_pool_lists.specs.PollSteps.{asked_marks, try_marks};
ghost use Rattle.sqlx_pool_parts.specs.Answers.{lent_alone};
ghost use Rattle.sqlx_pool_parts.specs.Booked.{CountsIf};
ghost use Rattle.sqlx_family.specs.Pools.{pool_in, with_pool, counts_as_closed};
ghost use Rattle.sqlx_family_pool.specs.FamilyState.{IsNamed, IsUnnamed, with_made};
ghost use Rattle.sqlx_family_steps.specs.FamilySteps.{core_after_ask, try_lent_in, family_after_try};

use super::LockedFamily;
use sqlx_family_steps::asking;
use sqlx_pool::{Held, Loans, Tally};
use sqlx_pool_core::Lent;
use sqlx_text::{Depth, Error, Moment};
use std::alloc::Global;
use std::sync::ledger::Ledger;

// How many tickets a family numbers.
const NUMBERS: u64 = 1 << 63;

impl<C: Depth, O, H: Ledger, L: Loans> LockedFamily<C, O, H, L> {
    /// Asks a pool for a connection: the client gets a ticket, whose number comes next in the family. The memory for all
    /// marks that it may lead to is reserved here. Where it is refused, each pool is as it was, as its family sees it.
    pub fn ask(&mut self, pool: u32, alloc: Global, now: Moment, client: u32) -> Result<u64, Error>
        ensures numbered { IfOk result (λ ticket. ticket ≡ self.old.family.shared.next_ticket) }
        ensures closed { (result ≡ Err Error.PoolClosed) ↔ (counts_as_closed pool self.old.family ≡ true) }
        ensures exhausted { (result ≡ Err Error.Exhausted) ↔ ((counts_as_closed pool self.old.family ≡ false) × (2 ^ 63 < self.old.family.shared.next_ticket)) }
        ensures stays { (result ≡ Err Error.PoolClosed) → counts_as_closed pool self.new.family ≡ true }
        ensures used { (result ≡ Err Error.Exhausted) → 2 ^ 63 < self.new.family.shared.next_ticket }
        ensures causes { IfErr result (λ e. (e ≡ Error.PoolClosed) ⊎ ((e ≡ Error.Exhausted) ⊎ (e ≡ Error.OutOfMemory))) }
        ensures marks { let core = pool_in pool self.old.family in IfOk result (λ ticket. self.new.logs ≡ with_made pool (asked_marks core client (moment_of core now) ticket) self.old.logs) }
        ensures becomes { let core = pool_in pool self.old.family in OnOk result (self.new.family ≡ with_pool pool (core_after_ask client (moment_of core now) core) self.old.family) }
        ensures starts { self.new.starts ≡ self.old.starts }
        ensures connect { self.new.connect ≡ self.old.connect }
        ensures booked { self.new.booked ≡ self.old.booked }
        ensures logs { OnErr result (self.new.logs ≡ self.old.logs) }
        ensures err { let f = self.old.family in OnErr result ((self.new.family ≡ f) ⊎ (self.new.family ≡ with_pool pool (pool_in pool f) f)) }
    {
        if self.is_closed(pool) {
            return Err(Error::PoolClosed);
        }
        if self.family.numbers().next_ticket > NUMBERS {
            return Err(Error::Exhausted);
        }
        let log = &mut self.logs[pool as usize];
        let Some(ticket) = asking::ask(&mut self.family, log, pool, alloc, now, client) else {
            return Err(Error::OutOfMemory);
        };
        Ok(ticket)
    }

    /// Lends the first idle connection of a pool past the line, without a test: where the pool is open, and fewer tickets wait
    /// than permits are free. The root counts the tickets of the root's line, a child its own. Otherwise nothing changes.
    /// `Exhausted` where 2^62 loans were made.
    pub fn try_acquire(
        &mut self,
        pool: u32,
        _alloc: Global,
        now: Moment,
        client: u32,
        tally: &mut Tally<L>,
    ) -> Result<Option<(Lent<C>, Held<H>)>, Error>
        ensures answer { IsNamed pool self.old → IfOk result (λ lent. lent_alone lent ≡ try_lent_in pool self.old.family) }
        ensures marks { IfOk result (λ lent. self.new.logs ≡ with_made pool (try_marks client (lent_alone lent)) self.old.logs) }
        ensures becomes { let f = self.old.family in IfOk result (λ lent. self.new.family ≡ family_after_try pool client (moment_of (pool_in pool f) now) (lent_alone lent) f) }
        ensures unnamed { IsUnnamed pool self.old → (result ≡ Ok None) × (self.new ≡ self.old) }
        ensures tally { IfOk result (λ lent. CountsIf (is_some lent) tally.old tally.new) }
        ensures flat { IfOk result (λ lent. IfSome (lent_alone lent) (λ l. C.levels l.raw ≡ 0)) }
        ensures exhausted { IsNamed pool self.old → ((result ≡ Err Error.Exhausted) ↔ ((is_some (try_lent_in pool self.old.family) ≡ true) × (2 ^ 62 ≤ self.old.booked.made))) }
        ensures used { (result ≡ Err Error.Exhausted) → 2 ^ 62 ≤ self.new.booked.made }
        ensures causes { IfErr result (λ e. (e ≡ Error.Exhausted) ⊎ (e ≡ Error.OutOfMemory)) }
        ensures err { OnErr result ((self.new ≡ self.old) × (tally.new ≡ tally.old)) }
        ensures starts { self.new.starts ≡ self.old.starts }
        ensures connect { self.new.connect ≡ self.old.connect }
    {
        if !self.is_named(pool) || !self.family.may_lend(pool) {
            return Ok(None);
        }
        if self.books.is_full() {
            return Err(Error::Exhausted);
        }
        self.family.bounds();
        let log = &mut self.logs[pool as usize];
        match asking::lend_past(&mut self.family, log, pool, now, client) {
            Some(lent) => {
                let held = self.books.lend(tally);
                Ok(Some((lent, held)))
            }
            None => Err(Error::OutOfMemory),
        }
    }
}
