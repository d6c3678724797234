//! The steps that end a loan: giving a connection back, ending, detaching and leaking it.

ghost use Rattle.std.specs.Prelude.{◌≡◌, ℕ, ◌<◌, is_some, length};
ghost use Rattle.sqlx_pool_marks.specs.declared.mark.Mark.{Mark};
ghost use Rattle.sqlx_pool_marks.specs.EventTable.{closes};
ghost use Rattle.sqlx_pool_lists.specs.Core.{loan_of};
ghost use Rattle.sqlx_pool_lists.specs.Limits.{limits_of};
ghost use Rattle.sqlx_pool_lists.specs.Balance.{Balance, given_back, one_if};
ghost use Rattle.sqlx_pool_core.specs.Logs.{moment_of};
ghost use Rattle.sqlx_pool_core.specs.ReturnSteps.{give_answer, give_marks, core_after_give, end_marks, detach_marks, leak_marks, released, leaked};
ghost use Rattle.sqlx_family.specs.Pools.{pool_in, with_pool, counts_as_closed, entry_of};
ghost use Rattle.sqlx_family.specs.Permits.{stepped};
ghost use Rattle.sqlx_family.specs.FamilyLogs.{FamilyLogs};

use super::Family;
use sqlx_pool_lists::{Given, Lent};
use sqlx_text::Moment;

impl<C> Family<C> {
    /// Whether a connection of this opening would be closed rather than kept: its pool or the root is closed, or the
    /// connection's age is above the lifetime.
    pub fn must_close(&self, pool: u32, created: Moment, now: Moment) -> bool
        requires named { pool < length self.now.pools }
        ensures { let core = pool_in pool self.now in result ≡ closes (limits_of core.options) core.closed created.0 (moment_of core now) }
    {
        let moment = self.moment(now);
        self.counts_as_closed(pool) || self.pools[pool as usize].core.too_old(created, moment)
    }

    /// Gives a connection back to its pool. A permit that this frees stays with the pool, or goes to the root where the pool
    /// was retired.
    pub fn give(
        &mut self,
        pool: u32,
        client: u32,
        lent: Lent<C>,
        now: Moment,
        accepted: bool,
    ) -> Given<C>
        requires named { pool < length self.old.pools }
        ensures answer { let core = pool_in pool self.old in result ≡ give_answer core.options core.closed (moment_of core now) accepted (loan_of client lent.id core.held) lent }
        ensures makes { FamilyLogs self.old pool (give_marks lent.id (moment_of (pool_in pool self.old) now) result) self.new }
        ensures balance { Balance (pool_in pool self.old) (pool_in pool self.new) (give_marks lent.id (moment_of (pool_in pool self.old) now) result) (given_back result) 0 }
        ensures becomes { let core = pool_in pool self.old in self.new ≡ stepped pool (core_after_give (loan_of client lent.id core.held) lent (moment_of core now) result core) self.old }
        ensures names { length self.new.pools ≡ length self.old.pools }
    {
        let moment = self.moment(now);
        let closed = self.counts_as_closed(pool);
        let member = &mut self.pools[pool as usize].core;
        member.hear(closed, self.shared);
        let answer = member.give(client, lent, moment, accepted);
        member.sound();
        self.shared = member.shared();
        self.settle(pool);
        answer
    }

    /// Ends the loan of a connection, which the caller closes. False where the client doesn't own it.
    pub fn end(&mut self, pool: u32, client: u32, id: u64) -> bool
        requires named { pool < length self.old.pools }
        ensures answer { result ≡ is_some (loan_of client id (pool_in pool self.old).held) }
        ensures makes { FamilyLogs self.old pool (end_marks id result) self.new }
        ensures balance { Balance (pool_in pool self.old) (pool_in pool self.new) (end_marks id result) (one_if result) 0 }
        ensures becomes { self.new ≡ stepped pool (released id result (pool_in pool self.old)) self.old }
        ensures names { length self.new.pools ≡ length self.old.pools }
    {
        let closed = self.counts_as_closed(pool);
        let member = &mut self.pools[pool as usize].core;
        member.hear(closed, self.shared);
        let answer = member.end(client, id);
        member.sound();
        self.shared = member.shared();
        self.settle(pool);
        answer
    }

    /// Takes a connection out of its pool: its permit is free again. False where the client doesn't own it.
    pub fn detach(&mut self, pool: u32, client: u32, id: u64) -> bool
        requires named { pool < length self.old.pools }
        ensures answer { result ≡ is_some (loan_of client id (pool_in pool self.old).held) }
        ensures makes { FamilyLogs self.old pool (detach_marks id result) self.new }
        ensures balance { Balance (pool_in pool self.old) (pool_in pool self.new) (detach_marks id result) (one_if result) 0 }
        ensures becomes { self.new ≡ stepped pool (released id result (pool_in pool self.old)) self.old }
        ensures names { length self.new.pools ≡ length self.old.pools }
    {
        let closed = self.counts_as_closed(pool);
        let member = &mut self.pools[pool as usize].core;
        member.hear(closed, self.shared);
        let answer = member.detach(client, id);
        member.sound();
        self.shared = member.shared();
        self.settle(pool);
        answer
    }

    /// Takes a connection out of its pool, which keeps its permit for good. False where the client doesn't own it.
    pub fn leak(&mut self, pool: u32, client: u32, id: u64) -> bool
        requires named { pool < length self.old.pools }
        ensures answer { result ≡ is_some (loan_of client id (pool_in pool self.old).held) }
        ensures makes { FamilyLogs self.old pool (leak_marks id result) self.new }
        ensures balance { Balance (pool_in pool self.old) (pool_in pool self.new) (leak_marks id result) (one_if result) 0 }
        ensures becomes { self.new ≡ with_pool pool (leaked id result (pool_in pool self.old)) self.old }
        ensures names { length self.new.pools ≡ length self.old.pools }
    {
        let closed = self.counts_as_closed(pool);
        let member = &mut self.pools[pool as usize].core;
        member.hear(closed, self.shared);
        let answer = member.leak(client, id);
        member.sound();
        self.shared = member.shared();
        answer
    }
}
