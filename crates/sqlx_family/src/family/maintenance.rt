//! The steps that keep a pool in shape: reaping, and holding places for the minimum.

ghost use Rattle.std.specs.Prelude.{◌≡◌, ℕ, ◌<◌, ◌≤◌, max, [], Option, length};
ghost use Rattle.sqlx_pool_marks.specs.declared.mark.Mark.{Mark};
ghost use Rattle.sqlx_pool_lists.specs.Balance.{Balance, place_room};
ghost use Rattle.sqlx_pool_core.specs.Logs.{moment_of};
ghost use Rattle.sqlx_pool_lists.specs.MaintenanceSteps.{reap_answer, reap_marks, reaped, has_place_if, placed, handed_back, done_marks, done};
ghost use Rattle.sqlx_family.specs.RootLine.{passes_in};
ghost use Rattle.sqlx_family.specs.Pools.{pool_in, with_pool, counts_as_closed, entry_of};
ghost use Rattle.sqlx_family.specs.Permits.{stepped};
ghost use Rattle.sqlx_family.specs.FamilyLogs.{FamilyLogs};

use super::Family;
use sqlx_pool_lists::Idle;
use sqlx_text::Moment;

impl<C> Family<C> {
    /// Takes the first idle connection of a pool that is beyond a limit, which the caller closes: where the pool is open, and
    /// fewer tickets wait than permits are free. The root counts the tickets of the root's line, a child its own.
    pub fn reap(&mut self, pool: u32, now: Moment) -> Option<Idle<C>>
        requires named { pool < length self.old.pools }
        ensures answer { let core = pool_in pool self.old in result ≡ reap_answer (passes_in pool self.old) core.options (moment_of core now) core.idle }
        ensures makes { FamilyLogs self.old pool (reap_marks result) self.new }
        ensures balance { Balance (pool_in pool self.old) (pool_in pool self.new) (reap_marks result) 0 0 }
        ensures becomes { let core = pool_in pool self.old in self.new ≡ with_pool pool (reaped (moment_of core now) result core) self.old }
        ensures names { length self.new.pools ≡ length self.old.pools }
    {
        let moment = self.moment(now);
        let passes = self.passes(pool);
        let closed = self.counts_as_closed(pool);
        let member = &mut self.pools[pool as usize].core;
        member.hear(closed, self.shared);
        let answer = member.reap(moment, passes);
        member.sound();
        self.shared = member.shared();
        answer
    }

    /// Holds a place for one connection of a pool that is opened before any client asks: as `minimum_place`, but at a minimum
    /// of 0 as at 1.
    pub fn first_place(&mut self, pool: u32) -> bool
        requires named { pool < length self.old.pools }
        ensures answer { let core = pool_in pool self.old in result ≡ has_place_if (passes_in pool self.old) (max core.options.min_connections 1) core }
        ensures makes { FamilyLogs self.old pool [] self.new }
        ensures balance { Balance (pool_in pool self.old) (pool_in pool self.new) [] 0 (place_room result) }
        ensures becomes { self.new ≡ with_pool pool (placed result (pool_in pool self.old)) self.old }
        ensures names { length self.new.pools ≡ length self.old.pools }
    {
        let minimum = self.pools[pool as usize]
            .core
            .options()
            .get_min_connections();
        self.hold_place(pool, minimum.max(1))
    }

    /// Holds a place for one connection of a pool's minimum, which the caller opens and tells of by `minimum_done`: where the
    /// pool is open, fewer tickets wait than permits are free, and the pool lacks a connection of its minimum.
    pub fn minimum_place(&mut self, pool: u32) -> bool
        requires named { pool < length self.old.pools }
        ensures answer { let core = pool_in pool self.old in result ≡ has_place_if (passes_in pool self.old) core.options.min_connections core }
        ensures makes { FamilyLogs self.old pool [] self.new }
        ensures balance { Balance (pool_in pool self.old) (pool_in pool self.new) [] 0 (place_room result) }
        ensures becomes { self.new ≡ with_pool pool (placed result (pool_in pool self.old)) self.old }
        ensures names { length self.new.pools ≡ length self.old.pools }
    {
        let minimum = self.pools[pool as usize]
            .core
            .options()
            .get_min_connections();
        self.hold_place(pool, minimum)
    }

    // Holds a place for one connection of a pool up to this minimum.
    fn hold_place(&mut self, pool: u32, minimum: u32) -> bool
        requires named { pool < length self.old.pools }
        ensures answer { result ≡ has_place_if (passes_in pool self.old) minimum (pool_in pool self.old) }
        ensures makes { FamilyLogs self.old pool [] self.new }
        ensures balance { Balance (pool_in pool self.old) (pool_in pool self.new) [] 0 (place_room result) }
        ensures becomes { self.new ≡ with_pool pool (placed result (pool_in pool self.old)) self.old }
        ensures names { length self.new.pools ≡ length self.old.pools }
    {
        let passes = self.passes(pool);
        let closed = self.counts_as_closed(pool);
        let member = &mut self.pools[pool as usize].core;
        member.hear(closed, self.shared);
        let answer = member.hold_place(minimum, passes);
        member.sound();
        self.shared = member.shared();
        answer
    }

    /// Tells what came of the connection for which a place was held. A new connection is put last among the idle; in a pool
    /// that counts as closed by now it comes back, and the caller closes it.
    pub fn minimum_done(&mut self, pool: u32, now: Moment, raw: Option<C>) -> Option<C>
        requires named { pool < length self.old.pools }
        requires place { 1 ≤ (pool_in pool self.old).places }
        ensures answer { result ≡ handed_back (counts_as_closed pool self.old) raw }
        ensures makes { let core = pool_in pool self.old in FamilyLogs self.old pool (done_marks core.closed core.next_conn (moment_of core now) raw) self.new }
        ensures balance { let core = pool_in pool self.old in Balance core (pool_in pool self.new) (done_marks core.closed core.next_conn (moment_of core now) raw) 0 0 }
        ensures becomes { let core = pool_in pool self.old in self.new ≡ stepped pool (done core.closed (moment_of core now) raw core) self.old }
        ensures names { length self.new.pools ≡ length self.old.pools }
    {
        let moment = self.moment(now);
        let closed = self.counts_as_closed(pool);
        let member = &mut self.pools[pool as usize].core;
        member.hear(closed, self.shared);
        let answer = member.minimum_done(moment, raw);
        member.sound();
        self.shared = member.shared();
        self.settle(pool);
        answer
    }
}
