//! The steps before and beside a poll: asking, cancelling, and lending past the line.

ghost use Rattle.std.specs.Prelude.{◌≡◌, ℕ, ◌+◌, ◌<◌, ◌^◌, ◌↔◌, List, IfOk, OnOk, OnErr, IfErr, Err, length, true, false, ◌⊎◌};
ghost use Rattle.sqlx_text.specs.declared.Error.{Error};
ghost use Rattle.sqlx_pool_marks.specs.declared.mark.Mark.{Mark};
ghost use Rattle.sqlx_pool_lists.specs.Balance.{Balance, ask_room, try_room};
ghost use Rattle.sqlx_pool_core.specs.Logs.{moment_of};
ghost use Rattle.sqlx_pool_lists.specs.PollSteps.{phase_for, asked_marks, may_cancel, cancel_marks, cancelled, try_lent, try_marks, after_try};
ghost use Rattle.sqlx_pool_lists.specs.Edits.{at_moment, asked};
ghost use Rattle.sqlx_family.specs.RootLine.{passes_in};
ghost use Rattle.sqlx_family.specs.Pools.{pool_in, with_pool, counts_as_closed, entry_of};
ghost use Rattle.sqlx_family.specs.Permits.{stepped};
ghost use Rattle.sqlx_family.specs.FamilyLogs.{FamilyLogs};

use super::Family;
use sqlx_pool_lists::Lent;
use sqlx_text::{Error, Moment};
use std::alloc::Global;

impl<C> Family<C> {
    /// Asks a pool for a connection: the client gets a ticket, whose number comes next in the family. Where it is refused, each
    /// pool is as it was.
    pub fn ask(&mut self, pool: u32, _alloc: Global, now: Moment, client: u32) -> Result<u64, Error>
        requires named { pool < length self.old.pools }
        ensures numbered { IfOk result (λ ticket. ticket ≡ self.old.shared.next_ticket) }
        ensures closed { (result ≡ Err Error.PoolClosed) ↔ (counts_as_closed pool self.old ≡ true) }
        ensures exhausted { (result ≡ Err Error.Exhausted) ↔ ((counts_as_closed pool self.old ≡ false) × (2 ^ 63 < self.old.shared.next_ticket)) }
        ensures causes { IfErr result (λ e. (e ≡ Error.PoolClosed) ⊎ ((e ≡ Error.Exhausted) ⊎ (e ≡ Error.OutOfMemory))) }
        ensures makes { IfOk result (λ ticket. FamilyLogs self.old pool (asked_marks (pool_in pool self.old) client (moment_of (pool_in pool self.old) now) ticket) self.new) }
        ensures balance { let core = pool_in pool self.old in IfOk result (λ ticket. Balance core (pool_in pool self.new) (asked_marks core client (moment_of core now) ticket) 0 (ask_room core.options.idle_tries)) }
        ensures becomes { let core = pool_in pool self.old in OnOk result (self.new ≡ with_pool pool (at_moment (moment_of core now) (asked client (moment_of core now + core.options.acquire_timeout) core)) self.old) }
        ensures names { length self.new.pools ≡ length self.old.pools }
        ensures err { OnErr result (self.new ≡ with_pool pool (pool_in pool self.old) self.old) }
    {
        let moment = self.moment(now);
        let closed = self.counts_as_closed(pool);
        let member = &mut self.pools[pool as usize].core;
        member.hear(closed, self.shared);
        let answer = member.ask(client, moment);
        member.sound();
        self.shared = member.shared();
        answer
    }

    /// Ends a ticket that waits or is in backoff, and frees what it held. False where the client has no such ticket.
    pub fn cancel(&mut self, pool: u32, client: u32, ticket: u64) -> bool
        requires named { pool < length self.old.pools }
        ensures answer { result ≡ may_cancel (phase_for client ticket (pool_in pool self.old).tickets) }
        ensures makes { FamilyLogs self.old pool (cancel_marks ticket result) self.new }
        ensures balance { Balance (pool_in pool self.old) (pool_in pool self.new) (cancel_marks ticket result) 0 0 }
        ensures becomes { self.new ≡ stepped pool (cancelled ticket result (pool_in pool self.old)) self.old }
        ensures names { length self.new.pools ≡ length self.old.pools }
    {
        let closed = self.counts_as_closed(pool);
        let member = &mut self.pools[pool as usize].core;
        member.hear(closed, self.shared);
        let answer = member.cancel(client, ticket);
        member.sound();
        self.shared = member.shared();
        self.settle(pool);
        answer
    }

    /// Lends the first idle connection of a pool past the line, without a test: where the pool is open, and fewer tickets wait
    /// than permits are free. The root counts the tickets of the root's line, a child its own.
    pub fn try_acquire(&mut self, pool: u32, now: Moment, client: u32) -> Option<Lent<C>>
        requires named { pool < length self.old.pools }
        ensures answer { result ≡ try_lent (passes_in pool self.old) (pool_in pool self.old).idle }
        ensures makes { FamilyLogs self.old pool (try_marks client result) self.new }
        ensures balance { Balance (pool_in pool self.old) (pool_in pool self.new) (try_marks client result) 0 (try_room result) }
        ensures becomes { let core = pool_in pool self.old in self.new ≡ with_pool pool (after_try client (moment_of core now) result core) self.old }
        ensures names { length self.new.pools ≡ length self.old.pools }
    {
        let moment = self.moment(now);
        let passes = self.passes(pool);
        let closed = self.counts_as_closed(pool);
        let member = &mut self.pools[pool as usize].core;
        member.hear(closed, self.shared);
        let answer = member.try_acquire(client, moment, passes);
        member.sound();
        self.shared = member.shared();
        answer
    }
}
