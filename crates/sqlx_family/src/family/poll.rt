//! The start of a poll, by which a child's ticket may take a permit from the root.

ghost use Rattle.std.specs.Prelude.{◌≡◌, ℕ, ◌+◌, ◌<◌, ◌≤◌, max, length, not, ◌&&◌, ◌||◌, true, false};
ghost use Rattle.sqlx_pool_marks.specs.declared.mark.Mark.{Mark};
ghost use Rattle.sqlx_pool_lists.specs.Core.{ticket_of, free};
ghost use Rattle.sqlx_pool_lists.specs.CoreTurn.{turn_of};
ghost use Rattle.sqlx_pool_lists.specs.Balance.{Balance};
ghost use Rattle.sqlx_pool_core.specs.Logs.{moment_of};
ghost use Rattle.sqlx_pool_lists.specs.PollSteps.{start_answer, start_marks, started, phase_for};
ghost use Rattle.sqlx_family.specs.Pools.{pool_in, entry_of};
ghost use Rattle.sqlx_family.specs.RootLine.{is_entitled, is_entitled_alone, is_entitled_by_root, may_leave, takes_permit, granting};
ghost use Rattle.sqlx_family.specs.Permits.{granted, stepped, MayGrant};
ghost use Rattle.sqlx_family.specs.FamilyLogs.{FamilyLogs};

use super::Family;
use sqlx_pool_lists::Start;
use sqlx_text::Moment;

impl<C> Family<C> {
    // A ticket is entitled in the line of its own pool.
    fn is_entitled_alone(&self, pool: u32, ticket: u64) -> bool
        requires named { pool < length self.now.pools }
        ensures answer { result ≡ is_entitled_alone pool ticket self.now }
        ensures permit { result ≡ true → 0 < free (entry_of pool self.now).core }
    {
        if pool == 0 {
            self.root_admits(Some(ticket))
        } else {
            self.pools[pool as usize].core.is_first(ticket)
        }
    }

    // A child's ticket is entitled by the root's line.
    fn is_entitled_by_root(&self, pool: u32, ticket: u64) -> bool
        requires named { pool < length self.now.pools }
        ensures answer { result ≡ is_entitled_by_root pool ticket self.now }
        ensures permit { result ≡ true → MayGrant pool self.now }
    {
        pool != 0
            && self.pools[pool as usize].core.wants_permits()
            && self.root_admits(Some(ticket))
    }

    // The client's ticket waits, in time and in an open pool.
    fn may_leave(&self, pool: u32, client: u32, ticket: u64, moment: Moment) -> bool
        requires named { pool < length self.now.pools }
        ensures { result ≡ may_leave pool client ticket moment.0 self.now }
    {
        !self.counts_as_closed(pool)
            && self.pools[pool as usize]
                .core
                .waits_in_time(client, ticket, moment)
    }

    // A child's ticket takes a permit from the root.
    fn takes_permit(&self, pool: u32, client: u32, ticket: u64, moment: Moment) -> bool
        requires named { pool < length self.now.pools }
        ensures answer { result ≡ takes_permit pool client ticket moment.0 self.now }
        ensures permit { result ≡ true → MayGrant pool self.now }
    {
        !self.is_entitled_alone(pool, ticket)
            && self.is_entitled_by_root(pool, ticket)
            && self.may_leave(pool, client, ticket, moment)
    }

    // A child takes one permit from the root, where it takes one.
    fn grant(&mut self, pool: u32, takes: bool)
        requires named { pool < length self.old.pools }
        requires permit { takes ≡ true → MayGrant pool self.old }
        ensures permit { takes ≡ true → 0 < free (entry_of pool self.new).core }
        ensures becomes { self.new ≡ granted takes pool self.old }
        ensures names { length self.new.pools ≡ length self.old.pools }
    {
        if takes {
            self.move_permits(0, pool, 1);
        }
    }

    // Begins a poll of a ticket, entitled or not.
    fn start_at(
        &mut self,
        pool: u32,
        client: u32,
        ticket: u64,
        moment: Moment,
        entitled: bool,
    ) -> Start<C>
        requires named { pool < length self.old.pools }
        requires permit { entitled ≡ true → 0 < free (entry_of pool self.old).core }
        ensures answer { let core = pool_in pool self.old in result ≡ start_answer (turn_of entitled core.closed moment.0 core (ticket_of client ticket core.tickets)) core.idle }
        ensures makes { FamilyLogs self.old pool (start_marks ticket (phase_for client ticket (pool_in pool self.old).tickets) result) self.new }
        ensures balance { Balance (pool_in pool self.old) (pool_in pool self.new) (start_marks ticket (phase_for client ticket (pool_in pool self.old).tickets) result) 0 0 }
        ensures becomes { self.new ≡ stepped pool (started ticket moment.0 result (pool_in pool self.old)) self.old }
        ensures names { length self.new.pools ≡ length self.old.pools }
    {
        let closed = self.counts_as_closed(pool);
        let member = &mut self.pools[pool as usize].core;
        member.hear(closed, self.shared);
        let answer = member.start(client, ticket, moment, entitled);
        member.sound();
        self.shared = member.shared();
        self.settle(pool);
        answer
    }

    /// Begins a poll. A ticket that waits leaves the line where it is entitled in its own line; a child's is entitled in the
    /// root's line too while the child owns fewer permits than its maximum, and then takes one free permit from the root.
    pub fn start(&mut self, pool: u32, client: u32, ticket: u64, now: Moment) -> Start<C>
        requires named { pool < length self.old.pools }
        ensures answer { let core = pool_in pool self.old in result ≡ start_answer (turn_of (is_entitled pool ticket self.old) core.closed (moment_of core now) core (ticket_of client ticket core.tickets)) core.idle }
        ensures makes { FamilyLogs self.old pool (start_marks ticket (phase_for client ticket (pool_in pool self.old).tickets) result) self.new }
        ensures balance { Balance (pool_in pool self.old) (pool_in pool self.new) (start_marks ticket (phase_for client ticket (pool_in pool self.old).tickets) result) 0 0 }
        ensures becomes { let m = moment_of (pool_in pool self.old) now in let f = granting pool client ticket m self.old in self.new ≡ stepped pool (started ticket m result (pool_in pool f)) f }
        ensures names { length self.new.pools ≡ length self.old.pools }
    {
        let moment = self.moment(now);
        let alone = self.is_entitled_alone(pool, ticket);
        let takes = self.takes_permit(pool, client, ticket, moment);
        self.grant(pool, takes);
        self.start_at(pool, client, ticket, moment, either(alone, takes))
    }
}

// One of the two holds.
fn either(one: bool, other: bool) -> bool
    ensures { result ≡ (one || other) }
{
    one || other
}
