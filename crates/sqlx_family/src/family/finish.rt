//! The steps that end a poll: what a test and what a connect came to.

ghost use Rattle.std.specs.Prelude.{◌≡◌, ℕ, ◌<◌, length};
ghost use Rattle.sqlx_pool_marks.specs.declared.mark.Mark.{Mark};
ghost use Rattle.sqlx_pool_lists.specs.Core.{ticket_of};
ghost use Rattle.sqlx_pool_lists.specs.Balance.{Balance};
ghost use Rattle.sqlx_pool_core.specs.Logs.{moment_of};
ghost use Rattle.sqlx_pool_lists.specs.PollSteps.{judged, verdict_answer, test_marks, after_test, connect_answer, connect_marks, after_connect};
ghost use Rattle.sqlx_family.specs.Pools.{pool_in, with_pool, counts_as_closed, entry_of};
ghost use Rattle.sqlx_family.specs.Permits.{stepped};
ghost use Rattle.sqlx_family.specs.FamilyLogs.{FamilyLogs};

use super::Family;
use sqlx_pool_lists::{AfterConnect, AfterTest, Tried, Verdict};
use sqlx_text::Moment;

impl<C> Family<C> {
    /// Tells what the test of an idle connection came to. Behind a refused one the first idle connection of the same pool is
    /// tested, where fewer than `idle_tries` were tested in this poll; else a connection is opened.
    pub fn finish_test(
        &mut self,
        pool: u32,
        client: u32,
        ticket: u64,
        verdict: Verdict<C>,
    ) -> AfterTest<C>
        requires named { pool < length self.old.pools }
        ensures answer { let core = pool_in pool self.old in result ≡ verdict_answer client ticket core.closed core verdict }
        ensures makes { FamilyLogs self.old pool (test_marks client ticket (judged verdict) result) self.new }
        ensures balance { Balance (pool_in pool self.old) (pool_in pool self.new) (test_marks client ticket (judged verdict) result) 0 0 }
        ensures becomes { self.new ≡ stepped pool (after_test client ticket result (pool_in pool self.old)) self.old }
        ensures names { length self.new.pools ≡ length self.old.pools }
    {
        let closed = self.counts_as_closed(pool);
        let member = &mut self.pools[pool as usize].core;
        member.hear(closed, self.shared);
        let answer = member.finish_test(client, ticket, verdict);
        member.sound();
        self.shared = member.shared();
        self.settle(pool);
        answer
    }

    /// Tells what a connect came to. A new connection has this moment as that of its opening, and the number that comes next in
    /// the family.
    pub fn finish_connect(
        &mut self,
        pool: u32,
        client: u32,
        ticket: u64,
        now: Moment,
        tried: Tried<C>,
    ) -> AfterConnect<C>
        requires named { pool < length self.old.pools }
        ensures answer { let core = pool_in pool self.old in result ≡ connect_answer (ticket_of client ticket core.tickets) core.closed core.next_conn (moment_of core now) tried }
        ensures makes { FamilyLogs self.old pool (connect_marks client ticket (moment_of (pool_in pool self.old) now) result) self.new }
        ensures balance { Balance (pool_in pool self.old) (pool_in pool self.new) (connect_marks client ticket (moment_of (pool_in pool self.old) now) result) 0 0 }
        ensures becomes { let core = pool_in pool self.old in self.new ≡ stepped pool (after_connect client ticket (moment_of core now) result core) self.old }
        ensures names { length self.new.pools ≡ length self.old.pools }
    {
        let moment = self.moment(now);
        let closed = self.counts_as_closed(pool);
        let member = &mut self.pools[pool as usize].core;
        member.hear(closed, self.shared);
        let answer = member.finish_connect(client, ticket, moment, tried);
        member.sound();
        self.shared = member.shared();
        self.settle(pool);
        answer
    }
}
