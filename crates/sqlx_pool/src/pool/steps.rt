//! The steps behind which somebody who waits may go on: each takes the lock, makes its step, and wakes whom it entitled.

ghost use Rattle.std.specs.Prelude.{◌≡◌, true, false};
ghost use Rattle.sqlx_pool_core.specs.Answers.{is_kept};
ghost use Rattle.sqlx_pool.specs.Calls as call;
ghost use Rattle.sqlx_pool.specs.Seen.{SeesStep};

use super::PoolOf;
use crate::steps::PoolSteps;
use crate::stood::FrontOf;
use sqlx_pool_core::{Given, Lent};
use sqlx_text::{Depth, Moment};
use std::sync::Wait;

impl<C: Depth + Drop, O: Drop, S: PoolSteps<C, O>> PoolOf<C, O, S> {
    // Ends a ticket that waits or is in backoff.
    pub(crate) fn cancel<R: Wait>(
        &self,
        rt: &R,
        client: u32,
        ticket: u64,
        me: &mut FrontOf<C, O, S>,
    ) -> bool
        ensures { SeesStep S.stands me.old me.new (S.does (call.Cancel self.now.shared.value.name client ticket result)) }
    {
        let mut guard = self.lock(rt);
        let ended = guard.cancel(rt, self.shared.name, client, ticket, me);
        self.unlock(guard);
        ended
    }

    // Gives a connection back.
    pub(crate) fn give<R: Wait>(
        &self,
        rt: &R,
        client: u32,
        lent: Lent<C>,
        now: Moment,
        accepted: bool,
        held: S::Held,
        me: &mut FrontOf<C, O, S>,
    ) -> Given<C>
        requires flat { accepted ≡ true → C.levels lent.raw ≡ 0 }
        ensures saw { SeesStep S.stands me.old me.new (S.does (call.Give self.now.shared.value.name client lent now accepted result)) }
        ensures refused { accepted ≡ false → is_kept result ≡ false }
    {
        let mut guard = self.lock(rt);
        let (given, left) = guard.give(rt, self.shared.name, client, lent, now, accepted, held, me);
        self.unlock(guard);
        drop(left);
        given
    }

    // Ends the loan of a connection, which the caller closes.
    pub(crate) fn end<R: Wait>(
        &self,
        rt: &R,
        client: u32,
        id: u64,
        held: S::Held,
        me: &mut FrontOf<C, O, S>,
    ) -> bool
        ensures { SeesStep S.stands me.old me.new (S.does (call.CloseLoan self.now.shared.value.name client id result)) }
    {
        let mut guard = self.lock(rt);
        let (ended, left) = guard.end(rt, self.shared.name, client, id, held, me);
        self.unlock(guard);
        drop(left);
        ended
    }

    // Takes a connection out of the pool.
    pub(crate) fn detach<R: Wait>(
        &self,
        rt: &R,
        client: u32,
        id: u64,
        held: S::Held,
        me: &mut FrontOf<C, O, S>,
    ) -> bool
        ensures { SeesStep S.stands me.old me.new (S.does (call.Detach self.now.shared.value.name client id result)) }
    {
        let mut guard = self.lock(rt);
        let (left_pool, left) = guard.detach(rt, self.shared.name, client, id, held, me);
        self.unlock(guard);
        drop(left);
        left_pool
    }

    // Takes a connection out of the pool, which keeps its permit for good.
    pub(crate) fn leak<R: Wait>(
        &self,
        rt: &R,
        client: u32,
        id: u64,
        held: S::Held,
        me: &mut FrontOf<C, O, S>,
    ) -> bool
        ensures { SeesStep S.stands me.old me.new (S.does (call.Leak self.now.shared.value.name client id result)) }
    {
        let (left_pool, left) = self
            .lock(rt)
            .leak(rt, self.shared.name, client, id, held, me);
        drop(left);
        left_pool
    }
}
