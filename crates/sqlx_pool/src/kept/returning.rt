//! The steps that end a loan.

ghost use Rattle.std.specs.Prelude.{◌≡◌, ℕ, true, false};
ghost use Rattle.sqlx_pool_core.specs.Answers.{is_kept};
ghost use Rattle.sqlx_pool.specs.Calls as call;
ghost use Rattle.sqlx_pool.specs.Seen.{SeesStep};

use super::{Kept, Seen};
use crate::steps::PoolSteps;
use sqlx_pool_core::{Given, Lent};
use sqlx_text::{Depth, Moment};
use std::sync::Wait;

impl<C: Depth, O, S: PoolSteps<C, O>> Kept<C, O, S> {
    // Gives a connection back.
    pub(crate) fn give<R: Wait>(
        &mut self,
        rt: &R,
        name: S::Name,
        client: u32,
        lent: Lent<C>,
        now: Moment,
        accepted: bool,
        held: S::Held,
        me: &mut Seen<C, O, S>,
    ) -> (Given<C>, Option<S::Held>)
        requires flat { accepted ≡ true → C.levels lent.raw ≡ 0 }
        ensures saw { SeesStep S.stands me.old me.new (S.does (call.Give name client lent now accepted result.0)) }
        ensures refused { accepted ≡ false → is_kept result.0 ≡ false }
    {
        let Kept { locked, history } = self;
        history.show(rt, &*locked, me);
        locked.facts();
        let done = locked.give(name, client, lent, now, accepted, held);
        locked.facts();
        history.add(rt, &*locked);
        *me = history.front();
        done
    }

    // Ends the loan of a connection, which the caller closes.
    pub(crate) fn end<R: Wait>(
        &mut self,
        rt: &R,
        name: S::Name,
        client: u32,
        id: u64,
        held: S::Held,
        me: &mut Seen<C, O, S>,
    ) -> (bool, Option<S::Held>)
        ensures { SeesStep S.stands me.old me.new (S.does (call.CloseLoan name client id result.0)) }
    {
        let Kept { locked, history } = self;
        history.show(rt, &*locked, me);
        locked.facts();
        let done = locked.end(name, client, id, held);
        locked.facts();
        history.add(rt, &*locked);
        *me = history.front();
        done
    }

    // Takes a connection out of the pool.
    pub(crate) fn detach<R: Wait>(
        &mut self,
        rt: &R,
        name: S::Name,
        client: u32,
        id: u64,
        held: S::Held,
        me: &mut Seen<C, O, S>,
    ) -> (bool, Option<S::Held>)
        ensures { SeesStep S.stands me.old me.new (S.does (call.Detach name client id result.0)) }
    {
        let Kept { locked, history } = self;
        history.show(rt, &*locked, me);
        locked.facts();
        let done = locked.detach(name, client, id, held);
        locked.facts();
        history.add(rt, &*locked);
        *me = history.front();
        done
    }

    // Takes a connection out of the pool, which keeps its permit for good.
    pub(crate) fn leak<R: Wait>(
        &mut self,
        rt: &R,
        name: S::Name,
        client: u32,
        id: u64,
        held: S::Held,
        me: &mut Seen<C, O, S>,
    ) -> (bool, Option<S::Held>)
        ensures { SeesStep S.stands me.old me.new (S.does (call.Leak name client id result.0)) }
    {
        let Kept { locked, history } = self;
        history.show(rt, &*locked, me);
        locked.facts();
        let done = locked.leak(name, client, id, held);
        locked.facts();
        history.add(rt, &*locked);
        *me = history.front();
        done
    }
}
