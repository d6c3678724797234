//! Asking, and lending past the line.

ghost use Rattle.std.specs.Prelude.{◌≡◌, ℕ, true, is_some, IfSome, IfOk, IfErr, OnErr};
ghost use Rattle.sqlx_pool_parts.specs.Answers.{lent_alone};
ghost use Rattle.sqlx_pool_parts.specs.Booked.{CountsIf};
ghost use Rattle.sqlx_pool.specs.Calls.{past_alone};
ghost use Rattle.sqlx_pool.specs.Calls as call;
ghost use Rattle.sqlx_pool.specs.Refusals.{IsAskRefusal, IsTryRefusal};
ghost use Rattle.sqlx_pool.specs.Seen.{Sees, SeesStep};

use super::{Kept, Seen};
use crate::steps::PoolSteps;
use sqlx_pool_core::Lent;
use sqlx_text::{Depth, Error, Moment};
use std::alloc::Global;
use std::sync::Wait;

impl<C: Depth, O, S: PoolSteps<C, O>> Kept<C, O, S> {
    // Asks for a connection.
    pub(crate) fn ask<R: Wait>(
        &mut self,
        rt: &R,
        name: S::Name,
        alloc: Global,
        now: Moment,
        client: u32,
        me: &mut Seen<C, O, S>,
    ) -> Result<u64, Error>
        ensures saw { SeesStep S.stands me.old me.new (S.does (call.Ask name now client result)) }
        ensures refused { IfErr result (IsAskRefusal (Sees S.stands me.old me.new (S.tells (call.IsClosed name true))) (Sees S.stands me.old me.new (S.tells call.TicketsUsed))) }
    {
        let Kept { locked, history } = self;
        history.show(rt, &*locked, me);
        locked.facts();
        let done = locked.ask(name, alloc, now, client);
        locked.facts();
        history.add(rt, &*locked);
        *me = history.front();
        done
    }

    // Serves an ask at once, without a test.
    pub(crate) fn serve_new<R: Wait>(
        &mut self,
        rt: &R,
        name: S::Name,
        alloc: Global,
        now: Moment,
        client: u32,
        tally: &mut S::Tally,
    ) -> Option<(Lent<C>, S::Held)>
        ensures tally { CountsIf (is_some result) (S.Tally.counted tally.old) (S.Tally.counted tally.new) }
        ensures flat { IfSome (lent_alone result) (λ l. C.levels l.raw ≡ 0) }
    {
        let Kept { locked, history } = self;
        let done = locked.serve_new(name, alloc, now, client, tally);
        history.add(rt, &*locked);
        done
    }

    // Lends past the line.
    pub(crate) fn try_acquire<R: Wait>(
        &mut self,
        rt: &R,
        name: S::Name,
        alloc: Global,
        now: Moment,
        client: u32,
        tally: &mut S::Tally,
        me: &mut Seen<C, O, S>,
    ) -> Result<Option<(Lent<C>, S::Held)>, Error>
        ensures saw { SeesStep S.stands me.old me.new (S.does (call.LendPast name now client (past_alone result))) }
        ensures tally { IfOk result (λ lent. CountsIf (is_some lent) (S.Tally.counted tally.old) (S.Tally.counted tally.new)) }
        ensures flat { IfOk result (λ lent. IfSome (lent_alone lent) (λ l. C.levels l.raw ≡ 0)) }
        ensures refused { IfErr result (IsTryRefusal (Sees S.stands me.old me.new (S.tells call.LoansUsed))) }
        ensures err { OnErr result (S.Tally.counted tally.new ≡ S.Tally.counted tally.old) }
    {
        let Kept { locked, history } = self;
        history.show(rt, &*locked, me);
        locked.facts();
        let done = locked.try_acquire(name, alloc, now, client, tally);
        locked.facts();
        history.add(rt, &*locked);
        *me = history.front();
        done
    }
}
