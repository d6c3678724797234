//! The steps that keep a pool in shape, closing it, and its log.

ghost use Rattle.std.specs.Prelude.{◌≡◌, ℕ, true, false, Ok, is_some, IfOk, IfSome};
ghost use mathlib.Core.List.{IsPrefix};
ghost use Rattle.sqlx_pool.specs.Calls as call;
ghost use Rattle.sqlx_pool.specs.Seen.{HasSeen, SeesStep};

use super::{Kept, Seen};
use crate::steps::PoolSteps;
use sqlx_pool_core::Idle;
use sqlx_text::{Depth, Moment, OutOfMemory};
use std::alloc::Global;
use std::collections::VecDeque;
use std::sync::{Arc, Wait};

impl<C: Depth, O, S: PoolSteps<C, O>> Kept<C, O, S> {
    // Takes what is to be reaped first.
    pub(crate) fn reap<R: Wait>(
        &mut self,
        rt: &R,
        name: S::Name,
        now: Moment,
        me: &mut Seen<C, O, S>,
    ) -> Option<Idle<C>>
        ensures saw { SeesStep S.stands me.old me.new (S.does (call.Reap name now result)) }
        ensures none { is_some result ≡ false → HasSeen S.stands me.old me.new (S.tells (call.NothingToReap name now)) }
        ensures later { IsPrefix me.old me.new }
    {
        let Kept { locked, history } = self;
        history.show(rt, &*locked, me);
        locked.facts();
        let done = locked.reap(name, now);
        locked.facts();
        history.add(rt, &*locked);
        *me = history.front();
        done
    }

    // Holds a place for the first connections, where there is one.
    pub(crate) fn first_place<R: Wait>(
        &mut self,
        rt: &R,
        name: S::Name,
        alloc: Global,
    ) -> Result<bool, OutOfMemory> {
        let Kept { locked, history } = self;
        let done = locked.first_place(name, alloc);
        history.add(rt, &*locked);
        done
    }

    // Holds a place for a connection of the minimum, where there is one.
    pub(crate) fn minimum_place<R: Wait>(
        &mut self,
        rt: &R,
        name: S::Name,
        alloc: Global,
        me: &mut Seen<C, O, S>,
    ) -> Result<bool, OutOfMemory>
        ensures saw { SeesStep S.stands me.old me.new (S.does (call.MinimumPlace name result)) }
        ensures full { result ≡ Ok false → HasSeen S.stands me.old me.new (S.tells (call.IsFilled name)) }
        ensures later { IsPrefix me.old me.new }
    {
        let Kept { locked, history } = self;
        history.show(rt, &*locked, me);
        locked.facts();
        let done = locked.minimum_place(name, alloc);
        locked.facts();
        history.add(rt, &*locked);
        *me = history.front();
        done
    }

    // Tells of a connection that was opened for a place, or of none. It comes back where the pool keeps none.
    pub(crate) fn minimum_done<R: Wait>(
        &mut self,
        rt: &R,
        name: S::Name,
        now: Moment,
        raw: Option<C>,
        me: &mut Seen<C, O, S>,
    ) -> Option<C>
        requires { IfSome raw (λ conn. C.levels conn ≡ 0) }
        ensures saw { SeesStep S.stands me.old me.new (S.does (call.MinimumDone name now raw result)) }
        ensures back { is_some result ≡ true → HasSeen S.stands me.old me.new (S.tells (call.IsFilled name)) }
        ensures later { IsPrefix me.old me.new }
    {
        let Kept { locked, history } = self;
        history.show(rt, &*locked, me);
        locked.facts();
        let done = locked.minimum_done(name, now, raw);
        locked.facts();
        history.add(rt, &*locked);
        *me = history.front();
        done
    }

    // Closes the pool.
    pub(crate) fn close<R: Wait>(
        &mut self,
        rt: &R,
        name: S::Name,
        me: &mut Seen<C, O, S>,
    ) -> VecDeque<Idle<C>>
        ensures { SeesStep S.stands me.old me.new (S.does (call.Close name result.items)) }
    {
        let Kept { locked, history } = self;
        history.show(rt, &*locked, me);
        locked.facts();
        let done = locked.close(name);
        locked.facts();
        history.add(rt, &*locked);
        *me = history.front();
        done
    }

    // Sets the options by which connections are opened from now on; the former ones come back.
    pub(crate) fn set_connect_options<R: Wait>(
        &mut self,
        rt: &R,
        options: Arc<O, Global>,
    ) -> Arc<O, Global> {
        let Kept { locked, history } = self;
        let done = locked.set_connect_options(options);
        history.add(rt, &*locked);
        done
    }

    // Cuts the log.
    pub(crate) fn cut<R: Wait>(&mut self, rt: &R, name: S::Name)
        requires { S.cuts ≡ true }
    {
        let Kept { locked, history } = self;
        locked.cut(name);
        history.add(rt, &*locked);
    }

    // Cuts the log where it is long. Where nothing is cut, no state is added to the history.
    pub(crate) fn cut_if_long<R: Wait>(&mut self, rt: &R, name: S::Name) {
        let Kept { locked, history } = self;
        if locked.cut_if_long(name) {
            history.add(rt, &*locked);
        }
    }

    // Sets by how many marks behind its start the log is one to be cut.
    pub(crate) fn set_log_limit<R: Wait>(&mut self, rt: &R, name: S::Name, limit: Option<usize>)
        requires { S.cuts ≡ true }
    {
        let Kept { locked, history } = self;
        locked.set_log_limit(name, limit);
        history.add(rt, &*locked);
    }

    // A copy of all logs, which tells of as many loans as the tally with every part has counted.
    pub(crate) fn audit<R: Wait>(
        &mut self,
        rt: &R,
        alloc: Global,
        all: &mut S::Tally,
    ) -> Result<S::Logs, OutOfMemory>
        requires { (S.Tally.counted all.old).parts ≡ S.parts }
        ensures counted { IfOk result (λ logs. S.tells_loans logs (S.Tally.counted all.old).loans) }
        ensures same { all.new ≡ all.old }
    {
        let Kept { locked, history } = self;
        let done = locked.audit(alloc, all);
        history.add(rt, &*locked);
        done
    }
}
