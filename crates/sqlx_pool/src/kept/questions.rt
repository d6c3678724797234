//! What the value is asked without a change. The caller's front then ends with the state of which it answers.

ghost use Rattle.std.specs.Prelude.{◌≡◌, ℕ, ◌≤◌, IfOk};
ghost use mathlib.Core.List.{IsPrefix};
ghost use Rattle.sqlx_pool.specs.Calls as call;
ghost use Rattle.sqlx_pool.specs.Seen.{Sees};

use super::{Kept, Seen};
use crate::steps::PoolSteps;
use sqlx_pool_core::CloseState;
use sqlx_text::{Depth, Moment, OutOfMemory};
use std::alloc::Global;
use std::sync::{Arc, Wait};

// The options by which connections are opened.
fn options_of<C: Depth, O, S: PoolSteps<C, O>>(locked: &S) -> Result<Arc<O, Global>, OutOfMemory>
    ensures { IfOk result (λ options. S.tells (call.Connects options.value) (S.Stands.state locked.now)) }
{
    match Arc::try_clone(locked.connect_options()) {
        Ok(options) => Ok(options),
        Err(_) => Err(OutOfMemory),
    }
}

impl<C: Depth, O, S: PoolSteps<C, O>> Kept<C, O, S> {
    // How many connections there are or may be.
    pub(crate) fn size<R: Wait>(&mut self, rt: &R, name: S::Name, me: &mut Seen<C, O, S>) -> u32
        ensures most { result ≤ S.max }
        ensures saw { Sees S.stands me.old me.new (S.tells (call.Size name result)) }
    {
        let Kept { locked, history } = self;
        history.show(rt, &*locked, me);
        locked.facts();
        locked.size(name)
    }

    // How many connections are idle.
    pub(crate) fn num_idle<R: Wait>(
        &mut self,
        rt: &R,
        name: S::Name,
        me: &mut Seen<C, O, S>,
    ) -> usize
        ensures most { result ≤ S.max }
        ensures saw { Sees S.stands me.old me.new (S.tells (call.NumIdle name result)) }
    {
        let Kept { locked, history } = self;
        history.show(rt, &*locked, me);
        locked.facts();
        locked.num_idle(name)
    }

    // Whether the pool is closed.
    pub(crate) fn is_closed<R: Wait>(
        &mut self,
        rt: &R,
        name: S::Name,
        me: &mut Seen<C, O, S>,
    ) -> bool
        ensures { Sees S.stands me.old me.new (S.tells (call.IsClosed name result)) }
    {
        let Kept { locked, history } = self;
        history.show(rt, &*locked, me);
        locked.facts();
        locked.is_closed(name)
    }

    // The options by which connections are opened.
    pub(crate) fn connect_options<R: Wait>(
        &mut self,
        rt: &R,
        me: &mut Seen<C, O, S>,
    ) -> Result<Arc<O, Global>, OutOfMemory>
        ensures saw { IfOk result (λ options. Sees S.stands me.old me.new (S.tells (call.Connects options.value))) }
        ensures later { IsPrefix me.old me.new }
    {
        let Kept { locked, history } = self;
        history.show(rt, &*locked, me);
        locked.facts();
        options_of::<C, O, S>(&*locked)
    }

    // When a connection of this opening that comes back is tested; None where it is to be closed anyway.
    pub(crate) fn tests_at<R: Wait>(
        &mut self,
        rt: &R,
        name: S::Name,
        created: Moment,
        now: Moment,
        me: &mut Seen<C, O, S>,
    ) -> Option<Moment>
        ensures { Sees S.stands me.old me.new (S.tells (call.TestsAt name created now result)) }
    {
        let Kept { locked, history } = self;
        history.show(rt, &*locked, me);
        locked.facts();
        locked.tests_at(name, created, now)
    }

    // How far the pool is closed.
    pub(crate) fn closing<R: Wait>(
        &mut self,
        rt: &R,
        name: S::Name,
        me: &mut Seen<C, O, S>,
    ) -> CloseState
        ensures { Sees S.stands me.old me.new (S.tells (call.Closing name result)) }
    {
        let Kept { locked, history } = self;
        history.show(rt, &*locked, me);
        locked.facts();
        locked.closing(name)
    }

    // How many marks the log has behind its start.
    pub(crate) fn log_len<R: Wait>(
        &mut self,
        rt: &R,
        name: S::Name,
        me: &mut Seen<C, O, S>,
    ) -> usize
        ensures { Sees S.stands me.old me.new (S.tells (call.LogLen name result)) }
    {
        let Kept { locked, history } = self;
        history.show(rt, &*locked, me);
        locked.facts();
        locked.log_len(name)
    }

    // A copy of the log.
    pub(crate) fn read_log<R: Wait>(
        &mut self,
        rt: &R,
        name: S::Name,
        alloc: Global,
        me: &mut Seen<C, O, S>,
    ) -> Result<S::Log, OutOfMemory>
        ensures is { IfOk result (λ log. S.is_log log) }
        ensures saw { IfOk result (λ log. Sees S.stands me.old me.new (S.tells (call.LogIs name log))) }
    {
        let Kept { locked, history } = self;
        history.show(rt, &*locked, me);
        locked.facts();
        locked.read_log(name, alloc)
    }
}
