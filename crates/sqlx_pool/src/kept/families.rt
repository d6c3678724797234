//! What the pools of a family have besides: children, and the permits that each owns.

ghost use Rattle.std.specs.Prelude.{◌≡◌, ◌≤◌, ◌⊎◌, ℕ, Err, IfOk, IfErr};
ghost use mathlib.Core.List.{IsPrefix};
ghost use Rattle.sqlx_text.specs.declared.error.Error.{Error};
ghost use Rattle.sqlx_pool.specs.Calls as call;
ghost use Rattle.sqlx_pool.specs.Seen.{HasSeen, Sees, SeesStep};

use super::{Kept, Seen};
use crate::steps::FamilySteps;
use sqlx_pool_core::{Idle, PoolOptions};
use sqlx_text::{Depth, Error};
use std::alloc::Global;
use std::collections::VecDeque;
use std::sync::Wait;

impl<C: Depth, O, S: FamilySteps<C, O>> Kept<C, O, S> {
    // Adds a child.
    pub(crate) fn child<R: Wait>(
        &mut self,
        rt: &R,
        alloc: Global,
        options: PoolOptions,
        me: &mut Seen<C, O, S>,
    ) -> Result<S::Name, Error>
        requires some { 1 ≤ options.max_connections }
        requires tries { (1 ≤ options.idle_tries) × (options.idle_tries ≤ 16) }
        requires fits { options.max_connections ≤ S.PoolSteps.max }
        ensures saw { SeesStep S.PoolSteps.stands me.old me.new (S.PoolSteps.does (call.AddChild options result)) }
        ensures full { (result ≡ Err Error.Exhausted) → HasSeen S.PoolSteps.stands me.old me.new (S.PoolSteps.tells call.IsFull) }
        ensures later { IsPrefix me.old me.new }
        ensures child { IfOk result (λ name. S.FamilySteps.is_child name) }
        ensures causes { IfErr result (λ e. (e ≡ Error.Exhausted) ⊎ (e ≡ Error.OutOfMemory)) }
    {
        let Kept { locked, history } = self;
        history.show(rt, &*locked, me);
        locked.facts();
        let done = locked.child(alloc, options);
        locked.facts();
        history.add(rt, &*locked);
        *me = history.front();
        done
    }

    // Retires a child.
    pub(crate) fn retire<R: Wait>(
        &mut self,
        rt: &R,
        name: S::Name,
        me: &mut Seen<C, O, S>,
    ) -> VecDeque<Idle<C>>
        ensures { SeesStep S.PoolSteps.stands me.old me.new (S.PoolSteps.does (call.Retire name result.items)) }
    {
        let Kept { locked, history } = self;
        history.show(rt, &*locked, me);
        locked.facts();
        let done = locked.retire(name);
        locked.facts();
        history.add(rt, &*locked);
        *me = history.front();
        done
    }

    // How many permits a pool owns.
    pub(crate) fn owned<R: Wait>(&mut self, rt: &R, name: S::Name, me: &mut Seen<C, O, S>) -> u32
        ensures most { result ≤ S.PoolSteps.max }
        ensures saw { Sees S.PoolSteps.stands me.old me.new (S.PoolSteps.tells (call.Owns name result)) }
    {
        let Kept { locked, history } = self;
        history.show(rt, &*locked, me);
        locked.facts();
        locked.owned(name)
    }
}
