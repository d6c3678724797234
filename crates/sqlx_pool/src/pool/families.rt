//! What a pool of a family has besides: children of a root, and the permits that each owns.

ghost use Rattle.std.specs.Prelude.{◌≡◌, ◌⊎◌, ◌≤◌, ℕ, Err, Ok, IfOk, IfErr};
ghost use Rattle.sqlx_text.specs.declared.error.Error.{Error};
ghost use Rattle.sqlx_pool.specs.Calls as call;
ghost use Rattle.sqlx_pool.specs.Families.{IsChildOf};
ghost use Rattle.sqlx_pool.specs.Reaped.{ClosesIdle};
ghost use Rattle.sqlx_pool.specs.Seen.{HasSeen, Sees, SeesStep};

use super::PoolOf;
use crate::steps::FamilySteps;
use crate::stood::FrontOf;
use sqlx_pool_core::idle_check::Check;
use sqlx_pool_core::{Outside, PoolOptions};
use sqlx_pool_parts::checks;
use sqlx_text::{Depth, Error};
use std::alloc::Global;
use std::sync::atomic::Ordering;
use std::sync::{Arc, Wait};

impl<C: Depth + Drop, O: Drop, S: FamilySteps<C, O>> PoolOf<C, O, S> {
    /// A new child of a root, which owns no permit yet. It is `Exhausted` only where the family had 2^32 - 1 pools. In sqlx:
    /// a pool with a `parent`.
    pub fn child<R: Wait>(&self, rt: &R, alloc: Global, options: PoolOptions) -> Result<Self, Error>
        requires root { S.PoolSteps.is_root self.now.shared.value.name }
        requires options { IsChildOf options S.PoolSteps.max }
        ensures name { IfOk result (λ child. S.FamilySteps.is_child child.shared.value.name) }
        ensures options { IfOk result (λ child. child.shared.value.options ≡ options) }
        ensures causes { IfErr result (λ e. (e ≡ Error.Exhausted) ⊎ (e ≡ Error.OutOfMemory)) }
    {
        self.child_seen(rt, alloc, options, &mut self.front())
    }

    /// As `child`.
    pub fn child_seen<R: Wait>(
        &self,
        rt: &R,
        alloc: Global,
        options: PoolOptions,
        me: &mut FrontOf<C, O, S>,
    ) -> Result<Self, Error>
        requires root { S.PoolSteps.is_root self.now.shared.value.name }
        requires options { IsChildOf options S.PoolSteps.max }
        ensures name { IfOk result (λ child. S.FamilySteps.is_child child.shared.value.name) }
        ensures added { IfOk result (λ child. SeesStep S.PoolSteps.stands me.old me.new (S.PoolSteps.does (call.AddChild options (Ok child.shared.value.name)))) }
        ensures options { IfOk result (λ child. child.shared.value.options ≡ options) }
        ensures full { (result ≡ Err Error.Exhausted) → HasSeen S.PoolSteps.stands me.old me.new (S.PoolSteps.tells call.IsFull) }
        ensures causes { IfErr result (λ e. (e ≡ Error.Exhausted) ⊎ (e ≡ Error.OutOfMemory)) }
    {
        let Ok(all) = Arc::try_clone(&self.shared.all) else {
            return Err(Error::OutOfMemory);
        };
        let added = self.lock(rt).child(rt, alloc, options, me);
        match added {
            Ok(name) => match PoolOf::over(alloc, all, name, self.front(), options) {
                Ok(child) => Ok(child),
                Err(_) => Err(Error::OutOfMemory),
            },
            Err(error) => {
                drop(all);
                Err(error)
            }
        }
    }

    /// Closes a child, as `close`, and hands its free permits to the root; a permit that it frees later goes there at
    /// once. The idle connections are closed; their number comes back.
    pub fn retire<R: Wait, X: Outside<C, O>>(&self, rt: &R, out: &mut X) -> usize
        requires child { S.FamilySteps.is_child self.now.shared.value.name }
        ensures counts { (X.faults out.old ≤ X.faults out.new) × (X.refusals out.old ≤ X.refusals out.new) }
    {
        self.retire_seen::<R, X>(rt, out, &mut self.front())
    }

    /// As `retire`.
    pub fn retire_seen<R: Wait, X: Outside<C, O>>(
        &self,
        rt: &R,
        out: &mut X,
        me: &mut FrontOf<C, O, S>,
    ) -> usize
        requires child { S.FamilySteps.is_child self.now.shared.value.name }
        ensures saw { ClosesIdle X.does S.PoolSteps.stands (λ idle. S.PoolSteps.does (call.Retire self.now.shared.value.name idle)) result me.old me.new out.old out.new }
        ensures counts { (X.faults out.old ≤ X.faults out.new) × (X.refusals out.old ≤ X.refusals out.new) }
    {
        let mut guard = self.lock(rt);
        let idle = guard.retire(rt, self.shared.name, me);
        self.shared.all.closed.store(true, Ordering::SeqCst);
        drop(guard);
        self.notify();
        checks::close_all::<C, O, X>(Check::Close, idle, out)
    }

    /// How many permits the pool owns: at most the root's maximum.
    pub fn owned<R: Wait>(&self, rt: &R) -> u32
        ensures { result ≤ S.PoolSteps.max }
    {
        self.owned_seen(rt, &mut self.front())
    }

    /// As `owned`.
    pub fn owned_seen<R: Wait>(&self, rt: &R, me: &mut FrontOf<C, O, S>) -> u32
        ensures most { result ≤ S.PoolSteps.max }
        ensures saw { Sees S.PoolSteps.stands me.old me.new (S.PoolSteps.tells (call.Owns self.now.shared.value.name result)) }
    {
        self.lock(rt).owned(rt, self.shared.name, me)
    }
}
