//! The calls that are handed a front of their caller's. It goes on, and then ends with the state, or with the step, of
//! which the call tells.

ghost use Rattle.std.specs.Prelude.{◌≡◌, ℕ, ◌≤◌, true, is_some, option_map, Ok, IfOk, IfErr, IfSome, OnErr};
ghost use mathlib.Core.List.{IsPrefix};
ghost use Rattle.sqlx_pool_parts.specs.Booked.{CountsIf};
ghost use Rattle.sqlx_pool.specs.Calls as call;
ghost use Rattle.sqlx_pool.specs.Lent.{as_lent};
ghost use Rattle.sqlx_pool.specs.Refusals.{IsAskRefusal, IsTryRefusal};
ghost use Rattle.sqlx_pool.specs.Reaped.{ClosesIdle};
ghost use Rattle.sqlx_pool.specs.Seen.{Sees, SeesStep};

use super::PoolOf;
use crate::steps::PoolSteps;
use crate::stood::FrontOf;
use crate::{AcquiringOf, PoolConnectionOf};
use sqlx_pool_core::idle_check::Check;
use sqlx_pool_core::{CloseState, Outside};
use sqlx_pool_parts::checks;
use sqlx_text::{Depth, Error, Moment, OutOfMemory};
use std::alloc::Global;
use std::sync::atomic::Ordering;
use std::sync::{Arc, Wait};

impl<C: Depth + Drop, O: Drop, S: PoolSteps<C, O>> PoolOf<C, O, S> {
    /// As `acquire`.
    pub fn acquire_seen<R: Wait>(
        &self,
        rt: &R,
        alloc: Global,
        now: Moment,
        client: u32,
        me: &mut FrontOf<C, O, S>,
    ) -> Result<AcquiringOf<C, O, S>, Error>
        ensures pool { IfOk result (λ waits. (waits.pool.shared.value ≡ self.now.shared.value) × (waits.client ≡ client)) }
        ensures asked { IfOk result (λ waits. SeesStep S.stands me.old me.new (S.does (call.Ask self.now.shared.value.name now client (Ok waits.ticket)))) }
        ensures refused { IfErr result (IsAskRefusal (Sees S.stands me.old me.new (S.tells (call.IsClosed self.now.shared.value.name true))) (Sees S.stands me.old me.new (S.tells call.TicketsUsed))) }
    {
        let Ok(pool) = self.try_clone() else {
            return Err(Error::OutOfMemory);
        };
        let asked = self
            .lock_and_cut(rt)
            .ask(rt, self.shared.name, alloc, now, client, me);
        match asked {
            Ok(ticket) => Ok(AcquiringOf::new(pool, client, ticket)),
            Err(error) => {
                drop(pool);
                Err(error)
            }
        }
    }

    /// As `try_acquire`.
    pub fn try_acquire_seen<R: Wait>(
        &self,
        rt: &R,
        alloc: Global,
        now: Moment,
        client: u32,
        tally: &mut S::Tally,
        me: &mut FrontOf<C, O, S>,
    ) -> Result<Option<PoolConnectionOf<C, O, S>>, Error>
        ensures saw { IfOk result (λ lent. SeesStep S.stands me.old me.new (S.does (call.LendPast self.now.shared.value.name now client (Ok (option_map as_lent lent))))) }
        ensures tally { IfOk result (λ lent. CountsIf (is_some lent) (S.Tally.counted tally.old) (S.Tally.counted tally.new)) }
        ensures flat { IfOk result (λ lent. IfSome lent (λ conn. C.levels conn.raw ≡ 0)) }
        ensures refused { IfErr result (IsTryRefusal (Sees S.stands me.old me.new (S.tells call.LoansUsed))) }
        ensures err { OnErr result (S.Tally.counted tally.new ≡ S.Tally.counted tally.old) }
    {
        let Ok(pool) = self.try_clone() else {
            return Err(Error::OutOfMemory);
        };
        let tried = self
            .lock_and_cut(rt)
            .try_acquire(rt, self.shared.name, alloc, now, client, tally, me);
        match tried {
            Ok(Some((lent, held))) => Ok(Some(PoolConnectionOf::new(pool, client, lent, held))),
            Ok(None) => {
                drop(pool);
                Ok(None)
            }
            Err(error) => {
                drop(pool);
                Err(error)
            }
        }
    }

    /// As `size`.
    pub fn size_seen<R: Wait>(&self, rt: &R, me: &mut FrontOf<C, O, S>) -> u32
        ensures most { result ≤ S.max }
        ensures saw { Sees S.stands me.old me.new (S.tells (call.Size self.now.shared.value.name result)) }
    {
        self.lock(rt).size(rt, self.shared.name, me)
    }

    /// As `num_idle`.
    pub fn num_idle_seen<R: Wait>(&self, rt: &R, me: &mut FrontOf<C, O, S>) -> usize
        ensures most { result ≤ S.max }
        ensures saw { Sees S.stands me.old me.new (S.tells (call.NumIdle self.now.shared.value.name result)) }
    {
        self.lock(rt).num_idle(rt, self.shared.name, me)
    }

    /// As `is_closed`.
    pub fn is_closed_seen<R: Wait>(&self, rt: &R, me: &mut FrontOf<C, O, S>) -> bool
        ensures { Sees S.stands me.old me.new (S.tells (call.IsClosed self.now.shared.value.name result)) }
    {
        self.lock(rt).is_closed(rt, self.shared.name, me)
    }

    /// As `connect_options`.
    pub fn connect_options_seen<R: Wait>(
        &self,
        rt: &R,
        me: &mut FrontOf<C, O, S>,
    ) -> Result<Arc<O, Global>, OutOfMemory>
        ensures saw { IfOk result (λ options. Sees S.stands me.old me.new (S.tells (call.Connects options.value))) }
        ensures later { IsPrefix me.old me.new }
    {
        self.lock(rt).connect_options(rt, me)
    }

    /// As `closing`.
    pub fn closing_seen<R: Wait>(&self, rt: &R, me: &mut FrontOf<C, O, S>) -> CloseState
        ensures { Sees S.stands me.old me.new (S.tells (call.Closing self.now.shared.value.name result)) }
    {
        self.lock(rt).closing(rt, self.shared.name, me)
    }

    /// As `log_len`.
    pub fn log_len_seen<R: Wait>(&self, rt: &R, me: &mut FrontOf<C, O, S>) -> usize
        ensures { Sees S.stands me.old me.new (S.tells (call.LogLen self.now.shared.value.name result)) }
    {
        self.lock(rt).log_len(rt, self.shared.name, me)
    }

    /// As `read_log`.
    pub fn read_log_seen<R: Wait>(
        &self,
        rt: &R,
        alloc: Global,
        me: &mut FrontOf<C, O, S>,
    ) -> Result<S::Log, OutOfMemory>
        ensures is { IfOk result (λ log. S.is_log log) }
        ensures saw { IfOk result (λ log. Sees S.stands me.old me.new (S.tells (call.LogIs self.now.shared.value.name log))) }
    {
        self.lock(rt).read_log(rt, self.shared.name, alloc, me)
    }

    /// As `close`.
    pub fn close_seen<R: Wait, X: Outside<C, O>>(
        &self,
        rt: &R,
        out: &mut X,
        me: &mut FrontOf<C, O, S>,
    ) -> usize
        ensures saw { ClosesIdle X.does S.stands (λ idle. S.does (call.Close self.now.shared.value.name idle)) result me.old me.new out.old out.new }
        ensures counts { (X.faults out.old ≤ X.faults out.new) × (X.refusals out.old ≤ X.refusals out.new) }
    {
        let mut guard = self.lock(rt);
        let idle = guard.close(rt, self.shared.name, me);
        self.shared.all.closed.store(true, Ordering::SeqCst);
        drop(guard);
        self.notify();
        checks::close_all::<C, O, X>(Check::Close, idle, out)
    }
}
