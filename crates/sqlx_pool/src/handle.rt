//! A pool as an executor: each call waits for a connection, works on it and returns it.

ghost use Rattle.std.specs.Prelude.{◌≡◌, ℕ, ◌<◌, ◌≤◌, true, IfOk, IfErr, OnOk, OnErr};
ghost use Rattle.sqlx_pool_core.specs.Outside.{HasRisen};
ghost use Rattle.sqlx_pool_parts.specs.Booked.{CountsIf};
ghost use Rattle.sqlx_pool.specs.Refusals.{IsPollRefusal};

mod executor;

use crate::steps::PoolSteps;
use crate::{Acquire, Clock, PoolConnectionOf, PoolOf};
use sqlx_pool_core::Outside;
use sqlx_text::{Depth, Error};
use sqlx_traits::{Database, Faults};
use std::alloc::Global;
use std::sync::Wait;

/// A pool, with all that a call of it takes: what tells the time, the outside, and the tally of its loans. Each call as an
/// executor waits for a connection, makes one call on it and returns it.
#[derive(Drop)]
pub struct PoolHandle<'p, P, T, R, K, X> {
    pool: &'p P,
    rt: R,
    clock: K,
    client: u32,
    out: X,
    tally: T,
    // How many calls were made of it.
    calls: u64,
}

/// A pool that serves as an executor.
pub trait PoolExecutor<T>: Sized {
    /// The pool as an executor, for a client. In sqlx: `&pool`.
    final fn with<'p, R: Wait, K: Clock, X>(
        &'p self,
        rt: R,
        clock: K,
        client: u32,
        out: X,
        tally: T,
    ) -> PoolHandle<'p, Self, T, R, K, X>
        ensures clock { result.clock ≡ clock }
        ensures out { result.out ≡ out }
        ensures tally { result.tally ≡ tally }
    {
        PoolHandle {
            pool: self,
            rt,
            clock,
            client,
            out,
            tally,
            calls: 0,
        }
    }
}

impl<C: Depth, O, S: PoolSteps<C, O>> PoolExecutor<S::Tally> for PoolOf<C, O, S> {}

impl<'p, P, T, R, K, X> Faults for PoolHandle<'p, P, T, R, K, X> {
    ghost faults = { λ handle. handle.calls };
}

impl<
    'p,
    C: Depth + Drop,
    O: Drop,
    S: PoolSteps<C, O>,
    R: Wait + Drop,
    K: Clock,
    X: Outside<C, O>,
> PoolHandle<'p, PoolOf<C, O, S>, S::Tally, R, K, X> {
    /// What tells the time, the outside, and the tally with the loans that were made.
    pub fn into_parts(self) -> (K, X, S::Tally)
        ensures clock { result.0 ≡ self.entry.clock }
        ensures out { result.1 ≡ self.entry.out }
        ensures tally { result.2 ≡ self.entry.tally }
    {
        let PoolHandle {
            pool: _,
            rt,
            clock,
            client: _,
            out,
            tally,
            calls: _,
        } = self;
        drop(rt);
        (clock, out, tally)
    }

    /// Waits for a connection, which the caller returns or ends itself: what `Acquire::acquire` of `&mut PoolHandle` does,
    /// and says of the outside and the tally. Each call is counted, since it may be refused. Errors as of `acquire_wait`.
    pub fn lend(&mut self, alloc: Global) -> Result<PoolConnectionOf<C, O, S>, Error>
        ensures lent { OnOk result (CountsIf true (S.Tally.counted self.old.tally) (S.Tally.counted self.new.tally)) }
        ensures refused { OnErr result (S.Tally.counted self.new.tally ≡ S.Tally.counted self.old.tally) }
        ensures flat { IfOk result (λ conn. C.levels conn.raw ≡ 0) }
        ensures causes { IfErr result (IsPollRefusal (X.faults self.old.out) (X.faults self.new.out)) }
        ensures counted { HasRisen self.old.calls self.new.calls }
        ensures rises { self.old.calls ≤ self.new.calls }
    {
        self.calls = self.calls.saturating_add(1);
        self.pool.acquire_wait::<R, K, X>(
            &self.rt,
            alloc,
            &mut self.clock,
            self.client,
            &mut self.out,
            &mut self.tally,
        )
    }

    // Returns a connection.
    fn give_back(&mut self, alloc: Global, conn: PoolConnectionOf<C, O, S>)
        ensures tally { S.Tally.counted self.new.tally ≡ S.Tally.counted self.old.tally }
        ensures calls { self.new.calls ≡ self.old.calls }
    {
        let now = self.clock.now();
        let _ = conn.return_to_pool::<R, X>(&self.rt, alloc, now, &mut self.out);
    }
}

impl<
    'h,
    'p,
    DB: Database,
    S: PoolSteps<DB::Connection, DB::Options>,
    R: Wait + Drop,
    K: Clock,
    X: Outside<DB::Connection, DB::Options>,
> Acquire<DB> for &'h mut PoolHandle<'p, PoolOf<DB::Connection, DB::Options, S>, S::Tally, R, K, X>
where
    DB::Connection: Drop,
{
    type Holder = PoolConnectionOf<DB::Connection, DB::Options, S>;

    ghost use Rattle.sqlx_pool.specs.Handle.{Lends};

    ghost acquires = { λ handle result. Lends DB.Connection.levels (λ lent. lent.raw) (X.faults handle.now.out) result };

    fn acquire(
        self,
        alloc: Global,
    ) -> Result<PoolConnectionOf<DB::Connection, DB::Options, S>, Error> {
        self.lend(alloc)
    }
}
