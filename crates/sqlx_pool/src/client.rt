//! The clients of a pool. Each has its number and counts its own loans, so that who asks for a connection keeps no tally.

ghost use Rattle.std.specs.Prelude.{◌≡◌, ℕ, ◌+◌, ◌^◌, ◌≤◌, ◌⊎◌, true, IfErr, IfOk, IfSome, OnErr, IfNone, OnOk};
ghost use Rattle.sqlx_text.specs.declared.error.Error.{Error};
ghost use Rattle.sqlx_pool_parts.specs.Booked.{CountsIf};
ghost use Rattle.sqlx_pool.specs.Refusals.{IsPollRefusal};

use crate::steps::{PoolSteps, Tallies};
use crate::{Clock, PoolConnectionOf, PoolOf};
use sqlx_pool_core::Outside;
use sqlx_text::{Depth, Error};
use std::alloc::Global;
use std::marker::Model;
use std::sync::Wait;

// How many clients were made, and a tally with a part for each that may yet be.
struct Numbers<T: Tallies> {
    tally: T,
    made: u32,
}

impl<T: Tallies> Drop for Numbers<T> {
    fn drop(self) {
        let Numbers { tally, made: _ } = self;
        drop(tally);
    }
}

impl<T: Tallies> Model for Numbers<T> {
    ghost use Rattle.std.specs.Prelude.{◌≡◌, ℕ, ◌+◌, ◌^◌};

    ghost Value = { ℕ };

    ghost view = { λ numbers. numbers.made };

    ghost invariant = { λ numbers. (T.counted numbers.tally).parts + numbers.made ≡ 2 ^ 32 };
}

impl<T: Tallies> Numbers<T> {
    // No client was made yet.
    fn new(tally: T) -> Self
        requires { (T.counted tally).parts ≡ 2 ^ 32 }
        ensures { result ≡ 0 }
    {
        Numbers { tally, made: 0 }
    }

    // The next number, and a part for it. None where all numbers are given.
    fn next(&mut self) -> Option<(u32, T)>
        ensures made { IfSome result (λ next. (next.0 ≡ self.old + 1) × (self.new ≡ next.0)) }
        ensures new { IfSome result (λ next. (T.counted next.1).loans ≡ 0) }
        ensures none { IfNone result ((self.old + 1 ≡ 2 ^ 32) × (self.new ≡ self.old)) }
    {
        if self.made == u32::MAX {
            return None;
        }
        let part = self.tally.split();
        self.made += 1;
        Some((self.made, part))
    }
}

/// A pool, and the clients that may yet be made of it.
pub struct PoolClientsOf<C: Depth, O, S: PoolSteps<C, O>> {
    pool: PoolOf<C, O, S>,
    numbers: Numbers<S::Tally>,
}

impl<C: Depth + Drop, O: Drop, S: PoolSteps<C, O>> Drop for PoolClientsOf<C, O, S> {
    fn drop(self) {
        let PoolClientsOf { pool, numbers } = self;
        drop(pool);
        drop(numbers);
    }
}

impl<C: Depth + Drop, O: Drop, S: PoolSteps<C, O>> PoolClientsOf<C, O, S> {
    /// The clients of a new pool, by the tally that came with it: none was made yet.
    pub fn new(pool: PoolOf<C, O, S>, tally: S::Tally) -> Self
        requires { (S.Tally.counted tally).parts ≡ 2 ^ 32 }
        ensures pool { result.pool ≡ pool }
        ensures none { result.numbers ≡ 0 }
    {
        PoolClientsOf {
            pool,
            numbers: Numbers::new(tally),
        }
    }

    /// The pool.
    pub fn pool(&self) -> &PoolOf<C, O, S>
        ensures { result.now ≡ self.now.pool }
    {
        &self.pool
    }

    /// A new client: the first has the number 1, each other the next. `Exhausted` where 2^32 - 1 were made.
    pub fn client(&mut self) -> Result<PoolClientOf<C, O, S>, Error>
        ensures client { IfOk result (λ c. (c.client ≡ self.old.numbers + 1) × (self.new.numbers ≡ c.client)) }
        ensures pool { IfOk result (λ c. c.pool.shared.value ≡ self.old.pool.shared.value) }
        ensures new { IfOk result (λ c. (S.Tally.counted c.tally).loans ≡ 0) }
        ensures refused { IfErr result (λ e. (e ≡ Error.OutOfMemory) ⊎ ((e ≡ Error.Exhausted) × (self.old.numbers + 1 ≡ 2 ^ 32))) }
        ensures err { OnErr result (self.new.numbers ≡ self.old.numbers) }
        ensures same { self.new.pool ≡ self.old.pool }
    {
        let Ok(pool) = self.pool.try_clone() else {
            return Err(Error::OutOfMemory);
        };
        match self.numbers.next() {
            Some((client, tally)) => Ok(PoolClientOf {
                pool,
                client,
                tally,
            }),
            None => {
                drop(pool);
                Err(Error::Exhausted)
            }
        }
    }
}

/// A client of a pool.
pub struct PoolClientOf<C: Depth, O, S: PoolSteps<C, O>> {
    pool: PoolOf<C, O, S>,
    client: u32,
    tally: S::Tally,
}

impl<C: Depth + Drop, O: Drop, S: PoolSteps<C, O>> Drop for PoolClientOf<C, O, S> {
    fn drop(self) {
        let PoolClientOf {
            pool,
            client: _,
            tally,
        } = self;
        drop(pool);
        drop(tally);
    }
}

impl<C: Depth + Drop, O: Drop, S: PoolSteps<C, O>> PoolClientOf<C, O, S> {
    /// The pool.
    pub fn pool(&self) -> &PoolOf<C, O, S>
        ensures { result.now ≡ self.now.pool }
    {
        &self.pool
    }

    /// Its number.
    pub fn number(&self) -> u32
        ensures { result ≡ self.now.client }
    {
        self.client
    }

    /// Waits for a connection, as `acquire_wait` of the pool.
    pub fn acquire_wait<R: Wait, K: Clock, X: Outside<C, O>>(
        &mut self,
        rt: &R,
        alloc: Global,
        clock: &mut K,
        out: &mut X,
    ) -> Result<PoolConnectionOf<C, O, S>, Error>
        ensures lent { OnOk result (CountsIf true (S.Tally.counted self.old.tally) (S.Tally.counted self.new.tally)) }
        ensures refused { OnErr result (S.Tally.counted self.new.tally ≡ S.Tally.counted self.old.tally) }
        ensures flat { IfOk result (λ conn. C.levels conn.raw ≡ 0) }
        ensures causes { IfErr result (IsPollRefusal (X.faults out.old) (X.faults out.new)) }
        ensures counts { (X.faults out.old ≤ X.faults out.new) × (X.refusals out.old ≤ X.refusals out.new) }
        ensures same { (self.new.pool ≡ self.old.pool) × (self.new.client ≡ self.old.client) }
    {
        self.pool
            .acquire_wait::<R, K, X>(rt, alloc, clock, self.client, out, &mut self.tally)
    }
}
