//! What tells that a pool is closed.

ghost use Rattle.std.specs.Prelude.{◌≡◌, not, true};
ghost use mathlib.Core.List.{IsPrefix};
ghost use Rattle.sqlx_pool.specs.Calls as call;
ghost use Rattle.sqlx_pool.specs.Seen.{HasSeen, Sees, Watched};

use crate::PoolOf;
use crate::steps::PoolSteps;
use crate::stood::FrontOf;
use sqlx_text::{Depth, Error};
use std::sync::Wait;

/// A piece of work that is polled until it has its output.
pub trait Step {
    type Output;

    /// The output, if it is there.
    fn poll(&mut self) -> Option<Self::Output>;
}

/// What tells that a pool is closed. It keeps what it has seen of the pool.
pub struct CloseEventOf<C: Depth, O, S: PoolSteps<C, O>> {
    pub(crate) pool: PoolOf<C, O, S>,
    front: FrontOf<C, O, S>,
    // `do_until` was called.
    begun: bool,
}

impl<C: Depth + Drop, O: Drop, S: PoolSteps<C, O>> Drop for CloseEventOf<C, O, S> {
    fn drop(self) {
        let CloseEventOf {
            pool,
            front,
            begun: _,
        } = self;
        drop(pool);
        drop(front);
    }
}

impl<C: Depth + Drop, O: Drop, S: PoolSteps<C, O>> CloseEventOf<C, O, S> {
    pub(crate) fn new(pool: PoolOf<C, O, S>) -> Self
        ensures { result.pool ≡ pool }
    {
        let front = pool.front();
        CloseEventOf {
            pool,
            front,
            begun: false,
        }
    }

    /// Whether the pool is closed.
    pub fn poll<R: Wait>(&mut self, rt: &R) -> bool
        ensures saw { Sees S.stands self.old.front self.new.front (S.tells (call.IsClosed self.old.pool.shared.value.name result)) }
        ensures same { (self.new.pool ≡ self.old.pool) × (self.new.begun ≡ self.old.begun) }
    {
        self.pool.is_closed_seen(rt, &mut self.front)
    }

    /// Whether the pool is closed, so that nothing else comes.
    pub fn is_terminated<R: Wait>(&self, rt: &R) -> bool {
        self.pool.is_closed(rt)
    }

    // Whether the first call has found the pool closed; each other call asks nothing.
    fn is_closed_at_first<R: Wait>(&mut self, rt: &R) -> bool
        ensures same { self.new.pool ≡ self.old.pool }
        ensures later { IsPrefix self.old.front self.new.front }
        ensures saw { result ≡ true → Sees S.stands self.old.front self.new.front (S.tells (call.IsClosed self.old.pool.shared.value.name result)) }
    {
        if self.begun {
            return false;
        }
        self.begun = true;
        self.poll(rt)
    }

    /// Polls the step, and then the pool: the step's output, else `PoolClosed` where the pool is closed, else None. The
    /// first call asks the pool first.
    pub fn do_until<R: Wait, W: Step>(
        &mut self,
        rt: &R,
        step: &mut W,
    ) -> Option<Result<W::Output, Error>>
        ensures { Watched (λ opened. HasSeen S.stands self.old.front self.new.front (S.tells (call.IsClosed self.old.pool.shared.value.name (not opened)))) result }
    {
        if self.is_closed_at_first(rt) {
            return Some(Err(Error::PoolClosed));
        }
        match step.poll() {
            Some(output) => Some(Ok(output)),
            None => {
                if self.poll(rt) {
                    Some(Err(Error::PoolClosed))
                } else {
                    None
                }
            }
        }
    }
}
