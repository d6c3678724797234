//! What lies in a caller's room.

ghost use Rattle.std.specs.Prelude.{◌≡◌};
ghost use Rattle.zangipuk_c.specs.Continues.{IsFresh, options_by, limit_of};

use sqlx_pool_core::{Idle, Mark, PoolCore, PoolOptions};
use std::alloc::Global;
use std::collections::VecDeque;

/// A pool, or nothing.
#[derive(Drop)]
pub struct Held {
    pub pool: Option<Box<Kept>>,
}

/// A pool, its log if it keeps one, and the idle connections that a close took out of it and that weren't told yet.
#[derive(Drop)]
pub struct Kept {
    pub core: PoolCore<u64>,
    pub log: Option<Vec<Mark>>,
    pub left: VecDeque<Idle<u64>>,
    pub alloc: Global,
}

// A duration, of which the largest number stands for none.
fn limit(nanos: u64) -> Option<u64>
    ensures { result ≡ limit_of nanos }
{
    if nanos == u64::MAX { None } else { Some(nanos) }
}

/// The options of a pool.
pub fn options_of(max: u32, min: u32, timeout: u64, lifetime: u64, idle: u64) -> PoolOptions
    ensures { result ≡ options_by max min timeout lifetime idle }
{
    PoolOptions::new()
        .max_connections(max)
        .min_connections(min)
        .acquire_timeout(timeout)
        .max_lifetime(limit(lifetime))
        .idle_timeout(limit(idle))
}

// What lies in a room may go from thread to thread, with its caller.
fn sendable<T: Send>(value: T) -> T
    ensures { result ≡ value }
{
    value
}

/// A pool of these options, with a log unless `log` is 0; nothing where it would have no connection, or memory is
/// wanting.
pub fn make(
    alloc: Global,
    max: u32,
    min: u32,
    timeout: u64,
    lifetime: u64,
    idle: u64,
    log: u32,
) -> Held
    ensures { IsFresh (options_by max min timeout lifetime idle) log result.pool }
{
    if max == 0 {
        return Held { pool: None };
    }
    let options = options_of(max, min, timeout, lifetime, idle);
    let Ok(core) = PoolCore::new(alloc, options) else {
        return Held { pool: None };
    };
    let kept = Kept {
        core,
        log: if log == 0 {
            None
        } else {
            Some(Vec::new(alloc))
        },
        left: VecDeque::new(alloc),
        alloc,
    };
    match Box::new(alloc, kept) {
        Ok(kept) => sendable(Held { pool: Some(kept) }),
        Err(_) => Held { pool: None },
    }
}
