//! A pool from which one client borrows one connection for a while: what a program takes that works on one connection
//! at a time. The pool asks nobody; the caller opens the connection.
#![tactic(auto)]

ghost use Rattle.std.specs.Prelude.{◌≡◌, ◌≤◌, IfOk};
ghost use Rattle.sqlx_pool_lists.specs.declared.steps.Idle.{Idle as Entry};
ghost use Rattle.sqlx_single.specs.Single.{IsEmpty, Rests, Lends};

use sqlx_pool_core::{Given, Lent, PoolCore, PoolOptions};
use sqlx_text::{Moment, OutOfMemory};
use std::alloc::Global;

// No time passes.
const AT: Moment = Moment(0);

// The only client.
const CLIENT: u32 = 0;

/// A pool of one connection, which isn't opened yet.
pub fn new_pool<C>(alloc: Global) -> Result<PoolCore<C>, OutOfMemory>
    ensures { IfOk result (λ made. IsEmpty made.pool) }
{
    new_pool_of(alloc, 1)
}

/// The same of a pool that may have so many.
pub fn new_pool_of<C>(alloc: Global, max: u32) -> Result<PoolCore<C>, OutOfMemory>
    requires { 1 ≤ max }
    ensures empty { IfOk result (λ made. IsEmpty made.pool) }
    ensures max { IfOk result (λ made. made.pool.options.max_connections ≡ max) }
{
    PoolCore::new(
        alloc,
        PoolOptions::new()
            .max_connections(max)
            .min_connections(1)
            .max_lifetime(None),
    )
}

/// The connection was opened.
pub fn opened<C: Drop>(pool: &mut PoolCore<C>, raw: C)
    requires { IsEmpty pool.old.pool }
    ensures { Rests raw pool.new.pool }
{
    if !pool.minimum_place() {
        unreachable!();
    }
    drop(pool.minimum_done(AT, Some(raw)));
}

/// The connection goes to the client.
pub fn lend<C: Drop>(pool: &mut PoolCore<C>) -> Lent<C>
    requires { (raw : C) × Rests raw pool.old.pool }
    ensures { (raw : C) → Rests raw pool.old.pool → (result.raw ≡ raw) × Lends result.id pool.new.pool }
{
    match pool.try_acquire(AT, CLIENT) {
        Some(lent) => lent,
        None => unreachable!(),
    }
}

/// The connection comes back.
pub fn take_back<C: Drop>(pool: &mut PoolCore<C>, lent: Lent<C>)
    requires { Lends lent.id pool.old.pool }
    ensures { Rests lent.raw pool.new.pool }
{
    match pool.give(CLIENT, lent, AT, true) {
        Given::Kept => {}
        Given::Closed(_raw) | Given::NotHeld(_raw) => unreachable!(),
    }
}
