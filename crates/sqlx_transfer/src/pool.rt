//! The pool of a bank: as many connections as it may have are opened at first, and clients borrow them.
ghost use Rattle.std.specs.Prelude.{◌≡◌, ◌<◌, ◌≤◌, ◌^◌, ◌++◌, ◌∷◌, [], ℕ, List, length, IfOk};
ghost use Rattle.sqlx_pool_lists.specs.declared.steps.Idle.{Idle as Entry};
ghost use Rattle.sqlx_pool_lists.specs.declared.ticket.OwnedConn.{OwnedConn};
ghost use Rattle.sqlx_transfer.specs.Pool.{IsPool, Opens, Lends, TakesBack, loan_to};

use sqlx_pool_core::{Lent, PoolCore, PoolOptions};
use sqlx_text::{Moment, OutOfMemory};
use std::alloc::Global;

// No time passes.
const AT: Moment = Moment(0);

/// A pool of so many connections, none of which is opened yet.
pub fn new_pool<C>(alloc: Global, max: u32) -> Result<PoolCore<C>, OutOfMemory>
    requires { 1 ≤ max }
    ensures { IfOk result (λ core. IsPool max core.pool [] []) }
{
    PoolCore::new(
        alloc,
        PoolOptions::new()
            .max_connections(max)
            .min_connections(max)
            .max_lifetime(None),
    )
}

/// A connection was opened, and rests.
pub fn opened<C: Drop>(pool: &mut PoolCore<C>, raw: C)
    requires { (max : ℕ) × (idle : List (Entry C)) × IsPool max pool.old.pool [] idle × (length idle < max) × (max < 2 ^ 32) }
    ensures { (max : ℕ) (idle : List (Entry C)) → IsPool max pool.old.pool [] idle → length idle < max → Opens max pool.new.pool idle raw }
{
    if !pool.minimum_place() {
        unreachable!();
    }
    drop(pool.minimum_done(AT, Some(raw)));
}

/// A connection goes to a client, unless all are lent.
pub fn lend<C: Drop>(pool: &mut PoolCore<C>, client: u32) -> Option<Lent<C>>
    ensures { (max : ℕ) (held : List OwnedConn) (idle : List (Entry C)) → IsPool max pool.old.pool held idle → Lends max client pool.new.pool held idle result }
{
    pool.try_acquire(AT, client)
}

/// A client's connection comes back.
pub fn take_back<C: Drop>(pool: &mut PoolCore<C>, client: u32, lent: Lent<C>)
    ensures { (max : ℕ) (before after : List OwnedConn) (idle : List (Entry C)) → IsPool max pool.old.pool (before ++ loan_to client lent ∷ after) idle → TakesBack max pool.new.pool (before ++ after) idle lent }
{
    pool.bounds();
    drop(pool.give(client, lent, AT, true));
}
