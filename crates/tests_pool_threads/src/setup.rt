//! New pools for tests.

ghost use Rattle.std.specs.Prelude.{◌≡◌, ◌^◌, ◌<◌, ◌≤◌, IfOk};
ghost use Rattle.sqlx_pool_parts.specs.Opened.{IsOpenable};

use sqlx_pool::*;
use sqlx_text::{Depth, OutOfMemory};
use std::alloc::Global;
use std::sync::Arc;
use std::sync::ledger::Ledger;

/// A lone pool of connections `C`, which are opened by options `O`.
pub type LonePool<C, O, H, L> = PoolOf<C, O, Lone<C, O, H, L>>;

/// A connection that such a pool has lent.
pub type LoneLoan<C, O, H, L> = PoolConnectionOf<C, O, Lone<C, O, H, L>>;

/// A ticket of such a pool.
pub type LoneTicket<C, O, H, L> = AcquiringOf<C, O, Lone<C, O, H, L>>;

/// What such a pool is made with.
pub type LoneBlanks<C, O> = BlanksOf<Stood<C, Arc<O, Global>>>;

/// The options of a pool of so many, whose idle connections rest for 5 at most.
pub fn options_of(max: u32) -> PoolOptions
    requires { 1 ≤ max }
    ensures { IsOpenable result max }
{
    PoolOptions::new()
        .max_connections(max)
        .idle_timeout(Some(5))
}

/// A new pool of so many, and the tally of its loans.
pub fn pool_of<C: Depth + Drop, O: Drop, H: Ledger, L: Loans>(
    alloc: Global,
    max: u32,
    connect: O,
    blanks: LoneBlanks<C, O>,
) -> Result<(LonePool<C, O, H, L>, Tally<L>), OutOfMemory>
    requires max { L.max ≡ max }
    requires some { 1 ≤ max }
    requires blanks { (blanks.held.name ≡ H.name) × (H.parts ≡ 2 ^ 32) × (blanks.loans.name ≡ L.name) × (L.parts ≡ 2 ^ 32) × (blanks.opened.seen.book ≡ L.book) }
    ensures tally { IfOk result (λ made. made.1 ≡ record { parts = L.parts; loans = 0 }) }
    ensures some { IfOk result (λ made. 0 < made.1.parts) }
{
    options_of(max).connect_lazy_with::<C, O, Lone<C, O, H, L>>(alloc, connect, blanks)
}
