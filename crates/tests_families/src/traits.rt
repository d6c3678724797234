//! A pool of a family goes between threads.

use sqlx_family_pool::Family;
use sqlx_pool::{AcquiringOf, Loans, PoolConnectionOf, PoolOf};
use sqlx_text::Depth;
use std::sync::ledger::Ledger;

fn is_send<T: Send>() {}

fn is_sync<T: Sync>() {}

// A pool is `Send` and `Sync` where its connections are `Send` and its options are both.
pub fn assert_pool_traits<
    C: Depth + Drop + Send + 'static,
    O: Drop + Send + Sync + 'static,
    H: Ledger + Send + Sync + 'static,
    L: Loans + Send + Sync + 'static,
>() {
    is_send::<PoolOf<C, O, Family<C, O, H, L>>>();
    is_sync::<PoolOf<C, O, Family<C, O, H, L>>>();
    is_send::<PoolConnectionOf<C, O, Family<C, O, H, L>>>();
    is_send::<AcquiringOf<C, O, Family<C, O, H, L>>>();
}
