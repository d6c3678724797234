//! A pool goes between threads.

use crate::setup::{LoneLoan, LonePool, LoneTicket};
use sqlx_pool::*;
use sqlx_text::Depth;
use std::sync::ledger::Ledger;

fn is_send<T: Send>() {}

fn is_sync<T: Sync>() {}

// A pool is `Send` and `Sync` where its connections are `Send` and its options are both.
pub fn assert_pool_traits<
    C: Depth + Drop + Send + 'static,
    O: Drop + Send + Sync + 'static,
    H: Ledger + Send + Sync + 'static,
    L: Loans + Send + Sync + 'static,
>() {
    is_send::<LonePool<C, O, H, L>>();
    is_sync::<LonePool<C, O, H, L>>();
    is_send::<LoneLoan<C, O, H, L>>();
    is_send::<LoneTicket<C, O, H, L>>();
}
