//! What lies under the lock of a family of pools that threads share: a root and its children, with a log for each. It has
//! the steps of `sqlx_pool`, by which that crate's handles stand over it.
//!
//! The rules are those of `sqlx_family`. Here they are made steps under one lock, whose value always has each pool stand
//! for its own log, and each log safe.
#![tactic(auto)]

mod family;
mod locked;
mod stood;

pub use family::Family;
pub use locked::LockedFamily;
use sqlx_pool::{
    AcquiringOf, BlanksOf, CloseEventOf, FrontOf, PoolConnectionOf, PoolOf, PoolPollOf,
};
use sqlx_traits::Database;
use std::alloc::Global;
use std::sync::Arc;
pub use stood::FamilyStood;

/// What is under the lock of a family of a database's pools.
pub type FamilyOf<DB, H, L> = Family<<DB as Database>::Connection, <DB as Database>::Options, H, L>;

/// A pool of a family of a database's pools.
pub type FamilyPool<DB, H, L> = PoolOf<
    <DB as Database>::Connection,
    <DB as Database>::Options,
    FamilyOf<DB, H, L>,
>;

/// What the root of a family of a database's pools is made with.
pub type FamilyBlanks<DB> = BlanksOf<
    FamilyStood<<DB as Database>::Connection, Arc<<DB as Database>::Options, Global>>,
>;

/// What a caller has seen of a family of a database's pools.
pub type FamilyFront<DB, H, L> = FrontOf<
    <DB as Database>::Connection,
    <DB as Database>::Options,
    FamilyOf<DB, H, L>,
>;

/// A ticket of a pool of a family of a database's pools.
pub type FamilyAcquiring<DB, H, L> = AcquiringOf<
    <DB as Database>::Connection,
    <DB as Database>::Options,
    FamilyOf<DB, H, L>,
>;

/// What a poll of a pool of a family of a database's pools came to.
pub type FamilyPoll<DB, H, L> = PoolPollOf<
    <DB as Database>::Connection,
    <DB as Database>::Options,
    FamilyOf<DB, H, L>,
>;

/// What tells that a pool of a family of a database's pools is closed.
pub type FamilyCloseEvent<DB, H, L> = CloseEventOf<
    <DB as Database>::Connection,
    <DB as Database>::Options,
    FamilyOf<DB, H, L>,
>;

/// A connection that a pool of a family of a database's pools has lent.
pub type FamilyConnection<DB, H, L> = PoolConnectionOf<
    <DB as Database>::Connection,
    <DB as Database>::Options,
    FamilyOf<DB, H, L>,
>;
