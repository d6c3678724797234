//! A connection pool that threads share: the pool behind a lock, its tickets and the connections that it lends, with the
//! log of all that its steps did; and the pool as an executor and as what a transaction begins on. The handles stand over
//! a trait of locked steps, which a lone pool's value has, and a family's.
//!
//! The rules are those of `sqlx_pool_core`. Here they are made steps under one lock, whose value always stands for
//! its log; the connects, pings and hooks run between these steps, while the lock is free.
#![tactic(auto)]

mod acquire;
mod acquiring;
mod begins;
mod blanks;
mod client;
mod close_event;
mod connection;
mod handle;
mod hold;
mod kept;
mod locked;
mod lone;
mod maybe;
mod pool;
mod pool_connect;
pub mod stage;
mod steps;
mod stood;

pub use acquire::Acquire;
pub use acquiring::{AcquiringOf, Polling, PoolPollOf};
pub use begins::{BeginRefusedOf, PoolBegin};
pub use blanks::BlanksOf;
pub use client::{PoolClientOf, PoolClientsOf};
pub use close_event::{CloseEventOf, Step};
pub use connection::{PoolConnectionOf, Returned};
pub use handle::{PoolExecutor, PoolHandle};
pub use locked::Locked;
pub use lone::Lone;
pub use maybe::{MaybePoolConnection, MaybePoolConnectionOf};
pub use pool::PoolOf;
pub use pool_connect::PoolConnect;
pub use sqlx_pool_core::{CloseState, Mark, Openings, PoolConnectionMetadata, PoolOptions};
pub use sqlx_pool_parts::{
    Clock, FixedClock, Held, Hooks, Loans, LogStart, MarkLog, NoHooks, OptionsConnector, Parts,
    Tally,
};
pub use sqlx_traits::Connector;
use sqlx_traits::Database;
pub use stage::Why;
use std::alloc::Global;
use std::sync::Arc;
pub use steps::{FamilySteps, PoolSteps, Tallies, Wakes};
pub use stood::{FrontOf, Stood};

/// What is under the lock of the lone pool of a database.
pub type LoneOf<DB, H, L> = Lone<<DB as Database>::Connection, <DB as Database>::Options, H, L>;

/// The pool of a database.
pub type Pool<DB, H, L> = PoolOf<
    <DB as Database>::Connection,
    <DB as Database>::Options,
    LoneOf<DB, H, L>,
>;

/// What the pool of a database is made with.
pub type Blanks<DB> = BlanksOf<
    Stood<<DB as Database>::Connection, Arc<<DB as Database>::Options, Global>>,
>;

/// A ticket of a database's pool.
pub type Acquiring<DB, H, L> = AcquiringOf<
    <DB as Database>::Connection,
    <DB as Database>::Options,
    LoneOf<DB, H, L>,
>;

/// A connection that the pool of a database has lent.
pub type PoolConnection<DB, H, L> = PoolConnectionOf<
    <DB as Database>::Connection,
    <DB as Database>::Options,
    LoneOf<DB, H, L>,
>;

/// The pool of a database, and the clients that may yet be made of it.
pub type PoolClients<DB, H, L> = PoolClientsOf<
    <DB as Database>::Connection,
    <DB as Database>::Options,
    LoneOf<DB, H, L>,
>;

/// A client of a database's pool.
pub type PoolClient<DB, H, L> = PoolClientOf<
    <DB as Database>::Connection,
    <DB as Database>::Options,
    LoneOf<DB, H, L>,
>;

/// What a poll of a database's pool came to.
pub type PoolPoll<DB, H, L> = PoolPollOf<
    <DB as Database>::Connection,
    <DB as Database>::Options,
    LoneOf<DB, H, L>,
>;

/// What a caller has seen of the pool of a database.
pub type PoolFront<DB, H, L> = FrontOf<
    <DB as Database>::Connection,
    <DB as Database>::Options,
    LoneOf<DB, H, L>,
>;

/// What tells that the pool of a database is closed.
pub type CloseEvent<DB, H, L> = CloseEventOf<
    <DB as Database>::Connection,
    <DB as Database>::Options,
    LoneOf<DB, H, L>,
>;

/// Why no transaction was begun on a connection of a database's pool.
pub type BeginRefused<DB, H, L> = BeginRefusedOf<PoolConnection<DB, H, L>>;
