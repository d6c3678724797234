//! The database in memory as a driver: its sessions are a backend of `Any`, so that queries and
//! transactions run on it; and one such database for the connections of many threads, whose store stands behind a lock,
//! which each call that needs it takes and lets go.
#![tactic(auto)]

mod answers;
mod asked;
mod backend;
mod connection;
mod connector;
mod counted;
mod levels;
mod link;
mod open;
mod prepared;
mod session;

pub use connection::SharedMemConnection;
pub use connector::SharedMemConnector;
pub use link::MemLink;
pub use mem_store::{
    Answer, DELETE, GET, MemStore, PUT, Runs, SELECT_ALL, SELECT_ONE, Statement, StoreLink,
    begin_at, commit_at, rollback_at, statement_of,
};
pub use session::MemSession;
pub use sqlx_any::{Any, AnyConnection};

/// The database of a session: what queries on it are written for.
pub type Mem = Any<MemSession>;

/// The database of a shared store: what queries on it are written for.
pub type SharedMem<R> = Any<SharedMemConnection<R>>;
