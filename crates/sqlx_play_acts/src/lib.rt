//! What a client does on a connection to a database in memory, and what comes of it: it begins and ends levels of
//! transactions, and writes, deletes and reads keys. A [`Route`] is the way that an act takes to the database;
//! [`ByStore`] is the shortest.
#![tactic(auto)]

mod act;
mod by_store;
mod link;
mod route;

pub use act::Act;
pub use by_store::ByStore;
pub use link::ClientLink;
pub use mem_store::{Answer, MemStore, StoreLink};
pub use route::Route;
pub use sqlx_script::Reply;
