//! A client's acts on a database in memory, done as a user of the library does them: each is a query with bound values
//! or a call of a transaction, and its reply and what it leaves are known.
#![tactic(auto)]

mod bound;
mod by_driver;
mod client;
mod statements;

pub use by_driver::ByDriver;
pub use client::run_act;
pub use sqlx_play_acts::{Act, Answer, ClientLink, MemStore, Reply, Route, StoreLink};
