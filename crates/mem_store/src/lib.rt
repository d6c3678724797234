//! A database in memory: one map from keys to values, any number of connections to it, and levels
//! of transactions by the texts of SQL.
#![tactic(auto)]

mod act;
mod answer;
mod in_place;
pub mod laws;
mod levels;
mod link;
mod refusal;
mod rows;
mod runs;
mod saved;
mod savepoint_stack;
mod session;
mod statement;
mod store;
mod writes;

pub use act::{Act, with_arguments};
pub use answer::Answer;
pub use levels::{begin_at, commit_at, rollback_at};
pub use link::StoreLink;
pub use refusal::Refusal;
pub use runs::Runs;
pub use session::StoreSession;
pub use statement::{DELETE, GET, PUT, SELECT_ALL, SELECT_ONE, Statement, statement_of};
pub use store::MemStore;
