//! A client's levels on a database in memory, begun and ended by transactions, and how an error of the database is told
//! as a reply.
#![tactic(auto)]

mod levels;
mod replies;

pub use levels::{begin, commit, custom, give_up, rollback};
pub use replies::{read, told, written};
