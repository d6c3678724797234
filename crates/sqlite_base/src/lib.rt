//! The database under a connection of `sqlite_driver`, in memory or in a file: it is opened, runs
//! texts with arguments of `Any`, rolls back to a depth and is closed, and a refusal is told as an
//! error.
#![tactic(auto)]

mod base;
mod refusal;
mod statements;
mod values;

pub use base::Base;
pub use refusal::Refusal;
pub use statements::Items;
