//! The history of a value that lies under a lock: all states in which it stood there, in their order, and the fronts of it
//! that callers have seen. It exists in the proofs alone; what runs is one number, its length.
#![tactic(auto)]

mod history;
mod law;

pub use history::{Front, History, Opened};
pub use law::{Chained, Law, Naming, Stands};
