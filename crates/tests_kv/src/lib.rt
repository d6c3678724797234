//! For tests: what a connection answers, whatever its backend, where it has a table `kv` of whole numbers.
#![tactic(auto)]

pub mod acts;
pub mod calls;
pub mod opened;
pub mod shown;

pub use acts::{Act, answers};
