//! The script that the program makes for itself, out of a count of lines and a seed: a pool of one connection, and blocks of seven lines.
//! In each block a client asks, gets the connection, works on it in one level, and gives it back. Beside it stands the summary of what was written for a script. Nothing here plays one.
#![tactic(auto)]

mod block;
pub mod laws;
mod lines;
mod script;
mod summary;

pub use script::made_script;
pub use summary::made_summary;
