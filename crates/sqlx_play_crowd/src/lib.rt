//! A crowd of workers in threads over one pool: each borrows connections, one after another, and returns them. With them
//! what a worker begins with and leaves, and the text of the pool's log.
#![tactic(auto)]

mod crowd;
pub mod jobs;
mod line;
mod outside;
mod text;
mod workers;

pub use crowd::{Crowd, CrowdBlanks, crowd_with};
pub use outside::Unhooked;
pub use text::{audited, log_text};
pub use workers::worker;
