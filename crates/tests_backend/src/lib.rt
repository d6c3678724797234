//! For tests: a backend of `Any` that hands out given steps and keeps what it was handed, and rows and values of `Any`.
#![tactic(auto)]

pub mod backend;
pub mod calls;
pub mod cells;
pub mod handed;

pub use backend::StubBackend;
pub use handed::{Call, Handed};
