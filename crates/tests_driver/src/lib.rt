//! Tests of the database in memory: statements by their texts on the store's own links, and queries on
//! connections over its sessions.
#![tactic(auto)]

mod callers;
#[cfg(test)]
mod queries;
#[cfg(test)]
mod shared;
#[cfg(test)]
mod statements;
#[cfg(test)]
mod undo;

pub use callers::{keep, pair};
