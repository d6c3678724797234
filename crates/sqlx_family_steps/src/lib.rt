//! The steps of one pool of a family, each with the marks that it writes behind that pool's log.
//!
//! They know one log and no lock: `sqlx_family_pool` makes them under one, with a log for each pool and the books of what
//! is held and lent.
#![tactic(auto)]

pub mod asking;
pub mod closing;
pub mod cutting;
pub mod polling;
pub mod questions;
pub mod returning;
pub mod upkeep;
