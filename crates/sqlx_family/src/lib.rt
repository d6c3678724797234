//! A family of pools: a root and its children, who share permits and numbers.
//!
//! Each pool of a [`Family`] makes the steps of `sqlx_pool_core`, by its own lists and for its own log. The root begins
//! with all permits; a child takes one from the root where its ticket comes to be served in the root's line.
#![tactic(auto)]

mod family;

pub use family::Family;
