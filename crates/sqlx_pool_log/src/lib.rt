//! The log of a pool: the marks of all that its steps did, in reserved memory. Nearly every loan makes the same marks, so
//! that one entry holds all of a loan's; the log is read, counted and cut as the list of its marks.
#![tactic(auto)]

mod cut;
mod entry;
mod packed_log;
mod written;

pub use packed_log::PackedLog;
