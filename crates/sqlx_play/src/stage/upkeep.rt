//! The events that keep the pool: its minimum, reaping and closing.

pub mod close;
pub mod closed;
pub mod fill;
pub mod min;
pub mod reap;
