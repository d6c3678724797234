//! The events of a client that wants a connection.

pub mod ask;
pub mod cancel;
pub mod hand_over;
pub mod poll;
pub mod try_acquire;
