//! What a poll comes to at first, as a value.

/// The row of the poll table that applies.
#[derive(Clone, Copy, PartialEq, Eq)]
pub enum Turn {
    /// The client has no such ticket, or a step of its own is under way.
    NotHeld,
    /// The pool is closed; the ticket ends.
    Closed,
    /// The deadline came; the ticket ends.
    TimedOut,
    /// A connect is due, and the numbers of connections are used up; the ticket ends.
    Exhausted,
    /// The ticket stays in the line.
    Waiting,
    /// The next try of a connect is due at this moment, in nanoseconds.
    Backoff(u128),
    /// The first idle connection is tested.
    Test,
    /// A connection is opened.
    Connect,
}
