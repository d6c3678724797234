//! What taking a ticket out of a line comes to.

/// What [`Line::take`](crate::Line::take) did.
#[derive(Clone, Copy, Debug, PartialEq, Eq)]
pub enum Took {
    /// The ticket doesn't wait.
    Absent,
    /// It waits and isn't entitled yet: the line is as before.
    Beyond,
    /// It was entitled, and has left the line.
    Taken,
}
