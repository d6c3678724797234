//! Moments of the caller's clock.

/// A moment in nanoseconds, by a clock of the caller's.
#[derive(Clone, Copy, Debug, PartialEq, Eq, PartialOrd, Ord)]
pub struct Moment(pub u64);
