//! What came of a place for the minimum.

/// What came of one try to open a connection for the minimum.
#[derive(Clone, Copy, PartialEq, Eq)]
pub enum Filled {
    /// No place was there.
    Full,
    /// A connection was opened.
    Opened,
    /// The connect or its hook was refused.
    Refused,
    /// Want of memory.
    Short,
}
