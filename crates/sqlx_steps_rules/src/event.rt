//! The events of a script of steps.

/// A statement of a step: a key's value is written, or the key is deleted.
#[derive(Clone, Copy)]
pub enum Write {
    Put { key: i64, value: i64 },
    Del { key: i64 },
}

/// What a line after the first says.
#[derive(Clone, Copy)]
pub enum Event {
    /// `step N`: the definition of step N begins.
    Step { number: u32 },
    /// `put key value` or `del key`: a statement of the step that was defined last.
    Statement { write: Write },
    /// `apply n f`: the steps up to n are applied, and text number f is refused; none for 0.
    Apply { upto: u32, refuse: u32 },
    /// `get key`: a key is read.
    Get { key: u32 },
}
