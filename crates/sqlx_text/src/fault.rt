//! Faults of values: what can't be encoded, decoded, mapped or configured.

use crate::{AnyTypeInfoKind, UStr};
use std::fmt;
use thiserror::Error;

/// What is wrong with a value, a type or a setting.
#[derive(Drop)]
pub enum Fault {
    /// A null that was read into a type without null.
    UnexpectedNull,
    /// The type of a value isn't one that the Rust type reads.
    Mismatched {
        /// The name of the Rust type.
        rust: UStr,
        /// The SQL type of the Rust type, where it is told.
        sql_of_rust: Option<UStr>,
        /// The SQL type of the value.
        sql: UStr,
    },
    /// A value of another kind than the one that is read.
    Unexpected {
        expected: AnyTypeInfoKind,
        got: AnyTypeInfoKind,
    },
    /// A whole number outside of the range of the Rust type.
    OutOfRange,
    /// A type that has no kind.
    NoKind(UStr),
    /// Any other fault, in words.
    Text(UStr),
    /// Want of memory.
    OutOfMemory,
}

impl Fault {
    // The message, or what stands of it before the first thing that the fault holds.
    fn words(&self) -> &'static str {
        match self {
            Fault::UnexpectedNull => "unexpected null; try decoding as an `Option`",
            Fault::Mismatched { .. } => "mismatched types; Rust type `",
            Fault::Unexpected { .. } => "expected ",
            Fault::OutOfRange => "out of range integral type conversion attempted",
            Fault::NoKind(_) => "no kind for type ",
            Fault::Text(_) => "",
            Fault::OutOfMemory => "out of memory",
        }
    }
}

impl fmt::Display for Fault {
    fn fmt<W: fmt::Write>(&self, f: &mut fmt::Formatter<W>) -> fmt::Result {
        f.write_str(self.words())?;
        match self {
            Fault::Mismatched {
                rust,
                sql_of_rust: Some(own),
                sql,
            } => write!(
                f,
                "{rust}` (as SQL type `{own}`) is not compatible with SQL type `{sql}`"
            ),
            Fault::Mismatched {
                rust,
                sql_of_rust: None,
                sql,
            } => write!(f, "{rust}` is not compatible with SQL type `{sql}`"),
            Fault::Unexpected { expected, got } => write!(f, "{expected}, got {got}"),
            Fault::NoKind(text) | Fault::Text(text) => f.write_str(text.as_str()),
            _ => Ok(()),
        }
    }
}

// The message: a derived text would be a case for each variant.
impl fmt::Debug for Fault {
    fn fmt<W: fmt::Write>(&self, f: &mut fmt::Formatter<W>) -> fmt::Result {
        fmt::Display::fmt(self, f)
    }
}

impl std::error::Error for Fault {}

/// A null came where none is expected.
#[derive(Debug, Drop, Error)]
#[error("unexpected null; try decoding as an `Option`")]
pub struct UnexpectedNullError;
