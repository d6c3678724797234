//! Reads of values and of rows that name no backend. For each Rust type they come to one table: a value is
//! null, of a kind that the type doesn't read, out of its range, or read.
ghost use Rattle.std.specs.Prelude.{Bool, Result};

use crate::AnyValue;
use sqlx_text::Fault;
use std::alloc::Global;

/// A type that is read of values of `Any`, whatever the backend; it may borrow from the value.
pub trait AnyRead<'r>: Sized {
    ghost use Rattle.sqlx_any_values.specs.declared.value.AnyValue.{AnyValue};
    ghost use Rattle.sqlx_text.specs.declared.fault.Fault.{Fault};

    /// What may be read of a value: first whether its kind has to fit, then whether it stands in a row, whose refusal doesn't name the type's own kind.
    ghost reads: { Bool → Bool → AnyValue → Result Self Fault → Type 0 };

    /// Reads a value, whose kind has to fit where `checked`, and which stands in a row or alone.
    fn read(alloc: Global, value: &'r AnyValue, checked: bool, in_row: bool) -> Result<Self, Fault>
        ensures { reads checked in_row value.entry.now result };
}
