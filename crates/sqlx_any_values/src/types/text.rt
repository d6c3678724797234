//! Texts, owned and borrowed.
ghost use Rattle.std.specs.Prelude.{◌≡◌, Ok, string_bytes};
ghost use Rattle.sqlx_traits.specs.Reads.{Reads};
ghost use Rattle.sqlx_any_values.specs.TypedRead.{read_text};

use super::{misfit, unexpected};
use crate::{AnyRead, AnyValue, AnyValueKind};
use sqlx_text::{AnyTypeInfoKind, Fault, UStr};
use std::alloc::Global;

// A copy of the text.
fn owned(alloc: Global, text: &UStr) -> Result<String, Fault>
    ensures { Reads string_bytes (Ok text.now) result }
{
    match text.as_str().to_string(alloc) {
        Ok(copy) => Ok(copy),
        Err(_) => Err(Fault::OutOfMemory),
    }
}

/// The text that a value is.
pub fn text_of<'r>(value: &'r AnyValue) -> Result<&'r str, Fault>
    ensures { Reads (λ text. text.now) (read_text value.now.kind) result }
{
    match &value.kind {
        AnyValueKind::Text(text) => Ok(text.as_str()),
        AnyValueKind::TextSlice(text) => Ok(text.as_str()),
        _ => Err(unexpected(AnyTypeInfoKind::Text, value)),
    }
}

/// A copy of the text that a value is.
pub fn copy_of(alloc: Global, value: &AnyValue) -> Result<String, Fault>
    ensures { Reads string_bytes (read_text value.now.kind) result }
{
    match &value.kind {
        AnyValueKind::Text(text) => owned(alloc, text),
        AnyValueKind::TextSlice(text) => owned(alloc, text),
        _ => Err(unexpected(AnyTypeInfoKind::Text, value)),
    }
}

impl<'r> AnyRead<'r> for &'r str {
    ghost use Rattle.sqlx_any_values.specs.TypedRead.{TypedRead, a_text};
    ghost use Rattle.std.specs.Prelude.{codes};

    ghost reads = { TypedRead (λ text. text.now) (a_text (codes "&str")) };

    fn read(
        _alloc: Global,
        value: &'r AnyValue,
        checked: bool,
        in_row: bool,
    ) -> Result<&'r str, Fault> {
        let kind = value.kind.kind();
        let takes = matches!(kind, AnyTypeInfoKind::Text);
        match misfit("&str", AnyTypeInfoKind::Text, takes, checked, in_row, kind) {
            Some(fault) => Err(fault),
            None => text_of(value),
        }
    }
}

impl<'r> AnyRead<'r> for String {
    ghost use Rattle.sqlx_any_values.specs.TypedRead.{TypedRead, a_text};
    ghost use Rattle.std.specs.Prelude.{codes, string_bytes};

    ghost reads = { TypedRead string_bytes (a_text (codes "String")) };

    fn read(
        alloc: Global,
        value: &'r AnyValue,
        checked: bool,
        in_row: bool,
    ) -> Result<String, Fault> {
        let kind = value.kind.kind();
        let takes = matches!(kind, AnyTypeInfoKind::Text);
        match misfit(
            "String",
            AnyTypeInfoKind::Text,
            takes,
            checked,
            in_row,
            kind,
        ) {
            Some(fault) => Err(fault),
            None => copy_of(alloc, value),
        }
    }
}
