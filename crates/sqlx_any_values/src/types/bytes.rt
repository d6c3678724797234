//! Bytes, owned and borrowed.
ghost use Rattle.std.specs.Prelude.{◌≡◌};
ghost use Rattle.sqlx_traits.specs.Reads.{Reads};
ghost use Rattle.sqlx_any_values.specs.TypedRead.{read_bytes};

use super::{misfit, unexpected};
use crate::{AnyRead, AnyValue, AnyValueKind};
use sqlx_text::{AnyTypeInfoKind, Fault};
use std::alloc::Global;

/// The bytes that a value is.
pub fn bytes_of<'r>(value: &'r AnyValue) -> Result<&'r [u8], Fault>
    ensures { Reads (λ bytes. bytes.now) (read_bytes value.now.kind) result }
{
    match &value.kind {
        AnyValueKind::Blob(blob) => Ok(blob.as_slice()),
        _ => Err(unexpected(AnyTypeInfoKind::Blob, value)),
    }
}

/// A copy of the bytes that a value is.
pub fn copy_of(alloc: Global, value: &AnyValue) -> Result<Vec<u8>, Fault>
    ensures { Reads (λ bytes. bytes.items) (read_bytes value.now.kind) result }
{
    match &value.kind {
        AnyValueKind::Blob(blob) => match Vec::from_slice(alloc, blob.as_slice()) {
            Ok(bytes) => Ok(bytes),
            Err(_) => Err(Fault::OutOfMemory),
        },
        _ => Err(unexpected(AnyTypeInfoKind::Blob, value)),
    }
}

impl<'r> AnyRead<'r> for &'r [u8] {
    ghost use Rattle.sqlx_any_values.specs.TypedRead.{TypedRead, a_blob};
    ghost use Rattle.std.specs.Prelude.{codes};

    ghost reads = { TypedRead (λ bytes. bytes.now) (a_blob (codes "&[u8]")) };

    fn read(
        _alloc: Global,
        value: &'r AnyValue,
        checked: bool,
        in_row: bool,
    ) -> Result<&'r [u8], Fault> {
        let kind = value.kind.kind();
        let takes = matches!(kind, AnyTypeInfoKind::Blob);
        match misfit("&[u8]", AnyTypeInfoKind::Blob, takes, checked, in_row, kind) {
            Some(fault) => Err(fault),
            None => bytes_of(value),
        }
    }
}

impl<'r> AnyRead<'r> for Vec<u8> {
    ghost use Rattle.sqlx_any_values.specs.TypedRead.{TypedRead, a_blob};
    ghost use Rattle.std.specs.Prelude.{codes};

    ghost reads = { TypedRead (λ bytes. bytes.items) (a_blob (codes "Vec<u8>")) };

    fn read(
        alloc: Global,
        value: &'r AnyValue,
        checked: bool,
        in_row: bool,
    ) -> Result<Vec<u8>, Fault> {
        let kind = value.kind.kind();
        let takes = matches!(kind, AnyTypeInfoKind::Blob);
        match misfit(
            "Vec<u8>",
            AnyTypeInfoKind::Blob,
            takes,
            checked,
            in_row,
            kind,
        ) {
            Some(fault) => Err(fault),
            None => copy_of(alloc, value),
        }
    }
}
