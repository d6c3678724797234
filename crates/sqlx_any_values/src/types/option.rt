//! Options: a null is read as `None`.
use crate::{AnyRead, AnyValue, AnyValueKind};
use sqlx_text::Fault;
use std::alloc::Global;

impl<'r, T: AnyRead<'r>> AnyRead<'r> for Option<T> {
    ghost use Rattle.sqlx_traits.specs.Reads.{ReadsOption};
    ghost use Rattle.sqlx_any_values.specs.Kinds.{is_null_kind, kind_of};

    ghost reads = { λ checked in_row value r. ReadsOption (is_null_kind (kind_of value.kind)) (T.reads checked in_row value) r };

    fn read(
        alloc: Global,
        value: &'r AnyValue,
        checked: bool,
        in_row: bool,
    ) -> Result<Option<T>, Fault> {
        if matches!(value.kind, AnyValueKind::Null(_)) {
            return Ok(None);
        }
        match T::read(alloc, value, checked, in_row) {
            Ok(read) => Ok(Some(read)),
            Err(fault) => Err(fault),
        }
    }
}
