//! Truth values.
ghost use Rattle.std.specs.Prelude.{◌≡◌};
ghost use Rattle.sqlx_any_values.specs.TypedRead.{read_bool};

use super::{misfit, unexpected};
use crate::{AnyRead, AnyValue, AnyValueKind};
use sqlx_text::{AnyTypeInfoKind, Fault};
use std::alloc::Global;

/// The truth value that a value is.
pub fn truth(value: &AnyValue) -> Result<bool, Fault>
    ensures { result ≡ read_bool value.now.kind }
{
    match value.kind {
        AnyValueKind::Bool(b) => Ok(b),
        _ => Err(unexpected(AnyTypeInfoKind::Bool, value)),
    }
}

impl<'r> AnyRead<'r> for bool {
    ghost use Rattle.sqlx_any_values.specs.TypedRead.{TypedRead, a_bool};

    ghost reads = { TypedRead (λ b. b) a_bool };

    fn read(
        _alloc: Global,
        value: &'r AnyValue,
        checked: bool,
        in_row: bool,
    ) -> Result<bool, Fault> {
        let kind = value.kind.kind();
        let takes = matches!(kind, AnyTypeInfoKind::Bool);
        match misfit("bool", AnyTypeInfoKind::Bool, takes, checked, in_row, kind) {
            Some(fault) => Err(fault),
            None => truth(value),
        }
    }
}
