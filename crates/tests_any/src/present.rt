//! Whether a value is there, which each value of the toy database and of `Any` can be read as.

use sqlx_any::{AnyRead, AnyValue};
use sqlx_text::{AnyTypeInfoKind, Fault};
use sqlx_traits::{Decode, DecodeOwned, SqlType};
use std::alloc::Global;
use tests_database::{Toy, ToyType, ToyValue};

/// What each value can be read as.
#[derive(Clone, Copy, Debug)]
pub struct Present;

impl<'r> Decode<'r, Toy> for Present {
    ghost use Rattle.std.specs.Prelude.{◌≡◌, Ok};

    ghost reads = { λ _ r. r ≡ Ok (record {}) };

    fn decode(_alloc: Global, _value: &'r ToyValue) -> Result<Present, Fault> {
        Ok(Present)
    }
}

impl DecodeOwned<Toy> for Present {
    ghost use Rattle.std.specs.Prelude.{◌≡◌, Ok};

    ghost reads = { λ _ r. r ≡ Ok (record {}) };

    fn decode_owned(_alloc: Global, _value: &ToyValue) -> Result<Present, Fault> {
        Ok(Present)
    }
}

impl SqlType<Toy> for Present {
    ghost use Rattle.std.specs.Prelude.{Some, codes, true};
    ghost use Rattle.sqlx_text.specs.declared.kind.AnyTypeInfoKind.TheVariants as kind;

    ghost called = { codes "Present" };

    ghost own_type = { record { kind = Some kind.Bool } };

    ghost reads_type = { λ _. true };

    fn name() -> &'static str {
        "Present"
    }

    fn type_info() -> ToyType {
        ToyType::of(AnyTypeInfoKind::Bool)
    }

    fn compatible(_ty: &ToyType) -> bool {
        true
    }
}

impl<'r> AnyRead<'r> for Present {
    ghost use Rattle.std.specs.Prelude.{◌≡◌, Ok};

    ghost reads = { λ _ _ _ r. r ≡ Ok (record {}) };

    fn read(
        _alloc: Global,
        _value: &'r AnyValue,
        _checked: bool,
        _in_row: bool,
    ) -> Result<Present, Fault> {
        Ok(Present)
    }
}
