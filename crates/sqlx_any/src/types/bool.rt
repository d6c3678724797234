//! Truth values.
ghost use Rattle.std.specs.Prelude.{◌≡◌};

use crate::{Any, AnyArgumentBuffer, AnyConnectionBackend, AnyTypeInfo, AnyValue, AnyValueKind};
use sqlx_any_values::types::bool::truth;
use sqlx_any_values::types::put;
use sqlx_text::{AnyTypeInfoKind, Fault};
use sqlx_traits::{Decode, DecodeOwned, Encode, IsNull, SqlType, TypeInfo};
use std::alloc::Global;

impl<B: AnyConnectionBackend> SqlType<Any<B>> for bool {
    ghost use Rattle.std.specs.Prelude.{codes};
    ghost use Rattle.sqlx_text.specs.declared.kind.AnyTypeInfoKind.TheVariants as kind;

    ghost called = { codes "bool" };

    ghost own_type = { record { kind = kind.Bool } };

    ghost reads_type = { λ ty. ⟦<AnyTypeInfo as TypeInfo>⟧.accepts (record { kind = kind.Bool }) ty };

    fn name() -> &'static str {
        "bool"
    }

    fn type_info() -> AnyTypeInfo {
        AnyTypeInfo {
            kind: AnyTypeInfoKind::Bool,
        }
    }

    fn compatible(ty: &AnyTypeInfo) -> bool {
        <bool as SqlType<Any<B>>>::type_info().type_compatible(ty)
    }
}

impl<'q, B: AnyConnectionBackend> Encode<'q, Any<B>> for bool {
    ghost use Rattle.std.specs.Prelude.{◌++◌, ◌∷◌, [], None};
    ghost use Rattle.sqlx_any_values.specs.declared.value.AnyValueKind.TheVariants as value;
    ghost use Rattle.sqlx_traits.specs.Arguments.{IsWantOfMemory};
    ghost use Rattle.sqlx_traits.specs.declared.encode.IsNull.TheVariants.{No};

    ghost encoded = { λ b list. list ++ value.Bool b ∷ [] };

    ghost null = { λ _. No };

    ghost refuses = { λ _. IsWantOfMemory };

    ghost produced = { λ _. None };

    ghost size = { λ _. 1 };

    fn encode(self, _alloc: Global, buf: &mut AnyArgumentBuffer) -> Result<IsNull, Fault> {
        put(buf, AnyValueKind::Bool(self))
    }

    fn encode_by_ref(&self, _alloc: Global, buf: &mut AnyArgumentBuffer) -> Result<IsNull, Fault> {
        put(buf, AnyValueKind::Bool(*self))
    }

    fn produces(&self) -> Option<AnyTypeInfo> {
        None
    }

    fn size_hint(&self) -> usize {
        1
    }
}

impl<'r, B: AnyConnectionBackend> Decode<'r, Any<B>> for bool {
    ghost use Rattle.sqlx_traits.specs.Reads.{Reads};
    ghost use Rattle.sqlx_any_values.specs.TypedRead.{read_bool};

    ghost reads = { λ value r. Reads (λ b. b) (read_bool value.kind) r };

    fn decode(_alloc: Global, value: &'r AnyValue) -> Result<bool, Fault> {
        truth(value)
    }
}

impl<B: AnyConnectionBackend> DecodeOwned<Any<B>> for bool {
    ghost use Rattle.sqlx_traits.specs.Reads.{Reads};
    ghost use Rattle.sqlx_any_values.specs.TypedRead.{read_bool};

    ghost reads = { λ value r. Reads (λ b. b) (read_bool value.kind) r };

    fn decode_owned(alloc: Global, value: &AnyValue) -> Result<bool, Fault> {
        <bool as Decode<Any<B>>>::decode(alloc, value)
    }
}
