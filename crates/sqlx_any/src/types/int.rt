//! Whole numbers: each type reads each kind of them, as far as its range goes.

use crate::{Any, AnyArgumentBuffer, AnyConnectionBackend, AnyTypeInfo, AnyValue, AnyValueKind};
use sqlx_any_values::types::int::{whole_i16, whole_i32, whole_i64};
use sqlx_any_values::types::put;
use sqlx_text::{AnyTypeInfoKind, Fault};
use sqlx_traits::{Decode, DecodeOwned, Encode, IsNull, SqlType};
use std::alloc::Global;

impl<B: AnyConnectionBackend> SqlType<Any<B>> for i16 {
    ghost use Rattle.std.specs.Prelude.{codes};
    ghost use Rattle.sqlx_text.specs.Kind.{is_whole_number};
    ghost use Rattle.sqlx_text.specs.declared.kind.AnyTypeInfoKind.TheVariants.{SmallInt};

    ghost called = { codes "i16" };

    ghost own_type = { record { kind = SmallInt } };

    ghost reads_type = { λ ty. is_whole_number ty.kind };

    fn name() -> &'static str {
        "i16"
    }

    fn type_info() -> AnyTypeInfo {
        AnyTypeInfo {
            kind: AnyTypeInfoKind::SmallInt,
        }
    }

    fn compatible(ty: &AnyTypeInfo) -> bool {
        ty.kind.is_integer()
    }
}

impl<'q, B: AnyConnectionBackend> Encode<'q, Any<B>> for i16 {
    ghost use Rattle.std.specs.Prelude.{◌++◌, ◌∷◌, [], None};
    ghost use Rattle.sqlx_any_values.specs.declared.value.AnyValueKind.TheVariants.{SmallInt};
    ghost use Rattle.sqlx_traits.specs.Arguments.{IsWantOfMemory};
    ghost use Rattle.sqlx_traits.specs.declared.encode.IsNull.TheVariants.{No};

    ghost encoded = { λ n list. list ++ SmallInt n ∷ [] };

    ghost null = { λ _. No };

    ghost refuses = { λ _. IsWantOfMemory };

    ghost produced = { λ _. None };

    ghost size = { λ _. 2 };

    fn encode(self, _alloc: Global, buf: &mut AnyArgumentBuffer) -> Result<IsNull, Fault> {
        put(buf, AnyValueKind::SmallInt(self))
    }

    fn encode_by_ref(&self, _alloc: Global, buf: &mut AnyArgumentBuffer) -> Result<IsNull, Fault> {
        put(buf, AnyValueKind::SmallInt(*self))
    }

    fn produces(&self) -> Option<AnyTypeInfo> {
        None
    }

    fn size_hint(&self) -> usize {
        2
    }
}

impl<'r, B: AnyConnectionBackend> Decode<'r, Any<B>> for i16 {
    ghost use Rattle.sqlx_traits.specs.Reads.{Reads};
    ghost use Rattle.sqlx_any_values.specs.TypedRead.{read_i16};

    ghost reads = { λ value r. Reads (λ n. n) (read_i16 value.kind) r };

    fn decode(_alloc: Global, value: &'r AnyValue) -> Result<i16, Fault> {
        whole_i16(value)
    }
}

impl<B: AnyConnectionBackend> DecodeOwned<Any<B>> for i16 {
    ghost use Rattle.sqlx_traits.specs.Reads.{Reads};
    ghost use Rattle.sqlx_any_values.specs.TypedRead.{read_i16};

    ghost reads = { λ value r. Reads (λ n. n) (read_i16 value.kind) r };

    fn decode_owned(alloc: Global, value: &AnyValue) -> Result<i16, Fault> {
        <i16 as Decode<Any<B>>>::decode(alloc, value)
    }
}

impl<B: AnyConnectionBackend> SqlType<Any<B>> for i32 {
    ghost use Rattle.std.specs.Prelude.{codes};
    ghost use Rattle.sqlx_text.specs.Kind.{is_whole_number};
    ghost use Rattle.sqlx_text.specs.declared.kind.AnyTypeInfoKind.TheVariants.{Integer};

    ghost called = { codes "i32" };

    ghost own_type = { record { kind = Integer } };

    ghost reads_type = { λ ty. is_whole_number ty.kind };

    fn name() -> &'static str {
        "i32"
    }

    fn type_info() -> AnyTypeInfo {
        AnyTypeInfo {
            kind: AnyTypeInfoKind::Integer,
        }
    }

    fn compatible(ty: &AnyTypeInfo) -> bool {
        ty.kind.is_integer()
    }
}

impl<'q, B: AnyConnectionBackend> Encode<'q, Any<B>> for i32 {
    ghost use Rattle.std.specs.Prelude.{◌++◌, ◌∷◌, [], None};
    ghost use Rattle.sqlx_any_values.specs.declared.value.AnyValueKind.TheVariants.{Integer};
    ghost use Rattle.sqlx_traits.specs.Arguments.{IsWantOfMemory};
    ghost use Rattle.sqlx_traits.specs.declared.encode.IsNull.TheVariants.{No};

    ghost encoded = { λ n list. list ++ Integer n ∷ [] };

    ghost null = { λ _. No };

    ghost refuses = { λ _. IsWantOfMemory };

    ghost produced = { λ _. None };

    ghost size = { λ _. 4 };

    fn encode(self, _alloc: Global, buf: &mut AnyArgumentBuffer) -> Result<IsNull, Fault> {
        put(buf, AnyValueKind::Integer(self))
    }

    fn encode_by_ref(&self, _alloc: Global, buf: &mut AnyArgumentBuffer) -> Result<IsNull, Fault> {
        put(buf, AnyValueKind::Integer(*self))
    }

    fn produces(&self) -> Option<AnyTypeInfo> {
        None
    }

    fn size_hint(&self) -> usize {
        4
    }
}

impl<'r, B: AnyConnectionBackend> Decode<'r, Any<B>> for i32 {
    ghost use Rattle.sqlx_traits.specs.Reads.{Reads};
    ghost use Rattle.sqlx_any_values.specs.TypedRead.{read_i32};

    ghost reads = { λ value r. Reads (λ n. n) (read_i32 value.kind) r };

    fn decode(_alloc: Global, value: &'r AnyValue) -> Result<i32, Fault> {
        whole_i32(value)
    }
}

impl<B: AnyConnectionBackend> DecodeOwned<Any<B>> for i32 {
    ghost use Rattle.sqlx_traits.specs.Reads.{Reads};
    ghost use Rattle.sqlx_any_values.specs.TypedRead.{read_i32};

    ghost reads = { λ value r. Reads (λ n. n) (read_i32 value.kind) r };

    fn decode_owned(alloc: Global, value: &AnyValue) -> Result<i32, Fault> {
        <i32 as Decode<Any<B>>>::decode(alloc, value)
    }
}

impl<B: AnyConnectionBackend> SqlType<Any<B>> for i64 {
    ghost use Rattle.std.specs.Prelude.{codes};
    ghost use Rattle.sqlx_text.specs.Kind.{is_whole_number};
    ghost use Rattle.sqlx_text.specs.declared.kind.AnyTypeInfoKind.TheVariants.{BigInt};

    ghost called = { codes "i64" };

    ghost own_type = { record { kind = BigInt } };

    ghost reads_type = { λ ty. is_whole_number ty.kind };

    fn name() -> &'static str {
        "i64"
    }

    fn type_info() -> AnyTypeInfo {
        AnyTypeInfo {
            kind: AnyTypeInfoKind::BigInt,
        }
    }

    fn compatible(ty: &AnyTypeInfo) -> bool {
        ty.kind.is_integer()
    }
}

impl<'q, B: AnyConnectionBackend> Encode<'q, Any<B>> for i64 {
    ghost use Rattle.std.specs.Prelude.{◌++◌, ◌∷◌, [], None};
    ghost use Rattle.sqlx_any_values.specs.declared.value.AnyValueKind.TheVariants.{BigInt};
    ghost use Rattle.sqlx_traits.specs.Arguments.{IsWantOfMemory};
    ghost use Rattle.sqlx_traits.specs.declared.encode.IsNull.TheVariants.{No};

    ghost encoded = { λ n list. list ++ BigInt n ∷ [] };

    ghost null = { λ _. No };

    ghost refuses = { λ _. IsWantOfMemory };

    ghost produced = { λ _. None };

    ghost size = { λ _. 8 };

    fn encode(self, _alloc: Global, buf: &mut AnyArgumentBuffer) -> Result<IsNull, Fault> {
        put(buf, AnyValueKind::BigInt(self))
    }

    fn encode_by_ref(&self, _alloc: Global, buf: &mut AnyArgumentBuffer) -> Result<IsNull, Fault> {
        put(buf, AnyValueKind::BigInt(*self))
    }

    fn produces(&self) -> Option<AnyTypeInfo> {
        None
    }

    fn size_hint(&self) -> usize {
        8
    }
}

impl<'r, B: AnyConnectionBackend> Decode<'r, Any<B>> for i64 {
    ghost use Rattle.sqlx_traits.specs.Reads.{Reads};
    ghost use Rattle.sqlx_any_values.specs.TypedRead.{read_i64};

    ghost reads = { λ value r. Reads (λ n. n) (read_i64 value.kind) r };

    fn decode(_alloc: Global, value: &'r AnyValue) -> Result<i64, Fault> {
        whole_i64(value)
    }
}

impl<B: AnyConnectionBackend> DecodeOwned<Any<B>> for i64 {
    ghost use Rattle.sqlx_traits.specs.Reads.{Reads};
    ghost use Rattle.sqlx_any_values.specs.TypedRead.{read_i64};

    ghost reads = { λ value r. Reads (λ n. n) (read_i64 value.kind) r };

    fn decode_owned(alloc: Global, value: &AnyValue) -> Result<i64, Fault> {
        <i64 as Decode<Any<B>>>::decode(alloc, value)
    }
}
