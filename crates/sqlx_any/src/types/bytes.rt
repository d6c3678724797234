//! Bytes, owned and borrowed.
ghost use Rattle.std.specs.Prelude.{◌≡◌, codes};

use crate::{
    Any, AnyArgumentBuffer, AnyBlob, AnyConnectionBackend, AnyTypeInfo, AnyValue, AnyValueKind,
};
use sqlx_any_values::types::bytes::{bytes_of, copy_of};
use sqlx_any_values::types::put;
use sqlx_text::{AnyTypeInfoKind, Fault};
use sqlx_traits::{Decode, DecodeOwned, Encode, IsNull, SqlType, TypeInfo};
use std::alloc::Global;

impl<'s, B: AnyConnectionBackend> SqlType<Any<B>> for &'s [u8] {
    ghost use Rattle.std.specs.Prelude.{codes};
    ghost use Rattle.sqlx_text.specs.declared.kind.AnyTypeInfoKind.TheVariants.{Blob};

    ghost called = { codes "&[u8]" };

    ghost own_type = { record { kind = Blob } };

    ghost reads_type = { λ ty. ⟦<AnyTypeInfo as TypeInfo>⟧.accepts (record { kind = Blob }) ty };

    fn name() -> &'static str
        ensures { result.now ≡ codes "&[u8]" }
    {
        "&[u8]"
    }

    fn type_info() -> AnyTypeInfo
        ensures { result ≡ record { kind = AnyTypeInfoKind.Blob } }
    {
        AnyTypeInfo {
            kind: AnyTypeInfoKind::Blob,
        }
    }

    fn compatible(ty: &AnyTypeInfo) -> bool
        ensures { result ≡ ⟦<AnyTypeInfo as TypeInfo>⟧.accepts (record { kind = AnyTypeInfoKind.Blob }) ty.now }
    {
        <&[u8] as SqlType<Any<B>>>::type_info().type_compatible(ty)
    }
}

impl<'q, B: AnyConnectionBackend> Encode<'q, Any<B>> for &[u8] {
    ghost use Rattle.std.specs.Prelude.{◌++◌, ◌∷◌, [], None, length};
    ghost use Rattle.sqlx_any_values.specs.declared.value.AnyValueKind.TheVariants.{Blob};
    ghost use Rattle.sqlx_traits.specs.Arguments.{IsWantOfMemory};
    ghost use Rattle.sqlx_traits.specs.declared.encode.IsNull.TheVariants.{No};

    ghost encoded = { λ bytes list. list ++ Blob bytes.now ∷ [] };

    ghost null = { λ _. No };

    ghost refuses = { λ _. IsWantOfMemory };

    ghost produced = { λ _. None };

    ghost size = { λ bytes. length bytes.now };

    fn encode(self, alloc: Global, buf: &mut AnyArgumentBuffer) -> Result<IsNull, Fault> {
        let blob = AnyBlob::new(alloc, self)?;
        put(buf, AnyValueKind::Blob(blob))
    }

    fn encode_by_ref(&self, alloc: Global, buf: &mut AnyArgumentBuffer) -> Result<IsNull, Fault> {
        let blob = AnyBlob::new(alloc, *self)?;
        put(buf, AnyValueKind::Blob(blob))
    }

    fn produces(&self) -> Option<AnyTypeInfo> {
        None
    }

    fn size_hint(&self) -> usize {
        self.len()
    }
}

impl<'r, B: AnyConnectionBackend> Decode<'r, Any<B>> for &'r [u8] {
    ghost use Rattle.sqlx_traits.specs.Reads.{Reads};
    ghost use Rattle.sqlx_any_values.specs.TypedRead.{read_bytes};

    ghost reads = { λ value r. Reads (λ bytes. bytes.now) (read_bytes value.kind) r };

    fn decode(_alloc: Global, value: &'r AnyValue) -> Result<&'r [u8], Fault> {
        bytes_of(value)
    }
}

impl<B: AnyConnectionBackend> SqlType<Any<B>> for Vec<u8> {
    ghost use Rattle.std.specs.Prelude.{codes};
    ghost use Rattle.sqlx_text.specs.declared.kind.AnyTypeInfoKind.TheVariants.{Blob};

    ghost called = { codes "Vec<u8>" };

    ghost own_type = { record { kind = Blob } };

    ghost reads_type = { λ ty. ⟦<AnyTypeInfo as TypeInfo>⟧.accepts (record { kind = Blob }) ty };

    fn name() -> &'static str {
        "Vec<u8>"
    }

    fn type_info() -> AnyTypeInfo {
        AnyTypeInfo {
            kind: AnyTypeInfoKind::Blob,
        }
    }

    fn compatible(ty: &AnyTypeInfo) -> bool {
        <Vec<u8> as SqlType<Any<B>>>::type_info().type_compatible(ty)
    }
}

impl<'q, B: AnyConnectionBackend> Encode<'q, Any<B>> for Vec<u8> {
    ghost use Rattle.std.specs.Prelude.{◌++◌, ◌∷◌, [], None, length};
    ghost use Rattle.sqlx_any_values.specs.declared.value.AnyValueKind.TheVariants.{Blob};
    ghost use Rattle.sqlx_traits.specs.Arguments.{IsWantOfMemory};
    ghost use Rattle.sqlx_traits.specs.declared.encode.IsNull.TheVariants.{No};

    ghost encoded = { λ bytes list. list ++ Blob bytes.items ∷ [] };

    ghost null = { λ _. No };

    ghost refuses = { λ _. IsWantOfMemory };

    ghost produced = { λ _. None };

    ghost size = { λ bytes. length bytes.items };

    fn encode(self, _alloc: Global, buf: &mut AnyArgumentBuffer) -> Result<IsNull, Fault> {
        put(buf, AnyValueKind::Blob(AnyBlob::from_vec(self)))
    }

    fn encode_by_ref(&self, alloc: Global, buf: &mut AnyArgumentBuffer) -> Result<IsNull, Fault> {
        let blob = AnyBlob::new(alloc, self.as_slice())?;
        put(buf, AnyValueKind::Blob(blob))
    }

    fn produces(&self) -> Option<AnyTypeInfo> {
        None
    }

    fn size_hint(&self) -> usize {
        self.len()
    }
}

impl<'r, B: AnyConnectionBackend> Decode<'r, Any<B>> for Vec<u8> {
    ghost use Rattle.sqlx_traits.specs.Reads.{Reads};
    ghost use Rattle.sqlx_any_values.specs.TypedRead.{read_bytes};

    ghost reads = { λ value r. Reads (λ bytes. bytes.items) (read_bytes value.kind) r };

    fn decode(alloc: Global, value: &'r AnyValue) -> Result<Vec<u8>, Fault> {
        copy_of(alloc, value)
    }
}

impl<B: AnyConnectionBackend> DecodeOwned<Any<B>> for Vec<u8> {
    ghost use Rattle.sqlx_traits.specs.Reads.{Reads};
    ghost use Rattle.sqlx_any_values.specs.TypedRead.{read_bytes};

    ghost reads = { λ value r. Reads (λ bytes. bytes.items) (read_bytes value.kind) r };

    fn decode_owned(alloc: Global, value: &AnyValue) -> Result<Vec<u8>, Fault> {
        <Vec<u8> as Decode<Any<B>>>::decode(alloc, value)
    }
}
