//! Texts, owned and borrowed.
ghost use Rattle.std.specs.Prelude.{◌≡◌, codes};

use crate::{Any, AnyArgumentBuffer, AnyConnectionBackend, AnyTypeInfo, AnyValue, AnyValueKind};
use sqlx_any_values::types::put;
use sqlx_any_values::types::text::{copy_of, text_of};
use sqlx_text::{AnyTypeInfoKind, Fault, UStr};
use sqlx_traits::{Decode, DecodeOwned, Encode, IsNull, SqlType, TypeInfo};
use std::alloc::Global;

impl<'s, B: AnyConnectionBackend> SqlType<Any<B>> for &'s str {
    ghost use Rattle.std.specs.Prelude.{codes};
    ghost use Rattle.sqlx_text.specs.declared.kind.AnyTypeInfoKind.TheVariants.{Text};

    ghost called = { codes "&str" };

    ghost own_type = { record { kind = Text } };

    ghost reads_type = { λ ty. ⟦<AnyTypeInfo as TypeInfo>⟧.accepts (record { kind = Text }) ty };

    fn name() -> &'static str
        ensures { result.now ≡ codes "&str" }
    {
        "&str"
    }

    fn type_info() -> AnyTypeInfo
        ensures { result ≡ record { kind = AnyTypeInfoKind.Text } }
    {
        AnyTypeInfo {
            kind: AnyTypeInfoKind::Text,
        }
    }

    fn compatible(ty: &AnyTypeInfo) -> bool
        ensures { result ≡ ⟦<AnyTypeInfo as TypeInfo>⟧.accepts (record { kind = AnyTypeInfoKind.Text }) ty.now }
    {
        <&str as SqlType<Any<B>>>::type_info().type_compatible(ty)
    }
}

impl<'q, B: AnyConnectionBackend> Encode<'q, Any<B>> for &str {
    ghost use Rattle.std.specs.Prelude.{◌++◌, ◌∷◌, [], None, length};
    ghost use Rattle.sqlx_any_values.specs.declared.value.AnyValueKind.TheVariants.{Text};
    ghost use Rattle.sqlx_traits.specs.Arguments.{IsWantOfMemory};
    ghost use Rattle.sqlx_traits.specs.declared.encode.IsNull.TheVariants.{No};

    ghost encoded = { λ text list. list ++ Text text.now ∷ [] };

    ghost null = { λ _. No };

    ghost refuses = { λ _. IsWantOfMemory };

    ghost produced = { λ _. None };

    ghost size = { λ text. length text.now };

    fn encode(self, alloc: Global, buf: &mut AnyArgumentBuffer) -> Result<IsNull, Fault> {
        let text = UStr::new(alloc, self)?;
        put(buf, AnyValueKind::Text(text))
    }

    fn encode_by_ref(&self, alloc: Global, buf: &mut AnyArgumentBuffer) -> Result<IsNull, Fault> {
        let text = UStr::new(alloc, *self)?;
        put(buf, AnyValueKind::Text(text))
    }

    fn produces(&self) -> Option<AnyTypeInfo> {
        None
    }

    fn size_hint(&self) -> usize {
        self.len()
    }
}

impl<'r, B: AnyConnectionBackend> Decode<'r, Any<B>> for &'r str {
    ghost use Rattle.sqlx_traits.specs.Reads.{Reads};
    ghost use Rattle.sqlx_any_values.specs.TypedRead.{read_text};

    ghost reads = { λ value r. Reads (λ text. text.now) (read_text value.kind) r };

    fn decode(_alloc: Global, value: &'r AnyValue) -> Result<&'r str, Fault> {
        text_of(value)
    }
}

impl<B: AnyConnectionBackend> SqlType<Any<B>> for String {
    ghost use Rattle.std.specs.Prelude.{codes};
    ghost use Rattle.sqlx_text.specs.declared.kind.AnyTypeInfoKind.TheVariants.{Text};

    ghost called = { codes "String" };

    ghost own_type = { record { kind = Text } };

    ghost reads_type = { λ ty. ⟦<AnyTypeInfo as TypeInfo>⟧.accepts (record { kind = Text }) ty };

    fn name() -> &'static str {
        "String"
    }

    fn type_info() -> AnyTypeInfo {
        AnyTypeInfo {
            kind: AnyTypeInfoKind::Text,
        }
    }

    fn compatible(ty: &AnyTypeInfo) -> bool {
        <String as SqlType<Any<B>>>::type_info().type_compatible(ty)
    }
}

impl<'q, B: AnyConnectionBackend> Encode<'q, Any<B>> for String {
    ghost use Rattle.std.specs.Prelude.{◌++◌, ◌∷◌, [], None, length, string_bytes};
    ghost use Rattle.sqlx_any_values.specs.declared.value.AnyValueKind.TheVariants.{Text};
    ghost use Rattle.sqlx_traits.specs.Arguments.{IsWantOfMemory};
    ghost use Rattle.sqlx_traits.specs.declared.encode.IsNull.TheVariants.{No};

    ghost encoded = { λ text list. list ++ Text (string_bytes text) ∷ [] };

    ghost null = { λ _. No };

    ghost refuses = { λ _. IsWantOfMemory };

    ghost produced = { λ _. None };

    ghost size = { λ text. length (string_bytes text) };

    fn encode(self, _alloc: Global, buf: &mut AnyArgumentBuffer) -> Result<IsNull, Fault> {
        put(buf, AnyValueKind::Text(UStr::from_string(self)))
    }

    fn encode_by_ref(&self, alloc: Global, buf: &mut AnyArgumentBuffer) -> Result<IsNull, Fault> {
        let text = UStr::new(alloc, self.as_str())?;
        put(buf, AnyValueKind::Text(text))
    }

    fn produces(&self) -> Option<AnyTypeInfo> {
        None
    }

    fn size_hint(&self) -> usize {
        self.len()
    }
}

impl<'r, B: AnyConnectionBackend> Decode<'r, Any<B>> for String {
    ghost use Rattle.std.specs.Prelude.{string_bytes};
    ghost use Rattle.sqlx_traits.specs.Reads.{Reads};
    ghost use Rattle.sqlx_any_values.specs.TypedRead.{read_text};

    ghost reads = { λ value r. Reads string_bytes (read_text value.kind) r };

    fn decode(alloc: Global, value: &'r AnyValue) -> Result<String, Fault> {
        copy_of(alloc, value)
    }
}

impl<B: AnyConnectionBackend> DecodeOwned<Any<B>> for String {
    ghost use Rattle.std.specs.Prelude.{string_bytes};
    ghost use Rattle.sqlx_traits.specs.Reads.{Reads};
    ghost use Rattle.sqlx_any_values.specs.TypedRead.{read_text};

    ghost reads = { λ value r. Reads string_bytes (read_text value.kind) r };

    fn decode_owned(alloc: Global, value: &AnyValue) -> Result<String, Fault> {
        <String as Decode<Any<B>>>::decode(alloc, value)
    }
}
