//! What the database takes as arguments, and the types of the Rust types. It refuses truth values, but not their nulls.
ghost use Rattle.std.specs.Prelude.{◌≡◌, ◌++◌, ◌∷◌, [], IfErr, IfOk, None, OnErr, OnOk, Some, codes, length, string_bytes, take};
ghost use Rattle.sqlx_text.specs.declared.fault.Fault.TheVariants as faults;
ghost use Rattle.sqlx_text.specs.declared.kind.AnyTypeInfoKind.TheVariants as kinds;
ghost use Rattle.sqlx_traits.specs.Arguments.{AddsOne, IsWantOfMemory};
ghost use Rattle.sqlx_traits.specs.declared.encode.IsNull.TheVariants.{No, Yes};
ghost use Rattle.tests_database.specs.declared.value.Held.TheVariants as holds;
ghost use Rattle.tests_database.specs.Values.{null_of, of_kind};

use crate::{Bytes, Held, Toy, ToyArgumentList, ToyType, ToyValue};
use sqlx_text::{AnyTypeInfoKind, Fault, OutOfMemory, UStr};
use sqlx_traits::*;
use std::alloc::Global;

// Adds a value that isn't null.
fn put(list: &mut ToyArgumentList, kind: AnyTypeInfoKind, held: Held) -> Result<IsNull, Fault>
    ensures ok { OnOk result (list.new ≡ list.old ++ of_kind kind held ∷ []) }
    ensures one { OnOk result (AddsOne length take list.old list.new) }
    ensures told { IfOk result (λ told. told ≡ IsNull.No) }
    ensures err { OnErr result (list.new ≡ list.old) }
    ensures refused { IfErr result (λ fault. IsWantOfMemory fault) }
{
    let kind = Some(kind);
    match list.put(ToyValue { kind, held }) {
        Ok(()) => Ok(IsNull::No),
        Err(fault) => Err(fault),
    }
}

// Adds a null of the type that has the kind.
fn put_null(list: &mut ToyArgumentList, kind: Option<AnyTypeInfoKind>) -> Result<IsNull, Fault>
    ensures ok { OnOk result (list.new ≡ list.old ++ null_of kind ∷ []) }
    ensures one { OnOk result (AddsOne length take list.old list.new) }
    ensures told { IfOk result (λ told. told ≡ IsNull.Yes) }
    ensures err { OnErr result (list.new ≡ list.old) }
    ensures refused { IfErr result (λ fault. IsWantOfMemory fault) }
{
    let held = Held::Nothing;
    match list.put(ToyValue { kind, held }) {
        Ok(()) => Ok(IsNull::Yes),
        Err(fault) => Err(fault),
    }
}

/// A copy of bytes.
pub(crate) fn copied(alloc: Global, bytes: &[u8]) -> Result<Vec<u8>, OutOfMemory>
    ensures { IfOk result (λ copy. copy.items ≡ bytes.now) }
{
    Ok(Vec::from_slice(alloc, bytes)?)
}

impl<'q> Encode<'q, Toy> for bool {
    ghost encoded = { λ _ list. list };

    ghost null = { λ _. No };

    ghost refuses = { λ _ fault. fault ≡ faults.OutOfRange };

    ghost produced = { λ _. None };

    ghost size = { λ _. 8 };

    fn encode(self, _alloc: Global, _list: &mut ToyArgumentList) -> Result<IsNull, Fault> {
        Err(Fault::OutOfRange)
    }

    fn encode_by_ref(&self, _alloc: Global, _list: &mut ToyArgumentList) -> Result<IsNull, Fault> {
        Err(Fault::OutOfRange)
    }

    fn produces(&self) -> Option<ToyType> {
        None
    }

    fn size_hint(&self) -> usize {
        8
    }
}

impl SqlType<Toy> for bool {
    ghost called = { codes "bool" };

    ghost own_type = { record { kind = Some kinds.Bool } };

    ghost reads_type = { λ ty. ⟦<ToyType as TypeInfo>⟧.accepts (record { kind = Some kinds.Bool }) ty };

    fn name() -> &'static str {
        "bool"
    }

    fn type_info() -> ToyType {
        ToyType::of(AnyTypeInfoKind::Bool)
    }

    fn compatible(ty: &ToyType) -> bool {
        ToyType::of(AnyTypeInfoKind::Bool).type_compatible(ty)
    }
}

impl<'q> Encode<'q, Toy> for i16 {
    ghost encoded = { λ x list. list ++ of_kind kinds.SmallInt (holds.Whole x) ∷ [] };

    ghost null = { λ _. No };

    ghost refuses = { λ _. IsWantOfMemory };

    ghost produced = { λ _. None };

    ghost size = { λ _. 8 };

    fn encode(self, alloc: Global, list: &mut ToyArgumentList) -> Result<IsNull, Fault> {
        self.encode_by_ref(alloc, list)
    }

    fn encode_by_ref(&self, _alloc: Global, list: &mut ToyArgumentList) -> Result<IsNull, Fault> {
        put(
            list,
            AnyTypeInfoKind::SmallInt,
            Held::Whole(i64::from(*self)),
        )
    }

    fn produces(&self) -> Option<ToyType> {
        None
    }

    fn size_hint(&self) -> usize {
        8
    }
}

impl SqlType<Toy> for i16 {
    ghost called = { codes "i16" };

    ghost own_type = { record { kind = Some kinds.SmallInt } };

    ghost reads_type = { λ ty. ⟦<ToyType as TypeInfo>⟧.accepts (record { kind = Some kinds.SmallInt }) ty };

    fn name() -> &'static str {
        "i16"
    }

    fn type_info() -> ToyType {
        ToyType::of(AnyTypeInfoKind::SmallInt)
    }

    fn compatible(ty: &ToyType) -> bool {
        ToyType::of(AnyTypeInfoKind::SmallInt).type_compatible(ty)
    }
}

impl<'q> Encode<'q, Toy> for i32 {
    ghost encoded = { λ x list. list ++ of_kind kinds.Integer (holds.Whole x) ∷ [] };

    ghost null = { λ _. No };

    ghost refuses = { λ _. IsWantOfMemory };

    ghost produced = { λ _. None };

    ghost size = { λ _. 8 };

    fn encode(self, alloc: Global, list: &mut ToyArgumentList) -> Result<IsNull, Fault> {
        self.encode_by_ref(alloc, list)
    }

    fn encode_by_ref(&self, _alloc: Global, list: &mut ToyArgumentList) -> Result<IsNull, Fault> {
        put(
            list,
            AnyTypeInfoKind::Integer,
            Held::Whole(i64::from(*self)),
        )
    }

    fn produces(&self) -> Option<ToyType> {
        None
    }

    fn size_hint(&self) -> usize {
        8
    }
}

impl SqlType<Toy> for i32 {
    ghost called = { codes "i32" };

    ghost own_type = { record { kind = Some kinds.Integer } };

    ghost reads_type = { λ ty. ⟦<ToyType as TypeInfo>⟧.accepts (record { kind = Some kinds.Integer }) ty };

    fn name() -> &'static str {
        "i32"
    }

    fn type_info() -> ToyType {
        ToyType::of(AnyTypeInfoKind::Integer)
    }

    fn compatible(ty: &ToyType) -> bool {
        ToyType::of(AnyTypeInfoKind::Integer).type_compatible(ty)
    }
}

impl<'q> Encode<'q, Toy> for i64 {
    ghost encoded = { λ x list. list ++ of_kind kinds.BigInt (holds.Whole x) ∷ [] };

    ghost null = { λ _. No };

    ghost refuses = { λ _. IsWantOfMemory };

    ghost produced = { λ _. None };

    ghost size = { λ _. 8 };

    fn encode(self, alloc: Global, list: &mut ToyArgumentList) -> Result<IsNull, Fault> {
        self.encode_by_ref(alloc, list)
    }

    fn encode_by_ref(&self, _alloc: Global, list: &mut ToyArgumentList) -> Result<IsNull, Fault> {
        put(list, AnyTypeInfoKind::BigInt, Held::Whole(*self))
    }

    fn produces(&self) -> Option<ToyType> {
        None
    }

    fn size_hint(&self) -> usize {
        8
    }
}

impl SqlType<Toy> for i64 {
    ghost called = { codes "i64" };

    ghost own_type = { record { kind = Some kinds.BigInt } };

    ghost reads_type = { λ ty. ⟦<ToyType as TypeInfo>⟧.accepts (record { kind = Some kinds.BigInt }) ty };

    fn name() -> &'static str {
        "i64"
    }

    fn type_info() -> ToyType {
        ToyType::of(AnyTypeInfoKind::BigInt)
    }

    fn compatible(ty: &ToyType) -> bool {
        ToyType::of(AnyTypeInfoKind::BigInt).type_compatible(ty)
    }
}

impl<'q> Encode<'q, Toy> for &str {
    ghost encoded = { λ x list. list ++ of_kind kinds.Text (holds.Text x.now) ∷ [] };

    ghost null = { λ _. No };

    ghost refuses = { λ _. IsWantOfMemory };

    ghost produced = { λ _. None };

    ghost size = { λ _. 8 };

    fn encode(self, alloc: Global, list: &mut ToyArgumentList) -> Result<IsNull, Fault> {
        self.encode_by_ref(alloc, list)
    }

    fn encode_by_ref(&self, alloc: Global, list: &mut ToyArgumentList) -> Result<IsNull, Fault> {
        put(
            list,
            AnyTypeInfoKind::Text,
            Held::Text(UStr::new(alloc, *self)?),
        )
    }

    fn produces(&self) -> Option<ToyType> {
        None
    }

    fn size_hint(&self) -> usize {
        8
    }
}

impl<'s> SqlType<Toy> for &'s str {
    ghost called = { codes "&str" };

    ghost own_type = { record { kind = Some kinds.Text } };

    ghost reads_type = { λ ty. ⟦<ToyType as TypeInfo>⟧.accepts (record { kind = Some kinds.Text }) ty };

    fn name() -> &'static str
        ensures { result.now ≡ codes "&str" }
    {
        "&str"
    }

    fn type_info() -> ToyType
        ensures { result ≡ record { kind = Some AnyTypeInfoKind.Text } }
    {
        ToyType::of(AnyTypeInfoKind::Text)
    }

    fn compatible(ty: &ToyType) -> bool
        ensures { result ≡ ⟦<ToyType as TypeInfo>⟧.accepts (record { kind = Some AnyTypeInfoKind.Text }) ty.now }
    {
        ToyType::of(AnyTypeInfoKind::Text).type_compatible(ty)
    }
}

impl<'q> Encode<'q, Toy> for String {
    ghost encoded = { λ x list. list ++ of_kind kinds.Text (holds.Text (string_bytes x)) ∷ [] };

    ghost null = { λ _. No };

    ghost refuses = { λ _. IsWantOfMemory };

    ghost produced = { λ _. None };

    ghost size = { λ _. 8 };

    fn encode(self, _alloc: Global, list: &mut ToyArgumentList) -> Result<IsNull, Fault> {
        put(
            list,
            AnyTypeInfoKind::Text,
            Held::Text(UStr::from_string(self)),
        )
    }

    fn encode_by_ref(&self, alloc: Global, list: &mut ToyArgumentList) -> Result<IsNull, Fault> {
        put(
            list,
            AnyTypeInfoKind::Text,
            Held::Text(UStr::new(alloc, self.as_str())?),
        )
    }

    fn produces(&self) -> Option<ToyType> {
        None
    }

    fn size_hint(&self) -> usize {
        8
    }
}

impl SqlType<Toy> for String {
    ghost called = { codes "String" };

    ghost own_type = { record { kind = Some kinds.Text } };

    ghost reads_type = { λ ty. ⟦<ToyType as TypeInfo>⟧.accepts (record { kind = Some kinds.Text }) ty };

    fn name() -> &'static str {
        "String"
    }

    fn type_info() -> ToyType {
        ToyType::of(AnyTypeInfoKind::Text)
    }

    fn compatible(ty: &ToyType) -> bool {
        ToyType::of(AnyTypeInfoKind::Text).type_compatible(ty)
    }
}

impl<'q> Encode<'q, Toy> for Vec<u8> {
    ghost encoded = { λ x list. list ++ of_kind kinds.Blob (holds.Bytes x.items) ∷ [] };

    ghost null = { λ _. No };

    ghost refuses = { λ _. IsWantOfMemory };

    ghost produced = { λ _. None };

    ghost size = { λ _. 8 };

    fn encode(self, _alloc: Global, list: &mut ToyArgumentList) -> Result<IsNull, Fault> {
        put(
            list,
            AnyTypeInfoKind::Blob,
            Held::Bytes(Bytes::from_vec(self)),
        )
    }

    fn encode_by_ref(&self, alloc: Global, list: &mut ToyArgumentList) -> Result<IsNull, Fault> {
        put(
            list,
            AnyTypeInfoKind::Blob,
            Held::Bytes(Bytes::from_vec(copied(alloc, self.as_slice())?)),
        )
    }

    fn produces(&self) -> Option<ToyType> {
        None
    }

    fn size_hint(&self) -> usize {
        8
    }
}

impl SqlType<Toy> for Vec<u8> {
    ghost called = { codes "Vec<u8>" };

    ghost own_type = { record { kind = Some kinds.Blob } };

    ghost reads_type = { λ ty. ⟦<ToyType as TypeInfo>⟧.accepts (record { kind = Some kinds.Blob }) ty };

    fn name() -> &'static str {
        "Vec<u8>"
    }

    fn type_info() -> ToyType {
        ToyType::of(AnyTypeInfoKind::Blob)
    }

    fn compatible(ty: &ToyType) -> bool {
        ToyType::of(AnyTypeInfoKind::Blob).type_compatible(ty)
    }
}

impl<'q, T: Encode<'q, Toy> + SqlType<Toy>> Encode<'q, Toy> for Option<T> {
    ghost encoded = { λ x list. elim x [ None ↦ list ++ null_of T.own_type.kind ∷ [] | Some y ↦ T.encoded y list ] };

    ghost null = { λ x. elim x [ None ↦ Yes | Some y ↦ T.null y ] };

    ghost refuses = { λ x fault. elim x [ None ↦ IsWantOfMemory fault | Some y ↦ T.refuses y fault ] };

    ghost produced = { λ _. None };

    ghost size = { λ _. 8 };

    fn encode(self, alloc: Global, list: &mut ToyArgumentList) -> Result<IsNull, Fault> {
        match self {
            Some(value) => value.encode(alloc, list),
            None => put_null(list, T::type_info().kind),
        }
    }

    fn encode_by_ref(&self, alloc: Global, list: &mut ToyArgumentList) -> Result<IsNull, Fault> {
        match self {
            Some(value) => value.encode_by_ref(alloc, list),
            None => put_null(list, T::type_info().kind),
        }
    }

    fn produces(&self) -> Option<ToyType> {
        None
    }

    fn size_hint(&self) -> usize {
        8
    }
}
