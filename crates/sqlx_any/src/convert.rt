//! Arguments that are handed on to the database behind a backend.
ghost use Rattle.std.specs.Prelude.{◌≡◌, ◌⊎◌, ◌∷◌, [], IfErr, IfOk, MatchOption, OnErr, OnOk, None, length, string_bytes};
ghost use Rattle.sqlx_text.specs.declared.fault.Fault.{Fault};
ghost use Rattle.sqlx_traits.specs.Arguments.{AddsOne, IsWantOfMemory};
ghost use Rattle.sqlx_any.specs.Converted.{Adds, AddsInOrder, Refuses, RefusesOne, Step};
ghost use Rattle.sqlx_any_values.specs.declared.value.AnyValueKind.{AnyValueKind};

use crate::{AnyArguments, AnyBlob, AnyValueKind};
use sqlx_text::{AnyTypeInfoKind, Fault, UStr};
use sqlx_traits::{Arguments, Database, Encode, SqlType};
use std::alloc::Global;
use std::collections::VecDeque;

/// A database that takes each value of `Any` as an argument: one for which the six Rust types, and options of them, are arguments. Nothing else has to be written for it.
pub trait TakesAnyValues<'a>: Database {
    /// What a value makes of the arguments behind which it is added: its Rust type decides, a null is `None`
    /// of its kind, and one of the kind `Null` an `Option<i32>`.
    ghost adds: { AnyValueKind → Step Self.ArgumentBuffer };

    /// What a value may be refused with.
    ghost refuses: { AnyValueKind → Fault → Type 0 };

    /// Adds a value as its Rust type, and a null as `None` of its kind. A refusal leaves the arguments as they were.
    fn add_value(
        alloc: Global,
        args: &mut Self::Arguments,
        value: AnyValueKind,
    ) -> Result<(), Fault>
        ensures ok { OnOk result (adds value (Self.Arguments.buffered args.old) (Self.Arguments.buffered args.new)) }
        ensures one { OnOk result (AddsOne Self.ArgumentBuffer.count Self.ArgumentBuffer.first (Self.Arguments.buffered args.old) (Self.Arguments.buffered args.new)) }
        ensures err { OnErr result (args.new ≡ args.old) }
        ensures refused { IfErr result (refuses value) };
}

impl<'a, DB: Database> TakesAnyValues<'a> for DB
where
    bool: Encode<'a, DB> + SqlType<DB>,
    i16: Encode<'a, DB> + SqlType<DB>,
    i32: Encode<'a, DB> + SqlType<DB>,
    i64: Encode<'a, DB> + SqlType<DB>,
    String: Encode<'a, DB> + SqlType<DB>,
    Vec<u8>: Encode<'a, DB> + SqlType<DB>,
    Option<bool>: Encode<'a, DB>,
    Option<i16>: Encode<'a, DB>,
    Option<i32>: Encode<'a, DB>,
    Option<i64>: Encode<'a, DB>,
    Option<String>: Encode<'a, DB>,
    Option<Vec<u8>>: Encode<'a, DB>,
{
    ghost use Rattle.std.specs.Prelude.{None, string_bytes};
    ghost use Rattle.sqlx_any.specs.Converted.{Adds, AddsValue, Refuses, RefusesValue, by_kind};

    ghost adds = { AddsValue (record {
      a_bool = ⟦<bool as Encode<'a, DB>>⟧.encoded;
      an_i16 = ⟦<i16 as Encode<'a, DB>>⟧.encoded;
      an_i32 = ⟦<i32 as Encode<'a, DB>>⟧.encoded;
      an_i64 = ⟦<i64 as Encode<'a, DB>>⟧.encoded;
      a_text = Adds string_bytes ⟦<String as Encode<'a, DB>>⟧.encoded;
      bytes = Adds (λ bytes. bytes.items) ⟦<Vec<u8> as Encode<'a, DB>>⟧.encoded;
      none = by_kind (⟦<Option<bool> as Encode<'a, DB>>⟧.encoded None) (⟦<Option<i16> as Encode<'a, DB>>⟧.encoded None) (⟦<Option<i32> as Encode<'a, DB>>⟧.encoded None) (⟦<Option<i64> as Encode<'a, DB>>⟧.encoded None) (⟦<Option<String> as Encode<'a, DB>>⟧.encoded None) (⟦<Option<Vec<u8>> as Encode<'a, DB>>⟧.encoded None);
    }) };

    ghost refuses = { RefusesValue (record {
      a_bool = ⟦<bool as Encode<'a, DB>>⟧.refuses;
      an_i16 = ⟦<i16 as Encode<'a, DB>>⟧.refuses;
      an_i32 = ⟦<i32 as Encode<'a, DB>>⟧.refuses;
      an_i64 = ⟦<i64 as Encode<'a, DB>>⟧.refuses;
      a_text = Refuses string_bytes ⟦<String as Encode<'a, DB>>⟧.refuses;
      bytes = Refuses (λ bytes. bytes.items) ⟦<Vec<u8> as Encode<'a, DB>>⟧.refuses;
      none = by_kind (⟦<Option<bool> as Encode<'a, DB>>⟧.refuses None) (⟦<Option<i16> as Encode<'a, DB>>⟧.refuses None) (⟦<Option<i32> as Encode<'a, DB>>⟧.refuses None) (⟦<Option<i64> as Encode<'a, DB>>⟧.refuses None) (⟦<Option<String> as Encode<'a, DB>>⟧.refuses None) (⟦<Option<Vec<u8>> as Encode<'a, DB>>⟧.refuses None);
    }) };

    fn add_value(
        alloc: Global,
        args: &mut DB::Arguments,
        value: AnyValueKind,
    ) -> Result<(), Fault> {
        match value {
            AnyValueKind::Null(kind) => match kind {
                AnyTypeInfoKind::Null => add_none::<DB, i32>(alloc, args),
                AnyTypeInfoKind::Bool => add_none::<DB, bool>(alloc, args),
                AnyTypeInfoKind::SmallInt => add_none::<DB, i16>(alloc, args),
                AnyTypeInfoKind::Integer => add_none::<DB, i32>(alloc, args),
                AnyTypeInfoKind::BigInt => add_none::<DB, i64>(alloc, args),
                AnyTypeInfoKind::Text => add_none::<DB, String>(alloc, args),
                AnyTypeInfoKind::Blob => add_none::<DB, Vec<u8>>(alloc, args),
            },
            AnyValueKind::Bool(b) => args.add(alloc, b),
            AnyValueKind::SmallInt(n) => args.add(alloc, n),
            AnyValueKind::Integer(n) => args.add(alloc, n),
            AnyValueKind::BigInt(n) => args.add(alloc, n),
            AnyValueKind::Text(text) => add_text::<DB>(alloc, args, text),
            AnyValueKind::TextSlice(text) => add_text::<DB>(alloc, args, text),
            AnyValueKind::Blob(blob) => add_bytes::<DB>(alloc, args, blob),
        }
    }
}

impl AnyArguments {
    /// The same arguments for another database, in their order: each value as its Rust type, a null as
    /// `None` of its kind, and one of the kind `Null` as an `Option<i32>`. An error is that database's refusal.
    pub fn convert_into<'a, DB: TakesAnyValues<'a>>(
        self,
        alloc: Global,
    ) -> Result<DB::Arguments, Fault>
        ensures ok { IfOk result (λ args. (none : DB.ArgumentBuffer) × (DB.ArgumentBuffer.count none ≡ 0) × AddsInOrder DB.adds self.values none (DB.Arguments.buffered args)) }
        ensures count { IfOk result (λ args. DB.ArgumentBuffer.count (DB.Arguments.buffered args) ≡ length self.values) }
        ensures refused { IfErr result (RefusesOne DB.refuses self.values) }
    {
        let mut values = VecDeque::from_vec(self.values.into_values());
        let mut args = DB::Arguments::new(alloc);
        while let Some(value) = next_of(&mut values) {
            if let Err(fault) = DB::add_value(alloc, &mut args, value) {
                drop(values);
                drop(args);
                return Err(fault);
            }
        }
        Ok(args)
    }
}

// Takes the first of the values.
fn next_of(values: &mut VecDeque<AnyValueKind>) -> Option<AnyValueKind>
    ensures { MatchOption result ((values.old.items ≡ []) × (values.new.items ≡ [])) (λ value. values.old.items ≡ value ∷ values.new.items) }
{
    values.pop_front()
}

// Adds `None`.
fn add_none<'a, DB: Database, T: SqlType<DB>>(
    alloc: Global,
    args: &mut DB::Arguments,
) -> Result<(), Fault>
where
    Option<T>: Encode<'a, DB>,
    ensures ok { OnOk result (DB.Arguments.buffered args.new ≡ ⟦<Option<T> as Encode<'a, DB>>⟧.encoded None (DB.Arguments.buffered args.old)) }
    ensures one { OnOk result (AddsOne DB.ArgumentBuffer.count DB.ArgumentBuffer.first (DB.Arguments.buffered args.old) (DB.Arguments.buffered args.new)) }
    ensures err { OnErr result (args.new ≡ args.old) }
    ensures refused { IfErr result (⟦<Option<T> as Encode<'a, DB>>⟧.refuses None) }
{
    let none: Option<T> = None;
    args.add(alloc, none)
}

// Adds a text.
fn add_text<'a, DB: Database>(
    alloc: Global,
    args: &mut DB::Arguments,
    text: UStr,
) -> Result<(), Fault>
where
    String: Encode<'a, DB> + SqlType<DB>,
    ensures ok { OnOk result (Adds string_bytes ⟦<String as Encode<'a, DB>>⟧.encoded text (DB.Arguments.buffered args.old) (DB.Arguments.buffered args.new)) }
    ensures one { OnOk result (AddsOne DB.ArgumentBuffer.count DB.ArgumentBuffer.first (DB.Arguments.buffered args.old) (DB.Arguments.buffered args.new)) }
    ensures err { OnErr result (args.new ≡ args.old) }
    ensures refused { IfErr result (λ fault. Refuses string_bytes ⟦<String as Encode<'a, DB>>⟧.refuses text fault ⊎ IsWantOfMemory fault) }
{
    match text.as_str().to_string(alloc) {
        Ok(text) => args.add(alloc, text),
        Err(_) => Err(Fault::OutOfMemory),
    }
}

// Adds bytes.
fn add_bytes<'a, DB: Database>(
    alloc: Global,
    args: &mut DB::Arguments,
    blob: AnyBlob,
) -> Result<(), Fault>
where
    Vec<u8>: Encode<'a, DB> + SqlType<DB>,
    ensures ok { OnOk result (Adds (λ bytes. bytes.items) ⟦<Vec<u8> as Encode<'a, DB>>⟧.encoded blob (DB.Arguments.buffered args.old) (DB.Arguments.buffered args.new)) }
    ensures one { OnOk result (AddsOne DB.ArgumentBuffer.count DB.ArgumentBuffer.first (DB.Arguments.buffered args.old) (DB.Arguments.buffered args.new)) }
    ensures err { OnErr result (args.new ≡ args.old) }
    ensures refused { IfErr result (Refuses (λ bytes. bytes.items) ⟦<Vec<u8> as Encode<'a, DB>>⟧.refuses blob) }
{
    args.add(alloc, blob.into_vec())
}
