//! What the Rust types have in common as arguments and as reads of values: truth values, whole numbers, texts, bytes, and
//! each of them as an option.
ghost use Rattle.std.specs.Prelude.{◌≡◌, ◌++◌, ◌∷◌, [], IfErr, IfOk, MatchOption, OnErr, OnOk, false, length, not, take, true};
ghost use Rattle.sqlx_text.specs.Kind.{kind_name};
ghost use Rattle.sqlx_traits.specs.Arguments.{AddsOne, IsWantOfMemory};
ghost use Rattle.sqlx_traits.specs.Reads.{told};
ghost use Rattle.sqlx_any_values.specs.Kinds.{kind_of, with_null};
ghost use Rattle.sqlx_any_values.specs.TypedRead.{may_read};

pub mod bool;
pub mod bytes;
pub mod int;
pub mod option;
pub mod text;

use crate::{AnyArgumentBuffer, AnyValue, AnyValueKind};
use sqlx_text::{AnyTypeInfoKind, Fault, UStr};
use sqlx_traits::IsNull;

/// Adds a value that isn't null.
pub fn put(buf: &mut AnyArgumentBuffer, value: AnyValueKind) -> Result<IsNull, Fault>
    ensures ok { OnOk result (buf.new ≡ buf.old ++ value ∷ []) }
    ensures one { OnOk result (AddsOne length take buf.old buf.new) }
    ensures err { OnErr result (buf.new ≡ buf.old) }
    ensures told { IfOk result (λ told. told ≡ IsNull.No) }
    ensures refused { IfErr result (λ fault. IsWantOfMemory fault) }
{
    match buf.push(value) {
        Ok(()) => Ok(IsNull::No),
        Err(_) => Err(Fault::OutOfMemory),
    }
}

/// Adds a null of the kind.
pub fn put_null(buf: &mut AnyArgumentBuffer, kind: AnyTypeInfoKind) -> Result<IsNull, Fault>
    ensures ok { OnOk result (buf.new ≡ with_null kind buf.old) }
    ensures one { OnOk result (AddsOne length take buf.old buf.new) }
    ensures err { OnErr result (buf.new ≡ buf.old) }
    ensures told { IfOk result (λ told. told ≡ IsNull.Yes) }
    ensures refused { IfErr result (λ fault. IsWantOfMemory fault) }
{
    match buf.push(AnyValueKind::Null(kind)) {
        Ok(()) => Ok(IsNull::Yes),
        Err(_) => Err(Fault::OutOfMemory),
    }
}

// Why a read refuses a value by its kind, if it does. A null fits each type, and one that isn't an option refuses it when it reads.
fn misfit(
    rust: &'static str,
    own: AnyTypeInfoKind,
    takes: bool,
    checked: bool,
    in_row: bool,
    kind: AnyTypeInfoKind,
) -> Option<Fault>
    ensures { MatchOption result (may_read checked takes kind ≡ true)
        (λ fault. (may_read checked takes kind ≡ false) × (fault ≡ Fault.Mismatched rust.now (told (not in_row) (kind_name own)) (kind_name kind))) }
{
    let fits = matches!(kind, AnyTypeInfoKind::Null) || takes;
    if !checked || fits {
        return None;
    }
    let own = if in_row {
        None
    } else {
        Some(UStr::from_static(own.name()))
    };
    Some(Fault::Mismatched {
        rust: UStr::from_static(rust),
        sql_of_rust: own,
        sql: UStr::from_static(kind.name()),
    })
}

// The refusal of a value whose kind the type doesn't read.
fn unexpected(own: AnyTypeInfoKind, value: &AnyValue) -> Fault
    ensures { result ≡ Fault.Unexpected own (kind_of value.now.kind) }
{
    Fault::Unexpected {
        expected: own,
        got: value.kind.kind(),
    }
}
