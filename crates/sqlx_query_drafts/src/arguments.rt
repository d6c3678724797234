//! The arguments of a query: values that are bound one after another, and what the driver takes.
ghost use Rattle.std.specs.Prelude.{◌≡◌, ◌++◌, IfOk, List, codes, decimal, string_bytes, ℕ};
ghost use Rattle.sqlx_query_drafts.specs.Binding.{AddsOrFails, Binds, IsUnencoded, fault_after_a_fault};
ghost use Rattle.sqlx_query_drafts.specs.Query.{turned};

use sqlx_text::{Fault, OutOfMemory, UStr};
use sqlx_traits::{ArgumentList, Arguments, Database, Encode, IntoArguments, SqlType};
use std::alloc::Global;

/// The fault of a value that comes after one that couldn't be bound.
pub fn after_a_fault() -> Fault
    ensures { result ≡ fault_after_a_fault }
{
    Fault::Text(UStr::from_static("A previous call to Query::bind produced an error"))
}

/// The arguments with a value, or why it can't be encoded.
pub fn bound<'t, DB: Database, T: Encode<'t, DB> + SqlType<DB> + Drop>(
    alloc: Global,
    arguments: Result<Option<DB::Arguments>, Fault>,
    value: T,
) -> Result<Option<DB::Arguments>, Fault>
    ensures { Binds DB.ArgumentBuffer.count DB.ArgumentBuffer.first DB.Arguments.buffered (T.encoded value) (T.refuses value) arguments result }
{
    match arguments {
        Ok(Some(arguments)) => added::<DB, T>(alloc, arguments, value),
        other => other,
    }
}

// The same, of arguments that are there.
fn added<'t, DB: Database, T: Encode<'t, DB> + SqlType<DB>>(
    alloc: Global,
    arguments: DB::Arguments,
    value: T,
) -> Result<Option<DB::Arguments>, Fault>
    ensures { AddsOrFails DB.ArgumentBuffer.count DB.ArgumentBuffer.first DB.Arguments.buffered (T.encoded value) (T.refuses value) arguments result }
{
    let mut arguments = arguments;
    let number = arguments.len() as u128 + 1;
    match arguments.add(alloc, value) {
        Ok(()) => Ok(Some(arguments)),
        Err(fault) => {
            drop(arguments);
            Err(unencoded(alloc, number, fault))
        }
    }
}

// The fault of an argument that can't be encoded, with its number.
fn unencoded(alloc: Global, number: u128, fault: Fault) -> Fault
    ensures { IsUnencoded (λ why. why ≡ fault) number result }
{
    match fault {
        Fault::OutOfMemory => Fault::OutOfMemory,
        fault => {
            let text = numbered(alloc, number, &fault);
            drop(fault);
            match text {
                Ok(text) => Fault::Text(UStr::from_string(text)),
                Err(failed) => Fault::from(failed),
            }
        }
    }
}

fn numbered(alloc: Global, number: u128, fault: &Fault) -> Result<String, OutOfMemory>
    ensures { IfOk result (λ text. (words : List ℕ) × (string_bytes text ≡ codes "Encoding argument $" ++ decimal number ++ codes " failed: " ++ words)) }
{
    let mut text = format!(in alloc; "Encoding argument ${number} failed: ")?;
    let words = fault.to_string(alloc)?;
    text.push_str(words.as_str())?;
    Ok(text)
}

/// The arguments as the driver takes them, or why they can't be had.
pub fn turn<DB: Database, A: IntoArguments<DB>>(
    arguments: Result<Option<A>, Fault>,
) -> Result<Option<DB::Arguments>, Fault>
    ensures { result ≡ turned A.becomes arguments }
{
    match arguments {
        Ok(Some(arguments)) => Ok(Some(arguments.into_arguments())),
        Ok(None) => Ok(None),
        Err(fault) => Err(fault),
    }
}
