//! What answers show, as texts.

use sqlx_text::{Error, Fault, OutOfMemory};
use std::alloc::Global;
use std::fmt::Debug;

/// A way of telling a value as a text.
pub trait Tell<T> {
    /// The text.
    fn tell(alloc: Global, value: T) -> Result<String, OutOfMemory>;
}

/// As `Debug` writes it.
pub struct ByDebug;

impl<T: Debug + Drop> Tell<T> for ByDebug {
    fn tell(alloc: Global, value: T) -> Result<String, OutOfMemory> {
        let text = format!(in alloc; "{value:?}");
        drop(value);
        Ok(text?)
    }
}

/// What an answer has, told in a way, or the text of its error.
pub fn told<T, S: Tell<T>>(alloc: Global, answer: Result<T, Error>) -> Result<String, OutOfMemory> {
    match answer {
        Ok(value) => S::tell(alloc, value),
        Err(error) => refusal(alloc, error),
    }
}

/// The value that an answer has, or the text of its error.
pub fn shown<T: Debug + Drop>(
    alloc: Global,
    answer: Result<T, Error>,
) -> Result<String, OutOfMemory> {
    told::<T, ByDebug>(alloc, answer)
}

/// The text of an error.
pub fn refusal(alloc: Global, error: Error) -> Result<String, OutOfMemory> {
    let text = format!(in alloc; "{error}");
    drop(error);
    Ok(text?)
}

/// `taken`, or the text of the fault.
pub fn taken(alloc: Global, answer: Result<(), Fault>) -> Result<String, OutOfMemory> {
    match answer {
        Ok(()) => Ok("taken".to_string(alloc)?),
        Err(fault) => refused(alloc, fault),
    }
}

// The text of a fault.
fn refused(alloc: Global, fault: Fault) -> Result<String, OutOfMemory> {
    let text = format!(in alloc; "{fault}");
    drop(fault);
    Ok(text?)
}
