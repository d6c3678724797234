//! Answers as texts.

use sqlx_text::{Error, OutOfMemory};
use std::alloc::Global;
use std::fmt::Debug;

/// The value that an answer has, or the text of its error.
pub fn shown<T: Debug + Drop>(
    alloc: Global,
    answer: Result<T, Error>,
) -> Result<String, OutOfMemory> {
    match answer {
        Ok(value) => {
            let text = format!(in alloc; "{value:?}");
            drop(value);
            Ok(text?)
        }
        Err(error) => refusal(alloc, error),
    }
}

/// The text, or that of the error in its place.
pub fn told(alloc: Global, answer: Result<String, Error>) -> Result<String, OutOfMemory> {
    match answer {
        Ok(text) => Ok(text),
        Err(error) => refusal(alloc, error),
    }
}

// The text of an error.
fn refusal(alloc: Global, error: Error) -> Result<String, OutOfMemory> {
    let text = format!(in alloc; "{error}");
    drop(error);
    Ok(text?)
}
