//! What names a column of a row or of a statement: a position, or a name.
ghost use Rattle.std.specs.Prelude.{◌≡◌, ℕ, IfOk, List, Ok, Result, decimal};
ghost use Rattle.sqlx_text.specs.declared.error.Error.{Error};
ghost use Rattle.sqlx_traits.specs.Places.{at_place, in_quotes, place_of_name, place_of_position};
ghost use Rattle.sqlx_traits.specs.Reads.{Answers};

use sqlx_text::{Error, OutOfMemory, UStr};
use std::alloc::Global;

/// What names a column of an `R`.
pub trait ColumnIndex<R> {
    /// The position of the column, or why there is none.
    ghost place: { Self → R → Result ℕ Error };

    /// How an error calls it.
    ghost shown: { Self → List ℕ };

    /// The position of the column, or why there is none.
    fn index(&self, alloc: Global, container: &R) -> Result<usize, Error>
        ensures { Answers (λ at. at) Error.OutOfMemory (place self.now container.now) result };

    /// How an error calls it: a position in decimal, a name in double quotes.
    fn label(&self, alloc: Global) -> Result<UStr, OutOfMemory>
        ensures { IfOk result (λ label. label ≡ shown self.now) };
}

impl<R, I: ColumnIndex<R>> ColumnIndex<R> for &I {
    ghost place = { λ index container. I.place index.now container };

    ghost shown = { λ index. I.shown index.now };

    fn index(&self, alloc: Global, container: &R) -> Result<usize, Error> {
        I::index(*self, alloc, container)
    }

    fn label(&self, alloc: Global) -> Result<UStr, OutOfMemory> {
        I::label(*self, alloc)
    }
}

/// The position itself, and `ColumnIndexOutOfBounds` exactly where it isn't below the length.
pub fn index_of_position(index: usize, len: usize) -> Result<usize, Error>
    ensures { result ≡ place_of_position index len }
{
    if index < len {
        Ok(index)
    } else {
        Err(Error::ColumnIndexOutOfBounds { index, len })
    }
}

/// The item at a position, and `ColumnIndexOutOfBounds` exactly where there is none.
pub fn item_at<T>(items: &[T], index: usize) -> Result<&T, Error>
    ensures { Answers (λ item. item.now) Error.OutOfMemory (at_place items.now (Ok index)) result }
{
    match items.get(index) {
        Some(item) => Ok(item),
        None => Err(Error::ColumnIndexOutOfBounds {
            index,
            len: items.len(),
        }),
    }
}

/// The position of a name, and `ColumnNotFound` exactly where it has none.
pub fn index_of_name(alloc: Global, position: Option<usize>, name: &str) -> Result<usize, Error>
    ensures { Answers (λ at. at) Error.OutOfMemory (place_of_name position name.now) result }
{
    match position {
        Some(at) => Ok(at),
        None => match UStr::new(alloc, name) {
            Ok(name) => Err(Error::ColumnNotFound(name)),
            Err(_) => Err(Error::OutOfMemory),
        },
    }
}

/// How an error calls a position: in decimal.
pub fn label_of_position(alloc: Global, index: usize) -> Result<UStr, OutOfMemory>
    ensures { IfOk result (λ label. label ≡ decimal index) }
{
    match index.to_string(alloc) {
        Ok(text) => Ok(UStr::from_string(text)),
        Err(_) => Err(OutOfMemory),
    }
}

/// How an error calls a name: in double quotes.
pub fn label_of_name(alloc: Global, name: &str) -> Result<UStr, OutOfMemory>
    ensures { IfOk result (λ label. label ≡ in_quotes name.now) }
{
    match format!(in alloc; "\"{name}\"") {
        Ok(text) => Ok(UStr::from_string(text)),
        Err(_) => Err(OutOfMemory),
    }
}
