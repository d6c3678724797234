//! Rows and values of `Any`, by their parts.

use sqlx_any::*;
use sqlx_text::{AnyTypeInfoKind, Error, OutOfMemory, UStr};
use std::alloc::Global;
use std::fmt::Display;

/// A text.
pub fn text(text: &'static str) -> AnyValueKind {
    AnyValueKind::Text(UStr::from_static(text))
}

/// A text that is a slice.
pub fn slice(text: &'static str) -> AnyValueKind {
    AnyValueKind::TextSlice(UStr::from_static(text))
}

/// A text that is owned.
pub fn owned(alloc: Global) -> Result<String, OutOfMemory> {
    Ok("x".to_string(alloc)?)
}

/// Two bytes.
pub fn bytes(alloc: Global) -> Result<Vec<u8>, OutOfMemory> {
    Ok(Vec::from_slice(alloc, &[1, 2])?)
}

/// A value of two bytes.
pub fn blob(alloc: Global) -> Result<AnyValueKind, OutOfMemory> {
    Ok(AnyValueKind::Blob(AnyBlob::from_vec(bytes(alloc)?)))
}

/// A row of one value, in a column named `what`.
pub fn single(alloc: Global, value: AnyValueKind) -> Result<AnyRow, Error> {
    row(alloc, "what", value)
}

/// A row of one value, in a column of this name.
pub fn row(alloc: Global, name: &'static str, value: AnyValueKind) -> Result<AnyRow, Error> {
    let mut values = Vec::new(alloc);
    keep(&mut values, value)?;
    row_of(alloc, &[name], values)
}

/// A row of the whole numbers 5 and 7, in columns named `x` and `y`.
pub fn pair(alloc: Global) -> Result<AnyRow, Error> {
    let mut values = Vec::new(alloc);
    keep(&mut values, AnyValueKind::BigInt(5))?;
    keep(&mut values, AnyValueKind::BigInt(7))?;
    row_of(alloc, &["x", "y"], values)
}

/// A row of these values, in columns of these names and of the values' kinds.
pub fn row_of(
    alloc: Global,
    names: &[&'static str],
    kinds: Vec<AnyValueKind>,
) -> Result<AnyRow, Error> {
    let mut positions = ColumnNames::new(alloc);
    let mut columns = Vec::new(alloc);
    let mut values = Vec::new(alloc);
    for kind in kinds {
        let name = names.get(values.len()).copied().unwrap_or("");
        positions.insert(alloc, UStr::from_static(name), values.len())?;
        put(&mut columns, &mut values, name, kind)?;
    }
    AnyRow::new(positions, columns, values)
}

// Puts a column and its value behind those that are there.
fn put(
    columns: &mut Vec<AnyColumn>,
    values: &mut Vec<AnyValue>,
    name: &'static str,
    kind: AnyValueKind,
) -> Result<(), OutOfMemory> {
    let ordinal = columns.len();
    keep(columns, column(ordinal, name, kind.kind()))?;
    keep(values, AnyValue { kind })
}

/// A column.
pub fn column(ordinal: usize, name: &'static str, kind: AnyTypeInfoKind) -> AnyColumn {
    AnyColumn {
        ordinal,
        name: UStr::from_static(name),
        type_info: AnyTypeInfo { kind },
    }
}

/// Puts an item behind those of a list.
pub fn keep<T: Drop>(list: &mut Vec<T>, item: T) -> Result<(), OutOfMemory> {
    Ok(list.push(item)?)
}

/// A value, after the name of its variant.
pub fn described(alloc: Global, value: &AnyValueKind) -> Result<String, OutOfMemory> {
    match value {
        AnyValueKind::Null(kind) => named(alloc, "Null", kind),
        AnyValueKind::Bool(b) => named(alloc, "Bool", b),
        AnyValueKind::SmallInt(n) => named(alloc, "SmallInt", n),
        AnyValueKind::Integer(n) => named(alloc, "Integer", n),
        AnyValueKind::BigInt(n) => named(alloc, "BigInt", n),
        AnyValueKind::Text(text) => named(alloc, "Text", text),
        AnyValueKind::TextSlice(text) => named(alloc, "TextSlice", text),
        AnyValueKind::Blob(blob) => bytes_described(alloc, blob.as_slice()),
    }
}

fn named<T: Display>(alloc: Global, name: &str, value: &T) -> Result<String, OutOfMemory> {
    Ok(format!(in alloc; "{name} {value}")?)
}

fn bytes_described(alloc: Global, bytes: &[u8]) -> Result<String, OutOfMemory> {
    Ok(format!(in alloc; "Blob {bytes:?}")?)
}

/// The values in their order, a bar behind each.
pub fn listed(alloc: Global, values: &[AnyValueKind]) -> Result<String, OutOfMemory> {
    let mut line = String::new(alloc);
    for value in values {
        list(alloc, &mut line, value)?;
    }
    Ok(line)
}

fn list(alloc: Global, line: &mut String, value: &AnyValueKind) -> Result<(), OutOfMemory> {
    let text = described(alloc, value)?;
    line.push_str(&text)?;
    line.push('|')?;
    Ok(())
}
