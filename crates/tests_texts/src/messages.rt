//! What is printed of each error and each fault.

use crate::errors::refusal;
use sqlx_text::*;
use std::fmt::Display;
use std::process::Abort;
use std::test::*;

fn shows<R: Alloc + Abort, D: Display + Drop>(rt: &R, value: D, text: &str) -> Result<(), Fail> {
    let shown = format!(in rt.alloc(); "{value}")?;
    assert_eq!(rt; shown.as_str(), text);
    drop(value);
    Ok(())
}

fn text() -> UStr {
    UStr::from_static("abc")
}

// Each error in turn, and what is printed of it.
fn error_at(at: u8) -> (Error, &'static str) {
    match at {
        0 => (
            Error::Configuration(Fault::Text(text())),
            "error with configuration: abc",
        ),
        1 => (Error::InvalidArgument(text()), "abc"),
        2 => (
            Error::Database(refusal(ErrorKind::Other)),
            "error returned from database: busy",
        ),
        3 => (
            Error::Io(IoFault::ConnectionRefused),
            "error communicating with database: connection refused",
        ),
        4 => (
            Error::Io(IoFault::Other),
            "error communicating with database: other error",
        ),
        5 => (
            Error::Protocol(text()),
            "encountered unexpected or invalid data: abc",
        ),
        6 => (
            Error::RowNotFound,
            "no rows returned by a query that expected to return at least one row",
        ),
        7 => (
            Error::TypeNotFound { type_name: text() },
            "type named abc not found",
        ),
        8 => (
            Error::ColumnIndexOutOfBounds { index: 2, len: 1 },
            "column index out of bounds: the len is 1, but the index is 2",
        ),
        9 => (
            Error::ColumnNotFound(text()),
            "no column found for name: abc",
        ),
        10 => (
            Error::ColumnDecode {
                index: text(),
                source: Fault::OutOfRange,
            },
            "error occurred while decoding column abc: out of range integral type conversion attempted",
        ),
        11 => (
            Error::Encode(Fault::Text(text())),
            "error occurred while encoding a value: abc",
        ),
        12 => (
            Error::Decode(Fault::Text(text())),
            "error occurred while decoding: abc",
        ),
        13 => (
            Error::AnyDriverError(Fault::NoKind(text())),
            "error in Any driver mapping: no kind for type abc",
        ),
        14 => (
            Error::PoolTimedOut,
            "pool timed out while waiting for an open connection",
        ),
        15 => (
            Error::PoolClosed,
            "attempted to acquire a connection on a closed pool",
        ),
        16 => (
            Error::InvalidSavePointStatement,
            "attempted to call begin_with at non-zero transaction depth",
        ),
        17 => (
            Error::BeginFailed,
            "got unexpected connection status after attempting to begin transaction",
        ),
        18 => (Error::OutOfMemory, "out of memory"),
        19 => (Error::Exhausted, "numbers are used up"),
        _ => (Error::NotHeld, "not held"),
    }
}

#[test]
fn prints_each_error(rt: HostRuntime) -> Result<(), Fail> {
    for at in 0..21 {
        let (error, text) = error_at(at);
        shows(&rt, error, text)?;
    }
    Ok(())
}

// Each fault in turn, and what is printed of it.
fn fault_at(at: u8) -> (Fault, &'static str) {
    match at {
        0 => (
            Fault::UnexpectedNull,
            "unexpected null; try decoding as an `Option`",
        ),
        1 => (
            Fault::Mismatched {
                rust: text(),
                sql_of_rust: Some(text()),
                sql: UStr::from_static("TEXT"),
            },
            "mismatched types; Rust type `abc` (as SQL type `abc`) is not compatible with SQL type `TEXT`",
        ),
        2 => (
            Fault::Mismatched {
                rust: text(),
                sql_of_rust: None,
                sql: UStr::from_static("TEXT"),
            },
            "mismatched types; Rust type `abc` is not compatible with SQL type `TEXT`",
        ),
        3 => (
            Fault::Unexpected {
                expected: AnyTypeInfoKind::SmallInt,
                got: AnyTypeInfoKind::Null,
            },
            "expected SMALLINT, got NULL",
        ),
        4 => (
            Fault::OutOfRange,
            "out of range integral type conversion attempted",
        ),
        5 => (Fault::NoKind(text()), "no kind for type abc"),
        6 => (Fault::Text(text()), "abc"),
        _ => (Fault::OutOfMemory, "out of memory"),
    }
}

#[test]
fn prints_each_fault(rt: HostRuntime) -> Result<(), Fail> {
    for at in 0..8 {
        let (fault, text) = fault_at(at);
        shows(&rt, fault, text)?;
    }
    Ok(())
}

#[test]
fn prints_each_small_fault(rt: HostRuntime) -> Result<(), Fail> {
    shows(&rt, IoFault::ConnectionRefused, "connection refused")?;
    shows(&rt, IoFault::Other, "other error")?;
    shows(
        &rt,
        UnexpectedNullError,
        "unexpected null; try decoding as an `Option`",
    )?;
    shows(&rt, OutOfMemory, "out of memory")?;
    shows(&rt, refusal(ErrorKind::Other), "busy")
}
