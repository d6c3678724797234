//! Whole numbers: each type reads each kind of them, as far as its range goes.
ghost use Rattle.std.specs.Prelude.{◌≡◌};
ghost use Rattle.sqlx_any_values.specs.TypedRead.{read_i16, read_i32, read_i64, read_whole, within};

use super::{misfit, unexpected};
use crate::{AnyRead, AnyValue, AnyValueKind};
use sqlx_text::{AnyTypeInfoKind, Fault};
use std::alloc::Global;

// The number, if it is one of low to high.
fn in_range(n: i64, low: i64, high: i64) -> Result<i64, Fault>
    ensures { result ≡ within low high n }
{
    if n < low || high < n {
        Err(Fault::OutOfRange)
    } else {
        Ok(n)
    }
}

// The number that a value is, if it is one of low to high.
fn whole(own: AnyTypeInfoKind, low: i64, high: i64, value: &AnyValue) -> Result<i64, Fault>
    ensures { result ≡ read_whole own low high value.now.kind }
{
    match value.kind {
        AnyValueKind::SmallInt(n) => in_range(n as i64, low, high),
        AnyValueKind::Integer(n) => in_range(n as i64, low, high),
        AnyValueKind::BigInt(n) => in_range(n, low, high),
        _ => Err(unexpected(own, value)),
    }
}

/// The number of 16 bits that a value is.
pub fn whole_i16(value: &AnyValue) -> Result<i16, Fault>
    ensures { result ≡ read_i16 value.now.kind }
{
    match whole(
        AnyTypeInfoKind::SmallInt,
        i16::MIN as i64,
        i16::MAX as i64,
        value,
    ) {
        Ok(n) => Ok(n as i16),
        Err(fault) => Err(fault),
    }
}

/// The number of 32 bits that a value is.
pub fn whole_i32(value: &AnyValue) -> Result<i32, Fault>
    ensures { result ≡ read_i32 value.now.kind }
{
    match whole(
        AnyTypeInfoKind::Integer,
        i32::MIN as i64,
        i32::MAX as i64,
        value,
    ) {
        Ok(n) => Ok(n as i32),
        Err(fault) => Err(fault),
    }
}

/// The number of 64 bits that a value is.
pub fn whole_i64(value: &AnyValue) -> Result<i64, Fault>
    ensures { result ≡ read_i64 value.now.kind }
{
    whole(AnyTypeInfoKind::BigInt, i64::MIN, i64::MAX, value)
}

impl<'r> AnyRead<'r> for i16 {
    ghost use Rattle.sqlx_any_values.specs.TypedRead.{TypedRead, an_i16};

    ghost reads = { TypedRead (λ n. n) an_i16 };

    fn read(
        _alloc: Global,
        value: &'r AnyValue,
        checked: bool,
        in_row: bool,
    ) -> Result<i16, Fault> {
        let kind = value.kind.kind();
        let takes = kind.is_integer();
        match misfit(
            "i16",
            AnyTypeInfoKind::SmallInt,
            takes,
            checked,
            in_row,
            kind,
        ) {
            Some(fault) => Err(fault),
            None => whole_i16(value),
        }
    }
}

impl<'r> AnyRead<'r> for i32 {
    ghost use Rattle.sqlx_any_values.specs.TypedRead.{TypedRead, an_i32};

    ghost reads = { TypedRead (λ n. n) an_i32 };

    fn read(
        _alloc: Global,
        value: &'r AnyValue,
        checked: bool,
        in_row: bool,
    ) -> Result<i32, Fault> {
        let kind = value.kind.kind();
        let takes = kind.is_integer();
        match misfit(
            "i32",
            AnyTypeInfoKind::Integer,
            takes,
            checked,
            in_row,
            kind,
        ) {
            Some(fault) => Err(fault),
            None => whole_i32(value),
        }
    }
}

impl<'r> AnyRead<'r> for i64 {
    ghost use Rattle.sqlx_any_values.specs.TypedRead.{TypedRead, an_i64};

    ghost reads = { TypedRead (λ n. n) an_i64 };

    fn read(
        _alloc: Global,
        value: &'r AnyValue,
        checked: bool,
        in_row: bool,
    ) -> Result<i64, Fault> {
        let kind = value.kind.kind();
        let takes = kind.is_integer();
        match misfit("i64", AnyTypeInfoKind::BigInt, takes, checked, in_row, kind) {
            Some(fault) => Err(fault),
            None => whole_i64(value),
        }
    }
}
