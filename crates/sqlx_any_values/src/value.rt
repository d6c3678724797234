//! Values that every backend shares.
ghost use Rattle.std.specs.Prelude.{◌≡◌, IfOk, false, true};
ghost use Rattle.sqlx_traits.specs.Reads.{GivesValue, NeverRefuses, ValueRead};
ghost use Rattle.sqlx_any_values.specs.Kinds.{is_null_kind, kind_of};

use crate::{AnyBlob, AnyRead, AnyTypeInfo};
use sqlx_text::{AnyTypeInfoKind, Error, OutOfMemory, UStr};
use sqlx_traits::reads::given;
use std::alloc::Global;

/// A value and its kind.
#[derive(Drop)]
pub enum AnyValueKind {
    /// A null, and the kind that it stands for.
    Null(AnyTypeInfoKind),
    Bool(bool),
    SmallInt(i16),
    Integer(i32),
    BigInt(i64),
    Text(UStr),
    /// A text too; it is read alike.
    TextSlice(UStr),
    Blob(AnyBlob),
}

impl AnyValueKind {
    /// The kind; that of each null is `Null`.
    pub fn kind(&self) -> AnyTypeInfoKind
        ensures { result ≡ kind_of self.now }
    {
        match self {
            AnyValueKind::Null(_) => AnyTypeInfoKind::Null,
            AnyValueKind::Bool(_) => AnyTypeInfoKind::Bool,
            AnyValueKind::SmallInt(_) => AnyTypeInfoKind::SmallInt,
            AnyValueKind::Integer(_) => AnyTypeInfoKind::Integer,
            AnyValueKind::BigInt(_) => AnyTypeInfoKind::BigInt,
            AnyValueKind::Text(_) | AnyValueKind::TextSlice(_) => AnyTypeInfoKind::Text,
            AnyValueKind::Blob(_) => AnyTypeInfoKind::Blob,
        }
    }

    /// The same value. In sqlx: `clone`.
    pub fn try_clone(&self, alloc: Global) -> Result<AnyValueKind, OutOfMemory>
        ensures { IfOk result (λ copy. copy ≡ self.now) }
    {
        match self {
            AnyValueKind::Null(kind) => Ok(AnyValueKind::Null(*kind)),
            AnyValueKind::Bool(b) => Ok(AnyValueKind::Bool(*b)),
            AnyValueKind::SmallInt(n) => Ok(AnyValueKind::SmallInt(*n)),
            AnyValueKind::Integer(n) => Ok(AnyValueKind::Integer(*n)),
            AnyValueKind::BigInt(n) => Ok(AnyValueKind::BigInt(*n)),
            AnyValueKind::Text(text) => Ok(AnyValueKind::Text(text.try_clone(alloc)?)),
            AnyValueKind::TextSlice(text) => Ok(AnyValueKind::TextSlice(text.try_clone(alloc)?)),
            AnyValueKind::Blob(blob) => Ok(AnyValueKind::Blob(blob.try_clone(alloc)?)),
        }
    }
}

/// A value of a row.
#[derive(Drop)]
pub struct AnyValue {
    pub kind: AnyValueKind,
}

impl AnyValue {
    /// The same value. In sqlx: `clone`.
    pub fn try_clone(&self, alloc: Global) -> Result<AnyValue, OutOfMemory>
        ensures { IfOk result (λ copy. copy ≡ self.now) }
    {
        let kind = self.kind.try_clone(alloc)?;
        Ok(AnyValue { kind })
    }
}

impl AnyValue {
    /// Its type.
    pub fn type_info(&self) -> AnyTypeInfo
        ensures { result ≡ record { kind = kind_of self.now.kind } }
    {
        AnyTypeInfo {
            kind: self.kind.kind(),
        }
    }

    /// Whether it is null.
    pub fn is_null(&self) -> bool
        ensures { result ≡ is_null_kind (kind_of self.now.kind) }
    {
        matches!(self.kind, AnyValueKind::Null(_))
    }

    /// Reads the value, whose kind has to fit; an error is `Decode` or want of memory.
    pub fn try_decode<'r, T: AnyRead<'r>>(&'r self, alloc: Global) -> Result<T, Error>
        ensures { ValueRead (T.reads true false self.entry.now) result }
    {
        self.read(alloc, true)
    }

    /// Reads the value, whatever its kind; an error is `Decode` or want of memory.
    pub fn try_decode_unchecked<'r, T: AnyRead<'r>>(&'r self, alloc: Global) -> Result<T, Error>
        ensures { ValueRead (T.reads false false self.entry.now) result }
    {
        self.read(alloc, false)
    }

    /// Reads the value, of which it is known that it can be read.
    pub fn decode<'r, T: AnyRead<'r>>(&'r self, alloc: Global) -> Result<T, OutOfMemory>
        requires { NeverRefuses (ValueRead (T.reads true false self.now)) }
        ensures { GivesValue (ValueRead (T.reads true false self.entry.now)) result }
    {
        given(self.read::<T>(alloc, true))
    }

    /// Reads the value, whatever its kind, of which it is known that it can be read.
    pub fn decode_unchecked<'r, T: AnyRead<'r>>(&'r self, alloc: Global) -> Result<T, OutOfMemory>
        requires { NeverRefuses (ValueRead (T.reads false false self.now)) }
        ensures { GivesValue (ValueRead (T.reads false false self.entry.now)) result }
    {
        given(self.read::<T>(alloc, false))
    }

    // Reads the value, whose kind has to fit where `checked`.
    fn read<'r, T: AnyRead<'r>>(&'r self, alloc: Global, checked: bool) -> Result<T, Error>
        ensures { ValueRead (T.reads checked false self.entry.now) result }
    {
        match T::read(alloc, self, checked, false) {
            Ok(read) => Ok(read),
            Err(fault) => Err(Error::decode(fault)),
        }
    }
}
