//! A column of a row or of a statement.
ghost use Rattle.std.specs.Prelude.{◌≡◌, IfOk};

use crate::native::type_from;
use crate::{Any, AnyConnectionBackend, AnyTypeInfo};
use sqlx_text::{Error, OutOfMemory, UStr};
use sqlx_traits::{Column, ColumnOrigin, Database};
use std::alloc::Global;

/// A column: its position from 0, its name, and the type of its values.
#[derive(Debug)]
pub struct AnyColumn {
    pub ordinal: usize,
    pub name: UStr,
    pub type_info: AnyTypeInfo,
}

impl Drop for AnyColumn {
    fn drop(self) {
        let AnyColumn {
            ordinal: _,
            name,
            type_info: _,
        } = self;
        drop(name);
    }
}

impl AnyColumn {
    ghost use Rattle.sqlx_traits.specs.Reads.{Answers};
    ghost use Rattle.sqlx_any.specs.Native.{native_column};

    /// The form of a column of the database, and `AnyDriverError` exactly where its type has no kind.
    pub fn from_column<DB: Database>(alloc: Global, column: &DB::Column) -> Result<AnyColumn, Error>
        ensures { Answers (λ form. form) Error.OutOfMemory (native_column DB.TypeInfo.kind DB.TypeInfo.named DB.Column.at DB.Column.named DB.Column.typed column.now) result }
    {
        let type_info = type_from::<DB::TypeInfo>(alloc, column.type_info())?;
        let name = UStr::new(alloc, column.name())?;
        Ok(AnyColumn {
            ordinal: column.ordinal(),
            name,
            type_info,
        })
    }

    /// Its position, from 0.
    pub fn ordinal(&self) -> usize
        ensures { result ≡ self.now.ordinal }
    {
        self.ordinal
    }

    /// Its name.
    pub fn name(&self) -> &str
        ensures { result.now ≡ self.now.name }
    {
        self.name.as_str()
    }

    /// The type of its values.
    pub fn type_info(&self) -> &AnyTypeInfo
        ensures { result.now ≡ self.now.type_info }
    {
        &self.type_info
    }

    /// The same column. In sqlx: `clone`.
    pub fn try_clone(&self, alloc: Global) -> Result<AnyColumn, OutOfMemory>
        ensures { IfOk result (λ copy. copy ≡ self.now) }
    {
        let name = self.name.try_clone(alloc)?;
        Ok(AnyColumn {
            ordinal: self.ordinal,
            name,
            type_info: self.type_info,
        })
    }
}

impl<B: AnyConnectionBackend> Column<Any<B>> for AnyColumn {
    ghost at = { λ column. column.ordinal };

    ghost named = { λ column. column.name };

    ghost typed = { λ column. column.type_info };

    fn ordinal(&self) -> usize {
        self.ordinal
    }

    fn name(&self) -> &str {
        self.name.as_str()
    }

    fn type_info(&self) -> &AnyTypeInfo {
        &self.type_info
    }

    fn origin(&self) -> ColumnOrigin {
        ColumnOrigin::Unknown
    }
}
