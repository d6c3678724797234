//! The texts of statements, and what may become one: a text that stands in the program, or one
//! that the caller vouches for.
ghost use Rattle.std.specs.Prelude.{◌≡◌, ◌↔◌, ℕ, IfOk, IsTrue, List, string_bytes};
ghost use Rattle.std.specs.Box.{boxed_str_bytes};
ghost use Rattle.std.specs.Cow.{cow_str_bytes};

use crate::{OutOfMemory, UStr};
use std::alloc::Global;
use std::borrow::CowStr;
use std::boxed::BoxedStr;
use std::marker::Model;

/// The text of a statement.
#[derive(Debug, PartialEq, Eq, PartialOrd, Ord, Hash, Drop)]
pub struct SqlStr {
    text: UStr,
}

impl Model for SqlStr {
    ghost use Rattle.std.specs.Prelude.{List, ℕ};

    ghost Value = { List ℕ };

    ghost view = { λ sql. sql.text };

    ghost inverse = { λ text. record { text = text } };
}

impl SqlStr {
    /// A statement that stands in the program.
    pub fn from_static(sql: &'static str) -> SqlStr
        ensures { result ≡ sql.entry.now }
    {
        SqlStr {
            text: UStr::from_static(sql),
        }
    }

    /// The characters.
    pub fn as_str(&self) -> &str
        ensures { result.now ≡ self.now }
    {
        self.text.as_str()
    }

    /// Whether the statement is this text.
    pub fn is(&self, other: &str) -> bool
        ensures { IsTrue result ↔ (self.now ≡ other.now) }
    {
        self.as_str() == other
    }

    /// The same statement.
    pub fn try_clone(&self, alloc: Global) -> Result<SqlStr, OutOfMemory>
        ensures { IfOk result (λ copy. copy ≡ self.now) }
    {
        let text = self.text.try_clone(alloc)?;
        Ok(SqlStr { text })
    }
}

/// What may become the text of a statement.
pub trait SqlSafeStr {
    /// The characters.
    ghost text: { Self → List ℕ };

    /// The text as a statement.
    fn into_sql_str(self, alloc: Global) -> Result<SqlStr, OutOfMemory>
        ensures { IfOk result (λ sql. sql ≡ text self) };
}

/// A text of which the caller says that it holds no input that could change the statement.
#[derive(Drop)]
pub struct AssertSqlSafe<T>(pub T);

impl SqlSafeStr for &'static str {
    ghost text = { λ sql. sql.now };

    fn into_sql_str(self, _alloc: Global) -> Result<SqlStr, OutOfMemory>
        ensures { result ≡ Ok self.entry.now }
    {
        Ok(SqlStr::from_static(self))
    }
}

impl SqlSafeStr for SqlStr {
    ghost text = { λ sql. sql };

    fn into_sql_str(self, _alloc: Global) -> Result<SqlStr, OutOfMemory>
        ensures { result ≡ Ok self }
    {
        Ok(self)
    }
}

impl SqlSafeStr for AssertSqlSafe<&str> {
    ghost text = { λ sql. sql.0.now };

    fn into_sql_str(self, alloc: Global) -> Result<SqlStr, OutOfMemory> {
        let text = UStr::new(alloc, self.0)?;
        Ok(SqlStr { text })
    }
}

impl SqlSafeStr for AssertSqlSafe<String> {
    ghost text = { λ sql. string_bytes sql.0 };

    fn into_sql_str(self, _alloc: Global) -> Result<SqlStr, OutOfMemory>
        ensures { result ≡ Ok (string_bytes self.0) }
    {
        let text = UStr::from_string(self.0);
        Ok(SqlStr { text })
    }
}

impl SqlSafeStr for AssertSqlSafe<BoxedStr> {
    ghost text = { λ sql. boxed_str_bytes sql.0 };

    fn into_sql_str(self, _alloc: Global) -> Result<SqlStr, OutOfMemory>
        ensures { result ≡ Ok (boxed_str_bytes self.0) }
    {
        let text = UStr::from_string(self.0.into_string());
        Ok(SqlStr { text })
    }
}

impl SqlSafeStr for AssertSqlSafe<CowStr<'static>> {
    ghost text = { λ sql. cow_str_bytes sql.0 };

    fn into_sql_str(self, _alloc: Global) -> Result<SqlStr, OutOfMemory> {
        let text = match self.0 {
            CowStr::Borrowed(text) => UStr::from_static(text),
            CowStr::Owned(text) => UStr::from_string(text),
        };
        Ok(SqlStr { text })
    }
}

impl SqlSafeStr for AssertSqlSafe<UStr> {
    ghost text = { λ sql. sql.0 };

    fn into_sql_str(self, _alloc: Global) -> Result<SqlStr, OutOfMemory>
        ensures { result ≡ Ok (self.0) }
    {
        Ok(SqlStr { text: self.0 })
    }
}
