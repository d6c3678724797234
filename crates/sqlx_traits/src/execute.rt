//! What an executor can run: a text, with arguments or without.
ghost use Rattle.std.specs.Prelude.{◌≡◌, ℕ, Bool, IfOk, List, Option, Result};
ghost use Rattle.std.specs.Option.{option_copied};
ghost use Rattle.sqlx_text.specs.declared.fault.Fault.{Fault};

use crate::Database;
use sqlx_text::{AssertSqlSafe, Fault, OutOfMemory, SqlSafeStr, SqlStr};
use std::alloc::Global;

/// What an executor can run.
pub trait Execute<DB: Database>: Sized + Drop {
    /// Its text.
    ghost text: { Self → List ℕ };

    /// The statement that was prepared of it, if one was.
    ghost prepared: { Self → Option DB.Statement };

    /// Its arguments, none where it has no list of them, or why they can't be had.
    ghost arguments: { Self → Result (Option DB.Arguments) Fault };

    /// Whether its statement is to be kept.
    ghost kept: { Self → Bool };

    /// Its text.
    fn sql(self, alloc: Global) -> Result<SqlStr, OutOfMemory>
        ensures { IfOk result (λ sql. sql ≡ text self) };

    /// The statement that was prepared of it, if one was.
    fn statement(&self) -> Option<&DB::Statement>
        ensures { option_copied result ≡ prepared self.now };

    /// Takes its arguments: none where it has no list of them, and a fault where they can't be had.
    fn take_arguments(&mut self) -> Result<Option<DB::Arguments>, Fault>
        ensures taken { result ≡ arguments self.old }
        ensures text { text self.new ≡ text self.old }
        ensures prepared { prepared self.new ≡ prepared self.old }
        ensures kept { kept self.new ≡ kept self.old };

    /// Whether its statement is to be kept.
    fn persistent(&self) -> bool
        ensures { result ≡ kept self.now };
}

impl<DB: Database> Execute<DB> for &'static str {
    ghost use Rattle.std.specs.Prelude.{None, Ok, true};

    ghost text = { λ sql. sql.now };

    ghost prepared = { λ _. None };

    ghost arguments = { λ _. Ok None };

    ghost kept = { λ _. true };

    fn sql(self, alloc: Global) -> Result<SqlStr, OutOfMemory>
        ensures { result ≡ Ok self.entry.now }
    {
        self.into_sql_str(alloc)
    }

    fn statement(&self) -> Option<&DB::Statement> {
        None
    }

    fn take_arguments(&mut self) -> Result<Option<DB::Arguments>, Fault> {
        Ok(None)
    }

    fn persistent(&self) -> bool {
        true
    }
}

impl<DB: Database> Execute<DB> for SqlStr {
    ghost use Rattle.std.specs.Prelude.{None, Ok, true};

    ghost text = { λ sql. sql };

    ghost prepared = { λ _. None };

    ghost arguments = { λ _. Ok None };

    ghost kept = { λ _. true };

    fn sql(self, _alloc: Global) -> Result<SqlStr, OutOfMemory>
        ensures { result ≡ Ok self }
    {
        Ok(self)
    }

    fn statement(&self) -> Option<&DB::Statement> {
        None
    }

    fn take_arguments(&mut self) -> Result<Option<DB::Arguments>, Fault> {
        Ok(None)
    }

    fn persistent(&self) -> bool {
        true
    }
}

impl<DB: Database, T: Drop> Execute<DB> for AssertSqlSafe<T>
where
    AssertSqlSafe<T>: SqlSafeStr,
{
    ghost use Rattle.std.specs.Prelude.{None, Ok, true};

    ghost text = { λ sql. ⟦<AssertSqlSafe<T> as SqlSafeStr>⟧.text sql };

    ghost prepared = { λ _. None };

    ghost arguments = { λ _. Ok None };

    ghost kept = { λ _. true };

    fn sql(self, alloc: Global) -> Result<SqlStr, OutOfMemory> {
        self.into_sql_str(alloc)
    }

    fn statement(&self) -> Option<&DB::Statement> {
        None
    }

    fn take_arguments(&mut self) -> Result<Option<DB::Arguments>, Fault> {
        Ok(None)
    }

    fn persistent(&self) -> bool {
        true
    }
}

impl<DB: Database, S: SqlSafeStr + Drop> Execute<DB> for (S, Option<DB::Arguments>) {
    ghost use Rattle.std.specs.Prelude.{None, Ok, true};

    ghost text = { λ query. S.text query.0 };

    ghost prepared = { λ _. None };

    ghost arguments = { λ query. Ok query.1 };

    ghost kept = { λ _. true };

    fn sql(self, alloc: Global) -> Result<SqlStr, OutOfMemory> {
        let (sql, arguments) = self;
        drop(arguments);
        sql.into_sql_str(alloc)
    }

    fn statement(&self) -> Option<&DB::Statement> {
        None
    }

    fn take_arguments(&mut self) -> Result<Option<DB::Arguments>, Fault> {
        Ok(self.1.take())
    }

    fn persistent(&self) -> bool {
        true
    }
}
