//! A connection as a backend of `Any`.
ghost use Rattle.std.specs.Prelude.{◌≡◌, ℕ, None, Ok, Option, map};
ghost use Rattle.sqlx_traits.specs.StepList.{StepCauses};
ghost use Rattle.sqlx_any.specs.declared.arguments.AnyArguments.{AnyArguments as Given};

use crate::connection::SqliteConnection;
use sqlite_base::Items;
use sqlx_any::{
    Any, AnyArguments, AnyConnectionBackend, AnyQueryResult, AnyRow, AnyStatement, AnyTypeInfo,
    ColumnNames, Faults, Fetch, FetchMany, StepList,
};
use sqlx_savepoints::{
    begin_ansi_transaction_sql, commit_ansi_transaction_sql, rollback_ansi_transaction_sql,
};
use sqlx_text::{Error, SqlStr};
use std::alloc::Global;

/// The list of these items, which has no error.
fn handed_out(items: Items) -> StepList<AnyQueryResult, AnyRow>
    ensures items { result ≡ map Ok items.items }
    ensures causes { (before now : ℕ) (arguments : Option Given) → StepCauses before now (Ok arguments) result }
{
    StepList::new(items, None)
}

impl Faults for SqliteConnection {
    ghost faults = { λ conn. conn.faults };
}

impl AnyConnectionBackend for SqliteConnection {
    ghost use Rattle.std.specs.Prelude.{[], false, codes};
    ghost use Rattle.sqlite_driver.specs.Does.{Closes, Does};
    ghost use Rattle.sqlite_driver.specs.Runs.{Runs};

    ghost called = { λ _. codes "SQLite" };

    ghost levels = { λ conn. conn.depth };

    ghost closes = { λ _. false };

    ghost runs = { Runs };

    ghost does = { Does };

    ghost ends = { Closes };

    ghost prepares = { λ conn sql _ result after. (result ≡ Ok (record { sql = sql; parameters = None; names = []; columns = [] })) × (after ≡ conn) };

    fn name(&self) -> &str {
        "SQLite"
    }

    fn close(self) -> Result<(), Error> {
        self.end()
    }

    fn close_hard(self) -> Result<(), Error> {
        drop(self);
        Ok(())
    }

    fn ping(&mut self) -> Result<(), Error> {
        self.settle()
    }

    fn begin(&mut self, alloc: Global, statement: Option<SqlStr>) -> Result<(), Error> {
        let Some(text) = statement else {
            return self.begin_level(begin_ansi_transaction_sql(alloc, self.depth));
        };
        if self.depth > 0 {
            drop(text);
            return Err(Error::InvalidSavePointStatement);
        }
        self.begin_by(text)
    }

    fn commit(&mut self, alloc: Global) -> Result<(), Error> {
        self.end_level(commit_ansi_transaction_sql(alloc, self.depth))
    }

    fn rollback(&mut self, alloc: Global) -> Result<(), Error> {
        self.end_level(rollback_ansi_transaction_sql(alloc, self.depth))
    }

    fn start_rollback(&mut self) {
        self.give_up();
    }

    fn get_transaction_depth(&self) -> usize {
        self.depth
    }

    fn cached_statements_size(&self) -> usize {
        0
    }

    fn clear_cached_statements(&mut self) -> Result<(), Error> {
        Ok(())
    }

    fn shrink_buffers(&mut self) {}

    fn flush(&mut self) -> Result<(), Error> {
        Ok(())
    }

    fn should_flush(&self) -> bool {
        false
    }

    fn fetch_many(
        &mut self,
        alloc: Global,
        query: SqlStr,
        _persistent: bool,
        arguments: Option<AnyArguments>,
    ) -> FetchMany<Any<Self>> {
        let given = self.run(alloc, query.as_str(), &arguments);
        drop(query);
        drop(arguments);
        match given {
            Ok(items) => handed_out(items),
            Err(error) => StepList::refused(alloc, error),
        }
    }

    fn fetch_optional(
        &mut self,
        alloc: Global,
        query: SqlStr,
        persistent: bool,
        arguments: Option<AnyArguments>,
    ) -> Result<Option<AnyRow>, Error> {
        let mut rows = Fetch::<Any<Self>>::new(self.fetch_many(
            alloc, query, persistent, arguments,
        ));
        let first = rows.next();
        drop(rows);
        match first {
            Some(Ok(row)) => Ok(Some(row)),
            Some(Err(error)) => Err(error),
            None => Ok(None),
        }
    }

    fn prepare_with(
        &mut self,
        alloc: Global,
        sql: SqlStr,
        _parameters: &[AnyTypeInfo],
    ) -> Result<AnyStatement, Error> {
        AnyStatement::new(sql, None, ColumnNames::new(alloc), Vec::new(alloc))
    }
}
