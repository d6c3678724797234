//! A text of one or more statements, run as it stands.
ghost use Rattle.std.specs.Prelude.{◌≡◌, ◌≤◌, ◌⊎◌, IfErr};
ghost use Rattle.sqlx_text.specs.declared.error.Error.{Error};
ghost use Rattle.sqlx_traits.specs.Reads.{Answers};
ghost use Rattle.sqlx_traits.specs.StepList.{Ran, StepCause, StepCauses, all_of, combined, first_of, one_or, results_of, rows_of};
ghost use Rattle.sqlx_query_drafts.specs.Query.{handed_raw, no_arguments};

use sqlx_text::{Error, Fault, OutOfMemory, SqlStr};
use sqlx_traits::{Database, Execute, ExecuteMany, Executor, Fetch, FetchMany, QueryResult, Row};
use std::alloc::Global;
use std::marker::Model;

/// A text of one or more statements, which has no arguments and isn't prepared.
#[derive(Drop)]
pub struct RawSql {
    sql: SqlStr,
}

impl Model for RawSql {
    ghost use Rattle.std.specs.Prelude.{List, ℕ};

    ghost Value = { List ℕ };

    ghost view = { λ raw. raw.sql };
}

impl RawSql {
    pub(crate) fn new(sql: SqlStr) -> Self
        ensures { result ≡ sql }
    {
        RawSql { sql }
    }
}

impl<DB: Database> Execute<DB> for RawSql {
    ghost use Rattle.std.specs.Prelude.{None, Ok, false};

    ghost text = { λ raw. raw };

    ghost prepared = { λ _. None };

    ghost arguments = { λ _. Ok None };

    ghost kept = { λ _. false };

    fn sql(self, _alloc: Global) -> Result<SqlStr, OutOfMemory> {
        Ok(self.sql)
    }

    fn statement(&self) -> Option<&DB::Statement> {
        None
    }

    fn take_arguments(&mut self) -> Result<Option<DB::Arguments>, Fault> {
        Ok(None)
    }

    fn persistent(&self) -> bool {
        false
    }
}

impl RawSql {
    /// Runs it and gives the results of its statements as one, or the first error.
    pub fn execute<DB: Database, E: Executor<DB>>(
        self,
        alloc: Global,
        executor: &mut E,
    ) -> Result<DB::QueryResult, Error>
        ensures combined { Ran E.runs executor.old (handed_raw self) executor.new (λ list. result ≡ combined DB.QueryResult.extended DB.QueryResult.nothing (results_of list)) }
        ensures rises { E.faults executor.old ≤ E.faults executor.new }
        ensures cause { IfErr result (StepCause (E.faults executor.old) (E.faults executor.new) (no_arguments DB.Arguments)) }
    {
        executor.execute(alloc, self)
    }

    /// Runs it and gives the results of its statements, one by one, and the error behind them if there is one.
    pub fn execute_many<DB: Database, E: Executor<DB>>(
        self,
        alloc: Global,
        executor: &mut E,
    ) -> ExecuteMany<DB>
        ensures results { Ran E.runs executor.old (handed_raw self) executor.new (λ list. result ≡ results_of list) }
        ensures rises { E.faults executor.old ≤ E.faults executor.new }
        ensures causes { StepCauses (E.faults executor.old) (E.faults executor.new) (no_arguments DB.Arguments) result }
    {
        executor.execute_many(alloc, self)
    }

    /// Runs it and gives its rows, one by one, and the error behind them if there is one.
    pub fn fetch<DB: Database, E: Executor<DB>>(self, alloc: Global, executor: &mut E) -> Fetch<DB>
        ensures rows { Ran E.runs executor.old (handed_raw self) executor.new (λ list. result ≡ rows_of list) }
        ensures rises { E.faults executor.old ≤ E.faults executor.new }
        ensures causes { StepCauses (E.faults executor.old) (E.faults executor.new) (no_arguments DB.Arguments) result }
    {
        executor.fetch(alloc, self)
    }

    /// Runs it and gives its rows and the results of its statements, one by one.
    pub fn fetch_many<DB: Database, E: Executor<DB>>(
        self,
        alloc: Global,
        executor: &mut E,
    ) -> FetchMany<DB>
        ensures steps { E.runs executor.old (handed_raw self) result executor.new }
        ensures rises { E.faults executor.old ≤ E.faults executor.new }
        ensures causes { StepCauses (E.faults executor.old) (E.faults executor.new) (no_arguments DB.Arguments) result }
    {
        executor.fetch_many(alloc, self)
    }

    /// Runs it and gives all of its rows, or the first error, or want of memory.
    pub fn fetch_all<DB: Database, E: Executor<DB>>(
        self,
        alloc: Global,
        executor: &mut E,
    ) -> Result<Vec<DB::Row>, Error>
        ensures rows { Ran E.runs executor.old (handed_raw self) executor.new (λ list. Answers (λ rows. rows.items) Error.OutOfMemory (all_of (rows_of list)) result) }
        ensures rises { E.faults executor.old ≤ E.faults executor.new }
        ensures cause { IfErr result (StepCause (E.faults executor.old) (E.faults executor.new) (no_arguments DB.Arguments)) }
    {
        executor.fetch_all(alloc, self)
    }

    /// Runs it and gives its first row or error, and `RowNotFound` where it has neither.
    pub fn fetch_one<DB: Database, E: Executor<DB>>(
        self,
        alloc: Global,
        executor: &mut E,
    ) -> Result<DB::Row, Error>
        ensures row { Ran E.runs executor.old (handed_raw self) executor.new (λ list. result ≡ one_or Error.RowNotFound (first_of (rows_of list))) }
        ensures rises { E.faults executor.old ≤ E.faults executor.new }
        ensures cause { IfErr result (λ e. (e ≡ Error.RowNotFound) ⊎ StepCause (E.faults executor.old) (E.faults executor.new) (no_arguments DB.Arguments) e) }
    {
        executor.fetch_one(alloc, self)
    }

    /// Runs it and gives its first row or error, or `None` where it has neither.
    pub fn fetch_optional<DB: Database, E: Executor<DB>>(
        self,
        alloc: Global,
        executor: &mut E,
    ) -> Result<Option<DB::Row>, Error>
        ensures row { Ran E.runs executor.old (handed_raw self) executor.new (λ list. result ≡ first_of (rows_of list)) }
        ensures rises { E.faults executor.old ≤ E.faults executor.new }
        ensures cause { IfErr result (StepCause (E.faults executor.old) (E.faults executor.new) (no_arguments DB.Arguments)) }
    {
        executor.fetch_optional(alloc, self)
    }
}
