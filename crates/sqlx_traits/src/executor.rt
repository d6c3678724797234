//! What runs queries: a connection, or what has one. Each call but `fetch_many` is a filter of its step list.
ghost use Rattle.std.specs.Prelude.{◌≡◌, ◌≤◌, ◌⊎◌, ◌∷◌, [], ℕ, Err, IfErr, IfOk, List, Result};
ghost use Rattle.sqlx_text.specs.declared.error.Error.{Error};
ghost use Rattle.sqlx_traits.specs.Faults.{FaultCause};
ghost use Rattle.sqlx_traits.specs.Handed.{Handed, handed};
ghost use Rattle.sqlx_traits.specs.Reads.{Answers};
ghost use Rattle.sqlx_traits.specs.StepList.{Ran, RunsNothing, StepCause, StepCauses, Steps, all_of, combined, first_of, one_or, results_of, rows_of};

use crate::execute_many::combine;
use crate::fetch::{all, first};
use crate::{Database, Execute, ExecuteMany, Faults, Fetch, FetchMany, QueryResult, Statement};
use sqlx_text::{Error, SqlStr};
use std::alloc::Global;

/// What runs queries.
pub trait Executor<DB: Database>: Faults + Sized {
    /// What a query that is handed over may give, and what the executor is after it.
    ghost runs: { Self → Handed DB.Arguments → Steps DB.QueryResult DB.Row Error → Self → Type 0 };

    /// What preparing a text for parameters of these types may give, and what the executor is after it.
    ghost prepares: { Self → List ℕ → List DB.TypeInfo → Result DB.Statement Error → Self → Type 0 };

    /// Runs a query and gives its step list, item by item. Where its arguments can't be had it runs nothing, and
    /// the one item is `Encode`, or want of memory.
    fn fetch_many<Q: Execute<DB>>(&mut self, alloc: Global, query: Q) -> FetchMany<DB>
        ensures steps { runs self.old (handed Q.text Q.arguments Q.kept query) result self.new }
        ensures unencoded { IfErr (Q.arguments query) (RunsNothing self.old self.new (λ e. result ≡ Err e ∷ [])) }
        ensures rises { Self.faults self.old ≤ Self.faults self.new }
        ensures causes { StepCauses (Self.faults self.old) (Self.faults self.new) (Q.arguments query) result };

    /// Runs a query and gives its rows, one by one, and the error behind them if there is one.
    #[tactic(auto, using(crate::proofs::StepLemmas::causes_of_rows))]
    final fn fetch<Q: Execute<DB>>(&mut self, alloc: Global, query: Q) -> Fetch<DB>
        ensures rows { Ran runs self.old (handed Q.text Q.arguments Q.kept query) self.new (λ list. result ≡ rows_of list) }
        ensures unencoded { IfErr (Q.arguments query) (RunsNothing self.old self.new (λ e. result ≡ Err e ∷ [])) }
        ensures rises { Self.faults self.old ≤ Self.faults self.new }
        ensures causes { StepCauses (Self.faults self.old) (Self.faults self.new) (Q.arguments query) result }
    {
        Fetch::<DB>::new(self.fetch_many(alloc, query))
    }

    /// Runs a query and gives the results of its statements, one by one, and the error behind them if there is one.
    #[tactic(auto, using(crate::proofs::StepLemmas::causes_of_results))]
    final fn execute_many<Q: Execute<DB>>(&mut self, alloc: Global, query: Q) -> ExecuteMany<DB>
        ensures results { Ran runs self.old (handed Q.text Q.arguments Q.kept query) self.new (λ list. result ≡ results_of list) }
        ensures unencoded { IfErr (Q.arguments query) (RunsNothing self.old self.new (λ e. result ≡ Err e ∷ [])) }
        ensures rises { Self.faults self.old ≤ Self.faults self.new }
        ensures causes { StepCauses (Self.faults self.old) (Self.faults self.new) (Q.arguments query) result }
    {
        ExecuteMany::<DB>::new(self.fetch_many(alloc, query))
    }

    /// Runs a query and gives the results of its statements as one, or the first error.
    #[tactic(auto, using(crate::proofs::StepLemmas::cause_of_first_error))]
    final fn execute<Q: Execute<DB>>(
        &mut self,
        alloc: Global,
        query: Q,
    ) -> Result<DB::QueryResult, Error>
        ensures combined { Ran runs self.old (handed Q.text Q.arguments Q.kept query) self.new
            (λ list. result ≡ combined DB.QueryResult.extended DB.QueryResult.nothing (results_of list)) }
        ensures unencoded { IfErr (Q.arguments query) (RunsNothing self.old self.new (λ e. result ≡ Err e)) }
        ensures rises { Self.faults self.old ≤ Self.faults self.new }
        ensures cause { IfErr result (StepCause (Self.faults self.old) (Self.faults self.new) (Q.arguments query)) }
    {
        combine(self.execute_many(alloc, query))
    }

    /// Runs a query and gives all of its rows, or the first error, or want of memory.
    #[tactic(auto, using(crate::proofs::StepLemmas::cause_of_all))]
    final fn fetch_all<Q: Execute<DB>>(
        &mut self,
        alloc: Global,
        query: Q,
    ) -> Result<Vec<DB::Row>, Error>
        ensures rows { Ran runs self.old (handed Q.text Q.arguments Q.kept query) self.new
            (λ list. Answers (λ rows. rows.items) Error.OutOfMemory (all_of (rows_of list)) result) }
        ensures unencoded { IfErr (Q.arguments query) (RunsNothing self.old self.new (λ e. Answers (λ rows. rows.items) Error.OutOfMemory (Err e) result)) }
        ensures rises { Self.faults self.old ≤ Self.faults self.new }
        ensures cause { IfErr result (StepCause (Self.faults self.old) (Self.faults self.new) (Q.arguments query)) }
    {
        all(alloc, self.fetch(alloc, query))
    }

    /// Runs a query and gives its first row or error, or `None` where it has neither.
    final fn fetch_optional<Q: Execute<DB>>(
        &mut self,
        alloc: Global,
        query: Q,
    ) -> Result<Option<DB::Row>, Error>
        ensures row { Ran runs self.old (handed Q.text Q.arguments Q.kept query) self.new
            (λ list. result ≡ first_of (rows_of list)) }
        ensures unencoded { IfErr (Q.arguments query) (RunsNothing self.old self.new (λ e. result ≡ Err e)) }
        ensures rises { Self.faults self.old ≤ Self.faults self.new }
        ensures cause { IfErr result (StepCause (Self.faults self.old) (Self.faults self.new) (Q.arguments query)) }
    {
        first(self.fetch(alloc, query))
    }

    /// Runs a query and gives its first row or error, and `RowNotFound` where it has neither.
    final fn fetch_one<Q: Execute<DB>>(&mut self, alloc: Global, query: Q) -> Result<DB::Row, Error>
        ensures row { Ran runs self.old (handed Q.text Q.arguments Q.kept query) self.new
            (λ list. result ≡ one_or Error.RowNotFound (first_of (rows_of list))) }
        ensures unencoded { IfErr (Q.arguments query) (RunsNothing self.old self.new (λ e. result ≡ Err e)) }
        ensures rises { Self.faults self.old ≤ Self.faults self.new }
        ensures cause { IfErr result (λ e. (e ≡ Error.RowNotFound) ⊎ StepCause (Self.faults self.old) (Self.faults self.new) (Q.arguments query) e) }
    {
        match self.fetch_optional(alloc, query) {
            Ok(Some(row)) => Ok(row),
            Ok(None) => Err(Error::RowNotFound),
            Err(error) => Err(error),
        }
    }

    /// Prepares a statement for parameters of these types.
    fn prepare_with(
        &mut self,
        alloc: Global,
        sql: SqlStr,
        parameters: &[DB::TypeInfo],
    ) -> Result<DB::Statement, Error>
        ensures prepared { prepares self.old sql parameters.now result self.new }
        ensures text { IfOk result (λ statement. DB.Statement.text statement ≡ sql) }
        ensures rises { Self.faults self.old ≤ Self.faults self.new }
        ensures cause { IfErr result (FaultCause (Self.faults self.old) (Self.faults self.new)) };

    /// Prepares a statement.
    final fn prepare(&mut self, alloc: Global, sql: SqlStr) -> Result<DB::Statement, Error>
        ensures prepared { prepares self.old sql [] result self.new }
        ensures text { IfOk result (λ statement. DB.Statement.text statement ≡ sql) }
        ensures rises { Self.faults self.old ≤ Self.faults self.new }
        ensures cause { IfErr result (FaultCause (Self.faults self.old) (Self.faults self.new)) }
    {
        self.prepare_with(alloc, sql, &[])
    }
}
