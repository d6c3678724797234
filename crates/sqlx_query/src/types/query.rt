//! A text or a prepared statement with arguments, and what runs it.
ghost use Rattle.std.specs.Prelude.{◌≡◌, ◌≤◌, ◌⊎◌, ◌∷◌, [], Err, IfErr, IfOk, OnErr, OnOk};
ghost use Rattle.sqlx_text.specs.declared.error.Error.{Error};
ghost use Rattle.sqlx_traits.specs.Reads.{Answers};
ghost use Rattle.sqlx_traits.specs.StepList.{Ran, RunsNothing, StepCause, StepCauses, all_of, combined, first_of, one_or, results_of, rows_of};
ghost use Rattle.sqlx_query_drafts.specs.Binding.{Binds, Bound, CanBind, fault_after_a_fault};
ghost use Rattle.sqlx_query_drafts.specs.Query.{fresh_query, given_arguments, handed_over, statement_of, text_of, turned};

use crate::types::request::Request;
use either::Either;
use sqlx_query_drafts::{after_a_fault, bound, turn};
use sqlx_text::{Error, Fault, OutOfMemory, SqlStr};
use sqlx_traits::{
    ArgumentList, Arguments, Database, Encode, Execute, ExecuteMany, Executor, Fetch, FetchMany,
    HasStatementCache, IntoArguments, QueryResult, SqlType, Statement,
};
use std::alloc::Global;
use std::marker::Model;
use std::mem;

/// A statement with its arguments, which is prepared when it runs.
#[derive(Drop)]
pub struct Query<'q, DB: Database, A> {
    statement: Either<SqlStr, &'q DB::Statement>,
    arguments: Result<Option<A>, Fault>,
    persistent: bool,
}

impl<'q, DB: Database, A> Model for Query<'q, DB, A> {
    ghost use Rattle.sqlx_query_drafts.specs.Query.{Asked, statement_of, text_of};

    ghost Value = { Asked DB.Statement A };

    ghost view = { λ query. record {
      text = text_of DB.Statement.text query.statement;
      prepared = statement_of query.statement;
      arguments = query.arguments;
      kept = query.persistent;
    } };
}

impl<'q, DB: Database, A> Query<'q, DB, A> {
    /// A query of a text or a statement with these arguments, or with the fault that is told when it runs.
    pub(crate) fn new(
        statement: Either<SqlStr, &'q DB::Statement>,
        arguments: Result<A, Fault>,
    ) -> Self
        ensures { result ≡ fresh_query (text_of DB.Statement.text statement.entry) (statement_of statement.entry) arguments }
    {
        Query {
            statement,
            arguments: given(arguments),
            persistent: true,
        }
    }
}

// Arguments that are there, or why they can't be had.
fn given<A>(arguments: Result<A, Fault>) -> Result<Option<A>, Fault>
    ensures { result ≡ given_arguments arguments }
{
    match arguments {
        Ok(arguments) => Ok(Some(arguments)),
        Err(fault) => Err(fault),
    }
}

impl<'q, DB: Database, A> Query<'q, DB, A>
where
    DB: HasStatementCache,
{
    /// Whether the connection is to keep the prepared statement; a query begins with `true`.
    pub fn persistent(self, value: bool) -> Self
        ensures { result ≡ record self.entry { kept = value } }
    {
        Query {
            statement: self.statement,
            arguments: self.arguments,
            persistent: value,
        }
    }
}

impl<'q, DB: Database> Query<'q, DB, DB::Arguments> {
    /// Adds an argument. A value that can't be encoded is told when the query runs, as `Encode`; after it nothing is added.
    pub fn bind<'t, T: Encode<'t, DB> + SqlType<DB> + Drop>(self, alloc: Global, value: T) -> Self
        ensures rest { result ≡ record self.entry { arguments = result.arguments } }
        ensures arguments { Binds DB.ArgumentBuffer.count DB.ArgumentBuffer.first DB.Arguments.buffered (T.encoded value) (T.refuses value) self.entry.arguments result.arguments }
    {
        Query {
            statement: self.statement,
            arguments: bound::<DB, T>(alloc, self.arguments, value),
            persistent: self.persistent,
        }
    }

    /// Adds an argument, or tells why it can't be encoded, which changes nothing.
    pub fn try_bind<'t, T: Encode<'t, DB> + SqlType<DB> + Drop>(
        &mut self,
        alloc: Global,
        value: T,
    ) -> Result<(), Fault>
        ensures rest { self.new ≡ record self.old { arguments = self.new.arguments } }
        ensures ok { OnOk result (Bound DB.ArgumentBuffer.count DB.ArgumentBuffer.first DB.Arguments.buffered (T.encoded value) self.old.arguments self.new.arguments) }
        ensures err { OnErr result (self.new ≡ self.old) }
        ensures refused { IfErr result (λ fault. CanBind self.old.arguments → T.refuses value fault) }
        ensures after { ¬ CanBind self.old.arguments → result ≡ Err fault_after_a_fault }
    {
        match &mut self.arguments {
            Ok(Some(arguments)) => arguments.add(alloc, value),
            _ => Err(after_a_fault()),
        }
    }
}

impl<'q, DB: Database, A: IntoArguments<DB> + Drop> Execute<DB> for Query<'q, DB, A> {
    ghost text = { λ query. query.text };

    ghost prepared = { λ query. query.prepared };

    ghost arguments = { λ query. turned A.becomes query.arguments };

    ghost kept = { λ query. query.kept };

    fn sql(self, alloc: Global) -> Result<SqlStr, OutOfMemory> {
        let Query {
            statement,
            arguments,
            persistent: _,
        } = self;
        drop(arguments);
        match statement {
            Either::Left(sql) => Ok(sql),
            Either::Right(statement) => statement.sql().try_clone(alloc),
        }
    }

    fn statement(&self) -> Option<&DB::Statement> {
        match &self.statement {
            Either::Left(_sql) => None,
            Either::Right(statement) => Some(*statement),
        }
    }

    fn take_arguments(&mut self) -> Result<Option<DB::Arguments>, Fault> {
        turn::<DB, A>(mem::replace(&mut self.arguments, Ok(None)))
    }

    fn persistent(&self) -> bool {
        self.persistent
    }
}

impl<'q, DB: Database, A: IntoArguments<DB> + Drop> Query<'q, DB, A> {
    // The query with its arguments as the driver takes them.
    fn request(self) -> Request<'q, DB::Statement, DB::Arguments>
        ensures text { text_of DB.Statement.text result.statement ≡ self.entry.text }
        ensures arguments { result.arguments ≡ turned A.becomes self.entry.arguments }
        ensures kept { result.persistent ≡ self.entry.kept }
    {
        Request {
            statement: self.statement,
            arguments: turn::<DB, A>(self.arguments),
            persistent: self.persistent,
        }
    }

    /// Runs it and gives the results of its statements as one, or the first error.
    pub fn execute<E: Executor<DB>>(
        self,
        alloc: Global,
        executor: &mut E,
    ) -> Result<DB::QueryResult, Error>
        ensures combined { Ran E.runs executor.old (handed_over A.becomes self.entry) executor.new (λ list. result ≡ combined DB.QueryResult.extended DB.QueryResult.nothing (results_of list)) }
        ensures unencoded { IfErr (turned A.becomes self.entry.arguments) (RunsNothing executor.old executor.new (λ e. result ≡ Err e)) }
        ensures rises { E.faults executor.old ≤ E.faults executor.new }
        ensures cause { IfErr result (StepCause (E.faults executor.old) (E.faults executor.new) (turned A.becomes self.entry.arguments)) }
    {
        executor.execute(alloc, self.request())
    }

    /// Runs it and gives the results of its statements, one by one, and the error behind them if there is one.
    pub fn execute_many<E: Executor<DB>>(self, alloc: Global, executor: &mut E) -> ExecuteMany<DB>
        ensures results { Ran E.runs executor.old (handed_over A.becomes self.entry) executor.new (λ list. result ≡ results_of list) }
        ensures unencoded { IfErr (turned A.becomes self.entry.arguments) (RunsNothing executor.old executor.new (λ e. result ≡ Err e ∷ [])) }
        ensures rises { E.faults executor.old ≤ E.faults executor.new }
        ensures causes { StepCauses (E.faults executor.old) (E.faults executor.new) (turned A.becomes self.entry.arguments) result }
    {
        executor.execute_many(alloc, self.request())
    }

    /// Runs it and gives its rows, one by one, and the error behind them if there is one.
    pub fn fetch<E: Executor<DB>>(self, alloc: Global, executor: &mut E) -> Fetch<DB>
        ensures rows { Ran E.runs executor.old (handed_over A.becomes self.entry) executor.new (λ list. result ≡ rows_of list) }
        ensures unencoded { IfErr (turned A.becomes self.entry.arguments) (RunsNothing executor.old executor.new (λ e. result ≡ Err e ∷ [])) }
        ensures rises { E.faults executor.old ≤ E.faults executor.new }
        ensures causes { StepCauses (E.faults executor.old) (E.faults executor.new) (turned A.becomes self.entry.arguments) result }
    {
        executor.fetch(alloc, self.request())
    }

    /// Runs it and gives its rows and the results of its statements, one by one.
    pub fn fetch_many<E: Executor<DB>>(self, alloc: Global, executor: &mut E) -> FetchMany<DB>
        ensures steps { E.runs executor.old (handed_over A.becomes self.entry) result executor.new }
        ensures unencoded { IfErr (turned A.becomes self.entry.arguments) (RunsNothing executor.old executor.new (λ e. result ≡ Err e ∷ [])) }
        ensures rises { E.faults executor.old ≤ E.faults executor.new }
        ensures causes { StepCauses (E.faults executor.old) (E.faults executor.new) (turned A.becomes self.entry.arguments) result }
    {
        executor.fetch_many(alloc, self.request())
    }

    /// Runs it and gives all of its rows, or the first error, or want of memory.
    pub fn fetch_all<E: Executor<DB>>(
        self,
        alloc: Global,
        executor: &mut E,
    ) -> Result<Vec<DB::Row>, Error>
        ensures rows { Ran E.runs executor.old (handed_over A.becomes self.entry) executor.new (λ list. Answers (λ rows. rows.items) Error.OutOfMemory (all_of (rows_of list)) result) }
        ensures unencoded { IfErr (turned A.becomes self.entry.arguments) (RunsNothing executor.old executor.new (λ e. Answers (λ rows. rows.items) Error.OutOfMemory (Err e) result)) }
        ensures rises { E.faults executor.old ≤ E.faults executor.new }
        ensures cause { IfErr result (StepCause (E.faults executor.old) (E.faults executor.new) (turned A.becomes self.entry.arguments)) }
    {
        executor.fetch_all(alloc, self.request())
    }

    /// Runs it and gives its first row or error, and `RowNotFound` where it has neither.
    pub fn fetch_one<E: Executor<DB>>(
        self,
        alloc: Global,
        executor: &mut E,
    ) -> Result<DB::Row, Error>
        ensures row { Ran E.runs executor.old (handed_over A.becomes self.entry) executor.new (λ list. result ≡ one_or Error.RowNotFound (first_of (rows_of list))) }
        ensures unencoded { IfErr (turned A.becomes self.entry.arguments) (RunsNothing executor.old executor.new (λ e. result ≡ Err e)) }
        ensures rises { E.faults executor.old ≤ E.faults executor.new }
        ensures cause { IfErr result (λ e. (e ≡ Error.RowNotFound) ⊎ StepCause (E.faults executor.old) (E.faults executor.new) (turned A.becomes self.entry.arguments) e) }
    {
        executor.fetch_one(alloc, self.request())
    }

    /// Runs it and gives its first row or error, or `None` where it has neither.
    pub fn fetch_optional<E: Executor<DB>>(
        self,
        alloc: Global,
        executor: &mut E,
    ) -> Result<Option<DB::Row>, Error>
        ensures row { Ran E.runs executor.old (handed_over A.becomes self.entry) executor.new (λ list. result ≡ first_of (rows_of list)) }
        ensures unencoded { IfErr (turned A.becomes self.entry.arguments) (RunsNothing executor.old executor.new (λ e. result ≡ Err e)) }
        ensures rises { E.faults executor.old ≤ E.faults executor.new }
        ensures cause { IfErr result (StepCause (E.faults executor.old) (E.faults executor.new) (turned A.becomes self.entry.arguments)) }
    {
        executor.fetch_optional(alloc, self.request())
    }
}
