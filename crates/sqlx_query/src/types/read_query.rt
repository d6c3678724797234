//! A query whose rows are read as values: each made of its row, or each the row's first column.
ghost use Rattle.std.specs.Prelude.{◌≡◌, ◌≤◌, ◌⊎◌, ◌∷◌, [], Err, IfErr};
ghost use Rattle.sqlx_text.specs.declared.error.Error.{Error};
ghost use Rattle.sqlx_traits.specs.Reads.{Answers};
ghost use Rattle.sqlx_traits.specs.StepList.{Ran, RunsNothing, StepCause, StepCauses, first_of, one_or, rows_of};
ghost use Rattle.sqlx_query_drafts.specs.Binding.{Binds};
ghost use Rattle.sqlx_query_rows.specs.Mapping.{ReadsAll, ReadsOne, ReadsOptional, Refused};
ghost use Rattle.sqlx_query_drafts.specs.Query.{handed_over, turned};

use crate::types::read_stream::{read_all, read_one, read_optional};
use crate::{AsRows, AsScalars, Query, ReadManyStream, ReadStream, Reader};
use sqlx_text::{Error, Fault, OutOfMemory, SqlStr};
use sqlx_traits::{
    ArgumentList, Arguments, Database, Encode, Execute, Executor, HasStatementCache, IntoArguments,
    Row, SqlType,
};
use std::alloc::Global;
use std::marker::PhantomData;

/// A query whose rows become values, by what reads each of them.
#[derive(Drop)]
pub struct ReadQuery<'q, DB: Database, M, A> {
    query: Query<'q, DB, A>,
    by: PhantomData<M>,
}

/// A query whose rows become values that are made of them.
pub type QueryAs<'q, DB, O, A> = ReadQuery<'q, DB, AsRows<O>, A>;

/// A query of one value a row: its first column.
pub type QueryScalar<'q, DB, O, A> = ReadQuery<'q, DB, AsScalars<O>, A>;

impl<'q, DB: Database, M, A> ReadQuery<'q, DB, M, A> {
    /// A query, whose rows are still to be read.
    pub(crate) fn new(query: Query<'q, DB, A>) -> Self
        ensures { result.query ≡ query.entry }
    {
        ReadQuery {
            query,
            by: PhantomData,
        }
    }
}

impl<'q, DB: Database, M> ReadQuery<'q, DB, M, DB::Arguments> {
    /// Adds an argument, as [`Query::bind`] does.
    pub fn bind<'t, T: Encode<'t, DB> + SqlType<DB> + Drop>(self, alloc: Global, value: T) -> Self
        ensures rest { result.query ≡ record self.entry.query { arguments = result.query.arguments } }
        ensures arguments { Binds DB.ArgumentBuffer.count DB.ArgumentBuffer.first DB.Arguments.buffered (T.encoded value) (T.refuses value) self.entry.query.arguments result.query.arguments }
    {
        ReadQuery::new(self.query.bind(alloc, value))
    }
}

impl<'q, DB: Database + HasStatementCache, M, A> ReadQuery<'q, DB, M, A> {
    /// Whether the connection is to keep the prepared statement; a query begins with `true`.
    pub fn persistent(self, value: bool) -> Self
        ensures { result.query ≡ record self.entry.query { kept = value } }
    {
        ReadQuery::new(self.query.persistent(value))
    }
}

impl<'q, DB: Database, M: Reader<DB>, A: IntoArguments<DB> + Drop> ReadQuery<'q, DB, M, A> {
    /// Runs it and gives its rows' values, one by one; a refused row gives its error, and the next ones follow.
    pub fn fetch<E: Executor<DB>>(self, alloc: Global, executor: &mut E) -> ReadStream<DB, M>
        ensures rows { Ran E.runs executor.old (handed_over A.becomes self.entry.query) executor.new (λ list. result.rows ≡ rows_of list) }
        ensures unencoded { IfErr (turned A.becomes self.entry.query.arguments) (RunsNothing executor.old executor.new (λ e. result.rows ≡ Err e ∷ [])) }
        ensures rises { E.faults executor.old ≤ E.faults executor.new }
        ensures causes { StepCauses (E.faults executor.old) (E.faults executor.new) (turned A.becomes self.entry.query.arguments) result.rows }
    {
        ReadStream {
            alloc,
            rows: self.query.fetch(alloc, executor),
            by: PhantomData,
        }
    }

    /// Runs it and gives its rows' values and the results of its statements, one by one.
    pub fn fetch_many<E: Executor<DB>>(
        self,
        alloc: Global,
        executor: &mut E,
    ) -> ReadManyStream<DB, M>
        ensures steps { E.runs executor.old (handed_over A.becomes self.entry.query) result.list executor.new }
        ensures unencoded { IfErr (turned A.becomes self.entry.query.arguments) (RunsNothing executor.old executor.new (λ e. result.list ≡ Err e ∷ [])) }
        ensures rises { E.faults executor.old ≤ E.faults executor.new }
        ensures causes { StepCauses (E.faults executor.old) (E.faults executor.new) (turned A.becomes self.entry.query.arguments) result.list }
    {
        ReadManyStream {
            alloc,
            list: self.query.fetch_many(alloc, executor),
            by: PhantomData,
        }
    }

    /// Runs it and gives all its rows' values, or the first error or refusal, or want of memory.
    pub fn fetch_all<E: Executor<DB>>(
        self,
        alloc: Global,
        executor: &mut E,
    ) -> Result<Vec<M::Out>, Error>
        ensures rows { Ran E.runs executor.old (handed_over A.becomes self.entry.query) executor.new (λ list. ReadsAll (λ all. all.items) M.reads (rows_of list) result) }
        ensures unencoded { IfErr (turned A.becomes self.entry.query.arguments) (RunsNothing executor.old executor.new (λ e. Answers (λ all. all.items) Error.OutOfMemory (Err e) result)) }
        ensures rises { E.faults executor.old ≤ E.faults executor.new }
        ensures cause { IfErr result (λ e. Refused M.reads e ⊎ StepCause (E.faults executor.old) (E.faults executor.new) (turned A.becomes self.entry.query.arguments) e) }
    {
        read_all::<DB, M>(alloc, self.query.fetch(alloc, executor))
    }

    /// Runs it and gives its first row's value, or the error or refusal in its place, and `RowNotFound` where there is no row.
    pub fn fetch_one<E: Executor<DB>>(
        self,
        alloc: Global,
        executor: &mut E,
    ) -> Result<M::Out, Error>
        ensures row { Ran E.runs executor.old (handed_over A.becomes self.entry.query) executor.new
            (λ list. ReadsOne M.reads (one_or Error.RowNotFound (first_of (rows_of list))) result) }
        ensures unencoded { IfErr (turned A.becomes self.entry.query.arguments) (RunsNothing executor.old executor.new (λ e. result ≡ Err e)) }
        ensures rises { E.faults executor.old ≤ E.faults executor.new }
        ensures cause { IfErr result (λ e. Refused M.reads e ⊎ ((e ≡ Error.RowNotFound) ⊎ StepCause (E.faults executor.old) (E.faults executor.new) (turned A.becomes self.entry.query.arguments) e)) }
    {
        read_one::<DB, M>(alloc, self.query.fetch_one(alloc, executor))
    }

    /// Runs it and gives its first row's value, or the error or refusal in its place, or `None` where there is no row.
    pub fn fetch_optional<E: Executor<DB>>(
        self,
        alloc: Global,
        executor: &mut E,
    ) -> Result<Option<M::Out>, Error>
        ensures row { Ran E.runs executor.old (handed_over A.becomes self.entry.query) executor.new
            (λ list. ReadsOptional M.reads (first_of (rows_of list)) result) }
        ensures unencoded { IfErr (turned A.becomes self.entry.query.arguments) (RunsNothing executor.old executor.new (λ e. result ≡ Err e)) }
        ensures rises { E.faults executor.old ≤ E.faults executor.new }
        ensures cause { IfErr result (λ e. Refused M.reads e ⊎ StepCause (E.faults executor.old) (E.faults executor.new) (turned A.becomes self.entry.query.arguments) e) }
    {
        read_optional::<DB, M>(alloc, self.query.fetch_optional(alloc, executor))
    }
}

impl<'q, DB: Database, M, A: IntoArguments<DB> + Drop> Execute<DB> for ReadQuery<'q, DB, M, A> {
    ghost text = { λ whole. whole.query.text };

    ghost prepared = { λ whole. whole.query.prepared };

    ghost arguments = { λ whole. turned A.becomes whole.query.arguments };

    ghost kept = { λ whole. whole.query.kept };

    fn sql(self, alloc: Global) -> Result<SqlStr, OutOfMemory> {
        self.query.sql(alloc)
    }

    fn statement(&self) -> Option<&DB::Statement> {
        self.query.statement()
    }

    fn take_arguments(&mut self) -> Result<Option<DB::Arguments>, Fault> {
        self.query.take_arguments()
    }

    fn persistent(&self) -> bool {
        Execute::<DB>::persistent(&self.query)
    }
}
