//! A query whose rows are mapped.
ghost use Rattle.std.specs.Prelude.{◌≡◌, ◌≤◌, ◌⊎◌, ◌∷◌, [], Err, IfErr};
ghost use Rattle.sqlx_text.specs.declared.error.Error.{Error};
ghost use Rattle.sqlx_traits.specs.Reads.{Answers};
ghost use Rattle.sqlx_traits.specs.StepList.{Ran, RunsNothing, StepCause, StepCauses, first_of, one_or, rows_of};
ghost use Rattle.sqlx_query_drafts.specs.Query.{handed_over, turned};
ghost use Rattle.sqlx_query_rows.specs.Mapping.{MapsAll, ReadsOne, ReadsOptional, RefusedBy, made_by};

use crate::{
    Each, MapManyStream, MapStream, Mapped, MappedRowList, MappedStepList, Mapper, Query, TryEach,
};
use sqlx_query_rows::{map_one, map_optional};
use sqlx_text::{Error, Fault, OutOfMemory, SqlStr};
use sqlx_traits::{Database, Execute, Executor, IntoArguments, Row};
use std::alloc::Global;

/// A query whose rows are mapped.
#[derive(Drop)]
pub struct Map<'q, DB: Database, F, A> {
    query: Query<'q, DB, A>,
    mapper: F,
}

impl<'q, DB: Database, A> Query<'q, DB, A> {
    /// Maps each row.
    pub fn map<O: Drop, F: FnMut(DB::Row) -> O + Drop>(self, f: F) -> Map<'q, DB, Each<F>, A>
        requires { F.IsAlwaysCallable f }
        ensures query { result.query ≡ self.entry }
        ensures mapper { result.mapper.f ≡ f }
    {
        Map {
            query: self,
            mapper: Each { f },
        }
    }

    /// Maps each row by a function that may refuse it.
    pub fn try_map<O: Drop, F: FnMut(DB::Row) -> Result<O, Error> + Drop>(
        self,
        f: F,
    ) -> Map<'q, DB, TryEach<F>, A>
        requires { F.IsAlwaysCallable f }
        ensures query { result.query ≡ self.entry }
        ensures mapper { result.mapper.f ≡ f }
    {
        Map {
            query: self,
            mapper: TryEach { f },
        }
    }
}

impl<'q, DB: Database, F: Mapper<DB::Row>, A> Map<'q, DB, F, A> {
    /// Maps what is made of each row.
    pub fn map<P: Drop, G: FnMut(F::Out) -> P + Drop>(
        self,
        g: G,
    ) -> Map<'q, DB, Mapped<F, Each<G>>, A>
        requires { G.IsAlwaysCallable g }
        ensures query { result.query ≡ self.entry.query }
        ensures first { result.mapper.first ≡ self.entry.mapper }
        ensures then { result.mapper.then.f ≡ g }
    {
        Map {
            query: self.query,
            mapper: Mapped {
                first: self.mapper,
                then: Each { f: g },
            },
        }
    }

    /// Maps what is made of each row by a function that may refuse it.
    pub fn try_map<P: Drop, G: FnMut(F::Out) -> Result<P, Error> + Drop>(
        self,
        g: G,
    ) -> Map<'q, DB, Mapped<F, TryEach<G>>, A>
        requires { G.IsAlwaysCallable g }
        ensures query { result.query ≡ self.entry.query }
        ensures first { result.mapper.first ≡ self.entry.mapper }
        ensures then { result.mapper.then.f ≡ g }
    {
        Map {
            query: self.query,
            mapper: Mapped {
                first: self.mapper,
                then: TryEach { f: g },
            },
        }
    }
}

impl<'q, DB: Database, F: Mapper<DB::Row>, A: IntoArguments<DB> + Drop> Map<'q, DB, F, A> {
    /// Runs it and gives its mapped rows, one by one, and the error behind them if there is one.
    pub fn fetch<E: Executor<DB>>(self, alloc: Global, executor: &mut E) -> MapStream<DB, F>
        ensures rows { Ran E.runs executor.old (handed_over A.becomes self.entry.query) executor.new (λ list. result.rows ≡ rows_of list) }
        ensures mapper { result.mapper ≡ self.entry.mapper }
        ensures unencoded { IfErr (turned A.becomes self.entry.query.arguments) (RunsNothing executor.old executor.new (λ e. result.rows ≡ Err e ∷ [])) }
        ensures rises { E.faults executor.old ≤ E.faults executor.new }
        ensures causes { StepCauses (E.faults executor.old) (E.faults executor.new) (turned A.becomes self.entry.query.arguments) result.rows }
    {
        MappedRowList::new(alloc, self.query.fetch(alloc, executor), self.mapper)
    }

    /// Runs it and gives its mapped rows and the results of its statements, one by one.
    pub fn fetch_many<E: Executor<DB>>(
        self,
        alloc: Global,
        executor: &mut E,
    ) -> MapManyStream<DB, F>
        ensures steps { E.runs executor.old (handed_over A.becomes self.entry.query) result.list executor.new }
        ensures mapper { result.mapper ≡ self.entry.mapper }
        ensures unencoded { IfErr (turned A.becomes self.entry.query.arguments) (RunsNothing executor.old executor.new (λ e. result.list ≡ Err e ∷ [])) }
        ensures rises { E.faults executor.old ≤ E.faults executor.new }
        ensures causes { StepCauses (E.faults executor.old) (E.faults executor.new) (turned A.becomes self.entry.query.arguments) result.list }
    {
        MappedStepList::new(alloc, self.query.fetch_many(alloc, executor), self.mapper)
    }

    /// Runs it and gives all of its mapped rows, or the first error or refusal, or want of memory.
    pub fn fetch_all<E: Executor<DB>>(
        self,
        alloc: Global,
        executor: &mut E,
    ) -> Result<Vec<F::Out>, Error>
        requires { F.ready self.mapper }
        ensures rows { Ran E.runs executor.old (handed_over A.becomes self.entry.query) executor.new (λ list. MapsAll (λ all. all.items) F.maps (rows_of list) self.entry.mapper result) }
        ensures unencoded { IfErr (turned A.becomes self.entry.query.arguments) (RunsNothing executor.old executor.new (λ e. Answers (λ all. all.items) Error.OutOfMemory (Err e) result)) }
        ensures rises { E.faults executor.old ≤ E.faults executor.new }
        ensures cause { IfErr result (λ e. RefusedBy F.maps e ⊎ StepCause (E.faults executor.old) (E.faults executor.new) (turned A.becomes self.entry.query.arguments) e) }
    {
        self.fetch(alloc, executor).all_rows()
    }

    /// Runs it and gives its first mapped row, or the error or refusal in its place, and `RowNotFound` where it has none.
    pub fn fetch_one<E: Executor<DB>>(
        self,
        alloc: Global,
        executor: &mut E,
    ) -> Result<F::Out, Error>
        requires { F.ready self.mapper }
        ensures row { Ran E.runs executor.old (handed_over A.becomes self.entry.query) executor.new
            (λ list. ReadsOne (made_by F.maps self.entry.mapper) (one_or Error.RowNotFound (first_of (rows_of list))) result) }
        ensures unencoded { IfErr (turned A.becomes self.entry.query.arguments) (RunsNothing executor.old executor.new (λ e. result ≡ Err e)) }
        ensures rises { E.faults executor.old ≤ E.faults executor.new }
        ensures cause { IfErr result (λ e. RefusedBy F.maps e ⊎ ((e ≡ Error.RowNotFound) ⊎ StepCause (E.faults executor.old) (E.faults executor.new) (turned A.becomes self.entry.query.arguments) e)) }
    {
        map_one(self.mapper, self.query.fetch_one(alloc, executor))
    }

    /// Runs it and gives its first mapped row, or the error or refusal in its place, or `None` where it has none.
    pub fn fetch_optional<E: Executor<DB>>(
        self,
        alloc: Global,
        executor: &mut E,
    ) -> Result<Option<F::Out>, Error>
        requires { F.ready self.mapper }
        ensures row { Ran E.runs executor.old (handed_over A.becomes self.entry.query) executor.new
            (λ list. ReadsOptional (made_by F.maps self.entry.mapper) (first_of (rows_of list)) result) }
        ensures unencoded { IfErr (turned A.becomes self.entry.query.arguments) (RunsNothing executor.old executor.new (λ e. result ≡ Err e)) }
        ensures rises { E.faults executor.old ≤ E.faults executor.new }
        ensures cause { IfErr result (λ e. RefusedBy F.maps e ⊎ StepCause (E.faults executor.old) (E.faults executor.new) (turned A.becomes self.entry.query.arguments) e) }
    {
        map_optional(self.mapper, self.query.fetch_optional(alloc, executor))
    }
}

impl<'q, DB: Database, F: Drop, A: IntoArguments<DB> + Drop> Execute<DB> for Map<'q, DB, F, A> {
    ghost text = { λ map. map.query.text };

    ghost prepared = { λ map. map.query.prepared };

    ghost arguments = { λ map. turned A.becomes map.query.arguments };

    ghost kept = { λ map. map.query.kept };

    fn sql(self, alloc: Global) -> Result<SqlStr, OutOfMemory> {
        self.query.sql(alloc)
    }

    fn statement(&self) -> Option<&DB::Statement> {
        self.query.statement()
    }

    fn take_arguments(&mut self) -> Result<Option<DB::Arguments>, Fault> {
        self.query.take_arguments()
    }

    fn persistent(&self) -> bool {
        Execute::<DB>::persistent(&self.query)
    }
}
