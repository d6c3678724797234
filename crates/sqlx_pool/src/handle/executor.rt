//! The calls of a pool as an executor.

ghost use Rattle.std.specs.Prelude.{◌≡◌, ℕ, ◌<◌, ◌≤◌, ◌⊎◌, ◌∷◌, [], Err, IfErr, IfOk};
ghost use Rattle.sqlx_traits.specs.Faults.{FaultCause};
ghost use Rattle.sqlx_traits.specs.Handed.{handed};
ghost use Rattle.sqlx_traits.specs.StepList.{StepCauses};
ghost use Rattle.sqlx_pool.specs.Handle.{is_of_no_driver, told, WasRefused, WorkedOn};

use super::PoolHandle;
use crate::steps::PoolSteps;
use crate::{Clock, PoolConnectionOf, PoolOf};
use sqlx_pool_core::Outside;
use sqlx_pool_parts::taken::Taken;
use sqlx_text::{Error, IoFault, SqlStr};
use sqlx_traits::{Database, Execute, Executor, FetchMany, StepList};
use sqlx_tx::Hold;
use std::alloc::Global;
use std::sync::Wait;

// The pool of a database as an executor.
type Handle<'p, DB, S, R, K, X> = PoolHandle<
    'p,
    PoolOf<<DB as Database>::Connection, <DB as Database>::Options, S>,
    <S as PoolSteps<<DB as Database>::Connection, <DB as Database>::Options>>::Tally,
    R,
    K,
    X,
>;

// It is one of the two errors of a begin, or that of arguments which can't be had.
fn is_of_no_driver(error: &Error) -> bool
    ensures { result ≡ is_of_no_driver error.now }
{
    match error {
        Error::InvalidSavePointStatement => true,
        Error::BeginFailed => true,
        Error::Encode(_) => true,
        _ => false,
    }
}

// An error of the lending, as an executor tells it: a connect may answer these three, and an executor may not.
fn as_told(error: Error) -> Error
    ensures { result ≡ told error }
{
    if is_of_no_driver(&error) {
        drop(error);
        Error::Io(IoFault::Other)
    } else {
        error
    }
}

// Runs a query on a connection that was lent.
fn run_on<DB: Database, S: PoolSteps<DB::Connection, DB::Options>, Q: Execute<DB>>(
    alloc: Global,
    conn: &mut PoolConnectionOf<DB::Connection, DB::Options, S>,
    query: Q,
) -> FetchMany<DB>
where
    DB::Connection: Executor<DB>,
    ensures steps { DB.Connection.runs conn.old.raw (handed Q.text Q.arguments Q.kept query) result conn.new.raw }
    ensures causes { StepCauses (DB.Connection.faults conn.old.raw) (DB.Connection.faults conn.new.raw) (Q.arguments query) result }
{
    Executor::<DB>::fetch_many(Hold::<DB>::conn_mut(conn), alloc, query)
}

// Prepares a statement on a connection that was lent.
fn prepare_on<DB: Database, S: PoolSteps<DB::Connection, DB::Options>>(
    alloc: Global,
    conn: &mut PoolConnectionOf<DB::Connection, DB::Options, S>,
    sql: SqlStr,
    parameters: &[DB::TypeInfo],
) -> Result<DB::Statement, Error>
where
    DB::Connection: Executor<DB>,
    ensures prepared { DB.Connection.prepares conn.old.raw sql parameters.now result conn.new.raw }
    ensures text { IfOk result (λ statement. DB.Statement.text statement ≡ sql) }
    ensures cause { IfErr result (FaultCause (DB.Connection.faults conn.old.raw) (DB.Connection.faults conn.new.raw)) }
{
    Executor::<DB>::prepare_with(Hold::<DB>::conn_mut(conn), alloc, sql, parameters)
}

// Waits for a connection, runs a query on it and returns it.
#[tactic(auto, using(crate::proofs::HandleLemmas::causes_counted))]
fn run<
    DB: Database,
    S: PoolSteps<DB::Connection, DB::Options>,
    R: Wait + Drop,
    K: Clock,
    X: Outside<DB::Connection, DB::Options>,
    Q: Execute<DB>,
>(handle: &mut Handle<'_, DB, S, R, K, X>, alloc: Global, query: Q) -> FetchMany<DB>
where
    DB::Connection: Executor<DB> + Drop,
    ensures ran { WasRefused (X.faults handle.old.out) (X.faults handle.new.out) (S.Tally.counted handle.old.tally) (S.Tally.counted handle.new.tally) (λ e. result ≡ Err e ∷ [])
        ⊎ WorkedOn DB.Connection.levels DB.Connection.faults (S.Tally.counted handle.old.tally) (S.Tally.counted handle.new.tally)
        (λ first last. DB.Connection.runs first (handed Q.text Q.arguments Q.kept query) result last) (λ before now. StepCauses before now (Q.arguments query) result) }
    ensures rises { handle.old.calls ≤ handle.new.calls }
    ensures causes { StepCauses handle.old.calls handle.new.calls (Q.arguments query) result }
{
    match handle.lend(alloc) {
        Ok(lent) => {
            let mut conn = lent;
            let list = run_on::<DB, S, Q>(alloc, &mut conn, query);
            handle.give_back(alloc, conn);
            list
        }
        Err(error) => {
            drop(query);
            StepList::refused(alloc, as_told(error))
        }
    }
}

// Waits for a connection, prepares a statement on it and returns it.
#[tactic(auto, using(crate::proofs::HandleLemmas::errs_counted))]
fn prepare<
    DB: Database,
    S: PoolSteps<DB::Connection, DB::Options>,
    R: Wait + Drop,
    K: Clock,
    X: Outside<DB::Connection, DB::Options>,
>(
    handle: &mut Handle<'_, DB, S, R, K, X>,
    alloc: Global,
    sql: SqlStr,
    parameters: &[DB::TypeInfo],
) -> Result<DB::Statement, Error>
where
    DB::Connection: Executor<DB> + Drop,
    ensures ran { WasRefused (X.faults handle.old.out) (X.faults handle.new.out) (S.Tally.counted handle.old.tally) (S.Tally.counted handle.new.tally) (λ e. result ≡ Err e)
        ⊎ WorkedOn DB.Connection.levels DB.Connection.faults (S.Tally.counted handle.old.tally) (S.Tally.counted handle.new.tally)
        (λ first last. DB.Connection.prepares first sql parameters.now result last) (λ before now. IfErr result (FaultCause before now)) }
    ensures text { IfOk result (λ statement. DB.Statement.text statement ≡ sql) }
    ensures rises { handle.old.calls ≤ handle.new.calls }
    ensures cause { IfErr result (FaultCause handle.old.calls handle.new.calls) }
{
    match handle.lend(alloc) {
        Ok(lent) => {
            let mut conn = lent;
            let prepared = prepare_on::<DB, S>(alloc, &mut conn, sql, parameters);
            handle.give_back(alloc, conn);
            prepared
        }
        Err(error) => {
            drop(sql);
            Err(as_told(error))
        }
    }
}

impl<
    'p,
    DB: Database,
    S: PoolSteps<DB::Connection, DB::Options>,
    R: Wait + Drop,
    K: Clock,
    X: Outside<DB::Connection, DB::Options>,
> Executor<DB> for PoolHandle<'p, PoolOf<DB::Connection, DB::Options, S>, S::Tally, R, K, X>
where
    DB::Connection: Executor<DB> + Drop,
{
    ghost use Rattle.std.specs.Prelude.{◌≡◌, ◌⊎◌, ◌∷◌, [], Err, IfErr, IfOk};
    ghost use Rattle.sqlx_traits.specs.Faults.{FaultCause};
    ghost use Rattle.sqlx_traits.specs.StepList.{RunsNothing, StepCauses};
    ghost use Rattle.sqlx_pool.specs.Handle.{WasRefused, WorkedOn};

    ghost runs = { λ handle query list after. IfErr query.arguments (RunsNothing handle after (λ e. list ≡ Err e ∷ [])) × IfOk query.arguments (λ _.
        WasRefused (X.faults handle.out) (X.faults after.out) (S.Tally.counted handle.tally) (S.Tally.counted after.tally) (λ e. list ≡ Err e ∷ [])
        ⊎ WorkedOn DB.Connection.levels DB.Connection.faults (S.Tally.counted handle.tally) (S.Tally.counted after.tally)
        (λ first last. DB.Connection.runs first query list last) (λ before now. StepCauses before now query.arguments list)) };

    ghost prepares = { λ handle sql parameters answer after. WasRefused (X.faults handle.out) (X.faults after.out) (S.Tally.counted handle.tally) (S.Tally.counted after.tally) (λ e. answer ≡ Err e)
        ⊎ WorkedOn DB.Connection.levels DB.Connection.faults (S.Tally.counted handle.tally) (S.Tally.counted after.tally)
        (λ first last. DB.Connection.prepares first sql parameters answer last) (λ before now. IfErr answer (FaultCause before now)) };

    fn fetch_many<Q: Execute<DB>>(&mut self, alloc: Global, query: Q) -> FetchMany<DB> {
        match Taken::<DB, Q>::new(query) {
            Ok(taken) => run::<DB, S, R, K, X, Taken<DB, Q>>(self, alloc, taken),
            Err(fault) => StepList::not_encoded(alloc, fault),
        }
    }

    fn prepare_with(
        &mut self,
        alloc: Global,
        sql: SqlStr,
        parameters: &[DB::TypeInfo],
    ) -> Result<DB::Statement, Error> {
        prepare::<DB, S, R, K, X>(self, alloc, sql, parameters)
    }
}
