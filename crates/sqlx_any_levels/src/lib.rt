//! Levels on a borrowed connection of `Any`, where a refusal tells what became of the connection.
#![tactic(auto)]

ghost use Rattle.std.specs.Prelude.{◌≡◌, ◌≢◌, ◌+◌, ◌<◌, ◌≤◌, Err, IfOk, None, Ok, Some};
ghost use Rattle.std.specs.Borrow.{sem};
ghost use Rattle.sqlx_text.specs.declared.error.Error.{Error};
ghost use Rattle.sqlx_traits.specs.Calls as call;
ghost use Rattle.sqlx_any_levels.specs.Lending.{rests_refused};

use sqlx_any::{
    Any, AnyConnection, AnyConnectionBackend, AnyTransactionManager, TransactionManager,
};
use sqlx_text::{Error, SqlStr};
use sqlx_tx::Borrowed;
use std::alloc::Global;

/// Opens a level, which `Transaction::adopt` takes up. Where it is refused, the connection is what the driver's begin
/// made of it and nothing else, with the levels that it had. In sqlx: `begin` of `Connection`.
pub fn begin<B: AnyConnectionBackend>(
    conn: &mut AnyConnection<B>,
    alloc: Global,
) -> Result<Borrowed<'_, Any<B>>, Error>
    ensures* refused { sem 𝓛 (rests_refused B.row B.does B.levels B.faults None conn.entry result (λ begun. begun.0.ghost_name)) }
    ensures only { result ≢ Err Error.InvalidSavePointStatement }
    ensures failed { result ≢ Err Error.BeginFailed }
    ensures same_reference { IfOk result (λ begun. begun.0.ghost_name ≡ conn.entry.ghost_name) }
    ensures levels { IfOk result (λ begun. B.levels begun.0.now.backend ≡ B.levels conn.old.backend + 1) }
    ensures does { IfOk result (λ begun. B.does (call.begin None) conn.old.backend (Ok tt) begun.0.now.backend) }
    ensures rises { IfOk result (λ begun. B.faults conn.old.backend ≤ B.faults begun.0.now.backend) }
{
    match AnyTransactionManager::<B>::begin(alloc, &mut *conn, None) {
        Ok(()) => Ok(Borrowed(conn)),
        Err(error) => Err(error),
    }
}

/// Opens the first level by a statement of your own, as `begin` does. Inside of a transaction it is refused, and the
/// connection is as it was. In sqlx: `begin_with` of `Connection`.
pub fn begin_with<B: AnyConnectionBackend>(
    conn: &mut AnyConnection<B>,
    alloc: Global,
    statement: SqlStr,
) -> Result<Borrowed<'_, Any<B>>, Error>
    ensures* refused { sem 𝓛 (rests_refused B.row B.does B.levels B.faults (Some statement) conn.entry result (λ begun. begun.0.ghost_name)) }
    ensures inside { 0 < B.levels conn.old.backend → result ≡ Err Error.InvalidSavePointStatement }
    ensures only { result ≡ Err Error.InvalidSavePointStatement → 0 < B.levels conn.old.backend }
    ensures failed { result ≡ Err Error.BeginFailed → B.levels conn.old.backend ≡ 0 }
    ensures same_reference { IfOk result (λ begun. begun.0.ghost_name ≡ conn.entry.ghost_name) }
    ensures levels { IfOk result (λ begun. B.levels begun.0.now.backend ≡ B.levels conn.old.backend + 1) }
    ensures does { IfOk result (λ begun. B.does (call.begin (Some statement)) conn.old.backend (Ok tt) begun.0.now.backend) }
    ensures rises { IfOk result (λ begun. B.faults conn.old.backend ≤ B.faults begun.0.now.backend) }
{
    match AnyTransactionManager::<B>::begin(alloc, &mut *conn, Some(statement)) {
        Ok(()) => Ok(Borrowed(conn)),
        Err(error) => Err(error),
    }
}
