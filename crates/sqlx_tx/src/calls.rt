//! Levels of a connection that is borrowed. They stand in a module since `transaction` and `Transaction` can't
//! stand side by side.
ghost use Rattle.std.specs.Prelude.{◌≡◌, ◌≢◌, ◌+◌, ◌-◌, ◌<◌, ◌≤◌, Err, IfErr, IfOk, None, Ok, Option, Result, Some, nat_lt};
ghost use Rattle.std.specs.Fn.{FnOnceReturnsAtMut};
ghost use Rattle.sqlx_text.specs.declared.error.Error.{Error};
ghost use Rattle.sqlx_traits.specs.Calls as call;
ghost use Rattle.sqlx_tx.specs.Within.{Ends, Leaves, RefusesToBegin, RunsWithin, Transacts};

use crate::{Borrowed, Transaction};
use sqlx_text::{Error, SqlStr};
use sqlx_traits::{Database, TransactionManager};
use std::alloc::Global;

/// Whether a level is open. In sqlx: a call of `Connection`.
pub fn is_in_transaction<DB: Database>(conn: &DB::Connection) -> bool
    ensures { result ≡ nat_lt 0 (DB.Connection.levels conn.now) }
{
    DB::TransactionManager::get_transaction_depth(conn) > 0
}

/// Opens a level. In sqlx: a call of `Connection`. Where it may be refused and the connection is needed
/// afterwards, `Transaction::begin` over `Borrowed` says what became of it.
pub fn begin<'c, DB: Database>(
    alloc: Global,
    conn: &'c mut DB::Connection,
) -> Result<Transaction<DB, Borrowed<'c, DB>>, Error>
    ensures only { result ≢ Err Error.InvalidSavePointStatement }
    ensures failed { result ≢ Err Error.BeginFailed }
    ensures same_reference { IfOk result (λ begun. begun.0.ghost_name ≡ conn.entry.ghost_name) }
    ensures levels { IfOk result (λ begun. DB.Connection.levels begun.0.now ≡ DB.Connection.levels conn.old + 1) }
    ensures does { IfOk result (λ begun. DB.TransactionManager.does (call.begin None) conn.old (Ok tt) begun.0.now) }
    ensures rises { IfOk result (λ begun. DB.Connection.faults conn.old ≤ DB.Connection.faults begun.0.now) }
    ensures refused { IfErr result (RefusesToBegin DB.TransactionManager.does DB.Connection.levels DB.Connection.faults None conn.old) }
{
    match DB::TransactionManager::begin(alloc, &mut *conn, None) {
        Ok(()) => Ok(Transaction::adopt(Borrowed(conn))),
        Err(error) => Err(error),
    }
}

/// Opens the first level by a statement of your own. Inside of a transaction it is refused, and nothing runs.
/// In sqlx: a call of `Connection`.
pub fn begin_with<'c, DB: Database>(
    alloc: Global,
    conn: &'c mut DB::Connection,
    statement: SqlStr,
) -> Result<Transaction<DB, Borrowed<'c, DB>>, Error>
    ensures inside { 0 < DB.Connection.levels conn.old → result ≡ Err Error.InvalidSavePointStatement }
    ensures only { result ≡ Err Error.InvalidSavePointStatement → 0 < DB.Connection.levels conn.old }
    ensures failed { result ≡ Err Error.BeginFailed → DB.Connection.levels conn.old ≡ 0 }
    ensures same_reference { IfOk result (λ begun. begun.0.ghost_name ≡ conn.entry.ghost_name) }
    ensures levels { IfOk result (λ begun. DB.Connection.levels begun.0.now ≡ DB.Connection.levels conn.old + 1) }
    ensures does { IfOk result (λ begun. DB.TransactionManager.does (call.begin (Some statement)) conn.old (Ok tt) begun.0.now) }
    ensures rises { IfOk result (λ begun. DB.Connection.faults conn.old ≤ DB.Connection.faults begun.0.now) }
    ensures refused { IfErr result (RefusesToBegin DB.TransactionManager.does DB.Connection.levels DB.Connection.faults (Some statement) conn.old) }
{
    match DB::TransactionManager::begin(alloc, &mut *conn, Some(statement)) {
        Ok(()) => Ok(Transaction::adopt(Borrowed(conn))),
        Err(error) => Err(error),
    }
}

/// Makes the call in a level of its own, which is kept after Ok and undone after Err. The answer is the call's,
/// or the refusal where the level couldn't be begun or ended so. In sqlx: a call of `Connection`.
pub fn transaction<DB: Database, F, R, E>(
    alloc: Global,
    conn: &mut DB::Connection,
    f: F,
) -> Result<R, E>
where
    F: FnOnce(&mut DB::Connection) -> Result<R, E>,
    R: Drop,
    E: From<Error> + Drop,
    requires callable { F.IsAlwaysCallable f }
    requires leaves { Leaves DB.Connection.levels (FnOnceReturnsAtMut F.FnOnce f) }
    ensures levels { DB.Connection.levels conn.new ≡ DB.Connection.levels conn.old }
    ensures transacts { Transacts DB.TransactionManager.does DB.Connection.levels DB.Connection.faults E.from_gives (FnOnceReturnsAtMut F.FnOnce f) conn.old result conn.new }
{
    if let Err(error) = DB::TransactionManager::begin(alloc, &mut *conn, None) {
        return Err(E::from(error));
    }
    let given = called::<DB, F, Result<R, E>>(&mut *conn, f);
    ended::<DB, R, E>(alloc, conn, given)
}

/// Makes the call in a level of its own, as `transaction` does, whatever the call does to the levels: the depth is
/// looked at behind it. Where a level is open it is kept after Ok and undone after Err, and where a text has ended all
/// of them the answer is the call's. So the call may run any query.
pub fn within<DB: Database, F, R, E>(alloc: Global, conn: &mut DB::Connection, f: F) -> Result<R, E>
where
    F: FnOnce(&mut DB::Connection) -> Result<R, E>,
    R: Drop,
    E: From<Error> + Drop,
    requires callable { F.IsAlwaysCallable f }
    ensures runs { RunsWithin DB.TransactionManager.does DB.Connection.levels DB.Connection.faults E.from_gives (FnOnceReturnsAtMut F.FnOnce f) conn.old result conn.new }
{
    if let Err(error) = DB::TransactionManager::begin(alloc, &mut *conn, None) {
        return Err(E::from(error));
    }
    let given = ran::<DB, F, Result<R, E>>(&mut *conn, f);
    if is_in_transaction::<DB>(conn) {
        ended::<DB, R, E>(alloc, conn, given)
    } else {
        given
    }
}

// Makes the call.
fn ran<DB: Database, F, R>(conn: &mut DB::Connection, f: F) -> R
where
    F: FnOnce(&mut DB::Connection) -> R,
    requires callable { F.IsAlwaysCallable f }
    ensures { FnOnceReturnsAtMut F.FnOnce f conn.old result conn.new }
{
    f(conn)
}

// Makes the call, which leaves the levels.
fn called<DB: Database, F, R>(conn: &mut DB::Connection, f: F) -> R
where
    F: FnOnce(&mut DB::Connection) -> R,
    requires callable { F.IsAlwaysCallable f }
    requires leaves { Leaves DB.Connection.levels (FnOnceReturnsAtMut F.FnOnce f) }
    ensures ran { FnOnceReturnsAtMut F.FnOnce f conn.old result conn.new }
    ensures levels { DB.Connection.levels conn.new ≡ DB.Connection.levels conn.old }
{
    f(conn)
}

// Ends the level by what was given in it.
fn ended<DB: Database, R: Drop, E: From<Error> + Drop>(
    alloc: Global,
    conn: &mut DB::Connection,
    given: Result<R, E>,
) -> Result<R, E>
    requires { 0 < DB.Connection.levels conn.old }
    ensures levels { DB.Connection.levels conn.new ≡ DB.Connection.levels conn.old - 1 }
    ensures ends { Ends DB.TransactionManager.does DB.Connection.levels DB.Connection.faults E.from_gives given conn.old result conn.new }
{
    match given {
        Ok(value) => match DB::TransactionManager::commit(alloc, conn) {
            Ok(()) => Ok(value),
            Err(error) => Err(E::from(error)),
        },
        Err(told) => match DB::TransactionManager::rollback(alloc, conn) {
            Ok(()) => Err(told),
            Err(error) => Err(E::from(error)),
        },
    }
}
