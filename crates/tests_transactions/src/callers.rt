//! Callers of transactions, as `CALLING.md` of `sqlx_tx` names them.
ghost use Rattle.std.specs.Prelude.{◌≡◌, ◌+◌, ◌-◌, ◌<◌, Ok, None, OnErr, OnOk};
ghost use Rattle.sqlx_traits.specs.Calls as call;

use sqlx_any::{Any, AnyConnection, AnyConnectionBackend, Connection, Database, Executor};
use sqlx_text::{Error, SqlStr};
use sqlx_tx::{Borrowed, Hold, Transaction, calls};
use std::alloc::Global;

/// A level of a connection that is borrowed.
pub type Level<'c, DB> = Transaction<DB, Borrowed<'c, DB>>;

/// Runs a text in a level of its own, which is kept where it works and given up where it is refused.
pub fn writes<DB: Database>(
    alloc: Global,
    conn: &mut DB::Connection,
    text: &'static str,
) -> Result<(), Error>
where
    DB::Connection: Executor<DB>,
{
    let mut level = calls::begin::<DB>(alloc, conn)?;
    let written = level.as_mut().execute(alloc, text);
    if !calls::is_in_transaction::<DB>(level.as_ref()) {
        drop(written);
        let Borrowed(_conn) = level.into_holder();
        return Err(Error::BeginFailed);
    }
    if let Err(error) = written {
        let Borrowed(_conn) = level.give_up();
        return Err(error);
    }
    let (holder, answer) = level.commit(alloc);
    let Borrowed(_conn) = holder;
    answer
}

/// Runs a text in a level of its own, which is kept where it works and undone where it is refused; a text that ends its
/// level is the caller's own affair.
pub fn runs_within<DB: Database>(
    alloc: Global,
    conn: &mut DB::Connection,
    text: &'static str,
) -> Result<(), Error>
where
    DB::Connection: Executor<DB>,
{
    calls::within::<DB, _, (), Error>(alloc, conn, |conn| -> Result<(), Error> {
        drop(conn.execute(alloc, text)?);
        Ok(())
    })
}

/// Asks for a sign of life in a level that is kept where it comes. It leaves the levels in every case.
pub fn pings_within<DB: Database>(alloc: Global, conn: &mut DB::Connection) -> Result<(), Error>
    ensures { DB.Connection.levels conn.new ≡ DB.Connection.levels conn.old }
{
    calls::transaction::<DB, _, _, _>(alloc, conn, |conn| conn.ping())
}

/// Begins a level on a connection of `Any`, and leaves it open. A refusal leaves the levels.
pub fn opens<B: AnyConnectionBackend>(
    alloc: Global,
    conn: &mut AnyConnection<B>,
) -> Result<(), Error>
    ensures ok { OnOk result (B.levels conn.new.backend ≡ B.levels conn.old.backend + 1) }
    ensures err { OnErr result (B.levels conn.new.backend ≡ B.levels conn.old.backend) }
{
    let level = Transaction::<Any<B>, _>::adopt(sqlx_any_levels::begin(conn, alloc)?);
    let Borrowed(_conn) = level.keep_open();
    Ok(())
}

/// Begins a level, and leaves it open.
pub fn begins<DB: Database>(alloc: Global, conn: &mut DB::Connection) -> Result<(), Error>
    ensures does { OnOk result (DB.TransactionManager.does (call.begin None) conn.old (Ok tt) conn.new) }
    ensures levels { OnOk result (DB.Connection.levels conn.new ≡ DB.Connection.levels conn.old + 1) }
{
    let level = calls::begin::<DB>(alloc, conn)?;
    let Borrowed(_conn) = level.keep_open();
    Ok(())
}

/// Takes up the level that was left open, and commits it.
pub fn commits<DB: Database>(alloc: Global, conn: &mut DB::Connection) -> Result<(), Error>
    requires { 0 < DB.Connection.levels conn.old }
    ensures does { DB.TransactionManager.does call.commit conn.old result conn.new }
    ensures levels { DB.Connection.levels conn.new ≡ DB.Connection.levels conn.old - 1 }
{
    let (holder, answer) = Level::<'_, DB>::adopt(Borrowed(conn)).commit(alloc);
    let Borrowed(_conn) = holder;
    answer
}

/// Opens a level within the one that is open and gives it up, which leaves the outer one open.
pub fn tries<DB: Database>(alloc: Global, conn: &mut DB::Connection) -> Result<(), Error>
    requires { 0 < DB.Connection.levels conn.old }
    ensures { DB.Connection.levels conn.new ≡ DB.Connection.levels conn.old }
{
    let outer = Level::<'_, DB>::adopt(Borrowed(conn));
    match Transaction::<DB, Level<'_, DB>>::begin(alloc, outer, None) {
        Ok(inner) => {
            let outer = inner.give_up();
            let Borrowed(_conn) = outer.keep_open();
            Ok(())
        }
        Err(refused) => {
            let (error, outer) = refused;
            let Borrowed(_conn) = outer.keep_open();
            Err(error)
        }
    }
}

/// Opens a level over whatever holds the connection, by a text where one is given, and gives it up.
pub fn tried<DB: Database, H: Hold<DB>>(
    alloc: Global,
    outer: H,
    text: Option<SqlStr>,
) -> (H, Result<(), Error>)
    ensures { DB.Connection.levels (H.held result.0) ≡ DB.Connection.levels (H.held outer) }
{
    match Transaction::<DB, H>::begin(alloc, outer, text) {
        Ok(level) => (level.give_up(), Ok(())),
        Err(refused) => {
            let (error, outer) = refused;
            (outer, Err(error))
        }
    }
}
