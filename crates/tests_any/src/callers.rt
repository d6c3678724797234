//! Callers as a user writes them, with their contracts; each is called once.
ghost use Rattle.std.specs.Prelude.{◌≡◌, true};
ghost use Rattle.sqlx_traits.specs.Reads.{RowRead};
ghost use Rattle.sqlx_any_values.specs.TypedRead.{TypedRead, an_i64};

use crate::says::*;
use sqlx_any::{AnyRow, ColumnIndex, Database, Executor, RowList, TransactionManager};
use sqlx_text::{Depth, Error};
use std::alloc::Global;
use std::test::*;
use tests_backend::cells;
use tests_database::{Toy, ToyConnection};

/// Opens a level and ends it again, whatever comes.
pub fn touch<DB: Database>(alloc: Global, conn: &mut DB::Connection) -> Result<(), Error>
    ensures { DB.Connection.levels conn.new ≡ DB.Connection.levels conn.old }
{
    DB::TransactionManager::begin(alloc, conn, None)?;
    DB::TransactionManager::rollback(alloc, conn)
}

/// How many rows a text has, up to 255.
pub fn rows<DB: Database, E: Executor<DB>>(
    alloc: Global,
    executor: &mut E,
    sql: &'static str,
) -> Result<u8, Error> {
    count(executor.fetch(alloc, sql))
}

fn count<Q: Drop, R: Drop>(list: RowList<Q, R>) -> Result<u8, Error> {
    let mut rows = 0u8;
    for row in list {
        drop(row?);
        rows = rows.saturating_add(1);
    }
    Ok(rows)
}

/// The balance that a row tells.
pub fn balance<I: ColumnIndex<AnyRow> + Drop>(
    alloc: Global,
    row: &AnyRow,
    index: I,
) -> Result<i64, Error>
    ensures { RowRead (λ row. row.values) I.place I.shown row.now index (TypedRead (λ n. n) an_i64 true true) result }
{
    row.try_get::<i64, I>(alloc, index)
}

fn touched(alloc: Global, conn: ToyConnection) -> String {
    let mut conn = conn;
    let mut line = String::new(alloc);
    answered(&mut line, touch::<Toy>(alloc, &mut conn));
    tell(&mut line, &conn.depth());
    drop(conn);
    line
}

fn counted(alloc: Global, conn: ToyConnection) -> String {
    let mut conn = conn;
    let mut line = String::new(alloc);
    let counted = rows::<Toy, ToyConnection>(alloc, &mut conn, "SELECT");
    drop(conn);
    answered(&mut line, counted);
    line
}

fn paid(alloc: Global, row: AnyRow) -> String {
    let mut line = String::new(alloc);
    answered(&mut line, balance::<&str>(alloc, &row, "y"));
    drop(row);
    line
}

#[test]
fn callers_run(rt: HostRuntime) -> Result<(), Fail> {
    let alloc = rt.alloc();
    says(&rt, touched(alloc, ToyConnection::new(alloc, "")?), "()|0|");
    says(&rt, paid(alloc, cells::pair(alloc)?), "7|");
    for (letters, want) in &[
        ("t2t", "2|"),
        ("t!", "error communicating with database: other error|"),
    ] {
        says(
            &rt,
            counted(alloc, ToyConnection::new(alloc, letters)?),
            want,
        );
    }
    Ok(())
}
