//! Keys that are written, deleted and read, by queries.
ghost use Rattle.std.specs.Prelude.{◌≡◌, Ok, if◌then◌else◌, is_some};
ghost use Rattle.mem_store.specs.Acts.{seen_by};
ghost use Rattle.mem_store.specs.declared.act.Act.{Act as Doing};
ghost use Rattle.mem_driver.specs.Answers.{result_of};
ghost use Rattle.sqlx_play_acts.specs.ClientActs.{Gives};
ghost use Rattle.sqlx_play_levels.specs.Told.{Comes, Finds};

use crate::bound::{asks, asks_number, executes, finds, number_with, with};
use mem_driver::{DELETE, GET, MemSession, PUT};
use sqlx_any::{AnyConnection, AnyQueryResult};
use sqlx_play_acts::Act;
use sqlx_play_levels::{read, written};
use sqlx_script::Reply;
use sqlx_text::{Error, OutOfMemory};
use std::alloc::Global;

fn put_rows(
    alloc: Global,
    conn: &mut AnyConnection<MemSession>,
    key: i64,
    value: i64,
) -> Result<AnyQueryResult, Error>
    ensures { Comes (Doing.Put key value) (Ok (result_of 1)) conn.old.backend.work result conn.new.backend.work }
{
    let Ok(query) = asks::<MemSession>(alloc, PUT) else {
        return Err(Error::OutOfMemory);
    };
    let query = with::<MemSession>(alloc, query, key);
    let query = with::<MemSession>(alloc, query, value);
    executes(alloc, conn, query)
}

/// Writes a key's value.
pub(crate) fn put(
    alloc: Global,
    conn: &mut AnyConnection<MemSession>,
    key: i64,
    value: i64,
) -> Result<Reply, OutOfMemory>
    ensures { Gives (Act.Put key value) conn.old.backend.work result conn.new.backend.work }
{
    written(put_rows(alloc, conn, key, value))
}

fn delete_rows(
    alloc: Global,
    conn: &mut AnyConnection<MemSession>,
    key: i64,
) -> Result<AnyQueryResult, Error>
    ensures { Comes (Doing.Delete key) (Ok (result_of (if is_some (seen_by key conn.old.backend.work) then 1 else 0))) conn.old.backend.work result conn.new.backend.work }
{
    let Ok(query) = asks::<MemSession>(alloc, DELETE) else {
        return Err(Error::OutOfMemory);
    };
    let query = with::<MemSession>(alloc, query, key);
    executes(alloc, conn, query)
}

/// Deletes a key.
pub(crate) fn delete(
    alloc: Global,
    conn: &mut AnyConnection<MemSession>,
    key: i64,
) -> Result<Reply, OutOfMemory>
    ensures { Gives (Act.Delete key) conn.old.backend.work result conn.new.backend.work }
{
    written(delete_rows(alloc, conn, key))
}

fn get_number(alloc: Global, conn: &mut AnyConnection<MemSession>, key: i64) -> Result<i64, Error>
    ensures { Finds key conn.old.backend.work result conn.new.backend.work }
{
    let Ok(asked) = asks_number::<MemSession>(alloc, GET) else {
        return Err(Error::OutOfMemory);
    };
    let asked = number_with::<MemSession>(alloc, asked, key);
    finds(alloc, conn, asked)
}

/// Reads a key.
pub(crate) fn get(
    alloc: Global,
    conn: &mut AnyConnection<MemSession>,
    key: i64,
) -> Result<Reply, OutOfMemory>
    ensures { Gives (Act.Get key) conn.old.backend.work result conn.new.backend.work }
{
    read(get_number(alloc, conn, key))
}
