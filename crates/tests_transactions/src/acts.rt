//! What is done on a connection in levels, over any database.

use crate::callers::{begins, commits, pings_within, runs_within, tried, tries, writes};
use crate::levels::{By, End, nests};
use crate::writes::Writes;
use sqlx_any::{Database, Executor};
use sqlx_text::{Error, OutOfMemory, SqlStr};
use sqlx_tx::{Borrowed, Hold, calls};
use std::alloc::Global;

/// What is done.
#[derive(Clone, Copy)]
pub enum Act {
    /// Writes in three levels, each within the one before it, and ends them.
    Nest(By, [End; 3]),
    /// Writes a value.
    Write(i64),
    /// Begins a level, and leaves it open.
    Begin,
    /// Commits the level that was left open.
    Commit,
    /// Opens a level within the one that was left open, and gives it up.
    Try,
    /// Opens a level by a text, and gives it up.
    BeginBy(&'static str),
    /// Begins a level by a text, and leaves it open.
    BeginWith(&'static str),
    /// Runs a text in a level of its own.
    Run(&'static str),
    /// Runs a text in a call that has a level of its own.
    RunWithin(&'static str),
    /// Asks for a sign of life in a level.
    Ping,
}

/// Does it all in turn, and writes each answer in a word behind the line.
pub fn perform<DB: Database, W: Writes<DB>>(
    alloc: Global,
    conn: &mut DB::Connection,
    acts: &[Act],
    line: &mut String,
) -> Result<(), OutOfMemory>
where
    DB::Connection: Executor<DB>,
{
    for act in acts {
        let answer = answered::<DB, W>(alloc, conn, act);
        tell(line, word(answer))?;
    }
    Ok(())
}

fn tell(line: &mut String, word: &str) -> Result<(), OutOfMemory> {
    line.push_str(word)?;
    Ok(line.push('|')?)
}

// An answer in a word.
fn word(answer: Result<(), Error>) -> &'static str {
    let told = match &answer {
        Ok(()) => "done",
        Err(Error::Database(_)) => "refused",
        Err(Error::BeginFailed) => "failed",
        Err(Error::InvalidSavePointStatement) => "inside",
        Err(Error::RowNotFound) => "not found",
        Err(_) => "another error",
    };
    drop(answer);
    told
}

fn answered<DB: Database, W: Writes<DB>>(
    alloc: Global,
    conn: &mut DB::Connection,
    act: &Act,
) -> Result<(), Error>
where
    DB::Connection: Executor<DB>,
{
    match act {
        Act::Nest(by, ends) => nests::<DB, W>(alloc, conn, *by, *ends),
        Act::Write(value) => W::write(alloc, conn, *value),
        Act::Run(text) => writes::<DB>(alloc, conn, text),
        Act::RunWithin(text) => runs_within::<DB>(alloc, conn, text),
        act => begun::<DB>(alloc, conn, act),
    }
}

// Begins a level, or does something in one.
fn begun<DB: Database>(alloc: Global, conn: &mut DB::Connection, act: &Act) -> Result<(), Error> {
    match act {
        Act::Begin => begins::<DB>(alloc, conn),
        Act::BeginBy(text) => begins_by::<DB>(alloc, conn, text),
        Act::BeginWith(text) => begins_with::<DB>(alloc, conn, text),
        Act::Ping => pings_within::<DB>(alloc, conn),
        act => within::<DB>(alloc, conn, act),
    }
}

// What is done in a level that was left open.
fn within<DB: Database>(alloc: Global, conn: &mut DB::Connection, act: &Act) -> Result<(), Error> {
    if !calls::is_in_transaction::<DB>(conn) {
        return Err(Error::NotHeld);
    }
    match act {
        Act::Commit => commits::<DB>(alloc, conn),
        _ => tries::<DB>(alloc, conn),
    }
}

// Opens a level by a text, over what borrows the connection, and gives it up.
fn begins_by<DB: Database>(
    alloc: Global,
    conn: &mut DB::Connection,
    text: &'static str,
) -> Result<(), Error> {
    let text = Some(SqlStr::from_static(text));
    let (holder, answer) = tried::<DB, Borrowed<'_, DB>>(alloc, Borrowed(conn), text);
    let Borrowed(_conn) = holder;
    answer
}

// Begins a level by a text in a call, and it stays open.
fn begins_with<DB: Database>(
    alloc: Global,
    conn: &mut DB::Connection,
    text: &'static str,
) -> Result<(), Error> {
    match calls::begin_with::<DB>(alloc, conn, SqlStr::from_static(text)) {
        Ok(level) => {
            let Borrowed(_conn) = level.keep_open();
            Ok(())
        }
        Err(error) => Err(error),
    }
}
