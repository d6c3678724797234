//! A level on a connection: it is begun, rows are put, and it is committed or rolled back.
ghost use Rattle.std.specs.Prelude.{◌≡◌, ◌+◌, ◌<◌, ◌^◌, ℕ, IfOk, OnOk, if◌then◌else◌};
ghost use Rattle.sqlx_savepoints.specs.Rows.{Rows};
ghost use Rattle.sqlx_jobs.specs.Level.{IsAtRest, IsWithin, Puts, Commits, Makes, put_too};
ghost use Rattle.sqlx_jobs.specs.Level as spec;

use crate::change::{Change, Put};
use sqlx_jobs_rules::Met;
use sqlx_play_acts::{Act, Answer, ClientLink, MemStore, Reply, Route};
use sqlx_text::OutOfMemory;
use std::alloc::Global;

// What meets a statement.
fn answer_to(refused: bool) -> Answer
    ensures { result ≡ (if refused then Answer.Io else Answer.Accept) }
{
    if refused { Answer::Io } else { Answer::Accept }
}

// Whether a reply says that the statement was refused.
fn is_io(reply: Reply) -> bool
    ensures { result ≡ spec.is_io reply }
{
    matches!(reply, Reply::Io)
}

/// Begins a level.
pub fn begin<R: Route>(
    alloc: Global,
    store: &mut MemStore,
    link: &mut ClientLink,
) -> Result<(), OutOfMemory>
    ensures { OnOk result ((n : ℕ) (rows : Rows) (begun writes : ℕ) → IsAtRest store.old link.old n rows begun writes → begun < 2 ^ 32
        → IsWithin store.new link.new n rows rows (begun + 1) writes) }
{
    R::run(alloc, store, link, Act::Begin, Answer::Accept)?;
    Ok(())
}

// The act that puts a row.
fn act_of(row: Put) -> Act
    ensures { result ≡ Act.Put row.key row.value }
{
    Act::Put(row.key, row.value)
}

// Puts a row, and tells whether it was accepted.
fn put<R: Route>(
    alloc: Global,
    store: &mut MemStore,
    link: &mut ClientLink,
    row: Put,
    refused: bool,
) -> Result<bool, OutOfMemory>
    ensures { IfOk result (λ accepted. (n : ℕ) (before rows : Rows) (begun writes : ℕ) → IsWithin store.old link.old n before rows begun writes → writes < 2 ^ 32
        → Puts refused row n before rows begun writes accepted store.new link.new) }
{
    let reply = R::run(alloc, store, link, act_of(row), answer_to(refused))?;
    Ok(!is_io(reply))
}

// Commits the level, and tells whether that was accepted. A level that couldn't be committed is rolled back.
fn commit<R: Route>(
    alloc: Global,
    store: &mut MemStore,
    link: &mut ClientLink,
    refused: bool,
) -> Result<bool, OutOfMemory>
    ensures { IfOk result (λ accepted. (n : ℕ) (before rows : Rows) (begun writes : ℕ) → IsWithin store.old link.old n before rows begun writes
        → Commits refused n before rows begun writes accepted store.new link.new) }
{
    let reply = R::run(alloc, store, link, Act::Commit, answer_to(refused))?;
    Ok(!is_io(reply))
}

/// Rolls the level back.
pub fn rollback<R: Route>(
    alloc: Global,
    store: &mut MemStore,
    link: &mut ClientLink,
) -> Result<(), OutOfMemory>
    ensures { OnOk result ((n : ℕ) (before rows : Rows) (begun writes : ℕ) → IsWithin store.old link.old n before rows begun writes
        → IsAtRest store.new link.new n before begun writes) }
{
    R::run(alloc, store, link, Act::Rollback, Answer::Accept)?;
    Ok(())
}

// Puts a second row, if there is one.
fn put_second<R: Route>(
    alloc: Global,
    store: &mut MemStore,
    link: &mut ClientLink,
    second: Option<Put>,
) -> Result<(), OutOfMemory>
    ensures { OnOk result ((n : ℕ) (before rows : Rows) (begun writes : ℕ) → IsWithin store.old link.old n before rows begun writes → writes < 2 ^ 32
        → IsWithin store.new link.new n before (put_too second rows) begun writes) }
{
    match second {
        Some(row) => {
            put::<R>(alloc, store, link, row, false)?;
            Ok(())
        }
        None => Ok(()),
    }
}

// Whether the first write is refused.
fn refuses_write(met: Met) -> bool
    ensures { result ≡ spec.refuses_write met }
{
    matches!(met, Met::WriteRefused)
}

// Whether the commit is refused.
fn refuses_commit(met: Met) -> bool
    ensures { result ≡ spec.refuses_commit met }
{
    matches!(met, Met::CommitRefused)
}

/// Makes a change in the level that was begun, and ends it; tells whether all was accepted.
pub fn make<R: Route>(
    alloc: Global,
    store: &mut MemStore,
    link: &mut ClientLink,
    change: &Change,
    met: Met,
) -> Result<bool, OutOfMemory>
    ensures { IfOk result (λ accepted. (n : ℕ) (rows : Rows) (begun writes : ℕ) → IsWithin store.old link.old n rows rows begun writes → writes < 2 ^ 31
        → Makes met change.now n rows begun writes accepted store.new link.new) }
{
    let accepted = put::<R>(alloc, store, link, change.first, refuses_write(met))?;
    if accepted {
        put_second::<R>(alloc, store, link, change.second)?;
        let committed = commit::<R>(alloc, store, link, refuses_commit(met))?;
        Ok(committed)
    } else {
        rollback::<R>(alloc, store, link)?;
        Ok(false)
    }
}
