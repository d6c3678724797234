//! Levels that are begun and ended, by transactions. One that stays open is taken up again by the next act.
ghost use Rattle.std.specs.Prelude.{◌≡◌, ◌<◌, ℕ, Ok, Some, None};
ghost use Rattle.sqlx_traits.specs.Calls as call;
ghost use Rattle.sqlx_tx.specs.Begun.{levels_after};
ghost use Rattle.mem_driver.specs.Asked.{asked};
ghost use Rattle.mem_driver.specs.Backend.{Does};
ghost use Rattle.mem_driver.specs.Session.{depth};
ghost use Rattle.sqlx_play_acts.specs.ClientActs.{Gives, left_by, reply_on, statement_at};
ghost use Rattle.sqlx_play_levels.specs.Ends.{call_of};
ghost use Rattle.sqlx_play_levels.specs.Told.{Answered, reply_to};
ghost use Rattle.sqlx_play_levels.specs.declared.levels.End.{End};

use crate::replies::told;
use mem_driver::{MemSession, SELECT_ONE, begin_at, commit_at, rollback_at};
use sqlx_any::{Any, AnyConnection};
use sqlx_play_acts::Act;
use sqlx_savepoints::LevelText;
use sqlx_script::Reply;
use sqlx_text::{Depth, Error, OutOfMemory, SqlStr};
use sqlx_traits::Database;
use sqlx_tx::{Borrowed, Transaction};
use std::alloc::Global;

// How a level ends.
#[derive(Clone, Copy)]
enum End {
    Commit,
    Rollback,
    GiveUp,
}

// Begins a level, by the statement where one is given, and keeps it open.
fn opened<DB: Database>(
    alloc: Global,
    conn: &mut DB::Connection,
    statement: Option<SqlStr>,
) -> Result<(), Error>
    ensures does { DB.TransactionManager.does (call.begin statement) conn.old result conn.new }
    ensures levels { DB.Connection.levels conn.new ≡ levels_after (DB.Connection.levels conn.old) result }
{
    match Transaction::<DB, Borrowed<'_, DB>>::begin(alloc, Borrowed(conn), statement) {
        Ok(level) => {
            let Borrowed(_conn) = level.keep_open();
            Ok(())
        }
        Err(refused) => {
            let (error, holder) = refused;
            let Borrowed(_conn) = holder;
            Err(error)
        }
    }
}

// Takes the level up that is open, and ends it.
fn ended<DB: Database>(alloc: Global, conn: &mut DB::Connection, how: End) -> Result<(), Error>
    requires { 0 < DB.Connection.levels conn.old }
    ensures does { DB.TransactionManager.does (call_of how) conn.old result conn.new }
    ensures sure { how ≡ End.GiveUp → result ≡ Ok tt }
{
    let level = Transaction::<DB, Borrowed<'_, DB>>::adopt(Borrowed(conn));
    let (holder, answer) = match how {
        End::Commit => level.commit(alloc),
        End::Rollback => level.rollback(alloc),
        End::GiveUp => (level.give_up(), Ok(())),
    };
    let Borrowed(_conn) = holder;
    answer
}

// Begins a level of the database in memory.
fn begin_level(
    alloc: Global,
    conn: &mut AnyConnection<MemSession>,
    statement: Option<SqlStr>,
) -> Result<(), Error>
    ensures does { Does (call.begin statement) conn.old.backend result conn.new.backend }
    ensures levels { depth conn.new.backend ≡ levels_after (depth conn.old.backend) result }
{
    opened::<Any<MemSession>>(alloc, conn, statement)
}

// Ends a level of the database in memory.
fn end_level(alloc: Global, conn: &mut AnyConnection<MemSession>, how: End) -> Result<(), Error>
    requires { 0 < depth conn.old.backend }
    ensures does { Does (call_of how) conn.old.backend result conn.new.backend }
    ensures sure { how ≡ End.GiveUp → result ≡ Ok tt }
{
    ended::<Any<MemSession>>(alloc, conn, how)
}

// The depth and the text of a level that was begun or ended, or why it wasn't.
fn level_reply(answer: Result<(), Error>, depth: u64, text: LevelText) -> Result<Reply, OutOfMemory>
    ensures { Answered (reply_to (λ _. Reply.Level depth text) answer) result }
{
    match answer {
        Ok(()) => Ok(Reply::Level { depth, text }),
        Err(error) => told(error),
    }
}

/// Begins a level.
pub fn begin(alloc: Global, conn: &mut AnyConnection<MemSession>) -> Result<Reply, OutOfMemory>
    ensures { Gives Act.Begin conn.old.backend.work result conn.new.backend.work }
{
    let text = begin_at(conn.depth());
    let answer = begin_level(alloc, conn, None);
    level_reply(answer, conn.depth() as u64, text)
}

// The statement that begins a transaction, or one that doesn't.
fn custom_text(starts: bool) -> &'static str
    ensures { (depth : ℕ) → asked result.now None ≡ Some (statement_at (Act.Custom starts) depth) }
{
    if starts {
        "BEGIN IMMEDIATE"
    } else {
        SELECT_ONE
    }
}

/// Begins a transaction by a statement that begins one, or by one that doesn't.
pub fn custom(
    alloc: Global,
    conn: &mut AnyConnection<MemSession>,
    starts: bool,
) -> Result<Reply, OutOfMemory>
    ensures { Gives (Act.Custom starts) conn.old.backend.work result conn.new.backend.work }
{
    let statement = SqlStr::from_static(custom_text(starts));
    let answer = begin_level(alloc, conn, Some(statement));
    level_reply(answer, 1, LevelText::BeginImmediate)
}

/// Commits the innermost level.
#[tactic(auto, using(crate::proofs::LevelLemmas::commit_gives))]
pub fn commit(alloc: Global, conn: &mut AnyConnection<MemSession>) -> Result<Reply, OutOfMemory>
    requires { 0 < depth conn.old.backend }
    ensures { Gives Act.Commit conn.old.backend.work result conn.new.backend.work }
{
    let depth = conn.depth();
    let answer = end_level(alloc, conn, End::Commit);
    level_reply(answer, depth as u64 - 1, commit_at(depth))
}

/// Rolls the innermost level back.
#[tactic(auto, using(crate::proofs::LevelLemmas::rollback_gives))]
pub fn rollback(alloc: Global, conn: &mut AnyConnection<MemSession>) -> Result<Reply, OutOfMemory>
    requires { 0 < depth conn.old.backend }
    ensures { Gives Act.Rollback conn.old.backend.work result conn.new.backend.work }
{
    let depth = conn.depth();
    let answer = end_level(alloc, conn, End::Rollback);
    level_reply(answer, depth as u64 - 1, rollback_at(depth))
}

/// Leaves the innermost level.
#[tactic(auto, using(crate::proofs::LevelLemmas::give_up_gives))]
pub fn give_up(alloc: Global, conn: &mut AnyConnection<MemSession>) -> Reply
    requires { 0 < depth conn.old.backend }
    ensures reply { result ≡ reply_on Act.GiveUp conn.old.backend.work }
    ensures left { conn.new.backend.work ≡ left_by Act.GiveUp conn.old.backend.work }
{
    let depth = conn.depth();
    let answer = end_level(alloc, conn, End::GiveUp);
    drop(answer);
    Reply::Level {
        depth: depth as u64 - 1,
        text: rollback_at(depth),
    }
}
