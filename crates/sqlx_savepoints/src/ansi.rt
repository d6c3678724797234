//! The texts by which a driver of an ANSI database begins, commits and rolls back a level.
ghost use Rattle.std.specs.Prelude.{◌≡◌, ◌≤◌, IfOk};
ghost use Rattle.sqlx_savepoints.specs.Texts.{text_of, begin_at, commit_at, rollback_at};

use crate::level_text::LevelText;
use sqlx_text::{AssertSqlSafe, OutOfMemory, SqlSafeStr, SqlStr};
use std::alloc::Global;

/// The text that begins a level at this depth: `BEGIN` at 0, else a savepoint of that number.
pub fn begin_ansi_transaction_sql(alloc: Global, depth: usize) -> Result<SqlStr, OutOfMemory>
    ensures { IfOk result (λ text. text ≡ text_of (begin_at depth)) }
{
    let level = if depth == 0 {
        LevelText::Begin
    } else {
        LevelText::Savepoint(depth as u64)
    };
    statement(alloc, level)
}

/// The text that commits the innermost level at this depth: `COMMIT` at 1, else the release of the
/// savepoint that began it, whose number is one less.
pub fn commit_ansi_transaction_sql(alloc: Global, depth: usize) -> Result<SqlStr, OutOfMemory>
    requires { 1 ≤ depth }
    ensures { IfOk result (λ text. text ≡ text_of (commit_at depth)) }
{
    let level = if depth == 1 {
        LevelText::Commit
    } else {
        LevelText::Release(depth as u64 - 1)
    };
    statement(alloc, level)
}

/// The text that rolls the innermost level back at this depth: `ROLLBACK` at 1, else the way back
/// to the savepoint that began it, whose number is one less.
pub fn rollback_ansi_transaction_sql(alloc: Global, depth: usize) -> Result<SqlStr, OutOfMemory>
    requires { 1 ≤ depth }
    ensures { IfOk result (λ text. text ≡ text_of (rollback_at depth)) }
{
    let level = if depth == 1 {
        LevelText::Rollback
    } else {
        LevelText::RollbackTo(depth as u64 - 1)
    };
    statement(alloc, level)
}

fn statement(alloc: Global, level: LevelText) -> Result<SqlStr, OutOfMemory>
    ensures { IfOk result (λ text. text ≡ text_of level) }
{
    AssertSqlSafe(level.to_string(alloc)?).into_sql_str(alloc)
}
