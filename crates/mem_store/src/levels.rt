//! The texts by which a level is begun and ended, by the depth.
ghost use Rattle.std.specs.Prelude.{◌≡◌, ◌≤◌};
ghost use Rattle.sqlx_savepoints.specs.Texts as texts;

use sqlx_savepoints::LevelText;

/// The text that begins a level at this depth.
pub fn begin_at(depth: usize) -> LevelText
    ensures { result ≡ texts.begin_at depth }
{
    if depth == 0 {
        LevelText::Begin
    } else {
        LevelText::Savepoint(depth as u64)
    }
}

/// The text that commits the innermost level.
pub fn commit_at(depth: usize) -> LevelText
    requires { 1 ≤ depth }
    ensures { result ≡ texts.commit_at depth }
{
    if depth == 1 {
        LevelText::Commit
    } else {
        LevelText::Release(depth as u64 - 1)
    }
}

/// The text that rolls the innermost level back.
pub fn rollback_at(depth: usize) -> LevelText
    requires { 1 ≤ depth }
    ensures { result ≡ texts.rollback_at depth }
{
    if depth == 1 {
        LevelText::Rollback
    } else {
        LevelText::RollbackTo(depth as u64 - 1)
    }
}
