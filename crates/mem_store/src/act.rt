//! A statement with its arguments.
ghost use Rattle.std.specs.Prelude.{◌≡◌};
ghost use Rattle.mem_store.specs.Acts.{act_of};

use crate::statement::Statement;
use sqlx_savepoints::LevelText;

/// What a statement is to do.
#[derive(Clone, Copy)]
pub enum Act {
    /// Writes the key's value.
    Put(i64, i64),
    /// Deletes the key.
    Delete(i64),
    /// Reads the key.
    Get(i64),
    /// Reads all keys and their values.
    SelectAll,
    /// Reads the number 1.
    SelectOne,
    /// Begins or ends a level.
    Level(LevelText),
}

/// The statement with these arguments, none where they don't fit.
pub fn with_arguments(statement: Option<Statement>, arguments: &[i64]) -> Option<Act>
    ensures { result ≡ act_of statement arguments.now }
{
    match (statement?, arguments) {
        (Statement::Put, [key, value]) => Some(Act::Put(*key, *value)),
        (Statement::Delete, [key]) => Some(Act::Delete(*key)),
        (Statement::Get, [key]) => Some(Act::Get(*key)),
        (Statement::SelectAll, []) => Some(Act::SelectAll),
        (Statement::SelectOne, []) => Some(Act::SelectOne),
        (Statement::Level(level), []) => Some(Act::Level(level)),
        _ => None,
    }
}
