//! What a text asks for with its arguments.
ghost use Rattle.std.specs.Prelude.{◌≡◌};
ghost use Rattle.mem_driver.specs.Asked.{act_with, put_of, values_of, whole_of};

use mem_store::{Act, Statement};
use sqlx_any::{AnyArguments, AnyValueKind};

/// The whole number of an argument.
fn whole(value: &AnyValueKind) -> Option<i64>
    ensures { result ≡ whole_of value.now }
{
    match value {
        AnyValueKind::SmallInt(n) => Some(*n as i64),
        AnyValueKind::Integer(n) => Some(*n as i64),
        AnyValueKind::BigInt(n) => Some(*n),
        _ => None,
    }
}

/// A write of the key's value.
fn put(key: Option<i64>, value: Option<i64>) -> Option<Act>
    ensures { result ≡ put_of key value }
{
    match (key, value) {
        (Some(key), Some(value)) => Some(Act::Put(key, value)),
        _ => None,
    }
}

/// What a statement does with these arguments, none where they don't fit.
fn with_values(statement: Option<Statement>, values: &[AnyValueKind]) -> Option<Act>
    ensures { result ≡ act_with statement values.now }
{
    match (statement?, values) {
        (Statement::Put, [key, value]) => put(whole(key), whole(value)),
        (Statement::Delete, [key]) => Some(Act::Delete(whole(key)?)),
        (Statement::Get, [key]) => Some(Act::Get(whole(key)?)),
        (Statement::SelectAll, []) => Some(Act::SelectAll),
        (Statement::SelectOne, []) => Some(Act::SelectOne),
        (Statement::Level(level), []) => Some(Act::Level(level)),
        _ => None,
    }
}

/// The same, where there may be no list of arguments.
pub(crate) fn asked(statement: Option<Statement>, arguments: &Option<AnyArguments>) -> Option<Act>
    ensures { result ≡ act_with statement (values_of arguments.now) }
{
    match arguments {
        Some(arguments) => with_values(statement, arguments.values.as_slice()),
        None => with_values(statement, &[]),
    }
}
