//! What preparing a text gives.
ghost use Rattle.std.specs.Prelude.{◌≡◌, [], IfOk};
ghost use Rattle.mem_driver.specs.Answers.{columns_from, named_from};
ghost use Rattle.mem_driver.specs.Prepared as spec;

use crate::answers::{one_column, pair_columns};
use either::Either;
use mem_store::Statement;
use sqlx_any::{AnyColumn, AnyStatement, ColumnNames};
use sqlx_text::{OutOfMemory, SqlStr};
use std::alloc::Global;

/// How many arguments a statement takes.
fn takes(statement: Statement) -> usize
    ensures { result ≡ spec.takes statement }
{
    match statement {
        Statement::Put => 2,
        Statement::Delete | Statement::Get => 1,
        _ => 0,
    }
}

/// The names of the columns of a statement's rows, and the columns.
fn gives(alloc: Global, statement: Statement) -> Result<(ColumnNames, Vec<AnyColumn>), OutOfMemory>
    ensures { IfOk result (λ made. (made.0 ≡ named_from 0 (spec.gives statement) []) × (made.1.items ≡ columns_from 0 (spec.gives statement))) }
{
    match statement {
        Statement::Get => one_column(alloc, "v"),
        Statement::SelectAll => pair_columns(alloc),
        Statement::SelectOne => one_column(alloc, "1"),
        _ => Ok((ColumnNames::new(alloc), Vec::new(alloc))),
    }
}

/// A text of a statement, prepared.
pub(crate) fn prepared(
    alloc: Global,
    sql: SqlStr,
    statement: Statement,
) -> Result<AnyStatement, OutOfMemory>
    ensures { IfOk result (λ made. made ≡ spec.prepared sql statement) }
{
    let (names, columns) = gives(alloc, statement)?;
    let parameters = Some(Either::Right(takes(statement)));
    match AnyStatement::new(sql, parameters, names, columns) {
        Ok(made) => Ok(made),
        Err(error) => {
            drop(error);
            Err(OutOfMemory)
        }
    }
}
