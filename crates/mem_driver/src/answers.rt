//! The step lists that statements give.
ghost use Rattle.std.specs.Prelude.{◌≡◌, ◌++◌, ◌∷◌, [], Ok, IfOk, OnOk, map, pos};
ghost use Rattle.either.specs.declared.Either.TheVariants.{Right};
ghost use Rattle.std.specs.List.{AllByRecursion};
ghost use Rattle.mem_driver.specs.Answers.{IsI64, RowsFit, columns_from, column_at, done, listed, named_from, oks, one_names, pair_names, pair_row, row_of, value_names};
ghost use Rattle.mem_driver.specs.Answers as answer;
ghost use Rattle.sqlx_any_values.specs.Names.{with_position};

use either::Either;
use sqlx_any::{
    AnyColumn, AnyQueryResult, AnyRow, AnyTypeInfo, AnyValue, AnyValueKind, ColumnNames, StepList,
};
use sqlx_text::{AnyTypeInfoKind, OutOfMemory, UStr};
use std::alloc::Global;
use std::collections::VecDeque;

/// What a statement gives.
pub(crate) type Steps = StepList<AnyQueryResult, AnyRow>;

type Items = VecDeque<Either<AnyQueryResult, AnyRow>>;

// ---- columns and rows

fn column(position: usize, name: &'static str) -> AnyColumn
    ensures { result ≡ column_at position name.entry.now }
{
    AnyColumn {
        ordinal: position,
        name: UStr::from_static(name),
        type_info: AnyTypeInfo {
            kind: AnyTypeInfoKind::BigInt,
        },
    }
}

/// One more column behind the others, and its name.
fn add_column(
    alloc: Global,
    names: &mut ColumnNames,
    columns: &mut Vec<AnyColumn>,
    position: usize,
    name: &'static str,
) -> Result<(), OutOfMemory>
    ensures names { OnOk result (names.new ≡ with_position names.old name.entry.now position) }
    ensures columns { OnOk result (columns.new.items ≡ columns.old.items ++ column_at position name.entry.now ∷ []) }
{
    names.insert(alloc, UStr::from_static(name), position)?;
    columns.push(column(position, name))?;
    Ok(())
}

/// The name of one column, and the column.
pub(crate) fn one_column(
    alloc: Global,
    name: &'static str,
) -> Result<(ColumnNames, Vec<AnyColumn>), OutOfMemory>
    ensures { IfOk result (λ made. (made.0 ≡ named_from 0 (name.entry.now ∷ []) []) × (made.1.items ≡ columns_from 0 (name.entry.now ∷ []))) }
{
    let mut names = ColumnNames::new(alloc);
    let mut columns = Vec::new(alloc);
    add_column(alloc, &mut names, &mut columns, 0, name)?;
    Ok((names, columns))
}

/// The names of the columns of a key and its value, and the columns.
pub(crate) fn pair_columns(alloc: Global) -> Result<(ColumnNames, Vec<AnyColumn>), OutOfMemory>
    ensures { IfOk result (λ made. (made.0 ≡ named_from 0 pair_names []) × (made.1.items ≡ columns_from 0 pair_names)) }
{
    let mut names = ColumnNames::new(alloc);
    let mut columns = Vec::new(alloc);
    add_column(alloc, &mut names, &mut columns, 0, "k")?;
    add_column(alloc, &mut names, &mut columns, 1, "v")?;
    Ok((names, columns))
}

fn value(number: i64) -> AnyValue
    ensures { result ≡ answer.value_of number }
{
    AnyValue {
        kind: AnyValueKind::BigInt(number),
    }
}

/// A row of such parts, which fit.
fn row(
    names: ColumnNames,
    columns: Vec<AnyColumn>,
    values: Vec<AnyValue>,
) -> Result<AnyRow, OutOfMemory>
    ensures { IfOk result (λ row. row ≡ record { names = names; columns = columns.items; values = values.items }) }
{
    match AnyRow::new(names, columns, values) {
        Ok(row) => Ok(row),
        Err(error) => {
            drop(error);
            Err(OutOfMemory)
        }
    }
}

#[tactic(auto, using(crate::proofs::AnswersLemmas::is_i64))]
fn single(alloc: Global, name: &'static str, number: i64) -> Result<AnyRow, OutOfMemory>
    ensures row { IfOk result (λ row. row ≡ row_of (name.entry.now ∷ []) (number ∷ [])) }
    ensures fits { IfOk result (λ row. AllByRecursion IsI64 row.values) }
{
    let (names, columns) = one_column(alloc, name)?;
    let mut values = Vec::new(alloc);
    values.push(value(number))?;
    row(names, columns, values)
}

#[tactic(auto, using(crate::proofs::AnswersLemmas::is_i64))]
fn pair_of(alloc: Global, key: i64, number: i64) -> Result<AnyRow, OutOfMemory>
    ensures row { IfOk result (λ row. row ≡ pair_row (key, number)) }
    ensures fits { IfOk result (λ row. AllByRecursion IsI64 row.values) }
{
    let (names, columns) = pair_columns(alloc)?;
    let mut values = Vec::new(alloc);
    values.push(value(key))?;
    values.push(value(number))?;
    row(names, columns, values)
}

fn pair(alloc: Global, item: &(i64, i64)) -> Result<AnyRow, OutOfMemory>
    ensures row { IfOk result (λ row. row ≡ pair_row item.now) }
    ensures fits { IfOk result (λ row. AllByRecursion IsI64 row.values) }
{
    let (key, number) = *item;
    pair_of(alloc, key, number)
}

// ---- step lists

fn result_of(rows: u64) -> AnyQueryResult
    ensures { result ≡ answer.result_of rows }
{
    AnyQueryResult {
        rows_affected: rows,
        last_insert_id: None,
    }
}

/// These items, and then a result of so many rows.
fn finished(items: Items, rows: u64) -> Result<Steps, OutOfMemory>
    ensures { IfOk result (λ steps. steps ≡ map Ok items.items ++ done rows) }
{
    let mut items = items;
    items.push_back(Either::Left(result_of(rows)))?;
    Ok(StepList::new(items, None))
}

/// A result of so many rows.
pub(crate) fn written(alloc: Global, rows: u64) -> Result<Steps, OutOfMemory>
    ensures steps { IfOk result (λ steps. steps ≡ done rows) }
    ensures fits { IfOk result RowsFit }
{
    finished(VecDeque::new(alloc), rows)
}

/// One row of one number, and then a result of no row.
fn one_row(alloc: Global, name: &'static str, number: i64) -> Result<Steps, OutOfMemory>
    ensures steps { IfOk result (λ steps. steps ≡ listed (row_of (name.entry.now ∷ []) (number ∷ []) ∷ [])) }
    ensures fits { IfOk result RowsFit }
{
    let mut items = VecDeque::new(alloc);
    items.push_back(Either::Right(single(alloc, name, number)?))?;
    finished(items, 0)
}

/// The row of a value if there is one, and then a result of no row.
pub(crate) fn found(alloc: Global, value: Option<i64>) -> Result<Steps, OutOfMemory>
    ensures steps { IfOk result (λ steps. steps ≡ listed (answer.found value)) }
    ensures fits { IfOk result RowsFit }
{
    match value {
        Some(number) => one_row(alloc, "v", number),
        None => written(alloc, 0),
    }
}

/// The row of the number 1, and then a result of no row.
pub(crate) fn one(alloc: Global) -> Result<Steps, OutOfMemory>
    ensures steps { IfOk result (λ steps. steps ≡ listed (row_of one_names (pos 1 ∷ []) ∷ [])) }
    ensures fits { IfOk result RowsFit }
{
    one_row(alloc, "1", 1)
}

/// One more row behind the items.
#[tactic(auto, using(crate::proofs::AnswersLemmas::fit_pushed))]
fn push_row(items: &mut Items, row: AnyRow) -> Result<(), OutOfMemory>
    ensures items { OnOk result (items.new.items ≡ items.old.items ++ Right row ∷ []) }
    ensures fits { RowsFit (oks items.old.items) → AllByRecursion IsI64 row.values → OnOk result (RowsFit (oks items.new.items)) }
{
    items.push_back(Either::Right(row))?;
    Ok(())
}

/// The row of each pair, and then a result of no row.
pub(crate) fn all(alloc: Global, pairs: Vec<(i64, i64)>) -> Result<Steps, OutOfMemory>
    ensures steps { IfOk result (λ steps. steps ≡ listed (map pair_row pairs.items)) }
    ensures fits { IfOk result RowsFit }
{
    let mut items = VecDeque::new(alloc);
    for item in pairs.iter() {
        push_row(&mut items, pair(alloc, item)?)?;
    }
    finished(items, 0)
}
