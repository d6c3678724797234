//! Rows and statements of `Any` by their parts, names of columns, and the results of statements.

use crate::says::*;
use sqlx_any::*;
use sqlx_text::{AnyTypeInfoKind, Error, OutOfMemory, SqlStr, UStr};
use std::alloc::Global;
use std::test::*;
use tests_backend::{StubBackend, cells};

// Names with their positions: `x` is at 3 and then at the one given, `y` at 0.
fn names(alloc: Global, position: usize) -> Result<ColumnNames, OutOfMemory> {
    let mut names = ColumnNames::new(alloc);
    for (name, at) in &[("x", 3), ("y", 0), ("x", position)] {
        names.insert(alloc, UStr::from_static(name), *at)?;
    }
    Ok(names)
}

// The positions that a copy of names has.
fn positions(alloc: Global, names: ColumnNames) -> Result<String, OutOfMemory> {
    let copy = names.try_clone(alloc);
    drop(names);
    let copy = copy?;
    let mut line = String::new(alloc);
    show(&mut line, &copy.get("x"));
    show(&mut line, &copy.get("y"));
    show(&mut line, &copy.get("z"));
    drop(copy);
    Ok(line)
}

#[test]
fn finds_names(rt: HostRuntime) -> Result<(), Fail> {
    let alloc = rt.alloc();
    let told = positions(alloc, names(alloc, 1)?)?;
    says(&rt, told, "Some(1)|Some(0)|None|");
    Ok(())
}

// Columns named `y` and `x`.
fn columns(alloc: Global) -> Result<Vec<AnyColumn>, OutOfMemory> {
    let mut columns = Vec::new(alloc);
    cells::keep(&mut columns, cells::column(0, "y", AnyTypeInfoKind::BigInt))?;
    cells::keep(&mut columns, cells::column(1, "x", AnyTypeInfoKind::Text))?;
    Ok(columns)
}

// So many equal values.
fn values(alloc: Global, count: usize) -> Result<Vec<AnyValue>, OutOfMemory> {
    let mut values = Vec::new(alloc);
    for _ in 0..count {
        let kind = cells::text("a");
        cells::keep(&mut values, AnyValue { kind })?;
    }
    Ok(values)
}

// A row of those columns and values, whose name `x` has a position.
fn row(alloc: Global, count: usize, position: usize) -> Result<AnyRow, Error> {
    AnyRow::new(
        names(alloc, position)?,
        columns(alloc)?,
        values(alloc, count)?,
    )
}

// How many columns and values a copy of the row has.
fn lengths(alloc: Global, row: Result<AnyRow, Error>) -> Result<String, Error> {
    let row = row?;
    let copy = row.try_clone(alloc);
    drop(row);
    let copy = copy?;
    let mut line = String::new(alloc);
    tell(&mut line, &copy.columns().len());
    tell(&mut line, &copy.len());
    tell(&mut line, &copy.is_empty());
    drop(copy);
    Ok(line)
}

const UNFIT: &str = "a row has one value for each column, and names none past them|";

#[test]
fn rows_fit(rt: HostRuntime) {
    let alloc = rt.alloc();
    for (count, position, want) in &[
        (2, 1, "2|2|false|"),
        (1, 1, UNFIT),
        (0, 0, UNFIT),
        (2, 2, UNFIT),
    ] {
        let told = lengths(alloc, row(alloc, *count, *position));
        says(&rt, line_of(alloc, told), want);
    }
}

fn origin<B: AnyConnectionBackend>(column: &AnyColumn) -> ColumnOrigin {
    Column::<Any<B>>::origin(column)
}

// A column's position, name, type and origin, of a copy of it.
fn described(line: &mut String, copy: Result<AnyColumn, OutOfMemory>) {
    match copy {
        Ok(column) => {
            tell(line, &column.ordinal());
            tell(line, &column.name());
            tell(line, column.type_info());
            shown(line, origin::<StubBackend>(&column));
            drop(column);
        }
        Err(OutOfMemory) => {}
    }
}

/// A copy of the column that was found.
pub fn found(alloc: Global, line: &mut String, column: Result<&AnyColumn, Error>) {
    match column {
        Ok(column) => described(line, column.try_clone(alloc)),
        Err(error) => refused(line, error),
    }
}

// The table and the column that an origin tells, of a copy of it.
fn table_of(alloc: Global, origin: ColumnOrigin) -> Result<String, OutOfMemory> {
    let copy = origin.try_clone(alloc);
    drop(origin);
    let copy = copy?;
    let mut line = String::new(alloc);
    match copy.table_column() {
        Some(column) => {
            tell(&mut line, &column.table);
            tell(&mut line, &column.name);
        }
        None => tell(&mut line, &"none"),
    }
    drop(copy);
    Ok(line)
}

#[test]
fn origins_tell_their_tables(rt: HostRuntime) -> Result<(), Fail> {
    let alloc = rt.alloc();
    let table = UStr::from_static("notes");
    let name = UStr::from_static("day");
    let origin = ColumnOrigin::Table(TableColumn { table, name });
    says(&rt, table_of(alloc, origin)?, "notes|day|");
    says(&rt, table_of(alloc, ColumnOrigin::Expression)?, "none|");
    Ok(())
}

// Parameters by the kind of their one type, or by their count.
fn parameters_of(
    alloc: Global,
    told: &Option<Either<AnyTypeInfoKind, usize>>,
) -> Result<Option<Either<Vec<AnyTypeInfo>, usize>>, OutOfMemory> {
    match told {
        Some(Either::Left(kind)) => {
            let mut types = Vec::new(alloc);
            cells::keep(&mut types, AnyTypeInfo { kind: *kind })?;
            Ok(Some(Either::Left(types)))
        }
        Some(Either::Right(count)) => Ok(Some(Either::Right(*count))),
        None => Ok(None),
    }
}

// A statement of the two columns and of parameters, whose name `x` has a position.
fn statement(
    alloc: Global,
    told: &Option<Either<AnyTypeInfoKind, usize>>,
    position: usize,
) -> Result<AnyStatement, Error> {
    AnyStatement::new(
        SqlStr::from_static("SELECT"),
        parameters_of(alloc, told)?,
        names(alloc, position)?,
        columns(alloc)?,
    )
}

// How an error calls a column of a statement, and the column at the index.
fn in_statement<I: ColumnIndex<AnyStatement> + Drop>(
    alloc: Global,
    statement: &AnyStatement,
    index: I,
    line: &mut String,
) {
    match index.label(alloc) {
        Ok(label) => {
            tell(line, &label);
            drop(label);
        }
        Err(OutOfMemory) => {}
    }
    found(alloc, line, statement.try_column(alloc, index));
}

// The columns of a statement at four indexes.
fn columns_of_statement(alloc: Global, statement: AnyStatement) -> String {
    let mut line = String::new(alloc);
    in_statement::<usize>(alloc, &statement, 0, &mut line);
    in_statement::<usize>(alloc, &statement, 2, &mut line);
    in_statement::<&str>(alloc, &statement, "x", &mut line);
    in_statement::<&str>(alloc, &statement, "z", &mut line);
    drop(statement);
    line
}

#[test]
fn statements_have_columns(rt: HostRuntime) -> Result<(), Fail> {
    let alloc = rt.alloc();
    says(
        &rt,
        columns_of_statement(alloc, statement(alloc, &None, 1)?),
        "0|0|y|BIGINT|Unknown|2|column index out of bounds: the len is 2, but the index is 2|\
        \"x\"|1|x|TEXT|Unknown|\"z\"|no column found for name: z|",
    );
    Ok(())
}

/// What is told of parameters.
pub fn parameters(line: &mut String, parameters: Option<Either<&[AnyTypeInfo], usize>>) {
    match parameters {
        Some(Either::Left(types)) => show(line, &types),
        Some(Either::Right(count)) => show(line, &count),
        None => tell(line, &"untold"),
    }
}

// The parameters and the text of a copy of the statement.
fn copied(alloc: Global, statement: Result<AnyStatement, Error>) -> Result<String, Error> {
    let statement = statement?;
    let copy = statement.try_clone(alloc);
    drop(statement);
    let copy = copy?;
    let mut line = String::new(alloc);
    parameters(&mut line, copy.parameters());
    shown(&mut line, copy.into_sql());
    Ok(line)
}

const STATEMENTS: &str = "[AnyTypeInfo { kind: Bool }]|SqlStr { text: \"SELECT\" }|\n\
    2|SqlStr { text: \"SELECT\" }|\n\
    untold|SqlStr { text: \"SELECT\" }|\n\
    a statement names no column past its own|\n";

#[test]
fn statements_fit(rt: HostRuntime) {
    let alloc = rt.alloc();
    let mut lines = String::new(alloc);
    for (told, position) in &[
        (Some(Either::Left(AnyTypeInfoKind::Bool)), 1),
        (Some(Either::Right(2)), 1),
        (None, 1),
        (None, 2),
    ] {
        let copied = copied(alloc, statement(alloc, told, *position));
        ended(&mut lines, line_of(alloc, copied));
    }
    says(&rt, lines, STATEMENTS);
}

fn result(rows_affected: u64, last_insert_id: Option<i64>) -> AnyQueryResult {
    AnyQueryResult {
        rows_affected,
        last_insert_id,
    }
}

// The sum of two results.
fn sum(alloc: Global, first: AnyQueryResult, next: AnyQueryResult) -> String {
    let mut all = first;
    all.extend(next);
    let mut line = String::new(alloc);
    tell(&mut line, &all.rows_affected());
    show(&mut line, &all.last_insert_id());
    line
}

#[test]
fn results_add_up(rt: HostRuntime) {
    let alloc = rt.alloc();
    let three = result(3, Some(7));
    for (first, next, want) in &[
        (three, result(2, None), "5|None|"),
        (result(2, None), three, "5|Some(7)|"),
        (
            result(u64::MAX, None),
            three,
            "18446744073709551615|Some(7)|",
        ),
        (AnyQueryResult::empty(), result(1, None), "1|None|"),
    ] {
        says(&rt, sum(alloc, *first, *next), want);
    }
    let mut all = three;
    all.extend(result(2, None));
    assert_eq!(rt; all, result(5, None));
}
