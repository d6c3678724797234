//! The forms in `Any` of what a database has of its own, and what it takes of `Any`'s arguments.
ghost use Rattle.std.specs.Prelude.{IfOk};
ghost use Rattle.sqlx_any_values.specs.Names.{AreBelow};

use crate::parts::parameters;
use crate::samples::{Sample, toy_statement, value_of};
use crate::says::*;
use sqlx_any::*;
use sqlx_text::{AnyTypeInfoKind, Error, OutOfMemory, UStr};
use std::alloc::Global;
use std::test::*;
use tests_backend::{StubBackend, cells};
use tests_database::letters::{columns_of, row_of, types_of};
use tests_database::{Toy, ToyColumn, ToyRow, ToyStatement, ToyType, ToyValue};

const UNMAPPED: &str = "error in Any driver mapping: no kind for type POINT|";

fn told_column(line: &mut String, column: &AnyColumn) {
    tell(line, &column.ordinal);
    tell(line, &column.name);
    tell(line, &column.type_info);
}

fn told_columns(line: &mut String, columns: &[AnyColumn]) {
    for column in columns {
        told_column(line, column);
    }
}

fn told_value(alloc: Global, line: &mut String, value: Result<&AnyValue, Error>) {
    match value {
        Ok(value) => text(line, cells::described(alloc, &value.kind)),
        Err(error) => refused(line, error),
    }
}

fn told_values(alloc: Global, line: &mut String, row: &AnyRow) {
    for at in 0..row.len() {
        told_value(alloc, line, row.try_get_raw(alloc, at));
    }
}

// The name of the column that is found by `second`.
fn second(line: &mut String, found: Result<&AnyColumn, Error>) {
    match found {
        Ok(column) => tell(line, &column.name),
        Err(error) => refused(line, error),
    }
}

// The name `second` of the second of so many columns, and none where there is no such one.
fn names(alloc: Global, columns: usize) -> Result<ColumnNames, OutOfMemory>
    ensures { IfOk result (λ names. AreBelow names columns) }
{
    let mut names = ColumnNames::new(alloc);
    names.insert(alloc, UStr::from_static("second"), 1)?;
    if names.are_below(columns) {
        Ok(names)
    } else {
        drop(names);
        Ok(ColumnNames::new(alloc))
    }
}

// The form of a row, whose second column, where it has one, has a name.
fn mapped(alloc: Global, row: &ToyRow) -> Result<AnyRow, Error> {
    let names = names(alloc, row.len())?;
    AnyRow::map_from::<Toy>(alloc, row, names)
}

// A row of `Any`: its values, its columns, and the one that is called `second`.
fn told_row(alloc: Global, form: Result<AnyRow, Error>) -> String {
    let mut line = String::new(alloc);
    match form {
        Ok(form) => {
            told_values(alloc, &mut line, &form);
            told_columns(&mut line, form.columns());
            second(&mut line, form.try_column(alloc, "second"));
            drop(form);
        }
        Err(error) => refused(&mut line, error),
    }
    line
}

const ROWS: &str = "BigInt 7|Text x|0|large|BIGINT|1|text|TEXT|text|\n\
    Text x|BigInt 7|0|text|TEXT|1|large|BIGINT|large|\n\
    Bool true|SmallInt 5|Integer 6|0|flag|BOOLEAN|1|small|SMALLINT|2|whole|INTEGER|small|\n\
    Blob [1, 2]|Null TEXT|0|bytes|BLOB|1|none|TEXT|none|\n\
    no column found for name: second|\n\
    error in Any driver mapping: no kind for type POINT|\n\
    column index out of bounds: the len is 2, but the index is 9|\n\
    error occurred while decoding column 1: no kind for type POINT|\n\
    error occurred while decoding: out of range integral type conversion attempted|\n\
    error occurred while decoding: out of range integral type conversion attempted|\n";

#[test]
fn maps_rows(rt: HostRuntime) -> Result<(), Fail> {
    let alloc = rt.alloc();
    let mut lines = String::new(alloc);
    for letters in &["lt", "tl", "bsi", "yn", "", "lp", "lo", "lq", "le", "eop"] {
        let row = row_of(alloc, letters)?;
        ended(&mut lines, told_row(alloc, mapped(alloc, &row)));
        drop(row);
    }
    says(&rt, lines, ROWS);
    Ok(())
}

// The form of a statement, whose second column has a name.
fn statement(alloc: Global, own: ToyStatement) -> Result<AnyStatement, Error> {
    match names(alloc, own.columns.len()) {
        Ok(names) => AnyStatement::try_from_statement::<Toy>(alloc, own, names),
        Err(OutOfMemory) => {
            drop(own);
            Err(Error::OutOfMemory)
        }
    }
}

// A statement of `Any`: its text, its columns and parameters, and the column that is called `second`.
fn told_statement(alloc: Global, form: Result<AnyStatement, Error>) -> String {
    let mut line = String::new(alloc);
    match form {
        Ok(form) => {
            tell(&mut line, &form.sql().as_str());
            told_columns(&mut line, form.columns());
            parameters(&mut line, form.parameters());
            second(&mut line, form.try_column(alloc, "second"));
            drop(form);
        }
        Err(error) => refused(&mut line, error),
    }
    line
}

#[test]
fn maps_statements(rt: HostRuntime) -> Result<(), Fail> {
    let alloc = rt.alloc();
    for (letters, want) in &[
        (
            "bt",
            "SELECT|0|flag|BOOLEAN|1|text|TEXT|[AnyTypeInfo { kind: Bool }, AnyTypeInfo { kind: Text }]|text|",
        ),
        ("lp", UNMAPPED),
    ] {
        let own = toy_statement(alloc, letters)?;
        says(&rt, told_statement(alloc, statement(alloc, own)), want);
    }
    Ok(())
}

// Parameters by the letters of their types, or by their count.
fn parameters_of(
    alloc: Global,
    told: &Option<Either<&str, usize>>,
) -> Result<Option<Either<Vec<ToyType>, usize>>, OutOfMemory> {
    match told {
        Some(Either::Left(letters)) => Ok(Some(Either::Left(types_of(alloc, letters)?))),
        Some(Either::Right(count)) => Ok(Some(Either::Right(*count))),
        None => Ok(None),
    }
}

// What is told of two columns by letters, of which the first may be null, and of parameters.
fn described(
    alloc: Global,
    letters: &str,
    told: &Option<Either<&str, usize>>,
) -> Result<Describe<Toy>, OutOfMemory> {
    let nullable = vec![in alloc; Some(true), None]?;
    Ok(Describe::<Toy> {
        columns: columns_of(alloc, letters)?,
        parameters: parameters_of(alloc, told)?,
        nullable,
    })
}

// The form of that: its columns and parameters, and which column may be null.
fn told_description<B: AnyConnectionBackend>(
    alloc: Global,
    form: Result<Describe<Any<B>>, Error>,
) -> String {
    let mut line = String::new(alloc);
    match form {
        Ok(form) => {
            told_columns(&mut line, form.columns());
            parameters(&mut line, form.parameters());
            show(&mut line, &form.nullable(0));
            show(&mut line, &form.nullable(1));
            show(&mut line, &form.nullable(2));
            drop(form);
        }
        Err(error) => refused(&mut line, error),
    }
    line
}

fn description<B: AnyConnectionBackend>(alloc: Global, own: Describe<Toy>) -> String {
    told_description::<B>(alloc, own.try_into_any::<B>(alloc))
}

const DESCRIPTIONS: &str =
    "0|large|BIGINT|1|text|TEXT|[AnyTypeInfo { kind: Blob }]|Some(true)|None|None|\n\
    0|text|TEXT|1|large|BIGINT|3|Some(true)|None|None|\n\
    0|large|BIGINT|1|text|TEXT|untold|Some(true)|None|None|\n\
    error in Any driver mapping: no kind for type POINT|\n\
    error in Any driver mapping: no kind for type POINT|\n";

#[test]
fn maps_descriptions(rt: HostRuntime) -> Result<(), Fail> {
    let alloc = rt.alloc();
    let mut lines = String::new(alloc);
    for (letters, told) in &[
        ("lt", Some(Either::Left("y"))),
        ("tl", Some(Either::Right(3))),
        ("lt", None),
        ("lp", None),
        ("lt", Some(Either::Left("p"))),
    ] {
        let own = described(alloc, letters, told)?;
        ended(&mut lines, description::<StubBackend>(alloc, own));
    }
    says(&rt, lines, DESCRIPTIONS);
    Ok(())
}

// The form of a column of a type.
fn form(alloc: Global, kind: Option<AnyTypeInfoKind>) -> String {
    let column = ToyColumn {
        ordinal: 4,
        name: UStr::from_static("w"),
        type_info: ToyType { kind },
    };
    let form = AnyColumn::from_column::<Toy>(alloc, &column);
    drop(column);
    let mut line = String::new(alloc);
    match form {
        Ok(form) => {
            told_column(&mut line, &form);
            drop(form);
        }
        Err(error) => refused(&mut line, error),
    }
    line
}

#[test]
fn maps_columns(rt: HostRuntime) {
    let alloc = rt.alloc();
    for (kind, want) in &[
        (Some(AnyTypeInfoKind::BigInt), "4|w|BIGINT|"),
        (None, UNMAPPED),
    ] {
        says(&rt, form(alloc, *kind), want);
    }
}

// Two arguments.
fn two(alloc: Global, first: Sample, second: Sample) -> Result<AnyArguments, OutOfMemory> {
    let mut values = AnyArgumentBuffer::new(alloc);
    for sample in &[first, second] {
        values.push(value_of(alloc, *sample)?)?;
    }
    Ok(AnyArguments { values })
}

// Arguments with their kinds.
fn listed(line: &mut String, values: &[ToyValue]) {
    for value in values {
        tell(line, value);
        show(line, &value.kind);
    }
}

// What the toy database takes of arguments.
fn taken_of(alloc: Global, args: AnyArguments) -> String {
    let mut line = String::new(alloc);
    match args.convert_into::<Toy>(alloc) {
        Ok(own) => {
            listed(&mut line, own.list.as_slice());
            drop(own);
        }
        Err(fault) => refused(&mut line, Error::encode(fault)),
    }
    line
}

const ARGUMENTS: &str = "5|Some(BigInt)|x|Some(Text)|\n\
    1|Some(SmallInt)|-2|Some(Integer)|\n\
    y|Some(Text)|[1, 2]|Some(Blob)|\n\
    error occurred while encoding a value: out of range integral type conversion attempted|\n\
    null|Some(Bool)|7|Some(BigInt)|\n\
    null|Some(SmallInt)|7|Some(BigInt)|\n\
    null|Some(Integer)|7|Some(BigInt)|\n\
    null|Some(BigInt)|7|Some(BigInt)|\n\
    null|Some(Text)|7|Some(BigInt)|\n\
    null|Some(Blob)|7|Some(BigInt)|\n\
    null|Some(Integer)|7|Some(BigInt)|\n";

const PAIRS: &[(Sample, Sample)] = &[
    (Sample::Large(5), Sample::Text("x")),
    (Sample::Small(1), Sample::Whole(-2)),
    (Sample::Slice("y"), Sample::Blob),
    (Sample::Whole(1), Sample::Flag(true)),
    (Sample::Null(AnyTypeInfoKind::Bool), Sample::Large(7)),
    (Sample::Null(AnyTypeInfoKind::SmallInt), Sample::Large(7)),
    (Sample::Null(AnyTypeInfoKind::Integer), Sample::Large(7)),
    (Sample::Null(AnyTypeInfoKind::BigInt), Sample::Large(7)),
    (Sample::Null(AnyTypeInfoKind::Text), Sample::Large(7)),
    (Sample::Null(AnyTypeInfoKind::Blob), Sample::Large(7)),
    (Sample::Null(AnyTypeInfoKind::Null), Sample::Large(7)),
];

#[test]
fn hands_on_arguments(rt: HostRuntime) -> Result<(), Fail> {
    let alloc = rt.alloc();
    let mut lines = String::new(alloc);
    for (first, second) in PAIRS {
        ended(&mut lines, taken_of(alloc, two(alloc, *first, *second)?));
    }
    says(&rt, lines, ARGUMENTS);
    Ok(())
}
