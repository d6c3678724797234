//! Rust types as arguments of `Any`, and lists of arguments.

use crate::samples::{Sample, value_of};
use crate::says::*;
use sqlx_any::*;
use sqlx_text::{AnyTypeInfoKind, Fault, OutOfMemory};
use std::alloc::Global;
use std::test::*;
use tests_backend::StubBackend;
use tests_backend::cells::{self, described, listed};

// The name of a Rust type, its own type, and whether it reads a value of the type.
fn typed<DB: Database, T: SqlType<DB>>(other: &DB::TypeInfo, line: &mut String) {
    let own = T::type_info();
    told_type(line, T::name(), own.name(), T::compatible(other));
    drop(own);
}

fn told_type(line: &mut String, rust: &str, own: &str, reads: bool) {
    tell(line, &rust);
    tell(line, &own);
    tell(line, &reads);
}

// About how many bytes a value takes, and whether it is of a type of its own.
fn sized<'t, DB: Database, T: Encode<'t, DB>>(value: &T, line: &mut String) {
    tell(line, &value.size_hint());
    let own = value.produces();
    tell(line, &own.is_some());
    drop(own);
}

// Whether a value that was added counts as null.
fn told_null(line: &mut String, told: Result<IsNull, Fault>) {
    match told {
        Ok(told) => tell(line, &told.is_null()),
        Err(fault) => faulted(line, fault),
    }
}

// What is told of a value as an argument, and as it is added in turn, lent and owned.
fn described_as<'t, DB: Database, T: Encode<'t, DB> + SqlType<DB> + Drop>(
    alloc: Global,
    other: &DB::TypeInfo,
    args: &mut DB::Arguments,
    value: T,
    line: &mut String,
) {
    typed::<DB, T>(other, line);
    sized::<DB, T>(&value, line);
    taken(line, args.add(alloc, &value));
    told_null(line, value.encode(alloc, args.buffer()));
}

// The same, and of no value behind it, with the list that they make: a line.
fn argument<'t, B: AnyConnectionBackend, T: Encode<'t, Any<B>> + SqlType<Any<B>> + Drop>(
    alloc: Global,
    value: T,
    line: &mut String,
) {
    let kind = AnyTypeInfoKind::Integer;
    let values = AnyArgumentBuffer::new(alloc);
    let mut args = AnyArguments { values };
    described_as::<Any<B>, T>(alloc, &AnyTypeInfo { kind }, &mut args, value, line);
    let none = <Option<T> as Encode<'t, Any<B>>>::encode(None, alloc, &mut args.values);
    told_null(line, none);
    text(line, listed(alloc, args.values.as_slice()));
    end(line);
    drop(args);
}

fn numbers<B: AnyConnectionBackend>(alloc: Global, line: &mut String) {
    argument::<B, bool>(alloc, true, line);
    argument::<B, i16>(alloc, -5, line);
    argument::<B, i32>(alloc, 5, line);
    argument::<B, i64>(alloc, 70_000, line);
}

fn texts<B: AnyConnectionBackend>(alloc: Global, owned: String, line: &mut String) {
    argument::<B, &str>(alloc, "milk", line);
    argument::<B, String>(alloc, owned, line);
}

fn bytes<B: AnyConnectionBackend>(alloc: Global, owned: Vec<u8>, line: &mut String) {
    argument::<B, &[u8]>(alloc, &[1, 2], line);
    argument::<B, Vec<u8>>(alloc, owned, line);
}

const TYPES: &str = "bool|BOOLEAN|false|1|false|()|false|true|Bool true|Bool true|Null BOOLEAN||\n\
    i16|SMALLINT|true|2|false|()|false|true|SmallInt -5|SmallInt -5|Null SMALLINT||\n\
    i32|INTEGER|true|4|false|()|false|true|Integer 5|Integer 5|Null INTEGER||\n\
    i64|BIGINT|true|8|false|()|false|true|BigInt 70000|BigInt 70000|Null BIGINT||\n\
    &str|TEXT|false|4|false|()|false|true|Text milk|Text milk|Null TEXT||\n\
    String|TEXT|false|1|false|()|false|true|Text x|Text x|Null TEXT||\n\
    &[u8]|BLOB|false|2|false|()|false|true|Blob [1, 2]|Blob [1, 2]|Null BLOB||\n\
    Vec<u8>|BLOB|false|2|false|()|false|true|Blob [1, 2]|Blob [1, 2]|Null BLOB||\n\
    8|false|0|false|false|BigInt 5||\n";

#[test]
fn rust_types_are_arguments(rt: HostRuntime) -> Result<(), Fail> {
    let alloc = rt.alloc();
    let mut told = String::new(alloc);
    numbers::<StubBackend>(alloc, &mut told);
    texts::<StubBackend>(alloc, cells::owned(alloc)?, &mut told);
    bytes::<StubBackend>(alloc, cells::bytes(alloc)?, &mut told);
    of_option::<StubBackend>(alloc, &mut told);
    says(&rt, told, TYPES);
    Ok(())
}

// What is told of an option and of none, whether it counts as null where it is lent, and the list behind it.
fn option<'t, DB: Database<ArgumentBuffer = AnyArgumentBuffer>, T: Encode<'t, DB>>(
    alloc: Global,
    some: &T,
    none: &T,
    line: &mut String,
) {
    sized::<DB, T>(some, line);
    sized::<DB, T>(none, line);
    let mut list = AnyArgumentBuffer::new(alloc);
    told_null(line, some.encode_by_ref(alloc, &mut list));
    text(line, listed(alloc, list.as_slice()));
    end(line);
    drop(list);
}

fn of_option<B: AnyConnectionBackend>(alloc: Global, line: &mut String) {
    option::<Any<B>, Option<i64>>(alloc, &Some(5), &None, line);
}

// Fills a list with three arguments.
fn fill<'t, DB: Database>(alloc: Global, args: &mut DB::Arguments, line: &mut String)
where
    i32: Encode<'t, DB> + SqlType<DB>,
    &'t str: Encode<'t, DB> + SqlType<DB>,
    Option<i64>: Encode<'t, DB> + SqlType<DB>,
{
    given(line, args.reserve(alloc, 3, 12));
    taken(line, args.add(alloc, 5i32));
    taken(line, args.add(alloc, "x"));
    taken(line, args.add(alloc, None::<i64>));
}

// The first so many arguments of a list, how many there are then, and their placeholder.
fn cut<DB: Database>(
    alloc: Global,
    args: DB::Arguments,
    len: usize,
    line: &mut String,
) -> DB::Arguments {
    let mut args = args;
    args.truncate(len);
    let args = ImmutableArguments::<DB>(args).into_arguments();
    tell(line, &args.len());
    let put = args.format_placeholder(alloc, line);
    given(line, put);
    args
}

// Three arguments, cut to so many.
fn kept<'t, DB: Database>(alloc: Global, len: usize, line: &mut String) -> DB::Arguments
where
    i32: Encode<'t, DB> + SqlType<DB>,
    &'t str: Encode<'t, DB> + SqlType<DB>,
    Option<i64>: Encode<'t, DB> + SqlType<DB>,
{
    let mut args = DB::Arguments::new(alloc);
    fill::<DB>(alloc, &mut args, line);
    cut::<DB>(alloc, args, len, line)
}

// The same, how many the list itself counts, and the values.
fn kept_values<B: AnyConnectionBackend>(alloc: Global, len: usize) -> String {
    let mut line = String::new(alloc);
    let args = kept::<Any<B>>(alloc, len, &mut line);
    tell(&mut line, &ArgumentList::len(&args.values));
    let values = args.values.into_values();
    text(&mut line, listed(alloc, values.as_slice()));
    drop(values);
    line
}

#[test]
fn keeps_the_first_arguments(rt: HostRuntime) {
    for (len, want) in &[
        (9, "()|()|()|()|3|?()|3|Integer 5|Text x|Null BIGINT||"),
        (2, "()|()|()|()|2|?()|2|Integer 5|Text x||"),
        (0, "()|()|()|()|0|?()|0||"),
    ] {
        says(&rt, kept_values::<StubBackend>(rt.alloc(), *len), want);
    }
}

// A copy of a value, with its kind.
fn copied(alloc: Global, kind: AnyValueKind) -> Result<String, OutOfMemory> {
    let value = AnyValue { kind };
    let copy = value.try_clone(alloc);
    drop(value);
    let copy = copy?;
    let mut line = String::new(alloc);
    text(&mut line, described(alloc, &copy.kind));
    tell(&mut line, &copy.kind.kind());
    drop(copy);
    Ok(line)
}

const VALUES: &[(Sample, &str)] = &[
    (Sample::Null(AnyTypeInfoKind::Text), "Null TEXT|NULL|"),
    (Sample::Flag(true), "Bool true|BOOLEAN|"),
    (Sample::Small(-5), "SmallInt -5|SMALLINT|"),
    (Sample::Whole(5), "Integer 5|INTEGER|"),
    (Sample::Large(7), "BigInt 7|BIGINT|"),
    (Sample::Text("x"), "Text x|TEXT|"),
    (Sample::Slice("y"), "TextSlice y|TEXT|"),
    (Sample::Blob, "Blob [1, 2]|BLOB|"),
];

#[test]
fn copies_values(rt: HostRuntime) -> Result<(), Fail> {
    let alloc = rt.alloc();
    for (sample, want) in VALUES {
        says(&rt, copied(alloc, value_of(alloc, *sample)?)?, want);
    }
    Ok(())
}

// Bytes, and a copy of them.
fn copied_bytes(alloc: Global) -> Result<String, OutOfMemory> {
    let blob = AnyBlob::new(alloc, &[1, 2])?;
    let copy = blob.try_clone(alloc)?;
    let mut line = String::new(alloc);
    show(&mut line, &blob.as_slice());
    drop(blob);
    shown(&mut line, copy.into_vec());
    Ok(line)
}

// What a type tells of itself: its kind in two ways, whether it is that of nulls or of nothing, and whether it fits that of nulls.
fn told_of(alloc: Global, kind: AnyTypeInfoKind) -> String {
    let ty = AnyTypeInfo { kind };
    let kind = AnyTypeInfoKind::Null;
    let mut line = String::new(alloc);
    show(&mut line, &ty.kind());
    show(&mut line, &ty.any_kind());
    show(&mut line, &ty.is_null());
    show(&mut line, &ty.is_void());
    show(&mut line, &ty.type_compatible(&AnyTypeInfo { kind }));
    line
}

#[test]
fn bytes_and_types_tell_of_themselves(rt: HostRuntime) -> Result<(), Fail> {
    let alloc = rt.alloc();
    says(&rt, copied_bytes(alloc)?, "[1, 2]|[1, 2]|");
    for (kind, want) in &[
        (
            AnyTypeInfoKind::BigInt,
            "BigInt|Some(BigInt)|false|false|false|",
        ),
        (AnyTypeInfoKind::Null, "Null|Some(Null)|true|false|true|"),
    ] {
        says(&rt, told_of(alloc, *kind), want);
    }
    Ok(())
}
