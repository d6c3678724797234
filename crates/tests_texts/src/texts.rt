//! The texts of statements, whatever they are made from.

use sqlx_text::*;
use std::alloc::Global;
use std::borrow::CowStr;
use std::boxed::BoxedStr;
use std::hash::{DefaultHasher, Hash, Hasher};
use std::process::Abort;
use std::test::*;

fn hash_of<T: Hash>(value: &T) -> u64 {
    let mut hasher = DefaultHasher::new();
    value.hash(&mut hasher);
    hasher.finish()
}

// Stops the test where the statement that is made isn't `a`.
fn makes_an_a<R: Alloc<A = Global> + Abort, T: SqlSafeStr>(rt: &R, text: T) -> Result<(), Fail> {
    let a = SqlStr::from_static("a");
    let sql = text.into_sql_str(rt.alloc())?;
    let told = (sql.as_str(), sql.is("a"), sql.is("b"), hash_of(&sql));
    assert_eq!(rt; told, ("a", true, false, hash_of(&a)));
    assert_eq!(rt; sql.try_clone(rt.alloc())?, a);
    Ok(())
}

#[test]
fn takes_texts_that_stand_there(rt: HostRuntime) -> Result<(), Fail> {
    makes_an_a(&rt, "a")?;
    makes_an_a(&rt, SqlStr::from_static("a"))?;
    makes_an_a(&rt, AssertSqlSafe("a"))?;
    makes_an_a(&rt, AssertSqlSafe(UStr::from_static("a")))?;
    makes_an_a(&rt, AssertSqlSafe(CowStr::Borrowed("a")))
}

#[test]
fn takes_texts_that_are_owned(rt: HostRuntime) -> Result<(), Fail> {
    let alloc = rt.alloc();
    makes_an_a(&rt, AssertSqlSafe(String::from_str(alloc, "a")?))?;
    makes_an_a(&rt, AssertSqlSafe(BoxedStr::from_str(alloc, "a")?))?;
    let owned = CowStr::Owned(String::from_str(alloc, "a")?);
    makes_an_a(&rt, AssertSqlSafe(owned))
}

// Stops the test where the text isn't `abc`.
fn is_abc<R: Alloc<A = Global> + Abort>(rt: &R, text: UStr) -> Result<(), Fail> {
    let abc = UStr::from_static("abc");
    let shown = format!(in rt.alloc(); "{text:>5} {text:?}")?;
    let told = (shown.as_str(), hash_of(&text), text == abc);
    assert_eq!(rt; told, ("  abc \"abc\"", hash_of(&abc), true));
    Ok(())
}

#[test]
fn a_text_is_shared_or_owned_alike(rt: HostRuntime) -> Result<(), Fail> {
    let alloc = rt.alloc();
    let owned = UStr::new(alloc, "abc")?;
    is_abc(&rt, owned.try_clone(alloc)?)?;
    is_abc(&rt, UStr::from_static("abc").try_clone(alloc)?)?;
    is_abc(&rt, UStr::from_string(String::from_str(alloc, "abc")?))
}

#[test]
fn orders_and_parts_texts(rt: HostRuntime) -> Result<(), Fail> {
    let (a, b) = (SqlStr::from_static("a"), SqlStr::from_static("b"));
    let told = (a < b, a == b, hash_of(&a) == hash_of(&b));
    assert_eq!(rt; told, (true, false, false));
    Ok(())
}

#[test]
fn strips_a_prefix(rt: HostRuntime) -> Result<(), Fail> {
    let text = UStr::from_static("abc");
    for (prefix, rest) in &[
        ("", Some("abc")),
        ("ab", Some("c")),
        ("b", None),
        ("abcd", None),
    ] {
        let found = UStr::strip_prefix(rt.alloc(), &text, prefix)?;
        assert_eq!(rt; found.as_ref().map(|found| found.as_str()), *rest);
    }
    Ok(())
}

#[test]
fn names_each_kind(rt: HostRuntime) -> Result<(), Fail> {
    for (kind, name, whole) in &[
        (AnyTypeInfoKind::Null, "NULL", false),
        (AnyTypeInfoKind::Bool, "BOOLEAN", false),
        (AnyTypeInfoKind::SmallInt, "SMALLINT", true),
        (AnyTypeInfoKind::Integer, "INTEGER", true),
        (AnyTypeInfoKind::BigInt, "BIGINT", true),
        (AnyTypeInfoKind::Text, "TEXT", false),
        (AnyTypeInfoKind::Blob, "BLOB", false),
    ] {
        let shown = format!(in rt.alloc(); "{kind}")?;
        assert_eq!(rt; (shown.as_str(), kind.is_integer()), (*name, *whole));
    }
    Ok(())
}
