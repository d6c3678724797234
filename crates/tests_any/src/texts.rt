//! What can be run: texts, and pairs of a text and its arguments; and what the toy database is asked with them.

use crate::says::*;
use sqlx_any::*;
use sqlx_text::{AssertSqlSafe, SqlStr, UStr};
use std::alloc::Global;
use std::borrow::CowStr;
use std::test::*;
use tests_database::{Toy, ToyConnection};

// A way to have the text `SELECT`.
#[derive(Clone, Copy)]
enum Text {
    Owned,
    Boxed,
    Shared,
    Cow,
    Safe,
    Plain,
    SqlStr,
}

fn owned(alloc: Global) -> String {
    let mut text = String::new(alloc);
    drop(text.push_str("SELECT"));
    text
}

/// Asks a connection with a query.
pub fn asks<DB: Database, E: Executor<DB>, Q: Execute<DB>>(alloc: Global, conn: &mut E, query: Q) {
    drop(conn.fetch_many(alloc, query));
}

// Asks it with the text.
fn asks_text<DB: Database, E: Executor<DB>>(alloc: Global, conn: &mut E, text: Text) {
    match text {
        Text::Owned => asks::<DB, E, _>(alloc, conn, AssertSqlSafe(owned(alloc))),
        Text::Boxed => {
            let boxed = owned(alloc).into_boxed_str();
            asks::<DB, E, _>(alloc, conn, AssertSqlSafe(boxed));
        }
        Text::Shared => {
            asks::<DB, E, _>(alloc, conn, AssertSqlSafe(UStr::from_static("SELECT")));
        }
        Text::Cow => {
            asks::<DB, E, _>(alloc, conn, AssertSqlSafe(CowStr::Borrowed("SELECT")));
        }
        Text::Safe => asks::<DB, E, _>(alloc, conn, AssertSqlSafe("SELECT")),
        Text::Plain => asks::<DB, E, _>(alloc, conn, "SELECT"),
        Text::SqlStr => asks::<DB, E, _>(alloc, conn, SqlStr::from_static("SELECT")),
    }
}

// What a connection is asked with the text.
fn asked_text(alloc: Global, conn: ToyConnection, how: Text) -> String {
    let mut conn = conn;
    asks_text::<Toy, ToyConnection>(alloc, &mut conn, how);
    asked(alloc, conn)
}

/// What a connection was asked.
pub fn asked(alloc: Global, conn: ToyConnection) -> String {
    let mut line = String::new(alloc);
    text(&mut line, conn.asked_shown(alloc));
    drop(conn);
    line
}

#[test]
fn texts_are_kept(rt: HostRuntime) -> Result<(), Fail> {
    let alloc = rt.alloc();
    for how in &[
        Text::Owned,
        Text::Boxed,
        Text::Shared,
        Text::Cow,
        Text::Safe,
        Text::Plain,
        Text::SqlStr,
    ] {
        let conn = ToyConnection::new(alloc, "")?;
        says(&rt, asked_text(alloc, conn, *how), "SELECT kept bare|");
    }
    Ok(())
}

// Arguments of a text and of no text.
fn two<'t, DB: Database>(alloc: Global) -> DB::Arguments
where
    &'t str: Encode<'t, DB> + SqlType<DB>,
    Option<String>: Encode<'t, DB> + SqlType<DB>,
{
    let mut args = DB::Arguments::new(alloc);
    drop(args.add(alloc, "x"));
    drop(args.add(alloc, None::<String>));
    args
}

// Asks a connection with a pair of a text and arguments, or none.
fn asks_pair<'t, DB: Database, E: Executor<DB>>(alloc: Global, conn: &mut E, bound: bool)
where
    &'t str: Encode<'t, DB> + SqlType<DB>,
    Option<String>: Encode<'t, DB> + SqlType<DB>,
{
    let arguments = if bound { Some(two::<DB>(alloc)) } else { None };
    asks::<DB, E, (&str, Option<DB::Arguments>)>(alloc, conn, ("SELECT", arguments));
}

// What a connection is asked with the pair.
fn asked_pair(alloc: Global, conn: ToyConnection, bound: bool) -> String {
    let mut conn = conn;
    asks_pair::<Toy, ToyConnection>(alloc, &mut conn, bound);
    asked(alloc, conn)
}

#[test]
fn pairs_have_their_arguments(rt: HostRuntime) -> Result<(), Fail> {
    let alloc = rt.alloc();
    for (bound, want) in &[(false, "SELECT kept bare|"), (true, "SELECT kept|x|null|")] {
        let conn = ToyConnection::new(alloc, "")?;
        says(&rt, asked_pair(alloc, conn, *bound), want);
    }
    Ok(())
}
