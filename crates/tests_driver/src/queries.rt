//! Queries with bound values and a transaction of texts, on a connection over a session.
use mem_driver::{Answer, GET, MemLink, MemSession, MemStore, PUT, SELECT_ALL};
use sqlx_any::AnyConnection;
use sqlx_text::Error;
use std::alloc::Global;
use std::process::Abort;
use std::test::*;
use tests_kv::Act;
use tests_kv::opened::{answers_at, answers_of};
use tests_kv::shown::told;

// A session of a new database, whose first statement meets the answer.
fn session(alloc: Global, answer: Answer) -> Result<MemSession, Error> {
    let mut store = MemStore::new(alloc);
    let link = MemLink::connect(alloc, &mut store)?;
    Ok(MemSession::new(store, link, answer))
}

// What a connection over such a session answers.
fn answers(alloc: Global, answer: Answer, acts: &[Act]) -> Result<String, Error> {
    let conn = AnyConnection::new(session(alloc, answer)?);
    answers_of(alloc, conn, acts)
}

// Stops the test where another line is answered.
fn says<R: Alloc<A = Global> + Abort>(
    rt: &R,
    answer: Answer,
    acts: &[Act],
    want: &str,
) -> Result<(), Fail> {
    let line = told(rt.alloc(), answers(rt.alloc(), answer, acts))?;
    assert_eq!(rt; line.as_str(), want);
    Ok(())
}

const TO_A_SAVEPOINT: &[Act] = &[
    Act::Run("BEGIN"),
    Act::Put(1, 5),
    Act::Run("SAVEPOINT _sqlx_savepoint_1"),
    Act::Put(1, 6),
    Act::Get(1),
    Act::Run("ROLLBACK TO SAVEPOINT _sqlx_savepoint_1"),
    Act::Get(1),
    Act::Run("COMMIT"),
    Act::Get(1),
    Act::Get(2),
    Act::Run("BEGIN IMMEDIATE"),
    Act::Depth,
];

#[test]
fn a_rollback_to_a_savepoint(rt: HostRuntime) -> Result<(), Fail> {
    let want = "0|1|0|1|Some(6)|0|Some(5)|0|Some(5)|None|0|1|";
    says(&rt, Answer::Accept, TO_A_SAVEPOINT, want)
}

const THREE_KEYS: &[Act] = &[
    Act::Put(3, 30),
    Act::Put(-1, -10),
    Act::Put(2, 20),
    Act::Numbers(SELECT_ALL, 0),
    Act::Numbers(SELECT_ALL, 1),
];

#[test]
fn all_rows_in_the_order_of_the_keys(rt: HostRuntime) -> Result<(), Fail> {
    let want = "1|1|1|[-1, 2, 3]|[-10, 20, 30]|";
    says(&rt, Answer::Accept, THREE_KEYS, want)
}

const ONE_KEY: &[Act] = &[Act::Put(1, 5), Act::GetOne(1), Act::GetOne(2), Act::Cached];

#[test]
fn a_row_that_is_missing(rt: HostRuntime) -> Result<(), Fail> {
    let want = "1|1|no rows returned by a query that expected to return at least one row|2|";
    says(&rt, Answer::Accept, ONE_KEY, want)
}

const TEXTS: &[Act] = &[
    Act::Run("BEGIN"),
    Act::Run("COMMIT"),
    Act::Run("SELECT 2"),
    Act::Run(PUT),
];

#[test]
fn what_is_refused(rt: HostRuntime) -> Result<(), Fail> {
    let said = "error returned from database";
    let want = format!(in rt.alloc();
        "{said}: refused|{said}: unread|{said}: unread|{said}: unread|"
    )?;
    says(&rt, Answer::Refuse, TEXTS, &want)
}

const BEGINS: &[Act] = &[
    Act::BeginWith("SELECT 1"),
    Act::BeginWith("BEGIN IMMEDIATE"),
    Act::BeginWith("BEGIN IMMEDIATE"),
];

#[test]
fn a_begin_by_a_text(rt: HostRuntime) -> Result<(), Fail> {
    let failed = "got unexpected connection status after attempting to begin transaction";
    let inside = "attempted to call begin_with at non-zero transaction depth";
    let want = format!(in rt.alloc(); "{failed}|()|{inside}|")?;
    says(&rt, Answer::Accept, BEGINS, &want)
}

const STATEMENTS: &[Act] = &[
    Act::Run("SELECT 1"),
    Act::Cached,
    Act::Put(1, 5),
    Act::Get(1),
    Act::Cached,
    Act::Prepare(PUT),
    Act::Prepare(GET),
    Act::Prepare(SELECT_ALL),
];

#[test]
fn statements_are_cached_and_prepared(rt: HostRuntime) -> Result<(), Fail> {
    let want = "0|0|1|Some(5)|2|0|1|2|";
    says(&rt, Answer::Accept, STATEMENTS, want)
}

const TWO_KEYS: &[Act] = &[
    Act::Put(1, 5),
    Act::Put(2, 5),
    Act::Numbers(SELECT_ALL, 0),
    Act::First(SELECT_ALL),
];

#[test]
fn a_database_is_opened_by_its_url(rt: HostRuntime) -> Result<(), Fail> {
    for (url, want) in [
        ("mem:", "1|1|[1, 2]|Some(1)|"),
        (
            "pg:x",
            "error with configuration: no driver found for URL scheme \"pg\"",
        ),
    ] {
        let answered = answers_at::<MemSession>(rt.alloc(), url, TWO_KEYS);
        let line = told(rt.alloc(), answered)?;
        assert_eq!(rt; line.as_str(), want);
    }
    Ok(())
}
