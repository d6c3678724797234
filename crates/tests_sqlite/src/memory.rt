//! A database in memory.
use sqlite_driver::SqliteConnection;
use sqlx_text::OutOfMemory;
use std::alloc::Global;
use std::process::Abort;
use std::test::*;
use tests_kv::Act;
use tests_kv::opened::answers_at;
use tests_kv::shown::told;

// What a new database answers that the URL opens.
fn answers(alloc: Global, url: &str, acts: &[Act]) -> Result<String, OutOfMemory> {
    told(alloc, answers_at::<SqliteConnection>(alloc, url, acts))
}

// Stops the test where a new database answers another line.
fn says<R: Alloc<A = Global> + Abort>(rt: &R, acts: &[Act], want: &str) -> Result<(), Fail> {
    let line = answers(rt.alloc(), "sqlite::memory:", acts)?;
    assert_eq!(rt; line.as_str(), want);
    Ok(())
}

// Stops the test where the answers begin otherwise.
fn begins<R: Alloc<A = Global> + Abort>(
    rt: &R,
    url: &str,
    acts: &[Act],
    want: &str,
) -> Result<(), Fail> {
    let line = answers(rt.alloc(), url, acts)?;
    assert!(rt; line.as_str().starts_with(want), "{line}");
    Ok(())
}

#[test]
fn a_row_is_put_and_got(rt: HostRuntime) -> Result<(), Fail> {
    let acts = &[Act::Put(1, 5), Act::Get(1), Act::Get(2)];
    says(&rt, acts, "1|Some(5)|None|")
}

#[test]
fn urls_that_are_refused(rt: HostRuntime) -> Result<(), Fail> {
    for url in ["mem:", "sqlite:notes.db", "no url"] {
        begins(&rt, url, &[], "error with configuration: ")?;
    }
    Ok(())
}

// A level, and a level in it that is left open and given up.
const GIVEN_UP: &[Act] = &[
    Act::Begin,
    Act::Put(1, 5),
    Act::Begin,
    Act::Put(1, 6),
    Act::StartRollback,
    Act::Ping,
    Act::Get(1),
    Act::Depth,
    Act::Rollback,
    Act::Get(1),
];

#[test]
fn a_level_that_is_given_up(rt: HostRuntime) -> Result<(), Fail> {
    let want = "()|1|()|1|()|()|Some(5)|1|()|None|";
    says(&rt, GIVEN_UP, want)
}

#[test]
fn texts_that_are_refused(rt: HostRuntime) -> Result<(), Fail> {
    for (text, want) in [
        ("COMMIT", "error returned from database: "),
        ("SELECT nothing", "error returned from database: "),
        ("SELECT 1.5", "error in Any driver mapping: "),
        ("SELECT 1", "0|"),
    ] {
        begins(&rt, "sqlite::memory:", &[Act::Run(text)], want)?;
    }
    Ok(())
}

// Texts that give rows, however they begin, and the last of them changes some.
const GIVE_ROWS: &[Act] = &[
    Act::First("select 1"),
    Act::First("\n SELECT 2"),
    Act::First("WITH x AS (SELECT 3 AS n) SELECT n FROM x"),
    Act::First("SELECT n FROM (SELECT 4 AS n)"),
    Act::First("INSERT INTO kv(k, v) VALUES (1, 5) RETURNING v"),
    Act::Get(1),
];

#[test]
fn texts_that_give_rows(rt: HostRuntime) -> Result<(), Fail> {
    says(
        &rt,
        GIVE_ROWS,
        "Some(1)|Some(2)|Some(3)|Some(4)|Some(5)|Some(5)|",
    )
}
