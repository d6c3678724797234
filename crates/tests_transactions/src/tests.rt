//! What levels leave in the database in memory.
use crate::acts::{Act, perform};
use crate::levels::{By, End};
use crate::writes::KeyOne;
use mem_driver::{Answer, Mem, MemLink, MemSession, MemStore};
use sqlx_any::AnyConnection;
use sqlx_text::{Depth, OutOfMemory};
use std::alloc::Global;
use std::process::Abort;
use std::test::*;

type Conn = AnyConnection<MemSession>;

// Acts on a new database, those behind `before` by statements of which the first meets the answer, and what is told.
#[derive(Clone, Copy)]
struct Play<'a> {
    before: &'a [Act],
    met: Answer,
    acts: &'a [Act],
    want: &'a str,
}

// A connection to a database without rows.
fn opened(alloc: Global) -> Result<Conn, OutOfMemory> {
    let mut store = MemStore::new(alloc);
    match MemLink::connect(alloc, &mut store) {
        Ok(link) => Ok(AnyConnection::new(MemSession::new(store, link, Answer::Accept))),
        Err(error) => {
            drop(store);
            Err(error)
        }
    }
}

// The same connection, whose next statement meets the answer.
fn meeting(conn: Conn, answer: Answer) -> Conn {
    let (store, link) = conn.into_backend().into_parts();
    AnyConnection::new(MemSession::new(store, link, answer))
}

// The connection after the acts, each of which is told behind the line.
fn after(alloc: Global, conn: Conn, acts: &[Act], line: &mut String) -> Result<Conn, OutOfMemory> {
    let mut conn = conn;
    match perform::<Mem, KeyOne>(alloc, &mut conn, acts, line) {
        Ok(()) => Ok(conn),
        Err(error) => {
            drop(conn);
            Err(error)
        }
    }
}

// What is left of a connection.
#[derive(Clone, Copy)]
struct Left {
    value: Option<i64>,
    depth: usize,
    begun: u64,
    ended: u64,
}

fn what_is_left(conn: Conn) -> Left {
    let depth = conn.depth();
    let (store, link) = conn.into_backend().into_parts();
    drop(link);
    let (value, runs) = (store.get(1), store.runs());
    drop(store);
    Left {
        value,
        depth,
        begun: runs.begun,
        ended: runs.ended,
    }
}

// Plays it, with each act told behind the line: what is left.
fn played(alloc: Global, play: &Play, line: &mut String) -> Result<Left, OutOfMemory> {
    let conn = after(alloc, opened(alloc)?, play.before, line)?;
    let conn = after(alloc, meeting(conn, play.met), play.acts, line)?;
    Ok(what_is_left(conn))
}

// What is told of a play: each answer, the value at key 1, the depth, and how many texts began and ended levels.
fn told(alloc: Global, play: &Play) -> Result<String, OutOfMemory> {
    let mut line = String::new(alloc);
    let left = played(alloc, play, &mut line)?;
    let (value, depth, begun, ended) = (left.value, left.depth, left.begun, left.ended);
    let told = format!(in alloc; "{line} {value:?}, depth {depth}, {begun} begun, {ended} ended");
    drop(line);
    Ok(told?)
}

// Stops the test where another line is told.
fn says<R: Alloc<A = Global> + Abort>(rt: &R, play: &Play) -> Result<(), Fail> {
    let line = told(rt.alloc(), play)?;
    assert_eq!(rt; line.as_str(), play.want);
    Ok(())
}

// The same on a new database, whose statements are all accepted.
fn tells<R: Alloc<A = Global> + Abort>(rt: &R, acts: &[Act], want: &str) -> Result<(), Fail> {
    let play = Play {
        before: &[],
        met: Answer::Accept,
        acts,
        want,
    };
    says(rt, &play)
}

// An act in levels of its own, and what is told of it.
type Row = (Act, &'static str);

fn leaves<R: Alloc<A = Global> + Abort>(rt: &R, rows: &[Row]) -> Result<(), Fail> {
    for (act, want) in rows {
        tells(rt, &[*act], want)?;
    }
    Ok(())
}

const THREE_LEVELS: &[Row] = &[
    (
        Act::Nest(By::Values, [End::Commit, End::Commit, End::Commit]),
        "done| Some(3), depth 0, 3 begun, 3 ended",
    ),
    (
        Act::Nest(By::Values, [End::Commit, End::Commit, End::Rollback]),
        "done| Some(2), depth 0, 3 begun, 3 ended",
    ),
    (
        Act::Nest(By::Values, [End::Commit, End::Commit, End::GiveUp]),
        "done| Some(2), depth 0, 3 begun, 3 ended",
    ),
    (
        Act::Nest(By::Values, [End::Commit, End::Rollback, End::Commit]),
        "done| Some(1), depth 0, 3 begun, 3 ended",
    ),
    (
        Act::Nest(By::Values, [End::Commit, End::GiveUp, End::Commit]),
        "done| Some(1), depth 0, 3 begun, 3 ended",
    ),
    (
        Act::Nest(By::Values, [End::Rollback, End::Commit, End::Commit]),
        "done| None, depth 0, 3 begun, 3 ended",
    ),
    (
        Act::Nest(By::Values, [End::GiveUp, End::Commit, End::Commit]),
        "done| None, depth 0, 3 begun, 3 ended",
    ),
];

#[test]
fn three_levels(rt: HostRuntime) -> Result<(), Fail> {
    leaves(&rt, THREE_LEVELS)
}

const THREE_CALLS: &[Row] = &[
    (
        Act::Nest(By::Calls, [End::Commit, End::Commit, End::Commit]),
        "done| Some(3), depth 0, 3 begun, 3 ended",
    ),
    (
        Act::Nest(By::Calls, [End::Commit, End::Commit, End::Rollback]),
        "done| Some(2), depth 0, 3 begun, 3 ended",
    ),
    (
        Act::Nest(By::Calls, [End::Commit, End::Rollback, End::Commit]),
        "done| Some(1), depth 0, 3 begun, 3 ended",
    ),
    (
        Act::Nest(By::Calls, [End::Rollback, End::Commit, End::Commit]),
        "not found| None, depth 0, 3 begun, 3 ended",
    ),
];

#[test]
fn three_calls(rt: HostRuntime) -> Result<(), Fail> {
    leaves(&rt, THREE_CALLS)
}

const BEGUN: &[Act] = &[Act::Begin, Act::Write(5)];

// What the first statement behind a begun level meets, and what is told.
type Met = (Answer, &'static str);

fn meets<R: Alloc<A = Global> + Abort>(rt: &R, acts: &[Act], rows: &[Met]) -> Result<(), Fail> {
    for (met, want) in rows {
        let play = Play {
            before: BEGUN,
            met: *met,
            acts,
            want,
        };
        says(rt, &play)?;
    }
    Ok(())
}

const COMMITS: &[Met] = &[
    (
        Answer::Accept,
        "done|done|done| Some(5), depth 0, 1 begun, 1 ended",
    ),
    (
        Answer::Refuse,
        "done|done|refused| None, depth 0, 1 begun, 1 ended",
    ),
];

#[test]
fn a_commit_of_a_level_that_was_kept_open(rt: HostRuntime) -> Result<(), Fail> {
    meets(&rt, &[Act::Commit], COMMITS)
}

// A level that is begun within the one that was kept open, and the innermost one is then committed.
const BEGINS_WITHIN: &[Met] = &[
    (
        Answer::Accept,
        "done|done|done|done| None, depth 1, 2 begun, 1 ended",
    ),
    (
        Answer::Refuse,
        "done|done|refused|done| Some(5), depth 0, 1 begun, 1 ended",
    ),
];

// A text begins none there, and meets no answer.
const BEGINS_BY_A_TEXT_WITHIN: &[Met] = &[
    (
        Answer::Accept,
        "done|done|inside|done| Some(5), depth 0, 1 begun, 1 ended",
    ),
    (
        Answer::Refuse,
        "done|done|inside|refused| None, depth 0, 1 begun, 1 ended",
    ),
];

const TRIES: &[Met] = &[
    (
        Answer::Accept,
        "done|done|done|done| Some(5), depth 0, 2 begun, 2 ended",
    ),
    (
        Answer::Refuse,
        "done|done|refused|done| Some(5), depth 0, 1 begun, 1 ended",
    ),
];

#[test]
fn a_refused_begin_leaves_the_level_around_it(rt: HostRuntime) -> Result<(), Fail> {
    let by_a_text = &[Act::BeginWith("BEGIN IMMEDIATE"), Act::Commit];
    meets(&rt, &[Act::Try, Act::Commit], TRIES)?;
    meets(&rt, &[Act::Begin, Act::Commit], BEGINS_WITHIN)?;
    meets(&rt, by_a_text, BEGINS_BY_A_TEXT_WITHIN)
}

const BEGINS: &[Act] = &[
    Act::BeginBy("SELECT 1"),
    Act::BeginBy("BEGIN IMMEDIATE"),
    Act::BeginWith("SELECT 1"),
    Act::BeginWith("BEGIN IMMEDIATE"),
    Act::BeginWith("BEGIN IMMEDIATE"),
    Act::BeginBy("BEGIN IMMEDIATE"),
];

#[test]
fn a_begin_by_a_text(rt: HostRuntime) -> Result<(), Fail> {
    let want = "failed|done|failed|done|inside|inside| None, depth 1, 2 begun, 1 ended";
    tells(&rt, BEGINS, want)
}

const TEXTS: &[Act] = &[
    Act::Run("SELECT 1"),
    Act::Run("DROP TABLE kv"),
    Act::Run("COMMIT"),
    Act::Ping,
];

#[test]
fn a_text_in_a_level_of_its_own(rt: HostRuntime) -> Result<(), Fail> {
    let want = "done|refused|failed|done| None, depth 0, 4 begun, 4 ended";
    tells(&rt, TEXTS, want)
}

const TEXTS_WITHIN: &[Act] = &[
    Act::RunWithin("SELECT 1"),
    Act::RunWithin("DROP TABLE kv"),
    Act::RunWithin("COMMIT"),
    Act::Ping,
];

#[test]
fn a_call_that_may_end_its_level(rt: HostRuntime) -> Result<(), Fail> {
    let want = "done|refused|done|done| None, depth 0, 4 begun, 4 ended";
    tells(&rt, TEXTS_WITHIN, want)
}
