//! The calls of a connection besides queries, and its levels.

use crate::says::*;
use sqlx_any::*;
use sqlx_text::{Depth, Error, SqlStr};
use std::alloc::Global;
use std::test::*;
use tests_backend::{Call, StubBackend};

// A call besides queries; one that ends a level is refused where none is open.
fn perform<DB: Database>(
    alloc: Global,
    call: Call,
    conn: &mut DB::Connection,
) -> Result<(), Error> {
    match call {
        Call::Ping => conn.ping(),
        Call::Clear => conn.clear_cached_statements(),
        Call::Shrink => {
            conn.shrink_buffers();
            Ok(())
        }
        Call::Flush => conn.flush(),
        Call::Begin => DB::TransactionManager::begin(alloc, conn, None),
        Call::BeginWith => {
            let sql = SqlStr::from_static("BEGIN IMMEDIATE");
            DB::TransactionManager::begin(alloc, conn, Some(sql))
        }
        Call::Commit | Call::Rollback | Call::StartRollback => ends::<DB>(alloc, call, conn),
    }
}

// Ends the newest level.
fn ends<DB: Database>(alloc: Global, call: Call, conn: &mut DB::Connection) -> Result<(), Error> {
    if DB::TransactionManager::get_transaction_depth(conn) == 0 {
        return Err(Error::NotHeld);
    }
    match call {
        Call::Commit => DB::TransactionManager::commit(alloc, conn),
        Call::Rollback => DB::TransactionManager::rollback(alloc, conn),
        _ => {
            DB::TransactionManager::start_rollback(conn);
            Ok(())
        }
    }
}

// What a connection answers to calls in turn, and the depth after each.
fn answers<B: AnyConnectionBackend>(
    alloc: Global,
    conn: &mut AnyConnection<B>,
    calls: &[Call],
    line: &mut String,
) {
    for call in calls {
        answered(line, perform::<Any<B>>(alloc, *call, conn));
        tell(line, &conn.depth());
    }
}

const NEW: &[Call] = &[];

const BEGUN: &[Call] = &[Call::Begin];

// A connection whose calls are refused, or aren't.
fn set(conn: AnyConnection<StubBackend>, refuses: bool) -> AnyConnection<StubBackend> {
    let mut backend = conn.into_backend();
    backend.refuses = refuses;
    AnyConnection::new(backend)
}

// What came before, the answer and the depth, and the last call of the backend.
fn of_any(
    alloc: Global,
    backend: StubBackend,
    before: &[Call],
    refuses: bool,
    call: Call,
) -> String {
    let mut line = String::new(alloc);
    let mut conn = AnyConnection::new(backend);
    answers(alloc, &mut conn, before, &mut line);
    let mut conn = set(conn, refuses);
    answers(alloc, &mut conn, &[call], &mut line);
    show(&mut line, &conn.backend().last);
    drop(conn);
    line
}

const ANSWERS: &str = "()|0|Some(Ping)|\n\
    ()|0|Some(Clear)|\n\
    ()|0|Some(Shrink)|\n\
    ()|0|Some(Flush)|\n\
    ()|1|Some(Begin)|\n\
    ()|1|Some(BeginWith)|\n\
    ()|1|()|2|Some(Begin)|\n\
    ()|1|()|0|Some(Commit)|\n\
    ()|1|()|0|Some(Rollback)|\n\
    ()|1|()|0|Some(StartRollback)|\n\
    ()|1|attempted to call begin_with at non-zero transaction depth|1|Some(Begin)|\n\
    error communicating with database: other error|0|Some(Ping)|\n\
    error communicating with database: other error|0|Some(Clear)|\n\
    error communicating with database: other error|0|Some(Flush)|\n\
    error communicating with database: other error|0|Some(Begin)|\n\
    ()|1|error communicating with database: other error|0|Some(Commit)|\n\
    ()|1|error communicating with database: other error|0|Some(Rollback)|\n";

#[test]
fn a_connection_asks_its_backend(rt: HostRuntime) -> Result<(), Fail> {
    let alloc = rt.alloc();
    let mut lines = String::new(alloc);
    for (before, refuses, call) in &[
        (NEW, false, Call::Ping),
        (NEW, false, Call::Clear),
        (NEW, false, Call::Shrink),
        (NEW, false, Call::Flush),
        (NEW, false, Call::Begin),
        (NEW, false, Call::BeginWith),
        (BEGUN, false, Call::Begin),
        (BEGUN, false, Call::Commit),
        (BEGUN, false, Call::Rollback),
        (BEGUN, false, Call::StartRollback),
        (BEGUN, false, Call::BeginWith),
        (NEW, true, Call::Ping),
        (NEW, true, Call::Clear),
        (NEW, true, Call::Flush),
        (NEW, true, Call::Begin),
        (BEGUN, true, Call::Commit),
        (BEGUN, true, Call::Rollback),
    ] {
        let backend = StubBackend::new(alloc, "")?;
        ended(&mut lines, of_any(alloc, backend, before, *refuses, *call));
    }
    says(&rt, lines, ANSWERS);
    Ok(())
}

// What a connection tells of itself: its backend's name, whether a level is open, how many statements are cached,
// whether something waits to be flushed, its depth, and how it closes.
fn tells_of<B: AnyConnectionBackend>(conn: AnyConnection<B>, line: &mut String) {
    tell(line, &conn.backend_name());
    tell(line, &conn.backend().is_in_transaction());
    tell(line, &conn.cached_statements_size());
    tell(line, &conn.should_flush());
    tell(line, &conn.depth());
    answered(line, conn.close());
}

fn closes_hard<B: AnyConnectionBackend>(conn: AnyConnection<B>, line: &mut String) {
    answered(line, conn.close_hard());
}

#[test]
fn connections_tell_of_themselves(rt: HostRuntime) -> Result<(), Fail> {
    let alloc = rt.alloc();
    let mut line = String::new(alloc);
    tells_of(AnyConnection::new(StubBackend::new(alloc, "")?), &mut line);
    closes_hard(AnyConnection::new(StubBackend::new(alloc, "")?), &mut line);
    says(&rt, line, "stub|false|0|false|0|()|()|");
    Ok(())
}
