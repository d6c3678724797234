//! Two connections to one store, and the connector that opens them.
use crate::callers::pair;
use mem_driver::{Answer, MemLink, MemSession, MemStore, SharedMemConnector};
use sqlx_any::{
    Any, AnyConnectOptions, AnyConnection, AnyConnectionBackend, ConnectOptions, Connection,
    Connector,
};
use sqlx_text::{Error, OutOfMemory};
use std::alloc::Global;
use std::test::Fail;
use tests_kv::opened::answers_by;
use tests_kv::shown::told;
use tests_kv::{Act, answers};

fn opened<B: AnyConnectionBackend, C: Connector<Any<B>>>(
    alloc: Global,
    connector: &mut C,
) -> Result<AnyConnection<B>, Error> {
    let options = AnyConnectOptions::parse(alloc, "mem:")?;
    connector.connect(alloc, &options)
}

// Writes what the connection answers behind the line.
fn tells<B: AnyConnectionBackend>(
    line: &mut String,
    alloc: Global,
    conn: &mut AnyConnection<B>,
    acts: &[Act],
) -> Result<(), OutOfMemory> {
    let answered = answers(alloc, conn, acts)?;
    Ok(line.push_str(&answered)?)
}

const BEGUN: &[Act] = &[Act::Run("BEGIN"), Act::Put(1, 5)];

// A write beside a level of the first connection.
fn both<B: AnyConnectionBackend>(
    alloc: Global,
    first: &mut AnyConnection<B>,
    second: &mut AnyConnection<B>,
) -> Result<String, OutOfMemory> {
    let mut line = String::new(alloc);
    tells(&mut line, alloc, first, BEGUN)?;
    tells(&mut line, alloc, second, &[Act::Put(1, 7)])?;
    tells(&mut line, alloc, first, &[Act::Run("COMMIT")])?;
    tells(&mut line, alloc, second, &[Act::Get(1)])?;
    Ok(line)
}

// The same between a connection of each connector.
fn beside<B: AnyConnectionBackend + Drop, C: Connector<Any<B>>>(
    alloc: Global,
    connector: &mut C,
    other: &mut C,
) -> Result<String, Error> {
    let mut first = opened(alloc, connector)?;
    let mut second = opened(alloc, other)?;
    let line = both(alloc, &mut first, &mut second)?;
    Ok(line)
}

#[test]
fn a_write_beside_a_level_of_another(rt: HostRuntime) -> Result<(), Fail> {
    let mut connector = SharedMemConnector::new(rt.alloc(), rt, MemStore::new(rt.alloc()))?;
    let mut again = connector.try_clone()?;
    let line = told(rt.alloc(), beside(rt.alloc(), &mut connector, &mut again))?;
    assert_eq!(rt;
        line.as_str(),
        "0|1|error returned from database: busy|0|Some(5)|"
    );
    Ok(())
}

// Lets the first connection go in a level, and asks the second.
fn left<B: AnyConnectionBackend + Drop>(
    alloc: Global,
    first: AnyConnection<B>,
    second: &mut AnyConnection<B>,
) -> Result<String, OutOfMemory> {
    let mut first = first;
    let mut line = String::new(alloc);
    let begun = tells(&mut line, alloc, &mut first, BEGUN);
    drop(first);
    begun?;
    tells(&mut line, alloc, second, &[Act::Get(1), Act::Put(1, 7)])?;
    Ok(line)
}

// The same with a pair, the second of which is closed.
fn let_go<B: AnyConnectionBackend + Drop>(
    alloc: Global,
    pair: Result<(AnyConnection<B>, AnyConnection<B>), Error>,
) -> Result<String, Error> {
    let (first, mut second) = pair?;
    let line = left(alloc, first, &mut second);
    second.close()?;
    Ok(line?)
}

#[test]
fn a_connection_that_is_let_go_in_a_level(rt: HostRuntime) -> Result<(), Fail> {
    let line = told(rt.alloc(), let_go(rt.alloc(), pair(rt.alloc(), rt)))?;
    assert_eq!(rt; line.as_str(), "0|1|None|1|");
    Ok(())
}

// A store with a row that a session wrote.
fn with_a_row(alloc: Global) -> Result<MemStore, Error> {
    let mut store = MemStore::new(alloc);
    let link = MemLink::connect(alloc, &mut store)?;
    let mut conn = AnyConnection::new(MemSession::new(store, link, Answer::Accept));
    let put = answers(alloc, &mut conn, &[Act::Put(1, 5)]);
    let (store, link) = conn.into_backend().into_parts();
    drop(link);
    let _put = put?;
    Ok(store)
}

#[test]
fn a_store_that_is_handed_in(rt: HostRuntime) -> Result<(), Fail> {
    let store = with_a_row(rt.alloc())?;
    let mut connector = SharedMemConnector::new(rt.alloc(), rt, store)?;
    let answered = answers_by(rt.alloc(), &mut connector, "mem:", &[Act::Get(1)]);
    let line = told(rt.alloc(), answered)?;
    assert_eq!(rt; line.as_str(), "Some(5)|");
    Ok(())
}
