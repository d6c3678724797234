//! Callers as `CALLING.md` of `sqlite_driver` names them, with their contracts; each is called once.
ghost use Rattle.std.specs.Prelude.{IfOk};
ghost use Rattle.sqlite_driver.specs.Opened.{IsFresh, IsInMemory};

use sqlite_driver::{Sqlite, SqliteConnection, SqliteFiles};
use sqlx_any::{
    AnyConnectOptions, AnyConnection, AnyConnectionBackend, Connect, ConnectOptions, Connector,
};
use sqlx_text::Error;
use std::alloc::Global;
use std::fs;
use std::test::*;
use tests_kv::Act;
use tests_kv::opened::answers_of;
use tests_kv::shown::told;

/// A new database in memory.
pub fn opened(alloc: Global) -> Result<AnyConnection<SqliteConnection>, Error>
    ensures { IfOk result (λ conn. IsFresh conn.backend × IsInMemory conn.backend.base) }
{
    let options = AnyConnectOptions::parse(alloc, "sqlite::memory:")?;
    Connect::<Sqlite>::connect(&options, alloc)
}

/// The notes in their file, which is made where it isn't there.
pub fn notes(
    alloc: Global,
    files: &mut SqliteFiles,
) -> Result<AnyConnection<SqliteConnection>, Error>
    ensures { IfOk result (λ conn. IsFresh conn.backend) }
{
    let options = AnyConnectOptions::parse(alloc, "sqlite:notes.db")?;
    files.connect(alloc, &options)
}

// The answers of a connection that may have been refused.
fn answers_on<B: AnyConnectionBackend>(
    alloc: Global,
    conn: Result<AnyConnection<B>, Error>,
    acts: &[Act],
) -> Result<String, Error> {
    answers_of(alloc, conn?, acts)
}

#[test]
fn a_caller_opens_a_database_in_memory(rt: HostRuntime) -> Result<(), Fail> {
    let alloc = rt.alloc();
    let acts = &[Act::Put(1, 5), Act::Get(1)];
    let line = told(alloc, answers_on(alloc, opened(alloc), acts))?;
    assert_eq!(rt; line.as_str(), "1|Some(5)|");
    Ok(())
}

#[test]
fn a_caller_opens_its_file(rt: HostRuntime) -> Result<(), Fail> {
    let alloc = rt.alloc();
    let mut files = SqliteFiles::new(rt);
    let line = told(
        alloc,
        answers_on(alloc, notes(alloc, &mut files), &[Act::Depth]),
    )?;
    assert_eq!(rt; line.as_str(), "0|");
    for name in ["notes.db", "notes.db-wal"] {
        let _ = fs::remove_file(&rt, name);
    }
    Ok(())
}
