//! Files that are opened by a URL.
ghost use Rattle.std.specs.Prelude.{◌≡◌, ◌≤◌, IfErr, IfOk};
ghost use Rattle.sqlx_traits.specs.Faults.{ConnectCause};
ghost use Rattle.sqlite_driver.specs.Opened.{OpensFile};

use crate::Sqlite;
use crate::connection::SqliteConnection;
use crate::open::in_memory;
use sqlite_base::Base;
use sqlx_any::{AnyConnectOptions, AnyConnection, Connector, Faults, expect_scheme};
use sqlx_text::Error;
use std::alloc::Global;
use std::rt::HostRuntime;

/// Opens files by URLs such as `sqlite:notes.db`, and makes those that aren't there.
#[derive(Drop)]
pub struct SqliteFiles {
    rt: HostRuntime,
    faults: u64,
}

impl SqliteFiles {
    /// What opens files by the runtime.
    pub fn new(rt: HostRuntime) -> SqliteFiles
        ensures { result.faults ≡ 0 }
    {
        SqliteFiles { rt, faults: 0 }
    }
}

impl Faults for SqliteFiles {
    ghost faults = { λ files. files.faults };
}

impl Connector<Sqlite> for SqliteFiles {
    /// Opens the file whose path is that of the URL, or a database in memory. A refusal is counted, and nothing else of
    /// the connector changes.
    fn connect(
        &mut self,
        alloc: Global,
        options: &AnyConnectOptions,
    ) -> Result<AnyConnection<SqliteConnection>, Error>
        ensures depth { IfOk result (λ conn. conn.backend.depth ≡ 0) }
        ensures rises { self.old.faults ≤ self.new.faults }
        ensures cause { IfErr result (ConnectCause self.old.faults self.new.faults) }
        ensures opened { OpensFile (λ conn. conn.backend) options.now result }
        ensures rest { self.new ≡ record self.old { faults = self.new.faults } }
    {
        match opened(alloc, &self.rt, options) {
            Ok(conn) => Ok(AnyConnection::new(conn)),
            Err(error) => {
                self.faults = self.faults.saturating_add(1);
                Err(error)
            }
        }
    }
}

fn opened(
    alloc: Global,
    rt: &HostRuntime,
    options: &AnyConnectOptions,
) -> Result<SqliteConnection, Error>
    ensures depth { IfOk result (λ conn. conn.depth ≡ 0) }
    ensures opened { OpensFile (λ conn. conn) options.now result }
{
    expect_scheme(alloc, &options.database_url, "sqlite")?;
    let path = options.database_url.path();
    if path == ":memory:" {
        return in_memory(alloc);
    }
    match Base::open(alloc, rt, path) {
        Ok(base) => Ok(SqliteConnection::new(alloc, base)),
        Err(error) => Err(error),
    }
}
