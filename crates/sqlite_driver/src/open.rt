//! A database in memory, opened by a URL.
ghost use Rattle.std.specs.Prelude.{◌≡◌, ◌⊎◌, IfErr, IfOk, Ok, OnOk, true};
ghost use Rattle.sqlx_text.specs.declared.error.Error.{Error};
ghost use Rattle.sqlx_traits.specs.Faults.{OpenCause};
ghost use Rattle.sqlite_base.specs.OpenedBase.{IsInMemory};
ghost use Rattle.sqlite_base.specs.Refusals.{IsRefusal};
ghost use Rattle.sqlite_driver.specs.Opened.{IsFresh, MemoryRefusal, RefusedBy, names_memory, own_scheme};

use crate::connection::SqliteConnection;
use sqlite_base::Base;
use sqlx_any::{AnyConnectOptions, AnyOpen, expect_scheme};
use sqlx_text::{Error, Fault, UStr};
use std::alloc::Global;

impl AnyOpen for SqliteConnection {
    ghost use Rattle.sqlite_driver.specs.Opened.{Opens};

    ghost opens = { λ options result. Opens options result };

    /// Opens a new database in memory, by `sqlite::memory:`. It has a table `kv` of whole numbers.
    fn from_options(alloc: Global, options: &AnyConnectOptions) -> Result<Self, Error> {
        match expect_memory(alloc, options) {
            Ok(()) => in_memory(alloc),
            Err(error) => Err(error),
        }
    }
}

/// Refuses another scheme than `sqlite`, and a file.
fn expect_memory(alloc: Global, options: &AnyConnectOptions) -> Result<(), Error>
    ensures named { OnOk result ((own_scheme options.now ≡ Ok tt) × (names_memory options.now ≡ true)) }
    ensures refused { IfErr result (λ e. (e ≡ Error.OutOfMemory) ⊎ RefusedBy (MemoryRefusal (names_memory options.now)) (own_scheme options.now) e) }
    ensures cause { IfErr result OpenCause }
{
    expect_scheme(alloc, &options.database_url, "sqlite")?;
    if options.database_url.path() != ":memory:" {
        return Err(Error::Configuration(Fault::Text(UStr::from_static(
            "a file is opened by `SqliteFiles`, and `sqlite::memory:` is a database in memory",
        ))));
    }
    Ok(())
}

pub(crate) fn in_memory(alloc: Global) -> Result<SqliteConnection, Error>
    ensures opened { IfOk result (λ conn. IsFresh conn × IsInMemory conn.base) }
    ensures told { IfErr result IsRefusal }
    ensures cause { IfErr result OpenCause }
{
    match Base::in_memory(alloc) {
        Ok(base) => Ok(SqliteConnection::new(alloc, base)),
        Err(error) => Err(error),
    }
}
