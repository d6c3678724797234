//! A write on a connection that leaves its levels.
ghost use Rattle.std.specs.Prelude.{◌≡◌, ◌⊎◌, Ok, Some, true};
ghost use Rattle.sqlx_traits.specs.StepList.{Ran};

use mem_driver::{Mem, MemSession, PUT};
use sqlx_any::{AnyConnection, Arguments, Database, Encode, Executor, SqlType};
use sqlx_text::{Error, SqlStr};
use std::alloc::Global;

/// A write on a database's connection.
pub trait Writes<DB: Database> {
    /// Sets the one value that is written. It leaves the depth.
    fn write(alloc: Global, conn: &mut DB::Connection, value: i64) -> Result<(), Error>
        ensures { DB.Connection.levels conn.new ≡ DB.Connection.levels conn.old };
}

/// Writes at key 1.
pub struct KeyOne;

impl Writes<Mem> for KeyOne {
    fn write(alloc: Global, conn: &mut AnyConnection<MemSession>, value: i64) -> Result<(), Error> {
        puts::<Mem, AnyConnection<MemSession>>(alloc, conn, SqlStr::from_static(PUT), value)
    }
}

// Runs a text with key 1 and a value.
fn puts<'t, DB: Database, E: Executor<DB>>(
    alloc: Global,
    conn: &mut E,
    text: SqlStr,
    value: i64,
) -> Result<(), Error>
where
    i64: Encode<'t, DB> + SqlType<DB>,
    ensures { (conn.new ≡ conn.old) ⊎ ((arguments : DB.Arguments) × Ran E.runs conn.old (record { text = text; arguments = Ok (Some arguments); persistent = true }) conn.new (λ _. Unit {0})) }
{
    let arguments = pair::<DB>(alloc, 1, value)?;
    match conn.execute(alloc, (text, Some(arguments))) {
        Ok(written) => {
            drop(written);
            Ok(())
        }
        Err(error) => Err(error),
    }
}

fn pair<'t, DB: Database>(alloc: Global, key: i64, value: i64) -> Result<DB::Arguments, Error>
where
    i64: Encode<'t, DB> + SqlType<DB>,
{
    let mut arguments = DB::Arguments::new(alloc);
    let added = match arguments.add(alloc, key) {
        Ok(()) => arguments.add(alloc, value),
        Err(fault) => Err(fault),
    };
    match added {
        Ok(()) => Ok(arguments),
        Err(fault) => {
            drop(arguments);
            Err(Error::from(fault))
        }
    }
}
