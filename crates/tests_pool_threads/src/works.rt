//! What is done with a connection to a store: a key is written, or read.

use sqlx_any::{Any, AnyConnection, AnyConnectionBackend, Database, Executor};
use sqlx_text::Error;
use std::alloc::Global;
use tests_kv::calls::{gets, puts};

/// What may be done with a connection: the number that is read, or None where none is.
pub trait Acts<DB: Database>: Copy {
    /// On a connection.
    fn work(self, alloc: Global, conn: &mut DB::Connection) -> Result<Option<i64>, Error>;

    /// On whatever runs queries.
    fn work_on<E: Executor<DB>>(self, alloc: Global, on: &mut E) -> Result<Option<i64>, Error>;
}

/// A key is written, or read.
#[derive(Clone, Copy)]
pub enum Work {
    Put(i64, i64),
    Get(i64),
}

impl<B: AnyConnectionBackend> Acts<Any<B>> for Work {
    fn work(self, alloc: Global, conn: &mut AnyConnection<B>) -> Result<Option<i64>, Error> {
        worked::<B, AnyConnection<B>>(alloc, conn, self)
    }

    fn work_on<E: Executor<Any<B>>>(self, alloc: Global, on: &mut E) -> Result<Option<i64>, Error> {
        worked::<B, E>(alloc, on, self)
    }
}

// Works on what runs queries.
fn worked<B: AnyConnectionBackend, E: Executor<Any<B>>>(
    alloc: Global,
    on: &mut E,
    work: Work,
) -> Result<Option<i64>, Error> {
    match work {
        Work::Put(key, value) => {
            puts::<Any<B>, E>(alloc, on, key, value)?;
            Ok(None)
        }
        Work::Get(key) => gets::<Any<B>, E>(alloc, on, key),
    }
}
