//! A writer of notes: a client of the pool, which can work in a thread of its own. Where it stands in the line, it sleeps
//! until it is its turn.

use crate::note::{Conn, Note, add, add_all, all, clear};
use sqlite_driver::{Sqlite, SqliteFiles};
use sqlx_pool::{FixedClock, Loans, NoHooks, Parts, PoolClient, PoolClients};
use sqlx_text::{Error, Moment};
use std::alloc::Global;
use std::sync::Wait;
use std::sync::ledger::Ledger;

// The moment of every call. The clock stands still, so no wait ends by the time.
const NOW: Moment = Moment(0);

/// A writer.
#[derive(Drop)]
pub struct Writer<H: Ledger, L: Loans> {
    client: PoolClient<Sqlite, H, L>,
    host: HostRuntime,
    name: &'static str,
}

impl<H: Ledger, L: Loans> Writer<H, L> {
    /// A writer of this name.
    pub fn new(
        rt: HostRuntime,
        name: &'static str,
        pool: &mut PoolClients<Sqlite, H, L>,
    ) -> Result<Self, Error> {
        Ok(Writer {
            client: pool.client()?,
            host: rt,
            name,
        })
    }

    // Waits for a connection, works on it and gives it back.
    fn on_lent<R: Wait, T, F: FnOnce(Global, &mut Conn) -> Result<T, Error>>(
        &mut self,
        rt: &R,
        work: F,
    ) -> Result<T, Error>
        requires { F.IsAlwaysCallable work }
    {
        let alloc = self.host.alloc();
        let mut files = SqliteFiles::new(self.host);
        let mut hooks = NoHooks;
        let mut out = Parts::new(&mut files, &mut hooks);
        let mut clock = FixedClock(NOW);
        let mut conn = self.client.acquire_wait(rt, alloc, &mut clock, &mut out)?;
        let answer = work(alloc, conn.as_mut());
        conn.return_to_pool(rt, alloc, NOW, &mut out);
        answer
    }

    /// Makes the table anew, without a note.
    pub fn clear<R: Wait>(&mut self, rt: &R) -> Result<(), Error> {
        self.on_lent(rt, |alloc, conn| clear(alloc, conn))
    }

    /// Writes three notes: one, and then two together. Two of which one is there already aren't written.
    pub fn write<R: Wait>(self, rt: &R) -> Result<(), Error> {
        let mut writer = self;
        let name = writer.name;
        writer.on_lent(rt, |alloc, conn| add(alloc, conn, name, "milk"))?;
        writer.on_lent(
            rt,
            |alloc, conn| add_all(alloc, conn, name, &["bread", "eggs"]),
        )?;
        match writer.on_lent(
            rt,
            |alloc, conn| add_all(alloc, conn, name, &["tea", "milk"]),
        ) {
            Ok(()) => Ok(()),
            Err(refused) => {
                drop(refused);
                Ok(())
            }
        }
    }

    /// All notes, by writer and text.
    pub fn read<R: Wait>(&mut self, rt: &R) -> Result<Vec<Note>, Error> {
        self.on_lent(rt, |alloc, conn| all(alloc, conn))
    }
}
