//! Notes in a SQLite file. Two writers, each a client of a pool, take turns at its one connection.
#![tactic(auto)]

ghost use Rattle.std.specs.Prelude.{◌≡◌, ◌^◌, true};

mod note;
mod writer;

use note::{Conn, Note};
use sqlite_driver::Sqlite;
use sqlx_any::AnyConnectOptions;
use sqlx_pool::{Blanks, Loans, LoneOf, PoolClients, PoolConnect, PoolOptions};
use sqlx_text::Error;
use std::marker::Brand;
use std::sync::Wait;
use std::sync::ledger::Ledger;
use writer::Writer;

// Where the notes are.
const URL: &str = "sqlite:notes.db";

// How many marks the log of the pool has at most, before it is cut.
const MARKS: usize = 4096;

// Two writers add their notes by a new pool of one connection; then all notes are read.
fn write_and_read<H: Ledger, L: Loans, R: Wait>(
    rt: &R,
    host: HostRuntime,
    blanks: Blanks<Sqlite>,
) -> Result<Vec<Note>, Error>
    requires one { (L.max ≡ 1) × (L.cuts ≡ true) }
    requires blanks { (blanks.held.name ≡ H.name) × (H.parts ≡ 2 ^ 32) × (blanks.loans.name ≡ L.name) × (L.parts ≡ 2 ^ 32) × (blanks.opened.seen.book ≡ L.book) }
{
    let options = PoolOptions::new().max_connections(1);
    let (pool, tally) = options.connect_lazy::<Conn, AnyConnectOptions, LoneOf<Sqlite, H, L>>(
        host.alloc(),
        URL,
        blanks,
    )?;
    pool.set_log_limit(rt, Some(MARKS));
    let mut pool = PoolClients::<Sqlite, H, L>::new(pool, tally);
    let mut reader = Writer::new(host, "reader", &mut pool)?;
    reader.clear(rt)?;
    let ada = Writer::new(host, "Ada", &mut pool)?;
    let bob = Writer::new(host, "Bob", &mut pool)?;
    ada.write(rt)?;
    bob.write(rt)?;
    reader.read(rt)
}

fn main(rt: HostRuntime) -> anyhow::Result<()> {
    let notes = write_and_read::<Brand, Brand, HostRuntime>(&rt, rt, Blanks::<Sqlite>::new())?;
    for note in &notes {
        println!(rt; "{}: {}", note.writer, note.text)?;
    }
    Ok(())
}
