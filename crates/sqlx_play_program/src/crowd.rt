//! Lets a crowd work on a pool, and writes the log that it leaves.
ghost use Rattle.std.specs.Prelude.{◌≡◌, ◌*◌, ◌^◌, ◌≤◌, IfOk, IfErr, OnOk, false, string_bytes, vec_len};
ghost use Rattle.sqlx_play_crowd.specs.Crowd.{LeavesLog};
ghost use Rattle.sqlx_play_program.specs.CrowdRuns.{WritesLog, CrowdCause};

use crate::worker::Worker;
use mem_driver::SharedMemConnector;
use mem_store::MemStore;
use sqlx_play::{PlayError, Sink, write_all};
use sqlx_play_crowd::{Crowd, CrowdBlanks, crowd_with};
use sqlx_pool::{BlanksOf, Loans};
use sqlx_text::OutOfMemory;
use std::alloc::Global;
use std::marker::Brand;
use std::sync::Wait;
use std::sync::ledger::Ledger;
use std::thread::Threads;

// An outside for each worker, all of one new store.
fn outs_of<R: Wait + Copy + Drop>(
    rt: &R,
    alloc: Global,
    workers: u32,
) -> Result<Vec<Worker<R>>, OutOfMemory>
    ensures { IfOk result (λ outs. vec_len outs ≡ workers) }
{
    let connector = SharedMemConnector::new(alloc, *rt, MemStore::new(alloc))?;
    let Ok(mut outs) = Vec::with_capacity(alloc, workers as usize) else {
        return Err(OutOfMemory);
    };
    for _at in 0..workers {
        outs.push_reserved(Worker::new(connector.try_clone()?));
    }
    Ok(outs)
}

// The text that a crowd leaves, its pool's loans being counted in the ledger L.
fn counted_crowd<
    H: Ledger + Send + Sync + 'static,
    L: Loans + Send + Sync + 'static,
    R: Wait + Threads + Copy + Drop + Send + Sync + 'static,
>(
    rt: &R,
    alloc: Global,
    workers: u32,
    loans: u32,
    maximum: u32,
    blanks: CrowdBlanks<R>,
) -> Result<String, OutOfMemory>
    requires workers { (1 ≤ workers) × (workers ≤ 16) }
    requires loans { (1 ≤ loans) × (loans ≤ 1000) }
    requires maximum { (1 ≤ maximum) × (maximum ≤ 16) }
    requires max { maximum ≡ L.max }
    requires uncut { L.cuts ≡ false }
    requires blanks { (blanks.held.name ≡ H.name) × (H.parts ≡ 2 ^ 32) × (blanks.loans.name ≡ L.name) × (L.parts ≡ 2 ^ 32) × (blanks.opened.seen.book ≡ L.book) }
    ensures { IfOk result (λ text. LeavesLog maximum (workers * loans) (string_bytes text)) }
{
    let outs = outs_of(rt, alloc, workers)?;
    let left = crowd_with::<H, L, R, Worker<R>>(rt, alloc, loans, maximum, outs, blanks)?;
    let Crowd { text, tally } = left;
    drop(tally);
    Ok(text)
}

// The text that a crowd leaves.
fn crowd_text<R: Wait + Threads + Copy + Drop + Send + Sync + 'static>(
    rt: &R,
    alloc: Global,
    workers: u32,
    loans: u32,
    maximum: u32,
) -> Result<String, OutOfMemory>
    requires workers { (1 ≤ workers) × (workers ≤ 16) }
    requires loans { (1 ≤ loans) × (loans ≤ 1000) }
    requires maximum { (1 ≤ maximum) × (maximum ≤ 16) }
    ensures { IfOk result (λ text. LeavesLog maximum (workers * loans) (string_bytes text)) }
{
    counted_crowd::<Brand, Brand, R>(rt, alloc, workers, loans, maximum, BlanksOf::new())
}

/// Lets a crowd of workers make so many loans each of a new pool, and writes the pool's log and the number of loans to
/// the sink.
pub fn crowd<R: Wait + Threads + Copy + Drop + Send + Sync + 'static, K: Sink>(
    rt: &R,
    alloc: Global,
    workers: u32,
    loans: u32,
    maximum: u32,
    sink: &mut K,
) -> Result<(), PlayError>
    requires workers { (1 ≤ workers) × (workers ≤ 16) }
    requires loans { (1 ≤ loans) × (loans ≤ 1000) }
    requires maximum { (1 ≤ maximum) × (maximum ≤ 16) }
    ensures ok { OnOk result (WritesLog maximum (workers * loans) (K.written sink.old) (K.written sink.new)) }
    ensures rises { K.faults sink.old ≤ K.faults sink.new }
    ensures cause { IfErr result (CrowdCause maximum (workers * loans) (K.written sink.old) (K.written sink.new) (K.faults sink.old) (K.faults sink.new)) }
{
    let Ok(text) = crowd_text(rt, alloc, workers, loans, maximum) else {
        return Err(PlayError::OutOfMemory);
    };
    write_all(sink, text.as_bytes())
}
