//! A round: workers in threads of their own over a new pool whose connections are open, and aren't pinged before a loan.

ghost use Rattle.std.specs.Prelude.{◌≡◌, ℕ, ◌+◌, ◌*◌, ◌^◌, ◌<◌, ◌≤◌, IfOk, true, vec_len};

use crate::nanos;
use crate::outside::{Conn, Opens};
use crate::words::Words;
use crate::worker::{Job, Part, RoundPool, work_off};
use sqlx_pool::{BlanksOf, Loans, Lone, PoolConnect, PoolOptions, Stood, Tally};
use sqlx_text::Moment;
use std::alloc::{AllocError, Global};
use std::marker::Brand;
use std::rt::Clock;
use std::sync::ledger::Ledger;
use std::sync::{Arc, Wait};
use std::thread::{self, Threads};

// How many marks the log of the pool has behind its start, when it is cut.
const MARKS: usize = 4096;

/// What a round came to.
#[derive(Drop)]
pub struct Round {
    /// How many nanoseconds it took, from the start of the threads to their end.
    pub took: u64,
    /// How many loans the workers made.
    pub loans: u64,
    /// How many nanoseconds each loan took, in a round in which they were timed.
    pub times: Vec<u64>,
}

// A part of the ledger for each worker.
fn jobs_of<L: Loans>(
    alloc: Global,
    workers: u32,
    all: &mut Tally<L>,
) -> Result<Vec<Job<L>>, AllocError>
    requires few { workers < 2 ^ 16 }
    requires parts { workers < all.old.parts }
    ensures jobs { IfOk result (λ jobs. vec_len jobs ≡ workers) }
    ensures loans { all.new.loans ≡ all.old.loans }
{
    let Ok(mut jobs) = Vec::with_capacity(alloc, workers as usize) else {
        return Err(AllocError);
    };
    for at in 0..workers {
        jobs.push_reserved(Job {
            client: at + 1,
            tally: all.split(),
        });
    }
    Ok(jobs)
}

// Puts the parts together again. What there is no memory for of the times is let go.
fn gather<L: Loans>(alloc: Global, parts: Vec<Part<L>>, all: &mut Tally<L>) -> Vec<u64>
    requires { all.old.loans + vec_len parts * 2 ^ 32 < 2 ^ 64 }
{
    let mut parts = parts;
    let mut times = Vec::new(alloc);
    for _at in 0..parts.len() {
        if let Some(part) = parts.pop() {
            let Part { tally, times: own } = part;
            all.add(tally);
            let _ = times.extend_from_slice(&own);
        }
    }
    times
}

// Lets the workers work on a pool, each in a thread of its own.
fn work_all<H: Ledger + Send + Sync, L: Loans + Send + Sync, R: Wait + Threads + Clock + Sync>(
    rt: &R,
    alloc: Global,
    pool: &RoundPool<H, L>,
    words: Words,
    timed: bool,
    all: &mut Tally<L>,
) -> Result<Round, AllocError>
    requires few { words.workers < 2 ^ 16 }
    requires parts { words.workers < all.old.parts }
    requires none { all.old.loans ≡ 0 }
{
    let jobs = jobs_of(alloc, words.workers, all)?;
    let loans = words.loans;
    let begun = nanos(rt);
    let work = |job: Job<L>| -> Part<L> { work_off(rt, alloc, pool, loans, timed, job) };
    let Ok(parts) = thread::map_vec(rt, jobs, &work) else {
        return Err(AllocError);
    };
    let took = nanos(rt).saturating_sub(begun);
    let times = gather(alloc, parts, all);
    Ok(Round {
        took,
        loans: all.loans(),
        times,
    })
}

// A round, whose loans are counted in the ledger L.
fn counted<H: Ledger + Send + Sync, L: Loans + Send + Sync, R: Wait + Threads + Clock + Sync>(
    rt: &R,
    alloc: Global,
    words: Words,
    timed: bool,
    blanks: BlanksOf<Stood<Conn, Arc<(), Global>>>,
) -> Result<Round, AllocError>
    requires workers { words.workers < 2 ^ 16 }
    requires maximum { 1 ≤ words.maximum }
    requires max { words.maximum ≡ L.max }
    requires cuts { L.cuts ≡ true }
    requires blanks { (blanks.held.name ≡ H.name) × (H.parts ≡ 2 ^ 32) × (blanks.loans.name ≡ L.name) × (L.parts ≡ 2 ^ 32) × (blanks.opened.seen.book ≡ L.book) }
{
    let options = PoolOptions::new()
        .max_connections(words.maximum)
        .min_connections(words.maximum)
        .test_before_acquire(false);
    let mut out = Opens;
    let opened = options.connect_with::<Conn, (), Lone<Conn, (), H, L>, R, Opens>(
        rt,
        alloc,
        (),
        Moment(0),
        &mut out,
        blanks,
    );
    match opened {
        Ok((pool, tally)) => {
            let mut all = tally;
            pool.set_log_limit(rt, Some(MARKS));
            work_all(rt, alloc, &pool, words, timed, &mut all)
        }
        Err(error) => {
            drop(error);
            Err(AllocError)
        }
    }
}

/// A round: the loans are timed one by one, or not.
pub fn made<R: Wait + Threads + Clock + Sync>(
    rt: &R,
    alloc: Global,
    words: Words,
    timed: bool,
) -> Result<Round, AllocError>
    requires workers { words.workers < 2 ^ 16 }
    requires maximum { 1 ≤ words.maximum }
{
    counted::<Brand, Brand, R>(rt, alloc, words, timed, BlanksOf::new())
}
