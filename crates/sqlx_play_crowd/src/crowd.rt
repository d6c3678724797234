//! The crowd: workers in threads of their own over one pool, and what they leave.

ghost use Rattle.std.specs.Prelude.{◌≡◌, ℕ, ◌+◌, ◌*◌, ◌^◌, ◌<◌, ◌≤◌, IfOk, false, string_bytes, vec_len};
ghost use Rattle.sqlx_play_crowd.specs.Crowd.{LeavesLog};

use crate::audited;
use crate::jobs::{Job, Part, gather, jobs_of, work_off};
use mem_driver::{SharedMem, SharedMemConnection};
use sqlx_any::{AnyConnectOptions, AnyConnection, ConnectOptions};
use sqlx_pool::{Blanks, Loans, LoneOf, Pool, PoolConnect, PoolOptions, Tally};
use sqlx_pool_core::Outside;
use sqlx_text::{Error, OutOfMemory};
use std::alloc::Global;
use std::sync::Wait;
use std::sync::ledger::Ledger;
use std::thread::{self, Threads};

/// What the pool of a crowd is made with.
pub type CrowdBlanks<R> = Blanks<SharedMem<R>>;

/// What a crowd left.
#[derive(Drop)]
pub struct Crowd<L: Loans> {
    /// The log of its pool, a line for each mark, and then the number of loans.
    pub text: String,
    /// Every part of the ledger of its pool's loans.
    pub tally: Tally<L>,
}

// Lets the workers work, each in a thread of its own, and gathers their parts.
fn work_all<
    H: Ledger + Send + Sync + 'static,
    L: Loans + Send + Sync + 'static,
    R: Wait + Threads + Copy + Drop + Send + Sync + 'static,
    X: Outside<AnyConnection<SharedMemConnection<R>>, AnyConnectOptions> + Send + Drop,
>(
    rt: &R,
    alloc: Global,
    pool: &Pool<SharedMem<R>, H, L>,
    loans: u32,
    outs: Vec<X>,
    all: &mut Tally<L>,
) -> Result<(), OutOfMemory>
    requires few { vec_len outs < 2 ^ 16 }
    requires parts { vec_len outs < all.old.parts }
    requires none { all.old.loans ≡ 0 }
    ensures { IfOk result (λ _. all.new.parts ≡ all.old.parts) }
{
    let jobs = jobs_of(alloc, outs, all)?;
    let work = |job: Job<L, X>| -> Part<L> {
        work_off::<SharedMem<R>, H, L, R, X>(rt, alloc, pool, loans, job)
    };
    let Ok(parts) = thread::map_vec(rt, jobs, &work) else {
        return Err(OutOfMemory);
    };
    gather(parts, all);
    Ok(())
}

// A crowd on a new pool, whose tally with every part is handed in.
fn crowd_on<
    H: Ledger + Send + Sync + 'static,
    L: Loans + Send + Sync + 'static,
    R: Wait + Threads + Copy + Drop + Send + Sync + 'static,
    X: Outside<AnyConnection<SharedMemConnection<R>>, AnyConnectOptions> + Send + Drop,
>(
    rt: &R,
    alloc: Global,
    pool: &Pool<SharedMem<R>, H, L>,
    loans: u32,
    outs: Vec<X>,
    tally: Tally<L>,
) -> Result<Crowd<L>, OutOfMemory>
    requires few { vec_len outs < 2 ^ 16 }
    requires parts { vec_len outs < L.parts }
    requires whole { tally ≡ record { parts = L.parts; loans = 0 } }
    requires uncut { L.cuts ≡ false }
    ensures text { IfOk result (λ crowd. LeavesLog L.max (vec_len outs * loans) (string_bytes crowd.text)) }
    ensures tally { IfOk result (λ crowd. crowd.tally ≡ record { parts = L.parts; loans = vec_len outs * loans }) }
{
    let mut all = tally;
    let due = outs.len() as u64 * u64::from(loans);
    work_all::<H, L, R, X>(rt, alloc, pool, loans, outs, &mut all)?;
    if all.loans() != due {
        return Err(OutOfMemory);
    }
    let text = audited(rt, alloc, pool, &mut all)?;
    Ok(Crowd { text, tally: all })
}

// The options of the crowd's URL, which is one: only memory may be wanting.
#[tactic(auto, using(crate::proofs::CrowdUrl::reads_crowd))]
fn crowd_options(alloc: Global) -> Result<AnyConnectOptions, OutOfMemory> {
    match AnyConnectOptions::parse(alloc, "mem:crowd") {
        Ok(options) => Ok(options),
        Err(Error::OutOfMemory) => Err(OutOfMemory),
        Err(_) => unreachable!(),
    }
}

/// A crowd on a new pool of connections to one store in memory, one worker for each outside, the first one client 1.
pub fn crowd_with<
    H: Ledger + Send + Sync + 'static,
    L: Loans + Send + Sync + 'static,
    R: Wait + Threads + Copy + Drop + Send + Sync + 'static,
    X: Outside<AnyConnection<SharedMemConnection<R>>, AnyConnectOptions> + Send + Drop,
>(
    rt: &R,
    alloc: Global,
    loans: u32,
    maximum: u32,
    outs: Vec<X>,
    blanks: CrowdBlanks<R>,
) -> Result<Crowd<L>, OutOfMemory>
    requires workers { (1 ≤ vec_len outs) × (vec_len outs ≤ 16) }
    requires loans { (1 ≤ loans) × (loans ≤ 1000) }
    requires maximum { (1 ≤ maximum) × (maximum ≤ 16) }
    requires max { maximum ≡ L.max }
    requires uncut { L.cuts ≡ false }
    requires blanks { (blanks.held.name ≡ H.name) × (H.parts ≡ 2 ^ 32) × (blanks.loans.name ≡ L.name) × (L.parts ≡ 2 ^ 32) × (blanks.opened.seen.book ≡ L.book) }
    ensures text { IfOk result (λ crowd. LeavesLog maximum (vec_len outs * loans) (string_bytes crowd.text)) }
    ensures tally { IfOk result (λ crowd. crowd.tally ≡ record { parts = 2 ^ 32; loans = vec_len outs * loans }) }
{
    let connect = crowd_options(alloc)?;
    let options = PoolOptions::new().max_connections(maximum);
    let (pool, tally) = options.connect_lazy_with::<
        AnyConnection<SharedMemConnection<R>>,
        AnyConnectOptions,
        LoneOf<SharedMem<R>, H, L>,
    >(alloc, connect, blanks)?;
    crowd_on::<H, L, R, X>(rt, alloc, &pool, loans, outs, tally)
}
