//! What workers begin with and leave, each a part of the ledger of their pool's loans.

ghost use Rattle.std.specs.Prelude.{◌≡◌, ◌+◌, ◌*◌, ◌^◌, ◌<◌, ◌≤◌, IfOk, vec_len};

use crate::worker;
use sqlx_pool::{FixedClock, Loans, Pool, Tally};
use sqlx_pool_core::Outside;
use sqlx_text::{Moment, OutOfMemory};
use sqlx_traits::{Database, Executor};
use std::alloc::Global;
use std::sync::Wait;
use std::sync::ledger::Ledger;

/// What a worker begins with.
#[derive(Drop)]
pub struct Job<L: Loans, X> {
    client: u32,
    tally: Tally<L>,
    out: X,
    ghost one_part: { tally.parts ≡ 1 },
    ghost no_loan: { tally.loans ≡ 0 },
}

/// What a worker leaves.
#[derive(Drop)]
pub struct Part<L: Loans> {
    tally: Tally<L>,
    ghost one_part: { tally.parts ≡ 1 },
    ghost few: { tally.loans < 2 ^ 32 },
}

/// A part of the ledger for each outside, the first one for client 1.
pub fn jobs_of<L: Loans, X: Drop>(
    alloc: Global,
    outs: Vec<X>,
    all: &mut Tally<L>,
) -> Result<Vec<Job<L, X>>, OutOfMemory>
    requires few { vec_len outs < 2 ^ 32 }
    requires parts { vec_len outs < all.old.parts }
    ensures jobs { IfOk result (λ jobs. vec_len jobs ≡ vec_len outs) }
    ensures parts { IfOk result (λ jobs. all.new.parts + vec_len jobs ≡ all.old.parts) }
    ensures loans { all.new.loans ≡ all.old.loans }
{
    let mut outs = outs;
    outs.reverse();
    let count = outs.len();
    let Ok(mut jobs) = Vec::with_capacity(alloc, count) else {
        return Err(OutOfMemory);
    };
    for at in 0..count {
        if let Some(out) = outs.pop() {
            jobs.push_reserved(new_job(at as u32 + 1, all, out));
        }
    }
    Ok(jobs)
}

// What a client begins with.
fn new_job<L: Loans, X>(client: u32, all: &mut Tally<L>, out: X) -> Job<L, X>
    requires { 2 ≤ all.old.parts }
    ensures parts { all.new.parts + 1 ≡ all.old.parts }
    ensures loans { all.new.loans ≡ all.old.loans }
{
    Job {
        client,
        tally: all.split(),
        out,
    }
}

/// Does a worker's job, with a clock that stands at 0.
pub fn work_off<
    DB: Database,
    H: Ledger,
    L: Loans,
    R: Wait,
    X: Outside<DB::Connection, DB::Options> + Drop,
>(rt: &R, alloc: Global, pool: &Pool<DB, H, L>, loans: u32, job: Job<L, X>) -> Part<L>
where
    DB::Connection: Executor<DB> + Drop,
{
    let Job {
        client,
        tally,
        mut out,
    } = job;
    let mut clock = FixedClock(Moment(0));
    let (tally, _made) = worker::<DB, H, L, R, FixedClock, X>(
        rt, alloc, pool, &mut clock, &mut out, client, loans, tally,
    );
    drop(out);
    Part { tally }
}

/// Puts the parts together again.
pub fn gather<L: Loans>(parts: Vec<Part<L>>, all: &mut Tally<L>)
    requires { all.old.loans + vec_len parts * 2 ^ 32 < 2 ^ 64 }
    ensures { all.new.parts ≡ all.old.parts + vec_len parts }
{
    let mut parts = parts;
    for _at in 0..parts.len() {
        if let Some(part) = parts.pop() {
            let Part { tally } = part;
            all.add(tally);
        }
    }
}
