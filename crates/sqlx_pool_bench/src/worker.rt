//! A worker: it borrows connections of a pool, one after another, and returns each.

ghost use Rattle.std.specs.Prelude.{◌≡◌, ◌+◌, ◌^◌, ◌<◌, ◌≤◌};

use crate::nanos;
use crate::outside::{Conn, Opens};
use sqlx_pool::{FixedClock, Loans, Lone, PoolOf, Tally};
use sqlx_text::Moment;
use std::alloc::Global;
use std::rt::Clock;
use std::sync::Wait;
use std::sync::ledger::Ledger;

/// A pool of a round.
pub type RoundPool<H, L> = PoolOf<Conn, (), Lone<Conn, (), H, L>>;

/// What a worker begins with.
#[derive(Drop)]
pub struct Job<L: Loans> {
    pub client: u32,
    pub tally: Tally<L>,
    ghost one_part: { tally.parts ≡ 1 },
    ghost no_loan: { tally.loans ≡ 0 },
}

/// What a worker leaves: the tally of its loans and, where they were timed, how many nanoseconds each took.
#[derive(Drop)]
pub struct Part<L: Loans> {
    pub tally: Tally<L>,
    pub times: Vec<u64>,
    ghost one_part: { tally.parts ≡ 1 },
    ghost few: { tally.loans < 2 ^ 32 },
}

// Waits for a connection and returns it. An error is let go: the count of loans tells of it.
fn one_loan<H: Ledger, L: Loans, R: Wait>(
    rt: &R,
    alloc: Global,
    pool: &RoundPool<H, L>,
    client: u32,
    tally: &mut Tally<L>,
)
    ensures parts { tally.new.parts ≡ tally.old.parts }
    ensures loans { tally.new.loans ≤ tally.old.loans + 1 }
{
    let mut clock = FixedClock(Moment(0));
    let mut out = Opens;
    match pool.acquire_wait::<R, FixedClock, Opens>(
        rt, alloc, &mut clock, client, &mut out, tally,
    ) {
        Ok(conn) => {
            conn.return_to_pool::<R, Opens>(rt, alloc, Moment(0), &mut out);
        }
        Err(error) => drop(error),
    }
}

/// Makes so many loans.
pub fn work_off<H: Ledger, L: Loans, R: Wait + Clock>(
    rt: &R,
    alloc: Global,
    pool: &RoundPool<H, L>,
    loans: u32,
    timed: bool,
    job: Job<L>,
) -> Part<L> {
    let Job { client, mut tally } = job;
    let mut times = Vec::new(alloc);
    for _at in 0..loans {
        if timed {
            let begun = nanos(rt);
            one_loan(rt, alloc, pool, client, &mut tally);
            let _ = times.push(nanos(rt).saturating_sub(begun));
        } else {
            one_loan(rt, alloc, pool, client, &mut tally);
        }
    }
    Part { tally, times }
}
