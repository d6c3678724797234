//! What a measurement came to.

ghost use Rattle.std.specs.Prelude.{◌≡◌, ◌^◌, ◌<◌, ◌≤◌};

use crate::round::{Round, made};
use crate::words::Words;
use std::alloc::{AllocError, Global};
use std::rt::Clock;
use std::sync::Wait;
use std::thread::Threads;

/// How many loans were made in a second, and how many nanoseconds a loan took.
#[derive(Clone, Copy)]
pub struct Figures {
    /// Of the round with the most.
    pub best: u64,
    /// Of the round in the middle.
    pub median: u64,
    /// Half of the loans took no longer.
    pub p50: u64,
    /// 99 in 100 of the loans took no longer.
    pub p99: u64,
}

// How many loans a second a round made.
fn rate(round: &Round) -> u64 {
    let per_second = u128::from(round.loans) * 1_000_000_000 / u128::from(round.took.max(1));
    u64::try_from(per_second).unwrap_or(u64::MAX)
}

// The value below which so many hundredths lie; 0 where there is none.
fn hundredth(sorted: &[u64], hundredths: usize) -> u64 {
    let at = (sorted.len() / 100).saturating_mul(hundredths);
    sorted.get(at).copied().unwrap_or(0)
}

// The rates of so many rounds, the least first.
fn rates<R: Wait + Threads + Clock + Sync>(
    rt: &R,
    alloc: Global,
    words: Words,
) -> Result<Vec<u64>, AllocError>
    requires workers { words.workers < 2 ^ 16 }
    requires maximum { 1 ≤ words.maximum }
{
    let mut rates = Vec::new(alloc);
    for _at in 0..words.rounds {
        let round = made(rt, alloc, words, false)?;
        rates.push(rate(&round))?;
    }
    rates.sort_unstable();
    Ok(rates)
}

/// Measures: the rates in rounds without a clock, the times of the loans in one more round.
pub fn measure<R: Wait + Threads + Clock + Sync>(
    rt: &R,
    alloc: Global,
    words: Words,
) -> Result<Figures, AllocError>
    requires workers { words.workers < 2 ^ 16 }
    requires maximum { 1 ≤ words.maximum }
{
    let rates = rates(rt, alloc, words)?;
    let mut timed = made(rt, alloc, words, true)?;
    timed.times.sort_unstable();
    Ok(Figures {
        best: rates.last().copied().unwrap_or(0),
        median: rates.get(rates.len() / 2).copied().unwrap_or(0),
        p50: hundredth(&timed.times, 50),
        p99: hundredth(&timed.times, 99),
    })
}
