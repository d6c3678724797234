//! Measures the pool: how many loans a second threads make of it, and how long a loan takes.
//! `W N M R`: W workers with N loans each on a pool of maximum M whose connections are open, in R rounds. Without words
//! a small round is made, and only the count of its loans is written.
#![tactic(auto)]

ghost use Rattle.std.specs.Prelude.{◌≡◌, ◌^◌, ◌<◌, ◌≤◌};

mod figures;
mod outside;
mod round;
mod words;
mod worker;

use figures::measure;
use round::made;
use std::alloc::Global;
use std::env;
use std::io::{self, Print};
use std::rt::Clock;
use std::sync::Wait;
use std::thread::Threads;
use words::{Words, read};

// What is made where there are no words.
const SMALL: Words = Words {
    workers: 3,
    loans: 50,
    maximum: 2,
    rounds: 1,
};

/// The clock in nanoseconds; 0 where it can't be read.
pub fn nanos<R: Clock>(rt: &R) -> u64 {
    match rt.monotonic() {
        Ok(time) => {
            let seconds = time.as_secs().saturating_mul(1_000_000_000);
            seconds.saturating_add(u64::from(time.subsec_nanos()))
        }
        Err(error) => {
            drop(error);
            0
        }
    }
}

// The words of the command line behind the program's own name.
fn arguments(rt: &HostRuntime) -> io::Result<Vec<String>> {
    let mut words = Vec::new(rt.alloc());
    for word in env::args(rt)?.skip(1) {
        words.push(word)?;
    }
    Ok(words)
}

// Writes the count of loans of a small round.
fn count_small<R: Wait + Threads + Clock + Print + Sync>(rt: &R, alloc: Global) -> io::Result<()> {
    let round = made(rt, alloc, SMALL, false)?;
    println!(rt; "loans {}", round.loans)
}

// Writes the figures.
fn tell<R: Wait + Threads + Clock + Print + Sync>(
    rt: &R,
    alloc: Global,
    words: Words,
) -> io::Result<()>
    requires workers { words.workers < 2 ^ 16 }
    requires maximum { 1 ≤ words.maximum }
{
    let figures = measure(rt, alloc, words)?;
    println!(rt; "loans_per_s {}", figures.best)?;
    println!(rt; "median_per_s {}", figures.median)?;
    println!(rt; "p50_ns {}", figures.p50)?;
    println!(rt; "p99_ns {}", figures.p99)
}

fn main(rt: HostRuntime) -> io::Result<()> {
    let words = arguments(&rt)?;
    if words.is_empty() {
        return count_small(&rt, rt.alloc());
    }
    match read(&words) {
        Some(words) => tell(&rt, rt.alloc(), words),
        None => {
            eprintln!(rt; "words: W N M R, each from 1 on, W and M up to 1000")?;
            Err(io::Error::from(io::ErrorKind::InvalidInput))
        }
    }
}
