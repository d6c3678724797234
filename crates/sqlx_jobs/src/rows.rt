//! What the rows tell of jobs.
ghost use Rattle.std.specs.Prelude.{◌≡◌, ◌<◌, ◌≤◌, ◌^◌, ◌&&◌, not, if◌then◌else◌};
ghost use Rattle.sqlx_jobs_rules.specs.Jobs as rules;
ghost use Rattle.sqlx_jobs_rules.specs.Jobs.{Jobs, numbers, first_of};
ghost use Rattle.sqlx_jobs.specs.Kept.{Tells, number_of, AreCounted};
ghost use Rattle.sqlx_jobs.specs.Kept as kept;

use crate::keys::{COUNT_KEY, holder_key, state_key, until_key};
use crate::view::View;

// The number that a row holds.
fn number_of_row(row: Option<i64>) -> u64
    ensures { result ≡ number_of row }
{
    match row {
        Some(n) if n > 0 => n as u64,
        _ => 0,
    }
}

// The number in the row of a key.
fn number_at<V: View>(view: &V, key: u64) -> u64
    requires { key < 2 ^ 63 }
    ensures { result ≡ kept.number_at (V.rows view.now) key }
{
    number_of_row(view.value_at(key))
}

/// How many jobs there are.
pub fn added<V: View>(view: &V) -> u64
    ensures { (jobs : Jobs) → Tells (V.rows view.now) jobs → result ≡ jobs.added }
{
    number_at(view, COUNT_KEY)
}

// Whether a job is done.
fn is_done<V: View>(view: &V, job: u32) -> bool
    ensures { (jobs : Jobs) → Tells (V.rows view.now) jobs → result ≡ jobs.done job }
{
    number_at(view, state_key(job)) == 1
}

/// Whether anybody holds a job.
pub fn is_held<V: View>(view: &V, now: u64, job: u32) -> bool
    ensures { (jobs : Jobs) → Tells (V.rows view.now) jobs → result ≡ rules.is_held now jobs job }
{
    now < number_at(view, until_key(job))
}

/// Whether the worker holds a job.
pub fn holds<V: View>(view: &V, now: u64, worker: u32, job: u32) -> bool
    ensures { (jobs : Jobs) → Tells (V.rows view.now) jobs → result ≡ rules.holds now worker job jobs }
{
    is_held(view, now, job) && number_at(view, holder_key(job)) == u64::from(worker)
}

// Whether a job that was added is ready.
fn is_ready<V: View>(view: &V, now: u64, job: u32) -> bool
    ensures { (jobs : Jobs) → Tells (V.rows view.now) jobs → result ≡ rules.is_ready now jobs job }
{
    if is_held(view, now, job) {
        false
    } else {
        !is_done(view, job)
    }
}

/// The least ready job.
pub fn first_ready<V: View>(view: &V, now: u64) -> Option<u32>
    ensures { (jobs : Jobs) → Tells (V.rows view.now) jobs → result ≡ first_of (rules.is_ready now jobs) (numbers jobs) }
{
    let many = added(view).min(1000) as u32;
    for before in 0..many {
        if is_ready(view, now, before + 1) {
            return Some(before + 1);
        }
    }
    None
}

/// How many jobs are ready, held and done.
#[derive(Clone, Copy)]
pub struct Counts {
    pub ready: u64,
    pub held: u64,
    pub done: u64,
}

// One where it is so, else none.
fn one_if(so: bool) -> u64
    ensures is { result ≡ (if so then 1 else 0) }
    ensures few { result ≤ 1 }
{
    u64::from(so)
}

// Whether a job is ready that is done or isn't, and held or isn't.
fn is_neither(is_done: bool, is_held: bool) -> bool
    ensures { result ≡ (not is_done && not is_held) }
{
    !is_done && !is_held
}

/// How many jobs are ready, held and done at a moment.
pub fn count<V: View>(view: &V, now: u64) -> Counts
    ensures { (jobs : Jobs) → Tells (V.rows view.now) jobs → AreCounted now jobs jobs.added result.ready result.held result.done }
{
    let many = added(view).min(1000) as u32;
    let mut ready: u64 = 0;
    let mut held: u64 = 0;
    let mut done: u64 = 0;
    for before in 0..many {
        let is_held = is_held(view, now, before + 1);
        let is_done = is_done(view, before + 1);
        ready += one_if(is_neither(is_done, is_held));
        held += one_if(is_held);
        done += one_if(is_done);
    }
    Counts { ready, held, done }
}
