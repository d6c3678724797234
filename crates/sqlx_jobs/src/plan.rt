//! What an event is answered where it is accepted, and what it writes then.
ghost use Rattle.std.specs.Prelude.{◌≡◌, ◌<◌, ◌+◌, ◌^◌};
ghost use Rattle.sqlx_jobs_rules.specs.Jobs.{Jobs};
ghost use Rattle.sqlx_jobs.specs.Kept.{Tells};
ghost use Rattle.sqlx_jobs.specs.Plan as spec;

use crate::change::{Change, Put};
use crate::keys::{COUNT_KEY, holder_key, state_key, until_key};
use crate::rows::{self, Counts};
use crate::view::View;
use sqlx_jobs_rules::{Act, Event, Met, Reply};

/// The reply where the event is accepted, and what it writes then.
#[derive(Clone, Copy)]
pub struct Plan {
    pub reply: Reply,
    pub change: Option<Change>,
}

// A number in the row of a key.
fn put(key: u64, value: u64) -> Put
    requires key { key < 2 ^ 63 }
    requires value { value < 2 ^ 63 }
    ensures { result ≡ spec.put key value }
{
    Put {
        key: key as i64,
        value: value as i64,
    }
}

// One row.
fn one(first: Put) -> Change
    ensures { result ≡ spec.one first }
{
    Change {
        first,
        second: None,
    }
}

// Two rows.
fn two(first: Put, second: Put) -> Change
    ensures { result ≡ spec.two first second }
{
    Change {
        first,
        second: Some(second),
    }
}

// Where so many jobs are there, one more.
fn add_plan(added: u64) -> Plan
    ensures { result ≡ spec.add_plan added }
{
    if added < 1000 {
        Plan {
            reply: Reply::Job(added + 1),
            change: Some(one(put(COUNT_KEY, added + 1))),
        }
    } else {
        Plan {
            reply: Reply::Full,
            change: None,
        }
    }
}

// The least ready job, if there is one, is claimed.
fn claim_plan(until: u64, worker: u32, job: Option<u32>) -> Plan
    requires { until < 2 ^ 63 }
    ensures { result ≡ spec.claim_plan until worker job }
{
    match job {
        Some(job) => Plan {
            reply: Reply::Claimed {
                job: u64::from(job),
                until,
            },
            change: Some(two(
                put(holder_key(job), u64::from(worker)),
                put(until_key(job), until),
            )),
        },
        None => Plan {
            reply: Reply::Empty,
            change: None,
        },
    }
}

// A job that the worker holds is changed.
fn held_plan(held: bool, reply: Reply, change: Change) -> Plan
    ensures { result ≡ spec.held_plan held reply change }
{
    if held {
        Plan {
            reply,
            change: Some(change),
        }
    } else {
        Plan {
            reply: Reply::NotHeld,
            change: None,
        }
    }
}

// So many jobs are ready, held and done.
fn count_plan(counts: Counts) -> Plan
    ensures { result ≡ spec.only (Reply.Counted counts.ready counts.held counts.done) }
{
    Plan {
        reply: Reply::Counted {
            ready: counts.ready,
            held: counts.held,
            done: counts.done,
        },
        change: None,
    }
}

// The worker has the job until then.
fn extend_plan(held: bool, job: u32, until: u64) -> Plan
    requires { until < 2 ^ 63 }
    ensures { result ≡ spec.extend_plan held job until }
{
    held_plan(
        held,
        Reply::Extended { until },
        one(put(until_key(job), until)),
    )
}

// The job is done, and nobody's.
fn finish_plan(held: bool, job: u32) -> Plan
    ensures { result ≡ spec.finish_plan held job }
{
    held_plan(
        held,
        Reply::Finished,
        two(put(state_key(job), 1), put(until_key(job), 0)),
    )
}

// The job is nobody's.
fn drop_plan(held: bool, job: u32) -> Plan
    ensures { result ≡ spec.drop_plan held job }
{
    held_plan(held, Reply::Dropped, one(put(until_key(job), 0)))
}

/// The plan for an event.
pub fn plan_at<V: View>(view: &V, lease: u64, event: &Event) -> Plan
    requires { event.now.moment + lease < 2 ^ 63 }
    ensures { (jobs : Jobs) → Tells (V.rows view.now) jobs → result ≡ spec.plan_at lease event.now.moment jobs event.now.act }
{
    let now = event.moment;
    let until = now + lease;
    match event.act {
        Act::Add { met: _ } => add_plan(rows::added(view)),
        Act::Claim { worker, met: _ } => claim_plan(until, worker, rows::first_ready(view, now)),
        Act::Extend {
            worker,
            job,
            met: _,
        } => extend_plan(rows::holds(view, now, worker, job), job, until),
        Act::Finish {
            worker,
            job,
            met: _,
        } => finish_plan(rows::holds(view, now, worker, job), job),
        Act::Drop {
            worker,
            job,
            met: _,
        } => drop_plan(rows::holds(view, now, worker, job), job),
        Act::Count => count_plan(rows::count(view, now)),
    }
}

/// What meets an act.
pub fn met_of(act: Act) -> Met
    ensures { result ≡ spec.met_of act }
{
    match act {
        Act::Add { met } => met,
        Act::Claim { worker: _, met } => met,
        Act::Extend {
            worker: _,
            job: _,
            met,
        } => met,
        Act::Finish {
            worker: _,
            job: _,
            met,
        } => met,
        Act::Drop {
            worker: _,
            job: _,
            met,
        } => met,
        Act::Count => Met::Accepted,
    }
}

/// Whether an act works in a level.
pub fn works(act: Act) -> bool
    ensures { result ≡ spec.works act }
{
    !matches!(act, Act::Count)
}

/// The number of a job is small.
pub fn has_small_job(act: Act)
    ensures { spec.job_of act < 2 ^ 32 }
{
    match act {
        Act::Add { met: _ } => {}
        Act::Claim { worker: _, met: _ } => {}
        Act::Extend {
            worker: _,
            job: _,
            met: _,
        } => {}
        Act::Finish {
            worker: _,
            job: _,
            met: _,
        } => {}
        Act::Drop {
            worker: _,
            job: _,
            met: _,
        } => {}
        Act::Count => {}
    }
}
