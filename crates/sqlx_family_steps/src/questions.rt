//! What a family is asked by a name that may be nobody's.

ghost use Rattle.std.specs.Prelude.{◌≡◌, ◌+◌, ◌<◌, ◌≤◌, ◌==◌, not, false, IfOk, drop, length, nat_lt, take};
ghost use Rattle.sqlx_family.specs.Pools.{pool_in, counts_as_closed};
ghost use Rattle.sqlx_family_steps.specs.FamilySteps.{closing_in};

use sqlx_family::Family;
use sqlx_pool_lists::CloseState;
use sqlx_pool_log::PackedLog;
use sqlx_pool_marks::Mark;
use sqlx_pool_parts::{LogStart, MarkLog};
use sqlx_text::OutOfMemory;
use std::alloc::Global;

/// Whether a pool has this name.
pub fn is_named<C>(family: &Family<C>, pool: u32) -> bool
    ensures { result ≡ nat_lt pool (length family.now.pools) }
{
    (pool as usize) < family.num_pools()
}

/// Whether a pool is closed: a close came to it, or to the root. So is one that nobody added.
pub fn is_closed<C>(family: &Family<C>, pool: u32) -> bool
    ensures answer { result ≡ counts_as_closed pool family.now }
    ensures named { result ≡ false → pool < length family.now.pools }
{
    if is_named(family, pool) {
        family.is_closed(pool)
    } else {
        true
    }
}

// A copy of these marks.
fn copied(alloc: Global, marks: &[Mark]) -> Result<Vec<Mark>, OutOfMemory>
    ensures { IfOk result (λ copy. copy.items ≡ marks.now) }
{
    let mut copy = Vec::new(alloc);
    match copy.extend_from_slice(marks) {
        Ok(()) => Ok(copy),
        Err(_) => Err(OutOfMemory),
    }
}

// A copy of a log that begins so.
fn copy_log(log: &PackedLog, start: LogStart, alloc: Global) -> Result<MarkLog, OutOfMemory>
    requires begins { start.len ≤ length log.now.items }
    ensures start { IfOk result (λ copy. copy.start.items ≡ take start.len log.now.items) }
    ensures before { IfOk result (λ copy. copy.lent_before ≡ start.lent_before) }
    ensures marks { IfOk result (λ copy. copy.marks.items ≡ drop start.len log.now.items) }
{
    let Ok(mut first) = log.marks(alloc) else {
        return Err(OutOfMemory);
    };
    let marks = copied(alloc, &first[start.len..])?;
    first.truncate(start.len);
    Ok(MarkLog::new(first, start.lent_before, marks))
}

/// How far a pool is closed, by whether a close came to it or to the root. One that nobody added is closed.
pub fn closing<C>(family: &Family<C>, pool: u32) -> CloseState
    ensures { result ≡ closing_in pool family.now }
{
    if !is_closed(family, pool) {
        CloseState::NotShut
    } else if is_named(family, pool) && is_busy(family, pool) {
        CloseState::Closing
    } else {
        CloseState::Closed
    }
}

// A connection of the pool is owned or leaked, or a ticket of it hasn't ended.
fn is_busy<C>(family: &Family<C>, pool: u32) -> bool
    requires named { pool < length family.now.pools }
    ensures { let core = pool_in pool family.now in result ≡ not (length core.held + core.leaked + length core.tickets == 0) }
{
    family.num_held(pool) != 0 || family.num_leaked(pool) != 0 || family.num_tickets(pool) != 0
}

/// The maximum of a pool, and a copy of its log, which begins so.
pub fn read_log<C>(
    family: &Family<C>,
    log: &PackedLog,
    start: LogStart,
    pool: u32,
    alloc: Global,
) -> Result<(u32, MarkLog), OutOfMemory>
    requires named { pool < length family.now.pools }
    requires begins { start.len ≤ length log.now.items }
    ensures most { IfOk result (λ read. read.0 ≡ (pool_in pool family.now).options.max_connections) }
    ensures start { IfOk result (λ read. read.1.start.items ≡ take start.len log.now.items) }
    ensures before { IfOk result (λ read. read.1.lent_before ≡ start.lent_before) }
    ensures marks { IfOk result (λ read. read.1.marks.items ≡ drop start.len log.now.items) }
{
    let max = family.options(pool).get_max_connections();
    let copy = copy_log(log, start, alloc)?;
    Ok((max, copy))
}
