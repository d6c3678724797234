//! Pools on one thread, whose clients act row by row.

ghost use Rattle.std.specs.Prelude.{◌≡◌, ◌^◌, ◌<◌};

use crate::clients::*;
use crate::marks::tells;
use crate::outside::{Conn, Counts, new_counts};
use crate::same::{same, same_three};
use crate::setup::{LoneBlanks, LonePool, pool_of};
use sqlx_pool::*;
use sqlx_pool_core::Outside;
use sqlx_text::{Depth, Moment, OutOfMemory};
use std::alloc::Global;
use std::marker::Brand;
use std::process::Abort;
use std::sync::Wait;
use std::sync::ledger::Ledger;
use std::test::*;

/// Rows, what the log says behind them, and how many loans were made.
pub struct Script<'s> {
    pub rows: &'s [Row],
    pub log: &'s str,
    pub loans: u64,
}

/// Plays a script, and looks at the log and at the tally.
pub fn performs<C: Depth + Drop, O: Drop, H: Ledger, L: Loans, R: Wait + Abort, X: Outside<C, O>>(
    rt: &R,
    alloc: Global,
    pool: &LonePool<C, O, H, L>,
    script: &Script<'_>,
    out: &mut X,
    tally: &mut Tally<L>,
) -> Result<(), Fail> {
    plays::<C, O, Lone<C, O, H, L>, R, X>(rt, alloc, pool, script.rows, out, tally);
    same(rt, tally.loans(), script.loans);
    tells(rt, alloc, pool, script.log)
}

/// Plays a script in a new pool of one.
pub fn in_one<C: Depth + Drop, O: Drop, H: Ledger, L: Loans, R: Wait + Abort, X: Outside<C, O>>(
    rt: &R,
    alloc: Global,
    connect: O,
    script: &Script<'_>,
    out: &mut X,
    blanks: LoneBlanks<C, O>,
) -> Result<(), Fail>
    requires max { L.max ≡ 1 }
    requires blanks { (blanks.held.name ≡ H.name) × (H.parts ≡ 2 ^ 32) × (blanks.loans.name ≡ L.name) × (L.parts ≡ 2 ^ 32) × (blanks.opened.seen.book ≡ L.book) }
{
    let (pool, mut tally) = pool_of::<C, O, H, L>(alloc, 1, connect, blanks)?;
    let played = performs::<C, O, H, L, R, X>(rt, alloc, &pool, script, out, &mut tally);
    drop(pool);
    drop(tally);
    played
}

// The same where nothing is refused: what was opened and closed.
fn counts<H: Ledger, L: Loans, R: Wait + Abort>(
    rt: &R,
    alloc: Global,
    script: &Script<'_>,
    blanks: LoneBlanks<Conn, ()>,
) -> Result<Counts, Fail>
    requires max { L.max ≡ 1 }
    requires blanks { (blanks.held.name ≡ H.name) × (H.parts ≡ 2 ^ 32) × (blanks.loans.name ≡ L.name) × (L.parts ≡ 2 ^ 32) × (blanks.opened.seen.book ≡ L.book) }
{
    let mut out = new_counts();
    in_one::<Conn, (), H, L, R, Counts>(rt, alloc, (), script, &mut out, blanks)?;
    Ok(out)
}

// The same, with ledgers: how many were opened, closed, and closed hard.
fn counted<R: Wait + Abort>(rt: &R, alloc: Global, script: &Script<'_>) -> Result<[u64; 3], Fail> {
    let out = counts::<Brand, Brand, R>(rt, alloc, script, BlanksOf::new())?;
    Ok([out.opened, out.closed, out.closed_hard])
}

// When the second ticket of the last rows times out, and when a ticket of then does.
const LATE: u64 = 30_000_000_016;

/// A pool of one, call by call: a second client waits in vain, and nothing is lent past the line while the connection is
/// out; a connection past the line is detached, that of a loan is
/// closed, and one is kept and reaped beyond the limit; a leaked one keeps its permit, so that a ticket times out, and
/// another ends by the close; a closed pool refuses to be asked.
pub const WAY: Script<'static> = Script {
    rows: &[
        Row(1, Act::Ask, 0, 1, 1),
        Row(1, Act::Poll, 0, LENT, 5),
        Row(2, Act::Ask, 0, 2, 6),
        Row(2, Act::Poll, 0, WAITS, 6),
        Row(2, Act::Cancel, 0, CANCELLED, 7),
        Row(1, Act::Past, 0, NONE, 7),
        Row(1, Act::Return, 0, KEPT, 8),
        Row(1, Act::Try, 1, LENT, 10),
        Row(1, Act::Detach, 1, 0, 11),
        Row(1, Act::Fill, 1, 0, 11),
        Row(1, Act::Ask, 1, 3, 12),
        Row(1, Act::Poll, 1, LENT, 16),
        Row(1, Act::Close, 1, 0, 17),
        Row(1, Act::Ask, 1, 4, 18),
        Row(1, Act::Poll, 1, LENT, 22),
        Row(1, Act::Return, 10, KEPT, 23),
        Row(1, Act::Reap, 15, 0, 23),
        Row(1, Act::Reap, 16, 1, 24),
        Row(1, Act::Ask, 16, 5, 25),
        Row(1, Act::Poll, 16, LENT, 29),
        Row(1, Act::Leak, 16, 0, 30),
        Row(2, Act::Ask, 16, 6, 31),
        Row(2, Act::Poll, LATE, TIMED_OUT, 32),
        Row(2, Act::Ask, LATE, 7, 33),
        Row(2, Act::Shut, LATE, 0, 34),
        Row(2, Act::Closing, LATE, 1, 34),
        Row(2, Act::Poll, LATE, POOL_CLOSED, 35),
        Row(2, Act::Closing, LATE, 1, 35),
        Row(2, Act::Ask, LATE, POOL_CLOSED, 35),
    ],
    log: "asked 1 1 30000000000
left 1
opened 1 0
lent 1 1
ended 1
asked 2 2 30000000000
ended 2
kept 1 0
taken 1
lent 1 1
detached 1
asked 3 1 30000000001
left 3
opened 2 1
lent 1 2
ended 3
closed 2
asked 4 1 30000000001
left 4
opened 3 1
lent 1 3
ended 4
kept 3 10
reaped 3
asked 5 1 30000000016
left 5
opened 4 16
lent 1 4
ended 5
leaked 4
asked 6 2 30000000016
ended 6
asked 7 2 60000000016
shut
ended 7
",
    loans: 5,
};

#[test]
fn a_pool_of_one(rt: HostRuntime) -> Result<(), Fail> {
    same_three(&rt, counted(&rt, rt.alloc(), &WAY)?, [4, 2, 0]);
    Ok(())
}

// A ticket is asked before the pool is closed, and polled afterwards; a step of a closed pool isn't polled.
const SHUT: Script<'static> = Script {
    rows: &[
        Row(2, Act::Ask, 0, 1, 1),
        Row(2, Act::Shut, 0, 0, 2),
        Row(2, Act::Poll, 0, POOL_CLOSED, 3),
        Row(2, Act::CutOff, 0, 1, 3),
    ],
    log: "asked 1 2 30000000000\nshut\nended 1\n",
    loans: 0,
};

#[test]
fn a_close_while_a_ticket_waits(rt: HostRuntime) -> Result<(), Fail> {
    same_three(&rt, counted(&rt, rt.alloc(), &SHUT)?, [0, 0, 0]);
    Ok(())
}

// A ticket waits while the only connection is out, and is served when that one comes back.
const SERVED: Script<'static> = Script {
    rows: &[
        Row(1, Act::Ask, 0, 1, 1),
        Row(1, Act::Poll, 0, LENT, 5),
        Row(2, Act::Ask, 0, 2, 6),
        Row(2, Act::Poll, 0, WAITS, 6),
        Row(1, Act::Return, 0, KEPT, 7),
        Row(2, Act::Poll, 0, LENT, 11),
        Row(1, Act::Try, 0, NONE, 11),
        Row(2, Act::Close, 0, 0, 12),
    ],
    log: "asked 1 1 30000000000
left 1
opened 1 0
lent 1 1
ended 1
asked 2 2 30000000000
kept 1 0
left 2
taken 1
lent 2 1
ended 2
closed 1
",
    loans: 2,
};

#[test]
fn a_ticket_that_waits(rt: HostRuntime) -> Result<(), Fail> {
    same_three(&rt, counted(&rt, rt.alloc(), &SERVED)?, [1, 1, 0]);
    Ok(())
}

// The first connections are opened with the pool and lie idle, and are closed with it.
const FIRST: Script<'static> = Script {
    rows: &[
        Row(1, Act::Size, 0, 2, 4),
        Row(1, Act::Idle, 0, 2, 4),
        Row(1, Act::Shut, 0, 2, 7),
    ],
    log: "opened 1 0
kept 1 0
opened 2 0
kept 2 0
shut
closed 1
closed 2
",
    loans: 0,
};

// A new pool of three that opens two connections.
fn opens_first<C: Depth + Drop, O: Drop, H: Ledger, L: Loans, R: Wait + Abort, X: Outside<C, O>>(
    rt: &R,
    alloc: Global,
    connect: O,
    out: &mut X,
    blanks: LoneBlanks<C, O>,
) -> Result<(), Fail>
    requires max { L.max ≡ 3 }
    requires blanks { (blanks.held.name ≡ H.name) × (H.parts ≡ 2 ^ 32) × (blanks.loans.name ≡ L.name) × (L.parts ≡ 2 ^ 32) × (blanks.opened.seen.book ≡ L.book) }
{
    let options = PoolOptions::new().max_connections(3).min_connections(2);
    let (pool, mut tally) = options.connect_with::<C, O, Lone<C, O, H, L>, R, X>(
        rt,
        alloc,
        connect,
        Moment(0),
        out,
        blanks,
    )?;
    same(rt, u64::from(pool.options().get_min_connections()), 2);
    let played = performs::<C, O, H, L, R, X>(rt, alloc, &pool, &FIRST, out, &mut tally);
    drop(pool);
    drop(tally);
    played
}

// The same where nothing is refused.
fn counts_first<H: Ledger, L: Loans, R: Wait + Abort>(
    rt: &R,
    alloc: Global,
    blanks: LoneBlanks<Conn, ()>,
) -> Result<(), Fail>
    requires max { L.max ≡ 3 }
    requires blanks { (blanks.held.name ≡ H.name) × (H.parts ≡ 2 ^ 32) × (blanks.loans.name ≡ L.name) × (L.parts ≡ 2 ^ 32) × (blanks.opened.seen.book ≡ L.book) }
{
    let mut out = new_counts();
    opens_first::<Conn, (), H, L, R, Counts>(rt, alloc, (), &mut out, blanks)
}

#[test]
fn a_pool_that_connects(rt: HostRuntime) -> Result<(), Fail> {
    counts_first::<Brand, Brand, HostRuntime>(&rt, rt.alloc(), BlanksOf::new())
}

// The connect options.
fn option<C: Depth + Drop, H: Ledger, L: Loans, R: Wait>(
    rt: &R,
    pool: &LonePool<C, u32, H, L>,
) -> Result<u64, OutOfMemory> {
    let options = pool.connect_options(rt)?;
    let option = u64::from(*options);
    drop(options);
    Ok(option)
}

// The connect options are read back as they were set.
fn resets<C: Depth + Drop, H: Ledger, L: Loans, R: Wait + Abort>(
    rt: &R,
    alloc: Global,
    pool: &LonePool<C, u32, H, L>,
    set: u32,
) -> Result<(), OutOfMemory> {
    pool.set_connect_options(rt, alloc, set)?;
    same(rt, option(rt, pool)?, u64::from(set));
    Ok(())
}

// The same in a new pool, which has those that it was made with.
fn sets_options<H: Ledger, L: Loans, R: Wait + Abort>(
    rt: &R,
    alloc: Global,
    blanks: LoneBlanks<Conn, u32>,
) -> Result<[u64; 2], OutOfMemory>
    requires max { L.max ≡ 1 }
    requires blanks { (blanks.held.name ≡ H.name) × (H.parts ≡ 2 ^ 32) × (blanks.loans.name ≡ L.name) × (L.parts ≡ 2 ^ 32) × (blanks.opened.seen.book ≡ L.book) }
{
    let (pool, tally) = pool_of::<Conn, u32, H, L>(alloc, 1, 5, blanks)?;
    let first = option(rt, &pool);
    let set = resets(rt, alloc, &pool, 7);
    let loans = tally.loans();
    drop(pool);
    drop(tally);
    set?;
    Ok([first?, loans])
}

#[test]
fn options_that_are_set(rt: HostRuntime) -> Result<(), Fail> {
    let [first, loans] = sets_options::<Brand, Brand, HostRuntime>(
        &rt,
        rt.alloc(),
        BlanksOf::new(),
    )?;
    same_three(&rt, [first, loans, 0], [5, 0, 0]);
    Ok(())
}
