//! Pools whose outside refuses: connects, pings, hooks and first connections, row by row.

ghost use Rattle.std.specs.Prelude.{◌≡◌, ◌^◌};
ghost use Rattle.sqlx_pool_parts.specs.Opened.{IsOpenable};

use crate::clients::*;
use crate::outside::Conn;
use crate::refusing::{Refusing, Say, Says, YES};
use crate::rows::{Script, performs};
use crate::same::{same, same_three};
use crate::setup::LoneBlanks;
use sqlx_pool::*;
use sqlx_text::Moment;
use std::alloc::Global;
use std::marker::Brand;
use std::process::Abort;
use std::sync::Wait;
use std::sync::ledger::Ledger;
use std::test::*;

const MS: u64 = 1_000_000;

// Plays a script in a new pool, and looks at how many connections were opened, closed, and closed hard.
fn refused_in<H: Ledger, L: Loans, R: Wait + Abort>(
    rt: &R,
    alloc: Global,
    options: PoolOptions,
    script: &Script<'_>,
    out: Refusing,
    counts: [u64; 3],
    blanks: LoneBlanks<Conn, ()>,
) -> Result<(), Fail>
    requires options { IsOpenable options L.max }
    requires blanks { (blanks.held.name ≡ H.name) × (H.parts ≡ 2 ^ 32) × (blanks.loans.name ≡ L.name) × (L.parts ≡ 2 ^ 32) × (blanks.opened.seen.book ≡ L.book) }
{
    let mut out = out;
    let (pool, mut tally) = options.connect_lazy_with::<Conn, (), Lone<Conn, (), H, L>>(
        alloc,
        (),
        blanks,
    )?;
    let played = performs::<Conn, (), H, L, R, Refusing>(
        rt, alloc, &pool, script, &mut out, &mut tally,
    );
    drop(pool);
    drop(tally);
    same_three(
        rt,
        [out.counts.opened, out.counts.closed, out.counts.closed_hard],
        counts,
    );
    played
}

// The same, with ledgers.
fn refused<R: Wait + Abort>(
    rt: &R,
    alloc: Global,
    options: PoolOptions,
    script: &Script<'_>,
    out: Refusing,
    counts: [u64; 3],
) -> Result<(), Fail>
    requires { IsOpenable options options.max_connections }
{
    refused_in::<Brand, Brand, R>(rt, alloc, options, script, out, counts, BlanksOf::new())
}

// A refused connect backs off for 10 ms, and then for 18, since a hook refused the next one; when its ticket is given up,
// its permit is free. A connect that is refused for good ends the next ticket. A close ends one that waits, and the
// connection that is out is closed when it comes back.
const BACKOFF: Script<'static> = Script {
    rows: &[
        Row(1, Act::Ask, 0, 1, 1),
        Row(1, Act::Poll, 0, BACKS_OFF, 2),
        Row(1, Act::Poll, 5 * MS, BACKS_OFF, 2),
        Row(2, Act::Ask, 5 * MS, 2, 3),
        Row(2, Act::Poll, 5 * MS, WAITS, 3),
        Row(1, Act::Poll, 10 * MS, BACKS_OFF, 3),
        Row(1, Act::Cancel, 10 * MS, CANCELLED, 4),
        Row(2, Act::Poll, 11 * MS, OTHER, 6),
        Row(1, Act::Size, 11 * MS, 0, 6),
        Row(1, Act::Ask, 12 * MS, 3, 7),
        Row(1, Act::Poll, 12 * MS, LENT, 11),
        Row(1, Act::Past, 12 * MS, NONE, 11),
        Row(1, Act::Closing, 12 * MS, 0, 11),
        Row(2, Act::Ask, 12 * MS, 4, 12),
        Row(2, Act::Shut, 12 * MS, 0, 13),
        Row(2, Act::Closing, 12 * MS, 1, 13),
        Row(2, Act::Poll, 12 * MS, POOL_CLOSED, 14),
        Row(1, Act::Return, 13 * MS, CLOSED, 15),
        Row(1, Act::Closing, 13 * MS, 2, 15),
    ],
    log: "asked 1 1 90000000
left 1
asked 2 2 95000000
ended 1
left 2
ended 2
asked 3 1 102000000
left 3
opened 1 12000000
lent 1 1
ended 3
asked 4 2 102000000
shut
ended 4
closed 1
",
    loans: 1,
};

#[test]
fn connects_that_are_refused(rt: HostRuntime) -> Result<(), Fail> {
    let options = PoolOptions::new()
        .max_connections(1)
        .acquire_timeout(90 * MS)
        .after_connect(true);
    let mut out = Refusing::new([
        Say::Passes,
        Say::Yes,
        Say::Fails,
        Say::Yes,
        Say::Yes,
        Say::Yes,
    ]);
    out.after = Says::new([Say::Fails, Say::Yes, Say::Yes, Say::Yes, Say::Yes, Say::Yes]);
    refused(&rt, rt.alloc(), options, &BACKOFF, out, [2, 1, 1])
}

// Hooks and a ping refuse connections: before a loan, up to two of them a poll, and at their return. What a hook declines
// is closed gently, all else hard.
const TESTED: Script<'static> = Script {
    rows: &[
        Row(1, Act::Ask, 0, 1, 1),
        Row(1, Act::Poll, 0, LENT, 5),
        Row(2, Act::Ask, 0, 2, 6),
        Row(2, Act::Poll, 0, LENT, 10),
        Row(1, Act::Return, 1, KEPT, 11),
        Row(2, Act::Return, 1, KEPT, 12),
        Row(1, Act::Ask, 2, 3, 13),
        Row(1, Act::Poll, 2, LENT, 19),
        Row(1, Act::Return, 3, CLOSED, 20),
        Row(1, Act::Ask, 4, 4, 21),
        Row(1, Act::Poll, 4, LENT, 25),
        Row(1, Act::Return, 5, CLOSED, 26),
        Row(1, Act::Ask, 6, 5, 27),
        Row(1, Act::Poll, 6, LENT, 31),
        Row(1, Act::Return, 7, CLOSED, 32),
        Row(1, Act::Ask, 8, 6, 33),
        Row(1, Act::Poll, 8, LENT, 37),
        Row(1, Act::Return, 9, CLOSED, 38),
        Row(1, Act::Ask, 10, 7, 39),
        Row(1, Act::Poll, 10, LENT, 43),
        Row(2, Act::Ask, 10, 8, 44),
        Row(2, Act::Poll, 10, LENT, 48),
        Row(1, Act::Return, 11, KEPT, 49),
        Row(2, Act::Return, 11, KEPT, 50),
        Row(1, Act::Ask, 12, 9, 51),
        Row(1, Act::Poll, 12, LENT, 59),
        Row(1, Act::Detach, 13, 0, 60),
    ],
    log: "asked 1 1 30000000000
left 1
opened 1 0
lent 1 1
ended 1
asked 2 2 30000000000
left 2
opened 2 0
lent 2 2
ended 2
kept 1 1
kept 2 1
asked 3 1 30000000002
left 3
taken 1
closed 1
taken 2
lent 1 2
ended 3
closed 2
asked 4 1 30000000004
left 4
opened 3 4
lent 1 3
ended 4
closed 3
asked 5 1 30000000006
left 5
opened 4 6
lent 1 4
ended 5
closed 4
asked 6 1 30000000008
left 6
opened 5 8
lent 1 5
ended 6
closed 5
asked 7 1 30000000010
left 7
opened 6 10
lent 1 6
ended 7
asked 8 2 30000000010
left 8
opened 7 10
lent 2 7
ended 8
kept 6 11
kept 7 11
asked 9 1 30000000012
left 9
taken 6
closed 6
taken 7
closed 7
opened 8 12
lent 1 8
ended 9
detached 8
",
    loans: 9,
};

#[test]
fn tests_that_refuse(rt: HostRuntime) -> Result<(), Fail> {
    let options = PoolOptions::new()
        .max_connections(2)
        .idle_tries(2)
        .before_acquire(true)
        .after_release(true)
        .test_before_acquire(false);
    let mut out = Refusing::new(YES);
    out.before = Says::new([
        Say::No,
        Say::Yes,
        Say::Fails,
        Say::Level,
        Say::Yes,
        Say::Yes,
    ]);
    out.release = Says::new([
        Say::Yes,
        Say::Yes,
        Say::No,
        Say::Fails,
        Say::Level,
        Say::Yes,
    ]);
    out.pings = Says::new([Say::Yes, Say::Yes, Say::Fails, Say::Yes, Say::Yes, Say::Yes]);
    refused(&rt, rt.alloc(), options, &TESTED, out, [8, 2, 5])
}

// A refusal, or want of memory, ends the keeping of the minimum; what was opened before it is kept. A connection that is
// taken out makes room for two.
const MINIMUM: Script<'static> = Script {
    rows: &[
        Row(1, Act::Fill, 0, 0, 0),
        Row(1, Act::Fill, 0, 0, 0),
        Row(1, Act::Size, 0, 0, 0),
        Row(1, Act::Fill, 0, 1, 2),
        Row(1, Act::Size, 0, 1, 2),
        Row(1, Act::Ask, 0, 1, 3),
        Row(1, Act::Poll, 0, LENT, 7),
        Row(1, Act::Detach, 1, 2, 12),
        Row(1, Act::Size, 1, 2, 12),
        Row(1, Act::Idle, 1, 2, 12),
    ],
    log: "opened 1 0
kept 1 0
asked 1 1 30000000000
left 1
taken 1
lent 1 1
ended 1
detached 1
opened 2 1
kept 2 1
opened 3 1
kept 3 1
",
    loans: 1,
};

#[test]
fn a_minimum_that_is_refused(rt: HostRuntime) -> Result<(), Fail> {
    let options = PoolOptions::new().max_connections(3).min_connections(2);
    let out = Refusing::new([
        Say::Passes,
        Say::Short,
        Say::Yes,
        Say::Fails,
        Say::Yes,
        Say::Yes,
    ]);
    refused(&rt, rt.alloc(), options, &MINIMUM, out, [3, 0, 0])
}

// The third of the first connections is refused: what was opened is closed hard, and the pool isn't made.
fn first_refused<H: Ledger, L: Loans, R: Wait + Abort>(
    rt: &R,
    alloc: Global,
    blanks: LoneBlanks<Conn, ()>,
) -> Result<(), Fail>
    requires max { L.max ≡ 3 }
    requires blanks { (blanks.held.name ≡ H.name) × (H.parts ≡ 2 ^ 32) × (blanks.loans.name ≡ L.name) × (L.parts ≡ 2 ^ 32) × (blanks.opened.seen.book ≡ L.book) }
{
    let options = PoolOptions::new()
        .max_connections(3)
        .min_connections(3)
        .after_connect(true);
    let mut out = Refusing::new([
        Say::Yes,
        Say::Yes,
        Say::Passes,
        Say::Yes,
        Say::Yes,
        Say::Yes,
    ]);
    let opened = options.connect_with::<Conn, (), Lone<Conn, (), H, L>, R, Refusing>(
        rt,
        alloc,
        (),
        Moment(0),
        &mut out,
        blanks,
    );
    let said = match opened {
        Ok((pool, tally)) => {
            drop(pool);
            drop(tally);
            KEPT
        }
        Err(error) => word(error),
    };
    same(rt, said, OTHER);
    same_three(
        rt,
        [out.counts.opened, out.counts.closed, out.counts.closed_hard],
        [2, 0, 2],
    );
    Ok(())
}

#[test]
fn first_connections_that_are_refused(rt: HostRuntime) -> Result<(), Fail> {
    first_refused::<Brand, Brand, HostRuntime>(&rt, rt.alloc(), BlanksOf::new())
}

// A deadline lies as far behind the last moment as a timeout reaches.
const LATE: Script<'static> = Script {
    rows: &[
        Row(1, Act::Ask, u64::MAX, 1, 1),
        Row(1, Act::Cancel, u64::MAX, CANCELLED, 2),
    ],
    log: "asked 1 1 36893488147419103230
ended 1
",
    loans: 0,
};

#[test]
fn a_deadline_behind_the_last_moment(rt: HostRuntime) -> Result<(), Fail> {
    let options = PoolOptions::new()
        .max_connections(1)
        .acquire_timeout(u64::MAX);
    refused(
        &rt,
        rt.alloc(),
        options,
        &LATE,
        Refusing::new(YES),
        [0, 0, 0],
    )
}
