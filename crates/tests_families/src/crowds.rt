//! Crowds of threads whose connections don't pass each third time they are asked: how many are open at once. No pool is
//! closed, reaped or retired meanwhile, which closes a connection behind the step that frees its place.

ghost use Rattle.std.specs.Prelude.{◌≡◌, ◌^◌, ◌<◌};

use crate::outside::{Counting, Counts};
use crate::setup::{ConnBlanks, Conns, Lent, root_of};
use sqlx_pool::{BlanksOf, FixedClock, Loans, Tally};
use sqlx_pool_core::PoolOptions;
use sqlx_text::Moment;
use std::alloc::Global;
use std::marker::Brand;
use std::process::Abort;
use std::sync::Wait;
use std::sync::ledger::Ledger;
use std::test::*;
use std::thread::{Threads, join};

// How many loans each client makes.
const LOANS: usize = 1000;

// How a client ends a loan.
#[derive(Clone, Copy)]
enum Ending {
    Return,
    Close,
    // The connection is told to close at its return.
    CloseAtReturn,
}

// How it ends its loans, one after another.
const ENDINGS: [Ending; 3] = [Ending::Return, Ending::Close, Ending::CloseAtReturn];

// Ends a loan.
fn ends<H: Ledger, L: Loans, R: Wait>(
    rt: &R,
    alloc: Global,
    conn: Lent<H, L>,
    ending: Ending,
    out: &mut Counting<'_>,
) {
    let mut conn = conn;
    match ending {
        Ending::Return => {}
        Ending::Close => {
            drop(conn.close::<R, Counting<'_>>(rt, alloc, Moment(0), out));
            return;
        }
        Ending::CloseAtReturn => conn.close_on_drop(),
    }
    let _back = conn.return_to_pool::<R, Counting<'_>>(rt, alloc, Moment(0), out);
}

// Waits for connections, one after another, and ends each loan: how many it got.
fn client<H: Ledger, L: Loans, R: Wait>(
    rt: &R,
    alloc: Global,
    pool: &Conns<H, L>,
    counts: &Counts,
    number: u32,
    tally: Tally<L>,
) -> u32 {
    let mut tally = tally;
    let mut out = Counting::new(counts);
    let mut clock = FixedClock(Moment(0));
    let mut made: u32 = 0;
    for at in 0..LOANS {
        match pool.acquire_wait::<R, FixedClock, Counting<'_>>(
            rt, alloc, &mut clock, number, &mut out, &mut tally,
        ) {
            Ok(conn) => {
                ends(rt, alloc, conn, ENDINGS[at % 3], &mut out);
                made = made.saturating_add(1);
            }
            Err(error) => drop(error),
        }
    }
    made
}

// Two clients of a pool in threads of their own: how many connections each got.
fn two<H: Ledger + Send + Sync, L: Loans + Send + Sync, R: Wait + Threads + Sync>(
    rt: &R,
    alloc: Global,
    pool: &Conns<H, L>,
    counts: &Counts,
    numbers: [u32; 2],
    one: Tally<L>,
    other: Tally<L>,
) -> (u32, u32)
    requires { (0 < one.parts) × (0 < other.parts) }
{
    join(
        rt,
        move || -> u32
            requires { 0 < one.parts }
        { client(rt, alloc, pool, counts, numbers[0], one) },
        move || -> u32
            requires { 0 < other.parts }
        { client(rt, alloc, pool, counts, numbers[1], other) },
    )
}

// Two clients of each pool: how many connections each of the four got.
fn four<H: Ledger + Send + Sync, L: Loans + Send + Sync, R: Wait + Threads + Sync>(
    rt: &R,
    alloc: Global,
    first: &Conns<H, L>,
    second: &Conns<H, L>,
    counts: &Counts,
    all: &mut Tally<L>,
) -> ((u32, u32), (u32, u32))
    requires { all.old.parts ≡ 2 ^ 32 }
{
    let a = all.split();
    let b = all.split();
    let c = all.split();
    let d = all.split();
    join(
        rt,
        move || -> (u32, u32)
            requires { (0 < a.parts) × (0 < b.parts) }
        { two(rt, alloc, first, counts, [1, 2], a, b) },
        move || -> (u32, u32)
            requires { (0 < c.parts) × (0 < d.parts) }
        { two(rt, alloc, second, counts, [3, 4], c, d) },
    )
}

// Of which pools the clients ask: not of the root and its children at once, for permits are shared and not connections,
// so an idle one of the root stays open when its permit goes to a child.
#[derive(Clone, Copy)]
enum Over {
    // All four of the root.
    Root,
    // Two of each of its two children.
    Children,
}

// What came of a crowd: how many connections each client got, the most that were open at once, how many are open at the
// end, and how many the pools say there are.
type Came = (((u32, u32), (u32, u32)), u32, u32, u32);

// A crowd over a new root of three, whose children are of two.
fn crowd<H: Ledger + Send + Sync, L: Loans + Send + Sync, R: Wait + Threads + Sync>(
    rt: &R,
    alloc: Global,
    over: Over,
    blanks: ConnBlanks,
) -> Result<Came, Fail>
    requires max { L.max ≡ 3 }
    requires blanks { (blanks.held.name ≡ H.name) × (H.parts ≡ 2 ^ 32) × (blanks.loans.name ≡ L.name) × (L.parts ≡ 2 ^ 32) × (blanks.opened.seen.book ≡ L.book) }
{
    let options = PoolOptions::new().after_release(true);
    let (root, mut all) = root_of::<H, L>(alloc, options.max_connections(3), blanks)?;
    let one = root.child(rt, alloc, options.max_connections(2))?;
    let other = root.child(rt, alloc, options.max_connections(2))?;
    let (first, second) = match over {
        Over::Root => (&root, &root),
        Over::Children => (&one, &other),
    };
    let counts = Counts::new();
    let made = four(rt, alloc, first, second, &counts, &mut all);
    let size = root
        .size(rt)
        .saturating_add(one.size(rt))
        .saturating_add(other.size(rt));
    Ok((made, counts.most(), counts.count(), size))
}

// The same, with ledgers: each loan was made, no more were open at once than the root's maximum, and as many are open at
// the end as the pools say there are.
fn is_within<R: Wait + Threads + Abort + Sync>(
    rt: &R,
    alloc: Global,
    over: Over,
) -> Result<(), Fail> {
    let (made, most, count, size) = crowd::<Brand, Brand, R>(rt, alloc, over, BlanksOf::new())?;
    assert_eq!(rt; made, ((1000, 1000), (1000, 1000)));
    assert!(rt; 1 <= most && most <= 3, "{most} were open at once");
    assert_eq!(rt; count, size);
    Ok(())
}

#[test]
fn no_fourth_connection_of_a_root_of_three(rt: HostRuntime) -> Result<(), Fail> {
    is_within(&rt, rt.alloc(), Over::Root)
}

#[test]
fn no_fourth_connection_of_two_children_of_a_root_of_three(rt: HostRuntime) -> Result<(), Fail> {
    is_within(&rt, rt.alloc(), Over::Children)
}
