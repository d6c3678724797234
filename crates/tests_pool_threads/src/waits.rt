//! Clients in threads of their own, and calls that wait for a connection.

ghost use Rattle.std.specs.Prelude.{◌≡◌, ℕ, ◌+◌, ◌^◌, ◌<◌, ◌≤◌};

use crate::clients::*;
use crate::outside::{Conn, Counts, new_counts};
use crate::same::same_three;
use crate::setup::{LoneBlanks, LonePool, pool_of};
use sqlx_pool::*;
use sqlx_pool_core::Outside;
use sqlx_text::{Depth, Moment};
use std::alloc::Global;
use std::marker::Brand;
use std::process::Abort;
use std::sync::Wait;
use std::sync::ledger::Ledger;
use std::test::*;
use std::thread::{Threads, join};

// How many loans a client makes that waits often.
const LOANS: u32 = 200;

// What a client in a thread of its own does.
#[derive(Clone, Copy)]
enum Work {
    // Asks and polls once, and returns the connection.
    Once,
    // Waits for a connection and returns it, often.
    Often,
    // Holds a connection until another client has asked, and ends its loan by the act.
    Hold(Act),
    // Waits for a connection that another client holds, and returns it.
    Come,
}

// Waits for a connection by a clock that stands still, and ends its loan: the word of that, or of the error.
fn wait_once<C: Depth + Drop, O: Drop, H: Ledger, L: Loans, R: Wait, X: Outside<C, O>>(
    rt: &R,
    alloc: Global,
    pool: &LonePool<C, O, H, L>,
    client: u32,
    now: u64,
    act: Act,
    until: usize,
    out: &mut X,
    tally: &mut Tally<L>,
) -> u64
    ensures parts { tally.new.parts ≡ tally.old.parts }
    ensures loans { tally.new.loans ≤ tally.old.loans + 1 }
{
    let mut clock = FixedClock(Moment(now));
    match pool.acquire_wait::<R, FixedClock, X>(rt, alloc, &mut clock, client, out, tally) {
        Ok(conn) => {
            until_long(rt, pool, until);
            if let Act::Shut = act {
                pool.close::<R, X>(rt, out);
            }
            ends::<C, O, Lone<C, O, H, L>, R, X>(rt, alloc, conn, act, now, out)
        }
        Err(error) => word(error),
    }
}

// Looks until the log is as long, at most so often.
fn until_long<C: Depth + Drop, O: Drop, H: Ledger, L: Loans, R: Wait>(
    rt: &R,
    pool: &LonePool<C, O, H, L>,
    marks: usize,
) {
    for _look in 0..20_000_000u32 {
        if pool.log_len(rt) >= marks {
            return;
        }
    }
}

// Waits for a connection and returns it, often: the last word.
fn waits_often<C: Depth + Drop, O: Drop, H: Ledger, L: Loans, R: Wait, X: Outside<C, O>>(
    rt: &R,
    alloc: Global,
    pool: &LonePool<C, O, H, L>,
    client: u32,
    out: &mut X,
    tally: &mut Tally<L>,
) -> u64
    ensures { tally.new.loans ≤ tally.old.loans + 200 }
{
    let mut said = NONE;
    for _at in 0..LOANS {
        said = wait_once::<C, O, H, L, R, X>(
            rt,
            alloc,
            pool,
            client,
            0,
            Act::Return,
            0,
            out,
            tally,
        );
    }
    said
}

// What a client does: its last word. The marks of the first loan are five, and the next ask makes a sixth.
fn works<C: Depth + Drop, O: Drop, H: Ledger, L: Loans, R: Wait, X: Outside<C, O>>(
    rt: &R,
    alloc: Global,
    pool: &LonePool<C, O, H, L>,
    client: u32,
    work: Work,
    out: &mut X,
    tally: &mut Tally<L>,
) -> u64
    ensures { tally.new.loans ≤ tally.old.loans + 200 }
{
    match work {
        Work::Once => loan::<C, O, Lone<C, O, H, L>, R, X>(rt, alloc, pool, client, 0, out, tally),
        Work::Often => waits_often::<C, O, H, L, R, X>(rt, alloc, pool, client, out, tally),
        Work::Hold(act) => {
            wait_once::<C, O, H, L, R, X>(rt, alloc, pool, client, 0, act, 6, out, tally)
        }
        Work::Come => {
            until_long(rt, pool, 5);
            wait_once::<C, O, H, L, R, X>(rt, alloc, pool, client, 0, Act::Return, 0, out, tally)
        }
    }
}

// A client, with an outside that refuses nothing: its tally, and its last word.
fn worker<H: Ledger, L: Loans, R: Wait>(
    rt: &R,
    alloc: Global,
    pool: &LonePool<Conn, (), H, L>,
    client: u32,
    work: Work,
    tally: Tally<L>,
) -> (Tally<L>, u64)
    requires { tally ≡ record { parts = 1; loans = 0 } }
    ensures { result.0.loans ≤ 200 }
{
    let mut tally = tally;
    let mut out = new_counts();
    let said = works::<Conn, (), H, L, R, Counts>(
        rt, alloc, pool, client, work, &mut out, &mut tally,
    );
    (tally, said)
}

// What came of two clients: the last word of the second, how many loans their tallies have, and how many marks the log.
type Came = [u64; 3];

// Two clients in threads of their own, in a new pool of so many.
fn two<H: Ledger + Send + Sync, L: Loans + Send + Sync, R: Wait + Threads + Sync>(
    rt: &R,
    alloc: Global,
    max: u32,
    first: Work,
    second: Work,
    blanks: LoneBlanks<Conn, ()>,
) -> Result<Came, Fail>
    requires max { L.max ≡ max }
    requires some { 1 ≤ max }
    requires blanks { (blanks.held.name ≡ H.name) × (H.parts ≡ 2 ^ 32) × (blanks.loans.name ≡ L.name) × (L.parts ≡ 2 ^ 32) × (blanks.opened.seen.book ≡ L.book) }
{
    let (pool, mut all) = pool_of::<Conn, (), H, L>(alloc, max, (), blanks)?;
    let one = all.split();
    let other = all.split();
    let shared = &pool;
    let ((one, _), (other, said)) = join(
        rt,
        move || -> (Tally<L>, u64)
            requires { one ≡ record { parts = 1; loans = 0 } }
            ensures { result.0.loans ≤ 200 }
        { worker(rt, alloc, shared, 1, first, one) },
        move || -> (Tally<L>, u64)
            requires { other ≡ record { parts = 1; loans = 0 } }
            ensures { result.0.loans ≤ 200 }
        { worker(rt, alloc, shared, 2, second, other) },
    );
    all.add(one);
    all.add(other);
    Ok([said, all.loans(), pool.log_len(rt) as u64])
}

// The same, with ledgers.
fn in_threads<R: Wait + Threads + Sync>(
    rt: &R,
    alloc: Global,
    max: u32,
    first: Work,
    second: Work,
) -> Result<Came, Fail>
    requires { 1 ≤ max }
{
    two::<Brand, Brand, R>(rt, alloc, max, first, second, BlanksOf::new())
}

#[test]
fn two_threads_get_a_connection_each(rt: HostRuntime) -> Result<(), Fail> {
    let came = in_threads(&rt, rt.alloc(), 2, Work::Once, Work::Once)?;
    same_three(&rt, came, [KEPT, 2, 12]);
    Ok(())
}

#[test]
fn two_threads_wait_for_one_connection(rt: HostRuntime) -> Result<(), Fail> {
    let came = in_threads(&rt, rt.alloc(), 1, Work::Often, Work::Often)?;
    same_three(&rt, came, [KEPT, 400, 2400]);
    Ok(())
}

#[test]
fn a_return_wakes_who_waits(rt: HostRuntime) -> Result<(), Fail> {
    let came = in_threads(&rt, rt.alloc(), 1, Work::Hold(Act::Return), Work::Come)?;
    same_three(&rt, came, [KEPT, 2, 12]);
    Ok(())
}

#[test]
fn a_detach_wakes_who_waits(rt: HostRuntime) -> Result<(), Fail> {
    let came = in_threads(&rt, rt.alloc(), 1, Work::Hold(Act::Detach), Work::Come)?;
    same_three(&rt, came, [KEPT, 2, 12]);
    Ok(())
}

#[test]
fn a_close_wakes_who_waits(rt: HostRuntime) -> Result<(), Fail> {
    let came = in_threads(&rt, rt.alloc(), 1, Work::Hold(Act::Shut), Work::Come)?;
    same_three(&rt, came, [POOL_CLOSED, 1, 9]);
    Ok(())
}

// A wait in a pool whose tickets have no time: it is asked, and it ends.
fn times_out<H: Ledger, L: Loans, R: Wait + Abort>(
    rt: &R,
    alloc: Global,
    blanks: LoneBlanks<Conn, ()>,
) -> Result<(), Fail>
    requires max { L.max ≡ 1 }
    requires blanks { (blanks.held.name ≡ H.name) × (H.parts ≡ 2 ^ 32) × (blanks.loans.name ≡ L.name) × (L.parts ≡ 2 ^ 32) × (blanks.opened.seen.book ≡ L.book) }
{
    let options = PoolOptions::new().max_connections(1).acquire_timeout(0);
    let (pool, mut tally) = options.connect_lazy_with::<Conn, (), Lone<Conn, (), H, L>>(
        alloc,
        (),
        blanks,
    )?;
    let mut out = new_counts();
    let said = wait_once::<Conn, (), H, L, R, Counts>(
        rt,
        alloc,
        &pool,
        1,
        7,
        Act::Return,
        0,
        &mut out,
        &mut tally,
    );
    let came = [said, tally.loans(), pool.log_len(rt) as u64];
    same_three(rt, came, [TIMED_OUT, 0, 2]);
    Ok(())
}

#[test]
fn a_timeout_by_a_clock_that_stands_still(rt: HostRuntime) -> Result<(), Fail> {
    times_out::<Brand, Brand, HostRuntime>(&rt, rt.alloc(), BlanksOf::new())
}

// The clock of the machine, from 0 on.
#[derive(Drop)]
struct Machine<R: Drop> {
    rt: R,
}

impl<R: std::rt::Clock + Drop> Clock for Machine<R> {
    ghost reads = { λ _ _ _. Unit {0} };

    fn now(&mut self) -> Moment {
        match self.rt.monotonic() {
            Ok(time) => {
                let seconds = time.as_secs().saturating_mul(1_000_000_000);
                Moment(seconds.saturating_add(u64::from(time.subsec_nanos())))
            }
            Err(error) => {
                drop(error);
                Moment(u64::MAX)
            }
        }
    }
}

// A client waits for a connection that nobody returns, for 20 ms by the clock of the machine.
fn waits_out<H: Ledger, L: Loans, R: Wait + Abort + std::rt::Clock + Copy + Drop>(
    rt: R,
    alloc: Global,
    blanks: LoneBlanks<Conn, ()>,
) -> Result<(), Fail>
    requires max { L.max ≡ 1 }
    requires blanks { (blanks.held.name ≡ H.name) × (H.parts ≡ 2 ^ 32) × (blanks.loans.name ≡ L.name) × (L.parts ≡ 2 ^ 32) × (blanks.opened.seen.book ≡ L.book) }
{
    let options = PoolOptions::new()
        .max_connections(1)
        .acquire_timeout(20_000_000);
    let (pool, mut tally) = options.connect_lazy_with::<Conn, (), Lone<Conn, (), H, L>>(
        alloc,
        (),
        blanks,
    )?;
    let mut out = new_counts();
    let mut clock = Machine { rt };
    let now = clock.now();
    let lent = lend::<Conn, (), Lone<Conn, (), H, L>, R, Counts>(
        &rt, alloc, &pool, 1, now.0, &mut out, &mut tally,
    );
    let said = match pool.acquire_wait::<R, Machine<R>, Counts>(
        &rt, alloc, &mut clock, 2, &mut out, &mut tally,
    ) {
        Ok(conn) => ends::<Conn, (), Lone<Conn, (), H, L>, R, Counts>(
            &rt,
            alloc,
            conn,
            Act::Return,
            now.0,
            &mut out,
        ),
        Err(error) => word(error),
    };
    if let Some(conn) = lent {
        ends::<Conn, (), Lone<Conn, (), H, L>, R, Counts>(
            &rt,
            alloc,
            conn,
            Act::Return,
            now.0,
            &mut out,
        );
    }
    same_three(
        &rt,
        [said, tally.loans(), pool.log_len(&rt) as u64],
        [TIMED_OUT, 1, 8],
    );
    drop(pool);
    drop(tally);
    Ok(())
}

#[test]
fn a_timeout_that_nobody_wakes(rt: HostRuntime) -> Result<(), Fail> {
    waits_out::<Brand, Brand, HostRuntime>(rt, rt.alloc(), BlanksOf::new())
}
