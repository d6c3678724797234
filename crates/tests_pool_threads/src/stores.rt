//! Pools of connections to one store in memory: the way of a pool of one, queries and levels through a pool, and a pool as
//! an executor.

ghost use Rattle.std.specs.Prelude.{◌≡◌, ◌^◌, ◌<◌, ◌≤◌};

use crate::levels::*;
use crate::rows::{WAY, in_one};
use crate::same::{same_read, same_three};
use crate::setup::{LoneBlanks, LonePool};
use crate::works::{Acts, Work};
use mem_driver::{MemStore, SharedMem, SharedMemConnection, SharedMemConnector};
use sqlx_any::{ConnectOptions, Connector, Database, Executor};
use sqlx_pool::*;
use sqlx_pool_core::Outside;
use sqlx_text::{Depth, Error, Moment};
use std::alloc::Global;
use std::marker::Brand;
use std::process::Abort;
use std::sync::Wait;
use std::sync::ledger::Ledger;
use std::test::*;

// The way of a pool of one, by the connections of a connector.
fn way_over<DB: Database, K: Connector<DB>, H: Ledger, L: Loans, R: Wait + Abort>(
    rt: &R,
    alloc: Global,
    connector: &mut K,
    blanks: LoneBlanks<DB::Connection, DB::Options>,
) -> Result<(), Fail>
where
    DB::Connection: Drop,
    requires max { L.max ≡ 1 }
    requires blanks { (blanks.held.name ≡ H.name) × (H.parts ≡ 2 ^ 32) × (blanks.loans.name ≡ L.name) × (L.parts ≡ 2 ^ 32) × (blanks.opened.seen.book ≡ L.book) }
{
    let connect = DB::Options::parse(alloc, "mem:")?;
    let mut hooks = NoHooks;
    let mut out = Parts::<'_, DB, K, NoHooks>::new(connector, &mut hooks);
    in_one::<DB::Connection, DB::Options, H, L, R, Parts<'_, DB, K, NoHooks>>(
        rt, alloc, connect, &WAY, &mut out, blanks,
    )
}

// The same over a new store.
fn way_of_a_store<H: Ledger, L: Loans, R: Wait + Abort + Copy + Drop>(
    rt: R,
    alloc: Global,
    blanks: Blanks<SharedMem<R>>,
) -> Result<(), Fail>
    requires max { L.max ≡ 1 }
    requires blanks { (blanks.held.name ≡ H.name) × (H.parts ≡ 2 ^ 32) × (blanks.loans.name ≡ L.name) × (L.parts ≡ 2 ^ 32) × (blanks.opened.seen.book ≡ L.book) }
{
    let mut connector = SharedMemConnector::new(alloc, rt, MemStore::new(alloc))?;
    let went = way_over::<SharedMem<R>, SharedMemConnector<R>, H, L, R>(
        &rt,
        alloc,
        &mut connector,
        blanks,
    );
    drop(connector);
    went
}

#[test]
fn a_pool_of_one_over_a_store(rt: HostRuntime) -> Result<(), Fail> {
    way_of_a_store::<Brand, Brand, HostRuntime>(rt, rt.alloc(), BlanksOf::new())
}

// What is done with a pool of a store.
#[derive(Clone, Copy)]
enum Trial {
    Queries,
    Levels,
    Handle,
}

// A key is written by one loan and read by the next; one that nobody wrote isn't there.
const QUERIES: &[Done<Work>] = &[
    Done(None, Work::Put(1, 5), true, NOTHING),
    Done(None, Work::Get(1), true, 5),
    Done(None, Work::Get(2), true, NOTHING),
];

// A key is written in a level that is kept, and in one that is undone, begun in each way; what is read is the kept one. A
// begin by a text that begins nothing is refused, and its connection comes back and can be returned.
const LEVELS: &[Done<Work>] = &[
    Done(Some(By::Waiting(None)), Work::Put(1, 5), true, NOTHING),
    Done(Some(By::Trying(None)), Work::Get(1), true, 5),
    Done(
        Some(By::Trying(Some(Text::Begins))),
        Work::Put(1, 6),
        false,
        NOTHING,
    ),
    Done(
        Some(By::Waiting(Some(Text::Begins))),
        Work::Get(1),
        false,
        5,
    ),
    Done(
        Some(By::Trying(Some(Text::Selects))),
        Work::Get(1),
        true,
        FAILED,
    ),
];

// How many connections there are, how many are idle, and how many loans were made.
fn numbers<C: Depth + Drop, O: Drop, H: Ledger, L: Loans, R: Wait>(
    rt: &R,
    pool: &LonePool<C, O, H, L>,
    tally: &Tally<L>,
) -> [u64; 3] {
    let size = u64::from(pool.size(rt));
    [size, pool.num_idle(rt) as u64, tally.loans()]
}

// The works of a trial.
fn tried_on<
    DB: Database,
    H: Ledger,
    L: Loans,
    R: Wait + Abort,
    X: Outside<DB::Connection, DB::Options>,
>(
    rt: &R,
    alloc: Global,
    pool: &Pool<DB, H, L>,
    trial: Trial,
    out: &mut X,
    tally: &mut Tally<L>,
) -> Result<(), Error>
where
    DB::Connection: Drop,
    Work: Acts<DB>,
{
    if let Trial::Queries = trial {
        return does_all::<DB, Work, H, L, R, X>(rt, alloc, pool, QUERIES, out, tally);
    }
    does_all::<DB, Work, H, L, R, X>(rt, alloc, pool, LEVELS, out, tally)?;
    let lent = [Work::Put(2, 7), Work::Put(2, 8), Work::Get(2)];
    either::<DB, Work, H, L, R, X>(rt, alloc, pool, lent, Work::Get(2), 8, out, tally)
}

// A pool that opens its connections as they are asked for: its numbers at the end.
fn lazily<
    DB: Database,
    H: Ledger,
    L: Loans,
    R: Wait + Abort,
    X: Outside<DB::Connection, DB::Options>,
>(
    rt: &R,
    alloc: Global,
    trial: Trial,
    out: &mut X,
    blanks: LoneBlanks<DB::Connection, DB::Options>,
) -> Result<[u64; 3], Error>
where
    DB::Connection: Drop,
    Work: Acts<DB>,
    requires max { L.max ≡ 10 }
    requires blanks { (blanks.held.name ≡ H.name) × (H.parts ≡ 2 ^ 32) × (blanks.loans.name ≡ L.name) × (L.parts ≡ 2 ^ 32) × (blanks.opened.seen.book ≡ L.book) }
{
    let (pool, mut tally) = Pool::<DB, H, L>::connect_lazy(alloc, "mem:", blanks)?;
    same_three(rt, numbers(rt, &pool, &tally), [0, 0, 0]);
    let tried = tried_on::<DB, H, L, R, X>(rt, alloc, &pool, trial, out, &mut tally);
    let numbers = numbers(rt, &pool, &tally);
    drop(pool);
    drop(tally);
    match tried {
        Ok(()) => Ok(numbers),
        Err(error) => Err(error),
    }
}

// A key is written by one call of an executor and read by another.
fn calls<DB: Database, E: Executor<DB>>(alloc: Global, on: &mut E) -> Result<Option<i64>, Error>
where
    Work: Acts<DB>,
{
    Acts::<DB>::work_on(Work::Put(1, 5), alloc, on)?;
    Acts::<DB>::work_on(Work::Get(1), alloc, on)
}

// The pool as an executor, whose calls are loans: what is read, and the tally.
fn handled<
    DB: Database,
    H: Ledger,
    L: Loans,
    R: Wait + Drop,
    X: Outside<DB::Connection, DB::Options> + Drop,
>(
    rt: R,
    alloc: Global,
    pool: &Pool<DB, H, L>,
    out: X,
    tally: Tally<L>,
) -> (Result<i64, Error>, Tally<L>)
where
    DB::Connection: Executor<DB> + Drop,
    Work: Acts<DB>,
{
    let mut handle = pool.with(rt, FixedClock(Moment(0)), 1, out, tally);
    let read = number(calls::<DB, _>(alloc, &mut handle));
    let (_clock, out, tally) = handle.into_parts();
    drop(out);
    (read, tally)
}

// A pool that opens a connection at first, as an executor: its numbers at the end.
fn by_a_handle<
    DB: Database,
    H: Ledger,
    L: Loans,
    R: Wait + Abort + Copy + Drop,
    X: Outside<DB::Connection, DB::Options> + Drop,
>(
    rt: R,
    alloc: Global,
    out: X,
    blanks: LoneBlanks<DB::Connection, DB::Options>,
) -> Result<[u64; 3], Error>
where
    DB::Connection: Executor<DB> + Drop,
    Work: Acts<DB>,
    requires max { L.max ≡ 10 }
    requires blanks { (blanks.held.name ≡ H.name) × (H.parts ≡ 2 ^ 32) × (blanks.loans.name ≡ L.name) × (L.parts ≡ 2 ^ 32) × (blanks.opened.seen.book ≡ L.book) }
{
    let mut out = out;
    match Pool::<DB, H, L>::connect::<R, X>(&rt, alloc, "mem:", Moment(0), &mut out, blanks) {
        Ok((pool, tally)) => {
            let (read, tally) = handled::<DB, H, L, R, X>(rt, alloc, &pool, out, tally);
            let numbers = numbers(&rt, &pool, &tally);
            drop(pool);
            drop(tally);
            read_five(&rt, read, numbers)
        }
        Err(error) => {
            drop(out);
            Err(error)
        }
    }
}

// The numbers, where five was read.
fn read_five<R: Abort>(
    rt: &R,
    read: Result<i64, Error>,
    numbers: [u64; 3],
) -> Result<[u64; 3], Error> {
    match read {
        Ok(read) => {
            same_read(rt, read, 5);
            Ok(numbers)
        }
        Err(error) => Err(error),
    }
}

// A trial by the connections of a connector.
fn over<DB: Database, K: Connector<DB>, H: Ledger, L: Loans, R: Wait + Abort + Copy + Drop>(
    rt: R,
    alloc: Global,
    trial: Trial,
    connector: &mut K,
    blanks: LoneBlanks<DB::Connection, DB::Options>,
) -> Result<[u64; 3], Error>
where
    DB::Connection: Executor<DB> + Drop,
    Work: Acts<DB>,
    requires max { L.max ≡ 10 }
    requires blanks { (blanks.held.name ≡ H.name) × (H.parts ≡ 2 ^ 32) × (blanks.loans.name ≡ L.name) × (L.parts ≡ 2 ^ 32) × (blanks.opened.seen.book ≡ L.book) }
{
    let mut hooks = NoHooks;
    let mut out = Parts::<'_, DB, K, NoHooks>::new(connector, &mut hooks);
    match trial {
        Trial::Handle => by_a_handle::<DB, H, L, R, Parts<'_, DB, K, NoHooks>>(
            rt, alloc, out, blanks,
        ),
        trial => lazily::<DB, H, L, R, Parts<'_, DB, K, NoHooks>>(
            &rt, alloc, trial, &mut out, blanks,
        ),
    }
}

// The same over a new store.
fn over_a_store<H: Ledger, L: Loans, R: Wait + Abort + Copy + Drop>(
    rt: R,
    alloc: Global,
    trial: Trial,
    blanks: Blanks<SharedMem<R>>,
) -> Result<[u64; 3], Error>
    requires max { L.max ≡ 10 }
    requires blanks { (blanks.held.name ≡ H.name) × (H.parts ≡ 2 ^ 32) × (blanks.loans.name ≡ L.name) × (L.parts ≡ 2 ^ 32) × (blanks.opened.seen.book ≡ L.book) }
{
    let mut connector = SharedMemConnector::new(alloc, rt, MemStore::new(alloc))?;
    let tried = over::<SharedMem<R>, SharedMemConnector<R>, H, L, R>(
        rt,
        alloc,
        trial,
        &mut connector,
        blanks,
    );
    drop(connector);
    tried
}

// The same, with ledgers.
fn tried<R: Wait + Abort + Copy + Drop>(
    rt: R,
    alloc: Global,
    trial: Trial,
) -> Result<[u64; 3], Error> {
    over_a_store::<Brand, Brand, R>(rt, alloc, trial, BlanksOf::new())
}

#[test]
fn queries_through_a_pool(rt: HostRuntime) -> Result<(), Fail> {
    same_three(&rt, tried(rt, rt.alloc(), Trial::Queries)?, [1, 1, 3]);
    Ok(())
}

#[test]
fn levels_on_a_pool_over_a_store(rt: HostRuntime) -> Result<(), Fail> {
    same_three(&rt, tried(rt, rt.alloc(), Trial::Levels)?, [0, 0, 6]);
    Ok(())
}

#[test]
fn a_pool_as_an_executor(rt: HostRuntime) -> Result<(), Fail> {
    same_three(&rt, tried(rt, rt.alloc(), Trial::Handle)?, [1, 1, 2]);
    Ok(())
}
