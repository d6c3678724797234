//! A worker: it borrows connections of a pool, one after another, and returns each.

ghost use Rattle.std.specs.Prelude.{◌≡◌, ℕ, ◌+◌, ◌<◌, ◌≤◌, IfOk, OnOk, true};
ghost use Rattle.sqlx_pool_lists.specs.Balance.{one_if};
ghost use Rattle.sqlx_pool_parts.specs.Booked.{CountsIf};

use sqlx_pool::{Clock, Loans, Pool, Tally};
use sqlx_pool_core::Outside;
use sqlx_text::{Error, OutOfMemory};
use sqlx_traits::{Database, Executor};
use sqlx_tx::Hold;
use std::alloc::Global;
use std::sync::Wait;
use std::sync::ledger::Ledger;

// What every loan asks its connection.
const SELECT_ONE: &'static str = "SELECT 1";

// An error, but want of memory, is let go.
fn only_memory(error: Error) -> Result<(), OutOfMemory> {
    let short = matches!(&error, Error::OutOfMemory);
    drop(error);
    if short { Err(OutOfMemory) } else { Ok(()) }
}

// Asks a connection one query; its answer is let go.
fn select_one<DB: Database>(alloc: Global, conn: &mut DB::Connection) -> Result<(), OutOfMemory>
where
    DB::Connection: Executor<DB>,
{
    match Executor::<DB>::execute(conn, alloc, SELECT_ONE) {
        Ok(done) => {
            drop(done);
            Ok(())
        }
        Err(error) => only_memory(error),
    }
}

// Waits for a connection, uses and returns it: whether one came.
fn try_loan<
    DB: Database,
    H: Ledger,
    L: Loans,
    R: Wait,
    K: Clock,
    X: Outside<DB::Connection, DB::Options>,
>(
    rt: &R,
    alloc: Global,
    pool: &Pool<DB, H, L>,
    clock: &mut K,
    out: &mut X,
    client: u32,
    tally: &mut Tally<L>,
) -> Result<bool, OutOfMemory>
where
    DB::Connection: Executor<DB> + Drop,
    ensures made { IfOk result (λ lent. tally.new.loans ≡ tally.old.loans + one_if lent) }
    ensures most { tally.new.loans ≤ tally.old.loans + 1 }
    ensures parts { tally.new.parts ≡ tally.old.parts }
{
    match pool.acquire_wait::<R, K, X>(rt, alloc, clock, client, out, tally) {
        Ok(lent) => {
            let mut conn = lent;
            let done = select_one::<DB>(alloc, Hold::<DB>::conn_mut(&mut conn));
            let now = clock.now();
            let _ = conn.return_to_pool::<R, X>(rt, alloc, now, out);
            match done {
                Ok(()) => Ok(true),
                Err(short) => Err(short),
            }
        }
        Err(error) => match only_memory(error) {
            Ok(()) => Ok(false),
            Err(short) => Err(short),
        },
    }
}

// One loan: it asks again after any answer but a connection and want of memory.
fn one_loan<
    DB: Database,
    H: Ledger,
    L: Loans,
    R: Wait,
    K: Clock,
    X: Outside<DB::Connection, DB::Options>,
>(
    rt: &R,
    alloc: Global,
    pool: &Pool<DB, H, L>,
    clock: &mut K,
    out: &mut X,
    client: u32,
    tally: &mut Tally<L>,
) -> Result<(), OutOfMemory>
where
    DB::Connection: Executor<DB> + Drop,
    ensures made { OnOk result (tally.new.loans ≡ tally.old.loans + 1) }
    ensures most { tally.new.loans ≤ tally.old.loans + 1 }
    ensures parts { tally.new.parts ≡ tally.old.parts }
{
    for _round in rt.forever() {
        match try_loan::<DB, H, L, R, K, X>(rt, alloc, pool, clock, out, client, tally) {
            Ok(true) => return Ok(()),
            Ok(false) => {}
            Err(short) => return Err(short),
        }
    }
    unreachable!()
}

/// Makes so many loans, one after another: each connection is waited for, asked `SELECT 1`, and returned. What the
/// queries answer is let go. Only want of memory ends it before.
pub fn worker<
    DB: Database,
    H: Ledger,
    L: Loans,
    R: Wait,
    K: Clock,
    X: Outside<DB::Connection, DB::Options>,
>(
    rt: &R,
    alloc: Global,
    pool: &Pool<DB, H, L>,
    clock: &mut K,
    out: &mut X,
    client: u32,
    loans: u32,
    tally: Tally<L>,
) -> (Tally<L>, Result<(), OutOfMemory>)
where
    DB::Connection: Executor<DB> + Drop,
    ensures made { OnOk result.1 (result.0.loans ≡ tally.loans + loans) }
    ensures most { result.0.loans ≤ tally.loans + loans }
    ensures parts { result.0.parts ≡ tally.parts }
{
    let mut tally = tally;
    for _at in 0..loans {
        let made = one_loan::<DB, H, L, R, K, X>(rt, alloc, pool, clock, out, client, &mut tally);
        if let Err(short) = made {
            return (tally, Err(short));
        }
    }
    (tally, Ok(()))
}
