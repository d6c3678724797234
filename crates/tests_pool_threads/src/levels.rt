//! Transactions on the connections of a pool, over any database.

ghost use Rattle.std.specs.Prelude.{◌≡◌, ◌<◌};

use crate::clients::lend;
use crate::same::same_read;
use crate::works::Acts;
use sqlx_any::Database;
use sqlx_pool::*;
use sqlx_pool_core::Outside;
use sqlx_text::{Error, Moment, SqlStr};
use sqlx_tx::{Borrowed, Hold, Transaction, calls};
use std::alloc::Global;
use std::process::Abort;
use std::sync::Wait;
use std::sync::ledger::Ledger;
use std::test::*;

// Ends a level: it is kept or undone, where it is still open.
fn ended<DB: Database, T: Hold<DB>>(
    alloc: Global,
    level: Transaction<DB, T>,
    keeps: bool,
) -> (T, Result<(), Error>) {
    if !calls::is_in_transaction::<DB>(level.as_ref()) {
        return (level.into_holder(), Err(Error::NotHeld));
    }
    if keeps {
        level.commit(alloc)
    } else {
        level.rollback(alloc)
    }
}

// Works in a level, and ends it: what holds the connection, and what was done.
fn worked_in<DB: Database, W: Acts<DB>, T: Hold<DB>>(
    alloc: Global,
    level: Transaction<DB, T>,
    work: W,
    keeps: bool,
) -> (T, Result<Option<i64>, Error>) {
    let mut level = level;
    let done = work.work(alloc, level.as_mut());
    let (holder, answer) = ended::<DB, T>(alloc, level, keeps);
    (holder, after(done, answer))
}

// What was done, where its level could be ended.
fn after(
    done: Result<Option<i64>, Error>,
    answer: Result<(), Error>,
) -> Result<Option<i64>, Error> {
    match answer {
        Ok(()) => done,
        Err(error) => {
            drop(done);
            Err(error)
        }
    }
}

// What was done last, where nothing was refused.
fn last_of(
    first: Result<Option<i64>, Error>,
    last: Result<Option<i64>, Error>,
) -> Result<Option<i64>, Error> {
    match first {
        Ok(_) => last,
        Err(error) => {
            drop(last);
            Err(error)
        }
    }
}

// Returns the connection of a refused begin, where there is one.
fn returned<
    DB: Database,
    S: PoolSteps<DB::Connection, DB::Options>,
    R: Wait,
    X: Outside<DB::Connection, DB::Options>,
>(
    rt: &R,
    alloc: Global,
    refused: BeginRefusedOf<PoolConnectionOf<DB::Connection, DB::Options, S>>,
    out: &mut X,
) -> Error
where
    DB::Connection: Drop,
{
    let BeginRefusedOf { error, connection } = refused;
    if let Some(conn) = connection {
        let _ = conn.return_to_pool::<R, X>(rt, alloc, Moment(0), out);
    }
    error
}

// Works in a level on what was acquired, where it could be begun, and ends the level.
fn in_begun<'c, DB: Database, W: Acts<DB>>(
    alloc: Global,
    begun: Result<Transaction<DB, Borrowed<'c, DB>>, (Error, Option<Borrowed<'c, DB>>)>,
    work: W,
    keeps: bool,
) -> Result<Option<i64>, Error>
where
    DB::Connection: 'c,
{
    match begun {
        Ok(level) => {
            let (holder, done) = worked_in::<DB, W, Borrowed<'c, DB>>(alloc, level, work, keeps);
            let Borrowed(_conn) = holder;
            done
        }
        Err(refused) => {
            let (error, holder) = refused;
            if let Some(Borrowed(_conn)) = holder {}
            Err(error)
        }
    }
}

// The same on what is acquired now.
fn acquired<'c, DB: Database, W: Acts<DB>, A: Acquire<DB, Holder = Borrowed<'c, DB>>>(
    alloc: Global,
    of: A,
    work: W,
    keeps: bool,
) -> Result<Option<i64>, Error>
where
    DB::Connection: 'c,
{
    in_begun::<DB, W>(alloc, of.begin(alloc), work, keeps)
}

/// The text of a begin: one that begins, and one that doesn't.
#[derive(Clone, Copy)]
pub enum Text {
    Begins,
    Selects,
}

impl Text {
    fn sql(self) -> SqlStr {
        match self {
            Text::Begins => SqlStr::from_static("BEGIN IMMEDIATE"),
            Text::Selects => SqlStr::from_static("SELECT 1"),
        }
    }
}

/// How a level is begun on a connection that the pool lends, and with which text.
#[derive(Clone, Copy)]
pub enum By {
    Waiting(Option<Text>),
    Trying(Option<Text>),
}

// A level that was tried; none is `NotHeld` without a connection.
fn of_tried<T, P>(tried: Result<Option<T>, BeginRefusedOf<P>>) -> Result<T, BeginRefusedOf<P>> {
    match tried {
        Ok(level) => match level {
            Some(level) => Ok(level),
            None => Err(BeginRefusedOf {
                error: Error::NotHeld,
                connection: None,
            }),
        },
        Err(refused) => Err(refused),
    }
}

// Begins a level on a connection of the pool: one that is waited for, or the first idle one.
fn begun<DB: Database, H: Ledger, L: Loans, R: Wait, X: Outside<DB::Connection, DB::Options>>(
    rt: &R,
    alloc: Global,
    pool: &Pool<DB, H, L>,
    by: By,
    out: &mut X,
    tally: &mut Tally<L>,
) -> Result<Transaction<DB, PoolConnection<DB, H, L>>, BeginRefused<DB, H, L>>
where
    DB::Connection: Drop,
    ensures { tally.new.parts ≡ tally.old.parts }
{
    let now = Moment(0);
    let mut clock = FixedClock(now);
    match by {
        By::Waiting(None) => PoolBegin::<DB, LoneOf<DB, H, L>>::begin::<R, FixedClock, X>(
            pool, rt, alloc, &mut clock, 1, out, tally,
        ),
        By::Waiting(Some(text)) => PoolBegin::<DB, LoneOf<DB, H, L>>::begin_with::<
            R,
            FixedClock,
            X,
        >(pool, rt, alloc, &mut clock, 1, out, tally, text.sql()),
        By::Trying(None) => of_tried(PoolBegin::<DB, LoneOf<DB, H, L>>::try_begin::<R>(
            pool, rt, alloc, now, 1, tally,
        )),
        By::Trying(Some(text)) => of_tried(PoolBegin::<DB, LoneOf<DB, H, L>>::try_begin_with::<R>(
            pool,
            rt,
            alloc,
            now,
            1,
            tally,
            text.sql(),
        )),
    }
}

// Works in a level of a level on a connection of the pool, ends both and returns the connection.
fn works<
    DB: Database,
    W: Acts<DB>,
    H: Ledger,
    L: Loans,
    R: Wait,
    X: Outside<DB::Connection, DB::Options>,
>(
    rt: &R,
    alloc: Global,
    pool: &Pool<DB, H, L>,
    by: By,
    work: W,
    keeps: bool,
    out: &mut X,
    tally: &mut Tally<L>,
) -> Result<Option<i64>, Error>
where
    DB::Connection: Drop,
    ensures { tally.new.parts ≡ tally.old.parts }
{
    match begun::<DB, H, L, R, X>(rt, alloc, pool, by, out, tally) {
        Ok(level) => {
            let mut level = level;
            let done = acquired::<DB, W, _>(alloc, &mut level, work, true);
            let (conn, answer) = ended::<DB, PoolConnection<DB, H, L>>(alloc, level, keeps);
            let _ = conn.return_to_pool::<R, X>(rt, alloc, Moment(0), out);
            after(done, answer)
        }
        Err(refused) => Err(returned::<DB, LoneOf<DB, H, L>, R, X>(rt, alloc, refused, out)),
    }
}

// Works in a level of a level; both are kept.
fn nested<DB: Database, W: Acts<DB>>(
    alloc: Global,
    conn: &mut DB::Connection,
    work: W,
) -> Result<Option<i64>, Error> {
    let mut level = calls::begin::<DB>(alloc, conn)?;
    let inner = Acquire::<DB>::begin(&mut level, alloc);
    let done = in_begun::<DB, W>(alloc, inner, work, true);
    let (holder, answer) = ended::<DB, Borrowed<'_, DB>>(alloc, level, true);
    let Borrowed(_conn) = holder;
    after(done, answer)
}

// Works in a level over a holder, and hands it back.
fn in_either<DB: Database, W: Acts<DB>, T: Hold<DB>>(
    alloc: Global,
    holder: T,
    work: W,
) -> (T, Result<Option<i64>, Error>) {
    match Transaction::<DB, T>::begin(alloc, holder, None) {
        Ok(level) => worked_in::<DB, W, T>(alloc, level, work, true),
        Err(refused) => {
            let (error, holder) = refused;
            (holder, Err(error))
        }
    }
}

// Works on what a connection of the pool lends, as it is and as one that is borrowed.
fn borrows<DB: Database, W: Acts<DB>, H: Ledger, L: Loans>(
    alloc: Global,
    conn: &mut PoolConnection<DB, H, L>,
    works: [W; 3],
) -> Result<Option<i64>, Error>
where
    DB::Connection: Drop,
{
    let first = acquired::<DB, W, _>(alloc, &mut *conn, works[0], true);
    let second = nested::<DB, W>(alloc, Hold::<DB>::conn_mut(conn), works[1]);
    let borrowed = Borrowed(Hold::<DB>::conn_mut(conn));
    let third = acquired::<DB, W, _>(alloc, borrowed, works[2], false);
    last_of(first, last_of(second, third))
}

// Works on a connection that the pool lends, and returns it.
fn lent_for<
    DB: Database,
    W: Acts<DB>,
    H: Ledger,
    L: Loans,
    R: Wait,
    X: Outside<DB::Connection, DB::Options>,
>(
    rt: &R,
    alloc: Global,
    pool: &Pool<DB, H, L>,
    work: W,
    out: &mut X,
    tally: &mut Tally<L>,
) -> Result<Option<i64>, Error>
where
    DB::Connection: Drop,
    ensures { tally.new.parts ≡ tally.old.parts }
{
    match lend::<DB::Connection, DB::Options, LoneOf<DB, H, L>, R, X>(
        rt, alloc, pool, 1, 0, out, tally,
    ) {
        Some(conn) => {
            let mut conn = conn;
            let done = work.work(alloc, Hold::<DB>::conn_mut(&mut conn));
            let _ = conn.return_to_pool::<R, X>(rt, alloc, Moment(0), out);
            done
        }
        None => Err(Error::PoolTimedOut),
    }
}

/// A number that isn't there.
pub const NOTHING: i64 = -1;

/// No level was begun.
pub const FAILED: i64 = -2;

/// What was done as a number. Other errors stay what they are.
pub fn number(done: Result<Option<i64>, Error>) -> Result<i64, Error> {
    match done {
        Ok(read) => Ok(read.unwrap_or(NOTHING)),
        Err(error) => {
            if !matches!(&error, Error::BeginFailed) {
                return Err(error);
            }
            drop(error);
            Ok(FAILED)
        }
    }
}

/// How a level is begun, if one is; what is done, whether the level is kept, and what is read.
pub struct Done<W>(pub Option<By>, pub W, pub bool, pub i64);

// Works as a row says, and sees what was read.
fn does<
    DB: Database,
    W: Acts<DB>,
    H: Ledger,
    L: Loans,
    R: Wait + Abort,
    X: Outside<DB::Connection, DB::Options>,
>(
    rt: &R,
    alloc: Global,
    pool: &Pool<DB, H, L>,
    row: &Done<W>,
    out: &mut X,
    tally: &mut Tally<L>,
) -> Result<(), Error>
where
    DB::Connection: Drop,
    ensures { tally.new.parts ≡ tally.old.parts }
{
    let done = match row.0 {
        Some(by) => works::<DB, W, H, L, R, X>(rt, alloc, pool, by, row.1, row.2, out, tally),
        None => lent_for::<DB, W, H, L, R, X>(rt, alloc, pool, row.1, out, tally),
    };
    reads(rt, done, row.3)
}

/// Works row by row.
pub fn does_all<
    DB: Database,
    W: Acts<DB>,
    H: Ledger,
    L: Loans,
    R: Wait + Abort,
    X: Outside<DB::Connection, DB::Options>,
>(
    rt: &R,
    alloc: Global,
    pool: &Pool<DB, H, L>,
    rows: &[Done<W>],
    out: &mut X,
    tally: &mut Tally<L>,
) -> Result<(), Error>
where
    DB::Connection: Drop,
    ensures { tally.new.parts ≡ tally.old.parts }
{
    for row in rows {
        does::<DB, W, H, L, R, X>(rt, alloc, pool, row, out, tally)?;
    }
    Ok(())
}

/// Four works on one connection of the pool: three on what it lends, as it is and as one that is borrowed, of which the
/// third is read, and one over a `MaybePoolConnection` of it, whose number is wanted; the connection is then closed by its return.
pub fn either<
    DB: Database,
    W: Acts<DB>,
    H: Ledger,
    L: Loans,
    R: Wait + Abort,
    X: Outside<DB::Connection, DB::Options>,
>(
    rt: &R,
    alloc: Global,
    pool: &Pool<DB, H, L>,
    lent: [W; 3],
    last: W,
    wanted: i64,
    out: &mut X,
    tally: &mut Tally<L>,
) -> Result<(), Error>
where
    DB::Connection: Drop,
{
    let mut clock = FixedClock(Moment(0));
    let mut conn = match pool.acquire_wait::<R, FixedClock, X>(
        rt, alloc, &mut clock, 1, out, tally,
    ) {
        Ok(conn) => conn,
        Err(error) => return Err(error),
    };
    let lent = borrows::<DB, W, H, L>(alloc, &mut conn, lent);
    let holder = MaybePoolConnectionOf::PoolConnection(conn);
    let (holder, done) = in_either::<DB, W, _>(alloc, holder, last);
    match holder {
        MaybePoolConnectionOf::Connection(_conn) => {}
        MaybePoolConnectionOf::PoolConnection(conn) => {
            let mut conn = conn;
            conn.close_on_drop();
            let _ = conn.return_to_pool::<R, X>(rt, alloc, Moment(0), out);
        }
    }
    reads(rt, last_of(lent, done), wanted)
}

// What was done, where nothing was refused, is this number.
fn reads<R: Abort>(rt: &R, done: Result<Option<i64>, Error>, wanted: i64) -> Result<(), Error> {
    match number(done) {
        Ok(read) => {
            same_read(rt, read, wanted);
            Ok(())
        }
        Err(error) => Err(error),
    }
}
