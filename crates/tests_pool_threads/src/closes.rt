//! A pool that is closed while a poll connects, and while it pings.

ghost use Rattle.std.specs.Prelude.{◌≡◌, ◌^◌, ◌<◌};
ghost use Rattle.sqlx_pool_core.specs.Calls as call;

use crate::clients::*;
use crate::outside::{Conn, Counts, new_counts};
use crate::rows::{Script, performs};
use crate::same::same_three;
use crate::setup::{LoneBlanks, LonePool, pool_of};
use sqlx_pool::*;
use sqlx_pool_core::Outside;
use sqlx_text::Error;
use std::alloc::Global;
use std::marker::Brand;
use std::process::Abort;
use std::sync::Wait;
use std::sync::ledger::Ledger;
use std::test::*;

// In which call the pool is closed.
#[derive(Clone, Copy)]
enum Closing {
    // In the first connect.
    Connect,
    // In the second ping, of which the first is that of a return.
    Ping,
}

// An outside that refuses nothing, and closes the pool in one of its calls.
#[derive(Drop)]
struct Closer<H: Ledger, L: Loans, R: Wait + Drop> {
    rt: R,
    pool: LonePool<Conn, (), H, L>,
    closing: Closing,
    pings: u64,
    counts: Counts,
}

impl<H: Ledger, L: Loans, R: Wait + Drop> Closer<H, L, R> {
    fn closes(&mut self) {
        self.pool.close::<R, Counts>(&self.rt, &mut self.counts);
    }
}

impl<H: Ledger, L: Loans, R: Wait + Drop> Outside<Conn, ()> for Closer<H, L, R> {
    ghost faults = { λ _. 0 };

    ghost refusals = { λ _. 0 };

    ghost depth = { λ _ _. 0 };

    ghost does = { call.Facts (λ _. 0) (λ _. 0) (λ _ _. 0) (λ _. Unit {0}) };

    fn connect(&mut self, _alloc: Global, _options: &()) -> Result<Conn, Error> {
        if let Closing::Connect = self.closing {
            self.closes();
        }
        self.counts.opened = self.counts.opened.saturating_add(1);
        Ok(Conn { depth: 0 })
    }

    fn ping(&mut self, _conn: &mut Conn) -> Result<(), Error> {
        self.pings = self.pings.saturating_add(1);
        if let Closing::Ping = self.closing
            && self.pings == 2
        {
            self.closes();
        }
        Ok(())
    }

    fn after_connect(
        &mut self,
        _conn: &mut Conn,
        _meta: PoolConnectionMetadata,
    ) -> Result<(), Error> {
        Ok(())
    }

    fn before_acquire(
        &mut self,
        _conn: &mut Conn,
        _meta: PoolConnectionMetadata,
    ) -> Result<bool, Error> {
        Ok(true)
    }

    fn after_release(
        &mut self,
        _conn: &mut Conn,
        _meta: PoolConnectionMetadata,
    ) -> Result<bool, Error> {
        Ok(true)
    }

    fn depth(&self, _conn: &Conn) -> usize {
        0
    }

    fn close(&mut self, _conn: Conn) {
        self.counts.closed = self.counts.closed.saturating_add(1);
    }

    fn close_hard(&mut self, _conn: Conn) {
        self.counts.closed_hard = self.counts.closed_hard.saturating_add(1);
    }

    ghost facts = { λ _ _ _ h. h };
}

// A pool that is closed while it connects.
const IN_CONNECT: Script<'static> = Script {
    rows: &[
        Row(1, Act::Ask, 0, 1, 1),
        Row(1, Act::Poll, 0, POOL_CLOSED, 4),
    ],
    log: "asked 1 1 30000000000\nleft 1\nshut\nended 1\n",
    loans: 0,
};

// One that is closed while it pings the connection of its first loan.
const IN_PING: Script<'static> = Script {
    rows: &[
        Row(1, Act::Ask, 0, 1, 1),
        Row(1, Act::Poll, 0, LENT, 5),
        Row(1, Act::Return, 0, KEPT, 6),
        Row(1, Act::Ask, 0, 2, 7),
        Row(1, Act::Poll, 0, POOL_CLOSED, 12),
    ],
    log: "asked 1 1 30000000000
left 1
opened 1 0
lent 1 1
ended 1
kept 1 0
asked 2 1 30000000000
left 2
taken 1
shut
closed 1
ended 2
",
    loans: 1,
};

// A script in a pool of one, by an outside that closes it: the connection at hand is closed.
fn closed_amid<H: Ledger, L: Loans, R: Wait + Abort + Copy + Drop>(
    rt: R,
    alloc: Global,
    pool: &LonePool<Conn, (), H, L>,
    closing: Closing,
    script: &Script<'_>,
    tally: &mut Tally<L>,
) -> Result<(), Fail> {
    let mut out = Closer {
        rt,
        pool: pool.try_clone()?,
        closing,
        pings: 0,
        counts: new_counts(),
    };
    let played = performs::<Conn, (), H, L, R, Closer<H, L, R>>(
        &rt, alloc, pool, script, &mut out, tally,
    );
    let counts = [out.counts.opened, out.counts.closed, out.counts.closed_hard];
    drop(out);
    same_three(&rt, counts, [1, 1, 0]);
    played
}

// The same in a new pool.
fn closed_in_one<H: Ledger, L: Loans, R: Wait + Abort + Copy + Drop>(
    rt: R,
    alloc: Global,
    closing: Closing,
    script: &Script<'_>,
    blanks: LoneBlanks<Conn, ()>,
) -> Result<(), Fail>
    requires max { L.max ≡ 1 }
    requires blanks { (blanks.held.name ≡ H.name) × (H.parts ≡ 2 ^ 32) × (blanks.loans.name ≡ L.name) × (L.parts ≡ 2 ^ 32) × (blanks.opened.seen.book ≡ L.book) }
{
    let (pool, mut tally) = pool_of::<Conn, (), H, L>(alloc, 1, (), blanks)?;
    let played = closed_amid::<H, L, R>(rt, alloc, &pool, closing, script, &mut tally);
    drop(pool);
    drop(tally);
    played
}

// The same, with ledgers.
fn closed_in<R: Wait + Abort + Copy + Drop>(
    rt: R,
    alloc: Global,
    closing: Closing,
    script: &Script<'_>,
) -> Result<(), Fail> {
    closed_in_one::<Brand, Brand, R>(rt, alloc, closing, script, BlanksOf::new())
}

#[test]
fn a_close_while_a_poll_connects(rt: HostRuntime) -> Result<(), Fail> {
    closed_in(rt, rt.alloc(), Closing::Connect, &IN_CONNECT)
}

#[test]
fn a_close_while_a_poll_pings(rt: HostRuntime) -> Result<(), Fail> {
    closed_in(rt, rt.alloc(), Closing::Ping, &IN_PING)
}
