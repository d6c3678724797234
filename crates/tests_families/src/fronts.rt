//! A client of a child, whose front goes on with each call: a ticket is polled, a connection is waited for, and the child is
//! retired.

ghost use Rattle.std.specs.Prelude.{◌≡◌, ◌^◌, ◌<◌, ◌≤◌};

use crate::handles::give;
use crate::outside::{Conn, Plain};
use crate::setup::{ConnBlanks, Conns, Lent, root_of};
use sqlx_family_pool::Family;
use sqlx_pool::{BlanksOf, FixedClock, FrontOf, Loans, Polling, Tally};
use sqlx_pool_core::PoolOptions;
use sqlx_text::{Error, Moment};
use std::alloc::Global;
use std::marker::Brand;
use std::process::Abort;
use std::sync::Wait;
use std::sync::ledger::Ledger;
use std::test::*;

type Front<H, L> = FrontOf<Conn, (), Family<Conn, (), H, L>>;

// What a front sees of a pool: how many marks its log has, how many of its connections are idle, how many permits it owns,
// and whether it is closed.
type Sight = (usize, usize, u32, bool);

// What the front of a caller sees.
fn sees<H: Ledger, L: Loans, R: Wait>(rt: &R, pool: &Conns<H, L>, me: &mut Front<H, L>) -> Sight {
    (
        pool.log_len_seen(rt, me),
        pool.num_idle_seen(rt, me),
        pool.owned_seen(rt, me),
        pool.is_closed_seen(rt, me),
    )
}

// Asks and polls once, as the front sees it.
fn polls<H: Ledger, L: Loans, R: Wait>(
    rt: &R,
    alloc: Global,
    pool: &Conns<H, L>,
    out: &mut Plain,
    tally: &mut Tally<L>,
    me: &mut Front<H, L>,
) -> Option<Lent<H, L>> {
    match pool.acquire_seen(rt, alloc, Moment(0), 1, me) {
        Ok(asked) => match asked.poll_seen::<R, Plain>(rt, alloc, Moment(0), out, tally, me) {
            Polling::Ready(conn) => Some(conn),
            Polling::Pending(asked, _why) => {
                asked.cancel(rt);
                None
            }
            Polling::Failed(error) => {
                drop(error);
                None
            }
        },
        Err(error) => {
            drop(error);
            None
        }
    }
}

// Waits for a connection: that, or whether the pool is closed.
fn waits<H: Ledger, L: Loans, R: Wait>(
    rt: &R,
    alloc: Global,
    pool: &Conns<H, L>,
    out: &mut Plain,
    tally: &mut Tally<L>,
) -> Result<Lent<H, L>, bool> {
    let mut clock = FixedClock(Moment(0));
    match pool.acquire_wait::<R, FixedClock, Plain>(rt, alloc, &mut clock, 1, out, tally) {
        Ok(conn) => Ok(conn),
        Err(error) => {
            let closed = matches!(&error, Error::PoolClosed);
            drop(error);
            Err(closed)
        }
    }
}

// Waits for the connection that rests and returns it, and waits again for one once the child is retired, in vain: whether
// the first was kept, what the front saw then, how many rested when the child was retired, and whether that was told.
fn waits_twice<H: Ledger, L: Loans, R: Wait>(
    rt: &R,
    alloc: Global,
    child: &Conns<H, L>,
    out: &mut Plain,
    tally: &mut Tally<L>,
    me: &mut Front<H, L>,
) -> (bool, Sight, usize, bool)
    requires child { 1 ≤ child.now.shared.value.name }
{
    let waited = waits(rt, alloc, child, out, tally).ok();
    let kept = give(rt, alloc, waited, out);
    let rests = sees(rt, child, me);
    let idle = child.retire_seen::<R, Plain>(rt, out, me);
    let refused = match waits(rt, alloc, child, out, tally) {
        Ok(conn) => {
            give(rt, alloc, Some(conn), out);
            false
        }
        Err(closed) => closed,
    };
    (kept, rests, idle, refused)
}

// A new root of two, and its child of one.
fn fronts<H: Ledger, L: Loans, R: Wait + Abort>(
    rt: &R,
    alloc: Global,
    blanks: ConnBlanks,
) -> Result<(), Fail>
    requires max { L.max ≡ 2 }
    requires blanks { (blanks.held.name ≡ H.name) × (H.parts ≡ 2 ^ 32) × (blanks.loans.name ≡ L.name) × (L.parts ≡ 2 ^ 32) × (blanks.opened.seen.book ≡ L.book) }
{
    let options = PoolOptions::new().max_connections(2);
    let (root, mut tally) = root_of::<H, L>(alloc, options, blanks)?;
    let child = root.child(rt, alloc, options.max_connections(1))?;
    let mut out = Plain { closed: 0 };
    let mut me = child.front();
    let at_first = sees(rt, &child, &mut me);
    let conn = polls(rt, alloc, &child, &mut out, &mut tally, &mut me);
    let lent = sees(rt, &child, &mut me);
    let kept = give(rt, alloc, conn, &mut out);
    let waited = waits_twice(rt, alloc, &child, &mut out, &mut tally, &mut me);
    let at_last = sees(rt, &child, &mut me);
    assert_eq!(rt; (at_first, lent), ((0, 0, 0, false), (5, 0, 1, false)));
    assert_eq!(rt; (kept, waited), (true, (true, (12, 1, 1, false), 1, true)));
    assert_eq!(rt;
        (at_last, root.owned(rt), tally.loans()),
        ((14, 0, 0, true), 2, 2)
    );
    Ok(())
}

#[test]
fn what_a_front_sees_of_a_child(rt: HostRuntime) -> Result<(), Fail> {
    fronts::<Brand, Brand, HostRuntime>(&rt, rt.alloc(), BlanksOf::new())
}
