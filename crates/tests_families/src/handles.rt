//! A root of three and a child of two, by handles on them.

ghost use Rattle.std.specs.Prelude.{◌≡◌, ◌^◌, ◌<◌, ◌≤◌};

use crate::outside::Plain;
use crate::setup::{ConnBlanks, Conns, Lent, root_of};
use sqlx_pool::stage::Why;
use sqlx_pool::{BlanksOf, Loans, Polling, Returned, Tally};
use sqlx_pool_core::PoolOptions;
use sqlx_text::Moment;
use std::alloc::Global;
use std::marker::Brand;
use std::process::Abort;
use std::sync::Wait;
use std::sync::ledger::Ledger;
use std::test::*;

// What an ask and its first poll come to: a connection, and whether the ticket waited, which is cancelled then.
pub fn lend<H: Ledger, L: Loans, R: Wait>(
    rt: &R,
    alloc: Global,
    pool: &Conns<H, L>,
    client: u32,
    out: &mut Plain,
    tally: &mut Tally<L>,
) -> (Option<Lent<H, L>>, bool)
    ensures { tally.new.parts ≡ tally.old.parts }
{
    match pool.acquire(rt, alloc, Moment(0), client) {
        Ok(asked) => match asked.poll::<R, Plain>(rt, alloc, Moment(0), out, tally) {
            Polling::Ready(conn) => (Some(conn), false),
            Polling::Pending(asked, why) => {
                asked.cancel(rt);
                (None, why == Why::Waiting)
            }
            Polling::Failed(error) => {
                drop(error);
                (None, false)
            }
        },
        Err(error) => {
            drop(error);
            (None, false)
        }
    }
}

// Gives a connection back: whether it is kept.
pub fn give<H: Ledger, L: Loans, R: Wait>(
    rt: &R,
    alloc: Global,
    lent: Option<Lent<H, L>>,
    out: &mut Plain,
) -> bool {
    match lent {
        Some(conn) => matches!(
            conn.return_to_pool::<R, Plain>(rt, alloc, Moment(0), out),
            Returned::Kept
        ),
        None => false,
    }
}

// How many permits the root and the child own, as one front sees it.
fn owned<H: Ledger, L: Loans, R: Wait>(
    rt: &R,
    root: &Conns<H, L>,
    child: &Conns<H, L>,
) -> [u32; 2] {
    let mut me = root.front();
    [root.owned_seen(rt, &mut me), child.owned_seen(rt, &mut me)]
}

// The child's two tickets are served, and a third waits. After both connections are given back the child still owns its
// permits. It is retired, and the root has all.
fn shares<H: Ledger, L: Loans, R: Wait + Abort>(
    rt: &R,
    alloc: Global,
    root: &Conns<H, L>,
    child: &Conns<H, L>,
    out: &mut Plain,
    tally: &mut Tally<L>,
)
    requires child { 1 ≤ child.now.shared.value.name }
{
    let (first, _) = lend(rt, alloc, child, 1, out, tally);
    let (second, _) = lend(rt, alloc, child, 2, out, tally);
    let served = owned(rt, root, child);
    let (third, waits) = lend(rt, alloc, child, 3, out, tally);
    let kept = [
        give(rt, alloc, first, out),
        give(rt, alloc, second, out),
        give(rt, alloc, third, out),
    ];
    let given = owned(rt, root, child);
    let idle = child.retire::<R, Plain>(rt, out);
    let retired = owned(rt, root, child);
    assert_eq!(rt; [served, given, retired], [[1, 2], [1, 2], [3, 0]]);
    assert_eq!(rt;
        (kept, waits, idle, out.closed),
        ([true, true, false], true, 2, 2)
    );
}

// A new root of three, and its child of two.
fn family<H: Ledger, L: Loans, R: Wait + Abort>(
    rt: &R,
    alloc: Global,
    blanks: ConnBlanks,
) -> Result<(), Fail>
    requires max { L.max ≡ 3 }
    requires blanks { (blanks.held.name ≡ H.name) × (H.parts ≡ 2 ^ 32) × (blanks.loans.name ≡ L.name) × (L.parts ≡ 2 ^ 32) × (blanks.opened.seen.book ≡ L.book) }
{
    let options = PoolOptions::new();
    let (root, mut tally) = root_of::<H, L>(alloc, options.max_connections(3), blanks)?;
    let child = root.child(rt, alloc, options.max_connections(2))?;
    let mut out = Plain { closed: 0 };
    shares(rt, alloc, &root, &child, &mut out, &mut tally);
    let (max, log) = child.read_log(rt, alloc)?;
    assert_eq!(rt; (max, log.marks().len(), tally.loans()), (2, 17, 2));
    Ok(())
}

#[test]
fn a_root_of_three_and_a_child_of_two(rt: HostRuntime) -> Result<(), Fail> {
    family::<Brand, Brand, HostRuntime>(&rt, rt.alloc(), BlanksOf::new())
}
