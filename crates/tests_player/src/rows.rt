//! Crowds over one store, by the text that they leave and by whether their workers meet.

ghost use Rattle.std.specs.Prelude.{◌≡◌, ◌^◌, false};

use crate::outside::{Meeting, Store, outs_of};
use sqlx_play_crowd::{CrowdBlanks, crowd_with};
use sqlx_pool::{BlanksOf, Loans};
use std::alloc::Global;
use std::marker::Brand;
use std::process::Abort;
use std::sync::atomic::{AtomicBool, Ordering};
use std::sync::ledger::Ledger;
use std::sync::{Arc, Wait};
use std::test::*;
use std::thread::Threads;

const ALONE: &str = "\
asked 1 1 30000000000
left 1
opened 1 0
lent 1 1
ended 1
kept 1 0
asked 2 1 30000000000
left 2
taken 1
lent 1 1
ended 2
kept 1 0
loans 2
";

// One worker makes two loans of a pool of one: the whole text.
fn alone<
    H: Ledger + Send + Sync + 'static,
    L: Loans + Send + Sync + 'static,
    R: Wait + Threads + Abort + Copy + Drop + Send + Sync + 'static,
>(rt: R, alloc: Global, blanks: CrowdBlanks<R>) -> Result<(), Fail>
    requires max { L.max ≡ 1 }
    requires uncut { L.cuts ≡ false }
    requires blanks { (blanks.held.name ≡ H.name) × (H.parts ≡ 2 ^ 32) × (blanks.loans.name ≡ L.name) × (L.parts ≡ 2 ^ 32) × (blanks.opened.seen.book ≡ L.book) }
{
    let outs = outs_of(rt, alloc, 1, None)?;
    let crowd = crowd_with::<H, L, R, Store<R>>(&rt, alloc, 2, 1, outs, blanks)?;
    assert_eq!(rt; crowd.text.as_str(), ALONE);
    Ok(())
}

#[test]
fn one_worker_line_by_line(rt: HostRuntime) -> Result<(), Fail> {
    alone::<Brand, Brand, HostRuntime>(rt, rt.alloc(), BlanksOf::new())
}

// Two workers make a loan each of a pool of two: how many loans there are.
fn two_loans<
    H: Ledger + Send + Sync + 'static,
    L: Loans + Send + Sync + 'static,
    R: Wait + Threads + Copy + Drop + Send + Sync + 'static,
>(rt: R, alloc: Global, meeting: &Arc<Meeting, Global>, blanks: CrowdBlanks<R>) -> Result<u64, Fail>
    requires max { L.max ≡ 2 }
    requires uncut { L.cuts ≡ false }
    requires blanks { (blanks.held.name ≡ H.name) × (H.parts ≡ 2 ^ 32) × (blanks.loans.name ≡ L.name) × (L.parts ≡ 2 ^ 32) × (blanks.opened.seen.book ≡ L.book) }
{
    let outs = outs_of(rt, alloc, 2, Some(meeting))?;
    let crowd = crowd_with::<H, L, R, Store<R>>(&rt, alloc, 1, 2, outs, blanks)?;
    Ok(crowd.tally.loans())
}

// A pool that held its lock through a connect, or a crowd that ran its workers one after another, would never let the
// two connects meet.
#[test]
fn gate_two_loans(rt: HostRuntime) -> Result<(), Fail> {
    let meeting = Meeting {
        first: AtomicBool::new(false),
        second: AtomicBool::new(false),
        missed: AtomicBool::new(false),
    };
    let meeting = Arc::new(rt.alloc(), meeting)?;
    let loans = two_loans::<Brand, Brand, HostRuntime>(rt, rt.alloc(), &meeting, BlanksOf::new())?;
    assert_eq!(rt; loans, 2);
    let missed = meeting.missed.load(Ordering::SeqCst);
    assert!(rt; !missed, "the connects ran beside each other");
    Ok(())
}
