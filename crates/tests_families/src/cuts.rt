//! Logs of a root and of its children that are cut, budgets of two children, a close that is told, connect options that
//! are set, and a root that opens its first connections.

ghost use Rattle.std.specs.Prelude.{◌≡◌, ◌^◌, ◌<◌, ◌≤◌, true};

use crate::handles::{give, lend};
use crate::outside::{Conn, Plain};
use crate::setup::{ConnBlanks, Conns, root_of};
use sqlx_family_pool::Family;
use sqlx_pool::{BlanksOf, Loans, Mark, MarkLog, PoolConnect, Step, Tally};
use sqlx_pool_core::{CloseState, PoolOptions};
use sqlx_text::Moment;
use std::alloc::Global;
use std::marker::Brand;
use std::process::Abort;
use std::sync::Wait;
use std::sync::ledger::Ledger;
use std::test::*;

// How many loans these marks make.
fn lent(marks: &[Mark]) -> u64 {
    let mut loans: u64 = 0;
    for mark in marks {
        if let Mark::Lent { .. } = mark {
            loans = loans.saturating_add(1);
        }
    }
    loans
}

// How many loans a log tells of.
fn told(log: &MarkLog) -> u64 {
    log.lent_before()
        .saturating_add(lent(log.start()))
        .saturating_add(lent(log.marks()))
}

// One loan of a pool, which is kept; then its log is cut.
fn a_loan<H: Ledger, L: Loans, R: Wait + Abort>(
    rt: &R,
    alloc: Global,
    pool: &Conns<H, L>,
    out: &mut Plain,
    tally: &mut Tally<L>,
) -> Result<(), Fail>
    requires cuts { L.cuts ≡ true }
    ensures { tally.new.parts ≡ tally.old.parts }
{
    let (conn, _) = lend(rt, alloc, pool, 1, out, tally);
    let kept = give(rt, alloc, conn, out);
    pool.cut_log(rt);
    let behind = pool.log_len(rt);
    let (_, log) = pool.read_log(rt, alloc)?;
    let start = log.start_len();
    drop(log);
    assert!(rt;
        kept && behind == 0 && start <= 6,
        "{behind} marks behind {start}"
    );
    Ok(())
}

// A hundred loans of a root and of its child by turns, with a cut after each; what the tally with every part tells of.
fn a_hundred<H: Ledger, L: Loans, R: Wait + Abort>(
    rt: &R,
    alloc: Global,
    blanks: ConnBlanks,
) -> Result<(), Fail>
    requires max { L.max ≡ 2 }
    requires cuts { L.cuts ≡ true }
    requires blanks { (blanks.held.name ≡ H.name) × (H.parts ≡ 2 ^ 32) × (blanks.loans.name ≡ L.name) × (L.parts ≡ 2 ^ 32) × (blanks.opened.seen.book ≡ L.book) }
{
    let options = PoolOptions::new().max_connections(2);
    let (root, mut tally) = root_of::<H, L>(alloc, options, blanks)?;
    let child = root.child(rt, alloc, options.max_connections(1))?;
    let mut out = Plain { closed: 0 };
    for _ in 0..50 {
        a_loan(rt, alloc, &root, &mut out, &mut tally)?;
        a_loan(rt, alloc, &child, &mut out, &mut tally)?;
    }
    let logs = root.audit_log(rt, alloc, &mut tally)?;
    let mut all: u64 = 0;
    for log in &logs {
        all = all.saturating_add(told(log));
    }
    assert_eq!(rt;
        (logs.len(), all, tally.loans(), out.closed),
        (2, 100, 100, 0)
    );
    Ok(())
}

#[test]
fn logs_that_are_cut_after_each_loan(rt: HostRuntime) -> Result<(), Fail> {
    a_hundred::<Brand, Brand, HostRuntime>(&rt, rt.alloc(), BlanksOf::new())
}

// A root that cuts its log by itself, as its child doesn't: the child's log grows.
fn by_itself<H: Ledger, L: Loans, R: Wait + Abort>(
    rt: &R,
    alloc: Global,
    blanks: ConnBlanks,
) -> Result<(), Fail>
    requires max { L.max ≡ 2 }
    requires cuts { L.cuts ≡ true }
    requires blanks { (blanks.held.name ≡ H.name) × (H.parts ≡ 2 ^ 32) × (blanks.loans.name ≡ L.name) × (L.parts ≡ 2 ^ 32) × (blanks.opened.seen.book ≡ L.book) }
{
    let options = PoolOptions::new().max_connections(2);
    let (root, mut tally) = root_of::<H, L>(alloc, options, blanks)?;
    let child = root.child(rt, alloc, options.max_connections(1))?;
    let mut out = Plain { closed: 0 };
    root.set_log_limit(rt, Some(60));
    let mut most: usize = 0;
    for _ in 0..100 {
        let (own, _) = lend(rt, alloc, &root, 1, &mut out, &mut tally);
        give(rt, alloc, own, &mut out);
        let (lent, _) = lend(rt, alloc, &child, 1, &mut out, &mut tally);
        give(rt, alloc, lent, &mut out);
        most = most.max(root.log_len(rt));
    }
    assert!(rt; most <= 66, "{most} marks");
    assert!(rt; child.log_len(rt) >= 600);
    Ok(())
}

#[test]
fn a_root_that_cuts_its_log(rt: HostRuntime) -> Result<(), Fail> {
    by_itself::<Brand, Brand, HostRuntime>(&rt, rt.alloc(), BlanksOf::new())
}

// A piece of work that is never done.
#[derive(Drop)]
struct Never {}

impl Step for Never {
    type Output = ();

    fn poll(&mut self) -> Option<()> {
        None
    }
}

// A root is closed while a connection of its child is out: the child counts as closing, and its event tells it.
fn told_of<H: Ledger, L: Loans, R: Wait + Abort>(
    rt: &R,
    alloc: Global,
    blanks: ConnBlanks,
) -> Result<(), Fail>
    requires max { L.max ≡ 2 }
    requires blanks { (blanks.held.name ≡ H.name) × (H.parts ≡ 2 ^ 32) × (blanks.loans.name ≡ L.name) × (L.parts ≡ 2 ^ 32) × (blanks.opened.seen.book ≡ L.book) }
{
    let options = PoolOptions::new().max_connections(2);
    let (root, mut tally) = root_of::<H, L>(alloc, options, blanks)?;
    let child = root.child(rt, alloc, options)?;
    let mut out = Plain { closed: 0 };
    let mut event = child.close_event()?;
    child.set_connect_options(rt, alloc, ())?;
    let (conn, _) = lend(rt, alloc, &child, 1, &mut out, &mut tally);
    let open = (
        event.poll(rt),
        event.do_until(rt, &mut Never {}).is_none(),
        child.closing(rt),
    );
    root.close::<R, Plain>(rt, &mut out);
    let closed = (
        event.is_terminated(rt),
        event.do_until(rt, &mut Never {}).is_some(),
        child.closing(rt),
    );
    let kept = give(rt, alloc, conn, &mut out);
    assert_eq!(rt; open, (false, true, CloseState::NotShut));
    assert_eq!(rt; closed, (true, true, CloseState::Closing));
    assert_eq!(rt;
        (kept, out.closed, child.closing(rt), root.closing(rt)),
        (false, 1, CloseState::Closed, CloseState::Closed)
    );
    Ok(())
}

#[test]
fn a_close_of_the_root_is_told(rt: HostRuntime) -> Result<(), Fail> {
    told_of::<Brand, Brand, HostRuntime>(&rt, rt.alloc(), BlanksOf::new())
}

// Two children with a budget each: one that has used its own up waits, and the other is served all the same.
fn budgets<H: Ledger, L: Loans, R: Wait + Abort>(
    rt: &R,
    alloc: Global,
    blanks: ConnBlanks,
) -> Result<(), Fail>
    requires max { L.max ≡ 3 }
    requires blanks { (blanks.held.name ≡ H.name) × (H.parts ≡ 2 ^ 32) × (blanks.loans.name ≡ L.name) × (L.parts ≡ 2 ^ 32) × (blanks.opened.seen.book ≡ L.book) }
{
    let options = PoolOptions::new().max_connections(3);
    let (root, mut tally) = root_of::<H, L>(alloc, options, blanks)?;
    let first = root.child(rt, alloc, options.max_connections(1))?;
    let second = root.child(rt, alloc, options.max_connections(2))?;
    let mut out = Plain { closed: 0 };
    let (a, _) = lend(rt, alloc, &first, 1, &mut out, &mut tally);
    let (b, waits) = lend(rt, alloc, &first, 2, &mut out, &mut tally);
    let (c, _) = lend(rt, alloc, &second, 3, &mut out, &mut tally);
    let (d, _) = lend(rt, alloc, &second, 4, &mut out, &mut tally);
    let (e, line) = lend(rt, alloc, &root, 5, &mut out, &mut tally);
    let owned = [root.owned(rt), first.owned(rt), second.owned(rt)];
    let kept = [
        give(rt, alloc, a, &mut out),
        give(rt, alloc, b, &mut out),
        give(rt, alloc, c, &mut out),
        give(rt, alloc, d, &mut out),
        give(rt, alloc, e, &mut out),
    ];
    assert_eq!(rt; (owned, waits, line), ([0, 1, 2], true, true));
    assert_eq!(rt;
        (kept, tally.loans()),
        ([true, false, true, true, false], 3)
    );
    Ok(())
}

#[test]
fn two_children_with_a_budget_each(rt: HostRuntime) -> Result<(), Fail> {
    budgets::<Brand, Brand, HostRuntime>(&rt, rt.alloc(), BlanksOf::new())
}

// A root whose minimum is two opens two connections before any client asks, and its child none.
fn first_ones<H: Ledger, L: Loans, R: Wait + Abort>(
    rt: &R,
    alloc: Global,
    blanks: ConnBlanks,
) -> Result<(), Fail>
    requires max { L.max ≡ 3 }
    requires blanks { (blanks.held.name ≡ H.name) × (H.parts ≡ 2 ^ 32) × (blanks.loans.name ≡ L.name) × (L.parts ≡ 2 ^ 32) × (blanks.opened.seen.book ≡ L.book) }
{
    let options = PoolOptions::new().max_connections(3).min_connections(2);
    let mut out = Plain { closed: 0 };
    let (root, tally) = options.connect_with::<Conn, (), Family<Conn, (), H, L>, R, Plain>(
        rt,
        alloc,
        (),
        Moment(0),
        &mut out,
        blanks,
    )?;
    let child = root.child(rt, alloc, options.max_connections(2))?;
    assert_eq!(rt; [root.num_idle(rt), child.num_idle(rt)], [2, 0]);
    assert_eq!(rt; (root.size(rt), root.log_len(rt), tally.loans()), (2, 4, 0));
    Ok(())
}

#[test]
fn a_root_that_opens_its_first_connections(rt: HostRuntime) -> Result<(), Fail> {
    first_ones::<Brand, Brand, HostRuntime>(&rt, rt.alloc(), BlanksOf::new())
}
