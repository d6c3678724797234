//! A log that is cut after each loan, and one that the pool cuts by itself.

ghost use Rattle.std.specs.Prelude.{◌≡◌, ◌^◌, ◌<◌, true};

use crate::clients::{KEPT, loan};
use crate::marks::lent;
use crate::outside::{Conn, Counts, new_counts};
use crate::same::same;
use crate::setup::{LoneBlanks, LonePool, pool_of};
use sqlx_pool::*;
use sqlx_pool_core::Outside;
use sqlx_text::Depth;
use std::alloc::Global;
use std::marker::Brand;
use std::process::Abort;
use std::sync::Wait;
use std::sync::ledger::Ledger;
use std::test::*;

// How a log is cut, and how many loans are made.
#[derive(Clone, Copy)]
struct Cuts {
    loans: u64,
    // It is cut after each loan.
    each: bool,
    // From how many marks on the pool cuts by itself.
    limit: Option<usize>,
    // How many marks it has behind its start at most.
    most: usize,
}

const EACH: Cuts = Cuts {
    loans: 100,
    each: true,
    limit: None,
    most: 0,
};

// The log is no longer than the limit and the marks of a loan.
const BY_ITSELF: Cuts = Cuts {
    loans: 3000,
    each: false,
    limit: Some(60),
    most: 66,
};

// A log has few marks behind a short start, as many as were counted, and has counted so many loans. It is let go.
fn is_short<R: Abort>(rt: &R, log: MarkLog, behind: usize, most: usize, loans: u64) {
    let marks = log.marks();
    let all = log.lent_before().saturating_add(lent(marks));
    let short = log.start_len() <= 6 && marks.len() == behind && behind <= most;
    drop(log);
    assert!(rt; short && all == loans, "{behind} marks, {all} loans");
}

// One loan, which is given back, and a cut where it is due: what the log says then.
fn a_loan<C: Depth + Drop, O: Drop, H: Ledger, L: Loans, R: Wait + Abort, X: Outside<C, O>>(
    rt: &R,
    alloc: Global,
    pool: &LonePool<C, O, H, L>,
    cuts: Cuts,
    at: u64,
    out: &mut X,
    tally: &mut Tally<L>,
) -> Result<(), Fail>
    requires cuts { L.cuts ≡ true }
    ensures { tally.new.parts ≡ tally.old.parts }
{
    let kept = loan::<C, O, Lone<C, O, H, L>, R, X>(rt, alloc, pool, 1, at, out, tally);
    same(rt, kept, KEPT);
    if cuts.each {
        pool.cut_log(rt);
    }
    let behind = pool.log_len(rt);
    let log = pool.read_log(rt, alloc)?;
    is_short(rt, log, behind, cuts.most, at.saturating_add(1));
    Ok(())
}

// Many of them, and the log that the tally with every part tells of.
fn many<C: Depth + Drop, O: Drop, H: Ledger, L: Loans, R: Wait + Abort, X: Outside<C, O>>(
    rt: &R,
    alloc: Global,
    pool: &LonePool<C, O, H, L>,
    cuts: Cuts,
    out: &mut X,
    tally: &mut Tally<L>,
) -> Result<(), Fail>
    requires all { tally.old.parts ≡ L.parts }
    requires cuts { L.cuts ≡ true }
{
    pool.set_log_limit(rt, cuts.limit);
    for at in 0..cuts.loans {
        a_loan::<C, O, H, L, R, X>(rt, alloc, pool, cuts, at, out, tally)?;
    }
    let log = pool.audit_log(rt, alloc, tally)?;
    let behind = log.marks().len();
    is_short(rt, log, behind, cuts.most, cuts.loans);
    same(rt, tally.loans(), cuts.loans);
    Ok(())
}

// The same in a new pool: one connection served all loans.
fn counts<H: Ledger, L: Loans, R: Wait + Abort>(
    rt: &R,
    alloc: Global,
    cuts: Cuts,
    blanks: LoneBlanks<Conn, ()>,
) -> Result<(), Fail>
    requires max { L.max ≡ 1 }
    requires cuts { L.cuts ≡ true }
    requires blanks { (blanks.held.name ≡ H.name) × (H.parts ≡ 2 ^ 32) × (blanks.loans.name ≡ L.name) × (L.parts ≡ 2 ^ 32) × (blanks.opened.seen.book ≡ L.book) }
{
    let (pool, mut tally) = pool_of::<Conn, (), H, L>(alloc, 1, (), blanks)?;
    let mut out = new_counts();
    let cut = many::<Conn, (), H, L, R, Counts>(rt, alloc, &pool, cuts, &mut out, &mut tally);
    drop(pool);
    drop(tally);
    same(rt, out.opened, 1);
    cut
}

// The same, with ledgers.
fn cut<R: Wait + Abort>(rt: &R, alloc: Global, cuts: Cuts) -> Result<(), Fail> {
    counts::<Brand, Brand, R>(rt, alloc, cuts, BlanksOf::new())
}

#[test]
fn a_log_that_is_cut_after_each_loan(rt: HostRuntime) -> Result<(), Fail> {
    cut(&rt, rt.alloc(), EACH)
}

#[test]
fn a_pool_that_cuts_its_log(rt: HostRuntime) -> Result<(), Fail> {
    cut(&rt, rt.alloc(), BY_ITSELF)
}
