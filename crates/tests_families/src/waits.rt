//! A thread that waits for one pool of a family of one permit is woken by what another does to the other pool.

ghost use Rattle.std.specs.Prelude.{◌≡◌, ℕ, ◌^◌, ◌<◌, ◌≤◌, IfOk};

use crate::outside::Plain;
use crate::setup::{ConnBlanks, Conns, Lent, root_of};
use sqlx_pool::{BlanksOf, FixedClock, Loans, Tally};
use sqlx_pool_core::PoolOptions;
use sqlx_text::Moment;
use std::alloc::Global;
use std::marker::Brand;
use std::sync::Wait;
use std::sync::ledger::Ledger;
use std::test::*;
use std::thread::{Threads, join};

// How often a thread looks for what the other does.
const LOOKS: u32 = 20_000_000;

// How often it looks on, in which the other falls asleep.
const FEW_LOOKS: u32 = 2_000;

// What wakes who waits.
#[derive(Clone, Copy)]
enum Freeing {
    // The root's connection comes back while the child is waited for.
    Return,
    // The child's comes back while the root is waited for, and then the child is retired.
    ReturnAndRetire,
    // The child is retired while its connection is out and the root is waited for, and then that comes back.
    RetireAndReturn,
    // The root is closed while its connection is out and the child is waited for.
    Close,
    // The child is retired while it is waited for.
    Retire,
}

// The pool whose connection is held, and the one that is waited for.
fn held_and_awaited<'a, H: Ledger, L: Loans>(
    root: &'a Conns<H, L>,
    child: &'a Conns<H, L>,
    freeing: Freeing,
) -> (&'a Conns<H, L>, &'a Conns<H, L>) {
    match freeing {
        Freeing::ReturnAndRetire | Freeing::RetireAndReturn => (child, root),
        Freeing::Return | Freeing::Close | Freeing::Retire => (root, child),
    }
}

// How many marks a pool's log has; 0 where there is no memory to copy it.
fn marks<H: Ledger, L: Loans, R: Wait>(rt: &R, alloc: Global, pool: &Conns<H, L>) -> usize {
    match pool.read_log(rt, alloc) {
        Ok((_, log)) => log.marks().len(),
        Err(_) => 0,
    }
}

// Looks until a pool's log is as long, at most so often: whether it is.
fn until_long<H: Ledger, L: Loans, R: Wait>(
    rt: &R,
    alloc: Global,
    pool: &Conns<H, L>,
    long: usize,
    looks: u32,
) -> bool {
    for _look in 0..looks {
        if marks(rt, alloc, pool) >= long {
            return true;
        }
    }
    false
}

// Gives a connection back.
fn give<H: Ledger, L: Loans, R: Wait>(rt: &R, alloc: Global, conn: Lent<H, L>) {
    let mut out = Plain { closed: 0 };
    let _back = conn.return_to_pool::<R, Plain>(rt, alloc, Moment(0), &mut out);
}

// Retires the child.
fn retire<H: Ledger, L: Loans, R: Wait>(rt: &R, child: &Conns<H, L>)
    requires { 1 ≤ child.now.shared.value.name }
{
    let mut out = Plain { closed: 0 };
    let _idle = child.retire::<R, Plain>(rt, &mut out);
}

// Closes the root.
fn close<H: Ledger, L: Loans, R: Wait>(rt: &R, root: &Conns<H, L>) {
    let mut out = Plain { closed: 0 };
    let _idle = root.close::<R, Plain>(rt, &mut out);
}

// Wakes who waits, and gives the connection back.
fn free<H: Ledger, L: Loans, R: Wait>(
    rt: &R,
    alloc: Global,
    root: &Conns<H, L>,
    child: &Conns<H, L>,
    conn: Lent<H, L>,
    freeing: Freeing,
)
    requires { 1 ≤ child.now.shared.value.name }
{
    match freeing {
        Freeing::Return => give(rt, alloc, conn),
        Freeing::ReturnAndRetire => {
            give(rt, alloc, conn);
            retire(rt, child);
        }
        Freeing::RetireAndReturn | Freeing::Retire => {
            retire(rt, child);
            give(rt, alloc, conn);
        }
        Freeing::Close => {
            close(rt, root);
            give(rt, alloc, conn);
        }
    }
}

// Waits for a connection: whether one came, which is the caller's.
fn lend<H: Ledger, L: Loans, R: Wait>(
    rt: &R,
    alloc: Global,
    pool: &Conns<H, L>,
    client: u32,
    tally: Tally<L>,
) -> Option<Lent<H, L>> {
    let mut tally = tally;
    let mut out = Plain { closed: 0 };
    let mut clock = FixedClock(Moment(0));
    match pool.acquire_wait::<R, FixedClock, Plain>(
        rt, alloc, &mut clock, client, &mut out, &mut tally,
    ) {
        Ok(conn) => Some(conn),
        Err(error) => {
            drop(error);
            None
        }
    }
}

// Holds the family's one permit until another client waits for the other pool: whether its ask is all that came of it
// till then.
fn hold<H: Ledger, L: Loans, R: Wait>(
    rt: &R,
    alloc: Global,
    root: &Conns<H, L>,
    child: &Conns<H, L>,
    freeing: Freeing,
    tally: Tally<L>,
) -> bool
    requires child { 1 ≤ child.now.shared.value.name }
{
    let (held, awaited) = held_and_awaited(root, child, freeing);
    match lend(rt, alloc, held, 1, tally) {
        Some(conn) => {
            let waits = until_long(rt, alloc, awaited, 1, LOOKS)
                && !until_long(rt, alloc, awaited, 2, FEW_LOOKS);
            free(rt, alloc, root, child, conn, freeing);
            waits
        }
        None => false,
    }
}

// Waits for a connection while another client holds the permit, and returns it: whether one came. The marks of the other's
// loan are five.
fn comes<H: Ledger, L: Loans, R: Wait>(
    rt: &R,
    alloc: Global,
    root: &Conns<H, L>,
    child: &Conns<H, L>,
    freeing: Freeing,
    tally: Tally<L>,
) -> bool {
    let (held, awaited) = held_and_awaited(root, child, freeing);
    until_long(rt, alloc, held, 5, LOOKS);
    match lend(rt, alloc, awaited, 2, tally) {
        Some(conn) => {
            give(rt, alloc, conn);
            true
        }
        None => false,
    }
}

// A new root of one, and its child of one.
fn both<H: Ledger, L: Loans, R: Wait>(
    rt: &R,
    alloc: Global,
    blanks: ConnBlanks,
) -> Result<(Conns<H, L>, Conns<H, L>, Tally<L>), Fail>
    requires max { L.max ≡ 1 }
    requires blanks { (blanks.held.name ≡ H.name) × (H.parts ≡ 2 ^ 32) × (blanks.loans.name ≡ L.name) × (L.parts ≡ 2 ^ 32) × (blanks.opened.seen.book ≡ L.book) }
    ensures child { IfOk result (λ made. 1 ≤ made.1.shared.value.name) }
    ensures parts { IfOk result (λ made. made.2.parts ≡ 2 ^ 32) }
{
    let options = PoolOptions::new().max_connections(1);
    let (root, tally) = root_of::<H, L>(alloc, options, blanks)?;
    let child = root.child(rt, alloc, options)?;
    Ok((root, child, tally))
}

// A client waits for one pool while another holds the permit by the other pool, and wakes it: whether the first waited
// till then, and whether it gets a connection.
fn woken<H: Ledger + Send + Sync, L: Loans + Send + Sync, R: Wait + Threads + Sync>(
    rt: &R,
    alloc: Global,
    freeing: Freeing,
    blanks: ConnBlanks,
) -> Result<(bool, bool), Fail>
    requires max { L.max ≡ 1 }
    requires blanks { (blanks.held.name ≡ H.name) × (H.parts ≡ 2 ^ 32) × (blanks.loans.name ≡ L.name) × (L.parts ≡ 2 ^ 32) × (blanks.opened.seen.book ≡ L.book) }
{
    let (root, child, mut all) = both::<H, L, R>(rt, alloc, blanks)?;
    let one = all.split();
    let other = all.split();
    let root = &root;
    let child = &child;
    Ok(join(
        rt,
        move || -> bool
            requires child { 1 ≤ child.now.shared.value.name }
            requires parts { 0 < one.parts }
        { hold(rt, alloc, root, child, freeing, one) },
        move || -> bool
            requires { 0 < other.parts }
        { comes(rt, alloc, root, child, freeing, other) },
    ))
}

// The same in a new family.
fn woken_by<R: Wait + Threads + Sync>(
    rt: &R,
    alloc: Global,
    freeing: Freeing,
) -> Result<(bool, bool), Fail> {
    woken::<Brand, Brand, R>(rt, alloc, freeing, BlanksOf::new())
}

#[test]
fn a_return_to_the_root_wakes_who_waits_for_the_child(rt: HostRuntime) -> Result<(), Fail> {
    assert_eq!(rt; woken_by(&rt, rt.alloc(), Freeing::Return)?, (true, true));
    Ok(())
}

#[test]
fn a_retired_child_wakes_who_waits_for_the_root(rt: HostRuntime) -> Result<(), Fail> {
    assert_eq!(rt;
        woken_by(&rt, rt.alloc(), Freeing::ReturnAndRetire)?,
        (true, true)
    );
    Ok(())
}

#[test]
fn a_return_to_a_retired_child_wakes_who_waits_for_the_root(rt: HostRuntime) -> Result<(), Fail> {
    assert_eq!(rt;
        woken_by(&rt, rt.alloc(), Freeing::RetireAndReturn)?,
        (true, true)
    );
    Ok(())
}

#[test]
fn a_close_of_the_root_wakes_who_waits_for_the_child(rt: HostRuntime) -> Result<(), Fail> {
    assert_eq!(rt; woken_by(&rt, rt.alloc(), Freeing::Close)?, (true, false));
    Ok(())
}

#[test]
fn a_retired_child_wakes_who_waits_for_it(rt: HostRuntime) -> Result<(), Fail> {
    assert_eq!(rt; woken_by(&rt, rt.alloc(), Freeing::Retire)?, (true, false));
    Ok(())
}
