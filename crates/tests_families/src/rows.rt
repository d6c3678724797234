//! A root and a child of two, step by step.

ghost use Rattle.std.specs.Prelude.{◌≡◌, ℕ, ◌^◌, ◌<◌};

use crate::outside::Conn;
use sqlx_family_pool::LockedFamily;
use sqlx_pool::Loans;
use sqlx_pool_core::{AfterConnect, PoolOptions, Start, Tried};
use sqlx_text::Moment;
use std::alloc::Global;
use std::marker::Brand;
use std::process::Abort;
use std::sync::ledger::{Blank, Ledger};
use std::test::*;

const WAITS: u32 = 1;

const CONNECTS: u32 = 2;

// What the start of a poll comes to.
fn word(start: Start<Conn>) -> u32 {
    match start {
        Start::Waiting => WAITS,
        Start::Connect => CONNECTS,
        _ => 0,
    }
}

// The number of the connection that a connect lends, or 0.
fn lent(after: AfterConnect<Conn>) -> u64 {
    match after {
        AfterConnect::Ready(lent) => lent.id,
        _ => 0,
    }
}

// How many marks a pool's log has.
fn marks<H: Ledger, L: Loans>(
    alloc: Global,
    family: &LockedFamily<Conn, (), H, L>,
    pool: u32,
) -> Result<usize, Fail> {
    let (_, log) = family.read_log(pool, alloc)?;
    Ok(log.marks().len())
}

// The first ticket is the root's, the second the child's, the third the root's: the child's takes a permit from the root,
// which has one left for its first ticket alone. The child is retired while its connection is out.
fn one_permit<H: Ledger, L: Loans, R: Abort>(
    rt: &R,
    alloc: Global,
    held: Blank,
    loans: Blank,
) -> Result<(), Fail>
    requires max { L.max ≡ 2 }
    requires held { (held.name ≡ H.name) × (held.parts ≡ H.parts) × (held.parts ≡ 2 ^ 32) }
    requires loans { (loans.name ≡ L.name) × (loans.parts ≡ L.parts) × (loans.parts ≡ 2 ^ 32) }
{
    let options = PoolOptions::new().max_connections(2);
    let (mut family, mut tally) = LockedFamily::<Conn, (), H, L>::new(
        alloc,
        options,
        (),
        held,
        loans,
    )?;
    let child = family.child(alloc, options)?;
    let first = family.ask(0, alloc, Moment(1), 1)?;
    let second = family.ask(child, alloc, Moment(2), 1)?;
    let third = family.ask(0, alloc, Moment(3), 1)?;
    let before = word(family.start(0, 1, third, Moment(4)));
    let served = word(family.start(child, 1, second, Moment(4)));
    let owned = [family.owned(0), family.owned(child)];
    let between = word(family.start(0, 1, third, Moment(4)));
    let own = word(family.start(0, 1, first, Moment(4)));
    let behind = word(family.start(0, 1, third, Moment(4)));
    let opened = Tried::Opened(Conn { depth: 0 });
    let (after, share) = family.finish_connect(child, 1, second, Moment(5), opened, &mut tally);
    let conn = lent(after);
    let written = [marks(alloc, &family, 0)?, marks(alloc, &family, child)?];
    let idle = family.retire(child).len();
    let held = [family.owned(0), family.owned(child)];
    let ended = match share {
        Some(share) => family.end(child, 1, conn, share).0,
        None => false,
    };
    let unnamed = word(family.start(7, 1, first, Moment(6)));
    let freed = [family.owned(0), family.owned(child)];
    assert_eq!(rt;
        [before, served, between, own, behind, unnamed],
        [WAITS, CONNECTS, WAITS, CONNECTS, WAITS, 0]
    );
    assert_eq!(rt; [owned, held, freed], [[1, 1], [1, 1], [2, 0]]);
    assert_eq!(rt; (written, idle, ended, tally.loans()), ([3, 5], 0, true, 1));
    Ok(())
}

#[test]
fn one_permit_moves_behind_the_lock(rt: HostRuntime) -> Result<(), Fail> {
    one_permit::<Brand, Brand, HostRuntime>(
        &rt,
        rt.alloc(),
        Blank::new(1 << 32),
        Blank::new(1 << 32),
    )
}
