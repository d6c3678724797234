//! Families: a permit that moves from the root to a child, a child that is retired, two children with a budget each, and a
//! ticket that a retired child leaves in the line.

use sqlx_family::Family;
use sqlx_pool_core::*;
use sqlx_text::{Error, Moment};
use std::process::Abort;
use std::test::*;

const WAITS: u32 = 1;

const CONNECTS: u32 = 2;

// What the start of a poll comes to.
fn word(start: Start<u32>) -> u32 {
    match start {
        Start::Waiting => WAITS,
        Start::Connect => CONNECTS,
        _ => 0,
    }
}

// The number of the connection that a connect lends, or 0.
fn lent(after: AfterConnect<u32>) -> u64 {
    match after {
        AfterConnect::Ready(lent) => lent.id,
        _ => 0,
    }
}

fn is_kept(given: Given<u32>) -> bool {
    matches!(given, Given::Kept)
}

// A connection on its way back.
fn back(id: u64) -> Lent<u32> {
    Lent {
        id,
        created: Moment(0),
        raw: 7,
    }
}

// A root of two and a child of two. The first ticket is the root's, the second the child's, the third the root's.
#[test]
fn one_permit_moves(rt: HostRuntime) -> Result<(), Fail> {
    let alloc = rt.alloc();
    let options = PoolOptions::new().max_connections(2);
    let mut family = Family::<u32>::root(alloc, options)?;
    let child = family.add_child(options)?;
    let first = family.ask(0, alloc, Moment(1), 1)?;
    let second = family.ask(child, alloc, Moment(2), 1)?;
    let third = family.ask(0, alloc, Moment(3), 1)?;
    let before = word(family.start(0, 1, third, Moment(4)));
    let served = word(family.start(child, 1, second, Moment(4)));
    let owned = [family.owned(0), family.owned(child)];
    let between = word(family.start(0, 1, third, Moment(4)));
    let own = word(family.start(0, 1, first, Moment(4)));
    let behind = word(family.start(0, 1, third, Moment(4)));
    let got = [before, served, owned[0], owned[1], between, own, behind];
    assert_eq!(rt; got, [WAITS, CONNECTS, 1, 1, WAITS, CONNECTS, WAITS]);
    Ok(())
}

// A root of three and a child of two: two tickets of the child are served, its third waits. What is given back stays the
// child's, until it is retired.
#[test]
fn a_retired_child_hands_over_its_permits(rt: HostRuntime) -> Result<(), Fail> {
    let alloc = rt.alloc();
    let options = PoolOptions::new().max_connections(2);
    let mut family = Family::<u32>::root(alloc, options.max_connections(3))?;
    let child = family.add_child(options)?;
    let first = family.ask(child, alloc, Moment(1), 1)?;
    let second = family.ask(child, alloc, Moment(1), 2)?;
    let third = family.ask(child, alloc, Moment(1), 3)?;
    word(family.start(child, 1, first, Moment(2)));
    word(family.start(child, 2, second, Moment(2)));
    let waits = word(family.start(child, 3, third, Moment(2)));
    let one = lent(family.finish_connect(child, 1, first, Moment(3), Tried::Opened(7)));
    let two = lent(family.finish_connect(child, 2, second, Moment(3), Tried::Opened(7)));
    let kept = is_kept(family.give(child, 1, back(one), Moment(4), true));
    let held = [family.owned(0), family.owned(child)];
    let idle = family.retire(child).len();
    let between = [family.owned(0), family.owned(child)];
    let ended = family.end(child, 2, two);
    let after = [family.owned(0), family.owned(child)];
    assert_eq!(rt;
        [one, two, idle as u64, u64::from(kept), u64::from(ended)],
        [1, 2, 1, 1, 1]
    );
    assert_eq!(rt; waits, WAITS);
    assert_eq!(rt; [held, between, after], [[1, 2], [2, 1], [3, 0]]);
    Ok(())
}

// A root of three and two children of one each. A child that has used up its budget waits while a permit is free; the
// other child and the root are served meanwhile.
#[test]
fn each_child_has_its_own_budget(rt: HostRuntime) -> Result<(), Fail> {
    let alloc = rt.alloc();
    let options = PoolOptions::new().max_connections(1);
    let mut family = Family::<u32>::root(alloc, options.max_connections(3))?;
    let one = family.add_child(options)?;
    let two = family.add_child(options)?;
    let first = family.ask(one, alloc, Moment(1), 1)?;
    let second = family.ask(one, alloc, Moment(1), 2)?;
    let third = family.ask(two, alloc, Moment(1), 3)?;
    let fourth = family.ask(0, alloc, Moment(1), 4)?;
    let of_one = word(family.start(one, 1, first, Moment(2)));
    let behind = word(family.start(one, 2, second, Moment(2)));
    let of_two = word(family.start(two, 3, third, Moment(2)));
    let of_root = word(family.start(0, 4, fourth, Moment(2)));
    let owned = [family.owned(0), family.owned(one), family.owned(two)];
    assert_eq!(rt;
        [of_one, behind, of_two, of_root],
        [CONNECTS, WAITS, CONNECTS, CONNECTS]
    );
    assert_eq!(rt; owned, [1, 1, 1]);
    Ok(())
}

// A root of one and two children. The ticket of a child that is retired stands in the root's line until it is polled or
// cancelled, and whoever asked behind it waits.
#[test]
fn a_ticket_of_a_retired_child_stays_in_the_line(rt: HostRuntime) -> Result<(), Fail> {
    let alloc = rt.alloc();
    let options = PoolOptions::new().max_connections(1);
    let mut family = Family::<u32>::root(alloc, options)?;
    let child = family.add_child(options)?;
    let other = family.add_child(options)?;
    let first = family.ask(0, alloc, Moment(1), 1)?;
    word(family.start(0, 1, first, Moment(1)));
    let one = lent(family.finish_connect(0, 1, first, Moment(1), Tried::Opened(7)));
    let dead = family.ask(child, alloc, Moment(2), 2)?;
    drop(family.retire(child));
    let third = family.ask(other, alloc, Moment(3), 3)?;
    let kept = is_kept(family.give(0, 1, back(one), Moment(4), true));
    let blocked = word(family.start(other, 3, third, Moment(5)));
    let left = family.cancel(child, 2, dead);
    let served = word(family.start(other, 3, third, Moment(5)));
    assert_eq!(rt; [kept, left], [true, true]);
    assert_eq!(rt; [blocked, served], [WAITS, CONNECTS]);
    Ok(())
}
