//! Three tickets and one permit: the edge moves once for each time that the permit is free.
ghost use Rattle.std.specs.Prelude.{◌≡◌, ◌<◌};

use sqlx_pool_core::{
    AfterConnect, AfterTest, Given, Idle, Lent, PoolCore, PoolOptions, Start, Steps, Tried, Verdict,
};
use sqlx_text::{Error, Moment};
use std::alloc::Global;
use std::marker::Brand;
use std::sync::ledger::{Blank, Ledger};
use std::test::Fail;

type Moves = (u64, u64, Option<[u64; 2]>);

fn is_connect(start: Start<u32>) -> bool {
    matches!(start, Start::Connect)
}

fn tested(start: Start<u32>) -> Option<Idle<u32>> {
    match start {
        Start::Test(idle) => Some(idle),
        _ => None,
    }
}

fn lent(after: AfterConnect<u32>) -> Option<Lent<u32>> {
    match after {
        AfterConnect::Ready(lent) => Some(lent),
        _ => None,
    }
}

fn is_lent(after: AfterTest<u32>) -> bool {
    matches!(after, AfterTest::Ready(_))
}

fn is_kept(given: Given<u32>) -> bool {
    matches!(given, Given::Kept)
}

// Serves a ticket with a new connection, and tells the moves of the edge.
fn serve<L: Ledger>(
    core: &mut PoolCore<u32>,
    client: u32,
    ticket: u64,
    steps: &mut Steps<L>,
) -> Option<Lent<u32>> {
    if !is_connect(core.start_counted(client, ticket, Moment(2), steps)) {
        return None;
    }
    lent(core.finish_connect_counted(client, ticket, Moment(2), Tried::Opened(7), steps))
}

// Three asks.
fn ask_three<L: Ledger>(
    core: &mut PoolCore<u32>,
    alloc: Global,
    steps: &mut Steps<L>,
) -> Result<(), Error> {
    for client in 4..7 {
        core.ask_counted(alloc, Moment(1), client, steps)?;
    }
    Ok(())
}

// Gives a connection back, and starts the last ticket: the moves of the edge behind each.
fn give_and_start<L: Ledger>(
    core: &mut PoolCore<u32>,
    lent: Lent<u32>,
    steps: &mut Steps<L>,
) -> Option<[u64; 2]> {
    let kept = is_kept(core.give_counted(4, lent, Moment(3), true, steps));
    let given = core.edge_moves();
    let idle = tested(core.start_counted(6, 3, Moment(4), steps));
    (kept && idle.is_some()).then_some([given, core.edge_moves()])
}

// The moves of the edge: behind three asks, behind a service and a cancel, behind a return, and behind
// the start of the last.
fn moves_of<L: Ledger>(
    core: &mut PoolCore<u32>,
    alloc: Global,
    steps: &mut Steps<L>,
) -> Result<Moves, Error> {
    ask_three(core, alloc, steps)?;
    let asked = core.edge_moves();
    let lent = serve(core, 4, 1, steps);
    core.cancel_counted(5, 2, steps);
    let served = core.edge_moves();
    match lent {
        Some(lent) => Ok((asked, served, give_and_start(core, lent, steps))),
        None => Ok((asked, served, None)),
    }
}

// The same of a new pool of one.
fn play<L: Ledger>(alloc: Global, blank: Blank) -> Result<Moves, Error>
    requires named { blank.name ≡ L.name }
    requires whole { blank.parts ≡ L.parts }
    requires some { 0 < blank.parts }
{
    let mut steps = Steps::<L>::new(blank);
    let mut core = PoolCore::<u32>::new(alloc, PoolOptions::new().max_connections(1))?;
    let told = moves_of(&mut core, alloc, &mut steps);
    drop(core);
    told
}

#[test]
fn the_edge_moves_once_a_permit(rt: HostRuntime) -> Result<(), Fail> {
    let alloc = rt.alloc();
    let moves = play::<Brand>(alloc, Blank::new(1))?;
    assert_eq!(rt; moves, (1, 1, Some([2, 2])));
    Ok(())
}

// Ends one connection, takes another out, and gives up a place: each frees the permit for the next ticket.
fn frees<L: Ledger>(
    core: &mut PoolCore<u32>,
    alloc: Global,
    steps: &mut Steps<L>,
) -> Result<u64, Error> {
    if core.first_place() {
        core.minimum_done_counted(Moment(1), Some(7), steps);
    }
    ask_three(core, alloc, steps)?;
    if let Some(idle) = tested(core.start_counted(4, 1, Moment(2), steps)) {
        let accepted = Verdict::Accepted(idle.lent);
        if is_lent(core.finish_test_counted(4, 1, accepted, steps)) {
            core.end_counted(4, 1, steps);
        }
    }
    if serve(core, 5, 2, steps).is_some() {
        core.detach_counted(5, 2, steps);
    }
    Ok(core.edge_moves())
}

// The moves of the edge of a pool of one that does so.
fn freed<L: Ledger>(alloc: Global, blank: Blank) -> Result<u64, Error>
    requires named { blank.name ≡ L.name }
    requires whole { blank.parts ≡ L.parts }
    requires some { 0 < blank.parts }
{
    let mut steps = Steps::<L>::new(blank);
    let mut core = PoolCore::<u32>::new(alloc, PoolOptions::new().max_connections(1))?;
    let told = frees(&mut core, alloc, &mut steps);
    drop(core);
    told
}

#[test]
fn each_end_frees_the_permit(rt: HostRuntime) -> Result<(), Fail> {
    let moves = freed::<Brand>(rt.alloc(), Blank::new(1))?;
    assert_eq!(rt; moves, 3);
    Ok(())
}
