//! Moments: one that lies before the last counts as the last, and a deadline may lie beyond the greatest moment.

use sqlx_pool_core::{PoolCore, PoolOptions, Start};
use sqlx_text::{Error, Moment};

fn is_late(start: Start<u32>) -> bool {
    matches!(start, Start::TimedOut)
}

fn is_connect(start: Start<u32>) -> bool {
    matches!(start, Start::Connect)
}

// Two tickets whose time is up at 15: the first is looked at at 20, and the second then at 3.
#[test]
fn a_moment_before_the_last_counts_as_the_last(rt: HostRuntime) -> Result<(), Error> {
    let alloc = rt.alloc();
    let options = PoolOptions::new().max_connections(1).acquire_timeout(5);
    let mut core = PoolCore::<u32>::new(alloc, options)?;
    let one = core.ask(alloc, Moment(10), 1)?;
    let two = core.ask(alloc, Moment(10), 2)?;
    let first = is_late(core.start(1, one, Moment(20)));
    let second = is_late(core.start(2, two, Moment(3)));
    drop(core);
    assert!(rt; first);
    assert!(rt; second);
    Ok(())
}

#[test]
fn a_deadline_beyond_the_greatest_moment_never_comes(rt: HostRuntime) -> Result<(), Error> {
    let alloc = rt.alloc();
    let options = PoolOptions::new()
        .max_connections(1)
        .acquire_timeout(u64::MAX);
    let mut core = PoolCore::<u32>::new(alloc, options)?;
    let ticket = core.ask(alloc, Moment(u64::MAX), 1)?;
    let starts = is_connect(core.start(1, ticket, Moment(u64::MAX)));
    drop(core);
    assert!(rt; starts);
    Ok(())
}
