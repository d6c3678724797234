//! Each call once on its happy path, over an outside that accepts everything.

ghost use Rattle.sqlx_pool_core.specs.Calls as call;

use sqlx_pool_core::*;
use sqlx_text::{Error, Moment};
use std::alloc::Global;
use std::process::Abort;
use std::test::*;

// An outside that refuses nothing; a connection is the number 7.
#[derive(Drop)]
struct Yes;

impl Outside<u32, ()> for Yes {
    ghost faults = { λ _. 0 };

    ghost refusals = { λ _. 0 };

    ghost depth = { λ _ _. 0 };

    ghost does = { call.Facts (λ _. 0) (λ _. 0) (λ _ _. 0) (λ _. Unit {0}) };

    fn connect(&mut self, _alloc: Global, _options: &()) -> Result<u32, Error> {
        Ok(7)
    }

    fn ping(&mut self, _conn: &mut u32) -> Result<(), Error> {
        Ok(())
    }

    fn after_connect(
        &mut self,
        _conn: &mut u32,
        _meta: PoolConnectionMetadata,
    ) -> Result<(), Error> {
        Ok(())
    }

    fn before_acquire(
        &mut self,
        _conn: &mut u32,
        _meta: PoolConnectionMetadata,
    ) -> Result<bool, Error> {
        Ok(true)
    }

    fn after_release(
        &mut self,
        _conn: &mut u32,
        _meta: PoolConnectionMetadata,
    ) -> Result<bool, Error> {
        Ok(true)
    }

    fn depth(&self, _conn: &u32) -> usize {
        0
    }

    fn close(&mut self, _conn: u32) {}

    fn close_hard(&mut self, _conn: u32) {}

    ghost facts = { λ _ _ _ h. h };
}

// What a poll comes to, as one number: the connection's number, or 0.
fn lent_of(polled: Polled<u32>) -> u64 {
    match polled {
        Polled::Ready(lent) => lent.id,
        _ => 0,
    }
}

fn is_kept(given: Given<u32>) -> bool {
    matches!(given, Given::Kept)
}

fn is_back(returned: Returned<u32>) -> bool {
    matches!(returned, Returned::Kept)
}

// The number of the ticket, and what its poll comes to.
fn served(
    alloc: Global,
    core: &mut PoolCore<u32>,
    client: u32,
    asked: Moment,
    polled: Moment,
) -> Result<(u64, u64), Error> {
    let ticket = core.ask(alloc, asked, client)?;
    let lent = lent_of(core.poll_with(alloc, client, ticket, polled, &(), &mut Yes));
    Ok((ticket, lent))
}

fn borrowed(id: u64, created: Moment) -> Lent<u32> {
    Lent {
        id,
        created,
        raw: 7,
    }
}

// A connection that is opened, given back, and lent again behind a test.
fn lends_twice(alloc: Global, core: &mut PoolCore<u32>) -> Result<[u64; 5], Error> {
    let (first, opened) = served(alloc, core, 4, Moment(1), Moment(2))?;
    let kept = is_kept(core.give(4, borrowed(opened, Moment(2)), Moment(3), true));
    let (second, tested) = served(alloc, core, 5, Moment(4), Moment(5))?;
    Ok([first, opened, u64::from(kept), second, tested])
}

// The minimum that is kept, an idle connection that is lent past the line, a ticket that is cancelled, and a return.
fn keeps_and_cancels(alloc: Global, core: &mut PoolCore<u32>) -> Result<[u64; 6], Error> {
    let filled = core.keep_minimum(alloc, Moment(6), &(), &mut Yes);
    let past = core.try_acquire(Moment(7), 6).is_some();
    let third = core.ask(alloc, Moment(8), 6)?;
    let cancelled = core.cancel(6, third);
    let back = is_back(core.give_with(6, borrowed(2, Moment(7)), Moment(9), &mut Yes));
    Ok([
        u64::from(filled.opened),
        u64::from(filled.short),
        u64::from(past),
        third,
        u64::from(cancelled),
        u64::from(back),
    ])
}

#[test]
fn each_call_succeeds(rt: HostRuntime) -> Result<(), Fail> {
    let alloc = rt.alloc();
    let options = PoolOptions::new()
        .max_connections(3)
        .min_connections(2)
        .after_connect(true)
        .before_acquire(true);
    let mut core = PoolCore::<u32>::new(alloc, options)?;
    assert_eq!(rt; lends_twice(alloc, &mut core)?, [1, 1, 1, 2, 1]);
    assert_eq!(rt; keeps_and_cancels(alloc, &mut core)?, [1, 0, 1, 3, 1, 1]);
    assert_eq!(rt; (core.num_idle(), core.size()), (1, 2));
    Ok(())
}
