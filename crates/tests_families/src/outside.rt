//! A connection for tests, an outside that opens one whenever it is asked, and one whose threads count what is open.

ghost use Rattle.sqlx_pool_core.specs.Calls as call;

use sqlx_pool_core::{Outside, PoolConnectionMetadata};
use sqlx_text::{Depth, Error, IoFault};
use std::alloc::Global;
use std::sync::atomic::{AtomicU32, Ordering};

/// A connection with so many levels open.
#[derive(Drop)]
pub struct Conn {
    pub depth: usize,
}

impl Depth for Conn {
    ghost levels = { λ conn. conn.depth };

    fn depth(&self) -> usize {
        self.depth
    }
}

/// An outside that refuses nothing.
#[derive(Drop)]
pub struct Plain {
    pub closed: u64,
}

impl Outside<Conn, ()> for Plain {
    ghost faults = { λ _. 0 };

    ghost refusals = { λ _. 0 };

    ghost depth = { λ _ _. 0 };

    ghost does = { call.Facts (λ _. 0) (λ _. 0) (λ _ _. 0) (λ _. Unit {0}) };

    fn connect(&mut self, _alloc: Global, _options: &()) -> Result<Conn, Error> {
        Ok(Conn { depth: 0 })
    }

    fn ping(&mut self, _conn: &mut Conn) -> Result<(), Error> {
        Ok(())
    }

    fn after_connect(
        &mut self,
        _conn: &mut Conn,
        _meta: PoolConnectionMetadata,
    ) -> Result<(), Error> {
        Ok(())
    }

    fn before_acquire(
        &mut self,
        _conn: &mut Conn,
        _meta: PoolConnectionMetadata,
    ) -> Result<bool, Error> {
        Ok(true)
    }

    fn after_release(
        &mut self,
        _conn: &mut Conn,
        _meta: PoolConnectionMetadata,
    ) -> Result<bool, Error> {
        Ok(true)
    }

    fn depth(&self, _conn: &Conn) -> usize {
        0
    }

    fn close(&mut self, _conn: Conn) {
        self.closed = self.closed.saturating_add(1);
    }

    fn close_hard(&mut self, _conn: Conn) {
        self.closed = self.closed.saturating_add(1);
    }

    ghost facts = { λ _ _ _ h. h };
}

/// How many connections of threads are open at once.
#[derive(Drop)]
pub struct Counts {
    count: AtomicU32,
    most: AtomicU32,
}

impl Counts {
    /// None was open yet.
    pub fn new() -> Self {
        Counts {
            count: AtomicU32::new(0),
            most: AtomicU32::new(0),
        }
    }

    // One more is open.
    fn opens(&self) {
        let before = self.count.fetch_add(1, Ordering::SeqCst);
        self.most
            .fetch_max(before.saturating_add(1), Ordering::SeqCst);
    }

    // One fewer is open.
    fn closes(&self) {
        self.count.fetch_sub(1, Ordering::SeqCst);
    }

    /// How many are open now: each from before its connect until its close is done.
    pub fn count(&self) -> u32 {
        self.count.load(Ordering::SeqCst)
    }

    /// The most that were open at once.
    pub fn most(&self) -> u32 {
        self.most.load(Ordering::SeqCst)
    }
}

/// An outside of one thread, which counts what is open beside others, and refuses each third question about a connection.
#[derive(Drop)]
pub struct Counting<'a> {
    counts: &'a Counts,
    asked: u64,
    faults: u64,
    refusals: u64,
}

impl<'a> Counting<'a> {
    /// An outside that was asked nothing yet.
    pub fn new(counts: &'a Counts) -> Self {
        Counting {
            counts,
            asked: 0,
            faults: 0,
            refusals: 0,
        }
    }
}

// Whether this question is refused.
fn refuses(asked: &mut u64) -> bool {
    *asked = asked.wrapping_add(1);
    *asked % 3 == 0
}

impl<'a> Outside<Conn, ()> for Counting<'a> {
    ghost faults = { λ out. out.faults };

    ghost refusals = { λ out. out.refusals };

    ghost depth = { λ _ _. 0 };

    ghost does = { call.Facts (λ out. out.faults) (λ out. out.refusals) (λ _ _. 0) (λ _. Unit {0}) };

    fn connect(&mut self, _alloc: Global, _options: &()) -> Result<Conn, Error> {
        self.counts.opens();
        Ok(Conn { depth: 0 })
    }

    fn ping(&mut self, _conn: &mut Conn) -> Result<(), Error> {
        if refuses(&mut self.asked) {
            self.faults = self.faults.saturating_add(1);
            return Err(Error::Io(IoFault::Other));
        }
        Ok(())
    }

    fn after_connect(
        &mut self,
        _conn: &mut Conn,
        _meta: PoolConnectionMetadata,
    ) -> Result<(), Error> {
        Ok(())
    }

    fn before_acquire(
        &mut self,
        _conn: &mut Conn,
        _meta: PoolConnectionMetadata,
    ) -> Result<bool, Error> {
        Ok(true)
    }

    fn after_release(
        &mut self,
        _conn: &mut Conn,
        _meta: PoolConnectionMetadata,
    ) -> Result<bool, Error> {
        if refuses(&mut self.asked) {
            self.refusals = self.refusals.saturating_add(1);
            return Ok(false);
        }
        Ok(true)
    }

    fn depth(&self, _conn: &Conn) -> usize {
        0
    }

    fn close(&mut self, _conn: Conn) {
        self.counts.closes();
    }

    fn close_hard(&mut self, _conn: Conn) {
        self.counts.closes();
    }

    ghost facts = { λ _ _ _ h. h };
}
