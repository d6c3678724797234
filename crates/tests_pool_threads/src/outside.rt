//! A connection and an outside for tests, which refuses nothing and counts what it opens and closes.

ghost use Rattle.sqlx_pool_core.specs.Calls as call;

use sqlx_pool::*;
use sqlx_pool_core::Outside;
use sqlx_text::{Depth, Error};
use std::alloc::Global;

/// A connection with so many levels open.
#[derive(Drop)]
pub struct Conn {
    pub depth: usize,
}

impl Depth for Conn {
    ghost levels = { λ conn. conn.depth };

    fn depth(&self) -> usize {
        self.depth
    }
}

/// An outside that refuses nothing.
#[derive(Drop)]
pub struct Counts {
    pub opened: u64,
    pub closed: u64,
    pub closed_hard: u64,
}

pub fn new_counts() -> Counts {
    Counts {
        opened: 0,
        closed: 0,
        closed_hard: 0,
    }
}

impl Outside<Conn, ()> for Counts {
    ghost faults = { λ _. 0 };

    ghost refusals = { λ _. 0 };

    ghost depth = { λ _ _. 0 };

    ghost does = { call.Facts (λ _. 0) (λ _. 0) (λ _ _. 0) (λ _. Unit {0}) };

    fn connect(&mut self, _alloc: Global, _options: &()) -> Result<Conn, Error> {
        self.opened = self.opened.saturating_add(1);
        Ok(Conn { depth: 0 })
    }

    fn ping(&mut self, _conn: &mut Conn) -> Result<(), Error> {
        Ok(())
    }

    fn after_connect(
        &mut self,
        _conn: &mut Conn,
        _meta: PoolConnectionMetadata,
    ) -> Result<(), Error> {
        Ok(())
    }

    fn before_acquire(
        &mut self,
        _conn: &mut Conn,
        _meta: PoolConnectionMetadata,
    ) -> Result<bool, Error> {
        Ok(true)
    }

    fn after_release(
        &mut self,
        _conn: &mut Conn,
        _meta: PoolConnectionMetadata,
    ) -> Result<bool, Error> {
        Ok(true)
    }

    fn depth(&self, _conn: &Conn) -> usize {
        0
    }

    fn close(&mut self, _conn: Conn) {
        self.closed = self.closed.saturating_add(1);
    }

    fn close_hard(&mut self, _conn: Conn) {
        self.closed_hard = self.closed_hard.saturating_add(1);
    }

    ghost facts = { λ _ _ _ h. h };
}
