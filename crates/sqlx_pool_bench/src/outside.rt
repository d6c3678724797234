//! A connection without anything behind it, and the outside that opens it: what is measured is the pool alone.

ghost use Rattle.sqlx_pool_core.specs.Calls as call;

use sqlx_pool::PoolConnectionMetadata;
use sqlx_pool_core::Outside;
use sqlx_text::{Depth, Error};
use std::alloc::Global;

/// A connection that has no level.
#[derive(Drop)]
pub struct Conn;

impl Depth for Conn {
    ghost levels = { λ _. 0 };

    fn depth(&self) -> usize {
        0
    }
}

/// An outside that refuses nothing.
#[derive(Drop)]
pub struct Opens;

impl Outside<Conn, ()> for Opens {
    ghost faults = { λ _. 0 };

    ghost refusals = { λ _. 0 };

    ghost depth = { λ _ _. 0 };

    ghost does = { call.Facts (λ _. 0) (λ _. 0) (λ _ _. 0) (λ _. Unit {0}) };

    fn connect(&mut self, _alloc: Global, _options: &()) -> Result<Conn, Error> {
        Ok(Conn)
    }

    fn ping(&mut self, _conn: &mut Conn) -> Result<(), Error> {
        Ok(())
    }

    fn after_connect(
        &mut self,
        _conn: &mut Conn,
        _meta: PoolConnectionMetadata,
    ) -> Result<(), Error> {
        Ok(())
    }

    fn before_acquire(
        &mut self,
        _conn: &mut Conn,
        _meta: PoolConnectionMetadata,
    ) -> Result<bool, Error> {
        Ok(true)
    }

    fn after_release(
        &mut self,
        _conn: &mut Conn,
        _meta: PoolConnectionMetadata,
    ) -> Result<bool, Error> {
        Ok(true)
    }

    fn depth(&self, _conn: &Conn) -> usize {
        0
    }

    fn close(&mut self, _conn: Conn) {}

    fn close_hard(&mut self, _conn: Conn) {}

    ghost facts = { λ _ _ _ h. h };
}
