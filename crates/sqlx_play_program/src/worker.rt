//! What a crowd's worker has of the outside: connections to one store in memory, written for their type alone.

ghost use Rattle.std.specs.Prelude.{◌≡◌};
ghost use Rattle.sqlx_pool_core.specs.Calls as call;

use mem_driver::{SharedMemConnection, SharedMemConnector};
use sqlx_any::{AnyConnectOptions, AnyConnection};
use sqlx_pool_core::{Outside, PoolConnectionMetadata};
use sqlx_text::Error;
use sqlx_traits::Connector;
use std::alloc::Global;
use std::sync::Wait;

/// The outside of one worker. Its connections are asked no text that opens a level.
#[derive(Drop)]
pub struct Worker<R> {
    connector: SharedMemConnector<R>,
}

impl<R> Worker<R> {
    /// A worker whose connections the connector opens.
    pub fn new(connector: SharedMemConnector<R>) -> Self {
        Worker { connector }
    }
}

impl<R: Wait + Copy + Drop> Outside<AnyConnection<SharedMemConnection<R>>, AnyConnectOptions>
    for Worker<R> {
    ghost faults = { λ _. 0 };

    ghost refusals = { λ _. 0 };

    ghost depth = { λ _ _. 0 };

    ghost does = { call.Facts (λ _. 0) (λ _. 0) (λ _ _. 0) (λ _. Unit {0}) };

    // A store in memory refuses a connection for want of memory alone.
    fn connect(
        &mut self,
        alloc: Global,
        options: &AnyConnectOptions,
    ) -> Result<AnyConnection<SharedMemConnection<R>>, Error> {
        match self.connector.connect(alloc, options) {
            Ok(conn) => Ok(conn),
            Err(error) => {
                drop(error);
                Err(Error::OutOfMemory)
            }
        }
    }

    fn ping(&mut self, _conn: &mut AnyConnection<SharedMemConnection<R>>) -> Result<(), Error> {
        Ok(())
    }

    fn after_connect(
        &mut self,
        _conn: &mut AnyConnection<SharedMemConnection<R>>,
        _meta: PoolConnectionMetadata,
    ) -> Result<(), Error> {
        Ok(())
    }

    fn before_acquire(
        &mut self,
        _conn: &mut AnyConnection<SharedMemConnection<R>>,
        _meta: PoolConnectionMetadata,
    ) -> Result<bool, Error> {
        Ok(true)
    }

    fn after_release(
        &mut self,
        _conn: &mut AnyConnection<SharedMemConnection<R>>,
        _meta: PoolConnectionMetadata,
    ) -> Result<bool, Error> {
        Ok(true)
    }

    fn depth(&self, _conn: &AnyConnection<SharedMemConnection<R>>) -> usize {
        0
    }

    fn close(&mut self, conn: AnyConnection<SharedMemConnection<R>>) {
        drop(conn);
    }

    fn close_hard(&mut self, conn: AnyConnection<SharedMemConnection<R>>) {
        drop(conn);
    }

    ghost facts = { λ _ _ _ h. h };
}
