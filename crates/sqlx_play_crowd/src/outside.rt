//! The outside of a database's pool that owns its connector, so that it goes into a thread.

ghost use Rattle.std.specs.Prelude.{◌≡◌, ◌+◌, ◌≤◌, ℕ};
ghost use Rattle.sqlx_pool_core.specs.Calls as call;

use sqlx_pool_core::{Outside, PoolConnectionMetadata};
use sqlx_text::{Depth, Error};
use sqlx_traits::{Connection, Connector, Database};
use std::alloc::Global;
use std::marker::PhantomData;

/// The outside of a connector that it owns, without hooks. Connections answer pings and close by themselves.
#[derive(Drop)]
pub struct Unhooked<DB: Database, K: Connector<DB>> {
    connector: K,
    // How many pings were refused.
    unanswered: u64,
    of: PhantomData<DB>,
}

impl<DB: Database, K: Connector<DB>> Unhooked<DB, K> {
    /// The outside of this connector.
    pub fn new(connector: K) -> Self
        ensures connector { result.connector ≡ connector }
        ensures unanswered { result.unanswered ≡ 0 }
    {
        Unhooked {
            connector,
            unanswered: 0,
            of: PhantomData,
        }
    }
}

impl<DB: Database, K: Connector<DB>> Outside<DB::Connection, DB::Options> for Unhooked<DB, K> {
    ghost faults = { λ out. K.faults out.connector + out.unanswered };

    ghost refusals = { λ _. 0 };

    ghost depth = { λ _ conn. DB.Connection.levels conn };

    ghost does = { call.Facts (λ out. K.faults out.connector + out.unanswered) (λ _. 0) (λ _ conn. DB.Connection.levels conn) (λ _. Unit {0}) };

    fn connect(&mut self, alloc: Global, options: &DB::Options) -> Result<DB::Connection, Error> {
        self.connector.connect(alloc, options)
    }

    fn ping(&mut self, conn: &mut DB::Connection) -> Result<(), Error> {
        let answer = conn.ping();
        if answer.is_err() {
            self.unanswered = self.unanswered.saturating_add(1);
        }
        answer
    }

    fn after_connect(
        &mut self,
        _conn: &mut DB::Connection,
        _meta: PoolConnectionMetadata,
    ) -> Result<(), Error> {
        Ok(())
    }

    fn before_acquire(
        &mut self,
        _conn: &mut DB::Connection,
        _meta: PoolConnectionMetadata,
    ) -> Result<bool, Error> {
        Ok(true)
    }

    fn after_release(
        &mut self,
        _conn: &mut DB::Connection,
        _meta: PoolConnectionMetadata,
    ) -> Result<bool, Error> {
        Ok(true)
    }

    fn depth(&self, conn: &DB::Connection) -> usize {
        conn.depth()
    }

    fn close(&mut self, conn: DB::Connection) {
        drop(conn.close());
    }

    fn close_hard(&mut self, conn: DB::Connection) {
        drop(conn.close_hard());
    }

    ghost facts = { λ _ _ _ h. h };
}
