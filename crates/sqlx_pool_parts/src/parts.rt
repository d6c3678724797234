//! The outside of a database's pool, of a connector and hooks.

ghost use Rattle.std.specs.Prelude.{◌≡◌, ◌+◌, ◌≤◌, ℕ};
ghost use Rattle.sqlx_pool_core.specs.Calls as call;

use crate::Hooks;
use sqlx_pool_core::{Outside, PoolConnectionMetadata};
use sqlx_text::{Depth, Error};
use sqlx_traits::{Connection, Connector, Database};
use std::alloc::Global;
use std::marker::PhantomData;

/// The outside of a database's pool: a connector opens its connections, hooks look at them, and they answer pings and
/// close by themselves, hard or gently, as the pool tells.
#[derive(Drop)]
pub struct Parts<'a, DB: Database, K: Connector<DB>, H: Hooks<DB>> {
    connector: &'a mut K,
    hooks: &'a mut H,
    // How many pings were refused.
    unanswered: u64,
    of: PhantomData<DB>,
}

impl<'a, DB: Database, K: Connector<DB>, H: Hooks<DB>> Parts<'a, DB, K, H> {
    /// The outside of this connector and these hooks.
    pub fn new(connector: &'a mut K, hooks: &'a mut H) -> Self
        ensures connector { result.connector.ghost_name ≡ connector.entry.ghost_name }
        ensures hooks { result.hooks.ghost_name ≡ hooks.entry.ghost_name }
        ensures same { (result.connector.now ≡ connector.old) × (result.hooks.now ≡ hooks.old) }
        ensures unanswered { result.unanswered ≡ 0 }
    {
        Parts {
            connector,
            hooks,
            unanswered: 0,
            of: PhantomData,
        }
    }
}

impl<'a, DB: Database, K: Connector<DB>, H: Hooks<DB>> Outside<DB::Connection, DB::Options>
    for Parts<'a, DB, K, H> {
    ghost faults = { λ parts. K.faults parts.connector.now + parts.unanswered };

    ghost refusals = { λ parts. H.refusals parts.hooks.now };

    ghost depth = { λ _ conn. DB.Connection.levels conn };

    ghost use Rattle.sqlx_pool_parts.specs.Parts.{Reaches};

    ghost does = { λ c old new. call.Facts (λ parts. K.faults parts.connector.now + parts.unanswered) (λ parts. H.refusals parts.hooks.now) (λ _ conn. DB.Connection.levels conn) (λ _. Unit {0}) c old new
        × Reaches H.asks DB.Connection.does DB.Connection.ends c old.hooks.now new.hooks.now };

    fn connect(&mut self, alloc: Global, options: &DB::Options) -> Result<DB::Connection, Error> {
        self.connector.connect(alloc, options)
    }

    fn ping(&mut self, conn: &mut DB::Connection) -> Result<(), Error> {
        let answer = conn.ping();
        if answer.is_err() {
            self.unanswered = self.unanswered.saturating_add(1);
        }
        answer
    }

    fn after_connect(
        &mut self,
        conn: &mut DB::Connection,
        meta: PoolConnectionMetadata,
    ) -> Result<(), Error> {
        self.hooks.after_connect(conn, meta)
    }

    fn before_acquire(
        &mut self,
        conn: &mut DB::Connection,
        meta: PoolConnectionMetadata,
    ) -> Result<bool, Error> {
        self.hooks.before_acquire(conn, meta)
    }

    fn after_release(
        &mut self,
        conn: &mut DB::Connection,
        meta: PoolConnectionMetadata,
    ) -> Result<bool, Error> {
        self.hooks.after_release(conn, meta)
    }

    fn depth(&self, conn: &DB::Connection) -> usize {
        conn.depth()
    }

    fn close(&mut self, conn: DB::Connection) {
        drop(conn.close());
    }

    fn close_hard(&mut self, conn: DB::Connection) {
        drop(conn.close_hard());
    }

    ghost facts = { λ _ _ _ does. does.0 };
}
