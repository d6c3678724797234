//! The hooks of a pool, by a type that answers for all of them.

ghost use Rattle.std.specs.Prelude.{◌≡◌, ◌≤◌, ⊤, ℕ, is_err};
ghost use Rattle.sqlx_pool_core.specs.Calls as call;
ghost use Rattle.sqlx_pool_core.specs.Calls.{IsCounted};
ghost use Rattle.sqlx_pool_core.specs.Outside.{declines};

use sqlx_pool_core::PoolConnectionMetadata;
use sqlx_text::{Depth, Error};
use sqlx_traits::Database;

/// The hooks of a pool: each runs only where its switch in the pool's options is set. In sqlx: three closures.
pub trait Hooks<DB: Database> {
    /// How often a hook refused, failed, or left a level open; it never falls.
    ghost refusals: { Self → ℕ };

    /// What a hook's call, with what it was handed and what it answered, makes of the hooks; nothing is said where it is
    /// left out.
    ghost asks: { call.Call DB.Connection DB.Options → Self → Self → Type 0 } = { λ _ _ _. ⊤ };

    /// Sets a new connection up. An error closes it.
    fn after_connect(
        &mut self,
        conn: &mut DB::Connection,
        meta: PoolConnectionMetadata,
    ) -> Result<(), Error>
        ensures rises { refusals self.old ≤ refusals self.new }
        ensures counted { IsCounted (is_err result) (DB.Connection.levels conn.old) (DB.Connection.levels conn.new) (refusals self.old) (refusals self.new) }
        ensures asked { asks (call.after_connect conn.old meta result conn.new) self.old self.new };

    /// Looks at an idle connection before it is lent; false closes it, and so does an error.
    fn before_acquire(
        &mut self,
        conn: &mut DB::Connection,
        meta: PoolConnectionMetadata,
    ) -> Result<bool, Error>
        ensures rises { refusals self.old ≤ refusals self.new }
        ensures counted { IsCounted (declines result) (DB.Connection.levels conn.old) (DB.Connection.levels conn.new) (refusals self.old) (refusals self.new) }
        ensures asked { asks (call.before_acquire conn.old meta result conn.new) self.old self.new };

    /// Looks at a connection that comes back; false closes it, and so does an error.
    fn after_release(
        &mut self,
        conn: &mut DB::Connection,
        meta: PoolConnectionMetadata,
    ) -> Result<bool, Error>
        ensures rises { refusals self.old ≤ refusals self.new }
        ensures counted { IsCounted (declines result) (DB.Connection.levels conn.old) (DB.Connection.levels conn.new) (refusals self.old) (refusals self.new) }
        ensures asked { asks (call.after_release conn.old meta result conn.new) self.old self.new };
}

/// Hooks that let every connection pass.
#[derive(Clone, Copy)]
pub struct NoHooks;

impl<DB: Database> Hooks<DB> for NoHooks {
    ghost refusals = { λ _. 0 };

    fn after_connect(
        &mut self,
        _conn: &mut DB::Connection,
        _meta: PoolConnectionMetadata,
    ) -> Result<(), Error> {
        Ok(())
    }

    fn before_acquire(
        &mut self,
        _conn: &mut DB::Connection,
        _meta: PoolConnectionMetadata,
    ) -> Result<bool, Error> {
        Ok(true)
    }

    fn after_release(
        &mut self,
        _conn: &mut DB::Connection,
        _meta: PoolConnectionMetadata,
    ) -> Result<bool, Error> {
        Ok(true)
    }
}
