//! What opens the connections of a pool.
ghost use Rattle.std.specs.Prelude.{◌≡◌, ◌≤◌, IfErr, IfOk};
ghost use Rattle.sqlx_traits.specs.Faults.{ConnectCause};

use crate::{Database, Faults};
use sqlx_text::{Depth, Error};
use std::alloc::Global;

/// What opens connections of the database by its options, and counts what it refuses.
pub trait Connector<DB: Database>: Faults {
    /// Opens a connection, which has no level open.
    fn connect(&mut self, alloc: Global, options: &DB::Options) -> Result<DB::Connection, Error>
        ensures depth { IfOk result (λ conn. DB.Connection.levels conn ≡ 0) }
        ensures rises { Self.faults self.old ≤ Self.faults self.new }
        ensures cause { IfErr result (ConnectCause (Self.faults self.old) (Self.faults self.new)) };
}
