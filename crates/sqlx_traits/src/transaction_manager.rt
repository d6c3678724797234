//! The levels of a connection's transactions: how a driver opens and ends them.
ghost use Rattle.std.specs.Prelude.{◌≡◌, ◌+◌, ◌-◌, ◌<◌, ◌≤◌, ⊤, Err, IfErr, IsSome, Ok, OnErr, OnOk};
ghost use Rattle.sqlx_traits.specs.Calls as call;
ghost use Rattle.sqlx_traits.specs.Faults.{BeginCause, FaultCause};

use crate::{Connection, Database, Faults};
use sqlx_text::{Depth, Error, SqlStr};
use std::alloc::Global;

/// How a driver opens and ends levels. Which texts it runs is told by the driver's own contracts.
pub trait TransactionManager<DB: Database> {
    /// What a call with this answer makes of the connection; nothing is said where it is left out.
    ghost does: { call.Call → DB.Connection → call.Outcome → DB.Connection → Type 0 } = { λ _ _ _ _. ⊤ };

    /// Opens a level: by the statement where one is given, which is `InvalidSavePointStatement` inside of a
    /// transaction and `BeginFailed` where it ran and left no level, and else by the driver's own. A refused one leaves the depth.
    fn begin(
        alloc: Global,
        conn: &mut DB::Connection,
        statement: Option<SqlStr>,
    ) -> Result<(), Error>
        ensures ok { OnOk result (DB.Connection.levels conn.new ≡ DB.Connection.levels conn.old + 1) }
        ensures err { OnErr result (DB.Connection.levels conn.new ≡ DB.Connection.levels conn.old) }
        ensures custom_inside { IsSome statement → 0 < DB.Connection.levels conn.old → (result ≡ Err Error.InvalidSavePointStatement) × (conn.new ≡ conn.old) }
        ensures only_inside { result ≡ Err Error.InvalidSavePointStatement → IsSome statement × (0 < DB.Connection.levels conn.old) }
        ensures rises { DB.Connection.faults conn.old ≤ DB.Connection.faults conn.new }
        ensures only_custom { result ≡ Err Error.BeginFailed → IsSome statement × (DB.Connection.levels conn.new ≡ 0) }
        ensures cause { IfErr result (BeginCause (DB.Connection.faults conn.old) (DB.Connection.faults conn.new)) }
        ensures does { does (call.begin statement) conn.old result conn.new };

    /// Ends the newest level and keeps what it wrote. A refused one ends it as rolled back.
    fn commit(alloc: Global, conn: &mut DB::Connection) -> Result<(), Error>
        requires { 0 < DB.Connection.levels conn.old }
        ensures levels { DB.Connection.levels conn.new ≡ DB.Connection.levels conn.old - 1 }
        ensures rises { DB.Connection.faults conn.old ≤ DB.Connection.faults conn.new }
        ensures cause { IfErr result (FaultCause (DB.Connection.faults conn.old) (DB.Connection.faults conn.new)) }
        ensures does { does call.commit conn.old result conn.new };

    /// Ends the newest level and undoes what it wrote, also where it is refused.
    fn rollback(alloc: Global, conn: &mut DB::Connection) -> Result<(), Error>
        requires { 0 < DB.Connection.levels conn.old }
        ensures levels { DB.Connection.levels conn.new ≡ DB.Connection.levels conn.old - 1 }
        ensures rises { DB.Connection.faults conn.old ≤ DB.Connection.faults conn.new }
        ensures cause { IfErr result (FaultCause (DB.Connection.faults conn.old) (DB.Connection.faults conn.new)) }
        ensures does { does call.rollback conn.old result conn.new };

    /// Begins to roll back the newest level, which can't be refused: the level is ended.
    fn start_rollback(conn: &mut DB::Connection)
        requires { 0 < DB.Connection.levels conn.old }
        ensures levels { DB.Connection.levels conn.new ≡ DB.Connection.levels conn.old - 1 }
        ensures rises { DB.Connection.faults conn.old ≤ DB.Connection.faults conn.new }
        ensures does { does call.start_rollback conn.old (Ok tt) conn.new };

    /// How many levels are open.
    fn get_transaction_depth(conn: &DB::Connection) -> usize
        ensures { result ≡ DB.Connection.levels conn.now };
}
