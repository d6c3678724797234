//! A client at its connection.
ghost use Rattle.std.specs.Prelude.{◌≡◌};
ghost use Rattle.sqlx_play_acts.specs.ClientActs.{Gives};

use crate::statements::{delete, get, put};
use mem_driver::MemSession;
use sqlx_any::AnyConnection;
use sqlx_play_acts::Act;
use sqlx_play_levels::{begin, commit, custom, give_up, rollback};
use sqlx_script::Reply;
use sqlx_text::{Depth, OutOfMemory};
use std::alloc::Global;

/// Does what the client asks for: a key by a query with bound values, a level by a transaction, which is taken up
/// where it is to be ended, and left open where it was begun. What ends a level and finds none is answered by `NotHeld`.
pub fn run_act(
    alloc: Global,
    conn: &mut AnyConnection<MemSession>,
    act: Act,
) -> Result<Reply, OutOfMemory>
    ensures { Gives act conn.old.backend.work result conn.new.backend.work }
{
    if act.needs_level() && conn.depth() == 0 {
        return Ok(Reply::NotHeld);
    }
    match act {
        Act::Begin => begin(alloc, conn),
        Act::Custom(starts) => custom(alloc, conn, starts),
        Act::Put(key, value) => put(alloc, conn, key, value),
        Act::Delete(key) => delete(alloc, conn, key),
        Act::Get(key) => get(alloc, conn, key),
        Act::Commit => commit(alloc, conn),
        Act::Rollback => rollback(alloc, conn),
        Act::GiveUp => Ok(give_up(alloc, conn)),
    }
}
