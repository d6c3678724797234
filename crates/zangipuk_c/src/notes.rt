//! The log of a pool, if it keeps one: the marks of each step, written behind it. Where memory is wanting for them, the
//! log is let go.

ghost use Rattle.std.specs.Prelude.{◌≡◌, ◌+◌, ◌<◌, ◌^◌, [], ◌∷◌, None, Some, if◌then◌else◌, length};
ghost use Rattle.sqlx_pool_marks.specs.declared.mark.Mark.{Mark};
ghost use Rattle.sqlx_pool_lists.specs.declared.ticket.Phase.{Phase};
ghost use Rattle.sqlx_pool_lists.specs.PollSteps.{start_marks, test_marks, connect_marks, try_marks, serve_marks};
ghost use Rattle.sqlx_pool_core.specs.ReturnSteps.{give_marks};
ghost use Rattle.sqlx_pool_lists.specs.MaintenanceSteps.{close_marks, reap_marks};
ghost use Rattle.zangipuk_c.specs.Logged.{Notes, HasRoom};

use crate::record;
use sqlx_pool_core::{AfterConnect, AfterTest, Given, Idle, Lent, Mark, Start};
use std::collections::VecDeque;

// Room for so many marks more, in a log that is kept.
fn make_room(log: &mut Option<Vec<Mark>>, more: usize)
    requires { more < 2 ^ 40 }
    ensures { HasRoom more log.old log.new }
{
    let full = match log {
        Some(marks) => marks.reserve(more).is_err(),
        None => false,
    };
    if full {
        *log = None;
    }
}

/// A mark, or none.
pub fn if_so(log: &mut Option<Vec<Mark>>, so: bool, mark: Mark)
    ensures { Notes log.old (if so then mark ∷ [] else []) log.new }
{
    make_room(log, 1);
    if let Some(marks) = log {
        record::if_so(marks, so, mark);
    }
}

/// The start of a poll, whose ticket waited in the line or not.
pub fn start(log: &mut Option<Vec<Mark>>, ticket: u64, waited: bool, start: &Start<u64>)
    ensures { Notes log.old (start_marks ticket (if waited then Some Phase.Waiting else None) start.now) log.new }
{
    make_room(log, 2);
    if let Some(marks) = log {
        record::start(marks, ticket, waited, start);
    }
}

/// A test.
pub fn test(
    log: &mut Option<Vec<Mark>>,
    client: u32,
    ticket: u64,
    conn: u64,
    after: &AfterTest<u64>,
)
    ensures { Notes log.old (test_marks client ticket conn after.now) log.new }
{
    make_room(log, 2);
    if let Some(marks) = log {
        record::test(marks, client, ticket, conn, after);
    }
}

/// A try of a connect at a moment.
pub fn connect(
    log: &mut Option<Vec<Mark>>,
    client: u32,
    ticket: u64,
    moment: u64,
    after: &AfterConnect<u64>,
)
    ensures { Notes log.old (connect_marks client ticket moment after.now) log.new }
{
    make_room(log, 3);
    if let Some(marks) = log {
        record::connect(marks, client, ticket, moment, after);
    }
}

/// A connection that came back at a moment.
pub fn give(log: &mut Option<Vec<Mark>>, conn: u64, moment: u64, given: &Given<u64>)
    ensures { Notes log.old (give_marks conn moment given.now) log.new }
{
    make_room(log, 1);
    if let Some(marks) = log {
        record::give(marks, conn, moment, given);
    }
}

/// An ask that was served at once, or none.
pub fn serve(
    log: &mut Option<Vec<Mark>>,
    client: u32,
    ticket: u64,
    deadline: u128,
    lent: &Option<Lent<u64>>,
)
    ensures { Notes log.old (serve_marks client ticket deadline lent.now) log.new }
{
    if let Some(lent) = lent {
        make_room(log, 5);
        if let Some(marks) = log {
            record::serve(marks, client, ticket, deadline, lent.id);
        }
    }
}

/// A loan past the line, or none.
pub fn lend_past(log: &mut Option<Vec<Mark>>, client: u32, lent: &Option<Lent<u64>>)
    ensures { Notes log.old (try_marks client lent.now) log.new }
{
    if let Some(lent) = lent {
        make_room(log, 2);
        if let Some(marks) = log {
            record::lend_past(marks, client, lent.id);
        }
    }
}

/// A reap.
pub fn reap(log: &mut Option<Vec<Mark>>, reaped: &Option<Idle<u64>>)
    ensures { Notes log.old (reap_marks reaped.now) log.new }
{
    make_room(log, 1);
    if let Some(marks) = log {
        record::reap(marks, reaped);
    }
}

/// A connection that was opened for the minimum at a moment, or none.
pub fn open_if(log: &mut Option<Vec<Mark>>, opens: bool, conn: u64, moment: u64)
    ensures { Notes log.old (if opens then Mark.Opened conn moment ∷ Mark.Kept conn moment ∷ [] else []) log.new }
{
    make_room(log, 2);
    if let Some(marks) = log {
        record::open_if(marks, opens, conn, moment);
    }
}

/// A close of a pool that was closed already, or not.
pub fn close(log: &mut Option<Vec<Mark>>, shut: bool, idle: &VecDeque<Idle<u64>>)
    requires { length idle.now.items + 1 < 2 ^ 40 }
    ensures { Notes log.old (close_marks shut idle.now.items) log.new }
{
    make_room(log, idle.len() + 1);
    if let Some(marks) = log {
        record::close(marks, shut, idle);
    }
}
