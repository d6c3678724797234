//! The marks of the pool's steps, written behind its log, where memory was reserved for them.
ghost use Rattle.std.specs.Prelude.{◌≡◌, ◌+◌, ◌*◌, ◌≤◌, List, [], ◌∷◌, ◌++◌, false, true, length, Option, Some, None, if◌then◌else◌};
ghost use Rattle.sqlx_pool_marks.specs.declared.mark.Mark.{Mark};
ghost use Rattle.sqlx_pool_lists.specs.declared.ticket.Phase.{Phase};
ghost use Rattle.sqlx_pool_lists.specs.Balance.{one_if};
ghost use Rattle.sqlx_pool_lists.specs.PollSteps.{start_marks, test_marks, connect_marks};
ghost use Rattle.sqlx_pool_core.specs.ReturnSteps.{give_marks};
ghost use Rattle.sqlx_pool_lists.specs.MaintenanceSteps.{close_marks, reap_marks};

use sqlx_pool_lists::{AfterConnect, AfterTest, Given, Idle, Start};
use sqlx_pool_log::PackedLog;
use sqlx_pool_marks::Mark;
use std::collections::VecDeque;

// The marks of the start of a poll, whose ticket waited in the line or not.
pub fn start<C>(log: &mut PackedLog, ticket: u64, waited: bool, start: &Start<C>)
    requires { length log.old.items + length (start_marks ticket (if waited then Some Phase.Waiting else None) start.now) ≤ log.old.capacity }
    ensures marks { log.new.items ≡ log.old.items ++ start_marks ticket (if waited then Some Phase.Waiting else None) start.now }
    ensures capacity { log.old.capacity ≤ log.new.capacity }
{
    match start {
        Start::Closed | Start::TimedOut => log.push(Mark::Ended { ticket }),
        Start::Exhausted => {
            if waited {
                log.push(Mark::Left { ticket });
            }
            log.push(Mark::Ended { ticket });
        }
        Start::Test(idle) => log.take(ticket, idle.lent.id),
        Start::Connect => {
            if waited {
                log.push(Mark::Left { ticket });
            }
        }
        Start::NotHeld | Start::Waiting | Start::Backoff(_) => {}
    }
}

// The marks of the test of a connection.
pub fn test<C>(log: &mut PackedLog, client: u32, ticket: u64, conn: u64, after: &AfterTest<C>)
    requires { length log.old.items + length (test_marks client ticket conn after.now) ≤ log.old.capacity }
    ensures marks { log.new.items ≡ log.old.items ++ test_marks client ticket conn after.now }
    ensures capacity { log.old.capacity ≤ log.new.capacity }
{
    match after {
        AfterTest::Closed(_) => {
            log.push(Mark::Closed { conn });
            log.push(Mark::Ended { ticket });
        }
        AfterTest::Ready(_) => log.lend(client, ticket, conn),
        AfterTest::Test(idle) => {
            log.push(Mark::Closed { conn });
            log.push(Mark::Taken { conn: idle.lent.id });
        }
        AfterTest::Connect => log.push(Mark::Closed { conn }),
        AfterTest::NotHeld(_) => {}
    }
}

// The marks of a try of a connect at a moment.
pub fn connect<C>(
    log: &mut PackedLog,
    client: u32,
    ticket: u64,
    moment: u64,
    after: &AfterConnect<C>,
)
    requires { length log.old.items + length (connect_marks client ticket moment after.now) ≤ log.old.capacity }
    ensures marks { log.new.items ≡ log.old.items ++ connect_marks client ticket moment after.now }
    ensures capacity { log.old.capacity ≤ log.new.capacity }
{
    match after {
        AfterConnect::Ready(lent) => {
            let conn = lent.id;
            log.push(Mark::Opened { conn, moment });
            log.lend(client, ticket, conn);
        }
        AfterConnect::Closed(_) | AfterConnect::Ended => log.push(Mark::Ended { ticket }),
        AfterConnect::NotHeld(_) | AfterConnect::Backoff(_) => {}
    }
}

// The mark of a connection that came back at a moment.
pub fn give<C>(log: &mut PackedLog, conn: u64, moment: u64, given: &Given<C>)
    requires { length log.old.items + length (give_marks conn moment given.now) ≤ log.old.capacity }
    ensures marks { log.new.items ≡ log.old.items ++ give_marks conn moment given.now }
    ensures capacity { log.old.capacity ≤ log.new.capacity }
{
    match given {
        Given::Kept => log.keep(conn, moment),
        Given::Closed(_) => log.push(Mark::Closed { conn }),
        Given::NotHeld(_) => {}
    }
}

// A mark, or none.
pub fn if_so(log: &mut PackedLog, so: bool, mark: Mark)
    requires { length log.old.items + one_if so ≤ log.old.capacity }
    ensures marks { log.new.items ≡ log.old.items ++ (if so then mark ∷ [] else []) }
    ensures capacity { log.old.capacity ≤ log.new.capacity }
{
    if so {
        log.push(mark);
    }
}

// The mark of a reap.
pub fn reap<C>(log: &mut PackedLog, reaped: &Option<Idle<C>>)
    requires { length log.old.items + length (reap_marks reaped.now) ≤ log.old.capacity }
    ensures marks { log.new.items ≡ log.old.items ++ reap_marks reaped.now }
    ensures capacity { log.old.capacity ≤ log.new.capacity }
{
    if let Some(idle) = reaped {
        log.push(Mark::Reaped { conn: idle.lent.id });
    }
}

// The marks of an ask that is served at once.
pub fn serve(log: &mut PackedLog, client: u32, ticket: u64, asked_at: u64, timeout: u64, conn: u64)
    requires { length log.old.items + 1 ≤ log.old.capacity }
    ensures marks { log.new.items ≡ log.old.items ++ Mark.Asked ticket client (asked_at + timeout) ∷ Mark.Left ticket ∷ Mark.Taken conn ∷ Mark.Lent client conn ∷ Mark.Ended ticket ∷ [] }
    ensures capacity { log.old.capacity ≤ log.new.capacity }
{
    log.serve(client, ticket, asked_at, timeout, conn);
}

// The marks of a loan past the line.
pub fn lend_past(log: &mut PackedLog, client: u32, conn: u64)
    requires { length log.old.items + 2 ≤ log.old.capacity }
    ensures marks { log.new.items ≡ log.old.items ++ Mark.Taken conn ∷ Mark.Lent client conn ∷ [] }
    ensures capacity { log.old.capacity ≤ log.new.capacity }
{
    log.lend_past(client, conn);
}

// The marks of a connection that was opened for the minimum at a moment, or none.
pub fn open_if(log: &mut PackedLog, opens: bool, conn: u64, moment: u64)
    requires { length log.old.items + 2 * one_if opens ≤ log.old.capacity }
    ensures marks { log.new.items ≡ log.old.items ++ (if opens then Mark.Opened conn moment ∷ Mark.Kept conn moment ∷ [] else []) }
    ensures capacity { log.old.capacity ≤ log.new.capacity }
{
    if opens {
        log.push(Mark::Opened { conn, moment });
        log.push(Mark::Kept { conn, moment });
    }
}

// The marks of a close of a pool that is closed already, or not.
pub fn close<C>(log: &mut PackedLog, shut: bool, idle: &VecDeque<Idle<C>>)
    requires { length log.old.items + length (close_marks shut idle.now.items) ≤ log.old.capacity }
    ensures marks { log.new.items ≡ log.old.items ++ close_marks shut idle.now.items }
    ensures capacity { log.old.capacity ≤ log.new.capacity }
{
    if !shut {
        close_first(log, idle);
    }
}

// The marks of the first close.
fn close_first<C>(log: &mut PackedLog, idle: &VecDeque<Idle<C>>)
    requires { length log.old.items + 1 + length idle.now.items ≤ log.old.capacity }
    ensures marks { log.new.items ≡ log.old.items ++ close_marks false idle.now.items }
    ensures capacity { log.old.capacity ≤ log.new.capacity }
{
    log.push(Mark::Shut);
    for at in 0..idle.len() {
        let conn = idle[at].lent.id;
        log.push(Mark::Closed { conn });
    }
}
