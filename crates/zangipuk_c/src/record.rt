//! The marks of the pool's steps, written behind its log, where memory was reserved for them.
ghost use Rattle.std.specs.Prelude.{◌≡◌, ◌+◌, ◌*◌, ◌≤◌, List, [], ◌∷◌, ◌++◌, false, true, length, vec_capacity, Option, Some, None, if◌then◌else◌};
ghost use Rattle.sqlx_pool_marks.specs.declared.mark.Mark.{Mark};
ghost use Rattle.sqlx_pool_lists.specs.declared.ticket.Phase.{Phase};
ghost use Rattle.sqlx_pool_lists.specs.Balance.{one_if};
ghost use Rattle.sqlx_pool_lists.specs.PollSteps.{start_marks, test_marks, connect_marks};
ghost use Rattle.sqlx_pool_core.specs.ReturnSteps.{give_marks};
ghost use Rattle.sqlx_pool_lists.specs.MaintenanceSteps.{close_marks, reap_marks};

use sqlx_pool_lists::{AfterConnect, AfterTest, Given, Idle, Start};
use sqlx_pool_marks::Mark;
use std::collections::VecDeque;

// The marks of the start of a poll, whose ticket waited in the line or not.
pub fn start<C>(log: &mut Vec<Mark>, ticket: u64, waited: bool, start: &Start<C>)
    requires { length log.old.items + length (start_marks ticket (if waited then Some Phase.Waiting else None) start.now) ≤ vec_capacity log.old }
    ensures marks { log.new.items ≡ log.old.items ++ start_marks ticket (if waited then Some Phase.Waiting else None) start.now }
    ensures capacity { vec_capacity log.new ≡ vec_capacity log.old }
{
    match start {
        Start::Closed | Start::TimedOut => log.push_reserved(Mark::Ended { ticket }),
        Start::Exhausted => {
            if waited {
                log.push_reserved(Mark::Left { ticket });
            }
            log.push_reserved(Mark::Ended { ticket });
        }
        Start::Test(idle) => {
            log.push_reserved(Mark::Left { ticket });
            log.push_reserved(Mark::Taken { conn: idle.lent.id });
        }
        Start::Connect => {
            if waited {
                log.push_reserved(Mark::Left { ticket });
            }
        }
        Start::NotHeld | Start::Waiting | Start::Backoff(_) => {}
    }
}

// The marks of the test of a connection.
pub fn test<C>(log: &mut Vec<Mark>, client: u32, ticket: u64, conn: u64, after: &AfterTest<C>)
    requires { length log.old.items + length (test_marks client ticket conn after.now) ≤ vec_capacity log.old }
    ensures marks { log.new.items ≡ log.old.items ++ test_marks client ticket conn after.now }
    ensures capacity { vec_capacity log.new ≡ vec_capacity log.old }
{
    match after {
        AfterTest::Closed(_) => {
            log.push_reserved(Mark::Closed { conn });
            log.push_reserved(Mark::Ended { ticket });
        }
        AfterTest::Ready(_) => {
            log.push_reserved(Mark::Lent { client, conn });
            log.push_reserved(Mark::Ended { ticket });
        }
        AfterTest::Test(idle) => {
            log.push_reserved(Mark::Closed { conn });
            log.push_reserved(Mark::Taken { conn: idle.lent.id });
        }
        AfterTest::Connect => log.push_reserved(Mark::Closed { conn }),
        AfterTest::NotHeld(_) => {}
    }
}

// The marks of a try of a connect at a moment.
pub fn connect<C>(
    log: &mut Vec<Mark>,
    client: u32,
    ticket: u64,
    moment: u64,
    after: &AfterConnect<C>,
)
    requires { length log.old.items + length (connect_marks client ticket moment after.now) ≤ vec_capacity log.old }
    ensures marks { log.new.items ≡ log.old.items ++ connect_marks client ticket moment after.now }
    ensures capacity { vec_capacity log.new ≡ vec_capacity log.old }
{
    match after {
        AfterConnect::Ready(lent) => {
            let conn = lent.id;
            log.push_reserved(Mark::Opened { conn, moment });
            log.push_reserved(Mark::Lent { client, conn });
            log.push_reserved(Mark::Ended { ticket });
        }
        AfterConnect::Closed(_) | AfterConnect::Ended => log.push_reserved(Mark::Ended { ticket }),
        AfterConnect::NotHeld(_) | AfterConnect::Backoff(_) => {}
    }
}

// The mark of a connection that came back at a moment.
pub fn give<C>(log: &mut Vec<Mark>, conn: u64, moment: u64, given: &Given<C>)
    requires { length log.old.items + length (give_marks conn moment given.now) ≤ vec_capacity log.old }
    ensures marks { log.new.items ≡ log.old.items ++ give_marks conn moment given.now }
    ensures capacity { vec_capacity log.new ≡ vec_capacity log.old }
{
    match given {
        Given::Kept => log.push_reserved(Mark::Kept { conn, moment }),
        Given::Closed(_) => log.push_reserved(Mark::Closed { conn }),
        Given::NotHeld(_) => {}
    }
}

// A mark, or none.
pub fn if_so(log: &mut Vec<Mark>, so: bool, mark: Mark)
    requires { length log.old.items + one_if so ≤ vec_capacity log.old }
    ensures marks { log.new.items ≡ log.old.items ++ (if so then mark ∷ [] else []) }
    ensures capacity { vec_capacity log.new ≡ vec_capacity log.old }
{
    if so {
        log.push_reserved(mark);
    }
}

// The mark of a reap.
pub fn reap<C>(log: &mut Vec<Mark>, reaped: &Option<Idle<C>>)
    requires { length log.old.items + length (reap_marks reaped.now) ≤ vec_capacity log.old }
    ensures marks { log.new.items ≡ log.old.items ++ reap_marks reaped.now }
    ensures capacity { vec_capacity log.new ≡ vec_capacity log.old }
{
    if let Some(idle) = reaped {
        log.push_reserved(Mark::Reaped { conn: idle.lent.id });
    }
}

// The marks of an ask that is served at once.
pub fn serve(log: &mut Vec<Mark>, client: u32, ticket: u64, deadline: u128, conn: u64)
    requires { length log.old.items + 5 ≤ vec_capacity log.old }
    ensures marks { log.new.items ≡ log.old.items ++ Mark.Asked ticket client deadline ∷ Mark.Left ticket ∷ Mark.Taken conn ∷ Mark.Lent client conn ∷ Mark.Ended ticket ∷ [] }
    ensures capacity { vec_capacity log.new ≡ vec_capacity log.old }
{
    log.push_reserved(Mark::Asked {
        ticket,
        client,
        deadline,
    });
    log.push_reserved(Mark::Left { ticket });
    log.push_reserved(Mark::Taken { conn });
    log.push_reserved(Mark::Lent { client, conn });
    log.push_reserved(Mark::Ended { ticket });
}

// The marks of a loan past the line.
pub fn lend_past(log: &mut Vec<Mark>, client: u32, conn: u64)
    requires { length log.old.items + 2 ≤ vec_capacity log.old }
    ensures marks { log.new.items ≡ log.old.items ++ Mark.Taken conn ∷ Mark.Lent client conn ∷ [] }
    ensures capacity { vec_capacity log.new ≡ vec_capacity log.old }
{
    log.push_reserved(Mark::Taken { conn });
    log.push_reserved(Mark::Lent { client, conn });
}

// The marks of a connection that was opened for the minimum at a moment, or none.
pub fn open_if(log: &mut Vec<Mark>, opens: bool, conn: u64, moment: u64)
    requires { length log.old.items + 2 * one_if opens ≤ vec_capacity log.old }
    ensures marks { log.new.items ≡ log.old.items ++ (if opens then Mark.Opened conn moment ∷ Mark.Kept conn moment ∷ [] else []) }
    ensures capacity { vec_capacity log.new ≡ vec_capacity log.old }
{
    if opens {
        log.push_reserved(Mark::Opened { conn, moment });
        log.push_reserved(Mark::Kept { conn, moment });
    }
}

// The marks of a close of a pool that is closed already, or not.
pub fn close<C>(log: &mut Vec<Mark>, shut: bool, idle: &VecDeque<Idle<C>>)
    requires { length log.old.items + length (close_marks shut idle.now.items) ≤ vec_capacity log.old }
    ensures marks { log.new.items ≡ log.old.items ++ close_marks shut idle.now.items }
    ensures capacity { vec_capacity log.new ≡ vec_capacity log.old }
{
    if !shut {
        close_first(log, idle);
    }
}

// The marks of the first close.
fn close_first<C>(log: &mut Vec<Mark>, idle: &VecDeque<Idle<C>>)
    requires { length log.old.items + 1 + length idle.now.items ≤ vec_capacity log.old }
    ensures marks { log.new.items ≡ log.old.items ++ close_marks false idle.now.items }
    ensures capacity { vec_capacity log.new ≡ vec_capacity log.old }
{
    log.push_reserved(Mark::Shut);
    for at in 0..idle.len() {
        let conn = idle[at].lent.id;
        log.push_reserved(Mark::Closed { conn });
    }
}
