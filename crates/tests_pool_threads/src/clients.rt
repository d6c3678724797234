//! What the clients of a pool do, one act after another, and the number that each act comes to.

ghost use Rattle.std.specs.Prelude.{◌≡◌, ◌+◌, ◌<◌, ◌≤◌};

use crate::same::same_three;
use sqlx_pool::*;
use sqlx_pool_core::Outside;
use sqlx_text::{Depth, Error, Moment};
use std::alloc::Global;
use std::process::Abort;
use std::sync::Wait;
use std::sync::ledger::Ledger;

/// What a client does. Each act comes to a number, or to one of the words below.
#[derive(Clone, Copy)]
pub enum Act {
    /// Asks for a connection: the number of the ticket.
    Ask,
    /// Polls its ticket: a word.
    Poll,
    /// Gives its ticket up: a word.
    Cancel,
    /// Takes the first idle connection, past the line: a word.
    Try,
    /// Takes the first idle connection beside what it has, and returns it at once: a word.
    Past,
    /// Returns its connection: a word.
    Return,
    /// Closes its connection: how many were opened for the minimum.
    Close,
    /// Takes its connection out of the pool: how many were opened for the minimum.
    Detach,
    /// Keeps its connection for good: how many were opened for the minimum.
    Leak,
    /// Closes the pool: how many connections were closed.
    Shut,
    /// Keeps the minimum: how many connections were opened.
    Fill,
    /// Closes what rests for too long: how many connections were closed.
    Reap,
    /// How far the pool is closed: 0 for not at all, 1 for a connection that is out, 2 for none.
    Closing,
    /// How many connections there are.
    Size,
    /// How many connections are idle.
    Idle,
    /// Whether the close cuts a step off before it is polled: 1, or 0.
    CutOff,
}

/// A connection is lent.
pub const LENT: u64 = 1 << 32;

/// The ticket waits for its turn.
pub const WAITS: u64 = LENT + 1;

/// The ticket waits for the next try.
pub const BACKS_OFF: u64 = LENT + 2;

/// The ticket ended.
pub const CANCELLED: u64 = LENT + 3;

/// The connection is idle again.
pub const KEPT: u64 = LENT + 4;

/// The connection was closed.
pub const CLOSED: u64 = LENT + 5;

/// There is none.
pub const NONE: u64 = LENT + 6;

/// Refused, since the pool is closed.
pub const POOL_CLOSED: u64 = LENT + 7;

/// Refused, since the time of the ticket is over.
pub const TIMED_OUT: u64 = LENT + 8;

/// Something else.
pub const OTHER: u64 = LENT + 9;

/// What a client has at hand: a ticket, or a connection. It can't be let go.
pub enum Hand<T, P> {
    Empty,
    Ticket(P),
    Loan(T),
}

/// What a client of such a pool has at hand.
pub type HandOf<C, O, S> = Hand<PoolConnectionOf<C, O, S>, AcquiringOf<C, O, S>>;

/// The word of an error.
pub fn word(error: Error) -> u64 {
    let word = match &error {
        Error::PoolClosed => POOL_CLOSED,
        Error::PoolTimedOut => TIMED_OUT,
        _ => OTHER,
    };
    drop(error);
    word
}

// The word of a poll that comes to nothing yet.
fn pending(why: Why) -> u64 {
    match why {
        Why::Waiting => WAITS,
        Why::Backoff(_) => BACKS_OFF,
    }
}

// The word of a return.
fn returned(returned: Returned) -> u64 {
    match returned {
        Returned::Kept => KEPT,
        Returned::Closed { .. } => CLOSED,
        Returned::NotHeld => OTHER,
    }
}

// How many connections a close opened, or the word of its error.
fn closed(closed: Result<Openings, Error>) -> u64 {
    match closed {
        Ok(openings) => u64::from(openings.opened),
        Err(error) => word(error),
    }
}

// Asks.
fn asks<C: Depth + Drop, O: Drop, S: PoolSteps<C, O>, R: Wait>(
    rt: &R,
    alloc: Global,
    pool: &PoolOf<C, O, S>,
    client: u32,
    now: u64,
) -> (HandOf<C, O, S>, u64) {
    match pool.acquire(rt, alloc, Moment(now), client) {
        Ok(asked) => {
            let ticket = asked.ticket();
            (Hand::Ticket(asked), ticket)
        }
        Err(error) => (Hand::Empty, word(error)),
    }
}

// Polls the ticket at hand.
fn polls<C: Depth + Drop, O: Drop, S: PoolSteps<C, O>, R: Wait, X: Outside<C, O>>(
    rt: &R,
    alloc: Global,
    hand: HandOf<C, O, S>,
    now: u64,
    out: &mut X,
    tally: &mut S::Tally,
) -> (HandOf<C, O, S>, u64)
    ensures parts { (S.Tally.counted tally.new).parts ≡ (S.Tally.counted tally.old).parts }
    ensures loans { (S.Tally.counted tally.new).loans ≤ (S.Tally.counted tally.old).loans + 1 }
{
    match hand {
        Hand::Ticket(asked) => match asked.poll::<R, X>(rt, alloc, Moment(now), out, tally) {
            Polling::Ready(conn) => (Hand::Loan(conn), LENT),
            Polling::Pending(asked, why) => (Hand::Ticket(asked), pending(why)),
            Polling::Failed(error) => (Hand::Empty, word(error)),
        },
        hand => (hand, NONE),
    }
}

// Gives the ticket at hand up.
fn cancels<C: Depth + Drop, O: Drop, S: PoolSteps<C, O>, R: Wait>(
    rt: &R,
    hand: HandOf<C, O, S>,
) -> (HandOf<C, O, S>, u64) {
    match hand {
        Hand::Ticket(asked) => {
            let ended = asked.cancel(rt);
            (Hand::Empty, if ended { CANCELLED } else { OTHER })
        }
        hand => (hand, NONE),
    }
}

// Takes the first idle connection.
fn tries<C: Depth + Drop, O: Drop, S: PoolSteps<C, O>, R: Wait>(
    rt: &R,
    alloc: Global,
    pool: &PoolOf<C, O, S>,
    client: u32,
    now: u64,
    tally: &mut S::Tally,
) -> (HandOf<C, O, S>, u64)
    ensures { (S.Tally.counted tally.new).parts ≡ (S.Tally.counted tally.old).parts }
{
    match pool.try_acquire(rt, alloc, Moment(now), client, tally) {
        Ok(Some(conn)) => (Hand::Loan(conn), LENT),
        Ok(None) => (Hand::Empty, NONE),
        Err(error) => (Hand::Empty, word(error)),
    }
}

// Takes the first idle connection, and returns it at once.
fn passes<C: Depth + Drop, O: Drop, S: PoolSteps<C, O>, R: Wait, X: Outside<C, O>>(
    rt: &R,
    alloc: Global,
    pool: &PoolOf<C, O, S>,
    client: u32,
    now: u64,
    out: &mut X,
    tally: &mut S::Tally,
) -> u64
    ensures { (S.Tally.counted tally.new).parts ≡ (S.Tally.counted tally.old).parts }
{
    let (hand, said) = tries(rt, alloc, pool, client, now, tally);
    lets_go::<C, O, S, R, X>(rt, alloc, hand, now, out);
    said
}

/// Ends a loan, by a return where the act is none of the three others.
pub fn ends<C: Depth + Drop, O: Drop, S: PoolSteps<C, O>, R: Wait, X: Outside<C, O>>(
    rt: &R,
    alloc: Global,
    conn: PoolConnectionOf<C, O, S>,
    act: Act,
    now: u64,
    out: &mut X,
) -> u64 {
    match act {
        Act::Close => closed(conn.close::<R, X>(rt, alloc, Moment(now), out)),
        Act::Detach => {
            let (raw, openings) = conn.detach::<R, X>(rt, alloc, Moment(now), out);
            drop(raw);
            u64::from(openings.opened)
        }
        Act::Leak => {
            let (raw, openings) = conn.leak::<R, X>(rt, alloc, Moment(now), out);
            drop(raw);
            u64::from(openings.opened)
        }
        _ => returned(conn.return_to_pool::<R, X>(rt, alloc, Moment(now), out)),
    }
}

// Ends the loan at hand.
fn leaves<C: Depth + Drop, O: Drop, S: PoolSteps<C, O>, R: Wait, X: Outside<C, O>>(
    rt: &R,
    alloc: Global,
    hand: HandOf<C, O, S>,
    act: Act,
    now: u64,
    out: &mut X,
) -> (HandOf<C, O, S>, u64) {
    match hand {
        Hand::Loan(conn) => {
            let said = ends::<C, O, S, R, X>(rt, alloc, conn, act, now, out);
            (Hand::Empty, said)
        }
        hand => (hand, NONE),
    }
}

// Spends what is at hand.
fn lets_go<C: Depth + Drop, O: Drop, S: PoolSteps<C, O>, R: Wait, X: Outside<C, O>>(
    rt: &R,
    alloc: Global,
    hand: HandOf<C, O, S>,
    now: u64,
    out: &mut X,
) {
    match hand {
        Hand::Empty => {}
        Hand::Ticket(asked) => {
            asked.cancel(rt);
        }
        Hand::Loan(conn) => {
            conn.return_to_pool::<R, X>(rt, alloc, Moment(now), out);
        }
    }
}

// What is done with the pool.
fn tends<C: Depth + Drop, O: Drop, S: PoolSteps<C, O>, R: Wait, X: Outside<C, O>>(
    rt: &R,
    alloc: Global,
    pool: &PoolOf<C, O, S>,
    act: Act,
    now: u64,
    out: &mut X,
) -> u64 {
    match act {
        Act::Shut => pool.close::<R, X>(rt, out) as u64,
        Act::Fill => u64::from(
            pool.keep_minimum::<R, X>(rt, alloc, Moment(now), out)
                .opened,
        ),
        _ => u64::from(pool.reap::<R, X>(rt, alloc, Moment(now), out).0),
    }
}

// What a look at the pool tells.
fn looks<C: Depth + Drop, O: Drop, S: PoolSteps<C, O>, R: Wait>(
    rt: &R,
    pool: &PoolOf<C, O, S>,
    act: Act,
) -> u64 {
    match act {
        Act::Size => u64::from(pool.size(rt)),
        Act::Idle => pool.num_idle(rt) as u64,
        Act::CutOff => cut_off(rt, pool),
        _ => match pool.closing(rt) {
            CloseState::NotShut => 0,
            CloseState::Closing => 1,
            CloseState::Closed => 2,
        },
    }
}

// A step that counts how often it is polled, and has no output.
#[derive(Drop)]
struct Never {
    polls: u32,
}

impl Step for Never {
    type Output = u32;

    fn poll(&mut self) -> Option<u32> {
        self.polls = self.polls.saturating_add(1);
        None
    }
}

// Whether this is the answer to a step of a closed pool.
fn is_closed(answer: Option<Result<u32, Error>>) -> bool {
    match answer {
        Some(Err(error)) => word(error) == POOL_CLOSED,
        _ => false,
    }
}

// 1 where a step is cut off by the close before it is polled, and the event tells of the close; else 0.
fn cut_off<C: Depth + Drop, O: Drop, S: PoolSteps<C, O>, R: Wait>(
    rt: &R,
    pool: &PoolOf<C, O, S>,
) -> u64 {
    let Ok(mut event) = pool.close_event() else {
        return OTHER;
    };
    let mut step = Never { polls: 0 };
    let closed = is_closed(event.do_until::<R, Never>(rt, &mut step));
    u64::from(closed && step.polls == 0 && event.poll(rt) && event.is_terminated(rt))
}

// One act of a client. Before it asks or takes a connection, it spends what it has.
fn acts<C: Depth + Drop, O: Drop, S: PoolSteps<C, O>, R: Wait, X: Outside<C, O>>(
    rt: &R,
    alloc: Global,
    pool: &PoolOf<C, O, S>,
    hand: HandOf<C, O, S>,
    row: Row,
    out: &mut X,
    tally: &mut S::Tally,
) -> (HandOf<C, O, S>, u64)
    ensures { (S.Tally.counted tally.new).parts ≡ (S.Tally.counted tally.old).parts }
{
    let Row(client, act, now, _, _) = row;
    match act {
        Act::Ask => {
            lets_go::<C, O, S, R, X>(rt, alloc, hand, now, out);
            asks(rt, alloc, pool, client, now)
        }
        Act::Poll => polls::<C, O, S, R, X>(rt, alloc, hand, now, out, tally),
        Act::Cancel => cancels(rt, hand),
        Act::Try => {
            lets_go::<C, O, S, R, X>(rt, alloc, hand, now, out);
            tries(rt, alloc, pool, client, now, tally)
        }
        Act::Past => {
            let said = passes::<C, O, S, R, X>(rt, alloc, pool, client, now, out, tally);
            (hand, said)
        }
        Act::Shut | Act::Fill | Act::Reap => {
            let said = tends::<C, O, S, R, X>(rt, alloc, pool, act, now, out);
            (hand, said)
        }
        Act::Closing | Act::Size | Act::Idle | Act::CutOff => (hand, looks(rt, pool, act)),
        act => leaves::<C, O, S, R, X>(rt, alloc, hand, act, now, out),
    }
}

/// Which client does what at which moment, what it comes to, and how many marks the log has then.
#[derive(Clone, Copy)]
pub struct Row(pub u32, pub Act, pub u64, pub u64, pub usize);

// What two clients have at hand.
struct Hands<T, P> {
    first: Hand<T, P>,
    second: Hand<T, P>,
}

type HandsOf<C, O, S> = Hands<PoolConnectionOf<C, O, S>, AcquiringOf<C, O, S>>;

// The client whose row it is acts.
fn turn<C: Depth + Drop, O: Drop, S: PoolSteps<C, O>, R: Wait, X: Outside<C, O>>(
    rt: &R,
    alloc: Global,
    pool: &PoolOf<C, O, S>,
    hands: HandsOf<C, O, S>,
    row: Row,
    out: &mut X,
    tally: &mut S::Tally,
) -> (HandsOf<C, O, S>, u64)
    ensures { (S.Tally.counted tally.new).parts ≡ (S.Tally.counted tally.old).parts }
{
    let Hands { first, second } = hands;
    if row.0 == 1 {
        let (first, said) = acts::<C, O, S, R, X>(rt, alloc, pool, first, row, out, tally);
        (Hands { first, second }, said)
    } else {
        let (second, said) = acts::<C, O, S, R, X>(rt, alloc, pool, second, row, out, tally);
        (Hands { first, second }, said)
    }
}

/// Two clients act row by row; what they have at the end is spent.
pub fn plays<C: Depth + Drop, O: Drop, S: PoolSteps<C, O>, R: Wait + Abort, X: Outside<C, O>>(
    rt: &R,
    alloc: Global,
    pool: &PoolOf<C, O, S>,
    rows: &[Row],
    out: &mut X,
    tally: &mut S::Tally,
)
    ensures { (S.Tally.counted tally.new).parts ≡ (S.Tally.counted tally.old).parts }
{
    let mut hands = Hands {
        first: Hand::Empty,
        second: Hand::Empty,
    };
    for row in rows {
        let (next, said) = turn::<C, O, S, R, X>(rt, alloc, pool, hands, *row, out, tally);
        hands = next;
        let marks = pool.log_len(rt);
        same_three(
            rt,
            [row.2, said, marks as u64],
            [row.2, row.3, row.4 as u64],
        );
    }
    let Hands { first, second } = hands;
    lets_go::<C, O, S, R, X>(rt, alloc, first, 0, out);
    lets_go::<C, O, S, R, X>(rt, alloc, second, 0, out);
}

/// Asks and polls: the connection. A ticket that waits is given up.
pub fn lend<C: Depth + Drop, O: Drop, S: PoolSteps<C, O>, R: Wait, X: Outside<C, O>>(
    rt: &R,
    alloc: Global,
    pool: &PoolOf<C, O, S>,
    client: u32,
    now: u64,
    out: &mut X,
    tally: &mut S::Tally,
) -> Option<PoolConnectionOf<C, O, S>>
    ensures parts { (S.Tally.counted tally.new).parts ≡ (S.Tally.counted tally.old).parts }
    ensures loans { (S.Tally.counted tally.new).loans ≤ (S.Tally.counted tally.old).loans + 1 }
{
    let (hand, _) = asks(rt, alloc, pool, client, now);
    let (hand, _) = polls::<C, O, S, R, X>(rt, alloc, hand, now, out, tally);
    match hand {
        Hand::Loan(conn) => Some(conn),
        hand => {
            lets_go::<C, O, S, R, X>(rt, alloc, hand, now, out);
            None
        }
    }
}

/// Asks, polls and returns: the word of the return.
pub fn loan<C: Depth + Drop, O: Drop, S: PoolSteps<C, O>, R: Wait, X: Outside<C, O>>(
    rt: &R,
    alloc: Global,
    pool: &PoolOf<C, O, S>,
    client: u32,
    now: u64,
    out: &mut X,
    tally: &mut S::Tally,
) -> u64
    ensures parts { (S.Tally.counted tally.new).parts ≡ (S.Tally.counted tally.old).parts }
    ensures loans { (S.Tally.counted tally.new).loans ≤ (S.Tally.counted tally.old).loans + 1 }
{
    match lend::<C, O, S, R, X>(rt, alloc, pool, client, now, out, tally) {
        Some(conn) => ends::<C, O, S, R, X>(rt, alloc, conn, Act::Return, now, out),
        None => NONE,
    }
}
