//! What a step answers, in numbers.

ghost use Rattle.std.specs.Prelude.{◌≡◌};
ghost use Rattle.zangipuk_c.specs.Replies.{number_reply, plain_reply, token_reply, done_reply, lent_reply, lend_reply, idle_reply, take_reply, backoff_reply, start_reply, test_reply, connect_reply, give_reply, closing_reply, filled_reply};

use sqlx_pool_core::{AfterConnect, AfterTest, CloseState, Given, Idle, Lent, Start, Verdict};

/// What a step answers. Which numbers say something depends on the kind; the others are 0.
#[repr(C)]
#[derive(Clone, Copy, PartialEq, Eq)]
pub struct Reply {
    pub kind: u32,
    /// The number of a ticket or a connection, or a count.
    pub id: u64,
    /// The token of a connection.
    pub raw: u64,
    /// When the connection was opened.
    pub created: u64,
    /// Since when it is idle, or until when the ticket backs off; the largest number for any later moment.
    pub when: u64,
    /// Behind the ticket that was entitled last.
    pub edge: u64,
}

/// The client has no such ticket or connection, or there is no pool.
pub const NOT_HELD: u32 = 0;
/// The pool is closed; there is no connection to be closed.
pub const CLOSED: u32 = 1;
/// Close the connection of this token.
pub const CLOSE: u32 = 2;
/// The ticket's deadline came.
pub const TIMED_OUT: u32 = 3;
/// The numbers are used up.
pub const EXHAUSTED: u32 = 4;
/// Memory was wanting; nothing changed.
pub const OUT_OF_MEMORY: u32 = 5;
/// It isn't the ticket's turn.
pub const WAITING: u32 = 6;
/// The ticket backs off.
pub const BACKOFF: u32 = 7;
/// Test the connection of this token.
pub const TEST: u32 = 8;
/// Open a connection.
pub const CONNECT: u32 = 9;
/// The connection of this token is lent.
pub const READY: u32 = 10;
/// It was done: a ticket was asked, one ended, a connection was kept or left, or it is so.
pub const DONE: u32 = 11;
/// Nothing was to be done, or it isn't so.
pub const NONE: u32 = 12;

/// A reply of this kind, which says nothing else.
pub fn plain(kind: u32) -> Reply
    ensures { result ≡ plain_reply kind }
{
    number(kind, 0)
}

/// A reply with a number.
pub fn number(kind: u32, id: u64) -> Reply
    ensures { result ≡ number_reply kind id }
{
    Reply {
        kind,
        id,
        raw: 0,
        created: 0,
        when: 0,
        edge: 0,
    }
}

/// A reply with a token.
pub fn token(kind: u32, raw: u64) -> Reply
    ensures { result ≡ token_reply kind raw }
{
    Reply { raw, ..plain(kind) }
}

/// The connection is lent.
pub fn lent(lent: Lent<u64>) -> Reply
    ensures { result ≡ lent_reply lent }
{
    let Lent { id, created, raw } = lent;
    Reply {
        kind: READY,
        id,
        raw,
        created: created.0,
        when: 0,
        edge: 0,
    }
}

/// This idle connection is to be tested, or closed.
pub fn idle(kind: u32, idle: Idle<u64>) -> Reply
    ensures { result ≡ idle_reply kind idle }
{
    let Idle { lent, since } = idle;
    let Lent { id, created, raw } = lent;
    Reply {
        kind,
        id,
        raw,
        created: created.0,
        when: since.0,
        edge: 0,
    }
}

// The ticket backs off until then.
fn backoff(until: u128) -> Reply
    ensures { result ≡ backoff_reply until }
{
    let when = match u64::try_from(until) {
        Ok(when) => when,
        Err(_) => u64::MAX,
    };
    Reply {
        when,
        ..plain(BACKOFF)
    }
}

/// What a poll comes to at first.
pub fn start(start: Start<u64>) -> Reply
    ensures { result ≡ start_reply start }
{
    match start {
        Start::NotHeld => plain(NOT_HELD),
        Start::Closed => plain(CLOSED),
        Start::TimedOut => plain(TIMED_OUT),
        Start::Exhausted => plain(EXHAUSTED),
        Start::Waiting => plain(WAITING),
        Start::Backoff(until) => backoff(until),
        Start::Test(tested) => idle(TEST, tested),
        Start::Connect => plain(CONNECT),
    }
}

/// What follows a test.
pub fn after_test(after: AfterTest<u64>) -> Reply
    ensures { result ≡ test_reply after }
{
    match after {
        AfterTest::NotHeld(Verdict::Accepted(other)) => token(NOT_HELD, other.raw),
        AfterTest::NotHeld(Verdict::Refused(_)) => plain(NOT_HELD),
        AfterTest::Closed(Some(raw)) => token(CLOSE, raw),
        AfterTest::Closed(None) => plain(CLOSED),
        AfterTest::Ready(ready) => lent(ready),
        AfterTest::Test(tested) => idle(TEST, tested),
        AfterTest::Connect => plain(CONNECT),
    }
}

/// What follows a try of a connect.
pub fn after_connect(after: AfterConnect<u64>) -> Reply
    ensures { result ≡ connect_reply after }
{
    match after {
        AfterConnect::NotHeld(tried) => {
            drop(tried);
            plain(NOT_HELD)
        }
        AfterConnect::Closed(Some(raw)) => token(CLOSE, raw),
        AfterConnect::Closed(None) => plain(CLOSED),
        AfterConnect::Ready(ready) => lent(ready),
        AfterConnect::Backoff(until) => backoff(until),
        AfterConnect::Ended => plain(DONE),
    }
}

/// What became of a connection that was given back.
pub fn given(given: Given<u64>) -> Reply
    ensures { result ≡ give_reply given }
{
    match given {
        Given::Kept => plain(DONE),
        Given::Closed(raw) => token(CLOSE, raw),
        Given::NotHeld(raw) => token(NOT_HELD, raw),
    }
}

/// Whether it was done.
pub fn done(done: bool) -> Reply
    ensures { result ≡ done_reply done }
{
    plain(if done { DONE } else { NONE })
}

/// What was lent, or nothing.
pub fn lend(got: Option<Lent<u64>>) -> Reply
    ensures { result ≡ lend_reply got }
{
    match got {
        Some(got) => lent(got),
        None => plain(NONE),
    }
}

/// What is to be closed, or nothing.
pub fn take(taken: Option<Idle<u64>>) -> Reply
    ensures { result ≡ take_reply taken }
{
    match taken {
        Some(taken) => idle(CLOSE, taken),
        None => plain(NONE),
    }
}

/// What came back of a connection for the minimum.
pub fn filled(back: Option<u64>) -> Reply
    ensures { result ≡ filled_reply back }
{
    match back {
        Some(raw) => token(CLOSE, raw),
        None => plain(DONE),
    }
}

/// How far a pool is closed: not shut, closing or closed.
pub fn closing(state: CloseState) -> Reply
    ensures { result ≡ closing_reply state }
{
    match state {
        CloseState::NotShut => number(DONE, 0),
        CloseState::Closing => number(DONE, 1),
        CloseState::Closed => number(DONE, 2),
    }
}
