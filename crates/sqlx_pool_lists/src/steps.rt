//! What goes into the steps of the pool, and what comes out of them.

use sqlx_text::{Error, Moment};

/// A connection on its way from or to the pool, with the pool's number for it and the moment of its opening.
#[derive(Drop)]
pub struct Lent<C> {
    pub id: u64,
    pub created: Moment,
    pub raw: C,
}

/// An idle connection, and since when it rests.
#[derive(Drop)]
pub struct Idle<C> {
    pub lent: Lent<C>,
    pub since: Moment,
}

/// What a poll comes to at first.
#[derive(Drop)]
pub enum Start<C> {
    /// The client has no such ticket that waits or is in backoff.
    NotHeld,
    /// The pool is closed; the ticket ended.
    Closed,
    /// The deadline came; the ticket ended.
    TimedOut,
    /// A connect is due, and the numbers of connections are used up; the ticket ended.
    Exhausted,
    /// As many tickets wait before this one as permits are free, or more.
    Waiting,
    /// The next try of a connect is due at this moment, in nanoseconds.
    Backoff(u128),
    /// Test this connection, and tell by `finish_test`.
    Test(Idle<C>),
    /// Open a connection, and tell by `finish_connect`.
    Connect,
}

/// What a test made of an idle connection.
#[derive(Drop)]
pub enum Verdict<C> {
    /// It may be lent.
    Accepted(Lent<C>),
    /// The caller closed it; this was its number.
    Refused(u64),
}

/// What follows a test.
#[derive(Drop)]
pub enum AfterTest<C> {
    /// The client has no such ticket under test, or another connection is under test for it.
    NotHeld(Verdict<C>),
    /// The pool is closed; the ticket ended. Close the connection that comes back.
    Closed(Option<C>),
    /// The connection is lent; the ticket ended.
    Ready(Lent<C>),
    /// Test this connection too, and tell by `finish_test`.
    Test(Idle<C>),
    /// Open a connection, and tell by `finish_connect`.
    Connect,
}

/// What a try of a connect came to.
#[derive(Drop)]
pub enum Tried<C> {
    /// It was opened, and `after_connect` let it pass.
    Opened(C),
    /// It was opened, and `after_connect` refused it.
    Rejected,
    /// It was refused for a cause that may pass.
    Transient,
    /// It was refused for another cause.
    Fatal,
}

/// What follows a try of a connect.
#[derive(Drop)]
pub enum AfterConnect<C> {
    /// The client has no such ticket that is connecting.
    NotHeld(Tried<C>),
    /// The pool is closed; the ticket ended. Close the connection that comes back.
    Closed(Option<C>),
    /// The new connection is lent; the ticket ended.
    Ready(Lent<C>),
    /// The next try is due at this moment, in nanoseconds.
    Backoff(u128),
    /// The try was refused for good; the ticket ended.
    Ended,
}

/// What a whole poll came to.
#[derive(Drop)]
pub enum Polled<C> {
    /// The client has no such ticket that waits or is in backoff.
    NotHeld,
    /// The pool is closed; the ticket ended.
    Closed,
    /// The deadline came; the ticket ended.
    TimedOut,
    /// The numbers of connections are used up; the ticket ended.
    Exhausted,
    /// As many tickets wait before this one as permits are free, or more.
    Waiting,
    /// The next try of a connect is due at this moment, in nanoseconds.
    Backoff(u128),
    /// The connection is lent; the ticket ended.
    Ready(Lent<C>),
    /// The connect was refused for good, or met want of memory; the ticket ended.
    Refused(Error),
}

/// What became of a connection that was given back.
#[derive(Drop)]
pub enum Given<C> {
    /// It is the last among the idle.
    Kept,
    /// It left the pool: close it.
    Closed(C),
    /// The client doesn't own a connection of this number.
    NotHeld(C),
}

/// What became of a connection that was given back, and closed where the pool didn't keep it.
#[derive(Drop)]
pub enum Returned<C> {
    /// It is the last among the idle.
    Kept,
    /// It left the pool, and was closed.
    Closed,
    /// The client doesn't own a connection of this number.
    NotHeld(C),
}

/// How far a pool is closed.
#[derive(Clone, Copy, Debug, PartialEq, Eq)]
pub enum CloseState {
    /// No close came.
    NotShut,
    /// A close came, and a connection is owned or leaked, or a ticket hasn't ended.
    Closing,
    /// A close came, and nothing of the pool is out.
    Closed,
}

/// What a keeping of the minimum came to.
#[derive(Clone, Copy, Debug, PartialEq, Eq)]
pub struct Openings {
    /// How many connections it opened.
    pub opened: u32,
    /// It ended for want of memory.
    pub short: bool,
}

/// The numbers that the next ticket and the next connection get.
#[derive(Clone, Copy, PartialEq, Eq)]
pub struct Numbers {
    pub next_ticket: u64,
    pub next_conn: u64,
}
