//! A ticket and a loan, as the pool keeps them.

use sqlx_text::Moment;

/// Where a ticket stands.
#[derive(Clone, Copy, PartialEq, Eq)]
pub enum Phase {
    /// In the line.
    Waiting,
    /// Its idle connection is under test, behind so many others in this poll.
    Testing {
        conn: u64,
        created: Moment,
        before: u32,
    },
    /// A connect is under way for it.
    Connecting,
    /// Its next connect is due at this moment, in nanoseconds.
    Backoff {
        until: u128,
    },
}

impl Phase {
    ghost use Rattle.std.specs.Prelude.{◌≡◌};
    ghost use Rattle.sqlx_pool_lists.specs.Core.{is_out};

    /// Whether the ticket has left the line.
    pub fn is_out(&self) -> bool
        ensures { result ≡ is_out self.now }
    {
        !matches!(self, Phase::Waiting)
    }
}

/// A ticket that hasn't ended.
#[derive(Clone, Copy, PartialEq, Eq)]
pub struct Ticket {
    pub number: u64,
    pub client: u32,
    /// In nanoseconds.
    pub deadline: u128,
    pub phase: Phase,
    /// When it left the line.
    pub first_try: Moment,
    /// How long the last refused connect makes it wait, in nanoseconds.
    pub last_wait: Option<u128>,
}

/// A connection that a client owns.
#[derive(Clone, Copy, PartialEq, Eq)]
pub struct OwnedConn {
    pub conn: u64,
    pub client: u32,
    pub created: Moment,
}
