//! What a step of the pool did, as one entry of its log.

/// One thing that happened in a pool. Moments and deadlines are in nanoseconds.
#[derive(Clone, Copy)]
pub enum Mark {
    /// A client asked for a connection and got this ticket.
    Asked {
        ticket: u64,
        client: u32,
        deadline: u128,
    },
    /// A ticket left the line: it holds a permit from now on.
    Left {
        ticket: u64,
    },
    /// An idle connection was taken from the idle list.
    Taken {
        conn: u64,
    },
    /// An idle connection was closed, since it was idle or alive for too long.
    Reaped {
        conn: u64,
    },
    /// A connection was opened.
    Opened {
        conn: u64,
        moment: u64,
    },
    /// A connection was lent to a client, which owns it from now on.
    Lent {
        client: u32,
        conn: u64,
    },
    /// A connection was put last among the idle.
    Kept {
        conn: u64,
        moment: u64,
    },
    /// A connection was closed.
    Closed {
        conn: u64,
    },
    /// A connection left the pool, and with it its place and its permit.
    Detached {
        conn: u64,
    },
    /// A connection left the pool for good, which keeps its place and its permit.
    Leaked {
        conn: u64,
    },
    /// A ticket ended.
    Ended {
        ticket: u64,
    },
    /// The pool was closed.
    Shut,
}
