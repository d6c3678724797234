//! The events of a script: each line after the first is one.
use crate::answers::{GiveAnswers, PollAnswers, StatementAnswer};
use sqlx_text::Moment;

/// What is done, and when.
#[derive(Clone, Copy)]
pub struct Event {
    /// A whole number of milliseconds, below 2^40 of them.
    pub moment: Moment,
    pub step: Step,
}

/// What is done. Clients, tickets and connections go by their numbers; `opens` is how many connects for the minimum succeed.
#[derive(Clone, Copy)]
pub enum Step {
    /// `ask`: a client asks for a connection, and gets a ticket.
    Ask {
        client: u32,
    },
    /// `poll`: a client asks how its ticket stands.
    Poll {
        client: u32,
        ticket: u32,
        answers: PollAnswers,
    },
    /// `cancel`: a client gives its ticket up.
    Cancel {
        client: u32,
        ticket: u32,
    },
    /// `try`: a client asks for an idle connection, and doesn't wait.
    Try {
        client: u32,
    },
    /// `give`: a client gives its connection back.
    Give {
        client: u32,
        connection: u32,
        answers: GiveAnswers,
        opens: u32,
    },
    /// `end`: a client closes its connection.
    End {
        client: u32,
        connection: u32,
        opens: u32,
    },
    /// `detach`: a client takes its connection out of the pool.
    Detach {
        client: u32,
        connection: u32,
        opens: u32,
    },
    /// `leak`: a client takes its connection out of the pool, which keeps its place.
    Leak {
        client: u32,
        connection: u32,
        opens: u32,
    },
    /// `reap`: idle connections beyond a limit are closed.
    Reap {
        opens: u32,
    },
    /// `min`: the pool is filled up to its minimum.
    Min {
        opens: u32,
    },
    /// `closed`: how far the pool's close has come.
    CloseState,
    /// `begin`: one more transaction level.
    Begin {
        client: u32,
        connection: u32,
        answer: StatementAnswer,
    },
    /// `custom`: a transaction is begun by a statement of the client's own, `BEGIN IMMEDIATE` or else `SELECT 1`.
    Custom {
        client: u32,
        connection: u32,
        begins: bool,
        answer: StatementAnswer,
    },
    /// `put`: a value is written under a key below 1,000.
    Put {
        client: u32,
        connection: u32,
        key: u32,
        answer: StatementAnswer,
        value: i64,
    },
    /// `del`: the value under a key is removed.
    Del {
        client: u32,
        connection: u32,
        key: u32,
        answer: StatementAnswer,
    },
    /// `get`: the value under a key is read.
    Get {
        client: u32,
        connection: u32,
        key: u32,
        answer: StatementAnswer,
    },
    /// `commit`: the innermost level is committed.
    Commit {
        client: u32,
        connection: u32,
        answer: StatementAnswer,
    },
    /// `rollback`: the innermost level is rolled back.
    Rollback {
        client: u32,
        connection: u32,
        answer: StatementAnswer,
    },
    /// `giveup`: the innermost level is left without an answer, and rolled back later.
    GiveUp {
        client: u32,
        connection: u32,
    },
    /// `close`: the pool is closed.
    Close,
}
