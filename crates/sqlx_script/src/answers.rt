//! What the outside of the pool answers to the calls of one event, as the letters of its line say.

/// The answer of a `before_acquire` or an `after_release` hook.
#[derive(Clone, Copy)]
pub enum HookAnswer {
    /// `+`: the connection is good.
    Accepts,
    /// `-`: the connection is to be closed.
    Refuses,
    /// `!`: the hook is refused with an error.
    Fails,
    /// `^`: the connection is called good, but with a transaction level open.
    LeavesOpen,
}

/// The answer of an `after_connect` hook, which can't refuse without an error.
#[derive(Clone, Copy)]
pub enum AfterConnectAnswer {
    /// `+`: the connection is set up.
    SetUp,
    /// `!`: the hook is refused with an error.
    SetUpFails,
    /// `^`: the connection is called set up, but with a transaction level open.
    SetUpLeavesOpen,
}

/// The answer of a connect.
#[derive(Clone, Copy)]
pub enum ConnectAnswer {
    /// `+`: there is a new connection.
    Connected,
    /// `~`: refused, and worth another try.
    Transient,
    /// `i`: refused by the link, in a way that no other try mends.
    ConnectIo,
    /// `d`: refused by the database, in a way that no other try mends.
    ConnectDatabase,
}

/// The answer to a statement.
#[derive(Clone, Copy, Debug, PartialEq, Eq)]
pub enum StatementAnswer {
    /// `+`: it runs.
    Runs,
    /// `i`: the link refuses it.
    StatementIo,
    /// `d`: the database refuses it.
    StatementRefused,
}

/// The four letters of a `poll`, and how many tests they answer.
#[derive(Clone, Copy)]
pub struct PollAnswers {
    /// Whether a ping of an idle connection is answered.
    pub ping: bool,
    pub before_acquire: HookAnswer,
    pub connect: ConnectAnswer,
    pub after_connect: AfterConnectAnswer,
    /// So many tests of idle connections are answered by `ping` and `before_acquire`; each later one accepts.
    pub tests: u32,
}

/// The two letters of a `give`.
#[derive(Clone, Copy)]
pub struct GiveAnswers {
    pub after_release: HookAnswer,
    /// Whether a ping of the connection is answered.
    pub ping: bool,
}
