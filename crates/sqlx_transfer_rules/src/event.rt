//! The events of a script of transfers.

/// What meets a move.
#[derive(Clone, Copy)]
pub enum Met {
    /// `+`: both writes are accepted.
    Accepted,
    /// `1`: the first write is refused.
    FirstRefused,
    /// `2`: the second write is refused.
    SecondRefused,
}

/// What is done. Clients and accounts go by their numbers.
#[derive(Clone, Copy)]
pub enum Event {
    /// `start`: a level is begun.
    Start {
        client: u32,
    },
    /// `move`: an amount goes from one account to another, in a level of its own.
    Move {
        client: u32,
        from: u32,
        to: u32,
        amount: u64,
        met: Met,
    },
    /// `commit`: the innermost level is committed.
    Commit {
        client: u32,
    },
    /// `undo`: the innermost level is rolled back.
    Undo {
        client: u32,
    },
    /// `drop`: every level is given up.
    Drop {
        client: u32,
    },
    /// `show`: what an account holds, as far as it is committed.
    Show {
        account: u32,
    },
}
