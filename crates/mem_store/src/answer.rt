//! What is handed to a session for its first statement.
ghost use Rattle.std.specs.Prelude.{◌≡◌};
ghost use Rattle.mem_store.specs.Acts.{fault_of};

use crate::refusal::Refusal;

/// What the first statement of a session meets.
#[derive(Clone, Copy)]
pub enum Answer {
    /// It runs.
    Accept,
    /// The way to the database is broken: `Io(Other)`.
    Io,
    /// The database refuses it with the message `refused`.
    Refuse,
}

impl Answer {
    /// What was handed in, as a refusal.
    pub fn fault(self) -> Option<Refusal>
        ensures { result ≡ fault_of self }
    {
        match self {
            Answer::Accept => None,
            Answer::Io => Some(Refusal::Fault),
            Answer::Refuse => Some(Refusal::Refused),
        }
    }
}
