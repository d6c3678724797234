//! Why the driver refuses a statement.
ghost use Rattle.std.specs.Prelude.{◌≡◌};
ghost use Rattle.mem_store.specs.Errors.{error_of, database_error};

use sqlx_text::{DatabaseFault, Error, ErrorKind, IoFault, UStr};

/// A refusal.
#[derive(Clone, Copy)]
pub enum Refusal {
    /// The way to the database was broken.
    Fault,
    /// The database was told to refuse.
    Refused,
    /// The text is no statement's, or may not stand here, or its arguments don't fit.
    Unread,
    /// A level at depth 100.
    Deep,
    /// A write beside another connection's open level.
    Busy,
}

impl Refusal {
    /// The error by which it is told.
    pub fn error(self) -> Error
        ensures { result ≡ error_of self }
    {
        match self {
            Refusal::Fault => Error::Io(IoFault::Other),
            Refusal::Refused => refused_with("refused"),
            Refusal::Unread => refused_with("unread"),
            Refusal::Deep => refused_with("deep"),
            Refusal::Busy => refused_with("busy"),
        }
    }
}

fn refused_with(message: &'static str) -> Error
    ensures { result ≡ database_error message.entry.now }
{
    Error::Database(DatabaseFault {
        message: UStr::from_static(message),
        code: None,
        kind: ErrorKind::Other,
        transient: false,
        constraint: None,
        table: None,
    })
}
