//! Why a statement is refused, and the error by which that is told.
ghost use Rattle.std.specs.Prelude.{◌≡◌, ◌≢◌, ℕ};
ghost use Rattle.sqlx_traits.specs.Faults.{CloseCause, FaultCause, HasRisen};
ghost use Rattle.sqlite_base.specs.Refusals.{IsRefusal, IsToldBy, cause_kind, refusal_error};

use sqlite::{Constraint, ErrorCode};
use sqlx_text::{DatabaseFault, Error, ErrorKind, Fault, OutOfMemory, UStr};
use std::alloc::Global;

/// Why a text is refused.
#[derive(Drop)]
pub enum Refusal {
    /// Want of memory.
    OutOfMemory,
    /// The database's own, with its message.
    Database(sqlite::Error, UStr),
    /// A value for which `Any` has no kind.
    NoKind,
}

impl Refusal {
    /// The error by which it is told.
    pub fn error(self) -> Error
        ensures value { result ≡ refusal_error self }
        ensures told { IsRefusal result }
        ensures cause { (before now : ℕ) → HasRisen before now → FaultCause before now result }
        ensures inside { result ≢ Error.InvalidSavePointStatement }
        ensures failed { result ≢ Error.BeginFailed }
    {
        match self {
            Refusal::OutOfMemory => Error::OutOfMemory,
            Refusal::Database(cause, message) => Error::Database(DatabaseFault {
                message,
                code: None,
                kind: kind_of(cause),
                transient: false,
                constraint: None,
                table: None,
            }),
            Refusal::NoKind => Error::AnyDriverError(Fault::Text(UStr::from_static(
                "a value is neither a whole number nor a text, bytes or null",
            ))),
        }
    }
}

impl From<OutOfMemory> for Refusal {
    ghost use Rattle.std.specs.Prelude.{◌≡◌};
    ghost use Rattle.sqlite_base.specs.declared.refusal.Refusal.TheVariants.{OutOfMemory};

    ghost from_gives = { λ _ refusal. refusal ≡ OutOfMemory };

    fn from(_: OutOfMemory) -> Refusal {
        Refusal::OutOfMemory
    }
}

/// A refusal of the database, told by its message. Want of memory is told as that.
pub(crate) fn refused(alloc: Global, cause: sqlite::Error) -> Refusal
    ensures told { IsToldBy cause (refusal_error result) }
    ensures cause { CloseCause (refusal_error result) }
{
    if let sqlite::Error::SqliteFailure(ErrorCode::OutOfMemory) = cause {
        return Refusal::OutOfMemory;
    }
    match format!(in alloc; "{cause}") {
        Ok(message) => Refusal::Database(cause, UStr::from_string(message)),
        Err(_) => Refusal::OutOfMemory,
    }
}

/// The kind of a refusal that a program can act on.
fn kind_of(cause: sqlite::Error) -> ErrorKind
    ensures { result ≡ cause_kind cause }
{
    let sqlite::Error::SqliteFailure(ErrorCode::ConstraintViolation(broken)) = cause else {
        return ErrorKind::Other;
    };
    match broken {
        Constraint::PrimaryKey | Constraint::Unique => ErrorKind::UniqueViolation,
        Constraint::ForeignKey => ErrorKind::ForeignKeyViolation,
        Constraint::NotNull => ErrorKind::NotNullViolation,
        Constraint::Check => ErrorKind::CheckViolation,
        Constraint::Datatype => ErrorKind::Other,
    }
}
