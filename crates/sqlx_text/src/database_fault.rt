//! What a database says of a statement that it refuses.
ghost use Rattle.std.specs.Prelude.{◌≡◌, ◌↔◌, IsTrue};
ghost use Rattle.std.specs.Option.{option_copied};

use crate::UStr;
use std::fmt;

/// The kinds of refusals that a program can act on.
#[derive(Clone, Copy, Debug, PartialEq, Eq)]
pub enum ErrorKind {
    /// A unique or primary key is there already.
    UniqueViolation,
    /// A foreign key names nothing.
    ForeignKeyViolation,
    /// A null where none is allowed.
    NotNullViolation,
    /// A check doesn't hold.
    CheckViolation,
    /// An exclusion doesn't hold.
    ExclusionViolation,
    /// Any other refusal.
    Other,
}

/// A refusal of the database.
pub struct DatabaseFault {
    /// The message, for a human.
    pub message: UStr,
    /// The code, as SQLSTATE or the database's own.
    pub code: Option<UStr>,
    pub kind: ErrorKind,
    /// Whether a later try to connect may succeed.
    pub transient: bool,
    /// The constraint that was violated.
    pub constraint: Option<UStr>,
    /// The table that the refusal speaks of.
    pub table: Option<UStr>,
}

impl Drop for DatabaseFault {
    fn drop(self) {
        let DatabaseFault {
            message,
            code,
            kind: _,
            transient: _,
            constraint,
            table,
        } = self;
        drop(message);
        drop(code);
        drop(constraint);
        drop(table);
    }
}

impl DatabaseFault {
    /// The message, for a human.
    pub fn message(&self) -> &str
        ensures { result.now ≡ self.now.message }
    {
        self.message.as_str()
    }

    /// The code, where there is one.
    pub fn code(&self) -> Option<&str>
        ensures { option_copied result ≡ self.now.code }
    {
        shown(&self.code)
    }

    /// The constraint that was violated, where it is known.
    pub fn constraint(&self) -> Option<&str>
        ensures { option_copied result ≡ self.now.constraint }
    {
        shown(&self.constraint)
    }

    /// The table that the refusal speaks of, where it is known.
    pub fn table(&self) -> Option<&str>
        ensures { option_copied result ≡ self.now.table }
    {
        shown(&self.table)
    }

    /// The kind of the refusal.
    pub fn kind(&self) -> ErrorKind
        ensures { result ≡ self.now.kind }
    {
        self.kind
    }

    /// Whether a later try to connect may succeed.
    pub fn is_transient_in_connect_phase(&self) -> bool
        ensures { result ≡ self.now.transient }
    {
        self.transient
    }

    /// Whether a unique or primary key is there already.
    pub fn is_unique_violation(&self) -> bool
        ensures { IsTrue result ↔ (self.now.kind ≡ ErrorKind.UniqueViolation) }
    {
        self.kind == ErrorKind::UniqueViolation
    }

    /// Whether a foreign key names nothing.
    pub fn is_foreign_key_violation(&self) -> bool
        ensures { IsTrue result ↔ (self.now.kind ≡ ErrorKind.ForeignKeyViolation) }
    {
        self.kind == ErrorKind::ForeignKeyViolation
    }

    /// Whether a check doesn't hold.
    pub fn is_check_violation(&self) -> bool
        ensures { IsTrue result ↔ (self.now.kind ≡ ErrorKind.CheckViolation) }
    {
        self.kind == ErrorKind::CheckViolation
    }
}

fn shown(text: &Option<UStr>) -> Option<&str>
    ensures { option_copied result ≡ text.now }
{
    match text {
        Some(text) => Some(text.as_str()),
        None => None,
    }
}

impl fmt::Display for DatabaseFault {
    fn fmt<W: fmt::Write>(&self, f: &mut fmt::Formatter<W>) -> fmt::Result {
        fmt::Display::fmt(&self.message, f)
    }
}
