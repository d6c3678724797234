//! Each way in which a call of the project can fail.
ghost use Rattle.std.specs.Prelude.{◌≡◌};
ghost use Rattle.std.specs.Option.{option_copied};

use crate::{DatabaseFault, Fault, IoFault, UStr};
use std::fmt;

/// What a call answers: its value, or an [`Error`].
pub type Result<T, E = Error> = std::result::Result<T, E>;

/// Why a call answers no value.
#[derive(Drop)]
pub enum Error {
    /// The options of a connection can't be read.
    Configuration(Fault),
    /// An argument isn't one that the call takes.
    InvalidArgument(UStr),
    /// The database refused.
    Database(DatabaseFault),
    /// The database couldn't be reached.
    Io(IoFault),
    /// The database sent what a driver doesn't understand.
    Protocol(UStr),
    /// A row was asked for and there is none.
    RowNotFound,
    /// The database has no type of the name.
    TypeNotFound { type_name: UStr },
    /// The row has no column at the position.
    ColumnIndexOutOfBounds { index: usize, len: usize },
    /// The row has no column of the name.
    ColumnNotFound(UStr),
    /// The value of a column can't be read; the label is its position, or its name in quotes.
    ColumnDecode { index: UStr, source: Fault },
    /// An argument can't be encoded.
    Encode(Fault),
    /// A value can't be read.
    Decode(Fault),
    /// A native value, type or statement has no form in `Any`.
    AnyDriverError(Fault),
    /// The deadline of an acquire came.
    PoolTimedOut,
    /// The pool was closed.
    PoolClosed,
    /// A custom begin inside of a transaction.
    InvalidSavePointStatement,
    /// A custom begin ran and no transaction is open.
    BeginFailed,
    /// Want of memory.
    OutOfMemory,
    /// A count that numbers things stands at its last value.
    Exhausted,
    /// The caller holds no such connection.
    NotHeld,
}

impl Error {
    ghost use Rattle.sqlx_text.specs.Errors.{number_of, database_fault_of, error_of};

    /// The number of the variant, from 1 in the order in which they are declared.
    pub fn number(&self) -> u8
        ensures { result ≡ number_of self.now }
    {
        match self {
            Error::Configuration(_) => 1,
            Error::InvalidArgument(_) => 2,
            Error::Database(_) => 3,
            Error::Io(_) => 4,
            Error::Protocol(_) => 5,
            Error::RowNotFound => 6,
            Error::TypeNotFound { .. } => 7,
            Error::ColumnIndexOutOfBounds { .. } => 8,
            Error::ColumnNotFound(_) => 9,
            Error::ColumnDecode { .. } => 10,
            Error::Encode(_) => 11,
            Error::Decode(_) => 12,
            Error::AnyDriverError(_) => 13,
            Error::PoolTimedOut => 14,
            Error::PoolClosed => 15,
            Error::InvalidSavePointStatement => 16,
            Error::BeginFailed => 17,
            Error::OutOfMemory => 18,
            Error::Exhausted => 19,
            Error::NotHeld => 20,
        }
    }

    /// The refusal of the database, where the error is one.
    pub fn into_database_error(self) -> Option<DatabaseFault>
        ensures { result ≡ database_fault_of self }
    {
        match self {
            Error::Database(fault) => Some(fault),
            other => {
                drop(other);
                None
            }
        }
    }

    /// The refusal of the database, where the error is one.
    pub fn as_database_error(&self) -> Option<&DatabaseFault>
        ensures { option_copied result ≡ database_fault_of self.now }
    {
        match self {
            Error::Database(fault) => Some(fault),
            _ => None,
        }
    }

    /// Data that a driver doesn't understand.
    pub fn protocol(text: UStr) -> Error
        ensures { result ≡ Error.Protocol text }
    {
        Error::Protocol(text)
    }

    /// A refusal of the database.
    pub fn database(fault: DatabaseFault) -> Error
        ensures { result ≡ Error.Database fault }
    {
        Error::Database(fault)
    }

    /// Options that can't be read. Want of memory stays want of memory.
    pub fn config(fault: Fault) -> Error
        ensures { result ≡ error_of Error.Configuration fault }
    {
        match fault {
            Fault::OutOfMemory => Error::OutOfMemory,
            fault => Error::Configuration(fault),
        }
    }

    /// A value that can't be encoded. Want of memory stays want of memory.
    pub fn encode(fault: Fault) -> Error
        ensures { result ≡ error_of Error.Encode fault }
    {
        match fault {
            Fault::OutOfMemory => Error::OutOfMemory,
            fault => Error::Encode(fault),
        }
    }

    /// A value that can't be read. Want of memory stays want of memory.
    pub fn decode(fault: Fault) -> Error
        ensures { result ≡ error_of Error.Decode fault }
    {
        match fault {
            Fault::OutOfMemory => Error::OutOfMemory,
            fault => Error::Decode(fault),
        }
    }

    // The message, or what stands of it before the first thing that the error holds.
    fn words(&self) -> &'static str {
        match self {
            Error::Configuration(_) => "error with configuration: ",
            Error::InvalidArgument(_) => "",
            Error::Database(_) => "error returned from database: ",
            Error::Io(_) => "error communicating with database: ",
            Error::Protocol(_) => "encountered unexpected or invalid data: ",
            Error::RowNotFound => {
                "no rows returned by a query that expected to return at least one row"
            }
            Error::TypeNotFound { .. } => "type named ",
            Error::ColumnIndexOutOfBounds { .. } => "column index out of bounds: the len is ",
            Error::ColumnNotFound(_) => "no column found for name: ",
            Error::ColumnDecode { .. } => "error occurred while decoding column ",
            Error::Encode(_) => "error occurred while encoding a value: ",
            Error::Decode(_) => "error occurred while decoding: ",
            Error::AnyDriverError(_) => "error in Any driver mapping: ",
            Error::PoolTimedOut => "pool timed out while waiting for an open connection",
            Error::PoolClosed => "attempted to acquire a connection on a closed pool",
            Error::InvalidSavePointStatement => {
                "attempted to call begin_with at non-zero transaction depth"
            }
            Error::BeginFailed => {
                "got unexpected connection status after attempting to begin transaction"
            }
            Error::OutOfMemory => "out of memory",
            Error::Exhausted => "numbers are used up",
            Error::NotHeld => "not held",
        }
    }
}

impl fmt::Display for Error {
    fn fmt<W: fmt::Write>(&self, f: &mut fmt::Formatter<W>) -> fmt::Result {
        f.write_str(self.words())?;
        match self {
            Error::InvalidArgument(text) | Error::Protocol(text) | Error::ColumnNotFound(text) => {
                f.write_str(text.as_str())
            }
            Error::Configuration(fault)
            | Error::Encode(fault)
            | Error::Decode(fault)
            | Error::AnyDriverError(fault) => write!(f, "{fault}"),
            Error::Database(fault) => f.write_str(fault.message()),
            Error::Io(fault) => write!(f, "{fault}"),
            Error::TypeNotFound { type_name } => write!(f, "{type_name} not found"),
            Error::ColumnIndexOutOfBounds { index, len } => {
                write!(f, "{len}, but the index is {index}")
            }
            Error::ColumnDecode { index, source } => write!(f, "{index}: {source}"),
            _ => Ok(()),
        }
    }
}

// The message: a derived text would be a case for each variant.
impl fmt::Debug for Error {
    fn fmt<W: fmt::Write>(&self, f: &mut fmt::Formatter<W>) -> fmt::Result {
        fmt::Display::fmt(self, f)
    }
}

impl std::error::Error for Error {}

/// The fault of a value that can't be encoded. Want of memory stays want of memory.
impl From<Fault> for Error {
    ghost use Rattle.std.specs.Prelude.{◌≡◌};
    ghost use Rattle.sqlx_text.specs.declared.error.Error.TheVariants.{Encode};
    ghost use Rattle.sqlx_text.specs.Errors.{error_of};

    ghost from_gives = { λ fault error. error ≡ error_of Encode fault };

    fn from(fault: Fault) -> Error {
        Error::encode(fault)
    }
}

impl From<DatabaseFault> for Error {
    ghost use Rattle.std.specs.Prelude.{◌≡◌};
    ghost use Rattle.sqlx_text.specs.declared.error.Error.TheVariants.{Database};

    ghost from_gives = { λ fault error. error ≡ Database fault };

    fn from(fault: DatabaseFault) -> Error {
        Error::Database(fault)
    }
}

impl From<IoFault> for Error {
    ghost use Rattle.std.specs.Prelude.{◌≡◌};
    ghost use Rattle.sqlx_text.specs.declared.error.Error.TheVariants.{Io};

    ghost from_gives = { λ fault error. error ≡ Io fault };

    fn from(fault: IoFault) -> Error {
        Error::Io(fault)
    }
}
