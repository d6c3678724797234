//! What a play may answer in place of Ok, and the exit status of each answer.
ghost use Rattle.std.specs.Prelude.{◌≡◌, IfOk, string_bytes};
ghost use Rattle.sqlx_player.specs.Status.{outcome_text, status_of};

use sqlx_text::OutOfMemory;
use std::alloc::{AllocError, Global};
use std::error::Error;
use std::fmt;

/// Why a script wasn't played to its end.
#[derive(Clone, Copy, Debug, PartialEq, Eq)]
pub enum PlayError {
    /// The words of the command line are none that the program knows.
    Usage,
    /// The source has more bytes than a script may have.
    ScriptTooLong,
    /// The first bad line, by its number from 1 on.
    ScriptLine(u64),
    /// The source failed.
    ReadFault,
    /// The sink failed.
    WriteFault,
    /// Want of memory.
    OutOfMemory,
}

impl fmt::Display for PlayError {
    ghost use Rattle.std.specs.Prelude.{Some};
    ghost use Rattle.sqlx_player.specs.Status.{fault_text};

    ghost output = { λ error. Some (fault_text error) };

    fn fmt<W: fmt::Write>(&self, f: &mut fmt::Formatter<W>) -> fmt::Result {
        match self {
            PlayError::Usage => f.write_str("usage"),
            PlayError::ScriptTooLong => f.write_str("script too long"),
            PlayError::ScriptLine(number) => write!(f, "script line {number}"),
            PlayError::ReadFault => f.write_str("read fault"),
            PlayError::WriteFault => f.write_str("write fault"),
            PlayError::OutOfMemory => f.write_str("out of memory"),
        }
    }
}

impl Error for PlayError {}

impl From<AllocError> for PlayError {
    ghost use Rattle.std.specs.Prelude.{◌≡◌};
    ghost use Rattle.sqlx_player.specs.declared.error.PlayError.TheVariants.{OutOfMemory as out_of_memory};

    ghost from_gives = { λ _ e. e ≡ out_of_memory };

    fn from(_refused: AllocError) -> PlayError {
        PlayError::OutOfMemory
    }
}

impl From<OutOfMemory> for PlayError {
    ghost use Rattle.std.specs.Prelude.{◌≡◌};
    ghost use Rattle.sqlx_player.specs.declared.error.PlayError.TheVariants.{OutOfMemory as out_of_memory};

    ghost from_gives = { λ _ e. e ≡ out_of_memory };

    fn from(_refused: OutOfMemory) -> PlayError {
        PlayError::OutOfMemory
    }
}

/// An error as a program tells it: of a wrong use it says how the program is used.
#[derive(Clone, Copy, Debug)]
pub struct ErrorText<'a> {
    pub error: PlayError,
    /// The program's name, and the words that it knows.
    pub usage: &'a str,
}

impl<'a> fmt::Display for ErrorText<'a> {
    ghost use Rattle.std.specs.Prelude.{Some};
    ghost use Rattle.sqlx_player.specs.Status.{error_text};

    ghost output = { λ text. Some (error_text text.usage.now text.error) };

    fn fmt<W: fmt::Write>(&self, f: &mut fmt::Formatter<W>) -> fmt::Result {
        match self.error {
            PlayError::Usage => write!(f, "usage: {}", self.usage),
            error => write!(f, "{error}"),
        }
    }
}

/// The exit status of an answer.
pub fn status(answer: &Result<(), PlayError>) -> u8
    ensures { result ≡ status_of answer.now }
{
    match answer {
        Ok(()) => 0,
        Err(PlayError::Usage) => 2,
        Err(PlayError::ScriptTooLong) => 3,
        Err(PlayError::ScriptLine(_)) => 4,
        Err(PlayError::ReadFault) => 5,
        Err(PlayError::WriteFault) => 6,
        Err(PlayError::OutOfMemory) => 7,
    }
}

/// The exit status, and behind it the text of the fault, if there is one: what a play ends with, as lists of recorded
/// scripts write it. `usage` is the program's name and the words that it knows.
pub fn outcome(
    alloc: Global,
    usage: &str,
    answer: &Result<(), PlayError>,
) -> Result<String, AllocError>
    ensures { IfOk result (λ text. string_bytes text ≡ outcome_text usage.now answer.now) }
{
    let number = status(answer);
    match *answer {
        Ok(()) => format!(in alloc; "{number}"),
        Err(error) => format!(in alloc; "{number} {}", ErrorText { error, usage }),
    }
}
