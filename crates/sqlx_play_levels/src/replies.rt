//! How an error of the database is told as a reply.
ghost use Rattle.std.specs.Prelude.{◌≡◌};
ghost use Rattle.sqlx_play_levels.specs.Told as spec;
ghost use Rattle.sqlx_play_levels.specs.Told.{Answered, reply_to, written_reply};

use sqlx_any::AnyQueryResult;
use sqlx_script::Reply;
use sqlx_text::{Error, OutOfMemory};

// The reply to a refusal of the database.
fn database_reply(message: &str) -> Reply
    ensures { result ≡ spec.database_reply message.now }
{
    if message == "deep" {
        return Reply::DatabaseDeep;
    }
    if message == "busy" {
        return Reply::DatabaseBusy;
    }
    Reply::DatabaseRefused
}

// The reply to an error, none where memory was wanting.
fn reply_of(error: &Error) -> Option<Reply>
    ensures { result ≡ spec.told_reply error.now }
{
    match error {
        Error::OutOfMemory => None,
        Error::RowNotFound => Some(Reply::RowNotFound),
        Error::InvalidSavePointStatement => Some(Reply::InvalidSavePointStatement),
        Error::BeginFailed => Some(Reply::BeginFailed),
        Error::Database(fault) => Some(database_reply(fault.message.as_str())),
        _ => Some(Reply::Io),
    }
}

/// Tells an error as a reply.
pub fn told(error: Error) -> Result<Reply, OutOfMemory>
    ensures { Answered (spec.told_reply error) result }
{
    let reply = reply_of(&error);
    drop(error);
    match reply {
        Some(reply) => Ok(reply),
        None => Err(OutOfMemory),
    }
}

/// Tells how many rows were written.
pub fn written(answer: Result<AnyQueryResult, Error>) -> Result<Reply, OutOfMemory>
    ensures { Answered (reply_to written_reply answer) result }
{
    match answer {
        Ok(done) => Ok(Reply::Written(done.rows_affected)),
        Err(error) => told(error),
    }
}

/// Tells the value that was read.
pub fn read(answer: Result<i64, Error>) -> Result<Reply, OutOfMemory>
    ensures { Answered (reply_to (λ value. Reply.Value value) answer) result }
{
    match answer {
        Ok(value) => Ok(Reply::Value(value)),
        Err(error) => told(error),
    }
}
