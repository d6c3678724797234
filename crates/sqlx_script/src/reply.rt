//! The replies to the events of a script.
ghost use Rattle.std.specs.Prelude.{◌≡◌, ◌+◌, ◌++◌, ◌≤◌, codes, length};
ghost use Rattle.std.specs.Fmt.{decimal};
ghost use Rattle.sqlx_savepoints.specs.Texts.{text_of};
ghost use Rattle.sqlx_script.specs.Texts.{reply_text};
ghost use Rattle.sqlx_lines.specs.Words.{line_of};

use arrayvec::ArrayString;
use sqlx_lines::{OutputLine, push_integer, push_number};
use sqlx_savepoints::LevelText;
use std::fmt;

/// What is written for an event, without its newline.
#[derive(Clone, Copy)]
pub enum Reply {
    /// `ticket N`
    Ticket(u64),
    /// `PoolClosed`
    PoolClosed,
    /// `PoolTimedOut`
    PoolTimedOut,
    /// `NotHeld`: the client has no such ticket or connection.
    NotHeld,
    /// `waiting`
    Waiting,
    /// `backoff NS`: the connect is tried again at this moment, in nanoseconds.
    Backoff(u128),
    /// `ready C`: the client has this connection.
    Ready(u64),
    /// `Io`: refused by the link.
    Io,
    /// `Database refused`: refused by the database.
    DatabaseRefused,
    /// `cancelled`
    Cancelled,
    /// `none`: no connection can be had at once.
    NothingToLend,
    /// `kept`: the connection is idle again.
    Kept,
    /// `closed N`, N connections having been opened for the minimum.
    Closed(u64),
    /// `detached N`, N connections having been opened for the minimum.
    Detached(u64),
    /// `leaked N`, N connections having been opened for the minimum.
    Leaked(u64),
    /// `reaped R opened N`
    Reaped { reaped: u64, opened: u64 },
    /// `opened N`
    Opened(u64),
    /// `closing R`, R idle connections having been closed.
    Closing(u64),
    /// `Open`: the pool isn't closed.
    StateOpen,
    /// `Closing`: the pool is closed, and has connections yet.
    StateClosing,
    /// `Closed`: the pool is closed, and has none.
    StateClosed,
    /// `level D TEXT`: the depth after it, and the statement that ran.
    Level { depth: u64, text: LevelText },
    /// `Database deep`: no deeper level can be opened.
    DatabaseDeep,
    /// `Database busy`: another connection has a level open.
    DatabaseBusy,
    /// `InvalidSavePointStatement`
    InvalidSavePointStatement,
    /// `BeginFailed`
    BeginFailed,
    /// `ok N`: so many rows were written.
    Written(u64),
    /// `value V`
    Value(i64),
    /// `RowNotFound`
    RowNotFound,
}

// Puts words and a number behind what the line holds.
#[inline(always)]
fn push_counted<const CAP: usize>(line: &mut ArrayString<CAP>, words: &str, n: u64)
    requires room { length line.old.bytes + length words.now + 20 ≤ CAP }
    ensures bytes { line.new.bytes ≡ line.old.bytes ++ words.now ++ decimal n }
    ensures short { length line.new.bytes ≤ length line.old.bytes + length words.now + 20 }
{
    line.push_str(words);
    push_number(line, n);
}

// Puts how many were reaped, and how many were opened, behind what the line holds.
fn push_reaped<const CAP: usize>(line: &mut ArrayString<CAP>, reaped: u64, opened: u64)
    requires room { length line.old.bytes + 127 ≤ CAP }
    ensures bytes { line.new.bytes ≡ line.old.bytes ++ codes "reaped " ++ decimal reaped ++ codes " opened " ++ decimal opened }
    ensures short { length line.new.bytes ≤ length line.old.bytes + 127 }
{
    push_counted(line, "reaped ", reaped);
    push_counted(line, " opened ", opened);
}

// Puts a level's text behind what the line holds.
#[inline]
fn push_level<const CAP: usize>(line: &mut ArrayString<CAP>, level: LevelText)
    requires room { length line.old.bytes + 59 ≤ CAP }
    ensures bytes { line.new.bytes ≡ line.old.bytes ++ text_of level }
    ensures short { length line.new.bytes ≤ length line.old.bytes + 59 }
{
    let (words, number) = level.parts();
    line.push_str(words);
    if let Some(n) = number {
        push_number::<CAP>(line, n);
    }
}

// Puts a depth, and the text that ran, behind what the line holds.
#[inline(always)]
fn push_depth<const CAP: usize>(line: &mut ArrayString<CAP>, depth: u64, text: LevelText)
    requires room { length line.old.bytes + 127 ≤ CAP }
    ensures bytes { line.new.bytes ≡ line.old.bytes ++ codes "level " ++ decimal depth ++ codes " " ++ text_of text }
    ensures short { length line.new.bytes ≤ length line.old.bytes + 127 }
{
    push_counted(line, "level ", depth);
    line.push_str(" ");
    push_level(line, text);
}

impl Reply {
    // Puts the text behind what the line holds.
    #[inline(always)]
    fn push_text<const CAP: usize>(&self, line: &mut ArrayString<CAP>)
        requires room { length line.old.bytes + 127 ≤ CAP }
        ensures bytes { line.new.bytes ≡ line.old.bytes ++ reply_text self.now }
        ensures short { length line.new.bytes ≤ length line.old.bytes + 127 }
    {
        match *self {
            Reply::Ticket(n) => push_counted(line, "ticket ", n),
            Reply::PoolClosed => line.push_str("PoolClosed"),
            Reply::PoolTimedOut => line.push_str("PoolTimedOut"),
            Reply::NotHeld => line.push_str("NotHeld"),
            Reply::Waiting => line.push_str("waiting"),
            Reply::Backoff(until) => {
                line.push_str("backoff ");
                push_integer(line, until);
            }
            Reply::Ready(n) => push_counted(line, "ready ", n),
            Reply::Io => line.push_str("Io"),
            Reply::DatabaseRefused => line.push_str("Database refused"),
            Reply::Cancelled => line.push_str("cancelled"),
            Reply::NothingToLend => line.push_str("none"),
            Reply::Kept => line.push_str("kept"),
            Reply::Closed(n) => push_counted(line, "closed ", n),
            Reply::Detached(n) => push_counted(line, "detached ", n),
            Reply::Leaked(n) => push_counted(line, "leaked ", n),
            Reply::Reaped { reaped, opened } => push_reaped(line, reaped, opened),
            Reply::Opened(n) => push_counted(line, "opened ", n),
            Reply::Closing(n) => push_counted(line, "closing ", n),
            Reply::StateOpen => line.push_str("Open"),
            Reply::StateClosing => line.push_str("Closing"),
            Reply::StateClosed => line.push_str("Closed"),
            Reply::Level { depth, text } => push_depth(line, depth, text),
            Reply::DatabaseDeep => line.push_str("Database deep"),
            Reply::DatabaseBusy => line.push_str("Database busy"),
            Reply::InvalidSavePointStatement => line.push_str("InvalidSavePointStatement"),
            Reply::BeginFailed => line.push_str("BeginFailed"),
            Reply::Written(n) => push_counted(line, "ok ", n),
            Reply::Value(value) => {
                line.push_str("value ");
                push_integer(line, value);
            }
            Reply::RowNotFound => line.push_str("RowNotFound"),
        }
    }

    /// Puts the text and a newline in place of what the line holds.
    #[inline(always)]
    pub fn fill_line(&self, line: &mut OutputLine)
        ensures { line.new.bytes ≡ line_of (reply_text self.now) }
    {
        line.clear();
        self.push_text(line);
        line.push_str("\n");
    }
}

impl fmt::Display for Reply {
    ghost use Rattle.std.specs.Prelude.{Some};

    ghost output = { λ reply. Some (reply_text reply) };

    fn fmt<W: fmt::Write>(&self, f: &mut fmt::Formatter<W>) -> fmt::Result {
        let mut line = OutputLine::new();
        self.push_text(&mut line);
        f.write_str(line.as_str())
    }
}
