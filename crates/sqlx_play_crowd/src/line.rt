//! A mark of a pool's log as a line of text.

ghost use Rattle.std.specs.Prelude.{◌≡◌};
ghost use Rattle.sqlx_play_crowd.specs.LogText.{mark_word};

use sqlx_pool::Mark;
use std::fmt;

// The text of a mark, without its newline.
#[derive(Clone, Copy)]
pub struct Line(pub Mark);

impl Line {
    // The word of the mark, with the space before its numbers.
    fn word(&self) -> &'static str
        ensures { result.now ≡ mark_word self.now.0 }
    {
        match self.0 {
            Mark::Asked { .. } => "asked ",
            Mark::Left { .. } => "left ",
            Mark::Taken { .. } => "taken ",
            Mark::Reaped { .. } => "reaped ",
            Mark::Opened { .. } => "opened ",
            Mark::Lent { .. } => "lent ",
            Mark::Kept { .. } => "kept ",
            Mark::Closed { .. } => "closed ",
            Mark::Detached { .. } => "detached ",
            Mark::Leaked { .. } => "leaked ",
            Mark::Ended { .. } => "ended ",
            Mark::Shut => "shut",
        }
    }
}

impl fmt::Display for Line {
    ghost use Rattle.std.specs.Prelude.{Some};
    ghost use Rattle.sqlx_play_crowd.specs.LogText.{mark_text};

    ghost output = { λ line. Some (mark_text line.0) };

    fn fmt<W: fmt::Write>(&self, f: &mut fmt::Formatter<W>) -> fmt::Result {
        f.write_str(self.word())?;
        match self.0 {
            Mark::Asked {
                ticket,
                client,
                deadline,
            } => write!(f, "{ticket} {client} {deadline}"),
            Mark::Left { ticket: number }
            | Mark::Ended { ticket: number }
            | Mark::Taken { conn: number }
            | Mark::Reaped { conn: number }
            | Mark::Closed { conn: number }
            | Mark::Detached { conn: number }
            | Mark::Leaked { conn: number } => write!(f, "{number}"),
            Mark::Opened { conn, moment } | Mark::Kept { conn, moment } => {
                write!(f, "{conn} {moment}")
            }
            Mark::Lent { client, conn } => write!(f, "{client} {conn}"),
            Mark::Shut => Ok(()),
        }
    }
}
