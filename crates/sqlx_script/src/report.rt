//! The closing report of a script.
ghost use Rattle.std.specs.Prelude.{◌≡◌, ◌+◌, ◌++◌, ◌≤◌, length};
ghost use Rattle.sqlx_script.specs.Texts.{report_text};
ghost use Rattle.sqlx_lines.specs.Words.{line_of};

use arrayvec::ArrayString;
use sqlx_lines::{OutputLine, push_number};
use std::fmt;

/// What the pool holds after the last event.
#[derive(Clone, Copy)]
pub struct Report {
    /// Connections with an owner.
    pub held: u64,
    /// Idle connections.
    pub idle: u64,
    /// Leaked connections.
    pub leaked: u64,
    /// Tickets that haven't ended.
    pub waiting: u64,
}

impl Report {
    // Puts the text behind what the line holds.
    fn push_text<const CAP: usize>(&self, line: &mut ArrayString<CAP>)
        requires room { length line.old.bytes + 127 ≤ CAP }
        ensures bytes { line.new.bytes ≡ line.old.bytes ++ report_text self.now }
        ensures short { length line.new.bytes ≤ length line.old.bytes + 127 }
    {
        line.push_str("held ");
        push_number(line, self.held);
        line.push_str(" idle ");
        push_number(line, self.idle);
        line.push_str(" leaked ");
        push_number(line, self.leaked);
        line.push_str(" waiting ");
        push_number(line, self.waiting);
    }

    /// Puts the text and a newline in place of what the line holds.
    pub fn fill_line(&self, line: &mut OutputLine)
        ensures { line.new.bytes ≡ line_of (report_text self.now) }
    {
        line.clear();
        self.push_text(line);
        line.push_str("\n");
    }
}

impl fmt::Display for Report {
    ghost use Rattle.std.specs.Prelude.{Some};

    ghost output = { λ report. Some (report_text report) };

    fn fmt<W: fmt::Write>(&self, f: &mut fmt::Formatter<W>) -> fmt::Result {
        let mut line = OutputLine::new();
        self.push_text(&mut line);
        f.write_str(line.as_str())
    }
}
