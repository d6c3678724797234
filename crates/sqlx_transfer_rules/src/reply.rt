//! The replies to the events of a script of transfers.
ghost use Rattle.std.specs.Prelude.{◌≡◌, ◌+◌, ◌++◌, ◌≤◌, [], ◌∷◌, length};
ghost use Rattle.sqlx_transfer_rules.specs.Texts.{text_of, total_text};

use sqlx_lines::{OutputLine, push_integer, push_number};

/// What an event is answered.
#[derive(Clone, Copy)]
pub enum Reply {
    /// `full`: every connection has another client.
    Full,
    /// `deep`: no deeper level can be begun.
    Deep,
    /// `level D`: so many levels of the client are open.
    Level(u64),
    /// `none`: the client has no connection.
    NoConnection,
    /// `insufficient`: the client sees less in the account.
    Insufficient,
    /// `overflow`: the other account would pass the greatest balance.
    Overflow,
    /// `fault`: a write was refused.
    Fault,
    /// `busy`: another client has a connection.
    Busy,
    /// `moved`
    Moved,
    /// `dropped`
    Dropped,
    /// `balance V`
    Balance(i64),
}

impl Reply {
    /// Puts what is written for the reply in place of what the line holds.
    pub fn fill_line(&self, line: &mut OutputLine)
        ensures { line.new.bytes ≡ text_of self.now }
    {
        line.clear();
        match *self {
            Reply::Full => line.push_str("full"),
            Reply::Deep => line.push_str("deep"),
            Reply::Level(depth) => {
                line.push_str("level ");
                push_number(line, depth);
            }
            Reply::NoConnection => line.push_str("none"),
            Reply::Insufficient => line.push_str("insufficient"),
            Reply::Overflow => line.push_str("overflow"),
            Reply::Fault => line.push_str("fault"),
            Reply::Busy => line.push_str("busy"),
            Reply::Moved => line.push_str("moved"),
            Reply::Dropped => line.push_str("dropped"),
            Reply::Balance(value) => {
                line.push_str("balance ");
                push_integer(line, value);
            }
        }
        line.push_str("\n");
    }
}

/// Puts the closing line in place of what the line holds.
pub fn fill_total(line: &mut OutputLine, total: i128)
    ensures { line.new.bytes ≡ total_text total }
{
    line.clear();
    line.push_str("total ");
    push_integer(line, total);
    line.push_str("\n");
}
