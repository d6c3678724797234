//! What a reply tells of tickets, connections and levels.

/// What a reply tells.
#[derive(Clone, Copy)]
pub enum Told {
    /// The ticket of this number was given out.
    Ticket(u64),
    /// The ticket waits.
    Waiting,
    /// The ticket's connect is tried again later.
    BacksOff,
    /// The client has the connection of this number.
    Ready(u64),
    /// So many levels are open.
    Level(u64),
    /// The client has no such ticket or connection: nothing changed.
    NotHeld,
    /// The begin was refused, or the text began no level: nothing changed for the client.
    Otherwise,
}

impl Told {
    /// What this reply tells.
    pub fn by(reply: &str) -> Told {
        let (word, rest) = reply.split_once(' ').unwrap_or((reply, ""));
        let number = first_number(rest);
        match word {
            "ticket" => Told::Ticket(number),
            "waiting" => Told::Waiting,
            "backoff" => Told::BacksOff,
            "ready" => Told::Ready(number),
            "level" => Told::Level(number),
            "NotHeld" => Told::NotHeld,
            _ => Told::Otherwise,
        }
    }
}

// The number that a text begins with, and 0 where it begins with none: no ticket and no connection has that number.
fn first_number(text: &str) -> u64 {
    let (first, _rest) = text.split_once(' ').unwrap_or((text, ""));
    first.parse::<u64>().unwrap_or(0)
}
