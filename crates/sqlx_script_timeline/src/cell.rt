//! What a client has at a row.

use std::alloc::{AllocError, Global};

/// How a cell is shaded, by the most that its client has.
#[derive(Clone, Copy)]
pub enum Shade {
    /// A ticket that waits.
    Waits,
    /// A ticket whose connect is tried again later.
    BacksOff,
    /// A connection.
    Has,
    /// A connection with a level.
    InLevel,
}

/// What a client has: a text, and its shade.
#[derive(Drop)]
pub struct Cell {
    /// Whose it is.
    pub client: u32,
    /// What it has, in words.
    pub text: String,
    /// The shade.
    pub shade: Shade,
}

impl Cell {
    /// An empty cell of the client.
    pub fn new(alloc: Global, client: u32) -> Cell {
        Cell {
            client,
            text: String::new(alloc),
            shade: Shade::Waits,
        }
    }

    /// Adds a ticket, which waits or backs off.
    pub fn add_ticket(&mut self, backs_off: bool) -> Result<(), AllocError> {
        if backs_off {
            self.shade = Shade::BacksOff;
            self.say("backs off")
        } else {
            self.say("waits")
        }
    }

    /// Adds a connection with so many levels.
    pub fn add_loan(
        &mut self,
        alloc: Global,
        connection: u64,
        depth: u64,
    ) -> Result<(), AllocError> {
        let text = match depth {
            0 => format!(in alloc; "has {connection}"),
            1 => format!(in alloc; "has {connection} with a level"),
            _ => format!(in alloc; "has {connection} with {depth} levels"),
        };
        self.shade = if depth > 0 {
            Shade::InLevel
        } else {
            self.at_least_has()
        };
        let text = text?;
        self.say(text.as_str())
    }

    fn at_least_has(&self) -> Shade {
        match self.shade {
            Shade::InLevel => Shade::InLevel,
            _ => Shade::Has,
        }
    }

    fn say(&mut self, text: &str) -> Result<(), AllocError> {
        if !self.text.is_empty() {
            self.text.push_str(", ")?;
        }
        self.text.push_str(text)
    }
}
