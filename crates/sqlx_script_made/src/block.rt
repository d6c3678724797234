//! A block of seven lines: what it works on, and what is drawn from its number.
ghost use Rattle.std.specs.Prelude.{◌≡◌, ◌-◌, ◌<◌, ◌^◌};
ghost use Rattle.sqlx_script_made.specs.Blocks as spec;

/// A block: the ticket that its client gets, the number drawn for it, and the connection that it works on.
#[derive(Clone, Copy)]
pub struct Block {
    pub ticket: u32,
    pub drawn: u32,
    pub connection: u32,
}

// The number drawn after this one.
#[tactic(auto, unfolding(crate::specs::Blocks::next_drawn))]
fn next_drawn(drawn: u32) -> u32
    ensures { result ≡ spec.next_drawn drawn }
{
    ((1_103_515_245 * u64::from(drawn) + 12_345) % 2_147_483_648) as u32
}

impl Block {
    /// The first block of a seed.
    pub fn first(seed: u32) -> Self
        ensures { result ≡ spec.first_block seed }
    {
        Block {
            ticket: 1,
            drawn: next_drawn(seed),
            connection: 1,
        }
    }

    /// The block behind this one.
    pub fn next(self) -> Self
        requires ticket { self.ticket < 2 ^ 32 - 1 }
        requires connection { self.connection < 2 ^ 32 - 1 }
        ensures { result ≡ spec.block_after self }
    {
        Block {
            ticket: self.ticket + 1,
            drawn: next_drawn(self.drawn),
            connection: if self.closes() {
                self.connection + 1
            } else {
                self.connection
            },
        }
    }

    // The upper part of the number, from which the block is made.
    fn upper(self) -> u32
        ensures { result ≡ spec.upper self }
    {
        self.drawn / 65_536
    }

    /// The client, from 1 to 4.
    pub fn client(self) -> u32
        ensures { result ≡ spec.client self }
    {
        1 + self.upper() % 4
    }

    /// The key that is written and read, below 1,000.
    pub fn key(self) -> u32
        ensures { result ≡ spec.key self }
    {
        self.upper() % 1000
    }

    /// The word that ends the level.
    pub fn end_word(self) -> &'static str
        ensures { result.now ≡ spec.end_word self }
    {
        if self.upper() / 4 % 2 == 0 {
            "commit"
        } else {
            "rollback"
        }
    }

    // Whether the connection is closed when it is given back.
    fn closes(self) -> bool
        ensures { result ≡ spec.closes self }
    {
        self.upper() / 8 % 4 == 0
    }

    /// The answers to the giving back.
    pub fn give_word(self) -> &'static str
        ensures { result.now ≡ spec.give_word self }
    {
        if self.closes() { "+-" } else { "++" }
    }
}
