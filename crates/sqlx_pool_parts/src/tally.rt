//! The tokens of a pool that stand outside its lock: a share for each connection that is held, and tallies of the loans
//! that were made. They take no memory but a tally's number.
ghost use Rattle.std.specs.Prelude.{◌≡◌, ℕ, ◌+◌, ◌^◌, ◌<◌, ◌≤◌, Bool, true, false};
ghost use Rattle.sqlx_pool_parts.specs.Booked.{Tallied, CountsIf};

use sqlx_pool_history::Naming;
use std::marker::{Brand, Model};
use std::sync::ledger::{Book, Ledger, Share};

/// The ledger of a pool's loans, the history of its states, and what is settled of the pool when it is made.
pub trait Loans: Ledger + Naming {
    /// How many connections the pool has at most.
    ghost max: { ℕ };

    /// Whether its log may be cut.
    ghost cuts: { Bool };
}

impl Loans for Brand {
    ghost max = { 1 };

    ghost cuts = { false };
}

/// A share of one connection in the ledger of those that are held.
#[derive(Drop)]
pub struct Held<H: Ledger> {
    share: Share<H>,
    ghost one_part: { share.parts ≡ 1 },
    ghost one: { share.amount ≡ 1 },
}

impl<H: Ledger> Held<H> {
    // A share of one.
    pub(crate) fn new(share: Share<H>) -> Self
        requires part { share.parts ≡ 1 }
        requires one { share.amount ≡ 1 }
    {
        Held { share }
    }

    // The share of one.
    pub(crate) fn into_share(self) -> Share<H>
        ensures part { result.parts ≡ 1 }
        ensures one { result.amount ≡ 1 }
    {
        let Held { share } = self;
        share
    }
}

/// One part or more of the ledger of a pool's loans, and how many loans were counted in it. The tally with every part has
/// counted all loans of its pool.
#[derive(Drop)]
pub struct Tally<L: Loans> {
    share: Share<L>,
    loans: u64,
}

impl<L: Loans> Model for Tally<L> {
    ghost use Rattle.std.specs.Prelude.{◌≡◌, ◌≤◌};
    ghost use Rattle.sqlx_pool_parts.specs.Booked.{Tallied};

    ghost Value = { Tallied };

    ghost view = { λ t. record { parts = t.share.parts; loans = t.loans } };

    ghost invariant = { λ t. (t.share.amount ≡ t.loans) × (1 ≤ t.share.parts) };
}

impl<L: Loans> Tally<L> {
    // A tally in which no loan was counted.
    pub(crate) fn new(share: Share<L>) -> Self
        requires { (share.amount ≡ 0) × (1 ≤ share.parts) }
        ensures { result ≡ record { parts = share.parts; loans = 0 } }
    {
        Tally { share, loans: 0 }
    }

    // Counts one loan, in the book too.
    pub(crate) fn count(&mut self, book: &mut Book<L>)
        requires { book.old.total + 1 < 2 ^ 64 }
        ensures counted { CountsIf true self.old self.new }
        ensures total { book.new.total ≡ book.old.total + 1 }
    {
        book.audit(&mut self.share);
        book.add(&mut self.share, 1);
        self.loans += 1;
    }

    // With every part, its number is the book's.
    pub(crate) fn audit(&mut self, book: &mut Book<L>)
        requires { self.old.parts ≡ L.parts }
        ensures whole { self.old.loans ≡ book.old.total }
        ensures total { book.new.total ≡ book.old.total }
        ensures same { self.new ≡ self.old }
    {
        book.audit(&mut self.share);
    }

    /// How many loans were counted in it.
    pub fn loans(&self) -> u64
        ensures { result ≡ self.now.loans }
    {
        self.loans
    }

    /// A tally with one part of this one, in which no loan was counted.
    pub fn split(&mut self) -> Self
        requires { 2 ≤ self.old.parts }
        ensures new { result ≡ record { parts = 1; loans = 0 } }
        ensures parts { self.new.parts + 1 ≡ self.old.parts }
        ensures loans { self.new.loans ≡ self.old.loans }
    {
        Tally::new(self.share.split_off(1, 0))
    }

    /// Adds the parts and the loans of another tally.
    pub fn add(&mut self, other: Self)
        requires { self.old.loans + other.loans < 2 ^ 64 }
        ensures { self.new ≡ record { parts = self.old.parts + other.parts; loans = self.old.loans + other.loans } }
    {
        let Tally { share, loans } = other;
        self.share.merge(share);
        self.loans += loans;
    }
}
