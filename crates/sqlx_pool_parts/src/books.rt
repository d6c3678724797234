//! The two books of a pool: how many connections are held, and how many loans were made.
ghost use Rattle.std.specs.Prelude.{◌≡◌, ℕ, ◌+◌, ◌^◌, ◌<◌, ◌≤◌, false, is_some, not, true};
ghost use Rattle.sqlx_pool_lists.specs.Balance.{one_if};
ghost use Rattle.sqlx_pool_parts.specs.Booked.{Booked, Tallied, CountsIf};

use crate::{Held, Loans, Tally};
use std::marker::Model;
use std::sync::ledger::{Blank, Book, Ledger, Share};

// A loan past the line is made only while fewer loans than these were made.
const LOANS: u64 = 1 << 62;

// The book of the connections that are held, with the parts of its ledger that are not out, and the book of the loans
// with its number.
pub struct Books<H: Ledger, L: Loans> {
    held: Book<H>,
    rest: Share<H>,
    loans: Book<L>,
    made: u64,
}

impl<H: Ledger, L: Loans> Drop for Books<H, L> {
    fn drop(self) {
        let Books {
            held,
            rest,
            loans,
            made: _,
        } = self;
        drop(held);
        drop(rest);
        drop(loans);
    }
}

impl<H: Ledger, L: Loans> Model for Books<H, L> {
    ghost use Rattle.std.specs.Prelude.{◌≡◌, ◌+◌, ◌^◌};
    ghost use Rattle.sqlx_pool_parts.specs.Booked.{Booked};

    ghost Value = { Booked };

    ghost view = { λ b. record { owned = b.held.total; made = b.loans.total } };

    ghost invariant = { λ b. (b.rest.amount ≡ 0) × (b.rest.parts + b.held.total ≡ 2 ^ 32) × (b.loans.total ≡ b.made) };
}

impl<H: Ledger, L: Loans> Books<H, L> {
    // Empty books, and the tally with every part.
    pub fn new(held: Blank, loans: Blank) -> (Self, Tally<L>)
        requires held { (held.name ≡ H.name) × (held.parts ≡ H.parts) × (held.parts ≡ 2 ^ 32) }
        requires loans { (loans.name ≡ L.name) × (loans.parts ≡ L.parts) × (1 ≤ loans.parts) }
        ensures books { result.0 ≡ record { owned = 0; made = 0 } }
        ensures tally { result.1 ≡ record { parts = L.parts; loans = 0 } }
    {
        let (held, rest) = held.open::<H>();
        let (loans, all) = loans.open::<L>();
        let books = Books {
            held,
            rest,
            loans,
            made: 0,
        };
        (books, Tally::new(all))
    }

    // How many loans were made.
    pub fn made(&self) -> u64
        ensures { result ≡ self.now.made }
    {
        self.made
    }

    // As many loans were made as are numbered: none is made past the line any more.
    pub fn is_full(&self) -> bool
        ensures full { result ≡ true → 2 ^ 62 ≤ self.now.made }
        ensures few { result ≡ false → self.now.made < 2 ^ 62 }
    {
        self.made >= LOANS
    }

    // The tally with every part has counted all loans that were made.
    pub fn audit(&mut self, all: &mut Tally<L>)
        requires { all.old.parts ≡ L.parts }
        ensures counted { self.old.made ≡ all.old.loans }
        ensures owned { self.new.owned ≡ self.old.owned }
        ensures made { self.new.made ≡ self.old.made }
        ensures same { all.new ≡ all.old }
    {
        all.audit(&mut self.loans);
    }

    // A connection is lent: its share goes out, and the tally counts the loan.
    pub fn lend(&mut self, tally: &mut Tally<L>) -> Held<H>
        requires few { self.old.made + 1 < 2 ^ 64 }
        requires part { self.old.owned < 2 ^ 32 }
        ensures owned { self.new.owned ≡ self.old.owned + 1 }
        ensures made { self.new.made ≡ self.old.made + 1 }
        ensures tally { CountsIf true tally.old tally.new }
    {
        tally.count(&mut self.loans);
        self.made += 1;
        self.held.add(&mut self.rest, 1);
        Held::new(self.rest.split_off(1, 1))
    }

    // A connection is lent, or none.
    pub fn lend_if(&mut self, lends: bool, tally: &mut Tally<L>) -> Option<Held<H>>
        requires few { self.old.made + 1 < 2 ^ 64 }
        requires part { self.old.owned < 2 ^ 32 }
        ensures owned { self.new.owned ≡ self.old.owned + one_if lends }
        ensures made { self.new.made ≡ self.old.made + one_if lends }
        ensures tally { CountsIf lends tally.old tally.new }
        ensures held { is_some result ≡ lends }
    {
        if lends { Some(self.lend(tally)) } else { None }
    }

    // A loan ended: its share comes back.
    fn take_back(&mut self, held: Held<H>)
        ensures owned { self.new.owned + 1 ≡ self.old.owned }
        ensures made { self.new.made ≡ self.old.made }
    {
        self.rest.merge(held.into_share());
        self.held.sub(&mut self.rest, 1);
    }

    // A loan ended, or the share of one that is still out is handed back.
    pub fn take_back_if(&mut self, ends: bool, held: Held<H>) -> Option<Held<H>>
        ensures owned { self.new.owned + one_if ends ≡ self.old.owned }
        ensures made { self.new.made ≡ self.old.made }
        ensures held { is_some result ≡ not ends }
    {
        if ends {
            self.take_back(held);
            None
        } else {
            Some(held)
        }
    }
}
