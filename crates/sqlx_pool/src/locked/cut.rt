//! Cutting the log.

ghost use Rattle.std.specs.Prelude.{◌≡◌, ◌+◌, ◌≤◌, ℕ, true, false, None, length, if◌then◌else◌};
ghost use Rattle.sqlx_pool_marks.specs.Cut.{cut_of};
ghost use Rattle.sqlx_pool_parts.specs.LogStart.{is_long};
ghost use Rattle.sqlx_pool_parts.specs.State.{IsWithinLimit};

use super::Locked;
use crate::{Loans, LogStart};
use sqlx_text::Depth;
use std::sync::ledger::Ledger;

impl<C: Depth, O, H: Ledger, L: Loans> Locked<C, O, H, L> {
    /// The marks that later ones still look at become the start of the log. It takes no memory.
    #[cold]
    #[inline(never)]
    pub fn cut(&mut self)
        requires { L.cuts ≡ true }
        ensures marks { self.new.marks ≡ cut_of self.old.marks }
        ensures start { self.new.start.len ≡ length (cut_of self.old.marks) }
        ensures limit { self.new.start.limit ≡ self.old.start.limit }
        ensures core { self.new.core ≡ self.old.core }
        ensures connect { self.new.connect ≡ self.old.connect }
        ensures booked { self.new.booked ≡ self.old.booked }
    {
        let numbers = self.core.numbers();
        self.log.cut(numbers.next_ticket, numbers.next_conn);
        let lent = self.log.lents() as u64;
        self.start = LogStart {
            len: self.log.len(),
            lent_before: self.books.made() - lent,
            limit: self.start.limit,
        };
    }

    /// Cuts the log where a limit is set, and behind the start there are at least as many marks as that, and as the
    /// start has, and tells whether it did. Where none is set nothing changes.
    pub fn cut_if_long(&mut self) -> bool
        ensures told { result ≡ is_long self.old.start (length self.old.marks) }
        ensures same { result ≡ false → self.new ≡ self.old }
        ensures marks { self.new.marks ≡ (if is_long self.old.start (length self.old.marks) then cut_of self.old.marks else self.old.marks) }
        ensures within { IsWithinLimit self.new }
        ensures unset { self.old.start.limit ≡ None → self.new ≡ self.old }
        ensures limit { self.new.start.limit ≡ self.old.start.limit }
        ensures core { self.new.core ≡ self.old.core }
        ensures connect { self.new.connect ≡ self.old.connect }
        ensures booked { self.new.booked ≡ self.old.booked }
    {
        let long = self.start.is_long(self.log.len());
        if long {
            self.cut();
        }
        long
    }

    /// Sets by how many marks behind its start the log is one to be cut.
    pub fn set_log_limit(&mut self, limit: Option<usize>)
        requires { L.cuts ≡ true }
        ensures { self.new ≡ record self.old { start = record self.old.start { limit = limit } } }
    {
        self.start.limit = limit;
    }
}
