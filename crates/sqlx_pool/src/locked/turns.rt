//! Whose turn it is.

ghost use Rattle.std.specs.Prelude.{◌≡◌, length, IfSome};
ghost use Rattle.sqlx_pool_marks.specs.Marks.{tickets_of};
ghost use Rattle.sqlx_pool.specs.Upkeep.{AreEntitledTo};

use super::Locked;
use crate::Loans;
use sqlx_text::Depth;
use std::sync::ledger::Ledger;

impl<C: Depth, O, H: Ledger, L: Loans> Locked<C, O, H, L> {
    /// The ticket that became entitled since this was asked last; the last one, where several did. A step entitles one
    /// ticket at most.
    pub fn entitled(&mut self) -> Option<u64>
        ensures turn { IfSome result (λ last. AreEntitledTo last self.old.core) }
        ensures same { self.new ≡ self.old }
    {
        let edge = self.core.edge();
        if edge == self.edge {
            return None;
        }
        self.edge = edge;
        if edge == 0 { None } else { Some(edge - 1) }
    }

    /// How many tickets haven't ended.
    pub fn num_tickets(&self) -> usize
        ensures { result ≡ length (tickets_of self.now.marks) }
    {
        self.core.num_tickets()
    }
}
