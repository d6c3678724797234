//! The steps that end a loan. Each takes the share of the connection, and hands it back where nothing ended.

ghost use Rattle.std.specs.Prelude.{◌≡◌, ℕ, ◌+◌, ◌++◌, true, false, not, is_some};
ghost use Rattle.sqlx_pool_marks.specs.Marks.{owner_of};
ghost use Rattle.sqlx_pool_marks.specs.Answers.{owns, is_kept_at};
ghost use Rattle.sqlx_pool_core.specs.Answers.{is_kept, is_held};
ghost use Rattle.sqlx_pool_lists.specs.Core.{loan_of};
ghost use Rattle.sqlx_pool_lists.specs.Limits.{limits_of};
ghost use Rattle.sqlx_pool_core.specs.Logs.{moment_of};
ghost use Rattle.sqlx_pool_core.specs.ReturnSteps.{give_answer, give_marks, core_after_give, end_marks, detach_marks, leak_marks, released, leaked};

use super::Locked;
use crate::{Held, Loans};
use sqlx_pool_core::{Given, Lent, Mark};
use sqlx_pool_parts::answers::is_held;
use sqlx_pool_parts::record;
use sqlx_text::{Depth, Moment};
use std::sync::ledger::Ledger;

impl<C: Depth, O, H: Ledger, L: Loans> Locked<C, O, H, L> {
    /// Gives a connection back; one that is accepted has no level open. It is kept where the caller's checks accepted it,
    /// the pool is open and its age isn't above the lifetime; else the caller closes what comes back.
    pub fn give(
        &mut self,
        client: u32,
        lent: Lent<C>,
        now: Moment,
        accepted: bool,
        held: Held<H>,
    ) -> (Given<C>, Option<Held<H>>)
        requires flat { accepted ≡ true → C.levels lent.raw ≡ 0 }
        ensures kept { is_kept result.0 ≡ is_kept_at (limits_of self.old.core.options) self.old.marks client lent.id (moment_of self.old.core now) accepted }
        ensures owned { is_held result.0 ≡ owns client (owner_of lent.id self.old.marks) }
        ensures refused { accepted ≡ false → is_kept result.0 ≡ false }
        ensures answer { result.0 ≡ give_answer self.old.core.options self.old.core.shut (moment_of self.old.core now) accepted (loan_of client lent.id self.old.core.held) lent }
        ensures marks { self.new.marks ≡ self.old.marks ++ give_marks lent.id (moment_of self.old.core now) result.0 }
        ensures becomes { self.new.core ≡ core_after_give (loan_of client lent.id self.old.core.held) lent (moment_of self.old.core now) result.0 self.old.core }
        ensures connect { self.new.connect ≡ self.old.connect }
        ensures held { is_some result.1 ≡ not (is_held result.0) }
    {
        let conn = lent.id;
        let moment = self.core.moment(now);
        let given = self.core.give(client, lent, now, accepted);
        record::give(&mut self.log, conn, moment.0, &given);
        let left = self.books.take_back_if(is_held(&given), held);
        (given, left)
    }

    /// Ends the loan of a connection, which the caller closes. False, and nothing changes, where the client doesn't own
    /// it.
    pub fn end(&mut self, client: u32, id: u64, held: Held<H>) -> (bool, Option<Held<H>>)
        ensures answer { result.0 ≡ owns client (owner_of id self.old.marks) }
        ensures marks { self.new.marks ≡ self.old.marks ++ end_marks id result.0 }
        ensures becomes { self.new.core ≡ released id result.0 self.old.core }
        ensures connect { self.new.connect ≡ self.old.connect }
        ensures held { is_some result.1 ≡ not result.0 }
    {
        let ends = self.core.end(client, id);
        record::if_so(&mut self.log, ends, Mark::Closed { conn: id });
        (ends, self.books.take_back_if(ends, held))
    }

    /// Takes a connection out of the pool: its place and its permit are free again. False, and nothing changes, where the
    /// client doesn't own it.
    pub fn detach(&mut self, client: u32, id: u64, held: Held<H>) -> (bool, Option<Held<H>>)
        ensures answer { result.0 ≡ owns client (owner_of id self.old.marks) }
        ensures marks { self.new.marks ≡ self.old.marks ++ detach_marks id result.0 }
        ensures becomes { self.new.core ≡ released id result.0 self.old.core }
        ensures connect { self.new.connect ≡ self.old.connect }
        ensures held { is_some result.1 ≡ not result.0 }
    {
        let ends = self.core.detach(client, id);
        record::if_so(&mut self.log, ends, Mark::Detached { conn: id });
        (ends, self.books.take_back_if(ends, held))
    }

    /// Takes a connection out of the pool, which keeps its place and its permit for good. False, and nothing changes,
    /// where the client doesn't own it.
    pub fn leak(&mut self, client: u32, id: u64, held: Held<H>) -> (bool, Option<Held<H>>)
        ensures answer { result.0 ≡ owns client (owner_of id self.old.marks) }
        ensures marks { self.new.marks ≡ self.old.marks ++ leak_marks id result.0 }
        ensures becomes { self.new.core ≡ leaked id result.0 self.old.core }
        ensures connect { self.new.connect ≡ self.old.connect }
        ensures held { is_some result.1 ≡ not result.0 }
    {
        let ends = self.core.leak(client, id);
        record::if_so(&mut self.log, ends, Mark::Leaked { conn: id });
        (ends, self.books.take_back_if(ends, held))
    }
}
