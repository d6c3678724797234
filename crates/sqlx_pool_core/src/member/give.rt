//! The steps that end a loan: giving a connection back, ending, detaching and leaking it.

ghost use Rattle.std.specs.Prelude.{◌≡◌, ℕ, ◌+◌, ◌-◌, ◌<◌, ◌≤◌, List, Option, Some, None, IfSome, is_some, ◌||◌, true, false};
ghost use Rattle.sqlx_pool_marks.specs.declared.mark.Mark.{Mark};
ghost use Rattle.sqlx_pool_marks.specs.EventTable.{is_too_old, closes};
ghost use Rattle.sqlx_pool_lists.specs.Limits.{limits_of};
ghost use Rattle.sqlx_pool_lists.specs.Core.{loan_of};
ghost use Rattle.sqlx_pool_lists.specs.Sound.{IsSound};
ghost use Rattle.sqlx_pool_lists.specs.StandsFor.{StandsIn};
ghost use Rattle.sqlx_pool_lists.specs.Makes.{MakesIn};
ghost use Rattle.sqlx_pool_core.specs.Numbers.{Draws, Stays};
ghost use Rattle.sqlx_pool_lists.specs.Balance.{Balance, given_back, one_if};
ghost use Rattle.sqlx_pool_core.specs.ReturnSteps.{give_answer, give_marks, core_after_give, end_marks, detach_marks, leak_marks, released, leaked, rested};
ghost use Rattle.sqlx_pool_lists.specs.PollSteps.{lent_since};
ghost use Rattle.sqlx_pool_lists.specs.Edits.{at_moment, core_without_loan, kept};

use super::Member;
use sqlx_pool_lists::{Given, Lent, OwnedConn, beyond};
use sqlx_text::Moment;

impl<C> Member<C> {
    /// A connection of this opening is too old at the moment.
    pub fn too_old(&self, created: Moment, moment: Moment) -> bool
        ensures { result ≡ is_too_old (limits_of self.now.options) created.0 moment.0 }
    {
        let age = moment.0.saturating_sub(created.0);
        beyond(self.options.get_max_lifetime(), age)
    }

    /// A connection of this opening is closed rather than kept at the moment.
    pub fn closes(&self, created: Moment, moment: Moment) -> bool
        ensures { result ≡ closes (limits_of self.now.options) self.now.closed created.0 moment.0 }
    {
        self.closed || self.too_old(created, moment)
    }

    /// This client's loan of this connection.
    pub fn loan(&self, client: u32, conn: u64) -> Option<OwnedConn>
        ensures found { result ≡ loan_of client conn self.now.held }
        ensures own { IfSome result (λ h. loan_of h.client h.conn self.now.held ≡ Some h) }
        ensures conn { IfSome result (λ h. h.conn ≡ conn) }
        ensures sound { IsSound self.now }
    {
        self.held.loan_for(client, conn)
    }

    /// Gives a connection back at a moment.
    pub fn give(&mut self, client: u32, lent: Lent<C>, moment: Moment, accepted: bool) -> Given<C>
        ensures answer { result ≡ give_answer self.old.options self.old.closed moment.0 accepted (loan_of client lent.id self.old.held) lent }
        ensures makes { (marks : List Mark) → StandsIn self.old marks → MakesIn self.old.options.max_connections marks (give_marks lent.id moment.0 result) self.new }
        ensures stays { Stays self.old self.new }
        ensures draws { Draws self.old self.new (give_marks lent.id moment.0 result) }
        ensures balance { Balance self.old self.new (give_marks lent.id moment.0 result) (given_back result) 0 }
        ensures becomes { self.new ≡ core_after_give (loan_of client lent.id self.old.held) lent moment.0 result self.old }
    {
        self.take_back(client, lent, moment, accepted)
    }

    // Takes a connection back at a moment.
    fn take_back(&mut self, client: u32, lent: Lent<C>, moment: Moment, accepted: bool) -> Given<C>
        ensures answer { result ≡ give_answer self.old.options self.old.closed moment.0 accepted (loan_of client lent.id self.old.held) lent }
        ensures becomes { self.new ≡ core_after_give (loan_of client lent.id self.old.held) lent moment.0 result self.old }
        ensures sound { IsSound self.old }
    {
        let Some(loan) = self.held.take(client, lent.id) else {
            return Given::NotHeld(lent.raw);
        };
        self.last = moment;
        if !accepted || self.closes(loan.created, moment) {
            return Given::Closed(lent.raw);
        }
        let lent = Lent {
            created: loan.created,
            ..lent
        };
        self.idle.push(lent, moment);
        Given::Kept
    }

    // Ends a loan of this client's.
    #[inline(never)]
    fn release(&mut self, client: u32, id: u64) -> bool
        ensures answer { result ≡ is_some (loan_of client id self.old.held) }
        ensures becomes { self.new ≡ released id result self.old }
        ensures sound { IsSound self.old }
    {
        self.held.take(client, id).is_some()
    }

    /// Ends the loan of a connection, which the caller closes.
    pub fn end(&mut self, client: u32, id: u64) -> bool
        ensures answer { result ≡ is_some (loan_of client id self.old.held) }
        ensures makes { (marks : List Mark) → StandsIn self.old marks → MakesIn self.old.options.max_connections marks (end_marks id result) self.new }
        ensures stays { Stays self.old self.new }
        ensures draws { Draws self.old self.new (end_marks id result) }
        ensures balance { Balance self.old self.new (end_marks id result) (one_if result) 0 }
        ensures becomes { self.new ≡ released id result self.old }
    {
        self.release(client, id)
    }

    /// Takes a connection out of the pool: its place and its permit are free again.
    pub fn detach(&mut self, client: u32, id: u64) -> bool
        ensures answer { result ≡ is_some (loan_of client id self.old.held) }
        ensures makes { (marks : List Mark) → StandsIn self.old marks → MakesIn self.old.options.max_connections marks (detach_marks id result) self.new }
        ensures stays { Stays self.old self.new }
        ensures draws { Draws self.old self.new (detach_marks id result) }
        ensures balance { Balance self.old self.new (detach_marks id result) (one_if result) 0 }
        ensures becomes { self.new ≡ released id result self.old }
    {
        self.release(client, id)
    }

    // Takes a connection of this client's out of the pool for good.
    #[inline(never)]
    fn lose(&mut self, client: u32, id: u64) -> bool
        ensures answer { result ≡ is_some (loan_of client id self.old.held) }
        ensures becomes { self.new ≡ leaked id result self.old }
        ensures sound { IsSound self.old }
    {
        let held = self.held.take(client, id).is_some();
        if held {
            self.leaked += 1;
        }
        held
    }

    /// Takes a connection out of the pool, which keeps its place and its permit for good.
    pub fn leak(&mut self, client: u32, id: u64) -> bool
        ensures answer { result ≡ is_some (loan_of client id self.old.held) }
        ensures makes { (marks : List Mark) → StandsIn self.old marks → MakesIn self.old.options.max_connections marks (leak_marks id result) self.new }
        ensures stays { Stays self.old self.new }
        ensures draws { Draws self.old self.new (leak_marks id result) }
        ensures balance { Balance self.old self.new (leak_marks id result) (one_if result) 0 }
        ensures becomes { self.new ≡ leaked id result self.old }
    {
        self.lose(client, id)
    }
}
