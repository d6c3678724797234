//! The steps that end a loan: giving a connection back, ending, detaching and leaking it.

ghost use Rattle.std.specs.Prelude.{◌≡◌, ◌<◌, ℕ, max, List, Option, is_some};
ghost use Rattle.std.specs.List.{list_any};
ghost use Rattle.sqlx_pool_marks.specs.declared.mark.Mark.{Mark};
ghost use Rattle.sqlx_pool_marks.specs.Marks.{owner_of, is_shut};
ghost use Rattle.sqlx_pool_marks.specs.Answers.{owns, is_kept_at};
ghost use Rattle.sqlx_pool_marks.specs.EventTable.{closes};
ghost use Rattle.sqlx_pool_core.specs.Logs.{Logs, moment_of};
ghost use Rattle.sqlx_pool_core.specs.Answers.{IsGivenAt};
ghost use Rattle.sqlx_pool_lists.specs.Limits.{limits_of};
ghost use Rattle.sqlx_pool_lists.specs.Core.{loan_of};
ghost use Rattle.sqlx_pool_lists.specs.Balance.{Balance, given_back, one_if};
ghost use Rattle.sqlx_pool_lists.specs.Sound.{IsSound};
ghost use Rattle.sqlx_pool_lists.specs.StandsFor.{StandsFor};
ghost use Rattle.sqlx_pool_core.specs.ReturnSteps.{give_answer, give_marks, core_after_give, end_marks, detach_marks, leak_marks, released, leaked};
ghost use Rattle.sqlx_pool_core.specs.KeptLine.{Looks};
ghost use Rattle.sqlx_pool_core.specs.LonePool.{EdgeTells, KeepsEntitled, LeavesEdge};

use super::{PoolCore, line};
use sqlx_pool_lists::{Given, Lent, OwnedConn};
use sqlx_pool_places::Steps;
use sqlx_text::Moment;
use std::marker::Brand;
use std::sync::ledger::{Blank, Ledger};

impl<C> PoolCore<C> {
    /// Whether a connection of this opening would be closed rather than kept: the pool is closed, or the
    /// connection's age is above the lifetime.
    pub fn must_close(&self, created: Moment, now: Moment) -> bool
        ensures marks { (marks : List Mark) → StandsFor self.now.pool marks → result ≡ closes (limits_of self.now.pool.options) (list_any is_shut marks) created.0 (moment_of self.now.pool now) }
        ensures own { result ≡ closes (limits_of self.now.pool.options) self.now.pool.shut created.0 (moment_of self.now.pool now) }
    {
        let moment = self.pool.moment(now);
        self.pool.closes(created, moment)
    }

    // This client's loan of this connection.
    pub(super) fn loan(&self, client: u32, conn: u64) -> Option<OwnedConn>
        ensures found { result ≡ loan_of client conn self.now.pool.held }
        ensures sound { IsSound self.now.pool }
        ensures tells { EdgeTells self.now }
    {
        self.pool.sound();
        self.pool.loan(client, conn)
    }

    /// Gives a connection back: it is put last among the idle where the caller's checks accepted it, the pool is
    /// open and its age isn't above the lifetime; else the caller closes what comes back. The moment of opening is
    /// the one that the pool keeps, whatever `lent.created` says. In sqlx: `PoolConnection::return_to_pool`.
    pub fn give(&mut self, client: u32, lent: Lent<C>, now: Moment, accepted: bool) -> Given<C>
        ensures marks { (marks : List Mark) → StandsFor self.old.pool marks → IsGivenAt self.old.pool.options marks client lent.id (moment_of self.old.pool now) accepted result }
        ensures answer { result ≡ give_answer self.old.pool.options self.old.pool.shut (moment_of self.old.pool now) accepted (loan_of client lent.id self.old.pool.held) lent }
        ensures makes { Logs self.old.pool (give_marks lent.id (moment_of self.old.pool now) result) self.new.pool }
        ensures balance { Balance self.old.pool self.new.pool (give_marks lent.id (moment_of self.old.pool now) result) (given_back result) 0 }
        ensures becomes { self.new.pool ≡ core_after_give (loan_of client lent.id self.old.pool.held) lent (moment_of self.old.pool now) result self.old.pool }
        ensures edge { KeepsEntitled self.old self.new }
    {
        self.uncounted_give::<Brand>(client, lent, now, accepted, Blank::new(1))
    }

    // The same with a counter of its own.
    fn uncounted_give<L: Ledger>(
        &mut self,
        client: u32,
        lent: Lent<C>,
        now: Moment,
        accepted: bool,
        blank: Blank,
    ) -> Given<C>
        requires named { blank.name ≡ L.name }
        requires whole { blank.parts ≡ L.parts }
        requires some { 0 < blank.parts }
        ensures marks { (marks : List Mark) → StandsFor self.old.pool marks → IsGivenAt self.old.pool.options marks client lent.id (moment_of self.old.pool now) accepted result }
        ensures answer { result ≡ give_answer self.old.pool.options self.old.pool.shut (moment_of self.old.pool now) accepted (loan_of client lent.id self.old.pool.held) lent }
        ensures makes { Logs self.old.pool (give_marks lent.id (moment_of self.old.pool now) result) self.new.pool }
        ensures balance { Balance self.old.pool self.new.pool (give_marks lent.id (moment_of self.old.pool now) result) (given_back result) 0 }
        ensures becomes { self.new.pool ≡ core_after_give (loan_of client lent.id self.old.pool.held) lent (moment_of self.old.pool now) result self.old.pool }
        ensures edge { KeepsEntitled self.old self.new }
    {
        let mut steps = Steps::<L>::new(blank);
        self.give_counted(client, lent, now, accepted, &mut steps)
    }

    /// The same; each look at the line is a step.
    pub fn give_counted<L: Ledger>(
        &mut self,
        client: u32,
        lent: Lent<C>,
        now: Moment,
        accepted: bool,
        steps: &mut Steps<L>,
    ) -> Given<C>
        ensures marks { (marks : List Mark) → StandsFor self.old.pool marks → IsGivenAt self.old.pool.options marks client lent.id (moment_of self.old.pool now) accepted result }
        ensures answer { result ≡ give_answer self.old.pool.options self.old.pool.shut (moment_of self.old.pool now) accepted (loan_of client lent.id self.old.pool.held) lent }
        ensures makes { Logs self.old.pool (give_marks lent.id (moment_of self.old.pool now) result) self.new.pool }
        ensures balance { Balance self.old.pool self.new.pool (give_marks lent.id (moment_of self.old.pool now) result) (given_back result) 0 }
        ensures becomes { self.new.pool ≡ core_after_give (loan_of client lent.id self.old.pool.held) lent (moment_of self.old.pool now) result self.old.pool }
        ensures cost { Looks self.old self.new steps.old steps.new }
    {
        let moment = self.pool.moment(now);
        self.pool.sound();
        let given = self.pool.give(client, lent, moment, accepted);
        self.pool.sound();
        line::serve(&self.pool, &mut self.line, steps);
        given
    }

    /// Ends the loan of a connection, which the caller closes. False, and nothing changes, where the client
    /// doesn't own it.
    pub fn end(&mut self, client: u32, id: u64) -> bool
        ensures marks { (marks : List Mark) → StandsFor self.old.pool marks → result ≡ owns client (owner_of id marks) }
        ensures answer { result ≡ is_some (loan_of client id self.old.pool.held) }
        ensures makes { Logs self.old.pool (end_marks id result) self.new.pool }
        ensures balance { Balance self.old.pool self.new.pool (end_marks id result) (one_if result) 0 }
        ensures becomes { self.new.pool ≡ released id result self.old.pool }
        ensures edge { KeepsEntitled self.old self.new }
    {
        self.uncounted_end::<Brand>(client, id, Blank::new(1))
    }

    // The same with a counter of its own.
    fn uncounted_end<L: Ledger>(&mut self, client: u32, id: u64, blank: Blank) -> bool
        requires named { blank.name ≡ L.name }
        requires whole { blank.parts ≡ L.parts }
        requires some { 0 < blank.parts }
        ensures marks { (marks : List Mark) → StandsFor self.old.pool marks → result ≡ owns client (owner_of id marks) }
        ensures answer { result ≡ is_some (loan_of client id self.old.pool.held) }
        ensures makes { Logs self.old.pool (end_marks id result) self.new.pool }
        ensures balance { Balance self.old.pool self.new.pool (end_marks id result) (one_if result) 0 }
        ensures becomes { self.new.pool ≡ released id result self.old.pool }
        ensures edge { KeepsEntitled self.old self.new }
    {
        let mut steps = Steps::<L>::new(blank);
        self.end_counted(client, id, &mut steps)
    }

    /// The same; each look at the line is a step.
    pub fn end_counted<L: Ledger>(&mut self, client: u32, id: u64, steps: &mut Steps<L>) -> bool
        ensures marks { (marks : List Mark) → StandsFor self.old.pool marks → result ≡ owns client (owner_of id marks) }
        ensures answer { result ≡ is_some (loan_of client id self.old.pool.held) }
        ensures makes { Logs self.old.pool (end_marks id result) self.new.pool }
        ensures balance { Balance self.old.pool self.new.pool (end_marks id result) (one_if result) 0 }
        ensures becomes { self.new.pool ≡ released id result self.old.pool }
        ensures cost { Looks self.old self.new steps.old steps.new }
    {
        self.pool.sound();
        let held = self.pool.end(client, id);
        self.pool.sound();
        line::serve(&self.pool, &mut self.line, steps);
        held
    }

    /// Takes a connection out of the pool: its place and its permit are free again. False, and nothing changes,
    /// where the client doesn't own it.
    pub fn detach(&mut self, client: u32, id: u64) -> bool
        ensures marks { (marks : List Mark) → StandsFor self.old.pool marks → result ≡ owns client (owner_of id marks) }
        ensures answer { result ≡ is_some (loan_of client id self.old.pool.held) }
        ensures makes { Logs self.old.pool (detach_marks id result) self.new.pool }
        ensures balance { Balance self.old.pool self.new.pool (detach_marks id result) (one_if result) 0 }
        ensures becomes { self.new.pool ≡ released id result self.old.pool }
        ensures edge { KeepsEntitled self.old self.new }
    {
        self.uncounted_detach::<Brand>(client, id, Blank::new(1))
    }

    // The same with a counter of its own.
    fn uncounted_detach<L: Ledger>(&mut self, client: u32, id: u64, blank: Blank) -> bool
        requires named { blank.name ≡ L.name }
        requires whole { blank.parts ≡ L.parts }
        requires some { 0 < blank.parts }
        ensures marks { (marks : List Mark) → StandsFor self.old.pool marks → result ≡ owns client (owner_of id marks) }
        ensures answer { result ≡ is_some (loan_of client id self.old.pool.held) }
        ensures makes { Logs self.old.pool (detach_marks id result) self.new.pool }
        ensures balance { Balance self.old.pool self.new.pool (detach_marks id result) (one_if result) 0 }
        ensures becomes { self.new.pool ≡ released id result self.old.pool }
        ensures edge { KeepsEntitled self.old self.new }
    {
        let mut steps = Steps::<L>::new(blank);
        self.detach_counted(client, id, &mut steps)
    }

    /// The same; each look at the line is a step.
    pub fn detach_counted<L: Ledger>(&mut self, client: u32, id: u64, steps: &mut Steps<L>) -> bool
        ensures marks { (marks : List Mark) → StandsFor self.old.pool marks → result ≡ owns client (owner_of id marks) }
        ensures answer { result ≡ is_some (loan_of client id self.old.pool.held) }
        ensures makes { Logs self.old.pool (detach_marks id result) self.new.pool }
        ensures balance { Balance self.old.pool self.new.pool (detach_marks id result) (one_if result) 0 }
        ensures becomes { self.new.pool ≡ released id result self.old.pool }
        ensures cost { Looks self.old self.new steps.old steps.new }
    {
        self.pool.sound();
        let held = self.pool.detach(client, id);
        self.pool.sound();
        line::serve(&self.pool, &mut self.line, steps);
        held
    }

    /// Takes a connection out of the pool, which keeps its place and its permit for good. False, and nothing
    /// changes, where the client doesn't own it.
    pub fn leak(&mut self, client: u32, id: u64) -> bool
        ensures marks { (marks : List Mark) → StandsFor self.old.pool marks → result ≡ owns client (owner_of id marks) }
        ensures answer { result ≡ is_some (loan_of client id self.old.pool.held) }
        ensures makes { Logs self.old.pool (leak_marks id result) self.new.pool }
        ensures balance { Balance self.old.pool self.new.pool (leak_marks id result) (one_if result) 0 }
        ensures becomes { self.new.pool ≡ leaked id result self.old.pool }
        ensures edge { LeavesEdge self.old self.new }
    {
        self.pool.sound();
        let held = self.pool.leak(client, id);
        self.pool.sound();
        held
    }
}
