//! The steps before and beside a poll: asking, cancelling, and lending past the line.

ghost use Rattle.std.specs.Prelude.{◌≡◌, ℕ, ◌+◌, ◌<◌, ◌≤◌, ◌^◌, ◌↔◌, max, List, [], ◌∷◌, Option, Some, None, IfOk, IfSome, OnOk, OnErr, IfErr, length, true, false, not, ◌&&◌, is_some, option_map, ◌⊎◌};
ghost use Rattle.sqlx_text.specs.declared.Error.{Error};
ghost use Rattle.sqlx_pool_marks.specs.Marks.{is_open, tickets_of, next_ticket};
ghost use Rattle.sqlx_pool_marks.specs.Counts.{asked_in};
ghost use Rattle.sqlx_pool_marks.specs.Answers.{lent_past_at};
ghost use Rattle.sqlx_pool_core.specs.Logs.{Logs, moment_of};
ghost use Rattle.sqlx_pool_core.specs.Answers.{is_busy, lent_conn, serves_at_once, ServesFirst};
ghost use Rattle.sqlx_pool_lists.specs.Core.{waiting, free};
ghost use Rattle.sqlx_pool_marks.specs.declared.mark.Mark.{Mark};
ghost use Rattle.sqlx_pool_lists.specs.Makes.{Makes};
ghost use Rattle.sqlx_pool_lists.specs.Balance.{Balance, ask_room, try_room, serve_room};
ghost use Rattle.sqlx_pool_lists.specs.StandsFor.{StandsFor};
ghost use Rattle.sqlx_pool_marks.specs.EventTable.{may_pass};
ghost use Rattle.sqlx_pool_lists.specs.PollSteps.{phase_for, asked_marks, may_cancel, cancel_marks, cancelled, try_lent, try_marks, after_try, serve_marks, after_serve, first_marks, after_first};
ghost use Rattle.sqlx_pool_lists.specs.Edits.{at_moment, asked};
ghost use Rattle.sqlx_pool_core.specs.KeptLine.{Looks};
ghost use Rattle.sqlx_pool_core.specs.LonePool.{KeepsEntitled, LeavesEdge};

use super::{PoolCore, line};
use sqlx_pool_lists::Lent;
use sqlx_pool_places::Steps;
use sqlx_text::{Error, Moment};
use std::alloc::Global;
use std::marker::Brand;
use std::sync::ledger::{Blank, Ledger};

impl<C> PoolCore<C> {
    /// Asks for a connection: the client gets a ticket, which stands in the line until it is served, ends or is
    /// cancelled. Its deadline is this moment and the acquire timeout.
    pub fn ask(&mut self, alloc: Global, now: Moment, client: u32) -> Result<u64, Error>
        // By the marks: the pool is open, and the ticket has the number that comes next.
        ensures marks { (marks : List Mark) → StandsFor self.old.pool marks → IfOk result (λ ticket. (is_open marks ≡ true) × (ticket ≡ next_ticket marks)) }
        ensures numbered { IfOk result (λ ticket. ticket ≡ self.old.pool.next_ticket) }
        ensures closed { (result ≡ Err Error.PoolClosed) ↔ (self.old.pool.shut ≡ true) }
        ensures exhausted { (result ≡ Err Error.Exhausted) ↔ ((self.old.pool.shut ≡ false) × (2 ^ 63 < self.old.pool.next_ticket)) }
        ensures causes { IfErr result (λ e. (e ≡ Error.PoolClosed) ⊎ ((e ≡ Error.Exhausted) ⊎ (e ≡ Error.OutOfMemory))) }
        ensures makes { (marks : List Mark) → StandsFor self.old.pool marks →
            IfOk result (λ ticket. Makes self.old.pool.options.max_connections marks (asked_marks self.old.pool client (moment_of self.old.pool now) ticket) self.new.pool) }
        ensures balance { IfOk result (λ ticket. Balance self.old.pool self.new.pool (asked_marks self.old.pool client (moment_of self.old.pool now) ticket) 0 (ask_room self.old.pool.options.idle_tries)) }
        ensures becomes { OnOk result (self.new.pool ≡ at_moment (moment_of self.old.pool now) (asked client (moment_of self.old.pool now + self.old.pool.options.acquire_timeout) self.old.pool)) }
        ensures err { OnErr result (self.new ≡ self.old) }
        ensures edge { KeepsEntitled self.old self.new }
    {
        self.uncounted_ask::<Brand>(alloc, now, client, Blank::new(1))
    }

    // The same with a counter of its own.
    fn uncounted_ask<L: Ledger>(
        &mut self,
        alloc: Global,
        now: Moment,
        client: u32,
        blank: Blank,
    ) -> Result<u64, Error>
        requires named { blank.name ≡ L.name }
        requires whole { blank.parts ≡ L.parts }
        requires some { 0 < blank.parts }
        ensures marks { (marks : List Mark) → StandsFor self.old.pool marks → IfOk result (λ ticket. (is_open marks ≡ true) × (ticket ≡ next_ticket marks)) }
        ensures numbered { IfOk result (λ ticket. ticket ≡ self.old.pool.next_ticket) }
        ensures closed { (result ≡ Err Error.PoolClosed) ↔ (self.old.pool.shut ≡ true) }
        ensures exhausted { (result ≡ Err Error.Exhausted) ↔ ((self.old.pool.shut ≡ false) × (2 ^ 63 < self.old.pool.next_ticket)) }
        ensures causes { IfErr result (λ e. (e ≡ Error.PoolClosed) ⊎ ((e ≡ Error.Exhausted) ⊎ (e ≡ Error.OutOfMemory))) }
        ensures makes { (marks : List Mark) → StandsFor self.old.pool marks →
            IfOk result (λ ticket. Makes self.old.pool.options.max_connections marks (asked_marks self.old.pool client (moment_of self.old.pool now) ticket) self.new.pool) }
        ensures balance { IfOk result (λ ticket. Balance self.old.pool self.new.pool (asked_marks self.old.pool client (moment_of self.old.pool now) ticket) 0 (ask_room self.old.pool.options.idle_tries)) }
        ensures becomes { OnOk result (self.new.pool ≡ at_moment (moment_of self.old.pool now) (asked client (moment_of self.old.pool now + self.old.pool.options.acquire_timeout) self.old.pool)) }
        ensures err { OnErr result (self.new ≡ self.old) }
        ensures edge { KeepsEntitled self.old self.new }
    {
        let mut steps = Steps::<L>::new(blank);
        self.ask_counted(alloc, now, client, &mut steps)
    }

    /// The same; each look at the line is a step.
    pub fn ask_counted<L: Ledger>(
        &mut self,
        alloc: Global,
        now: Moment,
        client: u32,
        steps: &mut Steps<L>,
    ) -> Result<u64, Error>
        ensures marks { (marks : List Mark) → StandsFor self.old.pool marks → IfOk result (λ ticket. (is_open marks ≡ true) × (ticket ≡ next_ticket marks)) }
        ensures numbered { IfOk result (λ ticket. ticket ≡ self.old.pool.next_ticket) }
        ensures closed { (result ≡ Err Error.PoolClosed) ↔ (self.old.pool.shut ≡ true) }
        ensures exhausted { (result ≡ Err Error.Exhausted) ↔ ((self.old.pool.shut ≡ false) × (2 ^ 63 < self.old.pool.next_ticket)) }
        ensures causes { IfErr result (λ e. (e ≡ Error.PoolClosed) ⊎ ((e ≡ Error.Exhausted) ⊎ (e ≡ Error.OutOfMemory))) }
        ensures makes { (marks : List Mark) → StandsFor self.old.pool marks →
            IfOk result (λ ticket. Makes self.old.pool.options.max_connections marks (asked_marks self.old.pool client (moment_of self.old.pool now) ticket) self.new.pool) }
        ensures balance { IfOk result (λ ticket. Balance self.old.pool self.new.pool (asked_marks self.old.pool client (moment_of self.old.pool now) ticket) 0 (ask_room self.old.pool.options.idle_tries)) }
        ensures becomes { OnOk result (self.new.pool ≡ at_moment (moment_of self.old.pool now) (asked client (moment_of self.old.pool now + self.old.pool.options.acquire_timeout) self.old.pool)) }
        ensures err { OnErr result (self.new ≡ self.old) }
        ensures cost { Looks self.old self.new steps.old steps.new }
    {
        self.pool.sound();
        let last = self.pool.moment(Moment(0));
        let moment = self.pool.moment(now);
        let ticket = match self.pool.ask(client, moment) {
            Ok(ticket) => ticket,
            Err(error) => return Err(error),
        };
        self.pool.sound();
        if !line::join(&mut self.line, alloc, ticket, steps) {
            self.pool.unask(ticket, last);
            return Err(Error::OutOfMemory);
        }
        line::serve(&self.pool, &mut self.line, steps);
        Ok(ticket)
    }

    /// Ends a ticket that waits or is in backoff, and frees what it held. Otherwise nothing changes.
    pub fn cancel(&mut self, client: u32, ticket: u64) -> bool
        // By the marks: the client has such a ticket, and no step of it is under way.
        ensures marks { (marks : List Mark) → StandsFor self.old.pool marks → result ≡ (is_some (asked_in client ticket (tickets_of marks)) && not (is_busy (phase_for client ticket self.old.pool.tickets))) }
        ensures answer { result ≡ may_cancel (phase_for client ticket self.old.pool.tickets) }
        ensures makes { Logs self.old.pool (cancel_marks ticket result) self.new.pool }
        ensures balance { Balance self.old.pool self.new.pool (cancel_marks ticket result) 0 0 }
        ensures becomes { self.new.pool ≡ cancelled ticket result self.old.pool }
        ensures edge { KeepsEntitled self.old self.new }
    {
        self.uncounted_cancel::<Brand>(client, ticket, Blank::new(1))
    }

    // The same with a counter of its own.
    fn uncounted_cancel<L: Ledger>(&mut self, client: u32, ticket: u64, blank: Blank) -> bool
        requires named { blank.name ≡ L.name }
        requires whole { blank.parts ≡ L.parts }
        requires some { 0 < blank.parts }
        ensures marks { (marks : List Mark) → StandsFor self.old.pool marks → result ≡ (is_some (asked_in client ticket (tickets_of marks)) && not (is_busy (phase_for client ticket self.old.pool.tickets))) }
        ensures answer { result ≡ may_cancel (phase_for client ticket self.old.pool.tickets) }
        ensures makes { Logs self.old.pool (cancel_marks ticket result) self.new.pool }
        ensures balance { Balance self.old.pool self.new.pool (cancel_marks ticket result) 0 0 }
        ensures becomes { self.new.pool ≡ cancelled ticket result self.old.pool }
        ensures edge { KeepsEntitled self.old self.new }
    {
        let mut steps = Steps::<L>::new(blank);
        self.cancel_counted(client, ticket, &mut steps)
    }

    /// The same; each look at the line is a step.
    pub fn cancel_counted<L: Ledger>(
        &mut self,
        client: u32,
        ticket: u64,
        steps: &mut Steps<L>,
    ) -> bool
        ensures marks { (marks : List Mark) → StandsFor self.old.pool marks → result ≡ (is_some (asked_in client ticket (tickets_of marks)) && not (is_busy (phase_for client ticket self.old.pool.tickets))) }
        ensures answer { result ≡ may_cancel (phase_for client ticket self.old.pool.tickets) }
        ensures makes { Logs self.old.pool (cancel_marks ticket result) self.new.pool }
        ensures balance { Balance self.old.pool self.new.pool (cancel_marks ticket result) 0 0 }
        ensures becomes { self.new.pool ≡ cancelled ticket result self.old.pool }
        ensures cost { Looks self.old self.new steps.old steps.new }
    {
        self.pool.sound();
        let done = self.pool.cancel(client, ticket);
        self.pool.sound();
        line::take_out(&mut self.line, ticket, done, steps);
        line::serve(&self.pool, &mut self.line, steps);
        done
    }

    /// Asks for a connection and lends the first idle one at once, without a test: what `ask`, `start` and an accepted
    /// `finish_test` come to where the pool is open, nobody has a ticket, a permit is free, a connection is idle, and the
    /// ticket is numbered and would be in time. Otherwise nothing changes.
    #[inline(always)]
    pub fn serve_new(&mut self, now: Moment, client: u32) -> Option<Lent<C>>
        ensures answer { result ≡ try_lent (serves_at_once self.old.pool.shut self.old.pool) self.old.pool.idle }
        ensures first { IfSome result (λ lent. Some lent ≡ try_lent true self.old.pool.idle) }
        ensures open { is_some result ≡ true → self.old.pool.shut ≡ false }
        ensures none { is_some result ≡ true → length self.old.pool.tickets ≡ 0 }
        ensures in_time { is_some result ≡ true → 0 < self.old.pool.options.acquire_timeout }
        ensures makes { Logs self.old.pool (serve_marks client self.old.pool.next_ticket (moment_of self.old.pool now + self.old.pool.options.acquire_timeout) result) self.new.pool }
        ensures balance { Balance self.old.pool self.new.pool (serve_marks client self.old.pool.next_ticket (moment_of self.old.pool now + self.old.pool.options.acquire_timeout) result) 0 (serve_room result) }
        ensures becomes { self.new.pool ≡ after_serve client (moment_of self.old.pool now) result self.old.pool }
        ensures edge { LeavesEdge self.old self.new }
    {
        let moment = self.pool.moment(now);
        let serves = self.pool.serves_new();
        let lent = self.pool.serve_new(client, moment, serves);
        self.pool.sound();
        lent
    }

    /// Polls a ticket and lends the first idle connection at once, without a test: what `start` and an accepted `finish_test`
    /// come to where the ticket is the first of all, waits and is in time, the pool is open, a permit is free, and a
    /// connection is idle. Otherwise nothing changes.
    pub fn serve_first(&mut self, client: u32, ticket: u64, now: Moment) -> Option<Lent<C>>
        ensures serves { is_some result ≡ true → ServesFirst client ticket (moment_of self.old.pool now) self.old.pool }
        ensures first { IfSome result (λ lent. Some lent ≡ try_lent true self.old.pool.idle) }
        ensures makes { Logs self.old.pool (first_marks client ticket result) self.new.pool }
        ensures balance { Balance self.old.pool self.new.pool (first_marks client ticket result) 0 0 }
        ensures becomes { self.new.pool ≡ after_first client ticket (moment_of self.old.pool now) result self.old.pool }
        ensures edge { LeavesEdge self.old self.new }
    {
        let moment = self.pool.moment(now);
        match self.pool.serve_first(client, ticket, moment) {
            Some(lent) => {
                self.pool.sound();
                self.line.leave(ticket);
                Some(lent)
            }
            None => None,
        }
    }

    /// Lends the first idle connection past the line, without a test: where the pool is open, a connection is
    /// idle, and fewer tickets wait than permits are free. Otherwise nothing changes.
    #[inline(always)]
    pub fn try_acquire(&mut self, now: Moment, client: u32) -> Option<Lent<C>>
        ensures marks { (marks : List Mark) → StandsFor self.old.pool marks → option_map lent_conn result ≡ lent_past_at self.old.pool.options.max_connections self.old.pool.places marks }
        ensures answer { result ≡ try_lent (may_pass self.old.pool.shut (waiting self.old.pool.tickets) (free self.old.pool)) self.old.pool.idle }
        ensures makes { Logs self.old.pool (try_marks client result) self.new.pool }
        ensures balance { Balance self.old.pool self.new.pool (try_marks client result) 0 (try_room result) }
        ensures becomes { self.new.pool ≡ after_try client (moment_of self.old.pool now) result self.old.pool }
        ensures edge { LeavesEdge self.old self.new }
    {
        let moment = self.pool.moment(now);
        let passes = self.pool.may_pass();
        let lent = self.pool.try_acquire(client, moment, passes);
        self.pool.sound();
        lent
    }
}
