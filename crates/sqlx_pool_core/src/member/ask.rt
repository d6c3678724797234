//! The steps before and beside a poll: asking, cancelling, and lending past the line.

ghost use Rattle.std.specs.Prelude.{◌≡◌, ℕ, ◌+◌, ◌<◌, ◌≤◌, ◌^◌, ◌↔◌, List, [], ◌∷◌, Option, Some, None, IfSome, IfOk, OnOk, OnErr, IfErr, length, true, false, is_some, ◌⊎◌};
ghost use Rattle.sqlx_text.specs.declared.Error.{Error};
ghost use Rattle.sqlx_pool_marks.specs.declared.mark.Mark.{Mark};
ghost use Rattle.sqlx_pool_marks.specs.EventTable.{may_pass};
ghost use Rattle.sqlx_pool_lists.specs.Core.{waiting, free};
ghost use Rattle.sqlx_pool_lists.specs.Sound.{IsSound};
ghost use Rattle.sqlx_pool_lists.specs.StandsFor.{StandsIn};
ghost use Rattle.sqlx_pool_lists.specs.Makes.{MakesIn, MakesWhere};
ghost use Rattle.sqlx_pool_core.specs.Answers.{serves_at_once, ServesFirst};
ghost use Rattle.sqlx_pool_core.specs.Numbers.{Draws, Stays};
ghost use Rattle.sqlx_pool_lists.specs.Balance.{Balance, ask_room, try_room};
ghost use Rattle.sqlx_pool_lists.specs.CoreTurn.{PastOwnLine};
ghost use Rattle.sqlx_pool_lists.specs.PollSteps.{phase_for, asked_marks, may_cancel, cancel_marks, cancelled, try_lent, try_marks, after_try, after_serve, after_first};
ghost use Rattle.sqlx_pool_lists.specs.Edits.{at_moment, asked, unasked};

use super::{Member, NUMBERS};
use sqlx_pool_lists::{Lent, OwnedConn, Phase, Ticket};
use sqlx_text::{Error, Moment};

impl<C> Member<C> {
    /// Asks for a connection at a moment.
    pub fn ask(&mut self, client: u32, moment: Moment) -> Result<u64, Error>
        ensures numbered { IfOk result (λ ticket. ticket ≡ self.old.next_ticket) }
        ensures closed { (result ≡ Err Error.PoolClosed) ↔ (self.old.closed ≡ true) }
        ensures exhausted { (result ≡ Err Error.Exhausted) ↔ ((self.old.closed ≡ false) × (2 ^ 63 < self.old.next_ticket)) }
        ensures causes { IfErr result (λ e. (e ≡ Error.PoolClosed) ⊎ ((e ≡ Error.Exhausted) ⊎ (e ≡ Error.OutOfMemory))) }
        ensures makes { (marks : List Mark) → StandsIn self.old marks → IfOk result (λ ticket. MakesIn self.old.options.max_connections marks (asked_marks self.old client moment.0 ticket) self.new) }
        ensures stays { Stays self.old self.new }
        ensures draws { IfOk result (λ ticket. Draws self.old self.new (asked_marks self.old client moment.0 ticket)) }
        ensures balance { IfOk result (λ ticket. Balance self.old self.new (asked_marks self.old client moment.0 ticket) 0 (ask_room self.old.options.idle_tries)) }
        ensures becomes { OnOk result (self.new ≡ at_moment moment.0 (asked client (moment.0 + self.old.options.acquire_timeout) self.old)) }
        ensures err { OnErr result (self.new ≡ self.old) }
    {
        if self.closed {
            return Err(Error::PoolClosed);
        }
        if self.next_ticket > NUMBERS {
            return Err(Error::Exhausted);
        }
        let deadline = u128::from(moment.0) + u128::from(self.options.get_acquire_timeout());
        self.ask_until(client, deadline, moment)
    }

    // Asks at a moment.
    fn ask_until(&mut self, client: u32, deadline: u128, moment: Moment) -> Result<u64, Error>
        requires open { self.old.closed ≡ false }
        requires few { self.old.next_ticket ≤ 2 ^ 63 }
        ensures numbered { IfOk result (λ ticket. ticket ≡ self.old.next_ticket) }
        ensures makes { (marks : List Mark) → StandsIn self.old marks → OnOk result (MakesIn self.old.options.max_connections marks (Mark.Asked self.old.next_ticket client deadline ∷ []) self.new) }
        ensures draws { OnOk result (Draws self.old self.new (Mark.Asked self.old.next_ticket client deadline ∷ [])) }
        ensures balance { OnOk result (Balance self.old self.new (Mark.Asked self.old.next_ticket client deadline ∷ []) 0 (ask_room self.old.options.idle_tries)) }
        ensures becomes { OnOk result (self.new ≡ at_moment moment.0 (asked client deadline self.old)) }
        ensures memory { IfErr result (λ e. e ≡ Error.OutOfMemory) }
        ensures err { OnErr result (self.new ≡ self.old) }
    {
        let number = self.next_ticket;
        let ticket = Ticket {
            number,
            client,
            deadline,
            phase: Phase::Waiting,
            first_try: Moment(0),
            last_wait: None,
        };
        let Ok(()) = self.tickets.push(ticket) else {
            return Err(Error::OutOfMemory);
        };
        self.next_ticket = number + 1;
        self.last = moment;
        Ok(number)
    }

    /// Takes back the last ask, which was of this ticket: the pool is as before it.
    pub fn unask(&mut self, ticket: u64, last: Moment)
        requires { IsSound (unasked ticket last.0 self.old) }
        ensures { self.new ≡ unasked ticket last.0 self.old }
    {
        self.tickets.end(ticket);
        self.next_ticket = ticket;
        self.last = last;
    }

    /// Ends a ticket that waits or is in backoff.
    pub fn cancel(&mut self, client: u32, ticket: u64) -> bool
        ensures answer { result ≡ may_cancel (phase_for client ticket self.old.tickets) }
        ensures makes { (marks : List Mark) → StandsIn self.old marks → MakesIn self.old.options.max_connections marks (cancel_marks ticket result) self.new }
        ensures stays { Stays self.old self.new }
        ensures draws { Draws self.old self.new (cancel_marks ticket result) }
        ensures balance { Balance self.old self.new (cancel_marks ticket result) 0 0 }
        ensures becomes { self.new ≡ cancelled ticket result self.old }
    {
        self.end_at_rest(client, ticket)
    }

    // Ends a ticket, unless a step of its own is under way.
    fn end_at_rest(&mut self, client: u32, ticket: u64) -> bool
        ensures answer { result ≡ may_cancel (phase_for client ticket self.old.tickets) }
        ensures becomes { self.new ≡ cancelled ticket result self.old }
        ensures sound { IsSound self.old }
    {
        let Some(found) = self.find(client, ticket) else {
            return false;
        };
        if matches!(found.phase, Phase::Testing { .. } | Phase::Connecting) {
            return false;
        }
        self.end_ticket(ticket);
        true
    }

    /// Connections may be lent, reaped or opened past the pool's own line.
    #[inline(always)]
    pub fn may_pass(&self) -> bool
        ensures { result ≡ may_pass self.now.closed (waiting self.now.tickets) (free self.now) }
    {
        !self.closed && self.tickets.waiting() < self.num_free() as usize
    }

    /// Whether a connection would be lent past the line, where that lets one pass.
    #[inline(always)]
    pub fn may_lend(&self, passes: bool) -> bool
        ensures { result ≡ is_some (try_lent passes self.now.idle) }
    {
        passes && !self.idle.is_empty()
    }

    /// A new ticket would be served at once: the pool is open, nobody has a ticket, a permit is free, the numbers of
    /// tickets and connections aren't used up, and a ticket has time.
    #[inline(always)]
    pub fn serves_new(&self) -> bool
        ensures answer { result ≡ serves_at_once self.now.closed self.now }
        ensures open { result ≡ true → self.now.closed ≡ false }
        ensures none { result ≡ true → length self.now.tickets ≡ 0 }
        ensures permit { result ≡ true → 0 < free self.now }
        ensures few { result ≡ true → self.now.next_ticket ≤ 2 ^ 63 }
        ensures numbered { result ≡ true → self.now.next_conn ≤ 2 ^ 63 }
        ensures in_time { result ≡ true → 0 < self.now.options.acquire_timeout }
    {
        if self.closed || self.tickets.len() != 0 {
            return false;
        }
        if self.next_ticket > NUMBERS || self.next_conn > NUMBERS {
            return false;
        }
        self.num_free() > 0 && self.options.get_acquire_timeout() > 0
    }

    /// Lends the first idle connection to a new ticket at a moment, where such a ticket is served at once.
    #[inline(always)]
    pub fn serve_new(&mut self, client: u32, moment: Moment, serves: bool) -> Option<Lent<C>>
        requires open { serves ≡ true → self.old.closed ≡ false }
        requires none { serves ≡ true → length self.old.tickets ≡ 0 }
        requires permit { serves ≡ true → 0 < free self.old }
        requires few { serves ≡ true → self.old.next_ticket ≤ 2 ^ 63 }
        ensures answer { result ≡ try_lent serves self.old.idle }
        ensures becomes { self.new ≡ after_serve client moment.0 result self.old }
        ensures sound { IsSound self.old }
    {
        self.sound();
        let lent = self.lend_first(client, moment, serves)?;
        self.next_ticket += 1;
        Some(lent)
    }

    /// Lends the first idle connection at a moment, where the line lets it pass.
    #[inline(always)]
    pub fn try_acquire(&mut self, client: u32, moment: Moment, passes: bool) -> Option<Lent<C>>
        requires permit { passes ≡ true → 0 < free self.old }
        requires open { passes ≡ true → self.old.closed ≡ false }
        ensures answer { result ≡ try_lent passes self.old.idle }
        ensures makes { (marks : List Mark) → StandsIn self.old marks → MakesWhere (PastOwnLine self.old passes) self.old.options.max_connections marks (try_marks client result) self.new }
        ensures stays { Stays self.old self.new }
        ensures draws { Draws self.old self.new (try_marks client result) }
        ensures balance { Balance self.old self.new (try_marks client result) 0 (try_room result) }
        ensures becomes { self.new ≡ after_try client moment.0 result self.old }
    {
        self.sound();
        self.lend_first(client, moment, passes)
    }

    /// Lends the first idle connection to a client's ticket at a moment, where that ticket is the first of all, waits and
    /// is in time, and a permit is free. Otherwise nothing changes.
    pub fn serve_first(&mut self, client: u32, ticket: u64, moment: Moment) -> Option<Lent<C>>
        ensures serves { is_some result ≡ true → ServesFirst client ticket moment.0 self.old }
        ensures first { IfSome result (λ lent. Some lent ≡ try_lent true self.old.idle) }
        ensures becomes { self.new ≡ after_first client ticket moment.0 result self.old }
        ensures sound { IsSound self.old }
    {
        self.sound();
        let deadline = self.tickets.first_deadline(client, ticket)?;
        if self.closed || deadline <= u128::from(moment.0) || self.next_conn > NUMBERS {
            return None;
        }
        if self.num_free() == 0 {
            return None;
        }
        let lent = self.lend_first(client, moment, true)?;
        self.end_at(ticket, moment);
        Some(lent)
    }

    // Lends the first idle connection, where the line lets it pass.
    #[inline(always)]
    fn lend_first(&mut self, client: u32, moment: Moment, passes: bool) -> Option<Lent<C>>
        requires permit { passes ≡ true → 0 < free self.old }
        ensures answer { result ≡ try_lent passes self.old.idle }
        ensures becomes { self.new ≡ after_try client moment.0 result self.old }
    {
        if !passes {
            return None;
        }
        let lent = self.idle.pop_front()?.lent;
        self.held.push_reserved(OwnedConn {
            conn: lent.id,
            client,
            created: lent.created,
        });
        self.last = moment;
        Some(lent)
    }
}
