//! Asking, and lending past the line.

ghost use Rattle.std.specs.Prelude.{◌≡◌, ℕ, ◌+◌, ◌^◌, ◌<◌, ◌≤◌, ◌↔◌, ◌⊎◌, List, [], ◌∷◌, ◌++◌, length, None, Some, true, false, is_some, option_map, IfSome, IfOk, IfErr, OnOk, OnErr};
ghost use Rattle.sqlx_text.specs.declared.error.Error.{Error};
ghost use Rattle.sqlx_pool_marks.specs.declared.mark.Mark.{Mark};
ghost use Rattle.sqlx_pool_marks.specs.Marks.{is_open, next_ticket};
ghost use Rattle.sqlx_pool_marks.specs.Answers.{lent_past_at};
ghost use Rattle.sqlx_pool_core.specs.Answers.{lent_conn};
ghost use Rattle.sqlx_pool_lists.specs.Balance.{Balance, ask_room, marks_due};
ghost use Rattle.sqlx_pool_lists.specs.Edits.{at_moment, asked};
ghost use Rattle.sqlx_pool_core.specs.Logs.{moment_of};
ghost use Rattle.sqlx_pool_lists.specs.PollSteps.{asked_marks, try_lent, try_marks, after_try, serve_marks, after_serve};
ghost use Rattle.sqlx_pool_lists.specs.StandsFor.{StandsFor};
ghost use Rattle.sqlx_pool_parts.specs.Answers.{lent_alone, marks_served};
ghost use Rattle.sqlx_pool_parts.specs.Booked.{CountsIf};
ghost use Rattle.sqlx_pool.specs.Steps.{LogsIf, passes};

use super::Locked;
use crate::{Held, Loans, Tally};
use sqlx_pool_core::{Lent, PoolCore};
use sqlx_pool_log::PackedLog;
use sqlx_pool_parts::record;
use sqlx_text::{Depth, Error, Moment};
use std::alloc::Global;
use std::sync::ledger::Ledger;

// How many marks a loan past the line may lead to.
const TRY_ROOM: usize = 4;

// How many marks an ask that is served at once may lead to.
const SERVE_ROOM: usize = 6;

// How many tickets a pool numbers.
const NUMBERS: u64 = 1 << 63;

// Reserves memory for the marks that are due, and for these many more: false where there is none.
#[inline(always)]
fn reserve<C>(log: &mut PackedLog, core: &PoolCore<C>, more: usize) -> bool
    requires room { length log.old.items + marks_due core.now.pool ≤ log.old.capacity }
    requires few { more < 2 ^ 40 }
    ensures marks { log.new.items ≡ log.old.items }
    ensures room { result ≡ true → length log.old.items + marks_due core.now.pool + more ≤ log.new.capacity }
    ensures capacity { log.old.capacity ≤ log.new.capacity }
{
    log.reserve(core.due(), more)
}

// Asks where the pool is open and has numbers left, and writes the mark. None where there is no memory.
#[inline(always)]
fn ask_open<C>(
    core: &mut PoolCore<C>,
    log: &mut PackedLog,
    alloc: Global,
    now: Moment,
    client: u32,
) -> Option<u64>
    requires open { core.old.pool.shut ≡ false }
    requires few { core.old.pool.next_ticket ≤ 2 ^ 63 }
    requires room { length log.old.items + marks_due core.old.pool ≤ log.old.capacity }
    ensures numbered { IfSome result (λ ticket. ticket ≡ core.old.pool.next_ticket) }
    ensures makes { LogsIf result core.old.pool (λ ticket. asked_marks core.old.pool client (moment_of core.old.pool now) ticket) core.new.pool }
    ensures balance { IfSome result (λ ticket. Balance core.old.pool core.new.pool (asked_marks core.old.pool client (moment_of core.old.pool now) ticket) 0 (ask_room core.old.pool.options.idle_tries)) }
    ensures becomes { IfSome result (λ ticket. core.new.pool ≡ at_moment (moment_of core.old.pool now) (asked client (moment_of core.old.pool now + core.old.pool.options.acquire_timeout) core.old.pool)) }
    ensures marks { IfSome result (λ ticket. log.new.items ≡ log.old.items ++ asked_marks core.old.pool client (moment_of core.old.pool now) ticket) }
    ensures room { IfSome result (λ ticket. length log.old.items + marks_due core.old.pool + ask_room core.old.pool.options.idle_tries ≤ log.new.capacity) }
    ensures none { result ≡ None → (core.new.pool ≡ core.old.pool) × (log.new.items ≡ log.old.items) }
    ensures capacity { log.old.capacity ≤ log.new.capacity }
{
    // A whole loan with all its tests, and the end of the connection that it keeps.
    let room = 7 + 2 * core.options().get_idle_tries() as usize;
    if !reserve(log, core, room) {
        return None;
    }
    let asked_at = core.moment(now).0;
    let timeout = core.options().get_acquire_timeout();
    match core.ask(alloc, now, client) {
        Ok(ticket) => {
            log.ask(client, ticket, asked_at, timeout);
            Some(ticket)
        }
        Err(error) => {
            drop(error);
            None
        }
    }
}

// Asks and lends the first idle connection at once, and writes the marks. None where nobody is served so, or there is
// no memory.
#[inline(always)]
fn serve_first<C>(
    core: &mut PoolCore<C>,
    log: &mut PackedLog,
    now: Moment,
    client: u32,
) -> Option<Lent<C>>
    requires { length log.old.items + marks_due core.old.pool ≤ log.old.capacity }
    ensures first { IfSome result (λ lent. Some lent ≡ try_lent true core.old.pool.idle) }
    ensures makes { LogsIf result core.old.pool (λ lent. marks_served client (moment_of core.old.pool now) core.old.pool (Some lent)) core.new.pool }
    ensures balance { IfSome result (λ lent. Balance core.old.pool core.new.pool (marks_served client (moment_of core.old.pool now) core.old.pool (Some lent)) 0 6) }
    ensures becomes { core.new.pool ≡ after_serve client (moment_of core.old.pool now) result core.old.pool }
    ensures marks { log.new.items ≡ log.old.items ++ marks_served client (moment_of core.old.pool now) core.old.pool result }
    ensures room { IfSome result (λ lent. length log.old.items + marks_due core.old.pool + 6 ≤ log.new.capacity) }
    ensures capacity { log.old.capacity ≤ log.new.capacity }
{
    if core.num_tickets() != 0 || core.num_idle() == 0 {
        return None;
    }
    if !reserve(log, core, SERVE_ROOM) {
        return None;
    }
    let ticket = core.numbers().next_ticket;
    let asked_at = core.moment(now).0;
    let timeout = core.options().get_acquire_timeout();
    match core.serve_new(now, client) {
        Some(lent) => {
            record::serve(log, client, ticket, asked_at, timeout, lent.id);
            Some(lent)
        }
        None => None,
    }
}

// Lends past the line where that may be, and writes the marks. None where there is no memory.
#[inline(always)]
fn lend_past<C>(
    core: &mut PoolCore<C>,
    log: &mut PackedLog,
    now: Moment,
    client: u32,
) -> Option<Lent<C>>
    requires may { is_some (try_lent (passes core.old.pool) core.old.pool.idle) ≡ true }
    requires room { length log.old.items + marks_due core.old.pool ≤ log.old.capacity }
    ensures first { IfSome result (λ lent. Some lent ≡ try_lent (passes core.old.pool) core.old.pool.idle) }
    ensures answer { (marks : List Mark) → StandsFor core.old.pool marks → IfSome result (λ lent. Some (lent_conn lent) ≡ lent_past_at core.old.pool.options.max_connections core.old.pool.places marks) }
    ensures makes { LogsIf result core.old.pool (λ lent. try_marks client (Some lent)) core.new.pool }
    ensures balance { IfSome result (λ lent. Balance core.old.pool core.new.pool (try_marks client (Some lent)) 0 4) }
    ensures becomes { core.new.pool ≡ after_try client (moment_of core.old.pool now) result core.old.pool }
    ensures marks { log.new.items ≡ log.old.items ++ try_marks client result }
    ensures room { IfSome result (λ lent. length log.old.items + marks_due core.old.pool + 4 ≤ log.new.capacity) }
    ensures capacity { log.old.capacity ≤ log.new.capacity }
{
    if !reserve(log, core, TRY_ROOM) {
        return None;
    }
    match core.try_acquire(now, client) {
        Some(lent) => {
            record::lend_past(log, client, lent.id);
            Some(lent)
        }
        None => unreachable!(),
    }
}

impl<C: Depth, O, H: Ledger, L: Loans> Locked<C, O, H, L> {
    /// Asks for a connection: the client gets a ticket, which stands in the line until it is served, ends or is
    /// cancelled. The memory for all marks that it may lead to is reserved here.
    pub fn ask(&mut self, alloc: Global, now: Moment, client: u32) -> Result<u64, Error>
        ensures numbered { IfOk result (λ ticket. (is_open self.old.marks ≡ true) × (ticket ≡ next_ticket self.old.marks)) }
        ensures marks { IfOk result (λ ticket. self.new.marks ≡ self.old.marks ++ Mark.Asked ticket client (moment_of self.old.core now + self.old.core.options.acquire_timeout) ∷ []) }
        ensures becomes { OnOk result (self.new.core ≡ at_moment (moment_of self.old.core now) (asked client (moment_of self.old.core now + self.old.core.options.acquire_timeout) self.old.core)) }
        ensures closed { (result ≡ Err Error.PoolClosed) ↔ (is_open self.old.marks ≡ false) }
        ensures exhausted { (result ≡ Err Error.Exhausted) ↔ ((is_open self.old.marks ≡ true) × (2 ^ 63 < next_ticket self.old.marks)) }
        ensures causes { IfErr result (λ e. (e ≡ Error.PoolClosed) ⊎ ((e ≡ Error.Exhausted) ⊎ (e ≡ Error.OutOfMemory))) }
        ensures err { OnErr result (self.new ≡ self.old) }
        ensures connect { self.new.connect ≡ self.old.connect }
    {
        if self.core.is_closed() {
            return Err(Error::PoolClosed);
        }
        if self.core.numbers().next_ticket > NUMBERS {
            return Err(Error::Exhausted);
        }
        let Some(ticket) = ask_open(&mut self.core, &mut self.log, alloc, now, client) else {
            return Err(Error::OutOfMemory);
        };
        Ok(ticket)
    }

    /// Asks for a connection and lends the first idle one at once, without a test: what `ask`, `start` and an accepted
    /// `finish_test` come to where nobody has a ticket. None, and nothing changes, where the pool is closed, somebody has
    /// a ticket, no connection is idle, a ticket has no time, or there is no memory: then `ask` tells what comes of it.
    pub fn serve_new(
        &mut self,
        _alloc: Global,
        now: Moment,
        client: u32,
        tally: &mut Tally<L>,
    ) -> Option<(Lent<C>, Held<H>)>
        ensures marks { self.new.marks ≡ self.old.marks ++ serve_marks client self.old.core.next_ticket (moment_of self.old.core now + self.old.core.options.acquire_timeout) (lent_alone result) }
        ensures becomes { self.new.core ≡ after_serve client (moment_of self.old.core now) (lent_alone result) self.old.core }
        ensures first { IfSome (lent_alone result) (λ lent. Some lent ≡ try_lent true self.old.core.idle) }
        ensures tally { CountsIf (is_some result) tally.old tally.new }
        ensures flat { IfSome (lent_alone result) (λ l. C.levels l.raw ≡ 0) }
        ensures connect { self.new.connect ≡ self.old.connect }
    {
        self.core.bounds();
        match serve_first(&mut self.core, &mut self.log, now, client) {
            Some(lent) => {
                let held = self.books.lend(tally);
                Some((lent, held))
            }
            None => None,
        }
    }

    /// Lends the first idle connection past the line, without a test: where the pool is open, a connection is idle,
    /// and fewer tickets wait than permits are free. Otherwise nothing changes. `Exhausted` where 2^62 loans were made.
    pub fn try_acquire(
        &mut self,
        _alloc: Global,
        now: Moment,
        client: u32,
        tally: &mut Tally<L>,
    ) -> Result<Option<(Lent<C>, Held<H>)>, Error>
        ensures answer { IfOk result (λ lent. option_map lent_conn (lent_alone lent) ≡ lent_past_at L.max self.old.core.places self.old.marks) }
        ensures first { IfOk result (λ lent. lent_alone lent ≡ try_lent (passes self.old.core) self.old.core.idle) }
        ensures marks { IfOk result (λ lent. self.new.marks ≡ self.old.marks ++ try_marks client (lent_alone lent)) }
        ensures becomes { IfOk result (λ lent. self.new.core ≡ after_try client (moment_of self.old.core now) (lent_alone lent) self.old.core) }
        ensures tally { IfOk result (λ lent. CountsIf (is_some lent) tally.old tally.new) }
        ensures flat { IfOk result (λ lent. IfSome (lent_alone lent) (λ l. C.levels l.raw ≡ 0)) }
        ensures exhausted { (result ≡ Err Error.Exhausted) ↔ ((is_some (lent_past_at L.max self.old.core.places self.old.marks) ≡ true) × (2 ^ 62 ≤ self.old.booked.made)) }
        ensures causes { IfErr result (λ e. (e ≡ Error.Exhausted) ⊎ (e ≡ Error.OutOfMemory)) }
        ensures err { OnErr result ((self.new ≡ self.old) × (tally.new ≡ tally.old)) }
        ensures connect { self.new.connect ≡ self.old.connect }
    {
        if !self.core.may_lend() {
            return Ok(None);
        }
        if self.books.is_full() {
            return Err(Error::Exhausted);
        }
        self.core.bounds();
        match lend_past(&mut self.core, &mut self.log, now, client) {
            Some(lent) => {
                let held = self.books.lend(tally);
                Ok(Some((lent, held)))
            }
            None => Err(Error::OutOfMemory),
        }
    }
}
