//! The start of a poll. Tests and connects run behind it, outside the core.

ghost use Rattle.std.specs.Prelude.{◌≡◌, ◌<◌, ℕ, max, List, Option};
ghost use Rattle.sqlx_pool_marks.specs.declared.mark.Mark.{Mark};
ghost use Rattle.sqlx_pool_core.specs.Logs.{Logs, moment_of};
ghost use Rattle.sqlx_pool_lists.specs.CoreTurn.{core_turn, turn_at_marks};
ghost use Rattle.sqlx_pool_lists.specs.PollSteps.{start_answer, start_marks, started, phase_for};
ghost use Rattle.sqlx_pool_lists.specs.Balance.{Balance};
ghost use Rattle.sqlx_pool_lists.specs.StandsFor.{StandsFor};
ghost use Rattle.sqlx_pool_core.specs.KeptLine.{Looks};
ghost use Rattle.sqlx_pool_core.specs.LonePool.{IfGoesOn, KeepsEntitled, LeavesEdge};

use super::{PoolCore, line};
use sqlx_pool_lists::Start;
use sqlx_pool_places::Steps;
use sqlx_text::Moment;
use std::marker::Brand;
use std::sync::ledger::{Blank, Ledger};

impl<C> PoolCore<C> {
    /// Begins a poll. `now` below the last moment counts as the last one.
    pub fn start(&mut self, client: u32, ticket: u64, now: Moment) -> Start<C>
        // The answer is the poll table's, by the tickets, permits and idle connections of the marks and the ticket's own phase.
        ensures answer { (marks : List Mark) → StandsFor self.old.pool marks → result ≡ start_answer (turn_at_marks self.old.pool marks client ticket (moment_of self.old.pool now)) self.old.pool.idle }
        ensures makes { Logs self.old.pool (start_marks ticket (phase_for client ticket self.old.pool.tickets) result) self.new.pool }
        ensures balance { Balance self.old.pool self.new.pool (start_marks ticket (phase_for client ticket self.old.pool.tickets) result) 0 0 }
        ensures own { result ≡ start_answer (core_turn self.old.pool client ticket (moment_of self.old.pool now)) self.old.pool.idle }
        ensures becomes { self.new.pool ≡ started ticket (moment_of self.old.pool now) result self.old.pool }
        ensures edge { KeepsEntitled self.old self.new }
        // A ticket that goes on to a test or a connect leaves the line with a permit: the edge stays.
        ensures begun { IfGoesOn result (LeavesEdge self.old self.new) }
    {
        self.uncounted_start::<Brand>(client, ticket, now, Blank::new(1))
    }

    // The same with a counter of its own.
    fn uncounted_start<L: Ledger>(
        &mut self,
        client: u32,
        ticket: u64,
        now: Moment,
        blank: Blank,
    ) -> Start<C>
        requires named { blank.name ≡ L.name }
        requires whole { blank.parts ≡ L.parts }
        requires some { 0 < blank.parts }
        ensures answer { (marks : List Mark) → StandsFor self.old.pool marks → result ≡ start_answer (turn_at_marks self.old.pool marks client ticket (moment_of self.old.pool now)) self.old.pool.idle }
        ensures makes { Logs self.old.pool (start_marks ticket (phase_for client ticket self.old.pool.tickets) result) self.new.pool }
        ensures balance { Balance self.old.pool self.new.pool (start_marks ticket (phase_for client ticket self.old.pool.tickets) result) 0 0 }
        ensures own { result ≡ start_answer (core_turn self.old.pool client ticket (moment_of self.old.pool now)) self.old.pool.idle }
        ensures becomes { self.new.pool ≡ started ticket (moment_of self.old.pool now) result self.old.pool }
        ensures edge { KeepsEntitled self.old self.new }
        ensures begun { IfGoesOn result (LeavesEdge self.old self.new) }
    {
        let mut steps = Steps::<L>::new(blank);
        self.start_counted(client, ticket, now, &mut steps)
    }

    /// The same; each look at the line is a step.
    pub fn start_counted<L: Ledger>(
        &mut self,
        client: u32,
        ticket: u64,
        now: Moment,
        steps: &mut Steps<L>,
    ) -> Start<C>
        ensures answer { (marks : List Mark) → StandsFor self.old.pool marks → result ≡ start_answer (turn_at_marks self.old.pool marks client ticket (moment_of self.old.pool now)) self.old.pool.idle }
        ensures makes { Logs self.old.pool (start_marks ticket (phase_for client ticket self.old.pool.tickets) result) self.new.pool }
        ensures balance { Balance self.old.pool self.new.pool (start_marks ticket (phase_for client ticket self.old.pool.tickets) result) 0 0 }
        ensures own { result ≡ start_answer (core_turn self.old.pool client ticket (moment_of self.old.pool now)) self.old.pool.idle }
        ensures becomes { self.new.pool ≡ started ticket (moment_of self.old.pool now) result self.old.pool }
        ensures cost { Looks self.old self.new steps.old steps.new }
        ensures begun { IfGoesOn result (LeavesEdge self.old self.new) }
    {
        self.pool.sound();
        let moment = self.pool.moment(now);
        let entitled = line::is_entitled(&self.pool, &self.line, client, ticket);
        let started = self.pool.start(client, ticket, moment, entitled);
        self.pool.sound();
        let went = line::leaves(&started);
        line::take_out(&mut self.line, ticket, went, steps);
        line::serve(&self.pool, &mut self.line, steps);
        started
    }
}
