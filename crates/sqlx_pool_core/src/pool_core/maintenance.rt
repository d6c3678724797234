//! The steps that keep a pool in shape: reaping, and holding places for the minimum.

ghost use Rattle.std.specs.Prelude.{◌≡◌, ◌<◌, ℕ, ◌≤◌, max, List, [], Option, option_map};
ghost use Rattle.std.specs.List.{list_any};
ghost use Rattle.sqlx_pool_marks.specs.declared.mark.Mark.{Mark};
ghost use Rattle.sqlx_pool_marks.specs.Marks.{is_shut};
ghost use Rattle.sqlx_pool_marks.specs.EventTable.{may_pass, reaped_at, has_place_at};
ghost use Rattle.sqlx_pool_core.specs.Logs.{Logs, moment_of};
ghost use Rattle.sqlx_pool_lists.specs.Limits.{limits_of};
ghost use Rattle.sqlx_pool_lists.specs.Core.{waiting, free};
ghost use Rattle.sqlx_pool_lists.specs.MaintenanceSteps.{idle_conn, reap_answer, reap_marks, reaped, has_place, placed, handed_back, done_marks, done};
ghost use Rattle.sqlx_pool_lists.specs.Balance.{Balance, place_room};
ghost use Rattle.sqlx_pool_lists.specs.StandsFor.{StandsFor};
ghost use Rattle.sqlx_pool_core.specs.KeptLine.{Looks};
ghost use Rattle.sqlx_pool_core.specs.LonePool.{KeepsEntitled, LeavesEdge};

use super::{PoolCore, line};
use sqlx_pool_lists::Idle;
use sqlx_pool_places::Steps;
use sqlx_text::Moment;
use std::marker::Brand;
use std::sync::ledger::{Blank, Ledger};

impl<C> PoolCore<C> {
    /// Takes the first idle connection that rests for longer than the idle limit or is older than the lifetime,
    /// which the caller closes: where the pool is open and fewer tickets wait than permits are free. Otherwise
    /// nothing changes.
    pub fn reap(&mut self, now: Moment) -> Option<Idle<C>>
        ensures marks { (marks : List Mark) → StandsFor self.old.pool marks → option_map idle_conn result ≡ reaped_at (limits_of self.old.pool.options) self.old.pool.places marks (moment_of self.old.pool now) }
        ensures makes { Logs self.old.pool (reap_marks result) self.new.pool }
        ensures answer { result ≡ reap_answer (may_pass self.old.pool.shut (waiting self.old.pool.tickets) (free self.old.pool)) self.old.pool.options (moment_of self.old.pool now) self.old.pool.idle }
        ensures becomes { self.new.pool ≡ reaped (moment_of self.old.pool now) result self.old.pool }
        ensures balance { Balance self.old.pool self.new.pool (reap_marks result) 0 0 }
        ensures edge { LeavesEdge self.old self.new }
    {
        let moment = self.pool.moment(now);
        let passes = self.pool.may_pass();
        let reaped = self.pool.reap(moment, passes);
        self.pool.sound();
        reaped
    }

    /// Holds a place for one connection that is opened before any client asks: as `minimum_place`, but at a
    /// minimum of 0 as at 1.
    pub fn first_place(&mut self) -> bool
        ensures marks { (marks : List Mark) → StandsFor self.old.pool marks → result ≡ has_place_at (limits_of self.old.pool.options) self.old.pool.places marks (max self.old.pool.options.min_connections 1) }
        ensures makes { Logs self.old.pool [] self.new.pool }
        ensures answer { result ≡ has_place (max self.old.pool.options.min_connections 1) self.old.pool }
        ensures becomes { self.new.pool ≡ placed result self.old.pool }
        ensures balance { Balance self.old.pool self.new.pool [] 0 (place_room result) }
        ensures edge { LeavesEdge self.old self.new }
    {
        let minimum = self.options().get_min_connections().max(1);
        let passes = self.pool.may_pass();
        let held = self.pool.hold_place(minimum, passes);
        self.pool.sound();
        held
    }

    /// Holds a place for one connection of the minimum, which the caller opens and tells of by `minimum_done`:
    /// where the pool is open, fewer tickets wait than permits are free, the pool has fewer connections than the
    /// minimum and the maximum, and the numbers of connections aren't used up. Otherwise nothing changes.
    pub fn minimum_place(&mut self) -> bool
        ensures marks { (marks : List Mark) → StandsFor self.old.pool marks → result ≡ has_place_at (limits_of self.old.pool.options) self.old.pool.places marks self.old.pool.options.min_connections }
        ensures makes { Logs self.old.pool [] self.new.pool }
        ensures answer { result ≡ has_place self.old.pool.options.min_connections self.old.pool }
        ensures becomes { self.new.pool ≡ placed result self.old.pool }
        ensures balance { Balance self.old.pool self.new.pool [] 0 (place_room result) }
        ensures edge { LeavesEdge self.old self.new }
    {
        let minimum = self.options().get_min_connections();
        let passes = self.pool.may_pass();
        let held = self.pool.hold_place(minimum, passes);
        self.pool.sound();
        held
    }

    /// Tells what came of the connection for which a place was held. A new connection is put last among the idle,
    /// with this moment as that of its opening; in a pool that was closed meanwhile it comes back, and the caller
    /// closes it.
    pub fn minimum_done(&mut self, now: Moment, raw: Option<C>) -> Option<C>
        requires { 1 ≤ self.old.pool.places }
        ensures makes { Logs self.old.pool (done_marks self.old.pool.shut self.old.pool.next_conn (moment_of self.old.pool now) raw) self.new.pool }
        ensures marks { (marks : List Mark) → StandsFor self.old.pool marks → result ≡ handed_back (list_any is_shut marks) raw }
        ensures answer { result ≡ handed_back self.old.pool.shut raw }
        ensures becomes { self.new.pool ≡ done self.old.pool.shut (moment_of self.old.pool now) raw self.old.pool }
        ensures balance { Balance self.old.pool self.new.pool (done_marks self.old.pool.shut self.old.pool.next_conn (moment_of self.old.pool now) raw) 0 0 }
        ensures edge { KeepsEntitled self.old self.new }
        // Where all that wait are entitled, the edge stays.
        ensures all { waiting self.old.pool.tickets ≤ free self.old.pool → LeavesEdge self.old self.new }
    {
        self.uncounted_minimum_done::<Brand>(now, raw, Blank::new(1))
    }

    // The same with a counter of its own.
    fn uncounted_minimum_done<L: Ledger>(
        &mut self,
        now: Moment,
        raw: Option<C>,
        blank: Blank,
    ) -> Option<C>
        requires named { blank.name ≡ L.name }
        requires whole { blank.parts ≡ L.parts }
        requires some { 0 < blank.parts }
        requires place { 1 ≤ self.old.pool.places }
        ensures makes { Logs self.old.pool (done_marks self.old.pool.shut self.old.pool.next_conn (moment_of self.old.pool now) raw) self.new.pool }
        ensures marks { (marks : List Mark) → StandsFor self.old.pool marks → result ≡ handed_back (list_any is_shut marks) raw }
        ensures answer { result ≡ handed_back self.old.pool.shut raw }
        ensures becomes { self.new.pool ≡ done self.old.pool.shut (moment_of self.old.pool now) raw self.old.pool }
        ensures balance { Balance self.old.pool self.new.pool (done_marks self.old.pool.shut self.old.pool.next_conn (moment_of self.old.pool now) raw) 0 0 }
        ensures edge { KeepsEntitled self.old self.new }
        ensures all { waiting self.old.pool.tickets ≤ free self.old.pool → LeavesEdge self.old self.new }
    {
        let mut steps = Steps::<L>::new(blank);
        self.minimum_done_counted(now, raw, &mut steps)
    }

    /// The same; each look at the line is a step.
    pub fn minimum_done_counted<L: Ledger>(
        &mut self,
        now: Moment,
        raw: Option<C>,
        steps: &mut Steps<L>,
    ) -> Option<C>
        requires { 1 ≤ self.old.pool.places }
        ensures makes { Logs self.old.pool (done_marks self.old.pool.shut self.old.pool.next_conn (moment_of self.old.pool now) raw) self.new.pool }
        ensures marks { (marks : List Mark) → StandsFor self.old.pool marks → result ≡ handed_back (list_any is_shut marks) raw }
        ensures answer { result ≡ handed_back self.old.pool.shut raw }
        ensures becomes { self.new.pool ≡ done self.old.pool.shut (moment_of self.old.pool now) raw self.old.pool }
        ensures balance { Balance self.old.pool self.new.pool (done_marks self.old.pool.shut self.old.pool.next_conn (moment_of self.old.pool now) raw) 0 0 }
        ensures cost { Looks self.old self.new steps.old steps.new }
        ensures all { waiting self.old.pool.tickets ≤ free self.old.pool → LeavesEdge self.old self.new }
    {
        let moment = self.pool.moment(now);
        self.pool.sound();
        let back = self.pool.minimum_done(moment, raw);
        self.pool.sound();
        line::serve(&self.pool, &mut self.line, steps);
        back
    }
}
