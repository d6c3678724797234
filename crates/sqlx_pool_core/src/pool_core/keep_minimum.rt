//! Keeping the minimum, with the outside asked for each connection.

ghost use Rattle.std.specs.Prelude.{◌≡◌, ◌≤◌, nat_lt, true, false, List};
ghost use Rattle.sqlx_pool_marks.specs.declared.mark.Mark.{Mark};
ghost use Rattle.sqlx_pool_marks.specs.EventTable.{lacking_at};
ghost use Rattle.sqlx_pool_lists.specs.Limits.{limits_of};
ghost use Rattle.sqlx_pool_lists.specs.StandsFor.{StandsFor};
ghost use Rattle.sqlx_pool_core.specs.Logs.{Logs, moment_of};
ghost use Rattle.sqlx_pool_core.specs.LonePool.{LeavesEdge};
ghost use Rattle.sqlx_pool_lists.specs.Core.{free, waiting};
ghost use Rattle.sqlx_pool_lists.specs.MaintenanceSteps.{done, done_marks, has_place, lacks};
ghost use Rattle.sqlx_pool_core.specs.Minimum.{EndsFor, KeepsMinimum, Opens, openings_made};
ghost use Rattle.sqlx_pool_core.specs.Outside.{is_want};

use super::PoolCore;
use crate::Outside;
use crate::idle_check::{self, Opening};
use sqlx_pool_lists::Openings;
use sqlx_text::{Error, Moment};
use std::alloc::Global;

// Memory was wanting.
fn is_want(error: &Error) -> bool
    ensures { result ≡ is_want error.now }
{
    matches!(error, Error::OutOfMemory)
}

impl<C> PoolCore<C> {
    // Tells an open pool what came of a place.
    fn fill(&mut self, now: Moment, raw: Option<C>)
        requires place { 1 ≤ self.old.pool.places }
        requires open { self.old.pool.shut ≡ false }
        requires all { waiting self.old.pool.tickets ≤ free self.old.pool }
        ensures edge { LeavesEdge self.old self.new }
        ensures becomes { self.new.pool ≡ done self.old.pool.shut (moment_of self.old.pool now) raw self.old.pool }
        ensures makes { Logs self.old.pool (done_marks self.old.pool.shut self.old.pool.next_conn (moment_of self.old.pool now) raw) self.new.pool }
    {
        match self.minimum_done(now, raw) {
            None => {}
            Some(_) => unreachable!(),
        }
    }

    /// Opens connections up to the minimum, and puts them last among the idle: one by one, while the pool is open,
    /// has fewer connections than the minimum and the maximum, and fewer tickets wait than permits are free. The first
    /// refusal, or want of memory, ends it.
    pub fn keep_minimum<O, X: Outside<C, O>>(
        &mut self,
        alloc: Global,
        now: Moment,
        options: &O,
        out: &mut X,
    ) -> Openings
        ensures keeps { KeepsMinimum X.does X.depth options.now now.0 self.old.pool self.new.pool out.old out.new result }
        // The marks are those of so many openings, and what was opened is the last of the idle.
        ensures makes { Logs self.old.pool (openings_made result.opened self.old.pool.next_conn (moment_of self.old.pool now)) self.new.pool }
        ensures opens { Opens X.depth self.old.pool self.new.pool result.opened now.0 }
        // A place is left where fewer are opened than lack, and more than lack are never opened.
        ensures most { result.opened ≤ lacks self.old.pool }
        ensures place { has_place self.old.pool.options.min_connections self.new.pool ≡ nat_lt result.opened (lacks self.old.pool) }
        ensures lacks { (marks : List Mark) → StandsFor self.old.pool marks → lacks self.old.pool ≡ lacking_at (limits_of self.old.pool.options) self.old.pool.places marks }
        // Want of memory leaves a place.
        ensures short { result.short ≡ true → (has_place self.old.pool.options.min_connections self.new.pool ≡ true) × X.IsShort out.new }
        // It ends where no place is left, where a refusal was counted, or for want of memory.
        ensures ends { EndsFor self.old.pool.options.min_connections self.new.pool (X.faults out.old) (X.faults out.new) (X.refusals out.old) (X.refusals out.new) result.short }
        // It opens past the line: who waits is entitled anyway, and the edge stays.
        ensures edge { LeavesEdge self.old self.new }
        // The counts never fall.
        ensures counts { (X.faults out.old ≤ X.faults out.new) × (X.refusals out.old ≤ X.refusals out.new) }
    {
        let hook = self.options().get_after_connect();
        // At most so many are opened.
        let _max = self.options().get_max_connections();
        let mut opened = 0;
        'places: while self.minimum_place() {
            match idle_check::try_connect::<C, O, X>(alloc, hook, options, out) {
                Opening::Opened(raw) => {
                    self.fill(now, Some(raw));
                    opened += 1;
                }
                Opening::Rejected | Opening::Transient => {
                    self.fill(now, None);
                    return Openings {
                        opened,
                        short: false,
                    };
                }
                Opening::Failed(error) => {
                    self.fill(now, None);
                    let short = is_want(&error);
                    drop(error);
                    return Openings { opened, short };
                }
            }
        }
        Openings {
            opened,
            short: false,
        }
    }
}
