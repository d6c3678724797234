//! What keeps a pool in shape, and closing it: one locked step a connection, with the connects and closes between.

ghost use Rattle.std.specs.Prelude.{◌≡◌, ◌⊎◌, ℕ, ◌≤◌, true, false, List, Option};
ghost use mathlib.Core.List.{IsPrefix};
ghost use Rattle.sqlx_text.specs.declared.Moment.{Moment};
ghost use Rattle.sqlx_pool_marks.specs.EventTable.{is_too_old};
ghost use Rattle.sqlx_pool_lists.specs.Limits.{limits_of};
ghost use Rattle.sqlx_pool_core.specs.Giving.{is_pass};
ghost use Rattle.sqlx_pool_parts.specs.Checks.{IfPassed};
ghost use Rattle.sqlx_pool_parts.specs.Opened.{IsCounted, TellsLevels};
ghost use Rattle.sqlx_pool.specs.Reaped.{ReapsSome};
ghost use Rattle.sqlx_pool.specs.Returned.{ChecksReturn, IsTestedAt};
ghost use Rattle.sqlx_pool.specs.Seen.{HasSeen};
ghost use Rattle.sqlx_pool.specs.Calls as call;
ghost use Rattle.sqlx_pool.specs.Upkeep.{EndsKeeping, IfUnfilled, SawFilled};

use super::PoolOf;
use crate::steps::PoolSteps;
use crate::stood::FrontOf;
use sqlx_pool_core::idle_check::{Check, Opening};
use sqlx_pool_core::{Openings, Outside, PoolConnectionMetadata, PoolOptions};
use sqlx_pool_lists::beyond;
use sqlx_pool_parts::checks;
use sqlx_pool_parts::filled::Filled;
use sqlx_text::{Depth, Error, Moment};
use std::alloc::Global;
use std::sync::Wait;
use std::sync::atomic::Ordering;

// A connection that was opened at this moment is too old.
fn is_too_old(options: &PoolOptions, created: Moment, now: Moment) -> bool
    ensures { result ≡ is_too_old (limits_of options.now) created.0 now.0 }
{
    beyond(options.get_max_lifetime(), now.0.saturating_sub(created.0))
}

impl<C: Depth + Drop, O: Drop, S: PoolSteps<C, O>> PoolOf<C, O, S> {
    // Tests a connection that comes back, unless it is to be closed anyway.
    pub(crate) fn check<R: Wait, X: Outside<C, O>>(
        &self,
        rt: &R,
        closes: bool,
        created: Moment,
        now: Moment,
        raw: &mut C,
        out: &mut X,
        me: &mut FrontOf<C, O, S>,
    ) -> Check
        ensures checks { (at : Option Moment) × IsTestedAt S.stands S.tells self.now.shared.value.name closes self.now.shared.value.options created now me.old me.new at
            × ChecksReturn X.does X.depth C.levels at self.now.shared.value.options.after_release created raw.old raw.new result out.old out.new }
        ensures flat { IfPassed result (C.levels raw.new ≡ 0) }
        ensures closes { closes ≡ true → is_pass result ≡ false }
        ensures counts { (X.faults out.old ≤ X.faults out.new) × (X.refusals out.old ≤ X.refusals out.new) }
    {
        match self.tests_at(rt, closes, created, now, me) {
            None => Check::Close,
            Some(moment) => {
                let meta = PoolConnectionMetadata {
                    age: moment.0.saturating_sub(created.0),
                    idle_for: 0,
                };
                checks::may_rest::<C, O, X>(&self.shared.options, raw, meta, out)
            }
        }
    }

    // The moment at which a connection that comes back is tested; None where it is to be closed anyway. Without a hook no
    // test looks at the moment, and the lock isn't taken: what is pinged goes by the caller's moment, what is kept by the
    // pool's.
    fn tests_at<R: Wait>(
        &self,
        rt: &R,
        closes: bool,
        created: Moment,
        now: Moment,
        me: &mut FrontOf<C, O, S>,
    ) -> Option<Moment>
        ensures { IsTestedAt S.stands S.tells self.now.shared.value.name closes self.now.shared.value.options created now me.old me.new result }
    {
        if closes {
            return None;
        }
        let options = &self.shared.options;
        if options.get_after_release() || self.shared.all.closed.load(Ordering::SeqCst) {
            return self
                .lock(rt)
                .tests_at(rt, self.shared.name, created, now, me);
        }
        if is_too_old(options, created, now) {
            None
        } else {
            Some(now)
        }
    }

    /// Closes the pool: from now on it serves no ticket and keeps no connection. The idle connections are closed; their
    /// number comes back. A second close gives 0.
    pub fn close<R: Wait, X: Outside<C, O>>(&self, rt: &R, out: &mut X) -> usize
        ensures counts { (X.faults out.old ≤ X.faults out.new) × (X.refusals out.old ≤ X.refusals out.new) }
    {
        self.close_seen::<R, X>(rt, out, &mut self.front())
    }

    /// Closes the idle connections that rest for longer than the idle limit or are older than the lifetime, at most as
    /// many as the pool may have, and then keeps the minimum. How many were closed, and what the minimum came to.
    pub fn reap<R: Wait, X: Outside<C, O>>(
        &self,
        rt: &R,
        alloc: Global,
        now: Moment,
        out: &mut X,
    ) -> (u32, Openings)
        ensures most { (result.0 ≤ self.now.shared.value.options.max_connections) × (result.1.opened ≤ self.now.shared.value.options.max_connections) }
        ensures counts { (X.faults out.old ≤ X.faults out.new) × (X.refusals out.old ≤ X.refusals out.new) }
    {
        self.reap_seen::<R, X>(rt, alloc, now, out, &mut self.front())
    }

    /// As `reap`.
    pub fn reap_seen<R: Wait, X: Outside<C, O>>(
        &self,
        rt: &R,
        alloc: Global,
        now: Moment,
        out: &mut X,
        me: &mut FrontOf<C, O, S>,
    ) -> (u32, Openings)
        ensures most { (result.0 ≤ self.now.shared.value.options.max_connections) × (result.1.opened ≤ self.now.shared.value.options.max_connections) }
        ensures reaps { (seen : List S.Stood) × (between : X) × ReapsSome X.does S.stands S.does self.now.shared.value.name now result.0 me.old seen out.old between × IsPrefix seen me.new }
        ensures reaped { (result.0 ≡ self.now.shared.value.options.max_connections) ⊎ HasSeen S.stands me.old me.new (S.tells (call.NothingToReap self.now.shared.value.name now)) }
        ensures ends { TellsLevels X.depth C.levels → EndsKeeping self.now.shared.value.options (SawFilled S.stands S.tells self.now.shared.value.name me.old me.new) (IsCounted X.faults X.refusals out.old out.new) result.1 }
        ensures later { IsPrefix me.old me.new }
        ensures counts { (X.faults out.old ≤ X.faults out.new) × (X.refusals out.old ≤ X.refusals out.new) }
    {
        let reaped = self.reap_all::<R, X>(rt, now, out, me);
        let openings = self.keep_minimum_seen::<R, X>(rt, alloc, now, out, me);
        (reaped, openings)
    }

    // Closes what is to be reaped.
    fn reap_all<R: Wait, X: Outside<C, O>>(
        &self,
        rt: &R,
        now: Moment,
        out: &mut X,
        me: &mut FrontOf<C, O, S>,
    ) -> u32
        ensures reaps { (seen : List S.Stood) × ReapsSome X.does S.stands S.does self.now.shared.value.name now result me.old seen out.old out.new × IsPrefix seen me.new }
        ensures most { result ≤ self.now.shared.value.options.max_connections }
        ensures ends { (result ≡ self.now.shared.value.options.max_connections) ⊎ HasSeen S.stands me.old me.new (S.tells (call.NothingToReap self.now.shared.value.name now)) }
        ensures later { IsPrefix me.old me.new }
        ensures counts { (X.faults out.old ≤ X.faults out.new) × (X.refusals out.old ≤ X.refusals out.new) }
    {
        let max = self.shared.options.get_max_connections();
        for reaped in 0..max {
            let idle = self.lock(rt).reap(rt, self.shared.name, now, me);
            match idle {
                Some(idle) => checks::close_by::<C, O, X>(Check::Close, idle.lent.raw, out),
                None => return reaped,
            }
        }
        max
    }

    // Keeps the minimum after a loan that ended; after another nothing is opened.
    pub(crate) fn keep_minimum_if<R: Wait, X: Outside<C, O>>(
        &self,
        ended: bool,
        rt: &R,
        alloc: Global,
        now: Moment,
        out: &mut X,
        me: &mut FrontOf<C, O, S>,
    ) -> Openings
        ensures later { IsPrefix me.old me.new }
        ensures most { result.opened ≤ self.now.shared.value.options.max_connections }
        ensures counts { (X.faults out.old ≤ X.faults out.new) × (X.refusals out.old ≤ X.refusals out.new) }
    {
        if ended {
            self.keep_minimum_seen::<R, X>(rt, alloc, now, out, me)
        } else {
            Openings {
                opened: 0,
                short: false,
            }
        }
    }

    /// Opens connections up to the minimum, and puts them last among the idle: one by one, while the pool is open, has
    /// fewer connections than the minimum and the maximum, and fewer tickets wait than permits are free; at most as many
    /// as the pool may have. The first refusal, or want of memory, ends it.
    pub fn keep_minimum<R: Wait, X: Outside<C, O>>(
        &self,
        rt: &R,
        alloc: Global,
        now: Moment,
        out: &mut X,
    ) -> Openings
        ensures most { result.opened ≤ self.now.shared.value.options.max_connections }
        ensures counts { (X.faults out.old ≤ X.faults out.new) × (X.refusals out.old ≤ X.refusals out.new) }
    {
        self.keep_minimum_seen::<R, X>(rt, alloc, now, out, &mut self.front())
    }

    /// As `keep_minimum`.
    #[inline(never)]
    pub fn keep_minimum_seen<R: Wait, X: Outside<C, O>>(
        &self,
        rt: &R,
        alloc: Global,
        now: Moment,
        out: &mut X,
        me: &mut FrontOf<C, O, S>,
    ) -> Openings
        ensures most { result.opened ≤ self.now.shared.value.options.max_connections }
        ensures ends { TellsLevels X.depth C.levels → EndsKeeping self.now.shared.value.options (SawFilled S.stands S.tells self.now.shared.value.name me.old me.new) (IsCounted X.faults X.refusals out.old out.new) result }
        ensures later { IsPrefix me.old me.new }
        ensures counts { (X.faults out.old ≤ X.faults out.new) × (X.refusals out.old ≤ X.refusals out.new) }
    {
        let max = self.shared.options.get_max_connections();
        for opened in 0..max {
            match self.open_one::<R, X>(rt, alloc, now, out, me) {
                Filled::Opened => {}
                Filled::Short => {
                    return Openings {
                        opened,
                        short: true,
                    };
                }
                Filled::Full | Filled::Refused => {
                    return Openings {
                        opened,
                        short: false,
                    };
                }
            }
        }
        Openings {
            opened: max,
            short: false,
        }
    }

    // Tries to open one connection for the minimum, where a place may be held.
    fn open_one<R: Wait, X: Outside<C, O>>(
        &self,
        rt: &R,
        alloc: Global,
        now: Moment,
        out: &mut X,
        me: &mut FrontOf<C, O, S>,
    ) -> Filled
        ensures unfilled { TellsLevels X.depth C.levels → IfUnfilled result (SawFilled S.stands S.tells self.now.shared.value.name me.old me.new) (IsCounted X.faults X.refusals out.old out.new) }
        ensures later { IsPrefix me.old me.new }
        ensures counts { (X.faults out.old ≤ X.faults out.new) × (X.refusals out.old ≤ X.refusals out.new) }
    {
        let place = self
            .lock_and_cut(rt)
            .minimum_place(rt, self.shared.name, alloc, me);
        match place {
            Ok(true) => self.fill_place::<R, X>(rt, alloc, now, out, me),
            Ok(false) => Filled::Full,
            Err(_) => Filled::Short,
        }
    }

    // Tries to open a connection for a place that is held.
    fn fill_place<R: Wait, X: Outside<C, O>>(
        &self,
        rt: &R,
        alloc: Global,
        now: Moment,
        out: &mut X,
        me: &mut FrontOf<C, O, S>,
    ) -> Filled
        ensures unfilled { TellsLevels X.depth C.levels → IfUnfilled result (SawFilled S.stands S.tells self.now.shared.value.name me.old me.new) (IsCounted X.faults X.refusals out.old out.new) }
        ensures later { IsPrefix me.old me.new }
        ensures counts { (X.faults out.old ≤ X.faults out.new) × (X.refusals out.old ≤ X.refusals out.new) }
    {
        match self.open::<R, X>(rt, alloc, out, &mut self.front()) {
            Opening::Opened(raw) => self.keep_new::<R, X>(rt, now, raw, out, me),
            Opening::Rejected | Opening::Transient => {
                self.let_go(rt, now, me);
                Filled::Refused
            }
            Opening::Failed(error) => {
                self.let_go(rt, now, me);
                let filled = match &error {
                    Error::OutOfMemory => Filled::Short,
                    _ => Filled::Refused,
                };
                drop(error);
                filled
            }
        }
    }

    // Puts a new connection last among the idle; in a pool that was closed meanwhile it is closed.
    pub(super) fn keep_new<R: Wait, X: Outside<C, O>>(
        &self,
        rt: &R,
        now: Moment,
        raw: C,
        out: &mut X,
        me: &mut FrontOf<C, O, S>,
    ) -> Filled
        requires { C.levels raw ≡ 0 }
        ensures unfilled { IfUnfilled result (SawFilled S.stands S.tells self.now.shared.value.name me.old me.new) (IsCounted X.faults X.refusals out.old out.new) }
        ensures later { IsPrefix me.old me.new }
        ensures counts { (X.faults out.old ≤ X.faults out.new) × (X.refusals out.old ≤ X.refusals out.new) }
    {
        let back = self
            .lock(rt)
            .minimum_done(rt, self.shared.name, now, Some(raw), me);
        self.notify();
        match back {
            None => Filled::Opened,
            Some(raw) => {
                checks::close_by::<C, O, X>(Check::Close, raw, out);
                Filled::Full
            }
        }
    }

    // Gives a place back for which nothing was opened.
    pub(super) fn let_go<R: Wait>(&self, rt: &R, now: Moment, me: &mut FrontOf<C, O, S>)
        ensures { IsPrefix me.old me.new }
    {
        let back = self
            .lock(rt)
            .minimum_done(rt, self.shared.name, now, None, me);
        self.notify();
        drop(back);
    }
}
