//! The steps that keep a pool in shape: reaping, places for the minimum, and closing.

ghost use Rattle.std.specs.Prelude.{◌≡◌, ℕ, ◌+◌, ◌++◌, List, true, map, max, option_map, IfSome, OnOk, OnErr, IfOk};
ghost use Rattle.std.specs.List.{list_any};
ghost use Rattle.sqlx_pool_marks.specs.Marks.{is_shut, next_conn};
ghost use Rattle.sqlx_pool_marks.specs.EventTable.{reaped_at, has_place_at, closed_at};
ghost use Rattle.sqlx_pool_lists.specs.MaintenanceSteps.{idle_conn, reap_answer, reap_marks, reaped, placed, close_marks, closed_from, close_answer};
ghost use Rattle.sqlx_pool_lists.specs.Limits.{limits_of};
ghost use Rattle.sqlx_pool_core.specs.Logs.{moment_of};
ghost use Rattle.sqlx_pool.specs.Places.{holds_place, done_if, done_if_marks, back_if};
ghost use Rattle.sqlx_pool.specs.Steps.{passes};

use super::Locked;
use crate::Loans;
use sqlx_pool_core::Idle;
use sqlx_pool_parts::answers::opens;
use sqlx_pool_parts::record;
use sqlx_text::{Depth, Moment, OutOfMemory};
use std::alloc::Global;
use std::collections::VecDeque;
use std::sync::ledger::Ledger;

// How many marks a place for the minimum may lead to.
const PLACE_ROOM: usize = 3;

impl<C: Depth, O, H: Ledger, L: Loans> Locked<C, O, H, L> {
    /// Takes the first idle connection that rests for longer than the idle limit or is older than the lifetime, which
    /// the caller closes: where the pool is open and fewer tickets wait than permits are free. Otherwise nothing changes.
    pub fn reap(&mut self, now: Moment) -> Option<Idle<C>>
        ensures answer { option_map idle_conn result ≡ reaped_at (limits_of self.old.core.options) self.old.core.places self.old.marks (moment_of self.old.core now) }
        ensures first { result ≡ reap_answer (passes self.old.core) self.old.core.options (moment_of self.old.core now) self.old.core.idle }
        ensures marks { self.new.marks ≡ self.old.marks ++ reap_marks result }
        ensures becomes { self.new.core ≡ reaped (moment_of self.old.core now) result self.old.core }
        ensures connect { self.new.connect ≡ self.old.connect }
    {
        let idle = self.core.reap(now);
        record::reap(&mut self.log, &idle);
        idle
    }

    /// Holds a place for one connection that is opened before any client asks: as `minimum_place`, but at a minimum of 0
    /// as at 1.
    pub fn first_place(&mut self, _alloc: Global) -> Result<bool, OutOfMemory>
        ensures answer { IfOk result (λ place. place ≡ has_place_at (limits_of self.old.core.options) self.old.core.places self.old.marks (max self.old.core.options.min_connections 1)) }
        ensures becomes { IfOk result (λ place. self.new.core ≡ placed place self.old.core) }
        ensures marks { self.new.marks ≡ self.old.marks }
        ensures connect { self.new.connect ≡ self.old.connect }
        ensures err { OnErr result (self.new ≡ self.old) }
    {
        if !self.log.reserve(self.core.due(), PLACE_ROOM) {
            return Err(OutOfMemory);
        }
        Ok(self.core.first_place())
    }

    /// Holds a place for one connection of the minimum, which the caller opens and tells of by `minimum_done`: where the
    /// pool is open, fewer tickets wait than permits are free, the pool has fewer connections than the minimum and the
    /// maximum, and the numbers of connections aren't used up. Otherwise nothing changes. The memory for the marks of the
    /// connection is reserved here, before the rules are asked.
    pub fn minimum_place(&mut self, _alloc: Global) -> Result<bool, OutOfMemory>
        ensures answer { IfOk result (λ place. place ≡ has_place_at (limits_of self.old.core.options) self.old.core.places self.old.marks self.old.core.options.min_connections) }
        ensures becomes { IfOk result (λ place. self.new.core ≡ placed place self.old.core) }
        ensures marks { self.new.marks ≡ self.old.marks }
        ensures connect { self.new.connect ≡ self.old.connect }
        ensures err { OnErr result (self.new ≡ self.old) }
    {
        if !self.log.reserve(self.core.due(), PLACE_ROOM) {
            return Err(OutOfMemory);
        }
        Ok(self.core.minimum_place())
    }

    /// Tells what came of the connection for which a place was held; it has no level open. A new connection is put last
    /// among the idle; in a pool that was closed meanwhile it comes back, and the caller closes it. Where no place is
    /// held nothing changes, and what was handed in comes back.
    pub fn minimum_done(&mut self, now: Moment, raw: Option<C>) -> Option<C>
        requires flat { IfSome raw (λ conn. C.levels conn ≡ 0) }
        ensures answer { result ≡ back_if (holds_place self.old.core) (list_any is_shut self.old.marks) raw }
        ensures marks { self.new.marks ≡ self.old.marks ++ done_if_marks (holds_place self.old.core) (list_any is_shut self.old.marks) (next_conn self.old.marks) (moment_of self.old.core now) raw }
        ensures becomes { self.new.core ≡ done_if (holds_place self.old.core) (moment_of self.old.core now) raw self.old.core }
        ensures connect { self.new.connect ≡ self.old.connect }
    {
        if self.core.num_places() == 0 {
            return raw;
        }
        let shut = self.core.is_closed();
        let opens = opens(shut, &raw);
        let conn = self.core.numbers().next_conn;
        let moment = self.core.moment(now);
        let back = self.core.minimum_done(now, raw);
        record::open_if(&mut self.log, opens, conn, moment.0);
        back
    }

    /// Closes the pool: from now on it serves no ticket and keeps no connection. The idle connections come back in their
    /// order, and the caller closes them. A second close gives none, and changes nothing.
    pub fn close(&mut self) -> VecDeque<Idle<C>>
        ensures answer { map idle_conn result.items ≡ closed_at self.old.marks }
        ensures idle { result.items ≡ close_answer self.old.core.shut self.old.core.idle }
        ensures marks { self.new.marks ≡ self.old.marks ++ close_marks (list_any is_shut self.old.marks) result.items }
        ensures becomes { self.new.core ≡ closed_from self.old.core.shut self.old.core }
        ensures closed { self.new.core.shut ≡ true }
        ensures connect { self.new.connect ≡ self.old.connect }
    {
        let shut = self.core.is_closed();
        let idle = self.core.close();
        record::close(&mut self.log, shut, &idle);
        idle
    }
}
