//! What the value under the lock is asked without a change, and its connect options.

ghost use Rattle.std.specs.Prelude.{◌≡◌, ◌≤◌, ℕ, ◌+◌, ◌++◌, List, not, length, IfOk};
ghost use Rattle.std.specs.List.{list_any};
ghost use Rattle.sqlx_pool_marks.specs.Marks.{is_shut, is_open, idle_of};
ghost use Rattle.sqlx_pool_marks.specs.EventTable.{closes, size_at};
ghost use Rattle.sqlx_pool_lists.specs.MaintenanceSteps.{close_state_of};
ghost use Rattle.sqlx_pool_lists.specs.Limits.{limits_of};
ghost use Rattle.sqlx_pool_core.specs.Logs.{moment_of};
ghost use Rattle.sqlx_pool_lists.specs.Balance.{lents};
ghost use Rattle.sqlx_pool_parts.specs.State.{IsStanding, start_of, since_start};

use super::Locked;
use crate::{Loans, MarkLog, Tally};
use sqlx_pool_core::{CloseState, Mark, PoolOptions};
use sqlx_text::{Depth, Moment, OutOfMemory};
use std::alloc::Global;
use std::mem;
use std::sync::ledger::Ledger;

// A copy of these marks.
fn copied(alloc: Global, marks: &[Mark]) -> Result<Vec<Mark>, OutOfMemory>
    ensures { IfOk result (λ copy. copy.items ≡ marks.now) }
{
    let mut copy = Vec::new(alloc);
    match copy.extend_from_slice(marks) {
        Ok(()) => Ok(copy),
        Err(_) => Err(OutOfMemory),
    }
}

impl<C: Depth, O, H: Ledger, L: Loans> Locked<C, O, H, L> {
    /// What holds of the value whenever its lock is free.
    pub fn facts(&self)
        ensures { IsStanding C.levels L.max L.cuts self.now }
    {
        let _ = &self.core;
    }

    /// Counts the loans by the tally with every part: they are the `Lent` marks of the log.
    pub fn audit(&mut self, all: &mut Tally<L>)
        requires { all.old.parts ≡ L.parts }
        ensures counted { self.new.start.lent_before + lents self.new.marks ≡ all.old.loans }
        ensures marks { self.new.marks ≡ self.old.marks }
        ensures start { self.new.start ≡ self.old.start }
        ensures core { self.new.core ≡ self.old.core }
        ensures connect { self.new.connect ≡ self.old.connect }
        ensures same { all.new ≡ all.old }
    {
        self.books.audit(all);
    }

    /// How the pool was set up.
    pub fn options(&self) -> &PoolOptions
        ensures { result.now ≡ self.now.core.options }
    {
        self.core.options()
    }

    /// The options by which connections are opened.
    pub fn connect_options(&self) -> &O
        ensures { result.now ≡ self.now.connect }
    {
        &self.connect
    }

    /// Sets the options by which connections are opened from now on; the former ones come back.
    pub fn set_connect_options(&mut self, options: O) -> O
        ensures former { result ≡ self.old.connect }
        ensures set { self.new ≡ record self.old { connect = options } }
    {
        mem::replace(&mut self.connect, options)
    }

    /// The moment that a step goes by: one below the last moment counts as the last one.
    pub fn moment(&self, now: Moment) -> Moment
        ensures { result.0 ≡ moment_of self.now.core now }
    {
        self.core.moment(now)
    }

    /// Whether a connection of this opening would be closed rather than kept.
    pub fn must_close(&self, created: Moment, now: Moment) -> bool
        ensures { result ≡ closes (limits_of self.now.core.options) (list_any is_shut self.now.marks) created.0 (moment_of self.now.core now) }
    {
        self.core.must_close(created, now)
    }

    /// How many connections there are or may be: at most the maximum.
    pub fn size(&self) -> u32
        ensures marks { result ≡ size_at self.now.core.places self.now.marks }
        ensures most { result ≤ L.max }
    {
        self.core.bounds();
        self.core.size()
    }

    /// How many connections are idle: at most the maximum.
    pub fn num_idle(&self) -> usize
        ensures marks { result ≡ length (idle_of self.now.marks) }
        ensures most { result ≤ L.max }
    {
        self.core.bounds();
        self.core.num_idle()
    }

    /// Whether the pool is closed.
    pub fn is_closed(&self) -> bool
        ensures { is_open self.now.marks ≡ not result }
    {
        self.core.is_closed()
    }

    /// How far the pool is closed.
    pub fn closing(&self) -> CloseState
        ensures { result ≡ close_state_of self.now.marks }
    {
        self.core.closing()
    }

    /// How many marks the log has behind its start.
    pub fn log_len(&self) -> usize
        ensures { result ≡ length (since_start self.now) }
    {
        self.log.len() - self.start.len
    }

    /// A copy of the log: its start, and the marks behind it.
    pub fn read_log(&self, alloc: Global) -> Result<MarkLog, OutOfMemory>
        ensures start { IfOk result (λ log. log.start.items ≡ start_of self.now) }
        ensures marks { IfOk result (λ log. log.marks.items ≡ since_start self.now) }
        ensures before { IfOk result (λ log. log.lent_before ≡ self.now.start.lent_before) }
    {
        let Ok(mut start) = self.log.marks(alloc) else {
            return Err(OutOfMemory);
        };
        let marks = copied(alloc, &start[self.start.len..])?;
        start.truncate(self.start.len);
        Ok(MarkLog::new(start, self.start.lent_before, marks))
    }
}
