//! A pool that is alone, and the questions that change nothing. The steps stand in the modules below.
//! Each is a step of the member inside, at a moment that isn't below the last one; and since a lone pool draws its own
//! numbers and owns all its permits, what it says by marks is exact.

ghost use Rattle.std.specs.Prelude.{◌≡◌, ℕ, ◌+◌, ◌<◌, ◌≤◌, max, List, [], Option, Some, None, IfOk, length, if◌then◌else◌, not};
ghost use Rattle.sqlx_pool_marks.specs.declared.mark.Mark.{Mark};
ghost use Rattle.sqlx_pool_marks.specs.Marks.{idle_of};
ghost use Rattle.sqlx_pool_marks.specs.EventTable.{size_at};
ghost use Rattle.sqlx_pool_core.specs.Logs.{moment_of};
ghost use Rattle.sqlx_pool_lists.specs.Core.{waiting, gone, free, size};
ghost use Rattle.sqlx_pool_lists.specs.Balance.{marks_due, IsBounded};
ghost use Rattle.sqlx_pool_lists.specs.Sound.{IsNumbered};
ghost use Rattle.sqlx_pool_lists.specs.StandsFor.{StandsFor};

mod ask;
mod closing;
mod counts;
mod finish;
mod give;
mod give_with;
mod keep_minimum;
mod line;
mod maintenance;
mod poll;
mod poll_with;

use crate::Member;
use sqlx_pool_lists::PoolOptions;
use sqlx_pool_places::Line;
use sqlx_text::{Moment, OutOfMemory};
use std::alloc::Global;
use std::marker::Model;

/// A pool of its own: who waits, who owns which connection, and which connections are idle. It owns all its permits,
/// and entitles by its own line.
pub struct PoolCore<C> {
    // Who waits, once more: as many are entitled as the lesser of them and the free permits.
    line: Line,
    pool: Member<C>,
}

impl<C: Drop> Drop for PoolCore<C> {
    fn drop(self) {
        let PoolCore { pool, line } = self;
        drop(pool);
        drop(line);
    }
}

impl<C> Model for PoolCore<C> {
    ghost use Rattle.sqlx_pool_core.specs.KeptLine.{IsLone};
    ghost use Rattle.sqlx_pool_core.specs.LonePool.{LonePool, lone_of};

    ghost Value = { LonePool C };

    ghost view = { λ s. lone_of s.pool s.line };

    ghost invariant = { λ s. IsLone s.pool s.line };
}

impl<C> PoolCore<C> {
    /// An empty pool. Its places for connections are reserved here, so that no later step needs memory for one.
    pub fn new(alloc: Global, options: PoolOptions) -> Result<Self, OutOfMemory>
        requires some { 1 ≤ options.max_connections }
        requires tries { (1 ≤ options.idle_tries) × (options.idle_tries ≤ 16) }
        ensures stands { IfOk result (λ core. StandsFor core.pool []) }
        ensures options { IfOk result (λ core. core.pool.options ≡ options) }
        ensures places { IfOk result (λ core. core.pool.places ≡ 0) }
        ensures last { IfOk result (λ core. core.pool.last ≡ 0) }
        ensures edge { IfOk result (λ core. (core.edge ≡ 0) × (core.moves ≡ 0)) }
    {
        let pool = Member::new(alloc, options, options.get_max_connections())?;
        let line = Line::new(alloc);
        Ok(PoolCore { pool, line })
    }

    /// How the pool was set up.
    pub fn options(&self) -> &PoolOptions
        ensures { result.now ≡ self.now.pool.options }
    {
        self.pool.options()
    }

    /// How many connections there are or may be: idle, owned and leaked ones, and one for each ticket that has
    /// left the line and for each place that is held for the minimum.
    pub fn size(&self) -> u32
        ensures marks { (marks : List Mark) → StandsFor self.now.pool marks → result ≡ size_at self.now.pool.places marks }
        ensures own { result ≡ size self.now.pool }
    {
        self.pool.size()
    }

    /// How many connections are idle.
    pub fn num_idle(&self) -> usize
        ensures marks { (marks : List Mark) → StandsFor self.now.pool marks → result ≡ length (idle_of marks) }
        ensures own { result ≡ length self.now.pool.idle }
    {
        self.pool.num_idle()
    }

    /// The moment that a step goes by: one below the last moment counts as the last one.
    pub fn moment(&self, now: Moment) -> Moment
        ensures moment { result.0 ≡ moment_of self.now.pool now }
    {
        self.pool.moment(now)
    }

    /// How many marks are made at most before the pool is closed and empty, where no ticket is asked, none is lent
    /// past the line and no place is held any more: what a log should have room for.
    pub fn due(&self) -> usize
        ensures { result ≡ marks_due self.now.pool }
    {
        self.pool.due()
    }

    /// What holds of every pool: it has at most its maximum of connections, its numbers rise and have a bound, and each
    /// connection is at one place at most. It does nothing.
    #[tactic(auto, using(crate::proofs::Soundness::numbered))]
    pub fn bounds(&self)
        ensures bounded { IsBounded self.now.pool }
        ensures numbered { IsNumbered self.now.pool }
    {
        self.pool.sound();
    }
}
