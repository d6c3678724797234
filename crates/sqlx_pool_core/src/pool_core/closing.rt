//! Closing a pool, and how far it is closed.

ghost use Rattle.std.specs.Prelude.{◌≡◌, ℕ, List, true, not, map, length};
ghost use Rattle.sqlx_pool_marks.specs.declared.mark.Mark.{Mark};
ghost use Rattle.sqlx_pool_marks.specs.Marks.{is_open};
ghost use Rattle.sqlx_pool_marks.specs.EventTable.{closed_at};
ghost use Rattle.sqlx_pool_core.specs.Logs.{Logs};
ghost use Rattle.sqlx_pool_lists.specs.MaintenanceSteps.{idle_conn, close_marks, close_answer, closed_from, close_state, close_state_of};
ghost use Rattle.sqlx_pool_lists.specs.Balance.{Balance};
ghost use Rattle.sqlx_pool_lists.specs.StandsFor.{StandsFor};
ghost use Rattle.sqlx_pool_core.specs.LonePool.{LeavesEdge};

use super::PoolCore;
use sqlx_pool_lists::{CloseState, Idle};
use std::collections::VecDeque;

impl<C> PoolCore<C> {
    /// Closes the pool: from now on it serves no ticket and keeps no connection. The idle connections come back in
    /// their order, and the caller closes them. A second close gives none, and changes nothing.
    pub fn close(&mut self) -> VecDeque<Idle<C>>
        ensures marks { (marks : List Mark) → StandsFor self.old.pool marks → map idle_conn result.items ≡ closed_at marks }
        ensures makes { Logs self.old.pool (close_marks self.old.pool.shut result.items) self.new.pool }
        ensures answer { result.items ≡ close_answer self.old.pool.shut self.old.pool.idle }
        ensures becomes { self.new.pool ≡ closed_from self.old.pool.shut self.old.pool }
        ensures closed { self.new.pool.shut ≡ true }
        ensures balance { Balance self.old.pool self.new.pool (close_marks self.old.pool.shut result.items) 0 0 }
        ensures edge { LeavesEdge self.old self.new }
    {
        let idle = self.pool.close();
        self.pool.sound();
        idle
    }

    /// How far the pool is closed.
    pub fn closing(&self) -> CloseState
        ensures marks { (marks : List Mark) → StandsFor self.now.pool marks → result ≡ close_state_of marks }
        ensures own { result ≡ close_state self.now.pool.shut (length self.now.pool.held) self.now.pool.leaked (length self.now.pool.tickets) }
    {
        self.pool.closing()
    }

    /// Whether the pool is closed.
    pub fn is_closed(&self) -> bool
        ensures marks { (marks : List Mark) → StandsFor self.now.pool marks → is_open marks ≡ not result }
        ensures own { result ≡ self.now.pool.shut }
    {
        self.pool.is_shut()
    }
}
