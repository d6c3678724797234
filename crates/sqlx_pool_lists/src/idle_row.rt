//! Idle connections in a row, with bounds of their moments: where by these none can be beyond a limit, none is looked at.
ghost use Rattle.std.specs.Prelude.{◌≡◌, ◌≤◌, ◌<◌, ◌==◌, ◌||◌, ◌∷◌, ◌++◌, [], Option, Some, None, IfOk, drop, find, length, true, false, option_to_list, IfSome, IfNone, IsSome, ◌↔◌};
ghost use Rattle.std.specs.List.{position_or_len};
ghost use Rattle.sqlx_pool_marks.specs.EventTable.{is_beyond};
ghost use Rattle.sqlx_pool_lists.specs.MaintenanceSteps.{is_reaped_at};
ghost use Rattle.sqlx_pool_lists.specs.IdleList.{AreOpenedFrom, AreRestingFrom, AreRestingBy, AreInTurn};

use crate::{Idle, PoolOptions};
use sqlx_text::{Moment, OutOfMemory};
use std::alloc::Global;
use std::collections::VecDeque;
use std::marker::Model;
use std::mem;

/// Idle connections, in the order of their coming back.
pub struct IdleRow<C> {
    list: VecDeque<Idle<C>>,
    // None of them was opened before this moment.
    opened_from: u64,
    // None rests for longer than one before it.
    in_turn: bool,
}

impl<C: Drop> Drop for IdleRow<C> {
    fn drop(self) {
        let IdleRow {
            list,
            opened_from: _,
            in_turn: _,
        } = self;
        drop(list);
    }
}

impl<C> Model for IdleRow<C> {
    ghost use Rattle.std.specs.VecDeque.{deque_capacity};
    ghost use Rattle.sqlx_pool_lists.specs.IdleList.{IdleQueue, AreBounded};

    ghost Value = { IdleQueue C };

    ghost view = { λ s. record { items = s.list.items; room = deque_capacity s.list } };

    ghost invariant = { λ s. AreBounded s.list.items s.opened_from s.in_turn };
}

/// A duration is above its limit; without a limit none is.
pub fn beyond(limit: Option<u64>, duration: u64) -> bool
    ensures { result ≡ is_beyond limit duration }
{
    match limit {
        Some(limit) => limit < duration,
        None => false,
    }
}

// An idle connection is beyond the idle limit or the lifetime.
fn is_reaped<C>(options: &PoolOptions, idle: &Idle<C>, moment: Moment) -> bool
    ensures { result ≡ is_reaped_at options.now moment.0 idle.now }
{
    let rest = moment.0.saturating_sub(idle.since.0);
    let age = moment.0.saturating_sub(idle.lent.created.0);
    beyond(options.get_idle_timeout(), rest) || beyond(options.get_max_lifetime(), age)
}

// When the oldest of them was opened.
fn first_opening<C>(list: &VecDeque<Idle<C>>) -> u64
    ensures { AreOpenedFrom result list.now.items }
{
    let mut first = u64::MAX;
    for idle in list.iter() {
        first = first.min(idle.lent.created.0);
    }
    first
}

impl<C> IdleRow<C> {
    /// No connections, with room for so many.
    pub fn with_capacity(alloc: Global, room: usize) -> Result<IdleRow<C>, OutOfMemory>
        ensures items { IfOk result (λ idle. idle.items ≡ []) }
        ensures capacity { IfOk result (λ idle. room ≤ idle.room) }
    {
        match VecDeque::with_capacity(alloc, room) {
            Ok(list) => Ok(IdleRow {
                list,
                opened_from: u64::MAX,
                in_turn: true,
            }),
            Err(_) => Err(OutOfMemory),
        }
    }

    /// Lets a row without connections go.
    pub fn destroy_empty(self)
        requires { self.items ≡ [] }
    {
        let IdleRow {
            list,
            opened_from: _,
            in_turn: _,
        } = self;
        list.destroy_empty();
    }

    /// How many there are.
    pub fn len(&self) -> usize
        ensures { result ≡ length self.now.items }
    {
        self.list.len()
    }

    /// There is none.
    pub fn is_empty(&self) -> bool
        ensures { result ≡ (length self.now.items == 0) }
    {
        self.list.is_empty()
    }

    /// Puts a connection last. The bounds begin anew with the first.
    pub fn push(&mut self, idle: Idle<C>)
        requires { length self.old.items < self.old.room }
        ensures items { self.new.items ≡ self.old.items ++ idle ∷ [] }
        ensures capacity { self.new.room ≡ self.old.room }
    {
        let in_turn = self.stays_in_turn(idle.since);
        self.opened_from = self.opened_before(idle.lent.created);
        self.in_turn = in_turn;
        self.list.push_back_reserved(idle);
    }

    /// Puts a connection first. The bounds begin anew with one that is alone.
    pub fn push_front(&mut self, idle: Idle<C>)
        requires { length self.old.items < self.old.room }
        ensures items { self.new.items ≡ idle ∷ self.old.items }
        ensures capacity { self.new.room ≡ self.old.room }
    {
        let in_turn = self.leads_in_turn(idle.since);
        self.opened_from = self.opened_before(idle.lent.created);
        self.in_turn = in_turn;
        self.list.push_front_reserved(idle);
    }

    /// Takes the last.
    pub fn pop_back(&mut self) -> Option<Idle<C>>
        ensures items { self.old.items ≡ self.new.items ++ option_to_list result }
        ensures variant { IsSome result ↔ (0 < length self.old.items) }
        ensures capacity { self.new.room ≡ self.old.room }
    {
        self.list.pop_back()
    }

    /// Takes the first.
    pub fn pop_front(&mut self) -> Option<Idle<C>>
        ensures items { self.old.items ≡ option_to_list result ++ self.new.items }
        ensures variant { IsSome result ↔ (0 < length self.old.items) }
        ensures rest { self.new.items ≡ drop 1 self.old.items }
        ensures capacity { self.new.room ≡ self.old.room }
    {
        self.list.pop_front()
    }

    /// Takes all.
    pub fn take_all(&mut self) -> VecDeque<Idle<C>>
        ensures all { result.items ≡ self.old.items }
        ensures items { self.new.items ≡ [] }
    {
        let none = self.none();
        mem::replace(&mut self.list, none)
    }

    /// None, in the same memory.
    pub fn none(&self) -> VecDeque<Idle<C>>
        ensures { result.items ≡ [] }
    {
        VecDeque::new(*self.list.allocator())
    }

    // A moment at which all rested, where they are in turn.
    fn last_since(&self) -> u64
        ensures { AreInTurn self.now.items → AreRestingBy result self.now.items }
    {
        match self.list.back() {
            Some(last) => last.since.0,
            None => 0,
        }
    }

    // They are in turn, and so they are before one that comes back at this moment.
    fn stays_in_turn(&self, since: Moment) -> bool
        ensures { result ≡ true → AreInTurn self.now.items × AreRestingBy since.0 self.now.items }
    {
        self.list.is_empty() || self.in_turn && self.last_since() <= since.0
    }

    // They are in turn, and so they are behind one that came back at this moment.
    fn leads_in_turn(&self, since: Moment) -> bool
        ensures { result ≡ true → AreRestingFrom since.0 self.now.items × AreInTurn self.now.items }
    {
        self.list.is_empty() || self.in_turn && since.0 <= self.first_since()
    }

    // A moment before which none of them was opened, nor one that was opened at this moment.
    fn opened_before(&self, created: Moment) -> u64
        ensures old { AreOpenedFrom result self.now.items }
        ensures one_more { result ≤ created.0 }
    {
        if self.list.is_empty() {
            created.0
        } else {
            self.opened_from.min(created.0)
        }
    }

    // A moment before which none of them rested.
    fn first_since(&self) -> u64
        ensures { AreRestingFrom result self.now.items }
    {
        match self.list.front() {
            Some(first) if self.in_turn => first.since.0,
            _ => 0,
        }
    }

    // One of them may be beyond a limit.
    fn may_be_reaped(&self, options: &PoolOptions, moment: Moment) -> bool
        ensures { result ≡ false → find (is_reaped_at options.now moment.0) self.now.items ≡ None }
    {
        if self.list.is_empty() {
            return false;
        }
        let rest = moment.0.saturating_sub(self.first_since());
        let age = moment.0.saturating_sub(self.opened_from);
        beyond(options.get_idle_timeout(), rest) || beyond(options.get_max_lifetime(), age)
    }

    /// Where the first stands that is beyond a limit. A look that finds none makes the bound of the openings exact.
    pub fn first_beyond(&mut self, options: &PoolOptions, moment: Moment) -> Option<usize>
        ensures items { self.new.items ≡ self.old.items }
        ensures capacity { self.new.room ≡ self.old.room }
        ensures some { IfSome result (λ at. (at ≡ position_or_len (is_reaped_at options.now moment.0) self.old.items) × (at < length self.old.items)) }
        ensures none { IfNone result (find (is_reaped_at options.now moment.0) self.old.items ≡ None) }
    {
        if !self.may_be_reaped(options, moment) {
            return None;
        }
        let found = self.list.iter().position(|i| is_reaped(options, i, moment));
        if found.is_none() {
            self.opened_from = first_opening(&self.list);
        }
        found
    }
}
