//! The idle connections, those that rest longest first. The reaps of one moment look at each one about once and remove none
//! from the middle, and where none of them can be beyond a limit a reap looks at none.
ghost use Rattle.std.specs.Prelude.{◌≡◌, ◌≤◌, ◌<◌, ◌==◌, ◌+◌, ◌∷◌, ◌++◌, [], ℕ, Option, None, IfOk, take, drop, find, length, option_to_list, IsSome, ◌↔◌};
ghost use Rattle.sqlx_pool_lists.specs.MaintenanceSteps.{is_reaped_at, without_first};
ghost use Rattle.sqlx_pool_lists.specs.IdleList.{FitsInEach};

use crate::idle_row::IdleRow;
use crate::{Idle, Lent, PoolOptions};
use sqlx_text::{Moment, OutOfMemory};
use std::alloc::Global;
use std::collections::VecDeque;
use std::marker::Model;

/// Idle connections, in the order of their coming back.
pub struct IdleList<C> {
    // Those behind them.
    rest: IdleRow<C>,
    // Each row has room for so many.
    room: usize,
    // The first ones, among which the last reap found none beyond a limit.
    fresh: IdleRow<C>,
}

impl<C: Drop> Drop for IdleList<C> {
    fn drop(self) {
        let IdleList {
            fresh,
            rest,
            room: _,
        } = self;
        drop(fresh);
        drop(rest);
    }
}

impl<C> Model for IdleList<C> {
    ghost use Rattle.std.specs.Prelude.{◌++◌};
    ghost use Rattle.sqlx_pool_lists.specs.IdleList.{IdleQueue, FitsInEach};

    ghost Value = { IdleQueue C };

    ghost view = { λ s. record { items = s.fresh.items ++ s.rest.items; room = s.room } };

    ghost invariant = { λ s. FitsInEach s.room s.fresh s.rest };
}

// Puts so many of the first of a row behind another.
fn append<C>(front: &mut IdleRow<C>, back: &mut IdleRow<C>, count: usize)
    requires { length front.old.items + length back.old.items ≤ front.old.room }
    ensures put { front.new.items ≡ front.old.items ++ take count back.old.items }
    ensures left { back.new.items ≡ drop count back.old.items }
    ensures front { front.new.room ≡ front.old.room }
    ensures back { back.new.room ≡ back.old.room }
{
    let mut more = count;
    while more > 0 {
        let Some(idle) = back.pop_front() else {
            return;
        };
        front.push(idle);
        more -= 1;
    }
}

// Puts the last of a row in front of another, until so many are left.
fn put_back<C>(front: &mut IdleRow<C>, back: &mut IdleRow<C>, left: usize)
    requires { length front.old.items + length back.old.items ≤ back.old.room }
    ensures items { front.new.items ++ back.new.items ≡ front.old.items ++ back.old.items }
    ensures left { front.new.items ≡ take left front.old.items }
    ensures front { front.new.room ≡ front.old.room }
    ensures back { back.new.room ≡ back.old.room }
{
    while front.len() > left {
        let Some(idle) = front.pop_back() else {
            return;
        };
        back.push_front(idle);
    }
}

// Where one of those that were fresh is beyond a limit now, only those before it are fresh.
fn look_anew<C>(
    fresh: &mut IdleRow<C>,
    rest: &mut IdleRow<C>,
    options: &PoolOptions,
    moment: Moment,
)
    requires { length fresh.old.items + length rest.old.items ≤ rest.old.room }
    ensures items { fresh.new.items ++ rest.new.items ≡ fresh.old.items ++ rest.old.items }
    ensures none { find (is_reaped_at options.now moment.0) fresh.new.items ≡ None }
    ensures fresh { fresh.new.room ≡ fresh.old.room }
    ensures capacity { rest.new.room ≡ rest.old.room }
{
    if let Some(at) = fresh.first_beyond(options, moment) {
        put_back(fresh, rest, at);
    }
}

// Takes the first of the rest that is beyond a limit. Those before it are fresh.
fn next_beyond<C>(
    fresh: &mut IdleRow<C>,
    rest: &mut IdleRow<C>,
    options: &PoolOptions,
    moment: Moment,
) -> Option<Idle<C>>
    requires { length fresh.old.items + length rest.old.items ≤ fresh.old.room }
    ensures first { result ≡ find (is_reaped_at options.now moment.0) rest.old.items }
    ensures rest { fresh.new.items ++ rest.new.items ≡ fresh.old.items ++ without_first (is_reaped_at options.now moment.0) rest.old.items }
    ensures fresh { fresh.new.room ≡ fresh.old.room }
    ensures capacity { rest.new.room ≡ rest.old.room }
{
    let at = rest.first_beyond(options, moment)?;
    append(fresh, rest, at);
    rest.pop_front()
}

impl<C> IdleList<C> {
    /// No connections, with room for so many.
    pub fn with_capacity(alloc: Global, room: usize) -> Result<IdleList<C>, OutOfMemory>
        ensures items { IfOk result (λ idle. idle.items ≡ []) }
        ensures capacity { IfOk result (λ idle. room ≤ idle.room) }
    {
        let fresh = IdleRow::with_capacity(alloc, room)?;
        match IdleRow::with_capacity(alloc, room) {
            Ok(rest) => Ok(IdleList { fresh, rest, room }),
            Err(error) => {
                fresh.destroy_empty();
                Err(error)
            }
        }
    }

    /// How many there are.
    pub fn len(&self) -> usize
        ensures { result ≡ length self.now.items }
    {
        self.fresh.len() + self.rest.len()
    }

    /// There is none.
    pub fn is_empty(&self) -> bool
        ensures { result ≡ (length self.now.items == 0) }
    {
        self.len() == 0
    }

    /// Puts a connection last.
    pub fn push(&mut self, lent: Lent<C>, since: Moment)
        requires { length self.old.items < self.old.room }
        ensures rest { self.new.items ≡ self.old.items ++ (record { lent = lent; since = since }) ∷ [] }
        ensures capacity { self.new.room ≡ self.old.room }
    {
        self.rest.push(Idle { lent, since });
    }

    /// Takes the first.
    #[inline(always)]
    pub fn pop_front(&mut self) -> Option<Idle<C>>
        ensures items { self.old.items ≡ option_to_list result ++ self.new.items }
        ensures variant { IsSome result ↔ (0 < length self.old.items) }
        ensures rest { self.new.items ≡ drop 1 self.old.items }
        ensures capacity { self.new.room ≡ self.old.room }
    {
        match self.fresh.pop_front() {
            Some(first) => Some(first),
            None => self.rest.pop_front(),
        }
    }

    /// Takes all.
    pub fn take_all(&mut self) -> VecDeque<Idle<C>>
        ensures all { result.items ≡ self.old.items }
        ensures items { self.new.items ≡ [] }
    {
        let all = self.rest.len();
        append(&mut self.fresh, &mut self.rest, all);
        self.room = 0;
        self.fresh.take_all()
    }

    /// None, in the same memory.
    pub fn none(&self) -> VecDeque<Idle<C>>
        ensures { result.items ≡ [] }
    {
        self.fresh.none()
    }

    /// Takes the first that is beyond a limit; the others keep their order.
    pub fn take_reaped(&mut self, options: &PoolOptions, moment: Moment) -> Option<Idle<C>>
        ensures first { result ≡ find (is_reaped_at options.now moment.0) self.old.items }
        ensures rest { self.new.items ≡ without_first (is_reaped_at options.now moment.0) self.old.items }
        ensures capacity { self.new.room ≡ self.old.room }
    {
        look_anew(&mut self.fresh, &mut self.rest, options, moment);
        next_beyond(&mut self.fresh, &mut self.rest, options, moment)
    }
}
