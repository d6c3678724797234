//! A connection's own writes, and the savepoints to which they can go back.
//!
//! A savepoint copies nothing: each write behind one notes what stood there, and going back undoes the writes.
//! So the memory is that of the writes and savepoints, however many of both there are.
ghost use Rattle.std.specs.Prelude.{◌≡◌, ℕ, ◌+◌, ◌≤◌, ◌<◌, ◌==◌, length, min, IfOk, OnOk, OnErr, IsSome, is_some};
ghost use Rattle.std.specs.VecDeque.{deque_len, deque_capacity};
ghost use Rattle.std.specs.List.{list_any};
ghost use Rattle.std.specs.FinMap as finite;
ghost use Rattle.sqlx_savepoints.specs.Rows.{laid};
ghost use Rattle.sqlx_savepoints.specs.NamedSavepoints.{newest};
ghost use Rattle.mem_store.specs.Undo.{CountsFall, noted};

use crate::rows::Rows;
use crate::saved::{Change, Saved};
use crate::writes::Writes;
use sqlx_pool_places::Steps;
use sqlx_text::OutOfMemory;
use std::alloc::Global;
use std::collections::VecDeque;
use std::marker::Model;
use std::sync::ledger::Ledger;

/// Own writes and savepoints.
pub(crate) struct SavepointStack {
    own: Writes,
    // The newest first, as the changes.
    saved: VecDeque<Saved>,
    changes: VecDeque<Change>,
    // How many writes came while there was no savepoint. They are counted, and nothing is noted: only the end of the
    // level goes back to before them.
    unnoted: usize,
}

impl Drop for SavepointStack {
    fn drop(self) {
        let SavepointStack {
            own,
            saved,
            changes,
            unnoted: _,
        } = self;
        drop(own);
        drop(saved);
        drop(changes);
    }
}

impl Model for SavepointStack {
    ghost use Rattle.std.specs.Prelude.{length, ◌+◌, ◌<◌, ◌^◌};
    ghost use Rattle.mem_store.specs.SavepointStack as values;

    ghost Value = { values.SavepointStack };

    ghost coded = { values.stack_code };

    ghost use Rattle.mem_store.specs.Undo.{undo_behind};
    ghost use Rattle.mem_store.specs.UndoLog.{entries_at, AreMarked};

    ghost view = { λ a. record { own = a.own; entries = entries_at a.own a.changes.items a.saved.items; undo = undo_behind a.unnoted (length a.changes.items) a.saved.items } };

    ghost invariant = { λ a. AreMarked (length a.changes.items) a.saved.items × (a.unnoted + length a.changes.items < 2 ^ 64) };
}

impl SavepointStack {
    ghost use Rattle.mem_store.specs.SavepointStack.{no_savepoints, saved_at, released_to, restored_to};

    pub(crate) fn new(alloc: Global) -> SavepointStack
        ensures { result ≡ no_savepoints }
    {
        SavepointStack {
            own: Writes::new(alloc),
            saved: VecDeque::new(alloc),
            changes: VecDeque::new(alloc),
            unnoted: 0,
        }
    }

    pub(crate) fn clear(&mut self)
        ensures { self.new ≡ no_savepoints }
    {
        self.own.clear();
        self.saved.clear();
        self.changes.clear();
        self.unnoted = 0;
    }

    pub(crate) fn get(&self, key: i64) -> Option<Option<i64>>
        ensures { result ≡ finite.get self.now.own key }
    {
        self.own.get(key)
    }

    /// Lays the own writes over the rows, in place. Where memory is wanting the rows are as before.
    pub(crate) fn lay_over(&self, rows: &mut Rows) -> Result<(), OutOfMemory>
        ensures ok { OnOk result (rows.new ≡ laid self.now.own rows.old) }
        ensures err { OnErr result (rows.new ≡ rows.old) }
    {
        self.own.lay_over(rows)
    }

    /// New rows: the own writes laid over the given ones.
    pub(crate) fn laid_over(&self, rows: &Rows) -> Result<Rows, OutOfMemory>
        ensures { IfOk result (λ made. made ≡ laid self.now.own rows.now) }
    {
        self.own.laid_over(rows)
    }

    /// Whether a savepoint has this name.
    pub(crate) fn has(&self, name: u64) -> bool
        ensures { result ≡ is_some (newest name self.now.entries) }
    {
        is_among(&self.saved, name)
    }

    pub(crate) fn save(&mut self, name: u64) -> Result<(), OutOfMemory>
        ensures ok { OnOk result (self.new ≡ saved_at name self.old) }
        ensures err { OnErr result (self.new ≡ self.old) }
    {
        let mark = self.changes.len();
        make_room(&mut self.saved)?;
        self.saved.push_front_reserved(Saved { name, mark });
        Ok(())
    }

    pub(crate) fn release(&mut self, name: u64)
        requires { IsSome (newest name self.old.entries) }
        ensures { self.new ≡ released_to name self.old }
    {
        uncover(&mut self.saved, name);
        let _ = self.saved.pop_front();
    }

    /// Goes back to the newest savepoint of the name. Each change that is undone is a step.
    pub(crate) fn restore<L: Ledger>(&mut self, name: u64, steps: &mut Steps<L>)
        requires { IsSome (newest name self.old.entries) }
        ensures becomes { self.new ≡ restored_to name self.old }
        ensures count { CountsFall steps.old self.old.undo steps.new self.new.undo }
    {
        if let Some(mark) = uncover(&mut self.saved, name) {
            go_back(&mut self.own, &mut self.changes, mark, steps);
        }
    }

    /// Takes all writes back. Each is a step.
    pub(crate) fn undo_all<L: Ledger>(&mut self, steps: &mut Steps<L>)
        ensures becomes { self.new ≡ no_savepoints }
        ensures count { CountsFall steps.old self.old.undo steps.new self.new.undo }
    {
        tick_for(self.undo_len(), steps);
        self.clear();
    }

    /// How many writes there are to go back over.
    pub(crate) fn undo_len(&self) -> usize
        ensures { result ≡ self.now.undo.len }
    {
        self.unnoted + self.changes.len()
    }

    /// A write, and behind a savepoint a note of what stood at its key. Room for the note comes first, so that
    /// the own writes are searched once.
    pub(crate) fn insert(&mut self, key: i64, value: Option<i64>) -> Result<(), OutOfMemory>
        ensures ok { OnOk result (self.new ≡ record self.old { own = finite.insert self.old.own key value; undo = noted self.old.undo }) }
        ensures err { OnErr result (self.new ≡ self.old) }
    {
        if self.undo_len() == usize::MAX {
            return Err(OutOfMemory);
        }
        if self.saved.is_empty() {
            let _ = self.own.insert(key, value)?;
            self.unnoted += 1;
            return Ok(());
        }
        make_room(&mut self.changes)?;
        let before = self.own.insert(key, value)?;
        self.changes.push_front_reserved(Change { key, before });
        Ok(())
    }
}

ghost use Rattle.mem_store.specs.UndoLog.{as_of, from_name, first_mark};

/// Makes room for one more. A list that is full grows to four times its length: what it leaves where it
/// lay is then a third of what it takes, and not as much again.
fn make_room<T>(list: &mut VecDeque<T>) -> Result<(), OutOfMemory>
    ensures items { list.new.items ≡ list.old.items }
    ensures room { OnOk result (deque_len list.new < deque_capacity list.new) }
{
    if list.len() < list.capacity() {
        return Ok(());
    }
    match list.reserve(list.len().saturating_mul(3).max(4)) {
        Ok(()) => Ok(()),
        Err(_) => Err(OutOfMemory),
    }
}

fn is_among(saved: &VecDeque<Saved>, name: u64) -> bool
    ensures { result ≡ list_any (λ s. name == s.name) saved.now.items }
{
    saved.iter().any(|saved| name == saved.name)
}

/// Takes away all savepoints that are newer than the newest one of the name, and answers its mark.
fn uncover(saved: &mut VecDeque<Saved>, name: u64) -> Option<usize>
    ensures saved { saved.new.items ≡ from_name name saved.old.items }
    ensures mark { result ≡ first_mark saved.new.items }
{
    while let Some(top) = saved.front().copied() {
        if name == top.name {
            return Some(top.mark);
        }
        let _ = saved.pop_front();
    }
    None
}

// A step for each of so many.
fn tick_for<L: Ledger>(many: usize, steps: &mut Steps<L>)
    ensures { steps.new ≡ steps.old + many }
{
    for _ in 0..many {
        steps.tick();
    }
}

/// Undoes the changes behind the mark, the newest first. Each is a step.
fn go_back<L: Ledger>(
    own: &mut Writes,
    changes: &mut VecDeque<Change>,
    mark: usize,
    steps: &mut Steps<L>,
)
    ensures own { own.new ≡ as_of mark changes.old.items own.old }
    ensures before { (earlier : ℕ) → earlier ≤ mark → as_of earlier changes.new.items own.new ≡ as_of earlier changes.old.items own.old }
    ensures left { length changes.new.items ≡ min mark (length changes.old.items) }
    ensures count { steps.new + length changes.new.items ≡ steps.old + length changes.old.items }
{
    while changes.len() > mark {
        if let Some(change) = changes.pop_front() {
            own.put_back(change.key, change.before);
            steps.tick();
        }
    }
}
