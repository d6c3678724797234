//! A connection's own side: its levels, its own writes and its savepoints.
ghost use Rattle.std.specs.Prelude.{◌≡◌, ◌≤◌, ◌<◌, ◌+◌, ◌∷◌, IfOk, OnOk, OnErr, IsSome, is_some};
ghost use Rattle.sqlx_savepoints.specs.Rows.{Rows as CommittedRows, sees, laid};
ghost use Rattle.sqlx_savepoints.specs.NamedSavepoints.{after, ran, wrote, lowered};
ghost use Rattle.mem_store.specs.Undo.{Counts, CountsFall, noted_at, undo_after, undo_rolled_back, undo_saved};

use crate::rows::Rows;
use crate::savepoint_stack::SavepointStack;
use crate::writes::write;
use sqlx_pool_places::Steps;
use sqlx_savepoints::LevelText;
use sqlx_text::OutOfMemory;
use std::alloc::Global;
use std::marker::Model;
use std::sync::ledger::Ledger;

/// A connection of a [`MemStore`](crate::MemStore), while no session has it.
pub struct StoreLink {
    number: u64,
    depth: usize,
    stack: SavepointStack,
}

impl Drop for StoreLink {
    fn drop(self) {
        let StoreLink {
            number: _,
            depth: _,
            stack,
        } = self;
        drop(stack);
    }
}

impl Model for StoreLink {
    ghost use Rattle.mem_store.specs.Store.{Link, link_code};

    ghost Value = { Link };

    ghost coded = { link_code };

    ghost view = { λ a. record { number = a.number; depth = a.depth; own = a.stack.own; entries = a.stack.entries; undo = a.stack.undo } };
}

impl StoreLink {
    ghost use Rattle.mem_store.specs.Store.{new_link, at_rest, named_by, moved};
    ghost use Rattle.mem_store.specs.Acts.{rolled_back};

    pub(crate) fn new(alloc: Global, number: u64) -> StoreLink
        ensures { result ≡ new_link number }
    {
        StoreLink {
            number,
            depth: 0,
            stack: SavepointStack::new(alloc),
        }
    }

    /// A link of no store, to stand where one was taken out for a while. Takes no memory.
    pub fn of_no_store(alloc: Global) -> StoreLink
        ensures { result ≡ new_link 0 }
    {
        StoreLink::new(alloc, 0)
    }

    /// The number that the store gave it.
    pub fn number(&self) -> u64
        ensures { result ≡ self.now.number }
    {
        self.number
    }

    /// How many levels are open.
    pub fn depth(&self) -> usize
        ensures { result ≡ self.now.depth }
    {
        self.depth
    }

    /// How many changes of the own writes can be undone.
    pub fn undo_len(&self) -> usize
        ensures { result ≡ self.now.undo.len }
    {
        self.stack.undo_len()
    }

    /// The value at the key, by the own writes or else by the rows.
    pub(crate) fn sees(&self, rows: &Rows, key: i64) -> Option<i64>
        ensures { result ≡ sees self.now.own rows.now key }
    {
        match self.stack.get(key) {
            Some(written) => written,
            None => rows.get(key),
        }
    }

    /// The rows with the own writes laid over them.
    pub(crate) fn laid_over(&self, rows: &Rows) -> Result<Rows, OutOfMemory>
        ensures { IfOk result (λ made. made ≡ laid self.now.own rows.now) }
    {
        self.stack.laid_over(rows)
    }

    /// A write: into the rows outside a level, else into the own writes.
    pub(crate) fn write(
        &mut self,
        rows: &mut Rows,
        key: i64,
        value: Option<i64>,
    ) -> Result<(), OutOfMemory>
        ensures rows { OnOk result (rows.new ≡ (wrote key value (named_by rows.old self.old)).rows) }
        ensures link { OnOk result (self.new ≡ moved (wrote key value (named_by rows.old self.old)) (noted_at self.old.depth self.old.undo) self.old) }
        ensures err { OnErr result ((rows.new ≡ rows.old) × (self.new ≡ self.old)) }
    {
        if self.depth == 0 {
            write(rows, key, value)
        } else {
            self.stack.insert(key, value)
        }
    }

    /// Whether the text may stand here.
    pub(crate) fn allows(&self, level: LevelText) -> bool
        ensures { (rows : CommittedRows) → result ≡ is_some (after level (named_by rows self.now)) }
    {
        match level {
            LevelText::Begin | LevelText::BeginImmediate => self.depth == 0,
            LevelText::Commit | LevelText::Rollback => self.depth > 0,
            LevelText::Savepoint(_) => self.depth > 0 && self.depth < 100,
            LevelText::Release(name) | LevelText::RollbackTo(name) => {
                self.depth > 0 && self.stack.has(name)
            }
        }
    }

    /// Runs a text that may stand here. Each change that it undoes is a step.
    pub(crate) fn run<L: Ledger>(
        &mut self,
        rows: &mut Rows,
        level: LevelText,
        steps: &mut Steps<L>,
    ) -> Result<(), OutOfMemory>
        requires { IsSome (after level (named_by rows.old self.old)) }
        ensures rows { OnOk result (rows.new ≡ (ran level (named_by rows.old self.old)).rows) }
        ensures link { OnOk result (self.new ≡ moved (ran level (named_by rows.old self.old)) (undo_after level self.old.undo) self.old) }
        ensures count { OnOk result (Counts level steps.old self.old.undo steps.new self.new.undo) }
        ensures err { OnErr result ((rows.new ≡ rows.old) × (self.new ≡ self.old) × (steps.new ≡ steps.old)) }
    {
        match level {
            LevelText::Begin | LevelText::BeginImmediate => {
                self.stack.clear();
                self.depth = 1;
                Ok(())
            }
            LevelText::Commit => self.publish(rows),
            LevelText::Rollback => {
                self.drop_writes(steps);
                Ok(())
            }
            LevelText::Savepoint(name) => self.save(name),
            LevelText::Release(name) => {
                self.stack.release(name);
                self.lower();
                Ok(())
            }
            LevelText::RollbackTo(name) => {
                self.stack.restore(name, steps);
                self.lower();
                Ok(())
            }
        }
    }

    /// Rolls the innermost level back, as the ANSI text at the depth does. Takes no memory. Each
    /// change that it undoes is a step.
    pub(crate) fn start_rollback<L: Ledger>(&mut self, steps: &mut Steps<L>)
        requires { 1 ≤ self.old.depth }
        ensures becomes { (rows : CommittedRows) → self.new ≡ moved (rolled_back (named_by rows self.old)) (undo_rolled_back (named_by rows self.old) self.old.undo) self.old }
        ensures count { CountsFall steps.old self.old.undo steps.new self.new.undo }
    {
        if self.depth == 1 {
            self.drop_writes(steps);
            return;
        }
        let name = self.depth as u64 - 1;
        if self.stack.has(name) {
            self.stack.restore(name, steps);
        }
        self.lower();
    }

    fn publish(&mut self, rows: &mut Rows) -> Result<(), OutOfMemory>
        ensures rows { OnOk result (rows.new ≡ laid self.old.own rows.old) }
        ensures link { OnOk result (self.new ≡ at_rest self.old) }
        ensures err { OnErr result ((rows.new ≡ rows.old) × (self.new ≡ self.old)) }
    {
        self.stack.lay_over(rows)?;
        self.end();
        Ok(())
    }

    /// Undoes the own writes, and ends every level.
    fn drop_writes<L: Ledger>(&mut self, steps: &mut Steps<L>)
        ensures becomes { self.new ≡ at_rest self.old }
        ensures count { CountsFall steps.old self.old.undo steps.new self.new.undo }
    {
        self.stack.undo_all(steps);
        self.depth = 0;
    }

    fn end(&mut self)
        ensures { self.new ≡ at_rest self.old }
    {
        self.stack.clear();
        self.depth = 0;
    }

    fn save(&mut self, name: u64) -> Result<(), OutOfMemory>
        requires { self.old.depth < 100 }
        ensures ok { OnOk result (self.new ≡ record self.old { depth = self.old.depth + 1; entries = record { name = name; own = self.old.own } ∷ self.old.entries; undo = undo_saved name self.old.undo }) }
        ensures err { OnErr result (self.new ≡ self.old) }
    {
        self.stack.save(name)?;
        self.depth += 1;
        Ok(())
    }

    fn lower(&mut self)
        ensures { self.new ≡ record self.old { depth = lowered self.old.depth } }
    {
        self.depth = if self.depth > 1 { self.depth - 1 } else { 1 };
    }
}
