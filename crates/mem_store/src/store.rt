//! A database: its committed rows, and how many of its links have an open level.
ghost use Rattle.std.specs.Prelude.{◌≡◌, ◌≤◌, ◌<◌, ◌+◌, ◌^◌, IfOk, OnOk, OnErr, IsSome};
ghost use Rattle.std.specs.FinMap as finite;
ghost use Rattle.sqlx_savepoints.specs.Rows.{laid, sees};
ghost use Rattle.sqlx_savepoints.specs.NamedSavepoints.{after, ran, wrote};
ghost use Rattle.mem_store.specs.Undo.{Counts, CountsFall, noted_at, undo_after, undo_rolled_back};

use crate::answer::Answer;
use crate::link::StoreLink;
use crate::rows::Rows;
use crate::runs::Runs;
use crate::session::StoreSession;
use sqlx_pool_places::Steps;
use sqlx_savepoints::LevelText;
use sqlx_text::OutOfMemory;
use std::alloc::Global;
use std::marker::Model;
use std::sync::ledger::Ledger;

/// A database in memory. A connection to it is a [`StoreLink`], which runs statements in a session.
pub struct MemStore {
    rows: Rows,
    // How many links have an open level.
    open_links: u64,
    given: u64,
    runs: Runs,
}

impl Drop for MemStore {
    fn drop(self) {
        let MemStore {
            rows,
            open_links: _,
            given: _,
            runs: _,
        } = self;
        drop(rows);
    }
}

impl Model for MemStore {
    ghost use Rattle.mem_store.specs.Store.{Store, store_code};

    ghost Value = { Store };

    ghost coded = { store_code };

    ghost view = { λ a. record { rows = a.rows; open_links = a.open_links; given = a.given; runs = a.runs } };
}

impl MemStore {
    ghost use Rattle.mem_store.specs.Store.{new_store, new_link, connected, others_in_level, store_moved, closed_at, named_by, moved};
    ghost use Rattle.mem_store.specs.Acts.{level_counted, ended_counted, rolled_back, store_written, store_read};

    /// A database without rows.
    pub fn new(alloc: Global) -> MemStore
        ensures { result ≡ new_store }
    {
        MemStore {
            rows: Rows::new(alloc),
            open_links: 0,
            given: 0,
            runs: Runs {
                begun: 0,
                ended: 0,
                writes: 0,
                reads: 0,
            },
        }
    }

    /// A new connection. Where every number of a link was given, that counts as want of memory.
    pub fn connect(&mut self, alloc: Global) -> Result<StoreLink, OutOfMemory>
        ensures link { IfOk result (λ link. link ≡ new_link (self.old.given + 1)) }
        ensures ok { OnOk result (self.new ≡ connected (self.old.given + 1) self.old) }
        ensures err { OnErr result (self.new ≡ self.old) }
    {
        if self.given == u64::MAX {
            return Err(OutOfMemory);
        }
        self.given += 1;
        Ok(StoreLink::new(alloc, self.given))
    }

    /// The store and a link of it, to run statements. The answer meets the first one.
    pub fn session(self, link: StoreLink, answer: Answer) -> StoreSession
        ensures { result ≡ record { store = self; link = link; answer = answer } }
    {
        StoreSession::new(self, link, answer)
    }

    /// Ends a connection, its levels as rolled back.
    pub fn close(&mut self, link: StoreLink)
        ensures { self.new ≡ closed_at link.depth self.old }
    {
        self.open_links = self.open_links.saturating_sub(level_mark(link.depth()));
    }

    /// How many texts its sessions ran.
    pub fn runs(&self) -> Runs
        ensures { result ≡ self.now.runs }
    {
        self.runs
    }

    /// The committed value of a key.
    pub fn get(&self, key: i64) -> Option<i64>
        ensures { result ≡ finite.get self.now.rows key }
    {
        self.rows.get(key)
    }

    /// The value of a key as the link sees it.
    pub fn seen_by(&self, link: &StoreLink, key: i64) -> Option<i64>
        ensures { result ≡ sees link.now.own self.now.rows key }
    {
        link.sees(&self.rows, key)
    }

    /// The rows as the link sees them.
    pub(crate) fn rows_under(&self, link: &StoreLink) -> Result<Rows, OutOfMemory>
        ensures { IfOk result (λ rows. rows ≡ laid link.now.own self.now.rows) }
    {
        link.laid_over(&self.rows)
    }

    /// Whether another link than this one has an open level.
    pub(crate) fn others_in_level(&self, link: &StoreLink) -> bool
        ensures { result ≡ others_in_level link.now.depth self.now.open_links }
    {
        self.open_links > level_mark(link.depth())
    }

    pub(crate) fn write(
        &mut self,
        link: &mut StoreLink,
        key: i64,
        value: Option<i64>,
    ) -> Result<(), OutOfMemory>
        ensures store { OnOk result (self.new ≡ store_written (wrote key value (named_by self.old.rows link.old)) self.old) }
        ensures link { OnOk result (link.new ≡ moved (wrote key value (named_by self.old.rows link.old)) (noted_at link.old.depth link.old.undo) link.old) }
        ensures err { OnErr result ((self.new ≡ self.old) × (link.new ≡ link.old)) }
    {
        link.write(&mut self.rows, key, value)?;
        self.runs.count_write();
        Ok(())
    }

    pub(crate) fn count_read(&mut self)
        ensures { self.new ≡ store_read self.old }
    {
        self.runs.count_read();
    }

    /// Runs a level text that may stand at the link's state. Each change that it undoes is a step.
    /// Where every number of links has an open level, that counts as want of memory.
    pub(crate) fn run<L: Ledger>(
        &mut self,
        link: &mut StoreLink,
        level: LevelText,
        steps: &mut Steps<L>,
    ) -> Result<(), OutOfMemory>
        requires { IsSome (after level (named_by self.old.rows link.old)) }
        ensures store { OnOk result (self.new ≡ store_moved (ran level (named_by self.old.rows link.old)) link.old.depth (level_counted level self.old.runs) self.old) }
        ensures link { OnOk result (link.new ≡ moved (ran level (named_by self.old.rows link.old)) (undo_after level link.old.undo) link.old) }
        ensures count { OnOk result (Counts level steps.old link.old.undo steps.new link.new.undo) }
        ensures err { OnErr result ((self.new ≡ self.old) × (link.new ≡ link.old) × (steps.new ≡ steps.old)) }
    {
        if self.open_links == u64::MAX {
            return Err(OutOfMemory);
        }
        let before = link.depth();
        link.run(&mut self.rows, level, steps)?;
        self.runs.count_level(level);
        self.open_links = remarked(before, link.depth(), self.open_links);
        Ok(())
    }

    /// Rolls the link's innermost level back without a text. Each change that it undoes is a step.
    pub(crate) fn start_rollback<L: Ledger>(&mut self, link: &mut StoreLink, steps: &mut Steps<L>)
        requires { 1 ≤ link.old.depth }
        ensures store { self.new ≡ store_moved (rolled_back (named_by self.old.rows link.old)) link.old.depth (ended_counted self.old.runs) self.old }
        ensures link { link.new ≡ moved (rolled_back (named_by self.old.rows link.old)) (undo_rolled_back (named_by self.old.rows link.old) link.old.undo) link.old }
        ensures count { CountsFall steps.old link.old.undo steps.new link.new.undo }
    {
        let before = link.depth();
        link.start_rollback(steps);
        self.runs.count_ended();
        self.open_links = remarked(before, link.depth(), self.open_links);
    }
}

ghost use Rattle.mem_store.specs.Store.{level_mark, remarked};

/// What a link of this depth adds to the count of links with an open level.
fn level_mark(depth: usize) -> u64
    ensures { result ≡ level_mark depth }
{
    if depth > 0 { 1 } else { 0 }
}

/// How many links have an open level after one came from a depth to another.
fn remarked(before: usize, now: usize, open_links: u64) -> u64
    requires { open_links + level_mark now < 2 ^ 64 + level_mark before }
    ensures { result ≡ remarked before now open_links }
{
    open_links.saturating_sub(level_mark(before)) + level_mark(now)
}
