//! The database on which steps are applied.
ghost use Rattle.std.specs.Prelude.{◌≡◌, ◌≤◌, List, length, pos, IfOk};
ghost use Rattle.std.specs.FinMap.{get};
ghost use Rattle.sqlx_steps_rules.specs.declared.event.Write.{Write};
ghost use Rattle.sqlx_steps_rules.specs.Rules.{apply_reply, version_by, version_reached, rows_of, found_reply};
ghost use Rattle.sqlx_steps.specs.Keeps.{Keeps};

use crate::applying::apply_steps;
use crate::data_step::DataStep;
use mem_driver::{MemLink, MemStore};
use sqlx_pool_core::{Lent, PoolCore};
use sqlx_single::{lend, new_pool, opened, take_back};
use sqlx_steps_rules::Reply;
use sqlx_text::OutOfMemory;
use std::alloc::Global;
use std::mem;

/// A database in memory, the pool of the one connection to it, and the version that the last apply left.
#[derive(Drop)]
pub struct Database {
    store: MemStore,
    pool: PoolCore<MemLink>,
    version: u64,
}

// The reply to a read.
fn read_reply(found: Option<i64>) -> Reply
    ensures { result ≡ found_reply found }
{
    match found {
        Some(value) => Reply::Value(value),
        None => Reply::NoRow,
    }
}

impl Database {
    /// A database without rows, at version 0 of any steps.
    pub fn new(alloc: Global) -> Result<Database, OutOfMemory>
        ensures { IfOk result (λ database. (steps : List (List Write)) → Keeps steps 0 database) }
    {
        let mut store = MemStore::new(alloc);
        let link = MemLink::connect(alloc, &mut store)?;
        let mut pool = new_pool(alloc)?;
        opened(&mut pool, link);
        Ok(Database {
            store,
            pool,
            version: 0,
        })
    }

    /// The version that the last apply left.
    pub fn version(&self) -> u64
        ensures { result ≡ self.now.version }
    {
        self.version
    }

    /// Applies the steps behind the version up to `upto`; text number `refuse` is refused, none for 0.
    pub fn apply(
        &mut self,
        alloc: Global,
        steps: &[DataStep],
        upto: usize,
        refuse: u64,
    ) -> Result<Reply, OutOfMemory>
        requires upto { upto ≤ length steps.now }
        requires keeps { Keeps steps.now self.old.version self.old }
        ensures keeps { Keeps steps.now self.new.version self.new }
        ensures reply { IfOk result (λ reply. reply ≡ apply_reply upto (version_reached steps.now self.old.version upto refuse)) }
        ensures version { IfOk result (λ reply. self.new.version ≡ version_by self.old.version reply) }
    {
        let Lent { id, created, raw } = lend(&mut self.pool);
        let store = mem::replace(&mut self.store, MemStore::new(alloc));
        let (store, raw, applied) = apply_steps(alloc, store, raw, steps, upto, refuse);
        self.store = store;
        take_back(&mut self.pool, Lent { id, created, raw });
        self.version = applied.version();
        applied.reply()
    }

    /// Reads a key.
    pub fn get(&mut self, key: u32) -> Reply
        requires { (steps : List (List Write)) × Keeps steps self.old.version self.old }
        ensures { (steps : List (List Write)) → Keeps steps self.old.version self.old
            → (result ≡ found_reply (get (rows_of steps self.old.version) (pos key))) × Keeps steps self.old.version self.new }
    {
        let Lent { id, created, raw } = lend(&mut self.pool);
        let (side, cache) = raw.into_parts();
        let found = self.store.seen_by(&side, i64::from(key));
        let raw = MemLink::of(side, cache);
        take_back(&mut self.pool, Lent { id, created, raw });
        read_reply(found)
    }
}
