//! A connection to a store.
ghost use Rattle.std.specs.Prelude.{◌≡◌, ◌+◌, IfOk, OnOk, OnErr};
ghost use Rattle.mem_store.specs.Store.{connected, new_link, closed_at};
ghost use Rattle.mem_driver.specs.Session.{new_cache};

use mem_store::{MemStore, StoreLink};
use sqlx_text::{OutOfMemory, StatementCache};
use std::alloc::Global;
use std::marker::Model;

/// A connection of a store, while no session has it: its link, and its cache of statements.
pub struct MemLink {
    side: StoreLink,
    cache: StatementCache<()>,
}

impl Drop for MemLink {
    fn drop(self) {
        let MemLink { side, cache } = self;
        drop(side);
        drop(cache);
    }
}

impl Model for MemLink {
    ghost use Rattle.mem_driver.specs.Session.{Link, link_code};

    ghost Value = { Link };

    ghost coded = { link_code };

    ghost view = { λ a. record { side = a.side; cache = a.cache } };
}

impl MemLink {
    /// A new connection to the store, whose cache takes 100 texts.
    pub fn connect(alloc: Global, store: &mut MemStore) -> Result<MemLink, OutOfMemory>
        ensures link { IfOk result (λ link. link ≡ record { side = new_link (store.old.given + 1); cache = new_cache }) }
        ensures ok { OnOk result (store.new ≡ connected (store.old.given + 1) store.old) }
        ensures err { OnErr result (store.new ≡ store.old) }
    {
        let cache = StatementCache::new(alloc, 100)?;
        match store.connect(alloc) {
            Ok(side) => Ok(MemLink { side, cache }),
            Err(error) => Err(error),
        }
    }

    /// Ends a connection to the store, its levels as rolled back.
    pub fn close(self, store: &mut MemStore)
        ensures { store.new ≡ closed_at self.side.depth store.old }
    {
        let MemLink { side, cache } = self;
        drop(cache);
        store.close(side);
    }

    /// How many levels are open.
    pub fn depth(&self) -> usize
        ensures { result ≡ self.now.side.depth }
    {
        self.side.depth()
    }

    /// The connection of a store's link and a cache of statements.
    pub fn of(side: StoreLink, cache: StatementCache<()>) -> MemLink
        ensures { result ≡ record { side = side; cache = cache } }
    {
        MemLink { side, cache }
    }

    /// The link and the cache.
    pub fn into_parts(self) -> (StoreLink, StatementCache<()>)
        ensures { (result.0 ≡ self.side) × (result.1 ≡ self.cache) }
    {
        let MemLink { side, cache } = self;
        (side, cache)
    }
}
