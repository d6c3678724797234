//! A client's connection, while no client is at work on it.
ghost use Rattle.std.specs.Prelude.{◌≡◌, ◌+◌, IfOk, OnErr, OnOk};
ghost use Rattle.mem_store.specs.Store.{closed_at, connected, new_link};
ghost use Rattle.sqlx_savepoints.specs.Rows.{sees};

use mem_store::{MemStore, StoreLink};
use sqlx_text::{OutOfMemory, StatementCache};
use std::alloc::Global;
use std::marker::Model;
use std::mem;

/// A connection to a store, while no client is at work on it: the store's link, and the cache of its statements, which
/// the first act begins that needs one. It is seen as its link.
pub struct ClientLink {
    // They stay where they lie when the connection goes from hand to hand.
    pub(crate) parts: Box<Parts>,
}

impl Drop for ClientLink {
    fn drop(self) {
        let ClientLink { parts } = self;
        drop(parts);
    }
}

#[derive(Drop)]
pub(crate) struct Parts {
    pub(crate) side: StoreLink,
    cache: Option<StatementCache<()>>,
}

impl Model for ClientLink {
    ghost use Rattle.mem_store.specs.Store.{Link, link_code};

    ghost Value = { Link };

    ghost coded = { link_code };

    ghost view = { λ a. a.parts.value.side };
}

impl ClientLink {
    /// A new connection. Where every number of a link was given, that counts as want of memory.
    pub fn connect(alloc: Global, store: &mut MemStore) -> Result<ClientLink, OutOfMemory>
        ensures link { IfOk result (λ link. link ≡ new_link (store.old.given + 1)) }
        ensures ok { OnOk result (store.new ≡ connected (store.old.given + 1) store.old) }
        ensures err { OnErr result (store.new ≡ store.old) }
    {
        let room = Parts {
            side: StoreLink::of_no_store(alloc),
            cache: None,
        };
        let Ok(mut parts) = Box::new(alloc, room) else {
            return Err(OutOfMemory);
        };
        parts.side = store.connect(alloc)?;
        Ok(ClientLink { parts })
    }

    /// Ends the connection, its levels as rolled back.
    pub fn close(self, store: &mut MemStore)
        ensures { store.new ≡ closed_at self.depth store.old }
    {
        let ClientLink { parts } = self;
        let Parts { side, cache } = Box::into_inner(parts);
        drop(cache);
        store.close(side);
    }

    /// The number that the store gave it.
    pub fn number(&self) -> u64
        ensures { result ≡ self.now.number }
    {
        self.parts.side.number()
    }

    /// How many levels are open.
    pub fn depth(&self) -> usize
        ensures { result ≡ self.now.depth }
    {
        self.parts.side.depth()
    }

    /// The value of a key as the connection sees it.
    pub fn seen(&self, store: &MemStore, key: i64) -> Option<i64>
        ensures { result ≡ sees self.now.own store.now.rows key }
    {
        store.seen_by(&self.parts.side, key)
    }

    /// Takes the store's link out. In its place stands one of no store.
    pub fn take_side(&mut self, alloc: Global) -> StoreLink
        ensures side { result ≡ self.old }
    {
        mem::replace(&mut self.parts.side, StoreLink::of_no_store(alloc))
    }

    /// Takes the cache of its statements out, or a new one where none was begun.
    pub fn take_cache(&mut self, alloc: Global) -> Result<StatementCache<()>, OutOfMemory>
        ensures { self.new ≡ self.old }
    {
        match self.parts.cache.take() {
            Some(cache) => Ok(cache),
            None => StatementCache::new(alloc, 100),
        }
    }

    /// Puts the store's link back.
    pub fn put_side(&mut self, side: StoreLink)
        ensures { self.new ≡ side }
    {
        self.parts.side = side;
    }

    /// Puts the cache back.
    pub fn put_cache(&mut self, cache: StatementCache<()>)
        ensures { self.new ≡ self.old }
    {
        self.parts.cache = Some(cache);
    }
}
