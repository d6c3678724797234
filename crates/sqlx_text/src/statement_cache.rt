//! A cache of prepared statements, by their texts: when it is full, the statement that was used
//! least recently goes.
ghost use Rattle.std.specs.Prelude.{◌≡◌, ◌<◌, ◌≤◌, ◌==◌, ◌↔◌, ℕ, [], length, max, nat_lt, is_some, IsTrue, IsSome, IsOk, IfOk, IfErr, OnOk, OnErr, MatchOption, MatchResult, Some, None, Ok, Err};
ghost use Rattle.std.specs.Option.{option_copied_mut, option_map};
ghost use Rattle.std.specs.NonZero.{non_zero_usize_get};
ghost use Rattle.std.specs.Borrow.{sem};
ghost use Rattle.std.specs.List.{IsDistinct};
ghost use Rattle.std.specs.Map.{keys_of, lookup};
ghost use Rattle.std.specs.Str.{bytes_eq};
ghost use Rattle.lru.specs.LruCache.{lru_cache};
ghost use Rattle.sqlx_text.specs.Cache.{inserted, handed_back, last_value, without_last};

use crate::OutOfMemory;
use lru::LruCache;
use std::alloc::Global;
use std::marker::Model;
use std::mem;
use std::num::NonZeroUsize;

/// Statements by their texts, the most recently used first.
pub struct StatementCache<T> {
    statements: LruCache<String, T>,
    capacity: usize,
}

impl<T: Drop> Drop for StatementCache<T> {
    fn drop(self) {
        let StatementCache {
            statements,
            capacity: _,
        } = self;
        drop(statements);
    }
}

impl<T> Model for StatementCache<T> {
    ghost use Rattle.std.specs.Prelude.{◌≡◌, ◌≤◌, ℕ, List, length, max, string_bytes};
    ghost use Rattle.std.specs.NonZero.{non_zero_usize_get};
    ghost use Rattle.std.specs.Coded.{coded_list, coded_ℕ};
    ghost use Rattle.lru.specs.LruCache.{LruCache as Entries, lru_cache, lru_cache_code};
    ghost use Rattle.sqlx_text.specs.Cache.{by_texts};

    ghost Value = { Entries (List ℕ) T };

    ghost coded = { lru_cache_code (coded_list coded_ℕ) T.code };

    ghost view = { λ c. lru_cache (by_texts string_bytes c.statements.entries) c.capacity };

    ghost invariant = { λ c. (c.statements.cap ≡ max c.capacity 1) × (length c.statements.entries ≤ c.capacity) };
}

impl<T> StatementCache<T> {
    ghost use Rattle.sqlx_text.specs.CacheLends.{lends_value};

    /// An empty cache of at most `capacity` statements; at 0 it keeps none.
    pub fn new(alloc: Global, capacity: usize) -> Result<StatementCache<T>, OutOfMemory>
        ensures { IfOk result (λ made. made ≡ lru_cache [] capacity) }
    {
        let statements = LruCache::sparse(alloc, at_least_one(capacity))?;
        Ok(StatementCache {
            statements,
            capacity,
        })
    }

    /// The statement of the text, which becomes the most recently used.
    pub fn get_mut(&mut self, k: &str) -> Option<&mut T>
        ensures* writes_back { sem 𝓛 (lends_value T.row self.entry k.now result) }
        ensures value { option_copied_mut result ≡ lookup (bytes_eq k.now) self.old.entries }
    {
        self.statements.get_mut(k)
    }

    /// How many statements the cache holds.
    pub fn len(&self) -> usize
        ensures len { result ≡ length self.now.entries }
        ensures within { length self.now.entries ≤ self.now.cap }
        ensures distinct { IsDistinct bytes_eq (keys_of self.now.entries) }
    {
        self.statements.len()
    }

    /// Whether the cache holds no statement.
    pub fn is_empty(&self) -> bool
        ensures { IsTrue result ↔ (self.now.entries ≡ []) }
    {
        self.len() == 0
    }

    /// Whether the cache holds a statement of the text. The order stays.
    pub fn contains_key(&self, k: &str) -> bool
        ensures { result ≡ is_some (lookup (bytes_eq k.now) self.now.entries) }
    {
        self.statements.contains(k)
    }

    /// Removes the statement that was used least recently.
    pub fn remove_lru(&mut self) -> Option<T>
        ensures value { result ≡ last_value self.old.entries }
        ensures entries { self.new ≡ lru_cache (without_last self.old.entries) self.old.cap }
    {
        without_text(self.statements.pop_lru())
    }

    /// The most statements that the cache may hold.
    pub fn capacity(&self) -> usize
        ensures { result ≡ self.now.cap }
    {
        self.capacity
    }

    /// Whether the cache may hold any statement.
    pub fn is_enabled(&self) -> bool
        ensures { IsTrue result ↔ (0 < self.now.cap) }
    {
        self.capacity > 0
    }
}

impl<T: Drop> StatementCache<T> {
    /// Puts the statement first, and hands back the one that goes: that of the same text, or else
    /// the least recently used one of a full cache. Without memory the statement comes back.
    pub fn insert(&mut self, k: &str, v: T) -> Result<Option<T>, T>
        ensures ok { OnOk result (self.new ≡ lru_cache (inserted self.old k.now v) self.old.cap) }
        ensures handed_back { IfOk result (λ gone. gone ≡ handed_back self.old k.now) }
        ensures err { OnErr result (self.new ≡ self.old) }
        ensures value_returned { IfErr result (λ back. back ≡ v) }

        // A text that is there takes no memory, and a cache of capacity 0 keeps nothing.
        ensures there { IsSome (lookup (bytes_eq k.now) self.old.entries) → IsOk result }
        ensures disabled { self.old.cap ≡ 0 → IsOk result }
    {
        if self.capacity == 0 {
            drop(v);
            return Ok(None);
        }
        if self.contains_key(k) {
            return Ok(self.replace(k, v));
        }
        self.add(k, v)
    }

    // The text is there.
    fn replace(&mut self, k: &str, v: T) -> Option<T>
        requires there { IsSome (lookup (bytes_eq k.now) self.old.entries) }
        requires within { length self.old.entries ≤ self.old.cap }
        ensures entries { self.new ≡ lru_cache (inserted self.old k.now v) self.old.cap }
        ensures handed_back { result ≡ handed_back self.old k.now }
    {
        match self.get_mut(k) {
            Some(statement) => Some(mem::replace(statement, v)),
            None => {
                drop(v);
                None
            }
        }
    }

    // The text isn't there.
    fn add(&mut self, k: &str, v: T) -> Result<Option<T>, T>
        requires room { 0 < self.old.cap }
        requires new { lookup (bytes_eq k.now) self.old.entries ≡ None }
        ensures ok { OnOk result (self.new ≡ lru_cache (inserted self.old k.now v) self.old.cap) }
        ensures handed_back { IfOk result (λ gone. gone ≡ handed_back self.old k.now) }
        ensures err { OnErr result (self.new ≡ self.old) }
        ensures value_returned { IfErr result (λ back. back ≡ v) }
    {
        let alloc = *self.statements.allocator();
        match String::from_str(alloc, k) {
            Ok(text) => match self.statements.push(text, v) {
                Ok(gone) => Ok(without_text(gone)),
                Err(failed) => Err(failed.value.1),
            },
            Err(_) => Err(v),
        }
    }

    /// Removes every statement.
    pub fn clear(&mut self)
        ensures { self.new ≡ lru_cache [] self.old.cap }
    {
        self.statements.clear();
    }
}

fn without_text<T>(entry: Option<(String, T)>) -> Option<T>
    ensures { result ≡ option_map (λ e. e.1) entry }
{
    match entry {
        Some((_text, statement)) => Some(statement),
        None => None,
    }
}

fn at_least_one(n: usize) -> NonZeroUsize
    ensures { non_zero_usize_get result ≡ max n 1 }
{
    match NonZeroUsize::new(n) {
        Some(n) => n,
        None => NonZeroUsize::MIN,
    }
}
