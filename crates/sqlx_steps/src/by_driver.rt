//! A store and one of its connections, at work through the driver: levels are transactions, statements are queries.
ghost use Rattle.std.specs.Prelude.{◌≡◌, ◌<◌, true, is_some};
ghost use Rattle.mem_store.specs.Store as spec;
ghost use Rattle.mem_store.specs.declared.answer.Answer.{Answer as Met};
ghost use Rattle.mem_store.specs.Acts.{after_start_rollback};
ghost use Rattle.mem_driver.specs.Session.{depth};
ghost use Rattle.sqlx_play_acts.specs.ClientActs.{Gives, left_by};

use crate::work::Work;
use mem_driver::{MemLink, MemSession};
use sqlx_any::AnyConnection;
use sqlx_play_client::{Act, Answer, MemStore, Reply, StoreLink, run_act};
use sqlx_play_levels::give_up;
use sqlx_text::{Depth, OutOfMemory, StatementCache};
use std::alloc::Global;
use std::mem;

/// A store and one of its connections. The cache of statements is out only while a text runs.
#[derive(Drop)]
pub struct ByDriver {
    alloc: Global,
    store: MemStore,
    side: StoreLink,
    cache: Option<StatementCache<()>>,
    ghost has: { is_some cache ≡ true },
}

// A connection that is at work on the store.
fn at_work(store: MemStore, link: MemLink, answer: Answer) -> AnyConnection<MemSession>
    ensures { result.backend.work ≡ spec.at_work store link.side answer }
{
    AnyConnection::new(MemSession::new(store, link, answer))
}

// The store and the connection, when the work is done.
fn taken_apart(conn: AnyConnection<MemSession>) -> (MemStore, MemLink)
    ensures { (result.0 ≡ conn.backend.work.store) × (result.1.side ≡ conn.backend.work.link) }
{
    conn.into_backend().into_parts()
}

// Gives up the innermost level, if one is open.
fn leave(alloc: Global, conn: &mut AnyConnection<MemSession>)
    ensures { 0 < depth conn.old.backend → conn.new.backend.work ≡ left_by Act.GiveUp conn.old.backend.work }
{
    if conn.depth() > 0 {
        let _reply = give_up(alloc, conn);
    }
}

// Puts the connection to work for one act, and takes it apart again.
fn run_between(
    alloc: Global,
    store: MemStore,
    link: MemLink,
    act: Act,
    answer: Answer,
) -> (Result<Reply, OutOfMemory>, MemStore, MemLink)
    ensures { (met : Met) × Gives act (spec.at_work store link.side answer) result.0 (spec.at_work result.1 result.2.side met) }
{
    let mut conn = at_work(store, link, answer);
    let reply = run_act(alloc, &mut conn, act);
    let (store, link) = taken_apart(conn);
    (reply, store, link)
}

// The same, to give up the innermost level.
fn leave_between(alloc: Global, store: MemStore, link: MemLink) -> (MemStore, MemLink)
    ensures { (met : Met) × (0 < link.side.depth → spec.at_work result.0 result.1.side met ≡ after_start_rollback (spec.at_work store link.side Met.Accept)) }
{
    let mut conn = at_work(store, link, Answer::Accept);
    leave(alloc, &mut conn);
    taken_apart(conn)
}

impl ByDriver {
    /// The store and the connection, put to work.
    pub fn new(alloc: Global, store: MemStore, link: MemLink) -> ByDriver
        ensures store { result.store ≡ store }
        ensures side { result.side ≡ link.side }
    {
        let (side, cache) = link.into_parts();
        ByDriver {
            alloc,
            store,
            side,
            cache: Some(cache),
        }
    }

    /// The store and the connection, when the work is done.
    pub fn into_parts(self) -> (MemStore, MemLink)
        ensures store { result.0 ≡ self.store }
        ensures side { result.1.side ≡ self.side }
    {
        let ByDriver {
            alloc: _,
            store,
            side,
            cache,
        } = self;
        match cache {
            Some(cache) => (store, MemLink::of(side, cache)),
            None => unreachable!(),
        }
    }
}

impl Work for ByDriver {
    ghost store = { λ w. w.store };

    ghost link = { λ w. w.side };

    fn run(&mut self, alloc: Global, act: Act, answer: Answer) -> Result<Reply, OutOfMemory> {
        let Some(cache) = self.cache.take() else {
            unreachable!()
        };
        let side = mem::replace(&mut self.side, StoreLink::of_no_store(self.alloc));
        let store = mem::replace(&mut self.store, MemStore::new(self.alloc));
        let (reply, store, link) = run_between(alloc, store, MemLink::of(side, cache), act, answer);
        let (side, cache) = link.into_parts();
        self.store = store;
        self.side = side;
        self.cache = Some(cache);
        reply
    }

    fn give_up(&mut self, alloc: Global) {
        let Some(cache) = self.cache.take() else {
            unreachable!()
        };
        let side = mem::replace(&mut self.side, StoreLink::of_no_store(self.alloc));
        let store = mem::replace(&mut self.store, MemStore::new(self.alloc));
        let (store, link) = leave_between(alloc, store, MemLink::of(side, cache));
        let (side, cache) = link.into_parts();
        self.store = store;
        self.side = side;
        self.cache = Some(cache);
    }

    fn seen(&self, key: i64) -> Option<i64> {
        self.store.seen_by(&self.side, key)
    }
}
