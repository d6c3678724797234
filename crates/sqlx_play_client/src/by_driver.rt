//! The way to the database through its driver.
ghost use Rattle.std.specs.Prelude.{◌≡◌, IfOk, OnOk};
ghost use Rattle.sqlx_play_acts.specs.ClientActs.{left_by, reply_on};

use crate::client::run_act;
use mem_driver::{Answer, MemLink, MemSession, MemStore};
use sqlx_any::AnyConnection;
use sqlx_play_acts::{Act, ClientLink, Route};
use sqlx_script::Reply;
use sqlx_text::OutOfMemory;
use std::alloc::Global;
use std::mem;

/// Through the driver: a key by a query with bound values, a level by a transaction.
pub struct ByDriver;

impl Route for ByDriver {
    fn run(
        alloc: Global,
        store: &mut MemStore,
        link: &mut ClientLink,
        act: Act,
        answer: Answer,
    ) -> Result<Reply, OutOfMemory> {
        let cache = link.take_cache(alloc)?;
        let side = MemLink::of(link.take_side(alloc), cache);
        let whole = mem::replace(store, MemStore::new(alloc));
        let (reply, whole, side) = run_between(alloc, whole, side, act, answer);
        *store = whole;
        let (side, cache) = side.into_parts();
        link.put_side(side);
        link.put_cache(cache);
        reply
    }
}

// A connection that is at work on the store.
fn at_work(store: MemStore, link: MemLink, answer: Answer) -> AnyConnection<MemSession>
    ensures { result.backend.work ≡ record { store = store; link = link.side; answer = answer } }
{
    AnyConnection::new(MemSession::new(store, link, answer))
}

// The store and the connection, when the work is done.
fn taken_apart(conn: AnyConnection<MemSession>) -> (MemStore, MemLink)
    ensures { (result.0 ≡ conn.backend.work.store) × (result.1.side ≡ conn.backend.work.link) }
{
    conn.into_backend().into_parts()
}

// Puts the connection to work for one act, and takes it apart again.
fn run_between(
    alloc: Global,
    store: MemStore,
    link: MemLink,
    act: Act,
    answer: Answer,
) -> (Result<Reply, OutOfMemory>, MemStore, MemLink)
    ensures reply { IfOk result.0 (λ reply. reply ≡ reply_on act (record { store = store; link = link.side; answer = answer })) }
    ensures link { OnOk result.0 (result.2.side ≡ (left_by act (record { store = store; link = link.side; answer = answer })).link) }
    ensures store { OnOk result.0 (result.1 ≡ (left_by act (record { store = store; link = link.side; answer = answer })).store) }
{
    let mut conn = at_work(store, link, answer);
    let reply = run_act(alloc, &mut conn, act);
    let (store, link) = taken_apart(conn);
    (reply, store, link)
}
