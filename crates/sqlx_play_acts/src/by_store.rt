//! The shortest way to the database: the act is done on the store and the link where they lie, and no statement is written.
ghost use Rattle.std.specs.Prelude.{◌≡◌, ◌≤◌, ◌<◌, suc, pred, true, Some, None};
ghost use Rattle.mem_store.specs.Acts.{IsFree};
ghost use Rattle.mem_store.specs.Store.{at_work};
ghost use Rattle.mem_store.specs.declared.answer.Answer.{Answer as Met};
ghost use Rattle.sqlx_savepoints.specs.Texts as texts;
ghost use Rattle.sqlx_play_acts.specs.ClientActs as spec;
ghost use Rattle.sqlx_play_acts.specs.ClientActs.{Gives, GivesMet, GivesStatement, LeavesWanting};

use crate::act::Act;
use crate::link::ClientLink;
use crate::route::Route;
use mem_store::{
    Act as Doing, Answer, MemStore, Refusal, StoreLink, begin_at, commit_at, rollback_at,
};
use sqlx_savepoints::LevelText;
use sqlx_script::Reply;
use sqlx_text::OutOfMemory;
use std::alloc::Global;

/// Straight to the store.
pub struct ByStore;

// The statement for the act at this depth.
fn statement_at(act: Act, depth: usize) -> Doing
    requires { spec.needs_level act ≡ true → 1 ≤ depth }
    ensures { result ≡ spec.statement_at act depth }
{
    match act {
        Act::Begin => Doing::Level(begin_at(depth)),
        Act::Custom(true) => Doing::Level(LevelText::BeginImmediate),
        Act::Custom(false) => Doing::SelectOne,
        Act::Put(key, value) => Doing::Put(key, value),
        Act::Delete(key) => Doing::Delete(key),
        Act::Get(key) => Doing::Get(key),
        Act::Commit => Doing::Level(commit_at(depth)),
        Act::Rollback | Act::GiveUp => Doing::Level(rollback_at(depth)),
    }
}

// The reply to a level that was begun at this depth.
fn begun_reply(depth: usize) -> Reply
    requires { depth < 100 }
    ensures { result ≡ Reply.Level (suc depth) (texts.begin_at depth) }
{
    Reply::Level {
        depth: depth as u64 + 1,
        text: begin_at(depth),
    }
}

// The reply to the innermost of so many levels, which was ended by the text.
fn ended_reply(depth: usize, text: LevelText) -> Reply
    requires { 1 ≤ depth }
    ensures { result ≡ Reply.Level (pred depth) text }
{
    Reply::Level {
        depth: depth as u64 - 1,
        text,
    }
}

// The reply to a read.
fn found_reply(found: Option<i64>) -> Reply
    ensures { result ≡ spec.found_reply found }
{
    match found {
        Some(value) => Reply::Value(value),
        None => Reply::RowNotFound,
    }
}

// The reply where the statement runs.
#[tactic(auto, using(crate::proofs::Depths::begun_is_shallow))]
fn ran_reply(act: Act, store: &MemStore, link: &StoreLink) -> Reply
    requires level { spec.needs_level act ≡ true → 1 ≤ link.now.depth }
    requires free { IsFree (spec.statement_at act link.now.depth) store.now link.now }
    ensures { (met : Met) → result ≡ spec.ran_reply act (at_work store.now link.now met) }
{
    let depth = link.depth();
    match act {
        Act::Begin => begun_reply(depth),
        Act::Custom(true) => Reply::Level {
            depth: 1,
            text: LevelText::BeginImmediate,
        },
        Act::Custom(false) => Reply::BeginFailed,
        Act::Put(_, _) => Reply::Written(1),
        Act::Delete(key) => Reply::Written(u64::from(store.seen_by(link, key).is_some())),
        Act::Get(key) => found_reply(store.seen_by(link, key)),
        Act::Commit => ended_reply(depth, commit_at(depth)),
        Act::Rollback | Act::GiveUp => ended_reply(depth, rollback_at(depth)),
    }
}

// The reply to a refused statement.
fn refused_reply(reason: Refusal) -> Reply
    ensures { result ≡ spec.refused_reply reason }
{
    match reason {
        Refusal::Fault => Reply::Io,
        Refusal::Refused | Refusal::Unread => Reply::DatabaseRefused,
        Refusal::Deep => Reply::DatabaseDeep,
        Refusal::Busy => Reply::DatabaseBusy,
    }
}

// A level that couldn't be ended is rolled back.
fn roll_back(act: Act, store: &mut MemStore, link: &mut StoreLink)
    requires { spec.needs_level act ≡ true → 1 ≤ link.old.depth }
    ensures wanting { (met : Met) → LeavesWanting act (at_work store.old link.old met) (at_work store.new link.new met) }
    ensures refused { (met : Met) → at_work store.new link.new Met.Accept ≡ spec.left_refused act (at_work store.old link.old met) }
{
    if matches!(act, Act::Commit | Act::Rollback) {
        store.roll_back(link);
    }
}

// Runs the act's statement, which isn't refused.
fn run_free(
    act: Act,
    doing: Doing,
    store: &mut MemStore,
    link: &mut StoreLink,
) -> Result<Reply, OutOfMemory>
    requires level { spec.needs_level act ≡ true → 1 ≤ link.old.depth }
    requires doing { doing ≡ spec.statement_at act link.old.depth }
    requires free { IsFree doing store.old link.old }
    ensures { (met : Met) → GivesMet act None (at_work store.old link.old met) result (at_work store.new link.new met) }
{
    let reply = ran_reply(act, store, link);
    match store.do_act(link, doing) {
        Ok(()) => Ok(reply),
        Err(OutOfMemory) => {
            roll_back(act, store, link);
            Err(OutOfMemory)
        }
    }
}

// Runs the act's statement, or tells why it is refused.
fn run_statement(
    act: Act,
    store: &mut MemStore,
    link: &mut StoreLink,
    answer: &mut Answer,
) -> Result<Reply, OutOfMemory>
    requires { spec.needs_level act ≡ true → 1 ≤ link.old.depth }
    ensures { GivesStatement act (at_work store.old link.old answer.old) result (at_work store.new link.new answer.new) }
{
    match store.admitted(link, *answer, Some(statement_at(act, link.depth()))) {
        Ok(doing) => run_free(act, doing, store, link),
        Err(reason) => {
            *answer = Answer::Accept;
            roll_back(act, store, link);
            Ok(refused_reply(reason))
        }
    }
}

// A transaction is begun by a statement of the client's own; inside of another one no statement runs.
fn run_custom(
    starts: bool,
    store: &mut MemStore,
    link: &mut StoreLink,
    answer: &mut Answer,
) -> Result<Reply, OutOfMemory>
    ensures { Gives (Act.Custom starts) (at_work store.old link.old answer.old) result (at_work store.new link.new answer.new) }
{
    if link.depth() > 0 {
        return Ok(Reply::InvalidSavePointStatement);
    }
    run_statement(Act::Custom(starts), store, link, answer)
}

// Does the act where the store and the link lie.
fn run_on(
    act: Act,
    store: &mut MemStore,
    link: &mut StoreLink,
    answer: &mut Answer,
) -> Result<Reply, OutOfMemory>
    ensures { Gives act (at_work store.old link.old answer.old) result (at_work store.new link.new answer.new) }
{
    let depth = link.depth();
    if act.needs_level() && depth == 0 {
        return Ok(Reply::NotHeld);
    }
    match act {
        Act::Custom(starts) => run_custom(starts, store, link, answer),
        Act::GiveUp => {
            store.roll_back(link);
            Ok(ended_reply(depth, rollback_at(depth)))
        }
        Act::Begin | Act::Put(_, _) | Act::Delete(_) | Act::Get(_) | Act::Commit | Act::Rollback =>
            run_statement(act, store, link, answer),
    }
}

impl Route for ByStore {
    fn run(
        _alloc: Global,
        store: &mut MemStore,
        link: &mut ClientLink,
        act: Act,
        answer: Answer,
    ) -> Result<Reply, OutOfMemory> {
        let mut answer = answer;
        run_on(act, store, &mut link.parts.side, &mut answer)
    }
}
