//! A client's level on its connection, statement by statement.
ghost use Rattle.std.specs.Prelude.{◌≡◌, ◌+◌, ◌<◌, ◌≤◌, ◌^◌, ◌∷◌, ℕ, ℤ, pos, Some, IfOk, OnOk, if◌then◌else◌};
ghost use Rattle.sqlx_savepoints.specs.Changes.{Change, History};
ghost use Rattle.sqlx_savepoints.specs.Changes as change;
ghost use Rattle.sqlx_savepoints.specs.Brackets.{depth, value as value_seen};
ghost use Rattle.sqlx_savepoints.specs.Links.{Link as BracketLink};
ghost use Rattle.sqlx_transfer.specs.At.{At, Puts};
ghost use Rattle.sqlx_transfer.specs.At as spec;

use sqlx_play_acts::{Act, Answer, ClientLink, MemStore, Reply, Route};
use sqlx_text::OutOfMemory;
use std::alloc::Global;

/// What came of a write.
#[derive(Clone, Copy)]
pub enum Written {
    /// It was accepted.
    Done,
    /// It was refused.
    Refused,
    /// Another connection has an open level.
    Busy,
}

/// Begins a level.
pub fn begin<R: Route>(
    alloc: Global,
    store: &mut MemStore,
    link: &mut ClientLink,
) -> Result<(), OutOfMemory>
    ensures { OnOk result ((past : History) (o : ℕ → BracketLink) (k n b : ℕ) → At past o k n b store.old link.old → depth k past < 100 → b + 1 < 2 ^ 32
        → At (change.opens k ∷ past) o k n (b + 1) store.new link.new) }
{
    R::run(alloc, store, link, Act::Begin, Answer::Accept)?;
    Ok(())
}

// The act that reads an account's row.
fn get_of(account: u32) -> Act
    ensures { result ≡ Act.Get (pos account) }
{
    Act::Get(i64::from(account))
}

// The value that a reply tells of.
fn value_of(reply: Reply) -> i64
    ensures { result ≡ spec.value_of reply }
{
    match reply {
        Reply::Value(found) => found,
        _ => 0,
    }
}

/// Reads what an account holds.
pub fn read<R: Route>(
    alloc: Global,
    store: &mut MemStore,
    link: &mut ClientLink,
    account: u32,
) -> Result<i64, OutOfMemory>
    ensures { IfOk result (λ found. (past : History) (o : ℕ → BracketLink) (k n b : ℕ) (v : ℤ) → At past o k n b store.old link.old → value_seen k (pos account) past ≡ Some v
        → (found ≡ v) × At past o k n b store.new link.new) }
{
    let reply = R::run(alloc, store, link, get_of(account), Answer::Accept)?;
    Ok(value_of(reply))
}

// What meets a write.
fn answer_to(refused: bool) -> Answer
    ensures { result ≡ (if refused then Answer.Io else Answer.Accept) }
{
    if refused { Answer::Io } else { Answer::Accept }
}

// What a reply says of a write.
fn told_of(reply: Reply) -> Written
    ensures { result ≡ spec.told_of reply }
{
    match reply {
        Reply::Io => Written::Refused,
        Reply::DatabaseBusy => Written::Busy,
        _ => Written::Done,
    }
}

// The act that writes an account's row.
fn put_of(account: u32, value: i64) -> Act
    ensures { result ≡ Act.Put (pos account) value }
{
    Act::Put(i64::from(account), value)
}

/// Writes what an account holds.
pub fn put<R: Route>(
    alloc: Global,
    store: &mut MemStore,
    link: &mut ClientLink,
    account: u32,
    value: i64,
    refused: bool,
) -> Result<Written, OutOfMemory>
    ensures { IfOk result (λ w. (past : History) (o : ℕ → BracketLink) (k n b : ℕ) → At past o k n b store.old link.old → Puts refused (pos account) value past o k n b w store.new link.new) }
{
    let reply = R::run(
        alloc,
        store,
        link,
        put_of(account, value),
        answer_to(refused),
    )?;
    Ok(told_of(reply))
}

/// Commits the innermost level.
pub fn commit<R: Route>(
    alloc: Global,
    store: &mut MemStore,
    link: &mut ClientLink,
) -> Result<(), OutOfMemory>
    ensures { OnOk result ((past : History) (o : ℕ → BracketLink) (k n b : ℕ) → At past o k n b store.old link.old → 1 ≤ depth k past → At (change.commits k ∷ past) o k n b store.new link.new) }
{
    R::run(alloc, store, link, Act::Commit, Answer::Accept)?;
    Ok(())
}

/// Rolls the innermost level back.
pub fn roll_back<R: Route>(
    alloc: Global,
    store: &mut MemStore,
    link: &mut ClientLink,
) -> Result<(), OutOfMemory>
    ensures { OnOk result ((past : History) (o : ℕ → BracketLink) (k n b : ℕ) → At past o k n b store.old link.old → 1 ≤ depth k past → At (change.rolls_back k ∷ past) o k n b store.new link.new) }
{
    R::run(alloc, store, link, Act::Rollback, Answer::Accept)?;
    Ok(())
}

/// Gives the innermost level up.
pub fn give_up<R: Route>(
    alloc: Global,
    store: &mut MemStore,
    link: &mut ClientLink,
) -> Result<(), OutOfMemory>
    ensures { OnOk result ((past : History) (o : ℕ → BracketLink) (k n b : ℕ) → At past o k n b store.old link.old → 1 ≤ depth k past → At (change.rolls_back k ∷ past) o k n b store.new link.new) }
{
    R::run(alloc, store, link, Act::GiveUp, Answer::Accept)?;
    Ok(())
}
