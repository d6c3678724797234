//! A move, in a level of its own.
ghost use Rattle.std.specs.Prelude.{◌≡◌, ◌+◌, ◌<◌, ◌≤◌, ◌^◌, ◌∷◌, ◌+ℤ◌, ◌-ℤ◌, ◌≤ℤ◌, int_lt, pos, false, ℕ, ℤ, Some, IfOk, OnOk};
ghost use Rattle.sqlx_savepoints.specs.Changes.{History};
ghost use Rattle.sqlx_savepoints.specs.Brackets.{depth};
ghost use Rattle.sqlx_savepoints.specs.Standing.{standing, value_of};
ghost use Rattle.sqlx_transfer_rules.specs.Rules as rules;
ghost use Rattle.sqlx_savepoints.specs.Links.{Link as BracketLink};
ghost use Rattle.sqlx_transfer.specs.At.{At};
ghost use Rattle.sqlx_transfer.specs.Moving.{Moves, both_past, choice_past, moved_reply, end_of};
ghost use Rattle.sqlx_transfer.specs.Moving as spec;

use crate::level;
use crate::level::Written;
use sqlx_play_acts::{ClientLink, MemStore, Route};
use sqlx_text::OutOfMemory;
use sqlx_transfer_rules::{Met, Reply};
use std::alloc::Global;

/// An amount that is to go from one account to another, and what meets its writes.
#[derive(Clone, Copy)]
pub struct Transfer {
    pub from: u32,
    pub to: u32,
    pub amount: u64,
    pub met: Met,
}

// Whether the first write is refused.
fn refuses_first(met: Met) -> bool
    ensures { result ≡ spec.refuses_first met }
{
    matches!(met, Met::FirstRefused)
}

// Whether the second write is refused.
fn refuses_second(met: Met) -> bool
    ensures { result ≡ spec.refuses_second met }
{
    matches!(met, Met::SecondRefused)
}

// Writes what the accounts hold behind a move, the first account first.
fn write_both<R: Route>(
    alloc: Global,
    store: &mut MemStore,
    link: &mut ClientLink,
    transfer: &Transfer,
    less: i64,
    more: i64,
) -> Result<Reply, OutOfMemory>
    ensures { IfOk result (λ reply. (past : History) (o : ℕ → BracketLink) (k n b : ℕ) → At past o k n b store.old link.old
        → (reply ≡ rules.move_met transfer.now.met n) × At (both_past transfer.now.met n k (pos transfer.now.from) less (pos transfer.now.to) more past) o k n b store.new link.new) }
{
    let first = level::put::<R>(
        alloc,
        store,
        link,
        transfer.from,
        less,
        refuses_first(transfer.met),
    )?;
    match first {
        Written::Refused => return Ok(Reply::Fault),
        Written::Busy => return Ok(Reply::Busy),
        Written::Done => {}
    }
    let second = level::put::<R>(
        alloc,
        store,
        link,
        transfer.to,
        more,
        refuses_second(transfer.met),
    )?;
    match second {
        Written::Refused => Ok(Reply::Fault),
        Written::Busy => Ok(Reply::Busy),
        Written::Done => Ok(Reply::Moved),
    }
}

// Whether less than an amount is there.
fn lacks(balance: i64, amount: u64) -> bool
    ensures lacks { result ≡ int_lt balance (pos amount) }
    ensures small { result ≡ false → amount < 2 ^ 63 }
    ensures enough { result ≡ false → pos amount ≤ℤ balance }
{
    balance < 0 || (balance as u64) < amount
}

// Whether a balance would pass the greatest one.
fn passes_greatest(balance: i64, amount: i64) -> bool
    requires { pos 0 ≤ℤ amount }
    ensures passes { result ≡ int_lt (pos rules.greatest) (balance +ℤ amount) }
    ensures fits { result ≡ false → (balance +ℤ amount) ≤ℤ pos rules.greatest }
{
    balance > i64::MAX - amount
}

// Writes both accounts, where the amount is there and has room, by what was read of them.
fn write_if_due<R: Route>(
    alloc: Global,
    store: &mut MemStore,
    link: &mut ClientLink,
    transfer: &Transfer,
    from: i64,
    to: i64,
) -> Result<Reply, OutOfMemory>
    ensures { IfOk result (λ reply. (past : History) (o : ℕ → BracketLink) (k n b : ℕ) → At past o k n b store.old link.old
        → (reply ≡ moved_reply transfer.now n from to) × At (choice_past transfer.now n from to k past) o k n b store.new link.new) }
{
    if lacks(from, transfer.amount) {
        return Ok(Reply::Insufficient);
    }
    let amount = transfer.amount as i64;
    if passes_greatest(to, amount) {
        return Ok(Reply::Overflow);
    }
    let reply = write_both::<R>(alloc, store, link, transfer, from - amount, to + amount)?;
    Ok(reply)
}

// Whether a reply says that the amount was moved.
fn is_moved(reply: Reply) -> bool
    ensures { result ≡ spec.is_moved reply }
{
    matches!(reply, Reply::Moved)
}

// Ends the level of a move: commits it where the amount was moved, and else rolls it back.
fn finish<R: Route>(
    alloc: Global,
    store: &mut MemStore,
    link: &mut ClientLink,
    reply: Reply,
) -> Result<(), OutOfMemory>
    ensures { OnOk result ((past : History) (o : ℕ → BracketLink) (k n b : ℕ) → At past o k n b store.old link.old → 1 ≤ depth k past → At (end_of reply k ∷ past) o k n b store.new link.new) }
{
    if is_moved(reply) {
        level::commit::<R>(alloc, store, link)?;
        Ok(())
    } else {
        level::roll_back::<R>(alloc, store, link)?;
        Ok(())
    }
}

/// Moves an amount for the link's client, in a level of its own: two reads, two writes, and the commit.
pub fn move_amount<R: Route>(
    alloc: Global,
    store: &mut MemStore,
    link: &mut ClientLink,
    transfer: &Transfer,
) -> Result<Reply, OutOfMemory>
    ensures { IfOk result (λ reply. (past : History) (o : ℕ → BracketLink) (k n b : ℕ) (from to : ℤ) → At past o k n b store.old link.old → depth k past < 100 → b + 1 < 2 ^ 32
        → value_of k (pos transfer.now.from) (standing past) ≡ Some from → value_of k (pos transfer.now.to) (standing past) ≡ Some to
        → Moves past o k n b transfer.now from to reply store.new link.new) }
{
    level::begin::<R>(alloc, store, link)?;
    let from = level::read::<R>(alloc, store, link, transfer.from)?;
    let to = level::read::<R>(alloc, store, link, transfer.to)?;
    let reply = write_if_due::<R>(alloc, store, link, transfer, from, to)?;
    finish::<R>(alloc, store, link, reply)?;
    Ok(reply)
}
