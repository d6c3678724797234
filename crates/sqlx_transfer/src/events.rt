//! What an event does on its client's connection.
ghost use Rattle.std.specs.Prelude.{◌≡◌, ◌+◌, ◌<◌, ◌≤◌, ◌^◌, ◌∷◌, ◌==◌, ℕ, ℤ, List, pos, Some, IfOk, OnOk};
ghost use Rattle.sqlx_savepoints.specs.Changes.{History};
ghost use Rattle.sqlx_savepoints.specs.Brackets.{depth};
ghost use Rattle.sqlx_savepoints.specs.Standing.{Standing, standing, value_of};
ghost use Rattle.sqlx_savepoints.specs.Links.{Link as BracketLink};
ghost use Rattle.sqlx_savepoints.proofs.StoreOf.{IsQuiet};
ghost use Rattle.sqlx_transfer_rules.specs.declared.bank_line.BankLine.{BankLine as LineValue};
ghost use Rattle.sqlx_transfer_rules.specs.Values.{valued};
ghost use Rattle.sqlx_transfer.specs.At.{At};
ghost use Rattle.sqlx_transfer.specs.BankSteps.{Starts, MovesIf, DropsAll, ended};

use crate::moving::Transfer;
use crate::{level, moving};
use sqlx_play_acts::{ClientLink, MemStore, Route};
use sqlx_text::OutOfMemory;
use sqlx_transfer_rules::Reply;
use std::alloc::Global;

/// A further level of a client is begun, unless a hundred are open.
pub fn start_next<R: Route>(
    alloc: Global,
    store: &mut MemStore,
    link: &mut ClientLink,
) -> Result<Reply, OutOfMemory>
    ensures { IfOk result (λ reply. (past : History) (o : ℕ → BracketLink) (k n b : ℕ) → At past o k n b store.old link.old → depth k past ≤ 100 → b + 1 < 2 ^ 32
        → Starts (depth k past == 100) past o k n b reply store.new link.new) }
{
    let levels = link.depth();
    if levels >= 100 {
        return Ok(Reply::Deep);
    }
    level::begin::<R>(alloc, store, link)?;
    Ok(Reply::Level(levels as u64 + 1))
}

/// An amount is moved for a client, unless a hundred levels are open.
pub fn move_for<R: Route>(
    alloc: Global,
    store: &mut MemStore,
    link: &mut ClientLink,
    transfer: &Transfer,
) -> Result<Reply, OutOfMemory>
    ensures { IfOk result (λ reply. (past : History) (o : ℕ → BracketLink) (k n b : ℕ) (from to : ℤ) → At past o k n b store.old link.old → depth k past ≤ 100 → b + 1 < 2 ^ 32
        → value_of k (pos transfer.now.from) (standing past) ≡ Some from → value_of k (pos transfer.now.to) (standing past) ≡ Some to
        → MovesIf (depth k past == 100) past o k n b transfer.now from to reply store.new link.new) }
{
    if link.depth() >= 100 {
        return Ok(Reply::Deep);
    }
    let reply = moving::move_amount::<R>(alloc, store, link, transfer)?;
    Ok(reply)
}

/// The innermost level of a client is committed, or rolled back.
pub fn end_for<R: Route>(
    alloc: Global,
    store: &mut MemStore,
    link: &mut ClientLink,
    commits: bool,
) -> Result<(), OutOfMemory>
    ensures { OnOk result ((past : History) (o : ℕ → BracketLink) (k n b : ℕ) → At past o k n b store.old link.old → 1 ≤ depth k past → At (ended commits k ∷ past) o k n b store.new link.new) }
{
    if commits {
        level::commit::<R>(alloc, store, link)?;
        Ok(())
    } else {
        level::roll_back::<R>(alloc, store, link)?;
        Ok(())
    }
}

/// Every level of a client is given up.
pub fn give_all_up<R: Route>(
    alloc: Global,
    store: &mut MemStore,
    link: &mut ClientLink,
) -> Result<(), OutOfMemory>
    ensures { OnOk result ((past : History) (o : ℕ → BracketLink) (k n b : ℕ) (line : LineValue) (things : List Standing) → At past o k n b store.old link.old → 1 ≤ depth k past
        → standing past ≡ valued line things → IsQuiet things → DropsAll o k n b line things store.new link.new) }
{
    let mut left = link.depth();
    while left > 0 {
        level::give_up::<R>(alloc, store, link)?;
        left -= 1;
    }
    Ok(())
}
