//! A bank before its first event: the opening balances are written, and the connections opened.
ghost use Rattle.std.specs.Prelude.{◌≡◌, ◌<◌, ◌≤◌, ◌^◌, [], ℕ, OnOk, IfOk};
ghost use Rattle.sqlx_savepoints.specs.Links.{new_link};
ghost use Rattle.sqlx_play.specs.stage.LinksStand.{side_of};
ghost use Rattle.sqlx_transfer.specs.Pool.{IsPool};
ghost use Rattle.sqlx_transfer.specs.Openings.{AreAlike, Fills, Wrote};

use crate::level;
use crate::pool::opened;
use sqlx_play_acts::{ClientLink, MemStore, Route};
use sqlx_pool_core::PoolCore;
use sqlx_text::OutOfMemory;
use std::alloc::Global;

/// Writes the opening balance of so many accounts.
pub fn write_openings<R: Route>(
    alloc: Global,
    store: &mut MemStore,
    link: &mut ClientLink,
    accounts: u32,
    opening: u64,
) -> Result<(), OutOfMemory>
    requires { opening < 2 ^ 63 }
    ensures { OnOk result (Wrote opening 0 store.old link.old → Wrote opening accounts store.new link.new) }
{
    let balance = opening as i64;
    let mut account: u32 = 0;
    while account < accounts {
        level::put::<R>(alloc, store, link, account + 1, balance, false)?;
        account += 1;
    }
    Ok(())
}

/// Opens the connections of a pool, of which the first is at hand.
pub fn fill_pool(
    alloc: Global,
    store: &mut MemStore,
    core: &mut PoolCore<ClientLink>,
    first: ClientLink,
    max: u32,
) -> Result<(), OutOfMemory>
    requires pool { IsPool max core.old.pool [] [] }
    requires some { 1 ≤ max }
    requires rests { side_of first ≡ new_link }
    ensures filled { OnOk result (Fills max max core.new.pool) }
    ensures alike { OnOk result (AreAlike store.old store.new) }
{
    opened(core, first);
    let mut count: u32 = 1;
    while count < max {
        let link = ClientLink::connect(alloc, store)?;
        opened(core, link);
        count += 1;
    }
    Ok(())
}
