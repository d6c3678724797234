//! A client asks a tenant for a connection.
ghost use Rattle.std.specs.Prelude.{◌≡◌, ℕ, ◌<◌, ◌≤◌, ◌^◌, IfOk, OnOk, length};
ghost use Rattle.sqlx_tenants_rules.specs.Rules.{ask_reply, after_ask};
ghost use Rattle.sqlx_tenants.specs.Answers.{Replies};
ghost use Rattle.sqlx_tenants.specs.Draws.{Draws};

use sqlx_family::Family;
use sqlx_lines::NANOS;
use sqlx_tenants_rules::Reply;
use sqlx_text::{Moment, OutOfMemory};
use std::alloc::Global;

/// `ask`
pub fn ask(
    family: &mut Family<()>,
    alloc: Global,
    now: u64,
    client: u32,
    tenant: u32,
) -> Result<Reply, OutOfMemory>
    requires named { tenant < length family.old.pools }
    requires child { 1 ≤ tenant }
    requires now { now < 2 ^ 40 }
    ensures replies { IfOk result (Replies now tenant (ask_reply tenant) (λ first. after_ask first.timeout now client tenant) family.old family.new) }
    ensures draws { OnOk result (Draws family.old.shared family.new.shared) }
{
    if family.is_closed(tenant) {
        return Ok(Reply::PoolClosed);
    }
    match family.ask(tenant, alloc, Moment(now * NANOS), client) {
        Ok(ticket) => Ok(Reply::Ticket(ticket)),
        Err(error) => {
            drop(error);
            Err(OutOfMemory)
        }
    }
}
