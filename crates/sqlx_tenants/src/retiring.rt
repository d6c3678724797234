//! A tenant goes.
ghost use Rattle.std.specs.Prelude.{◌≡◌, ℕ, ◌<◌, ◌≤◌, ◌^◌, length};
ghost use Rattle.sqlx_tenants_rules.specs.Book.{account};
ghost use Rattle.sqlx_tenants_rules.specs.Rules.{retire_reply, after_retire};
ghost use Rattle.sqlx_tenants.specs.Answers.{Replies};
ghost use Rattle.sqlx_tenants.specs.Draws.{Draws};

use sqlx_family::Family;
use sqlx_tenants_rules::Reply;

/// `retire`
pub fn retire(family: &mut Family<()>, now: u64, tenant: u32) -> Reply
    requires named { tenant < length family.old.pools }
    requires child { 1 ≤ tenant }
    ensures replies { Replies now tenant (λ book. retire_reply (account tenant book)) (λ first. after_retire tenant) family.old family.new result }
    ensures draws { Draws family.old.shared family.new.shared }
{
    let _ = now;
    let idle = family.retire(tenant);
    Reply::Retired(idle.len() as u64)
}
