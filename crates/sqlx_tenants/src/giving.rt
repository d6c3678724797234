//! A client gives a tenant's connection back.
ghost use Rattle.std.specs.Prelude.{◌≡◌, ℕ, ◌<◌, ◌≤◌, ◌^◌, length};
ghost use Rattle.sqlx_tenants_rules.specs.Rules.{give_reply, after_give};
ghost use Rattle.sqlx_tenants.specs.Answers.{Replies};
ghost use Rattle.sqlx_tenants.specs.Draws.{Draws};

use sqlx_family::Family;
use sqlx_lines::NANOS;
use sqlx_pool_lists::{Given, Lent};
use sqlx_tenants_rules::Reply;
use sqlx_text::Moment;

/// `give`
pub fn give(family: &mut Family<()>, now: u64, client: u32, tenant: u32, conn: u32) -> Reply
    requires named { tenant < length family.old.pools }
    requires child { 1 ≤ tenant }
    requires now { now < 2 ^ 40 }
    ensures replies { Replies now tenant (give_reply client tenant conn) (λ first. after_give now tenant conn) family.old family.new result }
    ensures draws { Draws family.old.shared family.new.shared }
{
    if !family.owns(tenant, client, u64::from(conn)) {
        return Reply::NotHeld;
    }
    let moment = Moment(now * NANOS);
    let lent = Lent {
        id: u64::from(conn),
        created: moment,
        raw: (),
    };
    match family.give(tenant, client, lent, moment, true) {
        Given::Kept => Reply::Kept,
        Given::Closed(_) => Reply::Closed,
        Given::NotHeld(_) => Reply::NotHeld,
    }
}
