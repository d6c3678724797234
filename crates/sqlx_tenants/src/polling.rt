//! A client polls its ticket at a tenant.
ghost use Rattle.std.specs.Prelude.{◌≡◌, ℕ, ◌<◌, ◌≤◌, ◌^◌, length};
ghost use Rattle.sqlx_tenants_rules.specs.Rules.{poll_reply, after_poll};
ghost use Rattle.sqlx_tenants.specs.Answers.{Replies, tested_reply, connected_reply, opening};
ghost use Rattle.sqlx_tenants.specs.Draws.{Draws};

use sqlx_family::Family;
use sqlx_lines::NANOS;
use sqlx_pool_lists::{AfterConnect, AfterTest, Start, Tried, Verdict};
use sqlx_tenants_rules::Reply;
use sqlx_text::Moment;

// The reply for what a test comes to.
fn tested(after: AfterTest<()>) -> Reply
    ensures { result ≡ tested_reply after }
{
    match after {
        AfterTest::NotHeld(_) => Reply::NotHeld,
        AfterTest::Closed(_) => Reply::PoolClosed,
        AfterTest::Ready(lent) => Reply::Ready(lent.id),
        AfterTest::Test(_) => Reply::NotHeld,
        AfterTest::Connect => Reply::NotHeld,
    }
}

// The reply for what a connect comes to.
fn connected(after: AfterConnect<()>) -> Reply
    ensures { result ≡ connected_reply after }
{
    match after {
        AfterConnect::NotHeld(_) => Reply::NotHeld,
        AfterConnect::Closed(_) => Reply::PoolClosed,
        AfterConnect::Ready(lent) => Reply::Ready(lent.id),
        AfterConnect::Backoff(_) => Reply::NotHeld,
        AfterConnect::Ended => Reply::Io,
    }
}

// A connection that is opened, or refused.
fn opened(opens: bool) -> Tried<()>
    ensures { result ≡ opening opens }
{
    if opens {
        Tried::Opened(())
    } else {
        Tried::Fatal
    }
}

/// `poll`
pub fn poll(
    family: &mut Family<()>,
    now: u64,
    client: u32,
    tenant: u32,
    ticket: u32,
    opens: bool,
) -> Reply
    requires named { tenant < length family.old.pools }
    requires child { 1 ≤ tenant }
    requires now { now < 2 ^ 40 }
    ensures replies { Replies now tenant (poll_reply now client tenant ticket opens) (λ first. after_poll now client tenant ticket) family.old family.new result }
    ensures draws { Draws family.old.shared family.new.shared }
{
    let number = u64::from(ticket);
    if !family.waits(tenant, client, number) {
        return Reply::NotHeld;
    }
    let moment = Moment(now * NANOS);
    match family.start(tenant, client, number, moment) {
        Start::NotHeld => Reply::NotHeld,
        Start::Closed => Reply::PoolClosed,
        Start::TimedOut => Reply::PoolTimedOut,
        Start::Exhausted => Reply::NotHeld,
        Start::Waiting => Reply::Waiting,
        Start::Backoff(_) => Reply::NotHeld,
        Start::Test(idle) => {
            tested(family.finish_test(tenant, client, number, Verdict::Accepted(idle.lent)))
        }
        Start::Connect => {
            connected(family.finish_connect(tenant, client, number, moment, opened(opens)))
        }
    }
}
