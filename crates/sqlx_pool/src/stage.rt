//! How far a poll has come, between its locked steps.

ghost use Rattle.std.specs.Prelude.{◌≡◌, ℕ, ◌+◌, ◌<◌, ◌≤◌, true, false, is_some};
ghost use Rattle.sqlx_pool_parts.specs.Answers.{lends_tested, IfTestLends, lends_new, IfTryLends, is_ended};
ghost use Rattle.sqlx_pool_core.specs.declared.idle_check.Opening.{Opening};
ghost use Rattle.sqlx_pool.specs.Refusals.{IsEnd};
ghost use Rattle.sqlx_pool.specs.PollChain.{alone, begun_stage, tested_stage, tried_stage};
ghost use Rattle.sqlx_pool.specs.Stage.{has_lent, IfLent, IfEnded, wants_test, wants_connect};

use sqlx_pool_core::{AfterConnect, AfterTest, Idle, Lent, Start, Tried, Verdict};
use sqlx_text::{Error, Moment};

/// Why a poll is still pending.
#[derive(Clone, Copy, PartialEq, Eq)]
pub enum Why {
    /// As many tickets wait before this one as permits are free, or more.
    Waiting,
    /// The next try of a connect is due at this moment, in nanoseconds.
    Backoff(u128),
}

// How far a poll has come.
pub enum Stage<C, H> {
    // The connection is lent.
    Lent(Lent<C>, H),
    // The ticket waits, or backs off.
    Pending(Why),
    // The ticket ended.
    Failed(Error),
    // The ticket ended; this connection is to be closed, hard or gently.
    Left { raw: C, hard: bool, error: Error },
    // This idle connection is to be tested at this moment.
    Test(Idle<C>, Moment),
    // A connection is to be opened.
    Connect,
}

// How far a poll is that begins so, at this moment.
pub fn after_start<C, H>(start: Start<C>, moment: Moment) -> Stage<C, H>
    ensures is { alone result ≡ begun_stage moment start }
    ensures lent { has_lent result ≡ false }
    ensures flat { (levels : C → ℕ) → IfLent result (λ lent. levels lent.raw ≡ 0) }
    ensures causes { IfEnded result IsEnd }
{
    match start {
        Start::NotHeld => Stage::Failed(Error::NotHeld),
        Start::Closed => Stage::Failed(Error::PoolClosed),
        Start::TimedOut => Stage::Failed(Error::PoolTimedOut),
        Start::Exhausted => Stage::Failed(Error::Exhausted),
        Start::Waiting => Stage::Pending(Why::Waiting),
        Start::Backoff(until) => Stage::Pending(Why::Backoff(until)),
        Start::Connect => Stage::Connect,
        Start::Test(idle) => Stage::Test(idle, moment),
    }
}

// What a test came to, with the share of what it lent.
pub fn after_test<C, H: Drop>(after: AfterTest<C>, held: Option<H>, moment: Moment) -> Stage<C, H>
    requires { is_some held ≡ lends_tested after }
    ensures is { alone result ≡ tested_stage moment after }
    ensures lent { has_lent result ≡ lends_tested after }
    ensures flat { (levels : C → ℕ) → IfTestLends after (λ lent. levels lent.raw ≡ 0) → IfLent result (λ lent. levels lent.raw ≡ 0) }
    ensures causes { IfEnded result IsEnd }
{
    match after {
        AfterTest::Ready(lent) => match held {
            Some(held) => Stage::Lent(lent, held),
            None => unreachable!(),
        },
        AfterTest::Test(next) => Stage::Test(next, moment),
        AfterTest::Connect => Stage::Connect,
        AfterTest::Closed(Some(raw)) => Stage::Left {
            raw,
            hard: false,
            error: Error::PoolClosed,
        },
        AfterTest::Closed(None) => Stage::Failed(Error::PoolClosed),
        AfterTest::NotHeld(Verdict::Accepted(lent)) => Stage::Left {
            raw: lent.raw,
            hard: true,
            error: Error::NotHeld,
        },
        AfterTest::NotHeld(Verdict::Refused(_)) => Stage::Failed(Error::NotHeld),
    }
}

// What a try of a connect came to that wasn't refused for good, with the share of what it lent.
pub fn after_try<C, H: Drop>(after: AfterConnect<C>, held: Option<H>) -> Stage<C, H>
    requires held { is_some held ≡ lends_new after }
    requires calm { is_ended after ≡ false }
    ensures is { (opening : Opening C) → alone result ≡ tried_stage opening after }
    ensures lent { has_lent result ≡ lends_new after }
    ensures flat { (levels : C → ℕ) → IfTryLends after (λ lent. levels lent.raw ≡ 0) → IfLent result (λ lent. levels lent.raw ≡ 0) }
    ensures causes { IfEnded result IsEnd }
    ensures tested { wants_test result ≡ false }
    ensures connected { wants_connect result ≡ false }
{
    match after {
        AfterConnect::Ready(lent) => match held {
            Some(held) => Stage::Lent(lent, held),
            None => unreachable!(),
        },
        AfterConnect::Backoff(until) => Stage::Pending(Why::Backoff(until)),
        AfterConnect::Closed(Some(raw)) => Stage::Left {
            raw,
            hard: false,
            error: Error::PoolClosed,
        },
        AfterConnect::Closed(None) => Stage::Failed(Error::PoolClosed),
        AfterConnect::NotHeld(Tried::Opened(raw)) => Stage::Left {
            raw,
            hard: true,
            error: Error::NotHeld,
        },
        AfterConnect::NotHeld(_) => Stage::Failed(Error::NotHeld),
        AfterConnect::Ended => unreachable!(),
    }
}
