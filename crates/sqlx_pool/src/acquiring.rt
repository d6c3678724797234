//! A connection that was asked for and isn't there yet.

ghost use Rattle.std.specs.Prelude.{◌≡◌, ℕ, ◌+◌, ◌<◌, ◌≤◌, false};
ghost use Rattle.sqlx_pool_lists.specs.Balance.{one_if};
ghost use Rattle.sqlx_pool_parts.specs.Booked.{CountsIf};
ghost use Rattle.sqlx_pool.specs.Calls as call;
ghost use Rattle.sqlx_pool.specs.PollChain.{GoesFrom, Polls, PollsUnseen};
ghost use Rattle.sqlx_pool.specs.Polling.{is_ready, IfReady, IfFailed, IfPending};
ghost use Rattle.sqlx_pool.specs.Refusals.{IsEnd, IsPollRefusal};
ghost use Rattle.sqlx_pool.specs.Seen.{SeesStep};
ghost use Rattle.sqlx_pool.specs.Stage.{has_lent, IfLent, IfEnded};
ghost use Rattle.sqlx_pool.specs.Lent.{as_lent};

mod waits;

use crate::stage::{Stage, Why};
use crate::steps::PoolSteps;
use crate::stood::FrontOf;
use crate::{PoolConnectionOf, PoolOf};
use sqlx_pool_core::Outside;
use sqlx_pool_parts::checks::close_left;
use sqlx_text::{Depth, Error, Moment};
use std::alloc::Global;
use std::sync::Wait;

/// What a poll came to.
pub enum Polling<T, P> {
    /// The connection is lent.
    Ready(T),
    /// Poll again later.
    Pending(P, Why),
    /// The ticket ended.
    Failed(Error),
}

/// What a poll of a pool came to.
pub type PoolPollOf<C, O, S> = Polling<PoolConnectionOf<C, O, S>, AcquiringOf<C, O, S>>;

/// A ticket of a client. It ends by a poll that answers a connection or an error, or by `cancel`; it can't be let go
/// otherwise.
pub struct AcquiringOf<C: Depth, O, S: PoolSteps<C, O>> {
    pub(crate) pool: PoolOf<C, O, S>,
    pub(crate) client: u32,
    pub(crate) ticket: u64,
}

impl<C: Depth + Drop, O: Drop, S: PoolSteps<C, O>> AcquiringOf<C, O, S> {
    pub(crate) fn new(pool: PoolOf<C, O, S>, client: u32, ticket: u64) -> Self
        ensures ticket { (result.client ≡ client) × (result.ticket ≡ ticket) }
        ensures pool { result.pool ≡ pool }
    {
        AcquiringOf {
            pool,
            client,
            ticket,
        }
    }

    /// The number of the ticket.
    pub fn ticket(&self) -> u64
        ensures { result ≡ self.now.ticket }
    {
        self.ticket
    }

    /// Polls the ticket: idle connections are tested by ping and hook where they are set, at most `idle_tries` of them up
    /// to the first that passes; then, or where none is idle, a connection is opened. What isn't lent is closed. The lock isn't held meanwhile. The tally
    /// counts a loan.
    pub fn poll<R: Wait, X: Outside<C, O>>(
        self,
        rt: &R,
        alloc: Global,
        now: Moment,
        out: &mut X,
        tally: &mut S::Tally,
    ) -> PoolPollOf<C, O, S>
        ensures polls { let pool = self.pool.shared.value in PollsUnseen X.does X.depth C.levels S.stands S.does pool.name self.client self.ticket S.tells now pool.options as_lent pool.unseen result out.old out.new }
        ensures tally { CountsIf (is_ready result) (S.Tally.counted tally.old) (S.Tally.counted tally.new) }
        ensures flat { IfReady result (λ conn. C.levels conn.raw ≡ 0) }
        ensures again { IfPending result (λ waits. (waits.pool.shared.value ≡ self.pool.shared.value) × (waits.client ≡ self.client) × (waits.ticket ≡ self.ticket)) }
        ensures causes { IfFailed result (IsPollRefusal (X.faults out.old) (X.faults out.new)) }
        ensures counts { (X.faults out.old ≤ X.faults out.new) × (X.refusals out.old ≤ X.refusals out.new) }
    {
        let mut me = self.pool.front();
        self.poll_seen::<R, X>(rt, alloc, now, out, tally, &mut me)
    }

    /// As `poll`. The front of the caller goes on with each step of the poll, and ends with the last of them.
    pub fn poll_seen<R: Wait, X: Outside<C, O>>(
        self,
        rt: &R,
        alloc: Global,
        now: Moment,
        out: &mut X,
        tally: &mut S::Tally,
        me: &mut FrontOf<C, O, S>,
    ) -> PoolPollOf<C, O, S>
        ensures polls { Polls X.does X.depth C.levels S.stands S.does self.pool.shared.value.name self.client self.ticket S.tells now self.pool.shared.value.options as_lent me.old me.new result out.old out.new }
        ensures tally { CountsIf (is_ready result) (S.Tally.counted tally.old) (S.Tally.counted tally.new) }
        ensures flat { IfReady result (λ conn. C.levels conn.raw ≡ 0) }
        ensures again { IfPending result (λ waits. (waits.pool.shared.value ≡ self.pool.shared.value) × (waits.client ≡ self.client) × (waits.ticket ≡ self.ticket)) }
        ensures causes { IfFailed result (IsPollRefusal (X.faults out.old) (X.faults out.new)) }
        ensures counts { (X.faults out.old ≤ X.faults out.new) × (X.refusals out.old ≤ X.refusals out.new) }
    {
        let begun = self
            .pool
            .begin(rt, self.client, self.ticket, now, tally, me);
        self.go_on::<R, X>(rt, alloc, now, begun, out, tally, me)
    }

    // Goes on with a poll that was begun.
    fn go_on<R: Wait, X: Outside<C, O>>(
        self,
        rt: &R,
        alloc: Global,
        now: Moment,
        begun: Stage<C, S::Held>,
        out: &mut X,
        tally: &mut S::Tally,
        me: &mut FrontOf<C, O, S>,
    ) -> PoolPollOf<C, O, S>
        requires flat { IfLent begun (λ lent. C.levels lent.raw ≡ 0) }
        requires causes { IfEnded begun IsEnd }
        ensures goes { GoesFrom X.does X.depth C.levels S.stands S.does self.pool.shared.value.name self.client self.ticket S.tells now self.pool.shared.value.options as_lent begun me.old out.old me.new result out.new }
        ensures parts { (S.Tally.counted tally.new).parts ≡ (S.Tally.counted tally.old).parts }
        ensures loans { (S.Tally.counted tally.new).loans + one_if (has_lent begun) ≡ (S.Tally.counted tally.old).loans + one_if (is_ready result) }
        ensures flat { IfReady result (λ conn. C.levels conn.raw ≡ 0) }
        ensures again { IfPending result (λ waits. (waits.pool.shared.value ≡ self.pool.shared.value) × (waits.client ≡ self.client) × (waits.ticket ≡ self.ticket)) }
        ensures causes { IfFailed result (IsPollRefusal (X.faults out.old) (X.faults out.new)) }
        ensures counts { (X.faults out.old ≤ X.faults out.new) × (X.refusals out.old ≤ X.refusals out.new) }
    {
        match begun {
            Stage::Lent(lent, held) => {
                let AcquiringOf {
                    pool,
                    client,
                    ticket: _,
                } = self;
                Polling::Ready(PoolConnectionOf::new(pool, client, lent, held))
            }
            other => self.go_further::<R, X>(rt, alloc, now, other, out, tally, me),
        }
    }

    // Tests and opens connections, as a poll that was begun wants it. It stands apart so that a poll that is served at once
    // doesn't pay for its locals. Where the ticket ends without a loan, those that wait are told.
    #[inline(never)]
    fn go_further<R: Wait, X: Outside<C, O>>(
        self,
        rt: &R,
        alloc: Global,
        now: Moment,
        begun: Stage<C, S::Held>,
        out: &mut X,
        tally: &mut S::Tally,
        me: &mut FrontOf<C, O, S>,
    ) -> PoolPollOf<C, O, S>
        requires flat { IfLent begun (λ lent. C.levels lent.raw ≡ 0) }
        requires causes { IfEnded begun IsEnd }
        ensures goes { GoesFrom X.does X.depth C.levels S.stands S.does self.pool.shared.value.name self.client self.ticket S.tells now self.pool.shared.value.options as_lent begun me.old out.old me.new result out.new }
        ensures parts { (S.Tally.counted tally.new).parts ≡ (S.Tally.counted tally.old).parts }
        ensures loans { (S.Tally.counted tally.new).loans + one_if (has_lent begun) ≡ (S.Tally.counted tally.old).loans + one_if (is_ready result) }
        ensures flat { IfReady result (λ conn. C.levels conn.raw ≡ 0) }
        ensures again { IfPending result (λ waits. (waits.pool.shared.value ≡ self.pool.shared.value) × (waits.client ≡ self.client) × (waits.ticket ≡ self.ticket)) }
        ensures causes { IfFailed result (IsPollRefusal (X.faults out.old) (X.faults out.new)) }
        ensures counts { (X.faults out.old ≤ X.faults out.new) × (X.refusals out.old ≤ X.refusals out.new) }
    {
        let AcquiringOf {
            pool,
            client,
            ticket,
        } = self;
        let tries = pool.shared.options.get_idle_tries();
        let tested = pool.test::<R, X>(rt, client, ticket, begun, tries, out, tally, me);
        let stage = pool.open_wanted::<R, X>(
            rt, alloc, client, ticket, now, tested, out, tally, me,
        );
        match stage {
            Stage::Lent(lent, held) => {
                Polling::Ready(PoolConnectionOf::new(pool, client, lent, held))
            }
            Stage::Pending(why) => Polling::Pending(AcquiringOf::new(pool, client, ticket), why),
            Stage::Failed(error) => {
                pool.notify();
                drop(pool);
                Polling::Failed(error)
            }
            Stage::Left { raw, hard, error } => {
                pool.notify();
                drop(pool);
                close_left::<C, O, X>(raw, hard, out);
                Polling::Failed(error)
            }
            Stage::Test(_, _) | Stage::Connect => unreachable!(),
        }
    }

    /// Gives the ticket up. It ends, and frees what it held: true.
    pub fn cancel<R: Wait>(self, rt: &R) -> bool {
        let mut me = self.pool.front();
        self.cancel_seen(rt, &mut me)
    }

    /// As `cancel`. The front of the caller then ends with the step.
    pub fn cancel_seen<R: Wait>(self, rt: &R, me: &mut FrontOf<C, O, S>) -> bool
        ensures { SeesStep S.stands me.old me.new (S.does (call.Cancel self.pool.shared.value.name self.client self.ticket result)) }
    {
        let AcquiringOf {
            pool,
            client,
            ticket,
        } = self;
        pool.cancel(rt, client, ticket, me)
    }
}
