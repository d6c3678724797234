//! Waiting for a connection: polls of a ticket, between which the thread sleeps until a step may have freed something.

ghost use Rattle.std.specs.Prelude.{◌≡◌, ℕ, ◌+◌, ◌<◌, ◌≤◌, ◌⊎◌, true, is_some, IfSome, IfOk, IfErr, OnOk, OnErr};
ghost use Rattle.sqlx_text.specs.declared.error.Error.{Error};
ghost use Rattle.sqlx_pool_parts.specs.Answers.{lent_alone};
ghost use Rattle.sqlx_pool_parts.specs.Booked.{CountsIf};
ghost use Rattle.sqlx_pool.specs.PollChain.{BeginsAs};
ghost use Rattle.sqlx_pool.specs.Polling.{is_ready, IfReady, IfFailed};
ghost use Rattle.sqlx_pool.specs.Refusals.{IsEnd, IsPollRefusal};
ghost use Rattle.sqlx_pool.specs.Stage.{has_lent, IfLent, IfEnded};

use super::AcquiringOf;
use crate::kept::Kept;
use crate::pool::Guard;
use crate::stage::{Stage, Why};
use crate::steps::{PoolSteps, Wakes};
use crate::stood::FrontOf;
use crate::{Clock, Polling, PoolConnectionOf, PoolOf, PoolPollOf};
use sqlx_pool_core::{Lent, Outside, PoolOptions};
use sqlx_pool_parts::checks;
use sqlx_text::{Depth, Error, Moment};
use std::alloc::Global;
use std::sync::Wait;

// Where no more tickets than these haven't ended, one that waits looks for its call before it sleeps: its turn comes
// soon, and the threads that bring it have processors.
const LOOKERS: usize = 3;

// When a ticket that is asked for at this moment has no time left.
fn deadline(options: &PoolOptions, moment: Moment) -> u128 {
    u128::from(moment.0) + u128::from(options.get_acquire_timeout())
}

impl<C: Depth, O, S: PoolSteps<C, O>> Kept<C, O, S> {
    // Asks, and begins the first poll.
    fn ask_and_begin<R: Wait>(
        &mut self,
        rt: &R,
        name: S::Name,
        options: &PoolOptions,
        alloc: Global,
        client: u32,
        now: Moment,
        tally: &mut S::Tally,
        me: &mut FrontOf<C, O, S>,
    ) -> Result<(u64, Stage<C, S::Held>), Error>
        ensures tally { IfOk result (λ asked. CountsIf (has_lent asked.1) (S.Tally.counted tally.old) (S.Tally.counted tally.new)) }
        ensures flat { IfOk result (λ asked. IfLent asked.1 (λ lent. C.levels lent.raw ≡ 0)) }
        ensures ended { IfOk result (λ asked. IfEnded asked.1 IsEnd) }
        ensures causes { IfErr result (λ e. (e ≡ Error.PoolClosed) ⊎ ((e ≡ Error.Exhausted) ⊎ (e ≡ Error.OutOfMemory))) }
        ensures err { OnErr result (S.Tally.counted tally.new ≡ S.Tally.counted tally.old) }
    {
        match self.ask(rt, name, alloc, now, client, me) {
            Ok(ticket) => {
                let begun = self.begin(rt, name, options, client, ticket, now, tally, me);
                Ok((ticket, begun))
            }
            Err(error) => Err(error),
        }
    }
}

// Whether a poll that is so far is pending.
fn is_pending<C, H>(stage: &Stage<C, H>) -> bool {
    match stage {
        Stage::Pending(_) => true,
        _ => false,
    }
}

impl<C: Depth + Drop, O: Drop, S: PoolSteps<C, O>> PoolOf<C, O, S> {
    // Lets the lock go behind the beginning of a poll, and wakes whom that may have let go on, but for its own ticket.
    pub(super) fn unlock_begun(
        &self,
        guard: Guard<'_, C, O, S>,
        ticket: u64,
        begun: &Stage<C, S::Held>,
    ) {
        let mut guard = guard;
        let wakes = guard.wakes_begun(self.shared.name, is_pending(begun));
        drop(guard);
        if wakes != Wakes::One(ticket) {
            self.wake(wakes);
        }
    }

    // Lets the lock go. Where the ticket waits, it then sleeps until it is called, or has no time left; in backoff it
    // sleeps until the next try, unless it is called.
    //
    // No call is missed. The lock was held since the step that said `Waiting`, so the ticket isn't entitled yet, and the
    // calls of its place are counted as they are now. A step that entitles it is made under a later holding, of whichever
    // pool, and then its maker calls its place (`unlock`), or all places (`notify`), as after a close: that raises the
    // count, and a sleep on another count ends, or doesn't begin. The step of a client that entitles its own ticket calls
    // nobody, for it is awake.
    fn sleep_if_waiting<R: Wait>(
        &self,
        rt: &R,
        guard: Guard<'_, C, O, S>,
        ticket: u64,
        now: Moment,
        deadline: u128,
        begun: &Stage<C, S::Held>,
    ) {
        let place = self.shared.all.sleepers.place(ticket);
        let calls = place.calls();
        let looks = guard.locked().num_tickets(self.shared.name) <= LOOKERS;
        self.unlock_begun(guard, ticket, begun);
        match begun {
            Stage::Pending(Why::Waiting) => place.sleep(rt, calls, looks, now, deadline),
            Stage::Pending(Why::Backoff(until)) => place.sleep(rt, calls, false, now, *until),
            _ => {}
        }
    }

    // Begins a poll.
    pub(super) fn begin<R: Wait>(
        &self,
        rt: &R,
        client: u32,
        ticket: u64,
        now: Moment,
        tally: &mut S::Tally,
        me: &mut FrontOf<C, O, S>,
    ) -> Stage<C, S::Held>
        ensures begins { BeginsAs S.stands S.does self.now.shared.value.name client ticket now self.now.shared.value.options me.old me.new result }
        ensures tally { CountsIf (has_lent result) (S.Tally.counted tally.old) (S.Tally.counted tally.new) }
        ensures flat { IfLent result (λ lent. C.levels lent.raw ≡ 0) }
        ensures causes { IfEnded result IsEnd }
    {
        let mut guard = self.lock(rt);
        let name = self.shared.name;
        let begun = guard.begin(
            rt,
            name,
            &self.shared.options,
            client,
            ticket,
            now,
            tally,
            me,
        );
        self.unlock_begun(guard, ticket, &begun);
        begun
    }

    // Begins a poll, and sleeps where the ticket waits or is in backoff.
    fn begin_or_sleep<R: Wait>(
        &self,
        rt: &R,
        client: u32,
        ticket: u64,
        now: Moment,
        deadline: u128,
        tally: &mut S::Tally,
        me: &mut FrontOf<C, O, S>,
    ) -> Stage<C, S::Held>
        ensures begins { BeginsAs S.stands S.does self.now.shared.value.name client ticket now self.now.shared.value.options me.old me.new result }
        ensures tally { CountsIf (has_lent result) (S.Tally.counted tally.old) (S.Tally.counted tally.new) }
        ensures flat { IfLent result (λ lent. C.levels lent.raw ≡ 0) }
        ensures causes { IfEnded result IsEnd }
    {
        let mut guard = self.lock(rt);
        let name = self.shared.name;
        let begun = guard.begin(
            rt,
            name,
            &self.shared.options,
            client,
            ticket,
            now,
            tally,
            me,
        );
        self.sleep_if_waiting(rt, guard, ticket, now, deadline, &begun);
        begun
    }

    // Asks, and begins the first poll; sleeps where the ticket waits.
    fn ask_or_sleep<R: Wait>(
        &self,
        rt: &R,
        guard: Guard<'_, C, O, S>,
        alloc: Global,
        client: u32,
        now: Moment,
        deadline: u128,
        tally: &mut S::Tally,
        me: &mut FrontOf<C, O, S>,
    ) -> Result<(u64, Stage<C, S::Held>), Error>
        ensures tally { IfOk result (λ asked. CountsIf (has_lent asked.1) (S.Tally.counted tally.old) (S.Tally.counted tally.new)) }
        ensures flat { IfOk result (λ asked. IfLent asked.1 (λ lent. C.levels lent.raw ≡ 0)) }
        ensures ended { IfOk result (λ asked. IfEnded asked.1 IsEnd) }
        ensures causes { IfErr result (λ e. (e ≡ Error.PoolClosed) ⊎ ((e ≡ Error.Exhausted) ⊎ (e ≡ Error.OutOfMemory))) }
        ensures err { OnErr result (S.Tally.counted tally.new ≡ S.Tally.counted tally.old) }
    {
        let mut guard = guard;
        let name = self.shared.name;
        match guard.ask_and_begin(
            rt,
            name,
            &self.shared.options,
            alloc,
            client,
            now,
            tally,
            me,
        ) {
            Ok((ticket, begun)) => {
                self.sleep_if_waiting(rt, guard, ticket, now, deadline, &begun);
                Ok((ticket, begun))
            }
            Err(error) => Err(error),
        }
    }

    // Serves an ask at once, where it would be served so and the test of an idle connection asks nothing of the outside.
    fn serve_untested<R: Wait>(
        &self,
        rt: &R,
        guard: &mut Guard<'_, C, O, S>,
        alloc: Global,
        client: u32,
        now: Moment,
        tally: &mut S::Tally,
    ) -> Option<(Lent<C>, S::Held)>
        ensures tally { CountsIf (is_some result) (S.Tally.counted tally.old) (S.Tally.counted tally.new) }
        ensures flat { IfSome (lent_alone result) (λ l. C.levels l.raw ≡ 0) }
    {
        if checks::tests_nothing(&self.shared.options) {
            guard.serve_new(rt, self.shared.name, alloc, now, client, tally)
        } else {
            None
        }
    }

    /// Asks for a connection and waits for it. While its ticket waits in the line, the thread sleeps until a step frees
    /// something or closes the pool, or the ticket has no time left; in backoff it sleeps until the next try. Then it
    /// reads the clock again and polls. It may never return: a ticket whose time is over by the clock ends only when it is
    /// polled.
    pub fn acquire_wait<R: Wait, K: Clock, X: Outside<C, O>>(
        &self,
        rt: &R,
        alloc: Global,
        clock: &mut K,
        client: u32,
        out: &mut X,
        tally: &mut S::Tally,
    ) -> Result<PoolConnectionOf<C, O, S>, Error>
        ensures lent { OnOk result (CountsIf true (S.Tally.counted tally.old) (S.Tally.counted tally.new)) }
        ensures refused { OnErr result (S.Tally.counted tally.new ≡ S.Tally.counted tally.old) }
        ensures flat { IfOk result (λ conn. C.levels conn.raw ≡ 0) }
        ensures causes { IfErr result (IsPollRefusal (X.faults out.old) (X.faults out.new)) }
        ensures counts { (X.faults out.old ≤ X.faults out.new) × (X.refusals out.old ≤ X.refusals out.new) }
    {
        let Ok(pool) = self.try_clone() else {
            return Err(Error::OutOfMemory);
        };
        let now = clock.now();
        let mut guard = self.lock_and_cut(rt);
        match self.serve_untested(rt, &mut guard, alloc, client, now, tally) {
            Some((lent, held)) => {
                drop(guard);
                Ok(PoolConnectionOf::new(pool, client, lent, held))
            }
            None => self.wait_in_line::<R, K, X>(
                rt, pool, guard, alloc, clock, client, now, out, tally,
            ),
        }
    }

    // Asks and waits, where nobody is served at once. It stands apart so that who is served doesn't pay for its locals.
    #[inline(never)]
    fn wait_in_line<R: Wait, K: Clock, X: Outside<C, O>>(
        &self,
        rt: &R,
        pool: Self,
        guard: Guard<'_, C, O, S>,
        alloc: Global,
        clock: &mut K,
        client: u32,
        now: Moment,
        out: &mut X,
        tally: &mut S::Tally,
    ) -> Result<PoolConnectionOf<C, O, S>, Error>
        ensures lent { OnOk result (CountsIf true (S.Tally.counted tally.old) (S.Tally.counted tally.new)) }
        ensures refused { OnErr result (S.Tally.counted tally.new ≡ S.Tally.counted tally.old) }
        ensures flat { IfOk result (λ conn. C.levels conn.raw ≡ 0) }
        ensures causes { IfErr result (IsPollRefusal (X.faults out.old) (X.faults out.new)) }
        ensures counts { (X.faults out.old ≤ X.faults out.new) × (X.refusals out.old ≤ X.refusals out.new) }
    {
        let moment = guard.locked().moment(self.shared.name, now);
        let deadline = deadline(&self.shared.options, moment);
        let mut me = self.front();
        match self.ask_or_sleep(rt, guard, alloc, client, now, deadline, tally, &mut me) {
            Ok((ticket, begun)) => {
                let asked = AcquiringOf::new(pool, client, ticket);
                match asked.go_on::<R, X>(rt, alloc, now, begun, out, tally, &mut me) {
                    Polling::Ready(conn) => Ok(conn),
                    Polling::Failed(error) => Err(error),
                    Polling::Pending(asked, _) => {
                        asked.wait::<R, K, X>(rt, alloc, clock, deadline, out, tally)
                    }
                }
            }
            Err(error) => {
                drop(pool);
                Err(error)
            }
        }
    }
}

impl<C: Depth + Drop, O: Drop, S: PoolSteps<C, O>> AcquiringOf<C, O, S> {
    // Polls until the ticket ends.
    #[tactic(auto, using(crate::proofs::RefusalLemmas::refusal_sooner))]
    fn wait<R: Wait, K: Clock, X: Outside<C, O>>(
        self,
        rt: &R,
        alloc: Global,
        clock: &mut K,
        deadline: u128,
        out: &mut X,
        tally: &mut S::Tally,
    ) -> Result<PoolConnectionOf<C, O, S>, Error>
        ensures lent { OnOk result (CountsIf true (S.Tally.counted tally.old) (S.Tally.counted tally.new)) }
        ensures refused { OnErr result (S.Tally.counted tally.new ≡ S.Tally.counted tally.old) }
        ensures flat { IfOk result (λ conn. C.levels conn.raw ≡ 0) }
        ensures causes { IfErr result (IsPollRefusal (X.faults out.old) (X.faults out.new)) }
        ensures counts { (X.faults out.old ≤ X.faults out.new) × (X.refusals out.old ≤ X.refusals out.new) }
    {
        let mut asked = self;
        for _round in rt.forever() {
            match asked.poll_or_sleep::<R, K, X>(rt, alloc, clock, deadline, out, tally) {
                Polling::Ready(conn) => return Ok(conn),
                Polling::Failed(error) => return Err(error),
                Polling::Pending(again, _) => asked = again,
            }
        }
        unreachable!()
    }

    // Polls, and sleeps where the ticket waits or is in backoff.
    fn poll_or_sleep<R: Wait, K: Clock, X: Outside<C, O>>(
        self,
        rt: &R,
        alloc: Global,
        clock: &mut K,
        deadline: u128,
        out: &mut X,
        tally: &mut S::Tally,
    ) -> PoolPollOf<C, O, S>
        ensures tally { CountsIf (is_ready result) (S.Tally.counted tally.old) (S.Tally.counted tally.new) }
        ensures flat { IfReady result (λ conn. C.levels conn.raw ≡ 0) }
        ensures causes { IfFailed result (IsPollRefusal (X.faults out.old) (X.faults out.new)) }
        ensures counts { (X.faults out.old ≤ X.faults out.new) × (X.refusals out.old ≤ X.refusals out.new) }
    {
        let now = clock.now();
        let mut me = self.pool.front();
        let begun = self.pool.begin_or_sleep(
            rt,
            self.client,
            self.ticket,
            now,
            deadline,
            tally,
            &mut me,
        );
        self.go_on::<R, X>(rt, alloc, now, begun, out, tally, &mut me)
    }
}
