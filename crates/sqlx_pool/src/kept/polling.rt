//! The steps of a poll.

ghost use Rattle.std.specs.Prelude.{◌≡◌, ℕ, IfSome, is_some, false};
ghost use mathlib.Core.List.{IsPrefix};
ghost use Rattle.sqlx_text.specs.declared.Moment.{Moment};
ghost use Rattle.sqlx_pool_core.specs.CameTo.{IfAccepted};
ghost use Rattle.sqlx_pool_parts.specs.Answers.{lent_alone, lends_tested, lends_new, IfTestLends, IfTryLends, IfTried, is_fatal, is_ended};
ghost use Rattle.sqlx_pool_parts.specs.Booked.{CountsIf};
ghost use Rattle.sqlx_pool.specs.Calls as call;
ghost use Rattle.sqlx_pool.specs.PollChain.{BeginsAs, LendsUntested, Served, Tells};
ghost use Rattle.sqlx_pool.specs.Refusals.{IsEnd};
ghost use Rattle.sqlx_pool.specs.Seen.{SeesStep};
ghost use Rattle.sqlx_pool.specs.Stage.{has_lent, IfLent, IfEnded};

use super::{Kept, Seen};
use crate::stage::{Stage, after_start, after_test};
use crate::steps::PoolSteps;
use sqlx_pool_core::{AfterConnect, AfterTest, Idle, Lent, PoolOptions, Start, Tried, Verdict};
use sqlx_pool_parts::checks;
use sqlx_text::{Depth, Moment};
use std::sync::Wait;

impl<C: Depth, O, S: PoolSteps<C, O>> Kept<C, O, S> {
    // Begins a poll of a pool with these options. Where the test of an idle connection asks nothing of the outside, it is
    // lent at once.
    pub(crate) fn begin<R: Wait>(
        &mut self,
        rt: &R,
        name: S::Name,
        options: &PoolOptions,
        client: u32,
        ticket: u64,
        now: Moment,
        tally: &mut S::Tally,
        me: &mut Seen<C, O, S>,
    ) -> Stage<C, S::Held>
        ensures begins { BeginsAs S.stands S.does name client ticket now options.now me.old me.new result }
        ensures tally { CountsIf (has_lent result) (S.Tally.counted tally.old) (S.Tally.counted tally.new) }
        ensures flat { IfLent result (λ lent. C.levels lent.raw ≡ 0) }
        ensures causes { IfEnded result IsEnd }
    {
        if let Some((lent, held)) = self.serve_untested(
            rt, name, options, client, ticket, now, tally, me,
        ) {
            return Stage::Lent(lent, held);
        }
        let (start, moment) = self.start(rt, name, client, ticket, now, me);
        match after_start(start, moment) {
            Stage::Test(idle, moment) => {
                if checks::tests_nothing(options) && idle.lent.raw.depth() == 0 {
                    self.lend(rt, name, client, ticket, idle, moment, tally, me)
                } else {
                    Stage::Test(idle, moment)
                }
            }
            stage => stage,
        }
    }

    // Polls the first of all tickets, and lends at once, where a test asks nothing of the outside.
    fn serve_untested<R: Wait>(
        &mut self,
        rt: &R,
        name: S::Name,
        options: &PoolOptions,
        client: u32,
        ticket: u64,
        now: Moment,
        tally: &mut S::Tally,
        me: &mut Seen<C, O, S>,
    ) -> Option<(Lent<C>, S::Held)>
        ensures later { IsPrefix me.old me.new }
        ensures saw { (m : Moment) → IfSome (lent_alone result) (λ lent. SeesStep S.stands me.old me.new (Tells S.stands S.does name client ticket now options.now m (Served lent))) }
        ensures tally { CountsIf (is_some result) (S.Tally.counted tally.old) (S.Tally.counted tally.new) }
        ensures flat { IfSome (lent_alone result) (λ l. C.levels l.raw ≡ 0) }
    {
        if checks::tests_nothing(options) {
            self.serve_polled(rt, name, client, ticket, now, tally, me)
        } else {
            None
        }
    }

    // Lends an idle connection without a test; it has no level open.
    fn lend<R: Wait>(
        &mut self,
        rt: &R,
        name: S::Name,
        client: u32,
        ticket: u64,
        idle: Idle<C>,
        moment: Moment,
        tally: &mut S::Tally,
        me: &mut Seen<C, O, S>,
    ) -> Stage<C, S::Held>
        requires flat { C.levels idle.lent.raw ≡ 0 }
        ensures lends { LendsUntested S.stands S.does name client ticket idle moment me.old me.new result }
        ensures tally { CountsIf (has_lent result) (S.Tally.counted tally.old) (S.Tally.counted tally.new) }
        ensures flat { IfLent result (λ lent. C.levels lent.raw ≡ 0) }
        ensures causes { IfEnded result IsEnd }
    {
        let accepted = Verdict::Accepted(idle.lent);
        let (after, held) = self.finish_test(rt, name, client, ticket, accepted, tally, me);
        after_test(after, held, moment)
    }

    // Begins a poll, by the poll table; its moment comes beside the answer.
    fn start<R: Wait>(
        &mut self,
        rt: &R,
        name: S::Name,
        client: u32,
        ticket: u64,
        now: Moment,
        me: &mut Seen<C, O, S>,
    ) -> (Start<C>, Moment)
        ensures { SeesStep S.stands me.old me.new (S.does (call.Begin name client ticket now result.1 result.0)) }
    {
        let Kept { locked, history } = self;
        history.show(rt, &*locked, me);
        locked.facts();
        let done = locked.start(name, client, ticket, now);
        locked.facts();
        history.add(rt, &*locked);
        *me = history.front();
        done
    }

    // Polls the first of all tickets, and lends at once, without a test.
    fn serve_polled<R: Wait>(
        &mut self,
        rt: &R,
        name: S::Name,
        client: u32,
        ticket: u64,
        now: Moment,
        tally: &mut S::Tally,
        me: &mut Seen<C, O, S>,
    ) -> Option<(Lent<C>, S::Held)>
        ensures saw { SeesStep S.stands me.old me.new (S.does (call.ServePolled name client ticket now (lent_alone result))) }
        ensures later { IsPrefix me.old me.new }
        ensures tally { CountsIf (is_some result) (S.Tally.counted tally.old) (S.Tally.counted tally.new) }
        ensures flat { IfSome (lent_alone result) (λ l. C.levels l.raw ≡ 0) }
    {
        let Kept { locked, history } = self;
        history.show(rt, &*locked, me);
        locked.facts();
        let done = locked.serve_polled(name, client, ticket, now, tally);
        locked.facts();
        history.add(rt, &*locked);
        *me = history.front();
        done
    }

    // Tells what the test of an idle connection came to.
    pub(crate) fn finish_test<R: Wait>(
        &mut self,
        rt: &R,
        name: S::Name,
        client: u32,
        ticket: u64,
        verdict: Verdict<C>,
        tally: &mut S::Tally,
        me: &mut Seen<C, O, S>,
    ) -> (AfterTest<C>, Option<S::Held>)
        requires flat { IfAccepted verdict (λ raw. C.levels raw ≡ 0) }
        ensures saw { SeesStep S.stands me.old me.new (S.does (call.EndTest name client ticket verdict result.0)) }
        ensures held { is_some result.1 ≡ lends_tested result.0 }
        ensures tally { CountsIf (lends_tested result.0) (S.Tally.counted tally.old) (S.Tally.counted tally.new) }
        ensures flat { IfTestLends result.0 (λ lent. C.levels lent.raw ≡ 0) }
    {
        let Kept { locked, history } = self;
        history.show(rt, &*locked, me);
        locked.facts();
        let done = locked.finish_test(name, client, ticket, verdict, tally);
        locked.facts();
        history.add(rt, &*locked);
        *me = history.front();
        done
    }

    // Tells what a try of a connect came to.
    pub(crate) fn finish_connect<R: Wait>(
        &mut self,
        rt: &R,
        name: S::Name,
        client: u32,
        ticket: u64,
        now: Moment,
        tried: Tried<C>,
        tally: &mut S::Tally,
        me: &mut Seen<C, O, S>,
    ) -> (AfterConnect<C>, Option<S::Held>)
        requires flat { IfTried tried (λ raw. C.levels raw ≡ 0) }
        ensures saw { SeesStep S.stands me.old me.new (S.does (call.EndTry name client ticket now tried result.0)) }
        ensures held { is_some result.1 ≡ lends_new result.0 }
        ensures tally { CountsIf (lends_new result.0) (S.Tally.counted tally.old) (S.Tally.counted tally.new) }
        ensures calm { is_fatal tried ≡ false → is_ended result.0 ≡ false }
        ensures flat { IfTryLends result.0 (λ lent. C.levels lent.raw ≡ 0) }
    {
        let Kept { locked, history } = self;
        history.show(rt, &*locked, me);
        locked.facts();
        let done = locked.finish_connect(name, client, ticket, now, tried, tally);
        locked.facts();
        history.add(rt, &*locked);
        *me = history.front();
        done
    }

    // Ends a ticket that waits or is in backoff.
    pub(crate) fn cancel<R: Wait>(
        &mut self,
        rt: &R,
        name: S::Name,
        client: u32,
        ticket: u64,
        me: &mut Seen<C, O, S>,
    ) -> bool
        ensures { SeesStep S.stands me.old me.new (S.does (call.Cancel name client ticket result)) }
    {
        let Kept { locked, history } = self;
        history.show(rt, &*locked, me);
        locked.facts();
        let done = locked.cancel(name, client, ticket);
        locked.facts();
        history.add(rt, &*locked);
        *me = history.front();
        done
    }
}
