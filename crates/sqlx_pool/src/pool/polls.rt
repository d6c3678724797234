//! The parts of a poll that take the lock, and what is asked of the outside between them.

ghost use Rattle.std.specs.Prelude.{◌≡◌, ℕ, ◌+◌, ◌<◌, ◌≤◌, ◌⊎◌, false};
ghost use Rattle.sqlx_pool_lists.specs.Balance.{one_if};
ghost use Rattle.sqlx_pool_lists.specs.declared.steps.Tried.{Tried};
ghost use Rattle.sqlx_pool_core.specs.declared.idle_check.Opening.{Opening};
ghost use Rattle.sqlx_pool_core.specs.CameTo.{IfOpened, IfFailed, IsForGood};
ghost use Rattle.sqlx_pool_parts.specs.Answers.{IfTried, is_fatal};
ghost use Rattle.sqlx_pool_parts.specs.Booked.{CountsIf};
ghost use Rattle.sqlx_pool_parts.specs.Opened.{IfUnopened, IsCounted, TellsLevels};
ghost use Rattle.sqlx_pool.specs.PollChain.{OpensFrom, TellsTry, TestsFrom, TestsTo, TriesOrLacks};
ghost use Rattle.sqlx_pool.specs.Refusals.{IsEnd, IsPollRefusal};
ghost use Rattle.sqlx_pool.specs.Stage.{has_lent, IfLent, IfEnded, wants_test, wants_connect};

use super::PoolOf;
use crate::stage::{Stage, after_test, after_try};
use crate::steps::PoolSteps;
use crate::stood::FrontOf;
use sqlx_pool_core::idle_check::Opening;
use sqlx_pool_core::{AfterConnect, Idle, Outside, Tried};
use sqlx_pool_parts::checks;
use sqlx_text::{Depth, Error, Moment};
use std::alloc::Global;
use std::sync::Wait;

impl<C: Depth + Drop, O: Drop, S: PoolSteps<C, O>> PoolOf<C, O, S> {
    // Tests idle connections one after another, while the poll wants it: at most `left` of them. The core asks for no
    // more than `idle_tries`; a connection that would be left over is closed, and the poll fails.
    pub(crate) fn test<R: Wait, X: Outside<C, O>>(
        &self,
        rt: &R,
        client: u32,
        ticket: u64,
        stage: Stage<C, S::Held>,
        left: u32,
        out: &mut X,
        tally: &mut S::Tally,
        me: &mut FrontOf<C, O, S>,
    ) -> Stage<C, S::Held>
        ensures chain { TestsFrom X.does X.depth C.levels S.stands S.does self.now.shared.value.name client ticket left self.now.shared.value.options stage me.old out.old result me.new out.new }
        ensures parts { (S.Tally.counted tally.new).parts ≡ (S.Tally.counted tally.old).parts }
        ensures loans { (S.Tally.counted tally.new).loans + one_if (has_lent stage) ≡ (S.Tally.counted tally.old).loans + one_if (has_lent result) }
        ensures flat { IfLent stage (λ lent. C.levels lent.raw ≡ 0) → IfLent result (λ lent. C.levels lent.raw ≡ 0) }
        ensures causes { IfEnded stage IsEnd → IfEnded result IsEnd }
        ensures tested { wants_test result ≡ false }
        ensures counts { (X.faults out.old ≤ X.faults out.new) × (X.refusals out.old ≤ X.refusals out.new) }
    {
        match stage {
            Stage::Test(idle, moment) => {
                if left == 0 {
                    return Stage::Left {
                        raw: idle.lent.raw,
                        hard: true,
                        error: Error::NotHeld,
                    };
                }
                let next = self.test_one::<R, X>(rt, client, ticket, idle, moment, out, tally, me);
                self.test::<R, X>(rt, client, ticket, next, left - 1, out, tally, me)
            }
            stage => stage,
        }
    }

    // Tests one idle connection, and tells the pool what came of it.
    fn test_one<R: Wait, X: Outside<C, O>>(
        &self,
        rt: &R,
        client: u32,
        ticket: u64,
        idle: Idle<C>,
        moment: Moment,
        out: &mut X,
        tally: &mut S::Tally,
        me: &mut FrontOf<C, O, S>,
    ) -> Stage<C, S::Held>
        ensures tests { TestsTo X.does X.depth C.levels S.stands S.does self.now.shared.value.name client ticket self.now.shared.value.options moment idle me.old out.old result me.new out.new }
        ensures tally { CountsIf (has_lent result) (S.Tally.counted tally.old) (S.Tally.counted tally.new) }
        ensures flat { IfLent result (λ lent. C.levels lent.raw ≡ 0) }
        ensures causes { IfEnded result IsEnd }
        ensures counts { (X.faults out.old ≤ X.faults out.new) × (X.refusals out.old ≤ X.refusals out.new) }
    {
        let verdict = checks::judge::<C, O, X>(&self.shared.options, idle, moment, out);
        let finished = self
            .lock(rt)
            .finish_test(rt, self.shared.name, client, ticket, verdict, tally, me);
        let (after, held) = finished;
        after_test(after, held, moment)
    }

    // Tries to open a connection, with the options of this moment.
    pub(crate) fn open<R: Wait, X: Outside<C, O>>(
        &self,
        rt: &R,
        alloc: Global,
        out: &mut X,
        me: &mut FrontOf<C, O, S>,
    ) -> Opening<C>
        ensures tries { TriesOrLacks X.does X.depth C.levels S.stands S.tells self.now.shared.value.options.after_connect result me.old me.new out.old out.new }
        ensures flat { IfOpened result (λ raw. C.levels raw ≡ 0) }
        ensures unopened { TellsLevels X.depth C.levels → IfUnopened result (IsCounted X.faults X.refusals out.old out.new) }
        ensures cause { IfFailed result (λ e. IsForGood (X.faults out.old) (X.faults out.new) e) }
        ensures counts { (X.faults out.old ≤ X.faults out.new) × (X.refusals out.old ≤ X.refusals out.new) }
    {
        let Ok(connect) = self.connect_options_seen(rt, me) else {
            return Opening::Failed(Error::OutOfMemory);
        };
        let opening = checks::try_open::<C, O, X>(alloc, &self.shared.options, &*connect, out);
        drop(connect);
        opening
    }

    // Tells what a try came to that wasn't refused for good.
    fn tell<R: Wait>(
        &self,
        rt: &R,
        client: u32,
        ticket: u64,
        now: Moment,
        tried: Tried<C>,
        tally: &mut S::Tally,
        me: &mut FrontOf<C, O, S>,
    ) -> Stage<C, S::Held>
        requires flat { IfTried tried (λ raw. C.levels raw ≡ 0) }
        requires calm { is_fatal tried ≡ false }
        ensures tells { (opening : Opening C) → TellsTry S.stands S.does self.now.shared.value.name client ticket now opening tried me.old result me.new }
        ensures tally { CountsIf (has_lent result) (S.Tally.counted tally.old) (S.Tally.counted tally.new) }
        ensures flat { IfLent result (λ lent. C.levels lent.raw ≡ 0) }
        ensures causes { IfEnded result IsEnd }
        ensures tested { wants_test result ≡ false }
        ensures connected { wants_connect result ≡ false }
    {
        let finished = self.lock(rt).finish_connect(
            rt,
            self.shared.name,
            client,
            ticket,
            now,
            tried,
            tally,
            me,
        );
        let (after, held) = finished;
        after_try(after, held)
    }

    // Tells that a try was refused for good.
    fn tell_fatal<R: Wait>(
        &self,
        rt: &R,
        client: u32,
        ticket: u64,
        now: Moment,
        error: Error,
        tally: &mut S::Tally,
        me: &mut FrontOf<C, O, S>,
    ) -> Stage<C, S::Held>
        ensures tells { TellsTry S.stands S.does self.now.shared.value.name client ticket now (Opening.Failed error) Tried.Fatal me.old result me.new }
        ensures tally { CountsIf (has_lent result) (S.Tally.counted tally.old) (S.Tally.counted tally.new) }
        ensures flat { IfLent result (λ lent. C.levels lent.raw ≡ 0) }
        ensures causes { IfEnded result (λ e. IsEnd e ⊎ (e ≡ error)) }
        ensures tested { wants_test result ≡ false }
        ensures connected { wants_connect result ≡ false }
    {
        let finished = self.lock(rt).finish_connect(
            rt,
            self.shared.name,
            client,
            ticket,
            now,
            Tried::Fatal,
            tally,
            me,
        );
        let (after, held) = finished;
        match after {
            AfterConnect::Ended => Stage::Failed(error),
            other => {
                drop(error);
                after_try(other, held)
            }
        }
    }

    // Opens a connection, where the poll wants one.
    pub(crate) fn open_wanted<R: Wait, X: Outside<C, O>>(
        &self,
        rt: &R,
        alloc: Global,
        client: u32,
        ticket: u64,
        now: Moment,
        stage: Stage<C, S::Held>,
        out: &mut X,
        tally: &mut S::Tally,
        me: &mut FrontOf<C, O, S>,
    ) -> Stage<C, S::Held>
        ensures chain { OpensFrom X.does X.depth C.levels S.stands S.does self.now.shared.value.name client ticket S.tells now self.now.shared.value.options stage me.old out.old result me.new out.new }
        ensures parts { (S.Tally.counted tally.new).parts ≡ (S.Tally.counted tally.old).parts }
        ensures loans { (S.Tally.counted tally.new).loans + one_if (has_lent stage) ≡ (S.Tally.counted tally.old).loans + one_if (has_lent result) }
        ensures flat { IfLent stage (λ lent. C.levels lent.raw ≡ 0) → IfLent result (λ lent. C.levels lent.raw ≡ 0) }
        ensures causes { IfEnded stage IsEnd → IfEnded result (IsPollRefusal (X.faults out.old) (X.faults out.new)) }
        ensures tested { wants_test stage ≡ false → wants_test result ≡ false }
        ensures connected { wants_connect result ≡ false }
        ensures counts { (X.faults out.old ≤ X.faults out.new) × (X.refusals out.old ≤ X.refusals out.new) }
    {
        match stage {
            Stage::Connect => match self.open::<R, X>(rt, alloc, out, me) {
                Opening::Opened(raw) => self.tell(
                    rt,
                    client,
                    ticket,
                    now,
                    Tried::Opened(raw),
                    tally,
                    me,
                ),
                Opening::Rejected => self.tell(rt, client, ticket, now, Tried::Rejected, tally, me),
                Opening::Transient => self.tell(
                    rt,
                    client,
                    ticket,
                    now,
                    Tried::Transient,
                    tally,
                    me,
                ),
                Opening::Failed(error) => self.tell_fatal(
                    rt, client, ticket, now, error, tally, me,
                ),
            },
            stage => stage,
        }
    }
}
