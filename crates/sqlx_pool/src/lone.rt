//! A lone pool has the steps of a pool: its one name is of one value.

ghost use Rattle.std.specs.Prelude.{◌≡◌, ◌+◌, ◌++◌, ◌^◌, ℕ, true, false, is_some, IfOk, IfSome};
ghost use Rattle.sqlx_pool_marks.specs.FairLog.{IsFair};
ghost use Rattle.sqlx_pool_lists.specs.Balance.{lents};
ghost use Rattle.sqlx_pool_core.specs.Answers.{is_kept};
ghost use Rattle.sqlx_pool_core.specs.CameTo.{IfAccepted};
ghost use Rattle.sqlx_pool_parts.specs.Answers.{lends_tested, IfTestLends, lends_new, IfTryLends, IfTried, is_fatal, is_ended};
ghost use Rattle.sqlx_pool_parts.specs.Booked.{CountsIf};
ghost use Rattle.sqlx_pool_parts.specs.MarkLog.{IsUncut};
ghost use Rattle.sqlx_pool_parts.specs.Opened.{IsOpenable};
ghost use Rattle.sqlx_pool.specs.Steps.{EndsTest, EndsTry, Fills, Gives, Keeps};
ghost use Rattle.sqlx_pool.specs.Upkeep.{IsFilled};

use crate::locked::Locked;
use crate::steps::{PoolSteps, Wakes};
use crate::stood::Stood;
use crate::{Held, Loans, MarkLog, Tally};
use sqlx_pool_core::{
    AfterConnect, AfterTest, CloseState, Given, Idle, Lent, PoolOptions, Start, Tried, Verdict,
};
use sqlx_text::{Depth, Error, Moment, OutOfMemory};
use std::alloc::Global;
use std::collections::VecDeque;
use std::sync::Arc;
use std::sync::ledger::{Blank, Ledger};

/// What is under the lock of a lone pool, whose connections are opened by options `O`.
pub type Lone<C, O, H, L> = Locked<C, Arc<O, Global>, H, L>;

impl<C: Depth + Drop, O: Drop, H: Ledger, L: Loans> PoolSteps<C, O>
    for Locked<C, Arc<O, Global>, H, L> {
    ghost use Rattle.std.specs.Prelude.{◌≡◌, ◌+◌, ◌^◌, ℕ, false, ◌++◌};
    ghost use Rattle.sqlx_pool_marks.specs.FairLog.{IsFair};
    ghost use Rattle.sqlx_pool_lists.specs.Balance.{lents};
    ghost use Rattle.sqlx_pool_parts.specs.MarkLog.{IsUncut};
    ghost use Rattle.sqlx_pool_parts.specs.State.{IsStanding};
    ghost use Rattle.sqlx_pool.specs.Lone.{DoesLone, TellsLone, goes-on};

    type Stood = Stood<C, Arc<O, Global>>;

    type Book = L;

    type Held = Held<H>;

    type Tally = Tally<L>;

    type Name = ();

    type Log = MarkLog;

    type Logs = MarkLog;

    ghost stands = { λ state. IsStanding C.levels L.max L.cuts state };

    ghost does = { DoesLone L.max };

    ghost tells = { TellsLone (λ connect. connect.value) };

    ghost max = { L.max };

    ghost cuts = { L.cuts };

    ghost parts = { L.parts };

    ghost ledgers = { λ held loans. (held ≡ H.name) × (H.parts ≡ 2 ^ 32) × (loans ≡ L.name) × (L.parts ≡ 2 ^ 32) };

    ghost is_root = { λ name. name ≡ tt };

    ghost is_log = { λ log. (L.cuts ≡ false → IsUncut log) × IsFair L.max log.start.items log.marks.items };

    ghost tells_loans = { λ log loans. (L.cuts ≡ false → IsUncut log) × IsFair L.max log.start.items log.marks.items × (log.lent_before + lents (log.start.items ++ log.marks.items) ≡ loans) };

    fn open(
        alloc: Global,
        options: PoolOptions,
        connect: Arc<O, Global>,
        held: Blank,
        loans: Blank,
    ) -> Result<(Self, Tally<L>), OutOfMemory>
        requires options { IsOpenable options L.max }
        requires blanks { (held.name ≡ H.name) × (H.parts ≡ 2 ^ 32) × (loans.name ≡ L.name) × (L.parts ≡ 2 ^ 32) }
        requires parts { (held.parts ≡ 2 ^ 32) × (loans.parts ≡ 2 ^ 32) }
        ensures tally { IfOk result (λ made. made.1 ≡ record { parts = L.parts; loans = 0 }) }
    {
        Locked::new(alloc, options, connect, held, loans)
    }

    fn first_name() -> () {
        ()
    }

    fn facts(&self) {
        self.facts();
    }

    fn connect_options(&self) -> &Arc<O, Global> {
        self.connect_options()
    }

    fn moment(&self, _name: (), now: Moment) -> Moment {
        self.moment(now)
    }

    fn num_tickets(&self, _name: ()) -> usize {
        self.num_tickets()
    }

    fn tests_at(&self, _name: (), created: Moment, now: Moment) -> Option<Moment> {
        if self.must_close(created, now) {
            None
        } else {
            Some(self.moment(now))
        }
    }

    fn size(&self, _name: ()) -> u32 {
        self.size()
    }

    fn num_idle(&self, _name: ()) -> usize {
        self.num_idle()
    }

    fn is_closed(&self, _name: ()) -> bool {
        self.is_closed()
    }

    fn closing(&self, _name: ()) -> CloseState {
        self.closing()
    }

    fn log_len(&self, _name: ()) -> usize {
        self.log_len()
    }

    fn read_log(&self, _name: (), alloc: Global) -> Result<MarkLog, OutOfMemory> {
        self.facts();
        self.read_log(alloc)
    }

    fn audit(&mut self, alloc: Global, all: &mut Tally<L>) -> Result<MarkLog, OutOfMemory> {
        self.audited(alloc, all)
    }

    fn ask(&mut self, _name: (), alloc: Global, now: Moment, client: u32) -> Result<u64, Error> {
        self.ask(alloc, now, client)
    }

    fn serve_new(
        &mut self,
        _name: (),
        alloc: Global,
        now: Moment,
        client: u32,
        tally: &mut Tally<L>,
    ) -> Option<(Lent<C>, Held<H>)> {
        self.serve_new(alloc, now, client, tally)
    }

    fn try_acquire(
        &mut self,
        _name: (),
        alloc: Global,
        now: Moment,
        client: u32,
        tally: &mut Tally<L>,
    ) -> Result<Option<(Lent<C>, Held<H>)>, Error> {
        self.try_acquire(alloc, now, client, tally)
    }

    fn start(&mut self, _name: (), client: u32, ticket: u64, now: Moment) -> (Start<C>, Moment) {
        let moment = self.moment(now);
        let start = self.start(client, ticket, now);
        (start, moment)
    }

    fn serve_polled(
        &mut self,
        _name: (),
        client: u32,
        ticket: u64,
        now: Moment,
        tally: &mut Tally<L>,
    ) -> Option<(Lent<C>, Held<H>)> {
        self.serve_polled(client, ticket, now, tally)
    }

    fn finish_test(
        &mut self,
        _name: (),
        client: u32,
        ticket: u64,
        verdict: Verdict<C>,
        tally: &mut Tally<L>,
    ) -> (AfterTest<C>, Option<Held<H>>)
        requires flat { IfAccepted verdict (λ raw. C.levels raw ≡ 0) }
        ensures does { EndsTest client ticket verdict result.0 self.old self.new }
        ensures held { is_some result.1 ≡ lends_tested result.0 }
        ensures tally { CountsIf (lends_tested result.0) tally.old tally.new }
        ensures flat { IfTestLends result.0 (λ lent. C.levels lent.raw ≡ 0) }
    {
        self.finish_test(client, ticket, verdict, tally)
    }

    fn finish_connect(
        &mut self,
        _name: (),
        client: u32,
        ticket: u64,
        now: Moment,
        tried: Tried<C>,
        tally: &mut Tally<L>,
    ) -> (AfterConnect<C>, Option<Held<H>>)
        requires flat { IfTried tried (λ raw. C.levels raw ≡ 0) }
        ensures does { EndsTry client ticket now tried result.0 self.old self.new }
        ensures held { is_some result.1 ≡ lends_new result.0 }
        ensures tally { CountsIf (lends_new result.0) tally.old tally.new }
        ensures calm { is_fatal tried ≡ false → is_ended result.0 ≡ false }
        ensures flat { IfTryLends result.0 (λ lent. C.levels lent.raw ≡ 0) }
    {
        self.finish_connect(client, ticket, now, tried, tally)
    }

    fn cancel(&mut self, _name: (), client: u32, ticket: u64) -> bool {
        self.cancel(client, ticket)
    }

    fn give(
        &mut self,
        _name: (),
        client: u32,
        lent: Lent<C>,
        now: Moment,
        accepted: bool,
        held: Held<H>,
    ) -> (Given<C>, Option<Held<H>>)
        requires flat { accepted ≡ true → C.levels lent.raw ≡ 0 }
        ensures does { Gives client lent now accepted result.0 self.old self.new }
        ensures refused { accepted ≡ false → is_kept result.0 ≡ false }
    {
        self.give(client, lent, now, accepted, held)
    }

    fn end(&mut self, _name: (), client: u32, id: u64, held: Held<H>) -> (bool, Option<Held<H>>) {
        self.end(client, id, held)
    }

    fn detach(
        &mut self,
        _name: (),
        client: u32,
        id: u64,
        held: Held<H>,
    ) -> (bool, Option<Held<H>>) {
        self.detach(client, id, held)
    }

    fn leak(&mut self, _name: (), client: u32, id: u64, held: Held<H>) -> (bool, Option<Held<H>>) {
        self.leak(client, id, held)
    }

    fn reap(&mut self, _name: (), now: Moment) -> Option<Idle<C>> {
        self.reap(now)
    }

    fn first_place(&mut self, _name: (), alloc: Global) -> Result<bool, OutOfMemory> {
        self.first_place(alloc)
    }

    fn minimum_place(&mut self, _name: (), alloc: Global) -> Result<bool, OutOfMemory> {
        self.minimum_place(alloc)
    }

    fn minimum_done(&mut self, _name: (), now: Moment, raw: Option<C>) -> Option<C>
        requires flat { IfSome raw (λ conn. C.levels conn ≡ 0) }
        ensures does { Fills now raw result self.old self.new }
        ensures back { is_some result ≡ true → IsFilled self.old }
    {
        self.minimum_done(now, raw)
    }

    fn close(&mut self, _name: ()) -> VecDeque<Idle<C>> {
        self.close()
    }

    fn set_connect_options(&mut self, options: Arc<O, Global>) -> Arc<O, Global>
        ensures { Keeps self.old self.new }
    {
        self.set_connect_options(options)
    }

    fn cut(&mut self, _name: ()) {
        self.cut()
    }

    fn cut_if_long(&mut self, _name: ()) -> bool {
        self.cut_if_long()
    }

    fn set_log_limit(&mut self, _name: (), limit: Option<usize>) {
        self.set_log_limit(limit)
    }

    fn wakes(&mut self) -> Wakes {
        match self.entitled() {
            Some(ticket) => Wakes::One(ticket),
            None => Wakes::Nobody,
        }
    }

    fn wakes_begun(&mut self, _name: (), _pending: bool) -> Wakes {
        match self.entitled() {
            Some(ticket) => Wakes::One(ticket),
            None => Wakes::Nobody,
        }
    }

    ghost goes_on = { λ s before after d. goes-on L.max s before after d };
}

impl<C: Depth, O, H: Ledger, L: Loans> Locked<C, O, H, L> {
    // A copy of the log, with as many loans as the tally with every part has counted.
    fn audited(&mut self, alloc: Global, all: &mut Tally<L>) -> Result<MarkLog, OutOfMemory>
        requires { all.old.parts ≡ L.parts }
        ensures start { IfOk result (λ log. L.cuts ≡ false → IsUncut log) }
        ensures fair { IfOk result (λ log. IsFair L.max log.start.items log.marks.items) }
        ensures counted { IfOk result (λ log. log.lent_before + lents (log.start.items ++ log.marks.items) ≡ all.old.loans) }
        ensures same { all.new ≡ all.old }
        ensures marks { self.new.marks ≡ self.old.marks }
        ensures core { self.new.core ≡ self.old.core }
    {
        self.audit(all);
        self.facts();
        self.read_log(alloc)
    }
}
