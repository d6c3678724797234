//! A family has the steps of a pool, each by the name of one of its pools, and those of a family.

ghost use Rattle.std.specs.Prelude.{◌≡◌, ◌≤◌, ◌^◌, ℕ, true, false, is_some, IfOk, IfSome, sum_by};
ghost use Rattle.sqlx_pool_marks.specs.FairLog.{IsSafe};
ghost use Rattle.sqlx_pool_core.specs.Answers.{is_kept};
ghost use Rattle.sqlx_pool_core.specs.CameTo.{IfAccepted};
ghost use Rattle.sqlx_pool_parts.specs.Answers.{lends_tested, IfTestLends, lends_new, IfTryLends, IfTried, is_fatal, is_ended};
ghost use Rattle.sqlx_pool_parts.specs.Booked.{CountsIf};
ghost use Rattle.sqlx_pool_parts.specs.MarkLog.{IsUncut};
ghost use Rattle.sqlx_pool_parts.specs.Opened.{IsOpenable};
ghost use Rattle.sqlx_family_pool.specs.FamilyState.{IsNamed, loans_told};
ghost use Rattle.sqlx_family_pool.specs.Steps.{EndsTest, EndsTry, Fills, Gives, Keeps};
ghost use Rattle.sqlx_family_pool.specs.Upkeep.{IsFilledIn};

use crate::locked::LockedFamily;
use crate::stood::FamilyStood;
use sqlx_pool::{FamilySteps, Held, Loans, MarkLog, PoolSteps, Tally, Wakes};
use sqlx_pool_core::{
    AfterConnect, AfterTest, CloseState, Given, Idle, Lent, PoolOptions, Start, Tried, Verdict,
};
use sqlx_text::{Depth, Error, Moment, OutOfMemory};
use std::alloc::Global;
use std::collections::VecDeque;
use std::sync::Arc;
use std::sync::ledger::{Blank, Ledger};

/// What is under the lock of a family, whose connections are opened by options `O`.
pub type Family<C, O, H, L> = LockedFamily<C, Arc<O, Global>, H, L>;

impl<C: Depth + Drop, O: Drop, H: Ledger, L: Loans> PoolSteps<C, O>
    for LockedFamily<C, Arc<O, Global>, H, L> {
    ghost use Rattle.std.specs.Prelude.{◌≡◌, ◌^◌, ℕ, false, sum_by};
    ghost use Rattle.sqlx_pool_marks.specs.FairLog.{IsSafe};
    ghost use Rattle.sqlx_pool_parts.specs.MarkLog.{IsUncut};
    ghost use Rattle.sqlx_family_pool.specs.Family.{DoesFamily, TellsFamily, goes-on};
    ghost use Rattle.sqlx_family_pool.specs.FamilyState.{IsStanding, loans_told};

    type Stood = FamilyStood<C, Arc<O, Global>>;

    type Book = L;

    type Held = Held<H>;

    type Tally = Tally<L>;

    type Name = u32;

    type Log = (u32, MarkLog);

    type Logs = Vec<MarkLog>;

    ghost stands = { λ state. IsStanding C.levels L.max L.cuts state };

    ghost does = { DoesFamily };

    ghost tells = { TellsFamily (λ connect. connect.value) };

    ghost max = { L.max };

    ghost cuts = { L.cuts };

    ghost parts = { L.parts };

    ghost is_root = { λ q. q ≡ 0 };

    ghost ledgers = { λ held loans. (held ≡ H.name) × (H.parts ≡ 2 ^ 32) × (loans ≡ L.name) × (L.parts ≡ 2 ^ 32) };

    ghost is_log = { λ read. (L.cuts ≡ false → IsUncut read.1) × IsSafe read.0 read.1.start.items read.1.marks.items };

    ghost tells_loans = { λ logs loans. sum_by loans_told logs.items ≡ loans };

    fn open(
        alloc: Global,
        options: PoolOptions,
        connect: Arc<O, Global>,
        held: Blank,
        loans: Blank,
    ) -> Result<(Self, Tally<L>), OutOfMemory>
        requires options { IsOpenable options L.max }
        requires blanks { (held.name ≡ H.name) × (H.parts ≡ 2 ^ 32) × (loans.name ≡ L.name) × (L.parts ≡ 2 ^ 32) }
        requires parts { (held.parts ≡ 2 ^ 32) × (loans.parts ≡ 2 ^ 32) }
        ensures tally { IfOk result (λ made. made.1 ≡ record { parts = L.parts; loans = 0 }) }
    {
        LockedFamily::new(alloc, options, connect, held, loans)
    }

    fn first_name() -> u32 {
        0
    }

    fn facts(&self) {
        self.facts();
    }

    fn connect_options(&self) -> &Arc<O, Global> {
        self.connect_options()
    }

    fn moment(&self, _name: u32, now: Moment) -> Moment {
        self.moment(now)
    }

    fn num_tickets(&self, _name: u32) -> usize {
        usize::MAX
    }

    fn tests_at(&self, name: u32, created: Moment, now: Moment) -> Option<Moment> {
        if self.must_close(name, created, now) {
            None
        } else {
            Some(self.moment(now))
        }
    }

    fn size(&self, name: u32) -> u32 {
        self.size(name)
    }

    fn num_idle(&self, name: u32) -> usize {
        self.num_idle(name)
    }

    fn is_closed(&self, name: u32) -> bool {
        self.is_closed(name)
    }

    fn closing(&self, name: u32) -> CloseState {
        self.closing(name)
    }

    fn log_len(&self, name: u32) -> usize {
        self.log_len(name)
    }

    fn read_log(&self, name: u32, alloc: Global) -> Result<(u32, MarkLog), OutOfMemory> {
        self.read_log(name, alloc)
    }

    fn audit(&mut self, alloc: Global, all: &mut Tally<L>) -> Result<Vec<MarkLog>, OutOfMemory> {
        self.audited(alloc, all)
    }

    fn ask(&mut self, name: u32, alloc: Global, now: Moment, client: u32) -> Result<u64, Error> {
        self.ask(name, alloc, now, client)
    }

    fn serve_new(
        &mut self,
        _name: u32,
        _alloc: Global,
        _now: Moment,
        _client: u32,
        _tally: &mut Tally<L>,
    ) -> Option<(Lent<C>, Held<H>)> {
        None
    }

    fn try_acquire(
        &mut self,
        name: u32,
        alloc: Global,
        now: Moment,
        client: u32,
        tally: &mut Tally<L>,
    ) -> Result<Option<(Lent<C>, Held<H>)>, Error> {
        self.try_acquire(name, alloc, now, client, tally)
    }

    fn start(&mut self, name: u32, client: u32, ticket: u64, now: Moment) -> (Start<C>, Moment) {
        let moment = self.moment(now);
        let start = self.start(name, client, ticket, now);
        (start, moment)
    }

    fn serve_polled(
        &mut self,
        _name: u32,
        _client: u32,
        _ticket: u64,
        _now: Moment,
        _tally: &mut Tally<L>,
    ) -> Option<(Lent<C>, Held<H>)> {
        None
    }

    fn finish_test(
        &mut self,
        name: u32,
        client: u32,
        ticket: u64,
        verdict: Verdict<C>,
        tally: &mut Tally<L>,
    ) -> (AfterTest<C>, Option<Held<H>>)
        requires flat { IfAccepted verdict (λ raw. C.levels raw ≡ 0) }
        ensures does { EndsTest name client ticket verdict result.0 self.old self.new }
        ensures held { is_some result.1 ≡ lends_tested result.0 }
        ensures tally { CountsIf (lends_tested result.0) tally.old tally.new }
        ensures flat { IfTestLends result.0 (λ lent. C.levels lent.raw ≡ 0) }
    {
        self.finish_test(name, client, ticket, verdict, tally)
    }

    fn finish_connect(
        &mut self,
        name: u32,
        client: u32,
        ticket: u64,
        now: Moment,
        tried: Tried<C>,
        tally: &mut Tally<L>,
    ) -> (AfterConnect<C>, Option<Held<H>>)
        requires flat { IfTried tried (λ raw. C.levels raw ≡ 0) }
        ensures does { EndsTry name client ticket now tried result.0 self.old self.new }
        ensures held { is_some result.1 ≡ lends_new result.0 }
        ensures tally { CountsIf (lends_new result.0) tally.old tally.new }
        ensures calm { is_fatal tried ≡ false → is_ended result.0 ≡ false }
        ensures flat { IfTryLends result.0 (λ lent. C.levels lent.raw ≡ 0) }
    {
        self.finish_connect(name, client, ticket, now, tried, tally)
    }

    fn cancel(&mut self, name: u32, client: u32, ticket: u64) -> bool {
        self.cancel(name, client, ticket)
    }

    fn give(
        &mut self,
        name: u32,
        client: u32,
        lent: Lent<C>,
        now: Moment,
        accepted: bool,
        held: Held<H>,
    ) -> (Given<C>, Option<Held<H>>)
        requires flat { accepted ≡ true → C.levels lent.raw ≡ 0 }
        ensures does { Gives name client lent now accepted result.0 self.old self.new }
        ensures refused { accepted ≡ false → is_kept result.0 ≡ false }
    {
        self.give(name, client, lent, now, accepted, held)
    }

    fn end(&mut self, name: u32, client: u32, id: u64, held: Held<H>) -> (bool, Option<Held<H>>) {
        self.end(name, client, id, held)
    }

    fn detach(
        &mut self,
        name: u32,
        client: u32,
        id: u64,
        held: Held<H>,
    ) -> (bool, Option<Held<H>>) {
        self.detach(name, client, id, held)
    }

    fn leak(&mut self, name: u32, client: u32, id: u64, held: Held<H>) -> (bool, Option<Held<H>>) {
        self.leak(name, client, id, held)
    }

    fn reap(&mut self, name: u32, now: Moment) -> Option<Idle<C>> {
        self.reap(name, now)
    }

    fn first_place(&mut self, name: u32, alloc: Global) -> Result<bool, OutOfMemory> {
        self.first_place(name, alloc)
    }

    fn minimum_place(&mut self, name: u32, alloc: Global) -> Result<bool, OutOfMemory> {
        self.minimum_place(name, alloc)
    }

    fn minimum_done(&mut self, name: u32, now: Moment, raw: Option<C>) -> Option<C>
        requires flat { IfSome raw (λ conn. C.levels conn ≡ 0) }
        ensures does { Fills name now raw result self.old self.new }
        ensures back { is_some result ≡ true → IsNamed name self.old → IsFilledIn name self.old }
    {
        self.minimum_done(name, now, raw)
    }

    fn close(&mut self, name: u32) -> VecDeque<Idle<C>> {
        self.close(name)
    }

    fn set_connect_options(&mut self, options: Arc<O, Global>) -> Arc<O, Global>
        ensures { Keeps self.old self.new }
    {
        self.set_connect_options(options)
    }

    fn cut(&mut self, name: u32) {
        self.cut(name)
    }

    fn cut_if_long(&mut self, name: u32) -> bool {
        self.cut_if_long(name)
    }

    fn set_log_limit(&mut self, name: u32, limit: Option<usize>) {
        self.set_log_limit(name, limit)
    }

    fn wakes(&mut self) -> Wakes {
        Wakes::All
    }

    // A child's ticket that leaves the line lets those behind it in the root's line come forward.
    fn wakes_begun(&mut self, name: u32, pending: bool) -> Wakes {
        if pending || name == 0 {
            Wakes::Nobody
        } else {
            Wakes::All
        }
    }

    ghost goes_on = { λ s before after d. goes-on s before after d };
}

impl<C: Depth + Drop, O: Drop, H: Ledger, L: Loans> FamilySteps<C, O>
    for LockedFamily<C, Arc<O, Global>, H, L> {
    ghost use Rattle.std.specs.Prelude.{◌≡◌, ◌≤◌, ℕ};

    ghost is_child = { λ q. 1 ≤ q };

    fn child(&mut self, alloc: Global, options: PoolOptions) -> Result<u32, Error> {
        self.child(alloc, options)
    }

    fn retire(&mut self, name: u32) -> VecDeque<Idle<C>> {
        self.retire(name)
    }

    fn owned(&self, name: u32) -> u32 {
        self.owned(name)
    }
}

impl<C: Depth, O, H: Ledger, L: Loans> LockedFamily<C, O, H, L> {
    // A copy of each pool's log: they tell of as many loans as the tally with every part has counted.
    fn audited(&mut self, alloc: Global, all: &mut Tally<L>) -> Result<Vec<MarkLog>, OutOfMemory>
        requires { all.old.parts ≡ L.parts }
        ensures counted { IfOk result (λ logs. sum_by loans_told logs.items ≡ all.old.loans) }
        ensures same { all.new ≡ all.old }
        ensures family { self.new.family ≡ self.old.family }
        ensures logs { self.new.logs ≡ self.old.logs }
        ensures starts { self.new.starts ≡ self.old.starts }
    {
        self.audit(all);
        self.read_logs(alloc)
    }
}
