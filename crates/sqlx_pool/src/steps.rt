//! The steps that handles ask of what lies under a lock: of a lone pool, or of the pools of a family.

ghost use Rattle.std.specs.Prelude.{◌≡◌, ◌⊎◌, ◌≤◌, ◌+◌, ◌^◌, ℕ, Bool, true, false, not, is_some, Ok, Err, IfSome, IfOk, IfErr, OnErr};
ghost use Rattle.sqlx_text.specs.declared.error.Error.{Error};
ghost use Rattle.sqlx_pool_core.specs.Answers.{is_kept};
ghost use Rattle.sqlx_pool_core.specs.CameTo.{IfAccepted};
ghost use Rattle.sqlx_pool_parts.specs.Answers.{lent_alone, lends_tested, IfTestLends, lends_new, IfTryLends, IfTried, is_fatal, is_ended};
ghost use Rattle.sqlx_pool_parts.specs.Booked.{CountsIf, Tallied};
ghost use Rattle.sqlx_pool_parts.specs.Opened.{IsOpenable};
ghost use Rattle.sqlx_pool.specs.Calls.{Look, Step, past_alone};
ghost use Rattle.sqlx_pool.specs.Calls as call;

use crate::{Loans, Tally};
use sqlx_pool_core::{
    AfterConnect, AfterTest, CloseState, Given, Idle, Lent, PoolOptions, Start, Tried, Verdict,
};
use sqlx_pool_history::{Chained, Naming, Stands};
use sqlx_text::{Depth, Error, Moment, OutOfMemory};
use std::alloc::Global;
use std::collections::VecDeque;
use std::sync::Arc;
use std::sync::ledger::Blank;

/// Who may go on behind a step.
#[derive(Clone, Copy, PartialEq, Eq)]
pub enum Wakes {
    /// Nobody that waits.
    Nobody,
    /// The ticket of this number.
    One(u64),
    /// Perhaps each that waits.
    All,
}

/// What counts the loans that were made by it.
pub trait Tallies: Drop + Sized {
    /// Its parts of the right to know the whole, and how many loans were counted in it.
    ghost counted: { Self → Tallied };

    /// A tally with one part of this one, in which no loan was counted.
    fn split(&mut self) -> Self
        requires { 2 ≤ (counted self.old).parts }
        ensures new { counted result ≡ record { parts = 1; loans = 0 } }
        ensures parts { (counted self.new).parts + 1 ≡ (counted self.old).parts }
        ensures loans { (counted self.new).loans ≡ (counted self.old).loans };
}

impl<L: Loans> Tallies for Tally<L> {
    ghost counted = { λ tally. tally };

    fn split(&mut self) -> Self {
        self.split()
    }
}

/// A value under a lock that has the steps of a pool of connections `C`, which are opened by options `O`: a lone pool, or
/// a family, whose pools have names. Each step says by `does` how the state that stood before is followed by the one
/// after, and each question by `tells` of which state it is the answer.
pub trait PoolSteps<C: Depth, O>: Stands<Self::Stood> + Drop + Sized {
    /// A state in which it stands.
    type Stood: Chained;

    /// Which history it has.
    type Book: Naming;

    /// The share of a connection that is held.
    type Held: Drop;

    /// What counts its loans.
    type Tally: Tallies;

    /// Which of its pools.
    type Name: Copy;

    /// A copy of a pool's log.
    type Log;

    /// A copy of all its logs.
    type Logs;

    /// What holds of each state while the lock is free.
    ghost stands: { Self.Stood → Type 0 };

    /// What a step does, from the state before to the one after.
    ghost does: { Step C Self.Name → Self.Stood → Self.Stood → Type 0 };

    /// What is told of a state.
    ghost tells: { Look Self.Name Self.Log O → Self.Stood → Type 0 };

    /// How many connections it has at most.
    ghost max: { ℕ };

    /// Whether logs may be cut.
    ghost cuts: { Bool };

    /// Into how many parts the ledger of its loans is split.
    ghost parts: { ℕ };

    /// Its ledgers, of the connections that are held and of the loans, have these names, and 2^32 parts each.
    ghost ledgers: { ℕ → ℕ → Type 0 };

    /// It is the name of the pool that is there from the first.
    ghost is_root: { Self.Name → Type 0 };

    /// What holds of each copy of a log.
    ghost is_log: { Self.Log → Type 0 };

    /// As many loans are told of by a copy of all logs.
    ghost tells_loans: { Self.Logs → ℕ → Type 0 };

    /// A new one, and the tally of its loans with every part.
    fn open(
        alloc: Global,
        options: PoolOptions,
        connect: Arc<O, Global>,
        held: Blank,
        loans: Blank,
    ) -> Result<(Self, Self::Tally), OutOfMemory>
        requires options { IsOpenable options max }
        requires blanks { ledgers held.name loans.name }
        requires parts { (held.parts ≡ 2 ^ 32) × (loans.parts ≡ 2 ^ 32) }
        ensures tally { IfOk result (λ made. Self.Tally.counted made.1 ≡ record { parts = parts; loans = 0 }) };

    /// The name of the pool that is there from the first: of a family's root.
    fn first_name() -> Self::Name
        ensures { is_root result };

    /// What holds of it while the lock is free.
    fn facts(&self)
        ensures { stands (Self.Stands.state self.now) };

    /// The options by which connections are opened.
    fn connect_options(&self) -> &Arc<O, Global>
        ensures { tells (call.Connects result.now.value) (Self.Stands.state self.now) };

    /// The moment that a step goes by.
    fn moment(&self, name: Self::Name, now: Moment) -> Moment;

    /// How many tickets haven't ended.
    fn num_tickets(&self, name: Self::Name) -> usize;

    /// The moment at which a connection of this opening that comes back is tested; None where it is to be closed anyway.
    fn tests_at(&self, name: Self::Name, created: Moment, now: Moment) -> Option<Moment>
        ensures { tells (call.TestsAt name created now result) (Self.Stands.state self.now) };

    /// How many connections there are or may be.
    fn size(&self, name: Self::Name) -> u32
        ensures most { result ≤ max }
        ensures tells { tells (call.Size name result) (Self.Stands.state self.now) };

    /// How many connections are idle.
    fn num_idle(&self, name: Self::Name) -> usize
        ensures most { result ≤ max }
        ensures tells { tells (call.NumIdle name result) (Self.Stands.state self.now) };

    /// Whether the pool is closed.
    fn is_closed(&self, name: Self::Name) -> bool
        ensures { tells (call.IsClosed name result) (Self.Stands.state self.now) };

    /// How far the pool is closed.
    fn closing(&self, name: Self::Name) -> CloseState
        ensures { tells (call.Closing name result) (Self.Stands.state self.now) };

    /// How many marks the log has behind its start.
    fn log_len(&self, name: Self::Name) -> usize
        ensures { tells (call.LogLen name result) (Self.Stands.state self.now) };

    /// A copy of the log.
    fn read_log(&self, name: Self::Name, alloc: Global) -> Result<Self::Log, OutOfMemory>
        ensures is { IfOk result (λ log. is_log log) }
        ensures tells { IfOk result (λ log. tells (call.LogIs name log) (Self.Stands.state self.now)) };

    /// Counts the loans by the tally with every part, and copies all logs.
    fn audit(&mut self, alloc: Global, all: &mut Self::Tally) -> Result<Self::Logs, OutOfMemory>
        requires { (Self.Tally.counted all.old).parts ≡ parts }
        ensures does { does call.Audit (Self.Stands.state self.old) (Self.Stands.state self.new) }
        ensures counted { IfOk result (λ logs. tells_loans logs (Self.Tally.counted all.old).loans) }
        ensures same { all.new ≡ all.old };

    /// Asks for a connection.
    fn ask(
        &mut self,
        name: Self::Name,
        alloc: Global,
        now: Moment,
        client: u32,
    ) -> Result<u64, Error>
        ensures does { does (call.Ask name now client result) (Self.Stands.state self.old) (Self.Stands.state self.new) }
        ensures closed { (result ≡ Err Error.PoolClosed) → tells (call.IsClosed name true) (Self.Stands.state self.new) }
        ensures used { (result ≡ Err Error.Exhausted) → tells call.TicketsUsed (Self.Stands.state self.new) }
        ensures causes { IfErr result (λ e. (e ≡ Error.PoolClosed) ⊎ ((e ≡ Error.Exhausted) ⊎ (e ≡ Error.OutOfMemory))) };

    /// Asks and lends the first idle connection at once, without a test, where nobody has a ticket. None: it doesn't.
    fn serve_new(
        &mut self,
        name: Self::Name,
        alloc: Global,
        now: Moment,
        client: u32,
        tally: &mut Self::Tally,
    ) -> Option<(Lent<C>, Self::Held)>
        ensures does { does (call.ServeNew name now client (lent_alone result)) (Self.Stands.state self.old) (Self.Stands.state self.new) }
        ensures tally { CountsIf (is_some result) (Self.Tally.counted tally.old) (Self.Tally.counted tally.new) }
        ensures flat { IfSome (lent_alone result) (λ l. C.levels l.raw ≡ 0) };

    /// Lends past the line.
    fn try_acquire(
        &mut self,
        name: Self::Name,
        alloc: Global,
        now: Moment,
        client: u32,
        tally: &mut Self::Tally,
    ) -> Result<Option<(Lent<C>, Self::Held)>, Error>
        ensures does { does (call.LendPast name now client (past_alone result)) (Self.Stands.state self.old) (Self.Stands.state self.new) }
        ensures used { (result ≡ Err Error.Exhausted) → tells call.LoansUsed (Self.Stands.state self.new) }
        ensures tally { IfOk result (λ lent. CountsIf (is_some lent) (Self.Tally.counted tally.old) (Self.Tally.counted tally.new)) }
        ensures flat { IfOk result (λ lent. IfSome (lent_alone lent) (λ l. C.levels l.raw ≡ 0)) }
        ensures causes { IfErr result (λ e. (e ≡ Error.Exhausted) ⊎ (e ≡ Error.OutOfMemory)) }
        ensures err { OnErr result (Self.Tally.counted tally.new ≡ Self.Tally.counted tally.old) };

    /// Begins a poll, by the poll table; the moment that it goes by comes beside the answer.
    fn start(
        &mut self,
        name: Self::Name,
        client: u32,
        ticket: u64,
        now: Moment,
    ) -> (Start<C>, Moment)
        ensures { does (call.Begin name client ticket now result.1 result.0) (Self.Stands.state self.old) (Self.Stands.state self.new) };

    /// Polls the first of all tickets and lends at once, without a test. None: it doesn't.
    fn serve_polled(
        &mut self,
        name: Self::Name,
        client: u32,
        ticket: u64,
        now: Moment,
        tally: &mut Self::Tally,
    ) -> Option<(Lent<C>, Self::Held)>
        ensures does { does (call.ServePolled name client ticket now (lent_alone result)) (Self.Stands.state self.old) (Self.Stands.state self.new) }
        ensures tally { CountsIf (is_some result) (Self.Tally.counted tally.old) (Self.Tally.counted tally.new) }
        ensures flat { IfSome (lent_alone result) (λ l. C.levels l.raw ≡ 0) };

    /// Tells what the test of an idle connection came to; one that is accepted has no level open.
    fn finish_test(
        &mut self,
        name: Self::Name,
        client: u32,
        ticket: u64,
        verdict: Verdict<C>,
        tally: &mut Self::Tally,
    ) -> (AfterTest<C>, Option<Self::Held>)
        requires flat { IfAccepted verdict (λ raw. C.levels raw ≡ 0) }
        ensures does { does (call.EndTest name client ticket verdict result.0) (Self.Stands.state self.old) (Self.Stands.state self.new) }
        ensures held { is_some result.1 ≡ lends_tested result.0 }
        ensures tally { CountsIf (lends_tested result.0) (Self.Tally.counted tally.old) (Self.Tally.counted tally.new) }
        ensures flat { IfTestLends result.0 (λ lent. C.levels lent.raw ≡ 0) };

    /// Tells what a try of a connect came to; a connection that was opened has no level open.
    fn finish_connect(
        &mut self,
        name: Self::Name,
        client: u32,
        ticket: u64,
        now: Moment,
        tried: Tried<C>,
        tally: &mut Self::Tally,
    ) -> (AfterConnect<C>, Option<Self::Held>)
        requires flat { IfTried tried (λ raw. C.levels raw ≡ 0) }
        ensures does { does (call.EndTry name client ticket now tried result.0) (Self.Stands.state self.old) (Self.Stands.state self.new) }
        ensures held { is_some result.1 ≡ lends_new result.0 }
        ensures tally { CountsIf (lends_new result.0) (Self.Tally.counted tally.old) (Self.Tally.counted tally.new) }
        ensures calm { is_fatal tried ≡ false → is_ended result.0 ≡ false }
        ensures flat { IfTryLends result.0 (λ lent. C.levels lent.raw ≡ 0) };

    /// Ends a ticket that waits or is in backoff.
    fn cancel(&mut self, name: Self::Name, client: u32, ticket: u64) -> bool
        ensures { does (call.Cancel name client ticket result) (Self.Stands.state self.old) (Self.Stands.state self.new) };

    /// Gives a connection back; one that is accepted has no level open.
    fn give(
        &mut self,
        name: Self::Name,
        client: u32,
        lent: Lent<C>,
        now: Moment,
        accepted: bool,
        held: Self::Held,
    ) -> (Given<C>, Option<Self::Held>)
        requires flat { accepted ≡ true → C.levels lent.raw ≡ 0 }
        ensures does { does (call.Give name client lent now accepted result.0) (Self.Stands.state self.old) (Self.Stands.state self.new) }
        ensures refused { accepted ≡ false → is_kept result.0 ≡ false };

    /// Ends the loan of a connection, which the caller closes.
    fn end(
        &mut self,
        name: Self::Name,
        client: u32,
        id: u64,
        held: Self::Held,
    ) -> (bool, Option<Self::Held>)
        ensures { does (call.CloseLoan name client id result.0) (Self.Stands.state self.old) (Self.Stands.state self.new) };

    /// Takes a connection out of the pool.
    fn detach(
        &mut self,
        name: Self::Name,
        client: u32,
        id: u64,
        held: Self::Held,
    ) -> (bool, Option<Self::Held>)
        ensures { does (call.Detach name client id result.0) (Self.Stands.state self.old) (Self.Stands.state self.new) };

    /// Takes a connection out of the pool, which keeps its permit for good.
    fn leak(
        &mut self,
        name: Self::Name,
        client: u32,
        id: u64,
        held: Self::Held,
    ) -> (bool, Option<Self::Held>)
        ensures { does (call.Leak name client id result.0) (Self.Stands.state self.old) (Self.Stands.state self.new) };

    /// Takes what is to be reaped first.
    fn reap(&mut self, name: Self::Name, now: Moment) -> Option<Idle<C>>
        ensures does { does (call.Reap name now result) (Self.Stands.state self.old) (Self.Stands.state self.new) }
        ensures none { is_some result ≡ false → tells (call.NothingToReap name now) (Self.Stands.state self.old) };

    /// Holds a place for a connection that is opened before any client asks.
    fn first_place(&mut self, name: Self::Name, alloc: Global) -> Result<bool, OutOfMemory>
        ensures { does (call.FirstPlace name result) (Self.Stands.state self.old) (Self.Stands.state self.new) };

    /// Holds a place for a connection of the minimum.
    fn minimum_place(&mut self, name: Self::Name, alloc: Global) -> Result<bool, OutOfMemory>
        ensures does { does (call.MinimumPlace name result) (Self.Stands.state self.old) (Self.Stands.state self.new) }
        ensures full { result ≡ Ok false → tells (call.IsFilled name) (Self.Stands.state self.old) };

    /// Tells what came of the connection for which a place was held. It comes back where the pool keeps none.
    fn minimum_done(&mut self, name: Self::Name, now: Moment, raw: Option<C>) -> Option<C>
        requires flat { IfSome raw (λ conn. C.levels conn ≡ 0) }
        ensures does { does (call.MinimumDone name now raw result) (Self.Stands.state self.old) (Self.Stands.state self.new) }
        ensures back { is_some result ≡ true → tells (call.IsFilled name) (Self.Stands.state self.old) };

    /// Closes the pool; the idle connections come back, and the caller closes them.
    fn close(&mut self, name: Self::Name) -> VecDeque<Idle<C>>
        ensures { does (call.Close name result.items) (Self.Stands.state self.old) (Self.Stands.state self.new) };

    /// Sets the options by which connections are opened from now on; the former ones come back.
    fn set_connect_options(&mut self, options: Arc<O, Global>) -> Arc<O, Global>
        ensures { does call.SetConnect (Self.Stands.state self.old) (Self.Stands.state self.new) };

    /// Cuts the log.
    fn cut(&mut self, name: Self::Name)
        requires { cuts ≡ true }
        ensures { does (call.Cut name) (Self.Stands.state self.old) (Self.Stands.state self.new) };

    /// Cuts the log where it is long, and tells whether it was.
    fn cut_if_long(&mut self, name: Self::Name) -> bool
        ensures becomes { does (call.CutIfLong name) (Self.Stands.state self.old) (Self.Stands.state self.new) }
        ensures same { result ≡ false → Self.Stands.state self.new ≡ Self.Stands.state self.old };

    /// Sets by how many marks behind its start the log is one to be cut.
    fn set_log_limit(&mut self, name: Self::Name, limit: Option<usize>)
        requires { cuts ≡ true }
        ensures { does (call.Limit name limit) (Self.Stands.state self.old) (Self.Stands.state self.new) };

    /// Who may go on behind a step that may have freed something.
    fn wakes(&mut self) -> Wakes
        ensures { self.new ≡ self.old };

    /// Who may go on behind the beginning of a poll, which is pending or not.
    fn wakes_begun(&mut self, name: Self::Name, pending: bool) -> Wakes
        ensures { self.new ≡ self.old };

    /// What a step comes to may follow in the history.
    ghost goes_on: { (s : Step C Self.Name) (old new : Self.Stood) → does s old new → Self.Stood.Chained.follows old new };
}

/// A value under a lock that has the steps of a family: its first pool is the root, and others are added.
pub trait FamilySteps<C: Depth, O>: PoolSteps<C, O> {
    /// It is the name of a child.
    ghost is_child: { Self.Name → Type 0 };

    /// Adds a child.
    fn child(&mut self, alloc: Global, options: PoolOptions) -> Result<Self::Name, Error>
        requires some { 1 ≤ options.max_connections }
        requires tries { (1 ≤ options.idle_tries) × (options.idle_tries ≤ 16) }
        requires fits { options.max_connections ≤ Self.PoolSteps.max }
        ensures does { Self.PoolSteps.does (call.AddChild options result) (Self.Stands.state self.old) (Self.Stands.state self.new) }
        ensures child { IfOk result (λ name. is_child name) }
        ensures full { (result ≡ Err Error.Exhausted) → Self.PoolSteps.tells call.IsFull (Self.Stands.state self.old) }
        ensures causes { IfErr result (λ e. (e ≡ Error.Exhausted) ⊎ (e ≡ Error.OutOfMemory)) };

    /// Closes a child, and hands its free permits to the root.
    fn retire(&mut self, name: Self::Name) -> VecDeque<Idle<C>>
        ensures { Self.PoolSteps.does (call.Retire name result.items) (Self.Stands.state self.old) (Self.Stands.state self.new) };

    /// How many permits a pool owns.
    fn owned(&self, name: Self::Name) -> u32
        ensures most { result ≤ Self.PoolSteps.max }
        ensures tells { Self.PoolSteps.tells (call.Owns name result) (Self.Stands.state self.now) };
}
