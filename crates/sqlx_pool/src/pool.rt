//! The pool that threads share: a handle on one pool of a locked value. Each call takes the lock for one step at a time.

ghost use Rattle.std.specs.Prelude.{◌≡◌, ℕ, ◌≤◌, true, is_some, Ok, IfOk, IfErr, IfSome, OnErr};
ghost use Rattle.sqlx_pool_parts.specs.Booked.{CountsIf};
ghost use Rattle.sqlx_pool_parts.specs.Opened.{IsOpenable};
ghost use Rattle.sqlx_pool.specs.Refusals.{MayRefuseAsk, MayRefuseTry};

mod families;
mod first;
mod maintenance;
mod polls;
mod seen;
mod steps;

use crate::blanks::BlanksOf;
use crate::kept::Kept;
use crate::steps::{PoolSteps, Wakes};
use crate::stood::FrontOf;
use crate::{AcquiringOf, CloseEventOf, PoolConnectionOf};
use sqlx_pool_core::{CloseState, PoolOptions};
use sqlx_pool_parts::sleepers::Sleepers;
use sqlx_text::{Depth, Error, Moment, OutOfMemory};
use std::alloc::Global;
use std::sync::atomic::AtomicBool;
use std::sync::{Arc, Mutex, MutexGuard, Wait};

// What all handles of a lone pool, or of a family, share: what lies under the lock.
pub(crate) struct All<C: Depth, O, S: PoolSteps<C, O>> {
    pub(crate) kept: Mutex<Kept<C, O, S>>,
    // Where those sleep that wait for their turn, in whichever pool.
    pub(crate) sleepers: Sleepers,
    // Some pool was closed by `close`.
    pub(crate) closed: AtomicBool,
}

impl<C: Depth + Drop, O: Drop, S: PoolSteps<C, O>> Drop for All<C, O, S> {
    fn drop(self) {
        let All {
            kept,
            sleepers,
            closed,
        } = self;
        drop(kept);
        drop(sleepers);
        drop(closed);
    }
}

// What the handles of one pool share: what lies under the lock, which of its pools it is, and how that was set up.
pub(crate) struct Shared<C: Depth, O, S: PoolSteps<C, O>> {
    pub(crate) all: Arc<All<C, O, S>, Global>,
    pub(crate) name: S::Name,
    // The front of one that has seen nothing yet.
    unseen: FrontOf<C, O, S>,
    pub(crate) options: PoolOptions,
}

impl<C: Depth + Drop, O: Drop, S: PoolSteps<C, O>> Drop for Shared<C, O, S> {
    fn drop(self) {
        let Shared {
            all,
            name: _,
            unseen,
            options: _,
        } = self;
        drop(all);
        drop(unseen);
    }
}

// What is under the lock, while it is held.
pub(crate) type Guard<'a, C, O, S> = MutexGuard<'a, Kept<C, O, S>>;

/// A pool of connections of the type `C`, which are opened by options of the type `O`: a lone one, or one of a family, as
/// `S` has its steps. Handles on it go into as many threads as need be.
pub struct PoolOf<C: Depth, O, S: PoolSteps<C, O>> {
    pub(crate) shared: Arc<Shared<C, O, S>, Global>,
}

impl<C: Depth + Drop, O: Drop, S: PoolSteps<C, O>> Drop for PoolOf<C, O, S> {
    fn drop(self) {
        let PoolOf { shared } = self;
        drop(shared);
    }
}

impl<C: Depth + Drop, O: Drop, S: PoolSteps<C, O>> PoolOf<C, O, S> {
    // A pool with no connection yet, and the tally of its loans with every part.
    pub(crate) fn new(
        alloc: Global,
        options: PoolOptions,
        connect: O,
        blanks: BlanksOf<S::Stood>,
    ) -> Result<(Self, S::Tally), OutOfMemory>
        requires options { IsOpenable options S.max }
        requires blanks { S.ledgers blanks.held.name blanks.loans.name × (blanks.opened.seen.book ≡ S.Book.book) }
        ensures root { IfOk result (λ made. S.is_root made.0.shared.value.name) }
        ensures options { IfOk result (λ made. made.0.shared.value.options ≡ options) }
        ensures tally { IfOk result (λ made. S.Tally.counted made.1 ≡ record { parts = S.parts; loans = 0 }) }
    {
        let Ok(connect) = Arc::new(alloc, connect) else {
            return Err(OutOfMemory);
        };
        let (held, loans, opened) = blanks.into_parts();
        let (locked, tally) = S::open(alloc, options, connect, held, loans)?;
        let kept = Kept::new(locked, opened);
        let unseen = kept.front();
        let all = All {
            kept: Mutex::new(kept),
            sleepers: Sleepers::new(),
            closed: AtomicBool::new(false),
        };
        let Ok(all) = Arc::new(alloc, all) else {
            return Err(OutOfMemory);
        };
        let pool = PoolOf::over(alloc, all, S::first_name(), unseen, options)?;
        Ok((pool, tally))
    }

    // The pool of this name.
    fn over(
        alloc: Global,
        all: Arc<All<C, O, S>, Global>,
        name: S::Name,
        unseen: FrontOf<C, O, S>,
        options: PoolOptions,
    ) -> Result<Self, OutOfMemory>
        ensures name { IfOk result (λ made. made.shared.value.name ≡ name) }
        ensures options { IfOk result (λ made. made.shared.value.options ≡ options) }
    {
        let shared = Shared {
            all,
            name,
            unseen,
            options,
        };
        match Arc::new(alloc, shared) {
            Ok(shared) => Ok(PoolOf { shared }),
            Err(_) => Err(OutOfMemory),
        }
    }

    // Takes the lock.
    pub(crate) fn lock<R: Wait>(&self, rt: &R) -> Guard<'_, C, O, S> {
        match self.shared.all.kept.try_lock() {
            Some(guard) => guard,
            None => self.lock_later(rt),
        }
    }

    // Waits for the lock.
    #[cold]
    #[inline(never)]
    fn lock_later<R: Wait>(&self, rt: &R) -> Guard<'_, C, O, S> {
        self.shared.all.kept.lock(rt)
    }

    // Takes the lock, and cuts the log where it is long: before each step that reserves room for marks.
    pub(crate) fn lock_and_cut<R: Wait>(&self, rt: &R) -> Guard<'_, C, O, S> {
        let mut guard = self.lock(rt);
        guard.cut_if_long(rt, self.shared.name);
        guard
    }

    // Lets the lock go behind a step of a client that waits for nothing, and wakes whom it may have let go on. A step
    // that frees no permit for anybody wakes nobody.
    pub(crate) fn unlock(&self, guard: Guard<'_, C, O, S>) {
        let mut guard = guard;
        let wakes = guard.wakes();
        drop(guard);
        self.wake(wakes);
    }

    // Wakes those that may go on.
    pub(crate) fn wake(&self, wakes: Wakes) {
        match wakes {
            Wakes::Nobody => {}
            Wakes::One(ticket) => self.shared.all.sleepers.call(ticket),
            Wakes::All => self.notify(),
        }
    }

    // Wakes all that wait for their turn: after a step that closes the pool, or of which nobody asked whom it let go on.
    pub(crate) fn notify(&self) {
        self.shared.all.sleepers.call_all();
    }

    /// Another handle on the same pool. In sqlx: `clone`.
    pub fn try_clone(&self) -> Result<Self, OutOfMemory>
        ensures { IfOk result (λ copy. copy.shared.value ≡ self.now.shared.value) }
    {
        match Arc::try_clone(&self.shared) {
            Ok(shared) => Ok(PoolOf { shared }),
            Err(_) => Err(OutOfMemory),
        }
    }

    /// The front of a caller who has seen nothing of the pool yet. Each call that ends in `_seen` is handed such a front,
    /// which then ends with the state of which the call tells: what the front had seen before is the beginning.
    pub fn front(&self) -> FrontOf<C, O, S>
        ensures { result ≡ self.now.shared.value.unseen }
    {
        self.shared.unseen.again()
    }

    /// Asks for a connection: a ticket at the end of the line, which is polled by the value that comes back.
    pub fn acquire<R: Wait>(
        &self,
        rt: &R,
        alloc: Global,
        now: Moment,
        client: u32,
    ) -> Result<AcquiringOf<C, O, S>, Error>
        ensures asked { IfOk result (λ waits. waits.client ≡ client) }
        ensures refused { IfErr result MayRefuseAsk }
    {
        self.acquire_seen(rt, alloc, now, client, &mut self.front())
    }

    /// The first idle connection, past the line and without a test: where the pool is open, a connection is idle, and
    /// fewer tickets wait than permits are free. `Exhausted` where 2^62 loans were made.
    pub fn try_acquire<R: Wait>(
        &self,
        rt: &R,
        alloc: Global,
        now: Moment,
        client: u32,
        tally: &mut S::Tally,
    ) -> Result<Option<PoolConnectionOf<C, O, S>>, Error>
        ensures tally { IfOk result (λ lent. CountsIf (is_some lent) (S.Tally.counted tally.old) (S.Tally.counted tally.new)) }
        ensures flat { IfOk result (λ lent. IfSome lent (λ conn. C.levels conn.raw ≡ 0)) }
        ensures refused { IfErr result MayRefuseTry }
        ensures err { OnErr result (S.Tally.counted tally.new ≡ S.Tally.counted tally.old) }
    {
        self.try_acquire_seen(rt, alloc, now, client, tally, &mut self.front())
    }

    /// How many connections there are or may be: at most the maximum.
    pub fn size<R: Wait>(&self, rt: &R) -> u32
        ensures { result ≤ S.max }
    {
        self.size_seen(rt, &mut self.front())
    }

    /// How many connections are idle: at most the maximum.
    pub fn num_idle<R: Wait>(&self, rt: &R) -> usize
        ensures { result ≤ S.max }
    {
        self.num_idle_seen(rt, &mut self.front())
    }

    /// Whether the pool is closed.
    pub fn is_closed<R: Wait>(&self, rt: &R) -> bool {
        self.is_closed_seen(rt, &mut self.front())
    }

    /// How far the pool is closed.
    pub fn closing<R: Wait>(&self, rt: &R) -> CloseState {
        self.closing_seen(rt, &mut self.front())
    }

    /// What tells that the pool is closed.
    pub fn close_event(&self) -> Result<CloseEventOf<C, O, S>, OutOfMemory>
        ensures { IfOk result (λ event. event.pool.shared.value ≡ self.now.shared.value) }
    {
        match self.try_clone() {
            Ok(pool) => Ok(CloseEventOf::new(pool)),
            Err(short) => Err(short),
        }
    }

    /// How the pool was set up.
    pub fn options(&self) -> &PoolOptions
        ensures { result.now ≡ self.now.shared.value.options }
    {
        &self.shared.options
    }

    /// The options by which connections are opened, in whichever pool of a family.
    pub fn connect_options<R: Wait>(&self, rt: &R) -> Result<Arc<O, Global>, OutOfMemory> {
        self.connect_options_seen(rt, &mut self.front())
    }

    /// Sets the options by which connections are opened from now on, in whichever pool of a family.
    pub fn set_connect_options<R: Wait>(
        &self,
        rt: &R,
        alloc: Global,
        options: O,
    ) -> Result<(), OutOfMemory> {
        let Ok(options) = Arc::new(alloc, options) else {
            return Err(OutOfMemory);
        };
        let former = self.lock(rt).set_connect_options(rt, options);
        drop(former);
        Ok(())
    }

    /// How many marks the log has behind its start.
    pub fn log_len<R: Wait>(&self, rt: &R) -> usize {
        self.log_len_seen(rt, &mut self.front())
    }

    /// Cuts the log: the marks that later ones still look at become its start, and the others are forgotten. It takes no
    /// memory, and gives none back: what it frees is room for the marks of later steps.
    pub fn cut_log<R: Wait>(&self, rt: &R)
        requires { S.cuts ≡ true }
    {
        self.lock(rt).cut(rt, self.shared.name);
    }

    /// Sets that the pool cuts its log by itself, before a step that reserves room for marks, where behind the start there
    /// are at least so many marks, and as many as the start has. None, as at first: it doesn't.
    pub fn set_log_limit<R: Wait>(&self, rt: &R, limit: Option<usize>)
        requires { S.cuts ≡ true }
    {
        self.lock(rt).set_log_limit(rt, self.shared.name, limit);
    }

    /// A copy of the log: of a lone pool it is fair behind its start for a pool of this maximum, of one of a family it comes
    /// beside the pool's maximum and is safe for that. The start is empty where logs may not be cut.
    pub fn read_log<R: Wait>(&self, rt: &R, alloc: Global) -> Result<S::Log, OutOfMemory>
        ensures { IfOk result (λ log. S.is_log log) }
    {
        self.read_log_seen(rt, alloc, &mut self.front())
    }

    /// As `read_log`, by the tally with every part, and in a family the log of each pool, by the pools' names: with what cuts
    /// forgot they have as many `Lent` marks as that has counted loans, however many threads made them.
    pub fn audit_log<R: Wait>(
        &self,
        rt: &R,
        alloc: Global,
        all: &mut S::Tally,
    ) -> Result<S::Logs, OutOfMemory>
        requires { (S.Tally.counted all.old).parts ≡ S.parts }
        ensures counted { IfOk result (λ logs. S.tells_loans logs (S.Tally.counted all.old).loans) }
        ensures same { all.new ≡ all.old }
    {
        self.lock(rt).audit(rt, alloc, all)
    }
}
