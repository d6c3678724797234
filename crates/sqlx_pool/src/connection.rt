//! A connection that a pool has lent.

ghost use Rattle.std.specs.Prelude.{◌≡◌, ◌≤◌, ℕ, Bool, true, false, is_ok, IfErr};
ghost use Rattle.std.specs.Borrow.{Lends, sem};
ghost use Rattle.sqlx_text.specs.declared.error.Error.{Error};
ghost use Rattle.sqlx_pool_core.specs.declared.idle_check.Check.{Check};
ghost use Rattle.sqlx_pool_parts.specs.Checks.{Closes};
ghost use Rattle.sqlx_pool.specs.Returned.{GivesBack, TellsEnd, was_kept};
ghost use Rattle.sqlx_pool.specs.Seen.{HasMade};
ghost use Rattle.sqlx_pool.specs.Calls as call;
ghost use Rattle.sqlx_pool.specs.Lent.{as_lent};
ghost use Rattle.sqlx_pool.specs.contracts.connection.PoolConnectionOf.{the_row};

use crate::PoolOf;
use crate::steps::PoolSteps;
use crate::stood::FrontOf;
use sqlx_pool_core::idle_check::Check;
use sqlx_pool_core::{Given, Lent, Openings, Outside};
use sqlx_pool_parts::checks::{close_by, passes};
use sqlx_text::{Depth, Error, Moment};
use std::alloc::Global;
use std::sync::Wait;

/// What became of a connection that was returned.
#[derive(Clone, Copy, PartialEq, Eq)]
pub enum Returned {
    /// It is the last among the idle.
    Kept,
    /// It was closed, and then the minimum was kept.
    Closed { opened: Openings },
    /// The pool knows no such loan. No caller can bring this about.
    NotHeld,
}

impl<C: Depth + Drop, O: Drop, S: PoolSteps<C, O>> PoolOf<C, O, S> {
    // Ends the loan of a connection that was closed, and keeps the minimum.
    #[cold]
    #[inline(never)]
    fn end_closed<R: Wait, X: Outside<C, O>>(
        &self,
        rt: &R,
        alloc: Global,
        now: Moment,
        client: u32,
        id: u64,
        held: S::Held,
        out: &mut X,
        me: &mut FrontOf<C, O, S>,
    ) -> Returned
        ensures ends { (ended : Bool) × HasMade S.stands me.old me.new (S.does (call.CloseLoan self.now.shared.value.name client id ended)) × TellsEnd ended result }
        ensures closed { was_kept result ≡ false }
        ensures counts { (X.faults out.old ≤ X.faults out.new) × (X.refusals out.old ≤ X.refusals out.new) }
    {
        if self.end(rt, client, id, held, me) {
            Returned::Closed {
                opened: self.keep_minimum_seen::<R, X>(rt, alloc, now, out, me),
            }
        } else {
            Returned::NotHeld
        }
    }
}

/// A connection that a pool has lent. It is spent by `return_to_pool`, `close`, `detach` or `leak`; it can't be let go
/// otherwise.
pub struct PoolConnectionOf<C: Depth, O, S: PoolSteps<C, O>> {
    pool: PoolOf<C, O, S>,
    client: u32,
    id: u64,
    created: Moment,
    pub(crate) raw: C,
    held: S::Held,
    closes: bool,
}

impl<C: Depth + Drop, O: Drop, S: PoolSteps<C, O>> PoolConnectionOf<C, O, S> {
    pub(crate) fn new(pool: PoolOf<C, O, S>, client: u32, lent: Lent<C>, held: S::Held) -> Self
        ensures lent { as_lent result ≡ lent }
        ensures raw { result.raw ≡ lent.raw }
        ensures closes { result.closes ≡ false }
    {
        let Lent { id, created, raw } = lent;
        PoolConnectionOf {
            pool,
            client,
            id,
            created,
            raw,
            held,
            closes: false,
        }
    }

    /// The connection, to read. In sqlx: `as_ref` and `Deref`.
    pub fn as_ref(&self) -> &C
        ensures { result.now ≡ self.now.raw }
    {
        &self.raw
    }

    /// The connection, to work on. In sqlx: `as_mut` and `DerefMut`.
    pub fn as_mut(&mut self) -> &mut C
        ensures* lends { sem 𝓛 (Lends (the_row C.row O.row S.row S.Stood.row S.Book.row S.Held.row S.Tally.row S.Name.row S.Log.row S.Logs.row C.Depth
            (record { stands = S.stands; does = S.does; tells = S.tells; max = S.max; cuts = S.cuts; parts = S.parts; ledgers = S.ledgers; is_root = S.is_root; is_log = S.is_log; tells_loans = S.tells_loans })
            S.Stands S.Stood.Chained S.Book.Naming S.Tally.Tallies) C.row self.entry result (λ c. record self.old { raw = c })) }
        ensures value { result.now ≡ self.old.raw }
    {
        &mut self.raw
    }

    /// From now on `return_to_pool` closes the connection.
    pub fn close_on_drop(&mut self)
        ensures { self.new.closes ≡ true }
    {
        self.closes = true;
    }

    /// Gives the connection back. It is kept where the pool is open, its age isn't above the lifetime, the hook after a
    /// release accepts it where it is set, no level is open, and it answers a ping; else it is closed, hard after an
    /// error of the hook, an open level or a refused ping. The lock isn't held meanwhile, and what doesn't pass is closed
    /// before its place is free.
    pub fn return_to_pool<R: Wait, X: Outside<C, O>>(
        self,
        rt: &R,
        alloc: Global,
        now: Moment,
        out: &mut X,
    ) -> Returned
        ensures closed { self.closes ≡ true → was_kept result ≡ false }
        ensures counts { (X.faults out.old ≤ X.faults out.new) × (X.refusals out.old ≤ X.refusals out.new) }
    {
        let mut me = self.pool.front();
        self.return_to_pool_seen::<R, X>(rt, alloc, now, out, &mut me)
    }

    /// As `return_to_pool`. The front of the caller goes on by the step, and by those of the minimum behind it.
    pub fn return_to_pool_seen<R: Wait, X: Outside<C, O>>(
        self,
        rt: &R,
        alloc: Global,
        now: Moment,
        out: &mut X,
        me: &mut FrontOf<C, O, S>,
    ) -> Returned
        ensures gives { let pool = self.pool.shared.value in GivesBack X.does X.depth C.levels S.stands S.does S.tells pool.name self.closes pool.options self.client (as_lent self) now me.old me.new result out.old }
        ensures closed { self.closes ≡ true → was_kept result ≡ false }
        ensures counts { (X.faults out.old ≤ X.faults out.new) × (X.refusals out.old ≤ X.refusals out.new) }
    {
        let PoolConnectionOf {
            pool,
            client,
            id,
            created,
            mut raw,
            held,
            closes,
        } = self;
        let check = pool.check::<R, X>(rt, closes, created, now, &mut raw, out, me);
        if !passes(check) {
            close_by::<C, O, X>(check, raw, out);
            return pool.end_closed::<R, X>(rt, alloc, now, client, id, held, out, me);
        }
        let lent = Lent { id, created, raw };
        match pool.give(rt, client, lent, now, true, held, me) {
            Given::Kept => Returned::Kept,
            Given::Closed(raw) => {
                close_by::<C, O, X>(Check::Close, raw, out);
                Returned::Closed {
                    opened: pool.keep_minimum_seen::<R, X>(rt, alloc, now, out, me),
                }
            }
            Given::NotHeld(raw) => {
                close_by::<C, O, X>(Check::CloseHard, raw, out);
                Returned::NotHeld
            }
        }
    }

    /// Closes the connection, before its place is free, and then keeps the minimum. The only error is `NotHeld`, which no caller can bring about.
    pub fn close<R: Wait, X: Outside<C, O>>(
        self,
        rt: &R,
        alloc: Global,
        now: Moment,
        out: &mut X,
    ) -> Result<Openings, Error>
        ensures only { IfErr result (λ e. e ≡ Error.NotHeld) }
        ensures counts { (X.faults out.old ≤ X.faults out.new) × (X.refusals out.old ≤ X.refusals out.new) }
    {
        let mut me = self.pool.front();
        self.close_seen::<R, X>(rt, alloc, now, out, &mut me)
    }

    /// As `close`. The front of the caller goes on by the step, and by those of the minimum behind it.
    pub fn close_seen<R: Wait, X: Outside<C, O>>(
        self,
        rt: &R,
        alloc: Global,
        now: Moment,
        out: &mut X,
        me: &mut FrontOf<C, O, S>,
    ) -> Result<Openings, Error>
        ensures made { HasMade S.stands me.old me.new (S.does (call.CloseLoan self.pool.shared.value.name self.client self.id (is_ok result))) }
        ensures closes { (new : X) × Closes X.does Check.Close self.raw out.old new }
        ensures only { IfErr result (λ e. e ≡ Error.NotHeld) }
        ensures counts { (X.faults out.old ≤ X.faults out.new) × (X.refusals out.old ≤ X.refusals out.new) }
    {
        let PoolConnectionOf {
            pool,
            client,
            id,
            created: _,
            raw,
            held,
            closes: _,
        } = self;
        close_by::<C, O, X>(Check::Close, raw, out);
        if pool.end(rt, client, id, held, me) {
            Ok(pool.keep_minimum_seen::<R, X>(rt, alloc, now, out, me))
        } else {
            Err(Error::NotHeld)
        }
    }

    /// Takes the connection out of the pool, whose place and permit are free again, and keeps the minimum.
    pub fn detach<R: Wait, X: Outside<C, O>>(
        self,
        rt: &R,
        alloc: Global,
        now: Moment,
        out: &mut X,
    ) -> (C, Openings)
        ensures raw { result.0 ≡ self.raw }
        ensures counts { (X.faults out.old ≤ X.faults out.new) × (X.refusals out.old ≤ X.refusals out.new) }
    {
        let mut me = self.pool.front();
        self.detach_seen::<R, X>(rt, alloc, now, out, &mut me)
    }

    /// As `detach`. The front of the caller goes on by the step, and by those of the minimum behind it.
    pub fn detach_seen<R: Wait, X: Outside<C, O>>(
        self,
        rt: &R,
        alloc: Global,
        now: Moment,
        out: &mut X,
        me: &mut FrontOf<C, O, S>,
    ) -> (C, Openings)
        ensures made { (left : Bool) × HasMade S.stands me.old me.new (S.does (call.Detach self.pool.shared.value.name self.client self.id left)) }
        ensures raw { result.0 ≡ self.raw }
        ensures counts { (X.faults out.old ≤ X.faults out.new) × (X.refusals out.old ≤ X.refusals out.new) }
    {
        let PoolConnectionOf {
            pool,
            client,
            id,
            created: _,
            raw,
            held,
            closes: _,
        } = self;
        let left_pool = pool.detach(rt, client, id, held, me);
        let opened = pool.keep_minimum_if::<R, X>(left_pool, rt, alloc, now, out, me);
        (raw, opened)
    }

    /// Takes the connection out of the pool, which keeps its place and its permit for good, and keeps the minimum.
    pub fn leak<R: Wait, X: Outside<C, O>>(
        self,
        rt: &R,
        alloc: Global,
        now: Moment,
        out: &mut X,
    ) -> (C, Openings)
        ensures raw { result.0 ≡ self.raw }
        ensures counts { (X.faults out.old ≤ X.faults out.new) × (X.refusals out.old ≤ X.refusals out.new) }
    {
        let mut me = self.pool.front();
        self.leak_seen::<R, X>(rt, alloc, now, out, &mut me)
    }

    /// As `leak`. The front of the caller goes on by the step, and by those of the minimum behind it.
    pub fn leak_seen<R: Wait, X: Outside<C, O>>(
        self,
        rt: &R,
        alloc: Global,
        now: Moment,
        out: &mut X,
        me: &mut FrontOf<C, O, S>,
    ) -> (C, Openings)
        ensures made { (left : Bool) × HasMade S.stands me.old me.new (S.does (call.Leak self.pool.shared.value.name self.client self.id left)) }
        ensures raw { result.0 ≡ self.raw }
        ensures counts { (X.faults out.old ≤ X.faults out.new) × (X.refusals out.old ≤ X.refusals out.new) }
    {
        let PoolConnectionOf {
            pool,
            client,
            id,
            created: _,
            raw,
            held,
            closes: _,
        } = self;
        let left_pool = pool.leak(rt, client, id, held, me);
        let opened = pool.keep_minimum_if::<R, X>(left_pool, rt, alloc, now, out, me);
        (raw, opened)
    }
}
