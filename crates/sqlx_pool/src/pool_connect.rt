//! Pools by their options. In sqlx these are calls of `PoolOptions`, which here is a crate's that knows no connection.

ghost use Rattle.std.specs.Prelude.{◌≡◌, ◌⊎◌, ℕ, ◌^◌, ◌≤◌, IfErr, IfOk, None, Err};
ghost use Rattle.sqlx_text.specs.declared.error.Error.{Error};
ghost use Rattle.sqlx_pool_lists.specs.declared.options.PoolOptions.{PoolOptions};
ghost use Rattle.sqlx_traits.specs.Options.{ReadsText};
ghost use Rattle.sqlx_pool_parts.specs.Opened.{IsOpenable, IsOpenRefusal};
ghost use Rattle.url.specs.Parser.{parse_url};

use crate::steps::PoolSteps;
use crate::{BlanksOf, PoolOf};
use sqlx_pool_core::{Outside, PoolOptions};
use sqlx_text::{Depth, Error, Moment, OutOfMemory};
use sqlx_traits::ConnectOptions;
use std::alloc::Global;
use std::sync::Wait;

/// Pools by their options. Each is made with the blanks of its ledgers and its history, and comes with the tally of its
/// loans with every part.
pub trait PoolConnect: Drop + Sized {
    /// The options.
    ghost options: { Self → PoolOptions };

    /// A pool with no connection yet.
    fn connect_lazy_with<C: Depth + Drop, O: Drop, S: PoolSteps<C, O>>(
        self,
        alloc: Global,
        connect: O,
        blanks: BlanksOf<S::Stood>,
    ) -> Result<(PoolOf<C, O, S>, S::Tally), OutOfMemory>
        requires options { IsOpenable (options self) S.max }
        requires blanks { S.ledgers blanks.held.name blanks.loans.name × (blanks.opened.seen.book ≡ S.Book.book) }
        ensures options { IfOk result (λ made. made.0.shared.value.options ≡ options self) }
        ensures root { IfOk result (λ made. S.is_root made.0.shared.value.name) }
        ensures tally { IfOk result (λ made. S.Tally.counted made.1 ≡ record { parts = S.parts; loans = 0 }) };

    /// As `connect_lazy_with`, by the options of a URL.
    final fn connect_lazy<C: Depth + Drop, O: ConnectOptions + Drop, S: PoolSteps<C, O>>(
        self,
        alloc: Global,
        url: &str,
        blanks: BlanksOf<S::Stood>,
    ) -> Result<(PoolOf<C, O, S>, S::Tally), Error>
        requires options { IsOpenable (options self) S.max }
        requires blanks { S.ledgers blanks.held.name blanks.loans.name × (blanks.opened.seen.book ≡ S.Book.book) }
        ensures options { IfOk result (λ made. made.0.shared.value.options ≡ options self) }
        ensures root { IfOk result (λ made. S.is_root made.0.shared.value.name) }
        ensures tally { IfOk result (λ made. S.Tally.counted made.1 ≡ record { parts = S.parts; loans = 0 }) }
        ensures refused { IfErr result (λ e. (e ≡ Error.OutOfMemory) ⊎ ReadsText (parse_url None url.now) O.reads (Err e)) }
    {
        let connect = O::parse(alloc, url)?;
        Ok(self.connect_lazy_with::<C, O, S>(alloc, connect, blanks)?)
    }

    /// A pool that opens as many connections as its minimum, at least one and at most its maximum, one try each, and
    /// puts them among the idle. The first refusal is answered, and what was opened is closed hard.
    final fn connect_with<C: Depth + Drop, O: Drop, S: PoolSteps<C, O>, R: Wait, X: Outside<C, O>>(
        self,
        rt: &R,
        alloc: Global,
        connect: O,
        now: Moment,
        out: &mut X,
        blanks: BlanksOf<S::Stood>,
    ) -> Result<(PoolOf<C, O, S>, S::Tally), Error>
        requires options { IsOpenable (options self) S.max }
        requires blanks { S.ledgers blanks.held.name blanks.loans.name × (blanks.opened.seen.book ≡ S.Book.book) }
        ensures options { IfOk result (λ made. made.0.shared.value.options ≡ options self) }
        ensures root { IfOk result (λ made. S.is_root made.0.shared.value.name) }
        ensures tally { IfOk result (λ made. S.Tally.counted made.1 ≡ record { parts = S.parts; loans = 0 }) }
        ensures refused { IfErr result (IsOpenRefusal X.depth C.levels (X.faults out.old) (X.refusals out.old) (X.faults out.new) (X.refusals out.new)) }
    {
        let (pool, tally) = self.connect_lazy_with::<C, O, S>(alloc, connect, blanks)?;
        match pool.connect_all::<R, X>(rt, alloc, now, out) {
            Ok(()) => Ok((pool, tally)),
            Err(error) => {
                drop(pool);
                drop(tally);
                Err(error)
            }
        }
    }

    /// As `connect_with`, by the options of a URL.
    final fn connect<
        C: Depth + Drop,
        O: ConnectOptions + Drop,
        S: PoolSteps<C, O>,
        R: Wait,
        X: Outside<C, O>,
    >(
        self,
        rt: &R,
        alloc: Global,
        url: &str,
        now: Moment,
        out: &mut X,
        blanks: BlanksOf<S::Stood>,
    ) -> Result<(PoolOf<C, O, S>, S::Tally), Error>
        requires options { IsOpenable (options self) S.max }
        requires blanks { S.ledgers blanks.held.name blanks.loans.name × (blanks.opened.seen.book ≡ S.Book.book) }
        ensures options { IfOk result (λ made. made.0.shared.value.options ≡ options self) }
        ensures root { IfOk result (λ made. S.is_root made.0.shared.value.name) }
        ensures tally { IfOk result (λ made. S.Tally.counted made.1 ≡ record { parts = S.parts; loans = 0 }) }
        ensures refused { IfErr result (λ e. IsOpenRefusal X.depth C.levels (X.faults out.old) (X.refusals out.old) (X.faults out.new) (X.refusals out.new) e ⊎ ReadsText (parse_url None url.now) O.reads (Err e)) }
    {
        let connect = O::parse(alloc, url)?;
        self.connect_with::<C, O, S, R, X>(rt, alloc, connect, now, out, blanks)
    }
}

impl PoolConnect for PoolOptions {
    ghost options = { λ options. options };

    fn connect_lazy_with<C: Depth + Drop, O: Drop, S: PoolSteps<C, O>>(
        self,
        alloc: Global,
        connect: O,
        blanks: BlanksOf<S::Stood>,
    ) -> Result<(PoolOf<C, O, S>, S::Tally), OutOfMemory> {
        PoolOf::new(alloc, self, connect, blanks)
    }
}

impl<C: Depth + Drop, O: Drop, S: PoolSteps<C, O>> PoolOf<C, O, S> {
    /// As `connect_lazy_with` of `PoolOptions`, by the default options: at most 10 connections.
    pub fn connect_lazy_with(
        alloc: Global,
        connect: O,
        blanks: BlanksOf<S::Stood>,
    ) -> Result<(Self, S::Tally), OutOfMemory>
        requires max { S.max ≡ 10 }
        requires blanks { S.ledgers blanks.held.name blanks.loans.name × (blanks.opened.seen.book ≡ S.Book.book) }
        ensures root { IfOk result (λ made. S.is_root made.0.shared.value.name) }
        ensures tally { IfOk result (λ made. S.Tally.counted made.1 ≡ record { parts = S.parts; loans = 0 }) }
    {
        PoolOptions::new().connect_lazy_with::<C, O, S>(alloc, connect, blanks)
    }

    /// As `connect_with` of `PoolOptions`, by the default options: one connection is opened.
    pub fn connect_with<R: Wait, X: Outside<C, O>>(
        rt: &R,
        alloc: Global,
        connect: O,
        now: Moment,
        out: &mut X,
        blanks: BlanksOf<S::Stood>,
    ) -> Result<(Self, S::Tally), Error>
        requires max { S.max ≡ 10 }
        requires blanks { S.ledgers blanks.held.name blanks.loans.name × (blanks.opened.seen.book ≡ S.Book.book) }
        ensures root { IfOk result (λ made. S.is_root made.0.shared.value.name) }
        ensures tally { IfOk result (λ made. S.Tally.counted made.1 ≡ record { parts = S.parts; loans = 0 }) }
        ensures refused { IfErr result (IsOpenRefusal X.depth C.levels (X.faults out.old) (X.refusals out.old) (X.faults out.new) (X.refusals out.new)) }
    {
        PoolOptions::new().connect_with::<C, O, S, R, X>(rt, alloc, connect, now, out, blanks)
    }
}

impl<C: Depth + Drop, O: ConnectOptions + Drop, S: PoolSteps<C, O>> PoolOf<C, O, S> {
    /// As `connect_lazy_with`, by the options of a URL.
    pub fn connect_lazy(
        alloc: Global,
        url: &str,
        blanks: BlanksOf<S::Stood>,
    ) -> Result<(Self, S::Tally), Error>
        requires max { S.max ≡ 10 }
        requires blanks { S.ledgers blanks.held.name blanks.loans.name × (blanks.opened.seen.book ≡ S.Book.book) }
        ensures root { IfOk result (λ made. S.is_root made.0.shared.value.name) }
        ensures tally { IfOk result (λ made. S.Tally.counted made.1 ≡ record { parts = S.parts; loans = 0 }) }
        ensures refused { IfErr result (λ e. (e ≡ Error.OutOfMemory) ⊎ ReadsText (parse_url None url.now) O.reads (Err e)) }
    {
        PoolOptions::new().connect_lazy::<C, O, S>(alloc, url, blanks)
    }

    /// As `connect_with`, by the options of a URL.
    pub fn connect<R: Wait, X: Outside<C, O>>(
        rt: &R,
        alloc: Global,
        url: &str,
        now: Moment,
        out: &mut X,
        blanks: BlanksOf<S::Stood>,
    ) -> Result<(Self, S::Tally), Error>
        requires max { S.max ≡ 10 }
        requires blanks { S.ledgers blanks.held.name blanks.loans.name × (blanks.opened.seen.book ≡ S.Book.book) }
        ensures root { IfOk result (λ made. S.is_root made.0.shared.value.name) }
        ensures tally { IfOk result (λ made. S.Tally.counted made.1 ≡ record { parts = S.parts; loans = 0 }) }
        ensures refused { IfErr result (λ e. IsOpenRefusal X.depth C.levels (X.faults out.old) (X.refusals out.old) (X.faults out.new) (X.refusals out.new) e ⊎ ReadsText (parse_url None url.now) O.reads (Err e)) }
    {
        PoolOptions::new().connect::<C, O, S, R, X>(rt, alloc, url, now, out, blanks)
    }
}
