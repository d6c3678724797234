//! The value under a pool's lock. Each step is one of the core's, and writes its marks behind the log.

ghost use Rattle.std.specs.Prelude.{◌≡◌, ℕ, ◌+◌, ◌^◌, ◌<◌, ◌≤◌, List, [], ◌∷◌, ◌++◌, IfOk, IfErr, OnOk, OnErr, length};
ghost use Rattle.sqlx_pool_marks.specs.declared.mark.Mark.{Mark};
ghost use Rattle.sqlx_pool_parts.specs.Booked.{Booked, Tallied};
ghost use Rattle.sqlx_pool_parts.specs.State.{PoolState, no_start};

mod ask;
mod cut;
mod maintenance;
mod poll;
mod questions;
mod returns;
mod turns;

use crate::{Loans, LogStart, Tally};
use sqlx_pool_core::{PoolCore, PoolOptions};
use sqlx_pool_log::PackedLog;
use sqlx_pool_parts::books::Books;
use sqlx_text::{Depth, OutOfMemory};
use std::alloc::Global;
use std::marker::Model;
use std::sync::ledger::{Blank, Ledger};

/// What is under the lock of a pool: its core, the log of all that its steps did, the options by which its connections
/// are opened, and the books of its two ledgers.
pub struct Locked<C: Depth, O, H: Ledger, L: Loans> {
    // The edge of the entitled tickets, when it was asked for last.
    edge: u64,
    books: Books<H, L>,
    log: PackedLog,
    start: LogStart,
    core: PoolCore<C>,
    connect: O,
}

impl<C: Depth + Drop, O: Drop, H: Ledger, L: Loans> Drop for Locked<C, O, H, L> {
    fn drop(self) {
        let Locked {
            core,
            log,
            start: _,
            connect,
            books,
            edge: _,
        } = self;
        drop(core);
        drop(log);
        drop(connect);
        drop(books);
    }
}

impl<C: Depth, O, H: Ledger, L: Loans> Model for Locked<C, O, H, L> {
    ghost use Rattle.sqlx_pool_parts.specs.State.{PoolState, state_of, IsKept};

    ghost Value = { PoolState C O };

    ghost view = { λ s. state_of s.core.pool s.log.items s.start s.connect s.books };

    ghost invariant = { λ s. IsKept C.levels L.max L.cuts (state_of s.core.pool s.log.items s.start s.connect s.books) s.log.capacity };
}

impl<C: Depth + Drop, O: Drop, H: Ledger, L: Loans> Locked<C, O, H, L> {
    /// A new pool, and the tally of its loans with every part. The two blanks are the ledgers of the connections that
    /// are held and of the loans.
    pub fn new(
        alloc: Global,
        options: PoolOptions,
        connect: O,
        held: Blank,
        loans: Blank,
    ) -> Result<(Self, Tally<L>), OutOfMemory>
        requires some { 1 ≤ options.max_connections }
        requires tries { (1 ≤ options.idle_tries) × (options.idle_tries ≤ 16) }
        requires max { options.max_connections ≡ L.max }
        requires held { (held.name ≡ H.name) × (held.parts ≡ H.parts) × (held.parts ≡ 2 ^ 32) }
        requires loans { (loans.name ≡ L.name) × (loans.parts ≡ L.parts) × (1 ≤ loans.parts) }
        ensures options { IfOk result (λ made. made.0.core.options ≡ options) }
        ensures connect { IfOk result (λ made. made.0.connect ≡ connect) }
        ensures marks { IfOk result (λ made. made.0.marks ≡ []) }
        ensures start { IfOk result (λ made. made.0.start ≡ no_start) }
        ensures places { IfOk result (λ made. made.0.core.places ≡ 0) }
        ensures last { IfOk result (λ made. made.0.core.last ≡ 0) }
        ensures tally { IfOk result (λ made. made.1 ≡ record { parts = L.parts; loans = 0 }) }
    {
        let core = PoolCore::new(alloc, options)?;
        let Ok(log) = PackedLog::with_capacity(alloc, core.due()) else {
            return Err(OutOfMemory);
        };
        let (books, tally) = Books::new(held, loans);
        let locked = Locked {
            core,
            log,
            start: LogStart {
                len: 0,
                lent_before: 0,
                limit: None,
            },
            connect,
            books,
            edge: 0,
        };
        Ok((locked, tally))
    }
}
