//! The value under the lock of a family. Each step is one of the family's, and writes its marks behind one pool's log.

ghost use Rattle.std.specs.Prelude.{◌≡◌, ℕ, ◌+◌, ◌-◌, ◌^◌, ◌<◌, ◌≤◌, ◌↔◌, ◌⊎◌, List, [], ◌∷◌, ◌++◌, Err, IfOk, IfErr, OnOk, OnErr, length};
ghost use Rattle.sqlx_text.specs.declared.error.Error.{Error};
ghost use Rattle.sqlx_pool_marks.specs.declared.mark.Mark.{Mark};
ghost use Rattle.sqlx_family.specs.Pools.{new_family, with_child};
ghost use Rattle.sqlx_pool_parts.specs.Booked.{Booked, Tallied};
ghost use Rattle.sqlx_pool_parts.specs.State.{no_start};
ghost use Rattle.sqlx_family_pool.specs.FamilyState.{FamilyState};

mod ask;
mod closing;
mod cut;
mod maintenance;
mod poll;
mod questions;
mod returns;

use sqlx_family::Family;
use sqlx_pool::{Loans, Tally};
use sqlx_pool_core::PoolOptions;
use sqlx_pool_log::PackedLog;
use sqlx_pool_parts::LogStart;
use sqlx_pool_parts::books::Books;
use sqlx_text::{Depth, Error, OutOfMemory};
use std::alloc::Global;
use std::marker::Model;
use std::sync::ledger::{Blank, Ledger};

// So many pools have a name.
const POOLS: usize = (1 << 32) - 1;

// Where a log begins that was never cut, and for which no limit is set.
const UNCUT: LogStart = LogStart {
    len: 0,
    lent_before: 0,
    limit: None,
};

/// What is under the lock of a family: its pools, a log for each of all that its steps did and where that log begins, the
/// options by which connections are opened, and the books of two ledgers, which count all pools.
pub struct LockedFamily<C: Depth, O, H: Ledger, L: Loans> {
    family: Family<C>,
    logs: Vec<PackedLog>,
    starts: Vec<LogStart>,
    connect: O,
    books: Books<H, L>,
    // What the answer of a close is made by that has no idle connection.
    alloc: Global,
}

impl<C: Depth + Drop, O: Drop, H: Ledger, L: Loans> Drop for LockedFamily<C, O, H, L> {
    fn drop(self) {
        let LockedFamily {
            family,
            logs,
            starts,
            connect,
            books,
            alloc: _,
        } = self;
        drop(family);
        drop(logs);
        drop(starts);
        drop(connect);
        drop(books);
    }
}

impl<C: Depth, O, H: Ledger, L: Loans> Model for LockedFamily<C, O, H, L> {
    ghost use Rattle.std.specs.Prelude.{map};
    ghost use Rattle.sqlx_pool_log.specs.PackedLog.{marks_of, room_of};
    ghost use Rattle.sqlx_family_pool.specs.FamilyState.{FamilyState, family_state, IsKept};

    ghost Value = { FamilyState C O };

    ghost view = { λ s. family_state s.family (map marks_of s.logs.items) s.starts.items s.connect s.books };

    ghost invariant = { λ s. IsKept C.levels L.max L.cuts (family_state s.family (map marks_of s.logs.items) s.starts.items s.connect s.books) (map room_of s.logs.items) };
}

impl<C: Depth + Drop, O: Drop, H: Ledger, L: Loans> LockedFamily<C, O, H, L> {
    /// A family of one root, whose name is 0, and the tally of its loans with every part. The two blanks are the ledgers
    /// of the connections that are held and of the loans, in whichever pool.
    pub fn new(
        alloc: Global,
        options: PoolOptions,
        connect: O,
        held: Blank,
        loans: Blank,
    ) -> Result<(Self, Tally<L>), OutOfMemory>
        requires some { 1 ≤ options.max_connections }
        requires tries { (1 ≤ options.idle_tries) × (options.idle_tries ≤ 16) }
        requires max { options.max_connections ≡ L.max }
        requires held { (held.name ≡ H.name) × (held.parts ≡ H.parts) × (held.parts ≡ 2 ^ 32) }
        requires loans { (loans.name ≡ L.name) × (loans.parts ≡ L.parts) × (1 ≤ loans.parts) }
        ensures family { IfOk result (λ made. made.0.family ≡ new_family options) }
        ensures logs { IfOk result (λ made. made.0.logs ≡ [] ∷ []) }
        ensures starts { IfOk result (λ made. made.0.starts ≡ no_start ∷ []) }
        ensures connect { IfOk result (λ made. made.0.connect ≡ connect) }
        ensures tally { IfOk result (λ made. made.1 ≡ record { parts = L.parts; loans = 0 }) }
    {
        let family = Family::root(alloc, options)?;
        let Ok(mut logs) = Vec::with_capacity(alloc, 1) else {
            return Err(OutOfMemory);
        };
        let Ok(mut starts) = Vec::with_capacity(alloc, 1) else {
            return Err(OutOfMemory);
        };
        let Ok(log) = PackedLog::with_capacity(alloc, family.due(0)) else {
            return Err(OutOfMemory);
        };
        logs.push_reserved(log);
        starts.push_reserved(UNCUT);
        let (books, tally) = Books::new(held, loans);
        let locked = LockedFamily {
            family,
            logs,
            starts,
            connect,
            books,
            alloc,
        };
        Ok((locked, tally))
    }

    /// Adds a child, which owns no permit yet, with an empty log; its name comes back. It is `Exhausted` where 2^32 - 1
    /// pools are there.
    pub fn child(&mut self, alloc: Global, options: PoolOptions) -> Result<u32, Error>
        requires some { 1 ≤ options.max_connections }
        requires tries { (1 ≤ options.idle_tries) × (options.idle_tries ≤ 16) }
        requires fits { options.max_connections ≤ L.max }
        ensures name { IfOk result (λ q. q ≡ length self.old.family.pools) }
        ensures later { IfOk result (λ q. 1 ≤ q) }
        ensures exhausted { (result ≡ Err Error.Exhausted) ↔ (length self.old.family.pools ≡ 2 ^ 32 - 1) }
        ensures causes { IfErr result (λ e. (e ≡ Error.Exhausted) ⊎ (e ≡ Error.OutOfMemory)) }
        ensures family { OnOk result (self.new.family ≡ with_child options self.old.family) }
        ensures logs { OnOk result (self.new.logs ≡ self.old.logs ++ [] ∷ []) }
        ensures starts { OnOk result (self.new.starts ≡ self.old.starts ++ no_start ∷ []) }
        ensures connect { self.new.connect ≡ self.old.connect }
        ensures err { OnErr result (self.new ≡ self.old) }
    {
        if self.family.num_pools() == POOLS {
            return Err(Error::Exhausted);
        }
        let Ok(()) = self.logs.reserve(1) else {
            return Err(Error::OutOfMemory);
        };
        let Ok(()) = self.starts.reserve(1) else {
            return Err(Error::OutOfMemory);
        };
        let Ok(log) = PackedLog::with_capacity(alloc, 1) else {
            return Err(Error::OutOfMemory);
        };
        self.family.bounds();
        let name = self.family.add_child(options)?;
        self.logs.push_reserved(log);
        self.starts.push_reserved(UNCUT);
        Ok(name)
    }
}
