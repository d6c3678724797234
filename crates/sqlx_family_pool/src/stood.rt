//! The states of a family, as they stand in its history.

use crate::LockedFamily;
use sqlx_family::Family;
use sqlx_pool::{Loans, LogStart};
use sqlx_pool_history::{Chained, Stands};
use sqlx_pool_log::PackedLog;
use sqlx_text::Depth;
use std::marker::Model;
use std::sync::ledger::Ledger;

/// A state in which a family stood. It is what contracts see of `LockedFamily`, without the names of its ledgers; no value
/// of it is made when it runs.
pub struct FamilyStood<C: Depth, O> {
    family: Family<C>,
    logs: Vec<PackedLog>,
    starts: Vec<LogStart>,
    connect: O,
    owned: u64,
    made: u64,
}

impl<C: Depth, O> Model for FamilyStood<C, O> {
    ghost use Rattle.std.specs.Prelude.{map};
    ghost use Rattle.sqlx_pool_log.specs.PackedLog.{marks_of};
    ghost use Rattle.sqlx_family_pool.specs.FamilyState.{FamilyState, family_state};

    ghost Value = { FamilyState C O };

    ghost view = { λ s. family_state s.family (map marks_of s.logs.items) s.starts.items s.connect (record { owned = s.owned; made = s.made }) };
}

/// Each pool's log goes on, or is cut.
impl<C: Depth, O> Chained for FamilyStood<C, O> {
    ghost use Rattle.sqlx_family_pool.specs.Steps.{GoesOn};

    ghost follows = { GoesOn };
}

impl<C: Depth, O, H: Ledger, L: Loans> Stands<FamilyStood<C, O>> for LockedFamily<C, O, H, L> {
    ghost state = { λ locked. locked };
}
