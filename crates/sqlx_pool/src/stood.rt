//! The states of a pool, as they stand in its history.

use crate::steps::PoolSteps;
use crate::{Loans, Locked, LogStart};
use sqlx_pool_core::{Mark, PoolCore};
use sqlx_pool_history::{Chained, Front, Stands};
use sqlx_text::Depth;
use std::marker::Model;
use std::sync::ledger::Ledger;

/// A state in which a pool stood. It is what contracts see of `Locked`, without the names of its ledgers; no value of it
/// is made when it runs.
pub struct Stood<C: Depth, O> {
    core: PoolCore<C>,
    log: Vec<Mark>,
    start: LogStart,
    connect: O,
    owned: u64,
    made: u64,
}

impl<C: Depth, O> Model for Stood<C, O> {
    ghost use Rattle.sqlx_pool_parts.specs.State.{PoolState, state_of};

    ghost Value = { PoolState C O };

    ghost view = { λ s. state_of s.core.pool s.log.items s.start s.connect (record { owned = s.owned; made = s.made }) };
}

/// A pool's log goes on, or is cut.
impl<C: Depth, O> Chained for Stood<C, O> {
    ghost use Rattle.sqlx_pool.specs.Steps.{GoesOn};

    ghost follows = { GoesOn };
}

impl<C: Depth, O, H: Ledger, L: Loans> Stands<Stood<C, O>> for Locked<C, O, H, L> {
    ghost state = { λ locked. locked };
}

/// What a caller has seen of a pool, or of its family: the states up to one in which it stood. It takes eight bytes, and
/// no memory.
pub type FrontOf<C, O, S> = Front<<S as PoolSteps<C, O>>::Stood, <S as PoolSteps<C, O>>::Book>;
