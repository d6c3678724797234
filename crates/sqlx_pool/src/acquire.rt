//! From what a connection may be had.

ghost use Rattle.std.specs.Prelude.{◌≡◌, ⊤, None, Ok, Result};
ghost use Rattle.sqlx_text.specs.declared.error.Error.{Error};
ghost use Rattle.sqlx_pool.specs.Acquired.{Holds, BeginsOn};

use crate::PoolConnectionOf;
use crate::steps::PoolSteps;
use sqlx_text::Error;
use sqlx_traits::Database;
use sqlx_tx::{Borrowed, Hold, Transaction};
use std::alloc::Global;

/// From what a connection may be had: one that is borrowed, as by a transaction that lends it, or one of a pool.
pub trait Acquire<DB: Database>: Sized {
    /// What holds the connection.
    type Holder: Hold<DB>;

    /// What may be acquired of it.
    ghost acquires: { Self → Result Self.Holder Error → Type 0 };

    /// The connection.
    fn acquire(self, alloc: Global) -> Result<Self::Holder, Error>
        ensures { acquires self result };

    /// A transaction on the connection. The holder comes back exactly where the begin was refused.
    final fn begin(
        self,
        alloc: Global,
    ) -> Result<Transaction<DB, Self::Holder>, (Error, Option<Self::Holder>)>
        ensures { BeginsOn DB.TransactionManager.does DB.Connection.levels DB.Connection.faults Self.Holder.held Self.Holder.holding (acquires self) result }
    {
        match self.acquire(alloc) {
            Ok(holder) => match Transaction::begin(alloc, holder, None) {
                Ok(begun) => Ok(begun),
                Err((error, holder)) => Err((error, Some(holder))),
            },
            Err(error) => Err((error, None)),
        }
    }
}

impl<'c, DB: Database> Acquire<DB> for Borrowed<'c, DB> {
    type Holder = Borrowed<'c, DB>;

    ghost acquires = { λ holder result. result ≡ Ok holder };

    fn acquire(self, _alloc: Global) -> Result<Borrowed<'c, DB>, Error> {
        Ok(self)
    }
}

impl<'c, DB: Database, S: PoolSteps<DB::Connection, DB::Options>> Acquire<DB>
    for &'c mut PoolConnectionOf<DB::Connection, DB::Options, S> {
    type Holder = Borrowed<'c, DB>;

    ghost acquires = { λ lent result. Holds lent.now.raw (λ holder. holder.0.now) result };

    fn acquire(self, _alloc: Global) -> Result<Borrowed<'c, DB>, Error> {
        Ok(Borrowed(Hold::<DB>::conn_mut(self)))
    }
}

impl<'c, 'd, DB: Database> Acquire<DB> for &'c mut Transaction<DB, Borrowed<'d, DB>> {
    type Holder = Borrowed<'c, DB>;

    ghost acquires = { λ level result. Holds level.now.0.now (λ holder. holder.0.now) result };

    fn acquire(self, _alloc: Global) -> Result<Borrowed<'c, DB>, Error> {
        Ok(Borrowed(Hold::<DB>::conn_mut(self)))
    }
}

impl<'c, DB: Database, S: PoolSteps<DB::Connection, DB::Options>> Acquire<DB>
    for &'c mut Transaction<DB, PoolConnectionOf<DB::Connection, DB::Options, S>> {
    type Holder = Borrowed<'c, DB>;

    ghost acquires = { λ level result. Holds level.now.raw (λ holder. holder.0.now) result };

    fn acquire(self, _alloc: Global) -> Result<Borrowed<'c, DB>, Error> {
        Ok(Borrowed(Hold::<DB>::conn_mut(self)))
    }
}
