//! A level of a connection's transactions, as a value that has to be spent.
ghost use Rattle.std.specs.Prelude.{◌≡◌, ◌-◌, ◌<◌, ◌≤◌, Err, IfErr, IsSome, Ok};
ghost use Rattle.sqlx_text.specs.declared.error.Error.{Error};
ghost use Rattle.sqlx_traits.specs.Calls as call;
ghost use Rattle.sqlx_traits.specs.Faults.{BeginCause, FaultCause};
ghost use Rattle.sqlx_tx.specs.Begun.{ending, holder_of, levels_after, outcome_of};

use crate::Hold;
use crate::calls::is_in_transaction;
use sqlx_text::{Error, SqlStr};
use sqlx_traits::{Database, TransactionManager};
use std::alloc::Global;
use std::marker::{Model, PhantomData};

/// A level of a connection's transactions, with what holds the connection. It ends by `commit`, `rollback` or
/// `give_up`, or stays open by `keep_open`; it can't be let go otherwise.
pub struct Transaction<DB: Database, H: Hold<DB>> {
    holder: H,
    of: PhantomData<DB>,
}

impl<DB: Database, H: Hold<DB>> Model for Transaction<DB, H> {
    ghost Value = { H };

    ghost view = { λ transaction. transaction.holder };
}

impl<DB: Database, H: Hold<DB>> Hold<DB> for Transaction<DB, H> {
    ghost held = { λ transaction. H.held transaction };

    ghost holding = { λ transaction conn. H.holding transaction conn };

    ghost puts = { λ transaction conn. H.puts transaction conn };

    ghost keeps = { λ transaction. H.keeps transaction };

    ghost again = { λ transaction first second. H.again transaction first second };

    fn conn(&self) -> &DB::Connection {
        self.holder.conn()
    }

    fn conn_mut(&mut self) -> &mut DB::Connection {
        self.holder.conn_mut()
    }
}

impl<DB: Database, H: Hold<DB>> Transaction<DB, H> {
    /// Opens a level on the connection that is held: by the statement where one is given, which is refused
    /// inside of a transaction. A refused one hands the holder back, with as many levels as before.
    pub fn begin(alloc: Global, holder: H, statement: Option<SqlStr>) -> Result<Self, (Error, H)>
        ensures held { holder_of result ≡ H.holding holder (H.held (holder_of result)) }
        ensures levels { DB.Connection.levels (H.held (holder_of result)) ≡ levels_after (DB.Connection.levels (H.held holder)) (outcome_of result) }
        ensures does { DB.TransactionManager.does (call.begin statement) (H.held holder) (outcome_of result) (H.held (holder_of result)) }
        ensures custom_inside { IsSome statement → 0 < DB.Connection.levels (H.held holder) → result ≡ Err (Error.InvalidSavePointStatement, holder) }
        ensures only_inside { outcome_of result ≡ Err Error.InvalidSavePointStatement → IsSome statement × (0 < DB.Connection.levels (H.held holder)) }
        ensures only_custom { outcome_of result ≡ Err Error.BeginFailed → IsSome statement × (DB.Connection.levels (H.held holder) ≡ 0) }
        ensures rises { DB.Connection.faults (H.held holder) ≤ DB.Connection.faults (H.held (holder_of result)) }
        ensures cause { IfErr (outcome_of result) (BeginCause (DB.Connection.faults (H.held holder)) (DB.Connection.faults (H.held (holder_of result)))) }
    {
        let mut holder = holder;
        match DB::TransactionManager::begin(alloc, holder.conn_mut(), statement) {
            Ok(()) => Ok(Transaction::adopt(holder)),
            Err(error) => Err((error, holder)),
        }
    }

    /// Ends the level and keeps what it wrote. A refused one ends it as rolled back.
    pub fn commit(self, alloc: Global) -> (H, Result<(), Error>)
        requires { 0 < DB.Connection.levels (H.held self) }
        ensures held { result.0 ≡ H.holding self (H.held result.0) }
        ensures levels { DB.Connection.levels (H.held result.0) ≡ DB.Connection.levels (H.held self) - 1 }
        ensures does { DB.TransactionManager.does call.commit (H.held self) result.1 (H.held result.0) }
        ensures rises { DB.Connection.faults (H.held self) ≤ DB.Connection.faults (H.held result.0) }
        ensures cause { IfErr result.1 (FaultCause (DB.Connection.faults (H.held self)) (DB.Connection.faults (H.held result.0))) }
    {
        let mut holder = self.take_apart();
        let answer = DB::TransactionManager::commit(alloc, holder.conn_mut());
        (holder, answer)
    }

    /// Ends the level and undoes what it wrote, also where it is refused.
    pub fn rollback(self, alloc: Global) -> (H, Result<(), Error>)
        requires { 0 < DB.Connection.levels (H.held self) }
        ensures held { result.0 ≡ H.holding self (H.held result.0) }
        ensures levels { DB.Connection.levels (H.held result.0) ≡ DB.Connection.levels (H.held self) - 1 }
        ensures does { DB.TransactionManager.does call.rollback (H.held self) result.1 (H.held result.0) }
        ensures rises { DB.Connection.faults (H.held self) ≤ DB.Connection.faults (H.held result.0) }
        ensures cause { IfErr result.1 (FaultCause (DB.Connection.faults (H.held self)) (DB.Connection.faults (H.held result.0))) }
    {
        let mut holder = self.take_apart();
        let answer = DB::TransactionManager::rollback(alloc, holder.conn_mut());
        (holder, answer)
    }

    /// Ends the level where one is open: as `commit` does where it is to be kept, and else as `rollback` does. Where a
    /// text that ran in it has ended all levels, nothing is done.
    pub fn end(self, alloc: Global, keep: bool) -> (H, Result<(), Error>)
        ensures held { result.0 ≡ H.holding self (H.held result.0) }
        ensures levels { DB.Connection.levels (H.held result.0) ≡ DB.Connection.levels (H.held self) - 1 }
        ensures none { DB.Connection.levels (H.held self) ≡ 0 → (result.0 ≡ self) × (result.1 ≡ Ok tt) }
        ensures does { 0 < DB.Connection.levels (H.held self) → DB.TransactionManager.does (ending keep) (H.held self) result.1 (H.held result.0) }
        ensures rises { DB.Connection.faults (H.held self) ≤ DB.Connection.faults (H.held result.0) }
        ensures cause { IfErr result.1 (FaultCause (DB.Connection.faults (H.held self)) (DB.Connection.faults (H.held result.0))) }
    {
        if !is_in_transaction::<DB>(self.as_ref()) {
            (self.into_holder(), Ok(()))
        } else if keep {
            self.commit(alloc)
        } else {
            self.rollback(alloc)
        }
    }

    /// Leaves the level, which is rolled back. It can't be refused. In sqlx: the drop of a `Transaction`.
    pub fn give_up(self) -> H
        requires { 0 < DB.Connection.levels (H.held self) }
        ensures held { result ≡ H.holding self (H.held result) }
        ensures levels { DB.Connection.levels (H.held result) ≡ DB.Connection.levels (H.held self) - 1 }
        ensures does { DB.TransactionManager.does call.start_rollback (H.held self) (Ok tt) (H.held result) }
        ensures rises { DB.Connection.faults (H.held self) ≤ DB.Connection.faults (H.held result) }
    {
        let mut holder = self.take_apart();
        DB::TransactionManager::start_rollback(holder.conn_mut());
        holder
    }

    /// Hands back what holds the connection, with the level open.
    pub fn keep_open(self) -> H
        requires { 0 < DB.Connection.levels (H.held self) }
        ensures { result ≡ self }
    {
        self.take_apart()
    }

    /// Takes up a level that is open, as one that was kept open.
    pub fn adopt(holder: H) -> Self
        requires { 0 < DB.Connection.levels (H.held holder) }
        ensures { result ≡ holder }
    {
        Transaction {
            holder,
            of: PhantomData,
        }
    }

    /// Hands back what holds the connection where no level is open any more, as after a text that ended all of them.
    pub fn into_holder(self) -> H
        requires { DB.Connection.levels (H.held self) ≡ 0 }
        ensures { result ≡ self }
    {
        let Transaction { holder, of: _ } = self;
        holder
    }

    fn take_apart(self) -> H
        ensures { result ≡ self }
    {
        let Transaction { holder, of: _ } = self;
        holder
    }
}
