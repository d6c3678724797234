//! The database under a connection, in memory or in a file.
ghost use Rattle.std.specs.Prelude.{◌≡◌, ◌⊎◌, IfErr, IfOk, IsTrue, OnOk, not};
ghost use Rattle.sqlite.specs.Held.{state};
ghost use Rattle.sqlite.specs.Opening.{is_open_error};
ghost use Rattle.sqlite.specs.Steps.{IsEmpty, over_memory};
ghost use Rattle.sqlite.specs.declared.error.Error.{Error as Cause};
ghost use Rattle.sqlx_text.specs.declared.error.Error.{Error};
ghost use Rattle.sqlx_traits.specs.Faults.{CloseCause, OpenCause};
ghost use Rattle.sqlite_base.specs.OpenedBase.{IsFile, IsInMemory};
ghost use Rattle.sqlite_base.specs.Refusals.{IsRefusal, IsToldBy, refusal_error};
ghost use Rattle.sqlite_base.specs.Ran.{RanOn, RefusedOn, RefusesRollback, RolledBackTo, in_transaction};
ghost use Rattle.sqlite_base.specs.Closed.{HasClosed, RefusesClose};
ghost use Rattle.sqlite_base.specs.Queries.{GivesOn, RefusesQueryOn, all_taken};

use crate::refusal::{Refusal, refused};
use crate::statements::{self, Items};
use sqlite::{Connection, File, FileStore, MemStore};
use sqlx_any::AnyArguments;
use sqlx_savepoints::rollback_ansi_transaction_sql;
use sqlx_text::{Error, OutOfMemory};
use std::alloc::Global;
use std::rt::HostRuntime;

/// A database's own connection.
pub enum Base {
    /// One in memory.
    Memory(Connection<MemStore>),
    /// One in a file.
    File(Connection<FileStore<File>>),
}

// Written out, so that the crates above don't prove again how each store is dropped.
impl Drop for Base {
    fn drop(self) {
        match self {
            Base::Memory(conn) => drop(conn),
            Base::File(conn) => drop(conn),
        }
    }
}

impl Base {
    /// A new database in memory. It has a table `kv` of whole numbers.
    pub fn in_memory(alloc: Global) -> Result<Base, Error>
        ensures opened { IfOk result IsInMemory }
        ensures told { IfErr result IsRefusal }
        ensures cause { IfErr result OpenCause }
    {
        match Connection::open_in_memory(alloc) {
            Ok(conn) => with_table(alloc, conn),
            Err(_) => Err(Error::OutOfMemory),
        }
    }

    /// The database in the file at a path, which is made where it isn't there.
    pub fn open(alloc: Global, rt: &HostRuntime, path: &str) -> Result<Base, Error>
        ensures opened { IfOk result IsFile }
        ensures refused { IfErr result (λ e. (cause : Cause) × IsTrue (is_open_error cause) × IsToldBy cause e) }
    {
        match Connection::open(rt, path) {
            Ok(conn) => Ok(Base::File(conn)),
            Err(error) => Err(refused(alloc, error).error()),
        }
    }

    /// Runs a text with its arguments.
    pub fn run(
        &mut self,
        alloc: Global,
        text: &str,
        arguments: &Option<AnyArguments>,
    ) -> Result<Items, Refusal>
        ensures gave { IfOk result (λ items. GivesOn text.now (all_taken arguments.now) self.old self.new items.items) }
        ensures refused { IfErr result (λ refusal. (refusal_error refusal ≡ Error.OutOfMemory) ⊎ RefusesQueryOn text.now (all_taken arguments.now) self.old self.new (refusal_error refusal)) }
    {
        match self {
            Base::Memory(conn) => statements::run(conn, alloc, text, arguments),
            Base::File(conn) => statements::run(conn, alloc, text, arguments),
        }
    }

    /// Runs a text of a level.
    pub fn perform(&mut self, alloc: Global, text: &str) -> Result<(), Refusal>
        ensures ran { OnOk result (RanOn text.now self.old self.new) }
        ensures refused { IfErr result (λ refusal. RefusedOn text.now self.old self.new (refusal_error refusal)) }
    {
        match self {
            Base::Memory(conn) => statements::perform(conn, alloc, text),
            Base::File(conn) => statements::perform(conn, alloc, text),
        }
    }

    /// Rolls back to this depth, where the database is in a transaction at all.
    pub fn roll_back_to(&mut self, alloc: Global, depth: usize) -> Result<(), Refusal>
        ensures ran { OnOk result (RolledBackTo depth self.old self.new) }
        ensures refused { IfErr result (λ refusal. RefusesRollback depth self.old self.new (refusal_error refusal)) }
    {
        if self.is_autocommit() {
            return Ok(());
        }
        let Some(level) = depth.checked_add(1) else {
            return Err(Refusal::OutOfMemory);
        };
        match rollback_ansi_transaction_sql(alloc, level) {
            Ok(text) => self.perform(alloc, text.as_str()),
            Err(OutOfMemory) => Err(Refusal::OutOfMemory),
        }
    }

    /// Whether no transaction is open.
    pub fn is_autocommit(&self) -> bool
        ensures { result ≡ not (in_transaction self.now) }
    {
        match self {
            Base::Memory(conn) => conn.is_autocommit(),
            Base::File(conn) => conn.is_autocommit(),
        }
    }

    /// Closes it; the log beside a file is copied into it.
    pub fn close(self, alloc: Global) -> Result<(), Refusal>
        ensures closed { OnOk result (HasClosed self) }
        ensures refused { IfErr result (λ refusal. RefusesClose self (refusal_error refusal)) }
        ensures cause { IfErr result (λ refusal. CloseCause (refusal_error refusal)) }
    {
        match self {
            Base::Memory(conn) => {
                drop(conn);
                Ok(())
            }
            Base::File(conn) => close_file(alloc, conn),
        }
    }
}

#[tactic(auto, using(crate::proofs::RefusalLemmas::opens_told))]
fn with_table(alloc: Global, conn: Connection<MemStore>) -> Result<Base, Error>
    requires { IsEmpty (state over_memory conn) }
    ensures opened { IfOk result IsInMemory }
    ensures told { IfErr result IsRefusal }
    ensures cause { IfErr result OpenCause }
{
    let mut conn = conn;
    match statements::perform(
        &mut conn,
        alloc,
        "CREATE TABLE kv(k INTEGER PRIMARY KEY, v INTEGER NOT NULL)",
    ) {
        Ok(()) => Ok(Base::Memory(conn)),
        Err(refusal) => Err(refusal.error()),
    }
}

// What `Connection::close` of the crate `sqlite` does, with a contract that names what is left of the files.
fn close_file(alloc: Global, conn: Connection<FileStore<File>>) -> Result<(), Refusal>
    ensures closed { OnOk result (HasClosed (Base.File conn)) }
    ensures refused { IfErr result (λ refusal. RefusesClose (Base.File conn) (refusal_error refusal)) }
    ensures cause { IfErr result (λ refusal. CloseCause (refusal_error refusal)) }
{
    match conn.close_files() {
        Ok(files) => {
            drop(files);
            Ok(())
        }
        Err((cause, store)) => {
            drop(store);
            Err(refused(alloc, cause))
        }
    }
}
