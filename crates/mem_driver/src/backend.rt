//! A session as a backend of `Any`.
ghost use Rattle.std.specs.Prelude.{◌≡◌, ◌≤◌, Err, Ok, IfErr, IfOk, OnErr, OnOk, Option, Some, None};
ghost use Rattle.sqlx_text.specs.declared.error.Error.{Error};
ghost use Rattle.sqlx_traits.specs.Calls as call;
ghost use Rattle.sqlx_traits.specs.Faults.{FaultCause, HasRisen};
ghost use Rattle.sqlx_traits.specs.StepList.{StepCauses};

use crate::asked::asked;
use crate::counted;
use crate::prepared::prepared;
use crate::session::MemSession;
use mem_store::{Refusal, begin_at, statement_of};
use sqlx_any::{
    Any, AnyArguments, AnyConnectionBackend, AnyRow, AnyStatement, AnyTypeInfo, Faults, Fetch,
    FetchMany, StepList,
};
use sqlx_text::{Error, OutOfMemory, SqlStr};
use std::alloc::Global;
use std::marker::Brand;
use std::sync::ledger::Blank;

impl Faults for MemSession {
    ghost faults = { λ session. session.faults };
}

impl AnyConnectionBackend for MemSession {
    ghost use Rattle.std.specs.Prelude.{true, codes, length};
    ghost use Rattle.mem_driver.specs.Backend.{Does, Runs};
    ghost use Rattle.mem_driver.specs.Prepared.{Prepares};
    ghost use Rattle.mem_driver.specs.Session.{depth};

    ghost called = { λ _. codes "Mem" };

    ghost levels = { depth };

    ghost closes = { λ _. true };

    ghost cached = { λ session. length session.cache.entries };

    ghost runs = { Runs };

    ghost does = { Does };

    ghost prepares = { Prepares };

    fn name(&self) -> &str {
        "Mem"
    }

    fn close(self) -> Result<(), Error> {
        drop(self);
        Ok(())
    }

    fn close_hard(self) -> Result<(), Error> {
        drop(self);
        Ok(())
    }

    fn ping(&mut self) -> Result<(), Error> {
        match self.work.fault() {
            Some(refusal) => {
                self.refuse();
                Err(refusal.error())
            }
            None => Ok(()),
        }
    }

    #[tactic(auto, using(crate::proofs::LevelDepths::begin_raises))]
    fn begin(&mut self, _alloc: Global, statement: Option<SqlStr>) -> Result<(), Error> {
        match statement {
            Some(statement) => self.begin_by(statement),
            None => self.level(begin_at(self.depth())),
        }
    }

    fn commit(&mut self, _alloc: Global) -> Result<(), Error> {
        counted::commit::<Brand>(self, Blank::new(1))
    }

    fn rollback(&mut self, _alloc: Global) -> Result<(), Error> {
        counted::roll_back::<Brand>(self, Blank::new(1))
    }

    fn start_rollback(&mut self) {
        self.roll_back();
    }

    fn get_transaction_depth(&self) -> usize {
        self.depth()
    }

    fn cached_statements_size(&self) -> usize {
        self.cached()
    }

    fn clear_cached_statements(&mut self) -> Result<(), Error> {
        self.forget();
        Ok(())
    }

    fn shrink_buffers(&mut self) {}

    fn flush(&mut self) -> Result<(), Error> {
        Ok(())
    }

    fn should_flush(&self) -> bool {
        false
    }

    fn fetch_many(
        &mut self,
        alloc: Global,
        query: SqlStr,
        persistent: bool,
        arguments: Option<AnyArguments>,
    ) -> FetchMany<Any<Self>> {
        let statement = statement_of(query.as_str());
        let notes = persistent && (arguments.is_some() && statement.is_some());
        let noted = self.note(query.as_str(), notes);
        let act = asked(statement, &arguments);
        drop(query);
        drop(arguments);
        match noted {
            Ok(()) => self.answer(alloc, act),
            Err(OutOfMemory) => StepList::refused(alloc, Error::OutOfMemory),
        }
    }

    fn fetch_optional(
        &mut self,
        alloc: Global,
        query: SqlStr,
        persistent: bool,
        arguments: Option<AnyArguments>,
    ) -> Result<Option<AnyRow>, Error> {
        let mut rows = Fetch::<Any<Self>>::new(self.fetch_many(
            alloc, query, persistent, arguments,
        ));
        match rows.next() {
            Some(Ok(row)) => Ok(Some(row)),
            Some(Err(error)) => Err(error),
            None => Ok(None),
        }
    }

    fn prepare_with(
        &mut self,
        alloc: Global,
        sql: SqlStr,
        _parameters: &[AnyTypeInfo],
    ) -> Result<AnyStatement, Error> {
        match statement_of(sql.as_str()) {
            Some(statement) => match prepared(alloc, sql, statement) {
                Ok(made) => Ok(made),
                Err(OutOfMemory) => Err(Error::OutOfMemory),
            },
            None => {
                drop(sql);
                self.count_fault();
                Err(Refusal::Unread.error())
            }
        }
    }
}
