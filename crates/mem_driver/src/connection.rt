//! A connection to a store that others share.
ghost use Rattle.std.specs.Prelude.{◌≡◌};

use crate::{MemSession, MemStore};
use sqlx_any::{
    Any, AnyArguments, AnyConnectionBackend, AnyRow, AnyStatement, AnyTypeInfo, Faults, FetchMany,
};
use sqlx_text::{Error, SqlStr};
use std::alloc::Global;
use std::sync::{Arc, Mutex, Wait};

/// A connection to a shared store. Its session has an empty store of its own, in whose place the
/// shared one is put while a call works on it.
pub struct SharedMemConnection<R: Wait> {
    rt: R,
    store: Arc<Mutex<MemStore>, Global>,
    session: MemSession,
}

// Its place in the store goes with it, and its levels end as rolled back.
impl<R: Wait + Drop> Drop for SharedMemConnection<R> {
    fn drop(self) {
        let SharedMemConnection { rt, store, session } = self;
        let (own, link) = session.into_parts();
        drop(own);
        link.close(&mut store.lock(&rt));
    }
}

impl<R: Wait> SharedMemConnection<R> {
    pub(crate) fn new(rt: R, store: Arc<Mutex<MemStore>, Global>, session: MemSession) -> Self
        ensures { result.session ≡ session }
    {
        SharedMemConnection { rt, store, session }
    }
}

impl<R: Wait> Faults for SharedMemConnection<R> {
    ghost faults = { λ conn. conn.session.faults };
}

impl<R: Wait + Drop> AnyConnectionBackend for SharedMemConnection<R> {
    ghost use Rattle.std.specs.Prelude.{true, codes, length};
    ghost use Rattle.mem_driver.specs.Prepared.{Prepares};
    ghost use Rattle.mem_driver.specs.Session.{depth};
    ghost use Rattle.mem_driver.specs.Shared.{Does, Runs};

    ghost called = { λ _. codes "SharedMem" };

    ghost levels = { λ conn. depth conn.session };

    ghost closes = { λ _. true };

    ghost cached = { λ conn. length conn.session.cache.entries };

    ghost runs = { λ conn text kept arguments list after. Runs conn.session text kept arguments list after.session };

    ghost does = { λ call conn outcome after. Does call conn.session outcome after.session };

    ghost prepares = { λ conn sql types result after. Prepares conn.session sql types result after.session };

    fn name(&self) -> &str {
        "SharedMem"
    }

    fn close(self) -> Result<(), Error> {
        drop(self);
        Ok(())
    }

    fn close_hard(self) -> Result<(), Error> {
        drop(self);
        Ok(())
    }

    fn ping(&mut self) -> Result<(), Error> {
        self.session.ping()
    }

    fn begin(&mut self, alloc: Global, statement: Option<SqlStr>) -> Result<(), Error> {
        let mut store = self.store.lock(&self.rt);
        self.session.swap_store(&mut store);
        let begun = self.session.begin(alloc, statement);
        self.session.swap_store(&mut store);
        begun
    }

    fn commit(&mut self, alloc: Global) -> Result<(), Error> {
        let mut store = self.store.lock(&self.rt);
        self.session.swap_store(&mut store);
        let done = self.session.commit(alloc);
        self.session.swap_store(&mut store);
        done
    }

    fn rollback(&mut self, alloc: Global) -> Result<(), Error> {
        let mut store = self.store.lock(&self.rt);
        self.session.swap_store(&mut store);
        let done = self.session.rollback(alloc);
        self.session.swap_store(&mut store);
        done
    }

    fn start_rollback(&mut self) {
        let mut store = self.store.lock(&self.rt);
        self.session.swap_store(&mut store);
        self.session.start_rollback();
        self.session.swap_store(&mut store);
    }

    fn get_transaction_depth(&self) -> usize {
        self.session.get_transaction_depth()
    }

    fn cached_statements_size(&self) -> usize {
        self.session.cached_statements_size()
    }

    fn clear_cached_statements(&mut self) -> Result<(), Error> {
        self.session.clear_cached_statements()
    }

    fn shrink_buffers(&mut self) {}

    fn flush(&mut self) -> Result<(), Error> {
        Ok(())
    }

    fn should_flush(&self) -> bool {
        false
    }

    fn fetch_many(
        &mut self,
        alloc: Global,
        query: SqlStr,
        persistent: bool,
        arguments: Option<AnyArguments>,
    ) -> FetchMany<Any<Self>> {
        let mut store = self.store.lock(&self.rt);
        self.session.swap_store(&mut store);
        let steps = self.session.fetch_many(alloc, query, persistent, arguments);
        self.session.swap_store(&mut store);
        steps
    }

    fn fetch_optional(
        &mut self,
        alloc: Global,
        query: SqlStr,
        persistent: bool,
        arguments: Option<AnyArguments>,
    ) -> Result<Option<AnyRow>, Error> {
        let mut store = self.store.lock(&self.rt);
        self.session.swap_store(&mut store);
        let row = self
            .session
            .fetch_optional(alloc, query, persistent, arguments);
        self.session.swap_store(&mut store);
        row
    }

    fn prepare_with(
        &mut self,
        alloc: Global,
        sql: SqlStr,
        parameters: &[AnyTypeInfo],
    ) -> Result<AnyStatement, Error> {
        self.session.prepare_with(alloc, sql, parameters)
    }
}
