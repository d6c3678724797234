//! What opens connections to a shared store.
ghost use Rattle.std.specs.Prelude.{◌≡◌, IfErr, IfOk};
ghost use Rattle.sqlx_traits.specs.Faults.{ConnectCause};
ghost use Rattle.mem_driver.specs.Session.{depth};
ghost use Rattle.mem_driver.specs.Shared.{IsOpened};

use crate::connection::SharedMemConnection;
use crate::{Answer, MemLink, MemSession, MemStore, SharedMem};
use sqlx_any::{AnyConnectOptions, AnyConnection, Connector, Faults};
use sqlx_text::{Error, OutOfMemory};
use std::alloc::Global;
use std::sync::{Arc, Mutex, Wait};

/// Opens connections to one store, whatever the options are.
#[derive(Drop)]
pub struct SharedMemConnector<R> {
    rt: R,
    store: Arc<Mutex<MemStore>, Global>,
}

impl<R: Copy> SharedMemConnector<R> {
    /// A connector to the store. The handle is that by which its connections wait for the lock.
    pub fn new(alloc: Global, rt: R, store: MemStore) -> Result<Self, OutOfMemory>
        ensures { IfOk result (λ made. made.rt ≡ rt) }
    {
        match Arc::new(alloc, Mutex::new(store)) {
            Ok(store) => Ok(SharedMemConnector { rt, store }),
            Err(_) => Err(OutOfMemory),
        }
    }

    /// A connector to the same store. In sqlx: `clone`.
    pub fn try_clone(&self) -> Result<Self, OutOfMemory>
        ensures { IfOk result (λ copy. copy.rt ≡ self.now.rt) }
    {
        match Arc::try_clone(&self.store) {
            Ok(store) => Ok(SharedMemConnector { rt: self.rt, store }),
            Err(_) => Err(OutOfMemory),
        }
    }
}

impl<R> Faults for SharedMemConnector<R> {
    ghost faults = { λ _. 0 };
}

impl<R: Wait + Copy + Drop> Connector<SharedMem<R>> for SharedMemConnector<R> {
    /// Opens a connection. It is refused for want of memory alone, and the connector is as it was in every case.
    fn connect(
        &mut self,
        alloc: Global,
        _options: &AnyConnectOptions,
    ) -> Result<AnyConnection<SharedMemConnection<R>>, Error>
        ensures depth { IfOk result (λ conn. depth conn.backend.session ≡ 0) }
        ensures cause { IfErr result (ConnectCause 0 0) }
        ensures memory { IfErr result (λ e. e ≡ Error.OutOfMemory) }
        ensures opened { IfOk result (λ conn. IsOpened conn.backend.session) }
        ensures same { self.new ≡ self.old }
    {
        let shared = self.try_clone()?;
        let link = MemLink::connect(alloc, &mut shared.store.lock(&shared.rt))?;
        let session = MemSession::new(MemStore::new(alloc), link, Answer::Accept);
        let SharedMemConnector { rt, store } = shared;
        Ok(AnyConnection::new(SharedMemConnection::new(rt, store, session)))
    }
}
