//! An outside of one store's connections, written for their type alone. Two of them may have a meeting at their
//! connects.

ghost use Rattle.std.specs.Prelude.{◌≡◌, IfOk, vec_len};
ghost use Rattle.sqlx_pool_core.specs.Calls as call;

use mem_driver::{MemStore, SharedMemConnection, SharedMemConnector};
use sqlx_any::{AnyConnectOptions, AnyConnection};
use sqlx_pool_core::{Outside, PoolConnectionMetadata};
use sqlx_text::{Error, OutOfMemory};
use sqlx_traits::Connector;
use std::alloc::Global;
use std::sync::atomic::{AtomicBool, Ordering};
use std::sync::{Arc, Wait};

// How often a connect looks for the other one.
const LOOKS: u32 = 20_000_000;

/// What two connects tell each other.
#[derive(Drop)]
pub struct Meeting {
    pub first: AtomicBool,
    pub second: AtomicBool,
    pub missed: AtomicBool,
}

// Whether a flag was set while it was looked at.
fn is_seen(flag: &AtomicBool) -> bool {
    for _look in 0..LOOKS {
        if flag.load(Ordering::SeqCst) {
            return true;
        }
    }
    false
}

impl Meeting {
    // Sets a flag and looks for the other one.
    fn meet(&self, is_first: bool) {
        let (mine, other) = if is_first {
            (&self.first, &self.second)
        } else {
            (&self.second, &self.first)
        };
        mine.store(true, Ordering::SeqCst);
        if !is_seen(other) {
            self.missed.store(true, Ordering::SeqCst);
        }
    }
}

/// The outside of one worker.
#[derive(Drop)]
pub struct Store<R> {
    connector: SharedMemConnector<R>,
    meeting: Option<Arc<Meeting, Global>>,
    is_first: bool,
}

impl<R: Wait + Copy + Drop> Outside<AnyConnection<SharedMemConnection<R>>, AnyConnectOptions>
    for Store<R> {
    ghost faults = { λ _. 0 };

    ghost refusals = { λ _. 0 };

    ghost depth = { λ _ _. 0 };

    ghost does = { call.Facts (λ _. 0) (λ _. 0) (λ _ _. 0) (λ _. Unit {0}) };

    fn connect(
        &mut self,
        alloc: Global,
        options: &AnyConnectOptions,
    ) -> Result<AnyConnection<SharedMemConnection<R>>, Error> {
        if let Some(meeting) = &self.meeting {
            meeting.meet(self.is_first);
        }
        match self.connector.connect(alloc, options) {
            Ok(conn) => Ok(conn),
            Err(error) => {
                drop(error);
                Err(Error::OutOfMemory)
            }
        }
    }

    fn ping(&mut self, _conn: &mut AnyConnection<SharedMemConnection<R>>) -> Result<(), Error> {
        Ok(())
    }

    fn after_connect(
        &mut self,
        _conn: &mut AnyConnection<SharedMemConnection<R>>,
        _meta: PoolConnectionMetadata,
    ) -> Result<(), Error> {
        Ok(())
    }

    fn before_acquire(
        &mut self,
        _conn: &mut AnyConnection<SharedMemConnection<R>>,
        _meta: PoolConnectionMetadata,
    ) -> Result<bool, Error> {
        Ok(true)
    }

    fn after_release(
        &mut self,
        _conn: &mut AnyConnection<SharedMemConnection<R>>,
        _meta: PoolConnectionMetadata,
    ) -> Result<bool, Error> {
        Ok(true)
    }

    fn depth(&self, _conn: &AnyConnection<SharedMemConnection<R>>) -> usize {
        0
    }

    fn close(&mut self, conn: AnyConnection<SharedMemConnection<R>>) {
        drop(conn);
    }

    fn close_hard(&mut self, conn: AnyConnection<SharedMemConnection<R>>) {
        drop(conn);
    }

    ghost facts = { λ _ _ _ h. h };
}

// One outside, with a meeting or none.
fn one<R: Wait + Copy + Drop>(
    connector: &SharedMemConnector<R>,
    meeting: Option<&Arc<Meeting, Global>>,
    is_first: bool,
) -> Result<Store<R>, OutOfMemory> {
    let connector = connector.try_clone()?;
    let meeting = match meeting {
        Some(meeting) => match Arc::try_clone(meeting) {
            Ok(meeting) => Some(meeting),
            Err(_) => return Err(OutOfMemory),
        },
        None => None,
    };
    Ok(Store {
        connector,
        meeting,
        is_first,
    })
}

/// An outside for each worker, all of one new store.
pub fn outs_of<R: Wait + Copy + Drop>(
    rt: R,
    alloc: Global,
    workers: usize,
    meeting: Option<&Arc<Meeting, Global>>,
) -> Result<Vec<Store<R>>, OutOfMemory>
    ensures { IfOk result (λ outs. vec_len outs ≡ workers) }
{
    let connector = SharedMemConnector::new(alloc, rt, MemStore::new(alloc))?;
    let Ok(mut outs) = Vec::with_capacity(alloc, workers) else {
        return Err(OutOfMemory);
    };
    for at in 0..workers {
        outs.push_reserved(one(&connector, meeting, at == 0)?);
    }
    Ok(outs)
}
