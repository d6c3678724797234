//! Callers as `CALLING.md` of `mem_driver` and `mem_driver` names them, with their contracts.
ghost use Rattle.std.specs.Prelude.{◌<◌, IfOk};
ghost use Rattle.sqlx_traits.specs.Calls.{commit};
ghost use Rattle.mem_driver.specs.Backend.{Does};
ghost use Rattle.mem_driver.specs.Shared.{IsOpened};

use mem_driver::{MemSession, MemStore, SharedMemConnection, SharedMemConnector};
use sqlx_any::{
    AnyConnectOptions, AnyConnection, AnyTransactionManager, ConnectOptions, Connector,
    TransactionManager,
};
use sqlx_text::Error;
use std::alloc::Global;
use std::sync::Wait;

/// Commits the innermost level.
pub fn keep(alloc: Global, conn: &mut AnyConnection<MemSession>) -> Result<(), Error>
    requires { 0 < conn.old.backend.work.link.depth }
    ensures { Does commit conn.old.backend result conn.new.backend }
{
    AnyTransactionManager::<MemSession>::commit(alloc, conn)
}

/// Two connections to a new store.
pub fn pair<R: Wait + Copy + Drop>(
    alloc: Global,
    rt: R,
) -> Result<
    (
        AnyConnection<SharedMemConnection<R>>,
        AnyConnection<SharedMemConnection<R>>,
    ),
    Error,
>
    ensures { IfOk result (λ two. IsOpened two.0.backend.session × IsOpened two.1.backend.session) }
{
    let options = AnyConnectOptions::parse(alloc, "mem:")?;
    let mut connector = SharedMemConnector::new(alloc, rt, MemStore::new(alloc))?;
    let first = connector.connect(alloc, &options)?;
    Ok((first, connector.connect(alloc, &options)?))
}
