//! Applies steps on a connection of the database in memory, through its driver.
ghost use Rattle.std.specs.Prelude.{◌≡◌, ◌≤◌, ℕ, length};
ghost use Rattle.sqlx_steps.specs.Applies.{IsAtVersion, Applies};

use crate::applied::Applied;
use crate::apply::apply_on;
use crate::by_driver::ByDriver;
use crate::data_step::DataStep;
use mem_driver::{MemLink, MemStore};
use std::alloc::Global;

/// Applies the steps behind the version up to `upto`, each in a transaction. The texts that run are counted from 1 through
/// the whole call; number `refuse` is refused with Io, none for 0.
pub fn apply_steps(
    alloc: Global,
    store: MemStore,
    link: MemLink,
    steps: &[DataStep],
    upto: usize,
    refuse: u64,
) -> (MemStore, MemLink, Applied)
    requires { upto ≤ length steps.now }
    ensures { (n v : ℕ) → IsAtVersion steps.now n v store link.side → v ≤ length steps.now
        → Applies steps.now n v upto refuse result.2 result.0 result.1.side }
{
    let mut work = ByDriver::new(alloc, store, link);
    let applied = apply_on(alloc, &mut work, steps, upto, refuse);
    let (store, link) = work.into_parts();
    (store, link, applied)
}
