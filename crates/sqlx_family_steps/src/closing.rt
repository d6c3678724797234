//! Closing a pool, and retiring a child.

ghost use Rattle.std.specs.Prelude.{◌≡◌, ℕ, ◌+◌, ◌<◌, ◌≤◌, ◌++◌, length};
ghost use Rattle.sqlx_pool_marks.specs.declared.mark.Mark.{Mark};
ghost use Rattle.sqlx_pool_lists.specs.Balance.{Balance, marks_due};
ghost use Rattle.sqlx_pool_lists.specs.MaintenanceSteps.{close_marks, close_answer, closed_from};
ghost use Rattle.sqlx_family.specs.Pools.{pool_in, with_pool};
ghost use Rattle.sqlx_family.specs.Permits.{retiring, settled};
ghost use Rattle.sqlx_family.specs.FamilyLogs.{FamilyLogs};

use sqlx_family::Family;
use sqlx_pool_lists::Idle;
use sqlx_pool_log::PackedLog;
use sqlx_pool_parts::record;
use std::collections::VecDeque;

/// Closes a pool, and writes its marks where no close came to it before.
pub fn close<C>(family: &mut Family<C>, log: &mut PackedLog, pool: u32) -> VecDeque<Idle<C>>
    requires named { pool < length family.old.pools }
    requires room { length log.old.items + marks_due (pool_in pool family.old) ≤ log.old.capacity }
    ensures answer { let core = pool_in pool family.old in result.items ≡ close_answer core.shut core.idle }
    ensures makes { FamilyLogs family.old pool (close_marks (pool_in pool family.old).shut result.items) family.new }
    ensures balance { let core = pool_in pool family.old in Balance core (pool_in pool family.new) (close_marks core.shut result.items) 0 0 }
    ensures becomes { let core = pool_in pool family.old in family.new ≡ with_pool pool (closed_from core.shut core) family.old }
    ensures marks { log.new.items ≡ log.old.items ++ close_marks (pool_in pool family.old).shut result.items }
    ensures capacity { log.old.capacity ≤ log.new.capacity }
{
    let shut = family.is_shut(pool);
    let idle = family.close(pool);
    record::close(log, shut, &idle);
    idle
}

/// Closes a child, as `close`, and hands its free permits to the root.
pub fn retire<C>(family: &mut Family<C>, log: &mut PackedLog, pool: u32) -> VecDeque<Idle<C>>
    requires named { pool < length family.old.pools }
    requires room { length log.old.items + marks_due (pool_in pool family.old) ≤ log.old.capacity }
    ensures answer { let core = pool_in pool family.old in result.items ≡ close_answer core.shut core.idle }
    ensures makes { FamilyLogs family.old pool (close_marks (pool_in pool family.old).shut result.items) family.new }
    ensures balance { let core = pool_in pool family.old in Balance core (pool_in pool family.new) (close_marks core.shut result.items) 0 0 }
    ensures becomes { let core = pool_in pool family.old in family.new ≡ settled pool (retiring pool (with_pool pool (closed_from core.shut core) family.old)) }
    ensures marks { log.new.items ≡ log.old.items ++ close_marks (pool_in pool family.old).shut result.items }
    ensures capacity { log.old.capacity ≤ log.new.capacity }
{
    let shut = family.is_shut(pool);
    let idle = family.retire(pool);
    record::close(log, shut, &idle);
    idle
}
