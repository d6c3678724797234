//! The steps that keep a pool in shape: reaping, and the connections of the minimum.

ghost use Rattle.std.specs.Prelude.{◌≡◌, ℕ, ◌+◌, ◌<◌, ◌≤◌, ◌++◌, length};
ghost use Rattle.sqlx_pool_marks.specs.declared.mark.Mark.{Mark};
ghost use Rattle.sqlx_pool_lists.specs.Balance.{Balance, marks_due};
ghost use Rattle.sqlx_pool_lists.specs.MaintenanceSteps.{reap_answer, reap_marks, reaped, handed_back, done_marks, done};
ghost use Rattle.sqlx_pool_core.specs.Logs.{moment_of};
ghost use Rattle.sqlx_family.specs.Pools.{pool_in, with_pool, counts_as_closed};
ghost use Rattle.sqlx_family.specs.RootLine.{passes_in};
ghost use Rattle.sqlx_family.specs.Permits.{stepped};
ghost use Rattle.sqlx_family.specs.FamilyLogs.{FamilyLogs};

use sqlx_family::Family;
use sqlx_pool_lists::Idle;
use sqlx_pool_log::PackedLog;
use sqlx_pool_parts::answers::opens;
use sqlx_pool_parts::record;
use sqlx_text::Moment;

/// Takes the first idle connection of a pool that is beyond a limit, and writes its mark.
pub fn reap<C>(
    family: &mut Family<C>,
    log: &mut PackedLog,
    pool: u32,
    now: Moment,
) -> Option<Idle<C>>
    requires named { pool < length family.old.pools }
    requires room { length log.old.items + marks_due (pool_in pool family.old) ≤ log.old.capacity }
    ensures answer { let core = pool_in pool family.old in result ≡ reap_answer (passes_in pool family.old) core.options (moment_of core now) core.idle }
    ensures makes { FamilyLogs family.old pool (reap_marks result) family.new }
    ensures balance { Balance (pool_in pool family.old) (pool_in pool family.new) (reap_marks result) 0 0 }
    ensures becomes { let core = pool_in pool family.old in family.new ≡ with_pool pool (reaped (moment_of core now) result core) family.old }
    ensures marks { log.new.items ≡ log.old.items ++ reap_marks result }
    ensures capacity { log.old.capacity ≤ log.new.capacity }
{
    let idle = family.reap(pool, now);
    record::reap(log, &idle);
    idle
}

/// Tells what came of the connection for which a place of a pool is held, and writes the marks of a new one.
pub fn minimum_done<C>(
    family: &mut Family<C>,
    log: &mut PackedLog,
    pool: u32,
    now: Moment,
    raw: Option<C>,
) -> Option<C>
    requires named { pool < length family.old.pools }
    requires place { 1 ≤ (pool_in pool family.old).places }
    requires room { length log.old.items + marks_due (pool_in pool family.old) ≤ log.old.capacity }
    ensures answer { result ≡ handed_back (counts_as_closed pool family.old) raw }
    ensures makes { let core = pool_in pool family.old in FamilyLogs family.old pool (done_marks core.closed core.next_conn (moment_of core now) raw) family.new }
    ensures balance { let core = pool_in pool family.old in Balance core (pool_in pool family.new) (done_marks core.closed core.next_conn (moment_of core now) raw) 0 0 }
    ensures becomes { let core = pool_in pool family.old in family.new ≡ stepped pool (done core.closed (moment_of core now) raw core) family.old }
    ensures marks { let core = pool_in pool family.old in log.new.items ≡ log.old.items ++ done_marks core.closed core.next_conn (moment_of core now) raw }
    ensures capacity { log.old.capacity ≤ log.new.capacity }
{
    let opens = opens(family.is_closed(pool), &raw);
    let conn = family.numbers().next_conn;
    let moment = family.moment(now);
    let back = family.minimum_done(pool, now, raw);
    record::open_if(log, opens, conn, moment.0);
    back
}
