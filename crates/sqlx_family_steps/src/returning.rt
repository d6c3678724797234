//! The steps that end a loan.

ghost use Rattle.std.specs.Prelude.{◌≡◌, ℕ, ◌+◌, ◌<◌, ◌≤◌, ◌++◌, is_some, length};
ghost use Rattle.sqlx_pool_marks.specs.declared.mark.Mark.{Mark};
ghost use Rattle.sqlx_pool_lists.specs.Balance.{Balance, given_back, marks_due, one_if};
ghost use Rattle.sqlx_pool_lists.specs.Core.{loan_of};
ghost use Rattle.sqlx_pool_core.specs.Logs.{moment_of};
ghost use Rattle.sqlx_pool_core.specs.ReturnSteps.{give_answer, give_marks, core_after_give, end_marks, detach_marks, leak_marks, released, leaked};
ghost use Rattle.sqlx_family.specs.Pools.{pool_in, with_pool};
ghost use Rattle.sqlx_family.specs.Permits.{stepped};
ghost use Rattle.sqlx_family.specs.FamilyLogs.{FamilyLogs};

use sqlx_family::Family;
use sqlx_pool_lists::{Given, Lent};
use sqlx_pool_log::PackedLog;
use sqlx_pool_marks::Mark;
use sqlx_pool_parts::record;
use sqlx_text::Moment;

/// Gives a connection back to its pool, and writes its mark.
pub fn give<C>(
    family: &mut Family<C>,
    log: &mut PackedLog,
    pool: u32,
    client: u32,
    lent: Lent<C>,
    now: Moment,
    accepted: bool,
) -> Given<C>
    requires named { pool < length family.old.pools }
    requires room { length log.old.items + marks_due (pool_in pool family.old) ≤ log.old.capacity }
    ensures answer { let core = pool_in pool family.old in result ≡ give_answer core.options core.closed (moment_of core now) accepted (loan_of client lent.id core.held) lent }
    ensures makes { FamilyLogs family.old pool (give_marks lent.id (moment_of (pool_in pool family.old) now) result) family.new }
    ensures balance { let core = pool_in pool family.old in Balance core (pool_in pool family.new) (give_marks lent.id (moment_of core now) result) (given_back result) 0 }
    ensures becomes { let core = pool_in pool family.old in family.new ≡ stepped pool (core_after_give (loan_of client lent.id core.held) lent (moment_of core now) result core) family.old }
    ensures marks { log.new.items ≡ log.old.items ++ give_marks lent.id (moment_of (pool_in pool family.old) now) result }
    ensures capacity { log.old.capacity ≤ log.new.capacity }
{
    let conn = lent.id;
    let moment = family.moment(now);
    let given = family.give(pool, client, lent, now, accepted);
    record::give(log, conn, moment.0, &given);
    given
}

/// Ends the loan of a connection, and writes its mark.
pub fn end<C>(family: &mut Family<C>, log: &mut PackedLog, pool: u32, client: u32, id: u64) -> bool
    requires named { pool < length family.old.pools }
    requires room { length log.old.items + marks_due (pool_in pool family.old) ≤ log.old.capacity }
    ensures answer { result ≡ is_some (loan_of client id (pool_in pool family.old).held) }
    ensures makes { FamilyLogs family.old pool (end_marks id result) family.new }
    ensures balance { Balance (pool_in pool family.old) (pool_in pool family.new) (end_marks id result) (one_if result) 0 }
    ensures becomes { family.new ≡ stepped pool (released id result (pool_in pool family.old)) family.old }
    ensures marks { log.new.items ≡ log.old.items ++ end_marks id result }
    ensures capacity { log.old.capacity ≤ log.new.capacity }
{
    let ends = family.end(pool, client, id);
    record::if_so(log, ends, Mark::Closed { conn: id });
    ends
}

/// Takes a connection out of its pool, whose permit is free again, and writes its mark.
pub fn detach<C>(
    family: &mut Family<C>,
    log: &mut PackedLog,
    pool: u32,
    client: u32,
    id: u64,
) -> bool
    requires named { pool < length family.old.pools }
    requires room { length log.old.items + marks_due (pool_in pool family.old) ≤ log.old.capacity }
    ensures answer { result ≡ is_some (loan_of client id (pool_in pool family.old).held) }
    ensures makes { FamilyLogs family.old pool (detach_marks id result) family.new }
    ensures balance { Balance (pool_in pool family.old) (pool_in pool family.new) (detach_marks id result) (one_if result) 0 }
    ensures becomes { family.new ≡ stepped pool (released id result (pool_in pool family.old)) family.old }
    ensures marks { log.new.items ≡ log.old.items ++ detach_marks id result }
    ensures capacity { log.old.capacity ≤ log.new.capacity }
{
    let ends = family.detach(pool, client, id);
    record::if_so(log, ends, Mark::Detached { conn: id });
    ends
}

/// Takes a connection out of its pool, which keeps its permit for good, and writes its mark.
pub fn leak<C>(family: &mut Family<C>, log: &mut PackedLog, pool: u32, client: u32, id: u64) -> bool
    requires named { pool < length family.old.pools }
    requires room { length log.old.items + marks_due (pool_in pool family.old) ≤ log.old.capacity }
    ensures answer { result ≡ is_some (loan_of client id (pool_in pool family.old).held) }
    ensures makes { FamilyLogs family.old pool (leak_marks id result) family.new }
    ensures balance { Balance (pool_in pool family.old) (pool_in pool family.new) (leak_marks id result) (one_if result) 0 }
    ensures becomes { family.new ≡ with_pool pool (leaked id result (pool_in pool family.old)) family.old }
    ensures marks { log.new.items ≡ log.old.items ++ leak_marks id result }
    ensures capacity { log.old.capacity ≤ log.new.capacity }
{
    let ends = family.leak(pool, client, id);
    record::if_so(log, ends, Mark::Leaked { conn: id });
    ends
}
