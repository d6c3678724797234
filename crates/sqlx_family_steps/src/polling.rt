//! The steps of a poll.

ghost use Rattle.std.specs.Prelude.{◌≡◌, ℕ, ◌+◌, ◌<◌, ◌≤◌, ◌++◌, length};
ghost use Rattle.sqlx_pool_marks.specs.declared.mark.Mark.{Mark};
ghost use Rattle.sqlx_pool_lists.specs.Balance.{Balance, marks_due};
ghost use Rattle.sqlx_pool_lists.specs.Core.{ticket_of};
ghost use Rattle.sqlx_pool_lists.specs.CoreTurn.{turn_of};
ghost use Rattle.sqlx_pool_lists.specs.PollSteps.{phase_for, judged, start_answer, start_marks, started, verdict_answer, test_marks, after_test, connect_answer, connect_marks, after_connect};
ghost use Rattle.sqlx_pool_lists.specs.PollSteps.{may_cancel, cancel_marks, cancelled};
ghost use Rattle.sqlx_pool_core.specs.Logs.{moment_of};
ghost use Rattle.sqlx_family.specs.Pools.{pool_in};
ghost use Rattle.sqlx_family.specs.RootLine.{is_entitled, granting};
ghost use Rattle.sqlx_family.specs.Permits.{stepped};
ghost use Rattle.sqlx_family.specs.FamilyLogs.{FamilyLogs};

use sqlx_family::Family;
use sqlx_pool_lists::{AfterConnect, AfterTest, Start, Tried, Verdict};
use sqlx_pool_log::PackedLog;
use sqlx_pool_marks::Mark;
use sqlx_pool_parts::answers::judged_of;
use sqlx_pool_parts::record;
use sqlx_text::Moment;

/// Begins a poll, and writes its marks.
pub fn start<C>(
    family: &mut Family<C>,
    log: &mut PackedLog,
    pool: u32,
    client: u32,
    ticket: u64,
    now: Moment,
) -> Start<C>
    requires named { pool < length family.old.pools }
    requires room { length log.old.items + marks_due (pool_in pool family.old) ≤ log.old.capacity }
    ensures answer { let core = pool_in pool family.old in result ≡ start_answer (turn_of (is_entitled pool ticket family.old) core.closed (moment_of core now) core (ticket_of client ticket core.tickets)) core.idle }
    ensures makes { FamilyLogs family.old pool (start_marks ticket (phase_for client ticket (pool_in pool family.old).tickets) result) family.new }
    ensures balance { Balance (pool_in pool family.old) (pool_in pool family.new) (start_marks ticket (phase_for client ticket (pool_in pool family.old).tickets) result) 0 0 }
    ensures becomes { let m = moment_of (pool_in pool family.old) now in let f = granting pool client ticket m family.old in family.new ≡ stepped pool (started ticket m result (pool_in pool f)) f }
    ensures marks { log.new.items ≡ log.old.items ++ start_marks ticket (phase_for client ticket (pool_in pool family.old).tickets) result }
    ensures capacity { log.old.capacity ≤ log.new.capacity }
{
    let waited = family.waits(pool, client, ticket);
    let start = family.start(pool, client, ticket, now);
    record::start(log, ticket, waited, &start);
    start
}

/// Tells what the test of an idle connection came to, and writes its marks.
pub fn finish_test<C>(
    family: &mut Family<C>,
    log: &mut PackedLog,
    pool: u32,
    client: u32,
    ticket: u64,
    verdict: Verdict<C>,
) -> AfterTest<C>
    requires named { pool < length family.old.pools }
    requires room { length log.old.items + marks_due (pool_in pool family.old) ≤ log.old.capacity }
    ensures answer { let core = pool_in pool family.old in result ≡ verdict_answer client ticket core.closed core verdict }
    ensures makes { FamilyLogs family.old pool (test_marks client ticket (judged verdict) result) family.new }
    ensures balance { Balance (pool_in pool family.old) (pool_in pool family.new) (test_marks client ticket (judged verdict) result) 0 0 }
    ensures becomes { family.new ≡ stepped pool (after_test client ticket result (pool_in pool family.old)) family.old }
    ensures marks { log.new.items ≡ log.old.items ++ test_marks client ticket (judged verdict) result }
    ensures capacity { log.old.capacity ≤ log.new.capacity }
{
    let conn = judged_of(&verdict);
    let after = family.finish_test(pool, client, ticket, verdict);
    record::test(log, client, ticket, conn, &after);
    after
}

/// Tells what a try of a connect came to, and writes its marks.
pub fn finish_connect<C>(
    family: &mut Family<C>,
    log: &mut PackedLog,
    pool: u32,
    client: u32,
    ticket: u64,
    now: Moment,
    tried: Tried<C>,
) -> AfterConnect<C>
    requires named { pool < length family.old.pools }
    requires room { length log.old.items + marks_due (pool_in pool family.old) ≤ log.old.capacity }
    ensures answer { let core = pool_in pool family.old in result ≡ connect_answer (ticket_of client ticket core.tickets) core.closed core.next_conn (moment_of core now) tried }
    ensures makes { FamilyLogs family.old pool (connect_marks client ticket (moment_of (pool_in pool family.old) now) result) family.new }
    ensures balance { let core = pool_in pool family.old in Balance core (pool_in pool family.new) (connect_marks client ticket (moment_of core now) result) 0 0 }
    ensures becomes { let core = pool_in pool family.old in family.new ≡ stepped pool (after_connect client ticket (moment_of core now) result core) family.old }
    ensures marks { log.new.items ≡ log.old.items ++ connect_marks client ticket (moment_of (pool_in pool family.old) now) result }
    ensures capacity { log.old.capacity ≤ log.new.capacity }
{
    let moment = family.moment(now);
    let after = family.finish_connect(pool, client, ticket, now, tried);
    record::connect(log, client, ticket, moment.0, &after);
    after
}

/// Ends a ticket that waits or is in backoff, and writes its mark.
pub fn cancel<C>(
    family: &mut Family<C>,
    log: &mut PackedLog,
    pool: u32,
    client: u32,
    ticket: u64,
) -> bool
    requires named { pool < length family.old.pools }
    requires room { length log.old.items + marks_due (pool_in pool family.old) ≤ log.old.capacity }
    ensures answer { result ≡ may_cancel (phase_for client ticket (pool_in pool family.old).tickets) }
    ensures makes { FamilyLogs family.old pool (cancel_marks ticket result) family.new }
    ensures balance { Balance (pool_in pool family.old) (pool_in pool family.new) (cancel_marks ticket result) 0 0 }
    ensures becomes { family.new ≡ stepped pool (cancelled ticket result (pool_in pool family.old)) family.old }
    ensures marks { log.new.items ≡ log.old.items ++ cancel_marks ticket result }
    ensures capacity { log.old.capacity ≤ log.new.capacity }
{
    let ends = family.cancel(pool, client, ticket);
    record::if_so(log, ends, Mark::Ended { ticket });
    ends
}
