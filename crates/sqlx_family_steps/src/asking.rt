//! Asking, and lending past the line.

ghost use Rattle.std.specs.Prelude.{◌≡◌, ℕ, ◌+◌, ◌^◌, ◌<◌, ◌≤◌, ◌⊎◌, ◌++◌, true, false, None, Some, is_some, IfSome, length};
ghost use Rattle.sqlx_pool_marks.specs.declared.mark.Mark.{Mark};
ghost use Rattle.sqlx_pool_lists.specs.Balance.{Balance, ask_room, marks_due};
ghost use Rattle.sqlx_pool_lists.specs.PollSteps.{asked_marks, try_lent, try_marks, after_try};
ghost use Rattle.sqlx_pool_core.specs.Logs.{moment_of};
ghost use Rattle.sqlx_family.specs.Pools.{pool_in, with_pool, counts_as_closed};
ghost use Rattle.sqlx_family.specs.RootLine.{passes_in};
ghost use Rattle.sqlx_family.specs.FamilyLogs.{FamilyLogs};
ghost use Rattle.sqlx_family_steps.specs.FamilySteps.{core_after_ask};

use sqlx_family::Family;
use sqlx_pool_lists::Lent;
use sqlx_pool_log::PackedLog;
use sqlx_pool_parts::record;
use sqlx_text::Moment;
use std::alloc::Global;

// How many marks a loan past the line may lead to.
const TRY_ROOM: usize = 4;

/// Reserves memory for the marks that are due in a pool, and for these many more: false where there is none.
pub fn reserve<C>(family: &Family<C>, log: &mut PackedLog, pool: u32, more: usize) -> bool
    requires named { pool < length family.now.pools }
    requires room { length log.old.items + marks_due (pool_in pool family.now) ≤ log.old.capacity }
    requires few { more < 2 ^ 40 }
    ensures marks { log.new.items ≡ log.old.items }
    ensures room { result ≡ true → length log.old.items + marks_due (pool_in pool family.now) + more ≤ log.new.capacity }
    ensures capacity { log.old.capacity ≤ log.new.capacity }
{
    log.reserve(family.due(pool), more)
}

/// Asks a pool that is open, where numbers are left, and writes the mark. None where there is no memory.
pub fn ask<C>(
    family: &mut Family<C>,
    log: &mut PackedLog,
    pool: u32,
    alloc: Global,
    now: Moment,
    client: u32,
) -> Option<u64>
    requires named { pool < length family.old.pools }
    requires open { counts_as_closed pool family.old ≡ false }
    requires few { family.old.shared.next_ticket ≤ 2 ^ 63 }
    requires room { length log.old.items + marks_due (pool_in pool family.old) ≤ log.old.capacity }
    ensures numbered { IfSome result (λ ticket. ticket ≡ family.old.shared.next_ticket) }
    ensures makes { let core = pool_in pool family.old in IfSome result (λ ticket. FamilyLogs family.old pool (asked_marks core client (moment_of core now) ticket) family.new) }
    ensures balance { let core = pool_in pool family.old in IfSome result (λ t. Balance core (pool_in pool family.new) (asked_marks core client (moment_of core now) t) 0 (ask_room core.options.idle_tries)) }
    ensures becomes { let core = pool_in pool family.old in is_some result ≡ true → family.new ≡ with_pool pool (core_after_ask client (moment_of core now) core) family.old }
    ensures marks { let core = pool_in pool family.old in IfSome result (λ ticket. log.new.items ≡ log.old.items ++ asked_marks core client (moment_of core now) ticket) }
    ensures room { let core = pool_in pool family.old in is_some result ≡ true → length log.old.items + marks_due core + ask_room core.options.idle_tries ≤ log.new.capacity }
    ensures none { result ≡ None → log.new.items ≡ log.old.items }
    ensures heard { let f = family.old in result ≡ None → (family.new ≡ f) ⊎ (family.new ≡ with_pool pool (pool_in pool f) f) }
    ensures capacity { log.old.capacity ≤ log.new.capacity }
{
    // A whole loan with all its tests, and the end of the connection that it keeps.
    let room = 7 + 2 * family.options(pool).get_idle_tries() as usize;
    if !reserve(family, log, pool, room) {
        return None;
    }
    let asked_at = family.moment(now).0;
    let timeout = family.options(pool).get_acquire_timeout();
    match family.ask(pool, alloc, now, client) {
        Ok(ticket) => {
            log.ask(client, ticket, asked_at, timeout);
            Some(ticket)
        }
        Err(error) => {
            drop(error);
            None
        }
    }
}

/// Lends past the line where that may be, and writes the marks. None, and nothing changes, where there is no memory.
pub fn lend_past<C>(
    family: &mut Family<C>,
    log: &mut PackedLog,
    pool: u32,
    now: Moment,
    client: u32,
) -> Option<Lent<C>>
    requires named { pool < length family.old.pools }
    requires may { is_some (try_lent (passes_in pool family.old) (pool_in pool family.old).idle) ≡ true }
    requires room { length log.old.items + marks_due (pool_in pool family.old) ≤ log.old.capacity }
    ensures first { IfSome result (λ lent. Some lent ≡ try_lent (passes_in pool family.old) (pool_in pool family.old).idle) }
    ensures makes { IfSome result (λ lent. FamilyLogs family.old pool (try_marks client (Some lent)) family.new) }
    ensures balance { IfSome result (λ lent. Balance (pool_in pool family.old) (pool_in pool family.new) (try_marks client (Some lent)) 0 4) }
    ensures becomes { let core = pool_in pool family.old in IfSome result (λ lent. family.new ≡ with_pool pool (after_try client (moment_of core now) (Some lent) core) family.old) }
    ensures none { result ≡ None → family.new ≡ family.old }
    ensures marks { log.new.items ≡ log.old.items ++ try_marks client result }
    ensures room { is_some result ≡ true → length log.old.items + marks_due (pool_in pool family.old) + 4 ≤ log.new.capacity }
    ensures capacity { log.old.capacity ≤ log.new.capacity }
{
    if !reserve(family, log, pool, TRY_ROOM) {
        return None;
    }
    match family.try_acquire(pool, now, client) {
        Some(lent) => {
            record::lend_past(log, client, lent.id);
            Some(lent)
        }
        None => unreachable!(),
    }
}
