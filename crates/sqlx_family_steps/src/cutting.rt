//! Cutting the log of a pool.

ghost use Rattle.std.specs.Prelude.{◌≡◌, ℕ, ◌+◌, ◌^◌, ◌<◌, ◌≤◌, length, None, if◌then◌else◌};
ghost use Rattle.sqlx_pool_lists.specs.Balance.{lents};
ghost use Rattle.sqlx_pool_parts.specs.LogStart.{is_long};
ghost use Rattle.sqlx_family_steps.specs.FamilyCut.{FamilyCuts, cut_in, start_cut};

use sqlx_family::Family;
use sqlx_pool_log::PackedLog;
use sqlx_pool_parts::LogStart;

/// Leaves of a pool's log the marks that later ones still look at, and of each pool's last numbers those that are the
/// family's last: they become the log's start. It takes no memory.
#[cold]
#[inline(never)]
pub fn cut<C>(family: &Family<C>, log: &mut PackedLog, start: &mut LogStart, pool: u32)
    requires named { pool < length family.now.pools }
    requires few { start.old.lent_before + lents log.old.items < 2 ^ 64 }
    ensures marks { log.new.items ≡ cut_in family.now.shared log.old.items }
    ensures start { start.new ≡ start_cut start.old log.old.items log.new.items }
    ensures stands { FamilyCuts family.now pool }
    ensures loans { start.new.lent_before + lents log.new.items ≡ start.old.lent_before + lents log.old.items }
    ensures room { log.old.capacity + length log.new.items ≤ log.new.capacity + length log.old.items }
{
    let made = log.lents() as u64;
    let numbers = family.numbers();
    log.cut(numbers.next_ticket, numbers.next_conn);
    let left = log.lents() as u64;
    family.bounds();
    *start = LogStart {
        len: log.len(),
        lent_before: start.lent_before + (made - left),
        limit: start.limit,
    };
}
