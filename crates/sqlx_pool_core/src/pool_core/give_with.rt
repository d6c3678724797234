//! A whole giving back, with the outside asked.

ghost use Rattle.std.specs.Prelude.{◌≡◌, ℕ, max};
ghost use Rattle.sqlx_pool_lists.specs.Core.{loan_of};
ghost use Rattle.sqlx_pool_core.specs.Giving.{Ends, TestsIf, GivesBack, returned_by};
ghost use Rattle.sqlx_pool_core.specs.Logs.{moment_of};
ghost use Rattle.sqlx_pool_core.specs.LonePool.{KeepsEntitled};

use super::PoolCore;
use crate::idle_check::{self, Check};
use crate::{Outside, PoolConnectionMetadata};
use sqlx_pool_lists::{Given, Lent, Returned};
use sqlx_text::Moment;

// The tests, where it comes to them.
fn tests_if<C, O, X: Outside<C, O>>(
    closes: bool,
    hook: bool,
    raw: &mut C,
    meta: PoolConnectionMetadata,
    out: &mut X,
) -> Check
    ensures { TestsIf X.does X.depth closes hook meta raw.old raw.new result out.old out.new }
{
    if closes {
        Check::Close
    } else {
        idle_check::returns::<C, O, X>(hook, raw, meta, out)
    }
}

// Closes what comes back out of the pool.
fn ends<C, O, X: Outside<C, O>>(check: Check, after: Given<C>, out: &mut X) -> Returned<C>
    ensures ends { Ends X.does X.depth check after out.old out.new }
    ensures answer { result ≡ returned_by after }
{
    match after {
        Given::Kept => Returned::Kept,
        Given::NotHeld(raw) => Returned::NotHeld(raw),
        Given::Closed(raw) => {
            match check {
                Check::CloseHard => out.close_hard(raw),
                Check::Pass => out.close(raw),
                Check::Close => out.close(raw),
            }
            Returned::Closed
        }
    }
}

impl<C> PoolCore<C> {
    /// Gives a connection back: it is put last among the idle where the pool is open, its age isn't above the
    /// lifetime, and the hook after a release, the open levels and a ping let it; else it is closed. A closed pool and
    /// the age are looked at first, and close it gently without a test, as a hook that says no does; whatever else a
    /// test finds closes it hard. A connection that the client doesn't own comes back, and nothing is asked.
    pub fn give_with<O, X: Outside<C, O>>(
        &mut self,
        client: u32,
        lent: Lent<C>,
        now: Moment,
        out: &mut X,
    ) -> Returned<C>
        ensures gives { GivesBack X.does X.depth (loan_of client lent.id self.old.pool.held) (moment_of self.old.pool now) lent self.old.pool self.new.pool out.old out.new result }
        // The edge stays, or moves once for the permit that is freed, and who was entitled stays so while it waits.
        ensures edge { KeepsEntitled self.old self.new }
    {
        let Some(loan) = self.loan(client, lent.id) else {
            return Returned::NotHeld(lent.raw);
        };
        let moment = self.moment(now);
        let closes = self.must_close(loan.created, now);
        let hook = self.options().get_after_release();
        let meta = PoolConnectionMetadata {
            age: moment.0.saturating_sub(loan.created.0),
            idle_for: 0,
        };
        let Lent {
            id,
            created,
            mut raw,
        } = lent;
        let check = tests_if::<C, O, X>(closes, hook, &mut raw, meta, out);
        let passes = matches!(check, Check::Pass);
        let after = self.give(client, Lent { id, created, raw }, now, passes);
        ends::<C, O, X>(check, after, out)
    }
}
