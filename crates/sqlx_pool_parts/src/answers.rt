//! What the answers of steps say to the books.

ghost use Rattle.std.specs.Prelude.{◌≡◌, Bool, true, false, not, ◌&&◌, is_some};
ghost use Rattle.sqlx_pool_core.specs.Answers.{is_held};
ghost use Rattle.sqlx_pool_lists.specs.PollSteps.{judged};
ghost use Rattle.sqlx_pool_parts.specs.Answers.{lends_tested, lends_new};

use sqlx_pool_lists::{AfterConnect, AfterTest, Given, Verdict};

// The number that a verdict names.
pub fn judged_of<C>(verdict: &Verdict<C>) -> u64
    ensures { result ≡ judged verdict.now }
{
    match verdict {
        Verdict::Accepted(lent) => lent.id,
        Verdict::Refused(conn) => *conn,
    }
}

// The test lends its connection.
pub fn lends_tested<C>(after: &AfterTest<C>) -> bool
    ensures { result ≡ lends_tested after.now }
{
    match after {
        AfterTest::Ready(_) => true,
        _ => false,
    }
}

// The try lends its connection.
pub fn lends_new<C>(after: &AfterConnect<C>) -> bool
    ensures { result ≡ lends_new after.now }
{
    match after {
        AfterConnect::Ready(_) => true,
        _ => false,
    }
}

// The client owned it.
pub fn is_held<C>(given: &Given<C>) -> bool
    ensures { result ≡ is_held given.now }
{
    match given {
        Given::NotHeld(_) => false,
        _ => true,
    }
}

// A place that is used so gets a new idle connection.
pub fn opens<C>(closed: bool, raw: &Option<C>) -> bool
    ensures { result ≡ (not closed && is_some raw.now) }
{
    !closed && raw.is_some()
}
