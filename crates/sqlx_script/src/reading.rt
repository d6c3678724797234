//! What the first line of a text says.
ghost use Rattle.std.specs.Prelude.{◌≡◌, ◌<◌, ◌≤◌, ◌^◌, IfSome, true, length};
ghost use Rattle.sqlx_script.specs.Built.{has_few_opens};
ghost use Rattle.sqlx_script.specs.Grammar.{at_moment, step_of, event_words, event_of, limits_after, pool_words, pool_of};
ghost use Rattle.sqlx_script.specs.Names.{text_of};
ghost use Rattle.sqlx_lines.specs.Words.{has_newline as has_newline_spec, first_line, behind_line, words_in_front};
ghost use Rattle.sqlx_lines.specs.Rows.{with_behind};
ghost use Rattle.sqlx_lines.specs.FirstLine.{told};

use crate::names::Name;
use crate::pool_line::PoolLine;
use crate::step::Event;
use crate::{fields, kinds};
use sqlx_lines::{FirstLine, NANOS, Words, has_newline};

// What follows the moment, which is so many milliseconds.
#[inline(always)]
#[tactic(auto, unfolding(crate::specs::Grammar::step_of, crate::specs::Grammar::statement_of))]
fn event(name: Name, words: Words<'_>, ms: u64, counts_tests: bool) -> Option<FirstLine<'_, Event>>
    requires { ms < 2 ^ 40 }
    ensures { told result ≡ with_behind words.entry.behind (at_moment ms (step_of counts_tests (text_of name) words.entry.words)) }
{
    match name {
        Name::Ask => fields::ask(words, ms),
        Name::Poll => fields::poll(words, ms, counts_tests),
        Name::Cancel => fields::cancel(words, ms),
        Name::Try => fields::try_idle(words, ms),
        Name::Give => fields::give(words, ms),
        Name::End => fields::end(words, ms),
        Name::Detach => fields::detach(words, ms),
        Name::Leak => fields::leak(words, ms),
        Name::Reap => fields::reap(words, ms),
        Name::Min => fields::min(words, ms),
        Name::CloseState => fields::close_state(words, ms),
        Name::Close => fields::close(words, ms),
        Name::Begin => fields::begin(words, ms),
        Name::Custom => fields::custom(words, ms),
        Name::Put => fields::put(words, ms),
        Name::Del => fields::del(words, ms),
        Name::Get => fields::get(words, ms),
        Name::Commit => fields::commit(words, ms),
        Name::Rollback => fields::rollback(words, ms),
        Name::GiveUp => fields::give_up(words, ms),
    }
}

// What the first line of a text that has a newline says, if it is an event.
#[inline(always)]
#[tactic(auto, using(sqlx_lines::proofs::Rows::reads), unfolding(crate::specs::Grammar::event_words))]
fn event_in_front(text: &[u8], counts_tests: bool) -> Option<FirstLine<'_, Event>>
    requires { has_newline_spec text.now ≡ true }
    ensures { told result ≡ with_behind (behind_line text.now) (event_words counts_tests (words_in_front text.now)) }
{
    let (name, mut words) = kinds::behind_name(text)?;
    let ms = words.millis()?;
    event(name, words, ms, counts_tests)
}

/// What the first line of a text says, if it is an event; `counts_tests` is what the first line of the script says.
#[inline(always)]
pub fn read_event(text: &[u8], counts_tests: bool) -> Option<FirstLine<'_, Event>>
    ensures says { told result ≡ with_behind (behind_line text.now) (event_of counts_tests (first_line text.now)) }
    ensures few { IfSome result (λ line. has_few_opens line.says.step ≡ true) }
    ensures shorter { IfSome result (λ line. length line.behind.now < length text.now) }
{
    if has_newline(text) {
        event_in_front(text, counts_tests)
    } else {
        None
    }
}

// How old connections may grow, what is asked of them and how many are tested, and these maximum, minimum and nanoseconds to wait.
#[tactic(auto, using(sqlx_lines::proofs::Rows::reads), unfolding(crate::specs::Grammar::limits_after))]
fn limits<'a>(
    words: &mut Words<'a>,
    counts_tests: bool,
    max: u32,
    min: u32,
    timeout: u64,
) -> Option<FirstLine<'a, PoolLine>>
    ensures says { told result ≡ with_behind words.old.behind (limits_after counts_tests max min timeout words.old.words) }
    ensures max { IfSome result (λ line. line.says.max ≡ max) }
    ensures tries { IfSome result (λ line. (1 ≤ line.says.tries) × (line.says.tries ≤ 16)) }
{
    let lifetime = kinds::limit_nanos(words)?;
    let idle = kinds::limit_nanos(words)?;
    let on = kinds::switches(words)?;
    let tries = if counts_tests {
        kinds::tries(words)?
    } else {
        1
    };
    words.finish(PoolLine {
        max,
        min,
        timeout,
        lifetime,
        idle,
        test_before_acquire: on.test_before_acquire,
        after_connect: on.after_connect,
        before_acquire: on.before_acquire,
        after_release: on.after_release,
        tries,
        counts_tests,
    })
}

// What the first line of a text that has a newline says, if it is the first line of a script.
#[tactic(auto, using(sqlx_lines::proofs::Rows::reads), unfolding(crate::specs::Grammar::pool_words))]
fn pool_line_in_front(text: &[u8]) -> Option<FirstLine<'_, PoolLine>>
    requires { has_newline_spec text.now ≡ true }
    ensures says { told result ≡ with_behind (behind_line text.now) (pool_words (words_in_front text.now)) }
    ensures some { IfSome result (λ line. 1 ≤ line.says.max) }
    ensures tries { IfSome result (λ line. (1 ≤ line.says.tries) × (line.says.tries ≤ 16)) }
{
    let (counts_tests, mut words) = kinds::behind_pool_name(text)?;
    let max = words.number(1, 65_536)?;
    let min = kinds::opens(&mut words)?;
    let timeout = words.millis()?;
    limits(&mut words, counts_tests, max as u32, min, timeout * NANOS)
}

/// What the first line of a text says, if it is the first line of a script.
pub fn read_pool_line(text: &[u8]) -> Option<FirstLine<'_, PoolLine>>
    ensures says { told result ≡ with_behind (behind_line text.now) (pool_of (first_line text.now)) }
    ensures some { IfSome result (λ line. 1 ≤ line.says.max) }
    ensures tries { IfSome result (λ line. (1 ≤ line.says.tries) × (line.says.tries ≤ 16)) }
    ensures shorter { IfSome result (λ line. length line.behind.now < length text.now) }
{
    if has_newline(text) {
        pool_line_in_front(text)
    } else {
        None
    }
}
