//! The fields of each event, after its name and its moment, which is so many milliseconds.
ghost use Rattle.std.specs.Prelude.{◌≡◌, ◌<◌, ◌^◌};
ghost use Rattle.sqlx_lines.specs.Rows.{words0, words1, words2, words3, words4, with_behind};
ghost use Rattle.sqlx_lines.specs.FirstLine.{told};
ghost use Rattle.sqlx_script.specs.Grammar.{at_moment, poll_words, put_words};
ghost use Rattle.sqlx_lines.specs.Numbers.{name_number, key, value};
ghost use Rattle.sqlx_script.specs.Numbers.{opens};
ghost use Rattle.sqlx_script.specs.Letters.{sign, statement, give_answers};

use crate::answers::PollAnswers;
use crate::kinds;
use crate::step::{Event, Step};
use sqlx_lines::{FirstLine, Words};

/// The fields of `ask`.
#[inline(always)]
#[tactic(auto, using(sqlx_lines::proofs::Rows::reads), unfolding(sqlx_lines::specs::Rows::words1))]
pub fn ask(mut words: Words<'_>, ms: u64) -> Option<FirstLine<'_, Event>>
    requires { ms < 2 ^ 40 }
    ensures { told result ≡ with_behind words.entry.behind (at_moment ms (words1 name_number Step.Ask words.entry.words)) }
{
    let client = words.name_number()?;
    kinds::finish_event(&words, ms, Step::Ask { client })
}

/// The fields of `poll`, with how many tests its letters answer where it tells that.
#[inline(always)]
#[tactic(auto, using(sqlx_lines::proofs::Rows::reads), unfolding(crate::specs::Grammar::poll_words))]
pub fn poll(mut words: Words<'_>, ms: u64, counts_tests: bool) -> Option<FirstLine<'_, Event>>
    requires { ms < 2 ^ 40 }
    ensures { told result ≡ with_behind words.entry.behind (at_moment ms (poll_words counts_tests words.entry.words)) }
{
    let client = words.name_number()?;
    let ticket = words.name_number()?;
    let letters = kinds::poll_answers(&mut words)?;
    if counts_tests {
        let tests = kinds::tests(&mut words)?;
        let answers = PollAnswers { tests, ..letters };
        return kinds::finish_event(
            &words,
            ms,
            Step::Poll {
                client,
                ticket,
                answers,
            },
        );
    }
    let answers = letters;
    kinds::finish_event(
        &words,
        ms,
        Step::Poll {
            client,
            ticket,
            answers,
        },
    )
}

/// The fields of `cancel`.
#[inline(always)]
#[tactic(auto, using(sqlx_lines::proofs::Rows::reads), unfolding(sqlx_lines::specs::Rows::words2))]
pub fn cancel(mut words: Words<'_>, ms: u64) -> Option<FirstLine<'_, Event>>
    requires { ms < 2 ^ 40 }
    ensures { told result ≡ with_behind words.entry.behind (at_moment ms (words2 name_number name_number Step.Cancel words.entry.words)) }
{
    let client = words.name_number()?;
    let ticket = words.name_number()?;
    kinds::finish_event(&words, ms, Step::Cancel { client, ticket })
}

/// The fields of `try`.
#[inline(always)]
#[tactic(auto, using(sqlx_lines::proofs::Rows::reads), unfolding(sqlx_lines::specs::Rows::words1))]
pub fn try_idle(mut words: Words<'_>, ms: u64) -> Option<FirstLine<'_, Event>>
    requires { ms < 2 ^ 40 }
    ensures { told result ≡ with_behind words.entry.behind (at_moment ms (words1 name_number Step.Try words.entry.words)) }
{
    let client = words.name_number()?;
    kinds::finish_event(&words, ms, Step::Try { client })
}

/// The fields of `give`.
#[inline(always)]
#[tactic(auto, using(sqlx_lines::proofs::Rows::reads), unfolding(sqlx_lines::specs::Rows::words4))]
pub fn give(mut words: Words<'_>, ms: u64) -> Option<FirstLine<'_, Event>>
    requires { ms < 2 ^ 40 }
    ensures { told result ≡ with_behind words.entry.behind (at_moment ms (words4 name_number name_number give_answers opens Step.Give words.entry.words)) }
{
    let client = words.name_number()?;
    let connection = words.name_number()?;
    let answers = kinds::give_answers(&mut words)?;
    let opens = kinds::opens(&mut words)?;
    kinds::finish_event(
        &words,
        ms,
        Step::Give {
            client,
            connection,
            answers,
            opens,
        },
    )
}

/// The fields of `end`.
#[inline(always)]
#[tactic(auto, using(sqlx_lines::proofs::Rows::reads), unfolding(sqlx_lines::specs::Rows::words3))]
pub fn end(mut words: Words<'_>, ms: u64) -> Option<FirstLine<'_, Event>>
    requires { ms < 2 ^ 40 }
    ensures { told result ≡ with_behind words.entry.behind (at_moment ms (words3 name_number name_number opens Step.End words.entry.words)) }
{
    let client = words.name_number()?;
    let connection = words.name_number()?;
    let opens = kinds::opens(&mut words)?;
    kinds::finish_event(
        &words,
        ms,
        Step::End {
            client,
            connection,
            opens,
        },
    )
}

/// The fields of `detach`.
#[inline(always)]
#[tactic(auto, using(sqlx_lines::proofs::Rows::reads), unfolding(sqlx_lines::specs::Rows::words3))]
pub fn detach(mut words: Words<'_>, ms: u64) -> Option<FirstLine<'_, Event>>
    requires { ms < 2 ^ 40 }
    ensures { told result ≡ with_behind words.entry.behind (at_moment ms (words3 name_number name_number opens Step.Detach words.entry.words)) }
{
    let client = words.name_number()?;
    let connection = words.name_number()?;
    let opens = kinds::opens(&mut words)?;
    kinds::finish_event(
        &words,
        ms,
        Step::Detach {
            client,
            connection,
            opens,
        },
    )
}

/// The fields of `leak`.
#[inline(always)]
#[tactic(auto, using(sqlx_lines::proofs::Rows::reads), unfolding(sqlx_lines::specs::Rows::words3))]
pub fn leak(mut words: Words<'_>, ms: u64) -> Option<FirstLine<'_, Event>>
    requires { ms < 2 ^ 40 }
    ensures { told result ≡ with_behind words.entry.behind (at_moment ms (words3 name_number name_number opens Step.Leak words.entry.words)) }
{
    let client = words.name_number()?;
    let connection = words.name_number()?;
    let opens = kinds::opens(&mut words)?;
    kinds::finish_event(
        &words,
        ms,
        Step::Leak {
            client,
            connection,
            opens,
        },
    )
}

/// The fields of `reap`.
#[inline(always)]
#[tactic(auto, using(sqlx_lines::proofs::Rows::reads), unfolding(sqlx_lines::specs::Rows::words1))]
pub fn reap(mut words: Words<'_>, ms: u64) -> Option<FirstLine<'_, Event>>
    requires { ms < 2 ^ 40 }
    ensures { told result ≡ with_behind words.entry.behind (at_moment ms (words1 opens Step.Reap words.entry.words)) }
{
    let opens = kinds::opens(&mut words)?;
    kinds::finish_event(&words, ms, Step::Reap { opens })
}

/// The fields of `min`.
#[inline(always)]
#[tactic(auto, using(sqlx_lines::proofs::Rows::reads), unfolding(sqlx_lines::specs::Rows::words1))]
pub fn min(mut words: Words<'_>, ms: u64) -> Option<FirstLine<'_, Event>>
    requires { ms < 2 ^ 40 }
    ensures { told result ≡ with_behind words.entry.behind (at_moment ms (words1 opens Step.Min words.entry.words)) }
{
    let opens = kinds::opens(&mut words)?;
    kinds::finish_event(&words, ms, Step::Min { opens })
}

/// The fields of `closed`.
#[inline(always)]
#[tactic(auto, using(sqlx_lines::proofs::Rows::reads), unfolding(sqlx_lines::specs::Rows::words0))]
pub fn close_state(words: Words<'_>, ms: u64) -> Option<FirstLine<'_, Event>>
    requires { ms < 2 ^ 40 }
    ensures { told result ≡ with_behind words.entry.behind (at_moment ms (words0 Step.CloseState words.entry.words)) }
{
    kinds::finish_event(&words, ms, Step::CloseState)
}

/// The fields of `begin`.
#[inline(always)]
#[tactic(auto, using(sqlx_lines::proofs::Rows::reads), unfolding(sqlx_lines::specs::Rows::words3))]
pub fn begin(mut words: Words<'_>, ms: u64) -> Option<FirstLine<'_, Event>>
    requires { ms < 2 ^ 40 }
    ensures { told result ≡ with_behind words.entry.behind (at_moment ms (words3 name_number name_number statement Step.Begin words.entry.words)) }
{
    let client = words.name_number()?;
    let connection = words.name_number()?;
    let answer = kinds::statement(&mut words)?;
    kinds::finish_event(
        &words,
        ms,
        Step::Begin {
            client,
            connection,
            answer,
        },
    )
}

/// The fields of `custom`.
#[inline(always)]
#[tactic(auto, using(sqlx_lines::proofs::Rows::reads), unfolding(sqlx_lines::specs::Rows::words4))]
pub fn custom(mut words: Words<'_>, ms: u64) -> Option<FirstLine<'_, Event>>
    requires { ms < 2 ^ 40 }
    ensures { told result ≡ with_behind words.entry.behind (at_moment ms (words4 name_number name_number sign statement Step.Custom words.entry.words)) }
{
    let client = words.name_number()?;
    let connection = words.name_number()?;
    let begins = kinds::sign(&mut words)?;
    let answer = kinds::statement(&mut words)?;
    kinds::finish_event(
        &words,
        ms,
        Step::Custom {
            client,
            connection,
            begins,
            answer,
        },
    )
}

/// The fields of `put`.
#[inline(always)]
#[tactic(auto, using(sqlx_lines::proofs::Rows::reads), unfolding(crate::specs::Grammar::put_words, sqlx_lines::specs::Rows::words5))]
pub fn put(mut words: Words<'_>, ms: u64) -> Option<FirstLine<'_, Event>>
    requires { ms < 2 ^ 40 }
    ensures { told result ≡ with_behind words.entry.behind (at_moment ms (put_words words.entry.words)) }
{
    let client = words.name_number()?;
    let connection = words.name_number()?;
    let key = words.key()?;
    let value = words.value()?;
    let answer = kinds::statement(&mut words)?;
    kinds::finish_event(
        &words,
        ms,
        Step::Put {
            client,
            connection,
            key,
            value,
            answer,
        },
    )
}

/// The fields of `del`.
#[inline(always)]
#[tactic(auto, using(sqlx_lines::proofs::Rows::reads), unfolding(sqlx_lines::specs::Rows::words4))]
pub fn del(mut words: Words<'_>, ms: u64) -> Option<FirstLine<'_, Event>>
    requires { ms < 2 ^ 40 }
    ensures { told result ≡ with_behind words.entry.behind (at_moment ms (words4 name_number name_number key statement Step.Del words.entry.words)) }
{
    let client = words.name_number()?;
    let connection = words.name_number()?;
    let key = words.key()?;
    let answer = kinds::statement(&mut words)?;
    kinds::finish_event(
        &words,
        ms,
        Step::Del {
            client,
            connection,
            key,
            answer,
        },
    )
}

/// The fields of `get`.
#[inline(always)]
#[tactic(auto, using(sqlx_lines::proofs::Rows::reads), unfolding(sqlx_lines::specs::Rows::words4))]
pub fn get(mut words: Words<'_>, ms: u64) -> Option<FirstLine<'_, Event>>
    requires { ms < 2 ^ 40 }
    ensures { told result ≡ with_behind words.entry.behind (at_moment ms (words4 name_number name_number key statement Step.Get words.entry.words)) }
{
    let client = words.name_number()?;
    let connection = words.name_number()?;
    let key = words.key()?;
    let answer = kinds::statement(&mut words)?;
    kinds::finish_event(
        &words,
        ms,
        Step::Get {
            client,
            connection,
            key,
            answer,
        },
    )
}

/// The fields of `commit`.
#[inline(always)]
#[tactic(auto, using(sqlx_lines::proofs::Rows::reads), unfolding(sqlx_lines::specs::Rows::words3))]
pub fn commit(mut words: Words<'_>, ms: u64) -> Option<FirstLine<'_, Event>>
    requires { ms < 2 ^ 40 }
    ensures { told result ≡ with_behind words.entry.behind (at_moment ms (words3 name_number name_number statement Step.Commit words.entry.words)) }
{
    let client = words.name_number()?;
    let connection = words.name_number()?;
    let answer = kinds::statement(&mut words)?;
    kinds::finish_event(
        &words,
        ms,
        Step::Commit {
            client,
            connection,
            answer,
        },
    )
}

/// The fields of `rollback`.
#[inline(always)]
#[tactic(auto, using(sqlx_lines::proofs::Rows::reads), unfolding(sqlx_lines::specs::Rows::words3))]
pub fn rollback(mut words: Words<'_>, ms: u64) -> Option<FirstLine<'_, Event>>
    requires { ms < 2 ^ 40 }
    ensures { told result ≡ with_behind words.entry.behind (at_moment ms (words3 name_number name_number statement Step.Rollback words.entry.words)) }
{
    let client = words.name_number()?;
    let connection = words.name_number()?;
    let answer = kinds::statement(&mut words)?;
    kinds::finish_event(
        &words,
        ms,
        Step::Rollback {
            client,
            connection,
            answer,
        },
    )
}

/// The fields of `giveup`.
#[inline(always)]
#[tactic(auto, using(sqlx_lines::proofs::Rows::reads), unfolding(sqlx_lines::specs::Rows::words2))]
pub fn give_up(mut words: Words<'_>, ms: u64) -> Option<FirstLine<'_, Event>>
    requires { ms < 2 ^ 40 }
    ensures { told result ≡ with_behind words.entry.behind (at_moment ms (words2 name_number name_number Step.GiveUp words.entry.words)) }
{
    let client = words.name_number()?;
    let connection = words.name_number()?;
    kinds::finish_event(&words, ms, Step::GiveUp { client, connection })
}

/// The fields of `close`.
#[inline(always)]
#[tactic(auto, using(sqlx_lines::proofs::Rows::reads), unfolding(sqlx_lines::specs::Rows::words0))]
pub fn close(words: Words<'_>, ms: u64) -> Option<FirstLine<'_, Event>>
    requires { ms < 2 ^ 40 }
    ensures { told result ≡ with_behind words.entry.behind (at_moment ms (words0 Step.Close words.entry.words)) }
{
    kinds::finish_event(&words, ms, Step::Close)
}
