//! The words of this language alone, and how its lines begin and end.
ghost use Rattle.std.specs.Prelude.{◌≡◌, ◌≢◌, ◌<◌, ◌≤◌, ◌^◌, [], ◌∷◌, List, ℕ, true, Some, None, IfSome, IfNone, MatchOption};
ghost use Rattle.sqlx_lines.specs.Words.{has_newline, words_in_front, behind_line};
ghost use Rattle.sqlx_lines.specs.Rows.{word, ended, Reads, with_behind};
ghost use Rattle.sqlx_lines.specs.FirstLine.{told};
ghost use Rattle.sqlx_script.specs.Numbers as numbers_spec;
ghost use Rattle.sqlx_script.specs.Letters as letters_spec;
ghost use Rattle.sqlx_script.specs.Grammar.{pool_name, at_moment};
ghost use Rattle.sqlx_script.specs.Names.{text_of};

use crate::answers::{GiveAnswers, PollAnswers, StatementAnswer};
use crate::front::short_word;
use crate::letters::Switches;
use crate::names::{Name, name_in_front};
use crate::step::{Event, Step};
use crate::{letters, numbers};
use sqlx_lines::{FirstLine, NANOS, Words};
use sqlx_text::Moment;

/// The name in front of a text and the words behind it, where it is the name of an event and another word follows it.
#[inline(always)]
pub fn behind_name<'a>(text: &'a [u8]) -> Option<(Name, Words<'a>)>
    requires { has_newline text.now ≡ true }
    ensures some { IfSome result (λ r. words_in_front text.now ≡ text_of r.0 ∷ r.1.words) }
    ensures behind { IfSome result (λ r. r.1.behind ≡ behind_line text.now) }
    ensures none { IfNone result ((name : Name) → (w : List ℕ) → (ws : List (List ℕ)) → words_in_front text.now ≢ text_of name ∷ w ∷ ws) }
{
    let (name, rest) = name_in_front(text)?;
    Some((name, Words::behind(rest)))
}

/// Whether the first word of a script's first line says that its polls tell how many tests their letters answer, and the words behind it.
#[tactic(auto, unfolding(sqlx_lines::specs::Rows::word, crate::specs::Grammar::pool_name))]
pub fn behind_pool_name<'a>(text: &'a [u8]) -> Option<(bool, Words<'a>)>
    requires { has_newline text.now ≡ true }
    ensures reads { MatchOption result (word pool_name (words_in_front text.now) ≡ None) (λ r. word pool_name (words_in_front text.now) ≡ Some (r.0, r.1.words)) }
    ensures behind { IfSome result (λ r. r.1.behind ≡ behind_line text.now) }
{
    let (name, words) = Words::behind_first(text);
    match name {
        b"pool" => Some((false, words)),
        b"pool2" => Some((true, words)),
        _ => None,
    }
}

/// How many connects for the minimum succeed.
#[inline(always)]
pub fn opens(words: &mut Words<'_>) -> Option<u32>
    ensures { Reads numbers_spec.opens result words.old words.new }
{
    Some(words.number(0, 65_536)? as u32)
}

/// How many idle connections a poll may test.
pub fn tries(words: &mut Words<'_>) -> Option<u32>
    ensures reads { Reads numbers_spec.tries result words.old words.new }
    ensures within { IfSome result (λ n. (1 ≤ n) × (n ≤ 16)) }
{
    Some(words.number(1, 17)? as u32)
}

/// How many tests the letters of a poll answer.
#[inline(always)]
pub fn tests(words: &mut Words<'_>) -> Option<u32>
    ensures { Reads numbers_spec.tests result words.old words.new }
{
    Some(words.number(0, 65_536)? as u32)
}

/// A duration in nanoseconds, or none for `-`.
#[tactic(auto, unfolding(sqlx_lines::specs::Rows::word))]
pub fn limit_nanos(words: &mut Words<'_>) -> Option<Option<u64>>
    ensures { Reads numbers_spec.limit_nanos result words.old words.new }
{
    numbers::limit_nanos(words.next()?)
}

/// A sign.
#[inline(always)]
#[tactic(auto, unfolding(sqlx_lines::specs::Rows::word))]
pub fn sign(words: &mut Words<'_>) -> Option<bool>
    ensures { Reads letters_spec.sign result words.old words.new }
{
    let (word, rest) = short_word(words.text()?, 1)?;
    let sign = letters::sign(word)?;
    *words = Words::behind(rest);
    Some(sign)
}

/// The answer to a statement.
#[inline(always)]
#[tactic(auto, unfolding(sqlx_lines::specs::Rows::word))]
pub fn statement(words: &mut Words<'_>) -> Option<StatementAnswer>
    ensures { Reads letters_spec.statement result words.old words.new }
{
    let (word, rest) = short_word(words.text()?, 1)?;
    let answer = letters::statement(word)?;
    *words = Words::behind(rest);
    Some(answer)
}

/// The four letters of a `poll`.
#[inline(always)]
#[tactic(auto, unfolding(sqlx_lines::specs::Rows::word))]
pub fn poll_answers(words: &mut Words<'_>) -> Option<PollAnswers>
    ensures reads { Reads letters_spec.poll_answers result words.old words.new }
    ensures one { IfSome result (λ answers. letters_spec.answering answers 1 ≡ answers) }
{
    let (word, rest) = short_word(words.text()?, 4)?;
    let answers = letters::poll_answers(word)?;
    *words = Words::behind(rest);
    Some(answers)
}

/// The two letters of a `give`.
#[inline(always)]
#[tactic(auto, unfolding(sqlx_lines::specs::Rows::word))]
pub fn give_answers(words: &mut Words<'_>) -> Option<GiveAnswers>
    ensures { Reads letters_spec.give_answers result words.old words.new }
{
    let (word, rest) = short_word(words.text()?, 2)?;
    let answers = letters::give_answers(word)?;
    *words = Words::behind(rest);
    Some(answers)
}

/// The four switches of the first line.
#[tactic(auto, unfolding(sqlx_lines::specs::Rows::word))]
pub fn switches(words: &mut Words<'_>) -> Option<Switches>
    ensures { Reads letters_spec.switches result words.old words.new }
{
    letters::four_switches(words.next()?)
}

/// The event of this step, so many milliseconds from the start, where no word is left.
#[inline(always)]
pub fn finish_event<'a>(words: &Words<'a>, ms: u64, step: Step) -> Option<FirstLine<'a, Event>>
    requires { ms < 2 ^ 40 }
    ensures { told result ≡ with_behind words.now.behind (at_moment ms (ended step words.now.words)) }
{
    words.finish::<Event>(Event {
        moment: Moment(ms * NANOS),
        step,
    })
}
