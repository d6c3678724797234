//! What the first line of a text says.
ghost use Rattle.std.specs.Prelude.{◌≡◌, ◌+◌, ◌==◌, true};
ghost use Rattle.sqlx_lines.specs.Words.{first_line, behind_line, words_in_front, whole};
ghost use Rattle.sqlx_lines.specs.Words as words;
ghost use Rattle.sqlx_lines.specs.Rows.{with_behind};
ghost use Rattle.sqlx_lines.specs.FirstLine.{told};
ghost use Rattle.sqlx_steps_rules.specs.Grammar.{event_words, opening_words, is_in_place, event_at, opening_of};

use crate::event::Event;
use crate::fields;
use sqlx_lines::{FirstLine, Words, has_newline};

// What the first line of a text that has a newline says, if it is the first line of a script.
#[tactic(auto, unfolding(crate::specs::Grammar::opening_words))]
fn opening_in_front(text: &[u8]) -> Option<FirstLine<'_, ()>>
    requires { words.has_newline text.now ≡ true }
    ensures { told result ≡ with_behind (behind_line text.now) (opening_words (words_in_front text.now)) }
{
    let (name, words) = Words::behind_first(text);
    match name {
        b"steps" => words.finish::<()>(()),
        _ => None,
    }
}

/// What the first line of a text says, if it is the first line of a script.
pub fn read_opening(text: &[u8]) -> Option<FirstLine<'_, ()>>
    ensures { told result ≡ with_behind (behind_line text.now) (opening_of (first_line text.now)) }
{
    if has_newline(text) {
        opening_in_front(text)
    } else {
        None
    }
}

// What the first line of a text that has a newline says by itself.
#[tactic(auto, unfolding(crate::specs::Grammar::event_words))]
fn event_in_front(text: &[u8]) -> Option<FirstLine<'_, Event>>
    requires { words.has_newline text.now ≡ true }
    ensures { told result ≡ with_behind (behind_line text.now) (event_words (words_in_front text.now)) }
{
    let (name, words) = Words::behind_first(text);
    match name {
        b"step" => fields::step(words),
        b"put" => fields::put(words),
        b"del" => fields::del(words),
        b"apply" => fields::apply(words),
        b"get" => fields::get(words),
        _ => None,
    }
}

// What the first line of a text says by itself.
fn event_alone(text: &[u8]) -> Option<FirstLine<'_, Event>>
    ensures { told result ≡ with_behind (behind_line text.now) (whole event_words (first_line text.now)) }
{
    if has_newline(text) {
        event_in_front(text)
    } else {
        None
    }
}

// Whether a step's number is the next one where so many steps are defined.
fn is_next(number: usize, defined: usize) -> bool
    ensures { result ≡ (number == defined + 1) }
{
    number > defined && number - defined == 1
}

// Whether an event may come where so many steps are defined, and the definitions have ended or not.
fn fits(event: &Event, defined: usize, ended: bool) -> bool
    ensures { result ≡ is_in_place defined ended event.now }
{
    match *event {
        Event::Step { number } => !ended && is_next(number as usize, defined),
        Event::Statement { write: _ } => !ended && defined > 0,
        Event::Apply { upto, refuse: _ } => upto as usize <= defined,
        Event::Get { key: _ } => true,
    }
}

/// What the first line of a text says behind events by which so many steps are defined, and the definitions have ended or not.
pub fn read_event(text: &[u8], defined: usize, ended: bool) -> Option<FirstLine<'_, Event>>
    ensures { told result ≡ with_behind (behind_line text.now) (event_at defined ended (first_line text.now)) }
{
    let line = event_alone(text)?;
    if fits(&line.says, defined, ended) {
        Some(line)
    } else {
        None
    }
}
