//! What the first line of a text says.
ghost use Rattle.std.specs.Prelude.{◌≡◌, true, IfSome};
ghost use Rattle.sqlx_lines.specs.Words.{first_line, behind_line, words_in_front, whole};
ghost use Rattle.sqlx_lines.specs.Words as words;
ghost use Rattle.sqlx_lines.specs.Rows.{with_behind};
ghost use Rattle.sqlx_lines.specs.FirstLine.{told};
ghost use Rattle.sqlx_transfer_rules.specs.Grammar.{event_words, opening_words, event_at, opening_of, is_in_range, IsBank};
ghost use Rattle.sqlx_transfer_rules.specs.Grammar as spec;

use crate::bank_line::BankLine;
use crate::event::Event;
use crate::fields;
use sqlx_lines::{FirstLine, Words, has_newline};

// What the first line of a text that has a newline says, if it is the first line of a script.
#[tactic(auto, unfolding(crate::specs::Grammar::opening_words))]
fn opening_in_front(text: &[u8]) -> Option<FirstLine<'_, BankLine>>
    requires { words.has_newline text.now ≡ true }
    ensures told { told result ≡ with_behind (behind_line text.now) (opening_words (words_in_front text.now)) }
    ensures within { IfSome result (λ line. IsBank line.says) }
{
    let (name, words) = Words::behind_first(text);
    match name {
        b"bank" => fields::bank(words),
        _ => None,
    }
}

/// What the first line of a text says, if it is the first line of a script.
pub fn read_opening(text: &[u8]) -> Option<FirstLine<'_, BankLine>>
    ensures told { told result ≡ with_behind (behind_line text.now) (opening_of (first_line text.now)) }
    ensures within { IfSome result (λ line. IsBank line.says) }
{
    if has_newline(text) {
        opening_in_front(text)
    } else {
        None
    }
}

// What the first line of a text that has a newline says by itself.
#[tactic(auto, unfolding(crate::specs::Grammar::event_words))]
fn event_in_front(text: &[u8]) -> Option<FirstLine<'_, Event>>
    requires { words.has_newline text.now ≡ true }
    ensures { told result ≡ with_behind (behind_line text.now) (event_words (words_in_front text.now)) }
{
    let (name, words) = Words::behind_first(text);
    match name {
        b"start" => fields::start(words),
        b"commit" => fields::commit(words),
        _ => fields::other(name, words),
    }
}

// What the first line of a text says by itself.
fn event_alone(text: &[u8]) -> Option<FirstLine<'_, Event>>
    ensures { told result ≡ with_behind (behind_line text.now) (whole event_words (first_line text.now)) }
{
    if has_newline(text) {
        event_in_front(text)
    } else {
        None
    }
}

// Whether an account is one of so many.
fn is_account(account: u32, accounts: u32) -> bool
    ensures { result ≡ spec.is_account accounts account }
{
    1 <= account && account <= accounts
}

// Whether the event is of different accounts that are among so many.
fn fits(event: &Event, accounts: u32) -> bool
    ensures { result ≡ is_in_range accounts event.now }
{
    match *event {
        Event::Move { from, to, .. } => {
            is_account(from, accounts) && is_account(to, accounts) && from != to
        }
        Event::Show { account } => is_account(account, accounts),
        Event::Start { .. } | Event::Commit { .. } | Event::Undo { .. } | Event::Drop { .. } =>
            true,
    }
}

/// What the first line of a text says where there are so many accounts.
pub fn read_event(text: &[u8], accounts: u32) -> Option<FirstLine<'_, Event>>
    ensures { told result ≡ with_behind (behind_line text.now) (event_at accounts (first_line text.now)) }
{
    let line = event_alone(text)?;
    if fits(&line.says, accounts) {
        Some(line)
    } else {
        None
    }
}
