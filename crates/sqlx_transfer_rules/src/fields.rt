//! The fields of each line, after its name.
ghost use Rattle.std.specs.Prelude.{◌≡◌, IfSome};
ghost use Rattle.sqlx_lines.specs.Rows.{Reads, with_behind};
ghost use Rattle.sqlx_lines.specs.FirstLine.{told};
ghost use Rattle.sqlx_transfer_rules.specs.Grammar.{IsBank, met_of, bank_words, start_words, move_words, commit_words, undo_words, drop_words, show_words, other_fields};

use crate::bank_line::BankLine;
use crate::event::{Event, Met};
use sqlx_lines::{FirstLine, Words};

// What a letter says.
fn letter(word: &[u8]) -> Option<Met>
    ensures { result ≡ met_of word.now }
{
    match word {
        b"+" => Some(Met::Accepted),
        b"1" => Some(Met::FirstRefused),
        b"2" => Some(Met::SecondRefused),
        _ => None,
    }
}

// The letter that tells what meets a move.
#[tactic(auto, unfolding(sqlx_lines::specs::Rows::word))]
fn met(words: &mut Words<'_>) -> Option<Met>
    ensures { Reads met_of result words.old words.new }
{
    letter(words.next()?)
}

/// The fields of `bank`.
#[tactic(auto, using(sqlx_lines::proofs::Rows::reads), unfolding(crate::specs::Grammar::bank_words))]
pub fn bank(mut words: Words<'_>) -> Option<FirstLine<'_, BankLine>>
    ensures told { told result ≡ with_behind words.entry.behind (bank_words words.entry.words) }
    ensures within { IfSome result (λ line. IsBank line.says) }
{
    let accounts = words.number(2, 1001)? as u32;
    let max = words.number(1, 65)? as u32;
    let opening = words.number(0, 1 << 63)?;
    words.finish(BankLine {
        accounts,
        max,
        opening,
    })
}

/// The fields of `start`.
#[tactic(auto, using(sqlx_lines::proofs::Rows::reads), unfolding(crate::specs::Grammar::start_words))]
pub fn start(mut words: Words<'_>) -> Option<FirstLine<'_, Event>>
    ensures { told result ≡ with_behind words.entry.behind (start_words words.entry.words) }
{
    let client = words.name_number()?;
    words.finish(Event::Start { client })
}

// The fields of `move`.
#[tactic(auto, using(sqlx_lines::proofs::Rows::reads), unfolding(crate::specs::Grammar::move_words))]
fn move_amount(mut words: Words<'_>) -> Option<FirstLine<'_, Event>>
    ensures { told result ≡ with_behind words.entry.behind (move_words words.entry.words) }
{
    let client = words.name_number()?;
    let from = words.number(1, 1001)? as u32;
    let to = words.number(1, 1001)? as u32;
    let amount = words.number(1, 1 << 63)?;
    let met = met(&mut words)?;
    words.finish(Event::Move {
        client,
        from,
        to,
        amount,
        met,
    })
}

/// The fields of `commit`.
#[tactic(auto, using(sqlx_lines::proofs::Rows::reads), unfolding(crate::specs::Grammar::commit_words))]
pub fn commit(mut words: Words<'_>) -> Option<FirstLine<'_, Event>>
    ensures { told result ≡ with_behind words.entry.behind (commit_words words.entry.words) }
{
    let client = words.name_number()?;
    words.finish(Event::Commit { client })
}

// The fields of `undo`.
#[tactic(auto, using(sqlx_lines::proofs::Rows::reads), unfolding(crate::specs::Grammar::undo_words))]
fn undo(mut words: Words<'_>) -> Option<FirstLine<'_, Event>>
    ensures { told result ≡ with_behind words.entry.behind (undo_words words.entry.words) }
{
    let client = words.name_number()?;
    words.finish(Event::Undo { client })
}

// The fields of `drop`.
#[tactic(auto, using(sqlx_lines::proofs::Rows::reads), unfolding(crate::specs::Grammar::drop_words))]
fn give_up(mut words: Words<'_>) -> Option<FirstLine<'_, Event>>
    ensures { told result ≡ with_behind words.entry.behind (drop_words words.entry.words) }
{
    let client = words.name_number()?;
    words.finish(Event::Drop { client })
}

// The fields of `show`.
#[tactic(auto, using(sqlx_lines::proofs::Rows::reads), unfolding(crate::specs::Grammar::show_words))]
fn show(mut words: Words<'_>) -> Option<FirstLine<'_, Event>>
    ensures { told result ≡ with_behind words.entry.behind (show_words words.entry.words) }
{
    let account = words.number(1, 1001)? as u32;
    words.finish(Event::Show { account })
}

/// The fields of a move, of what rolls levels back, and of a show, by its name.
#[tactic(auto, unfolding(crate::specs::Grammar::other_fields))]
pub fn other<'a>(name: &[u8], words: Words<'a>) -> Option<FirstLine<'a, Event>>
    ensures { told result ≡ with_behind words.entry.behind (other_fields name.now words.entry.words) }
{
    if name == b"move".as_slice() {
        return move_amount(words);
    }
    if name == b"undo".as_slice() {
        return undo(words);
    }
    if name == b"drop".as_slice() {
        return give_up(words);
    }
    if name == b"show".as_slice() {
        return show(words);
    }
    None
}
