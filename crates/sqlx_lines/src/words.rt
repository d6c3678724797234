//! Reads the words of the first line of a text, from the front.
ghost use Rattle.std.specs.Prelude.{◌≡◌, ◌<◌, ◌≤◌, ◌^◌, [], ◌∷◌, true, None, IfSome, IfNone};
ghost use Rattle.sqlx_lines.specs.Words.{has_newline, words_in_front, behind_line, is_behind_word, left_of};
ghost use Rattle.sqlx_lines.specs.Rows.{ended, Reads, with_behind};
ghost use Rattle.sqlx_lines.specs.Numbers as numbers_spec;
ghost use Rattle.sqlx_lines.specs.FirstLine.{told};

use crate::first_line::FirstLine;
use crate::front;
use std::marker::Model;

/// The words that are left of the first line of a text.
#[derive(Drop)]
pub struct Words<'a> {
    // What stands behind the last word that was read: a blank and another word, or the line's newline.
    rest: &'a [u8],
}

impl<'a> Model for Words<'a> {
    ghost use Rattle.std.specs.Prelude.{◌≡◌, true};
    ghost use Rattle.sqlx_lines.specs.Words.{Left, left_of, is_behind_word};

    ghost Value = { Left };

    ghost view = { λ w. left_of w.rest.now };

    ghost invariant = { λ w. is_behind_word w.rest.now ≡ true };
}

impl<'a> Words<'a> {
    /// The first word of a text that has a newline, and the words behind it.
    pub fn behind_first(text: &'a [u8]) -> (&'a [u8], Self)
        requires { has_newline text.now ≡ true }
        ensures words { words_in_front text.now ≡ result.0.now ∷ result.1.words }
        ensures behind { result.1.behind ≡ behind_line text.now }
    {
        let (word, rest) = front::first_word(text);
        (word, Words { rest })
    }

    /// The words behind a word, from the blank or the newline on that ends it.
    #[inline(always)]
    pub fn behind(rest: &'a [u8]) -> Self
        requires { is_behind_word rest.now ≡ true }
        ensures { result ≡ left_of rest.now }
    {
        Words { rest }
    }

    /// The text that begins with the next word, if there is one.
    #[inline(always)]
    pub fn text(&self) -> Option<&'a [u8]>
        ensures none { IfNone result (self.now.words ≡ []) }
        ensures words { IfSome result (λ text. words_in_front text.now ≡ self.now.words) }
        ensures behind { IfSome result (λ text. behind_line text.now ≡ self.now.behind) }
        ensures newline { IfSome result (λ text. has_newline text.now ≡ true) }
    {
        if self.rest[0] == b' ' {
            Some(&self.rest[1..])
        } else {
            None
        }
    }

    /// The next word.
    #[tactic(auto, unfolding(crate::specs::Rows::word))]
    pub fn next(&mut self) -> Option<&'a [u8]>
        ensures none { IfNone result (self.old.words ≡ []) }
        ensures some { IfSome result (λ w. self.old.words ≡ w.now ∷ self.new.words) }
        ensures behind { IfSome result (λ w. self.new.behind ≡ self.old.behind) }
    {
        let (word, rest) = front::first_word(self.text()?);
        self.rest = rest;
        Some(word)
    }

    /// The number of the next word, from `low` to below `high`.
    #[inline(always)]
    #[tactic(auto, unfolding(crate::specs::Rows::word))]
    pub fn number(&mut self, low: u64, high: u64) -> Option<u64>
        requires { high ≤ 10 ^ 19 }
        ensures reads { Reads (numbers_spec.number_in low high) result self.old self.new }
        ensures within { IfSome result (λ n. (low ≤ n) × (n < high)) }
    {
        let (n, rest) = front::number(self.text()?, low, high)?;
        self.rest = rest;
        Some(n)
    }

    /// A moment or a duration, in milliseconds.
    #[inline(always)]
    pub fn millis(&mut self) -> Option<u64>
        ensures reads { Reads numbers_spec.millis result self.old self.new }
        ensures below { IfSome result (λ n. n < 2 ^ 40) }
    {
        self.number(0, 1 << 40)
    }

    /// The number of a client, a ticket or a connection.
    #[inline(always)]
    pub fn name_number(&mut self) -> Option<u32>
        ensures { Reads numbers_spec.name_number result self.old self.new }
    {
        Some(self.number(0, 1 << 32)? as u32)
    }

    /// A key.
    #[inline(always)]
    pub fn key(&mut self) -> Option<u32>
        ensures { Reads numbers_spec.key result self.old self.new }
    {
        Some(self.number(0, 1000)? as u32)
    }

    /// A value, which may have a minus.
    #[inline(always)]
    #[tactic(auto, unfolding(crate::specs::Rows::word))]
    pub fn value(&mut self) -> Option<i64>
        ensures { Reads numbers_spec.value result self.old self.new }
    {
        let (n, rest) = front::value(self.text()?)?;
        self.rest = rest;
        Some(n)
    }

    /// What the words made, where none is left.
    #[inline(always)]
    pub fn finish<T: Drop>(&self, made: T) -> Option<FirstLine<'a, T>>
        ensures { told result ≡ with_behind self.now.behind (ended made self.now.words) }
    {
        if self.rest[0] == b'\n' {
            Some(FirstLine {
                says: made,
                behind: &self.rest[1..],
            })
        } else {
            None
        }
    }
}
