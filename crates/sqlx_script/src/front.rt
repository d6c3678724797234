//! So many bytes in front of a text.
ghost use Rattle.std.specs.Prelude.{◌≡◌, ◌<◌, ◌++◌, true, false, IfSome, IfNone, length, slice_index};
ghost use Rattle.sqlx_lines.specs.Words as words;

use sqlx_lines::ends_word;

/// So many bytes in front, and the text behind them, if that can stand behind a word.
#[inline(always)]
pub fn short_word(text: &[u8], len: usize) -> Option<(&[u8], &[u8])>
    ensures some { IfSome result (λ r. text.now ≡ r.0.now ++ r.1.now) }
    ensures len { IfSome result (λ r. length r.0.now ≡ len) }
    ensures end { IfSome result (λ r. words.ends_word (slice_index r.1.now 0) ≡ true) }
    ensures none { IfNone result (len < length text.now → words.ends_word (slice_index text.now len) ≡ false) }
{
    if text.len() <= len || !ends_word(text[len]) {
        return None;
    }
    Some((&text[..len], &text[len..]))
}
