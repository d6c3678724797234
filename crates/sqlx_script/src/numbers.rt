//! A duration that may be none.
ghost use Rattle.std.specs.Prelude.{◌≡◌};
ghost use Rattle.sqlx_script.specs.Numbers as spec;

use sqlx_lines::{NANOS, number_in};

/// A duration in nanoseconds, or none for `-`.
#[tactic(auto, unfolding(crate::specs::Numbers::limit_nanos))]
pub fn limit_nanos(word: &[u8]) -> Option<Option<u64>>
    ensures { result ≡ spec.limit_nanos word.now }
{
    if word == b"-".as_slice() {
        return Some(None);
    }
    let ms = number_in(word, 0, 1 << 40)?;
    Some(Some(ms * NANOS))
}
