//! The summary of a statement, by which a log names it.
ghost use Rattle.std.specs.Prelude.{◌≡◌, ◌<◌, ◌≤◌, false, ◌∷◌, ◌++◌, ℕ, List, IfOk, string_bytes};
ghost use Rattle.std.specs.Char.{encode_utf8};
ghost use Rattle.sqlx_text.specs.Summary.{summary_of, whole_with};

use crate::{OutOfMemory, UStr};
use std::alloc::Global;

/// The first four words of a statement, with one blank between them. Words end at white space.
pub fn parse_query_summary(alloc: Global, sql: &str) -> Result<UStr, OutOfMemory>
    ensures { IfOk result (λ summary. summary ≡ summary_of sql.now) }
{
    let mut summary = String::new(alloc);
    let mut place = Place {
        words_left: 4,
        in_word: false,
    };
    for c in sql.chars() {
        if place.words_left == 0 && !place.in_word {
            break;
        }
        place = add(&mut summary, place, c)?;
    }
    Ok(UStr::from_string(summary))
}

/// How many words may still begin, and whether the summary is inside of one.
#[derive(Clone, Copy)]
struct Place {
    words_left: u8,
    in_word: bool,
}

// Adds the next character of the statement, or the blank that it asks for.
fn add(summary: &mut String, place: Place, c: char) -> Result<Place, OutOfMemory>
    requires few { place.words_left ≤ 4 }
    requires goes_on { place.in_word ≡ false → 0 < place.words_left }
    ensures left { IfOk result (λ next. next.words_left ≤ 4) }
    ensures written { IfOk result (λ next. (cs : List ℕ)
        → whole_with (string_bytes summary.old) place.in_word place.words_left (c ∷ cs)
        ≡ whole_with (string_bytes summary.new) next.in_word next.words_left cs) }
{
    if c.is_whitespace() {
        return Ok(Place {
            words_left: place.words_left,
            in_word: false,
        });
    }
    if place.in_word {
        push(summary, c)?;
        return Ok(place);
    }
    if place.words_left < 4 {
        push(summary, ' ')?;
    }
    push(summary, c)?;
    Ok(Place {
        words_left: place.words_left - 1,
        in_word: true,
    })
}

fn push(summary: &mut String, c: char) -> Result<(), OutOfMemory>
    ensures { IfOk result (λ _. string_bytes summary.new ≡ string_bytes summary.old ++ encode_utf8 c) }
{
    summary.push(c)?;
    Ok(())
}
