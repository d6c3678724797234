//! The fields of each event, after its name.
ghost use Rattle.std.specs.Prelude.{◌≡◌};
ghost use Rattle.sqlx_lines.specs.Rows.{with_behind};
ghost use Rattle.sqlx_lines.specs.FirstLine.{told};
ghost use Rattle.sqlx_steps_rules.specs.Grammar.{step_words, put_words, del_words, apply_words, get_words};

use crate::event::{Event, Write};
use sqlx_lines::{FirstLine, Words};

/// The fields of `step`.
#[tactic(auto, using(sqlx_lines::proofs::Rows::reads), unfolding(crate::specs::Grammar::step_words))]
pub fn step(mut words: Words<'_>) -> Option<FirstLine<'_, Event>>
    ensures { told result ≡ with_behind words.entry.behind (step_words words.entry.words) }
{
    let number = words.number(1, 1001)? as u32;
    words.finish(Event::Step { number })
}

/// The fields of `put`.
#[tactic(auto, using(sqlx_lines::proofs::Rows::reads), unfolding(crate::specs::Grammar::put_words))]
pub fn put(mut words: Words<'_>) -> Option<FirstLine<'_, Event>>
    ensures { told result ≡ with_behind words.entry.behind (put_words words.entry.words) }
{
    let key = i64::from(words.key()?);
    let value = words.value()?;
    let write = Write::Put { key, value };
    words.finish(Event::Statement { write })
}

/// The fields of `del`.
#[tactic(auto, using(sqlx_lines::proofs::Rows::reads), unfolding(crate::specs::Grammar::del_words))]
pub fn del(mut words: Words<'_>) -> Option<FirstLine<'_, Event>>
    ensures { told result ≡ with_behind words.entry.behind (del_words words.entry.words) }
{
    let key = i64::from(words.key()?);
    let write = Write::Del { key };
    words.finish(Event::Statement { write })
}

/// The fields of `apply`.
#[tactic(auto, using(sqlx_lines::proofs::Rows::reads), unfolding(crate::specs::Grammar::apply_words))]
pub fn apply(mut words: Words<'_>) -> Option<FirstLine<'_, Event>>
    ensures { told result ≡ with_behind words.entry.behind (apply_words words.entry.words) }
{
    let upto = words.number(0, 1001)? as u32;
    let refuse = words.name_number()?;
    words.finish(Event::Apply { upto, refuse })
}

/// The fields of `get`.
#[tactic(auto, using(sqlx_lines::proofs::Rows::reads), unfolding(crate::specs::Grammar::get_words))]
pub fn get(mut words: Words<'_>) -> Option<FirstLine<'_, Event>>
    ensures { told result ≡ with_behind words.entry.behind (get_words words.entry.words) }
{
    let key = words.key()?;
    words.finish(Event::Get { key })
}
