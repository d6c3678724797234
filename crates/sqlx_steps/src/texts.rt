//! The texts of a step, one by one. `left` tells which text is refused, counted from the next one; none where it is 0.
ghost use Rattle.std.specs.Prelude.{◌≡◌, ◌-◌, ℕ};
ghost use Rattle.sqlx_savepoints.specs.Rows.{Rows};
ghost use Rattle.mem_store.specs.Store.{at_work};
ghost use Rattle.mem_store.specs.declared.answer.Answer.{Answer as Met};
ghost use Rattle.sqlx_steps_rules.specs.Rules.{changed};
ghost use Rattle.sqlx_steps.specs.AtWork.{IsAtRest, IsWithin};
ghost use Rattle.sqlx_steps.specs.Texts.{answer_at, act_by, TextGives, Text};
ghost use Rattle.sqlx_steps.specs.Texts as spec;

use crate::work::Work;
use sqlx_play_acts::{Act, Answer, Reply};
use sqlx_steps_rules::Write;
use std::alloc::Global;

/// What came of a text, or of several.
#[derive(Clone, Copy)]
pub enum Ran {
    /// They ran.
    All,
    /// One was refused.
    Refused,
    /// Memory was wanting.
    Wanting,
}

// The answer that meets the next text.
fn next_answer(left: u64) -> Answer
    ensures { result ≡ answer_at left }
{
    match left {
        1 => Answer::Io,
        _ => Answer::Accept,
    }
}

// Whether a reply says that the text was refused with Io.
fn is_io(reply: Reply) -> bool
    ensures { result ≡ spec.is_io reply }
{
    matches!(reply, Reply::Io)
}

// The act of a statement.
fn act_of(write: Write) -> Act
    ensures { result ≡ act_by write }
{
    match write {
        Write::Put { key, value } => Act::Put(key, value),
        Write::Del { key } => Act::Delete(key),
    }
}

// Runs the text of an act.
fn run_text<W: Work>(alloc: Global, work: &mut W, act: Act, left: &mut u64) -> Ran
    ensures gives { (met : Met) × TextGives act result (at_work (W.store work.old) (W.link work.old) (answer_at left.old)) (at_work (W.store work.new) (W.link work.new) met) }
    ensures counts { left.new ≡ left.old - 1 }
{
    let answer = next_answer(*left);
    *left = left.saturating_sub(1);
    match work.run(alloc, act, answer) {
        Ok(reply) => if is_io(reply) { Ran::Refused } else { Ran::All },
        Err(_) => Ran::Wanting,
    }
}

/// Begins the level of a step.
pub fn begin<W: Work>(alloc: Global, work: &mut W, left: &mut u64) -> Ran
    ensures text { (n : ℕ) (rows : Rows) → IsAtRest (W.store work.old) (W.link work.old) n rows
        → Text (λ s l. IsWithin s l n rows rows) (λ s l. IsAtRest s l n rows) left.old result (W.store work.new) (W.link work.new) }
    ensures counts { left.new ≡ left.old - 1 }
{
    run_text(alloc, work, Act::Begin, left)
}

/// Runs a statement.
pub fn write<W: Work>(alloc: Global, work: &mut W, write: Write, left: &mut u64) -> Ran
    ensures text { (n : ℕ) (before rows : Rows) → IsWithin (W.store work.old) (W.link work.old) n before rows
        → Text (λ s l. IsWithin s l n before (changed write rows)) (λ s l. IsWithin s l n before rows) left.old result (W.store work.new) (W.link work.new) }
    ensures counts { left.new ≡ left.old - 1 }
{
    run_text(alloc, work, act_of(write), left)
}

/// Commits the level of a step.
pub fn commit<W: Work>(alloc: Global, work: &mut W, left: &mut u64) -> Ran
    ensures text { (n : ℕ) (before rows : Rows) → IsWithin (W.store work.old) (W.link work.old) n before rows
        → Text (λ s l. IsAtRest s l n rows) (λ s l. IsAtRest s l n before) left.old result (W.store work.new) (W.link work.new) }
    ensures counts { left.new ≡ left.old - 1 }
{
    run_text(alloc, work, Act::Commit, left)
}
