//! The text of a pool's log.

ghost use Rattle.std.specs.Prelude.{◌≡◌, ◌++◌, IfOk, codes, false, string_bytes};
ghost use Rattle.std.specs.Fmt.{decimal};
ghost use Rattle.sqlx_play_crowd.specs.Crowd.{LeavesLog};
ghost use Rattle.sqlx_play_crowd.specs.LogText as spec;

use crate::line::Line;
use sqlx_pool::{Loans, Lone, Mark, PoolOf, Tally};
use sqlx_text::{Depth, OutOfMemory};
use std::alloc::{AllocError, Global};
use std::sync::Wait;
use std::sync::ledger::Ledger;

// A mark's line, with its newline.
fn line(alloc: Global, mark: Mark) -> Result<String, AllocError>
    ensures { IfOk result (λ text. string_bytes text ≡ spec.mark_text mark ++ codes "\n") }
{
    let line = Line(mark);
    format!(in alloc; "{line}\n")
}

/// The text of a log: a line for each mark.
pub fn log_text(alloc: Global, marks: &[Mark]) -> Result<String, AllocError>
    ensures { IfOk result (λ text. string_bytes text ≡ spec.log_text marks.now) }
{
    let mut text = String::new(alloc);
    for at in 0..marks.len() {
        let next = line(alloc, marks[at])?;
        text.push_str(&next)?;
    }
    Ok(text)
}

// The line that tells how many loans there were.
fn loans_line(alloc: Global, loans: u64) -> Result<String, AllocError>
    ensures { IfOk result (λ text. string_bytes text ≡ codes "loans " ++ decimal loans ++ codes "\n") }
{
    format!(in alloc; "loans {loans}\n")
}

// The text of a log with so many loans, and then their number.
fn crowd_text(alloc: Global, marks: &[Mark], loans: u64) -> Result<String, AllocError>
    ensures { IfOk result (λ text. string_bytes text ≡ spec.log_text marks.now ++ codes "loans " ++ decimal loans ++ codes "\n") }
{
    let mut text = log_text(alloc, marks)?;
    let last = loans_line(alloc, loans)?;
    text.push_str(&last)?;
    Ok(text)
}

/// The text of the log that the tally with every part tells of.
pub fn audited<C: Depth + Drop, O: Drop, H: Ledger, L: Loans, R: Wait>(
    rt: &R,
    alloc: Global,
    pool: &PoolOf<C, O, Lone<C, O, H, L>>,
    all: &mut Tally<L>,
) -> Result<String, OutOfMemory>
    requires parts { all.old.parts ≡ L.parts }
    requires uncut { L.cuts ≡ false }
    ensures text { IfOk result (λ text. LeavesLog L.max all.old.loans (string_bytes text)) }
    ensures same { all.new ≡ all.old }
{
    let log = pool.audit_log(rt, alloc, all)?;
    match crowd_text(alloc, log.marks(), all.loans()) {
        Ok(text) => Ok(text),
        Err(_) => Err(OutOfMemory),
    }
}
