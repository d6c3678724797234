//! A pool's log as text, a line for each mark.

use crate::same::same_text;
use crate::setup::LonePool;
use sqlx_pool::{Loans, Mark};
use sqlx_text::Depth;
use std::alloc::{AllocError, Global};
use std::process::Abort;
use std::sync::Wait;
use std::sync::ledger::Ledger;
use std::test::*;

// The word of a mark.
fn word(mark: &Mark) -> &'static str {
    match mark {
        Mark::Asked { .. } => "asked",
        Mark::Left { .. } => "left",
        Mark::Taken { .. } => "taken",
        Mark::Reaped { .. } => "reaped",
        Mark::Opened { .. } => "opened",
        Mark::Lent { .. } => "lent",
        Mark::Kept { .. } => "kept",
        Mark::Closed { .. } => "closed",
        Mark::Detached { .. } => "detached",
        Mark::Leaked { .. } => "leaked",
        Mark::Ended { .. } => "ended",
        Mark::Shut => "shut",
    }
}

// A mark with its numbers.
fn line(alloc: Global, mark: &Mark) -> Result<String, AllocError> {
    let word = word(mark);
    match mark {
        Mark::Asked {
            ticket,
            client,
            deadline,
        } => format!(in alloc; "{word} {ticket} {client} {deadline}\n"),
        Mark::Lent { client, conn } => format!(in alloc; "{word} {client} {conn}\n"),
        Mark::Opened { conn, moment } | Mark::Kept { conn, moment } => {
            format!(in alloc; "{word} {conn} {moment}\n")
        }
        Mark::Left { ticket: number }
        | Mark::Ended { ticket: number }
        | Mark::Taken { conn: number }
        | Mark::Reaped { conn: number }
        | Mark::Closed { conn: number }
        | Mark::Detached { conn: number }
        | Mark::Leaked { conn: number } => format!(in alloc; "{word} {number}\n"),
        Mark::Shut => format!(in alloc; "{word}\n"),
    }
}

// The text of these marks.
fn text_of(alloc: Global, marks: &[Mark]) -> Result<String, AllocError> {
    let mut text = String::new(alloc);
    for mark in marks {
        let line = line(alloc, mark)?;
        text.push_str(&line)?;
    }
    Ok(text)
}

/// Sees that the log of a pool says so.
pub fn tells<C: Depth + Drop, O: Drop, H: Ledger, L: Loans, R: Wait + Abort>(
    rt: &R,
    alloc: Global,
    pool: &LonePool<C, O, H, L>,
    wanted: &str,
) -> Result<(), Fail> {
    let log = pool.read_log(rt, alloc)?;
    let text = text_of(alloc, log.marks())?;
    same_text(rt, &text, wanted);
    Ok(())
}

/// How many loans these marks make.
pub fn lent(marks: &[Mark]) -> u64 {
    marks
        .iter()
        .filter(|m| matches!(m, Mark::Lent { .. }))
        .count() as u64
}
