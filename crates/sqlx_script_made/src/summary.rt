//! The summary of what was written for a script.
ghost use Rattle.std.specs.Prelude.{◌≡◌, ◌+◌, ◌-◌, ◌<◌, ◌≤◌, ◌^◌, [], IfOk, codes};
ghost use Rattle.sqlx_lines.specs.Words.{lines_of, line_of};
ghost use Rattle.sqlx_script_made.specs.Summary.{one_for, beginning, last_of, summary_text};

use sqlx_lines::cut_line;
use std::alloc::{AllocError, Global};

// What the lines of a text tell: how many are of each kind, and the last one, which is empty where there is none.
struct Told<'a> {
    ready: u64,
    kept: u64,
    closed: u64,
    last: &'a [u8],
}

// One for a line that begins with these bytes.
#[inline(always)]
fn one_if(line: &[u8], front: &[u8]) -> u64
    ensures is { result ≡ one_for front.now line.now }
    ensures once { result ≤ 1 }
{
    u64::from(line.starts_with(front))
}

// A further line. Its first byte tells of which kind it can be.
#[inline(always)]
fn add<'a>(told: &mut Told<'a>, line: &'a [u8])
    requires few { (told.old.ready < 2 ^ 64 - 1) × (told.old.kept < 2 ^ 64 - 1) × (told.old.closed < 2 ^ 64 - 1) }
    ensures ready { told.new.ready ≡ told.old.ready + one_for (codes "ready ") line.entry.now }
    ensures kept { told.new.kept ≡ told.old.kept + one_for (line_of (codes "kept")) line.entry.now }
    ensures closed { told.new.closed ≡ told.old.closed + one_for (codes "closed ") line.entry.now }
    ensures last { told.new.last.now ≡ line.entry.now }
{
    match line {
        [b'r', ..] => told.ready += one_if(line, b"ready "),
        [b'k', ..] => told.kept += one_if(line, b"kept\n"),
        [b'c', ..] => told.closed += one_if(line, b"closed "),
        _ => {}
    }
    told.last = line;
}

// Reads the lines of a text.
fn read_lines(text: &[u8]) -> Told<'_>
    ensures ready { result.ready ≡ beginning (codes "ready ") (lines_of text.now) }
    ensures kept { result.kept ≡ beginning (line_of (codes "kept")) (lines_of text.now) }
    ensures closed { result.closed ≡ beginning (codes "closed ") (lines_of text.now) }
    ensures last { result.last.now ≡ last_of [] (lines_of text.now) }
{
    let mut rest = text;
    let mut told = Told {
        ready: 0,
        kept: 0,
        closed: 0,
        last: &text[..0],
    };
    while !rest.is_empty() {
        let (line, after) = cut_line(rest);
        add(&mut told, line);
        rest = after;
    }
    told
}

/// The summary of a script of so many lines for which this was written, the closing report last.
pub fn made_summary(alloc: Global, lines: u32, written: &[u8]) -> Result<Vec<u8>, AllocError>
    ensures { IfOk result (λ text. text.items ≡ summary_text lines (lines_of written.now)) }
{
    let Told {
        ready,
        kept,
        closed,
        last,
    } = read_lines(written);
    let counts = format!(in alloc; "lines {lines}\nready {ready}\nkept {kept}\nclosed {closed}\n")?;
    let mut text = counts.into_bytes();
    text.extend_from_slice(last)?;
    Ok(text)
}
