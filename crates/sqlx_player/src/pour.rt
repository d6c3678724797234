//! Reads a source to its end, and writes whole texts.
ghost use Rattle.std.specs.Prelude.{◌≡◌, ◌≤◌, ◌⊎◌, IfOk, IfErr, OnOk, vec_len};
ghost use Rattle.std.specs.Io.KnownBytes.{Appends};
ghost use Rattle.sqlx_lines.specs.Scripts.{limit};
ghost use Rattle.sqlx_player.specs.Causes.{TookAll, ReadCause, TextCause, WrotePart};
ghost use Rattle.sqlx_player.specs.Pieces.{HandsOut};

use crate::error::PlayError;
use crate::failed::Failed;
use crate::io::{Sink, Source};
use std::alloc::Global;

// How many bytes a script may have.
const LIMIT: usize = 1_048_576;

// For how many bytes there is room at first.
const FIRST: usize = 262_144;

/// All that the source has, if it isn't more than a script may have.
pub fn read_all<S: Source>(alloc: Global, source: &mut S) -> Result<Vec<u8>, PlayError>
    ensures ok { IfOk result (λ text. TookAll (S.left source.old) (S.left source.new) text.items × (vec_len text ≤ limit)) }
    ensures rises { S.faults source.old ≤ S.faults source.new }
    ensures cause { IfErr result (ReadCause (S.left source.old) (S.left source.new) (S.faults source.old) (S.faults source.new)) }
{
    let mut text = Vec::with_capacity(alloc, FIRST)?;
    let mut buf = [0u8; 4096];
    while text.len() <= LIMIT {
        let n = match source.read(&mut buf) {
            Ok(n) => n,
            Err(Failed::Fault) => return Err(PlayError::ReadFault),
            Err(Failed::OutOfMemory) => return Err(PlayError::OutOfMemory),
        };
        if n == 0 {
            return Ok(text);
        }
        text.extend_from_slice(&buf[..n])?;
    }
    Err(PlayError::ScriptTooLong)
}

#[tactic(auto, using(crate::proofs::Pieces::handed_all, crate::proofs::Pieces::handed_none, crate::proofs::Pieces::handed_nothing))]
/// Writes all of a text, by one call and further ones for what that didn't take.
pub fn write_all<K: Sink>(sink: &mut K, text: &[u8]) -> Result<(), PlayError>
    ensures ok { OnOk result (Appends (K.written sink.old) (K.written sink.new) text.now) }
    ensures pieces { HandsOut (K.pieces sink.old) (K.pieces sink.new) text.now result }
    ensures rises { K.faults sink.old ≤ K.faults sink.new }
    ensures cause { IfErr result (TextCause (λ _. ⊥) (WrotePart (K.written sink.old) (K.written sink.new) text.now) (K.faults sink.old) (K.faults sink.new)) }
{
    let mut rest = text;
    while !rest.is_empty() {
        match sink.write(rest) {
            Ok(0) => return Err(PlayError::WriteFault),
            Ok(n) => rest = &rest[n..],
            Err(Failed::Fault) => return Err(PlayError::WriteFault),
            Err(Failed::OutOfMemory) => return Err(PlayError::OutOfMemory),
        }
    }
    Ok(())
}
