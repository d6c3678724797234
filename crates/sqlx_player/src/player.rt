//! Plays a script.
ghost use Rattle.std.specs.Prelude.{◌≡◌, ◌^◌, ◌≤◌, ℕ, List, [], length, IfOk, IfErr, OnOk};
ghost use Rattle.std.specs.Io.KnownBytes.{Appends};
ghost use Rattle.sqlx_player.specs.Language.{Language, Pairs};
ghost use Rattle.sqlx_lines.specs.Scripts.{limit, script_of};
ghost use Rattle.sqlx_player.specs.Responds.{IsDue};
ghost use Rattle.sqlx_player.specs.Causes.{TookAll, WrotePart, TextCause, ScriptCause, PlayCause, IsComplete, shown};
ghost use Rattle.sqlx_player.specs.Pieces.{GrowsBy, pieces_of};
ghost use Rattle.sqlx_player.specs.Output.{pieces_due};
ghost use Rattle.sqlx_player.specs.Plays.{Replies, RepliesInPart, HandsReply, PlaysLines, lines_pieces, LinesCause, Plays, HandsScript};

use crate::error::PlayError;
use crate::io::{Sink, Source};
use crate::pour::{read_all, write_all};
use crate::responder::Responder;
use sqlx_lines::OutputLine;
use std::alloc::Global;

// Plays an event and writes its reply.
#[tactic(auto, using(crate::proofs::scripts::Parts::none_yet))]
#[inline(always)]
fn play_event<A: Responder, K: Sink>(
    alloc: Global,
    responder: &mut A,
    event: &A::Event,
    line: &mut OutputLine,
    sink: &mut K,
) -> Result<(), PlayError>
    requires { IsDue A.language (A.stands responder.old) event.now }
    ensures ok { OnOk result (Replies A.language (A.stands responder.old) (A.stands responder.new) event.now (K.written sink.old) (K.written sink.new)) }
    ensures pieces { OnOk result (HandsReply A.language (A.stands responder.old) event.now (K.pieces sink.old) (K.pieces sink.new)) }
    ensures rises { K.faults sink.old ≤ K.faults sink.new }
    ensures cause { IfErr result (TextCause (λ _. ⊥) (RepliesInPart A.language (A.stands responder.old) event.now (K.written sink.old) (K.written sink.new)) (K.faults sink.old) (K.faults sink.new)) }
{
    responder.answer(alloc, event, line)?;
    write_all(sink, line.as_str().as_bytes())
}

// Plays the lines after the first.
fn play_lines<A: Responder, K: Sink>(
    alloc: Global,
    responder: &mut A,
    text: &[u8],
    reply: &mut OutputLine,
    sink: &mut K,
) -> Result<(), PlayError>
    requires fresh { (first : A.First) × A.stands responder.old first [] }
    requires short { length text.now ≤ limit }
    ensures ok { OnOk result ((first : A.First) → A.stands responder.old first [] → PlaysLines A.language (A.stands responder.new) text.now (K.written sink.old) (K.written sink.new) first) }
    ensures pieces { OnOk result ((first : A.First) → A.stands responder.old first [] → GrowsBy (K.pieces sink.old) (K.pieces sink.new) (lines_pieces A.language first text.now)) }
    ensures rises { K.faults sink.old ≤ K.faults sink.new }
    ensures cause { IfErr result (λ e. (first : A.First) → A.stands responder.old first [] → LinesCause A.language text.now (K.written sink.old) (K.written sink.new) first (K.faults sink.old) (K.faults sink.new) e) }
{
    let mut rest = text;
    let mut number: u64 = 2;
    while !rest.is_empty() {
        let Some(line) = responder.read(rest) else {
            return Err(PlayError::ScriptLine(number));
        };
        if let Err(error) = play_event::<A, K>(alloc, responder, &line.says, reply, sink) {
            return Err(error);
        }
        rest = line.behind;
        number += 1;
    }
    Ok(())
}

// Writes the closing line, by one call if the sink takes it whole.
fn write_closing<A: Responder, K: Sink>(
    alloc: Global,
    responder: &mut A,
    line: &mut OutputLine,
    sink: &mut K,
) -> Result<(), PlayError>
    ensures ok { OnOk result ((first : A.First) (pairs : Pairs A.Event A.Reply) → A.stands responder.old first pairs
        → Appends (K.written sink.old) (K.written sink.new) (A.language.rules.closing first pairs) × A.stands responder.new first pairs) }
    ensures pieces { OnOk result ((first : A.First) (pairs : Pairs A.Event A.Reply) → A.stands responder.old first pairs
        → GrowsBy (K.pieces sink.old) (K.pieces sink.new) (pieces_of (A.language.rules.closing first pairs))) }
    ensures rises { K.faults sink.old ≤ K.faults sink.new }
    ensures cause { IfErr result (TextCause (λ _. ⊥)
        ((first : A.First) (pairs : Pairs A.Event A.Reply) → A.stands responder.old first pairs → WrotePart (K.written sink.old) (K.written sink.new) (A.language.rules.closing first pairs))
        (K.faults sink.old) (K.faults sink.new)) }
{
    responder.close(alloc, line)?;
    write_all(sink, line.as_str().as_bytes())
}

// Plays a script that was read whole.
fn play_text<A: Responder, K: Sink>(
    alloc: Global,
    text: &[u8],
    sink: &mut K,
) -> Result<A, PlayError>
    requires { length text.now ≤ limit }
    ensures ok { IfOk result (λ responder. Plays A.language (A.stands responder) text.now (K.written sink.old) (K.written sink.new)) }
    ensures pieces { IfOk result (λ _. GrowsBy (K.pieces sink.old) (K.pieces sink.new) (pieces_due A.language.rules (script_of A.language.grammar text.now))) }
    ensures rises { K.faults sink.old ≤ K.faults sink.new }
    ensures cause { IfErr result (ScriptCause A.language text.now (K.written sink.old) (K.written sink.new) (K.faults sink.old) (K.faults sink.new)) }
{
    if text.is_empty() {
        return Err(PlayError::ScriptLine(1));
    }
    let Some(first) = A::open(alloc, text)? else {
        return Err(PlayError::ScriptLine(1));
    };
    let mut responder = first.says;
    let mut line = OutputLine::new();
    if let Err(error) = play_lines::<A, K>(alloc, &mut responder, first.behind, &mut line, sink) {
        drop(responder);
        return Err(error);
    }
    if let Err(error) = write_closing::<A, K>(alloc, &mut responder, &mut line, sink) {
        drop(responder);
        return Err(error);
    }
    Ok(responder)
}

// Reads a script to its end and plays it.
fn play_source<A: Responder, S: Source, K: Sink>(
    alloc: Global,
    source: &mut S,
    sink: &mut K,
) -> Result<A, PlayError>
    ensures ok { IfOk result (λ responder. (bytes : List ℕ) × TookAll (S.left source.old) (S.left source.new) bytes
        × Plays A.language (A.stands responder) bytes (K.written sink.old) (K.written sink.new)) }
    ensures pieces { IfOk result (λ _. HandsScript A.language (S.left source.old) (S.left source.new) (K.pieces sink.old) (K.pieces sink.new)) }
    ensures reads_rise { S.faults source.old ≤ S.faults source.new }
    ensures writes_rise { K.faults sink.old ≤ K.faults sink.new }
    ensures cause { IfErr result (PlayCause A.language (shown S.left S.faults source.old source.new K.written K.faults sink.old sink.new)) }
{
    let text = read_all(alloc, source)?;
    play_text::<A, K>(alloc, &text, sink)
}

/// Reads a script to its end, plays it on a responder, and writes each reply and the closing line.
#[tactic(auto, using(crate::proofs::scripts::Complete::is_complete))]
pub fn play_by<A: Responder, S: Source, K: Sink>(
    alloc: Global,
    source: &mut S,
    sink: &mut K,
) -> Result<A, PlayError>
    // All bytes were read, they are a script, its output was written, and the responder stands for all of it.
    ensures ok { IfOk result (λ responder. (bytes : List ℕ) × TookAll (S.left source.old) (S.left source.new) bytes
        × Plays A.language (A.stands responder) bytes (K.written sink.old) (K.written sink.new)) }
    // Each reply is handed to the sink by one write, and so is the closing line, where each write takes its piece whole.
    ensures pieces { IfOk result (λ _. HandsScript A.language (S.left source.old) (S.left source.new) (K.pieces sink.old) (K.pieces sink.new)) }
    // Each other answer has its cause.
    ensures cause { IfErr result (PlayCause A.language (shown S.left S.faults source.old source.new K.written K.faults sink.old sink.new)) }
    // A script that is read and written without a fault is played, unless memory runs out.
    ensures complete { IsComplete A.language (shown S.left S.faults source.old source.new K.written K.faults sink.old sink.new) result }
    ensures reads_rise { S.faults source.old ≤ S.faults source.new }
    ensures writes_rise { K.faults sink.old ≤ K.faults sink.new }
{
    play_source::<A, S, K>(alloc, source, sink)
}
