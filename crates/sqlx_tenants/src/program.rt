//! Plays the script of a source.
ghost use Rattle.std.specs.Prelude.{◌≡◌, ℕ, ◌≤◌, List, length, IfOk, IfErr, Err, ◌↔◌};
ghost use Rattle.sqlx_player.specs.Causes.{TookAll, PlayCause, IsComplete, shown};
ghost use Rattle.sqlx_player.specs.Plays.{HandsScript};
ghost use Rattle.sqlx_player.specs.declared.error.PlayError.{PlayError};
ghost use Rattle.sqlx_tenants_rules.specs.Rules.{tenants_language};
ghost use Rattle.sqlx_tenants.specs.Served.{Serves, ServesSome, RunCause};

use crate::desk::TenantDesk;
use sqlx_family::Family;
use sqlx_player::{PlayError, Sink, Source, play_by};
use std::alloc::Global;

/// Plays the script of a source, and hands out the family that served it.
pub fn play<S: Source, K: Sink>(
    alloc: Global,
    source: &mut S,
    sink: &mut K,
) -> Result<Family<()>, PlayError>
    // All bytes were read, they are a script, its output was written, and the family keeps its book.
    ensures ok { IfOk result (λ family. (bytes : List ℕ) × TookAll (S.left source.old) (S.left source.new) bytes × Serves family bytes (K.written sink.old) (K.written sink.new)) }
    // Each reply is handed to the sink by one write, and so is the closing line, where each write takes its piece whole.
    ensures pieces { IfOk result (λ _. HandsScript tenants_language (S.left source.old) (S.left source.new) (K.pieces sink.old) (K.pieces sink.new)) }
    // Each other answer has its cause.
    ensures cause { IfErr result (PlayCause tenants_language (shown S.left S.faults source.old source.new K.written K.faults sink.old sink.new)) }
    // A script that is read and written without a fault is played, unless memory runs out.
    ensures complete { IsComplete tenants_language (shown S.left S.faults source.old source.new K.written K.faults sink.old sink.new) result }
    ensures reads_rise { S.faults source.old ≤ S.faults source.new }
    ensures writes_rise { K.faults sink.old ≤ K.faults sink.new }
{
    match play_by::<TenantDesk, S, K>(alloc, source, sink) {
        Ok(desk) => Ok(desk.into_family()),
        Err(error) => Err(error),
    }
}

/// What the program does with the words of its command line: with none it plays the script of the source.
pub fn run<S: Source, K: Sink>(
    alloc: Global,
    words: &[String],
    source: &mut S,
    sink: &mut K,
) -> Result<(), PlayError>
    // All bytes were read, they are a script, and its output was written.
    ensures ok { IfOk result (λ _. (bytes : List ℕ) × TookAll (S.left source.old) (S.left source.new) bytes × ServesSome bytes (K.written sink.old) (K.written sink.new)) }
    // Each reply is handed to the sink by one write, and so is the closing line, where each write takes its piece whole.
    ensures pieces { IfOk result (λ _. HandsScript tenants_language (S.left source.old) (S.left source.new) (K.pieces sink.old) (K.pieces sink.new)) }
    // A word is a wrong use: nothing is read or written.
    ensures usage { (result ≡ Err PlayError.Usage) ↔ (1 ≤ length words.now) }
    ensures unread { 1 ≤ length words.now → source.new ≡ source.old }
    ensures unwritten { 1 ≤ length words.now → sink.new ≡ sink.old }
    // Each other answer has its cause.
    ensures cause { IfErr result (RunCause (shown S.left S.faults source.old source.new K.written K.faults sink.old sink.new)) }
    // Without a word a script that is read and written without a fault is played, unless memory runs out.
    ensures complete { length words.now ≡ 0 → IsComplete tenants_language (shown S.left S.faults source.old source.new K.written K.faults sink.old sink.new) result }
    ensures reads_rise { S.faults source.old ≤ S.faults source.new }
    ensures writes_rise { K.faults sink.old ≤ K.faults sink.new }
{
    if !words.is_empty() {
        return Err(PlayError::Usage);
    }
    match play::<S, K>(alloc, source, sink) {
        Ok(family) => {
            drop(family);
            Ok(())
        }
        Err(error) => Err(error),
    }
}
