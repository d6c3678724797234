//! What the program does with the words of its command line.
ghost use Rattle.std.specs.Prelude.{◌≡◌, ◌<◌, ◌≤◌, [], length, IfErr, IsErrOf, OnOk, ◌↔◌};
ghost use Rattle.sqlx_player.specs.Causes.{PlayCause, IsComplete, shown};
ghost use Rattle.sqlx_player.specs.Plays.{HandsScript};
ghost use Rattle.sqlx_steps_rules.specs.Rules.{steps_language};
ghost use Rattle.sqlx_steps.specs.Program.{PlaysSteps};

use crate::runner::StepRunner;
use sqlx_player::{PlayError, Sink, Source, play_by};
use std::alloc::Global;

/// How the program is used: no word follows its name.
pub const USAGE: &str = "sqlx_steps";

// Plays the script of a source.
fn play<S: Source, K: Sink>(alloc: Global, source: &mut S, sink: &mut K) -> Result<(), PlayError>
    ensures ok { OnOk result (PlaysSteps (shown S.left S.faults source.old source.new K.written K.faults sink.old sink.new)) }
    ensures pieces { OnOk result (HandsScript steps_language (S.left source.old) (S.left source.new) (K.pieces sink.old) (K.pieces sink.new)) }
    ensures cause { IfErr result (PlayCause steps_language (shown S.left S.faults source.old source.new K.written K.faults sink.old sink.new)) }
    ensures complete { IsComplete steps_language (shown S.left S.faults source.old source.new K.written K.faults sink.old sink.new) result }
    ensures reads_rise { S.faults source.old ≤ S.faults source.new }
    ensures writes_rise { K.faults sink.old ≤ K.faults sink.new }
{
    match play_by::<StepRunner, S, K>(alloc, source, sink) {
        Ok(runner) => {
            drop(runner);
            Ok(())
        }
        Err(error) => Err(error),
    }
}

/// Plays the script of a source, where there is no word.
pub fn run<S: Source, K: Sink>(
    alloc: Global,
    words: &[String],
    source: &mut S,
    sink: &mut K,
) -> Result<(), PlayError>
    // All bytes were read and are a script, and what the rules give was written.
    ensures ok { OnOk result (PlaysSteps (shown S.left S.faults source.old source.new K.written K.faults sink.old sink.new)) }
    // Each reply is handed to the sink by one write, and so is the closing line, where each write takes its piece whole.
    ensures pieces { OnOk result (HandsScript steps_language (S.left source.old) (S.left source.new) (K.pieces sink.old) (K.pieces sink.new)) }
    // A word is a wrong use: nothing is read or written.
    ensures usage { IsErrOf result PlayError.Usage ↔ (0 < length words.now) }
    ensures unread { 0 < length words.now → source.new ≡ source.old }
    ensures unused { 0 < length words.now → sink.new ≡ sink.old }
    // Each other answer has its cause.
    ensures cause { words.now ≡ [] → IfErr result (PlayCause steps_language (shown S.left S.faults source.old source.new K.written K.faults sink.old sink.new)) }
    // Without a word a script that is read and written without a fault is played, unless memory runs out.
    ensures complete { words.now ≡ [] → IsComplete steps_language (shown S.left S.faults source.old source.new K.written K.faults sink.old sink.new) result }
    ensures reads_rise { S.faults source.old ≤ S.faults source.new }
    ensures writes_rise { K.faults sink.old ≤ K.faults sink.new }
{
    if words.is_empty() {
        play(alloc, source, sink)
    } else {
        Err(PlayError::Usage)
    }
}
