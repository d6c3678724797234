//! What the program does with the words of its command line.
ghost use Rattle.std.specs.Prelude.{◌≡◌, ◌<◌, ◌≤◌, [], length, IfErr, IsErrOf, OnOk, ◌↔◌};
ghost use Rattle.sqlx_player.specs.Causes.{PlayCause, IsComplete, shown};
ghost use Rattle.sqlx_player.specs.Plays.{HandsScript};
ghost use Rattle.sqlx_jobs_rules.specs.Jobs.{jobs_language};
ghost use Rattle.sqlx_jobs.specs.Plays.{PlaysJobs};

use crate::player::play;
use sqlx_player::{PlayError, Sink, Source};
use std::alloc::Global;

/// How the program is used: no word follows its name.
pub const USAGE: &str = "sqlx_jobs";

// Plays the script of a source, and drops what it left.
fn play_alone<S: Source, K: Sink>(
    alloc: Global,
    source: &mut S,
    sink: &mut K,
) -> Result<(), PlayError>
    ensures ok { OnOk result (PlaysJobs (shown S.left S.faults source.old source.new K.written K.faults sink.old sink.new)) }
    ensures pieces { OnOk result (HandsScript jobs_language (S.left source.old) (S.left source.new) (K.pieces sink.old) (K.pieces sink.new)) }
    ensures cause { IfErr result (PlayCause jobs_language (shown S.left S.faults source.old source.new K.written K.faults sink.old sink.new)) }
    ensures complete { IsComplete jobs_language (shown S.left S.faults source.old source.new K.written K.faults sink.old sink.new) result }
    ensures reads_rise { S.faults source.old ≤ S.faults source.new }
    ensures writes_rise { K.faults sink.old ≤ K.faults sink.new }
{
    match play(alloc, source, sink) {
        Ok(played) => {
            drop(played);
            Ok(())
        }
        Err(error) => Err(error),
    }
}

/// Plays the script of a source, where there is no word.
pub fn run<S: Source, K: Sink>(
    alloc: Global,
    words: &[String],
    source: &mut S,
    sink: &mut K,
) -> Result<(), PlayError>
    // All bytes were read and are a script, and what the rules give was written: no job has two holders, none is finished twice, and behind a fault everything is as if its event hadn't come.
    ensures ok { OnOk result (PlaysJobs (shown S.left S.faults source.old source.new K.written K.faults sink.old sink.new)) }
    // Each reply is handed to the sink by one write, and so is the closing line, where each write takes its piece whole.
    ensures pieces { OnOk result (HandsScript jobs_language (S.left source.old) (S.left source.new) (K.pieces sink.old) (K.pieces sink.new)) }
    // A word is a wrong use: nothing is read or written.
    ensures usage { IsErrOf result PlayError.Usage ↔ (0 < length words.now) }
    ensures unread { 0 < length words.now → source.new ≡ source.old }
    ensures unused { 0 < length words.now → sink.new ≡ sink.old }
    // Each other answer has its cause.
    ensures cause { words.now ≡ [] → IfErr result (PlayCause jobs_language (shown S.left S.faults source.old source.new K.written K.faults sink.old sink.new)) }
    // Without a word a script that is read and written without a fault is played, unless memory runs out.
    ensures complete { words.now ≡ [] → IsComplete jobs_language (shown S.left S.faults source.old source.new K.written K.faults sink.old sink.new) result }
    ensures reads_rise { S.faults source.old ≤ S.faults source.new }
    ensures writes_rise { K.faults sink.old ≤ K.faults sink.new }
{
    if words.is_empty() {
        play_alone(alloc, source, sink)
    } else {
        Err(PlayError::Usage)
    }
}
