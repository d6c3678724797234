//! Plays a script.
ghost use Rattle.std.specs.Prelude.{◌≡◌, ◌≤◌, ℕ, List, IfOk, IfErr};
ghost use Rattle.sqlx_player.specs.Causes.{TookAll, shown};
ghost use Rattle.sqlx_player.specs.Plays.{HandsScript};
ghost use Rattle.sqlx_script_rules.specs.Output.{pool_language};
ghost use Rattle.sqlx_play.specs.Causes.{PlayCause, IsComplete};
ghost use Rattle.sqlx_play.specs.Plays.{Plays};

use sqlx_play::{PlayError, Played, Sink, Source, play_by};
use sqlx_play_client::ByDriver;
use std::alloc::Global;

/// Reads a script to its end, plays it, and writes each reply and the closing report. The acts of clients are queries
/// and transactions on the driver of the database in memory.
pub fn play<S: Source, K: Sink>(
    alloc: Global,
    source: &mut S,
    sink: &mut K,
) -> Result<Played, PlayError>
    // All bytes were read, they are a script, and its output was written.
    ensures ok { IfOk result (λ played. (bytes : List ℕ) × TookAll (S.left source.old) (S.left source.new) bytes
        × Plays bytes (K.written sink.old) (K.written sink.new) played.core.pool played.store) }
    // Each reply is handed to the sink by one write, and so is the closing report, where each write takes its piece whole.
    ensures pieces { IfOk result (λ _. HandsScript pool_language (S.left source.old) (S.left source.new) (K.pieces sink.old) (K.pieces sink.new)) }
    // Each other answer has its cause.
    ensures cause { IfErr result (PlayCause (shown S.left S.faults source.old source.new K.written K.faults sink.old sink.new)) }
    // A script that is read and written without a fault is played, unless memory runs out.
    ensures complete { IsComplete (shown S.left S.faults source.old source.new K.written K.faults sink.old sink.new) result }
    ensures reads_rise { S.faults source.old ≤ S.faults source.new }
    ensures writes_rise { K.faults sink.old ≤ K.faults sink.new }
{
    play_by::<ByDriver, S, K>(alloc, source, sink)
}
