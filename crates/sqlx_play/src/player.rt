//! Plays a script of the pool.
ghost use Rattle.std.specs.Prelude.{◌≤◌, ℕ, List, IfOk, IfErr};
ghost use Rattle.sqlx_player.specs.Causes.{TookAll, shown};
ghost use Rattle.sqlx_player.specs.Plays.{HandsScript};
ghost use Rattle.sqlx_script_rules.specs.Output.{pool_language};
ghost use Rattle.sqlx_play.specs.Causes.{PlayCause, IsComplete};
ghost use Rattle.sqlx_play.specs.Plays.{Plays};

use crate::pool_stage::{Played, PoolStage};
use sqlx_play_acts::Route;
use sqlx_player::{PlayError, Sink, Source, play_by as play_script};
use std::alloc::Global;

/// Reads a script to its end, plays it, and writes each reply and the closing report. The acts of clients take the way
/// R to the database; the replies are the same by any.
pub fn play_by<R: Route, S: Source, K: Sink>(
    alloc: Global,
    source: &mut S,
    sink: &mut K,
) -> Result<Played, PlayError>
    // All bytes were read, they are a script, and its output was written.
    ensures ok { IfOk result (λ played. (bytes : List ℕ) × TookAll (S.left source.old) (S.left source.new) bytes
        × Plays bytes (K.written sink.old) (K.written sink.new) played.core.pool played.store) }
    // Each reply is handed to the sink by one write, and so is the closing report, where each write takes its piece whole.
    ensures pieces { IfOk result (λ _. HandsScript pool_language (S.left source.old) (S.left source.new) (K.pieces sink.old) (K.pieces sink.new)) }
    // Each other answer has its cause.
    ensures cause { IfErr result (PlayCause (shown S.left S.faults source.old source.new K.written K.faults sink.old sink.new)) }
    // A script that is read and written without a fault is played, unless memory runs out.
    ensures complete { IsComplete (shown S.left S.faults source.old source.new K.written K.faults sink.old sink.new) result }
    ensures reads_rise { S.faults source.old ≤ S.faults source.new }
    ensures writes_rise { K.faults sink.old ≤ K.faults sink.new }
{
    match play_script::<PoolStage<R>, S, K>(alloc, source, sink) {
        Ok(left) => Ok(left.into_played()),
        Err(error) => Err(error),
    }
}
