//! Plays a script of a job queue.
ghost use Rattle.std.specs.Prelude.{◌≤◌, IfOk, IfErr};
ghost use Rattle.sqlx_player.specs.Causes.{PlayCause, IsComplete, shown};
ghost use Rattle.sqlx_player.specs.Plays.{HandsScript};
ghost use Rattle.sqlx_jobs_rules.specs.Jobs.{jobs_language};
ghost use Rattle.sqlx_jobs.specs.Plays.{PlaysOn};

use crate::queue::JobQueue;
use sqlx_play::Played;
use sqlx_play_acts::Route;
use sqlx_play_client::ByDriver;
use sqlx_player as player;
use sqlx_player::{PlayError, Sink, Source};
use std::alloc::Global;

/// Plays the script of a source, and gives what it left. Statements take the way R to the database.
pub fn play_by<R: Route, S: Source, K: Sink>(
    alloc: Global,
    source: &mut S,
    sink: &mut K,
) -> Result<Played, PlayError>
    // All bytes were read and are a script, what the rules give was written, and the database counted its work.
    ensures ok { IfOk result (λ played. PlaysOn played.store (shown S.left S.faults source.old source.new K.written K.faults sink.old sink.new)) }
    // Each reply is handed to the sink by one write, and so is the closing line, where each write takes its piece whole.
    ensures pieces { IfOk result (λ _. HandsScript jobs_language (S.left source.old) (S.left source.new) (K.pieces sink.old) (K.pieces sink.new)) }
    // Each other answer has its cause.
    ensures cause { IfErr result (PlayCause jobs_language (shown S.left S.faults source.old source.new K.written K.faults sink.old sink.new)) }
    // A script that is read and written without a fault is played, unless memory runs out.
    ensures complete { IsComplete jobs_language (shown S.left S.faults source.old source.new K.written K.faults sink.old sink.new) result }
    ensures reads_rise { S.faults source.old ≤ S.faults source.new }
    ensures writes_rise { K.faults sink.old ≤ K.faults sink.new }
{
    match player::play_by::<JobQueue<R>, S, K>(alloc, source, sink) {
        Ok(queue) => {
            let (core, store) = queue.into_parts();
            Ok(Played { core, store })
        }
        Err(error) => Err(error),
    }
}

/// The same with each level by a transaction and each statement by a query.
pub fn play<S: Source, K: Sink>(
    alloc: Global,
    source: &mut S,
    sink: &mut K,
) -> Result<Played, PlayError>
    ensures ok { IfOk result (λ played. PlaysOn played.store (shown S.left S.faults source.old source.new K.written K.faults sink.old sink.new)) }
    ensures pieces { IfOk result (λ _. HandsScript jobs_language (S.left source.old) (S.left source.new) (K.pieces sink.old) (K.pieces sink.new)) }
    ensures cause { IfErr result (PlayCause jobs_language (shown S.left S.faults source.old source.new K.written K.faults sink.old sink.new)) }
    ensures complete { IsComplete jobs_language (shown S.left S.faults source.old source.new K.written K.faults sink.old sink.new) result }
    ensures reads_rise { S.faults source.old ≤ S.faults source.new }
    ensures writes_rise { K.faults sink.old ≤ K.faults sink.new }
{
    play_by::<ByDriver, S, K>(alloc, source, sink)
}
