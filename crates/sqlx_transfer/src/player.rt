//! Plays a script of transfers.
ghost use Rattle.std.specs.Prelude.{◌≤◌, IfOk, IfErr};
ghost use Rattle.sqlx_player.specs.Causes.{PlayCause, IsComplete, shown};
ghost use Rattle.sqlx_player.specs.Plays.{HandsScript};
ghost use Rattle.sqlx_transfer_rules.specs.Rules.{transfer_language};
ghost use Rattle.sqlx_transfer.specs.Plays.{PlaysOn};

use crate::bank::Bank;
use sqlx_play::Played;
use sqlx_play_acts::Route;
use sqlx_play_client::ByDriver;
use sqlx_player as player;
use sqlx_player::{PlayError, Sink, Source};
use std::alloc::Global;

/// Plays the script of a source, and gives what it left. Statements take the way R to the database.
pub fn play_by<R: Route, S: Source, K: Sink>(
    alloc: Global,
    source: &mut S,
    sink: &mut K,
) -> Result<Played, PlayError>
    // All bytes were read and are a script, what the rules give was written, the rows hold the committed balances, and the database counted its levels.
    ensures ok { IfOk result (λ played. PlaysOn played.store (shown S.left S.faults source.old source.new K.written K.faults sink.old sink.new)) }
    // Each reply is handed to the sink by one write, and so is the closing line, where each write takes its piece whole.
    ensures pieces { IfOk result (λ _. HandsScript transfer_language (S.left source.old) (S.left source.new) (K.pieces sink.old) (K.pieces sink.new)) }
    // Each other answer has its cause.
    ensures cause { IfErr result (PlayCause transfer_language (shown S.left S.faults source.old source.new K.written K.faults sink.old sink.new)) }
    // A script that is read and written without a fault is played, unless memory runs out.
    ensures complete { IsComplete transfer_language (shown S.left S.faults source.old source.new K.written K.faults sink.old sink.new) result }
    ensures reads_rise { S.faults source.old ≤ S.faults source.new }
    ensures writes_rise { K.faults sink.old ≤ K.faults sink.new }
{
    match player::play_by::<Bank<R>, S, K>(alloc, source, sink) {
        Ok(bank) => {
            let (core, store) = bank.into_parts();
            Ok(Played { core, store })
        }
        Err(error) => Err(error),
    }
}

/// The same with each level by a transaction and each statement by a query.
pub fn play<S: Source, K: Sink>(
    alloc: Global,
    source: &mut S,
    sink: &mut K,
) -> Result<Played, PlayError>
    ensures ok { IfOk result (λ played. PlaysOn played.store (shown S.left S.faults source.old source.new K.written K.faults sink.old sink.new)) }
    ensures pieces { IfOk result (λ _. HandsScript transfer_language (S.left source.old) (S.left source.new) (K.pieces sink.old) (K.pieces sink.new)) }
    ensures cause { IfErr result (PlayCause transfer_language (shown S.left S.faults source.old source.new K.written K.faults sink.old sink.new)) }
    ensures complete { IsComplete transfer_language (shown S.left S.faults source.old source.new K.written K.faults sink.old sink.new) result }
    ensures reads_rise { S.faults source.old ≤ S.faults source.new }
    ensures writes_rise { K.faults sink.old ≤ K.faults sink.new }
{
    play_by::<ByDriver, S, K>(alloc, source, sink)
}
