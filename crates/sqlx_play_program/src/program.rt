//! What the program does.
ghost use Rattle.std.specs.Prelude.{◌≡◌, ◌≢◌, ◌≤◌, ◌↔◌, map, string_bytes, IfErr, OnOk, IsErrOf};
ghost use Rattle.sqlx_play_program.specs.declared.command.Command.TheVariants.{Play as play_words, Unknown as unknown_words};
ghost use Rattle.sqlx_play_program.specs.Commands.{command_of};
ghost use Rattle.sqlx_player.specs.Causes.{shown};
ghost use Rattle.sqlx_play.specs.Causes.{IsComplete};
ghost use Rattle.sqlx_play_program.specs.Program.{Ran, RunCause};

use crate::crowd::crowd;
use crate::{Command, command_of, make, play};
use sqlx_play::{PlayError, Sink, Source};
use std::alloc::Global;
use std::sync::Wait;
use std::thread::Threads;

/// What the program does with the words of its command line: with none it plays the script of the source, with
/// `make N X` the made script, and with `crowd W N M` it lets a crowd of threads work. Only with `crowd` may it wait.
pub fn run<R: Wait + Threads + Copy + Drop + Send + Sync + 'static, S: Source, K: Sink>(
    rt: &R,
    alloc: Global,
    words: &[String],
    source: &mut S,
    sink: &mut K,
) -> Result<(), PlayError>
    // What was asked for was done.
    ensures ok { OnOk result (Ran (command_of (map string_bytes words.now)) (shown S.left S.faults source.old source.new K.written K.faults sink.old sink.new)) }
    // Other words are a wrong use: nothing is read or written.
    ensures usage { IsErrOf result PlayError.Usage ↔ (command_of (map string_bytes words.now) ≡ unknown_words) }
    ensures unused { command_of (map string_bytes words.now) ≡ unknown_words → sink.new ≡ sink.old }
    // The source is read only where there are no words.
    ensures unread { command_of (map string_bytes words.now) ≢ play_words → source.new ≡ source.old }
    // Each other answer has its cause.
    ensures cause { IfErr result (RunCause (command_of (map string_bytes words.now)) (shown S.left S.faults source.old source.new K.written K.faults sink.old sink.new)) }
    // Without a word a script that is read and written without a fault is played, unless memory runs out.
    ensures complete { command_of (map string_bytes words.now) ≡ play_words
        → IsComplete (shown S.left S.faults source.old source.new K.written K.faults sink.old sink.new) result }
    ensures reads_rise { S.faults source.old ≤ S.faults source.new }
    ensures writes_rise { K.faults sink.old ≤ K.faults sink.new }
{
    match command_of(words) {
        Command::Play => {
            let played = play(alloc, source, sink)?;
            drop(played);
            Ok(())
        }
        Command::Make { lines, seed } => make(alloc, lines, seed, sink),
        Command::Crowd {
            workers,
            loans,
            maximum,
        } => crowd(rt, alloc, workers, loans, maximum, sink),
        Command::Unknown => Err(PlayError::Usage),
    }
}
