//! The program for scripts alone: plays the script on its standard input, and writes the replies to its standard
//! output. It stands on the player, and knows no threads and no words.
#![tactic(auto)]

use sqlx_play::{ByStore, PlayError, StdSink, StdSource, play_by, status};
use std::io;
use std::io::BufWriter;
use std::process::ExitCode;

// Plays the standard input. What the buffer holds back at the end is written then; a refusal of that is a write fault too.
fn play_input(rt: &HostRuntime) -> Result<(), PlayError> {
    let alloc = rt.alloc();
    let Ok(buffer) = BufWriter::new(alloc, io::writer(rt)) else {
        return Err(PlayError::OutOfMemory);
    };
    let mut source = StdSource::new(rt.reader());
    let mut sink = StdSink::new(buffer);
    let answer = match play_by::<ByStore, _, _>(alloc, &mut source, &mut sink) {
        Ok(played) => {
            drop(played);
            Ok(())
        }
        Err(error) => Err(error),
    };
    match sink.flush() {
        Ok(()) => answer,
        Err(_) => Err(PlayError::WriteFault),
    }
}

fn main(rt: HostRuntime) -> ExitCode {
    let answer = play_input(&rt);
    if let Err(error) = &answer {
        let _ = eprintln!(rt; "{error}");
    }
    ExitCode::from(status(&answer))
}
