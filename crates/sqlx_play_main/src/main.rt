//! The program: plays the script on its standard input, or does what its words ask for, and writes to its standard output.
#![tactic(auto)]

use sqlx_play_program::{
    ErrorText, PlayError, StdSink, StdSource, USAGE, command_words, run, status,
};
use std::alloc::Global;
use std::io::{self, BufWriter, Input, Print};
use std::process::ExitCode;
use std::sync::Wait;
use std::thread::Threads;

// Runs over the standard input and output. What the buffer holds back at the end is written then; a refusal of that is a write fault too.
fn run_on<R: Input + Print + Wait + Threads + Copy + Drop + Send + Sync + 'static>(
    rt: &R,
    alloc: Global,
    words: &[String],
) -> Result<(), PlayError> {
    let Ok(buffer) = BufWriter::new(alloc, io::writer(rt)) else {
        return Err(PlayError::OutOfMemory);
    };
    let mut source = StdSource::new(rt.reader());
    let mut sink = StdSink::new(buffer);
    let answer = run(rt, alloc, words, &mut source, &mut sink);
    match sink.flush() {
        Ok(()) => answer,
        Err(_) => Err(PlayError::WriteFault),
    }
}

fn main(rt: HostRuntime) -> ExitCode {
    let answer = match command_words(&rt) {
        Ok(words) => run_on(&rt, rt.alloc(), &words),
        Err(error) => Err(error),
    };
    if let Err(error) = answer {
        let text = ErrorText {
            error,
            usage: USAGE,
        };
        let _ = eprintln!(rt; "{text}");
    }
    ExitCode::from(status(&answer))
}
