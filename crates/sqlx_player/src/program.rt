//! A program from its start to its exit status: the words of its command line, its standard input and output, and the
//! text of its fault.
ghost use Rattle.std.specs.Prelude.{◌≡◌, ◌⊎◌, IfErr};

use crate::error::{ErrorText, PlayError, status};
use crate::io::{Sink, Source};
use crate::standard::{StdSink, StdSource};
use std::alloc::{AllocGlobal, Global};
use std::env::{self, Env};
use std::io::{self, BufWriter, Eprint, Input, Print};
use std::process::ExitCode;

/// What a program does.
pub trait Program {
    /// Does what the words of the command line ask for, over a source and a sink.
    fn run<S: Source, K: Sink>(
        &self,
        alloc: Global,
        words: &[String],
        source: &mut S,
        sink: &mut K,
    ) -> Result<(), PlayError>;
}

// Why the words of the command line can't be had: memory was wanting, or one is no text, which is a wrong use.
fn without_words(error: io::Error) -> PlayError
    ensures { (result ≡ PlayError.OutOfMemory) ⊎ (result ≡ PlayError.Usage) }
{
    let is_short = matches!(error.kind(), io::ErrorKind::OutOfMemory);
    drop(error);
    if is_short {
        PlayError::OutOfMemory
    } else {
        PlayError::Usage
    }
}

/// The words of the command line behind the program's own name.
pub fn command_words<R: Env + AllocGlobal>(rt: &R) -> Result<Vec<String>, PlayError>
    ensures { IfErr result (λ e. (e ≡ PlayError.OutOfMemory) ⊎ (e ≡ PlayError.Usage)) }
{
    let mut words = Vec::new(rt.alloc());
    for word in env::args(rt).map_err(without_words)?.skip(1) {
        if words.push(word).is_err() {
            return Err(PlayError::OutOfMemory);
        }
    }
    Ok(words)
}

// Runs over the standard input and output. What the buffer holds back at the end is written then; a refusal of that is a write fault too.
fn run_over<R: Input + Print + AllocGlobal, P: Program>(
    rt: &R,
    program: &P,
    words: &[String],
) -> Result<(), PlayError> {
    let Ok(buffer) = BufWriter::new(rt.alloc(), io::writer(rt)) else {
        return Err(PlayError::OutOfMemory);
    };
    let mut source = StdSource::new(rt.reader());
    let mut sink = StdSink::new(buffer);
    let answer = program.run(rt.alloc(), words, &mut source, &mut sink);
    match sink.flush() {
        Ok(()) => answer,
        Err(_) => Err(PlayError::WriteFault),
    }
}

/// Runs a program on the words of its command line, from the standard input to the standard output. The text of a fault
/// goes to the standard error, and the exit status is that of the answer. `usage` is the program's name and the words
/// that it knows.
pub fn run_program<R: Env + Input + Print + Eprint + AllocGlobal, P: Program>(
    rt: &R,
    usage: &str,
    program: &P,
) -> ExitCode {
    let answer = match command_words(rt) {
        Ok(words) => run_over(rt, program, &words),
        Err(error) => Err(error),
    };
    if let Err(error) = answer {
        let _ = eprintln!(rt; "{}", ErrorText { error, usage });
    }
    ExitCode::from(status(&answer))
}
