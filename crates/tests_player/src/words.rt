//! The program by the words of its command line.
use sqlx_play_program::{PlayError, SureSink, SureSource, run};
use std::alloc::Global;
use std::sync::Wait;
use std::thread::Threads;

/// Runs the program with these words and an empty source.
pub fn run_words<R: Wait + Threads + Copy + Drop + Send + Sync + 'static>(
    rt: &R,
    alloc: Global,
    words: &[&str],
    sink: &mut SureSink,
) -> Result<(), PlayError> {
    let mut all = Vec::new(alloc);
    for word in words {
        if all.push(String::from_str(alloc, word)?).is_err() {
            return Err(PlayError::OutOfMemory);
        }
    }
    let mut source = SureSource::new(Vec::new(alloc));
    run(rt, alloc, &all, &mut source, sink)
}

// Whether these words are a wrong use, for which nothing is written.
fn is_wrong_use<R: Wait + Threads + Copy + Drop + Send + Sync + 'static>(
    rt: &R,
    alloc: Global,
    words: &[&str],
) -> bool {
    let mut sink = SureSink::new(alloc);
    let answer = run_words(rt, alloc, words, &mut sink);
    answer == Err(PlayError::Usage) && sink.written().is_empty()
}

/// How many of the rows of words are a wrong use, up to the first one that is none.
pub fn wrong_uses<R: Wait + Threads + Copy + Drop + Send + Sync + 'static>(
    rt: &R,
    alloc: Global,
    rows: &[&[&str]],
) -> usize {
    for at in 0..rows.len() {
        if !is_wrong_use(rt, alloc, rows[at]) {
            return at;
        }
    }
    rows.len()
}
