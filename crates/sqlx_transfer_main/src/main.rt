//! The program of transfers: plays the script on its standard input, and writes to its standard output.
#![tactic(auto)]

use sqlx_transfer::{PlayError, Program, Sink, Source, USAGE, run, run_program};
use std::alloc::Global;
use std::process::ExitCode;

struct Transfers;

impl Program for Transfers {
    fn run<S: Source, K: Sink>(
        &self,
        alloc: Global,
        words: &[String],
        source: &mut S,
        sink: &mut K,
    ) -> Result<(), PlayError> {
        run(alloc, words, source, sink)
    }
}

fn main(rt: HostRuntime) -> ExitCode {
    run_program(&rt, USAGE, &Transfers)
}
