//! The program of tenants: plays the script on its standard input, and writes the replies to its standard output. It
//! knows no words.
#![tactic(auto)]

use sqlx_tenants::{PlayError, Program, Sink, Source, USAGE, run, run_program};
use std::alloc::Global;
use std::process::ExitCode;

struct Tenants;

impl Program for Tenants {
    fn run<S: Source, K: Sink>(
        &self,
        alloc: Global,
        words: &[String],
        source: &mut S,
        sink: &mut K,
    ) -> Result<(), PlayError> {
        run(alloc, words, source, sink)
    }
}

fn main(rt: HostRuntime) -> ExitCode {
    run_program(&rt, USAGE, &Tenants)
}
