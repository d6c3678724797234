//! Scripts that are cut, sources and sinks that fail, and what comes of them.
ghost use Rattle.std.specs.Prelude.{◌≡◌, ◌≤◌, None, Some, length};
ghost use Rattle.sqlx_player.specs.Memory.{left_of, read_faults};

use sqlx_play_program::{
    Failed, MemSink, MemSource, PlayError, Sink, Source, SureSink, SureSource, run, status,
};
use std::alloc::Global;
use std::sync::Wait;
use std::thread::Threads;

const SCRIPT: &str =
    "pool 1 0 5 - - ----\nask 0 1\npoll 0 1 1 ++++\nbegin 0 1 1 +\nput 0 1 1 4 9 +\ncommit 0 1 1 +\nget 0 1 1 4 +\ngive 0 1 1 ++ 0\n";

const OUTPUT: &str =
    "ticket 1\nready 1\nlevel 1 BEGIN\nok 1\nlevel 0 COMMIT\nvalue 9\nkept\nheld 0 idle 1 leaked 0 waiting 0\n";

// A source that gives at most 7 bytes at each call.
#[derive(Drop)]
struct Drops {
    inner: MemSource,
}

impl Source for Drops {
    ghost left = { λ s. Some (left_of s.inner) };

    ghost faults = { λ s. read_faults s.inner };

    fn read(&mut self, buf: &mut [u8]) -> Result<usize, Failed> {
        let most = buf.len().min(7);
        self.inner.read(&mut buf[..most])
    }
}

// A sink that takes nothing, and counts its faults.
#[derive(Drop)]
struct Full {
    faults: u64,
}

impl Sink for Full {
    ghost written = { λ _. None };

    ghost pieces = { λ _. None };

    ghost faults = { λ k. k.faults };

    fn write(&mut self, _buf: &[u8]) -> Result<usize, Failed> {
        self.faults = self.faults.saturating_add(1);
        Ok(0)
    }
}

// The number of the line that a cut at this byte leaves bad, if it leaves one.
fn bad_line_of_cut(script: &[u8], cut: usize) -> Option<u64>
    requires { cut ≤ length script.now }
{
    let mut lines: u64 = 1;
    for b in &script[..cut] {
        if *b == b'\n' && lines < u64::MAX {
            lines += 1;
        }
    }
    if cut > 0 && script[cut - 1] == b'\n' {
        None
    } else {
        Some(lines)
    }
}

// The first lines of a text.
fn first_lines(text: &[u8], count: usize) -> &[u8] {
    let mut left = count;
    for (at, b) in text.iter().enumerate() {
        if left == 0 {
            return &text[..at];
        }
        if *b == b'\n' {
            left -= 1;
        }
    }
    text
}

/// Plays a text.
pub fn played<R: Wait + Threads + Copy + Drop + Send + Sync + 'static>(
    rt: &R,
    alloc: Global,
    text: &[u8],
    sink: &mut SureSink,
) -> Result<(), PlayError> {
    let mut source = SureSource::new(Vec::from_slice(alloc, text)?);
    run(rt, alloc, &[], &mut source, sink)
}

// Whether a script that is cut at this byte is played, or stopped at its first bad line.
fn is_stopped_rightly<R: Wait + Threads + Copy + Drop + Send + Sync + 'static>(
    rt: &R,
    alloc: Global,
    script: &[u8],
    cut: usize,
) -> bool
    requires { cut ≤ length script.now }
{
    let mut sink = SureSink::new(alloc);
    let answer = played(rt, alloc, &script[..cut], &mut sink);
    match bad_line_of_cut(script, cut) {
        None => answer.is_ok(),
        Some(line) => answer == Err(PlayError::ScriptLine(line)),
    }
}

#[test]
fn a_script_is_played_or_stopped_at_its_first_bad_line(rt: HostRuntime) -> Result<(), PlayError> {
    let alloc = rt.alloc();
    let script = SCRIPT.as_bytes();
    for cut in 0..script.len() + 1 {
        assert!(rt; is_stopped_rightly(&rt, alloc, script, cut), "cut at {cut}");
    }
    Ok(())
}

#[test]
fn a_whole_script_is_answered(rt: HostRuntime) -> Result<(), PlayError> {
    let alloc = rt.alloc();
    let mut sink = SureSink::new(alloc);
    played(&rt, alloc, SCRIPT.as_bytes(), &mut sink)?;
    assert!(rt; sink.written() == OUTPUT.as_bytes());
    Ok(())
}

// Whether so many newlines are answered so, and nothing is written.
fn are_refused<R: Wait + Threads + Copy + Drop + Send + Sync + 'static>(
    rt: &R,
    alloc: Global,
    newlines: usize,
    wanted: PlayError,
) -> Result<bool, PlayError> {
    let mut source = SureSource::new(vec![in alloc; b'\n'; newlines]?);
    let mut sink = SureSink::new(alloc);
    let answer = run(rt, alloc, &[], &mut source, &mut sink);
    Ok(answer == Err(wanted) && sink.written().is_empty())
}

#[test]
fn newlines_are_no_script(rt: HostRuntime) -> Result<(), PlayError> {
    let alloc = rt.alloc();
    for (count, wanted) in [
        (1_048_577, PlayError::ScriptTooLong),
        (1_048_576, PlayError::ScriptLine(1)),
        (0, PlayError::ScriptLine(1)),
    ] {
        assert!(rt; are_refused(&rt, alloc, count, wanted)?, "{count} newlines");
    }
    Ok(())
}

// Whether a sink that fails behind so many lines is told, with these lines written.
fn write_is_told<R: Wait + Threads + Copy + Drop + Send + Sync + 'static>(
    rt: &R,
    alloc: Global,
    lines: usize,
) -> Result<bool, PlayError> {
    let call = (lines as u64).saturating_add(1);
    let mut source = SureSource::new(Vec::from_slice(alloc, SCRIPT.as_bytes())?);
    let mut sink = MemSink::new(alloc, Vec::from_slice(alloc, &[call])?);
    let answer = run(rt, alloc, &[], &mut source, &mut sink);
    let is_written = sink.written() == first_lines(OUTPUT.as_bytes(), lines);
    Ok(answer == Err(PlayError::WriteFault) && status(&answer) == 6 && is_written)
}

// Whether a source that fails at this read is told, and nothing is written; behind the last read the script is played.
fn read_is_told<R: Wait + Threads + Copy + Drop + Send + Sync + 'static>(
    rt: &R,
    alloc: Global,
    call: u64,
) -> Result<bool, PlayError> {
    let script = SCRIPT.as_bytes();
    let fails = Vec::from_slice(alloc, &[call])?;
    let mut source = Drops {
        inner: MemSource::new(Vec::from_slice(alloc, script)?, fails),
    };
    let mut sink = MemSink::new(alloc, Vec::new(alloc));
    let answer = run(rt, alloc, &[], &mut source, &mut sink);
    if call <= script.len().div_ceil(7) as u64 + 1 {
        Ok(answer == Err(PlayError::ReadFault) && sink.written().is_empty())
    } else {
        Ok(answer.is_ok())
    }
}

#[test]
fn faults_are_told_where_they_come(rt: HostRuntime) -> Result<(), PlayError> {
    let alloc = rt.alloc();
    for lines in 0..8 {
        assert!(rt; write_is_told(&rt, alloc, lines)?, "write behind {lines}");
    }
    for call in 1..20 {
        assert!(rt; read_is_told(&rt, alloc, call)?, "read {call}");
    }
    Ok(())
}

#[test]
fn a_sink_that_takes_nothing_has_failed(rt: HostRuntime) -> Result<(), PlayError> {
    let alloc = rt.alloc();
    let mut source = SureSource::new(Vec::from_slice(alloc, SCRIPT.as_bytes())?);
    let mut sink = Full { faults: 0 };
    let answer = run(&rt, alloc, &[], &mut source, &mut sink);
    assert!(rt; answer == Err(PlayError::WriteFault));
    assert_eq!(rt; sink.faults, 1);
    Ok(())
}
