//! Sources and sinks in memory, for tests and for callers that have the bytes already.
ghost use Rattle.std.specs.Prelude.{◌≡◌, ◌+◌, ◌-◌, ◌<◌, ◌≤◌, [], ◌∷◌, ◌++◌, Some, Ok, IfOk, IfErr, is_ok, if◌then◌else◌, length, take, drop, min, sum, vec_len};
ghost use Rattle.sqlx_player.specs.Calls.{next_call, fails_next};

use crate::failed::Failed;
use crate::io::{Sink, Source};
use std::alloc::Global;

// Copies as many of the bytes from `at` on as `buf` has room for, and answers how many.
fn give(bytes: &[u8], at: usize, buf: &mut [u8]) -> usize
    requires { at ≤ length bytes.now }
    ensures count { result ≡ min (length buf.old) (length bytes.now - at) }
    ensures bytes { take result buf.new ≡ take result (drop at bytes.now) }
{
    let n = buf.len().min(bytes.len() - at);
    buf[..n].copy_from_slice(&bytes[at..at + n]);
    n
}

// What a sink took, piece by piece.
#[derive(Drop)]
struct Taken {
    bytes: Vec<u8>,
    // How long each piece is.
    sizes: Vec<usize>,
    ghost whole: { sum sizes.items ≡ length bytes.items },
}

impl Taken {
    ghost use Rattle.sqlx_player.specs.Memory.{pieces_in};

    // No piece.
    #[tactic(auto, using(crate::proofs::Cuts::cut_nothing))]
    fn new(alloc: Global) -> Self
        ensures bytes { result.bytes.items ≡ [] }
        ensures pieces { pieces_in result ≡ [] }
    {
        Taken {
            bytes: Vec::new(alloc),
            sizes: Vec::new(alloc),
        }
    }

    // Takes a piece whole, or nothing where memory runs out.
    #[tactic(auto, using(crate::proofs::Cuts::cut_grown, crate::proofs::Cuts::sum_grown, crate::proofs::Cuts::cut_same))]
    fn take(&mut self, piece: &[u8]) -> Result<usize, Failed>
        ensures all { IfOk result (λ n. n ≡ length piece.now) }
        ensures bytes { self.new.bytes.items ≡ (if is_ok result then self.old.bytes.items ++ piece.now else self.old.bytes.items) }
        ensures pieces { pieces_in self.new ≡ (if is_ok result then pieces_in self.old ++ piece.now ∷ [] else pieces_in self.old) }
        ensures error { IfErr result (λ e. e ≡ Failed.OutOfMemory) }
    {
        if self.sizes.reserve(1).is_err() || self.bytes.extend_from_slice(piece).is_err() {
            return Err(Failed::OutOfMemory);
        }
        if self.sizes.push(piece.len()).is_err() {
            unreachable!();
        }
        Ok(piece.len())
    }
}

// Counts a call, and tells whether it is among those that fail.
fn count(calls: &mut u64, fails: &[u64]) -> bool
    ensures calls { calls.new ≡ next_call calls.old }
    ensures fails { result ≡ fails_next fails.now calls.old }
{
    *calls = calls.saturating_add(1);
    fails.contains(calls)
}

/// A source that gives its bytes, and fails at the calls whose numbers, from 1 on, are among `fails`.
#[derive(Drop)]
pub struct MemSource {
    bytes: Vec<u8>,
    at: usize,
    fails: Vec<u64>,
    calls: u64,
    faults: u64,
    ghost within: { at ≤ vec_len bytes },
}

impl MemSource {
    ghost use Rattle.sqlx_player.specs.Memory.{left_of, read_fails, read_calls, read_faults};

    /// A source of these bytes that fails at these calls.
    pub fn new(bytes: Vec<u8>, fails: Vec<u64>) -> Self
        ensures left { left_of result ≡ bytes.items }
        ensures fails { read_fails result ≡ fails.items }
        ensures calls { read_calls result ≡ 0 }
        ensures faults { read_faults result ≡ 0 }
    {
        MemSource {
            bytes,
            at: 0,
            fails,
            calls: 0,
            faults: 0,
        }
    }
}

impl Source for MemSource {
    ghost use Rattle.std.specs.Prelude.{◌≡◌, ◌↔◌, ◌≤◌, Some, true, IfOk, IfErr, IsErrOf, length, min};
    ghost use Rattle.std.specs.Io.KnownBytes.{ReadConsumes};
    ghost use Rattle.sqlx_player.specs.Faults.{FailCause};
    ghost use Rattle.sqlx_player.specs.Memory.{left_of, read_fails, read_calls, read_faults};

    ghost left = { λ s. Some (left_of s) };

    ghost faults = { read_faults };

    #[tactic(auto, using(crate::proofs::Fails::no_fault))]
    fn read(&mut self, buf: &mut [u8]) -> Result<usize, Failed>
        ensures within { IfOk result (λ n. n ≤ length buf.new) }
        ensures bytes { ReadConsumes (Some (left_of self.old)) (Some (left_of self.new)) result buf.new }
        ensures rises { read_faults self.old ≤ read_faults self.new }
        ensures failed { IfErr result (FailCause (read_faults self.old) (read_faults self.new)) }
        // It fails exactly at the calls whose numbers it was given, and gives as much as there is room for at the others.
        ensures fails { IsErrOf result Failed.Fault ↔ (fails_next (read_fails self.old) (read_calls self.old) ≡ true) }
        ensures error { IfErr result (λ e. e ≡ Failed.Fault) }
        ensures count { IfOk result (λ n. n ≡ min (length buf.old) (length (left_of self.old))) }
        ensures calls { read_calls self.new ≡ next_call (read_calls self.old) }
        ensures same { read_fails self.new ≡ read_fails self.old }
    {
        if count(&mut self.calls, &self.fails) {
            self.faults = self.faults.saturating_add(1);
            return Err(Failed::Fault);
        }
        let n = give(&self.bytes, self.at, buf);
        self.at += n;
        Ok(n)
    }
}

/// A sink that keeps what is written, and fails at the calls whose numbers, from 1 on, are among `fails`.
#[derive(Drop)]
pub struct MemSink {
    taken: Taken,
    fails: Vec<u64>,
    calls: u64,
    faults: u64,
}

impl MemSink {
    ghost use Rattle.sqlx_player.specs.Memory.{written_of, pieces_taken, write_fails, write_calls, write_faults};

    /// An empty sink that fails at these calls.
    pub fn new(alloc: Global, fails: Vec<u64>) -> Self
        ensures written { written_of result ≡ [] }
        ensures pieces { pieces_taken result ≡ [] }
        ensures fails { write_fails result ≡ fails.items }
        ensures calls { write_calls result ≡ 0 }
        ensures faults { write_faults result ≡ 0 }
    {
        MemSink {
            taken: Taken::new(alloc),
            fails,
            calls: 0,
            faults: 0,
        }
    }

    /// What was written.
    pub fn written(&self) -> &[u8]
        ensures { result.now ≡ written_of self.now }
    {
        &self.taken.bytes
    }
}

impl Sink for MemSink {
    ghost use Rattle.std.specs.Prelude.{◌≡◌, ◌↔◌, ◌<◌, ◌≤◌, Some, Ok, true, IfOk, IfErr, IsErrOf, length};
    ghost use Rattle.std.specs.Io.KnownBytes.{WriteAppends};
    ghost use Rattle.sqlx_player.specs.Faults.{FailCause, HasFaulted};
    ghost use Rattle.sqlx_player.specs.Pieces.{TakesPiece};
    ghost use Rattle.sqlx_player.specs.Memory.{written_of, pieces_taken, write_fails, write_calls, write_faults};

    ghost written = { λ k. Some (written_of k) };

    ghost pieces = { λ k. Some (pieces_taken k) };

    ghost faults = { write_faults };

    #[tactic(auto, using(crate::proofs::Fails::no_fault))]
    fn write(&mut self, buf: &[u8]) -> Result<usize, Failed>
        ensures within { IfOk result (λ n. n ≤ length buf.now) }
        ensures bytes { WriteAppends (Some (written_of self.old)) (Some (written_of self.new)) result buf.now }
        ensures pieces { TakesPiece (Some (pieces_taken self.old)) (Some (pieces_taken self.new)) result buf.now }
        ensures rises { write_faults self.old ≤ write_faults self.new }
        ensures failed { IfErr result (FailCause (write_faults self.old) (write_faults self.new)) }
        ensures nothing { result ≡ Ok 0 → 0 < length buf.now → HasFaulted (write_faults self.old) (write_faults self.new) }
        // It fails exactly at the calls whose numbers it was given, and takes all at the others, unless memory runs out.
        ensures fails { IsErrOf result Failed.Fault ↔ (fails_next (write_fails self.old) (write_calls self.old) ≡ true) }
        ensures all { IfOk result (λ n. n ≡ length buf.now) }
        ensures calls { write_calls self.new ≡ next_call (write_calls self.old) }
        ensures same { write_fails self.new ≡ write_fails self.old }
    {
        if count(&mut self.calls, &self.fails) {
            self.faults = self.faults.saturating_add(1);
            return Err(Failed::Fault);
        }
        self.taken.take(buf)
    }
}

/// A source that gives its bytes and never fails.
#[derive(Drop)]
pub struct SureSource {
    bytes: Vec<u8>,
    at: usize,
    ghost within: { at ≤ vec_len bytes },
}

impl SureSource {
    ghost use Rattle.sqlx_player.specs.Memory.{sure_left};

    /// A source of these bytes.
    pub fn new(bytes: Vec<u8>) -> Self
        ensures { sure_left result ≡ bytes.items }
    {
        SureSource { bytes, at: 0 }
    }
}

impl Source for SureSource {
    ghost use Rattle.std.specs.Prelude.{Some};
    ghost use Rattle.sqlx_player.specs.Memory.{sure_left};

    ghost left = { λ s. Some (sure_left s) };

    ghost faults = { λ s. 0 };

    fn read(&mut self, buf: &mut [u8]) -> Result<usize, Failed> {
        let n = give(&self.bytes, self.at, buf);
        self.at += n;
        Ok(n)
    }
}

/// A sink that keeps what is written, and gives way to nothing but want of memory.
#[derive(Drop)]
pub struct SureSink {
    taken: Taken,
}

impl SureSink {
    ghost use Rattle.sqlx_player.specs.Memory.{sure_written, sure_pieces};

    /// An empty sink.
    pub fn new(alloc: Global) -> Self
        ensures written { sure_written result ≡ [] }
        ensures pieces { sure_pieces result ≡ [] }
    {
        SureSink {
            taken: Taken::new(alloc),
        }
    }

    /// What was written.
    pub fn written(&self) -> &[u8]
        ensures { result.now ≡ sure_written self.now }
    {
        &self.taken.bytes
    }
}

impl Sink for SureSink {
    ghost use Rattle.std.specs.Prelude.{◌≡◌, ◌<◌, ◌≤◌, Some, Ok, IfOk, IfErr, length};
    ghost use Rattle.std.specs.Io.KnownBytes.{WriteAppends};
    ghost use Rattle.sqlx_player.specs.Faults.{FailCause, HasFaulted};
    ghost use Rattle.sqlx_player.specs.Pieces.{TakesPiece};
    ghost use Rattle.sqlx_player.specs.Memory.{sure_written, sure_pieces};

    ghost written = { λ k. Some (sure_written k) };

    ghost pieces = { λ k. Some (sure_pieces k) };

    ghost faults = { λ k. 0 };

    fn write(&mut self, buf: &[u8]) -> Result<usize, Failed>
        ensures within { IfOk result (λ n. n ≤ length buf.now) }
        ensures bytes { WriteAppends (Some (sure_written self.old)) (Some (sure_written self.new)) result buf.now }
        ensures pieces { TakesPiece (Some (sure_pieces self.old)) (Some (sure_pieces self.new)) result buf.now }
        ensures rises { 0 ≤ 0 }
        ensures failed { IfErr result (FailCause 0 0) }
        ensures nothing { result ≡ Ok 0 → 0 < length buf.now → HasFaulted 0 0 }
        ensures all { IfOk result (λ n. n ≡ length buf.now) }
        ensures error { IfErr result (λ e. e ≡ Failed.OutOfMemory) }
    {
        self.taken.take(buf)
    }
}
