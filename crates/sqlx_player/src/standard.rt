//! The real source and sink, over a reader and a writer of std. They tell no bytes: no contract speaks of what a file gives or takes.
ghost use Rattle.std.specs.Prelude.{◌≡◌};
ghost use Rattle.sqlx_player.specs.Standard.{source_faults, sink_faults};

use crate::failed::Failed;
use crate::io::{Sink, Source};
use std::io::{Read, Write};

/// A source over a reader.
#[derive(Drop)]
pub struct StdSource<R: Read + Drop> {
    reader: R,
    faults: u64,
}

impl<R: Read + Drop> StdSource<R> {
    /// A source over this reader, without a fault so far.
    pub fn new(reader: R) -> Self
        ensures { source_faults result ≡ 0 }
    {
        StdSource { reader, faults: 0 }
    }
}

impl<R: Read + Drop> Source for StdSource<R> {
    ghost use Rattle.std.specs.Prelude.{None};
    ghost use Rattle.sqlx_player.specs.Standard.{source_faults};

    ghost left = { λ s. None };

    ghost faults = { source_faults };

    fn read(&mut self, buf: &mut [u8]) -> Result<usize, Failed> {
        match self.reader.read(buf) {
            Ok(n) => Ok(n),
            Err(_) => {
                self.faults = self.faults.saturating_add(1);
                Err(Failed::Fault)
            }
        }
    }
}

/// A sink over a writer.
#[derive(Drop)]
pub struct StdSink<W: Write + Drop> {
    writer: W,
    faults: u64,
}

impl<W: Write + Drop> StdSink<W> {
    /// A sink over this writer, without a fault so far.
    pub fn new(writer: W) -> Self
        ensures { sink_faults result ≡ 0 }
    {
        StdSink { writer, faults: 0 }
    }

    /// Writes what the writer holds back, if it is one that does. A refusal is a fault.
    pub fn flush(&mut self) -> Result<(), Failed> {
        match self.writer.flush() {
            Ok(()) => Ok(()),
            Err(_) => {
                self.faults = self.faults.saturating_add(1);
                Err(Failed::Fault)
            }
        }
    }
}

impl<W: Write + Drop> Sink for StdSink<W> {
    ghost use Rattle.std.specs.Prelude.{None};
    ghost use Rattle.sqlx_player.specs.Standard.{sink_faults};

    ghost written = { λ k. None };

    ghost pieces = { λ k. None };

    ghost faults = { sink_faults };

    fn write(&mut self, buf: &[u8]) -> Result<usize, Failed> {
        match self.writer.write(buf) {
            Ok(n) if n > 0 || buf.is_empty() => Ok(n),
            _ => {
                self.faults = self.faults.saturating_add(1);
                Err(Failed::Fault)
            }
        }
    }
}
