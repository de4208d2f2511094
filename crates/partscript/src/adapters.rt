ghost use Rattle.std.specs.Prelude.{◌≡◌};

use pg_values::{Failed, Sink, Source};
use std::io::{Read, Write};

/// A reader of std as a source. It tells of its bytes what the reader tells.
#[derive(Drop)]
pub struct InputSource<R> {
    inner: R,
    faults: u64,
}

impl<R> InputSource<R> {
    ghost use Rattle.partscript.specs.Adapters.{read_faults};

    pub fn new(inner: R) -> Self
        ensures { read_faults result ≡ 0 }
    {
        InputSource { inner, faults: 0 }
    }
}

impl<R: Read> Source for InputSource<R> {
    ghost left = { λ s. R.remaining s.inner };

    ghost faults = { λ s. s.faults };

    fn read(&mut self, buf: &mut [u8]) -> Result<usize, Failed> {
        match self.inner.read(buf) {
            Ok(count) => Ok(count),
            Err(_) => {
                self.faults = self.faults.saturating_add(1);
                Err(Failed)
            }
        }
    }
}

/// A writer of std as a sink. A write that takes nothing of some bytes is a fault too.
#[derive(Drop)]
pub struct OutputSink<W> {
    inner: W,
    faults: u64,
}

impl<W> OutputSink<W> {
    ghost use Rattle.partscript.specs.Adapters.{write_faults};

    pub fn new(inner: W) -> Self
        ensures { write_faults result ≡ 0 }
    {
        OutputSink { inner, faults: 0 }
    }
}

impl<W: Write> Sink for OutputSink<W> {
    ghost taken = { λ s. W.contents s.inner };

    ghost faults = { λ s. s.faults };

    fn write(&mut self, bytes: &[u8]) -> Result<usize, Failed> {
        match self.inner.write(bytes) {
            Ok(count) if count > 0 || bytes.is_empty() => Ok(count),
            _ => {
                self.faults = self.faults.saturating_add(1);
                Err(Failed)
            }
        }
    }
}
