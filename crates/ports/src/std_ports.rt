//! The edge to std's readers and writers. What they give and take is not told.
ghost use Rattle.std.specs.Prelude.{◌≡◌, ◌<◌, true, None, length};
ghost use Rattle.std.specs.Io.{ReadsAtMost};
ghost use Rattle.std.specs.Io.KnownBytes.{ReadConsumes, WriteAppends};
ghost use Rattle.ports.specs.Devices.{HasCause, CountsFailures, EndsRightly, TakesSome};

use super::devices::{Failed, Sink, Source};
use std::io::{Read, Write};

/// A reader of std as a source. It counts the reads that fail, up to the last value of a `u64`.
#[derive(Drop)]
pub struct StdSource<R: Read> {
    inner: R,
    faults: u64,
    // Whether the last call failed.
    failing: bool,
}

impl<R: Read> StdSource<R> {
    /// The reader as a source without faults so far.
    pub fn new(inner: R) -> StdSource<R>
        ensures { ⟦<StdSource<R> as Source>⟧.faults result ≡ 0 }
    {
        StdSource {
            inner,
            faults: 0,
            failing: false,
        }
    }
}

impl<R: Read> Source for StdSource<R> {
    ghost left = { λ _. None };

    ghost faults = { λ s. s.faults };

    ghost is_exact = { true };

    ghost is_failing = { λ s. s.failing };

    fn take(&mut self, into: &mut [u8]) -> Result<usize, Failed>
        requires { 0 < length into.old }

        // What the reader gives comes through, where it is a reader whose bytes are known.
        ensures inner { ReadConsumes (R.remaining self.old.inner) (R.remaining self.new.inner) result into.new }

        ensures bound { ReadsAtMost result into.new }
        ensures bytes { ReadConsumes None None result into.new }
        ensures end { EndsRightly None result }
        ensures cause { HasCause self.old.faults self.new.faults result }
        ensures exact { CountsFailures self.old.faults self.new.faults self.new.failing result }
    {
        match self.inner.read(into) {
            Ok(count) => {
                self.failing = false;
                Ok(count)
            }
            Err(_) => {
                self.failing = true;
                self.faults = self.faults.saturating_add(1);
                Err(Failed)
            }
        }
    }
}

/// A writer of std as a sink. It counts the writes that fail or take nothing, up to the last value of a `u64`.
#[derive(Drop)]
pub struct StdSink<W: Write> {
    inner: W,
    faults: u64,
    // Whether the last call failed.
    failing: bool,
}

impl<W: Write> StdSink<W> {
    /// The writer as a sink without faults so far.
    pub fn new(inner: W) -> StdSink<W>
        ensures { ⟦<StdSink<W> as Sink>⟧.faults result ≡ 0 }
    {
        StdSink {
            inner,
            faults: 0,
            failing: false,
        }
    }
}

impl<W: Write> Sink for StdSink<W> {
    ghost taken = { λ _. None };

    ghost faults = { λ s. s.faults };

    ghost is_exact = { true };

    ghost is_failing = { λ s. s.failing };

    fn put(&mut self, from: &[u8]) -> Result<usize, Failed>
        requires { 0 < length from.now }

        // What is taken goes to the writer, where it is a writer whose bytes are known.
        ensures inner { WriteAppends (W.contents self.old.inner) (W.contents self.new.inner) result from.now }

        ensures bound { TakesSome result (length from.now) }
        ensures bytes { WriteAppends None None result from.now }
        ensures cause { HasCause self.old.faults self.new.faults result }
        ensures exact { CountsFailures self.old.faults self.new.faults self.new.failing result }
    {
        match self.inner.write(from) {
            Ok(count) if count > 0 => {
                self.failing = false;
                Ok(count)
            }
            _ => {
                self.failing = true;
                self.faults = self.faults.saturating_add(1);
                Err(Failed)
            }
        }
    }
}

#[cfg(test)]
mod tests {
    use super::*;
    use std::io;
    use std::test::Fail;

    /// A reader that fails once, before its second byte.
    #[derive(Drop)]
    struct Shaky(u8);

    impl Read for Shaky {
        fn read(&mut self, buf: &mut [u8]) -> io::Result<usize> {
            self.0 = self.0.saturating_add(1);
            if self.0 == 2 {
                return Err(io::Error::from(io::ErrorKind::TimedOut));
            }
            if self.0 > 3 || buf.is_empty() {
                return Ok(0);
            }
            buf[0] = self.0;
            Ok(1)
        }
    }

    /// A writer whose second write fails, and whose third takes nothing.
    #[derive(Drop)]
    struct Picky {
        calls: u8,
        bytes: Vec<u8>,
    }

    impl Write for Picky {
        fn write(&mut self, buf: &[u8]) -> io::Result<usize> {
            self.calls = self.calls.saturating_add(1);
            if self.calls == 2 {
                return Err(io::Error::from(io::ErrorKind::TimedOut));
            }
            if self.calls == 3 || buf.is_empty() {
                return Ok(0);
            }
            self.bytes.push(buf[0])?;
            Ok(1)
        }

        fn flush(&mut self) -> io::Result<()> {
            Ok(())
        }
    }

    #[test]
    fn a_reader_that_fails_once_raises_the_count_to_one(rt: HostRuntime) {
        let mut source = StdSource::new(Shaky(0));
        let mut piece = [0; 4];
        for (first, count, faults) in [
            (1, Ok(1), 0),
            (1, Err(Failed), 1),
            (3, Ok(1), 1),
            (3, Ok(0), 1),
        ] {
            assert_eq!(rt; source.take(&mut piece), count);
            assert_eq!(rt; source.faults, faults);
            assert_eq!(rt; piece[0], first);
        }
    }

    #[test]
    fn a_writer_that_fails_once_raises_the_count_to_one(rt: HostRuntime) {
        let inner = Picky {
            calls: 0,
            bytes: Vec::new(rt.alloc()),
        };
        let mut sink = StdSink::new(inner);
        let text = b"ab".as_slice();
        for (from, count, faults) in [
            (0, Ok(1), 0),
            (1, Err(Failed), 1),
            (1, Err(Failed), 2),
            (1, Ok(1), 2),
        ] {
            assert_eq!(rt; sink.put(&text[from..]), count);
            assert_eq!(rt; sink.faults, faults);
        }
        assert_eq!(rt; sink.inner.bytes.as_slice(), text);
    }
}
