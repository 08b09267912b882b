//! A sink that only counts.
ghost use Rattle.std.specs.Prelude.{◌≡◌, ℕ, ◌+◌, ◌-◌, ◌^◌, ◌<◌, length, min, true, false, None, Ok, Result};
ghost use Rattle.std.specs.Io.KnownBytes.{WriteAppends};
ghost use Rattle.ports.specs.Devices.{HasCause, CountsFailures, TakesSome};

use super::devices::{Failed, Sink};
use std::marker::Model;

/// A sink that takes every piece whole, keeps only how many bytes it took, and never fails.
#[derive(Drop)]
pub struct CountSink {
    count: u64,
}

impl Model for CountSink {
    ghost Value = { ℕ };

    ghost view = { λ s. s.count };
}

impl CountSink {
    /// A sink that has taken nothing.
    pub fn new() -> CountSink
        ensures { result ≡ 0 }
    {
        CountSink { count: 0 }
    }

    /// How many bytes it took, up to the last value of a `u64`.
    pub fn taken(&self) -> u64
        ensures { result ≡ self.now }
    {
        self.count
    }
}

impl Sink for CountSink {
    ghost taken = { λ _. None };

    ghost faults = { λ _. 0 };

    ghost is_exact = { true };

    fn put(&mut self, from: &[u8]) -> Result<usize, Failed>
        requires { 0 < length from.now }
        ensures answer { result ≡ Ok (length from.now) }
        ensures count { self.new ≡ min (self.old + length from.now) (2 ^ 64 - 1) }
        ensures bound { TakesSome result (length from.now) }
        ensures bytes { WriteAppends None None result from.now }
        ensures cause { HasCause 0 0 result }
        ensures exact { CountsFailures 0 0 false result }
    {
        self.count = self.count.saturating_add(from.len() as u64);
        Ok(from.len())
    }
}

#[cfg(test)]
mod tests {
    use super::*;

    #[test]
    fn a_sink_that_counts_takes_pieces_whole(rt: HostRuntime) {
        let mut sink = CountSink::new();
        assert_eq!(rt; sink.put(b"abc"), Ok(3));
        assert_eq!(rt; sink.put(b"defgh"), Ok(5));
        assert_eq!(rt; sink.taken(), 8);
    }
}
