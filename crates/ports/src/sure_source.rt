//! A source that never fails.
ghost use Rattle.std.specs.Prelude.{◌≡◌, ℕ, ◌<◌, ◌≤◌, List, length, min, take, drop, true, false, Some, Ok, Result};
ghost use Rattle.std.specs.Io.{ReadsAtMost};
ghost use Rattle.std.specs.Io.KnownBytes.{ReadConsumes};
ghost use Rattle.ports.specs.Devices.{HasCause, CountsFailures, EndsRightly};

use super::devices::{Failed, Source};
use super::handing::hand_out;
use std::marker::Model;

/// A source of bytes that it holds. It gives as many at a time as are asked for, and never fails.
#[derive(Drop)]
pub struct SureSource {
    bytes: Vec<u8>,
    at: usize,
}

impl Model for SureSource {
    ghost Value = { List ℕ };

    ghost view = { λ s. drop s.at s.bytes.items };

    ghost invariant = { λ s. s.at ≤ length s.bytes.items };
}

impl SureSource {
    /// A source that gives these bytes.
    pub fn new(bytes: Vec<u8>) -> SureSource
        ensures { result ≡ bytes.items }
    {
        SureSource { bytes, at: 0 }
    }
}

impl Source for SureSource {
    ghost left = { λ s. Some s };

    ghost faults = { λ _. 0 };

    ghost is_exact = { true };

    fn take(&mut self, into: &mut [u8]) -> Result<usize, Failed>
        requires { 0 < length into.old }
        ensures answer { result ≡ Ok (min (length self.old) (length into.old)) }
        ensures bound { ReadsAtMost result into.new }
        ensures bytes { ReadConsumes (Some self.old) (Some self.new) result into.new }
        ensures end { EndsRightly (Some self.old) result }
        ensures cause { HasCause 0 0 result }
        ensures exact { CountsFailures 0 0 false result }
    {
        let count = hand_out(&self.bytes, self.at, into, usize::MAX);
        self.at += count;
        Ok(count)
    }
}
