//! A source for tests.
ghost use Rattle.std.specs.Prelude.{◌≡◌, ◌<◌, ◌≤◌, ◌↔◌, length, min, take, drop, true, false, Some, IsErr, IfOk, IsTrue, OnOk, OnErr, Result};
ghost use Rattle.std.specs.Io.{ReadsAtMost};
ghost use Rattle.std.specs.Io.KnownBytes.{ReadConsumes};
ghost use Rattle.ports.specs.Devices.{HasCause, CountsFailures, EndsRightly, one_more};
ghost use Rattle.ports.specs.Pieces.{Supply, is_listed};

use super::devices::{Failed, Source};
use super::handing::hand_out;
use std::marker::Model;

/// A source of bytes that it holds, which gives them in small pieces and fails at calls that are told beforehand.
#[derive(Drop)]
pub struct ByteSource {
    bytes: Vec<u8>,
    at: usize,
    piece: usize,
    fails: Vec<u64>,
    calls: u64,
    faults: u64,
    failing: bool,
}

impl Model for ByteSource {
    ghost Value = { Supply };

    ghost view = { λ s. record {
      left = drop s.at s.bytes.items;
      piece = s.piece;
      fails = s.fails.items;
      calls = s.calls;
      faults = s.faults;
      failing = s.failing;
    } };

    ghost invariant = { λ s. (s.at ≤ length s.bytes.items) × (1 ≤ s.piece) };
}

impl ByteSource {
    /// A source that gives these bytes, at most `piece` at a time. The calls of `take` whose numbers, from 0, are
    /// in `fails` answer `Failed`.
    pub fn new(bytes: Vec<u8>, piece: usize, fails: Vec<u64>) -> ByteSource
        requires { 1 ≤ piece }
        ensures { result ≡ record {
          left = bytes.items;
          piece = piece;
          fails = fails.items;
          calls = 0;
          faults = 0;
          failing = false;
        } }
    {
        ByteSource {
            bytes,
            at: 0,
            piece,
            fails,
            calls: 0,
            faults: 0,
            failing: false,
        }
    }
}

impl Source for ByteSource {
    ghost left = { λ s. Some s.left };

    ghost faults = { λ s. s.faults };

    ghost is_exact = { true };

    ghost is_failing = { λ s. s.failing };

    fn take(&mut self, into: &mut [u8]) -> Result<usize, Failed>
        requires { 0 < length into.old }
        ensures failed { IsErr result ↔ IsTrue (is_listed self.old.fails self.old.calls) }
        ensures count { IfOk result (λ n. n ≡ min (min (length self.old.left) (length into.old)) self.old.piece) }
        ensures ok { OnOk result (self.new ≡ record self.old { left = self.new.left; calls = one_more self.old.calls; failing = false }) }
        ensures err { OnErr result (self.new ≡ record self.old { calls = one_more self.old.calls; faults = one_more self.old.faults; failing = true }) }

        ensures bound { ReadsAtMost result into.new }
        ensures bytes { ReadConsumes (Some self.old.left) (Some self.new.left) result into.new }
        ensures end { EndsRightly (Some self.old.left) result }
        ensures cause { HasCause self.old.faults self.new.faults result }
        ensures exact { CountsFailures self.old.faults self.new.faults self.new.failing result }
    {
        self.failing = self.fails.contains(&self.calls);
        self.calls = self.calls.saturating_add(1);
        if self.failing {
            self.faults = self.faults.saturating_add(1);
            return Err(Failed);
        }
        let count = hand_out(&self.bytes, self.at, into, self.piece);
        self.at += count;
        Ok(count)
    }
}

#[cfg(test)]
mod tests {
    use super::*;
    use std::test::Fail;

    #[test]
    fn a_source_gives_its_bytes_in_pieces_and_fails_where_told(
        rt: HostRuntime,
    ) -> Result<(), Fail> {
        let text = b"ten bytes.".as_slice();
        let cases: [(usize, &[u64], u64); 4] = [
            (1, &[], 0),
            (7, &[], 0),
            (7, &[0], 1),
            (3, &[9, 1, 4], 2),
        ];
        for (piece, fails, faults) in cases {
            let bytes = Vec::from_slice(rt.alloc(), text)?;
            let fails = Vec::from_slice(rt.alloc(), fails)?;
            let mut source = ByteSource::new(bytes, piece, fails);
            let mut given = Vec::new(rt.alloc());
            let mut into = [0; 16];
            let mut failed: u64 = 0;
            for call in 0..16 {
                match source.take(&mut into) {
                    Ok(0) => break,
                    Ok(count) => {
                        assert!(rt; count <= piece, "piece {piece}, call {call}");
                        given.extend_from_slice(&into[..count])?;
                    }
                    Err(Failed) => failed = failed.saturating_add(1),
                }
            }
            assert_eq!(rt; given.as_slice(), text, "piece {piece}");
            assert_eq!(rt; failed, faults, "piece {piece}");
            assert_eq!(rt; source.faults, faults, "piece {piece}");
        }
        Ok(())
    }
}
