//! A sink for tests.
ghost use Rattle.std.specs.Prelude.{◌≡◌, ◌-◌, ◌<◌, ◌≤◌, ◌↔◌, [], length, min, true, false, Some, IsErr, IfOk, IsTrue, OnOk, OnErr, Result, vec_len, vec_capacity};
ghost use Rattle.std.specs.Io.KnownBytes.{WriteAppends};
ghost use Rattle.ports.specs.Devices.{HasCause, CountsFailures, TakesSome, one_more};
ghost use Rattle.ports.specs.Pieces.{Store, is_refused};

use super::devices::{Failed, Sink};
use std::alloc::{AllocError, Global};
use std::marker::Model;

/// A sink that keeps what it takes, takes it in small pieces, and fails at calls that are told beforehand, and
/// where its room is full.
#[derive(Drop)]
pub struct ByteSink {
    bytes: Vec<u8>,
    room: usize,
    piece: usize,
    fails: Vec<u64>,
    calls: u64,
    faults: u64,
    failing: bool,
}

impl Model for ByteSink {
    ghost Value = { Store };

    ghost view = { λ s. record {
      bytes = s.bytes.items;
      room = s.room;
      piece = s.piece;
      fails = s.fails.items;
      calls = s.calls;
      faults = s.faults;
      failing = s.failing;
    } };

    ghost invariant = { λ s. (vec_len s.bytes ≤ s.room) × (s.room ≤ vec_capacity s.bytes) × (1 ≤ s.piece) };
}

impl ByteSink {
    /// A sink with room for `room` bytes, which takes at most `piece` at a time. The calls of `put` whose numbers,
    /// from 0, are in `fails` answer `Failed`. The only error is want of memory.
    pub fn new(
        alloc: Global,
        room: usize,
        piece: usize,
        fails: Vec<u64>,
    ) -> Result<ByteSink, AllocError>
        requires { 1 ≤ piece }
        ensures { IfOk result (λ sink. sink ≡ record {
          bytes = [];
          room = room;
          piece = piece;
          fails = fails.items;
          calls = 0;
          faults = 0;
          failing = false;
        }) }
    {
        let bytes = Vec::with_capacity(alloc, room)?;
        Ok(ByteSink {
            bytes,
            room,
            piece,
            fails,
            calls: 0,
            faults: 0,
            failing: false,
        })
    }

    /// The bytes that were taken, in order.
    pub fn bytes(&self) -> &[u8]
        ensures { result.now ≡ self.now.bytes }
    {
        &self.bytes
    }
}

impl Sink for ByteSink {
    ghost taken = { λ s. Some s.bytes };

    ghost faults = { λ s. s.faults };

    ghost is_exact = { true };

    ghost is_failing = { λ s. s.failing };

    fn put(&mut self, from: &[u8]) -> Result<usize, Failed>
        requires { 0 < length from.now }
        ensures failed { IsErr result ↔ IsTrue (is_refused self.old) }
        ensures count { IfOk result (λ n. n ≡ min (min (self.old.room - length self.old.bytes) (length from.now)) self.old.piece) }
        ensures ok { OnOk result (self.new ≡ record self.old { bytes = self.new.bytes; calls = one_more self.old.calls; failing = false }) }
        ensures err { OnErr result (self.new ≡ record self.old { calls = one_more self.old.calls; faults = one_more self.old.faults; failing = true }) }

        ensures bound { TakesSome result (length from.now) }
        ensures bytes { WriteAppends (Some self.old.bytes) (Some self.new.bytes) result from.now }
        ensures cause { HasCause self.old.faults self.new.faults result }
        ensures exact { CountsFailures self.old.faults self.new.faults self.new.failing result }
    {
        self.failing = self.fails.contains(&self.calls) || self.bytes.len() == self.room;
        self.calls = self.calls.saturating_add(1);
        if self.failing {
            self.faults = self.faults.saturating_add(1);
            return Err(Failed);
        }
        let free = self.room - self.bytes.len();
        let count = free.min(from.len()).min(self.piece);
        self.bytes.extend_from_slice(&from[..count]).unwrap();
        Ok(count)
    }
}

#[cfg(test)]
mod tests {
    use super::*;
    use sched_base::limits::{LINE_BYTES, SETUP_BYTES};
    use std::test::Fail;

    #[test]
    fn a_sink_takes_pieces_until_its_room_ends(rt: HostRuntime) -> Result<(), Fail> {
        let fails = Vec::from_slice(rt.alloc(), &[1])?;
        let mut sink = ByteSink::new(rt.alloc(), 5, 3, fails)?;
        let text = b"abcdefg".as_slice();
        let calls = [
            (0, Ok(3), 0),
            (3, Err(Failed), 1),
            (3, Ok(2), 1),
            (5, Err(Failed), 2),
            (5, Err(Failed), 3),
        ];
        for (from, answer, faults) in calls {
            assert_eq!(rt; sink.put(&text[from..]), answer);
            assert_eq!(rt; sink.faults, faults);
        }
        assert_eq!(rt; sink.bytes(), b"abcde".as_slice());
        Ok(())
    }

    #[test]
    fn a_sink_has_room_for_a_longest_line(rt: HostRuntime) -> Result<(), Fail> {
        for room in [LINE_BYTES, SETUP_BYTES] {
            let line = Vec::from_elem(rt.alloc(), b'x', room)?;
            let mut sink = ByteSink::new(rt.alloc(), room, room, Vec::new(rt.alloc()))?;
            assert_eq!(rt; sink.put(&line), Ok(room));
            assert_eq!(rt; sink.put(b"y"), Err(Failed));
            assert_eq!(rt; sink.bytes(), line.as_slice());
        }
        Ok(())
    }
}
