//! The two traits that a program's core reads from and writes to.
ghost use Rattle.std.specs.Prelude.{ℕ, ◌<◌, Bool, false, IsTrue, Option, List, length};
ghost use Rattle.std.specs.Io.{ReadsAtMost};
ghost use Rattle.std.specs.Io.KnownBytes.{ReadConsumes, WriteAppends};
ghost use Rattle.ports.specs.Devices.{HasCause, CountsFailures, EndsRightly, TakesSome};

use thiserror::Error;

/// A read or a write that failed. What it would have moved stays where it was.
#[derive(Clone, Copy, Debug, PartialEq, Eq, Error)]
#[error("the device failed")]
pub struct Failed;

/// Something that bytes are read from, in order.
pub trait Source {
    // The bytes that are still to come, where the source tells them.
    ghost left: { Self → Option (List ℕ) };

    // How many takes have failed, up to the last value of a `u64`.
    ghost faults: { Self → ℕ };

    // Whether it promises that a take which fails raises that count by one, and that no other take changes it.
    ghost is_exact: { Bool } = { false };

    // Whether the last take failed, where that is promised.
    ghost is_failing: { Self → Bool } = { λ _. false };

    /// Puts the next bytes into the front of `into`, and answers how many: 0 only at the end.
    ///
    /// After `Failed` the bytes still to come are the same as before.
    fn take(&mut self, into: &mut [u8]) -> Result<usize, Failed>
        requires { 0 < length into.old }
        ensures bound { ReadsAtMost result into.new }
        ensures bytes { ReadConsumes (left self.old) (left self.new) result into.new }
        ensures end { EndsRightly (left self.old) result }
        ensures cause { HasCause (faults self.old) (faults self.new) result }
        ensures exact { IsTrue is_exact → CountsFailures (faults self.old) (faults self.new) (is_failing self.new) result };
}

/// Something that bytes are written to, in order.
pub trait Sink {
    // The bytes that were taken so far, where the sink tells them.
    ghost taken: { Self → Option (List ℕ) };

    // How many puts have failed, up to the last value of a `u64`.
    ghost faults: { Self → ℕ };

    // Whether it promises that a put which fails raises that count by one, and that no other put changes it.
    ghost is_exact: { Bool } = { false };

    // Whether the last put failed, where that is promised.
    ghost is_failing: { Self → Bool } = { λ _. false };

    /// Takes bytes from the front of `from`, and answers how many: at least 1.
    ///
    /// After `Failed` nothing of `from` was taken.
    fn put(&mut self, from: &[u8]) -> Result<usize, Failed>
        requires { 0 < length from.now }
        ensures bound { TakesSome result (length from.now) }
        ensures bytes { WriteAppends (taken self.old) (taken self.new) result from.now }
        ensures cause { HasCause (faults self.old) (faults self.new) result }
        ensures exact { IsTrue is_exact → CountsFailures (faults self.old) (faults self.new) (is_failing self.new) result };
}
