//! A buffer for one line.

ghost use Rattle.std.specs.Prelude.{◌≡◌, ◌≤◌, List, ℕ, [], take};

use std::marker::Model;

/// How many bytes a line buffer holds.
const SIZE: usize = 160;

/// A fixed buffer of 160 bytes, enough for every line that is written.
#[derive(Drop)]
pub struct LineOut {
    pub(crate) buffer: [u8; 160],
    pub(crate) len: usize,
}

impl Model for LineOut {
    ghost Value = { List ℕ };

    ghost view = { λ o. take o.len o.buffer };

    ghost invariant = { λ o. o.len ≤ 160 };
}

impl LineOut {
    /// An empty buffer.
    pub fn new() -> LineOut
        ensures { result ≡ [] }
    {
        LineOut {
            buffer: [0; SIZE],
            len: 0,
        }
    }

    /// The bytes that were written.
    pub fn bytes(&self) -> &[u8]
        ensures { result.now ≡ self.now }
    {
        &self.buffer[..self.len]
    }
}
