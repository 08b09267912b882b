//! Bytes that were taken from a source and not given on yet.
ghost use Rattle.std.specs.Prelude.{◌≡◌, ℕ, ◌+◌, ◌-◌, ◌<◌, ◌≤◌, List, [], length, take, drop, IfOk, OnErr, IsTrue, Result};
ghost use Rattle.std.specs.Io.{StartsWith};
ghost use Rattle.std.specs.Io.KnownBytes.{Keeps, IsAtEnd, prepend_known};
ghost use Rattle.ports.specs.Devices.{HasCause, CountsFailures};

use super::devices::{Failed, Source};
use sched_base::limits::{PIECE_BYTES, SETUP_BYTES};
use std::alloc::{AllocError, Global};
use std::boxed::BoxedSlice;
use std::marker::Model;

/// How many bytes a buffer has room for: the longest line, and a piece.
pub(super) const ROOM: usize = SETUP_BYTES + PIECE_BYTES;

/// The bytes in hand, in order. Its type can't grow and hands out no allocator, and the calls that move bytes
/// get a part of it alone: so none of them but `new` takes memory.
#[derive(Drop)]
pub(super) struct Buffer {
    bytes: BoxedSlice<u8>,
    start: usize,
    end: usize,
}

impl Model for Buffer {
    ghost use Rattle.std.specs.Prelude.{◌≡◌, ℕ, ◌+◌, ◌-◌, ◌≤◌, List, take, drop};
    ghost use Rattle.std.specs.Box.{boxed_slice_items, boxed_slice_len};
    ghost use Rattle.sched_base.specs.Limits.{setup_bytes, piece_bytes};

    ghost Value = { List ℕ };

    ghost view = { λ b. take (b.end - b.start) (drop b.start (boxed_slice_items b.bytes)) };

    ghost invariant = { λ b. (b.start ≤ b.end) × (b.end ≤ boxed_slice_len b.bytes) × (boxed_slice_len b.bytes ≡ setup_bytes + piece_bytes) };
}

impl Buffer {
    /// A buffer with no bytes in it. The only error is want of memory.
    pub(super) fn new(alloc: Global) -> Result<Buffer, AllocError>
        ensures { IfOk result (λ buffer. buffer ≡ []) }
    {
        let bytes = vec![in alloc; 0; ROOM]?;
        Ok(Buffer {
            bytes: bytes.into_boxed_slice(),
            start: 0,
            end: 0,
        })
    }

    /// The bytes in hand.
    pub(super) fn bytes(&self) -> &[u8]
        ensures value { result.now ≡ self.now }
        ensures most { length self.now ≤ ROOM }
    {
        &self.bytes[self.start..self.end]
    }

    /// How many bytes are in hand.
    pub(super) fn len(&self) -> usize
        ensures value { result ≡ length self.now }
        ensures most { result ≤ ROOM }
    {
        self.end - self.start
    }

    /// Drops bytes from the front.
    pub(super) fn pass(&mut self, count: usize)
        requires { count ≤ length self.old }
        ensures { self.new ≡ drop count self.old }
    {
        self.start += count;
    }

    /// Takes up to `most` bytes more from the source, and answers how many: 0 only at its end.
    pub(super) fn refill<S: Source>(&mut self, source: &mut S, most: usize) -> Result<usize, Failed>
        requires some { 1 ≤ most }
        requires room { length self.old + most ≤ ROOM }
        ensures count { IfOk result (λ n. length self.new ≡ length self.old + n) }
        ensures most { IfOk result (λ n. n ≤ most) }
        ensures keeps { StartsWith self.new self.old }
        ensures err { OnErr result (self.new ≡ self.old) }
        ensures bytes { Keeps (prepend_known self.old (S.left source.old)) (prepend_known self.new (S.left source.new)) }
        ensures end { IfOk result (λ n. n ≡ 0 → IsAtEnd (S.left source.new)) }
        ensures cause { HasCause (S.faults source.old) (S.faults source.new) result }
        ensures exact { IsTrue S.is_exact → CountsFailures (S.faults source.old) (S.faults source.new) (S.is_failing source.new) result }
    {
        let held = self.end - self.start;
        let taken = move_and_take(&mut self.bytes, self.start, self.end, source, most);
        self.start = 0;
        self.end = held;
        let count = taken?;
        self.end += count;
        Ok(count)
    }
}

/// Moves the bytes from `start` up to `end` to the front. What stood there is gone.
fn move_to_front(bytes: &mut [u8], start: usize, end: usize)
    requires order { start ≤ end }
    requires within { end ≤ length bytes.old }
    ensures { take (end - start) bytes.new ≡ take (end - start) (drop start bytes.old) }
{
    if start > 0 {
        bytes.copy_within(start..end, 0);
    }
}

/// Moves the bytes from `start` up to `end` to the front, and takes up to `most` bytes more behind them.
fn move_and_take<S: Source>(
    bytes: &mut [u8],
    start: usize,
    end: usize,
    source: &mut S,
    most: usize,
) -> Result<usize, Failed>
    requires order { start ≤ end }
    requires within { end ≤ length bytes.old }
    requires some { 1 ≤ most }
    requires room { end - start + most ≤ length bytes.old }
    ensures most { IfOk result (λ n. n ≤ most) }
    ensures front { take (end - start) bytes.new ≡ take (end - start) (drop start bytes.old) }
    ensures bytes { IfOk result (λ n. Keeps (prepend_known (take (end - start) (drop start bytes.old)) (S.left source.old))
        (prepend_known (take (end - start + n) bytes.new) (S.left source.new))) }
    ensures err { OnErr result (Keeps (S.left source.old) (S.left source.new)) }
    ensures end { IfOk result (λ n. n ≡ 0 → IsAtEnd (S.left source.new)) }
    ensures cause { HasCause (S.faults source.old) (S.faults source.new) result }
    ensures exact { IsTrue S.is_exact → CountsFailures (S.faults source.old) (S.faults source.new) (S.is_failing source.new) result }
{
    move_to_front(bytes, start, end);
    let held = end - start;
    source.take(&mut bytes[held..held + most])
}
