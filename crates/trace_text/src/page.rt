//! Output that is gathered.

ghost use Rattle.std.specs.Prelude.{◌≡◌, ◌≤◌, ◌+◌, ◌++◌, ◌↔◌, List, ℕ, [], IfOk, IsTrue, length, take};
ghost use Rattle.flat_policy.specs.Texts.Lines.{answered_text};
ghost use Rattle.trace_text.specs.Pages.{HasRoom, line_room, page_bytes};
ghost use Rattle.trace_text.specs.Writing.{AnswerFits, StepFits, answer_part};

use crate::placing::put;
use crate::writing::{put_answer_part, put_step};
use sched_base::{Answer, Step};
use std::alloc::{AllocError, Global};
use std::boxed::BoxedSlice;
use std::marker::Model;

/// How many bytes a page holds.
pub const PAGE_BYTES: usize = 16_384;

/// How many bytes of room are surely enough for the line of a step and its answer.
pub const LINE_ROOM: usize = 160;

/// How many bytes of that room are enough for the step alone.
pub const STEP_ROOM: usize = 57;

/// A fixed buffer of 16,384 bytes on the heap, for output that is gathered until it is put. Once it
/// is made it takes no memory.
#[derive(Drop)]
pub struct Page {
    bytes: BoxedSlice<u8>,
    len: usize,
}

impl Model for Page {
    ghost use Rattle.std.specs.Prelude.{◌≡◌, ℕ, ◌≤◌, List, take};
    ghost use Rattle.std.specs.Box.{boxed_slice_items, boxed_slice_len};
    ghost use Rattle.trace_text.specs.Pages.{page_bytes};

    ghost Value = { List ℕ };

    ghost view = { λ p. take p.len (boxed_slice_items p.bytes) };

    ghost invariant = { λ p. (p.len ≤ page_bytes) × (boxed_slice_len p.bytes ≡ page_bytes) };
}

impl Page {
    /// An empty page. The only error is want of memory.
    pub fn new(alloc: Global) -> Result<Page, AllocError>
        ensures { IfOk result (λ page. page ≡ []) }
    {
        let bytes = vec![in alloc; 0; PAGE_BYTES]?;
        Ok(Page {
            bytes: bytes.into_boxed_slice(),
            len: 0,
        })
    }

    /// The bytes that were gathered.
    pub fn bytes(&self) -> &[u8]
        ensures { result.now ≡ self.now }
    {
        &self.bytes[..self.len]
    }

    /// Whether nothing was gathered.
    pub fn is_empty(&self) -> bool
        ensures { IsTrue result ↔ (self.now ≡ []) }
    {
        self.len == 0
    }

    /// How many bytes more it can gather.
    pub fn room(&self) -> usize
        ensures { length self.now + result ≡ page_bytes }
    {
        PAGE_BYTES - self.len
    }

    /// Whether there is room for the line of a step and its answer.
    pub fn has_room(&self) -> bool
        ensures { IsTrue result ↔ HasRoom self.now }
    {
        self.len <= PAGE_BYTES - LINE_ROOM
    }

    /// Forgets what was gathered.
    pub fn clear(&mut self)
        ensures { self.new ≡ [] }
    {
        self.len = 0;
    }

    /// Appends bytes.
    pub fn write_bytes(&mut self, bytes: &[u8])
        requires { length self.old + length bytes.now ≤ page_bytes }
        ensures { self.new ≡ self.old ++ bytes.now }
    {
        self.len = put(&mut self.bytes, self.len, bytes);
    }

    /// Appends the line of a step and its answer: the step's text, ` = `, the answer's text and a
    /// newline. Their numbers are in the ranges of lines.
    pub fn write_line(&mut self, step: &Step, answer: &Answer)
        requires room { HasRoom self.old }
        requires step { StepFits step.now }
        requires answer { AnswerFits answer.now }
        ensures { self.new ≡ self.old ++ answered_text step.now answer.now }
    {
        let end = put_step(&mut self.bytes, self.len, step);
        self.len = put_answer_part(&mut self.bytes, end, answer);
    }

    /// Appends the text of a step that is at hand, and behind it the rest of its line: ` = `, the
    /// answer's text and a newline. The answer's numbers are in the ranges of lines.
    pub fn write_again(&mut self, text: &[u8], answer: &Answer)
        requires room { HasRoom self.old }
        requires short { length text.now ≤ STEP_ROOM }
        requires answer { AnswerFits answer.now }
        ensures { self.new ≡ self.old ++ text.now ++ answer_part answer.now }
    {
        let end = put(&mut self.bytes, self.len, text);
        self.len = put_answer_part(&mut self.bytes, end, answer);
    }
}
