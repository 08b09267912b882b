//! Reading on until the bytes in hand decide what the next line is.
ghost use Rattle.std.specs.Prelude.{◌≡◌, ◌+◌, ◌^◌, ◌<◌, ◌≤◌, length, IsTrue};
ghost use Rattle.std.specs.Io.{StartsWith};
ghost use Rattle.std.specs.Io.KnownBytes.{Keeps, prepend_known};
ghost use Rattle.ports.specs.LineFeed.{CountsFault};
ghost use Rattle.ports.specs.Lines.{IsFirstNewline, IsOpen};
ghost use Rattle.ports.specs.Seeking.{IsFound, decided_behind};

use super::buffer::Buffer;
use super::devices::{Failed, Source};
use super::judging::{Found, judge};
use super::line_feed::Fed;
use super::newline_search::first_newline;
use sched_base::limits::{PIECE_BYTES, SETUP_BYTES};

/// Finds what stands at the front of the buffer, whose first newline stands at `newline`, and of the source behind
/// it. A line may have `limit` bytes, and only the first `counted` bytes count. Where the bytes in hand decide that,
/// the source isn't asked.
#[inline(always)]
pub(super) fn seek<S: Source>(
    buffer: &mut Buffer,
    newline: Option<usize>,
    source: &mut S,
    limit: usize,
    counted: usize,
) -> Found
    requires limit { limit ≤ SETUP_BYTES }
    requires newline { IsFirstNewline buffer.old newline }
    requires few { length buffer.old < PIECE_BYTES }
    requires early { length buffer.old ≤ counted + 1 }
    requires sum { counted < 2 ^ 62 }
    ensures found { IsFound limit counted (S.left source.new) (S.faults source.old) (S.faults source.new) buffer.new result.length result.answer }
    ensures keeps { StartsWith buffer.new buffer.old }
    ensures bytes { Keeps (prepend_known buffer.old (S.left source.old)) (prepend_known buffer.new (S.left source.new)) }
    ensures most { length buffer.new ≤ counted + 1 }
    ensures ahead { length buffer.new < decided_behind limit counted buffer.new result.length result.answer + PIECE_BYTES }
    ensures later { S.faults source.old ≤ S.faults source.new }
    ensures exact { IsTrue S.is_exact → CountsFault (S.faults source.old) (S.faults source.new) (S.is_failing source.new) result.answer }
    ensures idle { ¬ (IsOpen limit counted buffer.old) → source.new ≡ source.old }
{
    match judge(buffer.bytes(), newline, limit, counted) {
        Some(found) => found,
        None => read_on(buffer, source, limit, counted),
    }
}

/// Reads until the bytes in hand decide, where they don't yet. It asks the source at least once, and never again
/// after a failure.
#[inline(never)]
fn read_on<S: Source>(buffer: &mut Buffer, source: &mut S, limit: usize, counted: usize) -> Found
    requires limit { limit ≤ SETUP_BYTES }
    requires sum { counted < 2 ^ 62 }
    requires open { IsOpen limit counted buffer.old }
    ensures found { IsFound limit counted (S.left source.new) (S.faults source.old) (S.faults source.new) buffer.new result.length result.answer }
    ensures keeps { StartsWith buffer.new buffer.old }
    ensures bytes { Keeps (prepend_known buffer.old (S.left source.old)) (prepend_known buffer.new (S.left source.new)) }
    ensures most { length buffer.new ≤ counted + 1 }
    ensures ahead { length buffer.new < decided_behind limit counted buffer.new result.length result.answer + PIECE_BYTES }
    ensures later { S.faults source.old ≤ S.faults source.new }
    ensures exact { IsTrue S.is_exact → CountsFault (S.faults source.old) (S.faults source.new) (S.is_failing source.new) result.answer }
{
    loop {
        let searched = buffer.len();
        match buffer.refill(source, PIECE_BYTES.min(counted + 1 - searched)) {
            Ok(0) if searched == 0 => return Found::none(Fed::End),
            Ok(0) => return Found::none(Fed::Unfinished),
            Ok(_) => {}
            Err(Failed) => return Found::none(Fed::Fault),
        }
        let newline = first_newline(buffer.bytes(), searched);
        if let Some(found) = judge(buffer.bytes(), newline, limit, counted) {
            return found;
        }
    }
}
