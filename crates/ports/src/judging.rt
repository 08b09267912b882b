//! What bytes in hand say of the line that begins with them.
ghost use Rattle.std.specs.Prelude.{◌≡◌, ◌<◌, ◌≤◌, IfSome, MatchOption};
ghost use Rattle.ports.specs.Lines.{IsFirstNewline};
ghost use Rattle.ports.specs.Judging.{IsJudged};

use super::line_feed::Fed;
use sched_base::limits::SETUP_BYTES;

/// What comes next, and how many bytes the line has where it is one; else 0.
#[derive(Clone, Copy)]
pub(super) struct Found {
    pub(super) answer: Fed,
    pub(super) length: usize,
}

impl Found {
    /// An answer without a line.
    pub(super) fn none(answer: Fed) -> Found
        ensures { result ≡ record { answer = answer; length = 0 } }
    {
        Found { answer, length: 0 }
    }
}

/// The place of a newline where it is below `most`.
#[inline(always)]
fn place_below(newline: Option<usize>, most: usize) -> Option<usize>
    ensures { MatchOption result (IfSome newline (λ n. most ≤ n)) (λ n. (newline ≡ Some n) × (n < most)) }
{
    match newline {
        Some(place) => { if place < most { Some(place) } else { None } }
        None => None,
    }
}

/// What comes next, where `bytes` say so; `None` where that depends on the bytes to come. Their first newline stands
/// at `newline`. A line may have `limit` bytes, and only the first `counted` of all bytes count.
#[inline(always)]
pub(super) fn judge(
    bytes: &[u8],
    newline: Option<usize>,
    limit: usize,
    counted: usize,
) -> Option<Found>
    requires limit { limit ≤ SETUP_BYTES }
    requires newline { IsFirstNewline bytes.now newline }
    ensures judged { IsJudged limit counted bytes.now result }
    ensures behind { IfSome result (λ found. found.answer ≡ Fed.Line → newline ≡ Some found.length) }
{
    let most = counted.min(limit + 1);
    match place_below(newline, most) {
        Some(length) => Some(Found {
            answer: Fed::Line,
            length,
        }),
        None => {
            if bytes.len() <= limit.min(counted) {
                None
            } else if limit < counted {
                Some(Found::none(Fed::Long))
            } else {
                Some(Found::none(Fed::Over))
            }
        }
    }
}
