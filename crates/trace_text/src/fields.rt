//! The fields of lines: each a value and the pieces after it.

ghost use Rattle.std.specs.Prelude.{◌≡◌, ◌≤◌, IfOk, IfSome, Ok};
ghost use Rattle.flat_policy.specs.Texts.Pieces.{
  most_of_32,
  number_within,
  next_piece,
  group_at,
  base_at,
  cluster_at,
  actor_at,
  moment_at,
  bound_within,
  bound_at,
  bucket_at,
  end_at,
  pieces,
};
ghost use Rattle.trace_text.specs.Reading.{Gives, left};

use crate::numerals::read_numeral;
use crate::pieces::{Pieces, behind_word, next, next_digit, next_number};
use crate::words::{bucket_of, end_of};
use flat_policy::texts::LineFault;
use sched_base::Bucket;
use sched_base::limits::{CLUSTERS_OF_LINES, MOMENT_LIMIT, MOST_ACTORS, MOST_BASE, MOST_GROUPS};

/// The greatest numbers that a line may give a group, a cluster and an actor.
const LAST_GROUP: u8 = MOST_GROUPS as u8 - 1;

const LAST_CLUSTER: u8 = CLUSTERS_OF_LINES as u8 - 1;

const LAST_ACTOR: u8 = MOST_ACTORS as u8 - 1;

/// A number of at most so much, by a second look at each of its bytes.
#[inline(never)]
fn exact_number_at(pieces: Pieces<'_>, most: u64) -> Result<(u64, Pieces<'_>), LineFault>
    ensures exact { Gives (λ x. (x.0, left x.1)) result (next_piece (number_within most) (left pieces.entry)) }
    ensures most { IfOk result (λ x. x.0 ≤ most) }
{
    let (piece, rest) = next(pieces)?;
    let number = read_numeral(piece, most)?;
    Ok((number, rest))
}

/// The same, from a frame of its own: so numbers that are read at once make none of what it hands over.
#[inline(always)]
fn other_number_at(pieces: Pieces<'_>, most: u64) -> Result<(u64, Pieces<'_>), LineFault>
    ensures exact { Gives (λ x. (x.0, left x.1)) result (next_piece (number_within most) (left pieces.entry)) }
    ensures most { IfOk result (λ x. x.0 ≤ most) }
{
    exact_number_at(pieces, most)
}

/// A number of at most so much.
#[inline(always)]
pub fn number_at(pieces: Pieces<'_>, most: u64) -> Result<(u64, Pieces<'_>), LineFault>
    ensures exact { Gives (λ x. (x.0, left x.1)) result (next_piece (number_within most) (left pieces.entry)) }
    ensures most { IfOk result (λ x. x.0 ≤ most) }
{
    match next_number(pieces) {
        Some((number, rest)) if number <= most => Ok((number, rest)),
        // Short numerals in range are read above; this names the fault, or reads a long one.
        _ => other_number_at(pieces, most),
    }
}

/// A number of at most so much, in a byte, however many digits it has.
#[inline(never)]
fn any_small_at(pieces: Pieces<'_>, most: u8) -> Result<(u8, Pieces<'_>), LineFault>
    ensures { Gives (λ x. (x.0, left x.1)) result (next_piece (number_within most) (left pieces.entry)) }
{
    let (number, rest) = number_at(pieces, u64::from(most))?;
    Ok((number as u8, rest))
}

/// The same, from a frame of its own.
#[inline(always)]
fn other_small_at(pieces: Pieces<'_>, most: u8) -> Result<(u8, Pieces<'_>), LineFault>
    ensures { Gives (λ x. (x.0, left x.1)) result (next_piece (number_within most) (left pieces.entry)) }
{
    any_small_at(pieces, most)
}

/// A number of at most so much, in a byte. Nearly all have one digit.
#[inline(always)]
pub fn small_at(pieces: Pieces<'_>, most: u8) -> Result<(u8, Pieces<'_>), LineFault>
    ensures { Gives (λ x. (x.0, left x.1)) result (next_piece (number_within most) (left pieces.entry)) }
{
    match next_digit(pieces) {
        Some((number, rest)) if number <= most => Ok((number, rest)),
        _ => other_small_at(pieces, most),
    }
}

/// A number of 32 bits.
#[inline(always)]
pub fn wide_at(pieces: Pieces<'_>) -> Result<(u32, Pieces<'_>), LineFault>
    ensures { Gives (λ x. (x.0, left x.1)) result (next_piece (number_within most_of_32) (left pieces.entry)) }
{
    let (number, rest) = number_at(pieces, u64::from(u32::MAX))?;
    Ok((number as u32, rest))
}

#[inline(always)]
pub fn group_at(pieces: Pieces<'_>) -> Result<(u8, Pieces<'_>), LineFault>
    ensures { Gives (λ x. (x.0, left x.1)) result (group_at (left pieces.entry)) }
{
    small_at(pieces, LAST_GROUP)
}

#[inline(always)]
pub fn base_at(pieces: Pieces<'_>) -> Result<(u8, Pieces<'_>), LineFault>
    ensures { Gives (λ x. (x.0, left x.1)) result (base_at (left pieces.entry)) }
{
    small_at(pieces, MOST_BASE)
}

#[inline(always)]
pub fn cluster_at(pieces: Pieces<'_>) -> Result<(u8, Pieces<'_>), LineFault>
    ensures { Gives (λ x. (x.0, left x.1)) result (cluster_at (left pieces.entry)) }
{
    small_at(pieces, LAST_CLUSTER)
}

#[inline(always)]
pub fn actor_at(pieces: Pieces<'_>) -> Result<(u8, Pieces<'_>), LineFault>
    ensures { Gives (λ x. (x.0, left x.1)) result (actor_at (left pieces.entry)) }
{
    small_at(pieces, LAST_ACTOR)
}

#[inline(always)]
pub fn moment_at(pieces: Pieces<'_>) -> Result<(u64, Pieces<'_>), LineFault>
    ensures { Gives (λ x. (x.0, left x.1)) result (moment_at (left pieces.entry)) }
{
    number_at(pieces, MOMENT_LIMIT - 1)
}

fn bound_in(piece: &[u8]) -> Result<Option<u8>, LineFault>
    ensures { Gives (λ x. x) result (bound_within piece.now) }
{
    match piece {
        b"-" => Ok(None),
        _ => {
            let cluster = read_numeral(piece, u64::from(LAST_CLUSTER))?;
            Ok(Some(cluster as u8))
        }
    }
}

#[inline(always)]
pub fn bound_at(pieces: Pieces<'_>) -> Result<(Option<u8>, Pieces<'_>), LineFault>
    ensures { Gives (λ x. (x.0, left x.1)) result (bound_at (left pieces.entry)) }
{
    let (piece, rest) = next(pieces)?;
    let bound = bound_in(piece)?;
    Ok((bound, rest))
}

#[inline(always)]
pub fn bucket_at(pieces: Pieces<'_>) -> Result<(Bucket, Pieces<'_>), LineFault>
    ensures { Gives (λ x. (x.0, left x.1)) result (bucket_at (left pieces.entry)) }
{
    let (piece, rest) = next(pieces)?;
    let bucket = bucket_of(piece).ok_or(LineFault::Word)?;
    Ok((bucket, rest))
}

/// The end that the next piece names, where it names one.
#[inline(always)]
fn named_end_at(text: &[u8]) -> Option<(bool, Pieces<'_>)>
    ensures { IfSome result (λ x. end_at (pieces text.now) ≡ Ok (x.0, left x.1)) }
{
    if let Some(rest) = behind_word(text, b"tail") {
        return Some((false, rest));
    }
    if let Some(rest) = behind_word(text, b"head") {
        return Some((true, rest));
    }
    None
}

/// An end of a queue, by its piece whole.
#[inline(never)]
fn any_end_at(pieces: Pieces<'_>) -> Result<(bool, Pieces<'_>), LineFault>
    ensures { Gives (λ x. (x.0, left x.1)) result (end_at (left pieces.entry)) }
{
    let (piece, rest) = next(pieces)?;
    let head = end_of(piece).ok_or(LineFault::Word)?;
    Ok((head, rest))
}

/// The same, from a frame of its own.
#[inline(always)]
fn other_end_at(pieces: Pieces<'_>) -> Result<(bool, Pieces<'_>), LineFault>
    ensures { Gives (λ x. (x.0, left x.1)) result (end_at (left pieces.entry)) }
{
    any_end_at(pieces)
}

#[inline(always)]
fn next_end(pieces: Pieces<'_>) -> Option<(bool, Pieces<'_>)>
    ensures { IfSome result (λ x. end_at (left pieces.entry) ≡ Ok (x.0, left x.1)) }
{
    named_end_at(pieces.rest?)
}

#[inline(always)]
pub fn end_at(pieces: Pieces<'_>) -> Result<(bool, Pieces<'_>), LineFault>
    ensures { Gives (λ x. (x.0, left x.1)) result (end_at (left pieces.entry)) }
{
    match next_end(pieces) {
        Some(found) => Ok(found),
        None => other_end_at(pieces),
    }
}
