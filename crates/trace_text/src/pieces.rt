//! The pieces of a line, one after the other.

ghost use Rattle.std.specs.Prelude.{◌≡◌, ◌∷◌, ◌↔◌, [], IfSome, IfNone, IsTrue, false, length, take, true};
ghost use Rattle.std.specs.Option.{is_some, option_copied};
ghost use Rattle.std.specs.Result.{is_ok};
ghost use Rattle.flat_policy.specs.Texts.Pieces.{pieces, next_piece, number_within, at_end};
ghost use Rattle.trace_text.specs.Reading.{
  BeginsPlain,
  Follows,
  Gives,
  IsNumberNext,
  left,
  as_it_is,
  is_next,
  most_of_19_digits,
  piece_among,
};
ghost use Rattle.trace_text.specs.Spaces.{IsFirstSpace, HasNoSpace, is_plain};

use crate::numerals::{begins_with_numeral, leading_number};
use flat_policy::texts::LineFault;

/// What is left of a line, from the start of a piece on; nothing after the last piece.
#[derive(Clone, Copy)]
pub struct Pieces<'a> {
    pub rest: Option<&'a [u8]>,
}

/// The place of the first space.
fn space_in(text: &[u8]) -> Option<usize>
    ensures found { IfSome result (λ i. IsFirstSpace text.now i) }
    ensures none { IfNone result (HasNoSpace text.now) }
{
    text.iter().position(|b| *b == b' ')
}

/// The first piece, and what is left behind the space after it.
pub fn split(text: &[u8]) -> (&[u8], Pieces<'_>)
    ensures { pieces text.now ≡ result.0.now ∷ left result.1 }
{
    match space_in(text) {
        Some(i) => {
            let rest = Some(&text[i + 1..]);
            (&text[..i], Pieces { rest })
        }
        None => (text, Pieces { rest: None }),
    }
}

/// All of a line.
pub fn pieces_of(line: &[u8]) -> Pieces<'_>
    ensures { left result ≡ pieces line.now }
{
    Pieces { rest: Some(line) }
}

/// The next piece, and what is left.
pub fn next(pieces: Pieces<'_>) -> Result<(&[u8], Pieces<'_>), LineFault>
    ensures { Gives (λ x. (x.0.now, left x.1)) result (next_piece as_it_is (left pieces.entry)) }
{
    match pieces.rest {
        Some(text) => Ok(split(text)),
        None => Err(LineFault::Word),
    }
}

/// What stands behind a piece: nothing, or a space and the next piece.
#[inline(always)]
fn behind(text: &[u8]) -> Option<Pieces<'_>>
    ensures some { IfSome result (λ rest. Follows text.now (left rest)) }
    ensures none { IfNone result (BeginsPlain text.now) }
{
    match text {
        [] => Some(Pieces { rest: None }),
        [b' ', others @ ..] => {
            let rest = Some(others);
            Some(Pieces { rest })
        }
        _ => None,
    }
}

/// Whether a text begins with a word.
#[inline(always)]
#[tactic(auto, using(crate::proofs::Scanning::short_other, crate::proofs::Scanning::byte_other, crate::proofs::Scanning::front_more))]
fn begins_with(text: &[u8], word: &[u8]) -> bool
    ensures yes { result ≡ true → take (length word.now) text.now ≡ word.now }
    ensures no { result ≡ false → is_next word.now (pieces text.now) ≡ false }
{
    if text.len() < word.len() {
        return false;
    }
    for i in 0..word.len() {
        if text[i] != word[i] {
            return false;
        }
    }
    true
}

/// The pieces behind a word that is the next piece; `None` exactly where another piece is the next.
#[inline(always)]
#[tactic(auto, using(crate::proofs::Scanning::word_starts, crate::proofs::Scanning::word_goes_on))]
pub fn behind_word<'a>(text: &'a [u8], word: &[u8]) -> Option<Pieces<'a>>
    requires { is_plain word.now ≡ true }
    ensures found { IfSome result (λ rest. pieces text.now ≡ word.now ∷ left rest) }
    ensures none { IfNone result (is_next word.now (pieces text.now) ≡ false) }
{
    if !begins_with(text, word) {
        return None;
    }
    let rest = behind(&text[word.len()..])?;
    Some(rest)
}

/// The number that the next piece writes, and the pieces behind it; `None` exactly where no piece is
/// left, where the next is no numeral, and where it is one of more than 19 digits.
#[inline(always)]
#[tactic(auto, using(crate::proofs::Scanning::number_next))]
pub fn next_number(pieces: Pieces<'_>) -> Option<(u64, Pieces<'_>)>
    ensures number { IfSome result (λ x. IsNumberNext (left pieces.entry) x.0 (left x.1)) }
    ensures some { is_some result ≡ is_ok (next_piece (number_within most_of_19_digits) (left pieces.entry)) }
{
    let text = pieces.rest?;
    let (number, count) = leading_number(text);
    if !begins_with_numeral(text, count) {
        return None;
    }
    let rest = behind(&text[count..])?;
    Some((number, rest))
}

/// The number that the next piece writes, and the pieces behind it; `None` exactly where the next
/// piece is not one digit.
#[inline(always)]
#[tactic(auto, using(crate::proofs::OneDigit::digit_front))]
pub fn next_digit(pieces: Pieces<'_>) -> Option<(u8, Pieces<'_>)>
    ensures number { IfSome result (λ x. IsNumberNext (left pieces.entry) x.0 (left x.1)) }
    ensures some { is_some result ≡ is_ok (next_piece (number_within 9) (left pieces.entry)) }
{
    let text = pieces.rest?;
    if text.is_empty() {
        return None;
    }
    let digit = text[0];
    if !digit.is_ascii_digit() {
        return None;
    }
    let rest = behind(&text[1..])?;
    Some((digit - b'0', rest))
}

/// Whether no piece is left.
pub fn is_done(pieces: Pieces<'_>) -> bool
    ensures { IsTrue result ↔ (left pieces.entry ≡ []) }
{
    pieces.rest.is_none()
}

/// What was read, where no piece is left.
pub fn at_end<T: Copy>(value: T, pieces: Pieces<'_>) -> Result<T, LineFault>
    ensures { result ≡ at_end value (left pieces.entry) }
{
    match pieces.rest {
        Some(_) => Err(LineFault::Word),
        None => Ok(value),
    }
}

/// The piece number `k` of a line, counted from 0; `None` exactly where the line has at most `k`
/// pieces.
pub fn piece(line: &[u8], k: usize) -> Option<&[u8]>
    ensures { option_copied result ≡ piece_among (pieces line.now) k }
{
    let mut rest = pieces_of(line);
    for _ in 0..k {
        match next(rest) {
            Ok((_, others)) => rest = others,
            Err(_) => return None,
        }
    }
    match next(rest) {
        Ok((found, _)) => Some(found),
        Err(_) => None,
    }
}
