//! Numerals.

ghost use Rattle.std.specs.Prelude.{◌≡◌, ◌≤◌, ◌<◌, ◌+◌, ◌*◌, ◌^◌, ℕ, IsTrue, get_or, length, take, true};
ghost use Rattle.std.specs.List.{list_all};
ghost use Rattle.flat_policy.specs.Texts.Pieces.{number_within, is_digit, is_numeral, digit_value, numeral_value};
ghost use Rattle.trace_text.specs.Reading.{Gives, within_64, digits_read};

use flat_policy::texts::LineFault;

/// Below this a number may have one more digit in 64 bits.
const ROOM_FOR_A_DIGIT: u64 = 1_000_000_000_000_000_000;

/// The bytes of the first and the last digit, as wide as the numbers that they go into: so no digit is widened by itself.
const ZERO: u64 = b'0' as u64;

const NINE: u64 = b'9' as u64;

/// How many bytes are looked at by a loop of a fixed length, which compilers write out.
const FIRST_BYTES: usize = 8;

/// The number that the digits at the front of so many bytes write, and how many they are.
#[inline(always)]
#[tactic(auto, using(crate::proofs::Scanning::digits_more, crate::proofs::Scanning::value_more))]
fn first_digits(text: &[u8]) -> (u64, usize)
    requires { FIRST_BYTES ≤ length text.now }
    ensures within { result.1 ≤ FIRST_BYTES }
    ensures digits { list_all is_digit (take result.1 text.now) ≡ true }
    ensures value { result.0 ≡ numeral_value (take result.1 text.now) }
    ensures below { result.0 < 10 ^ 19 }
    ensures all { result.1 < FIRST_BYTES → is_digit (get_or text.now result.1 0) ≡ true → 10 ^ 18 ≤ result.0 }
{
    let mut number: u64 = 0;
    for count in 0..FIRST_BYTES {
        let b = u64::from(text[count]);
        if b < ZERO || b > NINE || number >= ROOM_FOR_A_DIGIT {
            return (number, count);
        }
        number = number * 10 + (b - ZERO);
    }
    (number, FIRST_BYTES)
}

/// The same of all bytes, where the first `known` of them are digits that write `first`.
#[inline(always)]
#[tactic(auto, using(crate::proofs::Scanning::digits_more, crate::proofs::Scanning::value_more))]
fn digits_from(text: &[u8], first: u64, known: usize) -> (u64, usize)
    requires within { known ≤ length text.now }
    requires digits { list_all is_digit (take known text.now) ≡ true }
    requires value { first ≡ numeral_value (take known text.now) }
    requires below { first < 10 ^ 19 }
    ensures within { result.1 ≤ length text.now }
    ensures digits { list_all is_digit (take result.1 text.now) ≡ true }
    ensures value { result.0 ≡ numeral_value (take result.1 text.now) }
    ensures below { result.0 < 10 ^ 19 }
    ensures all { result.1 < length text.now → is_digit (get_or text.now result.1 0) ≡ true → 10 ^ 18 ≤ result.0 }
{
    let mut number = first;
    for count in known..text.len() {
        let b = text[count];
        if !b.is_ascii_digit() || number >= ROOM_FOR_A_DIGIT {
            return (number, count);
        }
        number = number * 10 + u64::from(b - b'0');
    }
    (number, text.len())
}

/// The number that the digits at the front write, and how many they are: all of them, or those up to
/// the first that takes the number to 10^18 or above. So it is below 10^19.
#[inline(always)]
pub fn leading_number(text: &[u8]) -> (u64, usize)
    ensures within { result.1 ≤ length text.now }
    ensures digits { list_all is_digit (take result.1 text.now) ≡ true }
    ensures value { result.0 ≡ numeral_value (take result.1 text.now) }
    ensures below { result.0 < 10 ^ 19 }
    ensures all { result.1 < length text.now → is_digit (get_or text.now result.1 0) ≡ true → 10 ^ 18 ≤ result.0 }
{
    if text.len() < FIRST_BYTES {
        return digits_from(text, 0, 0);
    }
    let (number, count) = first_digits(text);
    if count < FIRST_BYTES {
        return (number, count);
    }
    digits_from(text, number, count)
}

/// Whether so many digits at the front are a numeral: one of them, or more that begin with none of 0.
#[inline(always)]
#[tactic(auto, using(crate::proofs::Scanning::one_numeral, crate::proofs::Scanning::more_numeral))]
pub fn begins_with_numeral(text: &[u8], count: usize) -> bool
    requires within { count ≤ length text.now }
    requires digits { list_all is_digit (take count text.now) ≡ true }
    ensures { result ≡ is_numeral (take count text.now) }
{
    if count <= 1 {
        return count == 1;
    }
    text[0] != b'0'
}

/// A number and one more digit; `None` where it passes 64 bits.
fn with_digit(number: Option<u64>, digit: u8) -> Option<u64>
    requires { IsTrue (is_digit digit) }
    ensures { (n : ℕ) → number ≡ within_64 n → result ≡ within_64 (n * 10 + digit_value digit) }
{
    let digit = u64::from(digit - b'0');
    number?.checked_mul(10)?.checked_add(digit)
}

/// The number that digits write after a first one: no number where one of them is no digit, and
/// `None` where it passes 64 bits.
fn number_of(first: u8, others: &[u8]) -> Result<Option<u64>, LineFault>
    requires { IsTrue (is_digit first) }
    ensures { Gives (λ n. n) result (digits_read (digit_value first) others.now) }
{
    let mut number = Some(u64::from(first - b'0'));
    for b in others {
        if !b.is_ascii_digit() {
            return Err(LineFault::Number);
        }
        number = with_digit(number, *b);
    }
    Ok(number)
}

/// The value of a numeral: `0`, or digits that begin with none of `0`.
///
/// Errors: `Number` exactly where the piece is no numeral, `Range` exactly where it is one whose
/// value exceeds `most`.
pub fn read_numeral(piece: &[u8], most: u64) -> Result<u64, LineFault>
    ensures { result ≡ number_within most piece.now }
{
    let [first, others @ ..] = piece else {
        return Err(LineFault::Number);
    };
    if !first.is_ascii_digit() || (*first == b'0' && !others.is_empty()) {
        return Err(LineFault::Number);
    }
    match number_of(*first, others)? {
        Some(number) if number <= most => Ok(number),
        _ => Err(LineFault::Range),
    }
}
