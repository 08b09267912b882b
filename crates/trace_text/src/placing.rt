//! Bytes and numbers, put into a buffer from an index on. Each call answers the index behind them.

ghost use Rattle.std.specs.Prelude.{◌≡◌, ◌≤◌, ◌<◌, ◌+◌, ◌++◌, ◌∷◌, [], decimal, length, take};

use itoa::write_digits;

/// Puts bytes.
#[inline(always)]
pub fn put(room: &mut [u8], at: usize, bytes: &[u8]) -> usize
    requires { at + length bytes.now ≤ length room.old }
    ensures text { take result room.new ≡ take at room.old ++ bytes.now }
    ensures end { result ≡ at + length bytes.now }
    ensures long { length room.new ≡ length room.old }
{
    let end = at + bytes.len();
    room[at..end].copy_from_slice(bytes);
    end
}

/// Puts the bytes of a word that is known where the call is compiled. There its loop is written out, and no check is left
/// of whether the bytes overlap the room.
#[inline(always)]
#[tactic(auto, using(crate::proofs::PutWords::byte_put))]
pub fn put_word(room: &mut [u8], at: usize, word: &[u8]) -> usize
    requires { at + length word.now ≤ length room.old }
    ensures text { take result room.new ≡ take at room.old ++ word.now }
    ensures end { result ≡ at + length word.now }
    ensures long { length room.new ≡ length room.old }
{
    for i in 0..word.len() {
        room[at + i] = word[i];
    }
    at + word.len()
}

/// How many digits a number of at most four has.
#[inline(always)]
#[tactic(auto, using(crate::proofs::Digits::length_one, crate::proofs::Digits::length_two, crate::proofs::Digits::length_three, crate::proofs::Digits::length_of_four))]
fn few_digits(number: u64) -> usize
    requires { number < 10000 }
    ensures count { result ≡ length (decimal number) }
    ensures few { result ≤ 4 }
{
    if number < 10 {
        1
    } else if number < 100 {
        2
    } else if number < 1000 {
        3
    } else {
        4
    }
}

/// How many digits a number of at most eight has.
#[inline(always)]
#[tactic(auto, using(crate::proofs::Digits::length_four))]
fn some_digits(number: u64) -> usize
    requires { number < 100000000 }
    ensures count { result ≡ length (decimal number) }
    ensures few { result ≤ 8 }
{
    if number < 10_000 {
        few_digits(number)
    } else {
        few_digits(number / 10_000) + 4
    }
}

/// How many digits a number has.
#[inline(always)]
#[tactic(auto, using(crate::proofs::Digits::length_eight, crate::proofs::Digits::length_sixteen))]
fn digit_count(number: u64) -> usize
    ensures { result ≡ length (decimal number) }
{
    if number < 100_000_000 {
        some_digits(number)
    } else if number < 10_000_000_000_000_000 {
        some_digits(number / 100_000_000) + 8
    } else {
        some_digits(number / 10_000_000_000_000_000) + 16
    }
}

/// Puts a number of any length.
#[tactic(auto, using(crate::proofs::Digits::placed))]
fn put_digits(room: &mut [u8], at: usize, number: u64) -> usize
    requires { at + length (decimal number) ≤ length room.old }
    ensures text { take result room.new ≡ take at room.old ++ decimal number }
    ensures end { result ≡ at + length (decimal number) }
    ensures long { length room.new ≡ length room.old }
{
    let end = at + digit_count(number);
    write_digits(number, room, end);
    end
}

/// Puts a number.
#[inline(always)]
#[tactic(auto, using(crate::proofs::Digits::one_placed, crate::proofs::Digits::length_one))]
fn put_number(room: &mut [u8], at: usize, number: u64) -> usize
    requires { at + length (decimal number) ≤ length room.old }
    ensures text { take result room.new ≡ take at room.old ++ decimal number }
    ensures end { result ≡ at + length (decimal number) }
    ensures long { length room.new ≡ length room.old }
{
    if number < 10 {
        room[at] = b'0' + number as u8;
        at + 1
    } else {
        put_digits(room, at, number)
    }
}

/// Puts a number of 8 bits.
#[inline(always)]
#[tactic(auto, using(crate::proofs::Digits::byte_short))]
pub fn put_small(room: &mut [u8], at: usize, number: u8) -> usize
    requires { at + 3 ≤ length room.old }
    ensures text { take result room.new ≡ take at room.old ++ decimal number }
    ensures most { result ≤ at + 3 }
    ensures long { length room.new ≡ length room.old }
{
    put_number(room, at, u64::from(number))
}

/// Puts a number of 32 bits.
#[inline(always)]
#[tactic(auto, using(crate::proofs::Digits::word_short))]
pub fn put_wide(room: &mut [u8], at: usize, number: u32) -> usize
    requires { at + 10 ≤ length room.old }
    ensures text { take result room.new ≡ take at room.old ++ decimal number }
    ensures most { result ≤ at + 10 }
    ensures long { length room.new ≡ length room.old }
{
    put_number(room, at, u64::from(number))
}

/// Puts a number of 64 bits.
#[inline(always)]
#[tactic(auto, using(crate::proofs::Digits::long_short))]
pub fn put_long(room: &mut [u8], at: usize, number: u64) -> usize
    requires { at + 20 ≤ length room.old }
    ensures text { take result room.new ≡ take at room.old ++ decimal number }
    ensures most { result ≤ at + 20 }
    ensures long { length room.new ≡ length room.old }
{
    put_number(room, at, number)
}
