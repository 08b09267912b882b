//! Where the first newline stands.
ghost use Rattle.std.specs.Prelude.{◌≡◌, ◌==◌, ◌≤◌, length, map, take, IfSome};
ghost use Rattle.std.specs.Simd.Lanes.{mask_l};
ghost use Rattle.ports.specs.Lines.{HasNoNewline, EndsAt, IsFirstNewline};

use memchr::memchr;
use std::simd::prelude::*;

/// How many bytes are looked at in one go. Few lines of steps have more.
const BLOCK: usize = 32;

/// Where the first newline stands. The first `searched` bytes are known to have none.
#[inline(always)]
pub(super) fn first_newline(bytes: &[u8], searched: usize) -> Option<usize>
    requires within { searched ≤ length bytes.now }
    requires plain { HasNoNewline (take searched bytes.now) }
    ensures place { IsFirstNewline bytes.now result }
    ensures behind { IfSome result (λ n. searched ≤ n) }
{
    match newline_nearby(bytes, searched) {
        Some(place) => Some(place),
        None => newline_anywhere(bytes, searched),
    }
}

/// The same where the newline stands in the block behind those bytes, and that block is whole.
#[inline(always)]
fn newline_nearby(bytes: &[u8], searched: usize) -> Option<usize>
    requires within { searched ≤ length bytes.now }
    requires plain { HasNoNewline (take searched bytes.now) }
    ensures { IfSome result (λ n. (searched ≤ n) × EndsAt (length bytes.now) n bytes.now) }
{
    if bytes.len() - searched < BLOCK {
        return None;
    }
    let newlines = newlines_of(u8x32::from_slice(&bytes[searched..]));
    if newlines == 0 {
        return None;
    }
    Some(searched + newlines.trailing_zeros() as usize)
}

/// Which bytes of a block are newlines, a bit for each.
#[inline(always)]
fn newlines_of(block: u8x32) -> u64
    ensures { result ≡ mask_l (map (λ b. b == 10) block) }
{
    block.simd_eq(u8x32::splat(b'\n')).to_bitmask()
}

/// The same however far it is.
#[inline(never)]
fn newline_anywhere(bytes: &[u8], searched: usize) -> Option<usize>
    requires within { searched ≤ length bytes.now }
    requires plain { HasNoNewline (take searched bytes.now) }
    ensures place { IsFirstNewline bytes.now result }
    ensures behind { IfSome result (λ n. searched ≤ n) }
{
    match memchr(b'\n', &bytes[searched..]) {
        Some(at) => Some(searched + at),
        None => None,
    }
}
