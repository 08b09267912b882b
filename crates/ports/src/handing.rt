//! Handing bytes out of a buffer, which the sources that hold their bytes share.
ghost use Rattle.std.specs.Prelude.{◌≡◌, ◌+◌, ◌-◌, ◌<◌, ◌≤◌, ◌↔◌, ◌++◌, [], length, min, take, drop};

/// Copies the bytes from `at` on into the front of `into`, at most `most` of them, and answers how many.
pub(super) fn hand_out(bytes: &[u8], at: usize, into: &mut [u8], most: usize) -> usize
    requires place { at ≤ length bytes.now }
    requires some { 0 < length into.old }
    requires most { 1 ≤ most }
    ensures count { result ≡ min (min (length (drop at bytes.now)) (length into.old)) most }
    ensures within { at + result ≤ length bytes.now }
    ensures bound { (result ≤ length into.new) × (result ≡ length (take result into.new)) }
    ensures moved { drop at bytes.now ≡ take result into.new ++ drop (at + result) bytes.now }
    ensures end { (result ≡ 0) ↔ (drop at bytes.now ≡ []) }
    ensures last { result ≡ 0 → drop (at + result) bytes.now ≡ [] }
{
    let rest = &bytes[at..];
    let count = rest.len().min(into.len()).min(most);
    into[..count].copy_from_slice(&rest[..count]);
    count
}
