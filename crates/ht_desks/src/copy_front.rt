//! Taking bytes from the front of what is left of a text.
ghost use Rattle.std.specs.Prelude.{◌≡◌, ◌<◌, ◌≤◌, ◌+◌, ◌^◌, ◌++◌, [], length, take, drop, min};

/// Copies what stands in `from` after its first `start` bytes, as much as fits
/// into `buf` and `most` bytes at the most, and says how many bytes these were.
pub fn copy_front(from: &[u8], start: usize, most: usize, buf: &mut [u8]) -> usize
    ensures bound { result ≤ length buf.new }
    ensures fits { start + result < 2 ^ 64 }
    ensures copied { drop start from.now ≡ take result buf.new ++ drop (start + result) from.now }
    ensures all { result ≡ min (length (drop start from.now)) (min (length buf.old) most) }
    ensures none { result ≡ 0 → 0 < length buf.old → 0 < most → drop start from.now ≡ [] }
{
    if start >= from.len() {
        return 0;
    }
    let rest = &from[start..];
    let count = rest.len().min(buf.len()).min(most);
    buf[..count].copy_from_slice(&rest[..count]);
    count
}
