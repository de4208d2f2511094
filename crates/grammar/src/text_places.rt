ghost use Rattle.std.specs.Prelude.{◌≡◌, ◌≢◌, ◌<◌, length, slice_index, drop, take};
ghost use Rattle.grammar.specs.TextPlaces as places;

/// The byte at a place, or 0 behind the end.
pub fn byte(z: &[u8], at: usize) -> u8
    ensures value { result ≡ slice_index z.now at }
    ensures within { result ≢ 0 → at < length z.now }
{
    if at < z.len() { z[at] } else { 0 }
}

/// The bytes from a place on: none where the text is shorter.
pub fn behind(z: &[u8], at: usize) -> &[u8]
    ensures { result.now ≡ drop at z.now }
{
    &z[at.min(z.len())..]
}

/// The first bytes: all of them where there are fewer.
fn first(z: &[u8], n: usize) -> &[u8]
    ensures { result.now ≡ take n z.now }
{
    &z[..n.min(z.len())]
}

/// The bytes between two places. A place behind the end stands for the end.
pub fn slice(z: &[u8], start: usize, end: usize) -> &[u8]
    ensures { result.now ≡ places.slice z.now start end }
{
    first(behind(z, start), end.saturating_sub(start))
}

/// A text without its first and its last byte.
pub fn inside_of(z: &[u8]) -> &[u8]
    ensures { result.now ≡ places.inside z.now }
{
    first(behind(z, 1), z.len().saturating_sub(2))
}
