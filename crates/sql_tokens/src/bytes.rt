ghost use Rattle.std.specs.Prelude.{◌≡◌, ◌<◌, ◌≤◌, length, slice_index, true};
ghost use Rattle.sql_tokens.specs.Bytes as bytes;

/// A class of bytes.
#[derive(Clone, Copy, Debug)]
pub enum Class {
    Blank,
    Digit,
    NameStart,
    NamePart,
    /// A byte that does not end a comment of one line.
    Line,
}

pub fn belongs(class: Class, b: u8) -> bool
    ensures { result ≡ bytes.belongs class b }
{
    match class {
        Class::Blank => b == b' ' || (9 <= b && b <= 13),
        Class::Digit => b.is_ascii_digit(),
        Class::NameStart => b.is_ascii_alphabetic() || b == b'_' || 128 <= b,
        Class::NamePart => b.is_ascii_alphanumeric() || b == b'_' || b == b'$' || 128 <= b,
        Class::Line => !(b == b'\n' || b == b'\r'),
    }
}

/// The first place from `at` on whose byte is not of the class.
pub fn past(class: Class, z: &[u8], at: usize) -> usize
    requires { at ≤ length z.now }
    ensures value { result ≡ bytes.past class z.now at }
    ensures within { (at ≤ result) × (result ≤ length z.now) }
    ensures moves { at < length z.now → bytes.belongs class (slice_index z.now at) ≡ true → at < result }
{
    let mut end = at;
    while end < z.len() && belongs(class, z[end]) {
        end += 1;
    }
    end
}
