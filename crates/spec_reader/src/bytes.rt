ghost use Rattle.std.specs.Prelude.{◌≡◌, ◌≤◌, ◌-◌, length, take, drop};
ghost use Rattle.std.specs.List.{prefix_len, suffix_len};
ghost use Rattle.spec_reader.specs.Bytes as bytes;

/// What runs on from byte to byte, up to the first that does not belong to it.
#[derive(Clone, Copy)]
pub enum Run {
    Blanks,
    Digits,
    Name,
    Comment,
    Block,
}

pub fn is_blank(b: u8) -> bool
    ensures { result ≡ bytes.is_blank b }
{
    matches!(b, b' ' | b'\t' | b'\r' | b'\n')
}

pub fn is_digit(b: u8) -> bool
    ensures { result ≡ bytes.is_digit b }
{
    matches!(b, b'0'..=b'9')
}

pub fn begins_name(b: u8) -> bool
    ensures { result ≡ bytes.begins_name b }
{
    matches!(b, b'a'..=b'z' | b'A'..=b'Z' | b'_' | 128..=255)
}

pub fn goes_on(run: Run, b: u8) -> bool
    ensures { result ≡ bytes.goes_on run b }
{
    match run {
        Run::Blanks => is_blank(b),
        Run::Digits => is_digit(b),
        Run::Name => begins_name(b) || is_digit(b) || b == b'$',
        Run::Comment => b != b'\n',
        Run::Block => b != b'}',
    }
}

/// How many bytes at the front run on.
pub fn run_len(run: Run, text: &[u8]) -> usize
    ensures same { result ≡ prefix_len (bytes.goes_on run) text.now }
    ensures within { result ≤ length text.now }
{
    let mut n = 0;
    while n < text.len() && goes_on(run, text[n]) {
        n += 1;
    }
    n
}

/// How many bytes stand before the blanks at the end.
fn end_of_text(text: &[u8]) -> usize
    ensures { result ≡ length text.now - suffix_len bytes.is_blank text.now }
{
    let mut n = text.len();
    while n > 0 && is_blank(text[n - 1]) {
        n -= 1;
    }
    n
}

/// The text without the blanks at both ends.
pub fn trimmed(text: &[u8]) -> &[u8]
    ensures { result.now ≡ bytes.trimmed text.now }
{
    let rest = &text[run_len(Run::Blanks, text)..];
    &rest[..end_of_text(rest)]
}
