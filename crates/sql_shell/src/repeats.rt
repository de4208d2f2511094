use pg_values::NoMemory;
use std::alloc::Global;

/// What stands before the first blank, and behind it.
pub(crate) fn parted(line: &[u8]) -> (&[u8], &[u8]) {
    for (i, byte) in line.iter().enumerate() {
        if *byte == b' ' {
            return (&line[..i], &line[i + 1..]);
        }
    }
    (line, b"")
}

fn number(digits: &[u8]) -> u64 {
    let mut n: u64 = 0;
    for digit in digits {
        n = n
            .saturating_mul(10)
            .saturating_add(u64::from(digit.saturating_sub(b'0')));
    }
    n
}

/// Appends a text as often as the number before it says, or the byte of a number that stands alone.
fn write_repeated(repeated: &[u8], out: &mut Vec<u8>) -> Result<(), NoMemory> {
    let (times, text) = parted(repeated);
    if text.is_empty() {
        out.push(number(times).min(255) as u8)?;
        return Ok(());
    }
    for _ in 0..number(times) {
        out.extend_from_slice(text)?;
    }
    Ok(())
}

/// A text with what stands between two backticks in it repeated.
pub(crate) fn spelled_out(alloc: Global, short: &[u8]) -> Result<Vec<u8>, NoMemory> {
    let mut out = Vec::new(alloc);
    let mut repeats = false;
    for part in short.split(|b| *b == b'`') {
        if repeats {
            write_repeated(part, &mut out)?;
        } else {
            out.extend_from_slice(part)?;
        }
        repeats = !repeats;
    }
    Ok(out)
}
