ghost use Rattle.std.specs.Prelude.{◌≡◌, ◌<◌, ◌≤◌, ◌+◌, ◌^◌, ◌++◌, length, false, IfSome, IfOk};
ghost use Rattle.grammar.specs.Quotes as quotes;

use crate::text_places::byte;
use pg_values::NoMemory;
use std::alloc::Global;

/// How many bytes a text between quotes has, both quotes among them, for what stands behind the opening one;
/// none where it is not closed.
pub fn closing(quote: u8, mut z: &[u8]) -> Option<usize>
    requires { length z.now < 2 ^ 63 }
    ensures value { result ≡ quotes.closing quote false 1 z.entry.now }
    ensures within { IfSome result (λ end. (1 < end) × (end ≤ length z.entry.now + 1)) }
{
    let mut is_second = false;
    let mut at = 1;
    while let [b, rest @ ..] = z {
        if !is_second && *b == quote && byte(rest, 0) != quote {
            return Some(at + 1);
        }
        is_second = !is_second && *b == quote;
        at += 1;
        z = rest;
    }
    None
}

fn keep(out: &mut Vec<u8>, is_second: bool, b: u8) -> Result<(), NoMemory>
    ensures { IfOk result (λ _. out.new.items ≡ out.old.items ++ quotes.kept is_second b) }
{
    if !is_second {
        out.push(b)?;
    }
    Ok(())
}

/// The bytes between quotes, with one quote for two.
pub fn undoubled(alloc: Global, quote: u8, mut z: &[u8]) -> Result<Vec<u8>, NoMemory>
    ensures { IfOk result (λ v. v.items ≡ quotes.undoubled quote false z.entry.now) }
{
    let mut out = Vec::new(alloc);
    let mut is_second = false;
    while let [b, rest @ ..] = z {
        keep(&mut out, is_second, *b)?;
        is_second = !is_second && *b == quote;
        z = rest;
    }
    Ok(out)
}
