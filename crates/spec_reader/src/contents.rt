ghost use Rattle.std.specs.Prelude.{◌≡◌, IfOk};
ghost use Rattle.spec_reader.specs.Contents as contents;

use crate::bytes::trimmed;
use crate::kind::{ScriptTokenKind, same_kind};
use crate::token::Token;
use grammar::{inside_of, slice, undoubled};
use pg_values::{NoMemory, PgText};
use std::alloc::Global;

/// The name that a token says.
pub fn name_of(alloc: Global, text: &[u8], token: Token) -> Result<PgText, NoMemory>
    ensures { IfOk result (λ name. name ≡ contents.name_in text.now token) }
{
    let bytes = slice(text, token.start, token.end);
    if same_kind(token.kind, ScriptTokenKind::QuotedName) {
        return PgText::from_vec(alloc, undoubled(alloc, b'"', inside_of(bytes))?);
    }
    PgText::from_bytes(alloc, bytes)
}

/// The text of a block, without the blanks at both ends.
pub fn block_of(alloc: Global, text: &[u8], token: Token) -> Result<PgText, NoMemory>
    ensures { IfOk result (λ block. block ≡ contents.block_in text.now token) }
{
    PgText::from_bytes(
        alloc,
        trimmed(inside_of(slice(text, token.start, token.end))),
    )
}
