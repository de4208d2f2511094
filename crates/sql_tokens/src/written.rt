//! What the definitions say of any text that is written between quotes, with each quote in it
//! written twice: it is read as one token, and the token says that text.

ghost use Rattle.std.specs.Prelude.{◌≡◌, ◌<◌, ℕ, List, length, true};
ghost use Rattle.std.specs.Str.{is_utf8};
ghost use Rattle.sql_tokens.specs.declared.kind.TokenKind.TheVariants as kinds;
ghost use Rattle.sql_tokens.specs.Contents.{name_in, string_in};
ghost use Rattle.sql_tokens.specs.Written.{IsToken, quoted};

/// Holds of every text; the call does nothing.
pub fn strings_read_back()
    ensures { (bytes : List ℕ) → is_utf8 (quoted 39 bytes) ≡ true → IsToken kinds.Text (quoted 39 bytes) string_in bytes }
{}

/// Holds of every text but the empty one; the call does nothing.
pub fn names_read_back()
    ensures { (bytes : List ℕ) → 0 < length bytes → is_utf8 (quoted 34 bytes) ≡ true → IsToken kinds.QuotedName (quoted 34 bytes) name_in bytes }
{}
