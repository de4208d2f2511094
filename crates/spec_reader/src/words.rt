ghost use Rattle.std.specs.Prelude.{◌≡◌};
ghost use Rattle.std.specs.Str.{bytes_eq};
ghost use Rattle.spec_reader.specs.Words as words;

use crate::kind::ScriptTokenKind;

fn same_word(a: &[u8], b: &[u8]) -> bool
    ensures { result ≡ bytes_eq a.now b.now }
{
    a == b
}

/// The kind of a keyword, or of a name.
pub fn word_kind(word: &[u8]) -> ScriptTokenKind
    ensures { result ≡ words.word_kind word.now }
{
    if same_word(word, b"setup") {
        ScriptTokenKind::Setup
    } else if same_word(word, b"teardown") {
        ScriptTokenKind::Teardown
    } else if same_word(word, b"session") {
        ScriptTokenKind::Session
    } else if same_word(word, b"step") {
        ScriptTokenKind::Step
    } else if same_word(word, b"permutation") {
        ScriptTokenKind::Permutation
    } else if same_word(word, b"notices") {
        ScriptTokenKind::Notices
    } else {
        ScriptTokenKind::Name
    }
}
