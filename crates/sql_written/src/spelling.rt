ghost use Rattle.std.specs.List.{prefix_len};
ghost use Rattle.std.specs.Prelude.{◌≡◌, ◌++◌, ◌∷◌, [], if◌then◌else◌, IfOk, OnErr, OnOk};
ghost use Rattle.sql_tokens.specs.Words.{word_kind as kind_of};
ghost use Rattle.sql_tokens.specs.Written as quotes;
ghost use Rattle.sql_written.specs.Marks.{bytes_of, mark, text_of};
ghost use Rattle.sql_written.specs.Spelling as spelled;

use pg_values::NoMemory;
use sql_ast::{Leaf, Operator};
use sql_tokens::{Class, TokenKind, belongs, is_name, word_kind};
use std::alloc::Global;

/// Whether a name without quotes goes on with the byte, and says it as it is.
fn is_kept(b: u8) -> bool
    ensures { result ≡ spelled.is_kept b }
{
    belongs(Class::NamePart, b) && !b.is_ascii_uppercase()
}

/// How many of the first bytes a name without quotes keeps.
fn kept_len(name: &[u8]) -> usize
    ensures { result ≡ prefix_len spelled.is_kept name.now }
{
    let mut end = 0;
    while end < name.len() && is_kept(name[end]) {
        end += 1;
    }
    end
}

fn begins_name(name: &[u8]) -> bool
    ensures { result ≡ spelled.begins_name name.now }
{
    !name.is_empty() && belongs(Class::NameStart, name[0])
}

/// Whether a name needs no quotes.
pub fn is_plain(name: &[u8]) -> bool
    ensures { result ≡ spelled.is_plain name.now }
{
    begins_name(name) && kept_len(name) == name.len() && is_name(word_kind(name))
}

/// Appends a byte between quotes: a quote twice.
fn write_byte(quote: u8, b: u8, out: &mut Vec<u8>) -> Result<(), NoMemory>
    ensures { OnOk result (out.new.items ≡ out.old.items ++ quotes.doubled quote (b ∷ [])) }
{
    if b == quote {
        out.push(quote)?;
    }
    out.push(b)?;
    Ok(())
}

fn write_doubled(quote: u8, text: &[u8], out: &mut Vec<u8>) -> Result<(), NoMemory>
    ensures { OnOk result (out.new.items ≡ out.old.items ++ quotes.doubled quote text.now) }
{
    for b in text {
        write_byte(quote, *b, out)?;
    }
    Ok(())
}

fn quoted(alloc: Global, quote: u8, text: &[u8]) -> Result<Vec<u8>, NoMemory>
    ensures { IfOk result (λ z. z.items ≡ quotes.quoted quote text.now) }
{
    let mut quoted = Vec::new(alloc);
    quoted.push(quote)?;
    write_doubled(quote, text, &mut quoted)?;
    quoted.push(quote)?;
    Ok(quoted)
}

/// Appends a text between quotes, with each quote in it twice: all of it or, where memory runs out,
/// nothing.
pub fn write_quoted(quote: u8, text: &[u8], out: &mut Vec<u8>) -> Result<(), NoMemory>
    ensures ok { OnOk result (out.new.items ≡ out.old.items ++ quotes.quoted quote text.now) }
    ensures err { OnErr result (out.new.items ≡ out.old.items) }
{
    let text = quoted(*out.allocator(), quote, text)?;
    out.extend_from_slice(&text)?;
    Ok(())
}

/// Appends a name, between quotes unless it may stand without: all of it or nothing.
pub fn write_name_if(plain: bool, name: &[u8], out: &mut Vec<u8>) -> Result<(), NoMemory>
    ensures ok { OnOk result (out.new.items ≡ out.old.items ++ bytes_of (if plain then mark (kind_of name.now) name.now else mark TokenKind.QuotedName (quotes.quoted 34 name.now))) }
    ensures err { OnErr result (out.new.items ≡ out.old.items) }
{
    if plain {
        out.extend_from_slice(name)?;
        return Ok(());
    }
    write_quoted(b'"', name, out)
}

/// Appends a name, between quotes only where it must be: all of it or nothing.
pub fn write_name(name: &[u8], out: &mut Vec<u8>) -> Result<(), NoMemory>
    ensures ok { OnOk result (out.new.items ≡ out.old.items ++ bytes_of (spelled.name name.now)) }
    ensures err { OnErr result (out.new.items ≡ out.old.items) }
{
    write_name_if(is_plain(name), name, out)
}

/// Appends a whole number: all of it or nothing.
pub fn write_number(n: u64, out: &mut Vec<u8>) -> Result<(), NoMemory>
    ensures ok { OnOk result (out.new.items ≡ out.old.items ++ bytes_of (spelled.number n)) }
    ensures err { OnErr result (out.new.items ≡ out.old.items) }
{
    let mut digits = itoa::Buffer::new();
    out.extend_from_slice(digits.format(n).as_bytes())?;
    Ok(())
}

fn write_table_name(out: &mut Vec<u8>) -> Result<(), NoMemory>
    ensures { OnOk result (out.new.items ≡ out.old.items ++ text_of spelled.table_name) }
{
    out.extend_from_slice(b"tableoid::regclass")?;
    Ok(())
}

/// Appends an expression without operands.
pub(crate) fn write_leaf(leaf: &Leaf, out: &mut Vec<u8>) -> Result<(), NoMemory>
    ensures { OnOk result (out.new.items ≡ out.old.items ++ text_of (spelled.leaf_marks leaf.now)) }
{
    match leaf {
        Leaf::Number(n) => write_number(*n, out),
        Leaf::Text(text) => write_quoted(b'\'', text.as_bytes(), out),
        Leaf::Date(text) => {
            out.extend_from_slice(b"DATE ")?;
            write_quoted(b'\'', text.as_bytes(), out)
        }
        Leaf::Null => {
            out.extend_from_slice(b"NULL")?;
            Ok(())
        }
        Leaf::Truth(true) => {
            out.extend_from_slice(b"TRUE")?;
            Ok(())
        }
        Leaf::Truth(false) => {
            out.extend_from_slice(b"FALSE")?;
            Ok(())
        }
        Leaf::Parameter(n) => {
            out.push(b'$')?;
            write_number(*n, out)
        }
        Leaf::Column(name) => write_name(name.as_bytes(), out),
        Leaf::ColumnOf(table, name) => {
            write_name(table.as_bytes(), out)?;
            out.push(b'.')?;
            write_name(name.as_bytes(), out)
        }
        Leaf::TableName => write_table_name(out),
        Leaf::TableNameOf(table) => {
            write_name(table.as_bytes(), out)?;
            out.push(b'.')?;
            write_table_name(out)
        }
    }
}

/// Appends the sign of an operator.
pub(crate) fn write_sign(operator: Operator, out: &mut Vec<u8>) -> Result<(), NoMemory>
    ensures { OnOk result (out.new.items ≡ out.old.items ++ bytes_of (spelled.sign operator)) }
{
    let sign: &[u8] = match operator {
        Operator::Add => b"+",
        Operator::Subtract => b"-",
        Operator::Multiply => b"*",
        Operator::Divide => b"/",
        Operator::Remainder => b"%",
        Operator::Equal => b"=",
        Operator::NotEqual => b"<>",
        Operator::Less => b"<",
        Operator::LessEqual => b"<=",
        Operator::Greater => b">",
        Operator::GreaterEqual => b">=",
    };
    out.extend_from_slice(sign)?;
    Ok(())
}
