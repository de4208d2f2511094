ghost use Rattle.std.specs.Prelude.{◌≡◌, ◌++◌, OnOk};
ghost use Rattle.sql_written.specs.Marks.{bytes_of};
ghost use Rattle.sql_written.specs.Commands as commands;
ghost use Rattle.sql_written.specs.Queries as queries;
ghost use Rattle.sql_written.specs.Words.{name_unless};

use crate::{is_plain, write_name_if};
use pg_values::NoMemory;
use sql_tokens::{TokenKind, same_kind, word_kind};

/// Appends the name of a setting.
pub(crate) fn write_setting_name(name: &[u8], out: &mut Vec<u8>) -> Result<(), NoMemory>
    ensures { OnOk result (out.new.items ≡ out.old.items ++ bytes_of (commands.setting_name name.now)) }
{
    let plain = is_plain(name) && !same_kind(word_kind(name), TokenKind::Local);
    write_name_if(plain, name, out)
}

/// Appends the name of a prepared statement.
pub(crate) fn write_prepared_name(name: &[u8], out: &mut Vec<u8>) -> Result<(), NoMemory>
    ensures { OnOk result (out.new.items ≡ out.old.items ++ bytes_of (name_unless queries.is_transaction name.now)) }
{
    let plain = is_plain(name) && !same_kind(word_kind(name), TokenKind::Transaction);
    write_name_if(plain, name, out)
}

fn is_end(kind: TokenKind) -> bool
    ensures { result ≡ commands.is_end kind }
{
    same_kind(kind, TokenKind::Minvalue) || same_kind(kind, TokenKind::Maxvalue)
}

/// Appends a column that stands alone as an edge of a range.
pub(crate) fn write_edge_name(name: &[u8], out: &mut Vec<u8>) -> Result<(), NoMemory>
    ensures { OnOk result (out.new.items ≡ out.old.items ++ bytes_of (commands.edge_name name.now)) }
{
    let plain = is_plain(name) && !is_end(word_kind(name));
    write_name_if(plain, name, out)
}
