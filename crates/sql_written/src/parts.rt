ghost use Rattle.std.specs.Prelude.{◌≡◌, ◌++◌, OnOk, map};
ghost use Rattle.sql_ast.specs.Expressions.{trees};
ghost use Rattle.sql_written.specs.Marks.{text_of};
ghost use Rattle.sql_written.specs.Lists as lists;

use crate::{write_expression, write_name};
use pg_values::{NoMemory, PgText};
use sql_ast::{Expr, ExprList};

/// What stands between commas: it is written as its marks say.
pub(crate) trait Part {
    ghost use Rattle.std.specs.Prelude.{◌≡◌, ◌++◌, List, OnOk};
    ghost use Rattle.sql_written.specs.Marks.{Mark, text_of};

    type Item;

    /// What contracts see of a part.
    ghost Tree: { Type 0 };

    ghost tree: { Self.Item → Tree };

    ghost marks: { Tree → List Mark };

    fn write(part: &Self::Item, out: &mut Vec<u8>) -> Result<(), NoMemory>
        ensures { OnOk result (out.new.items ≡ out.old.items ++ text_of (marks (tree part.now))) };
}

/// The parts behind the first.
fn write_more<P: Part>(parts: &[P::Item], out: &mut Vec<u8>) -> Result<(), NoMemory>
    ensures { OnOk result (out.new.items ≡ out.old.items ++ text_of (lists.more_parts P.marks (map P.tree parts.now))) }
{
    for part in parts {
        out.extend_from_slice(b", ")?;
        P::write(part, out)?;
    }
    Ok(())
}

/// Parts with commas between.
pub(crate) fn write_parts<P: Part>(parts: &[P::Item], out: &mut Vec<u8>) -> Result<(), NoMemory>
    ensures { OnOk result (out.new.items ≡ out.old.items ++ text_of (lists.parts P.marks (map P.tree parts.now))) }
{
    if let [first, rest @ ..] = parts {
        P::write(first, out)?;
        write_more::<P>(rest, out)?;
    }
    Ok(())
}

struct Name;

impl Part for Name {
    ghost use Rattle.std.specs.Prelude.{List, ℕ};
    ghost use Rattle.sql_written.specs.Lists as lists;

    type Item = PgText;

    ghost Tree = { List ℕ };

    ghost tree = { λ name. name };

    ghost marks = { lists.name_marks };

    fn write(part: &PgText, out: &mut Vec<u8>) -> Result<(), NoMemory> {
        write_name(part.as_bytes(), out)
    }
}

struct Value;

impl Part for Value {
    ghost use Rattle.sql_ast.specs.Expressions.{Tree as OneTree, tree as tree_of};
    ghost use Rattle.sql_written.specs.Written as shown;

    type Item = Expr;

    ghost Tree = { OneTree };

    ghost tree = { tree_of };

    ghost marks = { shown.marks };

    fn write(part: &Expr, out: &mut Vec<u8>) -> Result<(), NoMemory> {
        write_expression(*out.allocator(), part, out)
    }
}

/// Names with commas between.
pub(crate) fn write_names(names: &[PgText], out: &mut Vec<u8>) -> Result<(), NoMemory>
    ensures { OnOk result (out.new.items ≡ out.old.items ++ text_of (lists.names names.now)) }
{
    write_parts::<Name>(names, out)
}

/// Parts in parentheses.
pub(crate) fn write_enclosed<P: Part>(parts: &[P::Item], out: &mut Vec<u8>) -> Result<(), NoMemory>
    ensures { OnOk result (out.new.items ≡ out.old.items ++ text_of (lists.enclosed (lists.parts P.marks (map P.tree parts.now)))) }
{
    out.push(b'(')?;
    write_parts::<P>(parts, out)?;
    out.push(b')')?;
    Ok(())
}

/// Names in parentheses.
pub(crate) fn write_enclosed_names(names: &[PgText], out: &mut Vec<u8>) -> Result<(), NoMemory>
    ensures { OnOk result (out.new.items ≡ out.old.items ++ text_of (lists.enclosed (lists.names names.now))) }
{
    write_enclosed::<Name>(names, out)
}

/// Expressions in parentheses.
pub(crate) fn write_enclosed_values(list: &ExprList, out: &mut Vec<u8>) -> Result<(), NoMemory>
    ensures { OnOk result (out.new.items ≡ out.old.items ++ text_of (lists.enclosed (lists.values (trees list.now)))) }
{
    write_enclosed::<Value>(list.as_slice(), out)
}
