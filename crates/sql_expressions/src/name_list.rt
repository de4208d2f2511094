ghost use Rattle.std.specs.Prelude.{◌≡◌, ◌∷◌, []};
ghost use Rattle.grammar.specs.Gives.{Gives};
ghost use Rattle.sql_expressions.specs.Lists as lists;

use crate::plain_name;
use grammar::{Part, Refused, more_parts, separated};
use pg_values::PgText;
use sql_tokens::{Token, TokenKind};
use std::alloc::Global;

struct Name;

impl Part for Name {
    ghost use Rattle.std.specs.Prelude.{List, ℕ};
    ghost use Rattle.sql_expressions.specs.Lists as lists;

    type Token = Token;

    type Item = PgText;

    ghost Tree = { List ℕ };

    ghost tree = { λ name. name };

    ghost rule = { lists.plain_name };

    fn read<'a>(
        alloc: Global,
        text: &[u8],
        tokens: &'a [Token],
    ) -> Result<(PgText, &'a [Token]), Refused> {
        plain_name(alloc, text, tokens)
    }
}

/// A name that stands there, and those behind it.
pub fn with_more_names<'a>(
    alloc: Global,
    text: &[u8],
    name: PgText,
    tokens: &'a [Token],
) -> Result<(Vec<PgText>, &'a [Token]), Refused>
    ensures { Gives (λ x. (x.0.items, x.1.now)) result ((lists.more_commas (lists.plain_name text.now) (name ∷ [])).read tokens.now) }
{
    let mut names = Vec::new(alloc);
    names.push(name)?;
    more_parts::<Name>(alloc, text, TokenKind::Comma, names, tokens)
}

/// Names with commas between.
pub fn names<'a>(
    alloc: Global,
    text: &[u8],
    tokens: &'a [Token],
) -> Result<(Vec<PgText>, &'a [Token]), Refused>
    ensures { Gives (λ x. (x.0.items, x.1.now)) result ((lists.commas (lists.plain_name text.now)).read tokens.now) }
{
    separated::<Name>(alloc, text, TokenKind::Comma, tokens)
}
