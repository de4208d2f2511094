ghost use Rattle.grammar.specs.Gives.{Gives};
ghost use Rattle.sql_syntax.specs.Lock as grammar;
ghost use Rattle.sql_ast.specs.Commands.{command_tree};

use grammar::{Part, Refused, comes, maybe_word, separated, word};
use pg_values::LockMode;
use sql_ast::{Command, LockedTable, LockedTableList};
use sql_expressions::{one_of, plain_name};
use sql_tokens::{Token, TokenKind, same_kind};
use std::alloc::Global;

fn locked<'a>(
    alloc: Global,
    text: &[u8],
    tokens: &'a [Token],
) -> Result<(LockedTable, &'a [Token]), Refused>
    ensures { Gives (λ x. (x.0, x.1.now)) result ((grammar.locked text.now).read tokens.now) }
{
    let (only, rest) = maybe_word(tokens, TokenKind::Only)?;
    let (name, rest) = plain_name(alloc, text, rest)?;
    let only = only.is_some();
    Ok((LockedTable { only, name }, rest))
}

struct EachTable;

impl Part for EachTable {
    ghost use Rattle.sql_syntax.specs.Lock as grammar;
    ghost use Rattle.sql_ast.specs.declared.locked_table.LockedTable.{LockedTable as OneTable};

    type Token = Token;

    type Item = LockedTable;

    ghost Tree = { OneTable };

    ghost tree = { λ table. table };

    ghost rule = { grammar.locked };

    fn read<'a>(
        alloc: Global,
        text: &[u8],
        tokens: &'a [Token],
    ) -> Result<(LockedTable, &'a [Token]), Refused> {
        locked(alloc, text, tokens)
    }
}

/// What may stand behind SHARE.
fn behind_share(tokens: &[Token]) -> Result<(LockMode, &[Token]), Refused>
    ensures { Gives (λ x. (x.0, x.1.now)) result (grammar.behind_share.read tokens.now) }
{
    if comes(tokens, TokenKind::Update) {
        let (_, rest) = word(tokens, TokenKind::Update)?;
        let (_, rest) = word(rest, TokenKind::Exclusive)?;
        return Ok((LockMode::ShareUpdateExclusive, rest));
    }
    if comes(tokens, TokenKind::Row) {
        let (_, rest) = word(tokens, TokenKind::Row)?;
        let (_, rest) = word(rest, TokenKind::Exclusive)?;
        return Ok((LockMode::ShareRowExclusive, rest));
    }
    Ok((LockMode::Share, tokens))
}

/// SHARE or EXCLUSIVE behind another word.
fn shared_or(
    share: LockMode,
    exclusive: LockMode,
    tokens: &[Token],
) -> Result<(LockMode, &[Token]), Refused>
    ensures { Gives (λ x. (x.0, x.1.now)) result ((grammar.share_or_exclusive share exclusive).read tokens.now) }
{
    let (first, rest) = one_of(tokens, TokenKind::Share, TokenKind::Exclusive)?;
    if same_kind(first.kind, TokenKind::Share) {
        Ok((share, rest))
    } else {
        Ok((exclusive, rest))
    }
}

fn lock_mode(tokens: &[Token]) -> Result<(LockMode, &[Token]), Refused>
    ensures { Gives (λ x. (x.0, x.1.now)) result (grammar.lock_mode.read tokens.now) }
{
    if comes(tokens, TokenKind::Access) {
        let (_, rest) = word(tokens, TokenKind::Access)?;
        return shared_or(LockMode::AccessShare, LockMode::AccessExclusive, rest);
    }
    if comes(tokens, TokenKind::Row) {
        let (_, rest) = word(tokens, TokenKind::Row)?;
        return shared_or(LockMode::RowShare, LockMode::RowExclusive, rest);
    }
    if comes(tokens, TokenKind::Share) {
        let (_, rest) = word(tokens, TokenKind::Share)?;
        return behind_share(rest);
    }
    let (_, rest) = word(tokens, TokenKind::Exclusive)?;
    Ok((LockMode::Exclusive, rest))
}

/// The mode, which is the strongest where none is written.
fn maybe_mode(tokens: &[Token]) -> Result<(LockMode, &[Token]), Refused>
    ensures { Gives (λ x. (x.0, x.1.now)) result (grammar.maybe_mode.read tokens.now) }
{
    if !comes(tokens, TokenKind::In) {
        return Ok((LockMode::AccessExclusive, tokens));
    }
    let (_, rest) = word(tokens, TokenKind::In)?;
    let (mode, rest) = lock_mode(rest)?;
    let (_, rest) = word(rest, TokenKind::Mode)?;
    Ok((mode, rest))
}

pub(crate) fn lock<'a>(
    alloc: Global,
    text: &[u8],
    tokens: &'a [Token],
) -> Result<(Command, &'a [Token]), Refused>
    ensures { Gives (λ x. (command_tree x.0, x.1.now)) result ((grammar.lock text.now).read tokens.now) }
{
    let (_, rest) = word(tokens, TokenKind::Lock)?;
    let (_, rest) = maybe_word(rest, TokenKind::Table)?;
    let (tables, rest) = separated::<EachTable>(alloc, text, TokenKind::Comma, rest)?;
    let (mode, rest) = maybe_mode(rest)?;
    let tables = LockedTableList::from_vec(tables);
    Ok((Command::Lock(tables, mode), rest))
}
