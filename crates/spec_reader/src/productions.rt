//! A function for each production of `specs/Scripts.antt`.

ghost use Rattle.grammar.specs.Gives.{Gives};
ghost use Rattle.spec_reader.specs.Scripts as scripts;

use crate::contents::{block_of, name_of};
use crate::in_order::InOrder;
use crate::kind::ScriptTokenKind;
use crate::spec::{SessionSpec, StepSpec};
use crate::token::Token;
use crate::written::{WrittenMarker, WrittenSpec, WrittenUse};
use grammar::{Begun, Part, Refused, any, comes, name_comes, separated, some, word};
use pg_values::PgText;
use std::alloc::Global;

fn name<'t>(
    alloc: Global,
    text: &[u8],
    tokens: &'t [Token],
) -> Result<(PgText, &'t [Token]), Refused>
    ensures { Gives (λ x. (x.0, x.1.now)) result ((scripts.name text.now).read tokens.now) }
{
    let (token, rest) = grammar::name(tokens)?;
    Ok((name_of(alloc, text, token)?, rest))
}

fn block<'t>(
    alloc: Global,
    text: &[u8],
    tokens: &'t [Token],
) -> Result<(PgText, &'t [Token]), Refused>
    ensures { Gives (λ x. (x.0, x.1.now)) result ((scripts.block text.now).read tokens.now) }
{
    let (token, rest) = word(tokens, ScriptTokenKind::Block)?;
    Ok((block_of(alloc, text, token)?, rest))
}

/// A block behind its word.
fn block_behind<'t>(
    alloc: Global,
    text: &[u8],
    kind: ScriptTokenKind,
    tokens: &'t [Token],
) -> Result<(PgText, &'t [Token]), Refused>
    ensures { Gives (λ x. (x.0, x.1.now)) result ((scripts.block_of text.now kind).read tokens.now) }
{
    let (_, rest) = word(tokens, kind)?;
    block(alloc, text, rest)
}

fn maybe_block<'t>(
    alloc: Global,
    text: &[u8],
    kind: ScriptTokenKind,
    tokens: &'t [Token],
) -> Result<(Option<PgText>, &'t [Token]), Refused>
    ensures { Gives (λ x. (x.0, x.1.now)) result ((scripts.maybe_block text.now kind).read tokens.now) }
{
    if !comes(tokens, kind) {
        return Ok((None, tokens));
    }
    let (block, rest) = block_behind(alloc, text, kind, tokens)?;
    Ok((Some(block), rest))
}

struct Setup;

impl Part for Setup {
    ghost use Rattle.std.specs.Prelude.{List, ℕ};
    ghost use Rattle.spec_reader.specs.Scripts as scripts;

    type Token = Token;

    type Item = PgText;

    ghost Tree = { List ℕ };

    ghost tree = { λ block. block };

    ghost rule = { scripts.setup };

    fn read<'a>(
        alloc: Global,
        text: &[u8],
        tokens: &'a [Token],
    ) -> Result<(PgText, &'a [Token]), Refused> {
        block_behind(alloc, text, ScriptTokenKind::Setup, tokens)
    }
}

impl Begun for Setup {
    ghost use Rattle.spec_reader.specs.Scripts as scripts;
    ghost use Rattle.spec_reader.specs.declared.kind.ScriptTokenKind.TheVariants as kinds;

    ghost begins = { scripts.a kinds.Setup };

    fn comes(tokens: &[Token]) -> bool {
        comes(tokens, ScriptTokenKind::Setup)
    }
}

struct Step;

impl Part for Step {
    ghost use Rattle.spec_reader.specs.Scripts as scripts;
    ghost use Rattle.spec_reader.specs.declared.spec.StepSpec.{StepSpec as OneStep};

    type Token = Token;

    type Item = StepSpec;

    ghost Tree = { OneStep };

    ghost tree = { λ step. step };

    ghost rule = { scripts.step };

    fn read<'a>(
        alloc: Global,
        text: &[u8],
        tokens: &'a [Token],
    ) -> Result<(StepSpec, &'a [Token]), Refused> {
        let (_, rest) = word(tokens, ScriptTokenKind::Step)?;
        let (name, rest) = name(alloc, text, rest)?;
        let (block, rest) = block(alloc, text, rest)?;
        Ok((StepSpec { name, block }, rest))
    }
}

impl Begun for Step {
    ghost use Rattle.spec_reader.specs.Scripts as scripts;
    ghost use Rattle.spec_reader.specs.declared.kind.ScriptTokenKind.TheVariants as kinds;

    ghost begins = { scripts.a kinds.Step };

    fn comes(tokens: &[Token]) -> bool {
        comes(tokens, ScriptTokenKind::Step)
    }
}

struct Session;

impl Part for Session {
    ghost use Rattle.spec_reader.specs.Scripts as scripts;
    ghost use Rattle.spec_reader.specs.declared.spec.SessionSpec.{SessionSpec as OneSession};

    type Token = Token;

    type Item = SessionSpec;

    ghost Tree = { OneSession };

    ghost tree = { λ session. session };

    ghost rule = { scripts.session };

    fn read<'a>(
        alloc: Global,
        text: &[u8],
        tokens: &'a [Token],
    ) -> Result<(SessionSpec, &'a [Token]), Refused> {
        let (_, rest) = word(tokens, ScriptTokenKind::Session)?;
        let (name, rest) = name(alloc, text, rest)?;
        let (setup, rest) = maybe_block(alloc, text, ScriptTokenKind::Setup, rest)?;
        let (steps, rest) = some::<Step>(alloc, text, rest)?;
        let (teardown, rest) = maybe_block(alloc, text, ScriptTokenKind::Teardown, rest)?;
        let session = SessionSpec {
            name,
            setup,
            steps: InOrder::from_vec(steps),
            teardown,
        };
        Ok((session, rest))
    }
}

impl Begun for Session {
    ghost use Rattle.spec_reader.specs.Scripts as scripts;
    ghost use Rattle.spec_reader.specs.declared.kind.ScriptTokenKind.TheVariants as kinds;

    ghost begins = { scripts.a kinds.Session };

    fn comes(tokens: &[Token]) -> bool {
        comes(tokens, ScriptTokenKind::Session)
    }
}

fn notices(tokens: &[Token]) -> Result<(Option<Token>, &[Token]), Refused>
    ensures { Gives (λ x. (x.0, x.1.now)) result (scripts.notices.read tokens.now) }
{
    if !comes(tokens, ScriptTokenKind::Notices) {
        return Ok((None, tokens));
    }
    let (_, rest) = word(tokens, ScriptTokenKind::Notices)?;
    let (count, rest) = word(rest, ScriptTokenKind::Number)?;
    Ok((Some(count), rest))
}

fn named_marker<'t>(
    alloc: Global,
    text: &[u8],
    tokens: &'t [Token],
) -> Result<(WrittenMarker, &'t [Token]), Refused>
    ensures { Gives (λ x. (x.0, x.1.now)) result ((scripts.named_marker text.now).read tokens.now) }
{
    let (step, rest) = name(alloc, text, tokens)?;
    let (count, rest) = notices(rest)?;
    match count {
        None => Ok((WrittenMarker::After(step), rest)),
        Some(_) => Ok((WrittenMarker::Notices, rest)),
    }
}

struct Marker;

impl Part for Marker {
    ghost use Rattle.spec_reader.specs.Scripts as scripts;
    ghost use Rattle.spec_reader.specs.declared.written.WrittenMarker.{WrittenMarker as OneMarker};

    type Token = Token;

    type Item = WrittenMarker;

    ghost Tree = { OneMarker };

    ghost tree = { λ marker. marker };

    ghost rule = { scripts.marker };

    fn read<'a>(
        alloc: Global,
        text: &[u8],
        tokens: &'a [Token],
    ) -> Result<(WrittenMarker, &'a [Token]), Refused> {
        if comes(tokens, ScriptTokenKind::Star) {
            let (_, rest) = word(tokens, ScriptTokenKind::Star)?;
            return Ok((WrittenMarker::Waiting, rest));
        }
        named_marker(alloc, text, tokens)
    }
}

fn maybe_markers<'t>(
    alloc: Global,
    text: &[u8],
    tokens: &'t [Token],
) -> Result<(InOrder<WrittenMarker>, &'t [Token]), Refused>
    ensures { Gives (λ x. (x.0, x.1.now)) result ((scripts.maybe_markers text.now).read tokens.now) }
{
    if !comes(tokens, ScriptTokenKind::OpenParenthesis) {
        return Ok((InOrder::from_vec(Vec::new(alloc)), tokens));
    }
    let (_, rest) = word(tokens, ScriptTokenKind::OpenParenthesis)?;
    let (markers, rest) = separated::<Marker>(alloc, text, ScriptTokenKind::Comma, rest)?;
    let (_, rest) = word(rest, ScriptTokenKind::CloseParenthesis)?;
    Ok((InOrder::from_vec(markers), rest))
}

struct Use;

impl Part for Use {
    ghost use Rattle.spec_reader.specs.Scripts as scripts;
    ghost use Rattle.spec_reader.specs.declared.written.WrittenUse.{WrittenUse as OneUse};

    type Token = Token;

    type Item = WrittenUse;

    ghost Tree = { OneUse };

    ghost tree = { λ one. one };

    ghost rule = { scripts.one_use };

    fn read<'a>(
        alloc: Global,
        text: &[u8],
        tokens: &'a [Token],
    ) -> Result<(WrittenUse, &'a [Token]), Refused> {
        let (step, rest) = name(alloc, text, tokens)?;
        let (markers, rest) = maybe_markers(alloc, text, rest)?;
        Ok((WrittenUse { step, markers }, rest))
    }
}

impl Begun for Use {
    ghost use Rattle.spec_reader.specs.Scripts as scripts;

    ghost begins = { scripts.a_name };

    fn comes(tokens: &[Token]) -> bool {
        name_comes(tokens)
    }
}

struct Permutation;

impl Part for Permutation {
    ghost use Rattle.std.specs.Prelude.{List};
    ghost use Rattle.spec_reader.specs.Scripts as scripts;
    ghost use Rattle.spec_reader.specs.declared.written.WrittenUse.{WrittenUse as OneUse};

    type Token = Token;

    type Item = InOrder<WrittenUse>;

    ghost Tree = { List OneUse };

    ghost tree = { λ uses. uses };

    ghost rule = { scripts.permutation };

    fn read<'a>(
        alloc: Global,
        text: &[u8],
        tokens: &'a [Token],
    ) -> Result<(InOrder<WrittenUse>, &'a [Token]), Refused> {
        let (_, rest) = word(tokens, ScriptTokenKind::Permutation)?;
        let (uses, rest) = some::<Use>(alloc, text, rest)?;
        Ok((InOrder::from_vec(uses), rest))
    }
}

impl Begun for Permutation {
    ghost use Rattle.spec_reader.specs.Scripts as scripts;
    ghost use Rattle.spec_reader.specs.declared.kind.ScriptTokenKind.TheVariants as kinds;

    ghost begins = { scripts.a kinds.Permutation };

    fn comes(tokens: &[Token]) -> bool {
        comes(tokens, ScriptTokenKind::Permutation)
    }
}

/// A script.
pub struct Script;

impl Part for Script {
    ghost use Rattle.spec_reader.specs.Scripts as scripts;
    ghost use Rattle.spec_reader.specs.declared.written.WrittenSpec.{WrittenSpec as OneSpec};

    type Token = Token;

    type Item = WrittenSpec;

    ghost Tree = { OneSpec };

    ghost tree = { λ spec. spec };

    ghost rule = { scripts.script };

    fn read<'a>(
        alloc: Global,
        text: &[u8],
        tokens: &'a [Token],
    ) -> Result<(WrittenSpec, &'a [Token]), Refused> {
        let (setups, rest) = any::<Setup>(alloc, text, tokens)?;
        let (teardown, rest) = maybe_block(alloc, text, ScriptTokenKind::Teardown, rest)?;
        let (sessions, rest) = some::<Session>(alloc, text, rest)?;
        let (permutations, rest) = any::<Permutation>(alloc, text, rest)?;
        let spec = WrittenSpec {
            setups: InOrder::from_vec(setups),
            teardown,
            sessions: InOrder::from_vec(sessions),
            permutations: InOrder::from_vec(permutations),
        };
        Ok((spec, rest))
    }
}
