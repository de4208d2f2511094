ghost use Rattle.std.specs.Prelude.{◌≡◌, false, []};
ghost use Rattle.schedule.specs.declared.block.BlockKind.TheVariants as kinds;

use std::alloc::Global;
use std::marker::Model;

/// What a block of SQL is in a script.
#[derive(Clone, Copy, Debug, PartialEq, Eq)]
pub enum BlockKind {
    /// A setup of the control session, or of another one.
    Setup,
    Step,
    /// The teardown of a session.
    Teardown,
    /// The teardown of the control session.
    ControlTeardown,
}

/// A block of SQL at its place in a permutation.
#[derive(Debug, Drop)]
pub struct Block<'s> {
    kind: BlockKind,
    session: usize,
    step: usize,
    name: &'s [u8],
    text: &'s [u8],
    starred: bool,
    behind: Vec<usize>,
}

impl<'s> Model for Block<'s> {
    ghost use Rattle.schedule.specs.Blocks.{BlockView};

    ghost Value = { BlockView };

    ghost view = { λ b. record { kind = b.kind; session = b.session; step = b.step; name = b.name.now; text = b.text.now; starred = b.starred; behind = b.behind.items } };
}

impl<'s> Block<'s> {
    /// A step of this number; `starred` says that it has the marker `(*)`, `behind` which steps its
    /// other markers name.
    pub fn step(
        session: usize,
        step: usize,
        name: &'s [u8],
        text: &'s [u8],
        starred: bool,
        behind: Vec<usize>,
    ) -> Self
        ensures { result ≡ record { kind = kinds.Step; session = session; step = step; name = name.now; text = text.now; starred = starred; behind = behind.items } }
    {
        Block {
            kind: BlockKind::Step,
            session,
            step,
            name,
            text,
            starred,
            behind,
        }
    }

    /// A setup or a teardown of the session that is called so; 0 is the control session.
    pub fn plain(
        alloc: Global,
        kind: BlockKind,
        session: usize,
        name: &'s [u8],
        text: &'s [u8],
    ) -> Self
        ensures { result ≡ record { kind = kind; session = session; step = 0; name = name.now; text = text.now; starred = false; behind = [] } }
    {
        Block {
            kind,
            session,
            step: 0,
            name,
            text,
            starred: false,
            behind: Vec::new(alloc),
        }
    }

    pub fn kind(&self) -> BlockKind
        ensures { result ≡ self.now.kind }
    {
        self.kind
    }

    /// 0 is the control session.
    pub fn session(&self) -> usize
        ensures { result ≡ self.now.session }
    {
        self.session
    }

    pub fn number(&self) -> usize
        ensures { result ≡ self.now.step }
    {
        self.step
    }

    pub fn name(&self) -> &[u8]
        ensures { result.now ≡ self.now.name }
    {
        self.name
    }

    pub fn text(&self) -> &[u8]
        ensures { result.now ≡ self.now.text }
    {
        self.text
    }

    pub fn starred(&self) -> bool
        ensures { result ≡ self.now.starred }
    {
        self.starred
    }

    pub fn behind(&self) -> &[usize]
        ensures { result.now ≡ self.now.behind }
    {
        &self.behind
    }
}
