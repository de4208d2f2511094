ghost use Rattle.std.specs.Prelude.{◌≡◌, ◌==◌, ◌&&◌, true, false};
ghost use Rattle.schedule.specs.Blocks.{no_seat, seat_of, is_step};

use crate::block::{Block, BlockKind};
use std::marker::Model;

/// Whether the block is that of a step.
pub(crate) fn is_step(kind: BlockKind) -> bool
    ensures { result ≡ is_step kind }
{
    match kind {
        BlockKind::Step => true,
        BlockKind::Setup | BlockKind::Teardown | BlockKind::ControlTeardown => false,
    }
}

/// The block that a session runs, or ran last.
#[derive(Drop)]
pub struct Seat<'e> {
    kind: BlockKind,
    step: usize,
    name: &'e [u8],
    text: &'e [u8],
    starred: bool,
    behind: &'e [usize],
    waited: bool,
    is_open: bool,
}

impl<'e> Model for Seat<'e> {
    ghost use Rattle.schedule.specs.Blocks.{Seated};

    ghost Value = { Seated };

    ghost view = { λ s. record { kind = s.kind; step = s.step; name = s.name.now; text = s.text.now; starred = s.starred; behind = s.behind.now; waited = s.waited; is_open = s.is_open } };
}

impl<'e> Seat<'e> {
    /// Nothing was launched yet.
    pub fn empty() -> Self
        ensures { result ≡ no_seat }
    {
        Seat {
            kind: BlockKind::Setup,
            step: 0,
            name: &[],
            text: &[],
            starred: false,
            behind: &[],
            waited: false,
            is_open: false,
        }
    }

    /// The block was launched.
    pub fn new(block: &'e Block<'_>) -> Self
        ensures { result ≡ seat_of block.now }
    {
        Seat {
            kind: block.kind(),
            step: block.number(),
            name: block.name(),
            text: block.text(),
            starred: block.starred(),
            behind: block.behind(),
            waited: block.starred(),
            is_open: is_step(block.kind()),
        }
    }

    pub fn kind(&self) -> BlockKind
        ensures { result ≡ self.now.kind }
    {
        self.kind
    }

    pub fn name(&self) -> &[u8]
        ensures { result.now ≡ self.now.name }
    {
        self.name
    }

    pub fn text(&self) -> &[u8]
        ensures { result.now ≡ self.now.text }
    {
        self.text
    }

    pub fn starred(&self) -> bool
        ensures { result ≡ self.now.starred }
    {
        self.starred
    }

    pub fn behind(&self) -> &[usize]
        ensures { result.now ≡ self.now.behind }
    {
        self.behind
    }

    /// Whether it was reported as waiting.
    pub fn waited(&self) -> bool
        ensures { result ≡ self.now.waited }
    {
        self.waited
    }

    /// Whether it is the step, and its end was not reported.
    pub fn is_open_step(&self, step: usize) -> bool
        ensures { result ≡ (self.now.is_open && (self.now.step == step)) }
    {
        self.is_open && self.step == step
    }

    /// It was reported as waiting.
    pub fn wait(&mut self)
        ensures { self.new ≡ record self.old { waited = true } }
    {
        self.waited = true;
    }

    /// Its end was reported.
    pub fn close(&mut self)
        ensures { self.new ≡ record self.old { is_open = false } }
    {
        self.is_open = false;
    }
}
