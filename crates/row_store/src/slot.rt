ghost use Rattle.std.specs.Prelude.{◌≡◌, ℕ, ◌<◌, Some, None};
ghost use Rattle.row_store.specs.Slots.{HasShortId, kept_end};

use history::{End, Ending, TxId, Version};
use pg_values::{LeafId, Row, RowId};
use std::marker::Model;

/// The number of a version in 32 bits, seen as its `RowId`.
#[derive(Clone, Copy, Debug)]
pub struct ShortId {
    number: u32,
}

impl Model for ShortId {
    ghost use Rattle.pg_values.specs.declared.ids.RowId.{RowId};

    ghost Value = { RowId };

    ghost view = { λ s. record { number = s.number } };

    ghost inverse = { λ id. record { number = id.number } };
}

impl ShortId {
    pub fn new(id: RowId) -> Self
        requires { id.number < 4294967296 }
        ensures { result ≡ id }
    {
        ShortId {
            number: id.number as u32,
        }
    }

    #[inline]
    pub fn long(self) -> RowId
        ensures { result ≡ self }
    {
        RowId {
            number: self.number as u64,
        }
    }
}

/// How a version ended at last, if it did.
#[derive(Clone, Copy, Debug)]
pub enum SlotEnding {
    NotEnded,
    Deleted,
    MovedTo(LeafId),
    ReplacedBy(ShortId),
}

/// A version and its last end in 64 bytes, seen as the `Stored` that they are.
#[derive(Debug, Drop)]
pub struct Slot {
    row: Row,
    by: TxId,
    ended_by: TxId,
    cmd: u32,
    ended_cmd: u32,
    ending: SlotEnding,
    id: ShortId,
    leaf: LeafId,
}

impl Model for Slot {
    ghost use Rattle.row_store.specs.declared.stored.Stored.{Stored};
    ghost use Rattle.row_store.specs.Slots.{kept_end};

    ghost Value = { Stored };

    ghost view = { λ s. record { version = record { id = s.id; leaf = s.leaf; row = s.row; by = s.by; cmd = s.cmd }; ended = kept_end s.ended_by s.ended_cmd s.ending } };
}

impl Slot {
    /// A version that has not ended.
    pub fn new(version: Version) -> Self
        requires { version.id.number < 4294967296 }
        ensures { result ≡ record { version = version; ended = None } }
    {
        Slot {
            id: ShortId::new(version.id),
            leaf: version.leaf,
            row: version.row,
            by: version.by,
            cmd: version.cmd,
            ended_by: version.by,
            ended_cmd: 0,
            ending: SlotEnding::NotEnded,
        }
    }

    pub fn end(&mut self, end: End)
        requires { HasShortId end.how }
        ensures { self.new ≡ record { version = self.old.version; ended = Some end } }
    {
        self.ended_by = end.by;
        self.ended_cmd = end.cmd;
        self.ending = slot_ending(end.how);
    }

    #[inline]
    pub fn id(&self) -> RowId
        ensures { result ≡ self.now.version.id }
    {
        self.id.long()
    }

    pub fn leaf(&self) -> LeafId
        ensures { result ≡ self.now.version.leaf }
    {
        self.leaf
    }

    #[inline]
    pub fn row(&self) -> &Row
        ensures { result.now ≡ self.now.version.row }
    {
        &self.row
    }

    #[inline]
    pub fn by(&self) -> TxId
        ensures { result ≡ self.now.version.by }
    {
        self.by
    }

    #[inline]
    pub fn cmd(&self) -> u32
        ensures { result ≡ self.now.version.cmd }
    {
        self.cmd
    }

    #[inline]
    pub fn ended(&self) -> Option<End>
        ensures { result ≡ self.now.ended }
    {
        let how = match self.ending {
            SlotEnding::NotEnded => return None,
            SlotEnding::Deleted => Ending::Deleted,
            SlotEnding::MovedTo(leaf) => Ending::MovedTo(leaf),
            SlotEnding::ReplacedBy(id) => Ending::ReplacedBy(id.long()),
        };
        Some(End {
            by: self.ended_by,
            cmd: self.ended_cmd,
            how,
        })
    }
}

fn slot_ending(how: Ending) -> SlotEnding
    requires { HasShortId how }
    ensures { (by : TxId) (cmd : ℕ) → kept_end by cmd result ≡ Some (record { by = by; cmd = cmd; how = how }) }
{
    match how {
        Ending::Deleted => SlotEnding::Deleted,
        Ending::MovedTo(leaf) => SlotEnding::MovedTo(leaf),
        Ending::ReplacedBy(id) => SlotEnding::ReplacedBy(ShortId::new(id)),
    }
}
