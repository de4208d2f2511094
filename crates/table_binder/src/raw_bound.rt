ghost use Rattle.std.specs.Prelude.{◌≡◌, ◌++◌, ◌∷◌, [], OnOk, OnErr};

use pg_values::{Fault, NoMemory, PgText, Value};
use std::alloc::Global;
use std::marker::Model;

/// An expression of a bound. A string literal has no kind of its own, so it stands here unread;
/// any other expression is its value or its fault.
#[derive(Debug, Drop)]
pub enum RawValue {
    Literal(PgText),
    Given(Value),
    Faulty(Fault),
}

/// The expressions of a list in their order, seen as their list.
#[derive(Debug, Drop)]
pub struct RawValues {
    values: Vec<RawValue>,
}

impl Model for RawValues {
    ghost use Rattle.std.specs.Prelude.{List};
    ghost use Rattle.table_binder.specs.declared.raw_bound.RawValue.{RawValue};

    ghost Value = { List RawValue };

    ghost view = { λ r. r.values.items };
}

impl RawValues {
    pub fn new(alloc: Global) -> Self
        ensures { result ≡ [] }
    {
        RawValues {
            values: Vec::new(alloc),
        }
    }

    pub fn as_slice(&self) -> &[RawValue]
        ensures { result.now ≡ self.now }
    {
        &self.values
    }

    pub fn push(&mut self, value: RawValue) -> Result<(), NoMemory>
        ensures ok { OnOk result (self.new ≡ self.old ++ value ∷ []) }
        ensures err { OnErr result (self.new ≡ self.old) }
    {
        self.values.push(value)?;
        Ok(())
    }
}

/// An entry of FROM or TO: MINVALUE, an expression or MAXVALUE.
#[derive(Debug, Drop)]
pub enum RawEdge {
    Min,
    At(RawValue),
    Max,
}

/// The entries of FROM or of TO in their order, seen as their list.
#[derive(Debug, Drop)]
pub struct RawEdges {
    edges: Vec<RawEdge>,
}

impl Model for RawEdges {
    ghost use Rattle.std.specs.Prelude.{List};
    ghost use Rattle.table_binder.specs.declared.raw_bound.RawEdge.{RawEdge};

    ghost Value = { List RawEdge };

    ghost view = { λ r. r.edges.items };
}

impl RawEdges {
    pub fn new(alloc: Global) -> Self
        ensures { result ≡ [] }
    {
        RawEdges {
            edges: Vec::new(alloc),
        }
    }

    pub fn as_slice(&self) -> &[RawEdge]
        ensures { result.now ≡ self.now }
    {
        &self.edges
    }

    pub fn push(&mut self, edge: RawEdge) -> Result<(), NoMemory>
        ensures ok { OnOk result (self.new ≡ self.old ++ edge ∷ []) }
        ensures err { OnErr result (self.new ≡ self.old) }
    {
        self.edges.push(edge)?;
        Ok(())
    }
}

/// A bound as it is written behind FOR VALUES, or DEFAULT.
#[derive(Debug, Drop)]
pub enum RawBound {
    /// `FROM (lower) TO (upper)`.
    Range { lower: RawEdges, upper: RawEdges },
    /// `IN (values)`.
    List { values: RawValues },
    /// `WITH (MODULUS modulus, REMAINDER remainder)`; a number too large for a u64 stands here as
    /// any other one past 2147483647.
    Hash { modulus: u64, remainder: u64 },
    /// `DEFAULT`.
    Default,
}
