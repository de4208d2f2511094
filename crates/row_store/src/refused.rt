use pg_values::{Row, Which};

/// Why a row was not stored, with the row.
#[derive(Debug, Drop)]
pub struct PutRefused {
    pub row: Row,
    pub cause: PutCause,
}

/// A limit would be passed, or memory ran out.
#[derive(Clone, Copy, Debug, PartialEq, Eq)]
pub enum PutCause {
    Full { which: Which },
    NoMemory,
}

/// One statement would make too many scans, or memory ran out.
#[derive(Clone, Copy, Debug, PartialEq, Eq)]
pub enum TrailRefused {
    Full,
    NoMemory,
}
