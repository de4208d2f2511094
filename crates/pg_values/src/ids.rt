/// The number of a table.
#[derive(Clone, Copy, Debug, PartialEq, Eq)]
pub struct TableNo {
    pub number: u32,
}

/// The number of a leaf, which holds rows.
#[derive(Clone, Copy, Debug, PartialEq, Eq)]
pub struct LeafId {
    pub number: u32,
}

/// The number of a row version.
#[derive(Clone, Copy, Debug, PartialEq, Eq)]
pub struct RowId {
    pub number: u64,
}
