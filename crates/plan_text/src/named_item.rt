use pg_values::{NameList, PgText};

/// An item of FROM as a statement names it: the name that it goes by, whether that is an alias, and the names
/// of its columns.
#[derive(Debug, Drop)]
pub struct NamedItem {
    pub name: PgText,
    pub is_alias: bool,
    pub columns: NameList,
}
