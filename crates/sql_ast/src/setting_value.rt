use pg_values::PgText;

/// What a setting is set to.
#[derive(Debug, Drop)]
pub enum SettingValue {
    /// A name, ON, TRUE or FALSE, folded.
    Word(PgText),
    Text(PgText),
    /// The digits of a whole number, without zeros before them.
    Number(PgText),
}
