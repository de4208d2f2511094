use pg_values::Fault;

/// What one small event of a statement comes to.
#[derive(Debug, Drop)]
pub enum Outcome {
    /// It goes on.
    Goes,
    /// It waits.
    Waits,
    /// What it did so far is to be committed, and it goes on in another transaction.
    Commits,
    /// It is done.
    Done,
    Refused(Fault),
}
