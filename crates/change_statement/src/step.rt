use crate::Verdict;
use pg_values::RowId;

/// What a look at one version gives: the verdict, or the version that replaced it and decides instead.
#[derive(Debug, Drop)]
pub(crate) enum Step<'s> {
    Done(Verdict<'s>),
    Follow(RowId),
}
