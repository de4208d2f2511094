use crate::{Caller, SessionNames};
use std::alloc::Global;

/// What an attempt at a statement is given: where it allocates, the names of the sessions, and for whom it runs.
#[derive(Clone, Copy)]
pub struct Attempt<'n> {
    pub alloc: Global,
    pub names: &'n SessionNames,
    pub caller: Caller,
}
