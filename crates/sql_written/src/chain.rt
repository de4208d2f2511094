/// What is written in a chain.
#[derive(Clone, Copy)]
pub(crate) enum Chain {
    /// The parts of a list.
    List,
    And,
    Or,
}
