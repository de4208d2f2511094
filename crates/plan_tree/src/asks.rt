/// How pruning steps are asked: alone, with the values of parameters that are known when a plan starts, and beside the rows
/// of the FROM items before that one.
#[derive(Debug, Clone, Copy)]
pub(crate) enum Asks {
    Alone,
    Started,
    Beside(u32),
    StartedBeside(u32),
}
