/// What happens next.
#[derive(Clone, Copy, Debug, PartialEq, Eq)]
pub enum Event {
    /// The session that has the turn goes on by one small event.
    Acts { session: usize },
    /// An end that was held back is reported.
    Tells { session: usize },
    /// A wait is over.
    Resumes { session: usize },
    /// A wait is cancelled.
    Cancels { session: usize },
    /// The next block is launched.
    Launches,
    /// The steps have ended.
    Settles,
    /// What the session has open is rolled back.
    RollsBack { session: usize },
    /// The next permutation begins.
    Opens,
}

/// What is reported of an event.
#[derive(Clone, Copy, Debug, PartialEq, Eq)]
pub enum Report {
    Nothing,
    /// A permutation begins.
    Opening,
    /// The session's step waits.
    Waiting { session: usize },
    /// The session's step has ended.
    Ending { session: usize },
    /// What a setup, or the control session's teardown, has printed.
    Output { session: usize },
    /// The session's teardown has ended.
    TornDown { session: usize },
}
