ghost use Rattle.std.specs.Prelude.{◌≡◌, ◌≤◌};
ghost use Rattle.sessions.specs.Stands.{transactions};

use crate::Executor;
use crate::session::Session;

/// The sessions over an executor, by their numbers; 0 is the control session.
#[derive(Drop)]
pub struct Sessions<E: Executor> {
    pub(crate) executor: E,
    pub(crate) sessions: Vec<Session<E::Statement>>,
    ghost alike: { E.in_transaction executor ≡ transactions sessions.items },
    ghost bounded: { E.slack executor ≤ E.most },
}
