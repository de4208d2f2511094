ghost use Rattle.std.specs.Prelude.{◌≡◌};
ghost use Rattle.sessions.specs.Sessions as spec;

use pg_values::Isolation;

pub(crate) fn is_level(a: Isolation, b: Isolation) -> bool
    ensures { result ≡ spec.is_level a b }
{
    match (a, b) {
        (Isolation::ReadCommitted, Isolation::ReadCommitted)
        | (Isolation::ReadUncommitted, Isolation::ReadUncommitted)
        | (Isolation::RepeatableRead, Isolation::RepeatableRead) => true,
        _ => false,
    }
}
