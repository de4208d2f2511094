use pg_values::{SessionList, SessionSet};

/// What comes of asking: it is granted; the session waits behind others; or it would close a cycle of
/// waits and is refused.
#[derive(Clone, Copy)]
pub enum Asked {
    Granted,
    Waits { behind: SessionSet },
    Deadlock { cycle: SessionList },
}
