ghost use Rattle.std.specs.Prelude.{◌≡◌, ℕ, ◌<◌, true};
ghost use Rattle.pg_values.specs.Sets.{has};
ghost use Rattle.lock_table.specs.AnswerLaws.{NamesSessions, AnswerIsTold, HistoryIsTold, EventsAreTold, WhatIsAskedMayCome};

use crate::Asked;
use pg_values::SessionSet;

/// What a lock table answers, and what has happened then, is what the history tells.
pub fn answer_is_told(answer: &Asked)
    ensures view { AnswerIsTold answer.now }
    ensures history { HistoryIsTold answer.now }
    ensures events { EventsAreTold answer.now }
{
    names_sessions(answer);
}

/// What a session adds to the locks that asks for something, and does not wait, could come.
pub fn what_is_asked_may_come()
    ensures { WhatIsAskedMayCome }
{}

// Whoever an answer names as a cause to wait is a session.
fn names_sessions(answer: &Asked)
    ensures { NamesSessions answer.now }
{
    match answer {
        Asked::Granted => (),
        Asked::Waits { behind } => sessions_are_low(*behind),
        Asked::Deadlock { .. } => (),
    }
}

// The sessions of a set are numbers below 128.
fn sessions_are_low(set: SessionSet)
    ensures { (k : ℕ) → has set k ≡ true → k < 128 }
{}
