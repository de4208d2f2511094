ghost use Rattle.statement_steps.specs.Waiting.{NothingIsAddedAbove, WaitingStatementsAccept};

/// While a session waits whose transaction may write a table, others take entries above the table away, and add
/// none; those that stay accept what they accepted.
pub fn nothing_is_added_above()
    ensures { NothingIsAddedAbove }
{}

/// So the table accepts, after whatever others have done, each row that it accepted when the session began to wait.
pub fn waiting_statements_accept()
    ensures { WaitingStatementsAccept }
{}
