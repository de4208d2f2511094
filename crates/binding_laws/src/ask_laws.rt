ghost use Rattle.binding_laws.specs.FittingAsks.{ChangesFit, ChangesOnce, InsertsFit, InsertsOnce, OrdersFit, SelectsFit};

/// What a SELECT asks for fits the items of its FROM.
pub fn selects_fit()
    ensures { SelectsFit }
{}

/// What an INSERT asks for fits its table.
pub fn inserts_fit()
    ensures { InsertsFit }
{}

/// What an UPDATE or a DELETE asks for fits its table.
pub fn changes_fit()
    ensures { ChangesFit }
{}

/// What rows are sorted by is there.
pub fn orders_fit()
    ensures { OrdersFit }
{}

/// No column is set twice.
pub fn columns_come_once()
    ensures inserts { InsertsOnce }
    ensures changes { ChangesOnce }
{}
