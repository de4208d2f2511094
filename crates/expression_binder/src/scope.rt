ghost use Rattle.std.specs.Prelude.{◌≡◌};
ghost use Rattle.expression_binder.specs.Scopes as scopes;

use pg_values::{Kind, PgText, Value};
use std::marker::Model;

/// A column that may be named.
#[derive(Debug, Drop)]
pub struct ScopeColumn {
    pub name: PgText,
    pub kind: Kind,
}

/// A FROM item: the name that it goes by, its number among the items, and its columns, whose names
/// differ. Seen as a record of these.
#[derive(Debug, Drop)]
pub struct ScopeItem {
    name: PgText,
    number: u32,
    columns: Vec<ScopeColumn>,
}

impl Model for ScopeItem {
    ghost use Rattle.expression_binder.specs.Scopes.{Item};

    ghost Value = { Item };

    ghost view = { λ i. record { name = i.name; number = i.number; columns = i.columns.items } };
}

impl ScopeItem {
    pub fn new(name: PgText, number: u32, columns: Vec<ScopeColumn>) -> Self
        ensures { result ≡ record { name = name; number = number; columns = columns.items } }
    {
        ScopeItem {
            name,
            number,
            columns,
        }
    }

    pub fn name(&self) -> &[u8]
        ensures { result.now ≡ self.now.name }
    {
        self.name.as_bytes()
    }

    pub fn number(&self) -> u32
        ensures { result ≡ self.now.number }
    {
        self.number
    }

    pub fn columns(&self) -> &[ScopeColumn]
        ensures { result.now ≡ self.now.columns }
    {
        &self.columns
    }
}

/// A parameter of a prepared statement: its kind, and the value of its argument, which is null or of
/// that kind.
#[derive(Debug, Drop)]
pub struct Param {
    pub kind: Kind,
    pub value: Value,
}

/// What may stand in an operand at a place: arithmetic over columns, `tableoid::regclass`, calls.
#[derive(Clone, Copy, Debug, PartialEq, Eq)]
pub struct Allowed {
    pub arithmetic: bool,
    pub table_names: bool,
    pub calls: bool,
}

/// What names stand for at a place of a statement: the FROM items that may be named there, the
/// parameters, and the number of the session. Seen as a record of these and of what is allowed there.
#[derive(Debug, Drop)]
pub struct Names<'a> {
    items: &'a [ScopeItem],
    params: &'a [Param],
    session: u32,
    allowed: Allowed,
}

impl<'a> Model for Names<'a> {
    ghost use Rattle.expression_binder.specs.Scopes.{Scope};

    ghost Value = { Scope };

    ghost view = { λ n. record { items = n.items.now; params = n.params.now; session = n.session; allowed = n.allowed } };
}

impl<'a> Names<'a> {
    pub fn new(
        items: &'a [ScopeItem],
        params: &'a [Param],
        session: u32,
        allowed: Allowed,
    ) -> Names<'a>
        ensures items { result.items ≡ items.now }
        ensures params { result.params ≡ params.now }
        ensures session { result.session ≡ session }
        ensures allowed { result.allowed ≡ allowed }
    {
        Names {
            items,
            params,
            session,
            allowed,
        }
    }

    pub fn items(&self) -> &'a [ScopeItem]
        ensures { result.now ≡ self.now.items }
    {
        self.items
    }

    pub fn params(&self) -> &'a [Param]
        ensures { result.now ≡ self.now.params }
    {
        self.params
    }

    pub fn session(&self) -> u32
        ensures { result ≡ self.now.session }
    {
        self.session
    }

    pub fn allowed(&self) -> Allowed
        ensures { result ≡ self.now.allowed }
    {
        self.allowed
    }
}

/// What may stand in a condition.
pub fn nothing_more() -> Allowed
    ensures { result ≡ scopes.nothing_more }
{
    Allowed {
        arithmetic: false,
        table_names: false,
        calls: false,
    }
}

/// The names in a condition over the items.
pub fn condition_names<'a>(items: &'a [ScopeItem], params: &'a [Param], session: u32) -> Names<'a>
    ensures { result ≡ scopes.condition_scope items.now params.now session }
{
    Names::new(items, params, session, nothing_more())
}
