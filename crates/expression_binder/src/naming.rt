ghost use Rattle.std.specs.Prelude.{◌≡◌, map, position, slice_index_or};
ghost use Rattle.pg_values.specs.declared.value.Kind.TheVariants.{Text as KText};
ghost use Rattle.expression_binder.specs.Scopes as scopes;
ghost use Rattle.expression_binder.specs.Scopes.{is_called, hit_at, hit_in, with_hit};
ghost use Rattle.expression_binder.specs.Lent.{option_now};

use crate::{Names, Param, ScopeColumn, ScopeItem};
use cond_logic::ColumnId;
use pg_values::Kind;

/// A column that a name stands for, and its kind.
#[derive(Clone, Copy, Debug, PartialEq, Eq)]
pub struct Hit {
    pub column: ColumnId,
    pub kind: Kind,
}

/// What a name stands for.
#[derive(Clone, Copy, Debug, PartialEq, Eq)]
pub enum Lookup {
    Missing,
    One(Hit),
    Several,
}

fn place_of(columns: &[ScopeColumn], name: &[u8]) -> Option<usize>
    ensures { result ≡ position (is_called name.now) columns.now }
{
    columns.iter().position(|c| c.name.as_bytes() == name)
}

fn kind_at(columns: &[ScopeColumn], place: usize) -> Kind
    ensures { result ≡ slice_index_or (map (λ c. c.kind) columns.now) place KText }
{
    match columns.get(place) {
        Some(column) => column.kind,
        None => Kind::Text,
    }
}

fn column_in(item: &ScopeItem, name: &[u8]) -> Option<Hit>
    ensures { result ≡ hit_in item.now name.now }
{
    match place_of(item.columns(), name) {
        None => None,
        Some(position) => {
            let column = ColumnId {
                item: item.number(),
                position,
            };
            let kind = kind_at(item.columns(), position);
            Some(Hit { column, kind })
        }
    }
}

fn with_hit(found: Lookup, hit: Option<Hit>) -> Lookup
    ensures { result ≡ scopes.with_hit hit found }
{
    match hit {
        None => found,
        Some(hit) => match found {
            Lookup::Missing => Lookup::One(hit),
            Lookup::One(_) => Lookup::Several,
            Lookup::Several => Lookup::Several,
        },
    }
}

/// The columns of that name among the items.
pub fn look_up(items: &[ScopeItem], name: &[u8]) -> Lookup
    ensures { result ≡ scopes.look_up items.now name.now }
{
    match items.split_first() {
        None => Lookup::Missing,
        Some((item, others)) => with_hit(look_up(others, name), column_in(item, name)),
    }
}

/// The item of that name.
pub fn item_called<'a>(items: &'a [ScopeItem], name: &[u8]) -> Option<&'a ScopeItem>
    ensures { option_now result ≡ scopes.item_called items.now name.now }
{
    match items.split_first() {
        None => None,
        Some((item, others)) => {
            if item.name() == name {
                Some(item)
            } else {
                item_called(others, name)
            }
        }
    }
}

/// The column of that name in the item of that name.
pub fn look_up_in(items: &[ScopeItem], table: &[u8], name: &[u8]) -> Lookup
    ensures { result ≡ scopes.look_up_in (scopes.item_called items.now table.now) name.now }
{
    match item_called(items, table) {
        None => Lookup::Missing,
        Some(item) => with_hit(Lookup::Missing, column_in(item, name)),
    }
}

/// The parameter of that number.
pub(crate) fn param<'a>(names: &Names<'a>, n: u64) -> Option<&'a Param>
    ensures { option_now result ≡ scopes.param names.now.params n }
{
    if n == 0 {
        return None;
    }
    match usize::try_from(n - 1) {
        Ok(place) => names.params().get(place),
        Err(_) => None,
    }
}
