ghost use Rattle.std.specs.Prelude.{◌≡◌, map, max};
ghost use Rattle.std.specs.List.{flat_map};
ghost use Rattle.sql_ast.specs.Expressions.{tree, trees, listed};
ghost use Rattle.sql_ast.specs.Queries.{item_tree, joined_tree, key_tree, maybe_tree, row_tree, select_tree, setting};
ghost use Rattle.prepared_statements.specs.Numbers as numbers;
ghost use Rattle.prepared_statements.specs.Numbers.{greatest_of};

use sql_ast::{
    Assignment, Expr, ExprList, FromItem, Leaf, RowStatement, Select, SelectItem, SortKey,
};

fn greater(a: u64, b: u64) -> u64
    ensures { result ≡ max a b }
{
    a.max(b)
}

fn in_leaf(leaf: &Leaf) -> u64
    ensures { result ≡ greatest_of (numbers.leaf_numbers leaf.now) }
{
    match leaf {
        Leaf::Parameter(n) => *n,
        _ => 0,
    }
}

// The greatest number of a parameter in an expression.
#[cycle(number)]
fn in_expr(e: &Expr) -> u64
    ensures { result ≡ greatest_of (numbers.numbers (tree e.now)) }
{
    match e {
        Expr::Leaf(leaf) => in_leaf(leaf),
        Expr::Call(_, arguments) => in_exprs(arguments.as_slice()),
        Expr::CallOfAll(_) => 0,
        Expr::Negated(x) => in_expr(x),
        Expr::Binary(_, x, y) => greater(in_expr(x), in_expr(y)),
        Expr::In(_, x, list) => greater(in_expr(x), in_exprs(list.as_slice())),
        Expr::Between(_, x, from, to) => greater(in_expr(x), greater(in_expr(from), in_expr(to))),
        Expr::IsNull(_, x) => in_expr(x),
        Expr::Not(x) => in_expr(x),
        Expr::And(list) => in_exprs(list.as_slice()),
        Expr::Or(list) => in_exprs(list.as_slice()),
    }
}

#[cycle(number)]
fn in_exprs(list: &[Expr]) -> u64
    ensures { result ≡ greatest_of (numbers.all_numbers (listed (map tree list.now))) }
{
    let mut most = 0;
    for e in list {
        most = greater(most, in_expr(e));
    }
    most
}

fn in_maybe(e: &Option<Expr>) -> u64
    ensures { result ≡ greatest_of (numbers.maybe_numbers (maybe_tree e.now)) }
{
    match e {
        None => 0,
        Some(e) => in_expr(e),
    }
}

fn in_item(item: &SelectItem) -> u64
    ensures { result ≡ greatest_of (numbers.item_numbers (item_tree item.now)) }
{
    match item {
        SelectItem::All => 0,
        SelectItem::AllOf(_) => 0,
        SelectItem::Output(e, _) => in_expr(e),
    }
}

fn in_items(items: &[SelectItem]) -> u64
    ensures { result ≡ greatest_of (flat_map numbers.item_numbers (map item_tree items.now)) }
{
    let mut most = 0;
    for item in items {
        most = greater(most, in_item(item));
    }
    most
}

fn in_from(tables: &[FromItem]) -> u64
    ensures { result ≡ greatest_of (flat_map numbers.joined_numbers (map joined_tree tables.now)) }
{
    let mut most = 0;
    for table in tables {
        most = greater(most, in_maybe(&table.on));
    }
    most
}

fn in_keys(keys: &[SortKey]) -> u64
    ensures { result ≡ greatest_of (flat_map numbers.key_numbers (map key_tree keys.now)) }
{
    let mut most = 0;
    for key in keys {
        most = greater(most, in_expr(&key.value));
    }
    most
}

fn in_rows(rows: &[ExprList]) -> u64
    ensures { result ≡ greatest_of (flat_map numbers.all_numbers (map trees rows.now)) }
{
    let mut most = 0;
    for row in rows {
        most = greater(most, in_exprs(row.as_slice()));
    }
    most
}

fn in_settings(settings: &[Assignment]) -> u64
    ensures { result ≡ greatest_of (flat_map numbers.setting_numbers (map setting settings.now)) }
{
    let mut most = 0;
    for assignment in settings {
        most = greater(most, in_expr(&assignment.value));
    }
    most
}

#[tactic(auto, using(crate::proofs::Greatest::greatest_both))]
fn in_select(select: &Select) -> u64
    ensures { result ≡ greatest_of (numbers.select_numbers (select_tree select.now)) }
{
    let counts = greater(in_maybe(&select.limit), in_maybe(&select.offset));
    let keys = greater(in_keys(select.order.as_slice()), counts);
    let condition = greater(in_maybe(&select.condition), keys);
    let from = greater(in_from(select.from.as_slice()), condition);
    greater(in_items(select.items.as_slice()), from)
}

/// The greatest number of a parameter in the statement, 0 where there is none.
#[tactic(auto, using(crate::proofs::Greatest::greatest_both))]
pub(crate) fn greatest_number(statement: &RowStatement) -> u64
    ensures { result ≡ numbers.greatest (row_tree statement.now) }
{
    match statement {
        RowStatement::Select(select) => in_select(select),
        RowStatement::Insert(insert) => in_rows(insert.rows.as_slice()),
        RowStatement::Update(update) => {
            greater(
                in_settings(update.assignments.as_slice()),
                in_maybe(&update.condition),
            )
        }
        RowStatement::Delete(delete) => in_maybe(&delete.condition),
    }
}
