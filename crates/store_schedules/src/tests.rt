use cond_logic::{
    Binding, ColumnId, CompareOp, Cond, CondList, Operand, Truth3, bind_params, columns_used, eval,
    push_not,
};
use grammar::Refused;
use grammar::example::{Entry, SampleKind as Sort, Token, no_list_has_two_values, parse_entries};
use pg_values::{
    DayKey, IntKey, KeyKind, Kind, LeafId, NoMemory, PgText, Row, TextKey, TruthKey, Value,
    ValueKey, Which,
};
use row_store::{PutCause, PutRefused, RowStore};
use std::alloc::Global;
use std::cmp::Ordering;
use tx_table::TxTable;
use value_rules::read_value;

// The first session's transaction stores a row in the first leaf.
fn put(txs: &TxTable, store: &mut RowStore, row: Row) -> Result<(), PutRefused> {
    match txs.open_of(0) {
        Some(tx) if store.leaf_count() > 0 => store.put(txs, LeafId { number: 0 }, row, tx, 0),
        _ => Ok(()),
    }
}

// No script is long enough to fill the store with bytes.
#[test]
fn a_full_store_hands_the_row_back(rt: HostRuntime) -> Result<(), NoMemory> {
    let alloc = rt.alloc();
    let mut txs = TxTable::new(alloc, 1)?;
    let mut store = RowStore::new(alloc);
    if store.leaf_count() == 0 {
        store.add_leaf()?;
    }
    if txs.sessions() > 0 && txs.open_of(0).is_none() {
        txs.begin(0)?;
    }
    let mut text = Vec::new(alloc);
    text.resize(268_435_456 - 16, 0)?;
    let mut row = Row::new(alloc);
    row.push(Value::Text(PgText::from_vec(alloc, text)?))?;
    assert!(rt; put(&txs, &mut store, row).is_ok());
    let mut small = Row::new(alloc);
    small.push(Value::Truth(true))?;
    match put(&txs, &mut store, small) {
        Ok(()) => assert!(rt; false),
        Err(refused) => {
            let which = Which::BytesOfRows;
            assert!(rt; refused.cause == PutCause::Full { which });
            assert!(rt; refused.row.len() == 1);
        }
    }
    assert!(rt; store.version_count() == 1);
    Ok(())
}

fn column(item: u32, position: usize) -> Operand {
    Operand::Column(ColumnId { item, position })
}

fn is(op: CompareOp, left: Operand, right: Operand) -> Cond {
    Cond::Compare(op, left, right)
}

// NOT (a = $1 AND (b IS NULL OR a < 5)), where a and b are the columns of the second item
fn condition(alloc: Global) -> Result<Cond, NoMemory> {
    let mut choices = Vec::new(alloc);
    choices.push(Cond::IsNull(column(1, 1)))?;
    choices.push(is(CompareOp::Lt, column(1, 0), Operand::Lit(Value::Int4(5))))?;
    let mut parts = Vec::new(alloc);
    parts.push(is(CompareOp::Eq, column(1, 0), Operand::Param(0)))?;
    parts.push(Cond::Or(CondList::from_vec(choices)))?;
    Ok(Cond::Not(Box::new(alloc, Cond::And(CondList::from_vec(parts)))?))
}

// An argument that is not there counts as null.
#[test]
fn a_condition_has_its_truth_with_arguments_and_without(rt: HostRuntime) -> Result<(), NoMemory> {
    let alloc = rt.alloc();
    let cond = condition(alloc)?;
    let mut args = Vec::new(alloc);
    args.push(Value::Int8(3))?;
    let bound = bind_params(alloc, &cond, &args)?;
    let pushed = push_not(alloc, bind_params(alloc, &cond, &args)?)?;
    let columns = columns_used(alloc, &cond)?;
    assert!(rt; columns.len() == 2);
    assert!(rt;
        columns[0]
            == ColumnId {
                item: 1,
                position: 0
            }
    );
    assert!(rt;
        columns[1]
            == ColumnId {
                item: 1,
                position: 1
            }
    );
    for (a, b, wanted) in [
        (Value::Int4(3), Value::Null, Truth3::No),
        (Value::Int4(4), Value::Null, Truth3::Yes),
        (Value::Null, Value::Int4(1), Truth3::Unknown),
    ] {
        let mut row = Row::new(alloc);
        row.push(a)?;
        row.push(b)?;
        let with_args = Binding::new(&args).with(1, &row);
        let without = Binding::new(&[]).with(1, &row);
        assert!(rt; eval(&cond, &with_args) == wanted);
        assert!(rt; eval(&bound, &without) == wanted);
        assert!(rt; eval(&pushed, &without.again()) == wanted);
        assert!(rt; eval(&cond, &without) != Truth3::No);
    }
    Ok(())
}

// A number, a name, the name that a number stands behind, and a comma.
const N: Token = Token {
    kind: Sort::Number,
    value: 5,
};

const A: Token = Token {
    kind: Sort::Name,
    value: 2,
};

const E: Token = Token {
    kind: Sort::Each,
    value: 0,
};

const C: Token = Token {
    kind: Sort::Comma,
    value: 0,
};

// The worked example of a grammar is part of no program.
#[test]
fn lists_of_entries_are_read(rt: HostRuntime) {
    no_list_has_two_values();
    let cases: [(&[Token], &[Entry]); 4] = [
        (&[N], &[Entry::Number(5)]),
        (&[A, C, N], &[Entry::Name(2), Entry::Number(5)]),
        (&[E, N, C, A], &[Entry::Each(5), Entry::Name(2)]),
        (
            &[A, C, A, C, A],
            &[Entry::Name(2), Entry::Name(2), Entry::Name(2)],
        ),
    ];
    for (tokens, want) in cases {
        match parse_entries(rt.alloc(), tokens) {
            Ok(entries) => assert_eq!(rt; entries.as_slice(), want),
            Err(e) => assert!(rt; false, "{e:?}"),
        }
    }
    let refused: [(&[Token], Refused); 8] = [
        (&[], Refused::Syntax(0)),
        (&[C, N], Refused::Syntax(2)),
        (&[A, N], Refused::Syntax(1)),
        (&[E, C], Refused::Syntax(1)),
        (&[E], Refused::Syntax(0)),
        (&[N, C], Refused::Syntax(0)),
        (&[N, C, N, C, N, C, N], Refused::Limit(2)),
        (&[N, C, N, C, N, C], Refused::Limit(1)),
    ];
    for (tokens, want) in refused {
        match parse_entries(rt.alloc(), tokens) {
            Ok(_) => assert!(rt; false, "{tokens:?} is no list"),
            Err(e) => assert_eq!(rt; e, want),
        }
    }
}

// The hashes were worked out by bench/hashes.py. A script has no bytes that are no UTF-8.
#[test]
fn keys_of_one_kind_and_any_bytes(rt: HostRuntime) {
    let alloc = rt.alloc();
    let text = Value::Text(PgText::from_bytes(alloc, b"abc").expect(&rt, "memory"));
    assert_eq!(rt; TextKey.hash(&text), 3628778498291917250);
    assert!(rt; TextKey.compare(&text, &text) == Ordering::Equal);
    assert_eq!(rt; IntKey.hash(&Value::Int4(-1)), 17840618251879852143);
    assert_eq!(rt; ValueKey.hash(&Value::Int4(42)), 7200833106982129875);
    assert_eq!(rt; DayKey.hash(&Value::Day(42)), 7200833106982129875);
    assert_eq!(rt; TruthKey.hash(&Value::Truth(true)), 2268351864360085331);
    assert!(rt; ValueKey.compare(&Value::Int4(2), &Value::Int8(1)) == Ordering::Greater);
    assert!(rt; DayKey.compare(&Value::Day(-1), &Value::Day(1)) == Ordering::Less);
    assert!(rt; TruthKey.compare(&Value::Truth(false), &Value::Truth(true)) == Ordering::Less);
    match read_value(alloc, Kind::Text, b"\xff\x00").expect(&rt, "a value") {
        Value::Text(read) => assert!(rt; read.as_bytes() == b"\xff\x00".as_slice()),
        _ => assert!(rt; false),
    }
}
