//! Takes schedules of transactions and row versions from standard input, a line each, runs each on a
//! transaction table and a row store of its own, and writes the answers, a line for each schedule.
//! `checks/versions/model.py` made both files beside this program: the answers come from the definitions
//! of what a snapshot sees, without the table and the store.
//!
//! A step is a small letter and numbers, each of them one byte, `0` and so many more. An answer is numbers
//! and a letter:
//!
//! | step | does | answers |
//! |---|---|---|
//! | `b` session | begins a transaction | its number, `b` |
//! | `c` session, `a` session | commits it, or aborts it | `+` |
//! | `h` session, 0, command | holds a fresh snapshot with that command number | `+` |
//! | `d` session | gives up the snapshot that is held | `+` |
//! | `l` | makes a leaf | its number, `l` |
//! | `p` session, leaf, command, value | stores a version | `+` |
//! | `r` session, version, command, value | replaces it | `+` |
//! | `e` session, version, command | deletes it | `+` |
//! | `m` session, version, command, leaf | ends it as moved to the leaf | `+` |
//! | `s` session, leaf, command | scans by its snapshot with that number | each version and its value, `s` |
//! | `n` session, version | asks what became of it | its value, `=`; or what is named, and a letter |
//! | `f` transaction | asks what became of it | its session, and a letter |
//! | `o` session | asks what is open | its transaction; `h`, the held snapshot's command; `o` |
//!
//! Where a call may not be made, the answer is the first letter of what is in the way: a transaction that is
//! Open, no Transaction, a snapshot that is Held, no Leaf, no Version, a Birth unseen, an End. The leaves
//! that were scanned stand last.
use history::{Fate, TxId};
use pg_values::{LeafId, NoMemory, Row, RowId, Value};
use row_store::{Newest, PutCause, PutRefused, RowStore, Trail};
use std::alloc::Global;
use tx_table::TxTable;

const SESSIONS: u32 = 5;

// The letter of an answer, which stands behind its numbers.
type Answer = Result<u8, NoMemory>;

// A step, with the numbers behind its letter, as many as are its kind's own: `what` is a leaf or a version,
// `last` a value or the leaf that a version moves to.
#[derive(Clone, Copy)]
struct Step {
    kind: u8,
    session: u32,
    what: u32,
    cmd: u32,
    last: u32,
}

// The number that stands so far behind a place of the line.
fn number_at(line: &[u8], place: usize, behind: usize) -> u32 {
    match line.get(place.saturating_add(behind)) {
        Some(byte) => u32::from(byte.saturating_sub(b'0')),
        None => 0,
    }
}

fn row_of(alloc: Global, value: u32) -> Result<Row, NoMemory> {
    let mut row = Row::new(alloc);
    row.push(Value::Int8(i64::from(value)))?;
    Ok(row)
}

fn write_number(number: u64, out: &mut Vec<u8>) -> Result<(), NoMemory> {
    out.push(b'0' + (number % 48) as u8)?;
    Ok(())
}

fn write_row(row: &Row, out: &mut Vec<u8>) -> Result<(), NoMemory> {
    if let Some(Value::Int8(number)) = row.as_slice().first() {
        write_number(number.unsigned_abs(), out)?;
    }
    Ok(())
}

fn begin(txs: &mut TxTable, step: &Step, out: &mut Vec<u8>) -> Answer {
    if step.session >= txs.sessions() || txs.open_of(step.session).is_some() {
        return Ok(b'O');
    }
    write_number(txs.begin(step.session)?.number, out)?;
    Ok(b'b')
}

// Commits or aborts.
fn end(txs: &mut TxTable, step: &Step) -> u8 {
    let Some(tx) = txs.open_of(step.session) else {
        return b'T';
    };
    if step.kind == b'c' {
        txs.commit(tx);
    } else {
        txs.abort(tx);
    }
    b'+'
}

fn hold(alloc: Global, txs: &mut TxTable, step: &Step) -> Answer {
    if txs.open_of(step.session).is_none() {
        return Ok(b'T');
    }
    if txs.held(step.session).is_some() {
        return Ok(b'H');
    }
    let mut snap = txs.snapshot(alloc, step.session)?;
    snap.cmd = step.cmd;
    txs.hold(step.session, snap);
    Ok(b'+')
}

fn stored(answer: Result<(), PutRefused>) -> Answer {
    match answer {
        Ok(()) => Ok(b'+'),
        Err(refused) => match refused.cause {
            PutCause::Full { .. } => Ok(b'F'),
            PutCause::NoMemory => Err(NoMemory),
        },
    }
}

fn put(alloc: Global, txs: &TxTable, store: &mut RowStore, step: &Step) -> Answer {
    let Some(tx) = txs.open_of(step.session) else {
        return Ok(b'T');
    };
    if step.what as usize >= store.leaf_count() {
        return Ok(b'L');
    }
    let leaf = LeafId { number: step.what };
    stored(store.put(txs, leaf, row_of(alloc, step.last)?, tx, step.cmd))
}

// Replaces, deletes or moves a version.
fn change(alloc: Global, txs: &TxTable, store: &mut RowStore, step: &Step) -> Answer {
    let number = u64::from(step.what);
    let id = RowId { number };
    let Some(tx) = txs.open_of(step.session) else {
        return Ok(b'T');
    };
    if number >= store.version_count() as u64 {
        return Ok(b'V');
    }
    if !store.sees_birth(txs, id, tx) {
        return Ok(b'B');
    }
    let Newest::Stands(_) = store.newest(txs, id, tx) else {
        return Ok(b'E');
    };
    if step.kind == b'r' {
        return stored(store.replace(txs, id, row_of(alloc, step.last)?, tx, step.cmd));
    }
    let mut moved_to = None;
    if step.kind == b'm' {
        if step.last as usize >= store.leaf_count() {
            return Ok(b'L');
        }
        moved_to = Some(LeafId { number: step.last });
    }
    store.end_version(txs, id, tx, step.cmd, moved_to);
    Ok(b'+')
}

fn scan(
    alloc: Global,
    txs: &TxTable,
    store: &RowStore,
    trail: &mut Trail,
    step: &Step,
    out: &mut Vec<u8>,
) -> Answer {
    if txs.open_of(step.session).is_none() {
        return Ok(b'T');
    }
    if step.what as usize >= store.leaf_count() {
        return Ok(b'L');
    }
    if trail.reserve(1).is_err() {
        return Err(NoMemory);
    }
    let mut snap = txs.snapshot(alloc, step.session)?;
    snap.cmd = step.cmd;
    for seen in store.scan(txs, LeafId { number: step.what }, &snap, trail) {
        write_number(seen.id.number, out)?;
        write_row(seen.row, out)?;
    }
    Ok(b's')
}

fn ask_version(txs: &TxTable, store: &RowStore, step: &Step, out: &mut Vec<u8>) -> Answer {
    let number = u64::from(step.what);
    let Some(me) = txs.open_of(step.session) else {
        return Ok(b'T');
    };
    if number >= store.version_count() as u64 {
        return Ok(b'V');
    }
    let (letter, by, other) = match store.newest(txs, RowId { number }, me) {
        Newest::Stands(row) => {
            write_row(row, out)?;
            return Ok(b'=');
        }
        Newest::EndedBy(by) => (b'e', by, None),
        Newest::Gone(by) => (b'g', by, None),
        Newest::Moved(by, leaf) => (b'm', by, Some(u64::from(leaf.number))),
        Newest::Replaced(by, new) => (b'r', by, Some(new.number)),
    };
    write_number(by.number, out)?;
    if let Some(other) = other {
        write_number(other, out)?;
    }
    Ok(letter)
}

fn ask_transaction(txs: &TxTable, step: &Step, out: &mut Vec<u8>) -> Answer {
    let number = u64::from(step.session);
    let tx = TxId { number };
    write_number(u64::from(txs.session_of(tx)), out)?;
    Ok(match txs.fate(tx) {
        Fate::Running => b'r',
        Fate::Committed => b'c',
        Fate::Aborted => b'a',
    })
}

fn ask_session(txs: &TxTable, step: &Step, out: &mut Vec<u8>) -> Answer {
    if let Some(tx) = txs.open_of(step.session) {
        write_number(tx.number, out)?;
    }
    if let Some(snap) = txs.held(step.session) {
        out.push(b'h')?;
        write_number(u64::from(snap.cmd), out)?;
    }
    Ok(b'o')
}

// Does the step and writes its answer, the letter last.
fn run(
    alloc: Global,
    txs: &mut TxTable,
    store: &mut RowStore,
    trail: &mut Trail,
    step: &Step,
    out: &mut Vec<u8>,
) -> Result<(), NoMemory> {
    let letter = match step.kind {
        b'b' => begin(txs, step, out)?,
        b'c' | b'a' => end(txs, step),
        b'h' => hold(alloc, txs, step)?,
        b'd' if step.session < txs.sessions() => {
            txs.drop_held(step.session);
            b'+'
        }
        b'l' if store.leaf_count() < u32::MAX as usize => {
            write_number(u64::from(store.add_leaf()?.number), out)?;
            b'l'
        }
        b'p' => put(alloc, txs, store, step)?,
        b'r' | b'e' | b'm' => change(alloc, txs, store, step)?,
        b's' => scan(alloc, txs, store, trail, step, out)?,
        b'n' => ask_version(txs, store, step, out)?,
        b'f' => ask_transaction(txs, step, out)?,
        b'o' => ask_session(txs, step, out)?,
        _ => return Ok(()),
    };
    out.push(letter)?;
    out.push(b' ')?;
    Ok(())
}

// The answers to a line of steps, and the leaves that were scanned.
pub(crate) fn schedule(alloc: Global, line: &[u8], out: &mut Vec<u8>) -> Result<(), NoMemory> {
    let mut txs = TxTable::new(alloc, SESSIONS)?;
    let mut store = RowStore::new(alloc);
    let mut trail = Trail::new(alloc)?;
    for (place, kind) in line.iter().enumerate() {
        let step = Step {
            kind: *kind,
            session: number_at(line, place, 1),
            what: number_at(line, place, 2),
            cmd: number_at(line, place, 3),
            last: number_at(line, place, 4),
        };
        run(alloc, &mut txs, &mut store, &mut trail, &step, out)?;
    }
    for leaf in trail.leaves() {
        write_number(u64::from(leaf.number), out)?;
    }
    out.push(b'\n')?;
    Ok(())
}
