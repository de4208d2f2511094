//! Takes schedules of locks from standard input, a line each, runs each on a lock table of its own, and
//! writes the answers, a line for each schedule. `checks/locks/model.py` made both files beside this
//! program: the answers come from the definitions of locks, without the table.
//!
//! A step is a letter and digits: `r` and a session, a table and a mode asks for a lock; `e` or `s`, a
//! session, others and a point asks to wait for their transactions or snapshots; `n` resumes who is ready;
//! `x`, `g` or `c` and a session says that its transaction has ended, its snapshot has gone, or its wait
//! is withdrawn.
use history::WaitOn;
use lock_table::{Asked, LockTable};
use pg_values::{LockMode, NoMemory, SessionSet, TableNo};
use std::alloc::Global;

const SESSIONS: u32 = 6;

const TABLES: u32 = 4;

// A step, as far as it was read.
#[derive(Clone, Copy)]
struct Step {
    kind: u8,
    digits: [u32; 8],
    count: usize,
}

fn new_step(kind: u8) -> Step {
    Step {
        kind,
        digits: [0; 8],
        count: 0,
    }
}

fn add_digit(step: &mut Step, digit: u32) {
    if step.count < 8 {
        step.digits[step.count] = digit;
        step.count += 1;
    }
}

// The sessions that the step names behind its own.
fn others(step: &Step) -> SessionSet {
    let mut set = SessionSet::empty();
    for i in 1..8usize {
        if i < step.count && step.digits[i] < SESSIONS {
            set = set.with(step.digits[i]);
        }
    }
    set
}

// One of the eight modes.
fn mode_of(digit: u32) -> LockMode {
    match LockMode::every().get(digit as usize) {
        Some(mode) => *mode,
        None => LockMode::AccessExclusive,
    }
}

fn write_set(set: SessionSet, out: &mut Vec<u8>) -> Result<(), NoMemory> {
    for k in 0..SESSIONS {
        if set.has(k) {
            out.push(b'0' + k as u8)?;
        }
    }
    Ok(())
}

fn write_answer(asked: Asked, out: &mut Vec<u8>) -> Result<(), NoMemory> {
    match asked {
        Asked::Granted => out.push(b'g')?,
        Asked::Waits { behind } => {
            out.push(b'w')?;
            write_set(behind, out)?;
        }
        Asked::Deadlock { cycle } => {
            out.push(b'd')?;
            for i in 0..SESSIONS as usize {
                if let Some(session) = cycle.at(i) {
                    out.push(b'0' + (session % 10) as u8)?;
                }
            }
        }
    }
    out.push(b' ')?;
    Ok(())
}

fn request(table: &mut LockTable, step: &Step, out: &mut Vec<u8>) -> Result<(), NoMemory> {
    let session = step.digits[0];
    let number = step.digits[1];
    if session >= table.sessions() || number >= table.tables() || table.wanted(session).is_some() {
        return Ok(());
    }
    let asked = table.request(session, TableNo { number }, mode_of(step.digits[2]));
    write_answer(asked, out)
}

fn wait_on(table: &mut LockTable, step: &Step, out: &mut Vec<u8>) -> Result<(), NoMemory> {
    let session = step.digits[0];
    let set = others(step);
    if session >= table.sessions() || table.wanted(session).is_some() || set.has(session) {
        return Ok(());
    }
    let what = if step.kind == b'e' {
        WaitOn::Ends(set)
    } else {
        WaitOn::Snapshots(set)
    };
    let asked = table.wait_on(session, what);
    write_answer(asked, out)
}

fn resume(table: &mut LockTable, out: &mut Vec<u8>) -> Result<(), NoMemory> {
    match table.ready() {
        Some(session) => {
            table.resume(session);
            out.push(b'0' + (session % 10) as u8)?;
        }
        None => out.push(b'-')?,
    }
    out.push(b' ')?;
    Ok(())
}

fn run(table: &mut LockTable, step: &Step, out: &mut Vec<u8>) -> Result<(), NoMemory> {
    let session = step.digits[0];
    match step.kind {
        b'r' => request(table, step, out)?,
        b'e' | b's' => wait_on(table, step, out)?,
        b'n' => resume(table, out)?,
        b'x' if session < table.sessions() => table.release_all(session),
        b'g' if session < table.sessions() => table.snapshot_gone(session),
        b'c' if session < table.sessions() => table.withdraw(session),
        _ => {}
    }
    Ok(())
}

// The answers to a line of steps, and who holds each table in the end.
pub(crate) fn schedule(alloc: Global, line: &[u8], out: &mut Vec<u8>) -> Result<(), NoMemory> {
    let mut table = LockTable::new(alloc, SESSIONS, TABLES)?;
    let mut step = new_step(b'.');
    for byte in line {
        if byte.is_ascii_digit() {
            add_digit(&mut step, u32::from(*byte - b'0'));
        } else {
            run(&mut table, &step, out)?;
            step = new_step(*byte);
        }
    }
    run(&mut table, &step, out)?;
    for number in 0..TABLES {
        out.push(b'h')?;
        write_set(table.holders(TableNo { number }), out)?;
        out.push(if number + 1 < TABLES { b' ' } else { b'\n' })?;
    }
    Ok(())
}
