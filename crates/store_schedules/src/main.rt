//! Runs schedules from standard input, a line each, on stores of their own, and writes the answers, a line for each
//! schedule. The lines behind `= locks` are of locks (`locks.rt` says in which form), those behind `= versions` of
//! transactions and row versions (`versions.rt`). Models in `checks/` made both files beside this program: the answers
//! come from the definitions, without the stores.
//!
//! The tests call the crates at the ground with what no script and no line of a program can give them.
#![tactic(auto)]

mod locks;
#[cfg(test)]
mod tests;
mod versions;

use pg_values::NoMemory;
use std::alloc::Global;
use std::io::{self, BufRead, BufReader, BufWriter, Write};
use std::process::ExitCode;

/// What the lines are schedules of.
#[derive(Clone, Copy)]
enum Schedules {
    Locks,
    Versions,
}

fn schedules_behind(line: &[u8]) -> Option<Schedules> {
    match line {
        b"= locks" => Some(Schedules::Locks),
        b"= versions" => Some(Schedules::Versions),
        _ => None,
    }
}

fn schedule(
    alloc: Global,
    schedules: Schedules,
    line: &[u8],
    out: &mut Vec<u8>,
) -> Result<(), NoMemory> {
    match schedules {
        Schedules::Locks => locks::schedule(alloc, line, out),
        Schedules::Versions => versions::schedule(alloc, line, out),
    }
}

fn main(rt: HostRuntime) -> io::Result<ExitCode> {
    let mut writer = BufWriter::new(rt.alloc(), io::writer(&rt))?;
    let mut schedules = Schedules::Locks;
    for line in BufReader::new(rt.alloc(), rt.reader())?.lines(rt.alloc()) {
        let line = line?;
        if let Some(next) = schedules_behind(line.as_bytes()) {
            schedules = next;
            writer.write_all(line.as_bytes())?;
            writer.write_all(b"\n")?;
        } else {
            let mut out = Vec::new(rt.alloc());
            if schedule(rt.alloc(), schedules, line.as_bytes(), &mut out).is_err() {
                return Ok(ExitCode::from(6));
            }
            writer.write_all(&out)?;
        }
    }
    writer.flush()?;
    Ok(ExitCode::from(0))
}
