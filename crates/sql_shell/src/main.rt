//! Shows what the readers of SQL, its writer and its binders make of texts from standard input, one in each line, and
//! what becomes of bounds and keys.
//!
//! `= levels`, `= expressions`, `= blocks` or `= meanings` by itself in a line says what the lines behind it are: levels of
//! partitions with their bounds, keys and conditions, of which it is written what becomes of them, expressions, of
//! which the trees are written, blocks, which are written back, or statements, of which it is written what they mean.
//! The heads of `levels.rt`, `expressions.rt`, `blocks.rt` and `meanings.rt` say in which form. `stdin` has the texts, and
//! `stdout` what was worked out by hand from the grammar, the rules and the definitions.
#![tactic(auto)]

mod blocks;
mod bound;
mod bound_sets;
mod bound_trees;
mod bound_words;
mod counted_keys;
mod custom;
mod definitions;
mod expressions;
mod kept_partitions;
mod key_conditions;
mod keys;
mod kinds;
mod levels;
mod meanings;
mod prepared;
mod refused;
mod repeats;
mod tables;
mod told_bounds;
mod trees;

use blocks::block;
use expressions::tree;
use levels::answers;
use meanings::meaning;
use pg_values::NoMemory;
use std::alloc::Global;
use std::io::{self, ErrorKind, Write};

/// What the lines are.
#[derive(Clone, Copy)]
enum Texts {
    Levels,
    Expressions,
    Blocks,
    Meanings,
}

fn texts_behind(line: &[u8]) -> Option<Texts> {
    match line {
        b"= levels" => Some(Texts::Levels),
        b"= expressions" => Some(Texts::Expressions),
        b"= blocks" => Some(Texts::Blocks),
        b"= meanings" => Some(Texts::Meanings),
        _ => None,
    }
}

fn answer(alloc: Global, texts: Texts, line: &str) -> Result<Vec<u8>, NoMemory> {
    match texts {
        Texts::Levels => answers(alloc, line),
        Texts::Expressions => tree(alloc, line.as_bytes()),
        Texts::Blocks => block(alloc, line.as_bytes()),
        Texts::Meanings => meaning(alloc, line.as_bytes()),
    }
}

fn main(rt: HostRuntime) -> io::Result<()> {
    let mut out = rt.stdout();
    let mut texts = Texts::Expressions;
    for line in rt.lines(rt.alloc()) {
        let line = line?;
        if let Some(next) = texts_behind(line.as_bytes()) {
            texts = next;
            out.write_all(line.as_bytes())?;
        } else {
            let Ok(answer) = answer(rt.alloc(), texts, &line) else {
                return Err(io::Error::from(ErrorKind::OutOfMemory));
            };
            out.write_all(&answer)?;
        }
        out.write_all(b"\n")?;
    }
    Ok(())
}
