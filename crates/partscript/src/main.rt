//! The program: standard input, output and error around `partscript_run`.
//!
//! What the real streams give and take no proof can say. The adapters here are the whole of that
//! edge: each counts its faults, so that a fault is reported only where a stream reported one.
#![tactic(auto)]

mod adapters;
mod behind_name;

ghost use Rattle.std.specs.Prelude.{◌≡◌};
ghost use Rattle.partscript.specs.Status as spec;

use adapters::{InputSource, OutputSink};
use behind_name::BehindName;
use pg_values::NoMemory;
use script_program::Ended;
use std::env;
use std::io::ErrorKind;
use std::process::ExitCode;
use std::rt::Env;
use step_engine::partscript_run;

/// The status of each answer.
fn status(ended: Ended) -> u8
    ensures { result ≡ spec.status ended }
{
    match ended {
        Ended::Done => 0,
        Ended::ScriptRefused => 1,
        Ended::Usage => 2,
        Ended::TooLarge => 3,
        Ended::ReadFault => 4,
        Ended::WriteFault => 5,
        Ended::NoMemory => 6,
    }
}

/// The words after the program's name. Where one of them is no UTF-8 there is one empty word: no
/// call of the program has such a word.
fn words_of<R: Env + AllocGlobal>(rt: &R) -> Result<Vec<String>, NoMemory> {
    let behind = (BehindName::new(rt), rt.alloc());
    let mut words = Vec::new(rt.alloc());
    match env::args(&behind) {
        Ok(all) => {
            for word in all {
                words.push(word)?;
            }
        }
        Err(error) => {
            if error.kind() == ErrorKind::OutOfMemory {
                return Err(NoMemory);
            }
            words.push(String::new(rt.alloc()))?;
        }
    }
    Ok(words)
}

fn main(rt: HostRuntime) -> ExitCode {
    let Ok(words) = words_of(&rt) else {
        return ExitCode::from(status(Ended::NoMemory));
    };
    let mut input = InputSource::new(rt.stdin());
    let mut out = OutputSink::new(rt.stdout());
    let mut err = OutputSink::new(rt.stderr());
    let ended = partscript_run(rt.alloc(), &words, &mut input, &mut out, &mut err);
    ExitCode::from(status(ended))
}

#[cfg(test)]
mod tests;
