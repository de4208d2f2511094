ghost use Rattle.std.specs.Prelude.{◌≤◌, ◌<◌, OnOk, OnErr, length};
ghost use Rattle.script_program.specs.Outcomes.{Fails, IsTold, Takes, refusal};

use crate::ended::Ended;
use pg_values::{Failed, Sink};

/// Writes all of the bytes. A write that failed is not tried again.
fn write_whole<K: Sink>(sink: &mut K, bytes: &[u8]) -> Result<(), Failed>
    ensures ok { OnOk result (Takes K.Sink sink.old sink.new bytes.now) }
    ensures err { OnErr result (Fails K.Sink sink.old sink.new bytes.now) }
{
    let mut at = 0;
    while at < bytes.len() {
        at += sink.write(&bytes[at..])?;
    }
    Ok(())
}

/// Writes the line of an answer. A failed write ends the call in its place.
pub(crate) fn answer<E: Sink>(err: &mut E, line: &[u8], ended: Ended) -> Ended
    ensures { IsTold E.Sink err.old err.new (refusal ended line.now) result }
{
    match write_whole(err, line) {
        Ok(()) => ended,
        Err(Failed) => Ended::WriteFault,
    }
}
