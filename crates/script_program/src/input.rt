ghost use Rattle.std.specs.Prelude.{◌≤◌, IfOk, IfErr};
ghost use Rattle.script_program.specs.Reading.{Gives, Whole, reading_of};

use pg_values::{Failed, Source};
use std::alloc::Global;

/// The most bytes that an input may have.
pub const INPUT_LIMIT: usize = 4_194_304;

/// Why an input was not read to its end.
#[derive(Clone, Copy, Debug, PartialEq, Eq)]
pub(crate) enum ReadRefused {
    TooLarge,
    Fault,
    NoMemory,
}

/// Reads a source to its end, or to the first byte past the limit and no further.
pub(crate) fn read_whole<S: Source>(alloc: Global, source: &mut S) -> Result<Vec<u8>, ReadRefused>
    ensures ok { IfOk result (λ bytes. Gives S.Source source.old source.new (Whole bytes.items)) }
    ensures err { IfErr result (λ refused. Gives S.Source source.old source.new (reading_of refused)) }
{
    let mut buffer = [0u8; 4096];
    let mut bytes = Vec::new(alloc);
    while bytes.len() <= INPUT_LIMIT {
        let most = buffer.len().min(INPUT_LIMIT + 1 - bytes.len());
        let piece = &mut buffer[..most];
        match source.read(piece) {
            Ok(0) => return Ok(bytes),
            Ok(count) => {
                if bytes.extend_from_slice(&piece[..count]).is_err() {
                    return Err(ReadRefused::NoMemory);
                }
            }
            Err(Failed) => return Err(ReadRefused::Fault),
        }
    }
    Err(ReadRefused::TooLarge)
}
