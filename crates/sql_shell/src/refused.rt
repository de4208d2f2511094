use crate::trees::write_number;
use pg_values::NoMemory;
use sql_expressions::ParseRefused;

/// Why a text is refused.
pub(crate) fn write_refusal(refused: &ParseRefused, out: &mut Vec<u8>) -> Result<(), NoMemory> {
    match refused {
        ParseRefused::Syntax { at } => {
            out.extend_from_slice(b"syntax error at byte ")?;
            write_number(*at as u64, out)?;
        }
        ParseRefused::Left { word } => {
            out.extend_from_slice(word.as_bytes())?;
            out.extend_from_slice(b" is not in this profile")?;
        }
        ParseRefused::TooMany { which } => {
            out.extend_from_slice(b"too many ")?;
            out.extend_from_slice(which.word())?;
        }
        ParseRefused::NoMemory => return Err(NoMemory),
    }
    Ok(())
}
