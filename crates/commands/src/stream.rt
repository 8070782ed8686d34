//! The writing of texts.
ghost use Rattle.std.specs.Prelude.{◌≡◌, ◌<◌, ◌++◌, length, ℕ, List, OnOk, IfErr};
ghost use Rattle.std.specs.Io.KnownBytes.{Appends};
ghost use Rattle.commands.specs.declared.error.SessionError.TheVariants.{Write as WriteFault};

use crate::SessionError;
use std::io::Write;

/// Writes a text. A writer that is interrupted, or that accepts no byte, has failed.
///
/// # Errors
///
/// `Write` if the writer failed: then it has a beginning of the text, and not all of it.
pub fn write_text<W: Write>(writer: &mut W, text: &[u8]) -> Result<(), SessionError>
    ensures ok { OnOk result (Appends (W.contents writer.old) (W.contents writer.new) text.now) }
    ensures err { IfErr result (λ error. (error ≡ WriteFault) × ((written : List ℕ) × (unwritten : List ℕ)
        × Appends (W.contents writer.old) (W.contents writer.new) written × (text.now ≡ written ++ unwritten)
        × (0 < length unwritten))) }
{
    let mut place = 0;
    while place < text.len() {
        match writer.write(&text[place..]) {
            Ok(0) => return Err(SessionError::Write),
            Ok(count) => place += count,
            Err(_) => return Err(SessionError::Write),
        }
    }
    Ok(())
}
