//! The name on a volume that a file of the host gets.
ghost use Rattle.std.specs.Prelude.{◌≡◌, ◌++◌, ◌∷◌, map, List, ℕ, IfOk, OnOk, IfSome, IfNone, Some, option_map};
ghost use Rattle.commands.specs.Common.{IsFileName};
ghost use Rattle.spec_language.specs.Common.{upper as upper_of, is_letter as is_plain};
ghost use Rattle.words36.specs.declared.names.FileName.{FileName as Names};
ghost use Rattle.collection.specs.Common.{IsNameFor, IsOwnText, IsShortText, dotted, plain};

use commands::file_named;
use std::alloc::{AllocError, Global};
use std::path::Path;
use words36::FileName;

/// The most characters of a name.
const NAME_CHARACTERS: usize = 6;

/// The most characters of an extension.
const EXTENSION_CHARACTERS: usize = 3;

/// A file of the host with the name that it gets.
#[derive(Drop)]
pub struct Named<'a> {
    /// Its path.
    pub path: &'a str,
    /// The name.
    pub name: FileName,
    /// The text of the name, as `FOO.TXT`.
    pub text: Vec<u8>,
}

/// Returns whether a byte is a letter in upper case or a digit.
pub(crate) fn is_plain(byte: u8) -> bool
    ensures { result ≡ is_plain byte }
{
    byte.is_ascii_uppercase() || byte.is_ascii_digit()
}

/// Appends a text in upper case.
fn push_upper(text: &mut Vec<u8>, part: &[u8]) -> Result<(), AllocError>
    ensures { OnOk result (text.new.items ≡ text.old.items ++ map upper_of part.now) }
{
    for byte in part {
        text.push(byte.to_ascii_uppercase())?;
    }
    Ok(())
}

/// Appends a byte in upper case, if that is a letter or a digit and there is room. Returns the room that is left.
#[tactic(auto, using(crate::proofs::NameLaws::plain_taken, crate::proofs::NameLaws::plain_left))]
fn push_if_plain(text: &mut Vec<u8>, byte: u8, room: usize) -> Result<usize, AllocError>
    ensures { (bytes : List ℕ) → IfOk result (λ left. text.new.items ++ plain left bytes
        ≡ text.old.items ++ plain room (byte ∷ bytes)) }
{
    let byte = byte.to_ascii_uppercase();
    if room == 0 || !is_plain(byte) {
        return Ok(room);
    }
    text.push(byte)?;
    Ok(room - 1)
}

/// Appends the first letters and digits of a text in upper case, at most `most` of them.
#[tactic(auto, using(crate::proofs::NameLaws::plain_none))]
fn push_plain(text: &mut Vec<u8>, part: &[u8], most: usize) -> Result<(), AllocError>
    ensures { OnOk result (text.new.items ≡ text.old.items ++ plain most part.now) }
{
    let mut room = most;
    for byte in part {
        room = push_if_plain(text, *byte, room)?;
    }
    Ok(())
}

/// Appends a dot and the first letters and digits of an extension, if it has any.
#[tactic(auto, using(crate::proofs::NameLaws::dotted_some))]
fn push_extension(alloc: Global, text: &mut Vec<u8>, extension: &[u8]) -> Result<(), AllocError>
    ensures { OnOk result (text.new.items ≡ text.old.items ++ dotted (plain 3 extension.now)) }
{
    let mut part = Vec::new(alloc);
    push_plain(&mut part, extension, EXTENSION_CHARACTERS)?;
    if !part.is_empty() {
        text.push(b'.')?;
        text.extend_from_slice(&part)?;
    }
    Ok(())
}

/// Returns a file's own name in upper case, valid or not, if its path has one.
fn own_text(alloc: Global, path: &str) -> Result<Option<Vec<u8>>, AllocError>
    ensures { IfOk result (λ text. IsOwnText path.now (option_map (λ v. v.items) text)) }
{
    let Some(last) = Path::new(path).file_name() else {
        return Ok(None);
    };
    let mut text = Vec::new(alloc);
    push_upper(&mut text, last.as_bytes())?;
    Ok(Some(text))
}

/// Returns six letters and digits of a file's stem, and three of its extension, if its path has one.
fn short_text(alloc: Global, path: &str) -> Result<Option<Vec<u8>>, AllocError>
    ensures { IfOk result (λ text. IsShortText path.now (option_map (λ v. v.items) text)) }
{
    let path = Path::new(path);
    let Some(stem) = path.file_stem() else {
        return Ok(None);
    };
    let mut text = Vec::new(alloc);
    push_plain(&mut text, stem.as_bytes(), NAME_CHARACTERS)?;
    if let Some(extension) = path.extension() {
        push_extension(alloc, &mut text, extension.as_bytes())?;
    }
    Ok(Some(text))
}

/// Returns the name that a text spells, if it spells one.
fn spelled<'a>(path: &'a str, text: Vec<u8>) -> Option<Named<'a>>
    ensures some { IfSome result (λ named. (named.text.items ≡ text.items) × (named.path ≡ path.entry)
        × IsFileName (map upper_of text.items) named.name.name named.name.ext) }
    ensures none { IfNone result ((file : Names) → IsFileName (map upper_of text.items) file.name file.ext → ⊥) }
{
    match file_named(&text) {
        Some(name) => Some(Named { path, name, text }),
        None => None,
    }
}

/// Returns a file's own name, if that is the name of a file.
fn own_name<'a>(alloc: Global, path: &'a str) -> Result<Option<Named<'a>>, AllocError>
    ensures some { IfOk result (λ found. IfSome found (λ named. (named.path ≡ path.entry)
        × IsOwnText path.entry.now (Some named.text.items)
        × IsFileName (map upper_of named.text.items) named.name.name named.name.ext)) }
    ensures none { IfOk result (λ found. IfNone found ((text : List ℕ) (file : Names)
        → IsOwnText path.entry.now (Some text) → IsFileName (map upper_of text) file.name file.ext → ⊥)) }
{
    match own_text(alloc, path)? {
        Some(text) => Ok(spelled(path, text)),
        None => Ok(None),
    }
}

/// Returns a shorter name of a file, if its stem and its extension make one.
fn short_name<'a>(alloc: Global, path: &'a str) -> Result<Option<Named<'a>>, AllocError>
    ensures some { IfOk result (λ found. IfSome found (λ named. (named.path ≡ path.entry)
        × IsShortText path.entry.now (Some named.text.items)
        × IsFileName (map upper_of named.text.items) named.name.name named.name.ext)) }
    ensures none { IfOk result (λ found. IfNone found ((text : List ℕ) (file : Names)
        → IsShortText path.entry.now (Some text) → IsFileName (map upper_of text) file.name file.ext → ⊥)) }
{
    match short_text(alloc, path)? {
        Some(text) => Ok(spelled(path, text)),
        None => Ok(None),
    }
}

/// Returns the name that a file of the host gets: its own in upper case, or a shorter one if `shortens` is set and its
/// own isn't a name. None if there is no such name.
pub fn name_for<'a>(
    alloc: Global,
    path: &'a str,
    shortens: bool,
) -> Result<Option<Named<'a>>, AllocError>
    ensures some { IfOk result (λ found. IfSome found (λ named. (named.path ≡ path.entry)
        × IsNameFor shortens path.entry.now named.text.items named.name)) }
    ensures none { IfOk result (λ found. IfNone found ((text : List ℕ) (file : Names)
        → IsNameFor shortens path.entry.now text file → ⊥)) }
{
    match own_name(alloc, path)? {
        Some(named) => Ok(Some(named)),
        None if shortens => short_name(alloc, path),
        None => Ok(None),
    }
}
