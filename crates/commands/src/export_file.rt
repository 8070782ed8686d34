//! The export of a file as bytes, in an encoding in which they come back exactly or in a given one.
ghost use Rattle.std.specs.Prelude.{◌≡◌, ◌↔◌, ◌∷◌, [], ℕ, IfOk, IfSome, IfNone, IsTrue, All, Some, None, flat_map};
ghost use Rattle.words36.specs.Common.{packed, word_bytes, IsOctet, IsWord};
ghost use Rattle.spec_language.specs.Common.{AreWords, typed};
ghost use Rattle.spec_language.specs.declared.encoding.Encoding.TheVariants.{Characters, Words, Octets};
ghost use Rattle.commands.specs.Common.{HasBytes, HasEntries, HasExported, HasWordsRead, IsExport, export_plan};
ghost use Rattle.commands.specs.Common.{encodings_for};

use crate::answer::{CORE_WORDS, SESSION_JOB};
use crate::ask_events::reset;
use crate::list_directories::operator;
use crate::put_file::enter;
use crate::service::FileService;
use crate::type_line::{push_characters, push_words, read_words};
use spec_image::Entry;
use spec_language::{Encoding, Spec};
use spec_machine::{Event, Reply};
use std::alloc::{AllocError, Global};
use words36::{FileName, Moment, Ppn, Word, pack_ascii, unpack_octets};

/// The number of words that are turned into characters at once.
const PIECE_WORDS: usize = 2048;

/// The number of characters that are packed at once: those of as many words.
const PIECE_CHARACTERS: usize = 5 * PIECE_WORDS;

/// A file that will be taken out.
#[derive(Clone, Copy, Debug, PartialEq, Eq)]
pub struct Export {
    /// The owner of the directory that it is in.
    pub owner: Ppn,
    /// Its name.
    pub name: FileName,
    /// The data mode that it was written in, by its number.
    pub mode: u32,
    /// The moment at which it is read.
    pub moment: Moment,
    /// The encoding of its bytes; if there is none, the first of its mode's encodings in which they come back exactly.
    pub encoding: Option<Encoding>,
}

/// The result of taking a file out.
#[derive(Drop)]
pub enum Exported {
    /// Its bytes, and their encoding.
    File(Encoding, Vec<u8>),
    /// Its reading was refused.
    Refused(Reply),
    /// Bytes of eight bits were requested, and none have its words.
    NotBytes,
}

/// Logs in as [1,2], who may list all directories, and returns the files of one.
///
/// # Errors
///
/// The reply that refused LOGIN or the list.
pub fn entries_of<S: FileService>(
    alloc: Global,
    service: &mut S,
    moment: Moment,
    owner: Ppn,
) -> Result<Vec<Entry>, Reply>
    ensures { HasEntries (λ v. v.items) S.machine service.old service.new moment owner result }
{
    let reply = service.event(alloc, &Event::Login(SESSION_JOB, operator(), CORE_WORDS));
    match reply {
        Reply::Done => service.list(alloc, SESSION_JOB, owner),
        _ => {
            reset(alloc, service, moment);
            Err(reply)
        }
    }
}

/// States what each of these words ensures. Does nothing.
fn see_words(words: &[Word])
    ensures { All IsWord words.now }
{
    for word in words {
        let _fits = word.bits();
    }
}

/// Returns the characters of words, without nulls.
fn characters_of(alloc: Global, words: &[Word]) -> Result<Vec<u8>, AllocError>
    ensures { IfOk result (λ text. text.items ≡ typed words.now) }
{
    let mut text = Vec::new(alloc);
    let mut rest = words;
    while !rest.is_empty() {
        let (piece, after) = rest.split_at(rest.len().min(PIECE_WORDS));
        push_characters(alloc, &mut text, piece)?;
        rest = after;
    }
    Ok(text)
}

/// Returns the bytes of words, eight for each.
fn bytes_of(alloc: Global, words: &[Word]) -> Result<Vec<u8>, AllocError>
    ensures { IfOk result (λ bytes. bytes.items ≡ flat_map word_bytes words.now) }
{
    let mut bytes = Vec::new(alloc);
    push_words(&mut bytes, words)?;
    Ok(bytes)
}

/// Returns whether these are the words of a text.
fn are_packed(alloc: Global, text: &[u8], words: &[Word]) -> Result<bool, AllocError>
    ensures { IfOk result (λ are. IsTrue are ↔ packed text.now ≡ words.now) }
{
    let mut text = text;
    let mut words = words;
    while !text.is_empty() {
        let (piece, after) = text.split_at(text.len().min(PIECE_CHARACTERS));
        let Ok(packed) = pack_ascii(alloc, piece) else {
            return Err(AllocError);
        };
        let (front, back) = words.split_at(words.len().min(packed.len()));
        if front != packed.as_slice() {
            return Ok(false);
        }
        text = after;
        words = back;
    }
    Ok(words.is_empty())
}

/// Returns the characters that have these words, if any have.
fn exact_characters(alloc: Global, words: &[Word]) -> Result<Option<Vec<u8>>, AllocError>
    ensures some { IfOk result (λ found. IfSome found (λ bytes. All IsOctet bytes.items
        × AreWords Characters bytes.items (Some words.now))) }
    ensures none { IfOk result (λ found. IfNone found (HasBytes Characters words.now → ⊥)) }
{
    let text = characters_of(alloc, words)?;
    if are_packed(alloc, &text, words)? {
        Ok(Some(text))
    } else {
        Ok(None)
    }
}

/// Returns the bytes that spell these words, if any do.
fn exact_bytes(
    alloc: Global,
    encoding: Encoding,
    words: &[Word],
) -> Result<Option<Vec<u8>>, AllocError>
    requires { All IsWord words.now }
    ensures some { IfOk result (λ found. IfSome found (λ bytes. All IsOctet bytes.items
        × AreWords encoding bytes.items (Some words.now))) }
    ensures none { IfOk result (λ found. IfNone found (HasBytes encoding words.now → ⊥)) }
{
    match encoding {
        Encoding::Characters => exact_characters(alloc, words),
        Encoding::Words => Ok(Some(bytes_of(alloc, words)?)),
        Encoding::Octets => unpack_octets(alloc, words),
    }
}

/// Returns the two most likely encodings of a file that was written in a mode. After these come words.
fn encodings_for(mode: u32) -> (Encoding, Encoding)
    ensures { encodings_for mode ≡ result.0 ∷ result.1 ∷ Words ∷ [] }
{
    match mode {
        0 | 1 => (Encoding::Characters, Encoding::Octets),
        _ => (Encoding::Octets, Encoding::Characters),
    }
}

/// Returns the bytes that spell these words, in the first encoding of a mode in which any do.
fn export_exactly(alloc: Global, mode: u32, words: &[Word]) -> Result<Exported, AllocError>
    requires { All IsWord words.now }
    ensures { IfOk result (IsExport None mode words.now) }
{
    let (first, second) = encodings_for(mode);
    if let Some(bytes) = exact_bytes(alloc, first, words)? {
        return Ok(Exported::File(first, bytes));
    }
    if let Some(bytes) = exact_bytes(alloc, second, words)? {
        return Ok(Exported::File(second, bytes));
    }
    Ok(Exported::File(Encoding::Words, bytes_of(alloc, words)?))
}

/// Returns the bytes of words as they are printed in an encoding.
fn export_as(alloc: Global, encoding: Encoding, words: &[Word]) -> Result<Exported, AllocError>
    ensures { (mode : ℕ) → IfOk result (IsExport (Some encoding) mode words.now) }
{
    match encoding {
        Encoding::Characters => Ok(Exported::File(encoding, characters_of(alloc, words)?)),
        Encoding::Words => Ok(Exported::File(encoding, bytes_of(alloc, words)?)),
        Encoding::Octets => match unpack_octets(alloc, words)? {
            Some(bytes) => Ok(Exported::File(encoding, bytes)),
            None => Ok(Exported::NotBytes),
        },
    }
}

/// Returns what the words of a file that was written in a mode are taken out as: in the given encoding, or, if there is
/// none, in the first of the mode's encodings in which bytes come back exactly. It never returns `Refused`.
///
/// # Errors
///
/// `AllocError` if the bytes found no room.
pub fn export_words(
    alloc: Global,
    encoding: Option<Encoding>,
    mode: u32,
    words: &[Word],
) -> Result<Exported, AllocError>
    ensures exported { IfOk result (IsExport encoding mode words.now) }
    ensures fits { All IsWord words.now }
{
    see_words(words);
    match encoding {
        Some(encoding) => export_as(alloc, encoding, words),
        None => export_exactly(alloc, mode, words),
    }
}

/// Logs in as [1,2], who may read all directories, and returns the words of a file.
fn read_any<S: FileService>(
    alloc: Global,
    service: &mut S,
    moment: Moment,
    spec: Spec,
) -> Result<Result<Vec<Word>, AllocError>, Reply>
    ensures { HasWordsRead (λ v. v.items) result S.machine service.old service.new (export_plan moment spec) }
{
    match enter(alloc, service, operator()) {
        Ok(()) => read_words(alloc, service, moment, spec),
        Err(reply) => {
            reset(alloc, service, moment);
            Err(reply)
        }
    }
}

/// Takes a file out, by job 1, which logs in for it.
///
/// # Errors
///
/// `AllocError` if the words or the bytes found no room: the file was read all the same.
pub fn take_out<S: FileService>(
    alloc: Global,
    service: &mut S,
    file: &Export,
) -> Result<Exported, AllocError>
    ensures { HasExported S.machine service.old service.new file.now.encoding file.now.mode
        (export_plan file.now.moment (record { name = file.now.name; owner = Some file.now.owner })) result }
{
    let spec = Spec {
        name: file.name,
        owner: Some(file.owner),
    };
    match read_any(alloc, service, file.moment, spec) {
        Ok(Ok(words)) => export_words(alloc, file.encoding, file.mode, &words),
        Ok(Err(_)) => Err(AllocError),
        Err(reply) => Ok(Exported::Refused(reply)),
    }
}
