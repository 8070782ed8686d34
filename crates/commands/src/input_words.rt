//! The words that the bytes of an input spell, and the bytes that can't be a file.
ghost use Rattle.std.specs.Prelude.{◌≡◌, ◌<◌, ◌↔◌, ◌⊎◌, ◌*◌, ◌+◌, ◌≤◌, ◌^◌, ◌++◌, ℕ, List, IfOk, IfErr, IfSome};
ghost use Rattle.std.specs.Prelude.{IsSome, length, take, IfNone, IsTrue, OnErr};
ghost use Rattle.std.specs.Io.{ReadsAtMost};
ghost use Rattle.std.specs.Io.KnownBytes.{Consumes, IsAtEnd, Keeps};
ghost use Rattle.words36.specs.Common.{number_at};
ghost use Rattle.spec_language.specs.Common.{is_character, unfit, Are};
ghost use Rattle.spec_language.specs.declared.encoding.Encoding.TheVariants.{Characters, Words, Octets};
ghost use Rattle.commands.specs.Common.{HasWords, IsMisfit, BeginsNoFile, IsTooLong, most_bytes};
ghost use Rattle.commands.specs.declared.error.SessionError.TheVariants.{Read as ReadFault, NoMemory};

use crate::{Misfit, SessionError};
use spec_image::layout::MOST_WORDS;
use spec_language::Encoding;
use std::alloc::{AllocError, Global};
use std::io::{ErrorKind, Read};
use words36::{Word, pack_ascii, pack_octets};

/// The number of bytes that a word takes.
const WORD_BYTES: usize = 8;

/// The number of characters in a word.
const WORD_CHARACTERS: usize = 5;

/// The number of bytes of eight bits in a word.
const WORD_OCTETS: usize = 4;

/// The number of bytes that are read at once.
const PIECE_BYTES: usize = 4096;

/// Returns the most bytes that a file can hold.
pub fn most_bytes(encoding: Encoding) -> usize
    ensures { result ≡ most_bytes encoding }
{
    match encoding {
        Encoding::Characters => WORD_CHARACTERS * MOST_WORDS as usize,
        Encoding::Words => WORD_BYTES * MOST_WORDS as usize,
        Encoding::Octets => WORD_OCTETS * MOST_WORDS as usize,
    }
}

/// Reads a piece of an input, and tries again if a signal interrupted it.
fn read_piece<R: Read>(reader: &mut R, piece: &mut [u8]) -> Result<usize, SessionError>
    ensures bound { ReadsAtMost result piece.new }
    ensures ok { IfOk result (λ n. Consumes (R.remaining reader.old) (R.remaining reader.new) (take n piece.new)) }
    ensures end { IfOk result (λ n. n ≡ 0 → 0 < length piece.old → IsAtEnd (R.remaining reader.new)) }
    ensures kept { OnErr result (Keeps (R.remaining reader.old) (R.remaining reader.new)) }
    ensures err { IfErr result (λ error. error ≡ ReadFault) }
{
    for _ in 0..u64::MAX {
        match reader.read(piece) {
            Ok(count) => return Ok(count),
            Err(error) => {
                if error.kind() != ErrorKind::Interrupted {
                    return Err(SessionError::Read);
                }
            }
        }
    }
    Err(SessionError::Read)
}

/// Returns whether it is certain that no input with this piece can be a file, wherever the piece begins.
fn is_hopeless(encoding: Encoding, piece: &[u8]) -> bool
    ensures { IsTrue result → (before : List ℕ) → BeginsNoFile encoding (before ++ piece.now) }
{
    match encoding {
        Encoding::Characters => first_misfit(piece).is_some(),
        Encoding::Words | Encoding::Octets => false,
    }
}

/// Reads an input to its end. Stops early at a piece with which no input can be a file, and at more bytes than a file
/// can hold.
///
/// # Errors
///
/// `Read` if the reader failed, `NoMemory` if its bytes found no room.
pub fn read_input<R: Read>(
    alloc: Global,
    encoding: Encoding,
    reader: &mut R,
) -> Result<Vec<u8>, SessionError>
    ensures ok { IfOk result (λ bytes. Consumes (R.remaining reader.old) (R.remaining reader.new) bytes.items) }
    ensures end { IfOk result (λ bytes. IsAtEnd (R.remaining reader.new) ⊎ IsTooLong encoding bytes.items
        ⊎ BeginsNoFile encoding bytes.items) }
    ensures bound { IfOk result (λ bytes. length bytes.items ≤ most_bytes encoding + 4096) }
    ensures err { IfErr result (λ error. (error ≡ ReadFault) ⊎ (error ≡ NoMemory)) }
    ensures taken { (read : List ℕ) × Consumes (R.remaining reader.old) (R.remaining reader.new) read }
{
    let most = most_bytes(encoding);
    let mut bytes = Vec::new(alloc);
    let mut piece = [0; PIECE_BYTES];
    while bytes.len() <= most {
        let count = read_piece(reader, &mut piece)?;
        if count == 0 {
            return Ok(bytes);
        }
        let Ok(()) = bytes.extend_from_slice(&piece[..count]) else {
            return Err(SessionError::NoMemory);
        };
        if is_hopeless(encoding, &piece[..count]) {
            return Ok(bytes);
        }
    }
    Ok(bytes)
}

/// Returns whether a byte is a character that a file can have: ASCII, and not a null.
fn is_character(byte: u8) -> bool
    ensures { result ≡ is_character byte }
{
    1 <= byte && byte <= 127
}

/// Finds the first byte that isn't such a character.
fn first_misfit(bytes: &[u8]) -> Option<Misfit>
    ensures some { IfSome result (IsMisfit Characters bytes.now) }
    ensures none { IfNone result (Are is_character bytes.now) }
    ensures refused { IsSome result → Are is_character bytes.now → ⊥ }
{
    for (i, byte) in bytes.iter().enumerate() {
        if !is_character(*byte) {
            return Some(Misfit::Byte(*byte, i + 1));
        }
    }
    None
}

/// Returns the encoding of bytes if none is given: characters if all of them are, else bytes of eight bits.
pub fn encoding_of(bytes: &[u8]) -> Encoding
    ensures characters { (result ≡ Characters) ↔ Are is_character bytes.now }
    ensures octets { (result ≡ Characters → ⊥) → result ≡ Octets }
{
    match first_misfit(bytes) {
        None => Encoding::Characters,
        Some(_) => Encoding::Octets,
    }
}

/// Returns the words of these characters.
fn words_of_characters(alloc: Global, bytes: &[u8]) -> Result<Result<Vec<Word>, Misfit>, AllocError>
    ensures { IfOk result (HasWords (λ v. v.items) Characters bytes.now) }
{
    if let Some(misfit) = first_misfit(bytes) {
        return Ok(Err(misfit));
    }
    match pack_ascii(alloc, bytes) {
        Ok(words) => Ok(Ok(words)),
        Err(_) => Err(AllocError), // no byte is above 127
    }
}

/// Returns the word in the eight bytes at a word's place, counted from 0, if they are one.
fn word_at(bytes: &[u8], place: usize) -> Option<Word>
    requires { 8 * place + 8 ≤ length bytes.now }
    ensures value { IfSome result (λ word. word ≡ number_at bytes.now place) }
    ensures fits { IsSome result ↔ (number_at bytes.now place < 2 ^ 36) }
{
    let mut group = [0; WORD_BYTES];
    group.copy_from_slice(&bytes[WORD_BYTES * place..WORD_BYTES * place + WORD_BYTES]);
    Word::new(u64::from_be_bytes(group))
}

/// Returns the words that these bytes spell, eight bytes for each.
fn words_of_bytes(alloc: Global, bytes: &[u8]) -> Result<Result<Vec<Word>, Misfit>, AllocError>
    ensures { IfOk result (HasWords (λ v. v.items) Words bytes.now) }
{
    if bytes.len() % WORD_BYTES != 0 {
        return Ok(Err(Misfit::Length(bytes.len())));
    }
    let mut words = Vec::new(alloc);
    for place in 0..bytes.len() / WORD_BYTES {
        let Some(word) = word_at(bytes, place) else {
            return Ok(Err(Misfit::Word(place + 1)));
        };
        words.push(word)?;
    }
    Ok(Ok(words))
}

/// Returns the words of these bytes of eight bits, which any bytes have.
fn words_of_octets(alloc: Global, bytes: &[u8]) -> Result<Result<Vec<Word>, Misfit>, AllocError>
    ensures { IfOk result (HasWords (λ v. v.items) Octets bytes.now) }
{
    let words = pack_octets(alloc, bytes)?;
    Ok(Ok(words))
}

/// Returns the words that a file gets of these bytes, or why they can't be a file.
pub fn words_of(
    alloc: Global,
    encoding: Encoding,
    bytes: &[u8],
) -> Result<Result<Vec<Word>, Misfit>, AllocError>
    ensures { IfOk result (HasWords (λ v. v.items) encoding bytes.now) }
{
    match encoding {
        Encoding::Characters => words_of_characters(alloc, bytes),
        Encoding::Words => words_of_bytes(alloc, bytes),
        Encoding::Octets => words_of_octets(alloc, bytes),
    }
}

/// Returns the text of the refusal of bytes that can't be a file.
pub fn unfit(encoding: Encoding) -> &'static str
    ensures { result.now ≡ unfit encoding }
{
    match encoding {
        Encoding::Characters => "?Not ASCII",
        Encoding::Words => "?Bad words",
        Encoding::Octets => "?Bad bytes",
    }
}
