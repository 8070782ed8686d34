//! Bytes of eight bits (octets) in words: four to a word, with a count in the last one.
ghost use Rattle.std.specs.Prelude.{◌%◌, ◌==◌, ◌&&◌, ◌∷◌, ◌++◌, [], OnErr, ◌≡◌, ◌<◌, ◌≤◌, ◌^◌, ℕ, List, true};
ghost use Rattle.std.specs.Prelude.{Some, None, IfOk, IfSome, IfNone, length, slice_index};
ghost use Rattle.words36.specs.Common.{octets_packed, octets_unpacked, octet_word, four_octets, AreOctets};
ghost use Rattle.words36.specs.Common.{CountsOctets, OctetsAreOne, OctetsAreFound, FoundOctetsAreRight, HasRead};

use crate::Word;
use std::alloc::{AllocError, Global};

/// Packs bytes into words, four to a word from the left. The low four bits of the last word hold how many of its
/// bytes count, 1 to 4; bytes that don't count, and the low four bits of all other words, are 0.
///
/// # Errors
///
/// `AllocError` if there is no room for the words.
pub fn pack_octets(alloc: Global, bytes: &[u8]) -> Result<Vec<Word>, AllocError>
    ensures { IfOk result (λ words. words.items ≡ octets_packed bytes.now) }
{
    let mut words = Vec::with_capacity(alloc, bytes.len().div_ceil(4))?;
    let mut rest = bytes;
    while !rest.is_empty() {
        let (group, after) = rest.split_at(rest.len().min(4));
        words.push(word_of(group, mark_of(group, after)))?;
        rest = after;
    }
    Ok(words)
}

/// Returns the bytes whose words these are, or `None` if no bytes have such words.
///
/// # Errors
///
/// `AllocError` if there is no room for the bytes.
pub fn unpack_octets(alloc: Global, words: &[Word]) -> Result<Option<Vec<u8>>, AllocError>
    ensures bytes { IfOk result (λ read. IfSome read (λ bytes. AreOctets words.now bytes.items)) }
    ensures refused { IfOk result (λ read. IfNone read ((bytes : List ℕ) → AreOctets words.now bytes → ⊥)) }
{
    let mut reader = OctetReader::new(alloc);
    for word in words {
        reader.push(*word);
    }
    reader.finish()
}

/// A reader that finds the bytes of words that come one after the other.
#[derive(Drop)]
pub struct OctetReader {
    /// The bytes of all words before the last.
    bytes: Vec<u8>,
    last: Option<Word>,
    /// Whether the low four bits of all words before the last are 0.
    is_full: bool,
    /// Whether there was memory for all bytes. If not, the reader still knows whether bytes have these words.
    is_whole: bool,
}

impl OctetReader {
    /// Returns a reader before its first word.
    pub fn new(alloc: Global) -> OctetReader
        ensures { HasRead result [] }
    {
        OctetReader {
            bytes: Vec::new(alloc),
            last: None,
            is_full: true,
            is_whole: true,
        }
    }

    /// Takes the next word.
    pub fn push(&mut self, word: Word)
        ensures { (words : List ℕ) → HasRead self.old words → HasRead self.new (words ++ word ∷ []) }
    {
        match self.last {
            Some(last) => self.put(last, word),
            None => self.begin(word),
        }
    }

    /// Takes the first word.
    fn begin(&mut self, word: Word)
        ensures last { self.new.last ≡ Some word }
        ensures full { self.new.is_full ≡ self.old.is_full }
        ensures whole { self.new.is_whole ≡ self.old.is_whole }
        ensures bytes { self.new.bytes.items ≡ self.old.bytes.items }
        ensures fits { word < 2 ^ 36 }
    {
        let _bits = word.bits();
        self.last = Some(word);
    }

    /// Takes a word that follows the last one.
    fn put(&mut self, last: Word, word: Word)
        ensures last { self.new.last ≡ Some word }
        ensures full { self.new.is_full ≡ self.old.is_full && last % 16 == 0 }
        ensures whole { self.new.is_whole ≡ true → self.old.is_whole ≡ true }
        ensures bytes { self.new.is_whole ≡ true → self.new.bytes.items ≡ self.old.bytes.items ++ four_octets last }
        ensures fits { word < 2 ^ 36 }
    {
        let _bits = word.bits();
        let pushed = self.bytes.extend_from_slice(&octets_of(last)).is_ok();
        self.is_whole = self.is_whole && pushed;
        self.is_full = self.is_full && last.bits() & 0o17 == 0;
        self.last = Some(word);
    }

    /// Returns how many bytes of the last word count, or `None` if no bytes have these words.
    fn count(&self) -> Option<usize>
        ensures some { IfSome result (λ count. (w : ℕ) → self.now.last ≡ Some w
            → (self.now.is_full ≡ true) × CountsOctets w count) }
        ensures none { IfNone result ((w : ℕ) × (self.now.last ≡ Some w)
            × ((self.now.is_full ≡ true) → (count : ℕ) → CountsOctets w count → ⊥)) }
        ensures empty { IfSome result (λ count. self.now.last ≡ None → count ≡ 0) }
        ensures most { IfSome result (λ count. count ≤ 4) }
    {
        match self.last {
            Some(last) if self.is_full => last_count(last),
            Some(_) => None,
            None => Some(0),
        }
    }

    /// Returns the bytes whose words these are, or `None` if no bytes have such words.
    ///
    /// # Errors
    ///
    /// `AllocError` if there is no room for these bytes.
    pub fn finish(self) -> Result<Option<Vec<u8>>, AllocError>
        ensures found { (words : List ℕ) → HasRead self words
            → IfOk result (λ read. IfSome read (λ bytes. octets_unpacked words ≡ Some bytes.items)) }
        ensures none { (words : List ℕ) → HasRead self words
            → IfOk result (λ read. IfNone read (octets_unpacked words ≡ None)) }
        ensures no_room { (words : List ℕ) → HasRead self words
            → OnErr result ((bytes : List ℕ) × (octets_unpacked words ≡ Some bytes)) }
    {
        let Some(count) = self.count() else {
            return Ok(None);
        };
        if !self.is_whole {
            return Err(AllocError);
        }
        let mut bytes = self.bytes;
        bytes.extend_from_slice(&octets_of(self.last.unwrap_or(Word::ZERO))[..count])?;
        Ok(Some(bytes))
    }
}

/// Proves that bytes that have the same words are the same, and that they are found in these words.
pub fn octets_are_exact()
    ensures one { OctetsAreOne }
    ensures found { OctetsAreFound }
    ensures right { FoundOctetsAreRight }
{}

/// Returns the low four bits of the word of a group of bytes: their number if no bytes follow, and 0 otherwise.
fn mark_of(group: &[u8], after: &[u8]) -> u64
    ensures last { length after.now ≡ 0 → result ≡ length group.now }
    ensures others { 0 < length after.now → result ≡ 0 }
{
    if after.is_empty() {
        group.len() as u64
    } else {
        0
    }
}

/// Returns the word of up to four bytes and the low four bits.
fn word_of(group: &[u8], low: u64) -> Word
    requires { low < 16 }
    ensures { result ≡ octet_word (slice_index group.now 0) (slice_index group.now 1) (slice_index group.now 2)
        (slice_index group.now 3) low }
{
    let octets = u32::from_be_bytes([
        octet_at(group, 0),
        octet_at(group, 1),
        octet_at(group, 2),
        octet_at(group, 3),
    ]);
    Word::from_bits(u64::from(octets) << 4 | low)
}

/// Returns the byte at a place, or 0 past the end.
fn octet_at(group: &[u8], place: usize) -> u8
    ensures value { result ≡ slice_index group.now place }
    ensures fits { result < 256 }
{
    group.get(place).copied().unwrap_or(0)
}

/// Returns how many bytes of the last word count, or `None` if no count fits the word.
fn last_count(word: Word) -> Option<usize>
    ensures count { IfSome result (CountsOctets word) }
    ensures refused { IfNone result ((count : ℕ) → CountsOctets word count → ⊥) }
    ensures most { IfSome result (λ count. count ≤ 4) }
{
    let count = word.bits() & 0o17;
    let octets = word.bits() >> 4;
    let unused = match count {
        1 => octets & 0xff_ffff,
        2 => octets & 0xffff,
        3 => octets & 0xff,
        4 => 0,
        _ => return None,
    };
    if unused != 0 {
        return None;
    }
    Some(count as usize)
}

/// Returns the four bytes of a word.
fn octets_of(word: Word) -> [u8; 4]
    ensures value { result ≡ four_octets word }
    ensures fits { word < 2 ^ 36 }
{
    let bits = word.bits();
    [
        (bits >> 28 & 0xff) as u8,
        (bits >> 20 & 0xff) as u8,
        (bits >> 12 & 0xff) as u8,
        (bits >> 4 & 0xff) as u8,
    ]
}
