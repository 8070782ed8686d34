//! Texts of ASCII characters in words: five characters to a word.
ghost use Rattle.std.specs.Prelude.{◌≡◌, ◌%◌, ◌≤◌, ◌<◌, ◌^◌, ◌⊎◌, ◌↔◌, IfOk, IfErr, OnOk, IsErrOf, All, Any, length};
ghost use Rattle.std.specs.Prelude.{map};
ghost use Rattle.words36.specs.Common.{ascii_word_of, five_characters, packed, unpacked, null_padded};
ghost use Rattle.words36.specs.Common.{without_last_bit};

use crate::{Word, WordError};
use std::alloc::Global;

/// Packs a text into words, five characters to a word, the last one filled with nulls.
///
/// # Errors
///
/// `NotAscii` if a byte is above 127, `NoMemory` if there is no room for the words.
pub fn pack_ascii(alloc: Global, text: &[u8]) -> Result<Vec<Word>, WordError>
    ensures value { IfOk result (λ words. words.items ≡ packed text.now) }
    ensures reads_back { IfOk result (λ words. unpacked words.items ≡ null_padded text.now) }
    ensures ascii { OnOk result (All (λ c. c ≤ 127) text.now) }
    ensures not_ascii { IsErrOf result WordError.NotAscii ↔ Any (λ c. 127 < c) text.now }
    ensures refused { IfErr result (λ error. (error ≡ WordError.NotAscii) ⊎ (error ≡ WordError.NoMemory)) }
{
    if text.iter().any(|&byte| byte > 127) {
        return Err(WordError::NotAscii);
    }
    let Ok(mut words) = Vec::with_capacity(alloc, text.len().div_ceil(5)) else {
        return Err(WordError::NoMemory);
    };
    let mut rest = text;
    while !rest.is_empty() {
        let (group, after) = rest.split_at(rest.len().min(5));
        if words.push(word_of(group)).is_err() {
            return Err(WordError::NoMemory);
        }
        rest = after;
    }
    Ok(words)
}

/// Returns the characters of words, five from each, nulls included.
///
/// # Errors
///
/// `NoMemory` if there is no room for the text.
pub fn unpack_ascii(alloc: Global, words: &[Word]) -> Result<Vec<u8>, WordError>
    ensures value { IfOk result (λ text. text.items ≡ unpacked words.now) }
    ensures packs_back { IfOk result (λ text. packed text.items ≡ map without_last_bit words.now) }
    ensures refused { IfErr result (λ error. error ≡ WordError.NoMemory) }
{
    let mut text = Vec::new(alloc);
    for word in words {
        if text.extend_from_slice(&characters_of(*word)).is_err() {
            return Err(WordError::NoMemory);
        }
    }
    Ok(text)
}

/// Returns the word of up to five characters.
fn word_of(group: &[u8]) -> Word
    requires short { length group.now ≤ 5 }
    requires ascii { All (λ c. c ≤ 127) group.now }
    ensures { ascii_word_of group.now ≡ result }
{
    let mut bits = 0;
    for place in 0..5 {
        let character = group.get(place).copied().unwrap_or(0);
        bits = bits << 7 | character as u64;
    }
    Word::from_bits(bits << 1)
}

/// Returns the five characters of a word.
fn characters_of(word: Word) -> [u8; 5]
    ensures value { result ≡ five_characters word }
    // A slice of words doesn't by itself imply that each has 36 bits.
    ensures fits { word < 2 ^ 36 }
{
    let bits = word.bits();
    [
        character_of(bits >> 29),
        character_of(bits >> 22),
        character_of(bits >> 15),
        character_of(bits >> 8),
        character_of(bits >> 1),
    ]
}

/// Returns the character in the last seven bits.
fn character_of(bits: u64) -> u8
    ensures { result ≡ bits % 128 }
{
    (bits & 0o177) as u8
}
