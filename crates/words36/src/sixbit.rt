//! Texts of SIXBIT characters in words: six characters to a word.
ghost use Rattle.std.specs.Prelude.{◌≡◌, ◌%◌, ◌+◌, ◌<◌, ◌↔◌, IfOk, IfErr, IsOk, length, slice_index};
ghost use Rattle.words36.specs.Common.{IsSixbitText, IsSixbitCharacter, sixbit, characters, six_characters, code};

use crate::{Word, WordError};

/// Returns the word of a text of at most six characters, filled with blanks.
///
/// # Errors
///
/// `NotSixbit` if the text has more than six characters, or one outside ASCII 40 to 137 (octal): SIXBIT has no small
/// letters.
pub fn sixbit_of(text: &[u8]) -> Result<Word, WordError>
    ensures value { IfOk result (λ word. word ≡ sixbit text.now) }
    ensures reads_back { IfOk result (λ word. characters word ≡ six_characters text.now) }
    ensures accepts { IsOk result ↔ IsSixbitText text.now }
    ensures refused { IfErr result (λ error. error ≡ WordError.NotSixbit) }
{
    if text.len() > 6 {
        return Err(WordError::NotSixbit);
    }
    let mut bits = 0;
    for place in 0..6 {
        bits = bits << 6 | code_at(text, place)? as u64;
    }
    Ok(Word::from_bits(bits))
}

/// Returns the six characters of a word, blanks included.
pub fn text_of(word: Word) -> [u8; 6]
    ensures value { result ≡ characters word }
    ensures packs_back { sixbit result ≡ word }
    ensures text { IsSixbitText result }
{
    let bits = word.bits();
    [
        character_of(bits >> 30),
        character_of(bits >> 24),
        character_of(bits >> 18),
        character_of(bits >> 12),
        character_of(bits >> 6),
        character_of(bits),
    ]
}

/// Returns the character whose code is in the last six bits.
fn character_of(bits: u64) -> u8
    ensures { result ≡ bits % 64 + 32 }
{
    (bits & 0o77) as u8 + b' '
}

/// Returns the code of the character at a place of a text, or that of a blank past its end.
fn code_at(text: &[u8], place: usize) -> Result<u8, WordError>
    ensures value { IfOk result (λ bits. bits ≡ code text.now place) }
    ensures fits { IfOk result (λ bits. bits < 64) }
    ensures accepts { IsOk result ↔ (place < length text.now → IsSixbitCharacter (slice_index text.now place)) }
    ensures refused { IfErr result (λ error. error ≡ WordError.NotSixbit) }
{
    match text.get(place) {
        Some(&character) => sixbit_code(character),
        None => Ok(0),
    }
}

/// Returns the six bits of a character.
fn sixbit_code(character: u8) -> Result<u8, WordError>
    ensures value { IfOk result (λ code. code + 32 ≡ character) }
    ensures fits { IfOk result (λ code. code < 64) }
    ensures accepts { IsOk result ↔ IsSixbitCharacter character }
    ensures refused { IfErr result (λ error. error ≡ WordError.NotSixbit) }
{
    match character {
        b' '..=b'_' => Ok(character - b' '),
        _ => Err(WordError::NotSixbit),
    }
}
