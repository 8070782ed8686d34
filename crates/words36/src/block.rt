//! The bytes of a block in an image: eight to a word.
ghost use Rattle.std.specs.Prelude.{◌≡◌, ◌+◌, ◌*◌, ◌/◌, ◌<◌, ◌≤◌, ◌^◌, ◌↔◌, ◌++◌, ℕ, List, Ok, IfOk, IfErr, IfSome};
ghost use Rattle.std.specs.Prelude.{Some, IsSome, IsTrue, IsErrOf, length, slice_index, take, drop};
ghost use Rattle.words36.specs.Common.{IsWord, IsBlock, IsFirstBadWord, block_bytes, word_bytes, number_at};

use crate::{BLOCK_WORDS, Block, Word, WordError};
use byteorder::{BigEndian, ByteOrder};
use std::simd::prelude::*;

/// The number of bytes that a block takes in an image.
pub const BLOCK_BYTES: usize = 8 * BLOCK_WORDS;

/// The number of bytes that are joined at once: those of eight words.
const LANES: usize = 64;

/// Returns the bytes of a block: eight to a word, the most significant first.
pub fn block_to_bytes(block: &Block) -> [u8; BLOCK_BYTES]
    ensures bytes { result ≡ block_bytes block.now }
    ensures words { IsBlock block.now }
{
    let mut bytes = [0; BLOCK_BYTES];
    for place in 0..BLOCK_WORDS {
        put_word(&mut bytes, 8 * place, block[place]);
    }
    bytes
}

/// Returns the block that has these bytes.
///
/// # Errors
///
/// `BadWord` with the place, counted from 0, of the first word whose top 28 bits aren't zero.
pub fn block_from_bytes(bytes: &[u8; BLOCK_BYTES]) -> Result<Block, WordError>
    ensures read { IfOk result (λ words. block_bytes words ≡ bytes.now) }
    ensures words { IfOk result IsBlock }
    ensures of_block { (words : List ℕ) → IsBlock words → block_bytes words ≡ bytes.now → result ≡ Ok words }
    ensures bad { (place : ℕ) → (IsErrOf result
        (WordError.BadWord place) ↔ IsFirstBadWord BLOCK_WORDS bytes.now place) }
    ensures refused { IfErr result (λ error. (place : ℕ) × (error ≡ WordError.BadWord place)) }
{
    match first_bad_word(bytes) {
        Some(place) => Err(WordError::BadWord(place)),
        None => Ok(block_of_words(bytes)),
    }
}

/// Returns the place, counted from 0, of the first word in an image's bytes whose top 28 bits aren't zero, or `None`
/// if there is no such word. Ignores a last word of fewer than eight bytes.
pub fn first_bad_word(bytes: &[u8]) -> Option<usize>
    ensures { (place : ℕ) → (result ≡ Some place ↔ IsFirstBadWord (length bytes.now / 8) bytes.now place) }
{
    if are_words(bytes) {
        None
    } else {
        search_bad_word(bytes)
    }
}

/// Returns the same as `first_bad_word`, and checks one word after the other.
fn search_bad_word(bytes: &[u8]) -> Option<usize>
    ensures { (place : ℕ) → (result ≡ Some place ↔ IsFirstBadWord (length bytes.now / 8) bytes.now place) }
{
    for place in 0..bytes.len() / 8 {
        if word_at(bytes, place).is_none() {
            return Some(place);
        }
    }
    None
}

/// Returns whether the top 28 bits of each word in an image's bytes are zero. Checks eight words at a time, and ignores
/// a last word of fewer than eight bytes.
fn are_words(bytes: &[u8]) -> bool
    ensures { IsTrue result ↔ ((place : ℕ) → place < length bytes.now / 8 → IsWord (number_at bytes.now place)) }
{
    let joined = joined_words(bytes);
    if search_bad_word(&joined).is_some() {
        return false;
    }
    search_bad_word(&bytes[bytes.len() / LANES * LANES..]).is_none()
}

/// Returns the bytes of eight numbers: each has the bits that are set in any number at its place in a group of eight.
/// Ignores a last group of fewer than eight.
fn joined_words(bytes: &[u8]) -> [u8; LANES]
    ensures { (place : ℕ) → place < 8 → (IsWord (number_at result place) ↔ ((group : ℕ)
        → group < length bytes.now / 64 → IsWord (number_at bytes.now (8 * group + place)))) }
{
    let mut joined = u8x64::splat(0);
    for group in 0..bytes.len() / LANES {
        joined |= u8x64::from_slice(&bytes[LANES * group..]);
    }
    joined.to_array()
}

/// Returns the block that has these bytes, which are those of words.
fn block_of_words(bytes: &[u8; BLOCK_BYTES]) -> Block
    requires { (place : ℕ) → place < 128 → IsWord (number_at bytes.now place) }
    ensures words { IsBlock result }
    ensures each { (place : ℕ) → place < 128 → slice_index result place ≡ number_at bytes.now place }
{
    let mut block = [Word::ZERO; BLOCK_WORDS];
    for place in 0..BLOCK_WORDS {
        block[place] = Word::from_bits(number_of(bytes, place));
    }
    block
}

/// Puts the eight bytes of a word at an offset in an image's bytes.
fn put_word(bytes: &mut [u8], at: usize, word: Word)
    requires { at + 8 ≤ length bytes.old }
    ensures put { bytes.new ≡ take at bytes.old ++ (word_bytes word ++ drop (at + 8) bytes.old) }
    ensures fits { IsWord word }
{
    BigEndian::write_u64(&mut bytes[at..at + 8], word.bits());
}

/// Returns the word at a place, counted from 0 in words, or `None` if the number there has more than 36 bits.
fn word_at(bytes: &[u8], place: usize) -> Option<Word>
    requires { 8 * place + 8 ≤ length bytes.now }
    ensures value { IfSome result (λ word. word ≡ number_at bytes.now place) }
    ensures fits { IsSome result ↔ (number_at bytes.now place < 2 ^ 36) }
{
    Word::new(number_of(bytes, place))
}

/// Returns the number in the eight bytes at a place, counted from 0 in words.
fn number_of(bytes: &[u8], place: usize) -> u64
    requires { 8 * place + 8 ≤ length bytes.now }
    ensures { result ≡ number_at bytes.now place }
{
    let Ok(group) = <&[u8; 8]>::try_from(&bytes[8 * place..8 * place + 8]) else {
        unreachable!() // these are eight bytes
    };
    u64::from_be_bytes(*group)
}
