//! The bytes of a block in a packed image: nine to two words.
ghost use Rattle.std.specs.Prelude.{◌≡◌, ◌+◌, ◌*◌, ◌/◌, ◌%◌, ◌<◌, ◌≤◌, ◌^◌, ◌++◌, length, take, drop};
ghost use Rattle.byteorder.specs.Endian.{big_bytes, big_number};
ghost use Rattle.words36.specs.Common.{IsWord, IsBlock, nine_bytes, nine_words};

use crate::{BLOCK_WORDS, Block, Word};
use byteorder::{BigEndian, ByteOrder};

/// The number of bytes that a block takes in a packed image: nine to two words.
pub const PACKED_BYTES: usize = 9 * BLOCK_WORDS / 2;

/// Returns the packed bytes of a block: nine to two words, the first word's bits first, the most significant bit
/// first.
pub fn block_to_nine(block: &Block) -> [u8; PACKED_BYTES]
    ensures bytes { result ≡ nine_bytes block.now }
    ensures words { IsBlock block.now }
    ensures reads_back { nine_words result ≡ block.now }
{
    let mut bytes = [0; PACKED_BYTES];
    for pair in 0..BLOCK_WORDS / 2 {
        put_pair(&mut bytes, 9 * pair, block[2 * pair], block[2 * pair + 1]);
    }
    bytes
}

/// Returns the block that has these packed bytes. Any bytes of this length are a block's.
pub fn block_from_nine(bytes: &[u8; PACKED_BYTES]) -> Block
    ensures value { result ≡ nine_words bytes.now }
    ensures words { IsBlock result }
    ensures packs_back { nine_bytes result ≡ bytes.now }
{
    let mut block = [Word::ZERO; BLOCK_WORDS];
    for pair in 0..BLOCK_WORDS / 2 {
        let (first, second) = pair_at(bytes, pair);
        block[2 * pair] = first;
        block[2 * pair + 1] = second;
    }
    block
}

/// Puts the nine bytes of two words at an offset in a packed image's bytes.
fn put_pair(bytes: &mut [u8], at: usize, first: Word, second: Word)
    requires { at + 9 ≤ length bytes.old }
    ensures put { bytes.new
        ≡ take at bytes.old ++ (big_bytes 9 (first * 2 ^ 36 + second) ++ drop (at + 9) bytes.old) }
    ensures fit { IsWord first × IsWord second }
{
    let number = u128::from(first.bits()) << 36 | u128::from(second.bits());
    BigEndian::write_uint128(&mut bytes[at..at + 9], number, 9);
}

/// Returns the two words at the place of a pair, counted from 0 in pairs.
fn pair_at(bytes: &[u8; PACKED_BYTES], pair: usize) -> (Word, Word)
    requires { pair < 64 }
    ensures first { result.0 ≡ big_number 9 (drop (9 * pair) bytes.now) / 2 ^ 36 }
    ensures second { result.1 ≡ big_number 9 (drop (9 * pair) bytes.now) % 2 ^ 36 }
{
    let number = BigEndian::read_uint128(&bytes[9 * pair..9 * pair + 9], 9);
    let first = Word::from_bits((number >> 36) as u64);
    let second = Word::from_bits((number & 0o777_777_777_777) as u64);
    (first, second)
}
