//! Words and blocks that are made of numbers, and the owner and the name of the file of V1.
use words36::{BLOCK_WORDS, Block, FileName, Half, Ppn, Word};

/// FOO in SIXBIT.
pub const FOO: u64 = 0o465757000000;

/// BAR in SIXBIT.
pub const BAR: u64 = 0o424162000000;

/// Returns the word of this number, or zero if the number has more than 36 bits.
pub fn word(number: u64) -> Word {
    Word::new(number).unwrap_or(Word::ZERO)
}

/// Returns a block that begins with these words, and is zero after them.
pub fn beginning(words: &[u64]) -> Block {
    let mut block = [Word::ZERO; BLOCK_WORDS];
    for (place, &number) in block.iter_mut().zip(words) {
        *place = word(number);
    }
    block
}

/// Returns a block whose words are all this number.
pub fn filled(number: u64) -> Block {
    [word(number); BLOCK_WORDS]
}

/// Returns the PPN [10,20].
pub fn owner() -> Ppn {
    Ppn::new(0o10, 0o20).unwrap()
}

/// Returns the name FOO.TXT.
pub fn foo() -> FileName {
    FileName {
        name: Word::from_bits(FOO),
        ext: Half::from_bits(0o647064),
    }
}
