//! Lists of words, with a bit for each block of a disk: bit 0 is the most significant of the first word.
ghost use Rattle.std.specs.Prelude.{◌≡◌, ◌<◌, ◌-◌, ◌/◌, ℕ, length};
ghost use Rattle.std.specs.Int.{bit_at};
ghost use Rattle.alloctab.specs.Common.{digit, word_bit, PutsBit};

use spec_image::layout::WORD_BITS;
use words36::Word;

/// Returns whether bit `n` is set.
pub fn has_bit(words: &[Word], n: usize) -> bool
    requires { n / WORD_BITS < length words.now }
    ensures { digit result ≡ word_bit words.now n }
{
    (words[n / WORD_BITS].bits() >> (WORD_BITS - 1 - n % WORD_BITS)) % 2 == 1
}

/// Sets or clears bit `n`, whatever it was before.
pub fn put_bit(words: &mut Vec<Word>, n: usize, is_set: bool)
    requires { n / WORD_BITS < length words.old.items }
    ensures { PutsBit n is_set words.old.items words.new.items }
{
    let place = n / WORD_BITS;
    words[place] = with_bit(words[place], n % WORD_BITS, is_set);
}

/// Returns a word with this bit at a place, where 0 is the place of the most significant.
fn with_bit(word: Word, place: usize, is_set: bool) -> Word
    requires { place < WORD_BITS }
    ensures same { bit_at result (35 - place) ≡ digit is_set }
    ensures others { (p : ℕ) → p < 36 → (p ≡ place → ⊥) → bit_at result (35 - p) ≡ bit_at word (35 - p) }
{
    let mask = 1 << (WORD_BITS - 1 - place);
    if is_set {
        Word::from_bits(word.bits() | mask)
    } else {
        Word::from_bits(word.bits() & !mask)
    }
}
