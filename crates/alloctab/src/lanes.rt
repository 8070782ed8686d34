//! The search for a bit that is clear in two lists of words, eight words at a time.
ghost use Rattle.std.specs.Prelude.{◌≡◌, ◌<◌, ◌≤◌, ◌+◌, ◌*◌, ◌^◌, ℕ, length, slice_index};
ghost use Rattle.spec_image.specs.Common.{sum_below};
ghost use Rattle.alloctab.specs.Common.{first_clear, count_clear, clear_bit, clear_word, clear_at, IsFirstPlace};

use spec_image::layout::WORD_BITS;
use std::simd::prelude::*;
use words36::Word;

/// The number of words that are checked at once.
const LANES: usize = 8;

/// The number of a word whose bits are all set.
const FULL: u64 = (1 << WORD_BITS) - 1;

/// Returns the lowest bit that is clear in both lists, if there is one. Bit 0 is the most significant of the first
/// word.
pub fn first_clear(set: &[Word], held: &[Word]) -> Option<usize>
    requires same { length set.now ≡ length held.now }
    requires fits { 36 * length set.now < 2 ^ 64 }
    ensures { result ≡ first_clear set.now held.now }
{
    let place = full_words(set, held);
    if place == set.len() {
        return None;
    }
    Some(place * WORD_BITS + first_in_word(set[place], held[place]))
}

/// Returns how many bits are clear in both lists.
pub fn count_clear(set: &[Word], held: &[Word]) -> usize
    requires same { length set.now ≡ length held.now }
    requires fits { 36 * length set.now < 2 ^ 64 }
    ensures { result ≡ count_clear set.now held.now }
{
    let mut count = 0;
    for chunk in 0..set.len() / LANES {
        count += count_in_lanes(set, held, chunk * LANES);
    }
    count + count_in_rest(set, held, set.len() / LANES * LANES)
}

/// Returns how many words come before the first with a bit that is clear in both lists.
fn full_words(set: &[Word], held: &[Word]) -> usize
    requires { length set.now ≡ length held.now }
    ensures within { result ≤ length set.now }
    ensures full { (w : ℕ) → w < result → clear_at set.now held.now w ≡ 0 }
    ensures stop { result < length set.now → clear_at set.now held.now result ≡ 0 → ⊥ }
{
    for chunk in 0..set.len() / LANES {
        let full = full_lanes(set, held, chunk * LANES);
        if full < LANES {
            return chunk * LANES + full;
        }
    }
    full_in_rest(set, held, set.len() / LANES * LANES)
}

/// Returns the place of the first word from `from` with a bit that is clear in both lists, or how many words there
/// are.
fn full_in_rest(set: &[Word], held: &[Word], from: usize) -> usize
    requires same { length set.now ≡ length held.now }
    requires inside { from ≤ length set.now }
    ensures within { (from ≤ result) × (result ≤ length set.now) }
    ensures full { (w : ℕ) → from ≤ w → w < result → clear_at set.now held.now w ≡ 0 }
    ensures stop { result < length set.now → clear_at set.now held.now result ≡ 0 → ⊥ }
{
    for place in from..set.len() {
        if clear_bits(set[place], held[place]) != 0 {
            return place;
        }
    }
    set.len()
}

/// Returns how many bits of the words from `from` are clear in both lists.
fn count_in_rest(set: &[Word], held: &[Word], from: usize) -> usize
    requires same { length set.now ≡ length held.now }
    requires inside { from ≤ length set.now }
    requires fits { 36 * length set.now < 2 ^ 64 }
    ensures { sum_below (clear_bit set.now held.now) (36 * from) + result ≡ count_clear set.now held.now }
{
    let mut count = 0;
    for place in from..set.len() {
        count += clear_bits(set[place], held[place]).count_ones() as usize;
    }
    count
}

/// Returns how many of the eight words from `from` come before the first with a bit that is clear in both lists.
fn full_lanes(set: &[Word], held: &[Word], from: usize) -> usize
    requires set_inside { from + LANES ≤ length set.now }
    requires held_inside { from + LANES ≤ length held.now }
    ensures few { result ≤ 8 }
    ensures full { (k : ℕ) → k < result → clear_at set.now held.now (from + k) ≡ 0 }
    ensures stop { result < 8 → clear_at set.now held.now (from + result) ≡ 0 → ⊥ }
{
    let marks = clear_lanes(set, held, from)
        .simd_ne(u64x8::splat(0))
        .to_bitmask();
    if marks == 0 {
        LANES
    } else {
        marks.trailing_zeros() as usize
    }
}

/// Returns how many bits of the eight words from `from` are clear in both lists.
fn count_in_lanes(set: &[Word], held: &[Word], from: usize) -> usize
    requires set_inside { from + LANES ≤ length set.now }
    requires held_inside { from + LANES ≤ length held.now }
    ensures count { sum_below (clear_bit set.now held.now) (36 * from) + result
        ≡ sum_below (clear_bit set.now held.now) (36 * (from + 8)) }
    ensures few { result ≤ 288 }
{
    clear_lanes(set, held, from).count_ones().reduce_sum() as usize
}

/// Returns the bits that are clear in both lists, of the eight words from `from`: a lane for each word.
fn clear_lanes(set: &[Word], held: &[Word], from: usize) -> u64x8
    requires set_inside { from + LANES ≤ length set.now }
    requires held_inside { from + LANES ≤ length held.now }
    ensures eight { length result ≡ 8 }
    ensures each { (k : ℕ) → k < 8 → slice_index result k ≡ clear_at set.now held.now (from + k) }
    ensures fits { (k : ℕ) → k < 8 → slice_index result k < 2 ^ 36 }
{
    u64x8::splat(FULL) ^ (lanes(set, from) | lanes(held, from))
}

/// Returns the eight words from `from`: a lane for each.
fn lanes(words: &[Word], from: usize) -> u64x8
    requires { from + LANES ≤ length words.now }
    ensures eight { length result ≡ 8 }
    ensures each { (k : ℕ) → k < 8 → slice_index result k ≡ slice_index words.now (from + k) }
    ensures fits { (k : ℕ) → k < 8 → slice_index result k < 2 ^ 36 }
{
    u64x8::from_array([
        words[from].bits(),
        words[from + 1].bits(),
        words[from + 2].bits(),
        words[from + 3].bits(),
        words[from + 4].bits(),
        words[from + 5].bits(),
        words[from + 6].bits(),
        words[from + 7].bits(),
    ])
}

/// Returns the bits that are clear in both words.
fn clear_bits(set: Word, held: Word) -> u64
    ensures value { result ≡ clear_word set held }
    ensures fits { result < 2 ^ 36 }
{
    FULL ^ (set.bits() | held.bits())
}

/// Returns the place of the first bit that is clear in both words, which have one: 0 is that of the most significant.
fn first_in_word(set: Word, held: Word) -> usize
    requires { clear_word set held ≡ 0 → ⊥ }
    ensures { IsFirstPlace set held result }
{
    clear_bits(set, held).leading_zeros() as usize - (u64::BITS as usize - WORD_BITS)
}
