//! The words of a prime block and of its pointers.
ghost use Rattle.std.specs.Prelude.{◌≡◌, ◌-◌, ◌<◌, ◌≤◌, ◌^◌, ◌++◌, map, length, take, drop, replicate};
ghost use Rattle.std.specs.List.{AllByRecursion};
ghost use Rattle.spec_image.specs.Common.{head_or_zero, IsRun, pointer, prime_block, most_blocks};
ghost use Rattle.retrieval.specs.Common.{prime_front, pair_of, pairs_of, longest_runs, with_length, IsRewritten};

use crate::head::{PRIME_WORD, attributes_word, extension_word};
use crate::run::Run;
use crate::{Prime, Version};
use spec_image::layout::{PRIME_HEAD, PRIME_POINTERS};
use words36::{BLOCK_WORDS, Block, Half, Word};

/// Returns the pointer to a run: how many blocks, and the first of them.
pub fn pointer_to(run: Run) -> Word
    requires { IsRun (pair_of run) }
    ensures { result ≡ pointer (pair_of run) }
{
    Word::from_halves(
        Half::from_bits(run.count() as u32),
        Half::from_bits(run.first),
    )
}

/// Puts pointers to runs after the first words of a prime block.
fn put_pointers(words: &mut Block, runs: &[Run])
    requires few { length runs.now ≤ 112 }
    requires fit { AllByRecursion IsRun (pairs_of runs.now) }
    requires clear { drop 16 words.old ≡ replicate 112 0 }
    ensures { words.new ≡ take 16 words.old
        ++ (map pointer (pairs_of runs.now) ++ replicate (112 - length runs.now) 0) }
{
    for (i, run) in runs.iter().enumerate() {
        words[PRIME_HEAD + i] = pointer_to(*run);
    }
}

/// Returns a prime block for `count` pointers, which are not put in yet.
fn without_pointers(prime: &Prime, version: &Version, count: usize) -> Block
    requires { count ≤ 112 }
    ensures { result ≡ prime_front (with_length prime.now version.now.words) count (head_or_zero version.now.ribs)
        ++ replicate 112 0 }
{
    let mut words = [Word::ZERO; BLOCK_WORDS];
    words[0] = Word::from_bits(PRIME_WORD);
    words[1] = prime.file.name;
    words[2] = extension_word(prime);
    words[3] = attributes_word(prime);
    words[4] = prime.ppn.word();
    words[5] = Word::from_bits(u64::from(version.length()));
    words[6] = Word::from_bits(count as u64);
    words[7] = Word::from_bits(u64::from(first_of(version.ribs())));
    words
}

/// Returns the words of the prime block of a version: a pointer to each of the longest runs of its data blocks, as far
/// as there is room, and the first of the ribs, or 0.
pub fn prime_block(prime: &Prime, version: &Version) -> Block
    requires fit { AllByRecursion (λ n. n < 2 ^ 18) version.now.blocks }
    requires few { length version.now.blocks ≤ most_blocks }
    ensures { result ≡ prime_block (with_length prime.now version.now.words)
        (take 112 (longest_runs version.now.blocks))
        (head_or_zero version.now.ribs) }
{
    let runs = version.runs();
    let count = runs.len().min(PRIME_POINTERS);
    let mut words = without_pointers(prime, version, count);
    put_pointers(&mut words, &runs[..count]);
    words
}

/// Returns the words of a prime block, rewritten for another prime: what that one says is new, the length and where the
/// data lie stay.
pub fn prime_block_for(words: &Block, prime: &Prime) -> Block
    ensures { IsRewritten words.now result prime.now }
{
    let mut anew = *words;
    anew[1] = prime.file.name;
    anew[2] = extension_word(prime);
    anew[3] = attributes_word(prime);
    anew[4] = prime.ppn.word();
    anew
}

/// Returns the first of the ribs, or 0 if there is none.
pub fn first_of(ribs: &[u32]) -> u32
    ensures { result ≡ head_or_zero ribs.now }
{
    match ribs.first() {
        Some(rib) => *rib,
        None => 0,
    }
}
