//! A job's core, and its words.
ghost use Rattle.std.specs.Prelude.{◌≡◌, ◌<◌, ◌≤◌, ◌+◌, ◌↔◌, ◌⊎◌, IsOk, IfOk, IfErr, OnErr, IsErrOf, length};
ghost use Rattle.std.specs.Prelude.{replicate, All, slice_index, slice_range, slice_set};
ghost use Rattle.words36.specs.Common.{IsWord};
ghost use Rattle.spec_machine.specs.Common.{after_writes, placed, first_free, rings_begin, with_right};
ghost use Rattle.usercore.specs.declared.error.CoreError.TheVariants.{AddressCheck};

use crate::CoreError;
use std::alloc::Global;
use std::marker::Model;
use words36::{Half, Word};

/// The number of words in the smallest core.
pub const SMALLEST_CORE: u32 = 0o1000;

/// The number of words in the largest core.
pub const LARGEST_CORE: u32 = 0o400000;

/// The address of the job word whose right half names the place of the next ring of buffers.
pub const FIRST_FREE: u32 = 0o121;

/// The address of the first word of a job's first ring.
const RINGS_BEGIN: u32 = 0o140;

/// A job's core: its words, seen as a list of numbers. Their number never changes.
#[derive(Drop)]
pub struct Core {
    words: Vec<Word>,
}

impl Model for Core {
    ghost use Rattle.std.specs.Prelude.{ℕ, List};
    ghost use Rattle.usercore.specs.Common.{IsCore};

    ghost Value = { List ℕ };

    ghost view = { λ c. c.words.items };

    ghost invariant = { λ c. IsCore c.words.items };
}

/// Proves of words what each of them ensures. It does nothing.
fn see_words(words: &[Word])
    ensures { All IsWord words.now }
{
    for word in words {
        let _fits = word.bits();
    }
}

impl Core {
    /// Returns the core of a job that logs in: zeros, except that word 121 (octal) is 140 (octal), where the first ring
    /// of buffers goes.
    ///
    /// # Errors
    ///
    /// `AddressCheck` for a number of words that isn't 1000 to 400000 (octal); `NoMemory` if there is no memory for the
    /// words.
    pub fn new(alloc: Global, words: u32) -> Result<Core, CoreError>
        ensures fresh { IfOk result (λ core. core ≡ slice_set (replicate words 0) first_free rings_begin) }
        ensures length { IfOk result (λ core. length core ≡ words) }
        ensures size { IsErrOf result AddressCheck ↔ ((words < 0o1000) ⊎ (0o400000 < words)) }
    {
        if words < SMALLEST_CORE || words > LARGEST_CORE {
            return Err(CoreError::AddressCheck);
        }
        let mut words = vec![in alloc; Word::ZERO; words as usize]?;
        words[FIRST_FREE as usize] = Word::from_bits(RINGS_BEGIN as u64);
        Ok(Core { words })
    }

    /// Returns the number of words.
    pub fn length(&self) -> usize
        ensures value { result ≡ length self.now }
        ensures least { 0o1000 ≤ result }
        ensures most { result ≤ 0o400000 }
    {
        self.words.len()
    }

    /// Returns the word at an address.
    ///
    /// # Errors
    ///
    /// `AddressCheck` for an address outside the core.
    pub fn word(&self, address: u32) -> Result<Word, CoreError>
        ensures word { IfOk result (λ word. word ≡ slice_index self.now address) }
        ensures fits { IfOk result IsWord }
        ensures there { IsOk result ↔ (address < length self.now) }
        ensures refused { IfErr result (λ error. error ≡ AddressCheck) }
    {
        self.words
            .get(address as usize)
            .copied()
            .ok_or(CoreError::AddressCheck)
    }

    /// Puts a word at an address.
    ///
    /// # Errors
    ///
    /// `AddressCheck` for an address outside the core; nothing is changed then.
    pub fn set_word(&mut self, address: u32, word: Word) -> Result<(), CoreError>
        ensures put { self.new ≡ slice_set self.old address word }
        ensures length { length self.new ≡ length self.old }
        ensures there { IsOk result ↔ (address < length self.old) }
        ensures refused { IfErr result (λ error. error ≡ AddressCheck) }
        ensures kept { OnErr result (self.new ≡ self.old) }
    {
        let slot = self
            .words
            .get_mut(address as usize)
            .ok_or(CoreError::AddressCheck)?;
        *slot = word;
        Ok(())
    }

    /// Resets the place of the next ring of buffers to that of a job's first one, as RESET does: the right half of word
    /// 121 (octal) becomes 140 (octal).
    pub fn reset_rings(&mut self)
        ensures reset { self.new ≡ with_right self.old first_free rings_begin }
        ensures length { length self.new ≡ length self.old }
    {
        let left = self.words[FIRST_FREE as usize].left();
        self.words[FIRST_FREE as usize] = Word::from_halves(left, Half::from_bits(RINGS_BEGIN));
    }

    /// Returns the word at an address, or 0 outside the core.
    pub(crate) fn read(&self, address: usize) -> Word
        ensures word { result ≡ slice_index self.now address }
        ensures fits { IsWord result }
    {
        self.words.get(address).copied().unwrap_or(Word::ZERO)
    }

    /// Puts a word at an address; outside the core it is lost.
    pub(crate) fn write(&mut self, address: usize, word: Word)
        ensures put { self.new ≡ slice_set self.old address word }
        ensures length { length self.new ≡ length self.old }
    {
        if let Some(slot) = self.words.get_mut(address) {
            *slot = word;
        }
    }

    /// Puts words at consecutive addresses, the first of them at `first`. All of them lie in the core, so they are
    /// copied at once.
    pub(crate) fn overwrite(&mut self, first: usize, words: &[Word])
        requires { first + length words.now ≤ length self.old }
        ensures placed { self.new ≡ after_writes self.old (placed first words.now) }
        ensures length { length self.new ≡ length self.old }
    {
        see_words(words);
        self.words[first..first + words.len()].copy_from_slice(words);
    }

    /// Returns consecutive words, all of which lie in the core.
    pub(crate) fn slice(&self, first: usize, count: usize) -> &[Word]
        requires { first + count ≤ length self.now }
        ensures { result.now ≡ slice_range self.now first (first + count) }
    {
        &self.words[first..first + count]
    }
}
