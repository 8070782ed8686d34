//! Moves of words into and out of a core.
ghost use Rattle.std.specs.Prelude.{◌≡◌, ◌<◌, ◌≤◌, ◌+◌, ◌^◌, ◌↔◌, All, IsOk, IfOk, OnOk, OnErr, IfErr, length};
ghost use Rattle.std.specs.Prelude.{slice_range};
ghost use Rattle.spec_machine.specs.Common.{after_writes, placed, dealt, joined, word_count};
ghost use Rattle.usercore.specs.declared.error.CoreError.TheVariants.{AddressCheck};

use crate::{Core, CoreArea, CoreError};
use words36::Word;

/// Returns the number of words that areas have together.
pub fn word_count(areas: &[CoreArea]) -> usize
    requires { word_count areas.now ≤ 0o400000 }
    ensures { result ≡ word_count areas.now }
{
    let mut count = 0;
    for area in areas {
        count += area.count;
    }
    count
}

impl Core {
    /// Returns the words of an area.
    ///
    /// # Errors
    ///
    /// `AddressCheck` if they don't all lie in the core.
    pub fn words(&self, area: CoreArea) -> Result<&[Word], CoreError>
        ensures words { IfOk result (λ words. words.now ≡ slice_range self.now area.first (area.first + area.count)) }
        ensures there { IsOk result ↔ (area.first + area.count ≤ length self.now) }
        ensures refused { IfErr result (λ error. error ≡ AddressCheck) }
    {
        if area.count > self.length() || area.first > self.length() - area.count {
            return Err(CoreError::AddressCheck);
        }
        Ok(self.slice(area.first, area.count))
    }

    /// Puts words at consecutive addresses, the first of them at `address`.
    ///
    /// # Errors
    ///
    /// `AddressCheck` if they wouldn't all lie in the core; nothing is changed then.
    pub fn put(&mut self, address: u32, words: &[Word]) -> Result<(), CoreError>
        ensures put { OnOk result (self.new ≡ after_writes self.old (placed address words.now)) }
        ensures there { IsOk result ↔ (address + length words.now ≤ length self.old) }
        ensures refused { IfErr result (λ error. error ≡ AddressCheck) }
        ensures kept { OnErr result (self.new ≡ self.old) }
        ensures length { length self.new ≡ length self.old }
    {
        let address = address as usize;
        if words.len() > self.length() || address > self.length() - words.len() {
            return Err(CoreError::AddressCheck);
        }
        self.place(address, words);
        Ok(())
    }

    /// Deals words out to areas in their order, until either ends. The words of the areas that get none stay.
    pub fn deal(&mut self, areas: &[CoreArea], words: &[Word])
        requires { All (λ area. area.first + area.count ≤ length self.old) areas.now }
        ensures dealt { self.new ≡ after_writes self.old (dealt areas.now words.now) }
        ensures length { length self.new ≡ length self.old }
    {
        let _ = self.length(); // so that it is known to be small
        let mut rest = words;
        for area in areas {
            let (front, back) = rest.split_at(area.count.min(rest.len()));
            self.place(area.first, front);
            rest = back;
        }
    }

    /// Copies the words of areas, joined in their order, into a slice that has room for exactly these.
    pub fn gather(&self, areas: &[CoreArea], words: &mut [Word])
        requires within { All (λ area. area.first + area.count ≤ length self.now) areas.now }
        requires room { length words.old ≡ word_count areas.now }
        ensures { words.new ≡ joined self.now areas.now }
    {
        let mut done = 0;
        for area in areas {
            let end = done + area.count;
            words[done..end].copy_from_slice(self.slice(area.first, area.count));
            done = end;
        }
    }

    /// Puts words at consecutive addresses, the first of them at `first`. Those outside the core are lost.
    #[tactic(auto, using(spec_machine::proofs::CoreWrites::writes_length, crate::proofs::WriteLaws::placed_more))]
    pub(crate) fn place(&mut self, first: usize, words: &[Word])
        requires { first + length words.now < 2 ^ 64 }
        ensures placed { self.new ≡ after_writes self.old (placed first words.now) }
        ensures length { length self.new ≡ length self.old }
    {
        if first + words.len() <= self.length() {
            self.overwrite(first, words);
            return;
        }
        for (i, word) in words.iter().enumerate() {
            self.write(first + i, *word);
        }
    }
}
