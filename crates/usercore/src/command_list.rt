//! Command lists, which name the words that IN and OUT move in dump mode.
ghost use Rattle.std.specs.Prelude.{◌≡◌, ◌<◌, ◌≤◌, ◌+◌, ◌-◌, ◌^◌, ◌↔◌, All, [], ◌∷◌, Some, None, IsSome, IfSome};
ghost use Rattle.std.specs.Prelude.{IfOk, IfErr, OnErr, length, slice_index};
ghost use Rattle.words36.specs.Common.{left, right};
ghost use Rattle.spec_machine.specs.Common.{dump_list, word_count};
ghost use Rattle.usercore.specs.declared.error.CoreError.TheVariants.{AddressCheck};

use crate::{Core, CoreArea, CoreError, LARGEST_CORE};
use arrayvec::ArrayVec;

/// The greatest number of command words of a list that are read.
pub const MAX_COMMANDS: usize = 512;

impl Core {
    /// Returns the area that the command list at an address names, if its first word names one and the word after it
    /// ends the list. Most lists are such, and nothing of them has to be stored.
    pub fn lone_area(&self, address: u32) -> Option<CoreArea>
        ensures area { IfSome result (λ area. dump_list self.now address ≡ Some (area ∷ [])) }
        ensures within { IfSome result (λ area. area.first + area.count ≤ length self.now) }
        ensures some { IfSome result (λ area. 0 < area.count) }
        ensures few { IfSome result (λ area. area.count ≤ 0o400000) }
        ensures there { IsSome result ↔ ((address + 1 < length self.now) × (0 < left (slice_index self.now address))
            × (slice_index self.now (address + 1) ≡ 0) × (right (slice_index self.now address) + 1
            + (2 ^ 18 - left (slice_index self.now address)) ≤ length self.now)) }
    {
        let address = address as usize;
        if address + 1 >= self.length() {
            return None;
        }
        let (command, next) = (self.read(address), self.read(address + 1));
        let (left, right) = (command.left().bits(), command.right().bits());
        let first = right as usize + 1;
        let count = (1 << 18) - left as usize;
        if left == 0 || next.bits() != 0 || first + count > self.length() {
            return None;
        }
        Some(CoreArea { first, count })
    }

    /// Returns what the command list at an address names: areas of words that lie in this core. The whole list is read
    /// before anything is moved.
    ///
    /// # Errors
    ///
    /// `AddressCheck` if a command word, or a word that it names, is outside the core, if the list has no end within
    /// 512 command words, and if it names more than 131,072 words.
    pub fn dump_list(&self, address: u32) -> Result<ArrayVec<CoreArea, MAX_COMMANDS>, CoreError>
        ensures areas { IfOk result (λ areas. dump_list self.now address ≡ Some areas.items) }
        ensures within { IfOk result (λ areas. All (λ area. area.first + area.count ≤ length self.now) areas.items) }
        ensures some { IfOk result (λ areas. All (λ area. 0 < area.count) areas.items) }
        ensures few { IfOk result (λ areas. word_count areas.items ≤ 0o400000) }
        ensures none { OnErr result (dump_list self.now address ≡ None) }
        ensures refused { IfErr result (λ error. error ≡ AddressCheck) }
    {
        let mut areas = ArrayVec::new();
        let mut total = 0;
        let mut address = address as usize;
        for _looked in 0..MAX_COMMANDS {
            if address >= self.length() {
                return Err(CoreError::AddressCheck);
            }
            let command = self.read(address);
            let (left, right) = (command.left().bits(), command.right().bits());
            if command.bits() == 0 {
                return if total > LARGEST_CORE as usize {
                    Err(CoreError::AddressCheck)
                } else {
                    Ok(areas)
                };
            }
            if left == 0 {
                address = right as usize;
                continue;
            }
            let first = right as usize + 1;
            let count = (1 << 18) - left as usize;
            if first + count > self.length() {
                return Err(CoreError::AddressCheck);
            }
            areas.push(CoreArea { first, count });
            total += count;
            address += 1;
        }
        Err(CoreError::AddressCheck)
    }
}
