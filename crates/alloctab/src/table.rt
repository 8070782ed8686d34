//! The allocation table of a disk, in memory.
ghost use Rattle.std.specs.Prelude.{◌≡◌, ◌<◌, ◌≤◌, ◌+◌, ◌-◌, ◌^◌, ◌↔◌, ◌⊎◌, ◌∷◌, [], ℕ, true, false, replicate, Some};
ghost use Rattle.std.specs.Prelude.{IfOk, IsErrOf, IsTrue, IsSome, IfSome, IfNone, length};
ghost use Rattle.std.specs.List.{AllByRecursion};
ghost use Rattle.blockdisk.specs.Common.{Contents, SameDisk, one_more};
ghost use Rattle.spec_image.specs.Common.{times, targets, with_puts, IsTarget, IsVolumeSize, table_blocks};
ghost use Rattle.spec_image.specs.Common.{table_start};
ghost use Rattle.changeset.specs.Common.{IsPutIn, OnlyReads};
ghost use Rattle.alloctab.specs.Common.{IsTable, IsFree, bit, holds, IsChanged, space, used_in_space, changed_blocks};
ghost use Rattle.alloctab.specs.Common.{with_bit, with_held, digit, table_words, IsTableOf, IsBadTableBlock};
ghost use Rattle.alloctab.specs.Common.{IsChangedBlock, SpellsTable, InTable, IsWrongBlock, wanted_bit};
ghost use Rattle.alloctab.specs.declared.error.TableError.TheVariants.{TableWrong, NoMemory, Device};

use crate::blocks::put_changed;
use crate::hint::lowered;
use crate::lanes::first_clear;
use crate::load::read_table;
use crate::words::{has_bit, put_bit};
use crate::{Reached, TableError};
use blockdisk::Disk;
use changeset::{ChangeSet, MAX_PUTS};
use spec_image::layout::{TABLE_BLOCK_BITS, WORD_BITS, space_start, table_blocks, table_start};
use std::alloc::Global;
use std::marker::Model;
use words36::{BLOCK_WORDS, Word};

/// The allocation table of a disk, in memory: which blocks are in use on the disk, which are held in memory, how many
/// are booked, and which table blocks changed.
///
/// Bits are in words of 36, as many as all table blocks have, so that the search for a free block checks 288 blocks
/// at a time, and a table block is put as it is. Past the end of the disk no bit is set: `take` compares what it
/// finds with the size.
#[derive(Drop)]
pub struct Table {
    size: u32,
    /// A bit for each block that is in use on the disk.
    set: Vec<Word>,
    /// A bit for each block whose count is above 0.
    held: Vec<Word>,
    /// How often each block is held.
    counts: Vec<u32>,
    booked: u64,
    changed: Vec<bool>,
    /// No block below this one is free: `take` begins here.
    hint: u32,
}

impl Model for Table {
    ghost use Rattle.alloctab.specs.Common.{TableState};
    ghost use Rattle.alloctab.specs.Common.{table_of, IsTableInMemory};

    ghost Value = { TableState };

    ghost view = { λ t. table_of t.size t.set.items t.counts.items t.booked t.changed.items };

    ghost invariant = { λ t. IsTableInMemory t.size t.set.items t.held.items t.counts.items t.changed.items t.hint };
}

impl Table {
    /// Reads the table of a disk. In the result, no block is held or booked.
    ///
    /// # Errors
    ///
    /// `TableWrong` with a table block that is damaged, or that has a bit set for a block past the end of the disk;
    /// `Device` if the device failed; `NoMemory` if there is no room for the table.
    pub fn load<D: Disk>(alloc: Global, disk: &mut D) -> Result<Self, TableError>
        requires { IsVolumeSize (D.state disk.old).size }
        // The table that was read.
        ensures size { IfOk result (λ table. table.size ≡ (D.state disk.old).size) }
        ensures sound { IfOk result (λ table. IsTable table) }
        ensures unheld { IfOk result (λ table. table.held ≡ replicate table.size 0) }
        ensures unbooked { IfOk result (λ table. table.booked ≡ 0) }
        ensures unchanged { IfOk result (λ table. table.changed ≡ replicate (table_blocks table.size) false) }

        ensures read { (D.state disk.new).honest
            → IfOk result (λ table. IsTableOf (D.state disk.old).size (D.state disk.old).contents (bit table)) }
        // When each refusal comes, and the disk after it.
        ensures wrong { (D.state disk.new).honest → (n : ℕ) → IsErrOf result (TableWrong n)
            → IsBadTableBlock (D.state disk.old).size (D.state disk.old).contents n }
        // On every disk, the error names a block of the table.
        ensures named { (n : ℕ) → IsErrOf result (TableWrong n) → InTable (D.state disk.old).size n }

        ensures reads { (D.state disk.new).honest → OnlyReads (D.state disk.old) (D.state disk.new) }
        ensures same { SameDisk (D.state disk.old) (D.state disk.new) }
        ensures failed { IsErrOf result Device → (D.state disk.new).failures ≡ one_more (D.state disk.old).failures }
        ensures untouched { IsErrOf result NoMemory → disk.new ≡ disk.old }
        ensures served { (IsErrOf result Device → ⊥) → (D.state disk.new).failures ≡ (D.state disk.old).failures }
    {
        let size = disk.blocks();
        // Memory first, so that a refused allocation leaves the disk alone.
        let words = table_blocks(size) as usize * BLOCK_WORDS;
        let mut set = vec![in alloc; Word::ZERO; words]?;
        let held = vec![in alloc; Word::ZERO; words]?;
        let counts = vec![in alloc; 0; size as usize]?;
        let changed = vec![in alloc; false; table_blocks(size) as usize]?;
        read_table(disk, set.as_mut_slice())?;
        Ok(Table {
            size,
            set,
            held,
            counts,
            booked: 0,
            changed,
            hint: 0,
        })
    }

    /// Returns whether a block is neither set nor held.
    pub fn is_free(&self, n: u32) -> bool
        requires { n < self.now.size }
        ensures free { IsTrue result ↔ IsFree self.now n }
        ensures sound { IsTable self.now }
    {
        !self.is_set(n) && self.counts[n as usize] == 0
    }

    /// Returns whether a block is held once and its bit is clear, so that no other version has it.
    pub fn is_held_alone(&self, n: u32) -> bool
        requires { n < self.now.size }
        ensures { IsTrue result ↔ ((bit self.now n ≡ 0) × (holds self.now n ≡ 1)) }
    {
        !self.is_set(n) && self.counts[n as usize] == 1
    }

    /// Returns whether there is room to book this number of blocks more.
    pub fn can_book(&self, n: u32) -> bool
        ensures { IsTrue result ↔ (self.now.booked + n ≤ space self.now.size) }
    {
        let space = u64::from(self.size - space_start(self.size));
        self.booked <= space && u64::from(n) <= space - self.booked
    }

    /// Books this number of blocks more.
    pub fn book(&mut self, n: u32)
        requires { self.old.booked + n < 2 ^ 64 }
        ensures { self.new ≡ record self.old { booked = self.old.booked + n } }
    {
        self.booked += u64::from(n);
    }

    /// Takes back the booking of this number of blocks.
    pub fn unbook(&mut self, n: u32)
        requires { n ≤ self.old.booked }
        ensures { self.new ≡ record self.old { booked = self.old.booked - n } }
    {
        self.booked -= u64::from(n);
    }

    /// Returns how many blocks are booked.
    pub fn booked(&self) -> u64
        ensures value { result ≡ self.now.booked }
        ensures sound { IsTable self.now }
    {
        self.booked
    }

    /// Holds the lowest block that is neither set nor held, if there is one, and returns it. There is one as long as
    /// fewer blocks of the free space are set or held than are booked, and no more are booked than it has.
    pub fn take(&mut self) -> Option<u32>
        ensures free { IfSome result (λ n. (n < self.old.size) × IsFree self.old n) }
        ensures lowest { IfSome result (λ n. (m : ℕ) → m < n → IsFree self.old m → ⊥) }
        ensures held { IfSome result (λ n. self.new ≡ with_held self.old n (holds self.old n + 1)) }
        ensures none { IfNone result ((m : ℕ) → m < self.old.size → IsFree self.old m → ⊥) }
        ensures unchanged { IfNone result (self.new ≡ self.old) }
        ensures booked { used_in_space self.old < self.old.booked → self.old.booked ≤ space self.old.size
            → IsSome result }
    {
        let n = self.lowest_free()?;
        self.hold(n);
        self.hint = n + 1;
        Some(n)
    }

    /// Holds the lowest free block, and returns it. There is one, since fewer are used than are booked.
    pub fn take_block(&mut self) -> u32
        requires used { used_in_space self.old < self.old.booked }
        requires room { self.old.booked ≤ space self.old.size }
        ensures free { (result < self.old.size) × IsFree self.old result }
        ensures lowest { (m : ℕ) → m < result → IsFree self.old m → ⊥ }
        ensures held { self.new ≡ with_held self.old result (holds self.old result + 1) }
    {
        match self.take() {
            Some(n) => n,
            None => unreachable!(),
        }
    }

    /// Returns the lowest block that is neither set nor held, if there is one.
    fn lowest_free(&self) -> Option<u32>
        ensures free { IfSome result (λ n. (n < self.now.size) × IsFree self.now n) }
        ensures lowest { IfSome result (λ n. (m : ℕ) → m < n → IsFree self.now m → ⊥) }
        ensures none { IfNone result ((m : ℕ) → m < self.now.size → IsFree self.now m → ⊥) }
        ensures sound { IsTable self.now }
    {
        let first = self.hint as usize / WORD_BITS;
        let n = first * WORD_BITS + first_clear(&self.set[first..], &self.held[first..])?;
        if n < self.size as usize {
            Some(n as u32)
        } else {
            None
        }
    }

    /// Holds a block once more.
    pub fn hold(&mut self, n: u32)
        requires inside { n < self.old.size }
        requires fits { holds self.old n + 1 < 2 ^ 32 }
        ensures { self.new ≡ with_held self.old n (holds self.old n + 1) }
    {
        self.counts[n as usize] += 1;
        put_bit(&mut self.held, n as usize, true);
    }

    /// Drops one hold of a block.
    pub fn unhold(&mut self, n: u32)
        requires inside { n < self.old.size }
        requires held { 0 < holds self.old n }
        ensures { self.new ≡ with_held self.old n (holds self.old n - 1) }
    {
        let left = self.counts[n as usize] - 1;
        self.counts[n as usize] = left;
        put_bit(&mut self.held, n as usize, left > 0);
        let is_set = has_bit(&self.set, n as usize);
        self.hint = lowered(self.hint, n, left, is_set);
    }

    /// Sets the bit of a block. Its table block counts as changed.
    pub fn set(&mut self, n: u32)
        requires { n < self.old.size }
        ensures bits { self.new ≡ with_bit self.old n true }
        ensures taken { bit self.old n ≡ 0 → (m : ℕ) → bit self.new m ≡ bit self.old m + times m (n ∷ []) }
    {
        put_bit(&mut self.set, n as usize, true);
        self.changed[n as usize / TABLE_BLOCK_BITS] = true;
    }

    /// Clears the bit of a block. Its table block counts as changed.
    pub fn clear(&mut self, n: u32)
        requires { n < self.old.size }
        ensures bits { self.new ≡ with_bit self.old n false }
        ensures freed { bit self.old n ≡ 1 → (m : ℕ) → bit self.new m + times m (n ∷ []) ≡ bit self.old m }
    {
        put_bit(&mut self.set, n as usize, false);
        self.changed[n as usize / TABLE_BLOCK_BITS] = true;
        self.hint = lowered(self.hint, n, self.counts[n as usize], false);
    }

    /// Returns whether the bit of a block is set.
    fn is_set(&self, n: u32) -> bool
        requires { n < self.now.size }
        ensures { digit result ≡ bit self.now n }
    {
        has_bit(&self.set, n as usize)
    }

    /// Puts each table block with a bit that was set or cleared since the last call. If a disk with the puts so far
    /// spells the bits except for those blocks, it spells all bits with the new puts.
    pub fn changes(&mut self, set: &mut ChangeSet)
        requires { length set.old + changed_blocks self.old ≤ MAX_PUTS }
        ensures done { self.new ≡ record self.old { changed = replicate (table_blocks self.old.size) false } }

        ensures put { (c : Contents) (i : ℕ) → IsChanged self.old i
            → with_puts set.new c (table_start self.old.size + i) ≡ Some (table_words (bit self.old) i) }
        ensures others { (c : Contents) (n : ℕ) → (IsChangedBlock self.old n → ⊥)
            → with_puts set.new c n ≡ with_puts set.old c n }
        ensures targets { (n : ℕ) → (IsPutIn set.new n ↔ (IsPutIn set.old n ⊎ IsChangedBlock self.old n)) }
        ensures few { length set.new ≤ length set.old + changed_blocks self.old }
        ensures in_range { AllByRecursion (IsTarget self.old.size) (targets set.old)
            → AllByRecursion (IsTarget self.old.size) (targets set.new) }

        ensures spells { (c : Contents) → SpellsTable self.old (with_puts set.old c) (with_puts set.new c) }
    {
        put_changed(&self.set, &self.changed, table_start(self.size), set);
        self.changed.fill(false);
    }

    /// Returns a table block with a wrong bit, if there is one. The bits of the fixed regions and those of the marked
    /// blocks must be set, and all others clear; no bit is right for a marked block of a fixed region.
    pub fn wrong_block(&self, reached: &Reached) -> Option<u32>
        requires { length reached.now ≡ self.now.size }
        ensures wrong { IfSome result (λ b. IsWrongBlock self.now reached.now b) }
        ensures right { IfNone result ((n : ℕ) → bit self.now n ≡ wanted_bit self.now.size reached.now n) }
    {
        for k in 0..self.size {
            let wanted = u32::from(k < space_start(self.size)) + u32::from(reached.is_marked(k));
            if u32::from(self.is_set(k)) != wanted {
                return Some(table_start(self.size) + k / TABLE_BLOCK_BITS as u32);
            }
        }
        None
    }
}
