//! Bits and holds of lists of blocks, and of a version's data blocks.
ghost use Rattle.std.specs.Prelude.{◌≡◌, ◌+◌, ◌<◌, ◌≤◌, ◌^◌, ℕ};
ghost use Rattle.spec_image.specs.Common.{times};
ghost use Rattle.alloctab.specs.Common.{IsTable, bit, holds};
ghost use Rattle.volume.specs.Common.{SetsBits, ClearsBits, PutsInUse};

use crate::live::{unhold_all, unhold_blocks};
use alloctab::Table;
use retrieval::Version;

/// Sets the bits of blocks, each of which is clear.
pub(crate) fn set_all(table: &mut Table, blocks: &[u32])
    requires sound { IsTable table.old }
    requires inside { (n : ℕ) → 0 < times n blocks.now → n < table.old.size }
    requires clear { (n : ℕ) → bit table.old n + times n blocks.now ≤ 1 }
    ensures { SetsBits table.old table.new blocks.now }
{
    for &block in blocks {
        table.set(block);
    }
}

/// Clears the bits of blocks, each of which is set.
pub(crate) fn clear_all(table: &mut Table, blocks: &[u32])
    requires sound { IsTable table.old }
    requires inside { (n : ℕ) → 0 < times n blocks.now → n < table.old.size }
    requires set { (n : ℕ) → times n blocks.now ≤ bit table.old n }
    ensures { ClearsBits table.old table.new blocks.now }
{
    for &block in blocks {
        table.clear(block);
    }
}

/// Holds each of these blocks once more.
pub(crate) fn hold_all(table: &mut Table, blocks: &[u32])
    requires sound { IsTable table.old }
    requires inside { (n : ℕ) → 0 < times n blocks.now → n < table.old.size }
    requires fits { (n : ℕ) → holds table.old n + times n blocks.now < 2 ^ 32 }
    ensures held { (n : ℕ) → holds table.new n ≡ holds table.old n + times n blocks.now }
    ensures rest { table.new ≡ record table.old { held = table.new.held } }
    ensures sound { IsTable table.new }
{
    for &block in blocks {
        table.hold(block);
    }
}

/// Sets the bits of blocks that are held, and releases one hold of each.
pub(crate) fn bring_all(table: &mut Table, blocks: &[u32])
    requires sound { IsTable table.old }
    requires held { (n : ℕ) → times n blocks.now ≤ holds table.old n }
    requires clear { (n : ℕ) → bit table.old n + times n blocks.now ≤ 1 }
    ensures { PutsInUse table.old table.new blocks.now }
{
    set_all(table, blocks);
    unhold_all(table, blocks);
    let _booked = table.booked(); // every table is valid
}

/// Sets the bits of a version's data blocks, each of which is clear.
fn set_blocks(table: &mut Table, version: &Version)
    requires sound { IsTable table.old }
    requires inside { (n : ℕ) → 0 < times n version.now.blocks → n < table.old.size }
    requires clear { (n : ℕ) → bit table.old n + times n version.now.blocks ≤ 1 }
    ensures { SetsBits table.old table.new version.now.blocks }
{
    for i in 0..version.count() {
        table.set(version.block_at(i));
    }
}

/// Clears the bits of a version's data blocks, each of which is set.
pub(crate) fn clear_blocks(table: &mut Table, version: &Version)
    requires sound { IsTable table.old }
    requires inside { (n : ℕ) → 0 < times n version.now.blocks → n < table.old.size }
    requires set { (n : ℕ) → times n version.now.blocks ≤ bit table.old n }
    ensures { ClearsBits table.old table.new version.now.blocks }
{
    for i in 0..version.count() {
        table.clear(version.block_at(i));
    }
}

/// Holds each of a version's data blocks once more.
pub(crate) fn hold_blocks(table: &mut Table, version: &Version)
    requires sound { IsTable table.old }
    requires inside { (n : ℕ) → 0 < times n version.now.blocks → n < table.old.size }
    requires fits { (n : ℕ) → holds table.old n + times n version.now.blocks < 2 ^ 32 }
    ensures held { (n : ℕ) → holds table.new n ≡ holds table.old n + times n version.now.blocks }
    ensures rest { table.new ≡ record table.old { held = table.new.held } }
    ensures sound { IsTable table.new }
{
    for i in 0..version.count() {
        table.hold(version.block_at(i));
    }
}

/// Sets the bits of a version's data blocks, which are held, and releases one hold of each.
pub(crate) fn bring_blocks(table: &mut Table, version: &Version)
    requires sound { IsTable table.old }
    requires held { (n : ℕ) → times n version.now.blocks ≤ holds table.old n }
    requires clear { (n : ℕ) → bit table.old n + times n version.now.blocks ≤ 1 }
    ensures { PutsInUse table.old table.new version.now.blocks }
{
    set_blocks(table, version);
    unhold_blocks(table, version);
    let _booked = table.booked(); // every table is valid
}
