//! The blocks of the chains of directories: no file has one of them.
ghost use Rattle.std.specs.Prelude.{◌≡◌, ◌⊎◌, ◌↔◌, ◌<◌, ℕ, false, true, IfOk, IfSome, IfNone, IsErrOf, OnOk, length};
ghost use Rattle.std.specs.Prelude.{replicate};
ghost use Rattle.blockdisk.specs.Common.{SameDisk, one_more};
ghost use Rattle.changeset.specs.Common.{OnlyReads};
ghost use Rattle.spec_image.specs.Common.{InSpace, IsVolumeSize};
ghost use Rattle.alloctab.specs.Common.{flag_at};
ghost use Rattle.salvage.specs.Common.{IsClosed, IsLink, IsMasterWalked, IsMetAgain, IsUnmet, IsWalked};
ghost use Rattle.salvage.specs.declared.error.SalvageError.TheVariants.{Device, NotVolume};

use crate::SalvageError;
use alloctab::Reached;
use blockdisk::{Disk, Fault};
use directory::{ChainEntry, MasterEntry, is_directory_block};
use spec_image::layout::is_in_space;
use std::alloc::Global;

/// The blocks of chains, marked.
#[derive(Drop)]
pub struct Chains {
    /// Those of the master directory.
    pub master: Reached,
    /// Those of the directories that it names.
    pub directories: Reached,
}

impl Chains {
    /// Returns marks for `size` blocks, none of them marked.
    ///
    /// # Errors
    ///
    /// `NoMemory` if there is no memory for the marks.
    pub fn new(alloc: Global, size: u32) -> Result<Self, SalvageError>
        ensures master { IfOk result (λ chains. chains.master ≡ replicate size false) }
        ensures directories { IfOk result (λ chains. chains.directories ≡ replicate size false) }
        ensures device { IsErrOf result Device → ⊥ }
        ensures range { IsErrOf result NotVolume → ⊥ }
    {
        let master = Reached::new(alloc, size)?;
        let directories = Reached::new(alloc, size)?;
        Ok(Chains {
            master,
            directories,
        })
    }
}

/// Returns the block of the free space that a directory block names next; 0 if there is none, or if this isn't a
/// directory block.
fn next_of<E: ChainEntry, D: Disk>(disk: &mut D, n: u32) -> Result<u32, SalvageError>
    requires { n < (D.state disk.old).size }
    ensures link { (D.state disk.new).honest → IfOk result (λ next. 0 < next
        → IsLink E.words_of E.IsEntry (D.state disk.old).contents n next × InSpace (D.state disk.old).size next) }
    ensures none { (D.state disk.new).honest → IfOk result (λ next. (m : ℕ)
        → IsLink E.words_of E.IsEntry (D.state disk.old).contents n m → InSpace (D.state disk.old).size m → m ≡ next) }
    ensures inside { IfOk result (λ next. 0 < next → InSpace (D.state disk.old).size next) }
    ensures range { IsErrOf result NotVolume → ⊥ }
    ensures reads { (D.state disk.new).honest → OnlyReads (D.state disk.old) (D.state disk.new) }
    ensures same { SameDisk (D.state disk.old) (D.state disk.new) }
    ensures failed { IsErrOf result Device → (D.state disk.new).failures ≡ one_more (D.state disk.old).failures }
    ensures served { (IsErrOf result Device → ⊥) → (D.state disk.new).failures ≡ (D.state disk.old).failures }
{
    let size = disk.blocks();
    let block = match disk.read(n) {
        Ok(block) => block,
        Err(Fault::Damaged) => return Ok(0),
        Err(Fault::Device) => return Err(SalvageError::Device),
    };
    let next = block[0].bits();
    if is_directory_block::<E>(&block) && is_in_space(size, next) {
        return Ok(next as u32);
    }
    Ok(0)
}

/// Marks the blocks of the chain that begins in block `first`, up to one that is marked already, which is returned.
///
/// # Errors
///
/// `Device` if the device failed.
pub fn mark_chain<E: ChainEntry, D: Disk>(
    disk: &mut D,
    first: u32,
    marks: &mut Reached,
) -> Result<Option<u32>, SalvageError>
    requires volume { IsVolumeSize (D.state disk.old).size }
    requires first { InSpace (D.state disk.old).size first }
    requires long { length marks.old ≡ (D.state disk.old).size }
    ensures begins { (D.state disk.new).honest → OnOk result (flag_at marks.new first ≡ true) }
    ensures stays { (n : ℕ) → flag_at marks.old n ≡ true → flag_at marks.new n ≡ true }
    ensures only { (D.state disk.new).honest → OnOk result ((n : ℕ) → flag_at marks.new n ≡ true
        → (flag_at marks.old n ≡ true)
        ⊎ IsWalked E.words_of E.IsEntry (D.state disk.old).size (D.state disk.old).contents first n) }
    ensures closed { (D.state disk.new).honest
        → IsClosed E.words_of E.IsEntry (D.state disk.old).size (D.state disk.old).contents marks.old
        → OnOk result (IsClosed E.words_of E.IsEntry (D.state disk.old).size (D.state disk.old).contents marks.new) }
    // The chain comes to no block that was marked; or it comes to the block that is returned, where it stops.
    ensures met { (D.state disk.new).honest → IfOk result (λ met. IfSome met (IsMetAgain E.words_of E.IsEntry
        (D.state disk.old).size (D.state disk.old).contents marks.old first)) }
    ensures unmet { (D.state disk.new).honest → IfOk result (λ met. IfNone met (IsUnmet E.words_of E.IsEntry
        (D.state disk.old).size (D.state disk.old).contents marks.old first)) }
    ensures long { length marks.new ≡ length marks.old }
    ensures range { IsErrOf result NotVolume → ⊥ }
    ensures reads { (D.state disk.new).honest → OnlyReads (D.state disk.old) (D.state disk.new) }
    ensures same { SameDisk (D.state disk.old) (D.state disk.new) }
    ensures failed { IsErrOf result Device → (D.state disk.new).failures ≡ one_more (D.state disk.old).failures }
    ensures served { (IsErrOf result Device → ⊥) → (D.state disk.new).failures ≡ (D.state disk.old).failures }
{
    let mut next = first;
    while next != 0 {
        if marks.is_marked(next) {
            return Ok(Some(next));
        }
        marks.mark(next);
        next = next_of::<E, D>(disk, next)?;
    }
    Ok(None)
}

/// Marks the blocks of the chain of the master directory, which begins in block `first`.
///
/// # Errors
///
/// `Device` if the device failed.
pub fn mark_master<D: Disk>(
    disk: &mut D,
    first: u32,
    marks: &mut Reached,
) -> Result<(), SalvageError>
    requires volume { IsVolumeSize (D.state disk.old).size }
    requires first { InSpace (D.state disk.old).size first }
    requires fresh { marks.old ≡ replicate (D.state disk.old).size false }
    ensures marked { (D.state disk.new).honest → OnOk result ((n : ℕ) → (flag_at marks.new n ≡ true)
        ↔ IsMasterWalked (D.state disk.old).size (D.state disk.old).contents first n) }
    ensures long { length marks.new ≡ (D.state disk.old).size }
    ensures range { IsErrOf result NotVolume → ⊥ }
    ensures reads { (D.state disk.new).honest → OnlyReads (D.state disk.old) (D.state disk.new) }
    ensures same { SameDisk (D.state disk.old) (D.state disk.new) }
    ensures failed { IsErrOf result Device → (D.state disk.new).failures ≡ one_more (D.state disk.old).failures }
    ensures served { (IsErrOf result Device → ⊥) → (D.state disk.new).failures ≡ (D.state disk.old).failures }
{
    let _met = mark_chain::<MasterEntry, D>(disk, first, marks)?;
    Ok(())
}
