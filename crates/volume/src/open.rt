//! The reading of all that a disk reaches, and of its allocation table.
ghost use Rattle.std.specs.Prelude.{◌≡◌, ◌<◌, ℕ, false, map, length, replicate, IfOk, IfErr, IsErrOf};
ghost use Rattle.std.specs.List.{AllByRecursion};
ghost use Rattle.std.specs.Ordering.{nat_cmp};
ghost use Rattle.spec_image.specs.Common.{head_or_zero, master_words, IsHome, layout_number, times, IsVolumeSize};
ghost use Rattle.spec_image.specs.Common.{table_blocks, DiskMap as MapValue, LeadsAlong, InSpace, IsMasterEntryOf};
ghost use Rattle.alloctab.specs.Common.{InTable, digit_at, wanted_bit, bit};
ghost use Rattle.directory.specs.Common.{nodes_of, IsChain, IsOn, viewed};
ghost use Rattle.volume.specs.Common.{master_view, known_directory, known_of, ReadsDisk, home_in, known_reaches};
ghost use Rattle.volume.specs.Common.{IsWholeDirectory, IsWholeMap, IsBooked, MatchesMap, IsOnlySpace, IsMapFound};
ghost use Rattle.volume.specs.Common.{IsRightFor, IsWrongFor, NamesInSpace, SettledRefuses, IsTableRefusal};
ghost use Rattle.volume.specs.declared.error.VolumeError.TheVariants.{Device, TableWrong};

use crate::VolumeError;
use crate::cost::book_map;
use crate::home::read_home;
use crate::quota::refuse_quotas;
use crate::read::read_directories;
use crate::volume::{LoadedDirectory, LoadedMap};
use alloctab::{Reached, Table, TableError};
use blockdisk::Disk;
use directory::{Chain, MasterEntry};
use spec_image::layout::Layout;
use std::alloc::Global;

/// Reads the chain of the master directory that begins in block `first`, in a layout.
fn load_master<D: Disk>(
    alloc: Global,
    disk: &mut D,
    first: u32,
    layout: Layout,
    reached: &mut Reached,
) -> Result<Chain<MasterEntry>, VolumeError>
    // What the caller ensures.
    requires volume { IsVolumeSize (D.state disk.old).size }
    requires inside { InSpace (D.state disk.old).size first }
    requires marks { length reached.old ≡ (D.state disk.old).size }
    requires fresh { (n : ℕ) → digit_at reached.old n ≡ 0 }
    // The chain that was read, as the disk spells it, with its blocks marked.
    ensures on { (D.state disk.new).honest
        → IfOk result (λ chain. IsOn master_words (D.state disk.old).contents (viewed master_view chain)) }
    ensures walk { (D.state disk.new).honest
        → IfOk result (λ chain. LeadsAlong master_words (D.state disk.old).contents first
        (nodes_of chain.blocks (map master_view chain.entries)) 0) }
    ensures begins { IfOk result (λ chain. head_or_zero chain.blocks ≡ first) }
    ensures chain { IfOk result (λ chain. IsChain nat_cmp (IsMasterEntryOf (layout_number layout))
        (viewed master_view chain)) }
    ensures inside { IfOk result (λ chain. AllByRecursion (InSpace (D.state disk.old).size) chain.blocks) }
    ensures targets { IfOk result (λ chain. AllByRecursion (λ e. InSpace (D.state disk.old).size e.1.1)
        (map master_view chain.entries)) }
    ensures marked { IfOk result (λ chain. (n : ℕ) → digit_at reached.new n ≡ times n chain.blocks) }
    // Which refusal comes when.
    ensures fault { (D.state disk.new).honest
        → IsHome (D.state disk.old).size (D.state disk.old).contents (home_in (layout_number layout) first)
        → IfErr result (SettledRefuses (D.state disk.old).size (D.state disk.old).contents) }
    ensures named { IfErr result (NamesInSpace (D.state disk.old).size) }
    // The device: what failed, and how often.
    ensures length { length reached.new ≡ length reached.old }
    ensures disk { ReadsDisk (D.state disk.old) (D.state disk.new) (IsErrOf result Device) }
{
    let chain = match Chain::load(alloc, disk, first, reached) {
        Ok(chain) => chain,
        Err(error) => return Err(VolumeError::from(error)),
    };
    match refuse_quotas(&chain, layout) {
        Ok(()) => Ok(chain),
        Err(error) => Err(error),
    }
}

/// Reads the master directory, which begins in block `first`, and all that it names, in a layout.
fn read_tree<D: Disk>(
    alloc: Global,
    disk: &mut D,
    first: u32,
    layout: Layout,
    reached: &mut Reached,
) -> Result<(Chain<MasterEntry>, Vec<LoadedDirectory>), VolumeError>
    // What the caller ensures.
    requires volume { IsVolumeSize (D.state disk.old).size }
    requires inside { InSpace (D.state disk.old).size first }
    requires marks { length reached.old ≡ (D.state disk.old).size }
    requires fresh { (n : ℕ) → digit_at reached.old n ≡ 0 }
    // What was read, or the fault that was met.
    ensures read { (D.state disk.new).honest
        → IsHome (D.state disk.old).size (D.state disk.old).contents (home_in (layout_number layout) first)
        → IfOk result (λ tree. IsMapFound (D.state disk.old).size (D.state disk.old).contents (layout_number layout)
        first (viewed master_view tree.0) (map known_directory tree.1.items) (digit_at reached.new)) }
    ensures fault { (D.state disk.new).honest
        → IsHome (D.state disk.old).size (D.state disk.old).contents (home_in (layout_number layout) first)
        → IfErr result (SettledRefuses (D.state disk.old).size (D.state disk.old).contents) }
    ensures named { IfErr result (NamesInSpace (D.state disk.old).size) }
    // It is valid as a map, and its blocks are marked.
    ensures marked { IfOk result (λ tree. (n : ℕ)
        → digit_at reached.new n ≡ known_reaches n (viewed master_view tree.0) (map known_directory tree.1.items)) }
    ensures space { IfOk result (λ tree. IsOnlySpace (D.state disk.old).size reached.new) }
    ensures chain { IfOk result (λ tree. IsChain nat_cmp (IsMasterEntryOf (layout_number layout))
        (viewed master_view tree.0)) }
    ensures inside { IfOk result (λ tree. AllByRecursion (InSpace (D.state disk.old).size) tree.0.blocks) }
    ensures whole { IfOk result (λ tree. AllByRecursion (IsWholeDirectory (D.state disk.old).size)
        (map known_directory tree.1.items)) }
    ensures aligned { IfOk result (λ tree. length tree.1.items ≡ length tree.0.entries) }
    ensures length { length reached.new ≡ length reached.old }
    // The device: what failed, and how often.
    ensures disk { ReadsDisk (D.state disk.old) (D.state disk.new) (IsErrOf result Device) }
{
    let master = load_master(alloc, disk, first, layout, reached)?;
    let directories = read_directories(alloc, disk, layout, master.entries(), reached)?;
    Ok((master, directories))
}

/// Reads the allocation table of a disk on which these blocks are reached.
fn load_table<D: Disk>(alloc: Global, disk: &mut D, reached: &Reached) -> Result<Table, VolumeError>
    // What the caller ensures.
    requires volume { IsVolumeSize (D.state disk.old).size }
    requires marks { length reached.now ≡ (D.state disk.old).size }
    // The table is right, or the refusal names a block that isn't.
    ensures right { (D.state disk.new).honest
        → IfOk result (IsRightFor (D.state disk.old).size (D.state disk.old).contents reached.now) }
    ensures wrong { (D.state disk.new).honest → (n : ℕ) → IsErrOf result (TableWrong n)
        → IsWrongFor (D.state disk.old).size (D.state disk.old).contents reached.now n }
    // On every disk that block is one of the table.
    ensures named { (n : ℕ) → IsErrOf result (TableWrong n) → InTable (D.state disk.old).size n }
    ensures wanted { IfOk result (λ table. (n : ℕ) → bit table n ≡ wanted_bit (D.state disk.old).size reached.now n) }
    ensures only { IfErr result IsTableRefusal }
    // Nothing in it is held, booked or changed yet.
    ensures size { IfOk result (λ table. table.size ≡ (D.state disk.old).size) }
    ensures unheld { IfOk result (λ table. table.held ≡ replicate (D.state disk.old).size 0) }
    ensures unbooked { IfOk result (λ table. table.booked ≡ 0) }
    ensures unchanged { IfOk result (λ table. table.changed ≡ replicate (table_blocks (D.state disk.old).size) false) }
    // The device: what failed, and how often.
    ensures disk { ReadsDisk (D.state disk.old) (D.state disk.new) (IsErrOf result Device) }
{
    let table = match Table::load(alloc, disk) {
        Ok(table) => table,
        Err(TableError::TableWrong(n)) => return Err(VolumeError::TableWrong(n)),
        Err(TableError::Device) => return Err(VolumeError::Device),
        Err(TableError::NoMemory) => return Err(VolumeError::NoMemory),
    };
    if let Some(n) = table.wrong_block(reached) {
        return Err(VolumeError::TableWrong(n));
    }
    Ok(table)
}

/// Reads all that a disk reaches from its home blocks, each block once, and its allocation table. Nothing is written.
///
/// # Errors
///
/// The refusal for a fault in the contents as they are, whatever their gate; `Device` if the device failed; `NoMemory`
/// if there was not enough memory.
pub fn read_map<D: Disk>(alloc: Global, disk: &mut D) -> Result<LoadedMap, VolumeError>
    ensures held { (D.state disk.new).honest
        → IfOk result (λ read. (m : MapValue)
        × MatchesMap (D.state disk.old).size (known_of read) m (D.state disk.old).contents
        × (m.layout ≡ layout_number read.layout)) }
    ensures fault { (D.state disk.new).honest
        → IfErr result (SettledRefuses (D.state disk.old).size (D.state disk.old).contents) }
    ensures named { IfErr result (NamesInSpace (D.state disk.old).size) }
    ensures whole { IfOk result (λ read. IsWholeMap (D.state disk.old).size (known_of read)) }
    ensures booked { IfOk result (λ read. IsBooked (D.state disk.old).size (known_of read)) }
    ensures disk { ReadsDisk (D.state disk.old) (D.state disk.new) (IsErrOf result Device) }
{
    let home = read_home(disk)?;
    let mut reached = Reached::new(alloc, disk.blocks())?;
    let (master, directories) = read_tree(alloc, disk, home.master, home.layout, &mut reached)?;
    let mut table = load_table(alloc, disk, &reached)?;
    book_map(&mut table, &master, &directories);
    Ok(LoadedMap {
        layout: home.layout,
        master,
        directories,
        table,
    })
}
