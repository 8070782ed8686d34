//! The files that directories name.
ghost use Rattle.std.specs.Prelude.{◌≡◌, ◌++◌, ◌∷◌, ◌⊎◌, ◌↔◌, [], ℕ, List, None, map, IfOk, IfErr, OnOk, IsErrOf};
ghost use Rattle.std.specs.Prelude.{false, true, length, replicate};
ghost use Rattle.std.specs.List.{AllByRecursion};
ghost use Rattle.std.specs.Ordering.{nat_cmp};
ghost use Rattle.std.specs.FinMap.Entries.{find};
ghost use Rattle.blockdisk.specs.Common.{SameDisk, one_more};
ghost use Rattle.changeset.specs.Common.{OnlyReads};
ghost use Rattle.spec_image.specs.Common.{head_or_zero, SpecMasterEntry, SpecFileEntry, InSpace};
ghost use Rattle.spec_image.specs.Common.{name_cmp, SpecHome, IsHome, layout_number, EachOnce, IsVolumeSize};
ghost use Rattle.spec_image.specs.Common.{IsDirectoryNamed, LeadsAlong};
ghost use Rattle.alloctab.specs.Common.{flag_at};
ghost use Rattle.directory.specs.Common.{IsChain, IsOn, nodes_of, viewed, IsBadChain, IsTwiceInChain};
ghost use Rattle.volume.specs.Common.{file_view, master_view, home_in};
ghost use Rattle.volume.specs.declared.error.VolumeError.TheVariants.{BadDirectory, BlockTwice};
ghost use Rattle.volume.specs.declared.error.VolumeError.TheVariants.{Device as DeviceFault};
ghost use Rattle.salvage.specs.Common.{AreApartFrom, AreMarked, AreMarkedTo, AreOwners, AreWalked, FitsDisk};
ghost use Rattle.salvage.specs.Common.{IsChainRefusal, IsKept};
ghost use Rattle.salvage.specs.Common.{IsFileWalked, IsLostBy, IsNamedIn, IsNoFault, IsReadTo, IsTree};
ghost use Rattle.salvage.specs.declared.error.SalvageError.TheVariants.{Device, NoMemory, NotVolume};
ghost use Rattle.salvage.specs.declared.finding.Cost.TheVariants.{Directories, Directory};
ghost use Rattle.salvage.specs.declared.finding.Defect.TheVariants.{Start};

use crate::chains::{Chains, mark_chain, mark_master};
use crate::claims::Claims;
use crate::lists::{push_file, push_finding};
use crate::place::is_prime_at;
use crate::{Cost, Defect, Finding, SalvageError, SavedFile};
use alloctab::Reached;
use blockdisk::Disk;
use directory::{Chain, ChainEntry, FileEntry, MasterEntry};
use spec_image::layout::Layout;
use std::alloc::Global;
use volume::{Home, VolumeError, read_home, read_named};
use words36::Ppn;

/// What directories name: the files whose retrieval blocks are whole, and what is wrong with the others.
#[derive(Drop)]
pub struct Tree {
    /// The layout in which the disk was read.
    pub layout: Layout,
    /// The files, in the order of the directories.
    pub files: Vec<SavedFile>,
    /// What is wrong.
    pub findings: Vec<Finding>,
    /// The blocks of the chains, if there are files.
    pub chains: Chains,
}

/// What was read so far.
#[derive(Drop)]
struct Reading {
    /// The files.
    files: Vec<SavedFile>,
    /// What is wrong.
    findings: Vec<Finding>,
    /// Which of the files have each block as an extension.
    owners: Claims,
}

impl Reading {
    /// Returns what was read of nothing, for `size` blocks.
    ///
    /// # Errors
    ///
    /// `NoMemory` if there is no memory for it.
    fn new(alloc: Global, size: u32) -> Result<Self, SalvageError>
        ensures files { IfOk result (λ reading. reading.files.items ≡ []) }
        ensures findings { IfOk result (λ reading. reading.findings.items ≡ []) }
        ensures owners { IfOk result (λ reading. reading.owners ≡ replicate size 0) }
        ensures only { IfErr result (λ error. error ≡ NoMemory) }
    {
        let owners = Claims::new(alloc, size)?;
        let (files, findings) = (Vec::new(alloc), Vec::new(alloc));
        Ok(Reading {
            files,
            findings,
            owners,
        })
    }
}

/// Reports why a reader was refused, if that is a fault of the contents.
///
/// # Errors
///
/// `Device` and `NoMemory` if the reader was refused for that; `NoMemory` if there is no memory for the finding.
fn report_refusal(
    findings: &mut Vec<Finding>,
    refusal: VolumeError,
    costs: Cost,
) -> Result<(), SalvageError>
    ensures told { OnOk result (findings.new.items
        ≡ findings.old.items ++ record { fault = Start refusal; costs = costs } ∷ []) }
    ensures fault { OnOk result (IsNoFault refusal → ⊥) }
    ensures device { IsErrOf result Device ↔ (refusal ≡ DeviceFault) }
    ensures range { IsErrOf result NotVolume → ⊥ }
{
    match refusal {
        VolumeError::Device => Err(SalvageError::Device),
        VolumeError::NoMemory => Err(SalvageError::NoMemory),
        fault => push_finding(findings, Defect::Start(fault), costs),
    }
}

/// Reads the chain of a directory that begins in block `first`.
///
/// # Errors
///
/// `BadDirectory` with a block that is damaged or invalid; `BlockTwice` with one that the chain reached before;
/// `Device` if the device failed; `NoMemory` if a growth was refused.
fn load_chain<E: ChainEntry, D: Disk>(
    alloc: Global,
    disk: &mut D,
    first: u32,
) -> Result<Chain<E>, VolumeError>
    // What the caller ensures.
    requires volume { IsVolumeSize (D.state disk.old).size }
    requires inside { InSpace (D.state disk.old).size first }
    // The chain that was read, as the disk spells it.
    ensures on { (D.state disk.new).honest
        → IfOk result (λ chain. IsOn E.words_of (D.state disk.old).contents (viewed E.view chain)) }
    ensures walk { (D.state disk.new).honest
        → IfOk result (λ chain. LeadsAlong E.words_of (D.state disk.old).contents first
        (nodes_of chain.blocks (map E.view chain.entries)) 0) }
    ensures begins { IfOk result (λ chain. head_or_zero chain.blocks ≡ first) }
    ensures chain { IfOk result (λ chain. IsChain E.order E.IsEntry (viewed E.view chain)) }
    ensures inside { IfOk result (λ chain. AllByRecursion (InSpace (D.state disk.old).size) chain.blocks) }
    ensures targets { IfOk result (λ chain. AllByRecursion (λ e. InSpace (D.state disk.old).size (E.target e))
        (map E.view chain.entries)) }
    // When it refuses.
    ensures bad { (D.state disk.new).honest → (n : ℕ) → IsErrOf result (BadDirectory n)
        → IsBadChain E.order E.words_of E.IsEntry E.target (D.state disk.old).size
        (D.state disk.old).contents first n }
    ensures twice { (D.state disk.new).honest → (n : ℕ) → IsErrOf result (BlockTwice n)
        → IsTwiceInChain E.words_of (D.state disk.old).contents [] first n }
    ensures named { (n : ℕ) → IsErrOf result (BadDirectory n) ⊎ IsErrOf result (BlockTwice n)
        → InSpace (D.state disk.old).size n }
    ensures only { IfErr result IsChainRefusal }
    // The device: what failed, and how often.
    ensures reads { (D.state disk.new).honest → OnlyReads (D.state disk.old) (D.state disk.new) }
    ensures same { SameDisk (D.state disk.old) (D.state disk.new) }
    ensures failed { IsErrOf result DeviceFault → (D.state disk.new).failures ≡ one_more (D.state disk.old).failures }
    ensures served { (IsErrOf result DeviceFault → ⊥) → (D.state disk.new).failures ≡ (D.state disk.old).failures }
{
    let mut reached = Reached::new(alloc, disk.blocks())?;
    match Chain::load(alloc, disk, first, &mut reached) {
        Ok(chain) => Ok(chain),
        Err(error) => Err(VolumeError::from(error)),
    }
}

/// Adds a file after the others, if no extension of it is that of four of them; otherwise that is reported, and costs
/// this.
fn keep_file(file: SavedFile, costs: Cost, reading: &mut Reading) -> Result<(), SalvageError>
    requires fits { FitsDisk (length reading.old.owners) file }
    ensures kept { OnOk result (IsKept reading.old.owners file costs reading.old.files.items reading.new.files.items
        reading.old.findings.items reading.new.findings.items) }
    ensures held { AreOwners reading.old.owners reading.old.files.items
        → OnOk result (AreOwners reading.new.owners reading.new.files.items) }
    ensures owners { length reading.new.owners ≡ length reading.old.owners }
    ensures only { IfErr result (λ error. error ≡ NoMemory) }
{
    if let Some(block) = reading.owners.full_among(file.stored.version.ribs()) {
        return push_finding(&mut reading.findings, Defect::Crowded(block), costs);
    }
    let _ = reading.owners.claim_all(file.stored.version.ribs());
    push_file(&mut reading.files, file)
}

/// Reads the file of an entry, and adds it after the others, or what is wrong with it after the findings.
fn add_file<D: Disk>(
    alloc: Global,
    disk: &mut D,
    layout: Layout,
    ppn: Ppn,
    entry: &FileEntry,
    reading: &mut Reading,
) -> Result<(), SalvageError>
    // What the caller ensures.
    requires volume { IsVolumeSize (D.state disk.old).size }
    requires inside { InSpace (D.state disk.old).size entry.now.prime }
    requires owners { length reading.old.owners ≡ (D.state disk.old).size }
    // What was read.
    ensures read { (D.state disk.new).honest → AreOwners reading.old.owners reading.old.files.items
        → (directories : List SpecMasterEntry) (names : List SpecFileEntry)
        → IsNamedIn (D.state disk.old).size (layout_number layout) (D.state disk.old).contents ppn (file_view entry.now)
        → find nat_cmp ppn directories ≡ None → find name_cmp entry.now.name names ≡ None
        → IsReadTo (D.state disk.old).size (layout_number layout) (D.state disk.old).contents directories ppn names
        reading.old.files.items reading.old.findings.items
        → OnOk result (IsReadTo (D.state disk.old).size (layout_number layout) (D.state disk.old).contents directories
        ppn (names ++ file_view entry.now ∷ []) reading.new.files.items reading.new.findings.items) }
    ensures held { AreOwners reading.old.owners reading.old.files.items
        → OnOk result (AreOwners reading.new.owners reading.new.files.items) }
    ensures owners { length reading.new.owners ≡ length reading.old.owners }
    ensures fits { AllByRecursion (FitsDisk (D.state disk.old).size) reading.old.files.items
        → OnOk result (AllByRecursion (FitsDisk (D.state disk.old).size) reading.new.files.items) }
    ensures range { IsErrOf result NotVolume → ⊥ }
    // The device: what failed, and how often.
    ensures reads { (D.state disk.new).honest → OnlyReads (D.state disk.old) (D.state disk.new) }
    ensures same { SameDisk (D.state disk.old) (D.state disk.new) }
    ensures failed { IsErrOf result Device → (D.state disk.new).failures ≡ one_more (D.state disk.old).failures }
    ensures served { (IsErrOf result Device → ⊥) → (D.state disk.new).failures ≡ (D.state disk.old).failures }
{
    let costs = Cost::File(ppn, entry.name);
    match read_named(alloc, disk, layout, ppn, entry.name, entry.prime) {
        Ok(stored) => {
            let at = entry.prime;
            keep_file(SavedFile { at, stored }, costs, reading)
        }
        Err(refusal) => report_refusal(&mut reading.findings, refusal, costs),
    }
}

/// Reads the file of an entry, and adds it after the others, or what is wrong with it after the findings. Of a prime
/// block of another place no extension is read.
fn add_named<D: Disk>(
    alloc: Global,
    disk: &mut D,
    layout: Layout,
    ppn: Ppn,
    entry: &FileEntry,
    reading: &mut Reading,
) -> Result<(), SalvageError>
    // What the caller ensures.
    requires volume { IsVolumeSize (D.state disk.old).size }
    requires inside { InSpace (D.state disk.old).size entry.now.prime }
    requires owners { length reading.old.owners ≡ (D.state disk.old).size }
    // What was read.
    ensures read { (D.state disk.new).honest → AreOwners reading.old.owners reading.old.files.items
        → (directories : List SpecMasterEntry) (names : List SpecFileEntry)
        → IsNamedIn (D.state disk.old).size (layout_number layout) (D.state disk.old).contents ppn (file_view entry.now)
        → find nat_cmp ppn directories ≡ None → find name_cmp entry.now.name names ≡ None
        → IsReadTo (D.state disk.old).size (layout_number layout) (D.state disk.old).contents directories ppn names
        reading.old.files.items reading.old.findings.items
        → OnOk result (IsReadTo (D.state disk.old).size (layout_number layout) (D.state disk.old).contents directories
        ppn (names ++ file_view entry.now ∷ []) reading.new.files.items reading.new.findings.items) }
    ensures held { AreOwners reading.old.owners reading.old.files.items
        → OnOk result (AreOwners reading.new.owners reading.new.files.items) }
    ensures owners { length reading.new.owners ≡ length reading.old.owners }
    ensures fits { AllByRecursion (FitsDisk (D.state disk.old).size) reading.old.files.items
        → OnOk result (AllByRecursion (FitsDisk (D.state disk.old).size) reading.new.files.items) }
    ensures range { IsErrOf result NotVolume → ⊥ }
    // The device: what failed, and how often.
    ensures reads { (D.state disk.new).honest → OnlyReads (D.state disk.old) (D.state disk.new) }
    ensures same { SameDisk (D.state disk.old) (D.state disk.new) }
    ensures failed { IsErrOf result Device → (D.state disk.new).failures ≡ one_more (D.state disk.old).failures }
    ensures served { (IsErrOf result Device → ⊥) → (D.state disk.new).failures ≡ (D.state disk.old).failures }
{
    let is_own = is_prime_at(disk, layout, ppn, entry.name, entry.prime)?;
    if !is_own {
        let fault = Defect::Start(VolumeError::BadRetrieval(entry.prime));
        return push_finding(&mut reading.findings, fault, Cost::File(ppn, entry.name));
    }
    add_file(alloc, disk, layout, ppn, entry, reading)
}

/// Reads the files of these entries of a directory, in their order.
fn add_files<D: Disk>(
    alloc: Global,
    disk: &mut D,
    layout: Layout,
    ppn: Ppn,
    entries: &[FileEntry],
    reading: &mut Reading,
) -> Result<(), SalvageError>
    // What the caller ensures.
    requires volume { IsVolumeSize (D.state disk.old).size }
    requires inside { AllByRecursion (λ e. InSpace (D.state disk.old).size e.1) (map file_view entries.now) }
    requires owners { length reading.old.owners ≡ (D.state disk.old).size }
    // What was read.
    ensures read { (D.state disk.new).honest → AreOwners reading.old.owners reading.old.files.items
        → (directories : List SpecMasterEntry)
        → AllByRecursion (IsNamedIn (D.state disk.old).size (layout_number layout) (D.state disk.old).contents ppn)
        (map file_view entries.now)
        → EachOnce name_cmp (map file_view entries.now) → find nat_cmp ppn directories ≡ None
        → IsReadTo (D.state disk.old).size (layout_number layout) (D.state disk.old).contents directories ppn []
        reading.old.files.items reading.old.findings.items
        → OnOk result (IsReadTo (D.state disk.old).size (layout_number layout) (D.state disk.old).contents directories
        ppn (map file_view entries.now) reading.new.files.items reading.new.findings.items) }
    ensures held { AreOwners reading.old.owners reading.old.files.items
        → OnOk result (AreOwners reading.new.owners reading.new.files.items) }
    ensures owners { length reading.new.owners ≡ length reading.old.owners }
    ensures fits { AllByRecursion (FitsDisk (D.state disk.old).size) reading.old.files.items
        → OnOk result (AllByRecursion (FitsDisk (D.state disk.old).size) reading.new.files.items) }
    ensures range { IsErrOf result NotVolume → ⊥ }
    // The device: what failed, and how often.
    ensures reads { (D.state disk.new).honest → OnlyReads (D.state disk.old) (D.state disk.new) }
    ensures same { SameDisk (D.state disk.old) (D.state disk.new) }
    ensures failed { IsErrOf result Device → (D.state disk.new).failures ≡ one_more (D.state disk.old).failures }
    ensures served { (IsErrOf result Device → ⊥) → (D.state disk.new).failures ≡ (D.state disk.old).failures }
{
    for entry in entries {
        add_named(alloc, disk, layout, ppn, entry, reading)?;
    }
    Ok(())
}

/// Reads the directory of an entry with its files, or reports what is wrong with its chain.
fn add_directory<D: Disk>(
    alloc: Global,
    disk: &mut D,
    layout: Layout,
    entry: &MasterEntry,
    reading: &mut Reading,
) -> Result<(), SalvageError>
    // What the caller ensures.
    requires volume { IsVolumeSize (D.state disk.old).size }
    requires inside { InSpace (D.state disk.old).size entry.now.first }
    requires owners { length reading.old.owners ≡ (D.state disk.old).size }
    // What was read.
    ensures read { (D.state disk.new).honest → AreOwners reading.old.owners reading.old.files.items
        → (directories : List SpecMasterEntry) (word : ℕ)
        → IsDirectoryNamed (D.state disk.old).size (D.state disk.old).contents (layout_number layout) entry.now.ppn word
        entry.now.first
        → find nat_cmp entry.now.ppn directories ≡ None
        → AreApartFrom (D.state disk.old).size (D.state disk.old).contents directories entry.now.first
        → IsReadTo (D.state disk.old).size (layout_number layout) (D.state disk.old).contents directories 0 []
        reading.old.files.items reading.old.findings.items
        → OnOk result (IsReadTo (D.state disk.old).size (layout_number layout) (D.state disk.old).contents
        (directories ++ master_view entry.now ∷ []) 0 [] reading.new.files.items reading.new.findings.items) }
    ensures held { AreOwners reading.old.owners reading.old.files.items
        → OnOk result (AreOwners reading.new.owners reading.new.files.items) }
    ensures owners { length reading.new.owners ≡ length reading.old.owners }
    ensures fits { AllByRecursion (FitsDisk (D.state disk.old).size) reading.old.files.items
        → OnOk result (AllByRecursion (FitsDisk (D.state disk.old).size) reading.new.files.items) }
    ensures range { IsErrOf result NotVolume → ⊥ }
    // The device: what failed, and how often.
    ensures reads { (D.state disk.new).honest → OnlyReads (D.state disk.old) (D.state disk.new) }
    ensures same { SameDisk (D.state disk.old) (D.state disk.new) }
    ensures failed { IsErrOf result Device → (D.state disk.new).failures ≡ one_more (D.state disk.old).failures }
    ensures served { (IsErrOf result Device → ⊥) → (D.state disk.new).failures ≡ (D.state disk.old).failures }
{
    match load_chain::<FileEntry, D>(alloc, disk, entry.first) {
        Ok(chain) => add_files(alloc, disk, layout, entry.ppn, chain.entries(), reading),
        Err(refusal) => {
            let costs = Cost::Directory(entry.ppn);
            report_refusal(&mut reading.findings, refusal, costs)
        }
    }
}

/// Marks the chain of the directory of an entry, and reads it with its files. If the chain comes to a block that is
/// marked already, nothing is read of it, and that is reported.
fn claim_directory<D: Disk>(
    alloc: Global,
    disk: &mut D,
    layout: Layout,
    entry: &MasterEntry,
    marks: &mut Reached,
    reading: &mut Reading,
) -> Result<(), SalvageError>
    // What the caller ensures.
    requires volume { IsVolumeSize (D.state disk.old).size }
    requires inside { InSpace (D.state disk.old).size entry.now.first }
    requires long { length marks.old ≡ (D.state disk.old).size }
    requires owners { length reading.old.owners ≡ (D.state disk.old).size }
    // What was read.
    ensures read { (D.state disk.new).honest → AreOwners reading.old.owners reading.old.files.items
        → (directories : List SpecMasterEntry) (word : ℕ)
        → AllByRecursion (λ e. IsDirectoryNamed (D.state disk.old).size (D.state disk.old).contents
        (layout_number layout) e.0 e.1.0 e.1.1) directories
        → AreWalked (D.state disk.old).size (D.state disk.old).contents directories marks.old
        → IsDirectoryNamed (D.state disk.old).size (D.state disk.old).contents (layout_number layout) entry.now.ppn word
        entry.now.first
        → find nat_cmp entry.now.ppn directories ≡ None
        → IsReadTo (D.state disk.old).size (layout_number layout) (D.state disk.old).contents directories 0 []
        reading.old.files.items reading.old.findings.items
        → OnOk result (IsReadTo (D.state disk.old).size (layout_number layout) (D.state disk.old).contents
        (directories ++ master_view entry.now ∷ []) 0 [] reading.new.files.items reading.new.findings.items) }
    // A chain with a block that is marked isn't read.
    ensures owned { (D.state disk.new).honest → (n : ℕ) → flag_at marks.old n ≡ true
        → IsFileWalked (D.state disk.old).size (D.state disk.old).contents entry.now.first n
        → OnOk result ((reading.new.files.items ≡ reading.old.files.items) × IsLostBy reading.new.findings.items
        (Directory entry.now.ppn)) }
    ensures marked { (D.state disk.new).honest → (directories : List SpecMasterEntry)
        → AreMarkedTo (D.state disk.old).size (D.state disk.old).contents directories marks.old
        → OnOk result (AreMarkedTo (D.state disk.old).size (D.state disk.old).contents
        (directories ++ master_view entry.now ∷ []) marks.new) }
    ensures long { length marks.new ≡ length marks.old }
    ensures held { AreOwners reading.old.owners reading.old.files.items
        → OnOk result (AreOwners reading.new.owners reading.new.files.items) }
    ensures owners { length reading.new.owners ≡ length reading.old.owners }
    ensures fits { AllByRecursion (FitsDisk (D.state disk.old).size) reading.old.files.items
        → OnOk result (AllByRecursion (FitsDisk (D.state disk.old).size) reading.new.files.items) }
    ensures range { IsErrOf result NotVolume → ⊥ }
    // The device: what failed, and how often.
    ensures reads { (D.state disk.new).honest → OnlyReads (D.state disk.old) (D.state disk.new) }
    ensures same { SameDisk (D.state disk.old) (D.state disk.new) }
    ensures failed { IsErrOf result Device → (D.state disk.new).failures ≡ one_more (D.state disk.old).failures }
    ensures served { (IsErrOf result Device → ⊥) → (D.state disk.new).failures ≡ (D.state disk.old).failures }
{
    let met = mark_chain::<FileEntry, D>(disk, entry.first, marks)?;
    match met {
        None => add_directory(alloc, disk, layout, entry, reading),
        Some(n) => push_finding(
            &mut reading.findings,
            Defect::Start(VolumeError::BlockTwice(n)),
            Cost::Directory(entry.ppn),
        ),
    }
}

/// Marks the chains of the directories of these entries of the master directory, and reads the directories, in their
/// order.
fn add_directories<D: Disk>(
    alloc: Global,
    disk: &mut D,
    layout: Layout,
    entries: &[MasterEntry],
    marks: &mut Reached,
    reading: &mut Reading,
) -> Result<(), SalvageError>
    // What the caller ensures.
    requires volume { IsVolumeSize (D.state disk.old).size }
    requires inside { AllByRecursion (λ e. InSpace (D.state disk.old).size e.1.1) (map master_view entries.now) }
    requires fresh { marks.old ≡ replicate (D.state disk.old).size false }
    requires owners { length reading.old.owners ≡ (D.state disk.old).size }
    // What was read.
    ensures read { (D.state disk.new).honest → AreOwners reading.old.owners reading.old.files.items
        → AllByRecursion (λ e. IsDirectoryNamed (D.state disk.old).size (D.state disk.old).contents
        (layout_number layout) e.0 e.1.0 e.1.1) (map master_view entries.now)
        → EachOnce nat_cmp (map master_view entries.now)
        → IsReadTo (D.state disk.old).size (layout_number layout) (D.state disk.old).contents [] 0 []
        reading.old.files.items reading.old.findings.items
        → OnOk result (IsReadTo (D.state disk.old).size (layout_number layout) (D.state disk.old).contents
        (map master_view entries.now) 0 [] reading.new.files.items reading.new.findings.items) }
    ensures walked { (D.state disk.new).honest → OnOk result (AreWalked (D.state disk.old).size
        (D.state disk.old).contents (map master_view entries.now) marks.new) }
    ensures long { length marks.new ≡ (D.state disk.old).size }
    ensures held { AreOwners reading.old.owners reading.old.files.items
        → OnOk result (AreOwners reading.new.owners reading.new.files.items) }
    ensures owners { length reading.new.owners ≡ length reading.old.owners }
    ensures fits { AllByRecursion (FitsDisk (D.state disk.old).size) reading.old.files.items
        → OnOk result (AllByRecursion (FitsDisk (D.state disk.old).size) reading.new.files.items) }
    ensures range { IsErrOf result NotVolume → ⊥ }
    // The device: what failed, and how often.
    ensures reads { (D.state disk.new).honest → OnlyReads (D.state disk.old) (D.state disk.new) }
    ensures same { SameDisk (D.state disk.old) (D.state disk.new) }
    ensures failed { IsErrOf result Device → (D.state disk.new).failures ≡ one_more (D.state disk.old).failures }
    ensures served { (IsErrOf result Device → ⊥) → (D.state disk.new).failures ≡ (D.state disk.old).failures }
{
    for entry in entries {
        claim_directory(alloc, disk, layout, entry, marks, reading)?;
    }
    Ok(())
}

/// Reads the directories that the master directory of this home copy names, or reports what is wrong with its chain.
fn add_master<D: Disk>(
    alloc: Global,
    disk: &mut D,
    home: Home,
    reading: &mut Reading,
    chains: &mut Chains,
) -> Result<(), SalvageError>
    // What the caller ensures.
    requires volume { IsVolumeSize (D.state disk.old).size }
    requires inside { InSpace (D.state disk.old).size home.master }
    requires no_files { reading.old.files.items ≡ [] }
    requires no_findings { reading.old.findings.items ≡ [] }
    requires no_owners { reading.old.owners ≡ replicate (D.state disk.old).size 0 }
    requires fresh { chains.old.master ≡ replicate (D.state disk.old).size false }
    requires fresh_ones { chains.old.directories ≡ replicate (D.state disk.old).size false }
    // What was read.
    ensures tree { (D.state disk.new).honest
        → IsHome (D.state disk.old).size (D.state disk.old).contents (home_in (layout_number home.layout) home.master)
        → OnOk result (IsTree (D.state disk.old).size (layout_number home.layout) (D.state disk.old).contents
        reading.new.files.items reading.new.findings.items) }
    ensures marked { (D.state disk.new).honest
        → IsHome (D.state disk.old).size (D.state disk.old).contents (home_in (layout_number home.layout) home.master)
        → OnOk result (AreMarked (D.state disk.old).size (layout_number home.layout) (D.state disk.old).contents
        reading.new.files.items chains.new.master chains.new.directories) }
    ensures long { length chains.new.master ≡ (D.state disk.old).size }
    ensures long_ones { length chains.new.directories ≡ (D.state disk.old).size }
    ensures fits { OnOk result (AllByRecursion (FitsDisk (D.state disk.old).size) reading.new.files.items) }
    ensures range { IsErrOf result NotVolume → ⊥ }
    // The device: what failed, and how often.
    ensures reads { (D.state disk.new).honest → OnlyReads (D.state disk.old) (D.state disk.new) }
    ensures same { SameDisk (D.state disk.old) (D.state disk.new) }
    ensures failed { IsErrOf result Device → (D.state disk.new).failures ≡ one_more (D.state disk.old).failures }
    ensures served { (IsErrOf result Device → ⊥) → (D.state disk.new).failures ≡ (D.state disk.old).failures }
{
    match load_chain::<MasterEntry, D>(alloc, disk, home.master) {
        Ok(chain) => {
            mark_master(disk, home.master, &mut chains.master)?;
            add_directories(
                alloc,
                disk,
                home.layout,
                chain.entries(),
                &mut chains.directories,
                reading,
            )
        }
        Err(refusal) => report_refusal(&mut reading.findings, refusal, Cost::Directories),
    }
}

/// Reads what this home copy leads to.
fn read_from<D: Disk>(alloc: Global, disk: &mut D, home: Home) -> Result<Tree, SalvageError>
    // What the caller ensures.
    requires volume { IsVolumeSize (D.state disk.old).size }
    requires inside { InSpace (D.state disk.old).size home.master }
    // What was read.
    ensures tree { (D.state disk.new).honest
        → IsHome (D.state disk.old).size (D.state disk.old).contents (home_in (layout_number home.layout) home.master)
        → IfOk result (λ tree. IsTree (D.state disk.old).size (layout_number tree.layout)
        (D.state disk.old).contents tree.files.items tree.findings.items) }
    ensures marked { (D.state disk.new).honest
        → IsHome (D.state disk.old).size (D.state disk.old).contents (home_in (layout_number home.layout) home.master)
        → IfOk result (λ tree. AreMarked (D.state disk.old).size (layout_number tree.layout)
        (D.state disk.old).contents tree.files.items tree.chains.master tree.chains.directories) }
    ensures long { IfOk result (λ tree. length tree.chains.master ≡ (D.state disk.old).size) }
    ensures long_ones { IfOk result (λ tree. length tree.chains.directories ≡ (D.state disk.old).size) }
    ensures layout { IfOk result (λ tree. tree.layout ≡ home.layout) }
    ensures fits { IfOk result (λ tree. AllByRecursion (FitsDisk (D.state disk.old).size) tree.files.items) }
    ensures range { IsErrOf result NotVolume → ⊥ }
    // The device: what failed, and how often.
    ensures reads { (D.state disk.new).honest → OnlyReads (D.state disk.old) (D.state disk.new) }
    ensures same { SameDisk (D.state disk.old) (D.state disk.new) }
    ensures failed { IsErrOf result Device → (D.state disk.new).failures ≡ one_more (D.state disk.old).failures }
    ensures served { (IsErrOf result Device → ⊥) → (D.state disk.new).failures ≡ (D.state disk.old).failures }
{
    let mut reading = Reading::new(alloc, disk.blocks())?;
    let mut chains = Chains::new(alloc, disk.blocks())?;
    add_master(alloc, disk, home, &mut reading, &mut chains)?;
    Ok(Tree {
        layout: home.layout,
        files: reading.files,
        findings: reading.findings,
        chains,
    })
}

/// Returns what is reported for a disk whose home blocks can't be read.
fn without_home(alloc: Global, size: u32, refusal: VolumeError) -> Result<Tree, SalvageError>
    ensures files { IfOk result (λ tree. tree.files.items ≡ []) }
    ensures findings { IfOk result (λ tree. tree.findings.items
        ≡ record { fault = Start refusal; costs = Directories } ∷ []) }
    ensures long { IfOk result (λ tree. length tree.chains.master ≡ size) }
    ensures long_ones { IfOk result (λ tree. length tree.chains.directories ≡ size) }
    ensures layout { IfOk result (λ tree. layout_number tree.layout ≡ 2) }
    ensures fault { IfOk result (λ tree. IsNoFault refusal → ⊥) }
    ensures device { IsErrOf result Device ↔ (refusal ≡ DeviceFault) }
    ensures range { IsErrOf result NotVolume → ⊥ }
{
    let mut findings = Vec::new(alloc);
    report_refusal(&mut findings, refusal, Cost::Directories)?;
    let chains = Chains::new(alloc, size)?;
    Ok(Tree {
        layout: Layout::Two,
        files: Vec::new(alloc),
        findings,
        chains,
    })
}

/// Reads the directories that the first valid home copy leads to, and the retrieval blocks of all files that they name.
/// A chain or a file that can't be read is left out, and reported.
///
/// # Errors
///
/// `Device` if the device failed; `NoMemory` if a growth was refused.
pub fn read_tree<D: Disk>(alloc: Global, disk: &mut D) -> Result<Tree, SalvageError>
    requires { IsVolumeSize (D.state disk.old).size }
    ensures tree { (D.state disk.new).honest
        → IfOk result (λ tree. IsTree (D.state disk.old).size (layout_number tree.layout)
        (D.state disk.old).contents tree.files.items tree.findings.items) }
    ensures marked { (D.state disk.new).honest
        → IfOk result (λ tree. AreMarked (D.state disk.old).size (layout_number tree.layout)
        (D.state disk.old).contents tree.files.items tree.chains.master tree.chains.directories) }
    ensures long { IfOk result (λ tree. length tree.chains.master ≡ (D.state disk.old).size) }
    ensures long_ones { IfOk result (λ tree. length tree.chains.directories ≡ (D.state disk.old).size) }
    // The layout of the home copy, or layout 2 if neither copy is valid.
    ensures layout { (D.state disk.new).honest → (home : SpecHome)
        → IsHome (D.state disk.old).size (D.state disk.old).contents home
        → IfOk result (λ tree. layout_number tree.layout ≡ home.layout) }
    ensures no_layout { (D.state disk.new).honest
        → ((home : SpecHome) → IsHome (D.state disk.old).size (D.state disk.old).contents home → ⊥)
        → IfOk result (λ tree. layout_number tree.layout ≡ 2) }
    ensures fits { IfOk result (λ tree. AllByRecursion (FitsDisk (D.state disk.old).size) tree.files.items) }
    ensures range { IsErrOf result NotVolume → ⊥ }
    ensures reads { (D.state disk.new).honest → OnlyReads (D.state disk.old) (D.state disk.new) }
    ensures same { SameDisk (D.state disk.old) (D.state disk.new) }
    ensures failed { IsErrOf result Device → (D.state disk.new).failures ≡ one_more (D.state disk.old).failures }
    ensures served { (IsErrOf result Device → ⊥) → (D.state disk.new).failures ≡ (D.state disk.old).failures }
{
    let size = disk.blocks();
    match read_home(disk) {
        Ok(home) => read_from(alloc, disk, home),
        Err(refusal) => without_home(alloc, size, refusal),
    }
}
