//! The search for the prime blocks of files that no directory names.
ghost use Rattle.std.specs.Prelude.{◌≡◌, ◌↔◌, ◌+◌, ◌<◌, ℕ, true, List, IfOk, IsErrOf, IsTrue, OnOk, length};
ghost use Rattle.std.specs.List.{AllByRecursion};
ghost use Rattle.blockdisk.specs.Common.{SameDisk, one_more};
ghost use Rattle.changeset.specs.Common.{OnlyReads};
ghost use Rattle.spec_image.specs.Common.{InSpace, layout_number, IsVolumeSize};
ghost use Rattle.alloctab.specs.Common.{flag_at};
ghost use Rattle.salvage.specs.Common.{AreAdded, AreAlone, AreFound, AreFree, AreLoaded, AreOwned, ConcernsUnnamed};
ghost use Rattle.salvage.specs.Common.{FitsDisk, IsCandidate, IsExtension, IsReadAt, IsReported, IsScanned, IsWanted};
ghost use Rattle.salvage.specs.declared.error.SalvageError.TheVariants.{Device, NotVolume};

use crate::counts::Counts;
use crate::extensions::mark_extensions;
use crate::lists::{push_file, push_finding};
use crate::{Cost, Defect, Finding, SalvageError, SavedFile, Search};
use alloctab::Reached;
use blockdisk::{Disk, Fault};
use retrieval::{RetrievalError, parse_prime, read_version};
use spec_image::layout::{Layout, space_start};
use std::alloc::Global;
use volume::{LoadedVersion, VolumeError};

/// Returns whether a search checks a block, if these are free.
fn is_wanted(search: Search, free: &Reached, n: u32) -> bool
    requires { n < length free.now }
    ensures { IsTrue result ↔ IsWanted search free.now n }
{
    match search {
        Search::Named => false,
        Search::Used => !free.is_marked(n),
        Search::Every => true,
    }
}

/// Returns whether a search checks a block, and it was never counted.
fn is_candidate(search: Search, free: &Reached, counts: &Counts, n: u32) -> bool
    requires inside { n < length counts.now }
    requires long { length free.now ≡ length counts.now }
    ensures { IsTrue result ↔ IsCandidate search free.now counts.now n }
{
    counts.of(n) == 0 && is_wanted(search, free, n)
}

/// Reports a fault of the version at this prime block, if it is a prime block.
fn report_prime<D: Disk>(
    disk: &mut D,
    layout: Layout,
    n: u32,
    fault: Defect,
    findings: &mut Vec<Finding>,
) -> Result<(), SalvageError>
    requires inside { InSpace (D.state disk.old).size n }
    ensures reported { (D.state disk.new).honest
        → ConcernsUnnamed (D.state disk.old).size (layout_number layout) (D.state disk.old).contents n fault
        → OnOk result (IsReported (D.state disk.old).size (layout_number layout) (D.state disk.old).contents n
        findings.old.items findings.new.items) }
    ensures range { IsErrOf result NotVolume → ⊥ }
    ensures reads { (D.state disk.new).honest → OnlyReads (D.state disk.old) (D.state disk.new) }
    ensures same { SameDisk (D.state disk.old) (D.state disk.new) }
    ensures failed { IsErrOf result Device → (D.state disk.new).failures ≡ one_more (D.state disk.old).failures }
    ensures served { (IsErrOf result Device → ⊥) → (D.state disk.new).failures ≡ (D.state disk.old).failures }
{
    let block = match disk.read(n) {
        Ok(block) => block,
        Err(Fault::Damaged) => return Ok(()),
        Err(Fault::Device) => return Err(SalvageError::Device),
    };
    let Some(head) = parse_prime(&block, layout) else {
        return Ok(());
    };
    let costs = Cost::Unnamed(head.prime.ppn, head.prime.file, n);
    push_finding(findings, fault, costs)
}

/// Reads the version whose prime block this is, and adds it after the others, or what is wrong with it after the
/// findings.
fn read_at<D: Disk>(
    alloc: Global,
    disk: &mut D,
    layout: Layout,
    n: u32,
    files: &mut Vec<SavedFile>,
    findings: &mut Vec<Finding>,
) -> Result<(), SalvageError>
    requires volume { IsVolumeSize (D.state disk.old).size }
    requires inside { InSpace (D.state disk.old).size n }
    ensures found { (D.state disk.new).honest
        → OnOk result (IsReadAt (D.state disk.old).size (layout_number layout) (D.state disk.old).contents n
        files.old.items files.new.items findings.old.items findings.new.items) }
    ensures fits { AllByRecursion (FitsDisk (D.state disk.old).size) files.old.items
        → OnOk result (AllByRecursion (FitsDisk (D.state disk.old).size) files.new.items) }
    ensures range { IsErrOf result NotVolume → ⊥ }
    ensures reads { (D.state disk.new).honest → OnlyReads (D.state disk.old) (D.state disk.new) }
    ensures same { SameDisk (D.state disk.old) (D.state disk.new) }
    ensures failed { IsErrOf result Device → (D.state disk.new).failures ≡ one_more (D.state disk.old).failures }
    ensures served { (IsErrOf result Device → ⊥) → (D.state disk.new).failures ≡ (D.state disk.old).failures }
{
    match read_version(alloc, disk, n, layout) {
        Ok((prime, version)) => {
            let stored = LoadedVersion { prime, version };
            push_file(files, SavedFile { at: n, stored })
        }
        Err(RetrievalError::BadRetrieval(bad)) => {
            let fault = Defect::Start(VolumeError::BadRetrieval(bad));
            report_prime(disk, layout, n, fault, findings)
        }
        Err(RetrievalError::Device) => Err(SalvageError::Device),
        Err(RetrievalError::NoMemory) => Err(SalvageError::NoMemory),
    }
}

/// Marks the extensions of the version whose prime block this is, and reads it. If one of them is marked already, the
/// version isn't read, and that is reported.
fn claim_at<D: Disk>(
    alloc: Global,
    disk: &mut D,
    layout: Layout,
    n: u32,
    marks: &mut Reached,
    files: &mut Vec<SavedFile>,
    findings: &mut Vec<Finding>,
) -> Result<(), SalvageError>
    requires volume { IsVolumeSize (D.state disk.old).size }
    requires inside { InSpace (D.state disk.old).size n }
    requires marks { length marks.old ≡ (D.state disk.old).size }
    ensures found { (D.state disk.new).honest
        → AreOwned (D.state disk.old).size (layout_number layout) (D.state disk.old).contents marks.old n
        → OnOk result (IsReadAt (D.state disk.old).size (layout_number layout) (D.state disk.old).contents n
        files.old.items files.new.items findings.old.items findings.new.items) }
    // A version with an extension that is marked isn't read.
    ensures once { (D.state disk.new).honest → (m : ℕ) → flag_at marks.old m ≡ true
        → IsExtension (D.state disk.old).size (layout_number layout) (D.state disk.old).contents n m
        → OnOk result (files.new.items ≡ files.old.items) }
    ensures owned { (D.state disk.new).honest
        → AreOwned (D.state disk.old).size (layout_number layout) (D.state disk.old).contents marks.old n
        → OnOk result (AreOwned (D.state disk.old).size (layout_number layout) (D.state disk.old).contents
        marks.new (n + 1)) }
    ensures loaded { (D.state disk.new).honest
        → AreLoaded (D.state disk.old).size (layout_number layout) (D.state disk.old).contents marks.old files.old.items
        → OnOk result (AreLoaded (D.state disk.old).size (layout_number layout) (D.state disk.old).contents marks.new
        files.new.items) }
    ensures long { length marks.new ≡ length marks.old }
    ensures fits { AllByRecursion (FitsDisk (D.state disk.old).size) files.old.items
        → OnOk result (AllByRecursion (FitsDisk (D.state disk.old).size) files.new.items) }
    ensures range { IsErrOf result NotVolume → ⊥ }
    ensures reads { (D.state disk.new).honest → OnlyReads (D.state disk.old) (D.state disk.new) }
    ensures same { SameDisk (D.state disk.old) (D.state disk.new) }
    ensures failed { IsErrOf result Device → (D.state disk.new).failures ≡ one_more (D.state disk.old).failures }
    ensures served { (IsErrOf result Device → ⊥) → (D.state disk.new).failures ≡ (D.state disk.old).failures }
{
    let met = mark_extensions(disk, layout, n, marks)?;
    match met {
        None => read_at(alloc, disk, layout, n, files, findings),
        Some(block) => report_prime(disk, layout, n, Defect::TwoOwners(block), findings),
    }
}

/// What is searched: which blocks, in which layout, and how often each block is in a file that a directory names.
#[derive(Clone, Copy)]
struct Searched<'a> {
    search: Search,
    layout: Layout,
    free: &'a Reached,
    counts: &'a Counts,
}

/// Checks a block: if it is searched and was never counted, the version whose prime block it is, if any, is added after
/// the others, or what is wrong with it after the findings.
fn look_at<D: Disk>(
    alloc: Global,
    disk: &mut D,
    searched: &Searched<'_>,
    n: u32,
    marks: &mut Reached,
    files: &mut Vec<SavedFile>,
    findings: &mut Vec<Finding>,
) -> Result<(), SalvageError>
    requires volume { IsVolumeSize (D.state disk.old).size }
    requires inside { InSpace (D.state disk.old).size n }
    requires long { length searched.now.counts.now ≡ (D.state disk.old).size }
    requires free { length searched.now.free.now ≡ (D.state disk.old).size }
    requires marks { length marks.old ≡ (D.state disk.old).size }
    ensures found { (D.state disk.new).honest → (begun : List Finding)
        → AreFree (D.state disk.old).size (D.state disk.old).contents searched.now.free.now
        → AreOwned (D.state disk.old).size (layout_number searched.now.layout) (D.state disk.old).contents marks.old n
        → AreFound (D.state disk.old).size (layout_number searched.now.layout) (D.state disk.old).contents
        searched.now.search searched.now.counts.now files.old.items begun findings.old.items n
        → OnOk result (AreFound (D.state disk.old).size (layout_number searched.now.layout) (D.state disk.old).contents
        searched.now.search searched.now.counts.now files.new.items begun findings.new.items (n + 1)) }
    ensures owned { (D.state disk.new).honest
        → AreOwned (D.state disk.old).size (layout_number searched.now.layout) (D.state disk.old).contents marks.old n
        → OnOk result (AreOwned (D.state disk.old).size (layout_number searched.now.layout)
        (D.state disk.old).contents marks.new (n + 1)) }
    ensures loaded { (D.state disk.new).honest
        → AreLoaded (D.state disk.old).size (layout_number searched.now.layout) (D.state disk.old).contents marks.old
        files.old.items
        → OnOk result (AreLoaded (D.state disk.old).size (layout_number searched.now.layout)
        (D.state disk.old).contents marks.new files.new.items) }
    ensures long { length marks.new ≡ length marks.old }
    ensures fits { AllByRecursion (FitsDisk (D.state disk.old).size) files.old.items
        → OnOk result (AllByRecursion (FitsDisk (D.state disk.old).size) files.new.items) }
    ensures range { IsErrOf result NotVolume → ⊥ }
    ensures reads { (D.state disk.new).honest → OnlyReads (D.state disk.old) (D.state disk.new) }
    ensures same { SameDisk (D.state disk.old) (D.state disk.new) }
    ensures failed { IsErrOf result Device → (D.state disk.new).failures ≡ one_more (D.state disk.old).failures }
    ensures served { (IsErrOf result Device → ⊥) → (D.state disk.new).failures ≡ (D.state disk.old).failures }
{
    if !is_candidate(searched.search, searched.free, searched.counts, n) {
        return Ok(());
    }
    claim_at(alloc, disk, searched.layout, n, marks, files, findings)
}

/// Checks each block of the free space that is searched and was never counted, and returns the versions found.
fn look_through<D: Disk>(
    alloc: Global,
    disk: &mut D,
    searched: &Searched<'_>,
    findings: &mut Vec<Finding>,
) -> Result<Vec<SavedFile>, SalvageError>
    requires volume { IsVolumeSize (D.state disk.old).size }
    requires long { length searched.now.counts.now ≡ (D.state disk.old).size }
    requires free { length searched.now.free.now ≡ (D.state disk.old).size }
    ensures found { (D.state disk.new).honest
        → AreFree (D.state disk.old).size (D.state disk.old).contents searched.now.free.now
        → IfOk result (λ files. AreFound (D.state disk.old).size (layout_number searched.now.layout)
        (D.state disk.old).contents searched.now.search searched.now.counts.now files.items findings.old.items
        findings.new.items (D.state disk.old).size) }
    ensures alone { (D.state disk.new).honest → IfOk result (λ files. AreAlone (D.state disk.old).size
        (layout_number searched.now.layout) (D.state disk.old).contents files.items) }
    ensures fits { IfOk result (λ files. AllByRecursion (FitsDisk (D.state disk.old).size) files.items) }
    ensures range { IsErrOf result NotVolume → ⊥ }
    ensures reads { (D.state disk.new).honest → OnlyReads (D.state disk.old) (D.state disk.new) }
    ensures same { SameDisk (D.state disk.old) (D.state disk.new) }
    ensures failed { IsErrOf result Device → (D.state disk.new).failures ≡ one_more (D.state disk.old).failures }
    ensures served { (IsErrOf result Device → ⊥) → (D.state disk.new).failures ≡ (D.state disk.old).failures }
{
    let size = disk.blocks();
    let mut files = Vec::new(alloc);
    let mut marks = Reached::new(alloc, size)?;
    for n in space_start(size)..size {
        look_at(alloc, disk, searched, n, &mut marks, &mut files, findings)?;
    }
    Ok(files)
}

/// Checks each block of the free space that is searched, and that is in none of these files, for a prime block, and
/// returns the files whose retrieval blocks are whole. What is wrong with another one is reported.
///
/// # Errors
///
/// `Device` if the device failed; `NoMemory` if a growth was refused.
pub fn scan<D: Disk>(
    alloc: Global,
    disk: &mut D,
    search: Search,
    layout: Layout,
    named: &[SavedFile],
    free: &Reached,
    findings: &mut Vec<Finding>,
) -> Result<Vec<SavedFile>, SalvageError>
    requires volume { IsVolumeSize (D.state disk.old).size }
    requires named { AllByRecursion (FitsDisk (D.state disk.old).size) named.now }
    requires free { length free.now ≡ (D.state disk.old).size }
    ensures scanned { (D.state disk.new).honest
        → AreFree (D.state disk.old).size (D.state disk.old).contents free.now
        → IfOk result (λ unnamed. IsScanned (D.state disk.old).size (layout_number layout)
        (D.state disk.old).contents search named.now unnamed.items findings.new.items) }
    ensures added { (D.state disk.new).honest
        → AreFree (D.state disk.old).size (D.state disk.old).contents free.now
        → IfOk result (λ unnamed. AreAdded (D.state disk.old).size (layout_number layout)
        (D.state disk.old).contents findings.old.items findings.new.items) }
    ensures fits { IfOk result (λ unnamed. AllByRecursion (FitsDisk (D.state disk.old).size) unnamed.items) }
    ensures range { IsErrOf result NotVolume → ⊥ }
    ensures reads { (D.state disk.new).honest → OnlyReads (D.state disk.old) (D.state disk.new) }
    ensures same { SameDisk (D.state disk.old) (D.state disk.new) }
    ensures failed { IsErrOf result Device → (D.state disk.new).failures ≡ one_more (D.state disk.old).failures }
    ensures served { (IsErrOf result Device → ⊥) → (D.state disk.new).failures ≡ (D.state disk.old).failures }
{
    let size = disk.blocks();
    let mut counts = Counts::new(alloc, size)?;
    counts.count_files(named);
    let searched = Searched {
        search,
        layout,
        free,
        counts: &counts,
    };
    look_through(alloc, disk, &searched, findings)
}
