//! The choice of the files that are whole, and of those that are in their place.
ghost use Rattle.std.specs.Prelude.{◌≡◌, ◌+◌, ◌≤◌, ◌∷◌, ◌++◌, ℕ, [], List, IfOk, IfErr, IfSome, IfNone, IsErrOf};
ghost use Rattle.std.specs.Prelude.{IsPermutation, OnOk, length, replicate, slice_index};
ghost use Rattle.std.specs.List.{AllByRecursion};
ghost use Rattle.blockdisk.specs.Common.{SameDisk, one_more};
ghost use Rattle.changeset.specs.Common.{OnlyReads};
ghost use Rattle.spec_image.specs.Common.{IsVolumeSize};
ghost use Rattle.salvage.specs.Common.{AreAdded, AreApart, AreBySize, AreFree, AreKept, AreMarked, ArePlaced};
ghost use Rattle.salvage.specs.Common.{AreTaken, CountTo};
ghost use Rattle.salvage.specs.Common.{FitsDisk, IsAlone, IsDoubted, IsNamedRead, IsRead, IsVerdict, Judges};
ghost use Rattle.salvage.specs.Common.{claims, loss_of, uses};
ghost use Rattle.salvage.specs.declared.saved.SavedFile.{SavedFile};
ghost use Rattle.salvage.specs.declared.error.SalvageError.TheVariants.{Device, NoMemory, NotVolume};

use crate::chains::Chains;
use crate::claims::Claims;
use crate::counts::Counts;
use crate::lists::{push_file, push_finding};
use crate::{Cost, Defect, Finding, SalvageError, SavedFile};
use alloctab::Reached;
use blockdisk::Disk;
use std::alloc::Global;
use volume::{VolumeError, read_data};

/// What becomes of a file.
#[derive(Clone, Copy, Debug, PartialEq, Eq)]
enum Verdict {
    /// It is taken.
    Good,
    /// It is whole, but one of its blocks may not be its own.
    Doubtful(Defect),
    /// One of its data blocks is damaged.
    Spoiled(Defect),
}

/// The whole files of a survey.
#[derive(Drop)]
pub struct Taken {
    /// Those that are taken.
    pub files: Vec<SavedFile>,
    /// Those that are doubtful.
    pub doubtful: Vec<SavedFile>,
}

/// Returns what speaks against a file's place: a block that is free or wasn't counted exactly once.
fn find_doubt(counts: &Counts, free: &Reached, file: &SavedFile) -> Option<Defect>
    requires fits { FitsDisk (length counts.now) file.now }
    requires long { length free.now ≡ length counts.now }
    ensures alone { IfNone result (IsAlone counts.now file.now) }
    ensures doubted { IfSome result (IsDoubted counts.now free.now file.now) }
{
    let block = counts.shared_block(file)?;
    if free.is_marked(block) {
        return Some(Defect::FreeBlock(block));
    }
    Some(Defect::Start(VolumeError::BlockTwice(block)))
}

/// Returns what becomes of a file. If a directory names it, it has to be in its place.
fn judge<D: Disk>(
    disk: &mut D,
    counts: &Counts,
    free: &Reached,
    file: &SavedFile,
    is_named: bool,
) -> Result<Verdict, SalvageError>
    requires volume { IsVolumeSize (D.state disk.old).size }
    requires fits { FitsDisk (D.state disk.old).size file.now }
    requires long { length counts.now ≡ (D.state disk.old).size }
    requires marks { length free.now ≡ (D.state disk.old).size }
    ensures verdict { (D.state disk.new).honest
        → IfOk result (IsVerdict (D.state disk.old).contents counts.now free.now is_named file.now) }
    ensures range { IsErrOf result NotVolume → ⊥ }
    ensures reads { (D.state disk.new).honest → OnlyReads (D.state disk.old) (D.state disk.new) }
    ensures same { SameDisk (D.state disk.old) (D.state disk.new) }
    ensures failed { IsErrOf result Device → (D.state disk.new).failures ≡ one_more (D.state disk.old).failures }
    ensures served { (IsErrOf result Device → ⊥) → (D.state disk.new).failures ≡ (D.state disk.old).failures }
{
    match read_data(disk, &file.stored.version) {
        Ok(()) => (),
        Err(VolumeError::BadData(block)) => {
            return Ok(Verdict::Spoiled(Defect::Start(VolumeError::BadData(block))));
        }
        Err(_) => return Err(SalvageError::Device),
    }
    if !is_named {
        return Ok(Verdict::Good);
    }
    match find_doubt(counts, free, file) {
        None => Ok(Verdict::Good),
        Some(fault) => Ok(Verdict::Doubtful(fault)),
    }
}

/// Returns what is lost with a file that isn't taken.
fn loss_of(file: &SavedFile, is_named: bool) -> Cost
    ensures { result ≡ loss_of is_named file.now }
{
    let (ppn, name) = (file.stored.prime.ppn, file.stored.prime.file);
    if is_named {
        return Cost::File(ppn, name);
    }
    Cost::Unnamed(ppn, name, file.at)
}

/// Takes a file if it is good; otherwise reports what is wrong with it.
fn take_file<D: Disk>(
    disk: &mut D,
    counts: &Counts,
    free: &Reached,
    file: SavedFile,
    is_named: bool,
    taken: &mut Taken,
    findings: &mut Vec<Finding>,
) -> Result<(), SalvageError>
    requires volume { IsVolumeSize (D.state disk.old).size }
    requires fits { FitsDisk (D.state disk.old).size file }
    requires long { length counts.now ≡ (D.state disk.old).size }
    requires marks { length free.now ≡ (D.state disk.old).size }
    ensures judged { (D.state disk.new).honest
        → OnOk result (Judges (D.state disk.old).contents counts.now free.now is_named (file ∷ [])
        taken.old.files.items taken.new.files.items taken.old.doubtful.items taken.new.doubtful.items
        findings.old.items findings.new.items) }
    // On every disk a block is taken at most as often as it is in the file.
    ensures few { OnOk result ((n : ℕ) → claims taken.new.files.items n
        ≤ claims taken.old.files.items n + claims (file ∷ []) n) }
    ensures fits { AllByRecursion (FitsDisk (D.state disk.old).size) taken.old.files.items
        → OnOk result (AllByRecursion (FitsDisk (D.state disk.old).size) taken.new.files.items) }
    ensures fits_too { AllByRecursion (FitsDisk (D.state disk.old).size) taken.old.doubtful.items
        → OnOk result (AllByRecursion (FitsDisk (D.state disk.old).size) taken.new.doubtful.items) }
    ensures range { IsErrOf result NotVolume → ⊥ }
    ensures reads { (D.state disk.new).honest → OnlyReads (D.state disk.old) (D.state disk.new) }
    ensures same { SameDisk (D.state disk.old) (D.state disk.new) }
    ensures failed { IsErrOf result Device → (D.state disk.new).failures ≡ one_more (D.state disk.old).failures }
    ensures served { (IsErrOf result Device → ⊥) → (D.state disk.new).failures ≡ (D.state disk.old).failures }
{
    let costs = loss_of(&file, is_named);
    match judge(disk, counts, free, &file, is_named)? {
        Verdict::Good => push_file(&mut taken.files, file),
        Verdict::Doubtful(fault) => {
            push_finding(findings, fault, costs)?;
            push_file(&mut taken.doubtful, file)
        }
        Verdict::Spoiled(fault) => push_finding(findings, fault, costs),
    }
}

/// Takes those of these files that are good, and reports the others.
fn take_each<D: Disk>(
    disk: &mut D,
    counts: &Counts,
    free: &Reached,
    candidates: Vec<SavedFile>,
    are_named: bool,
    taken: &mut Taken,
    findings: &mut Vec<Finding>,
) -> Result<(), SalvageError>
    requires volume { IsVolumeSize (D.state disk.old).size }
    requires fit { AllByRecursion (FitsDisk (D.state disk.old).size) candidates.items }
    requires long { length counts.now ≡ (D.state disk.old).size }
    requires marks { length free.now ≡ (D.state disk.old).size }
    ensures judged { (D.state disk.new).honest
        → OnOk result (Judges (D.state disk.old).contents counts.now free.now are_named candidates.items
        taken.old.files.items taken.new.files.items taken.old.doubtful.items taken.new.doubtful.items
        findings.old.items findings.new.items) }
    // On every disk a block is taken at most as often as it is in these files.
    ensures few { OnOk result ((n : ℕ) → claims taken.new.files.items n
        ≤ claims taken.old.files.items n + claims candidates.items n) }
    ensures fits { AllByRecursion (FitsDisk (D.state disk.old).size) taken.old.files.items
        → OnOk result (AllByRecursion (FitsDisk (D.state disk.old).size) taken.new.files.items) }
    ensures fits_too { AllByRecursion (FitsDisk (D.state disk.old).size) taken.old.doubtful.items
        → OnOk result (AllByRecursion (FitsDisk (D.state disk.old).size) taken.new.doubtful.items) }
    ensures range { IsErrOf result NotVolume → ⊥ }
    ensures reads { (D.state disk.new).honest → OnlyReads (D.state disk.old) (D.state disk.new) }
    ensures same { SameDisk (D.state disk.old) (D.state disk.new) }
    ensures failed { IsErrOf result Device → (D.state disk.new).failures ≡ one_more (D.state disk.old).failures }
    ensures served { (IsErrOf result Device → ⊥) → (D.state disk.new).failures ≡ (D.state disk.old).failures }
{
    for file in candidates {
        take_file(disk, counts, free, file, are_named, taken, findings)?;
    }
    Ok(())
}

/// Counts how often each block is in these files, in a chain, or free.
fn count_uses(
    alloc: Global,
    size: u32,
    named: &[SavedFile],
    chains: &Chains,
    free: &Reached,
) -> Result<Counts, SalvageError>
    requires fit { AllByRecursion (FitsDisk size) named.now }
    requires master { length chains.now.master ≡ size }
    requires directories { length chains.now.directories ≡ size }
    requires free { length free.now ≡ size }
    ensures counted { IfOk result (λ counts.
        CountTo counts (uses named.now chains.now.master chains.now.directories free.now)) }
    ensures long { IfOk result (λ counts. length counts ≡ size) }
    ensures device { IsErrOf result Device → ⊥ }
    ensures range { IsErrOf result NotVolume → ⊥ }
{
    let mut counts = Counts::new(alloc, size)?;
    counts.count_files(named);
    counts.count_marked(&chains.master);
    counts.count_marked(&chains.directories);
    counts.count_marked(free);
    Ok(counts)
}

/// Claims the blocks of these files, file by file, and keeps those of which no block would have more than four claims.
/// The others are reported.
fn keep_few(
    alloc: Global,
    candidates: Vec<SavedFile>,
    are_named: bool,
    claimed: &mut Claims,
    findings: &mut Vec<Finding>,
) -> Result<Vec<SavedFile>, SalvageError>
    requires fit { AllByRecursion (FitsDisk (length claimed.old)) candidates.items }
    ensures kept { IfOk result (λ kept. AreKept are_named claimed.old claimed.new candidates.items kept.items
        findings.old.items findings.new.items) }
    ensures few { ((n : ℕ) → slice_index claimed.old n ≤ 4) → OnOk result ((n : ℕ) → slice_index claimed.new n ≤ 4) }
    ensures fits { IfOk result (λ kept. AllByRecursion (FitsDisk (length claimed.old)) kept.items) }
    ensures long { length claimed.new ≡ length claimed.old }
    ensures device { IsErrOf result Device → ⊥ }
    ensures range { IsErrOf result NotVolume → ⊥ }
{
    let mut kept = Vec::new(alloc);
    for file in candidates {
        let costs = loss_of(&file, are_named);
        match claimed.claim_file(&file) {
            None => push_file(&mut kept, file)?,
            Some(block) => push_finding(findings, Defect::Crowded(block), costs)?,
        }
    }
    Ok(kept)
}

/// Puts the files with the fewest data blocks first; the order of others with as many stays.
fn smallest_first(files: &mut Vec<SavedFile>) -> Result<(), SalvageError>
    ensures same { IsPermutation files.old.items files.new.items }
    ensures sorted { OnOk result (AreBySize files.new.items) }
    ensures only { IfErr result (λ error. error ≡ NoMemory) }
{
    match files.sort_by_key(|file| file.stored.version.count()) {
        Ok(()) => Ok(()),
        Err(_) => Err(SalvageError::NoMemory),
    }
}

/// Takes those of the files that directories name that are whole and in their place: no block of one is in another, in
/// a chain, or free. The other whole ones are doubtful, if no block of one is in four files before it.
/// What is wrong with a file that isn't in its place, or isn't whole, is reported.
///
/// # Errors
///
/// `Device` if the device failed; `NoMemory` if a growth was refused.
pub fn take_named<D: Disk>(
    alloc: Global,
    disk: &mut D,
    named: Vec<SavedFile>,
    chains: &Chains,
    free: &Reached,
    claimed: &mut Claims,
    findings: &mut Vec<Finding>,
) -> Result<Taken, SalvageError>
    requires volume { IsVolumeSize (D.state disk.old).size }
    requires named { AllByRecursion (FitsDisk (D.state disk.old).size) named.items }
    requires master { length chains.now.master ≡ (D.state disk.old).size }
    requires directories { length chains.now.directories ≡ (D.state disk.old).size }
    requires free { length free.now ≡ (D.state disk.old).size }
    requires unclaimed { claimed.old ≡ replicate (D.state disk.old).size 0 }
    ensures placed { (D.state disk.new).honest → (layout : ℕ)
        → AllByRecursion (IsNamedRead (D.state disk.old).size layout (D.state disk.old).contents) named.items
        → AreApart named.items
        → AreMarked (D.state disk.old).size layout (D.state disk.old).contents named.items
        chains.now.master chains.now.directories
        → AreFree (D.state disk.old).size (D.state disk.old).contents free.now
        → IfOk result (λ taken. ArePlaced (D.state disk.old).size layout (D.state disk.old).contents named.items
        taken.files.items taken.doubtful.items findings.new.items) }
    ensures added { (D.state disk.new).honest → (layout : ℕ)
        → AllByRecursion (IsNamedRead (D.state disk.old).size layout (D.state disk.old).contents) named.items
        → AreApart named.items
        → AreMarked (D.state disk.old).size layout (D.state disk.old).contents named.items
        chains.now.master chains.now.directories
        → AreFree (D.state disk.old).size (D.state disk.old).contents free.now
        → IfOk result (λ taken. AreAdded (D.state disk.old).size layout
        (D.state disk.old).contents findings.old.items findings.new.items) }
    // The blocks of those that were taken are claimed, and no others than those of these files.
    ensures held { (D.state disk.new).honest → IfOk result (λ taken. (n : ℕ)
        → claims taken.files.items n + claims taken.doubtful.items n ≤ slice_index claimed.new n) }
    ensures grown { OnOk result ((n : ℕ) → slice_index claimed.new n ≤ claims named.items n) }
    ensures few { OnOk result ((n : ℕ) → slice_index claimed.new n ≤ 4) }
    ensures long { length claimed.new ≡ length claimed.old }
    ensures fits { IfOk result (λ taken. AllByRecursion (FitsDisk (D.state disk.old).size) taken.files.items) }
    ensures fits_too { IfOk result (λ taken.
        AllByRecursion (FitsDisk (D.state disk.old).size) taken.doubtful.items) }
    ensures range { IsErrOf result NotVolume → ⊥ }
    ensures reads { (D.state disk.new).honest → OnlyReads (D.state disk.old) (D.state disk.new) }
    ensures same { SameDisk (D.state disk.old) (D.state disk.new) }
    ensures failed { IsErrOf result Device → (D.state disk.new).failures ≡ one_more (D.state disk.old).failures }
    ensures served { (IsErrOf result Device → ⊥) → (D.state disk.new).failures ≡ (D.state disk.old).failures }
{
    let counts = count_uses(alloc, disk.blocks(), &named, chains, free)?;
    let kept = keep_few(alloc, named, true, claimed, findings)?;
    let mut taken = Taken {
        files: Vec::new(alloc),
        doubtful: Vec::new(alloc),
    };
    take_each(disk, &counts, free, kept, true, &mut taken, findings)?;
    Ok(taken)
}

/// Takes those of the files that no directory names that are whole, those with the fewest data blocks first, as long as
/// no block of one is in four files before it, and reports the others.
///
/// # Errors
///
/// `Device` if the device failed; `NoMemory` if a growth was refused.
pub fn take_unnamed<D: Disk>(
    alloc: Global,
    disk: &mut D,
    unnamed: Vec<SavedFile>,
    free: &Reached,
    claimed: &mut Claims,
    findings: &mut Vec<Finding>,
) -> Result<Vec<SavedFile>, SalvageError>
    requires volume { IsVolumeSize (D.state disk.old).size }
    requires unnamed { AllByRecursion (FitsDisk (D.state disk.old).size) unnamed.items }
    requires free { length free.now ≡ (D.state disk.old).size }
    requires long { length claimed.old ≡ (D.state disk.old).size }
    ensures taken { (D.state disk.new).honest → (layout : ℕ)
        → AllByRecursion (IsRead (D.state disk.old).size layout (D.state disk.old).contents) unnamed.items
        → AreApart unnamed.items
        → IfOk result (λ files. AreTaken (D.state disk.old).size layout (D.state disk.old).contents unnamed.items
        files.items findings.new.items) }
    // Blocks that files of directories, `earlier`, claimed stay claimed.
    ensures added { (D.state disk.new).honest → (layout : ℕ)
        → AllByRecursion (IsRead (D.state disk.old).size layout (D.state disk.old).contents) unnamed.items
        → (earlier : List SavedFile)
        → AllByRecursion (IsNamedRead (D.state disk.old).size layout (D.state disk.old).contents) earlier
        → AreApart (earlier ++ unnamed.items) → ((n : ℕ) → slice_index claimed.old n ≤ claims earlier n)
        → IfOk result (λ files. AreAdded (D.state disk.old).size layout
        (D.state disk.old).contents findings.old.items findings.new.items) }
    ensures few { ((n : ℕ) → slice_index claimed.old n ≤ 4)
        → IfOk result (λ files. (n : ℕ) → slice_index claimed.old n + claims files.items n ≤ 4) }
    ensures fits { IfOk result (λ files. AllByRecursion (FitsDisk (D.state disk.old).size) files.items) }
    ensures range { IsErrOf result NotVolume → ⊥ }
    ensures reads { (D.state disk.new).honest → OnlyReads (D.state disk.old) (D.state disk.new) }
    ensures same { SameDisk (D.state disk.old) (D.state disk.new) }
    ensures failed { IsErrOf result Device → (D.state disk.new).failures ≡ one_more (D.state disk.old).failures }
    ensures served { (IsErrOf result Device → ⊥) → (D.state disk.new).failures ≡ (D.state disk.old).failures }
{
    let mut candidates = unnamed;
    smallest_first(&mut candidates)?;
    let kept = keep_few(alloc, candidates, false, claimed, findings)?;
    let counts = Counts::new(alloc, disk.blocks())?;
    let mut taken = Taken {
        files: Vec::new(alloc),
        doubtful: Vec::new(alloc),
    };
    take_each(disk, &counts, free, kept, false, &mut taken, findings)?;
    Ok(taken.files)
}
