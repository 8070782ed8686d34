//! The survey of a disk: the files that are whole, and what is wrong.
ghost use Rattle.std.specs.Prelude.{◌≡◌, ◌↔◌, ℕ, [], IfOk, IsErrOf, OnOk};
ghost use Rattle.std.specs.List.{AllByRecursion};
ghost use Rattle.blockdisk.specs.Common.{SameDisk, one_more};
ghost use Rattle.changeset.specs.Common.{OnlyReads};
ghost use Rattle.spec_image.specs.Common.{File, Files, SpecHome, IsHome, layout_number, IsVolumeSize, SettledStands};
ghost use Rattle.salvage.specs.Common.{FitsDisk, AreAdded, AreTheFiles, IsSurveyed};
ghost use Rattle.salvage.specs.declared.error.SalvageError.TheVariants.{Device, NotVolume};
ghost use Rattle.salvage.specs.declared.search.Search.TheVariants.{Every};
ghost use Rattle.volume.specs.declared.error.VolumeError.TheVariants.{Device as VolumeDevice};
ghost use Rattle.volume.specs.declared.error.VolumeError.TheVariants.{NoMemory as VolumeNoMemory};

use crate::claims::Claims;
use crate::free::find_free;
use crate::lists::push_finding;
use crate::scan::scan;
use crate::take::{take_named, take_unnamed};
use crate::tree::{Tree, read_tree};
use crate::{Cost, Defect, Finding, SalvageError, SavedFile, Search};
use blockdisk::Disk;
use spec_image::layout::{Layout, is_volume_size};
use std::alloc::Global;
use volume::{VolumeError, read_map};

/// What a survey of a disk finds.
#[derive(Drop)]
pub struct Survey {
    /// The layout in which the disk was read: that of its home copy, or layout 2 if neither copy is valid.
    pub layout: Layout,
    /// The files that are whole and in their place: a directory names each, and no block of one is in another file
    /// that a directory names, in a chain, or free.
    pub files: Vec<SavedFile>,
    /// The files that a directory names and that are whole, but with a block that may not be theirs.
    pub doubtful: Vec<SavedFile>,
    /// The whole files that no directory names, those with the fewest data blocks first. A block is in at most four of
    /// all these files.
    pub unnamed: Vec<SavedFile>,
    /// What is wrong, and what it costs.
    pub findings: Vec<Finding>,
}

/// Returns the fault of the disk for which a start refuses it, or else why nothing is known of it.
fn fault_of(error: VolumeError) -> Result<VolumeError, SalvageError>
    ensures same { IfOk result (λ fault. fault ≡ error) }
    ensures fault { IfOk result (λ fault. (fault ≡ VolumeDevice → ⊥) × (fault ≡ VolumeNoMemory → ⊥)) }
    ensures device { IsErrOf result Device ↔ (error ≡ VolumeDevice) }
    ensures range { IsErrOf result NotVolume → ⊥ }
{
    match error {
        VolumeError::Device => Err(SalvageError::Device),
        VolumeError::NoMemory => Err(SalvageError::NoMemory),
        fault => Ok(fault),
    }
}

/// Reads a disk of which nothing was reported as a start does, and reports what that would refuse: so nothing is
/// reported only of a disk that stands for files.
fn confirm<D: Disk>(
    alloc: Global,
    disk: &mut D,
    findings: &mut Vec<Finding>,
) -> Result<(), SalvageError>
    ensures silent { (D.state disk.new).honest
        → OnOk result (findings.new.items ≡ [] → (files : Files File)
        × SettledStands (D.state disk.old).size (D.state disk.old).contents files) }
    ensures added { (D.state disk.new).honest → (layout : ℕ)
        → OnOk result (AreAdded (D.state disk.old).size layout (D.state disk.old).contents findings.old.items
        findings.new.items) }
    ensures range { IsErrOf result NotVolume → ⊥ }
    ensures reads { (D.state disk.new).honest → OnlyReads (D.state disk.old) (D.state disk.new) }
    ensures same { SameDisk (D.state disk.old) (D.state disk.new) }
    ensures failed { IsErrOf result Device → (D.state disk.new).failures ≡ one_more (D.state disk.old).failures }
    ensures served { (IsErrOf result Device → ⊥) → (D.state disk.new).failures ≡ (D.state disk.old).failures }
{
    if !findings.is_empty() {
        return Ok(());
    }
    match read_map(alloc, disk) {
        Ok(_map) => Ok(()),
        Err(error) => {
            let fault = fault_of(error)?;
            push_finding(findings, Defect::Start(fault), Cost::Nothing)
        }
    }
}

/// Finds the files of a volume that are whole.
fn survey_volume<D: Disk>(
    alloc: Global,
    disk: &mut D,
    search: Search,
) -> Result<Survey, SalvageError>
    requires { IsVolumeSize (D.state disk.old).size }
    ensures surveyed { (D.state disk.new).honest
        → IfOk result (λ survey. IsSurveyed (D.state disk.old).size (layout_number survey.layout)
        (D.state disk.old).contents search survey.files.items survey.doubtful.items survey.unnamed.items
        survey.findings.items) }
    ensures silent { (D.state disk.new).honest
        → IfOk result (λ survey. survey.findings.items ≡ [] → (files : Files File)
        × SettledStands (D.state disk.old).size (D.state disk.old).contents files) }
    ensures layout { (D.state disk.new).honest → (home : SpecHome)
        → IsHome (D.state disk.old).size (D.state disk.old).contents home
        → IfOk result (λ survey. layout_number survey.layout ≡ home.layout) }
    ensures no_layout { (D.state disk.new).honest
        → ((home : SpecHome) → IsHome (D.state disk.old).size (D.state disk.old).contents home → ⊥)
        → IfOk result (λ survey. layout_number survey.layout ≡ 2) }
    ensures fits { IfOk result (λ survey. AllByRecursion (FitsDisk (D.state disk.old).size) survey.files.items
        × AllByRecursion (FitsDisk (D.state disk.old).size) survey.doubtful.items
        × AllByRecursion (FitsDisk (D.state disk.old).size) survey.unnamed.items) }
    ensures range { IsErrOf result NotVolume → ⊥ }
    ensures reads { (D.state disk.new).honest → OnlyReads (D.state disk.old) (D.state disk.new) }
    ensures same { SameDisk (D.state disk.old) (D.state disk.new) }
    ensures failed { IsErrOf result Device → (D.state disk.new).failures ≡ one_more (D.state disk.old).failures }
    ensures served { (IsErrOf result Device → ⊥) → (D.state disk.new).failures ≡ (D.state disk.old).failures }
{
    let tree = read_tree(alloc, disk)?;
    let Tree {
        layout,
        files: named,
        mut findings,
        chains,
    } = tree;
    let free = find_free(alloc, disk, &mut findings)?;
    let found = scan(
        alloc,
        disk,
        search,
        layout,
        named.as_slice(),
        &free,
        &mut findings,
    )?;
    let mut claimed = Claims::new(alloc, disk.blocks())?;
    let taken = take_named(
        alloc,
        disk,
        named,
        &chains,
        &free,
        &mut claimed,
        &mut findings,
    )?;
    let unnamed = take_unnamed(alloc, disk, found, &free, &mut claimed, &mut findings)?;
    confirm(alloc, disk, &mut findings)?;
    Ok(Survey {
        layout,
        files: taken.files,
        doubtful: taken.doubtful,
        unnamed,
        findings,
    })
}

/// Finds the files of a disk that are whole, whatever else is wrong with it. Nothing is written. The contents are taken
/// as they are: for a disk whose gate may be open, `Copied` has them as a start would find them. Nothing is reported
/// only of a disk that a start accepts, and then the files in their place are exactly its files, and there are no
/// others unless free blocks are searched too.
///
/// # Errors
///
/// `NotVolume` if the disk has a number of blocks that no volume has, with nothing read; `Device` if the device failed;
/// `NoMemory` if a growth was refused.
pub fn survey_disk<D: Disk>(
    alloc: Global,
    disk: &mut D,
    search: Search,
) -> Result<Survey, SalvageError>
    ensures surveyed { (D.state disk.new).honest
        → IfOk result (λ survey. IsSurveyed (D.state disk.old).size (layout_number survey.layout)
        (D.state disk.old).contents search survey.files.items survey.doubtful.items survey.unnamed.items
        survey.findings.items) }
    ensures found { (D.state disk.new).honest → (files : Files File)
        → SettledStands (D.state disk.old).size (D.state disk.old).contents files
        → IfOk result (λ survey. AreTheFiles (D.state disk.old).contents survey.files.items files
        × (survey.doubtful.items ≡ [])) }
    // Nor is there then a file that no directory names, unless free blocks are searched too.
    ensures alone { (D.state disk.new).honest → (files : Files File)
        → SettledStands (D.state disk.old).size (D.state disk.old).contents files → (search ≡ Every → ⊥)
        → IfOk result (λ survey. survey.unnamed.items ≡ []) }
    // Nothing is reported only of a disk that stands for files.
    ensures silent { (D.state disk.new).honest
        → IfOk result (λ survey. survey.findings.items ≡ [] → (files : Files File)
        × SettledStands (D.state disk.old).size (D.state disk.old).contents files) }
    // The layout of the home copy, or layout 2 if neither copy is valid.
    ensures layout { (D.state disk.new).honest → (home : SpecHome)
        → IsHome (D.state disk.old).size (D.state disk.old).contents home
        → IfOk result (λ survey. layout_number survey.layout ≡ home.layout) }
    ensures no_layout { (D.state disk.new).honest
        → ((home : SpecHome) → IsHome (D.state disk.old).size (D.state disk.old).contents home → ⊥)
        → IfOk result (λ survey. layout_number survey.layout ≡ 2) }
    // On every disk what is found fits it.
    ensures fits { IfOk result (λ survey. AllByRecursion (FitsDisk (D.state disk.old).size) survey.files.items
        × AllByRecursion (FitsDisk (D.state disk.old).size) survey.doubtful.items
        × AllByRecursion (FitsDisk (D.state disk.old).size) survey.unnamed.items) }
    ensures range { IsErrOf result NotVolume ↔ (IsVolumeSize (D.state disk.old).size → ⊥) }
    ensures untouched { IsErrOf result NotVolume → disk.new ≡ disk.old }
    ensures reads { (D.state disk.new).honest → OnlyReads (D.state disk.old) (D.state disk.new) }
    ensures same { SameDisk (D.state disk.old) (D.state disk.new) }
    ensures failed { IsErrOf result Device → (D.state disk.new).failures ≡ one_more (D.state disk.old).failures }
    ensures served { (IsErrOf result Device → ⊥) → (D.state disk.new).failures ≡ (D.state disk.old).failures }
{
    if !is_volume_size(disk.blocks()) {
        return Err(SalvageError::NotVolume);
    }
    survey_volume(alloc, disk, search)
}
