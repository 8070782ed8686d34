//! The lines of the faults that a survey of a damaged disk found, kind by kind, and a limited number of each kind.
ghost use Rattle.std.specs.Prelude.{◌≡◌, ◌<◌, ◌↔◌, ◌&&◌, true, false, nat_lt, IfOk, IsTrue, [], length, get_or, take};
ghost use Rattle.std.specs.Prelude.{string_bytes};
ghost use Rattle.collection.specs.Common.{EachDone, IsKindDone, IsLineDone, IsPassedOver, IsRestDone, IsWanted};
ghost use Rattle.collection.specs.Common.{defect_text, fault_text, is_device, is_device_kind, is_of_kind, is_wanted};
ghost use Rattle.collection.specs.Common.{is_wanted_cost, kind_of, kind_texts, kinds, most_told, none_counted};
ghost use Rattle.collection.specs.Common.{numbered_path as numbered_text, of_kind, path_of_cost, rest_text};
ghost use Rattle.collection.specs.Common.{unnamed_folder as unnamed_text};
ghost use Rattle.salvage.specs.declared.finding.Defect.TheVariants.{Start};

use crate::ExportTask;
use crate::lines::{added, turn_down};
use crate::paths::{folder_of, numbered_path, path_of, unnamed_folder};
use commands::{SessionError, Tally};
use salvage::{Copied, Cost, Defect, Finding};
use std::alloc::{AllocError, Global};
use std::io::Write;
use volume::VolumeError;
use words36::{FileName, Ppn};

/// The number of kinds of faults.
const KINDS: usize = 15;

/// How many faults of one kind have a line at most. Of the others one line says how many they are.
const MOST_TOLD: usize = 1000;

/// Returns the text of a fault, which is that of a start that it stops.
fn fault_text(alloc: Global, fault: VolumeError) -> Result<String, AllocError>
    ensures { IfOk result (λ text. string_bytes text ≡ fault_text fault) }
{
    match fault {
        VolumeError::NotVolume => format!(in alloc; "?Not a volume"),
        VolumeError::BadHome => format!(in alloc; "?Bad home blocks"),
        VolumeError::BadLog => format!(in alloc; "?Bad log"),
        VolumeError::BadDirectory(block) => format!(in alloc; "?Bad directory block {block}"),
        VolumeError::BadRetrieval(block) => format!(in alloc; "?Bad retrieval block {block}"),
        VolumeError::BlockTwice(block) => format!(in alloc; "?Block {block} reached twice"),
        VolumeError::TableWrong(block) => format!(in alloc; "?Bad table block {block}"),
        VolumeError::BadData(block) => format!(in alloc; "?Bad data block {block}"),
        VolumeError::NoMemory => format!(in alloc; "?No memory"),
        VolumeError::Device | VolumeError::Failed => format!(in alloc; "?Device fault"),
    }
}

/// Returns the text of what is wrong.
fn defect_text(alloc: Global, fault: Defect) -> Result<String, AllocError>
    ensures { IfOk result (λ text. string_bytes text ≡ defect_text fault) }
{
    match fault {
        Defect::Start(fault) => fault_text(alloc, fault),
        Defect::FreeBlock(block) => format!(in alloc; "?Block {block} is free"),
        Defect::TwoOwners(block) => format!(in alloc; "?Block {block} reached twice"),
        Defect::Crowded(block) => format!(in alloc; "?Block {block} reached five times"),
        Defect::Missing(blocks) => format!(in alloc; "?Blocks missing at the end: {blocks}"),
        Defect::Surplus(blocks) => format!(in alloc; "?Blocks after the end: {blocks}"),
        Defect::Tail(bytes) => format!(in alloc; "?Bytes after the last block: {bytes}"),
    }
}

/// Returns the path of a file that no directory names.
fn path_of_unnamed(
    alloc: Global,
    folder: &str,
    owner: Ppn,
    name: FileName,
    prime: u32,
) -> Result<String, AllocError>
    ensures { IfOk result (λ path. string_bytes path
        ≡ numbered_text (unnamed_text folder.now) owner name prime) }
{
    let folder = unnamed_folder(alloc, folder)?;
    numbered_path(alloc, folder.as_str(), owner, name, prime)
}

/// Returns the path that what a fault costs would have had.
fn path_of_cost(alloc: Global, folder: &str, costs: Cost) -> Result<String, AllocError>
    ensures { IfOk result (λ path. string_bytes path ≡ path_of_cost folder.now costs) }
{
    match costs {
        Cost::File(owner, name) => path_of(alloc, folder, owner, name),
        Cost::Unnamed(owner, name, prime) => path_of_unnamed(alloc, folder, owner, name, prime),
        Cost::Directory(owner) => folder_of(alloc, folder, owner),
        Cost::Directories | Cost::Nothing => format!(in alloc; "{folder}"),
    }
}

/// Returns whether the device failed, which counts for more than other faults.
fn is_device(fault: Defect) -> bool
    ensures { result ≡ is_device fault }
{
    match fault {
        Defect::Start(VolumeError::Device) => true,
        _ => false,
    }
}

/// Writes the line of a fault.
fn report_finding<W: Write>(
    alloc: Global,
    task: &ExportTask<'_>,
    finding: Finding,
    writer: &mut W,
) -> Result<Tally, SessionError>
    ensures { IsLineDone task.now finding (W.contents writer.old) (W.contents writer.new) tt tt result }
{
    let Ok(path) = path_of_cost(alloc, task.folder, finding.costs) else {
        return Err(SessionError::NoMemory);
    };
    let Ok(text) = defect_text(alloc, finding.fault) else {
        return Err(SessionError::NoMemory);
    };
    let broke = is_device(finding.fault);
    turn_down(alloc, writer, path.as_str(), text.as_str(), broke)
}

/// Returns the kind of a fault by which a start is refused.
fn kind_of_start(fault: VolumeError) -> usize
    ensures { result ≡ kind_of (Start fault) }
{
    match fault {
        VolumeError::NotVolume => 0,
        VolumeError::BadHome => 1,
        VolumeError::BadLog => 2,
        VolumeError::BadDirectory(_) => 3,
        VolumeError::TableWrong(_) => 4,
        VolumeError::BadRetrieval(_) => 5,
        VolumeError::BlockTwice(_) => 6,
        VolumeError::BadData(_) => 8,
        VolumeError::NoMemory => 9,
        VolumeError::Device | VolumeError::Failed => 10,
    }
}

/// Returns the kind of a fault.
fn kind_of(fault: Defect) -> usize
    ensures { result ≡ kind_of fault }
{
    match fault {
        Defect::Start(fault) => kind_of_start(fault),
        Defect::TwoOwners(_) => 6,
        Defect::FreeBlock(_) => 7,
        Defect::Missing(_) => 11,
        Defect::Surplus(_) => 12,
        Defect::Tail(_) => 13,
        Defect::Crowded(_) => 14,
    }
}

/// Returns the text of a kind: what the texts of its faults share.
fn kind_text(kind: usize) -> &'static str
    requires { kind < length kind_texts }
    ensures { result.now ≡ get_or kind_texts kind [] }
{
    match kind {
        0 => "?Not a volume",
        1 => "?Bad home blocks",
        2 => "?Bad log",
        3 => "?Bad directory block",
        4 => "?Bad table block",
        5 => "?Bad retrieval block",
        6 => "?Block reached twice",
        7 => "?Block is free",
        8 => "?Bad data block",
        9 => "?No memory",
        10 => "?Device fault",
        11 => "?Blocks missing at the end",
        12 => "?Blocks after the end",
        13 => "?Bytes after the last block",
        14 => "?Block reached five times",
        _ => unreachable!(), // there is no other kind
    }
}

/// Returns whether the files of this owner are wanted.
pub(crate) fn is_wanted(wanted: Option<Ppn>, owner: Ppn) -> bool
    ensures value { result ≡ is_wanted wanted owner }
    ensures meaning { IsTrue result ↔ IsWanted wanted owner }
{
    match wanted {
        Some(wanted) => wanted == owner,
        None => true,
    }
}

/// Returns whether what a fault costs is of a directory that is wanted, or of none.
fn is_wanted_cost(wanted: Option<Ppn>, costs: Cost) -> bool
    ensures { result ≡ is_wanted_cost wanted costs }
{
    match costs {
        Cost::File(owner, _) | Cost::Unnamed(owner, _, _) | Cost::Directory(owner) => {
            is_wanted(wanted, owner)
        }
        Cost::Directories | Cost::Nothing => true,
    }
}

/// Returns whether a fault is of this kind, and what it costs is wanted.
fn is_of_kind(wanted: Option<Ppn>, kind: usize, finding: Finding) -> bool
    ensures { result ≡ is_of_kind wanted kind finding }
{
    kind_of(finding.fault) == kind && is_wanted_cost(wanted, finding.costs)
}

/// Returns how many of these faults are of this kind.
fn count_kind(task: &ExportTask<'_>, kind: usize, findings: &[Finding]) -> usize
    ensures { result ≡ length (of_kind task.now.owner kind findings.now) }
{
    let mut count = 0;
    for finding in findings {
        count += usize::from(is_of_kind(task.owner, kind, *finding));
    }
    count
}

/// Returns whether a fault has a line of its own: it is of this kind, and there is room for one more.
fn has_line(wanted: Option<Ppn>, kind: usize, room: usize, finding: Finding) -> bool
    ensures { result ≡ (nat_lt 0 room && is_of_kind wanted kind finding) }
{
    room > 0 && is_of_kind(wanted, kind, finding)
}

/// Writes the line of a fault, if it has one.
fn report_if<W: Write>(
    alloc: Global,
    task: &ExportTask<'_>,
    has_line: bool,
    finding: Finding,
    writer: &mut W,
) -> Result<Tally, SessionError>
    ensures told { has_line ≡ true
        → IsLineDone task.now finding (W.contents writer.old) (W.contents writer.new) tt tt result }
    ensures passed { has_line ≡ false
        → IsPassedOver {S = Unit {0}} (W.contents writer.old) (W.contents writer.new) tt tt result }
{
    if has_line {
        report_finding(alloc, task, finding, writer)
    } else {
        Ok(Tally::none())
    }
}

/// Writes the lines of the first faults of a kind.
fn report_first<W: Write>(
    alloc: Global,
    task: &ExportTask<'_>,
    kind: usize,
    findings: &[Finding],
    writer: &mut W,
) -> Result<Tally, SessionError>
    ensures { EachDone (IsLineDone task.now) (take most_told (of_kind task.now.owner kind findings.now)) none_counted
        (W.contents writer.old) (W.contents writer.new) tt tt result }
{
    let mut tally = Tally::none();
    let mut room = MOST_TOLD;
    for finding in findings {
        let has_line = has_line(task.owner, kind, room, *finding);
        let one = report_if(alloc, task, has_line, *finding, writer)?;
        tally = added(tally, one);
        room = room.saturating_sub(usize::from(has_line));
    }
    Ok(tally)
}

/// Returns the text of the line of faults that have none of their own, all of this kind.
fn rest_text(alloc: Global, kind: usize, more: usize) -> Result<String, AllocError>
    requires { kind < length kind_texts }
    ensures { IfOk result (λ text. string_bytes text ≡ rest_text kind more) }
{
    let text = kind_text(kind);
    format!(in alloc; "{text}: {more} more")
}

/// Returns whether these are faults of a device that failed.
fn is_device_kind(kind: usize) -> bool
    ensures { result ≡ is_device_kind kind }
{
    kind == kind_of(Defect::Start(VolumeError::Device))
}

/// Writes how many faults of a kind have no line of their own, if there are any.
fn report_rest<W: Write>(
    alloc: Global,
    task: &ExportTask<'_>,
    kind: usize,
    more: usize,
    writer: &mut W,
) -> Result<Tally, SessionError>
    requires { kind < length kind_texts }
    ensures { IsRestDone task.now kind more (W.contents writer.old) (W.contents writer.new) tt tt result }
{
    if more == 0 {
        return Ok(Tally::none());
    }
    let Ok(text) = rest_text(alloc, kind, more) else {
        return Err(SessionError::NoMemory);
    };
    let broke = is_device_kind(kind);
    turn_down(alloc, writer, task.folder, text.as_str(), broke)
}

/// Writes the lines of the faults of a kind: the first ones, and how many there are besides.
fn report_kind<W: Write>(
    alloc: Global,
    task: &ExportTask<'_>,
    kind: usize,
    findings: &[Finding],
    writer: &mut W,
) -> Result<Tally, SessionError>
    requires { kind < length kind_texts }
    ensures { IsKindDone task.now findings.now kind (W.contents writer.old) (W.contents writer.new) tt tt result }
{
    let count = count_kind(task, kind, findings);
    let first = report_first(alloc, task, kind, findings, writer)?;
    let more = count.saturating_sub(MOST_TOLD);
    let rest = report_rest(alloc, task, kind, more, writer)?;
    Ok(added(first, rest))
}

/// Writes the lines of these faults, kind by kind.
pub(crate) fn report_findings<W: Write>(
    alloc: Global,
    task: &ExportTask<'_>,
    findings: &[Finding],
    writer: &mut W,
) -> Result<Tally, SessionError>
    ensures { EachDone (IsKindDone task.now findings.now) kinds none_counted (W.contents writer.old)
        (W.contents writer.new) tt tt result }
{
    let mut tally = Tally::none();
    for kind in 0..KINDS {
        let one = report_kind(alloc, task, kind, findings, writer)?;
        tally = added(tally, one);
    }
    Ok(tally)
}

/// Writes the first lines: what is wrong with the copy, before any file of it is read.
pub(crate) fn report_copy<W: Write>(
    alloc: Global,
    task: &ExportTask<'_>,
    copied: &Copied,
    writer: &mut W,
) -> Result<Tally, SessionError>
    ensures { EachDone (IsKindDone task.now copied.now.findings.items) kinds none_counted (W.contents writer.old)
        (W.contents writer.new) tt tt result }
{
    report_findings(alloc, task, copied.findings.as_slice(), writer)
}
