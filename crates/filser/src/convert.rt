//! `convert`: an image copied to a new one of the other form.
ghost use Rattle.std.specs.Prelude.{◌≡◌, ◌≢◌, ◌⊎◌, OnOk, IfOk, IfErr, IfSome, IfNone, IsErrOf, None};
ghost use Rattle.blockdisk.specs.Common.{SameDisk, one_more};
ghost use Rattle.imagefile.specs.Common.{BeganAs, other_form, assumed_in};
ghost use Rattle.volume.specs.declared.error.CopyError.TheVariants.{Source, Target};
ghost use Rattle.volume.specs.declared.error.VolumeError.{VolumeError as Errors};
ghost use Rattle.filser.specs.Common.{IsExplained, IsCopied, IsCopyFault, IsCopyRun, IsLeftAlone, IsNewDisk};
ghost use Rattle.filser.specs.Common.{IsNotMade, IsOnBoth, IsNameTaken, IsOnCopy, IsOnSource, IsTaken, IsLine};
ghost use Rattle.filser.specs.Common.{converted_text, IsMadeLike, IsRefusedBy};
ghost use Rattle.filser.specs.declared.fault.ImageFault.{ImageFault as Faults};
ghost use Rattle.filser.specs.declared.status.Status.TheVariants.{BadArguments};
ghost use Rattle.filser.specs.declared.disks.Disks.TheVariants as disks;

use crate::fault::{report, report_stale_cache};
use crate::image::{NotMade, failure_of, new_file, open_disk, zeros_in};
use crate::message::print_line;
use crate::program::refuse_image;
use crate::progress::Watched;
use crate::streams::stream_at;
use crate::{
    Access, Disks, Host, ImageDisks, ImageFault, MakingLeave, Message, NewDisks, OpeningLeave,
    Refusal, RemovalRight, Run, Seen, Status, Telling,
};
use blockdisk::Disk;
use commands::Volume;
use imagefile::{Form, HostFile, ImageDisk};
use std::alloc::Global;
use std::io::Write;
use volume::{CopyError, VolumeError};

/// How a conversion ended, and what is left of both images.
#[derive(Drop)]
pub(crate) struct Converted {
    /// How it ended.
    pub(crate) status: Status,
    /// What is left of the existing image.
    pub(crate) image: ImageDisks,
    /// What is left of the new image.
    pub(crate) new: NewDisks,
}

/// A conversion that was requested.
#[derive(Clone, Copy)]
pub(crate) struct Conversion<'a> {
    /// The path of the existing image.
    pub(crate) path: &'a str,
    /// Its form.
    pub(crate) form: Form,
    /// The path of the new image, which has the other form.
    pub(crate) new: &'a str,
    /// Whether its progress is reported.
    pub(crate) telling: Telling,
}

impl<'a> Conversion<'a> {
    /// Returns the conversion of the image of this form at a path to a new one.
    pub(crate) fn new(path: &'a str, form: Form, new: &'a str, telling: Telling) -> Self
        ensures { result ≡ record { path = path.entry; form = form; new = new.entry; telling = telling } }
    {
        Conversion {
            path,
            form,
            new,
            telling,
        }
    }
}

/// Writes the contents of an image to a new one of the other form, and prints their number of blocks. Nothing but its
/// recovery is written to the existing image. A new image that can't be finished stays, and the standard error reports
/// that it is incomplete; if `telling` requires it, the progress is reported before.
pub(crate) fn convert_image<H: Host, W: Write, E: Write>(
    host: &H,
    alloc: Global,
    conversion: &Conversion<'_>,
    opening: OpeningLeave,
    making: MakingLeave,
    writer: &mut W,
    errors: &mut E,
) -> Converted
    ensures serving { result.status ≢ BadArguments }
    ensures ran { IsOnBoth (H.facts host.now) (⟦<Run as Seen>⟧.views) conversion.now.path.now
        conversion.now.new.now conversion.now.form (assumed_in opening.supposed) (assumed_in making.supposed)
        opening making
        (W.contents writer.old) (W.contents writer.new) result.image result.new result.status }
    ensures looked { (result.image ≡ disks.Unasked opening)
        ⊎ (H.facts host.now).found conversion.now.new.now None }
    ensures bits { (result.new ≡ disks.Unasked making)
        ⊎ IsMadeLike (H.facts host.now) conversion.now.new.now conversion.now.path.now }
{
    if let Some(fault) = name_taken(host, conversion.new) {
        let image = Disks::Unasked(opening);
        return unconverted(fault, conversion.new, image, making, writer, errors);
    }
    let (path, form) = (conversion.path, conversion.form);
    match open_disk(host, path, form, Access::Read, opening) {
        Ok(disk) => convert_disk(host, alloc, disk, conversion, making, writer, errors),
        Err((fault, disks)) => {
            unconverted(fault, conversion.path, disks, making, writer, errors)
        }
    }
}

/// Returns why a new image can't have a name, if something has that name. If a stream leads there, nothing is printed
/// into it.
fn name_taken<H: Host>(host: &H, new: &str) -> Option<ImageFault>
    ensures taken { IfSome result (IsNameTaken (H.facts host.now) new.now) }
    ensures free { IfNone result ((H.facts host.now).found new.now None) }
{
    host.identity(new)?;
    Some(ImageFault {
        refusal: Refusal::Exists,
        host: stream_at(host, new),
    })
}

/// Reports why an image isn't converted, before a new one is made.
fn unconverted<W: Write, E: Write>(
    fault: ImageFault,
    path: &str,
    image: ImageDisks,
    leave: MakingLeave,
    writer: &mut W,
    errors: &mut E,
) -> Converted
    ensures serving { result.status ≢ BadArguments }
    ensures image { result.image ≡ image }
    ensures new { result.new ≡ disks.Unasked leave }
    ensures explained { IsExplained (W.contents writer.old) (W.contents writer.new) result.status fault }
{
    Converted {
        status: refuse_image(fault, path, writer, errors),
        image,
        new: Disks::Unasked(leave),
    }
}

/// Returns the disk of an image after it was recovered and read as by a start: if the start refuses it, no new file is
/// made.
///
/// # Errors
///
/// As of an image that is served, with the disk.
fn taken<D: Disk>(alloc: Global, disk: D) -> Result<D, (VolumeError, D)>
    ensures taken { IfOk result (λ taken. (D.state taken).honest → IsTaken (D.state disk) (D.state taken)) }
    ensures alone { IfOk result (λ taken. IsLeftAlone (D.state disk) (D.state taken)) }
    ensures same { IfOk result (λ taken. SameDisk (D.state disk) (D.state taken)) }
    ensures counted { IfOk result (λ taken. (D.state taken).failures ≡ (D.state disk).failures) }
    ensures refused { IfErr result (λ refused. IsRefusedBy (D.state disk) (D.state refused.1) refused.0) }
    ensures alone_refused { IfErr result (λ refused. IsLeftAlone (D.state disk) (D.state refused.1)) }
{
    match Volume::open(alloc, disk) {
        Ok(volume) => Ok(volume.into_disk()),
        Err(refused) => Err(refused),
    }
}

/// Writes the contents of an image's disk to a new image.
fn convert_disk<H: Host, W: Write, E: Write>(
    host: &H,
    alloc: Global,
    disk: ImageDisk<HostFile>,
    conversion: &Conversion<'_>,
    leave: MakingLeave,
    writer: &mut W,
    errors: &mut E,
) -> Converted
    ensures serving { result.status ≢ BadArguments }
    ensures ran { (from : _) × (result.image ≡ disks.Unserved from)
        × SameDisk (⟦<ImageDisk<HostFile> as Disk>⟧.state disk) (⟦<ImageDisk<HostFile> as Disk>⟧.state from)
        × IsLeftAlone (⟦<ImageDisk<HostFile> as Disk>⟧.state disk) (⟦<ImageDisk<HostFile> as Disk>⟧.state from)
        × IsOnSource (H.facts host.now) (⟦<Run as Seen>⟧.views) conversion.now.new.now
        (other_form conversion.now.form) (assumed_in leave.supposed) leave (⟦<ImageDisk<HostFile> as Disk>⟧.state disk)
        (⟦<ImageDisk<HostFile> as Disk>⟧.state from) (W.contents writer.old) (W.contents writer.new) result.new
        result.status }
    ensures bits { (result.new ≡ disks.Unasked leave)
        ⊎ IsMadeLike (H.facts host.now) conversion.now.new.now conversion.now.path.now }
{
    match taken(alloc, disk) {
        Ok(source) => write_new(host, alloc, source, conversion, leave, writer, errors),
        Err((error, disk)) => {
            let fault = ImageFault {
                refusal: Refusal::Start(error),
                host: failure_of(disk.file()),
            };
            let path = conversion.path;
            let image = Disks::Unserved(disk);
            let outcome = unconverted(fault, path, image, leave, writer, errors);
            report_stale_cache(errors, path, &fault.host);
            outcome
        }
    }
}

/// Returns the disk of a new image, which is `blocks` blocks of zeros, and the right to remove its file. The file gets
/// the permission bits of the existing image's. A file that was made and can't be filled stays, and a report says so.
///
/// # Errors
///
/// As of `new_file` and `zeros_in`.
fn new_target<H: Host, E: Write>(
    host: &H,
    conversion: &Conversion<'_>,
    blocks: u32,
    leave: MakingLeave,
    errors: &mut E,
) -> Result<(ImageDisk<HostFile>, RemovalRight), NotMade>
    ensures made { IfOk result (λ made. IsNewDisk (H.facts host.now) (⟦<Run as Seen>⟧.views) conversion.now.new.now
        (other_form conversion.now.form) blocks (assumed_in leave.supposed) made.0) }
    ensures began { IfOk result
        (λ made. BeganAs (other_form conversion.now.form) (assumed_in leave.supposed)
        (⟦<ImageDisk<HostFile> as Disk>⟧.state made.0)) }
    ensures counted { IfOk result (λ made. (⟦<ImageDisk<HostFile> as Disk>⟧.state made.0).failures ≡ 0) }
    ensures denied { IfErr result (λ denied. IsNotMade (H.facts host.now) (⟦<Run as Seen>⟧.views)
        conversion.now.new.now (other_form conversion.now.form) blocks (assumed_in leave.supposed) denied.0 denied.1) }
    ensures bits { IsMadeLike (H.facts host.now) conversion.now.new.now conversion.now.path.now }
{
    let new = conversion.new;
    let (made, supposed) = match new_file(host, new, Some(conversion.path), leave) {
        Ok(made) => made,
        Err(fault) => return Err((fault, Disks::None)),
    };
    let form = conversion.form.other();
    match zeros_in(host, made.file, new, form, blocks, made.leave, supposed) {
        Ok(disk) => Ok((disk, made.right)),
        Err(denied) => {
            report_incomplete(new, errors);
            Err(denied)
        }
    }
}

/// Writes the contents of a disk to a new image of the other form.
fn write_new<H: Host, W: Write, E: Write>(
    host: &H,
    alloc: Global,
    source: ImageDisk<HostFile>,
    conversion: &Conversion<'_>,
    leave: MakingLeave,
    writer: &mut W,
    errors: &mut E,
) -> Converted
    ensures serving { result.status ≢ BadArguments }
    ensures ran { (from : _) × (result.image ≡ disks.Unserved from)
        × SameDisk (⟦<ImageDisk<HostFile> as Disk>⟧.state source) (⟦<ImageDisk<HostFile> as Disk>⟧.state from)
        × ((was : _)
        → SameDisk (⟦<ImageDisk<HostFile> as Disk>⟧.state was) (⟦<ImageDisk<HostFile> as Disk>⟧.state source)
        → IsLeftAlone (⟦<ImageDisk<HostFile> as Disk>⟧.state was) (⟦<ImageDisk<HostFile> as Disk>⟧.state source)
        → IsLeftAlone (⟦<ImageDisk<HostFile> as Disk>⟧.state was) (⟦<ImageDisk<HostFile> as Disk>⟧.state from))
        × IsOnCopy (H.facts host.now) (⟦<Run as Seen>⟧.views) conversion.now.new.now
        (other_form conversion.now.form) (assumed_in leave.supposed) (⟦<ImageDisk<HostFile> as Disk>⟧.state source)
        (⟦<ImageDisk<HostFile> as Disk>⟧.state from) (W.contents writer.old) (W.contents writer.new) result.new
        result.status }
    ensures bits { IsMadeLike (H.facts host.now) conversion.now.new.now conversion.now.path.now }
{
    match new_target(host, conversion, source.blocks(), leave, errors) {
        Ok((target, right)) => { copy_to(alloc, source, target, right, conversion, writer, errors) }
        Err((fault, disks)) => Converted {
            status: refuse_image(fault, conversion.new, writer, errors),
            image: Disks::Unserved(source),
            new: disks,
        },
    }
}

/// Copies a disk to another with the same number of blocks, and reports the result.
fn copy_to<W: Write, E: Write>(
    alloc: Global,
    source: ImageDisk<HostFile>,
    target: ImageDisk<HostFile>,
    right: RemovalRight,
    conversion: &Conversion<'_>,
    writer: &mut W,
    errors: &mut E,
) -> Converted
    requires { (⟦<ImageDisk<HostFile> as Disk>⟧.state source).size
        ≡ (⟦<ImageDisk<HostFile> as Disk>⟧.state target).size }
    ensures serving { result.status ≢ BadArguments }
    ensures ran { (from : _) × (to : _) × (result.image ≡ disks.Unserved from)
        × SameDisk (⟦<ImageDisk<HostFile> as Disk>⟧.state source) (⟦<ImageDisk<HostFile> as Disk>⟧.state from)
        × IsLeftAlone (⟦<ImageDisk<HostFile> as Disk>⟧.state source) (⟦<ImageDisk<HostFile> as Disk>⟧.state from)
        × SameDisk (⟦<ImageDisk<HostFile> as Disk>⟧.state target) (⟦<ImageDisk<HostFile> as Disk>⟧.state to)
        × IsCopyRun (⟦<Run as Seen>⟧.views) (⟦<ImageDisk<HostFile> as Disk>⟧.state source)
        (⟦<ImageDisk<HostFile> as Disk>⟧.state from) (⟦<ImageDisk<HostFile> as Disk>⟧.state target) to
        (W.contents writer.old) (W.contents writer.new) result.new result.status }
{
    let mut source = source;
    let (copied, target) = copy(alloc, &mut source, target, conversion.telling, errors);
    match copied {
        Ok(()) => Converted {
            status: report_converted(source.blocks(), writer),
            image: Disks::Unserved(source),
            new: Disks::Made(target, right),
        },
        Err(error) => uncopied(error, source, target, conversion, writer, errors),
    }
}

/// Reports why a copy wasn't made. What was written of it stays, and a report says so.
fn uncopied<W: Write, E: Write>(
    error: CopyError,
    source: ImageDisk<HostFile>,
    target: ImageDisk<HostFile>,
    conversion: &Conversion<'_>,
    writer: &mut W,
    errors: &mut E,
) -> Converted
    ensures serving { result.status ≢ BadArguments }
    ensures image { result.image ≡ disks.Unserved source }
    ensures new { result.new ≡ disks.Unserved target }
    ensures explained { (fault : Faults) × IsCopyFault error fault
        × IsExplained (W.contents writer.old) (W.contents writer.new) result.status fault }
{
    report_incomplete(conversion.new, errors);
    let (path, fault) = match error {
        CopyError::Source(error) => (
            conversion.path,
            ImageFault {
                refusal: Refusal::Start(error),
                host: failure_of(source.file()),
            },
        ),
        CopyError::Target => (
            conversion.new,
            ImageFault {
                refusal: Refusal::Start(VolumeError::Device),
                host: failure_of(target.file()),
            },
        ),
    };
    let status = refuse_image(fault, path, writer, errors);
    report_stale_cache(errors, conversion.path, &failure_of(source.file()));
    Converted {
        status,
        image: Disks::Unserved(source),
        new: Disks::Unserved(target),
    }
}

/// Copies a disk to another with the same number of blocks, reports the progress, and hands the other disk back.
///
/// The result is that of `Volume::copy_image`.
fn copy<E: Write>(
    alloc: Global,
    source: &mut ImageDisk<HostFile>,
    target: ImageDisk<HostFile>,
    telling: Telling,
    errors: &mut E,
) -> (Result<(), CopyError>, ImageDisk<HostFile>)
    requires { (⟦<ImageDisk<HostFile> as Disk>⟧.state source.old).size
        ≡ (⟦<ImageDisk<HostFile> as Disk>⟧.state target).size }
    // If both files keep to the model up to the end, the copy stands for what the image stood for.
    ensures copied { (⟦<ImageDisk<HostFile> as Disk>⟧.state source.new).honest
        → (⟦<ImageDisk<HostFile> as Disk>⟧.state result.1).honest
        → OnOk result.0 (IsCopied (⟦<ImageDisk<HostFile> as Disk>⟧.state source.old)
        (⟦<ImageDisk<HostFile> as Disk>⟧.state source.new) (⟦<ImageDisk<HostFile> as Disk>⟧.state target)
        (⟦<ImageDisk<HostFile> as Disk>⟧.state result.1)) }
    ensures alone { IsLeftAlone (⟦<ImageDisk<HostFile> as Disk>⟧.state source.old)
        (⟦<ImageDisk<HostFile> as Disk>⟧.state source.new) }
    ensures same_source { SameDisk (⟦<ImageDisk<HostFile> as Disk>⟧.state source.old)
        (⟦<ImageDisk<HostFile> as Disk>⟧.state source.new) }
    ensures same_target { SameDisk (⟦<ImageDisk<HostFile> as Disk>⟧.state target)
        (⟦<ImageDisk<HostFile> as Disk>⟧.state result.1) }
    ensures refused { (error : Errors) → IsErrOf result.0 (Source error)
        → IsRefusedBy (⟦<ImageDisk<HostFile> as Disk>⟧.state source.old)
        (⟦<ImageDisk<HostFile> as Disk>⟧.state source.new) error }
    ensures failed { IsErrOf result.0 Target → (⟦<ImageDisk<HostFile> as Disk>⟧.state result.1).failures
        ≡ one_more (⟦<ImageDisk<HostFile> as Disk>⟧.state target).failures }
{
    let mut watched = Watched::new(target, telling, errors);
    let copied = Volume::copy_image(alloc, source, &mut watched);
    watched.end();
    (copied, watched.inner)
}

/// Prints how many blocks were converted.
fn report_converted<W: Write>(blocks: u32, writer: &mut W) -> Status
    ensures serving { result ≢ BadArguments }
    ensures told { IsLine (W.contents writer.old) (W.contents writer.new) result 0 (converted_text blocks) }
{
    let message = Message::Numbered("Converted ", blocks, " blocks");
    print_line(writer, &message, Status::Done)
}

/// Reports that a new image stays as it was when the conversion ended.
fn report_incomplete<E: Write>(new: &str, errors: &mut E) {
    report(errors, new, &"incomplete");
}
