//! Images: opening an existing one, and making a new one.
ghost use Rattle.std.specs.Prelude.{◌≡◌, Ok, Err, None, IfOk, IfErr, IfNone, IfSome, OnOk, option_map, pos, ◌<ℤ◌, ℕ};
ghost use Rattle.blockdisk.specs.Common.{SameDisk};
ghost use Rattle.imagefile.specs.Common.{BeganAs, BeganCut, failure_of as reason_of, assumed_in, Unseen};
ghost use Rattle.imagefile.specs.declared.form.Form.{Form as Forms};
ghost use Rattle.imagefile.specs.declared.size.ImageError.TheVariants.{BadSize, Device as NoLength};
ghost use Rattle.volume.specs.declared.error.VolumeError.TheVariants.{NotVolume};
ghost use Rattle.filser.specs.Common.{IsNoImage, IsUnfilled, IsUnfit, IsUnlocked, IsUnmade, IsUnopened, of_host};
ghost use Rattle.filser.specs.Common.{IsKept, IsMadePlain, IsOpened, IsOwn, HasNoDisk, IsDenied, IsEmptyVolume};
ghost use Rattle.filser.specs.Common.{IsNewDisk};
ghost use Rattle.filser.specs.Common.{IsCleared, IsDeniedCut, IsDeviceFault, IsNoCutImage, IsNoNewDisk, IsNotMade};
ghost use Rattle.filser.specs.declared.host.Access.TheVariants.{Read};
ghost use Rattle.filser.specs.declared.refusal.Refusal.TheVariants.{Start};
ghost use Rattle.filser.specs.declared.fault.HostFault.TheVariants.{System, Memory as OutOfMemory};
ghost use Rattle.filser.specs.declared.disks.Disks.TheVariants as disks;

use crate::fault::{report_fault, report_stale_cache};
use crate::streams::{is_stream, stream_of};
use crate::{
    Access, Disks, FillingLeave, Host, HostFault, Image, ImageDisks, ImageFault, MakingLeave,
    NewDisks, NewFile, OpeningLeave, Refusal, RemovalRight, Run, Seen,
};
use blockcache::Cached;
use blockdisk::{Disk, NoMemory};
use commands::Volume;
use imagefile::{AssumedImage, Durable, Form, HostFile, ImageDisk, ImageError};
use spec_image::layout::Layout;
use std::alloc::Global;
use std::fs::TryLockError;
use std::io::{ErrorKind, Write};
use std::num::NonZeroUsize;
use volume::VolumeError;

/// How many blocks of an image are cached in memory while it is served.
const KEPT_BLOCKS: usize = 256;

/// An image that the words name.
#[derive(Clone, Copy, Debug, PartialEq, Eq)]
pub(crate) struct NamedImage<'a> {
    /// Its path.
    pub(crate) path: &'a str,
    /// Its form.
    pub(crate) form: Form,
}

/// The volume of a new image.
#[derive(Clone, Copy, Debug, PartialEq, Eq)]
pub(crate) struct NewVolume {
    /// How many blocks it has.
    pub(crate) blocks: u32,
    /// The form of its image.
    pub(crate) form: Form,
    /// Its layout.
    pub(crate) layout: Layout,
}

impl NewVolume {
    /// Returns a volume of this layout on an image of this form with this many blocks.
    pub(crate) fn new(blocks: u32, form: Form, layout: Layout) -> Self
        ensures { result ≡ record { blocks = blocks; form = form; layout = layout } }
    {
        NewVolume {
            blocks,
            form,
            layout,
        }
    }
}

/// Why an image isn't served, and what is left of its disk.
pub(crate) type Denied = (ImageFault, ImageDisks);

/// Why an image isn't made, and what is left of its disk.
pub(crate) type NotMade = (ImageFault, NewDisks);

/// Returns why the first call that failed on a file did so, for reports.
pub(crate) fn failure_of(file: &HostFile) -> Option<HostFault>
    ensures { result ≡ option_map System (reason_of file.now) }
{
    file.failure().map(HostFault::System)
}

/// Reports why the file of an image failed, if it did, and what to do then.
pub(crate) fn report_failure<E: Write>(errors: &mut E, path: &str, image: &Image) {
    let fault = failure_of(image.inner().file());
    if let Some(fault) = &fault {
        report_fault(errors, path, fault);
    }
    report_stale_cache(errors, path, &fault);
}

/// Locks the file of an image for this process alone, until the process ends. It never waits.
///
/// # Errors
///
/// `InUse` if another process has it, `System` if there is no lock, as on a file system without locks.
fn claim<H: Host>(host: &H, file: &H::File) -> Result<(), ImageFault>
    ensures kept { OnOk result (IsKept (H.facts host.now) file.now) }
    ensures refused { IfErr result (IsUnlocked (H.facts host.now) file.now) }
{
    match host.try_lock(file) {
        Ok(()) => Ok(()),
        Err(TryLockError::WouldBlock) => Err(ImageFault::from(HostFault::InUse)),
        Err(TryLockError::Error(error)) => Err(ImageFault::from(HostFault::System(error))),
    }
}

/// Returns an open file, locked for this process, unless it has the number of a standard stream: what is printed would
/// then land in it.
///
/// # Errors
///
/// `Input`, `Output` or `Errors`, by the number; as of `claim`.
fn own<H: Host>(host: &H, file: H::File) -> Result<H::File, ImageFault>
    ensures own { IfOk result (λ kept. (kept ≡ file) × IsOwn (H.facts host.now) kept) }
    ensures refused { IfErr result (IsUnfit (H.facts host.now) file) }
{
    let number = host.number(&file);
    if is_stream(number) {
        return Err(ImageFault::from(stream_of(number)));
    }
    claim(host, &file)?;
    Ok(file)
}

/// Returns the open file of an image, locked for this process; it isn't one of the standard streams.
///
/// # Errors
///
/// `InUse` if another process has it, `System` if the file can't be opened or locked, or the stream whose number it
/// has.
fn open_file<H: Host>(
    host: &H,
    path: &str,
    access: Access,
    leave: OpeningLeave,
) -> Result<(H::File, AssumedImage), ImageFault>
    ensures opened { IfOk result (λ opened. (H.facts host.now).opened path.now access (Ok opened.0)
        × IsOwn (H.facts host.now) opened.0 × (assumed_in opened.1 ≡ assumed_in leave.supposed)) }
    ensures refused { IfErr result (IsUnopened (H.facts host.now) path.now access) }
{
    match host.open(path, access, leave) {
        Ok((file, supposed)) => Ok((own(host, file)?, supposed)),
        Err(error) => Err(ImageFault::from(HostFault::System(error))),
    }
}

/// Returns why no disk was made of a file.
fn no_disk(error: ImageError, file: &HostFile) -> ImageFault
    ensures bad { error ≡ BadSize → result ≡ record { refusal = Start NotVolume; host = None } }
    ensures failed { error ≡ NoLength → IsDeviceFault result }
{
    match error {
        ImageError::BadSize => ImageFault {
            refusal: Refusal::Start(VolumeError::NotVolume),
            host: None,
        },
        ImageError::Device => ImageFault {
            refusal: Refusal::Start(VolumeError::Device),
            host: failure_of(file),
        },
    }
}

/// Returns the disk of this form in a file that began as supposed.
///
/// # Errors
///
/// The file: `NotVolume` if its length is not that of an image, `Device` if the device failed.
fn disk_in<H: Host>(
    host: &H,
    file: H::File,
    form: Form,
    supposed: AssumedImage,
) -> Result<ImageDisk<HostFile>, (ImageFault, HostFile)>
    requires { pos 2 <ℤ (H.facts host.now).number file }
    ensures supposed { (H.facts host.now).supposed file (assumed_in supposed) }
    ensures began { IfOk result
        (λ disk. BeganAs form (assumed_in supposed) (⟦<ImageDisk<HostFile> as Disk>⟧.state disk)) }
    ensures counted { IfOk result (λ disk. (⟦<ImageDisk<HostFile> as Disk>⟧.state disk).failures ≡ 0) }
    ensures refused { IfErr result (λ refused. IsNoImage form (assumed_in supposed)
        (⟦<HostFile as Durable>⟧.state refused.1) refused.0) }
{
    match host.disk_of(file, form, supposed) {
        Ok(disk) => Ok(disk),
        Err((error, file)) => Err((no_disk(error, &file), file)),
    }
}

/// Returns the disk of the whole blocks of this form in a file that began as supposed, and how many bytes follow them.
///
/// # Errors
///
/// The file: `NotVolume` if it has 2^32 whole blocks or more, `Device` if the device failed.
fn start_in<H: Host>(
    host: &H,
    file: H::File,
    form: Form,
    supposed: AssumedImage,
) -> Result<(ImageDisk<HostFile>, u32), (ImageFault, HostFile)>
    requires { pos 2 <ℤ (H.facts host.now).number file }
    ensures supposed { (H.facts host.now).supposed file (assumed_in supposed) }
    ensures began { IfOk result
        (λ cut. BeganCut form (assumed_in supposed) cut.1 (⟦<ImageDisk<HostFile> as Disk>⟧.state cut.0)) }
    ensures counted { IfOk result (λ cut. (⟦<ImageDisk<HostFile> as Disk>⟧.state cut.0).failures ≡ 0) }
    ensures refused { IfErr result (λ refused. IsNoCutImage form (assumed_in supposed)
        (⟦<HostFile as Durable>⟧.state refused.1) refused.0) }
{
    match host.start_of(file, form, supposed) {
        Ok(cut) => Ok(cut),
        Err((error, file)) => Err((no_disk(error, &file), file)),
    }
}

/// Returns the disk of an image of this form at a path, whose file is locked for this process and began as supposed.
///
/// # Errors
///
/// As of `open_file` and `disk_in`.
pub(crate) fn open_disk<H: Host>(
    host: &H,
    path: &str,
    form: Form,
    access: Access,
    leave: OpeningLeave,
) -> Result<ImageDisk<HostFile>, Denied>
    ensures opened { IfOk result (λ disk. IsOpened (H.facts host.now) path.now access (assumed_in leave.supposed)) }
    ensures began { IfOk result
        (λ disk. BeganAs form (assumed_in leave.supposed) (⟦<ImageDisk<HostFile> as Disk>⟧.state disk)) }
    ensures counted { IfOk result (λ disk. (⟦<ImageDisk<HostFile> as Disk>⟧.state disk).failures ≡ 0) }
    ensures denied { IfErr result (λ denied. IsDenied (H.facts host.now) (⟦<Run as Seen>⟧.views) path.now access form
        (assumed_in leave.supposed) denied.0 denied.1) }
    ensures undone { IfErr result (λ denied. HasNoDisk denied.1) }
{
    let (file, supposed) = match open_file(host, path, access, leave) {
        Ok(opened) => opened,
        Err(fault) => return Err((fault, Disks::None)),
    };
    match disk_in(host, file, form, supposed) {
        Ok(disk) => Ok(disk),
        Err((fault, file)) => Err((fault, Disks::NoImage(file))),
    }
}

/// Returns the disk of the whole blocks of an image of this form at a path, which is only to be read, and how many
/// bytes follow them. Its file is locked for this process and began as supposed.
///
/// # Errors
///
/// As of `open_file` and `start_in`.
pub(crate) fn open_start<H: Host>(
    host: &H,
    path: &str,
    form: Form,
    leave: OpeningLeave,
) -> Result<(ImageDisk<HostFile>, u32), Denied>
    ensures opened { IfOk result (λ cut. IsOpened (H.facts host.now) path.now Read (assumed_in leave.supposed)) }
    ensures began { IfOk result (λ cut. BeganCut form (assumed_in leave.supposed) cut.1
        (⟦<ImageDisk<HostFile> as Disk>⟧.state cut.0)) }
    ensures counted { IfOk result (λ cut. (⟦<ImageDisk<HostFile> as Disk>⟧.state cut.0).failures ≡ 0) }
    ensures denied { IfErr result (λ denied. IsDeniedCut (H.facts host.now) (⟦<Run as Seen>⟧.views) path.now form
        (assumed_in leave.supposed) denied.0 denied.1) }
{
    let (file, supposed) = match open_file(host, path, Access::Read, leave) {
        Ok(opened) => opened,
        Err(fault) => return Err((fault, Disks::None)),
    };
    match start_in(host, file, form, supposed) {
        Ok(cut) => Ok(cut),
        Err((fault, file)) => Err((fault, Disks::NoImage(file))),
    }
}

/// Returns the same disk, with memory, if there is any, to read several neighbouring blocks by one call of its file,
/// and to read ahead.
fn with_room(alloc: Global, disk: ImageDisk<HostFile>) -> ImageDisk<HostFile>
    ensures began { (form : Forms) (u : Unseen) → BeganAs form u (⟦<ImageDisk<HostFile> as Disk>⟧.state disk)
        → BeganAs form u (⟦<ImageDisk<HostFile> as Disk>⟧.state result) }
    ensures counted { (⟦<ImageDisk<HostFile> as Disk>⟧.state result).failures
        ≡ (⟦<ImageDisk<HostFile> as Disk>⟧.state disk).failures }
{
    disk.with_room(alloc)
}

/// Returns the same disk, with room to cache blocks of it in memory.
///
/// # Errors
///
/// `Memory` if that room isn't found: the disk is unchanged.
fn keep_blocks(alloc: Global, disk: ImageDisk<HostFile>) -> Result<Image, Denied>
    ensures began { (form : Forms) (u : Unseen) → BeganAs form u (⟦<ImageDisk<HostFile> as Disk>⟧.state disk)
        → IfOk result (λ image. BeganAs form u (⟦<Cached<ImageDisk<HostFile>> as Disk>⟧.state image)) }
    ensures counted { IfOk result (λ image. (⟦<Cached<ImageDisk<HostFile>> as Disk>⟧.state image).failures
        ≡ (⟦<ImageDisk<HostFile> as Disk>⟧.state disk).failures) }
    ensures denied { IfErr result (λ denied. (denied.0 ≡ of_host OutOfMemory)
        × (denied.1 ≡ disks.Unserved disk)) }
{
    let room = NonZeroUsize::new(KEPT_BLOCKS).unwrap();
    match Cached::new(alloc, disk, room) {
        Ok(image) => Ok(image),
        Err((NoMemory, disk)) => Err((ImageFault::from(HostFault::Memory), Disks::Unserved(disk))),
    }
}

/// Returns the image of this form at a path, whose file is locked for this process and began as supposed, with room to
/// cache blocks of it in memory. Nothing of it was read or written yet.
///
/// # Errors
///
/// As of `open_disk`; `Memory` if that room isn't found.
pub(crate) fn open_image<H: Host>(
    host: &H,
    alloc: Global,
    path: &str,
    form: Form,
    access: Access,
    leave: OpeningLeave,
) -> Result<Image, Denied>
    ensures opened { IfOk result (λ image. IsOpened (H.facts host.now) path.now access (assumed_in leave.supposed)) }
    ensures began { IfOk result
        (λ image. BeganAs form (assumed_in leave.supposed) (⟦<Cached<ImageDisk<HostFile>> as Disk>⟧.state image)) }
    ensures counted { IfOk result (λ image. (⟦<Cached<ImageDisk<HostFile>> as Disk>⟧.state image).failures ≡ 0) }
    ensures denied { IfErr result (λ denied. IsDenied (H.facts host.now) (⟦<Run as Seen>⟧.views) path.now access form
        (assumed_in leave.supposed) denied.0 denied.1) }
{
    let disk = open_disk(host, path, form, access, leave)?;
    let disk = with_room(alloc, disk);
    keep_blocks(alloc, disk)
}

/// Makes a file at a path, if nothing is there, and returns it with the right to remove it. It gets the permission bits
/// of the file at `like`, if one is named, and otherwise those of any new file.
///
/// # Errors
///
/// `Exists` if something has that name, `Device` if the file can't be made.
pub(crate) fn new_file<H: Host>(
    host: &H,
    path: &str,
    like: Option<&str>,
    leave: MakingLeave,
) -> Result<(NewFile<H::File>, AssumedImage), ImageFault>
    ensures made { IfOk result (λ made. (H.facts host.now).created path.now (Ok made.0.file)
        × (assumed_in made.1 ≡ assumed_in leave.supposed)) }
    ensures bits { IfOk result (λ made. IfSome like.entry (λ other. (H.facts host.now).bits_of made.0.file other.now)) }
    ensures plain { IfOk result (λ made. IfNone like.entry ((H.facts host.now).own_bits made.0.file)) }
    ensures refused { IfErr result (IsUnmade (H.facts host.now) path.now) }
{
    match host.create(path, like, leave) {
        Ok(made) => Ok(made),
        Err(error) if error.kind() == ErrorKind::AlreadyExists => Err(ImageFault {
            refusal: Refusal::Exists,
            host: Some(HostFault::System(error)),
        }),
        Err(error) => Err(ImageFault::from(HostFault::System(error))),
    }
}

/// Locks a file that was made at a path for this process, and fills it with `blocks` blocks of zeros.
///
/// # Errors
///
/// The system's if it can't be locked or filled, or another process has it.
fn filled<H: Host>(
    host: &H,
    file: H::File,
    path: &str,
    form: Form,
    blocks: u32,
    leave: FillingLeave,
) -> Result<H::File, ImageFault>
    requires { (H.facts host.now).created path.now (Ok file) }
    ensures filled { IfOk result (λ kept. (kept ≡ file) × IsOwn (H.facts host.now) kept
        × (H.facts host.now).filled kept form blocks (Ok tt)) }
    ensures refused { IfErr result (λ fault. IsUnfilled (H.facts host.now) path.now form blocks fault) }
{
    let file = own(host, file)?;
    match host.fill(path, &file, form, blocks, leave) {
        Ok(()) => Ok(file),
        Err(error) => Err(ImageFault::from(HostFault::System(error))),
    }
}

/// Returns the disk, if it has as many blocks as were written.
///
/// # Errors
///
/// `WrongLength` if the host has given it another number.
fn as_long(disk: ImageDisk<HostFile>, blocks: u32) -> Result<ImageDisk<HostFile>, NotMade>
    ensures same { IfOk result (λ long. (long ≡ disk)
        × ((⟦<ImageDisk<HostFile> as Disk>⟧.state long).size ≡ blocks)) }
    ensures denied { IfErr result (λ denied. (denied.1 ≡ disks.Unserved disk)
        × IsNoNewDisk (⟦<ImageDisk<HostFile> as Disk>⟧.state disk).size
        (⟦<ImageDisk<HostFile> as Disk>⟧.state disk).failures blocks denied.0) }
{
    if disk.blocks() == blocks {
        Ok(disk)
    } else {
        Err((
            ImageFault::from(HostFault::WrongLength),
            Disks::Unserved(disk),
        ))
    }
}

/// Returns the disk of `blocks` blocks of zeros in a file that was made at a path.
///
/// # Errors
///
/// `Device` if the file can't be written, or another process has it.
pub(crate) fn zeros_in<H: Host>(
    host: &H,
    file: H::File,
    path: &str,
    form: Form,
    blocks: u32,
    leave: FillingLeave,
    supposed: AssumedImage,
) -> Result<ImageDisk<HostFile>, NotMade>
    requires { (H.facts host.now).created path.now (Ok file) }
    ensures made { IfOk result (λ disk. IsNewDisk (H.facts host.now) (⟦<Run as Seen>⟧.views) path.now form
        blocks (assumed_in supposed) disk) }
    ensures began { IfOk result
        (λ disk. BeganAs form (assumed_in supposed) (⟦<ImageDisk<HostFile> as Disk>⟧.state disk)) }
    ensures counted { IfOk result (λ disk. (⟦<ImageDisk<HostFile> as Disk>⟧.state disk).failures ≡ 0) }
    ensures denied { IfErr result (λ denied. IsNotMade (H.facts host.now) (⟦<Run as Seen>⟧.views) path.now form
        blocks (assumed_in supposed) denied.0 denied.1) }
{
    let file = match filled(host, file, path, form, blocks, leave) {
        Ok(file) => file,
        Err(fault) => return Err((fault, Disks::None)),
    };
    match disk_in(host, file, form, supposed) {
        Ok(disk) => as_long(disk, blocks),
        Err((fault, file)) => Err((fault, Disks::NoImage(file))),
    }
}

/// Makes an empty volume of this layout on the disk of a new image, and hands the disk back.
///
/// # Errors
///
/// `NotVolume` if no volume has as many blocks as the disk, `Device` if the device failed.
fn volume_on(disk: ImageDisk<HostFile>, layout: Layout) -> Result<ImageDisk<HostFile>, NotMade>
    requires { (⟦<ImageDisk<HostFile> as Disk>⟧.state disk).failures ≡ 0 }
    ensures empty { IfOk result (λ made. IsEmptyVolume layout (⟦<ImageDisk<HostFile> as Disk>⟧.state made)) }
    ensures same { IfOk result (λ made. SameDisk (⟦<ImageDisk<HostFile> as Disk>⟧.state disk)
        (⟦<ImageDisk<HostFile> as Disk>⟧.state made)) }
    ensures denied { IfErr result (λ denied. (left : _) × (denied.1 ≡ disks.Unserved left)
        × ((blocks : ℕ) → IsNoNewDisk (⟦<ImageDisk<HostFile> as Disk>⟧.state left).size
        (⟦<ImageDisk<HostFile> as Disk>⟧.state left).failures blocks denied.0)) }
{
    let mut disk = disk;
    match Volume::init_layout(&mut disk, layout) {
        Ok(()) => Ok(disk),
        Err(error) => Err((
            ImageFault {
                refusal: Refusal::Start(error),
                host: failure_of(disk.file()),
            },
            Disks::Unserved(disk),
        )),
    }
}

/// Makes this volume in a file that was made at a path, and returns its disk.
///
/// # Errors
///
/// `Device` if the file can't be written, or another process has it.
fn volume_in<H: Host>(
    host: &H,
    file: H::File,
    path: &str,
    volume: &NewVolume,
    leave: FillingLeave,
    supposed: AssumedImage,
) -> Result<ImageDisk<HostFile>, NotMade>
    requires { (H.facts host.now).created path.now (Ok file) }
    ensures made { IfOk result (λ disk. IsNewDisk (H.facts host.now) (⟦<Run as Seen>⟧.views) path.now
        volume.now.form volume.now.blocks (assumed_in supposed) disk) }
    ensures empty { IfOk result (λ disk. IsEmptyVolume volume.now.layout (⟦<ImageDisk<HostFile> as Disk>⟧.state disk)) }
    ensures denied { IfErr result (λ denied. IsNotMade (H.facts host.now) (⟦<Run as Seen>⟧.views) path.now
        volume.now.form volume.now.blocks (assumed_in supposed) denied.0 denied.1) }
{
    let (form, blocks) = (volume.form, volume.blocks);
    let disk = zeros_in(host, file, path, form, blocks, leave, supposed)?;
    volume_on(disk, volume.layout)
}

/// Makes an image with this volume, which has no directory. All of its blocks are written. Its disk is returned with
/// the right to remove its file.
///
/// # Errors
///
/// `Exists` if something has that name, which is left alone. `Device` if the file can't be made or written; it is
/// removed then.
pub(crate) fn make_image<H: Host>(
    host: &H,
    path: &str,
    volume: &NewVolume,
    leave: MakingLeave,
) -> Result<(ImageDisk<HostFile>, RemovalRight), NotMade>
    ensures made { IfOk result (λ made. IsNewDisk (H.facts host.now) (⟦<Run as Seen>⟧.views) path.now
        volume.now.form volume.now.blocks (assumed_in leave.supposed) made.0) }
    ensures empty { IfOk result (λ made. IsEmptyVolume volume.now.layout
        (⟦<ImageDisk<HostFile> as Disk>⟧.state made.0)) }
    ensures denied { IfErr result (λ denied. IsNotMade (H.facts host.now) (⟦<Run as Seen>⟧.views) path.now
        volume.now.form volume.now.blocks (assumed_in leave.supposed) denied.0 denied.1) }
    ensures cleared { IfErr result (λ denied. IsCleared (H.facts host.now) path.now denied.0) }
    ensures bits { IsMadePlain (H.facts host.now) path.now }
{
    let (made, supposed) = match new_file(host, path, None, leave) {
        Ok(made) => made,
        Err(fault) => return Err((fault, Disks::None)),
    };
    match volume_in(host, made.file, path, volume, made.leave, supposed) {
        Ok(disk) => Ok((disk, made.right)),
        Err(denied) => {
            let _ = host.remove(path, made.right);
            Err(denied)
        }
    }
}
