//! The files of the host: the calls that the program makes on them, and the system that serves these.
ghost use Rattle.std.specs.Prelude.{◌≡◌, ◌∷◌, Ok, Err, IfOk, IfErr, IfNone, IfSome, is_ok, pos, ◌<ℤ◌};
ghost use Rattle.collection.specs.Common.{MadeFile, MadeFolder, ReadFile, day_of, read_from};
ghost use Rattle.imagefile.specs.Common.{BeganAs, BeganCut, HasTooManyBlocks, IsImageSize, assumed_in, size_of};
ghost use Rattle.imagefile.specs.declared.size.ImageError.TheVariants.{BadSize, Device};
ghost use Rattle.filser.specs.Hosts.{HostFacts};
ghost use Rattle.filser.specs.Permits.{acts_of};

use crate::system_files::{NewContent, folder_at, read_file, store_file};
use crate::{FileId, Leaves};
use blockdisk::Disk;
use collection::{ActMade, FileRecord, HostFiles, Source};
use imagefile::{AssumedImage, Durable, Form, HostFile, ImageDisk, ImageError};
use std::alloc::Global;
use std::fs::{self, File, Metadata, OpenOptions, Permissions, TryLockError};
use std::io::{self, ErrorKind, Write};
use std::os::fd::{AsRawFd, RawFd};
use std::os::unix::fs::{MetadataExt, OpenOptionsExt, PermissionsExt};
use std::path::Path;
use std::rt::Files;
use words36::{BLOCK_BYTES, Moment};

/// The permission bits of a file that only its owner may read and write.
pub(crate) const OWNER_ALONE: u32 = 0o600;

/// The bits of a mode that determine who may read, write and run a file.
pub(crate) const PERMISSION_BITS: u32 = 0o777;

/// What the program may do with the files of the host: open one, make one if it doesn't exist, fill that with zeros,
/// and find out which file a path leads to. The program can't truncate a file or write to one, except through the disk
/// that is made of it, and it can remove only what it has made.
pub trait Host {
    /// An open file.
    type File: Drop;

    ghost facts: { Self → HostFacts Self.File };

    /// Opens the file at a path, to read it and to write to it, and returns it with what is supposed of it. If it is
    /// only to be read, a file that the system lets nobody write to is opened all the same.
    ///
    /// # Errors
    ///
    /// The system's. The leave is used up.
    fn open(
        &self,
        path: &str,
        access: Access,
        leave: OpeningLeave,
    ) -> Result<(Self::File, AssumedImage), io::Error>
        ensures opened { IfOk result (λ opened. (facts self.now).opened path.now access (Ok opened.0)
            × (assumed_in opened.1 ≡ assumed_in leave.supposed)) }
        ensures refused { IfErr result (λ error. (facts self.now).opened path.now access (Err error)) };

    /// Makes a file at a path, if nothing is there, and returns it with what is supposed of it and the right to remove
    /// it. It gets the permission bits of the file at `like`, if one is named; until then only its owner may open it.
    /// Otherwise it gets those of any new file.
    ///
    /// # Errors
    ///
    /// The system's: `AlreadyExists` if something has that name, which is left alone. The leave is used up.
    fn create(
        &self,
        path: &str,
        like: Option<&str>,
        leave: MakingLeave,
    ) -> Result<(NewFile<Self::File>, AssumedImage), io::Error>
        ensures made { IfOk result (λ made. (facts self.now).created path.now (Ok made.0.file)
            × (assumed_in made.1 ≡ assumed_in leave.supposed)) }
        ensures bits { IfOk result
            (λ made. IfSome like.entry (λ other. (facts self.now).bits_of made.0.file other.now)) }
        ensures plain { IfOk result (λ made. IfNone like.entry ((facts self.now).own_bits made.0.file)) }
        ensures refused { IfErr result (λ error. (facts self.now).created path.now (Err error)) };

    /// Fills a file that was made, and is locked, with `blocks` blocks of zeros, in this form, and waits until these
    /// and the name of the file are on the device. So a file system that has no room for an image refuses it now, not
    /// when somebody's file is written.
    ///
    /// # Errors
    ///
    /// The system's. The leave is used up.
    fn fill(
        &self,
        path: &str,
        file: &Self::File,
        form: Form,
        blocks: u32,
        leave: FillingLeave,
    ) -> io::Result<()>
        requires created { (facts self.now).created path.now (Ok file.now) }
        requires locked { (facts self.now).locked file.now (Ok tt) }
        ensures { (facts self.now).filled file.now form blocks result };

    /// Locks a file for this process, until the process ends. It never waits, and retries an interrupted call.
    ///
    /// # Errors
    ///
    /// `WouldBlock` if another process has it, or the system's.
    fn try_lock(&self, file: &Self::File) -> Result<(), TryLockError>
        ensures { (facts self.now).locked file.now result };

    /// Returns the number by which the system knows an open file.
    fn number(&self, file: &Self::File) -> RawFd
        ensures { result ≡ (facts self.now).number file.now };

    /// Returns which file a path leads to, if there is one.
    fn identity(&self, path: &str) -> Option<FileId>
        ensures { (facts self.now).found path.now result };

    /// Returns the disk of this form in an open file that began as supposed. Only the length of the file was read.
    ///
    /// # Errors
    ///
    /// The file: `BadSize` if its length is not that of an image, `Device` if the length couldn't be read.
    fn disk_of(
        &self,
        file: Self::File,
        form: Form,
        supposed: AssumedImage,
    ) -> Result<ImageDisk<HostFile>, (ImageError, HostFile)>
        requires { pos 2 <ℤ (facts self.now).number file }
        ensures supposed { (facts self.now).supposed file (assumed_in supposed) }
        ensures began { IfOk result
            (λ disk. BeganAs form (assumed_in supposed) (⟦<ImageDisk<HostFile> as Disk>⟧.state disk)) }
        ensures counted { IfOk result (λ disk. (⟦<ImageDisk<HostFile> as Disk>⟧.state disk).failures ≡ 0) }
        ensures size { IfErr result (λ refused. refused.0 ≡ BadSize → (⟦<HostFile as Durable>⟧.state refused.1).honest
            → IsImageSize form (size_of (assumed_in supposed)) → ⊥) }
        ensures failed { IfErr result (λ refused. refused.0 ≡ Device
            → (⟦<HostFile as Durable>⟧.state refused.1).failures ≡ 1) };

    /// Returns the disk of the whole blocks of this form in an open file that began as supposed, and how many bytes
    /// follow them. Only the length of the file was read.
    ///
    /// # Errors
    ///
    /// The file: `BadSize` if it has 2^32 whole blocks or more, `Device` if the length couldn't be read.
    fn start_of(
        &self,
        file: Self::File,
        form: Form,
        supposed: AssumedImage,
    ) -> Result<(ImageDisk<HostFile>, u32), (ImageError, HostFile)>
        requires { pos 2 <ℤ (facts self.now).number file }
        ensures supposed { (facts self.now).supposed file (assumed_in supposed) }
        ensures began { IfOk result
            (λ cut. BeganCut form (assumed_in supposed) cut.1 (⟦<ImageDisk<HostFile> as Disk>⟧.state cut.0)) }
        ensures counted { IfOk result (λ cut. (⟦<ImageDisk<HostFile> as Disk>⟧.state cut.0).failures ≡ 0) }
        ensures size { IfErr result (λ refused. refused.0 ≡ BadSize → (⟦<HostFile as Durable>⟧.state refused.1).honest
            → HasTooManyBlocks form (size_of (assumed_in supposed))) }
        ensures failed { IfErr result (λ refused. refused.0 ≡ Device
            → (⟦<HostFile as Durable>⟧.state refused.1).failures ≡ 1) };

    /// Removes the file that was made at a path. If something else has taken its place, that is left alone.
    ///
    /// # Errors
    ///
    /// The system's.
    fn remove(&self, path: &str, right: RemovalRight) -> io::Result<()>
        requires { (file : Self.File) × (facts self.now).created path.now (Ok file) }
        ensures { (facts self.now).removed path.now result };

    /// Reads the file at a path from its beginning to its end, or until it has more bytes than `most`. It must be a
    /// regular file, or a link to one.
    ///
    /// # Errors
    ///
    /// The system's, and `OutOfMemory` if its bytes find no room.
    fn read(
        &self,
        alloc: Global,
        path: &str,
        most: usize,
        permit: &mut FilesPermit,
    ) -> io::Result<Source>
        ensures { acts_of permit.new ≡ ReadFile path.now most (read_from result) ∷ acts_of permit.old };

    /// Makes a folder at a path, unless there is one. Only the first one of a run may be a link to a folder. A new one
    /// gets the permission bits of the file at `like`, and whoever may read it may search it.
    ///
    /// # Errors
    ///
    /// The system's. Its parent must exist.
    fn make_folder(&self, path: &str, like: &str, permit: &mut FilesPermit) -> io::Result<()>
        ensures { acts_of permit.new ≡ MadeFolder path.now (is_ok result) ∷ acts_of permit.old };

    /// Makes a file of these bytes at a path, if nothing is there, in the folder that was made last, and waits until
    /// these and its name are on the device. It gets the permission bits of the file at `like`, and this moment, in
    /// UTC, as its last change; one before 1970 isn't set. Returns why the moment couldn't be set, if it couldn't.
    ///
    /// # Errors
    ///
    /// The system's: `AlreadyExists` if something has that name, which is left alone. What was made is removed then, if
    /// the system allows it.
    fn store(
        &self,
        alloc: Global,
        path: &str,
        bytes: &[u8],
        changed: Option<Moment>,
        like: &str,
        permit: &mut FilesPermit,
    ) -> io::Result<Option<io::Error>>
        ensures { acts_of permit.new ≡ MadeFile path.now bytes.now (day_of changed) (is_ok result)
            ∷ acts_of permit.old };
}

/// A host whose files that aren't images may be read and made.
#[derive(Drop)]
pub(crate) struct Shelf<'a, H: Host> {
    /// The host.
    pub(crate) host: &'a H,
    /// The image whose permission bits new files get.
    like: &'a str,
    permit: FilesPermit,
}

impl<'a, H: Host> Shelf<'a, H> {
    /// Returns the shelf of this host, for a run on the image at a path.
    pub(crate) fn of(host: &'a H, like: &'a str, permit: FilesPermit) -> Self
        ensures host { result.host.now ≡ host.entry.now }
        ensures permit { result.permit ≡ permit }
    {
        Shelf { host, like, permit }
    }

    /// Returns the permit with which it was made, with what was done since then.
    pub(crate) fn into_permit(self) -> FilesPermit
        ensures { result ≡ self.entry.permit }
    {
        self.permit
    }
}

impl<H: Host> HostFiles for Shelf<'_, H> {
    ghost use Rattle.filser.specs.Permits.{acts_of};

    ghost acts = { λ shelf. acts_of shelf.permit };

    fn read(&mut self, alloc: Global, path: &str, most: usize) -> io::Result<Source> {
        self.host.read(alloc, path, most, &mut self.permit)
    }

    fn make_folder(&mut self, path: &str) -> io::Result<()> {
        self.host.make_folder(path, self.like, &mut self.permit)
    }

    fn store(
        &mut self,
        alloc: Global,
        path: &str,
        bytes: &[u8],
        changed: Option<Moment>,
    ) -> io::Result<Option<io::Error>> {
        let like = self.like;
        self.host
            .store(alloc, path, bytes, changed, like, &mut self.permit)
    }
}

/// What an open file is for.
#[derive(Clone, Copy, Debug, PartialEq, Eq)]
pub enum Access {
    /// It is read. A start still writes to an image if a commit was interrupted.
    Read,
    /// It is read and written.
    Write,
}

/// The leave to open one file, with what is supposed of that file that no call on it shows. A run has it once, so that
/// it can open only one file.
#[derive(Drop)]
pub struct OpeningLeave {
    pub(crate) supposed: AssumedImage,
    _once: (),
}

/// The leave to make one file, with what is supposed of it after it is filled. A run has it once.
#[derive(Drop)]
pub struct MakingLeave {
    pub(crate) supposed: AssumedImage,
    _once: (),
}

/// The permit to read files that aren't images, and to make such files and folders. A run has it once. Each call that
/// is made by it goes on its record.
#[derive(Drop)]
pub struct FilesPermit {
    record: FileRecord,
    /// The folder that was made last, if the system could tell which one that is.
    folder: Option<FileId>,
    /// Whether a folder was made before.
    has_root: bool,
}

impl FilesPermit {
    /// Records that a file was read.
    fn note_read(&mut self, path: &str, most: usize, read: &io::Result<Source>)
        ensures { acts_of self.new ≡ ReadFile path.now most (read_from read.now) ∷ acts_of self.old }
    {
        self.record = match read {
            Ok(source) => self.record.then(&ActMade::Read(path, most, Some(source))),
            Err(_) => self.record.then(&ActMade::Read(path, most, None)),
        };
    }

    /// Records that a folder was to be made.
    fn note_folder(&mut self, path: &str, made: bool)
        ensures { acts_of self.new ≡ MadeFolder path.now made ∷ acts_of self.old }
    {
        self.record = self.record.then(&ActMade::Folder(path, made));
    }

    /// Records that a file was to be made.
    fn note_file(&mut self, path: &str, bytes: &[u8], changed: Option<Moment>, made: bool)
        ensures { acts_of self.new ≡ MadeFile path.now bytes.now (day_of changed) made ∷ acts_of self.old }
    {
        self.record = self
            .record
            .then(&ActMade::Store(path, bytes, changed, made));
    }
}

/// A file that was made, the leave to fill it, and the right to remove it.
#[derive(Drop)]
pub struct NewFile<F: Drop> {
    pub(crate) file: F,
    pub(crate) leave: FillingLeave,
    pub(crate) right: RemovalRight,
}

/// The leave to fill a file that was made. Whoever has made a file has it once.
#[derive(Drop)]
pub struct FillingLeave {
    _once: (),
}

/// The right to remove a file that was made. Whoever has made a file has it once.
#[derive(Drop)]
pub struct RemovalRight {
    /// Which file that is, if the system could tell.
    made: Option<FileId>,
}

/// The files of a system. Nothing is supposed of its answers, so each fact states only that a call was made. All that
/// is trusted here, one line of each method, is that the calls are those that the trait names.
#[derive(Drop)]
pub struct SystemHost<'a, F: Files<File = File>> {
    files: &'a F,
}

impl<'a, F: Files<File = File>> SystemHost<'a, F> {
    /// Returns the host whose files these are, with the leaves of a run. Nothing is known of the image that is opened,
    /// nor of the one that is made.
    pub fn new(files: &'a F) -> (Self, Leaves) {
        let leaves = Leaves {
            image: OpeningLeave {
                supposed: AssumedImage::any(),
                _once: (),
            },
            new: MakingLeave {
                supposed: AssumedImage::any(),
                _once: (),
            },
            files: FilesPermit {
                record: FileRecord::new(),
                folder: None,
                has_root: false,
            },
        };
        (SystemHost { files }, leaves)
    }
}

/// Writes `blocks` blocks of zeros.
///
/// # Errors
///
/// The system's.
fn write_zeros(file: &File, form: Form, blocks: u32) -> io::Result<()> {
    let zeros = [0; BLOCK_BYTES];
    let block = &zeros[..form.block_bytes() as usize];
    let mut writer = file;
    for _ in 0..blocks {
        writer.write_all(block)?;
    }
    file.sync_all()
}

/// Returns whether an error means that a file may be read, perhaps, but not written.
fn forbids_writes(error: &io::Error) -> bool {
    matches!(
        error.kind(),
        ErrorKind::PermissionDenied | ErrorKind::ReadOnlyFilesystem
    )
}

/// Opens the file at a path, only for reading if nothing more is needed and the system allows no more.
///
/// # Errors
///
/// The system's.
fn open_as<F: Files<File = File>>(files: &F, path: &str, access: Access) -> io::Result<File> {
    match OpenOptions::new().read(true).write(true).open(files, path) {
        Err(error) if access == Access::Read && forbids_writes(&error) => File::open(files, path),
        opened => opened,
    }
}

/// Makes a file that has the permission bits of the one at `like`. Nobody else may open it before it has them; if they
/// can't be read or set, this remains so.
///
/// # Errors
///
/// The system's.
fn create_like<F: Files<File = File>>(files: &F, path: &str, like: &str) -> io::Result<File> {
    let file = OpenOptions::new()
        .read(true)
        .write(true)
        .create_new(true)
        .mode(OWNER_ALONE)
        .open(files, path)?;
    if let Ok(found) = fs::metadata(files, like) {
        let permissions = Permissions::from_mode(found.mode() & PERMISSION_BITS);
        let _ = file.set_permissions(permissions);
    }
    Ok(file)
}

/// Returns the numbers by which the system knows a file, if it could read them.
pub(crate) fn file_id(asked: io::Result<Metadata>) -> Option<FileId> {
    let found = asked.ok()?;
    Some(id_of(&found))
}

/// Returns the numbers by which the system knows a file.
pub(crate) fn id_of(found: &Metadata) -> FileId {
    FileId {
        device: found.dev(),
        inode: found.ino(),
    }
}

/// Waits until the entry of a file in its folder is on the device.
///
/// # Errors
///
/// The system's.
pub(crate) fn sync_folder<F: Files<File = File>>(files: &F, path: &str) -> io::Result<()> {
    let parent = Path::new(path).parent();
    let folder = match &parent {
        Some(folder) => folder.to_string_lossy(),
        None => "",
    };
    let opened = File::open(files, if folder.is_empty() { "." } else { folder })?;
    opened.sync_all()
}

impl<F: Files<File = File>> Host for SystemHost<'_, F> {
    type File = File;

    ghost use Rattle.std.specs.Fd.{file_raw_fd};

    ghost facts = { λ host. record {
      opened = λ path access result. Unit {0};
      created = λ path result. Unit {0};
      bits_of = λ file path. Unit {0};
      own_bits = λ file. Unit {0};
      filled = λ file form blocks result. Unit {0};
      locked = λ file result. Unit {0};
      removed = λ path result. Unit {0};
      found = λ path file. Unit {0};
      number = λ file. file_raw_fd file;
      supposed = λ file u. Unit {0};
    } };

    fn open(
        &self,
        path: &str,
        access: Access,
        leave: OpeningLeave,
    ) -> Result<(File, AssumedImage), io::Error> {
        let file = open_as(self.files, path, access)?;
        Ok((file, leave.supposed))
    }

    fn create(
        &self,
        path: &str,
        like: Option<&str>,
        leave: MakingLeave,
    ) -> Result<(NewFile<File>, AssumedImage), io::Error> {
        let file = match like {
            Some(like) => create_like(self.files, path, like)?,
            None => File::create_new(self.files, path)?,
        };
        let right = RemovalRight {
            made: file_id(file.metadata()),
        };
        let new = NewFile {
            file,
            leave: FillingLeave { _once: () },
            right,
        };
        Ok((new, leave.supposed))
    }

    fn fill(
        &self,
        path: &str,
        file: &File,
        form: Form,
        blocks: u32,
        _leave: FillingLeave,
    ) -> io::Result<()> {
        write_zeros(file, form, blocks)?;
        sync_folder(self.files, path)
    }

    fn try_lock(&self, file: &File) -> Result<(), TryLockError> {
        file.try_lock()
    }

    fn number(&self, file: &File) -> RawFd {
        file.as_raw_fd()
    }

    fn identity(&self, path: &str) -> Option<FileId> {
        file_id(fs::metadata(self.files, path))
    }

    fn disk_of(
        &self,
        file: File,
        form: Form,
        supposed: AssumedImage,
    ) -> Result<ImageDisk<HostFile>, (ImageError, HostFile)> {
        ImageDisk::open_file(file, supposed, form)
    }

    fn start_of(
        &self,
        file: File,
        form: Form,
        supposed: AssumedImage,
    ) -> Result<(ImageDisk<HostFile>, u32), (ImageError, HostFile)> {
        ImageDisk::open_start(file, supposed, form)
    }

    fn remove(&self, path: &str, right: RemovalRight) -> io::Result<()> {
        remove_made(self.files, path, right.made)
    }

    fn read(
        &self,
        alloc: Global,
        path: &str,
        most: usize,
        permit: &mut FilesPermit,
    ) -> io::Result<Source> {
        let read = read_file(self.files, alloc, path, most);
        permit.note_read(path, most, &read);
        read
    }

    fn make_folder(&self, path: &str, like: &str, permit: &mut FilesPermit) -> io::Result<()> {
        let made = folder_at(self.files, path, like, !permit.has_root);
        permit.note_folder(path, made.is_ok());
        permit.has_root = true;
        match made {
            Ok(folder) => {
                permit.folder = Some(folder);
                Ok(())
            }
            Err(error) => Err(error),
        }
    }

    fn store(
        &self,
        alloc: Global,
        path: &str,
        bytes: &[u8],
        changed: Option<Moment>,
        like: &str,
        permit: &mut FilesPermit,
    ) -> io::Result<Option<io::Error>> {
        let content = NewContent {
            bytes,
            changed,
            like,
        };
        let stored = store_file(self.files, alloc, path, &content, permit.folder);
        permit.note_file(path, bytes, changed, stored.is_ok());
        stored
    }
}

/// Removes the file that was made at a path, unless something else has taken its place.
pub(crate) fn remove_made<F: Files<File = File>>(
    files: &F,
    path: &str,
    made: Option<FileId>,
) -> io::Result<()> {
    // A link that somebody has put there leads elsewhere, so it isn't followed.
    let found = file_id(fs::symlink_metadata(files, path));
    if found.is_some() && found == made {
        fs::remove_file(files, path)
    } else {
        Ok(())
    }
}
