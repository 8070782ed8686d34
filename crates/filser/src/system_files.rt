//! The system's calls on files of the host that aren't images: such files are read whole, and new ones are made. All of
//! this is trusted.
use crate::FileId;
use crate::host::{OWNER_ALONE, PERMISSION_BITS, file_id, id_of, remove_made, sync_folder};
use collection::{Source, moment_of, second_of};
use std::alloc::Global;
use std::fs::{self, DirBuilder, File, FileType, OpenOptions, Permissions, TryLockError};
use std::io::{self, ErrorKind, Read, Write};
use std::os::unix::fs::{DirBuilderExt, FileTypeExt, MetadataExt, OpenOptionsExt, PermissionsExt};
use std::path::Path;
use std::rt::Files;
use std::time::{Duration, SystemTime};
use words36::Moment;

/// The system's numbers of two errors.
const FILE_EXISTS: i32 = 17;

const IS_A_DIRECTORY: i32 = 21;

/// How the name of a file ends that is still being written. No exported file has such a name, since those of files of a
/// volume have no small letters.
const UNFINISHED: &str = "filser-unfinished";

/// The permission bits with which only its owner may list, fill and search a folder.
const OWNERS_FOLDER: u32 = 0o700;

/// The bits of a mode that determine who may read.
const READING_BITS: u32 = 0o444;

/// What a new file gets.
#[derive(Clone, Copy)]
pub(crate) struct NewContent<'a> {
    /// Its bytes.
    pub(crate) bytes: &'a [u8],
    /// The moment of its last change, in UTC.
    pub(crate) changed: Option<Moment>,
    /// The file whose permission bits it gets.
    pub(crate) like: &'a str,
}

/// Refuses a file that isn't a regular one, with its kind. To open a FIFO would wait for somebody who writes to it.
///
/// # Errors
///
/// `IsADirectory` or `InvalidInput`.
fn check_regular(kind: FileType) -> io::Result<()> {
    let words = if kind.is_file() {
        return Ok(());
    } else if kind.is_dir() {
        return Err(io::Error::from_raw_os_error(IS_A_DIRECTORY));
    } else if kind.is_fifo() {
        "it is a FIFO"
    } else if kind.is_socket() {
        "it is a socket"
    } else {
        "it is a device"
    };
    Err(io::Error::new(ErrorKind::InvalidInput, words))
}

/// Returns the regular file at a path, as it was read up to its end, but at most `most` bytes and one more.
///
/// # Errors
///
/// The system's, `InvalidInput` if it is no regular file, and `OutOfMemory` if there is no room for its bytes.
pub(crate) fn read_file<F: Files<File = File>>(
    files: &F,
    alloc: Global,
    path: &str,
    most: usize,
) -> io::Result<Source> {
    check_regular(fs::metadata(files, path)?.file_type())?;
    let file = File::open(files, path)?;
    let found = file.metadata()?;
    check_regular(found.file_type())?; // another file may have taken its place
    let changed = moment_of(found.mtime());
    let mut bytes = Vec::new(alloc);
    file.take((most as u64).saturating_add(1))
        .read_to_end(&mut bytes)?;
    Ok(Source { bytes, changed })
}

/// Makes a folder at a path, unless there is one, and returns which one is there. Only the root may be a link to one.
///
/// # Errors
///
/// The system's, `AlreadyExists` if something else is there, and `NotADirectory` if it is a link that may not be one.
pub(crate) fn folder_at<F: Files<File = File>>(
    files: &F,
    path: &str,
    like: &str,
    is_root: bool,
) -> io::Result<FileId> {
    let made = DirBuilder::new().mode(OWNERS_FOLDER).create(files, path);
    if made.is_ok() {
        give_folder_bits(files, path, like);
        sync_folder(files, path)?;
    }
    let found = if is_root {
        fs::metadata(files, path)
    } else {
        fs::symlink_metadata(files, path)
    };
    match (made, found) {
        (Err(error), _) if error.kind() != ErrorKind::AlreadyExists => Err(error),
        (_, Ok(found)) if found.is_dir() => Ok(id_of(&found)),
        (_, Ok(found)) if found.is_symlink() => {
            let words = "it is a link";
            Err(io::Error::new(ErrorKind::NotADirectory, words))
        }
        (Err(error), _) | (Ok(()), Err(error)) => Err(error),
        (Ok(()), Ok(_)) => Err(io::Error::from_raw_os_error(FILE_EXISTS)),
    }
}

/// Gives a folder that was made the permission bits of a file. Whoever may read it may search it. If they can't be read
/// or set, only its owner may use it.
fn give_folder_bits<F: Files<File = File>>(files: &F, path: &str, like: &str) {
    if let Ok(found) = fs::metadata(files, like) {
        let bits = found.mode() & PERMISSION_BITS;
        let searching = (bits & READING_BITS) >> 2;
        let permissions = Permissions::from_mode(bits | searching | OWNERS_FOLDER);
        let _ = fs::set_permissions(files, path, permissions);
    }
}

/// Makes a file at a path, if nothing is there, in the folder that was made last. Its bytes are written to a file with
/// another name first, which gets this name when they are on the device: so a file with its name is whole. Returns why
/// its moment couldn't be set, if it couldn't.
///
/// # Errors
///
/// The system's: `AlreadyExists` if something has that name. Nothing that was made is left then, unless the system
/// refuses to remove it.
pub(crate) fn store_file<F: Files<File = File>>(
    files: &F,
    alloc: Global,
    path: &str,
    content: &NewContent<'_>,
    folder: Option<FileId>,
) -> io::Result<Option<io::Error>> {
    check_folder(files, path, folder)?;
    let unfinished = unfinished_path(alloc, path)?;
    let unfinished = unfinished.as_str();
    if fs::symlink_metadata(files, path).is_ok() {
        let _ = remove_left(files, unfinished);
        return Err(io::Error::from_raw_os_error(FILE_EXISTS));
    }
    let file = begin_file(files, unfinished)?;
    let made = file_id(file.metadata());
    let filled = fill_file(files, &file, content);
    let named = match &filled {
        Ok(_) => name_file(files, unfinished, path, content, made),
        Err(_) => Ok(()),
    };
    let removed = remove_made(files, unfinished, made);
    let undated = filled?;
    named?;
    match removed.and_then(|()| sync_folder(files, path)) {
        Ok(()) => Ok(undated),
        Err(error) => {
            let _ = remove_made(files, path, made);
            Err(error)
        }
    }
}

/// Refuses a path whose folder is no longer the one that was made last: a link may have taken its place.
///
/// # Errors
///
/// The system's, and `NotADirectory`.
fn check_folder<F: Files<File = File>>(
    files: &F,
    path: &str,
    folder: Option<FileId>,
) -> io::Result<()> {
    let Some(parent) = Path::new(path).parent() else {
        return Ok(());
    };
    let found = fs::symlink_metadata(files, parent.to_string_lossy())?;
    if folder.is_some() && file_id(Ok(found)) != folder {
        let words = "something else has taken the place of its folder";
        return Err(io::Error::new(ErrorKind::NotADirectory, words));
    }
    Ok(())
}

/// Returns the path of the file that is written before the one at a path gets its name: in the same folder, and hidden.
///
/// # Errors
///
/// `OutOfMemory`.
fn unfinished_path(alloc: Global, path: &str) -> io::Result<String> {
    let path = Path::new(path);
    let name = path.file_name().unwrap_or("");
    let folder = match &path.parent() {
        Some(folder) => folder.to_string_lossy(),
        None => "",
    };
    match format!(in alloc; "{folder}/.{name}.{UNFINISHED}") {
        Ok(text) => Ok(text),
        Err(_) => Err(io::Error::from(ErrorKind::OutOfMemory)),
    }
}

/// Makes an empty file that only its owner may open, and locks it, so that no other run takes it for one that was left.
/// What an interrupted run left at its path is removed before.
///
/// # Errors
///
/// The system's, and `ResourceBusy` if another run has the file.
fn begin_file<F: Files<File = File>>(files: &F, path: &str) -> io::Result<File> {
    remove_left(files, path)?;
    let file = OpenOptions::new()
        .write(true)
        .create_new(true)
        .mode(OWNER_ALONE)
        .open(files, path)?;
    lock(&file)?;
    Ok(file)
}

/// Locks a file, if the file system has locks.
///
/// # Errors
///
/// `ResourceBusy` if another run has it.
fn lock(file: &File) -> io::Result<()> {
    match file.try_lock() {
        Err(TryLockError::WouldBlock) => {
            let words = "another run is writing it";
            Err(io::Error::new(ErrorKind::ResourceBusy, words))
        }
        _ => Ok(()),
    }
}

/// Removes what an interrupted run left at a path, if anything. A file that another run is writing is locked.
///
/// # Errors
///
/// The system's, and `ResourceBusy` if another run has the file.
fn remove_left<F: Files<File = File>>(files: &F, path: &str) -> io::Result<()> {
    let Ok(found) = fs::symlink_metadata(files, path) else {
        return Ok(());
    };
    check_regular(found.file_type())?;
    let file = File::open(files, path)?;
    lock(&file)?;
    remove_made(files, path, file_id(file.metadata()))
}

/// Writes the bytes of a file that was made, and waits until they are on the device. It gets its permission bits, if
/// these can be read and set, and the moment of its last change, unless that is before 1970. Returns why the moment
/// couldn't be set, if it couldn't.
///
/// # Errors
///
/// The system's.
fn fill_file<F: Files<File = File>>(
    files: &F,
    file: &File,
    content: &NewContent<'_>,
) -> io::Result<Option<io::Error>> {
    let mut writer = file;
    writer.write_all(content.bytes)?;
    if let Ok(found) = fs::metadata(files, content.like) {
        let permissions = Permissions::from_mode(found.mode() & PERMISSION_BITS);
        let _ = file.set_permissions(permissions);
    }
    let dated = match content.changed.and_then(time_of) {
        Some(time) => file.set_modified(time),
        None => Ok(()),
    };
    file.sync_all()?;
    Ok(dated.err())
}

/// Returns the time of a moment, unless that is before 1970.
fn time_of(moment: Moment) -> Option<SystemTime> {
    let seconds = u64::try_from(second_of(moment)?).ok()?;
    SystemTime::UNIX_EPOCH.checked_add(Duration::from_secs(seconds))
}

/// Gives a file that is complete its name, if nothing has that name. A file system without links gets a second file.
///
/// # Errors
///
/// The system's: `AlreadyExists` if something has the name.
fn name_file<F: Files<File = File>>(
    files: &F,
    unfinished: &str,
    path: &str,
    content: &NewContent<'_>,
    made: Option<FileId>,
) -> io::Result<()> {
    match fs::hard_link(files, unfinished, path) {
        Ok(()) if file_id(fs::symlink_metadata(files, path)) == made => Ok(()),
        Ok(()) => {
            let words = "something else has taken its place";
            Err(io::Error::new(ErrorKind::NotFound, words))
        }
        Err(error) if lacks_links(&error) => copy_file(files, path, content),
        Err(error) => Err(error),
    }
}

/// Returns whether an error means that the file system has no links.
fn lacks_links(error: &io::Error) -> bool {
    matches!(
        error.kind(),
        ErrorKind::PermissionDenied | ErrorKind::Unsupported | ErrorKind::TooManyLinks
    )
}

/// Makes a file at a path, if nothing is there, and waits until its bytes are on the device.
///
/// # Errors
///
/// The system's: `AlreadyExists` if something has the name. What was made is removed then.
fn copy_file<F: Files<File = File>>(
    files: &F,
    path: &str,
    content: &NewContent<'_>,
) -> io::Result<()> {
    let file = OpenOptions::new()
        .write(true)
        .create_new(true)
        .mode(OWNER_ALONE)
        .open(files, path)?;
    match fill_file(files, &file, content) {
        Ok(_) => Ok(()),
        Err(error) => {
            let _ = remove_made(files, path, file_id(file.metadata()));
            Err(error)
        }
    }
}
