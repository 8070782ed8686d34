//! The trait of a host with files.
ghost use Rattle.std.specs.Prelude.{◌≡◌, ◌∷◌, List, is_ok};
ghost use Rattle.collection.specs.HostActs.{FileAct, MadeFile, MadeFolder, ReadFile, day_of, read_from};

use crate::Source;
use std::alloc::Global;
use std::io;
use words36::Moment;

/// The operations on files of the host that are no images: they are read whole, and new ones are made. No file that
/// exists is changed or removed. Each call goes on record, so a contract can state which calls were made, and that no
/// others were.
pub trait HostFiles {
    /// The calls so far with their answers, the newest first.
    ghost acts: { Self → List FileAct };

    /// Reads the file at a path from its beginning to its end, or until it has more bytes than `most`. It must be a
    /// regular file, or a link to one.
    ///
    /// # Errors
    ///
    /// The system's, and `OutOfMemory` if its bytes found no room.
    fn read(&mut self, alloc: Global, path: &str, most: usize) -> io::Result<Source>
        ensures { acts self.new ≡ ReadFile path.now most (read_from result) ∷ acts self.old };

    /// Makes a folder at a path, unless there is one. Only the first one may be a link to a folder: one in it may not,
    /// since nothing is to be written elsewhere.
    ///
    /// # Errors
    ///
    /// The system's. Its parent must exist.
    fn make_folder(&mut self, path: &str) -> io::Result<()>
        ensures { acts self.new ≡ MadeFolder path.now (is_ok result) ∷ acts self.old };

    /// Makes a file of these bytes at a path where there is none, in the folder that was made last, and waits until
    /// these and its name are on the device. Its last change is at the given moment, in UTC, if there is one, and the
    /// system has such files. Returns why that moment couldn't be set, if it couldn't.
    ///
    /// # Errors
    ///
    /// The system's: `AlreadyExists` if something has that name, which is left alone. No file is left at the path then,
    /// unless the system refuses to remove it.
    fn store(
        &mut self,
        alloc: Global,
        path: &str,
        bytes: &[u8],
        changed: Option<Moment>,
    ) -> io::Result<Option<io::Error>>
        ensures { acts self.new ≡ MadeFile path.now bytes.now (day_of changed) (is_ok result) ∷ acts self.old };
}
