//! The tasks that can be done on an image.
ghost use Rattle.std.specs.Prelude.{◌≡◌};
ghost use Rattle.filser.specs.Common.{access_of};

use crate::Access;
use collection::ExportTask;
use commands::{Encoding, Existing, Style};
use salvage::Search;
use words36::{FileName, Moment, Ppn};

/// A file as the words of a command line name it, and the encoding of the bytes from which it is put or as which it is
/// got.
#[derive(Clone, Copy, Debug, PartialEq, Eq)]
pub struct NamedFile {
    /// The owner of its directory. The job that works on it logs in as this owner.
    pub owner: Ppn,
    /// Its name.
    pub name: FileName,
    /// The encoding of its bytes.
    pub encoding: Encoding,
}

/// Files of a damaged image that will become files of the host.
#[derive(Clone, Copy, Debug, PartialEq, Eq)]
pub struct SalvageTask<'a> {
    /// What becomes of those that are found.
    pub export: ExportTask<'a>,
    /// Which blocks are searched for files that no directory names.
    pub search: Search,
}

/// What is done on an image, and at which moment if that matters.
#[derive(Clone, Copy, Debug, PartialEq, Eq)]
pub enum Task {
    /// `run`: serve the lines of the input.
    Run(Moment),
    /// `calls`: serve the input as a call script.
    Calls(Moment),
    /// `wire`: serve the orders of the input.
    Wire,
    /// `put`: make a file of the input; what becomes of an existing one with its name.
    Put(NamedFile, Existing, Moment),
    /// `get`: print a file.
    Get(NamedFile, Moment),
    /// `delete`: delete a file, which is in the directory of this owner.
    Delete(Ppn, FileName),
    /// `list`: print the list of a directory, or of all that there are, in this style.
    List(Option<Ppn>, Style),
    /// `check`: print how many blocks it has, and how many are left.
    Check,
}

impl Task {
    /// Returns the moment of what is written, if the task has one.
    pub fn moment(&self) -> Option<Moment> {
        match self {
            Task::Run(at) | Task::Calls(at) | Task::Put(_, _, at) | Task::Get(_, at) => Some(*at),
            Task::Wire | Task::Delete(_, _) | Task::List(_, _) | Task::Check => None,
        }
    }

    /// Returns what the file of the image is opened for: only reading, if nothing in the input can change a file.
    pub fn access(&self) -> Access
        ensures { result ≡ access_of self.now }
    {
        match self {
            Task::Get(_, _) | Task::List(_, _) | Task::Check => Access::Read,
            Task::Run(_) | Task::Calls(_) | Task::Wire | Task::Put(_, _, _) | Task::Delete(_, _) =>
                Access::Write,
        }
    }
}
