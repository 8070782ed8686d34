//! The tasks of an import and of an export.
use commands::Encoding;
use words36::{Moment, Ppn};

/// Files of the host that will be put into a directory.
#[derive(Debug, Drop, PartialEq, Eq)]
pub struct ImportTask<'a> {
    /// The owner of the directory. The job that puts them logs in as this owner.
    pub owner: Ppn,
    /// The files of the host.
    pub paths: Vec<&'a str>,
    /// The encoding of the bytes of each. If there is none, their content decides.
    pub encoding: Option<Encoding>,
    /// The moment that each file gets, unless it gets its own.
    pub moment: Moment,
    /// Whether each file gets the moment of its last change.
    pub dated: bool,
    /// Whether names that are too long are shortened.
    pub shortens: bool,
}

/// Files that will become files of the host.
#[derive(Clone, Copy, Debug, PartialEq, Eq)]
pub struct ExportTask<'a> {
    /// The folder in which the folder of each directory is made.
    pub folder: &'a str,
    /// The owner of the directory; if there is none, all directories are meant.
    pub owner: Option<Ppn>,
    /// The encoding of the bytes of each. If there is none, they are bytes from which its words come back.
    pub encoding: Option<Encoding>,
    /// Whether the paths are only listed.
    pub lists: bool,
}
