//! The commands of a session.
use words36::{FileName, Ppn};

/// How a line of a session names a file.
#[derive(Clone, Copy, Debug, PartialEq, Eq)]
pub struct Spec {
    /// The file's name and extension.
    pub name: FileName,
    /// The owner of the directory that it is in: `None` is the job's own.
    pub owner: Option<Ppn>,
}

/// What a line of a session means.
#[derive(Clone, Copy, Debug, PartialEq, Eq)]
pub enum Command {
    /// Job 1 logs in.
    Login(Ppn),
    /// Lists a directory, or the job's own if there is no number.
    Directory(Option<Ppn>),
    /// Copies a file: the new file, and the one that is copied.
    Copy(Spec, Spec),
    /// Renames a file: its new name, and the old one. Its protection stays.
    Rename(Spec, Spec),
    /// Deletes a file.
    Delete(Spec),
    /// Types a file's characters.
    TypeOut(Spec),
    /// Gives a file another protection: three octal digits.
    Protect(Spec, u32),
    /// Makes a directory, with a protection, where 0 means the usual one.
    MakeDir(Ppn, u32),
    /// Gives a directory a quota: a number of blocks, where 0 means no limit.
    Quota(Ppn, u32),
}
