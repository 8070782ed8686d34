//! The record of what was done with files of the host, for proofs alone.
ghost use Rattle.std.specs.Prelude.{◌≡◌, List, [], ◌∷◌};
ghost use Rattle.std.specs.Borrow.{ftrue};
ghost use Rattle.collection.specs.HostActs.{FileAct, acts_code};

use crate::Source;
use std::marker::Model;
use words36::Moment;

/// What was done with files of the host that are no images, with the answers. Proofs alone read it: it takes no memory
/// and costs no time.
#[derive(Drop)]
pub struct FileRecord {
    /// The newest act comes first.
    pub(crate) ghost acts: { List FileAct } by { acts_code },
}

impl Model for FileRecord {
    ghost also_owns = { λ _. ftrue };
}

/// An act with its answer.
#[derive(Clone, Copy, Drop)]
pub enum ActMade<'a> {
    /// The file at a path was read, up to one byte more than this number; `None` if it couldn't be read.
    Read(&'a str, usize, Option<&'a Source>),
    /// A folder was to be made at a path, and whether there is one now.
    Folder(&'a str, bool),
    /// A file of these bytes was to be made at a path, changed last at this moment, and whether it was.
    Store(&'a str, &'a [u8], Option<Moment>, bool),
}

impl FileRecord {
    ghost use Rattle.collection.specs.Common.{acts_in, spelled_act};

    /// Returns the record before the first act.
    pub fn new() -> FileRecord
        ensures { acts_in result ≡ [] }
    {
        FileRecord {}
    }

    /// Returns this record with one more act.
    pub fn then(&self, _act: &ActMade<'_>) -> FileRecord
        ensures { acts_in result ≡ spelled_act _act.now ∷ acts_in self.now }
    {
        FileRecord {}
    }
}
