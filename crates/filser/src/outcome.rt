//! How a run ends, and what is left of the things it worked on.
ghost use Rattle.std.specs.Prelude.{◌≡◌, None};
ghost use Rattle.filser.specs.declared.disks.Disks.TheVariants.{Unasked};

use crate::convert::Converted;
use crate::{Disks, FilesPermit, ImageDisks, MakingLeave, NewDisks, OpeningLeave, Status};
use blockdisk::MemDisk;

/// What a run may request from the host: one existing file, one that it makes, and files that aren't images.
#[derive(Drop)]
pub struct Leaves {
    /// To open the existing image.
    pub image: OpeningLeave,
    /// To make a new one.
    pub new: MakingLeave,
    /// To read and make files that aren't images.
    pub files: FilesPermit,
}

/// How a run ended, and what is left of what it worked on.
#[derive(Drop)]
pub(crate) struct Outcome {
    /// How it ended.
    pub(crate) status: Status,
    /// What is left of the existing image.
    pub(crate) image: ImageDisks,
    /// What is left of the new image.
    pub(crate) new: NewDisks,
    /// The volume in memory.
    pub(crate) memory: Option<MemDisk>,
    /// The permit for files that aren't images, with what was done by it.
    pub(crate) files: FilesPermit,
}

impl Outcome {
    /// Returns the outcome of a run that opened and made no file.
    pub(crate) fn without_disks(status: Status, leaves: Leaves) -> Self
        ensures { result ≡ record {
          status = status;
          image = Unasked leaves.image;
          new = Unasked leaves.new;
          memory = None;
          files = leaves.files;
        } }
    {
        Outcome {
            status,
            image: Disks::Unasked(leaves.image),
            new: Disks::Unasked(leaves.new),
            memory: None,
            files: leaves.files,
        }
    }

    /// Returns the outcome of a run on a volume in memory alone.
    pub(crate) fn of_memory(served: (Status, Option<MemDisk>), leaves: Leaves) -> Self
        ensures { result ≡ record {
          status = served.0;
          image = Unasked leaves.image;
          new = Unasked leaves.new;
          memory = served.1;
          files = leaves.files;
        } }
    {
        Outcome {
            status: served.0,
            image: Disks::Unasked(leaves.image),
            new: Disks::Unasked(leaves.new),
            memory: served.1,
            files: leaves.files,
        }
    }

    /// Returns the outcome of a run on an existing image, with the leave that it didn't use.
    pub(crate) fn of_image(
        served: (Status, ImageDisks),
        leave: MakingLeave,
        files: FilesPermit,
    ) -> Self
        ensures { result ≡ record {
          status = served.0;
          image = served.1;
          new = Unasked leave;
          memory = None;
          files = files;
        } }
    {
        Outcome {
            status: served.0,
            image: served.1,
            new: Disks::Unasked(leave),
            memory: None,
            files,
        }
    }

    /// Returns the outcome of a run that only made an image, with the leaves that it didn't use.
    pub(crate) fn of_new(made: (Status, NewDisks), leave: OpeningLeave, files: FilesPermit) -> Self
        ensures { result ≡ record {
          status = made.0;
          image = Unasked leave;
          new = made.1;
          memory = None;
          files = files;
        } }
    {
        Outcome {
            status: made.0,
            image: Disks::Unasked(leave),
            new: made.1,
            memory: None,
            files,
        }
    }

    /// Returns the outcome of a conversion, with the leave that it didn't use.
    pub(crate) fn of_both(converted: Converted, files: FilesPermit) -> Self
        ensures { result ≡ record {
          status = converted.status;
          image = converted.image;
          new = converted.new;
          memory = None;
          files = files;
        } }
    {
        Outcome {
            status: converted.status,
            image: converted.image,
            new: converted.new,
            memory: None,
            files,
        }
    }
}

/// The exit status of a run of the program, and what is left of what it worked on.
#[derive(Drop)]
pub struct Run {
    /// The exit status: 0 to 4.
    pub code: u8,
    /// What is left of the existing image.
    pub image: ImageDisks,
    /// What is left of the new image.
    pub new: NewDisks,
    /// The volume in memory.
    pub memory: Option<MemDisk>,
    /// The permit for files that aren't images, with what was done by it.
    pub files: FilesPermit,
}
