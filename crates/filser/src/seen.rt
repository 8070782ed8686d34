//! The disks and files of a run, and how contracts see them.
ghost use Rattle.filser.specs.Views.{Views};

use crate::{Disks, MakingLeave, OpeningLeave, Run};
use blockcache::Cached;
use blockdisk::{Disk, MemDisk};
use imagefile::{Durable, HostFile, ImageDisk};

/// An image of the host's that is served in place, with some of its blocks cached in memory.
pub type Image = Cached<ImageDisk<HostFile>>;

/// What is left of the existing image.
pub type ImageDisks = Disks<OpeningLeave, HostFile, ImageDisk<HostFile>, Image>;

/// What is left of the new image.
pub type NewDisks = Disks<MakingLeave, HostFile, ImageDisk<HostFile>, Image>;

/// Disks that contracts see as their states.
pub trait Seen {
    /// A disk in memory.
    type Memory;

    /// A file.
    type File;

    /// The disk in a file.
    type Disk;

    /// A disk with some of its blocks cached in memory.
    type Image;

    ghost views: { Views Self.Memory Self.File Self.Disk Self.Image };
}

impl Seen for Run {
    type Memory = MemDisk;

    type File = HostFile;

    type Disk = ImageDisk<HostFile>;

    type Image = Image;

    ghost views = { record {
      memory = ⟦<MemDisk as Disk>⟧.state;
      file = ⟦<HostFile as Durable>⟧.state;
      disk = ⟦<ImageDisk<HostFile> as Disk>⟧.state;
      image = ⟦<Cached<ImageDisk<HostFile>> as Disk>⟧.state;
    } };
}
