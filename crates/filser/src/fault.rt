//! Faults of the host, and their reports on the standard error.
ghost use Rattle.std.specs.Prelude.{◌≡◌, ◌↔◌, IsTrue};
ghost use Rattle.filser.specs.Common.{of_host, Covers, forbids_errors, forbids_output};

use crate::{Escaped, Refusal};
use std::fmt::Display;
use std::io::{self, ErrorKind, Write};
use thiserror::Error;
use volume::VolumeError;

/// Why the host doesn't provide what was requested, as reported on the standard error.
#[derive(Clone, Copy, Debug, Error)]
pub enum HostFault {
    /// A system call failed.
    #[error(transparent)]
    System(#[from] io::Error),
    /// Another process has the image.
    #[error("in use by another process")]
    InUse,
    /// The standard input leads to the image.
    #[error("the standard input of this run")]
    Input,
    /// What is printed would land in the image, so nothing is printed.
    #[error("the standard output of this run")]
    Output,
    /// What is reported would land in the image, so nothing is reported or printed.
    #[error("the standard error of this run")]
    Errors,
    /// There is no memory to serve an image. That is reported, and nothing is printed.
    #[error("out of memory")]
    Memory,
    /// A file that was made and filled has another length.
    #[error("not as long as it was made")]
    WrongLength,
}

impl HostFault {
    /// Returns whether nothing may be written to the standard output.
    pub fn forbids_output(&self) -> bool
        ensures { result ≡ forbids_output self.now }
    {
        match self {
            HostFault::Output | HostFault::Errors | HostFault::Memory => true,
            HostFault::System(_) | HostFault::InUse | HostFault::Input | HostFault::WrongLength =>
                false,
        }
    }

    /// Returns whether this fault forbids each stream that the other one forbids.
    pub(crate) fn covers(&self, other: &HostFault) -> bool
        ensures { IsTrue result ↔ Covers self.now other.now }
    {
        (self.forbids_output() || !other.forbids_output())
            && (self.forbids_errors() || !other.forbids_errors())
    }

    /// Returns whether nothing may be written to the standard error.
    pub fn forbids_errors(&self) -> bool
        ensures { result ≡ forbids_errors self.now }
    {
        match self {
            HostFault::Errors => true,
            HostFault::System(_)
            | HostFault::InUse
            | HostFault::Input
            | HostFault::Output
            | HostFault::Memory
            | HostFault::WrongLength => false,
        }
    }
}

/// Why an image isn't served: the line that is printed, with the status, and the fault of the host, if there was one.
#[derive(Clone, Copy, Debug)]
pub struct ImageFault {
    /// What is printed.
    pub refusal: Refusal,
    /// What is also reported on the standard error.
    pub host: Option<HostFault>,
}

impl From<HostFault> for ImageFault {
    fn from(fault: HostFault) -> Self
        ensures { result ≡ of_host fault }
    {
        ImageFault {
            refusal: Refusal::Start(VolumeError::Device),
            host: Some(fault),
        }
    }
}

/// Reports something about a file, or about another part of the host: a line on the standard error, which is dropped if
/// that fails.
pub(crate) fn report<E: Write, T: Display>(errors: &mut E, name: &str, what: &T) {
    let _ = writeln!(errors, "filser: {}: {what}", Escaped(name));
}

/// Reports a fault of the host on a file. A call that reaches the end of an image reaches it too early, since an image
/// keeps its length.
pub(crate) fn report_fault<E: Write>(errors: &mut E, path: &str, fault: &HostFault) {
    match fault {
        HostFault::System(error) if error.kind() == ErrorKind::UnexpectedEof => report(
            errors,
            path,
            &"the image has another length than at the start",
        ),
        _ => report(errors, path, fault),
    }
}

/// Reports what to do after a fault of a device, if there was one: a host may keep the data that it couldn't write in
/// its cache and forget the failure, so that a start reads what isn't on the disk.
pub(crate) fn report_stale_cache<E: Write>(errors: &mut E, path: &str, fault: &Option<HostFault>) {
    if fault.is_some() {
        report(
            errors,
            path,
            &"after a device fault let the host drop its cache (restart it) before the next start",
        );
    }
}

/// Reports that the program found no memory for itself.
pub(crate) fn report_no_memory<E: Write>(errors: &mut E) {
    let _ = writeln!(errors, "filser: out of memory");
}
