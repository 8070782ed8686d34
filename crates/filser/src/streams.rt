//! The standard streams: which are missing, and which lead to an image.
ghost use Rattle.std.specs.Prelude.{◌↔◌, IsTrue, IsFalse, Option, Some, pos, ◌≡◌, ◌≤ℤ◌};
ghost use Rattle.filser.specs.Common.{AreNeeded, IsMissing, IsStreamAt, IsStreamOf, LeadApart, LeadToOne};
ghost use Rattle.filser.specs.FreeStreams.{is_silent};
ghost use Rattle.filser.specs.declared.fault.HostFault.{HostFault as Faults};

use crate::{FileId, Host, HostFault};
use std::fs::File;
use std::io::{self, ErrorKind};
use std::os::fd::{AsRawFd, RawFd};
use std::rt::Files;

/// The number of the standard input.
const INPUT: RawFd = 0;

/// The number of the standard output.
const OUTPUT: RawFd = 1;

/// The number of the standard error, which is the last.
const ERRORS: RawFd = 2;

/// What is opened in the place of a standard stream: it exists on every host, and nothing can be read from it as a file
/// or written to it.
const HOLDER: &str = "/";

/// What is opened instead if the user may not read that.
const OTHER_HOLDER: &str = "/dev/null";

/// What a run reads from and prints to.
#[derive(Drop)]
pub struct Streams<R, W, E> {
    /// The input.
    pub reader: R,
    /// The output.
    pub writer: W,
    /// Where everything is reported that isn't part of the output.
    pub errors: E,
}

/// The standard streams that the program was started without. An open file takes the place of each, so that no file
/// that is opened later gets its number, and what is printed can't land in an image. The system gives a file the lowest
/// number that is free, so three files take all places; those with a higher number show that no more are free.
#[derive(Drop)]
pub struct MissingStreams {
    first: File,
    second: File,
    third: File,
}

impl MissingStreams {
    /// Finds the streams that are missing, and takes their places.
    ///
    /// # Errors
    ///
    /// The system's, if no file can be opened.
    pub fn hold<F: Files<File = File>>(files: &F) -> io::Result<Self> {
        Ok(MissingStreams {
            first: open_holder(files)?,
            second: open_holder(files)?,
            third: open_holder(files)?,
        })
    }

    /// Returns whether the input or the output is missing, without which there is no run.
    pub fn are_needed(&self) -> bool
        ensures { IsTrue result ↔ AreNeeded self.now }
    {
        self.have(INPUT) || self.have(OUTPUT)
    }

    /// Returns whether the stream of this number is missing.
    fn have(&self, number: RawFd) -> bool
        ensures { IsTrue result ↔ IsMissing self.now number }
    {
        self.first.as_raw_fd() == number
            || self.second.as_raw_fd() == number
            || self.third.as_raw_fd() == number
    }
}

/// Opens what takes the place of a stream.
///
/// # Errors
///
/// The system's.
fn open_holder<F: Files<File = File>>(files: &F) -> io::Result<File> {
    match File::open(files, HOLDER) {
        Err(error) if error.kind() == ErrorKind::PermissionDenied => File::open(
            files,
            OTHER_HOLDER,
        ),
        opened => opened,
    }
}

/// Returns whether this is the number of a standard stream.
pub(crate) fn is_stream(number: RawFd) -> bool
    ensures { IsTrue result ↔ number ≤ℤ pos 2 }
{
    number <= ERRORS
}

/// Returns the stream of this number, as a fault of an image that it leads to.
pub(crate) fn stream_of(number: RawFd) -> HostFault
    ensures { IsStreamOf number result }
{
    match number {
        INPUT => HostFault::Input,
        OUTPUT => HostFault::Output,
        _ => HostFault::Errors,
    }
}

/// Returns whether a path leads to this file, which is at another path.
fn leads_to<H: Host>(host: &H, named: FileId, path: &str, other: &str) -> bool
    requires { (H.facts host.now).found path.now (Some named) }
    ensures one { IsTrue result → LeadToOne (H.facts host.now) path.now other.now }
    ensures apart { IsFalse result → LeadApart (H.facts host.now) path.now other.now }
{
    host.identity(other) == Some(named)
}

/// Returns whether the standard error leads to the file at a path.
pub(crate) fn is_at_errors<H: Host>(host: &H, path: &str) -> bool
    ensures { (stream : Option Faults) × IsStreamAt (H.facts host.now) path.now stream × (result ≡ is_silent stream) }
{
    stream_at(host, path).is_some_and(|stream| stream.forbids_errors())
}

/// Returns the standard stream that leads to the file at a path, if one does, as far as the host has names for the
/// streams: of several the one that forbids most.
pub(crate) fn stream_at<H: Host>(host: &H, path: &str) -> Option<HostFault>
    ensures { IsStreamAt (H.facts host.now) path.now result }
{
    let named = host.identity(path)?;
    if leads_to(host, named, path, "/dev/fd/2") {
        return Some(HostFault::Errors);
    }
    if leads_to(host, named, path, "/dev/fd/1") {
        return Some(HostFault::Output);
    }
    if leads_to(host, named, path, "/dev/fd/0") {
        return Some(HostFault::Input);
    }
    None
}
