//! Open files, and whether they have the number of a standard stream.
ghost use Rattle.std.specs.Prelude.{◌≡◌, ◌≤ℤ◌, pos, IfOk, IfErr};
ghost use Rattle.std.specs.Fd.{file_raw_fd};
ghost use Rattle.imagefile.specs.Streams.{IsNoStream};

use std::fs::File;
use std::os::fd::{AsRawFd, RawFd};

/// The number of the last standard stream: 0 is the input, 1 the output, 2 the error.
const LAST_STREAM: RawFd = 2;

/// Returns an open file, if it has none of the numbers of the standard streams. In a process that was started with
/// one of them closed, the next file that is opened gets its number, and what is printed then lands in that file.
///
/// # Errors
///
/// The file's number, if that is 0 to 2; the file is closed.
pub fn apart(file: File) -> Result<File, RawFd>
    ensures apart { IfOk result (λ kept. (kept ≡ file) × IsNoStream kept) }
    ensures refused { IfErr result (λ number. (number ≡ file_raw_fd file) × (number ≤ℤ pos 2)) }
{
    let number = file.as_raw_fd();
    if number <= LAST_STREAM {
        return Err(number);
    }
    Ok(file)
}
