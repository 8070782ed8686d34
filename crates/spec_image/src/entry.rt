//! A line of the list of a directory.
use words36::FileName;

/// A line of the list of a directory.
#[derive(Clone, Copy, Debug, PartialEq, Eq)]
pub struct Entry {
    /// The file's name and extension.
    pub name: FileName,
    /// Its protection: three octal digits.
    pub protection: u32,
    /// The data mode that it was written in, by its number.
    pub mode: u32,
    /// The day when it was written.
    pub date: u32,
    /// The minute of that day.
    pub time: u32,
    /// The number of its words.
    pub length: u32,
    /// The number of blocks that its words take.
    pub blocks: u32,
}
