//! The facts of a file.
use retrieval::Mode;
use words36::Moment;

/// What is known of a file besides its words.
#[derive(Clone, Copy, Debug, PartialEq, Eq)]
pub struct FileFacts {
    /// Three octal digits: owner, project, others.
    pub protection: u16,
    /// The data mode it was written in.
    pub mode: Mode,
    /// When it was written.
    pub moment: Moment,
    /// Its length in words.
    pub words: u32,
    /// The number of blocks that its words take.
    pub blocks: u32,
}
