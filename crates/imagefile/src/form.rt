//! The two forms of an image: how its words are laid out in bytes.
ghost use Rattle.std.specs.Prelude.{◌≡◌, ◌<◌, ◌≤◌};
ghost use Rattle.imagefile.specs.Image.{block_length, other_form};

use words36::{BLOCK_BYTES, PACKED_BYTES};

/// How the words of an image are laid out in its bytes.
#[derive(Clone, Copy, Debug, PartialEq, Eq)]
pub enum Form {
    /// Form 1: a word is eight bytes, the most significant first, and its top 28 bits are zero. A block with any
    /// other word is damaged.
    Wide,
    /// Form 2: two words are nine bytes, the most significant bit first. No block is damaged by its bytes.
    Packed,
}

impl Form {
    /// Returns the number of bytes of a block: 1024 or 576.
    pub fn block_bytes(self) -> u64
        ensures value { result ≡ block_length self }
        ensures some { 0 < result }
        ensures few { result ≤ 1024 }
    {
        match self {
            Form::Wide => BLOCK_BYTES as u64,
            Form::Packed => PACKED_BYTES as u64,
        }
    }

    /// Returns the other form.
    pub fn other(self) -> Form
        ensures { result ≡ other_form self }
    {
        match self {
            Form::Wide => Form::Packed,
            Form::Packed => Form::Wide,
        }
    }
}
