//! An open channel of a job.
ghost use Rattle.std.specs.Prelude.{◌≡◌};
ghost use Rattle.spec_machine.specs.Common.{lacks_header, is_buffered, byte_size};
ghost use Rattle.retrieval.specs.Common.{mode_number};
ghost use Rattle.usercore.specs.Common.{bits_of};

use crate::input::Input;
use crate::output::Output;
use retrieval::Mode;
use usercore::ByteSize;

/// An open channel. It has no side, one of the two, or both if it updates what it reads.
#[derive(Clone, Copy, Debug, PartialEq, Eq)]
pub struct OpenChannel {
    /// How its words move: in dump mode between the file and areas of core, else by rings of buffers.
    pub mode: Mode,
    /// The address of the input ring's header that OPEN named, 0 for none. In dump mode there is no ring.
    pub input_header: u32,
    /// The address of the output ring's header that OPEN named, 0 for none.
    pub output_header: u32,
    /// What the last call reported, and the mode: 18 bits.
    pub status: u32,
    /// Its input side, which LOOKUP opens.
    pub input: Option<Input>,
    /// Its output side, which ENTER opens.
    pub output: Option<Output>,
}

impl OpenChannel {
    /// Returns whether its words move by rings of buffers.
    pub fn is_buffered(&self) -> bool
        ensures { result ≡ is_buffered (mode_number self.now.mode) }
    {
        match self.mode {
            Mode::Ascii | Mode::AsciiLine | Mode::Image | Mode::ImageBinary | Mode::Binary => true,
            Mode::Dump => false,
        }
    }

    /// Returns whether its words would move by a ring whose header is at an address, but there is no header: the
    /// address is 0.
    pub fn lacks_header(&self, header: u32) -> bool
        ensures { result ≡ lacks_header (mode_number self.now.mode) header }
    {
        self.is_buffered() && header == 0
    }

    /// Returns the byte size of its rings.
    pub fn bytes(&self) -> ByteSize
        ensures { bits_of result ≡ byte_size (mode_number self.now.mode) }
    {
        ByteSize::of_mode(self.mode.number() as u32)
    }
}
