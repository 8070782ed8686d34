//! The status of a channel.
ghost use Rattle.std.specs.Prelude.{⊤, ◌≡◌, ◌+◌, ◌<◌, [], ◌∷◌, codes};
ghost use Rattle.spec_machine.specs.Jobs.{cleared, block_too_large, end_of_file, improper_mode};

use bitflags::{Flag, Flags, bitflag_items};

/// A channel's status: 18 bits. Five of them report how a call went; the mode is below them.
#[derive(Clone, Copy, Debug, PartialEq, Eq)]
pub struct IoStatus(
    /// The 18 bits.
    pub u32,
);

bitflag_items! {
    impl IoStatus: u32 {
        const IMP = 0o400000;
        const DER = 0o200000;
        const DTE = 0o100000;
        const BKT = 0o40000;
        const EOF = 0o20000;
        const KEPT = 0o17777;
    }
}

impl Flags for IoStatus {
    type Bits = u32;

    ghost exact = { ⊤ };

    ghost table = { (codes "IMP", 131072) ∷ (codes "DER", 65536) ∷ (codes "DTE", 32768) ∷ (codes "BKT", 16384)
        ∷ (codes "EOF", 8192) ∷ (codes "KEPT", 8191) ∷ [] };

    ghost set_of = { λ s. s.0 };

    /// Returns the flags, by their names.
    fn flags<'a>() -> &'a [Flag<IoStatus>] {
        IoStatus::FLAGS
    }

    /// Returns the 18 bits.
    fn bits(&self) -> u32 {
        self.0
    }

    /// Returns the status of these bits.
    fn from_bits_retain(bits: u32) -> IoStatus {
        IoStatus(bits)
    }
}

impl IoStatus {
    /// Returns the status of a channel that was opened in a mode.
    pub fn of_mode(mode: u32) -> IoStatus
        requires { mode < 16 }
        ensures { result.0 ≡ mode }
    {
        IoStatus(mode)
    }

    /// Returns the status of an OPEN that names a device or a mode that doesn't exist.
    pub fn improper(mode: u32) -> IoStatus
        requires { mode < 16 }
        ensures { result.0 ≡ improper_mode + mode }
    {
        IoStatus::of_mode(mode).union(IoStatus::IMP)
    }

    /// Returns the status with none of the five bits that report.
    pub fn cleared(self) -> IoStatus
        ensures { result.0 ≡ cleared self.0 }
    {
        self.intersection(IoStatus::KEPT)
    }

    /// Returns the status that reports a block number that is too large, or that there is no room.
    pub fn block_too_large(self) -> IoStatus
        ensures { result.0 ≡ cleared self.0 + block_too_large }
    {
        self.cleared().union(IoStatus::BKT)
    }

    /// Returns the status that reports the end of the file.
    pub fn end_of_file(self) -> IoStatus
        ensures { result.0 ≡ cleared self.0 + end_of_file }
    {
        self.cleared().union(IoStatus::EOF)
    }
}
