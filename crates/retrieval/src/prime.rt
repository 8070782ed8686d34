//! What a prime block says of its file.
ghost use Rattle.std.specs.Prelude.{◌≡◌, ◌<◌, ◌↔◌, IsSome, IfSome};

use crate::Mode;
use words36::{FileName, Moment, Ppn};

/// What a prime retrieval block says of its file, besides the length and where the data lie.
#[derive(Clone, Copy, Debug, PartialEq, Eq)]
pub struct Prime {
    /// The name and extension.
    pub file: FileName,
    /// The project-programmer number of its directory.
    pub ppn: Ppn,
    /// Three octal digits: owner, project, others.
    pub protection: u16,
    /// The mode it was written in.
    pub mode: Mode,
    /// When it was written: a date of fifteen bits, 0 to 32767. Layout 1 has only the dates below 4096.
    pub moment: Moment,
    pub ghost protection_fits: { protection < 512 },
}

impl Prime {
    /// Returns what a prime block says, or `None` for a protection above 777 (octal).
    pub fn new(
        file: FileName,
        ppn: Ppn,
        protection: u16,
        mode: Mode,
        moment: Moment,
    ) -> Option<Prime>
        ensures file { IfSome result (λ prime. prime.file ≡ file) }
        ensures ppn { IfSome result (λ prime. prime.ppn ≡ ppn) }
        ensures protection { IfSome result (λ prime. prime.protection ≡ protection) }
        ensures mode { IfSome result (λ prime. prime.mode ≡ mode) }
        ensures moment { IfSome result (λ prime. prime.moment ≡ moment) }
        ensures fits { IsSome result ↔ (protection < 512) }
    {
        if protection > 0o777 {
            return None;
        }
        Some(Prime {
            file,
            ppn,
            protection,
            mode,
            moment,
        })
    }
}
