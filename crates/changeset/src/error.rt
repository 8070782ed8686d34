//! Why a change or a recovery fails.
ghost use Rattle.std.specs.Prelude.{◌≡◌};
ghost use Rattle.blockdisk.specs.declared.fault.Fault.TheVariants.{Device as Failed, Damaged};

use blockdisk::Fault;
use thiserror::Error;

/// Why a change or a recovery failed.
#[derive(Clone, Copy, Debug, PartialEq, Eq, Error)]
pub enum LogError {
    /// There are more puts than there is room for.
    #[error("too many blocks in one change")]
    TooMany,
    /// The device failed.
    #[error("device fault")]
    Device,
    /// The gate is open, and the log isn't good.
    #[error("bad log")]
    BadLog,
}

impl From<Fault> for LogError {
    ghost use Rattle.changeset.specs.declared.error.LogError.TheVariants.{Device, BadLog};

    ghost from_gives = { λ fault error. (fault ≡ Failed → error ≡ Device) × (fault ≡ Damaged → error ≡ BadLog) };

    /// Returns the error of a fault: a damaged block of the log makes the log a bad one.
    fn from(fault: Fault) -> Self {
        match fault {
            Fault::Device => LogError::Device,
            Fault::Damaged => LogError::BadLog,
        }
    }
}
