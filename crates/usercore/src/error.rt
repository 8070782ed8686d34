//! The errors of a core's calls.
ghost use Rattle.std.specs.Prelude.{◌≡◌};

use std::alloc::AllocError;
use thiserror::Error;

/// Why a core wasn't made, read or changed.
#[derive(Clone, Copy, Debug, PartialEq, Eq, Error)]
pub enum CoreError {
    /// A word that is named is outside the core, or a ring or a command list isn't valid.
    #[error("address check")]
    AddressCheck,
    /// A growth was refused.
    #[error("no memory")]
    NoMemory,
}

impl From<AllocError> for CoreError {
    ghost use Rattle.usercore.specs.declared.error.CoreError.TheVariants.{NoMemory};

    ghost from_gives = { λ refused error. error ≡ NoMemory };

    fn from(_refused: AllocError) -> CoreError {
        CoreError::NoMemory
    }
}
