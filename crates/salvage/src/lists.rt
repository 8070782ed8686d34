//! Additions to the lists of files and of findings.
ghost use Rattle.std.specs.Prelude.{◌≡◌, ◌++◌, ◌∷◌, [], IfErr, OnOk};
ghost use Rattle.salvage.specs.declared.error.SalvageError.TheVariants.{NoMemory};

use crate::{Cost, Defect, Finding, SalvageError, SavedFile};

/// Adds a file after the others.
///
/// # Errors
///
/// `NoMemory` if there is no memory for it.
pub fn push_file(files: &mut Vec<SavedFile>, file: SavedFile) -> Result<(), SalvageError>
    ensures pushed { OnOk result (files.new.items ≡ files.old.items ++ file ∷ []) }
    ensures only { IfErr result (λ error. error ≡ NoMemory) }
{
    match files.push(file) {
        Ok(()) => Ok(()),
        Err(_) => Err(SalvageError::NoMemory),
    }
}

/// Adds a fault and what it costs after the other findings.
///
/// # Errors
///
/// `NoMemory` if there is no memory for it.
pub fn push_finding(
    findings: &mut Vec<Finding>,
    fault: Defect,
    costs: Cost,
) -> Result<(), SalvageError>
    ensures told { OnOk result (findings.new.items
        ≡ findings.old.items ++ record { fault = fault; costs = costs } ∷ []) }
    ensures only { IfErr result (λ error. error ≡ NoMemory) }
{
    match findings.push(Finding { fault, costs }) {
        Ok(()) => Ok(()),
        Err(_) => Err(SalvageError::NoMemory),
    }
}
