//! The blocks that pointers name, added to a version.
ghost use Rattle.std.specs.Prelude.{◌≡◌, ◌+◌, ◌<◌, ◌≤◌, ◌^◌, OnOk, IsErrOf, length, flat_map};
ghost use Rattle.std.specs.List.{AllByRecursion};
ghost use Rattle.spec_image.specs.Common.{IsVolumeSize, RunsInSpace, InSpace, IsRun, run_blocks, count_up};
ghost use Rattle.retrieval.specs.Common.{run_of, runs_of, with_blocks};
ghost use Rattle.retrieval.specs.declared.runs.RunError.TheVariants.{Outside, TooMany};
ghost use Rattle.spec_image.specs.Common.{most_blocks};

use crate::Version;
use crate::space::is_run_in_space;
use blockdisk::NoMemory;
use words36::Word;

/// Why the blocks of pointers weren't added to a version.
#[derive(Clone, Copy)]
pub enum RunError {
    /// A run leaves the free space.
    Outside,
    /// There are more blocks than the length requires.
    TooMany,
    /// A growth was refused.
    NoMemory,
}

impl From<NoMemory> for RunError {
    ghost use Rattle.retrieval.specs.declared.runs.RunError.TheVariants.{NoMemory};

    ghost from_gives = { λ refused error. error ≡ NoMemory };

    fn from(_refused: NoMemory) -> RunError {
        RunError::NoMemory
    }
}

/// Adds the blocks of a run.
fn push_run(count: u32, first: u32, version: &mut Version) -> Result<(), NoMemory>
    requires { first + count < 2 ^ 32 }
    ensures { OnOk result (version.new ≡ with_blocks version.old (count_up count first)) }
{
    for i in 0..count {
        version.push(first + i)?;
    }
    Ok(())
}

/// Adds the blocks that a pointer names, up to `limit` blocks in all.
fn push_pointer(word: Word, size: u32, limit: u32, version: &mut Version) -> Result<(), RunError>
    requires volume { IsVolumeSize size }
    requires run { IsRun (run_of word) }
    requires room { length version.old.blocks ≤ limit }
    requires few { limit ≤ most_blocks }
    ensures ok { OnOk result (version.new ≡ with_blocks version.old (run_blocks (run_of word))) }
    ensures room { OnOk result (length version.new.blocks ≤ limit) }
    ensures inside { OnOk result (AllByRecursion (InSpace size) (run_blocks (run_of word))) }
    ensures outside { IsErrOf result Outside → AllByRecursion (InSpace size) (run_blocks (run_of word)) → ⊥ }
    ensures many { IsErrOf result TooMany → limit < length version.old.blocks + length (run_blocks (run_of word)) }
{
    let (count, first) = (word.left().bits(), word.right().bits());
    if !is_run_in_space(size, count, first) {
        return Err(RunError::Outside);
    }
    if count > limit - version.count() as u32 {
        return Err(RunError::TooMany);
    }
    push_run(count, first, version)?;
    Ok(())
}

/// Adds the blocks that pointers name, up to `limit` blocks in all.
///
/// # Errors
///
/// `Outside` if a run leaves the free space, `TooMany` if there are more blocks; `NoMemory`.
pub fn push_runs(
    pointers: &[Word],
    size: u32,
    limit: u32,
    version: &mut Version,
) -> Result<(), RunError>
    requires volume { IsVolumeSize size }
    requires runs { AllByRecursion IsRun (runs_of pointers.now) }
    requires room { length version.old.blocks ≤ limit }
    requires few { limit ≤ most_blocks }
    ensures ok { OnOk result (version.new ≡ with_blocks version.old (flat_map run_blocks (runs_of pointers.now))) }
    ensures room { OnOk result (length version.new.blocks ≤ limit) }
    ensures inside { OnOk result (RunsInSpace size (runs_of pointers.now)) }
    ensures outside { IsErrOf result Outside → RunsInSpace size (runs_of pointers.now) → ⊥ }
    ensures many { IsErrOf result TooMany
        → limit < length version.old.blocks + length (flat_map run_blocks (runs_of pointers.now)) }
{
    for word in pointers {
        push_pointer(*word, size, limit, version)?;
    }
    Ok(())
}
