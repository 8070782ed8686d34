//! The words of a file that a survey found.
ghost use Rattle.std.specs.Prelude.{◌≡◌, IfOk, IsErrOf, IsSomeAnd, length};
ghost use Rattle.std.specs.List.{AllByRecursion};
ghost use Rattle.blockdisk.specs.Common.{IsWholeBlock, SameDisk, one_more};
ghost use Rattle.changeset.specs.Common.{OnlyReads};
ghost use Rattle.spec_image.specs.Common.{HasBody};
ghost use Rattle.salvage.specs.Common.{FitsDisk};
ghost use Rattle.salvage.specs.declared.error.SalvageError.TheVariants.{Device, NoMemory, NotVolume};

use crate::{SalvageError, SavedFile};
use blockdisk::Disk;
use retrieval::{BodyError, get_words};
use std::alloc::Global;
use words36::Word;

/// Returns all words of a file that a survey of this disk found; `None` if a block is damaged that wasn't then.
///
/// # Errors
///
/// `NoMemory` if there is no memory for the words, with nothing read; `Device` if the device failed.
pub fn read_words<D: Disk>(
    alloc: Global,
    disk: &mut D,
    file: &SavedFile,
) -> Result<Option<Vec<Word>>, SalvageError>
    requires fits { FitsDisk (D.state disk.old).size file.now }
    ensures words { (D.state disk.new).honest
        → AllByRecursion (IsWholeBlock (D.state disk.old).contents) file.now.stored.version.blocks
        → IfOk result (λ found. IsSomeAnd found (λ words.
        HasBody (D.state disk.old).contents file.now.stored.version.blocks words.items
        × (length words.items ≡ file.now.stored.version.words))) }
    ensures reads { (D.state disk.new).honest → OnlyReads (D.state disk.old) (D.state disk.new) }
    ensures same { SameDisk (D.state disk.old) (D.state disk.new) }
    ensures memory { IsErrOf result NoMemory → disk.new ≡ disk.old }
    ensures range { IsErrOf result NotVolume → ⊥ }
    ensures failed { IsErrOf result Device → (D.state disk.new).failures ≡ one_more (D.state disk.old).failures }
    ensures served { (IsErrOf result Device → ⊥) → (D.state disk.new).failures ≡ (D.state disk.old).failures }
{
    match get_words(
        alloc,
        disk,
        &file.stored.version,
        1,
        file.stored.version.length(),
    ) {
        Ok(words) => Ok(Some(words)),
        Err(BodyError::BadData(_)) => Ok(None),
        Err(BodyError::Device) => Err(SalvageError::Device),
        Err(BodyError::NoMemory) => Err(SalvageError::NoMemory),
    }
}
