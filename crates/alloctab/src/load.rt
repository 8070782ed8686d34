//! Reading the table blocks of a disk.
ghost use Rattle.std.specs.Prelude.{◌≡◌, ◌<◌, ◌*◌, ℕ, OnOk, IsErrOf, length};
ghost use Rattle.blockdisk.specs.Common.{SameDisk, one_more};
ghost use Rattle.changeset.specs.Common.{OnlyReads};
ghost use Rattle.spec_image.specs.Common.{IsVolumeSize, table_blocks};
ghost use Rattle.alloctab.specs.Common.{InTable, word_bit, IsClearFrom, IsTableOf, IsBadTableBlock, ReadsBits};
ghost use Rattle.alloctab.specs.declared.error.TableError.TheVariants.{TableWrong, NoMemory, Device};
ghost use Rattle.words36.specs.declared.word.TheConstants.{BLOCK_WORDS};

use crate::TableError;
use crate::bits::{copy_words, has_bit_past};
use blockdisk::{Disk, Fault};
use spec_image::layout::{table_blocks, table_start};
use words36::Word;

/// Reads table block `i`, and copies its words to their place among those of all table blocks.
fn read_bits<D: Disk>(disk: &mut D, i: u32, set: &mut [Word]) -> Result<(), TableError>
    requires volume { IsVolumeSize (D.state disk.old).size }
    requires long { length set.old ≡ BLOCK_WORDS * table_blocks (D.state disk.old).size }
    requires in_table { i < table_blocks (D.state disk.old).size }
    ensures read { (D.state disk.new).honest
        → OnOk result (ReadsBits (D.state disk.old).size (D.state disk.old).contents i set.old set.new) }
    ensures wrong { (D.state disk.new).honest → (n : ℕ) → IsErrOf result (TableWrong n)
        → IsBadTableBlock (D.state disk.old).size (D.state disk.old).contents n }
    ensures named { (n : ℕ) → IsErrOf result (TableWrong n) → InTable (D.state disk.old).size n }
    ensures long { length set.new ≡ length set.old }
    ensures past { IsClearFrom (D.state disk.old).size set.old → IsClearFrom (D.state disk.old).size set.new }
    ensures reads { (D.state disk.new).honest → OnlyReads (D.state disk.old) (D.state disk.new) }
    ensures same { SameDisk (D.state disk.old) (D.state disk.new) }
    ensures memory { IsErrOf result NoMemory → ⊥ }
    ensures failed { IsErrOf result Device → (D.state disk.new).failures ≡ one_more (D.state disk.old).failures }
    ensures served { (IsErrOf result Device → ⊥) → (D.state disk.new).failures ≡ (D.state disk.old).failures }
{
    let size = disk.blocks();
    let block = table_start(size) + i;
    let words = match disk.read(block) {
        Ok(words) => words,
        Err(Fault::Damaged) => return Err(TableError::TableWrong(block)),
        Err(Fault::Device) => return Err(TableError::Device),
    };
    if has_bit_past(&words, i as usize, size as usize) {
        return Err(TableError::TableWrong(block));
    }
    copy_words(&words, i as usize, set);
    Ok(())
}

/// Reads the words of all table blocks of a disk.
pub fn read_table<D: Disk>(disk: &mut D, set: &mut [Word]) -> Result<(), TableError>
    requires volume { IsVolumeSize (D.state disk.old).size }
    requires long { length set.old ≡ BLOCK_WORDS * table_blocks (D.state disk.old).size }
    ensures read { (D.state disk.new).honest
        → OnOk result (IsTableOf (D.state disk.old).size (D.state disk.old).contents (word_bit set.new)) }
    ensures wrong { (D.state disk.new).honest → (n : ℕ) → IsErrOf result (TableWrong n)
        → IsBadTableBlock (D.state disk.old).size (D.state disk.old).contents n }
    ensures named { (n : ℕ) → IsErrOf result (TableWrong n) → InTable (D.state disk.old).size n }
    ensures long { length set.new ≡ length set.old }
    ensures past { IsClearFrom (D.state disk.old).size set.old → IsClearFrom (D.state disk.old).size set.new }
    ensures reads { (D.state disk.new).honest → OnlyReads (D.state disk.old) (D.state disk.new) }
    ensures same { SameDisk (D.state disk.old) (D.state disk.new) }
    ensures memory { IsErrOf result NoMemory → ⊥ }
    ensures failed { IsErrOf result Device → (D.state disk.new).failures ≡ one_more (D.state disk.old).failures }
    ensures served { (IsErrOf result Device → ⊥) → (D.state disk.new).failures ≡ (D.state disk.old).failures }
{
    for i in 0..table_blocks(disk.blocks()) {
        read_bits(disk, i, set)?;
    }
    Ok(())
}
