//! Tests of the words of a body: they are put and read.
ghost use Rattle.std.specs.Prelude.{◌≡◌, ◌+◌, ◌-◌, ◌*◌, ◌<◌, ◌≤◌, ℕ, List, IfOk, length, take};
ghost use Rattle.std.specs.List.{AllByRecursion};
ghost use Rattle.alloctab.specs.Common.{holds, space, uses};
ghost use Rattle.spec_image.specs.Common.{blocks_of, InSpace, times, IsVolumeSize, HasBody, most_blocks, splice};
ghost use Rattle.spec_image.specs.Common.{length_after, words_from};
ghost use Rattle.retrieval.specs.Common.{IsFixed};

use crate::write_tests::{SIZE, disk_of, table_of};
use alloctab::{Table, TableError};
use blockdisk::Disk;
use retrieval::{BodyError, Version, get_words, put_words};
use std::alloc::Global;
use std::process::Abort;
use std::test::Fail;
use test_support::word;
use words36::Word;

/// Puts words and reads them back, by the two contracts alone.
fn put_and_get<D: Disk>(
    alloc: Global,
    disk: &mut D,
    table: &mut Table,
    version: &mut Version,
    block: u32,
    words: &[Word],
) -> Result<Vec<Word>, BodyError>
    requires volume { IsVolumeSize (D.state disk.old).size }
    requires size { table.old.size ≡ (D.state disk.old).size }
    requires fixed { IsFixed table.old }
    requires inside { AllByRecursion (InSpace (D.state disk.old).size) version.old.blocks }
    requires counted { length version.old.blocks ≡ blocks_of version.old.words }
    requires held { (n : ℕ) → times n version.old.blocks ≤ holds table.old n }
    requires first { 0 < block }
    requires fits { length_after version.old.words block (length words.now) ≤ most_blocks * 128 }
    requires booked { uses table.old + (blocks_of (length_after version.old.words block (length words.now))
        - length version.old.blocks) < table.old.booked }
    requires room { table.old.booked ≤ space table.old.size }
    ensures read { (D.state disk.new).honest → (body : List ℕ) → length body ≡ version.old.words
        → HasBody (D.state disk.old).contents version.old.blocks body
        → IfOk result (λ got. got.items ≡ take (length_after version.old.words block (length words.now))
        (words_from (splice body block words.now) 1)) }
{
    put_words(disk, table, version, block, words)?;
    get_words(alloc, disk, version, 1, version.length())
}

/// Puts 300 words from a block, 1 or 2, into an empty body, and checks that they are read back, with zeros before them.
pub(crate) fn put_and_read_back<D: Disk>(
    rt: &impl Abort,
    alloc: Global,
    disk: &mut D,
    block: u32,
) -> Result<(), BodyError> {
    let mut words = [word(7); 300];
    words[0] = word(1);
    words[299] = word(2);
    assert!(rt; disk.blocks() == SIZE && (block == 1 || block == 2));
    let mut table = match table_of(rt, alloc, disk, 40) {
        Ok(table) => table,
        Err(TableError::Device) => return Err(BodyError::Device),
        Err(_error) => return Err(BodyError::NoMemory),
    };
    let mut version = Version::new(alloc);
    let read = put_and_get(alloc, disk, &mut table, &mut version, block, &words)?;
    let start = if block == 1 { 0 } else { 128 };
    assert_eq!(rt;
        (read.len(), version.length() as usize),
        (start + 300, start + 300)
    );
    let zeros = [Word::ZERO; 128];
    assert!(rt; &read[..start] == &zeros[..start] && &read[start..] == words.as_slice());
    Ok(())
}

#[test]
fn words_put_and_read_back(rt: HostRuntime) -> Result<(), Fail> {
    for block in [1, 2] {
        let mut disk = disk_of(&rt, rt.alloc(), 16)?;
        put_and_read_back(&rt, rt.alloc(), &mut disk, block)?;
    }
    Ok(())
}
