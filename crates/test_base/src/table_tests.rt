//! Tests of tables of blocks, and of the search for clear bits.
use alloctab::{Reached, Table, TableError, count_clear, first_clear};
use blockdisk::{Disk, MemDisk, NoMemory};
use changeset::ChangeSet;
use std::process::Abort;
use std::test::Fail;
use test_support::{Answer, FailingDisk, beginning, v1};
use words36::Word;

/// In V1 the first 19 of 64 blocks are in use.
#[test]
fn the_table_of_a_small_disk(rt: HostRuntime) -> Result<(), Fail> {
    let mut disk = v1(rt.alloc(), 0)?;
    assert_eq!(rt; disk.blocks(), 64);
    let mut table = Table::load(rt.alloc(), &mut disk)?;
    assert_eq!(rt; table.is_free(18), false);
    assert_eq!(rt; table.is_free(19), true);
    table.set(20);
    table.clear(18);
    let mut set = ChangeSet::new();
    table.changes(&mut set);
    let puts = set.puts();
    assert!(rt; puts.len() == 1);
    assert_eq!(rt; puts[0].block, 14);
    assert!(rt; puts[0].words == beginning(&[0o777777100000, 0]));
    Ok(())
}

/// Of these blocks 15 to 18 are reached.
#[test]
fn blocks_are_reached_held_and_booked(rt: HostRuntime) -> Result<(), Fail> {
    let mut disk = v1(rt.alloc(), 0)?;
    assert_eq!(rt; disk.blocks(), 64);
    let mut table = Table::load(rt.alloc(), &mut disk)?;
    let mut reached = Reached::new(rt.alloc(), 64)?;
    assert!(rt; reached.mark(15) && reached.mark(16) && reached.mark(17));
    assert_eq!(rt; table.wrong_block(&reached), Some(14));
    assert!(rt; reached.mark(18) && !reached.mark(18));
    assert_eq!(rt; table.wrong_block(&reached), None);
    assert!(rt; reached.is_marked(18) && !reached.is_marked(19));
    assert!(rt; table.is_free(19) && !table.is_free(18));
    table.hold(19);
    assert_eq!(rt; table.take(), Some(20));
    assert!(rt; !table.is_free(19) && !table.is_free(20) && table.is_held_alone(20));
    table.unhold(19);
    assert_eq!(rt; table.take(), Some(19));
    assert!(rt; table.can_book(49) && !table.can_book(50));
    table.book(40);
    table.unbook(30);
    assert_eq!(rt; table.booked(), 10);
    Ok(())
}

/// A table block has a bit for each of 36 * 128 = 4608 blocks, so that the tables of these disks have 1, 1, 2 and 29
/// blocks. A table is after the log, whose images begin at block 5 and are 8 more than the table has blocks: it begins
/// at 14, 14, 15 and 42, and its last block is 14, 14, 16 and 70.
#[test]
fn the_last_block_of_each_table(rt: HostRuntime) -> Result<(), Fail> {
    for (size, blocks, last) in [(64, 1, 14), (4608, 1, 14), (4609, 2, 16), (131072, 29, 70)] {
        // It fails at a read beyond the blocks of the table.
        let disk = MemDisk::new(rt.alloc(), size, 0)?;
        let mut failing = FailingDisk::new(disk, blocks, Answer::Fails, Answer::Fails);
        assert!(rt; failing.blocks() == size);
        assert!(rt; 64 <= size && size <= 131072);
        let mut table = Table::load(rt.alloc(), &mut failing)?;
        assert_eq!(rt; failing.left, 0);
        assert_eq!(rt; table.is_free(size - 1), true);
        table.set(size - 1);
        let mut set = ChangeSet::new();
        table.changes(&mut set);
        let puts = set.puts();
        assert!(rt; puts.len() == 1);
        assert_eq!(rt; puts[0].block, last);
    }
    Ok(())
}

/// A table of two blocks is read by two reads, of which each may fail.
#[test]
fn a_read_that_fails(rt: HostRuntime) -> Result<(), Fail> {
    for (reads, wanted) in [
        (0, Some(TableError::Device)),
        (1, Some(TableError::Device)),
        (2, None),
    ] {
        let disk = MemDisk::new(rt.alloc(), 4609, 0)?;
        let mut failing = FailingDisk::new(disk, reads, Answer::Fails, Answer::Fails);
        assert!(rt; failing.blocks() == 4609);
        let answer = Table::load(rt.alloc(), &mut failing).err();
        assert_eq!(rt; answer, wanted);
        assert_eq!(rt; failing.failures, u64::from(wanted.is_some()));
    }
    Ok(())
}

/// Run with each allocation refused in turn: the answer is `NoMemory`, and the next call succeeds.
#[test]
fn each_allocation_refused(rt: HostRuntime) {
    let mut disk = match MemDisk::new(rt.alloc(), 64, 0) {
        Ok(disk) => disk,
        Err(error) => {
            assert_eq!(rt; error, NoMemory);
            return;
        }
    };
    assert!(rt; disk.blocks() == 64);
    if let Err(error) = Table::load(rt.alloc(), &mut disk) {
        assert_eq!(rt; error, TableError::NoMemory);
        assert!(rt; disk.blocks() == 64);
        assert!(rt; Table::load(rt.alloc(), &mut disk).is_ok());
    }
    if let Err(error) = Reached::new(rt.alloc(), 64) {
        assert_eq!(rt; error, NoMemory);
    }
}

/// The lanes have eight words: there are two of them here, with words after them.
#[test]
fn the_first_clear_bit(rt: HostRuntime) {
    let full = [Word::from_bits(0o777777777777); 18];
    let mut last = full;
    last[17] = Word::from_bits(0o777777777776);
    let none = [Word::ZERO; 18];
    for (set, held, first, count) in [
        (last, none, Some(647), 1),
        (none, last, Some(647), 1),
        (full, none, None, 0),
        (none, none, Some(0), 648),
    ] {
        assert_eq!(rt; first_clear(&set, &held), first);
        assert_eq!(rt; count_clear(&set, &held), count);
    }
    assert_eq!(rt; first_clear(&full[..17], &none[..17]), None);
    assert_eq!(rt; first_clear(&[], &[]), None);
}
