//! Tests of chains that are read from a disk, and of the words of their entries.
ghost use Rattle.std.specs.Prelude.{◌<◌};

use alloctab::Reached;
use blockdisk::{Disk, MemDisk, NoMemory};
use directory::{Chain, ChainEntry, DirectoryError, FileEntry, MasterEntry};
use std::alloc::Global;
use std::cmp::Ordering;
use std::process::Abort;
use std::test::Fail;
use test_support::{Answer, FailingDisk, foo, owner, v1, word};
use words36::{BLOCK_WORDS, Block, Word};

/// Returns a block with `count` files, whose names are the numbers from `first`, and whose prime blocks are 100.
pub(crate) fn files(next: u64, first: u64, count: u64) -> Block
    requires { first < 1000 }
{
    let mut block = [Word::ZERO; BLOCK_WORDS];
    block[0] = word(next);
    block[1] = word(count);
    for i in 0..42 {
        if (i as u64) < count {
            block[2 + 3 * i] = word(first + i as u64);
            block[4 + 3 * i] = word(100);
        }
    }
    block
}

/// Returns a disk of 1024 blocks, whose free space begins at 15, with these blocks.
pub(crate) fn disk_with(
    rt: &impl Abort,
    alloc: Global,
    blocks: &[(u32, Block)],
) -> Result<MemDisk, NoMemory> {
    let mut disk = MemDisk::new(alloc, 1024, 0)?;
    for (n, block) in blocks {
        assert!(rt; *n < disk.blocks());
        disk.load(*n, block);
    }
    Ok(disk)
}

/// Reads the chain from this block, if no block was reached before.
pub(crate) fn read<E: ChainEntry, D: Disk>(
    rt: &impl Abort,
    alloc: Global,
    disk: &mut D,
    first: u32,
) -> Result<Chain<E>, DirectoryError> {
    let size = disk.blocks();
    assert!(rt; 64 <= size && size <= 4608 && 15 <= first && first < size);
    let mut reached = Reached::new(alloc, size)?;
    Chain::load(alloc, disk, first, &mut reached)
}

/// Checks that a chain is in these blocks, and has one entry, which is this one.
fn expect_alone<E: ChainEntry + PartialEq>(
    rt: &impl Abort,
    chain: &Chain<E>,
    block: u32,
    entry: &E,
) {
    assert!(rt; chain.blocks() == [block].as_slice());
    let entries = chain.entries();
    assert!(rt; entries.len() == 1 && entries[0] == *entry);
}

/// Reads the directories of V1: [10,20] with protection 775 from block 16, and FOO.TXT in it with prime block 17.
#[test]
fn the_directories_of_v1(rt: HostRuntime) -> Result<(), Fail> {
    let directory = MasterEntry::new(owner(), 0o775, 0, 16).ok_or("no entry")?;
    let file = FileEntry::new(foo(), 17).ok_or("no entry")?;
    let mut disk = v1(rt.alloc(), 0)?;
    let master: Chain<MasterEntry> = read(&rt, rt.alloc(), &mut disk, 15)?;
    expect_alone(&rt, &master, 15, &directory);
    let chain: Chain<FileEntry> = read(&rt, rt.alloc(), &mut disk, 16)?;
    expect_alone(&rt, &chain, 16, &file);
    Ok(())
}

/// A chain of three blocks is read by three reads, of which each may fail.
#[test]
fn a_chain_of_three_blocks(rt: HostRuntime) -> Result<(), Fail> {
    let blocks = [
        (20, files(1023, 1, 42)),
        (1023, files(15, 43, 42)),
        (15, files(0, 85, 1)),
    ];
    for reads in 0..4 {
        let disk = disk_with(&rt, rt.alloc(), &blocks)?;
        let mut failing = FailingDisk::new(disk, reads, Answer::Fails, Answer::Fails);
        let answer: Result<Chain<FileEntry>, DirectoryError> = read(
            &rt,
            rt.alloc(),
            &mut failing,
            20,
        );
        match answer {
            Ok(chain) => {
                assert!(rt; chain.blocks() == [20, 1023, 15].as_slice());
                assert_eq!(rt; (chain.len(), reads), (85, 3));
                let last = chain.entries().last().map(|file| file.name.name);
                assert!(rt; last == Some(word(85)));
            }
            Err(error) => {
                assert_eq!(rt; error, DirectoryError::Device);
                assert_eq!(rt; (failing.failures, reads < 3), (1, true));
            }
        }
    }
    Ok(())
}

/// Checks that an entry is these words, and they are the entry, which names this block.
fn expect_words<E: ChainEntry + PartialEq>(
    rt: &impl Abort,
    entry: E,
    words: [u64; 3],
    target: u32,
) {
    let words = [word(words[0]), word(words[1]), word(words[2])];
    assert!(rt; entry.words() == words);
    match E::parse(words) {
        Ok(read) => assert!(rt; read == entry),
        Err(_fault) => assert!(rt; false),
    }
    assert_eq!(rt; entry.target(), target);
    assert!(rt; entry.cmp_key(&entry.key()) == Ordering::Equal);
}

#[test]
fn words_of_entries(rt: HostRuntime) -> Result<(), Fail> {
    for (quota, second) in [
        (0, 0o775000000000),
        (1, 0o775000000001),
        (262_143, 0o775000777777),
    ] {
        let entry = MasterEntry::new(owner(), 0o775, quota, 16).ok_or("no entry")?;
        expect_words(&rt, entry, [0o000010000020, second, 0o20], 16);
    }
    let entry = FileEntry::new(foo(), 17).ok_or("no entry")?;
    expect_words(&rt, entry, [0o465757000000, 0o647064000000, 0o21], 17);
    Ok(())
}
