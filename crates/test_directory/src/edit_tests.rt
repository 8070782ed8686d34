//! Tests of the edits of a directory.
ghost use Rattle.std.specs.Prelude.{◌≡◌};
ghost use Rattle.spec_image.specs.Common.{times};

use crate::load_tests::{disk_with, files, read};
use changeset::ChangeSet;
use directory::{Chain, ChainEntry, DirectoryError, FileEntry, MasterEntry, chain_stands};
use std::alloc::Global;
use std::process::Abort;
use std::test::Fail;
use test_support::{beginning, owner, word};
use words36::{Block, FileName, Half};

/// Returns the entry of a file.
fn file(rt: &impl Abort, name: u64, ext: u32, prime: u32) -> FileEntry {
    let key = FileName {
        name: word(name),
        ext: Half::new(ext).unwrap_or(Half::from_bits(0)),
    };
    FileEntry::new(key, prime).expect(rt, "a name")
}

/// Returns a block that isn't among these.
fn fresh_block(rt: &impl Abort, blocks: &[u32]) -> u32
    ensures { times result blocks.now ≡ 0 }
{
    if blocks == [20].as_slice() {
        return 21;
    }
    assert!(rt; blocks == [20, 21].as_slice());
    22
}

/// Inserts an entry, with the block after the last in case it needs one; returns what was put.
fn insert<E: ChainEntry>(
    rt: &impl Abort,
    chain: &mut Chain<E>,
    entry: E,
) -> Result<ChangeSet, DirectoryError> {
    let mut set = ChangeSet::new();
    let fresh = fresh_block(rt, chain.blocks());
    chain.insert(entry, Some(fresh), &mut set)?;
    Ok(set)
}

/// Does the same in memory that is allocated before.
fn insert_into<E: ChainEntry>(
    rt: &impl Abort,
    alloc: Global,
    chain: &mut Chain<E>,
    entry: E,
) -> Result<ChangeSet, DirectoryError> {
    let mut set = ChangeSet::new();
    let room = chain.preallocate_for(alloc, &entry)?;
    let fresh = fresh_block(rt, chain.blocks());
    chain.insert_into(room, entry, Some(fresh), &mut set);
    Ok(set)
}

/// Puts an entry in place of another one; returns what was put.
fn rename<E: ChainEntry>(
    rt: &impl Abort,
    chain: &mut Chain<E>,
    old: &E::Key,
    entry: E,
) -> ChangeSet {
    let mut set = ChangeSet::new();
    assert!(rt; chain.find(old).is_some() && chain.find(&entry.key()).is_none());
    chain.rename(old, entry, &mut set);
    set
}

/// Removes an entry; returns the block that was freed and what was put.
fn remove<E: ChainEntry>(
    rt: &impl Abort,
    chain: &mut Chain<E>,
    key: &E::Key,
) -> (Option<u32>, ChangeSet) {
    let mut set = ChangeSet::new();
    assert!(rt; chain.find(key).is_some());
    let freed = chain.remove(key, &mut set);
    (freed, set)
}

/// Checks that these are the puts of a set.
fn expect_puts(rt: &impl Abort, set: &ChangeSet, puts: &[(u32, Block)]) {
    for (n, words) in puts {
        let mut same = set
            .puts()
            .iter()
            .filter(|put| put.block == *n && put.words == *words);
        assert!(rt; same.next().is_some());
    }
    assert_eq!(rt; set.puts().len(), puts.len());
}

/// A file goes after a full block of 42, into a block of its own; it is renamed there; it moves into the hole of the
/// first file, and its block goes.
#[test]
fn files_come_and_go(rt: HostRuntime) -> Result<(), Fail> {
    let mut disk = disk_with(&rt, rt.alloc(), &[(20, files(0, 1, 42))])?;
    let mut chain: Chain<FileEntry> = read(&rt, rt.alloc(), &mut disk, 20)?;
    assert!(rt; chain.needs_block());
    let entry = file(&rt, 43, 0, 100);
    let set = insert(&rt, &mut chain, entry)?;
    let puts = [(20, files(21, 1, 42)), (21, files(0, 43, 1))];
    expect_puts(&rt, &set, &puts);
    assert!(rt; chain.blocks() == [20, 21].as_slice() && chain.len() == 43);
    let last = file(&rt, 99, 0o777777, 31);
    let set = rename(&rt, &mut chain, &entry.name, last);
    let renamed = beginning(&[0, 1, 99, 0o777777000000, 31]);
    expect_puts(&rt, &set, &[(21, renamed)]);
    assert_eq!(rt; chain.find(&last.name), Some(42));
    let (freed, set) = remove(&rt, &mut chain, &file(&rt, 1, 0, 100).name);
    assert_eq!(rt; freed, Some(21));
    let mut wanted = files(0, 1, 42);
    wanted[2] = word(99);
    wanted[3] = word(0o777777000000);
    wanted[4] = word(31);
    expect_puts(&rt, &set, &[(20, wanted)]);
    chain_stands(&chain);
    Ok(())
}

/// Files go into memory that was allocated before: one after others, and then one with a name that is there.
#[test]
fn files_go_into_their_room(rt: HostRuntime) -> Result<(), Fail> {
    let mut disk = disk_with(&rt, rt.alloc(), &[(20, files(0, 1, 2))])?;
    let mut chain: Chain<FileEntry> = read(&rt, rt.alloc(), &mut disk, 20)?;
    let set = insert_into(&rt, rt.alloc(), &mut chain, file(&rt, 1, 3, 31))?;
    let wanted = beginning(&[0, 3, 1, 0, 100, 2, 0, 100, 1, 0o000003000000, 31]);
    expect_puts(&rt, &set, &[(20, wanted)]);
    let set = insert_into(&rt, rt.alloc(), &mut chain, file(&rt, 2, 0, 32))?;
    let wanted = beginning(&[0, 3, 1, 0, 100, 2, 0, 32, 1, 0o000003000000, 31]);
    expect_puts(&rt, &set, &[(20, wanted)]);
    let list = chain.list_sorted(rt.alloc())?;
    let sorted = [
        file(&rt, 1, 0, 100),
        file(&rt, 1, 3, 31),
        file(&rt, 2, 0, 32),
    ];
    assert!(rt; list.as_slice() == sorted.as_slice());
    Ok(())
}

/// A directory comes and goes in the only block of the master directory.
#[test]
fn a_directory_comes_and_goes(rt: HostRuntime) -> Result<(), Fail> {
    let entry = MasterEntry::new(owner(), 0o775, 0, 16).ok_or("no entry")?;
    let mut chain: Chain<MasterEntry> = Chain::bare(rt.alloc(), 20)?;
    let set = insert(&rt, &mut chain, entry)?;
    let wanted = beginning(&[0, 1, 0o000010000020, 0o775000000000, 0o20]);
    expect_puts(&rt, &set, &[(20, wanted)]);
    let (freed, set) = remove(&rt, &mut chain, &owner());
    assert_eq!(rt; freed, None);
    expect_puts(&rt, &set, &[(20, beginning(&[]))]);
    assert!(rt; chain.blocks() == [20].as_slice() && chain.len() == 0);
    Ok(())
}

/// Run with each allocation refused in turn: the answer is `NoMemory`, and the chain is unchanged.
#[test]
fn each_allocation_refused(rt: HostRuntime) {
    let Ok(mut disk) = disk_with(&rt, rt.alloc(), &[(20, files(0, 1, 42))]) else {
        return;
    };
    let answer: Result<Chain<FileEntry>, DirectoryError> = read(&rt, rt.alloc(), &mut disk, 20);
    let mut chain = match answer {
        Ok(chain) => chain,
        Err(error) => {
            assert_eq!(rt; error, DirectoryError::NoMemory);
            return;
        }
    };
    let mut count: usize = 42;
    for ext in [1, 2] {
        let entry = file(&rt, 1, ext, 100);
        let answer = if ext == 1 {
            insert(&rt, &mut chain, entry)
        } else {
            insert_into(&rt, rt.alloc(), &mut chain, entry)
        };
        match answer {
            Ok(_set) => count = count.saturating_add(1),
            Err(error) => assert_eq!(rt; error, DirectoryError::NoMemory),
        }
        assert_eq!(rt; chain.len(), count);
    }
    if let Ok(list) = chain.list_sorted(rt.alloc()) {
        assert_eq!(rt; list.len(), count);
    }
}
