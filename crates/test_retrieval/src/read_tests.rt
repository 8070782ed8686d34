//! Tests of versions in memory, of those that are read, and of prime blocks that are built.
use blockdisk::{Disk, MemDisk};
use retrieval::{
    BodyError, Mode, Prime, RetrievalError, Version, is_prime_of, prime_block, prime_block_for,
    read_version,
};
use spec_image::layout::Layout;
use std::process::Abort;
use std::test::Fail;
use test_support::{PRIME, beginning, foo, owner, v1, word};
use words36::{BLOCK_WORDS, Block, Moment, Word};

/// Returns FOO.TXT of [10,20] with protection 057, mode 17 and a date, at 17 minutes past midnight.
pub(crate) fn foo_of(rt: &impl Abort, date: u32) -> Prime {
    let moment = Moment::new(date, 17).expect(rt, "a moment");
    Prime::new(foo(), owner(), 0o057, Mode::Dump, moment).expect(rt, "a prime block")
}

/// Returns a block that begins with these words and has the same word in all places from `from` up to `end`.
fn block_of(words: &[u64], from: usize, end: usize, number: u64) -> Block {
    let mut block = beginning(words);
    for (place, own) in block.iter_mut().enumerate() {
        if from <= place && place < end {
            *own = word(number);
        }
    }
    block
}

/// Checks that a version has these blocks, in this order.
fn expect_blocks(rt: &impl Abort, version: &Version, blocks: &[u32]) {
    assert_eq!(rt; version.count(), blocks.len());
    for (i, block) in blocks.iter().enumerate() {
        assert_eq!(rt; version.block(i), Some(*block));
    }
}

/// A copy is unchanged when a run of the version that it was made of is split.
#[test]
fn a_version_in_memory(rt: HostRuntime) -> Result<(), Fail> {
    let mut version = Version::new(rt.alloc());
    version.push(30)?;
    version.push(31)?;
    version.push(32)?;
    version.push(40)?;
    version.push_rib(50)?;
    version.set_length(400);
    let copy = version.copy()?;
    assert!(rt; version.count() == 4);
    let run = version.run_at(1);
    assert_eq!(rt; (run.first, run.last), (31, 32));
    version.set_block(1, 41)?;
    expect_blocks(&rt, &version, &[30, 41, 32, 40]);
    assert_eq!(rt; version.runs().len(), 4);
    expect_blocks(&rt, &copy, &[30, 31, 32, 40]);
    assert_eq!(rt; (copy.length(), copy.runs().len()), (400, 2));
    assert!(rt; copy.ribs() == [50].as_slice());
    let bare = copy.copy_without_ribs(rt.alloc())?;
    assert!(rt; bare.ribs().is_empty() && bare.count() == 4);
    Ok(())
}

/// FOO.TXT of V1 has protection 057, mode 0, midnight of day 4095, and two words in block 18.
#[test]
fn a_small_file(rt: HostRuntime) -> Result<(), Fail> {
    let mut disk = v1(rt.alloc(), 0)?;
    assert!(rt; disk.blocks() == 64);
    let (prime, version) = read_version(rt.alloc(), &mut disk, 17, Layout::One)?;
    assert!(rt; prime.file == foo() && prime.ppn == owner());
    assert_eq!(rt; (prime.protection, prime.mode), (0o057, Mode::Ascii));
    assert_eq!(rt; (prime.moment.date, prime.moment.minute), (4095, 0));
    assert_eq!(rt; version.length(), 2);
    expect_blocks(&rt, &version, &[18]);
    assert!(rt; version.ribs().is_empty());
    assert!(rt; prime_block(&prime, &version) == beginning(&PRIME));
    Ok(())
}

/// The prime block of a version of 239 blocks has 112 of them, and its extensions in 21 and 22 have the rest. Then the
/// last one is damaged.
#[test]
fn a_file_with_two_extensions(rt: HostRuntime) -> Result<(), Fail> {
    let mut head = PRIME;
    head[5] = 239 * 128;
    head[6] = 112;
    head[7] = 21;
    let prime = block_of(&head, 16, 128, 0o1000000 + 100);
    let full = block_of(&[0o706242000000 + 126, 22], 2, 128, 0o1000000 + 200);
    let last = beginning(&[0o706242000001, 0, 0o1000000 + 300]);
    let mut disk = MemDisk::new(rt.alloc(), 1024, 0)?;
    assert!(rt; disk.blocks() == 1024);
    disk.load(20, &prime);
    disk.load(21, &full);
    disk.load(22, &last);
    assert!(rt; disk.blocks() == 1024);
    let (attributes, version) = read_version(rt.alloc(), &mut disk, 20, Layout::Two)?;
    assert_eq!(rt; (version.length(), version.count()), (239 * 128, 239));
    assert_eq!(rt;
        (version.block(111), version.block(112)),
        (Some(100), Some(200))
    );
    assert_eq!(rt;
        (version.block(237), version.block(238)),
        (Some(200), Some(300))
    );
    assert!(rt; version.ribs() == [21, 22].as_slice());
    assert!(rt; prime_block(&attributes, &version) == prime);
    assert!(rt; disk.blocks() == 1024);
    disk.damage(22);
    assert!(rt; disk.blocks() == 1024);
    let refused = read_version(rt.alloc(), &mut disk, 20, Layout::Two).err();
    assert_eq!(rt; refused, Some(RetrievalError::BadRetrieval(22)));
    Ok(())
}

/// Words 2 and 3 of the prime block of FOO.TXT with some dates.
#[test]
fn dates_in_prime_blocks(rt: HostRuntime) {
    let version = Version::new(rt.alloc());
    for (date, second, third) in [
        (0, 0o647064000000, 0o057740210000),
        (4095, 0o647064000000, 0o057740217777),
        (4096, 0o647064100000, 0o057740210000),
        (32767, 0o647064700000, 0o057740217777),
    ] {
        let prime = foo_of(&rt, date);
        let block = prime_block(&prime, &version);
        assert_eq!(rt; (block[2].bits(), block[3].bits()), (second, third));
        let anew = prime_block_for(&[Word::ZERO; BLOCK_WORDS], &prime);
        assert_eq!(rt; (anew[2].bits(), anew[3].bits()), (second, third));
        assert!(rt; is_prime_of(&block, Layout::Two, &prime, &version));
        assert_eq!(rt;
            is_prime_of(&block, Layout::One, &prime, &version),
            date < 4096
        );
    }
}

#[test]
fn errors_have_texts(rt: HostRuntime) -> Result<(), Fail> {
    for (error, wanted) in [
        (RetrievalError::BadRetrieval(17), "bad retrieval block 17"),
        (RetrievalError::Device, "device fault"),
        (RetrievalError::NoMemory, "out of memory"),
    ] {
        assert_eq!(rt; error.to_string(rt.alloc())?.as_str(), wanted);
    }
    let bad = BodyError::BadData(17).to_string(rt.alloc())?;
    assert_eq!(rt; bad.as_str(), "bad data block 17");
    let failed = BodyError::Device.to_string(rt.alloc())?;
    assert_eq!(rt; failed.as_str(), "device fault");
    let refused = BodyError::NoMemory.to_string(rt.alloc())?;
    assert_eq!(rt; refused.as_str(), "out of memory");
    Ok(())
}
