//! Tests of versions that are written and read back.
ghost use Rattle.std.specs.Prelude.{◌≡◌, ◌+◌, ◌*◌, ◌<◌, ◌≤◌, ◌^◌, ℕ, IfOk, IsErrOf, length};
ghost use Rattle.std.specs.List.{AllByRecursion};
ghost use Rattle.alloctab.specs.Common.{holds, space, used_in_space, uses};
ghost use Rattle.spec_image.specs.Common.{blocks_of, InSpace, layout_number, IsVolumeSize, date_limit};
ghost use Rattle.retrieval.specs.Common.{with_length, IsReadAs, ribs_of, IsFixed, rib_count};
ghost use Rattle.retrieval.specs.declared.error.RetrievalError.TheVariants.{BadRetrieval};

use crate::body_tests::put_and_read_back;
use crate::read_tests::foo_of;
use alloctab::{Reached, Table, TableError};
use blockdisk::{Disk, MemDisk, NoMemory};
use retrieval::{
    BodyError, Prime, RetrievalError, Version, read_version, rib_count, take_retrieval_blocks,
    write_retrieval_blocks, write_version,
};
use spec_image::layout::Layout;
use std::alloc::Global;
use std::process::Abort;
use std::test::Fail;
use test_support::{Answer, FailingDisk, beginning, word};

/// A disk with this number of blocks has its table in block 14 and its free space from block 15.
pub(crate) const SIZE: u32 = 1024;

/// Returns a disk on which only the fixed regions are in use, and that has room for `writes` writes.
pub(crate) fn disk_of(rt: &impl Abort, alloc: Global, writes: usize) -> Result<MemDisk, NoMemory> {
    let mut disk = MemDisk::new(alloc, SIZE, writes)?;
    assert!(rt; 14 < disk.blocks());
    disk.load(14, &beginning(&[0o777770000000]));
    Ok(disk)
}

/// Returns a table in which only the fixed regions are in use, with `count` blocks booked.
pub(crate) fn table_of<D: Disk>(
    rt: &impl Abort,
    alloc: Global,
    disk: &mut D,
    count: u32,
) -> Result<Table, TableError>
    requires { IsVolumeSize (D.state disk.old).size }
    ensures size { IfOk result (λ table. table.size ≡ (D.state disk.old).size) }
    ensures kept { (D.state disk.new).size ≡ (D.state disk.old).size }
    ensures fixed { IfOk result (λ table. IsFixed table) }
    ensures unused { IfOk result (λ table. used_in_space table ≡ 0) }
    ensures no_uses { IfOk result (λ table. uses table ≡ 0) }
    ensures unheld { IfOk result (λ table. (n : ℕ) → holds table n ≡ 0) }
    ensures booked { IfOk result (λ table. table.booked ≡ count) }
{
    let size = disk.blocks();
    let mut table = Table::load(alloc, disk)?;
    let Ok(reached) = Reached::new(alloc, size) else {
        return Err(TableError::NoMemory);
    };
    assert!(rt; table.wrong_block(&reached).is_none());
    table.book(count);
    Ok(table)
}

/// Returns a version of `count` blocks, each second one from 500.
fn version_of(alloc: Global, count: u32) -> Result<Version, NoMemory>
    requires { count ≤ 239 }
    ensures words { IfOk result (λ version. version.words ≡ count * 128) }
    ensures blocks { IfOk result (λ version. length version.blocks ≡ count) }
    ensures fit { IfOk result (λ version. AllByRecursion (λ n. n < 2 ^ 18) version.blocks) }
    ensures inside { IfOk result (λ version. AllByRecursion (InSpace 1024) version.blocks) }
{
    let mut version = Version::new(alloc);
    version.set_length(count * 128);
    for i in 0..count {
        version.push(500 + 2 * i)?;
    }
    Ok(version)
}

/// Writes a version and reads it back in a layout, if that has its date, by the two contracts alone.
fn write_and_read<D: Disk>(
    alloc: Global,
    disk: &mut D,
    table: &mut Table,
    prime: &Prime,
    version: &mut Version,
    layout: Layout,
) -> Result<(Prime, Version), RetrievalError>
    requires volume { IsVolumeSize (D.state disk.old).size }
    requires size { table.old.size ≡ (D.state disk.old).size }
    requires words { version.old.words ≤ 2097152 }
    requires enough { length version.old.blocks ≡ blocks_of version.old.words }
    requires blocks { AllByRecursion (λ n. n < 2 ^ 18) version.old.blocks }
    requires inside { AllByRecursion (InSpace (D.state disk.old).size) version.old.blocks }
    requires fixed { IsFixed table.old }
    requires booked { used_in_space table.old + (1 + ribs_of version.old.blocks) ≤ table.old.booked }
    requires room { table.old.booked ≤ space table.old.size }
    ensures read { (D.state disk.new).honest → prime.now.moment.date < date_limit (layout_number layout)
        → IfOk result (λ read. IsReadAs (with_length prime.now version.old.words) version.new.ribs version.old.blocks
        read.0 read.1) }
    ensures good { (D.state disk.new).honest → prime.now.moment.date < date_limit (layout_number layout)
        → (k : ℕ) → IsErrOf result (BadRetrieval k) → ⊥ }
{
    let at = write_version(alloc, disk, table, prime, version)?;
    read_version(alloc, disk, at, layout)
}

/// Proves that the longest runs of a version need no more ribs than a pointer for each block would.
fn runs_ask_for_less(_version: &Version)
    ensures { ribs_of _version.now.blocks ≤ rib_count (length _version.now.blocks) }
{}

/// Returns a version of `count` blocks, and a table with as many booked as it has with its prime block and its ribs.
fn listed<D: Disk>(
    rt: &impl Abort,
    alloc: Global,
    disk: &mut D,
    count: u32,
) -> Result<(Table, Version), RetrievalError>
    ensures size { IfOk result (λ listed. listed.0.size ≡ 1024) }
    ensures fixed { IfOk result (λ listed. IsFixed listed.0) }
    ensures booked { IfOk result (λ listed. used_in_space listed.0 + (1 + ribs_of listed.1.blocks)
        ≤ listed.0.booked) }
    ensures ribs { IfOk result (λ listed. ribs_of listed.1.blocks ≤ rib_count (length listed.1.blocks)) }
    ensures room { IfOk result (λ listed. listed.0.booked ≤ 242) }
    ensures words { IfOk result (λ listed. listed.1.words ≤ 30592) }
    ensures enough { IfOk result (λ listed. length listed.1.blocks ≡ blocks_of listed.1.words) }
    ensures fit { IfOk result (λ listed. AllByRecursion (λ n. n < 2 ^ 18) listed.1.blocks) }
    ensures inside { IfOk result (λ listed. AllByRecursion (InSpace 1024) listed.1.blocks) }
{
    assert!(rt; disk.blocks() == SIZE && count <= 239);
    let ribs = count.saturating_sub(112).div_ceil(126);
    let table = match table_of(rt, alloc, disk, count + 1 + ribs) {
        Ok(table) => table,
        Err(TableError::Device) => return Err(RetrievalError::Device),
        Err(_error) => return Err(RetrievalError::NoMemory),
    };
    let version = version_of(alloc, count)?;
    runs_ask_for_less(&version);
    Ok((table, version))
}

/// Writes FOO.TXT of a date with a version of `count` blocks, and checks that it is read back in a layout.
fn expect_read_back<D: Disk>(
    rt: &impl Abort,
    alloc: Global,
    disk: &mut D,
    count: u32,
    date: u32,
    layout: Layout,
) -> Result<(), RetrievalError> {
    let (mut table, mut version) = listed(rt, alloc, disk, count)?;
    let prime = foo_of(rt, date);
    assert!(rt; disk.blocks() == SIZE && count <= 239);
    let (same, read) = write_and_read(alloc, disk, &mut table, &prime, &mut version, layout)?;
    assert!(rt; same == prime);
    assert_eq!(rt;
        (read.length(), read.count()),
        (count * 128, count as usize)
    );
    assert_eq!(rt; read.block(112), version.block(112));
    assert!(rt; read.ribs() == version.ribs());
    assert_eq!(rt;
        read.ribs().len(),
        count.saturating_sub(112).div_ceil(126) as usize
    );
    Ok(())
}

#[test]
fn versions_written_and_read_back(rt: HostRuntime) -> Result<(), Fail> {
    for (count, date, layout) in [
        (0, 4095, Layout::One),
        (1, 32767, Layout::Two),
        (112, 4095, Layout::One),
        (113, 4095, Layout::One),
        (238, 4095, Layout::One),
        (239, 4096, Layout::Two),
    ] {
        let mut disk = disk_of(&rt, rt.alloc(), 8)?;
        expect_read_back(&rt, rt.alloc(), &mut disk, count, date, layout)?;
    }
    Ok(())
}

/// A version of 113 blocks has one rib: two blocks are written and read. 300 words of a body are put in three blocks,
/// and read. Each of these calls may fail.
#[test]
fn each_call_of_the_device_may_fail(rt: HostRuntime) -> Result<(), Fail> {
    for calls in 0..7 {
        let disk = disk_of(&rt, rt.alloc(), 8)?;
        let mut failing = FailingDisk::new(disk, calls + 1, Answer::PassesAsRead, Answer::Fails);
        let layout = Layout::One;
        let failed = expect_read_back(&rt, rt.alloc(), &mut failing, 113, 4095, layout).err();
        let wanted = if calls < 4 {
            Some(RetrievalError::Device)
        } else {
            None
        };
        assert_eq!(rt; (failed, failing.failures), (wanted, u64::from(calls < 4)));
        let disk = disk_of(&rt, rt.alloc(), 8)?;
        let mut failing = FailingDisk::new(disk, calls + 1, Answer::PassesAsRead, Answer::Fails);
        let failed = put_and_read_back(&rt, rt.alloc(), &mut failing, 1).err();
        let wanted = if calls < 6 {
            Some(BodyError::Device)
        } else {
            None
        };
        assert_eq!(rt; (failed, failing.failures), (wanted, u64::from(calls < 6)));
    }
    Ok(())
}

/// Run with each allocation refused in turn: the answer is `NoMemory`.
#[test]
fn each_allocation_refused(rt: HostRuntime) {
    if let Ok(mut disk) = disk_of(&rt, rt.alloc(), 8) {
        let layout = Layout::One;
        let failed = expect_read_back(&rt, rt.alloc(), &mut disk, 113, 4095, layout).err();
        assert!(rt; failed.is_none() || failed == Some(RetrievalError::NoMemory));
    }
    if let Ok(mut disk) = disk_of(&rt, rt.alloc(), 8) {
        let failed = put_and_read_back(&rt, rt.alloc(), &mut disk, 2).err();
        assert!(rt; failed.is_none() || failed == Some(BodyError::NoMemory));
    }
}

/// Writes FOO.TXT with a version that is listed, with a list for its ribs that was allocated before. Returns the prime
/// block.
fn write_found<D: Disk>(
    rt: &impl Abort,
    disk: &mut D,
    table: &mut Table,
    version: &mut Version,
    ribs: Vec<u32>,
) -> u32
    requires size { table.old.size ≡ 1024 }
    requires fixed { IsFixed table.old }
    requires booked { used_in_space table.old + (1 + ribs_of version.old.blocks) ≤ table.old.booked }
    requires room { table.old.booked ≤ 242 }
    requires words { version.old.words ≤ 30592 }
    requires enough { length version.old.blocks ≡ blocks_of version.old.words }
    requires fit { AllByRecursion (λ n. n < 2 ^ 18) version.old.blocks }
    requires ribs { ribs_of version.old.blocks ≤ length ribs.items }
{
    let prime = foo_of(rt, 4095);
    let _booked = table.booked(); // which states that the table is sound
    let at = take_retrieval_blocks(table, version, ribs);
    assert!(rt; disk.blocks() == SIZE);
    let answer = write_retrieval_blocks(disk, at, &prime, version);
    assert_eq!(rt; answer, Ok(()));
    at
}

/// Some words of the prime block in 15 and of the ribs in 16 and 17 of a version of 239 blocks.
const WRITTEN: [(u32, usize, u64); 18] = [
    (15, 0, 0o625142000000),
    (15, 3, 0o057740217777),
    (15, 5, 239 * 128),
    (15, 6, 112),
    (15, 7, 16),
    (15, 16, 0o1000000 + 500),
    (15, 17, 0o1000000 + 502),
    (15, 127, 0o1000000 + 722),
    (16, 0, 0o706242000176),
    (16, 1, 17),
    (16, 2, 0o1000000 + 724),
    (16, 127, 0o1000000 + 974),
    (17, 0, 0o706242000001),
    (17, 1, 0),
    (17, 2, 0o1000000 + 976),
    (17, 3, 0),
    (17, 126, 0),
    (17, 127, 0),
];

/// A version of 239 blocks takes three more: 15 is its prime block, and 16 and 17 are its ribs, the first of them
/// full and the second with one pointer.
#[test]
fn two_ribs_in_a_list_found_before(rt: HostRuntime) -> Result<(), Fail> {
    let mut disk = disk_of(&rt, rt.alloc(), 8)?;
    let (mut table, mut version) = listed(&rt, rt.alloc(), &mut disk, 239)?;
    let ribs = vec![in rt.alloc(); 0; rib_count(version.count())]?;
    assert_eq!(rt;
        write_found(&rt, &mut disk, &mut table, &mut version, ribs),
        15
    );
    assert!(rt; version.ribs() == [16, 17].as_slice());
    for (n, place, number) in WRITTEN {
        assert!(rt; n < disk.blocks() && place < 128);
        let own = disk.read(n).map(|block| block[place]);
        assert_eq!(rt; own, Ok(word(number)));
    }
    Ok(())
}
