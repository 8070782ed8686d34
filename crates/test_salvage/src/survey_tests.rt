//! Tests of copies of disks, and of surveys of them.
use blockdisk::{Disk, Fail as Failing, FuseDisk, MemDisk, NoMemory};
use salvage::{
    Copied, Cost, Defect, Finding, SalvageError, Search, Survey, read_words, survey_disk,
};
use std::alloc::Global;
use std::process::Abort;
use std::test::Fail;
use test_support::{DIRECTORY, MASTER, OPEN, PRIME, TEXT, beginning, filled, foo, owner, v1, word};
use volume::VolumeError;
use words36::{Block, Ppn, Word};

/// The number of writes and syncs that the disks have room to record.
const CALLS: usize = 4;

/// Other words for FOO.TXT than those in V1.
const OTHER: [u64; 2] = [0o123456701234, 0o765432107654];

fn load(rt: &impl Abort, disk: &mut MemDisk, n: u32, block: &Block) {
    assert!(rt; n < disk.blocks());
    disk.load(n, block);
}

fn damage(rt: &impl Abort, disk: &mut MemDisk, n: u32) {
    assert!(rt; n < disk.blocks());
    disk.damage(n);
}

/// Returns the copy of a disk. What else `Copied::of` promises stays behind this function.
fn copied_from<D: Disk>(alloc: Global, disk: &mut D) -> Result<Copied, SalvageError> {
    Copied::of(alloc, disk, 0)
}

/// Returns what a survey of a disk finds. What else `survey_disk` promises stays behind this function.
fn surveyed(alloc: Global, disk: &mut MemDisk) -> Result<Survey, SalvageError> {
    survey_disk(alloc, disk, Search::Used)
}

/// Returns the words of the first file that is found on a disk; `None` if there is none.
fn first_words(alloc: Global, disk: &mut MemDisk) -> Result<Option<Vec<Word>>, SalvageError> {
    let survey = survey_disk(alloc, disk, Search::Used)?;
    match survey.files.first() {
        Some(file) => read_words(alloc, disk, file),
        None => Ok(None),
    }
}

/// Returns the same of the copy of a disk.
fn salvaged(alloc: Global, disk: &mut MemDisk) -> Result<Option<Vec<Word>>, SalvageError> {
    let mut copied = copied_from(alloc, disk)?;
    first_words(alloc, &mut copied.disk)
}

/// Checks that these words were found.
fn expect_text(rt: &impl Abort, found: Option<Vec<Word>>, wanted: [u64; 2]) {
    let words = found.expect(rt, "words");
    let wanted = wanted.map(word);
    assert!(rt; words.as_slice() == wanted.as_slice());
}

/// Checks that the words of FOO.TXT that the log has, with the gate open, are in the copy.
#[test]
fn a_log_is_put(rt: HostRuntime) -> Result<(), Fail> {
    let mut disk = v1(rt.alloc(), CALLS)?;
    load(&rt, &mut disk, 3, &filled(OPEN));
    load(&rt, &mut disk, 4, &beginning(&[0o545747000000, 1, 0o22]));
    load(&rt, &mut disk, 5, &beginning(&OTHER));
    let found = salvaged(rt.alloc(), &mut disk).expect(&rt, "a survey");
    expect_text(&rt, found, OTHER);
    Ok(())
}

/// Returns V1 in memory, read by salvage without a fault, or `NoMemory`.
fn words_of_v1(alloc: Global) -> Result<Option<Vec<Word>>, SalvageError> {
    let mut disk = v1(alloc, CALLS)?;
    salvaged(alloc, &mut disk)
}

/// Runs with each allocation refused in turn: the result is `NoMemory` and nothing else.
#[test]
fn each_allocation_refused(rt: HostRuntime) {
    match words_of_v1(rt.alloc()) {
        Ok(found) => expect_text(&rt, found, TEXT),
        Err(error) => assert!(rt; error == SalvageError::NoMemory),
    }
}

/// How many files of a kind a survey is to find.
#[derive(Clone, Copy)]
enum Wanted {
    None,
    InPlace,
    Doubtful,
    Unnamed,
}

/// Checks that in a copy FOO.TXT is found in this way or no file, and that this is reported last.
fn expect_told(
    rt: &impl Abort,
    alloc: Global,
    copied: &mut Copied,
    wanted: Wanted,
    fault: Defect,
    costs: Cost,
) {
    let survey = surveyed(alloc, &mut copied.disk).expect(rt, "a survey");
    let (files, doubtful, unnamed) = match wanted {
        Wanted::None => (0, 0, 0),
        Wanted::InPlace => (1, 0, 0),
        Wanted::Doubtful => (0, 1, 0),
        Wanted::Unnamed => (0, 0, 1),
    };
    assert!(rt; survey.files.len() == files);
    assert!(rt; survey.doubtful.len() == doubtful);
    assert!(rt; survey.unnamed.len() == unnamed);
    assert!(rt; survey.findings.last().copied() == Some(Finding { fault, costs }));
}

/// Checks what is found of V1 with these blocks damaged, and what is reported last.
fn expect_damaged(
    rt: &impl Abort,
    alloc: Global,
    blocks: &[u32],
    wanted: Wanted,
    fault: VolumeError,
    costs: Cost,
) -> Result<(), NoMemory> {
    let mut disk = v1(alloc, CALLS)?;
    for &n in blocks {
        damage(rt, &mut disk, n);
    }
    let mut copied = copied_from(alloc, &mut disk).expect(rt, "a copy");
    expect_told(rt, alloc, &mut copied, wanted, Defect::Start(fault), costs);
    Ok(())
}

/// Checks what damaged blocks cost: a file is found by its prime block if its directory or the home copies are lost.
#[test]
fn what_damaged_blocks_cost(rt: HostRuntime) -> Result<(), Fail> {
    for (blocks, wanted, fault, costs) in [
        (
            [18].as_slice(),
            Wanted::None,
            VolumeError::BadData(18),
            Cost::File(owner(), foo()),
        ),
        (
            &[17],
            Wanted::None,
            VolumeError::BadRetrieval(17),
            Cost::File(owner(), foo()),
        ),
        (
            &[16],
            Wanted::Unnamed,
            VolumeError::BadDirectory(16),
            Cost::Directory(owner()),
        ),
        (
            &[15],
            Wanted::Unnamed,
            VolumeError::BadDirectory(15),
            Cost::Directories,
        ),
        (
            &[14],
            Wanted::InPlace,
            VolumeError::TableWrong(14),
            Cost::Nothing,
        ),
        (
            &[1, 2],
            Wanted::Unnamed,
            VolumeError::NotVolume,
            Cost::Directories,
        ),
        (
            &[16, 18],
            Wanted::None,
            VolumeError::BadData(18),
            Cost::Unnamed(owner(), foo(), 17),
        ),
    ] {
        expect_damaged(&rt, rt.alloc(), blocks, wanted, fault, costs)?;
    }
    Ok(())
}

/// Checks what is found of V1 if block n has these words, and what is reported last.
fn expect_replaced(
    rt: &impl Abort,
    alloc: Global,
    n: u32,
    words: &[u64],
    wanted: Wanted,
    fault: VolumeError,
    costs: Cost,
) -> Result<(), NoMemory> {
    let mut disk = v1(alloc, CALLS)?;
    load(rt, &mut disk, n, &beginning(words));
    let mut copied = copied_from(alloc, &mut disk).expect(rt, "a copy");
    expect_told(rt, alloc, &mut copied, wanted, Defect::Start(fault), costs);
    Ok(())
}

/// Checks that a chain is read for one directory: not for a second one, and not if it comes to a block again.
#[test]
fn a_chain_has_one_owner(rt: HostRuntime) -> Result<(), Fail> {
    let other = Ppn::new(0o10, 0o21).expect(&rt, "a PPN");
    let [_, _, ppn, protection, first] = MASTER;
    let master = [0, 2, ppn, protection, first, ppn + 1, protection, first];
    let mut directory = DIRECTORY;
    directory[0] = first;
    for (n, words, wanted, costs) in [
        (
            15,
            master.as_slice(),
            Wanted::InPlace,
            Cost::Directory(other),
        ),
        (
            16,
            directory.as_slice(),
            Wanted::Unnamed,
            Cost::Directory(owner()),
        ),
    ] {
        let fault = VolumeError::BlockTwice(16);
        expect_replaced(&rt, rt.alloc(), n, words, wanted, fault, costs)?;
    }
    Ok(())
}

/// Checks what is found of V1 if the data block of FOO.TXT is this one, and what is reported last.
fn expect_pointed(
    rt: &impl Abort,
    alloc: Global,
    block: u32,
    fault: Defect,
) -> Result<(), NoMemory> {
    let mut disk = v1(alloc, CALLS)?;
    let mut prime = PRIME;
    prime[16] = 0o1000000 + u64::from(block);
    load(rt, &mut disk, 17, &beginning(&prime));
    let mut copied = copied_from(alloc, &mut disk).expect(rt, "a copy");
    let costs = Cost::File(owner(), foo());
    expect_told(rt, alloc, &mut copied, Wanted::Doubtful, fault, costs);
    Ok(())
}

/// Checks that a file with a block of a chain, with its own prime block or with a free block isn't in its place.
#[test]
fn blocks_that_are_not_its_own(rt: HostRuntime) -> Result<(), Fail> {
    for n in [15, 16, 17] {
        let fault = Defect::Start(VolumeError::BlockTwice(n));
        expect_pointed(&rt, rt.alloc(), n, fault)?;
    }
    expect_pointed(&rt, rt.alloc(), 19, Defect::FreeBlock(19))?;
    Ok(())
}

/// Checks how many files no directory names, by a search, in V1 with an empty directory.
fn expect_unnamed(
    rt: &impl Abort,
    alloc: Global,
    search: Search,
    table: u64,
    wanted: usize,
) -> Result<(), NoMemory> {
    let mut disk = v1(alloc, CALLS)?;
    load(rt, &mut disk, 16, &beginning(&[]));
    load(rt, &mut disk, 14, &beginning(&[table]));
    let mut copied = copied_from(alloc, &mut disk).expect(rt, "a copy");
    let survey = survey_disk(alloc, &mut copied.disk, search).expect(rt, "a survey");
    assert!(rt; survey.files.len() + survey.doubtful.len() == 0);
    assert!(rt; survey.unnamed.len() == wanted);
    Ok(())
}

/// Checks which files that no directory names each search finds: those of blocks in use, and those of all blocks.
#[test]
fn searches(rt: HostRuntime) -> Result<(), Fail> {
    let (used, free) = (0o777777400000, 0o777774000000);
    for (search, table, wanted) in [
        (Search::Named, used, 0),
        (Search::Used, used, 1),
        (Search::Every, used, 1),
        (Search::Used, free, 0),
        (Search::Every, free, 1),
        (Search::Used, free - 0o400000000000, 1),
    ] {
        expect_unnamed(&rt, rt.alloc(), search, table, wanted)?;
    }
    Ok(())
}

/// Checks that a prime block whose file isn't whole is reported if no directory names it.
#[test]
fn a_prime_block_without_its_file(rt: HostRuntime) -> Result<(), Fail> {
    let mut disk = v1(rt.alloc(), CALLS)?;
    let mut prime = PRIME;
    prime[16] = 0o1777777;
    load(&rt, &mut disk, 17, &beginning(&prime));
    damage(&rt, &mut disk, 16);
    let mut copied = copied_from(rt.alloc(), &mut disk).expect(&rt, "a copy");
    let fault = Defect::Start(VolumeError::BadRetrieval(17));
    let costs = Cost::Unnamed(owner(), foo(), 17);
    expect_told(&rt, rt.alloc(), &mut copied, Wanted::None, fault, costs);
    Ok(())
}

/// Returns the pointer to a data block.
fn pointer(n: u32) -> u64 {
    0o1000000 + u64::from(n)
}

/// Checks that an extension is loaded for one of two prime blocks that no directory names: for the first one. No block
/// is in it more than four times.
#[test]
fn an_extension_has_one_owner(rt: HostRuntime) -> Result<(), Fail> {
    let mut disk = v1(rt.alloc(), CALLS)?;
    let mut prime = [0; 128];
    prime[..16].copy_from_slice(&PRIME[..16]);
    for (i, word) in prime[16..].iter_mut().enumerate() {
        *word = pointer(21 + i as u32 / 4);
    }
    (prime[5], prime[6], prime[7]) = (113 * 128, 112, 20);
    load(&rt, &mut disk, 17, &beginning(&prime));
    load(&rt, &mut disk, 19, &beginning(&prime));
    let extension = [0o706242000001, 0, PRIME[16]];
    load(&rt, &mut disk, 20, &beginning(&extension));
    load(&rt, &mut disk, 14, &beginning(&[0o777777700000]));
    damage(&rt, &mut disk, 16);
    let mut copied = copied_from(rt.alloc(), &mut disk).expect(&rt, "a copy");
    let costs = Cost::Unnamed(owner(), foo(), 19);
    let fault = Defect::TwoOwners(20);
    expect_told(&rt, rt.alloc(), &mut copied, Wanted::Unnamed, fault, costs);
    Ok(())
}

/// Checks that a block is in at most four files that no directory names, and that those with the fewest blocks come
/// first: of five with block 18 that is the one lost which has another block too.
#[test]
fn a_block_is_in_four_files(rt: HostRuntime) -> Result<(), Fail> {
    let mut disk = v1(rt.alloc(), CALLS)?;
    load(&rt, &mut disk, 16, &beginning(&[]));
    load(&rt, &mut disk, 14, &beginning(&[0o777777770000]));
    for n in 19..23 {
        load(&rt, &mut disk, n, &beginning(&PRIME));
    }
    let mut larger = [0; 18];
    larger[..17].copy_from_slice(&PRIME);
    (larger[5], larger[6], larger[17]) = (130, 2, pointer(23));
    load(&rt, &mut disk, 17, &beginning(&larger));
    let mut copied = copied_from(rt.alloc(), &mut disk).expect(&rt, "a copy");
    let survey = surveyed(rt.alloc(), &mut copied.disk).expect(&rt, "a survey");
    assert!(rt; survey.unnamed.len() == 4);
    for (file, at) in survey.unnamed.iter().zip(19..23) {
        assert!(rt; file.at == at);
    }
    let lost = Finding {
        fault: Defect::Crowded(18),
        costs: Cost::Unnamed(owner(), foo(), 17),
    };
    assert!(rt; survey.findings.contains(&lost));
    Ok(())
}

/// Returns a disk of this many blocks that begins as another one.
fn cut(rt: &impl Abort, alloc: Global, disk: &mut MemDisk, blocks: u32) -> Result<MemDisk, Fail> {
    let mut other = MemDisk::new(alloc, blocks, CALLS)?;
    for n in 0..blocks.min(disk.blocks()) {
        assert!(rt; n < disk.blocks());
        let block = disk.read(n).expect(rt, "a block");
        load(rt, &mut other, n, &block);
    }
    Ok(other)
}

/// Checks that a volume has the size that its home copies say, whatever the length of the disk, and else that of the
/// disk.
#[test]
fn the_size_of_a_volume(rt: HostRuntime) -> Result<(), Fail> {
    for (blocks, missing, surplus) in [(50, 14, 0), (64, 0, 0), (70, 0, 6)] {
        let mut whole = v1(rt.alloc(), CALLS)?;
        let mut disk = cut(&rt, rt.alloc(), &mut whole, blocks)?;
        let mut copied = copied_from(rt.alloc(), &mut disk).expect(&rt, "a copy");
        assert!(rt; copied.faults.missing == missing);
        assert!(rt; copied.faults.surplus == surplus);
        expect_text(
            &rt,
            first_words(rt.alloc(), &mut copied.disk).expect(&rt, "words"),
            TEXT,
        );
        damage(&rt, &mut disk, 1);
        damage(&rt, &mut disk, 2);
        let found = copied_from(rt.alloc(), &mut disk);
        assert!(rt; found.is_ok() == (blocks >= 64));
    }
    Ok(())
}

/// Checks that a block is taken for damaged if the device does not read it: block 18 alone, or it and all after it. The
/// two home copies are read before.
#[test]
fn a_block_that_is_not_read_is_damaged(rt: HostRuntime) -> Result<(), Fail> {
    for (fail, unread) in [(Failing::One, 1), (Failing::All, 46)] {
        let mut disk = FuseDisk::new(v1(rt.alloc(), CALLS)?, 20, fail);
        let mut copied = copied_from(rt.alloc(), &mut disk).expect(&rt, "a copy");
        assert!(rt; copied.faults.unread == unread);
        let file = Cost::File(owner(), foo());
        let fault = Defect::Start(VolumeError::BadData(18));
        expect_told(&rt, rt.alloc(), &mut copied, Wanted::None, fault, file);
    }
    Ok(())
}
