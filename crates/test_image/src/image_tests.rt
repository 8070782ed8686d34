//! Tests of images in memory, in both forms.
use blockdisk::{Disk, Fault, NoMemory};
use imagefile::{
    Durable, Form, HostFile, ImageDisk, ImageError, MemFile, PackedDisk, block_count, whole_blocks,
};
use std::alloc::{AllocError, Global};
use std::process::Abort;
use std::test::Fail;
use test_support::{TEXT, beginning, filled};
use words36::{Block, block_from_nine, block_to_nine};

/// An image of 64 blocks by hand: block, place and word (octal) of each word that isn't zero. It has the directory
/// [10,20] with one file, FOO.TXT, of the words `HELLO`, carriage return and line feed.
const V1: [(usize, usize, u64); 31] = [
    (1, 0, 0o465154634562),
    (1, 1, 1),
    (1, 2, 0o100),
    (1, 3, 1),
    (1, 4, 0o11),
    (1, 5, 0o17),
    (2, 0, 0o465154634562),
    (2, 1, 1),
    (2, 2, 0o100),
    (2, 3, 1),
    (2, 4, 0o11),
    (2, 5, 0o17),
    (14, 0, 0o777777400000),
    (15, 1, 1),
    (15, 2, 0o000010000020),
    (15, 3, 0o775000000000),
    (15, 4, 0o20),
    (16, 1, 1),
    (16, 2, 0o465757000000),
    (16, 3, 0o647064000000),
    (16, 4, 0o21),
    (17, 0, 0o625142000000),
    (17, 1, 0o465757000000),
    (17, 2, 0o647064000000),
    (17, 3, 0o057000007777),
    (17, 4, 0o000010000020),
    (17, 5, 2),
    (17, 6, 1),
    (17, 16, 0o000001000022),
    (18, 0, 0o442131446236),
    (18, 1, 0o064240000000),
];

/// Returns the bytes of that image.
pub(crate) fn v1(rt: &impl Abort, alloc: Global) -> Result<Vec<u8>, AllocError> {
    let mut image = vec![in alloc; 0; 65536]?;
    let bytes = image.as_mut_slice();
    for &(block, place, word) in &V1 {
        assert!(rt; block < 64 && place < 128 && bytes.len() == 65536);
        let at = 1024 * block + 8 * place;
        bytes[at..at + 8].copy_from_slice(&word.to_be_bytes());
    }
    Ok(image)
}

/// Returns a file in memory of these bytes, with room for this number of calls.
fn file_of(alloc: Global, bytes: Vec<u8>, calls: usize) -> Result<MemFile, Fail> {
    let file = MemFile::new(alloc, bytes.as_slice(), calls);
    drop(bytes);
    Ok(file?)
}

/// Returns the disk over a file that is an image of this form.
pub(crate) fn disk_over<F: Durable + Drop>(rt: &impl Abort, file: F, form: Form) -> ImageDisk<F> {
    match ImageDisk::of_form(file, form) {
        Ok(disk) => disk,
        Err(_refused) => panic!(rt; "the file is an image"),
    }
}

/// Checks the answer to a read of a block.
pub(crate) fn expect_block<D: Disk>(
    rt: &impl Abort,
    disk: &mut D,
    n: u32,
    wanted: Result<Block, Fault>,
) {
    assert!(rt; n < disk.blocks());
    assert!(rt; disk.read(n) == wanted);
}

/// Checks the answer to a write of a block filled with this number.
pub(crate) fn expect_write<D: Disk>(
    rt: &impl Abort,
    disk: &mut D,
    n: u32,
    number: u64,
    wanted: Result<(), Fault>,
) {
    assert!(rt; n < disk.blocks());
    assert_eq!(rt; disk.write(n, &filled(number)), wanted);
}

/// Checks that the words of V1 are read, and that a block is written, synced and read back.
pub(crate) fn expect_v1<D: Disk>(rt: &impl Abort, disk: &mut D) {
    for &(n, place, word) in &V1 {
        assert!(rt; n < 64 && place < 128 && disk.blocks() == 64);
        match disk.read(n as u32) {
            Ok(block) => assert_eq!(rt; block[place].bits(), word),
            Err(_) => panic!(rt; "block {n} isn't read"),
        }
    }
    expect_block(rt, disk, 63, Ok(filled(0)));
    expect_write(rt, disk, 63, 0o123456701234, Ok(()));
    assert_eq!(rt; disk.sync(), Ok(()));
    expect_block(rt, disk, 63, Ok(filled(0o123456701234)));
    expect_block(rt, disk, 62, Ok(filled(0)));
}

/// V1 in a file in memory, once as what a system's calls work on. A file with no call left fails at a write and a
/// sync, and is still read.
#[test]
fn an_image_in_memory(rt: HostRuntime) -> Result<(), Fail> {
    let file = HostFile::new(file_of(rt.alloc(), v1(&rt, rt.alloc())?, 2)?);
    expect_v1(&rt, &mut disk_over(&rt, file, Form::Wide));
    let mut disk = match ImageDisk::new(file_of(rt.alloc(), v1(&rt, rt.alloc())?, 2)?) {
        Ok(disk) => disk,
        Err(_refused) => panic!(rt; "the file is an image"),
    };
    expect_v1(&rt, &mut disk);
    expect_write(&rt, &mut disk, 0, 1, Err(Fault::Device));
    assert_eq!(rt; disk.sync(), Err(Fault::Device));
    expect_block(&rt, &mut disk, 0, Ok(filled(0)));
    let mut file = disk.finish();
    assert_eq!(rt; file.len(), Ok(65536));
    Ok(())
}

/// Checks the words of twenty blocks, of which 10 and 17 are damaged: a run ends at the first of them, and it is
/// damaged until it is written.
fn expect_damage<D: Disk>(rt: &impl Abort, disk: &mut D) {
    expect_block(rt, disk, 0, Ok(beginning(&[0o442131446236])));
    for (first, wanted) in [(0, Some(10)), (11, Some(17)), (18, None)] {
        assert_eq!(rt; disk.blocks(), 20);
        assert_eq!(rt; disk.verify(first, 20), Ok(wanted), "from {first}");
    }
    let mut places = [filled(9); 20];
    assert_eq!(rt; disk.blocks(), 20);
    assert_eq!(rt; disk.read_run(0, &mut places), Ok(Some(10)));
    assert!(rt; places[9] == filled(0));
    expect_block(rt, disk, 10, Err(Fault::Damaged));
    expect_write(rt, disk, 10, 7, Ok(()));
    expect_block(rt, disk, 10, Ok(filled(7)));
}

/// Twenty blocks of zeros, except the first word of FOO.TXT in block 0, and a word with top bits in block 10 as its
/// last one and in block 17 as its first.
#[test]
fn damaged_blocks_of_an_image(rt: HostRuntime) -> Result<(), Fail> {
    let mut bytes = vec![in rt.alloc(); 0; 20480]?;
    bytes[..8].copy_from_slice(&[0, 0, 0, 0x09, 0x11, 0x66, 0x4c, 0x9e]);
    bytes[10 * 1024 + 1019] = 0x10;
    bytes[17 * 1024] = 0x01;
    let file = file_of(rt.alloc(), bytes, 1)?;
    expect_damage(&rt, &mut disk_over(&rt, file, Form::Wide));
    Ok(())
}

/// Checks that a run of twenty blocks from the first one is written, and reads as it was written.
fn expect_run<D: Disk>(rt: &impl Abort, disk: &mut D, first: u32) {
    let mut blocks = [filled(0); 20];
    for place in 0..20 {
        blocks[place] = filled(100 + place as u64);
    }
    assert!(rt; first <= 20 && disk.blocks() == 40);
    assert_eq!(rt; disk.write_run(first, &blocks), Ok(()));
    assert!(rt; disk.blocks() == 40);
    let mut places = [filled(9); 20];
    assert_eq!(rt; disk.read_run(first, &mut places), Ok(None));
    assert!(rt; places == blocks);
}

/// Twenty neighbours of an image of forty blocks are written and read, in both forms: by two calls of the file, and by
/// one.
#[test]
fn runs_of_an_image(rt: HostRuntime) -> Result<(), Fail> {
    for (form, bytes) in [(Form::Wide, 40960), (Form::Packed, 23040)] {
        let file = file_of(rt.alloc(), vec![in rt.alloc(); 0; bytes]?, 80)?;
        let mut disk = disk_over(&rt, file, form);
        expect_run(&rt, &mut disk, 3);
        let mut disk = disk.with_room(rt.alloc());
        expect_run(&rt, &mut disk, 3);
        expect_block(&rt, &mut disk, 2, Ok(filled(0)));
        expect_block(&rt, &mut disk, 23, Ok(filled(0)));
    }
    Ok(())
}

/// Checks three packed blocks of ones: none is damaged, and one that is written is read back, with the others as they
/// were.
fn expect_ones<D: Disk>(rt: &impl Abort, disk: &mut D) {
    assert_eq!(rt; disk.blocks(), 3);
    assert_eq!(rt; disk.verify(0, 3), Ok(None));
    expect_block(rt, disk, 1, Ok(filled(0o777777777777)));
    expect_write(rt, disk, 1, 0o123456701234, Ok(()));
    assert_eq!(rt; disk.sync(), Ok(()));
    expect_block(rt, disk, 0, Ok(filled(0o777777777777)));
    expect_block(rt, disk, 1, Ok(filled(0o123456701234)));
    expect_block(rt, disk, 2, Ok(filled(0o777777777777)));
}

/// Two words are nine bytes, those of the first one first: `HELLO`, carriage return and line feed. No bytes are
/// damaged.
#[test]
fn a_packed_image_in_memory(rt: HostRuntime) -> Result<(), Fail> {
    let bytes = block_to_nine(&beginning(&TEXT));
    let first = [0x91, 0x16, 0x64, 0xc9, 0xe1, 0xa2, 0x80, 0x00, 0x00];
    assert!(rt; bytes[..9] == first[..]);
    assert!(rt; block_from_nine(&bytes) == beginning(&TEXT));
    match PackedDisk::new(file_of(rt.alloc(), vec![in rt.alloc(); 0xff; 1728]?, 2)?) {
        Ok(disk) => {
            let mut disk = disk;
            expect_ones(&rt, &mut disk);
        }
        Err(_refused) => panic!(rt; "the file is an image"),
    }
    Ok(())
}

/// Three blocks of zeros, which five bytes follow, in both forms.
#[test]
fn the_whole_blocks_of_a_file(rt: HostRuntime) -> Result<(), Fail> {
    for (form, bytes) in [(Form::Wide, 3077), (Form::Packed, 1733)] {
        let file = file_of(rt.alloc(), vec![in rt.alloc(); 0; bytes]?, 2)?;
        match ImageDisk::of_start(file, form) {
            Ok((disk, tail)) => {
                let mut disk = disk;
                assert_eq!(rt; (disk.blocks(), tail), (3, 5));
                expect_block(&rt, &mut disk, 2, Ok(filled(0)));
            }
            Err(_refused) => panic!(rt; "the file has whole blocks"),
        }
    }
    Ok(())
}

/// Fewer bytes than a block has are all left over, and a file may have nearly 2^32 blocks.
#[test]
fn whole_blocks_of_a_length(rt: HostRuntime) {
    for (form, size, wanted) in [
        (Form::Wide, 1023, Ok((0, 1023))),
        (Form::Packed, 576, Ok((1, 0))),
        (Form::Wide, (1 << 42) - 1, Ok((u32::MAX, 1023))),
        (Form::Wide, 1 << 42, Err(ImageError::BadSize)),
        (Form::Packed, 576 << 32, Err(ImageError::BadSize)),
    ] {
        assert_eq!(rt; whole_blocks(form, size), wanted);
    }
}

/// Each error has its text, and a length that is no image's has one of them.
#[test]
fn texts_of_errors(rt: HostRuntime) -> Result<(), Fail> {
    assert_eq!(rt; block_count(Form::Wide, 65536), Ok(64));
    assert_eq!(rt; block_count(Form::Packed, 65536), Err(ImageError::BadSize));
    for (error, wanted) in [
        (ImageError::BadSize, "not an image's size"),
        (ImageError::Device, "device fault"),
    ] {
        let text = error.to_string(rt.alloc())?;
        assert!(rt; text.as_str() == wanted);
    }
    Ok(())
}

/// Run with each allocation refused in turn: the answer is `NoMemory` and nothing else.
#[test]
fn each_allocation_refused(rt: HostRuntime) {
    for calls in [3, usize::MAX] {
        match MemFile::new(rt.alloc(), &[0; 2048], calls) {
            Ok(_file) => assert!(rt; calls == 3),
            Err(error) => assert_eq!(rt; error, NoMemory),
        }
    }
}
