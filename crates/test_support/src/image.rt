//! V1, the volume that was written out by hand: 64 blocks, and in [10,20] the file FOO.TXT of two words.
ghost use Rattle.std.specs.Prelude.{◌≡◌, ◌<◌, IfOk, length};

use crate::words::beginning;
use blockdisk::{MemDisk, NoMemory};
use std::alloc::Global;
use words36::Block;

/// The number of blocks of V1. Its table is block 14, and its free space begins at 15.
pub const SIZE: u32 = 64;

/// Each word of an open gate.
pub const OPEN: u64 = 0o252525252525;

/// The home copies, in blocks 1 and 2.
pub const HOME: [u64; 6] = [0o465154634562, 1, 0o100, 1, 0o11, 0o17];

/// The table, in block 14: the first 19 blocks are in use.
pub const TABLE: [u64; 1] = [0o777777400000];

/// The master directory, in block 15: [10,20] with protection 775.
pub const MASTER: [u64; 5] = [0, 1, 0o000010000020, 0o775000000000, 0o20];

/// The directory [10,20], in block 16: FOO.TXT.
pub const DIRECTORY: [u64; 5] = [0, 1, 0o465757000000, 0o647064000000, 0o21];

/// The prime block of FOO.TXT, in block 17: two words, in block 18.
pub const PRIME: [u64; 17] = [
    0o625142000000,
    0o465757000000,
    0o647064000000,
    0o057000007777,
    0o000010000020,
    2,
    1,
    0,
    0,
    0,
    0,
    0,
    0,
    0,
    0,
    0,
    0o000001000022,
];

/// The words of FOO.TXT, in block 18.
pub const TEXT: [u64; 2] = [0o442131446236, 0o064240000000];

/// Returns a home copy of V1 for this layout.
pub fn home_of(layout: u64) -> Block {
    beginning(&[HOME[0], layout, HOME[2], HOME[3], HOME[4], HOME[5]])
}

/// Returns the master directory of V1 with this quota for [10,20].
pub fn master_of(quota: u32) -> Block {
    let protection = 0o775000000000 + u64::from(quota);
    beginning(&[0, 1, 0o000010000020, protection, 0o20])
}

/// Puts a block on a disk, which keeps its size.
fn put(disk: &mut MemDisk, n: u32, block: &Block)
    requires { n < length disk.old.blocks }
    ensures { length disk.new.blocks ≡ length disk.old.blocks }
{
    disk.load(n, block);
}

/// Returns V1, with room to record `calls` writes and syncs.
///
/// # Errors
///
/// `NoMemory` if there is no room for the disk.
pub fn v1(alloc: Global, calls: usize) -> Result<MemDisk, NoMemory>
    ensures { IfOk result (λ disk. length disk.blocks ≡ 64) }
{
    let mut disk = MemDisk::new(alloc, SIZE, calls)?;
    put(&mut disk, 1, &beginning(&HOME));
    put(&mut disk, 2, &beginning(&HOME));
    put(&mut disk, 14, &beginning(&TABLE));
    put(&mut disk, 15, &beginning(&MASTER));
    put(&mut disk, 16, &beginning(&DIRECTORY));
    put(&mut disk, 17, &beginning(&PRIME));
    put(&mut disk, 18, &beginning(&TEXT));
    Ok(disk)
}

/// Returns V1 in layout 2, with this quota for [10,20], and room to record `calls` writes and syncs.
///
/// # Errors
///
/// `NoMemory` if there is no room for the disk.
pub fn v2(alloc: Global, quota: u32, calls: usize) -> Result<MemDisk, NoMemory> {
    let mut disk = v1(alloc, calls)?;
    put(&mut disk, 1, &home_of(2));
    put(&mut disk, 2, &home_of(2));
    put(&mut disk, 15, &master_of(quota));
    Ok(disk)
}
