//! Tests of reads of a pinned version from a disk that fails.
ghost use Rattle.std.specs.Prelude.{◌≡◌, ◌<◌, IfOk};
ghost use Rattle.volume.specs.Common.{IsReadable};
ghost use Rattle.volume.specs.declared.handles.VersionHandle.TheVariants.{Pinned};

use crate::disks::open;
use crate::publish_tests::hold;
use blockdisk::{Disk, Fail as Failing, FuseDisk, NoMemory};
use std::alloc::Global;
use std::process::Abort;
use std::test::Fail;
use test_support::v1;
use volume::{CallError, Pin, VersionHandle, Volume};
use words36::Word;

/// Returns what is read of a pinned version from a block.
pub(crate) fn read<D: Disk>(
    alloc: Global,
    volume: &mut Volume<D>,
    pin: Pin,
    block: u32,
    count: u32,
) -> Result<Vec<Word>, CallError>
    requires live { IsReadable volume.old.map (Pinned pin) }
    requires first { 0 < block }
    ensures live { IsReadable volume.new.map (Pinned pin) }
    ensures map { volume.new.map ≡ volume.old.map }
{
    volume.get_words(alloc, VersionHandle::Pinned(pin), block, count)
}

/// Returns whether FOO.TXT of V1 is read from a disk that fails after `passing` calls; `None` if it isn't opened. If it
/// isn't read, the device has failed, and the volume with it.
fn is_read(rt: &impl Abort, alloc: Global, passing: u64) -> Result<Option<bool>, NoMemory> {
    let disk = FuseDisk::new(v1(alloc, 1)?, passing, Failing::All);
    let Some(mut volume) = open(alloc, disk) else {
        return Ok(None);
    };
    let pin = hold(rt, &mut volume);
    match read(alloc, &mut volume, pin, 1, 2) {
        Ok(words) => {
            assert!(rt; words.len() == 2 && !volume.has_failed());
            Ok(Some(true))
        }
        Err(error) => {
            assert!(rt; error == CallError::Device && volume.has_failed());
            Ok(Some(false))
        }
    }
}

/// The disk fails at each of its calls in turn. Seven reads and a sync open it, and the file's block is read last.
#[test]
fn each_call_of_a_read_fails(rt: HostRuntime) -> Result<(), Fail> {
    for passing in 0..10 {
        let wanted = if passing < 8 { None } else { Some(passing > 8) };
        assert!(rt; is_read(&rt, rt.alloc(), passing)? == wanted);
    }
    Ok(())
}
