//! Tests of calls that find no memory, and of a disk that has no room for a write or a sync.
ghost use Rattle.std.specs.Prelude.{◌<◌, IsSome};
ghost use Rattle.volume.specs.Common.{pending_at};

use crate::disks::{expect_room, open};
use crate::pin_tests::read;
use crate::publish_tests::{expect_timely, file_name, hold, prime_of};
use blockdisk::{Disk, MemDisk};
use std::alloc::Global;
use std::process::Abort;
use test_support::{BAR, FOO, SIZE, owner};
use volume::{CallError, Pending, PendingKind, Volume};
use words36::{Ppn, Word};

/// Returns a volume of 64 blocks, if there is memory for it, and its disk has room to record what makes it.
fn made(alloc: Global, calls: usize) -> Option<Volume<MemDisk>> {
    let mut disk = MemDisk::new(alloc, SIZE, calls).ok()?;
    if Volume::init(&mut disk) == Ok(()) {
        open(alloc, disk)
    } else {
        None
    }
}

/// Returns the number [10,21].
fn other_ppn(rt: &impl Abort) -> Ppn {
    Ppn::new(0o10, 0o21).expect(rt, "a PPN")
}

/// Returns a volume with the directories [10,20] and [10,21], and FOO.TXT of one word in the first, if there is memory
/// for it, and its disk has room to record all writes and syncs. Its room is 44.
fn with_a_file(rt: &impl Abort, alloc: Global, calls: usize) -> Option<Volume<MemDisk>> {
    let mut volume = made(alloc, calls)?;
    let is_made = volume.make_dir(alloc, owner(), 0o775) == Ok(());
    if !is_made || volume.make_dir(alloc, other_ppn(rt), 0o775) != Ok(()) {
        return None;
    }
    let prime = prime_of(rt, FOO);
    expect_timely(rt, &volume, &prime);
    let Ok(pending) = volume.begin(alloc, PendingKind::Create, prime) else {
        return None;
    };
    let is_done = volume.publish(alloc, pending, 1, &[Word::ZERO]) == Ok(());
    if is_done { Some(volume) } else { None }
}

/// Begins an update. If an allocation is refused, nothing has changed, and the next try succeeds.
fn begin_again(rt: &impl Abort, alloc: Global, volume: &mut Volume<MemDisk>) -> Pending
    ensures { IsSome (pending_at volume.new.map.pending result.key) }
{
    let prime = prime_of(rt, FOO);
    expect_timely(rt, volume, &prime);
    match volume.begin(alloc, PendingKind::Update, prime) {
        Ok(pending) => pending,
        Err(error) => {
            assert!(rt; error == CallError::NoMemory);
            expect_room(rt, volume, 44);
            let again = prime_of(rt, FOO);
            expect_timely(rt, volume, &again);
            let Ok(pending) = volume.begin(alloc, PendingKind::Update, again) else {
                panic!(rt; "no version is begun");
            };
            pending
        }
    }
}

/// Puts words into it in the same way, and drops it.
fn put_again(rt: &impl Abort, volume: &mut Volume<MemDisk>, pending: Pending)
    requires live { IsSome (pending_at volume.old.map.pending pending.key) }
{
    let words = [Word::ZERO];
    expect_room(rt, volume, 42);
    if volume.put_words(pending, 2, &words) == Err(CallError::NoMemory) {
        expect_room(rt, volume, 42);
        assert!(rt; volume.put_words(pending, 2, &words) == Ok(()));
    }
    expect_room(rt, volume, 41);
    volume.discard(pending);
    expect_room(rt, volume, 44);
}

/// Reads FOO.TXT of one word, and the list of [10,20]. What finds no memory changes nothing, and the next try succeeds.
fn read_again<D: Disk>(rt: &impl Abort, alloc: Global, volume: &mut Volume<D>) {
    if volume.list(alloc, owner()).is_err() {
        assert!(rt; volume.list(alloc, owner()).is_ok());
    }
    let pin = hold(rt, volume);
    if read(alloc, volume, pin, 1, 1).is_err() {
        assert!(rt; read(alloc, volume, pin, 1, 1).is_ok());
    }
}

/// Moves FOO.TXT of [10,20] to BAR.TXT of [10,21].
fn move_out<D: Disk>(
    rt: &impl Abort,
    alloc: Global,
    volume: &mut Volume<D>,
) -> Result<(), CallError> {
    let (ppn, name) = (owner(), file_name(FOO));
    let to = file_name(BAR);
    assert!(rt; to.name.bits() > 0);
    assert!(rt; !volume.is_claimed(ppn, &name));
    volume.rename(alloc, ppn, &name, other_ppn(rt), &to, 0o155)
}

/// The allocations that an update, a read, a list and a move take are refused one after the other if the tests are run
/// so (`--fail-alloc`).
#[test]
fn each_allocation_of_a_version_refused(rt: HostRuntime) {
    let alloc = rt.alloc();
    let Some(mut volume) = with_a_file(&rt, alloc, 1000) else {
        return;
    };
    let pending = begin_again(&rt, alloc, &mut volume);
    put_again(&rt, &mut volume, pending);
    read_again(&rt, alloc, &mut volume);
    if move_out(&rt, alloc, &mut volume) == Err(CallError::NoMemory) {
        assert!(&rt; volume.look(owner(), &file_name(FOO)).is_ok());
        assert!(&rt; !volume.has_failed());
        assert!(&rt; move_out(&rt, alloc, &mut volume) == Ok(()));
    }
    assert!(&rt; volume.look(owner(), &file_name(FOO)).is_err());
    assert!(&rt; volume.look(other_ppn(&rt), &file_name(BAR)).is_ok());
    expect_room(&rt, &volume, 44);
}

/// The volume is made by eight writes and syncs, and opened by one; a directory takes twelve, and the new file
/// thirteen, one for its word. No answer is good if one of them fails.
#[test]
fn each_write_or_sync_of_a_file_fails(rt: HostRuntime) {
    for calls in 0..60 {
        let is_done = with_a_file(&rt, rt.alloc(), calls).is_some();
        assert!(rt; is_done == (calls >= 8 + 1 + 2 * 12 + 13), "{calls}");
    }
}
