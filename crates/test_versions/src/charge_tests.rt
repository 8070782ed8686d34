//! A test of what a directory is charged for, and of what its quota allows.
ghost use Rattle.std.specs.Prelude.{◌≡◌};
ghost use Rattle.spec_image.specs.Common.{layout_number};

use crate::disks::{expect_room, opened};
use crate::publish_tests::{expect_published, file_name, fresh, hold, numbers, store, write};
use blockdisk::Disk;
use spec_image::layout::Layout;
use std::alloc::Global;
use std::process::Abort;
use std::test::Fail;
use test_support::{BAR, FOO, owner, word};
use volume::{Charge, PendingKind, Volume};

/// What [10,20] is charged for with no file.
const EMPTY: u64 = 1;

/// What it is charged for with FOO.TXT of 300 words: three blocks, and a prime block.
const WITH_FOO: u64 = EMPTY + 3 + 1;

/// Checks that the volume has layout 2.
fn expect_layout_2<D: Disk>(rt: &impl Abort, volume: &Volume<D>)
    ensures { layout_number volume.now.layout ≡ 2 }
{
    match volume.layout() {
        Layout::Two => {}
        Layout::One => panic!(rt; "the volume has layout 1"),
    }
}

/// Gives the directory [10,20] of a volume of layout 2 a quota.
fn limit<D: Disk>(rt: &impl Abort, volume: &mut Volume<D>, quota: u32) {
    expect_layout_2(rt, volume);
    assert!(rt; quota < 0o1000000);
    assert!(rt; volume.set_quota(owner(), quota) == Ok(()));
}

/// Checks that [10,20], whose quota is 10, is charged for `used` blocks, and how much room is left.
fn expect_charge<D: Disk>(rt: &impl Abort, volume: &Volume<D>, used: u64, room: i64) {
    let charge = Charge { quota: 10, used };
    assert!(rt; volume.charge(owner()) == Some(charge) && volume.quota(owner()) == 10);
    expect_room(rt, volume, room);
}

/// Supersedes FOO.TXT of 300 words by a version of one word while a reader has it pinned, and then unpins it.
fn supersede_held<D: Disk>(rt: &impl Abort, alloc: Global, volume: &mut Volume<D>) {
    let pin = hold(rt, volume);
    expect_charge(rt, volume, WITH_FOO, 43); // the file's version counts once, though it is pinned
    let pending = write(rt, alloc, volume, PendingKind::Supersede, FOO, &[word(7)]);
    expect_charge(rt, volume, WITH_FOO + 2, 41);
    expect_published(rt, alloc, volume, pending, 1, &[]);
    expect_charge(rt, volume, EMPTY + 2, 41);
    volume.unpin(pin);
}

/// Updates FOO.TXT of three blocks: changes a block that it has, so that one block is left of the quota, puts a fourth
/// one, and drops the update.
fn update_foo<D: Disk>(rt: &impl Abort, alloc: Global, volume: &mut Volume<D>) {
    let pending = write(rt, alloc, volume, PendingKind::Update, FOO, &[word(7)]);
    expect_charge(rt, volume, WITH_FOO + 4, 39);
    let (foo, bar) = (file_name(FOO), file_name(BAR));
    assert!(rt; volume.quota_allows_begin(PendingKind::Create, owner(), &bar));
    assert!(rt; !volume.quota_allows_begin(PendingKind::Update, owner(), &foo));
    assert!(rt; volume.quota_allows_put(pending, 4, 1) && !volume.quota_allows_put(pending, 5, 1));
    assert!(rt; volume.quota_allows_move(owner(), &foo, owner()));
    assert!(rt; volume.put_words(pending, 4, &[word(8)]) == Ok(()));
    expect_charge(rt, volume, WITH_FOO + 5, 38);
    volume.discard(pending);
    expect_charge(rt, volume, WITH_FOO, 43);
}

/// Deletes BAR.TXT.
fn delete<D: Disk>(rt: &impl Abort, volume: &mut Volume<D>) {
    assert!(rt; volume.delete(owner(), &file_name(BAR)) == Ok(()));
}

/// A directory is charged for its own block and for its files, as they are now, and for an update in full besides the
/// file that it updates. A version that is only pinned costs room, and no directory is charged for it.
#[test]
fn files_are_charged(rt: HostRuntime) -> Result<(), Fail> {
    let alloc = rt.alloc();
    let words = numbers(alloc, 1, 300)?;
    let mut volume = fresh(&rt, alloc, Layout::Two)?;
    limit(&rt, &mut volume, 10);
    expect_charge(&rt, &volume, EMPTY, 47);
    store(
        &rt,
        alloc,
        &mut volume,
        PendingKind::Create,
        FOO,
        words.as_slice(),
        Some(43),
    );
    update_foo(&rt, alloc, &mut volume);
    supersede_held(&rt, alloc, &mut volume);
    expect_charge(&rt, &volume, EMPTY + 2, 45);
    store(
        &rt,
        alloc,
        &mut volume,
        PendingKind::Create,
        BAR,
        &[],
        Some(44),
    );
    expect_charge(&rt, &volume, EMPTY + 2 + 1, 44);
    delete(&rt, &mut volume);
    let volume = opened(&rt, alloc, volume.into_disk());
    expect_charge(&rt, &volume, EMPTY + 2, 45);
    Ok(())
}
