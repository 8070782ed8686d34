//! Tests of a version from `begin` to `publish`, and of its readers.
ghost use Rattle.std.specs.Prelude.{◌≡◌, ◌+◌, ◌<◌, ◌^◌, ℕ, false, Some, IsSome, IfOk};
ghost use Rattle.spec_image.specs.Common.{pack_of, date_limit};
ghost use Rattle.volume.specs.Common.{slot, pending_at, IsReadable, IsPlaced};
ghost use Rattle.volume.specs.declared.handles.Pin.{Pin};
ghost use Rattle.volume.specs.declared.handles.VersionHandle.TheVariants.{Pinned};
ghost use Rattle.volume.specs.declared.live.LiveVersion.{LiveVersion};
ghost use Rattle.volume.specs.declared.pending.PendingVersion.{PendingVersion};

use crate::disks::{expect_room, opened};
use crate::pin_tests;
use blockdisk::{Disk, MemDisk, NoMemory};
use retrieval::{Mode, Prime};
use spec_image::Entry;
use spec_image::layout::Layout;
use std::alloc::{AllocError, Global};
use std::process::Abort;
use std::test::Fail;
use test_support::{FOO, SIZE, owner, word};
use volume::{FileFacts, Pending, PendingKind, Pin, Volume};
use words36::{BLOCK_WORDS, FileName, Half, Moment, Word};

/// The number of words of a block.
const BLOCK: u32 = BLOCK_WORDS as u32;

/// Returns the name of a file with the extension TXT: FOO.TXT if `name` is 465757000000 (octal).
pub(crate) fn file_name(name: u64) -> FileName {
    FileName {
        name: word(name),
        ext: Half::from_bits(0o647064),
    }
}

/// Returns what the prime block of a version of a file of [10,20] says: the first day and the last minute that it has.
pub(crate) fn prime_of(rt: &impl Abort, name: u64) -> Prime
    ensures { 0 < result.file.name }
{
    let file = file_name(name);
    let moment = Moment::new(4095, 1439).expect(rt, "a moment");
    assert!(rt; file.name.bits() > 0);
    Prime::new(file, owner(), 0o057, Mode::Dump, moment).expect(rt, "a prime block")
}

/// Checks that a volume's layout has room for the moment of what will be written.
pub(crate) fn expect_timely<D: Disk>(rt: &impl Abort, volume: &Volume<D>, prime: &Prime)
    ensures { (D.state volume.now.disk).honest → volume.now.failed ≡ false
        → prime.now.moment.date < date_limit (pack_of (D.state volume.now.disk)).layout }
{
    let last = volume.layout().last_date();
    assert!(rt; prime.moment.date <= last);
}

/// Returns `count` words: numbers, from this one.
pub(crate) fn numbers(alloc: Global, first: u32, count: u32) -> Result<Vec<Word>, AllocError> {
    let mut words = Vec::new(alloc);
    for i in 0..count {
        words.push(word(u64::from(first) + u64::from(i)))?;
    }
    Ok(words)
}

/// Checks that an empty volume of this layout is made on a disk.
fn expect_made<D: Disk>(rt: &impl Abort, disk: &mut D, layout: Layout) {
    assert!(rt; Volume::init_layout(disk, layout) == Ok(()));
}

/// Checks that the directory [10,20] is made, with protection 775.
fn expect_directory<D: Disk>(rt: &impl Abort, alloc: Global, volume: &mut Volume<D>) {
    assert!(rt; volume.make_dir(alloc, owner(), 0o775) == Ok(()));
}

/// Returns a fresh volume of 64 blocks, with the directory [10,20].
pub(crate) fn fresh(
    rt: &impl Abort,
    alloc: Global,
    layout: Layout,
) -> Result<Volume<MemDisk>, NoMemory> {
    let mut disk = MemDisk::new(alloc, SIZE, 1000)?;
    expect_made(rt, &mut disk, layout);
    let mut volume = opened(rt, alloc, disk);
    expect_directory(rt, alloc, &mut volume);
    Ok(volume)
}

/// Begins a version of a file of [10,20], and puts words into it.
pub(crate) fn write<D: Disk>(
    rt: &impl Abort,
    alloc: Global,
    volume: &mut Volume<D>,
    kind: PendingKind,
    name: u64,
    words: &[Word],
) -> Pending
    ensures live { IsSome (pending_at volume.new.map.pending result.key) }
    ensures placed { (p : PendingVersion) → pending_at volume.new.map.pending result.key ≡ Some p
        → IsPlaced volume.new.map p }
    ensures readers { (pin : Pin) → IsReadable volume.old.map (Pinned pin) → IsReadable volume.new.map (Pinned pin) }
{
    let prime = prime_of(rt, name);
    expect_timely(rt, volume, &prime);
    let Ok(pending) = volume.begin(alloc, kind, prime) else {
        panic!(rt; "no version is begun");
    };
    if volume.put_words(pending, 1, words) != Ok(()) {
        panic!(rt; "the words aren't put");
    }
    pending
}

/// Publishes a version with these last words at a block, counted from 1.
pub(crate) fn expect_published<D: Disk>(
    rt: &impl Abort,
    alloc: Global,
    volume: &mut Volume<D>,
    pending: Pending,
    block: u32,
    words: &[Word],
)
    requires live { IsSome (pending_at volume.old.map.pending pending.key) }
    requires placed { (p : PendingVersion) → pending_at volume.old.map.pending pending.key ≡ Some p
        → IsPlaced volume.old.map p }
    requires first { 0 < block }
    ensures readers { (pin : Pin) → IsReadable volume.old.map (Pinned pin) → IsReadable volume.new.map (Pinned pin) }
{
    assert!(rt; volume.publish(alloc, pending, block, words) == Ok(()));
}

/// Begins a version of a file, puts words into it, and publishes it, and checks how much room is left.
pub(crate) fn store<D: Disk>(
    rt: &impl Abort,
    alloc: Global,
    volume: &mut Volume<D>,
    kind: PendingKind,
    name: u64,
    words: &[Word],
    room: Option<i64>,
)
    ensures readers { (pin : Pin) → IsReadable volume.old.map (Pinned pin) → IsReadable volume.new.map (Pinned pin) }
{
    let pending = write(rt, alloc, volume, kind, name, words);
    expect_published(rt, alloc, volume, pending, 1, &[]);
    assert_eq!(rt; Some(volume.room()), room);
}

/// Pins the version that FOO.TXT has, for one reader more.
pub(crate) fn hold<D: Disk>(rt: &impl Abort, volume: &mut Volume<D>) -> Pin
    ensures live { IsReadable volume.new.map (Pinned result) }
    ensures others { (pin : Pin) → (pin.key ≡ result.key → ⊥) → IsReadable volume.old.map (Pinned pin)
        → IsReadable volume.new.map (Pinned pin) }
{
    assert!(rt; volume.can_pin());
    let Ok(pin) = volume.pin(owner(), &file_name(FOO)) else {
        panic!(rt; "the file isn't there");
    };
    pin
}

/// Checks that a reader reads its whole version: these words.
fn expect_words<D: Disk>(
    rt: &impl Abort,
    alloc: Global,
    volume: &mut Volume<D>,
    pin: Pin,
    words: &[Word],
)
    requires live { IsReadable volume.old.map (Pinned pin) }
    ensures readers { (reader : Pin) → IsReadable volume.old.map (Pinned reader)
        → IsReadable volume.new.map (Pinned reader) }
{
    match pin_tests::read(alloc, volume, pin, 1, u32::MAX) {
        Ok(read) => assert!(rt; read.as_slice() == words),
        Err(_refused) => panic!(rt; "the version isn't read"),
    }
}

/// Pins FOO.TXT, checks that a reader reads these words, and unpins it.
fn expect_held<D: Disk>(rt: &impl Abort, alloc: Global, volume: &mut Volume<D>, words: &[Word]) {
    let pin = hold(rt, volume);
    expect_words(rt, alloc, volume, pin, words);
    volume.unpin(pin);
}

/// Checks that the volume has one file, FOO.TXT, of three blocks with these words, and how much room is left.
fn expect_file<D: Disk>(rt: &impl Abort, alloc: Global, volume: &mut Volume<D>, words: &[Word]) {
    let length = u32::try_from(words.len()).expect(rt, "a length");
    let moment = prime_of(rt, FOO).moment;
    let facts = FileFacts {
        protection: 0o057,
        mode: Mode::Dump,
        moment,
        words: length,
        blocks: 3,
    };
    let line = Entry {
        name: file_name(FOO),
        protection: 0o057,
        mode: 0o17,
        date: 4095,
        time: moment.minute,
        length,
        blocks: 3,
    };
    expect_room(rt, volume, 43);
    assert!(rt; volume.look(owner(), &file_name(FOO)) == Ok(facts));
    match volume.list(alloc, owner()) {
        Ok(lines) => assert!(rt; lines.as_slice() == [line].as_slice()),
        Err(_refused) => panic!(rt; "the directory isn't listed"),
    }
    expect_held(rt, alloc, volume, words);
}

/// Writes FOO.TXT of two blocks, and puts two more words when it is published.
fn publish_new<D: Disk>(rt: &impl Abort, alloc: Global, volume: &mut Volume<D>, first: &[Word]) {
    expect_room(rt, volume, 47);
    let pending = write(rt, alloc, volume, PendingKind::Create, FOO, first);
    expect_room(rt, volume, 44);
    expect_published(rt, alloc, volume, pending, 3, &[word(257), word(258)]);
}

/// A new file of two blocks and two words, which are put at block 3 when it is published, is there, also after the disk
/// is opened again.
#[test]
fn a_new_file_is_published(rt: HostRuntime) -> Result<(), Fail> {
    let alloc = rt.alloc();
    let first = numbers(alloc, 1, 2 * BLOCK)?;
    let words = numbers(alloc, 1, 2 * BLOCK + 2)?;
    let mut volume = fresh(&rt, alloc, Layout::One)?;
    publish_new(&rt, alloc, &mut volume, first.as_slice());
    expect_file(&rt, alloc, &mut volume, words.as_slice());
    let mut volume = opened(&rt, alloc, volume.into_disk());
    expect_file(&rt, alloc, &mut volume, words.as_slice());
    Ok(())
}
