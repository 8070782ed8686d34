//! Tests of a file of the host: an image in it, and the file next to one in memory, call by call.
ghost use Rattle.std.specs.Prelude.{◌≡◌, ◌+◌, ◌≤◌, ℕ, false, length, OnOk};
ghost use Rattle.imagefile.specs.Common.{calls_of, system_of, unseen_of, size_of, IsHonestRecord, after_calls};

use crate::image_tests::{disk_over, expect_v1, v1};
use blockdisk::Fault;
use imagefile::{AssumedImage, Durable, Form, HostFile, MemFile, SeekingFile, SystemCalls};
use std::alloc::Global;
use std::fs::{self, OpenOptions};
use std::io;
use std::process::Abort;
use std::test::Fail;

/// The length of the file: not a multiple of 1024.
pub(crate) const LENGTH: usize = 5003;

/// The most bytes of a call.
const MOST: usize = 2048;

/// A call of a file, after its length is read.
#[derive(Clone, Copy)]
enum Step {
    /// A read of bytes: from this place, this number of them.
    Read(u64, usize),
    /// A write of bytes: from this place, this number of them, by this pattern.
    Write(u64, usize, u8),
    /// A sync of what was written.
    Sync,
}

/// Reads at the beginning, at the end, over the ends of blocks and of no bytes, before and after writes there.
const STEPS: [Step; 31] = [
    Step::Read(0, 1),
    Step::Read(0, 2048),
    Step::Read(1, 7),
    Step::Read(1023, 2),
    Step::Read(1024, 1024),
    Step::Read(2047, 1026),
    Step::Read(4095, 908),
    Step::Read(5002, 1),
    Step::Read(5003, 0),
    Step::Sync,
    Step::Write(0, 1, 3),
    Step::Read(0, 2),
    Step::Write(1023, 2, 7),
    Step::Read(1000, 100),
    Step::Write(1024, 1024, 11),
    Step::Read(1023, 1026),
    Step::Sync,
    Step::Read(1023, 1026),
    Step::Write(1500, 2048, 13),
    Step::Write(1700, 5, 17),
    Step::Read(1400, 2048),
    Step::Read(1699, 7),
    Step::Write(5002, 1, 19),
    Step::Write(5003, 0, 23),
    Step::Write(4990, 13, 29),
    Step::Read(4980, 23),
    Step::Sync,
    Step::Write(0, 2048, 31),
    Step::Read(0, 2048),
    Step::Read(2040, 16),
    Step::Sync,
];

/// Makes a file of these bytes in a fresh folder, and opens it for reading and writing.
fn fresh_file(rt: &HostRuntime, folder: &str, path: &str, bytes: &[u8]) -> io::Result<HostFile> {
    let _ = fs::remove_dir_all(rt, folder);
    fs::create_dir(rt, folder)?;
    fs::write(rt, path, bytes)?;
    let file = OpenOptions::new().read(true).write(true).open(rt, path)?;
    Ok(HostFile::from_file(file, AssumedImage::any()))
}

/// Checks that a file is read at its end, and that what is written to it is read back.
fn expect_file<S: SystemCalls>(rt: &impl Abort, file: &mut HostFile<SeekingFile<S>>) {
    assert_eq!(rt; file.len(), Ok(65536));
    let mut bytes = [1; 8];
    assert_eq!(rt; file.read_at(63 * 1024 + 1016, &mut bytes), Ok(()));
    assert_eq!(rt; bytes, [0, 0, 0, 2, 0x9c, 0xbb, 0x82, 0x9c]);
    let mut back = [0; 4];
    assert_eq!(rt; read_back(file, 1020, &[9, 8, 7, 6], &mut back), Ok(()));
    assert_eq!(rt; back, [9, 8, 7, 6]);
}

/// Writes bytes to a real file, syncs it, and reads them back. They are the same, and nothing is open then, if the
/// record of its calls is an honest one at the end, of a file that began as is supposed, whatever that is: a theorem,
/// made of the clauses of the three calls.
fn read_back<S: SystemCalls>(
    file: &mut HostFile<SeekingFile<S>>,
    at: u64,
    bytes: &[u8],
    back: &mut [u8],
) -> Result<(), Fault>
    requires long { length back.old ≡ length bytes.now }
    requires inside { IsHonestRecord (unseen_of (calls_of file.old)) (S.history (system_of (calls_of file.old)))
        → at + length bytes.now ≤ size_of (unseen_of (calls_of file.old)) }
    ensures same { IsHonestRecord (unseen_of (calls_of file.new)) (S.history (system_of (calls_of file.new)))
        → OnOk result (back.new ≡ bytes.now) }
    ensures closed { IsHonestRecord (unseen_of (calls_of file.new)) (S.history (system_of (calls_of file.new)))
        → OnOk result ((p : ℕ) → (after_calls (unseen_of (calls_of file.new))
        (S.history (system_of (calls_of file.new)))).is_open p ≡ false) }
{
    file.write_at(at, bytes)?;
    file.sync()?;
    file.read_at(at, back)
}

/// V1 in a file of the host.
#[test]
fn an_image_of_the_host(rt: HostRuntime) -> Result<(), Fail> {
    let image = v1(&rt, rt.alloc())?;
    let made = fresh_file(
        &rt,
        "imagefile_test",
        "imagefile_test/v1.img",
        image.as_slice(),
    );
    drop(image);
    let mut disk = disk_over(&rt, made?, Form::Wide);
    expect_v1(&rt, &mut disk);
    let mut file = disk.finish();
    expect_file(&rt, &mut file);
    drop(file);
    fs::remove_dir_all(&rt, "imagefile_test")?;
    Ok(())
}

/// Checks that both files have the same length, and answer a call in the same way, a read with the same bytes.
fn expect_same_step<F: Durable>(rt: &impl Abort, file: &mut F, memory: &mut MemFile, step: Step) {
    assert_eq!(rt; file.len(), Ok(5003));
    assert_eq!(rt; memory.len(), Ok(5003));
    match step {
        Step::Read(at, count) => {
            let (mut got, mut wanted) = ([1; MOST], [2; MOST]);
            assert!(rt; count <= MOST && at <= 5003 && count as u64 <= 5003 - at);
            assert_eq!(rt; file.read_at(at, &mut got[..count]), Ok(()));
            assert_eq!(rt; memory.read_at(at, &mut wanted[..count]), Ok(()));
            assert!(rt; got[..count] == wanted[..count], "{count} bytes at {at}");
        }
        Step::Write(at, count, pattern) => {
            let mut bytes = [0; MOST];
            fill(&mut bytes, pattern);
            assert!(rt; count <= MOST && at <= 5003 && count as u64 <= 5003 - at);
            assert_eq!(rt; file.write_at(at, &bytes[..count]), Ok(()));
            assert_eq!(rt; memory.write_at(at, &bytes[..count]), Ok(()));
        }
        Step::Sync => assert!(rt; file.sync() == Ok(()) && memory.sync() == Ok(())),
    }
}

/// Fills bytes by a pattern that tells places apart.
pub(crate) fn fill(bytes: &mut [u8], pattern: u8) {
    for (place, byte) in bytes.iter_mut().enumerate() {
        *byte = ((place % 241 + pattern as usize) % 256) as u8;
    }
}

/// Checks that a file that begins with these bytes and one in memory answer all calls in the same way. Returns the one
/// in memory.
pub(crate) fn expect_same<F: Durable>(
    rt: &impl Abort,
    alloc: Global,
    file: &mut F,
    bytes: &[u8],
) -> Result<MemFile, Fail> {
    let mut memory = MemFile::new(alloc, bytes, 64)?;
    for step in &STEPS {
        expect_same_step(rt, file, &mut memory, *step);
    }
    Ok(memory)
}

/// A real file and one in memory that begin with the same bytes answer alike, call by call, and end with the same
/// bytes.
#[test]
fn a_real_file_and_one_in_memory(rt: HostRuntime) -> Result<(), Fail> {
    let mut bytes = [0; LENGTH];
    fill(&mut bytes, 5);
    let mut file = fresh_file(&rt, "imagefile_same", "imagefile_same/file", &bytes)?;
    let mut memory = expect_same(&rt, rt.alloc(), &mut file, &bytes)?;
    drop(file);
    let left = fs::read(&rt, "imagefile_same/file")?;
    assert_eq!(rt; memory.len(), Ok(5003));
    assert_eq!(rt; memory.read_at(0, &mut bytes), Ok(()));
    assert!(rt; left.as_slice() == bytes.as_slice());
    fs::remove_dir_all(&rt, "imagefile_same")?;
    Ok(())
}
