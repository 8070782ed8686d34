//! A file with buffers in memory: reads of few bytes are answered from them.
ghost use Rattle.std.specs.Prelude.{◌≡◌, ◌+◌, ◌≤◌, ℕ, IsTrue, length};
ghost use Rattle.std.specs.Option.{ForSome};
ghost use Rattle.imagefile.specs.File.{Bytes, FileKeeps, Inside, SameFile, window};
ghost use Rattle.imagefile.specs.Buffer.{AreHeld};

use crate::Durable;
use crate::buffer::Buffer;
use blockdisk::Fault;
use std::alloc::Global;
use std::marker::Model;
use std::mem::swap;
use words36::BLOCK_BYTES;

/// The most bytes of a read for which bytes are read ahead. A longer one goes to the file, unless a buffer has all of
/// it.
const FEW_BYTES: usize = 16 * BLOCK_BYTES;

/// Two buffers: the one that was filled last, and the one before.
#[derive(Drop)]
struct Buffers {
    last: Buffer,
    earlier: Buffer,
}

impl Model for Buffers {
    ghost use Rattle.imagefile.specs.Buffer.{HeldTwice};

    ghost Value = { HeldTwice };

    ghost view = { λ b. record { last = b.last; earlier = b.earlier } };
}

impl Buffers {
    /// Returns empty buffers. They take no memory.
    fn new(alloc: Global) -> Self
        ensures { (b : Bytes) → AreHeld b result }
    {
        Buffers {
            last: Buffer::new(alloc),
            earlier: Buffer::new(alloc),
        }
    }

    /// Drops all bytes.
    fn clear(&mut self)
        ensures { (b : Bytes) → AreHeld b self.new }
    {
        self.last.clear();
        self.earlier.clear();
    }

    /// Drops the bytes of each buffer that has one of the `count` bytes from place `at`: they are about to change.
    fn forget(&mut self, at: u64, count: usize)
        ensures { (b now : Bytes) → ((p : ℕ) → (Inside at count p → ⊥) → now p ≡ b p) → AreHeld b self.old
            → AreHeld now self.new }
    {
        self.last.forget(at, count);
        self.earlier.forget(at, count);
    }

    /// Fills `bytes` with those from place `at`, if all of them are in one buffer, and returns whether they are.
    fn copy_to(&self, at: u64, bytes: &mut [u8]) -> bool
        ensures { IsTrue result → (b : Bytes) → AreHeld b self.now → bytes.new ≡ window b at (length bytes.old) }
    {
        self.last.copy_to(at, bytes) || self.earlier.copy_to(at, bytes)
    }

    /// Reads the `count` bytes of a file from place `at` into a buffer, with some of their neighbours before `end`.
    /// The buffer may be without them then: there was no memory, or they can't be read.
    fn read_ahead<F: Durable>(&mut self, file: &mut F, at: u64, count: usize, end: u64)
        requires inside { at + count ≤ end }
        requires within { (F.state file.old).honest → end ≤ (F.state file.old).size }
        ensures held { (F.state file.new).honest → AreHeld (F.state file.old).bytes self.old
            → AreHeld (F.state file.new).bytes self.new }
        ensures keeps { (F.state file.new).honest → FileKeeps (F.state file.old) (F.state file.new) }
        ensures same { SameFile (F.state file.old) (F.state file.new) }
        ensures served { (F.state file.new).failures ≡ (F.state file.old).failures }
    {
        let (first, wanted) = self.last.asked(at, count, end);
        swap(&mut self.last, &mut self.earlier);
        self.last.fill(file, first, wanted);
    }
}

/// A file some of whose bytes are in memory, as they were read last. It is the same file as the one underneath: what
/// is in memory is what that one holds.
#[derive(Drop)]
pub(crate) struct BufferedFile<F: Durable> {
    pub(crate) file: F,
    // No byte from this place is read ahead.
    end: u64,
    buffers: Option<Buffers>,
    ghost within: { (F.state file).honest → end ≤ (F.state file).size },
    ghost held: { (F.state file).honest → ForSome buffers (λ held. AreHeld (F.state file).bytes held) },
}

impl<F: Durable> BufferedFile<F> {
    ghost use Rattle.imagefile.specs.Common.{buffered_file};

    /// Returns the same file without buffers. Its first `end` bytes may be read ahead.
    pub(crate) fn new(file: F, end: u64) -> Self
        requires { (F.state file).honest → end ≤ (F.state file).size }
        ensures { buffered_file result ≡ file }
    {
        BufferedFile {
            file,
            end,
            buffers: None,
        }
    }

    /// Returns the same file with buffers, which get their memory as they grow.
    pub(crate) fn with_buffers(self, alloc: Global) -> Self
        ensures { buffered_file result ≡ buffered_file self }
    {
        BufferedFile {
            file: self.file,
            end: self.end,
            buffers: Some(Buffers::new(alloc)),
        }
    }

    /// Reads bytes ahead, if there are buffers, and the bytes that are needed lie before the end.
    fn read_ahead(&mut self, at: u64, count: usize)
        ensures keeps { (F.state (buffered_file self.new)).honest
            → FileKeeps (F.state (buffered_file self.old)) (F.state (buffered_file self.new)) }
        ensures same { SameFile (F.state (buffered_file self.old)) (F.state (buffered_file self.new)) }
        ensures served { (F.state (buffered_file self.new)).failures ≡ (F.state (buffered_file self.old)).failures }
    {
        let Some(buffers) = &mut self.buffers else {
            return;
        };
        if at <= self.end && count as u64 <= self.end - at {
            buffers.read_ahead(&mut self.file, at, count, self.end);
        }
    }

    /// Fills `bytes` with those from place `at`, if all of them are in a buffer, and returns whether they are.
    fn copy_to(&self, at: u64, bytes: &mut [u8]) -> bool
        ensures { IsTrue result → (F.state (buffered_file self.now)).honest
            → bytes.new ≡ window (F.state (buffered_file self.now)).bytes at (length bytes.old) }
    {
        match &self.buffers {
            Some(buffers) => buffers.copy_to(at, bytes),
            None => false,
        }
    }
}

impl<F: Durable> Durable for BufferedFile<F> {
    ghost state = { λ buffered. F.state buffered.file };

    ghost refused = { λ before after at count. (from : F) × F.refused from after.file at count };

    ghost counts_now = { λ buffered t r h le may. F.counts_now buffered.file t r h le may };

    ghost only_now = { λ buffered r h left. F.only_now buffered.file r h left };

    ghost reaches_back = { λ buffered t u r h le left. F.reaches_back buffered.file t u r h le left };

    fn len(&mut self) -> Result<u64, Fault> {
        self.file.len()
    }

    fn read_at(&mut self, at: u64, bytes: &mut [u8]) -> Result<(), Fault> {
        if self.copy_to(at, bytes) {
            return Ok(());
        }
        if bytes.len() <= FEW_BYTES {
            self.read_ahead(at, bytes.len());
            if self.copy_to(at, bytes) {
                return Ok(());
            }
        }
        self.file.read_at(at, bytes)
    }

    fn prefetch(&mut self, at: u64, bytes: &mut [u8]) -> usize {
        self.file.prefetch(at, bytes)
    }

    fn write_at(&mut self, at: u64, bytes: &[u8]) -> Result<(), Fault> {
        if let Some(buffers) = &mut self.buffers {
            buffers.forget(at, bytes.len());
        }
        self.file.write_at(at, bytes)
    }

    fn sync(&mut self) -> Result<(), Fault> {
        if let Err(fault) = self.file.sync() {
            if let Some(buffers) = &mut self.buffers {
                buffers.clear(); // what open bytes hold may have changed
            }
            return Err(fault);
        }
        Ok(())
    }
}
