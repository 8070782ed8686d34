//! A buffer: neighbouring bytes of a file in memory, as they were read.
ghost use Rattle.std.specs.Prelude.{◌≡◌, ◌+◌, ◌≤◌, ℕ, [], IsTrue, length, take};
ghost use Rattle.imagefile.specs.File.{Bytes, FileKeeps, Inside, SameFile, window};
ghost use Rattle.imagefile.specs.Buffer.{IsHeld};

use crate::Durable;
use std::alloc::Global;
use std::marker::Model;
use words36::BLOCK_BYTES;

/// The most bytes that are read ahead by one call. A place that is farther than this from the bytes that were read
/// before is not near.
const MOST_BYTES: usize = 128 * BLOCK_BYTES;

/// Neighbouring bytes of a file, as they were read: the first `held` of `room`, from place `at`.
#[derive(Drop)]
pub(crate) struct Buffer {
    at: u64,
    held: usize,
    room: Vec<u8>,
    ghost within: { held ≤ length room.items },
}

impl Model for Buffer {
    ghost use Rattle.std.specs.Prelude.{take};
    ghost use Rattle.imagefile.specs.Buffer.{HeldBytes};

    ghost Value = { HeldBytes };

    ghost view = { λ b. record { at = b.at; bytes = take b.held b.room.items } };
}

impl Buffer {
    /// Returns an empty buffer. It takes no memory.
    pub(crate) fn new(alloc: Global) -> Self
        ensures { result.bytes ≡ [] }
    {
        Buffer {
            at: 0,
            held: 0,
            room: Vec::new(alloc),
        }
    }

    /// Drops its bytes.
    pub(crate) fn clear(&mut self)
        ensures { self.new.bytes ≡ [] }
    {
        self.held = 0;
    }

    /// Fills `bytes` with those from place `at`, if all of them are in the buffer, and returns whether they are.
    pub(crate) fn copy_to(&self, at: u64, bytes: &mut [u8]) -> bool
        ensures { IsTrue result → (b : Bytes) → IsHeld b self.now → bytes.new ≡ window b at (length bytes.old) }
    {
        if at < self.at {
            return false;
        }
        let before = at - self.at;
        let held = self.held as u64;
        if before > held {
            return false;
        }
        if bytes.len() as u64 > held - before {
            return false;
        }
        let first = before as usize;
        bytes.copy_from_slice(&self.room[first..first + bytes.len()]);
        true
    }

    /// Drops its bytes if one of the `count` bytes from place `at` is among them: they are about to change.
    pub(crate) fn forget(&mut self, at: u64, count: usize)
        ensures { (b now : Bytes) → ((p : ℕ) → (Inside at count p → ⊥) → now p ≡ b p) → IsHeld b self.old
            → IsHeld now self.new }
    {
        let (held, count) = (self.held as u64, count as u64);
        if self.at.saturating_sub(at) >= count && at <= self.at {
            return;
        }
        if at.saturating_sub(self.at) >= held && self.at <= at {
            return;
        }
        self.held = 0;
    }

    /// Returns which bytes to read for the `count` bytes from place `at` of a file that ends at `end`: where they
    /// begin, and how many they are. They are twice as many as the last time, if the place is near, and begin where
    /// those ended, if that reaches the place; else they end with the bytes that are needed.
    pub(crate) fn asked(&self, at: u64, count: usize, end: u64) -> (u64, usize)
        requires { at + count ≤ end }
        ensures { result.0 + result.1 ≤ end }
    {
        let most = MOST_BYTES as u64;
        let needed_end = at + count as u64;
        let held_end = self.at.saturating_add(self.held as u64);
        let is_far = at.saturating_add(most) < self.at || held_end.saturating_add(most) <= at;
        let before = if is_far { count } else { count.max(self.held) };
        let wanted = (before as u64).saturating_mul(2).min(most);
        let goes_on = held_end <= at && needed_end - held_end <= wanted;
        let first = if goes_on {
            held_end
        } else {
            needed_end.saturating_sub(wanted)
        };
        (first, wanted.min(end - first) as usize)
    }

    /// Reads `count` bytes of a file from place `at`, in place of those in the buffer, or as many as come; none if
    /// there is no memory for them.
    pub(crate) fn fill<F: Durable>(&mut self, file: &mut F, at: u64, count: usize)
        requires { (F.state file.old).honest → at + count ≤ (F.state file.old).size }
        ensures held { (F.state file.new).honest → IsHeld (F.state file.new).bytes self.new }
        ensures keeps { (F.state file.new).honest → FileKeeps (F.state file.old) (F.state file.new) }
        ensures same { SameFile (F.state file.old) (F.state file.new) }
        ensures served { (F.state file.new).failures ≡ (F.state file.old).failures }
    {
        self.held = 0;
        if !has_places(&mut self.room, count) {
            return;
        }
        self.at = at;
        self.held = read_first(file, at, count, self.room.as_mut_slice());
    }
}

/// Makes a list at least this long, if there is memory, and returns whether it is.
fn has_places(room: &mut Vec<u8>, count: usize) -> bool
    ensures { IsTrue result → count ≤ length room.new.items }
{
    room.len() >= count || room.resize(count, 0).is_ok()
}

/// Reads `count` bytes of a file from place `at` into the first places of `room`, or as many as come, and returns how
/// many.
fn read_first<F: Durable>(file: &mut F, at: u64, count: usize, room: &mut [u8]) -> usize
    requires inside { (F.state file.old).honest → at + count ≤ (F.state file.old).size }
    requires places { count ≤ length room.old }
    ensures few { result ≤ length room.old }
    ensures read { (F.state file.new).honest
        → take result room.new ≡ window (F.state file.new).bytes at (length (take result room.new)) }
    ensures keeps { (F.state file.new).honest → FileKeeps (F.state file.old) (F.state file.new) }
    ensures same { SameFile (F.state file.old) (F.state file.new) }
    ensures served { (F.state file.new).failures ≡ (F.state file.old).failures }
{
    file.prefetch(at, &mut room[..count])
}
