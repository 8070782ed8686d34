//! A file in memory that records its writes and syncs.
ghost use Rattle.std.specs.Prelude.{◌≡◌, ◌<◌, ◌≤◌, ◌+◌, ◌*◌, ◌++◌, ◌∷◌, Ok, IsOk, IsTrue, ◌↔◌, get_or, [], true, false};
ghost use Rattle.std.specs.Prelude.{IfOk, IfErr, OnOk, OnErr, length, replicate, take, vec_capacity};
ghost use Rattle.std.proofs.Common.{inr};
ghost use Rattle.blockdisk.specs.declared.fault.Fault.TheVariants.{Device};
ghost use Rattle.imagefile.specs.File.{FileWrites, FileSyncs, window};
ghost use Rattle.imagefile.specs.Memory.{memory_state, put, begun, bytes_written, write_refused, bytes_synced};
ghost use Rattle.imagefile.specs.Memory.{sync_refused, HasRoom};
ghost use Rattle.imagefile.specs.MemoryLaws.{only_now, reaches_back};

use crate::Durable;
use blockdisk::{Fault, NoMemory};
use std::alloc::Global;
use std::marker::Model;
use words36::BLOCK_BYTES;

/// A recorded call of a file in memory.
#[derive(Clone, Copy)]
pub(crate) enum FileCall {
    /// Bytes were written: from this place, this number of them.
    Write(usize, usize),
    /// A sync succeeded.
    Sync,
}

/// A file in memory, always honest. It records its writes and syncs with what was written, and has room for a fixed
/// number of calls and 1024 bytes a call: after that, each answers `Device`.
#[derive(Drop)]
pub struct MemFile {
    bytes: Vec<u8>,
    first: Vec<u8>,
    calls: Vec<FileCall>,
    written: Vec<u8>,
    opened: Vec<bool>,
    room: usize,
    byte_room: usize,
    failures: u64,
}

impl Model for MemFile {
    ghost use Rattle.std.specs.Prelude.{◌≡◌, ◌≤◌, length, vec_capacity};
    ghost use Rattle.imagefile.specs.Common.{FileMemory, IsFileReplayed, memory_of, bytes_in};

    ghost Value = { FileMemory };

    ghost view = { λ m. memory_of m.bytes.items m.first.items m.calls.items m.written.items m.opened.items
        m.room m.byte_room m.failures };

    ghost invariant = { λ m. (m.room ≤ vec_capacity m.calls)
        × (m.byte_room ≤ vec_capacity m.written)
        × (bytes_in m.calls.items ≡ length m.written.items)
        × IsFileReplayed (memory_of m.bytes.items m.first.items m.calls.items m.written.items m.opened.items
        m.room m.byte_room m.failures) };
}

impl MemFile {
    /// Returns a file of these bytes, with room to record this number of writes and syncs and 1024 bytes for each.
    ///
    /// # Errors
    ///
    /// `NoMemory` if there is no room for the bytes, a second copy of them or the record.
    pub fn new(alloc: Global, bytes: &[u8], calls: usize) -> Result<Self, NoMemory>
        ensures { IfOk result (λ file. file ≡ begun bytes.now calls) }
    {
        let byte_room = bytes_for(calls)?;
        Ok(MemFile {
            bytes: Vec::from_slice(alloc, bytes)?,
            first: Vec::from_slice(alloc, bytes)?,
            calls: Vec::with_capacity(alloc, calls)?,
            written: Vec::with_capacity(alloc, byte_room)?,
            opened: vec![in alloc; false; bytes.len()]?,
            room: calls,
            byte_room,
            failures: 0,
        })
    }

    /// Returns whether the record has room for a write of this number of bytes.
    fn has_room(&self, count: usize) -> bool
        ensures { IsTrue result ↔ HasRoom self.now count }
    {
        self.calls.len() < self.room && count <= self.byte_room - self.written.len()
    }
}

impl Durable for MemFile {
    ghost state = { memory_state };

    ghost refused = { λ before after at count. Unit {0} };

    ghost counts_now = { λ m t r h le may. inr may };

    ghost only_now = { λ m r h left. only_now m r left };

    ghost reaches_back = { λ m t u r h le left. reaches_back m t u r le left };

    fn len(&mut self) -> Result<u64, Fault>
        ensures size { result ≡ Ok (length self.old.bytes) }
        ensures unchanged { self.new ≡ self.old }
    {
        Ok(self.bytes.len() as u64)
    }

    fn read_at(&mut self, at: u64, bytes: &mut [u8]) -> Result<(), Fault>
        requires { at + length bytes.old ≤ length self.old.bytes }
        ensures served { IsOk result }
        ensures read { bytes.new ≡ window (λ p. get_or self.old.bytes p 0) at (length bytes.old) }
        ensures unchanged { self.new ≡ self.old }
    {
        let at = at as usize;
        bytes.copy_from_slice(&self.bytes[at..at + bytes.len()]);
        Ok(())
    }

    fn prefetch(&mut self, at: u64, bytes: &mut [u8]) -> usize
        requires { at + length bytes.old ≤ length self.old.bytes }
        ensures all { result ≡ length bytes.old }
        ensures read { take result bytes.new ≡ window (memory_state self.old).bytes at result }
        ensures unchanged { self.new ≡ self.old }
    {
        match self.read_at(at, bytes) {
            Ok(()) => bytes.len(),
            Err(_) => 0,
        }
    }

    fn write_at(&mut self, at: u64, bytes: &[u8]) -> Result<(), Fault>
        requires { at + length bytes.now ≤ length self.old.bytes }
        ensures written { OnOk result (self.new ≡ bytes_written self.old at bytes.now) }
        ensures refused { OnErr result (self.new ≡ write_refused self.old at (length bytes.now)) }
        ensures full { OnErr result (HasRoom self.old (length bytes.now) → ⊥) }
        ensures device { IfErr result (λ fault. fault ≡ Device) }
        ensures size { length self.new.bytes ≡ length self.old.bytes }
        ensures put { OnOk result (window (memory_state self.new).bytes at (length bytes.now) ≡ bytes.now) }
        ensures writes { FileWrites at (length bytes.now) (memory_state self.old) (memory_state self.new) }
    {
        let at = at as usize;
        let has_room = self.has_room(bytes.len());
        open_bytes(&mut self.opened, at, bytes.len());
        if !has_room {
            self.room = self.calls.len(); // what is open now is in no record
            self.failures = self.failures.saturating_add(1);
            return Err(Fault::Device);
        }
        put_bytes(&mut self.bytes, at, bytes);
        record_write(&mut self.calls, &mut self.written, at, bytes);
        Ok(())
    }

    fn sync(&mut self) -> Result<(), Fault>
        ensures synced { OnOk result (self.new ≡ bytes_synced self.old) }
        ensures refused { OnErr result (self.new ≡ sync_refused self.old) }
        ensures full { OnErr result (length self.old.steps ≡ self.old.room) }
        ensures device { IfErr result (λ fault. fault ≡ Device) }
        ensures syncs { OnOk result (FileSyncs (memory_state self.old) (memory_state self.new)) }
    {
        if self.calls.len() >= self.room {
            self.failures = self.failures.saturating_add(1);
            return Err(Fault::Device); // the open bytes stay open
        }
        self.opened.fill(false); // what was written is on the device now
        match self.calls.push(FileCall::Sync) {
            Ok(()) => Ok(()),
            Err(_) => unreachable!(),
        }
    }
}

/// Records a write; there is room for it.
fn record_write(calls: &mut Vec<FileCall>, written: &mut Vec<u8>, at: usize, bytes: &[u8])
    requires calls { length calls.old.items < vec_capacity calls.old }
    requires bytes { length written.old.items + length bytes.now ≤ vec_capacity written.old }
    ensures call { calls.new.items ≡ calls.old.items ++ FileCall.Write at (length bytes.now) ∷ [] }
    ensures bytes { written.new.items ≡ written.old.items ++ bytes.now }
    ensures call_room { vec_capacity calls.old ≤ vec_capacity calls.new }
    ensures byte_room { vec_capacity written.old ≤ vec_capacity written.new }
{
    if calls.push(FileCall::Write(at, bytes.len())).is_err() {
        unreachable!();
    }
    if written.extend_from_slice(bytes).is_err() {
        unreachable!();
    }
}

/// Returns the number of bytes that a record of this number of calls has room for.
fn bytes_for(calls: usize) -> Result<usize, NoMemory>
    ensures { IfOk result (λ room. room ≡ 1024 * calls) }
{
    calls.checked_mul(BLOCK_BYTES).ok_or(NoMemory)
}

/// Puts these bytes into the others, from a place.
fn put_bytes(all: &mut Vec<u8>, at: usize, bytes: &[u8])
    requires { at + length bytes.now ≤ length all.old.items }
    ensures { all.new.items ≡ put at bytes.now all.old.items }
{
    put_slice(all.as_mut_slice(), at, bytes);
}

fn put_slice(all: &mut [u8], at: usize, bytes: &[u8])
    requires { at + length bytes.now ≤ length all.old }
    ensures { all.new ≡ put at bytes.now all.old }
{
    all[at..at + bytes.len()].copy_from_slice(bytes);
}

/// Marks a number of bytes as open, from a place.
fn open_bytes(opened: &mut Vec<bool>, at: usize, count: usize)
    requires { at + count ≤ length opened.old.items }
    ensures { opened.new.items ≡ put at (replicate count true) opened.old.items }
{
    open_slice(opened.as_mut_slice(), at, count);
}

fn open_slice(opened: &mut [bool], at: usize, count: usize)
    requires { at + count ≤ length opened.old }
    ensures { opened.new ≡ put at (replicate count true) opened.old }
{
    opened[at..at + count].fill(true);
}
