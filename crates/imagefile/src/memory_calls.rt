//! The file in memory as a system's calls.
ghost use Rattle.std.specs.Prelude.{◌≡◌, ◌≤◌, ◌+◌, Ok, IfOk, OnOk, OnErr, length, take};
ghost use Rattle.std.proofs.Common.{inr};
ghost use Rattle.imagefile.specs.File.{FileWrites, FileSyncs, window};
ghost use Rattle.imagefile.specs.Memory.{memory_state, bytes_written, write_refused, bytes_synced, sync_refused};
ghost use Rattle.imagefile.specs.Memory.{HasRoom};
ghost use Rattle.imagefile.specs.MemoryLaws.{only_now, reaches_back};

use crate::{Durable, FileCalls, MemFile};
use blockdisk::Fault;
use std::io;

/// The calls of a system that does all that is requested, or fails if the record has no room.
impl FileCalls for MemFile {
    ghost state = { memory_state };

    ghost ended = { λ before after outcome. Unit {0} };

    ghost counts_now = { λ m t r h le may. inr may };

    ghost only_now = { λ m r h left. only_now m r left };

    ghost reaches_back = { λ m t s r h le left. reaches_back m t s r le left };

    fn size(&mut self) -> io::Result<u64>
        ensures size { result ≡ Ok (length self.old.bytes) }
        ensures unchanged { self.new ≡ self.old }
    {
        self.len().map_err(system_error)
    }

    fn read_some(&mut self, at: u64, bytes: &mut [u8]) -> io::Result<usize>
        requires { at + length bytes.old ≤ length self.old.bytes }
        ensures all { result ≡ Ok (length bytes.old) }
        ensures read { IfOk result (λ count. take count bytes.new ≡ window (memory_state self.old).bytes at count) }
        ensures unchanged { self.new ≡ self.old }
    {
        match self.read_at(at, bytes) {
            Ok(()) => Ok(bytes.len()),
            Err(fault) => Err(system_error(fault)),
        }
    }

    fn write_some(&mut self, at: u64, bytes: &[u8]) -> io::Result<usize>
        requires { at + length bytes.now ≤ length self.old.bytes }
        ensures all { IfOk result (λ count. count ≡ length bytes.now) }
        ensures written { OnOk result (self.new ≡ bytes_written self.old at bytes.now) }
        ensures refused { OnErr result (self.new ≡ write_refused self.old at (length bytes.now)) }
        ensures full { OnErr result (HasRoom self.old (length bytes.now) → ⊥) }
        ensures size { length self.new.bytes ≡ length self.old.bytes }
        ensures put { OnOk result (window (memory_state self.new).bytes at (length bytes.now) ≡ bytes.now) }
        ensures writes { FileWrites at (length bytes.now) (memory_state self.old) (memory_state self.new) }
    {
        match self.write_at(at, bytes) {
            Ok(()) => Ok(bytes.len()),
            Err(fault) => Err(system_error(fault)),
        }
    }

    fn sync_all(&mut self) -> io::Result<()>
        ensures synced { OnOk result (self.new ≡ bytes_synced self.old) }
        ensures refused { OnErr result (self.new ≡ sync_refused self.old) }
        ensures full { OnErr result (length self.old.steps ≡ self.old.room) }
        ensures syncs { OnOk result (FileSyncs (memory_state self.old) (memory_state self.new)) }
    {
        self.sync().map_err(system_error)
    }
}

fn system_error(_fault: Fault) -> io::Error {
    io::Error::from(io::ErrorKind::StorageFull)
}
