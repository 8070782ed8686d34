//! A disk in memory that records its writes and syncs, and crashes as a test picks.
ghost use Rattle.std.specs.Prelude.{◌≡◌, ◌<◌, ◌≤◌, ◌+◌, ◌^◌, ℕ, Some, None, IfOk, IfErr, OnOk, OnErr, IsErrOf};
ghost use Rattle.std.specs.Prelude.{length, replicate, if◌then◌else◌, IsOk};
ghost use Rattle.std.proofs.Common.{inr};
ghost use Rattle.blockdisk.specs.declared.fault.Fault.TheVariants.{Device, Damaged};
ghost use Rattle.blockdisk.specs.Common.{IsRunWrite, Writes, Syncs, AreFilled, AreVerified, IsWithin, at_sync};
ghost use Rattle.blockdisk.specs.Common.{left_in, picked, held, memory_state, written, run_written, write_refused};
ghost use Rattle.blockdisk.specs.Common.{synced, sync_refused, HasNoRoomFor, only_now, reaches_back};

use crate::{Disk, Fault, NoMemory, Pick};
use std::alloc::{AllocError, Global};
use std::marker::Model;
use words36::{BLOCK_WORDS, Block, Word};

/// A recorded call of a disk in memory.
#[derive(Clone, Copy)]
pub enum DiskCall {
    /// These words were written to this block.
    Write(u32, Block),
    /// A sync succeeded.
    Sync,
}

/// A disk in memory, always honest. It records its writes and syncs, and has room for a fixed number of them: after
/// that, each answers `Device`.
#[derive(Drop)]
pub struct MemDisk {
    blocks: Vec<Option<Block>>,
    first: Vec<Option<Block>>,
    calls: Vec<DiskCall>,
    opened: Vec<bool>,
    none_open: bool,
    room: usize,
    failures: u64,
}

impl Model for MemDisk {
    ghost use Rattle.std.specs.Prelude.{◌≡◌, ◌≤◌, true, false, length, replicate, vec_capacity};
    ghost use Rattle.blockdisk.specs.Common.{Memory, IsReplayed};

    ghost Value = { Memory };

    ghost view = { λ m. record {
      blocks = m.blocks.items;
      first = m.first.items;
      calls = m.calls.items;
      opened = m.opened.items;
      room = m.room;
      failures = m.failures;
    } };

    ghost invariant = { λ m. (m.room ≤ vec_capacity m.calls)
        × (m.none_open ≡ true → m.opened.items ≡ replicate (length m.opened.items) false)
        × IsReplayed (record {
          blocks = m.blocks.items;
          first = m.first.items;
          calls = m.calls.items;
          opened = m.opened.items;
          room = m.room;
          failures = m.failures;
        }) };
}

impl MemDisk {
    ghost use Rattle.std.specs.Prelude.{◌≡◌, ◌<◌, Some, None, IfOk, length};
    ghost use Rattle.blockdisk.specs.Common.{MayLeave};
    ghost use Rattle.blockdisk.specs.Common.{zeroed, loaded, begun_anew};
    ghost use Rattle.blockdisk.specs.Common.{left_of};

    /// Returns a disk of this number of blocks of zeros, with room to record this number of writes and syncs.
    ///
    /// # Errors
    ///
    /// `NoMemory` if there is no room for the blocks, a second copy of them or the record.
    pub fn new(alloc: Global, blocks: u32, calls: usize) -> Result<Self, NoMemory>
        ensures { IfOk result (λ disk. disk ≡ zeroed blocks calls) }
    {
        let size = blocks as usize;
        Ok(MemDisk {
            blocks: zero_blocks(alloc, size)?,
            first: zero_blocks(alloc, size)?,
            calls: Vec::with_capacity(alloc, calls)?,
            opened: vec![in alloc; false; size]?,
            none_open: true,
            room: calls,
            failures: 0,
        })
    }

    /// Puts these words into a block, as if they had been there from the beginning: after that, nothing is recorded
    /// and no block is open. On a disk with nothing recorded, it touches one block.
    pub fn load(&mut self, n: u32, block: &Block)
        requires { n < length self.old.blocks }
        ensures { self.new ≡ loaded self.old n (Some block.now) }
    {
        self.forget_calls();
        self.blocks[n as usize] = Some(*block);
        self.first[n as usize] = Some(*block);
    }

    /// Damages a block, as if it had been damaged from the beginning: after that, nothing is recorded and no block is
    /// open. On a disk with nothing recorded, it touches one block.
    pub fn damage(&mut self, n: u32)
        requires { n < length self.old.blocks }
        ensures { self.new ≡ loaded self.old n None }
    {
        self.forget_calls();
        self.blocks[n as usize] = None;
        self.first[n as usize] = None;
    }

    /// Crashes the disk: leaves in the open blocks what is picked, as a crash at this moment may, and the closed ones
    /// as they are. After that, nothing is recorded and no block is open.
    pub fn crash(&mut self, pick: Pick)
        ensures left { (n : ℕ) → n < length self.old.blocks → held self.new.blocks n ≡ left_of pick self.old n }
        ensures allowed { MayLeave (memory_state self.old) (held self.new.blocks) }
        ensures begun { self.new ≡ begun_anew (record self.old { blocks = self.new.blocks }) }
        ensures size { length self.new.blocks ≡ length self.old.blocks }
    {
        crash_blocks(
            &mut self.blocks,
            &self.first,
            &self.calls,
            &self.opened,
            pick,
        );
        copy_blocks(&self.blocks, &mut self.first);
        self.calls.clear();
        self.opened.fill(false);
        self.none_open = true;
    }

    /// Makes the present blocks the blocks of the beginning.
    fn forget_calls(&mut self)
        ensures { self.new ≡ begun_anew self.old }
    {
        if !self.calls.is_empty() {
            copy_blocks(&self.blocks, &mut self.first);
            self.calls.clear();
        }
        if !self.none_open {
            self.opened.fill(false);
            self.none_open = true;
        }
    }
}

/// Returns what a block held at the last sync of these calls, given what it held before the first of them.
fn at_sync(first: Option<Block>, calls: &[DiskCall], n: u32) -> Option<Block>
    ensures { result ≡ at_sync n first first calls.now }
{
    let mut old = first;
    let mut now = first;
    for call in calls {
        match call {
            DiskCall::Write(place, block) if *place == n => now = Some(*block),
            DiskCall::Write(_, _) => {}
            DiskCall::Sync => old = now,
        }
    }
    old
}

/// Returns what is left of block n, given what it held before these calls and what it holds now.
fn if_open(
    is_open: bool,
    pick: Pick,
    calls: &[DiskCall],
    n: u32,
    first: Option<Block>,
    now: Option<Block>,
) -> Option<Block>
    ensures { result ≡ if is_open then picked pick (at_sync n first first calls.now) now else now }
{
    if is_open {
        pick.of(at_sync(first, calls, n), now)
    } else {
        now
    }
}

/// Leaves in each open block what is picked.
fn crash_blocks(
    blocks: &mut Vec<Option<Block>>,
    first: &Vec<Option<Block>>,
    calls: &Vec<DiskCall>,
    opened: &Vec<bool>,
    pick: Pick,
)
    requires firsts { length first.now.items ≡ length blocks.old.items }
    requires flags { length opened.now.items ≡ length blocks.old.items }
    requires few { length blocks.old.items < 2 ^ 32 }
    ensures left { (n : ℕ) → n < length blocks.old.items → held blocks.new.items n
        ≡ left_in pick blocks.old.items first.now.items calls.now.items opened.now.items n }
    ensures size { length blocks.new.items ≡ length blocks.old.items }
{
    for n in 0..blocks.len() {
        let left = if_open(opened[n], pick, calls, n as u32, first[n], blocks[n]);
        blocks[n] = left;
    }
}

/// Copies one list of blocks over another.
fn copy_blocks(from: &Vec<Option<Block>>, to: &mut Vec<Option<Block>>)
    requires { length to.old.items ≡ length from.now.items }
    ensures items { to.new.items ≡ from.now.items }
{
    let from = from.as_slice();
    to.as_mut_slice().copy_from_slice(from);
}

/// Returns this number of blocks of zeros.
fn zero_blocks(alloc: Global, size: usize) -> Result<Vec<Option<Block>>, AllocError>
    ensures { IfOk result (λ blocks. blocks.items ≡ replicate size (Some (replicate BLOCK_WORDS 0))) }
{
    let mut blocks = Vec::with_capacity(alloc, size)?;
    for _made in 0..size {
        blocks.push(Some([Word::ZERO; BLOCK_WORDS]))?;
    }
    Ok(blocks)
}

impl Disk for MemDisk {
    ghost state = { memory_state };

    ghost counts_now = { λ m t c h le left. inr left };

    ghost only_now = { λ m c h left. only_now m c left };

    ghost reaches_back = { λ m t u c h le left. reaches_back m t u c le left };

    fn blocks(&self) -> u32 {
        self.blocks.len() as u32
    }

    fn read(&mut self, n: u32) -> Result<Block, Fault>
        requires { n < length self.old.blocks }
        ensures words { IfOk result (λ block. held self.old.blocks n ≡ Some block) }
        ensures damaged { OnErr result (held self.old.blocks n ≡ None) }
        ensures never_device { IsErrOf result Device → ⊥ }
        ensures unchanged { self.new ≡ self.old }
    {
        match self.blocks[n as usize] {
            Some(block) => Ok(block),
            None => Err(Fault::Damaged),
        }
    }

    fn read_run(&mut self, first: u32, blocks: &mut [Block]) -> Result<Option<u32>, Fault>
        requires { first + length blocks.old ≤ length self.old.blocks }
        ensures served { IsOk result }
        ensures within { IfOk result (IsWithin first (first + length blocks.old)) }
        ensures words { IfOk result (AreFilled (held self.old.blocks) first blocks.new) }
        ensures unchanged { self.new ≡ self.old }
    {
        for place in 0..blocks.len() {
            let number = first as usize + place;
            match self.blocks[number] {
                Some(block) => blocks[place] = block,
                None => return Ok(Some(number as u32)),
            }
        }
        Ok(None)
    }

    fn verify(&mut self, first: u32, end: u32) -> Result<Option<u32>, Fault>
        requires { end ≤ length self.old.blocks }
        ensures served { IsOk result }
        ensures within { IfOk result (IsWithin first end) }
        ensures verified { IfOk result (AreVerified (held self.old.blocks) first end) }
        ensures unchanged { self.new ≡ self.old }
    {
        for n in first..end {
            match self.read(n) {
                Ok(_) => (),
                Err(_) => return Ok(Some(n)), // damaged: a read never fails
            }
        }
        Ok(None)
    }

    fn write(&mut self, n: u32, block: &Block) -> Result<(), Fault>
        requires { n < length self.old.blocks }
        ensures written { OnOk result (self.new ≡ written self.old n block.now) }
        ensures refused { OnErr result (self.new ≡ write_refused self.old n) }
        ensures full { OnErr result (length self.old.calls ≡ self.old.room) }
        ensures device { IfErr result (λ fault. fault ≡ Device) }
        ensures writes { Writes n (memory_state self.old) (memory_state self.new) }
    {
        self.opened[n as usize] = true;
        self.none_open = false;
        if self.calls.len() >= self.room {
            self.failures = self.failures.saturating_add(1);
            return Err(Fault::Device); // the block is open all the same
        }
        self.blocks[n as usize] = Some(*block);
        match self.calls.push(DiskCall::Write(n, *block)) {
            Ok(()) => Ok(()),
            Err(_) => unreachable!(),
        }
    }

    fn write_run(&mut self, first: u32, blocks: &[Block]) -> Result<(), Fault>
        requires { first + length blocks.now ≤ length self.old.blocks }
        ensures written { OnOk result (self.new ≡ run_written self.old first blocks.now) }
        ensures full { OnErr result (HasNoRoomFor first blocks.now self.old self.new) }
        ensures device { IfErr result (λ fault. fault ≡ Device) }
        ensures writes { IsRunWrite first blocks.now (memory_state self.old) (memory_state self.new) result }
    {
        let _size = self.blocks(); // the number of blocks fits a u32
        for place in 0..blocks.len() {
            self.write(first + place as u32, &blocks[place])?;
        }
        Ok(())
    }

    fn sync(&mut self) -> Result<(), Fault>
        ensures synced { OnOk result (self.new ≡ synced self.old) }
        ensures refused { OnErr result (self.new ≡ sync_refused self.old) }
        ensures full { OnErr result (length self.old.calls ≡ self.old.room) }
        ensures device { IfErr result (λ fault. fault ≡ Device) }
        ensures syncs { OnOk result (Syncs (memory_state self.old) (memory_state self.new)) }
    {
        if self.calls.len() >= self.room {
            self.failures = self.failures.saturating_add(1);
            return Err(Fault::Device); // the open blocks stay open
        }
        self.opened.fill(false); // what was written is on the disk now
        self.none_open = true;
        match self.calls.push(DiskCall::Sync) {
            Ok(()) => Ok(()),
            Err(_) => unreachable!(),
        }
    }
}
