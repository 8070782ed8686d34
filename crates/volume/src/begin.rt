//! The beginning of a version that will be written, and what it costs.
ghost use Rattle.std.specs.Prelude.{◌≡◌, ◌↔◌, ◌+◌, ◌<◌, ◌≤◌, ◌^◌, ℕ, true, false, None, Some, slice_get, is_none};
ghost use Rattle.std.specs.Prelude.{length, IfOk, IfErr, OnErr, IsErr, IsErrOf, IfSome, IsSome, IsTrue};
ghost use Rattle.std.specs.Ordering.{nat_cmp};
ghost use Rattle.std.specs.FinMap.Entries.{find};
ghost use Rattle.spec_image.specs.declared.code.ErrorCode.{ErrorCode};
ghost use Rattle.spec_image.specs.declared.code.ErrorCode.TheVariants.{NoDirectory, NameExists, NotFound, NoRoom};
ghost use Rattle.spec_image.specs.Common.{version_cost, File, Directory, Files, get, total, pack_of, date_limit};
ghost use Rattle.spec_image.specs.Common.{most_blocks, growth};
ghost use Rattle.alloctab.specs.Common.{space};
ghost use Rattle.volume.specs.Common.{begin_cost, entries_with, is_absent, is_update, begun, version_before, IsBefore};
ghost use Rattle.volume.specs.Common.{IsBegun, IsBeginRefusal, IsDirectoryOf, IsMisfit, Before, CurrentDirectory};
ghost use Rattle.volume.specs.Common.{IsNamed, cost_before, as_known, creates, is_create, pending_at, slot};
ghost use Rattle.volume.specs.Common.{IsWholeMemory, memory_of, BeginsWithFile, RestsAt};
ghost use Rattle.volume.specs.declared.error.CallError.TheVariants.{Refused, Device, Failed};

use crate::CallError;
use crate::blocks::hold_blocks;
use crate::cost::version_cost;
use crate::handles::Pending;
use crate::live::{LiveMap, LiveVersion};
use crate::pending::{PendingKind, PendingVersion};
use crate::pins::find_version;
use crate::query::directory_place;
use crate::volume::Volume;
use blockdisk::{Disk, NoMemory};
use retrieval::{Prime, Version};
use slab::Slab;
use spec_image::ErrorCode;
use spec_image::layout::BLOCK_ENTRIES;
use std::alloc::Global;
use words36::{FileName, Ppn};

/// Returns 1 if a version will be a new entry of this directory, else 0.
fn creates(version: &PendingVersion, ppn: Ppn) -> u64
    ensures { result ≡ creates ppn (Some version.now) }
{
    u64::from(version.kind.is_create() && version.prime.ppn == ppn)
}

/// Returns how many entries are being created in a directory.
pub(crate) fn creations(pending: &Slab<PendingVersion>, ppn: Ppn) -> u64
    ensures { result ≡ total (creates ppn) pending.now.slots }
{
    let _count = pending.len(); // its length fits in 64 bits
    let mut count = 0;
    for (_, version) in pending.iter() {
        count += creates(version, ppn);
    }
    count
}

/// Returns by how many blocks the cost of a directory of `entries` entries grows with one more.
fn growth(entries: u64) -> u32
    ensures value { result ≡ growth entries }
    ensures few { result < 2 }
{
    u32::from(entries != 0 && entries % BLOCK_ENTRIES as u64 == 0)
}

/// Returns by how many blocks the cost of the directory at a place grows with one more entry, if those that are being
/// created in it count as its entries.
pub fn growth_at(memory: &LiveMap, place: usize, ppn: Ppn) -> u32
    requires inside { place < length memory.now.directories.items }
    requires few { (d : CurrentDirectory) → slice_get (memory_of memory.now).known.directories place ≡ Some d
        → entries_with (memory_of memory.now) d ppn < 2 ^ 64 }
    ensures value { (d : CurrentDirectory) → slice_get (memory_of memory.now).known.directories place ≡ Some d
        → result ≡ growth (entries_with (memory_of memory.now) d ppn) }
    ensures few { result < 2 }
{
    let entries = memory.directories[place].chain.len() as u64;
    growth(entries + creations(&memory.pending, ppn))
}

/// Returns what a place has before a version is begun for it: the key of its file's version, or `None`.
///
/// # Errors
///
/// `Refused(NoDirectory)` if there is no such directory.
pub(crate) fn find_before(
    memory: &LiveMap,
    ppn: Ppn,
    name: &FileName,
) -> Result<Option<usize>, CallError>
    requires whole { IsWholeMemory memory.now.table.size (memory_of memory.now) }
    ensures before { IfOk result (IsBefore (memory_of memory.now) ppn name.now) }
    ensures absent { IsErr result → find nat_cmp ppn (memory_of memory.now).known.master.entries ≡ None }
    ensures only { IfErr result (λ error. error ≡ Refused NoDirectory) }
{
    match find_version(memory, ppn, name) {
        Ok(key) => Ok(Some(key)),
        Err(CallError::Refused(ErrorCode::NotFound)) => Ok(None),
        Err(error) => Err(error),
    }
}

/// Returns why a version of this kind can't begin at a place that has this version before, or none: `NameExists` if a
/// creation finds a file of its name, `NotFound` if any other kind finds no file. `None` if it can begin.
fn misfit(kind: PendingKind, before: Option<usize>) -> Option<ErrorCode>
    ensures { IsMisfit (is_create kind) (is_none before) result }
{
    match (kind.is_create(), before) {
        (true, Some(_)) => Some(ErrorCode::NameExists),
        (false, None) => Some(ErrorCode::NotFound),
        _ => None,
    }
}

/// Returns what the version under a key costs, or 0 if there is none.
pub(crate) fn cost_before(versions: &Slab<LiveVersion>, before: Option<usize>) -> u32
    requires few { IfSome before (λ key. IfSome (slot versions.now.slots key)
        (λ v. length v.version.blocks ≤ most_blocks)) }
    ensures { result ≡ cost_before (version_before versions.now.slots before) }
{
    let Some(key) = before else {
        return 0;
    };
    match versions.get(key) {
        Some(live) => version_cost(&live.version),
        None => 0,
    }
}

/// Returns what a version costs that begins in the directory at a place, given the version that its name has before.
pub(crate) fn begin_cost(
    memory: &LiveMap,
    place: usize,
    ppn: Ppn,
    kind: PendingKind,
    before: Option<usize>,
) -> u32
    requires inside { place < length memory.now.directories.items }
    requires few { (d : CurrentDirectory) → slice_get (memory_of memory.now).known.directories place ≡ Some d
        → entries_with (memory_of memory.now) d ppn < 2 ^ 64 }
    requires blocks { IfSome before (λ key. IfSome (slot memory.now.versions.slots key)
        (λ v. length v.version.blocks ≤ most_blocks)) }
    ensures value { (d : CurrentDirectory) → slice_get (memory_of memory.now).known.directories place ≡ Some d
        → result ≡ begin_cost kind (entries_with (memory_of memory.now) d ppn)
        (version_before memory.now.versions.slots before) }
{
    match kind {
        PendingKind::Create => 1 + growth_at(memory, place, ppn),
        PendingKind::Supersede => 1,
        PendingKind::Update | PendingKind::Append => cost_before(&memory.versions, before),
    }
}

/// Returns `prime` with the directory and the file name of `place`.
fn at_place(prime: &Prime, place: &Prime) -> Prime
    ensures { result ≡ record prime.now { file = place.now.file; ppn = place.now.ppn } }
{
    Prime {
        file: place.file,
        ppn: place.ppn,
        protection: prime.protection,
        mode: prime.mode,
        moment: prime.moment,
    }
}

/// Returns a version that begins with the words of another, at the place of `prime`.
///
/// # Errors
///
/// `NoMemory` if there is no memory for the list of its blocks.
fn begin_from(
    alloc: Global,
    kind: PendingKind,
    prime: Prime,
    live: &LiveVersion,
) -> Result<PendingVersion, NoMemory>
    requires update { is_update kind ≡ true }
    requires few { length live.now.version.blocks ≤ most_blocks }
    ensures { IfOk result (λ p. p ≡ begun kind prime (Some (live.now.at, as_known live.now))) }
{
    let version = live.version.copy_without_ribs(alloc)?;
    let kept_blocks = match kind {
        PendingKind::Append => version.count() as u32,
        _ => 0,
    };
    Ok(PendingVersion {
        prime: at_place(&live.prime, &prime),
        version,
        kind,
        kept_blocks,
    })
}

/// Returns the version that begins, given the version that its name has before.
///
/// # Errors
///
/// `NoMemory` if there is no memory for the list of its blocks.
fn begin_version(
    alloc: Global,
    versions: &Slab<LiveVersion>,
    kind: PendingKind,
    prime: Prime,
    before: Option<usize>,
) -> Result<PendingVersion, NoMemory>
    requires there { is_update kind ≡ true → (key : ℕ) × (before ≡ Some key) × IsSome (slot versions.now.slots key) }
    requires few { IfSome before (λ key. IfSome (slot versions.now.slots key)
        (λ v. length v.version.blocks ≤ most_blocks)) }
    ensures { IfOk result (λ p. p ≡ begun kind prime (version_before versions.now.slots before)) }
{
    if kind.is_update() {
        let Some(key) = before else {
            unreachable!() // there is a file
        };
        let Some(live) = versions.get(key) else {
            unreachable!() // with a version
        };
        return begin_from(alloc, kind, prime, live);
    }
    Ok(PendingVersion {
        prime,
        version: Version::new(alloc),
        kind,
        kept_blocks: 0,
    })
}

/// Begins a version in memory: of a new file, or one that will replace the file of this name. No block is taken yet; an
/// update and an append hold those of the file.
///
/// # Errors
///
/// `Refused` with `NoDirectory` if the directory doesn't exist, with `NameExists` if a creation finds a file of its
/// name, with `NotFound` if any other kind finds none, and with `NoRoom` if its cost exceeds the room; `NoMemory` if
/// there is no memory for it. Nothing changes then.
pub fn begin_in_memory(
    memory: &mut LiveMap,
    alloc: Global,
    kind: PendingKind,
    prime: Prime,
) -> Result<usize, CallError>
    requires whole { IsWholeMemory memory.old.table.size (memory_of memory.old) }
    ensures begun { IfOk result (λ key. IsBegun (memory_of memory.old) (memory_of memory.new) key kind prime) }
    ensures same { OnErr result (memory_of memory.new ≡ memory_of memory.old) }
    ensures whole { IsWholeMemory memory.new.table.size (memory_of memory.new) }
    // Which refusal comes when.
    ensures absent { IsErrOf result (Refused NoDirectory)
        ↔ (find nat_cmp prime.ppn (memory_of memory.old).known.master.entries ≡ None) }
    ensures exists { (d : CurrentDirectory) → IsDirectoryOf (memory_of memory.old) prime.ppn d
        → (IsErrOf result (Refused NameExists) ↔ ((is_create kind ≡ true) × (is_absent prime.file d ≡ false))) }
    ensures not_found { (d : CurrentDirectory) → IsDirectoryOf (memory_of memory.old) prime.ppn d
        → (IsErrOf result (Refused NotFound) ↔ ((is_create kind ≡ false) × (is_absent prime.file d ≡ true))) }
    ensures room { (d : CurrentDirectory) → IsDirectoryOf (memory_of memory.old) prime.ppn d → (old : Before)
        → IsNamed d prime.file old → is_create kind ≡ is_none old
        → (IsErrOf result (Refused NoRoom)
        ↔ (space memory.old.table.size < memory.old.table.booked + begin_cost kind
        (entries_with (memory_of memory.old) d prime.ppn) old)) }
    ensures codes { (code : ErrorCode) → IsErrOf result (Refused code) → IsBeginRefusal code }
    ensures plain { (IsErrOf result Device → ⊥) × (IsErrOf result Failed → ⊥) }
{
    let _booked = memory.table.booked(); // every table is valid
    let before = find_before(memory, prime.ppn, &prime.file)?;
    if let Some(code) = misfit(kind, before) {
        return Err(CallError::Refused(code));
    }
    let place = directory_place(&memory.master, prime.ppn)?;
    let cost = begin_cost(memory, place, prime.ppn, kind, before);
    if !memory.table.can_book(cost) {
        return Err(CallError::Refused(ErrorCode::NoRoom));
    }
    // Memory first: if there is none, nothing has changed yet.
    let Ok(version) = begin_version(alloc, &memory.versions, kind, prime, before) else {
        return Err(CallError::NoMemory);
    };
    if memory.pending.reserve(1).is_err() {
        return Err(CallError::NoMemory);
    }
    hold_blocks(&mut memory.table, &version.version);
    memory.table.book(cost);
    Ok(memory.pending.insert_reserved(version))
}

impl<D: Disk> Volume<D> {
    /// Begins to write a version of the file at a place (that of `prime`): a new file, or one that will replace the
    /// file of this name. A creation and a superseding version begin with no words, and `prime` is what will be said of
    /// them. An update and an append begin with the file as it is now: its words, protection, mode and moment; they
    /// share all its blocks until words are put. What the version costs is booked, in full even if blocks are shared.
    /// Returns the handle by which the caller knows it until it is published or discarded.
    ///
    /// # Errors
    ///
    /// `Failed` if the volume failed before. `Refused` with `NoDirectory` if there is no such directory, with
    /// `NameExists` if a creation finds a file of its name, with `NotFound` if any other kind finds none, and with
    /// `NoRoom` if the cost exceeds the room: one block, and one more if the directory has to grow for a new entry, or
    /// as many as the file costs that is updated; `NoMemory` if there is no memory for it. Nothing changes then.
    pub fn begin(
        &mut self,
        alloc: Global,
        kind: PendingKind,
        prime: Prime,
    ) -> Result<Pending, CallError>
        // The layout has room for its date.
        requires timely { (D.state self.old.disk).honest → self.old.failed ≡ false
            → prime.moment.date < date_limit (pack_of (D.state self.old.disk)).layout }
        ensures begun { IfOk result (λ pending. IsBegun self.old.map self.new.map pending.key kind prime) }
        // An update and an append begin with the file.
        ensures file { (D.state self.new.disk).honest → self.old.failed ≡ false → (files : Files File)
            → RestsAt (D.state self.old.disk) files → is_update kind ≡ true
            → IfOk result (λ pending. BeginsWithFile (D.state self.old.disk).contents
            (pending_at self.new.map.pending pending.key) prime.file (get files prime.ppn)) }
        ensures same { OnErr result (self.new.map ≡ self.old.map) }
        ensures untouched { (self.new.disk ≡ self.old.disk) × (self.new.failed ≡ self.old.failed) }
        ensures layout { self.new.layout ≡ self.old.layout }

        // Which error comes when.
        ensures failed { IsErrOf result Failed ↔ IsTrue self.old.failed }
        ensures absent { self.old.failed ≡ false → (IsErrOf result (Refused NoDirectory)
            ↔ (find nat_cmp prime.ppn self.old.map.known.master.entries ≡ None)) }
        ensures exists { self.old.failed ≡ false → (d : CurrentDirectory) → IsDirectoryOf self.old.map prime.ppn d
            → (IsErrOf result (Refused NameExists) ↔ ((is_create kind ≡ true) × (is_absent prime.file d ≡ false))) }
        ensures not_found { self.old.failed ≡ false → (d : CurrentDirectory) → IsDirectoryOf self.old.map prime.ppn d
            → (IsErrOf result (Refused NotFound) ↔ ((is_create kind ≡ false) × (is_absent prime.file d ≡ true))) }
        ensures room { self.old.failed ≡ false → (d : CurrentDirectory) → IsDirectoryOf self.old.map prime.ppn d
            → (old : Before) → IsNamed d prime.file old → is_create kind ≡ is_none old
            → (IsErrOf result (Refused NoRoom)
            ↔ (space (D.state self.old.disk).size < self.old.map.known.table.booked
            + begin_cost kind (entries_with self.old.map d prime.ppn) old)) }
        // The same for an update and an append, in terms of the file.
        ensures full { (D.state self.new.disk).honest → self.old.failed ≡ false → (files : Files File)
            → RestsAt (D.state self.old.disk) files → is_update kind ≡ true → (directory : Directory File)
            → get files prime.ppn ≡ Some directory → (file : File) → get directory.files prime.file ≡ Some file
            → (IsErrOf result (Refused NoRoom)
            ↔ (space (D.state self.old.disk).size < self.old.map.known.table.booked
            + version_cost (length file.body))) }
        ensures codes { (code : ErrorCode) → IsErrOf result (Refused code) → IsBeginRefusal code }
        ensures served { IsErrOf result Device → ⊥ }
    {
        if self.failed {
            return Err(CallError::Failed);
        }
        let key = begin_in_memory(&mut self.map, alloc, kind, prime)?;
        Ok(Pending { key })
    }
}
