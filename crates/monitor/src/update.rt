//! The call ENTER on a channel that reads a file: an update or an append.
ghost use Rattle.std.specs.Prelude.{◌≡◌, ◌==◌, ◌&&◌, ◌+◌, ◌<◌, ◌≤◌, ◌^◌, ℕ, true, false, IfOk, IfSome, OnErr};
ghost use Rattle.std.specs.Prelude.{IsErrOf, IsTrue, IsSome, Some, None};
ghost use Rattle.spec_machine.specs.Common.{lies_outside, State, slot, channel_at, place_at, directory_digit};
ghost use Rattle.spec_machine.specs.Common.{file_digit, may_look, may_append};
ghost use Rattle.spec_image.specs.Common.{File, Files, pack_of, get, times, same_place, place_of};
ghost use Rattle.spec_machine.specs.declared.call.Reply.TheVariants.{Done, NoMemory, Failed, Device, Refused};
ghost use Rattle.retrieval.specs.declared.prime.Prime.{Prime as PrimeRecord};
ghost use Rattle.volume.specs.Common.{is_update, IsBegun, claims, pending_at, slot as version_at, IsWholeMemory};
ghost use Rattle.volume.specs.Common.{BeginsWithFile, IsSoundMemory, RestsAt};
ghost use Rattle.volume.specs.declared.error.CallError.TheVariants.{Failed as VolumeFailed, Device as VolumeDevice};
ghost use Rattle.volume.specs.declared.live.LiveVersion.{LiveVersion};
ghost use Rattle.volume.specs.declared.pending.PendingVersion.{PendingVersion};
ghost use Rattle.monitor.specs.Common.{IsEnterAnswer, IsDecided, begun_as, IsAnswer, IsKnown, named_in, digit_for};
ghost use Rattle.monitor.specs.Common.{readers_of, with_code, KeepsReading, ArePlaced, IsTimely, UnderKeys, job_of};
ghost use Rattle.monitor.specs.Common.{reader_of, readers_in, pins_of, allowed_update, update_kind, update_answer_at};
ghost use Rattle.monitor.specs.Common.{updating_side, IsUpdating, IsUpdateOf};

use crate::channel::OpenChannel;
use crate::enter::{find, name_at, owner_at, put_attributes};
use crate::found::Found;
use crate::hold::renew;
use crate::input::Input;
use crate::job::Job;
use crate::open::lies_outside;
use crate::output::{Output, OutputKind};
use crate::status::{cleared, refuse};
use blockdisk::Disk;
use protect::{DirectoryAct, acts_are_nested, dir_right, right};
use retrieval::{Mode, Prime};
use spec_image::ErrorCode;
use spec_machine::{Act, Reply};
use std::alloc::Global;
use volume::{CallError, Pending, PendingKind, Volume};
use words36::{FileName, Moment, Ppn};

/// Returns the channel of a number and its input side, if it has one.
pub fn reading_side(job: &Job, number: u32) -> Option<(OpenChannel, Input)>
    ensures none { result ≡ None → reader_of (slot job.now.channels number) ≡ None }
    ensures some { IfSome result (λ reading. (slot job.now.channels number ≡ Some reading.0)
        × (reading.0.input ≡ Some reading.1)) }
{
    let open = job.channel(number)?;
    let input = open.input?;
    Some((open, input))
}

/// Returns whether the words at an address name the place of what an input side reads.
fn names_input(job: &Job, address: u32, input: &Input) -> bool
    requires { address + 4 ≤ 0o400000 }
    ensures { (under : UnderKeys) → result ≡ same_place (place_of input.now.ppn input.now.file)
        (place_at (job_of under job.now) address) }
{
    let _place = input.ppn.word(); // its contract states that its halves aren't zero
    let Some(owner) = owner_at(job, address) else {
        return false;
    };
    let file = name_at(&job.core, address);
    input.ppn == owner && input.file.name == file.name && input.file.ext == file.ext
}

/// Returns how a job may write over a file, by its protection and its directory's, or why not.
fn may_write(
    protection: u16,
    own: u16,
    who: Ppn,
    owner: Ppn,
    is_claimed: bool,
) -> Result<PendingKind, ErrorCode>
    ensures { result ≡ begun_as (update_kind (file_digit own who owner))
        (may_look (directory_digit protection who owner) && may_append (file_digit own who owner)) false is_claimed }
{
    acts_are_nested();
    if !dir_right(protection, who, owner, DirectoryAct::Look)
        || !right(own, who, owner, Act::APPEND)
    {
        return Err(ErrorCode::Protection);
    }
    if is_claimed {
        return Err(ErrorCode::BeingModified);
    }
    if right(own, who, owner, Act::UPDATE) {
        return Ok(PendingKind::Update);
    }
    Ok(PendingKind::Append)
}

/// Returns how a job may write over the file of a place, or why not.
fn allow_update(
    found: Found,
    who: Ppn,
    owner: Ppn,
    is_zero: bool,
    is_claimed: bool,
) -> Result<PendingKind, ErrorCode>
    ensures { result ≡ allowed_update found who owner is_zero is_claimed }
{
    match found {
        Found::NoDirectory => Err(ErrorCode::NoDirectory),
        Found::Absent(_) => Err(ErrorCode::NotFound),
        Found::Present(protection, own) => {
            if is_zero {
                return Err(ErrorCode::NotFound);
            }
            may_write(protection, own, who, owner, is_claimed)
        }
    }
}

/// Returns a prime block by which a version is begun at the place of an input side.
fn place_of(input: &Input, moment: Moment) -> Prime
    ensures { (result.ppn ≡ input.now.ppn) × (result.file ≡ input.now.file) × (result.moment ≡ moment) }
{
    match Prime::new(input.file, input.ppn, 0, Mode::Dump, moment) {
        Some(prime) => prime,
        None => unreachable!(), // the protection is 0
    }
}

/// Begins the version by which a job writes over the file that it reads, and returns it, and whether it updates or
/// appends.
///
/// # Errors
///
/// `Refused` as the machine refuses; `NoMemory` if memory can't grow. Then everything is as before.
fn begin_update<D: Disk>(
    alloc: Global,
    volume: &mut Volume<D>,
    job: &Job,
    input: &Input,
    moment: Moment,
) -> Result<(Pending, PendingKind), CallError>
    requires sound { IsSoundMemory (D.state volume.old.disk) volume.old.map volume.old.failed }
    requires timely { IsTimely (D.state volume.old.disk) moment }
    ensures untouched { (volume.new.disk ≡ volume.old.disk) × (volume.new.failed ≡ volume.old.failed) }
    ensures layout { volume.new.layout ≡ volume.old.layout }
    ensures begun { IfOk result (λ begun. (is_update begun.1 ≡ true) × (prime : PrimeRecord)
        × (prime.ppn ≡ input.now.ppn) × (prime.file ≡ input.now.file)
        × IsBegun volume.old.map volume.new.map begun.0.key begun.1 prime) }
    ensures free { IfOk result (λ begun. ((input.now.file.name == 0) ≡ false)
        × (claims volume.old.map.pending (place_of input.now.ppn input.now.file) ≡ false)) }
    ensures same { OnErr result (volume.new.map ≡ volume.old.map) }
    ensures only { (IsErrOf result VolumeFailed → IsTrue volume.old.failed) × (IsErrOf result VolumeDevice → ⊥) }
    // It begins with the file, in the way that the job's digit allows.
    ensures file { (D.state volume.new.disk).honest → volume.old.failed ≡ false → (files : Files File)
        → RestsAt (D.state volume.old.disk) files
        → IfOk result (λ begun. BeginsWithFile (D.state volume.old.disk).contents
        (pending_at volume.new.map.pending begun.0.key) input.now.file (get files input.now.ppn)) }
    ensures kind { (D.state volume.new.disk).honest → volume.old.failed ≡ false → (files : Files File)
        → RestsAt (D.state volume.old.disk) files
        → IfOk result (λ begun. begun.1 ≡ update_kind (digit_for job.now.ppn input.now.ppn
        (named_in (get files input.now.ppn) input.now.file))) }
    ensures answered { (D.state volume.new.disk).honest → volume.old.failed ≡ false → (s : State)
        → IsKnown (D.state volume.old.disk) volume.old.map s
        → (under : UnderKeys) → IsAnswer result (update_answer_at (pack_of (D.state volume.old.disk)) s
        (job_of under job.now) (place_of input.now.ppn input.now.file)) }
{
    let found = find(volume, input.ppn, &input.file);
    let claimed = volume.is_claimed(input.ppn, &input.file);
    let is_zero = input.file.name.bits() == 0;
    let kind = match allow_update(found, job.ppn, input.ppn, is_zero, claimed) {
        Ok(kind) => kind,
        Err(code) => return Err(CallError::Refused(code)),
    };
    if !volume.quota_allows_begin(kind, input.ppn, &input.file) {
        return Err(CallError::Refused(ErrorCode::NoRoom));
    }
    match volume.begin(alloc, kind, place_of(input, moment)) {
        Ok(pending) => Ok((pending, kind)),
        Err(error) => Err(error),
    }
}

/// Returns the output side that writes a version which was begun in this way: an append keeps its blocks, and writes
/// after them.
fn updating_side(pending: Pending, kind: PendingKind, kept_blocks: u32) -> Output
    requires few { kept_blocks + 1 < 2 ^ 32 }
    ensures { result ≡ updating_side pending.key kind kept_blocks }
{
    match kind {
        PendingKind::Append => Output {
            pending,
            kind: OutputKind::Append(kept_blocks),
            next: kept_blocks + 1,
        },
        _ => Output {
            pending,
            kind: OutputKind::Update,
            next: 1,
        },
    }
}

/// Returns the same for a version that the volume writes.
fn side_of<D: Disk>(volume: &Volume<D>, pending: Pending, kind: PendingKind) -> Output
    requires there { IsSome (pending_at volume.now.map.pending pending.key) }
    requires few { (p : PendingVersion) → pending_at volume.now.map.pending pending.key ≡ Some p
        → p.kept_blocks + 1 < 2 ^ 32 }
    ensures { (p : PendingVersion) → pending_at volume.now.map.pending pending.key ≡ Some p
        → result ≡ updating_side pending.key kind p.kept_blocks }
{
    match volume.kept_blocks(pending) {
        Some(blocks) => updating_side(pending, kind, blocks),
        None => unreachable!(), // it is written
    }
}

/// Returns what the prime block will state of a version that the volume writes.
pub fn prime_of<D: Disk>(volume: &Volume<D>, pending: Pending) -> Prime
    requires there { IsSome (pending_at volume.now.map.pending pending.key) }
    ensures { (p : PendingVersion) → pending_at volume.now.map.pending pending.key ≡ Some p → result ≡ p.prime }
{
    match volume.prime(pending) {
        Some(prime) => prime,
        None => unreachable!(), // it is written
    }
}

/// Serves ENTER on a channel that reads a file, which the four words at an address must name: opens an output side that
/// writes over that file as it is now, or after its last block if the job's digit is 4. The input side then pins that
/// version, and the file's attributes are put into the words.
pub fn update<D: Disk>(
    alloc: Global,
    volume: &mut Volume<D>,
    job: &mut Job,
    number: u32,
    address: u32,
    moment: Moment,
    reading: (OpenChannel, Input),
) -> Reply
    requires sound { IsSoundMemory (D.state volume.old.disk) volume.old.map volume.old.failed }
    // The volume serves, and knows what the job reads.
    requires timely { IsTimely (D.state volume.old.disk) moment }
    requires alive { volume.old.failed ≡ false }
    requires there { slot job.old.channels number ≡ Some reading.0 }
    requires side { reading.0.input ≡ Some reading.1 }
    requires held { (key : ℕ) → times key (pins_of (readers_in (Some job.old)))
        ≤ readers_of (version_at volume.old.map.live key) }
    requires few { (key : ℕ) (v : LiveVersion) → version_at volume.old.map.live key ≡ Some v
        → v.readers + 1 < 2 ^ 32 }
    // The disk is left alone.
    ensures untouched { (volume.new.disk ≡ volume.old.disk) × (volume.new.failed ≡ volume.old.failed) }
    ensures layout { volume.new.layout ≡ volume.old.layout }
    ensures only { (result ≡ Failed → ⊥) × (result ≡ Device → ⊥) }
    // What it leaves, by its answer.
    ensures begun { result ≡ Done → (key : ℕ)
        × (is : IsUpdating volume.old.map volume.new.map job.old job.new number address reading.0 reading.1 key)
        × IsWholeMemory (D.state volume.old.disk).size is.between
        × ((D.state volume.new.disk).honest → (files : Files File) → RestsAt (D.state volume.old.disk) files
        → IsUpdateOf (D.state volume.old.disk).contents job.old reading.1 is.kind is.version is.renews.between
        is.renewed files) }
    ensures placed { ArePlaced volume.old.map → ArePlaced volume.new.map }
    ensures kept { (result ≡ Done → ⊥) → (volume.new.map ≡ volume.old.map)
        × (job.new ≡ record job.old { core = job.new.core }) }
    ensures memory { result ≡ NoMemory → job.new ≡ job.old }
    ensures reads { KeepsReading volume.old.map.live volume.new.map.live job.old job.new }
    ensures row { (D.state volume.new.disk).honest → (s : State)
        → IsKnown (D.state volume.old.disk) volume.old.map s
        → (under : UnderKeys) → IsEnterAnswer (pack_of (D.state volume.old.disk)) s (job_of under job.old)
        (job_of under job.new) (channel_at (job_of under job.old) number) address result }
    ensures refused { (code : ℕ) → result ≡ Refused code → job.new ≡ with_code job.old address code }
    ensures decided { IsDecided result → job.new ≡ job.old }
{
    let (channel, input) = reading;
    if lies_outside(&job.core, address, 4) {
        return Reply::AddressCheck;
    }
    if channel.output.is_some() || !names_input(job, address, &input) {
        return refuse(&mut job.core, address, ErrorCode::Sequence);
    }
    match begin_update(alloc, volume, job, &input, moment) {
        Ok((pending, kind)) => {
            let _failed = volume.has_failed(); // its contract states what holds of a volume between two calls
            let output = side_of(volume, pending, kind);
            let prime = prime_of(volume, pending);
            let renewed = renew(volume, input, input.ppn, input.file, prime.protection);
            put_attributes(&mut job.core, address, &prime);
            let updating = OpenChannel {
                status: cleared(channel.status),
                input: Some(renewed),
                output: Some(output),
                ..channel
            };
            job.set_channel(number, Some(updating));
            Reply::Done
        }
        Err(CallError::Refused(code)) => refuse(&mut job.core, address, code),
        Err(CallError::NoMemory) => Reply::NoMemory,
        Err(CallError::Device) => Reply::Device,
        Err(CallError::Failed) => Reply::Failed,
    }
}
