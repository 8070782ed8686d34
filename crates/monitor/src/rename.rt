//! The call RENAME.
ghost use Rattle.std.specs.Prelude.{◌≡◌, ◌+◌, ◌==◌, ◌<◌, ℕ, false, None, Some, List, Option, Result, OnOk, [], ◌∷◌};
ghost use Rattle.std.specs.Prelude.{slice_index};
ghost use Rattle.spec_image.specs.Common.{same_place, place_of};
ghost use Rattle.spec_machine.specs.Common.{lies_outside, State, SpecJob, slot};
ghost use Rattle.spec_machine.specs.declared.call.Call.TheVariants.{Rename};
ghost use Rattle.spec_machine.specs.declared.call.Reply.TheVariants.{Done, NoMemory, Failed, Device, Refused};
ghost use Rattle.volume.specs.Common.{claims, slot as version_at, IsSoundMemory};
ghost use Rattle.volume.specs.declared.live.LiveVersion.{LiveVersion};
ghost use Rattle.volume.specs.declared.pending.PendingVersion.{PendingVersion};
ghost use Rattle.monitor.specs.Common.{allowed_arrival, arrival_answer, may_become, allowed_change, asked_protection};
ghost use Rattle.monitor.specs.Common.{change_answer, IsChangeAnswer, with_input_closed, CloseAfter, changed_reply};
ghost use Rattle.monitor.specs.Common.{changed_job, Closes, IsDecided, IsKnown, IsCallReady, ServesAlways, readers_of};
ghost use Rattle.monitor.specs.Common.{with_code, IsRow, KeepsSides, KeepsReading, reader_of};

use crate::channel::OpenChannel;
use crate::close_job::release_input;
use crate::enter::{find, name_at, owner_at};
use crate::found::Found;
use crate::input::Input;
use crate::job::Job;
use crate::open::{lies_outside, word_at};
use crate::status::{cleared, refuse};
use crate::update::reading_side;
use blockdisk::Disk;
use protect::{DirectoryAct, acts_are_nested, dir_right, right};
use spec_image::ErrorCode;
use spec_machine::{Act, Reply};
use std::alloc::Global;
use usercore::Core;
use volume::{CallError, Volume};
use words36::{FileName, Ppn};

/// Serves RENAME: gives the file that a channel has looked up, as it is now, the place that the four words at an
/// address name, and the protection that they have in bits 0 to 8; a zero name deletes it. The channel no longer reads
/// it.
pub fn serve_rename<D: Disk>(
    alloc: Global,
    volume: &mut Volume<D>,
    job: &mut Job,
    channel: u32,
    address: u32,
) -> Reply
    requires ready { IsCallReady (D.state volume.old.disk) volume.old.map volume.old.failed job.old }
    ensures serving { ServesAlways D.state volume.old.disk volume.new.disk volume.old.map volume.new.map
        volume.new.failed job.old job.new (Rename channel address) result }
    ensures layout { volume.new.layout ≡ volume.old.layout }
{
    match reading_side(job, channel) {
        Some((open, input)) => rename_input(alloc, volume, job, channel, address, open, input),
        None => rename_nothing(job, channel, address),
    }
}

/// Serves a RENAME of a channel that reads nothing: it is out of order.
fn rename_nothing(job: &mut Job, number: u32, address: u32) -> Reply
    requires unread { reader_of (slot job.old.channels number) ≡ None }
    ensures row { IsRow job.old job.new (Rename number address) result }
    ensures keeps { (pending : List (Option PendingVersion)) → KeepsSides pending pending job.old job.new }
    ensures reads { (live : List (Option LiveVersion)) → KeepsReading live live job.old job.new }
    ensures only { (result ≡ Failed → ⊥) × (result ≡ Device → ⊥) × (result ≡ NoMemory → ⊥) }
    ensures refused { (code : ℕ) → result ≡ Refused code → job.new ≡ with_code job.old address code }
    ensures decided { IsDecided result → job.new ≡ job.old }
{
    let Some(_channel) = job.channel(number) else {
        return Reply::NoChannel;
    };
    if lies_outside(&job.core, address, 4) {
        return Reply::AddressCheck;
    }
    refuse(&mut job.core, address, ErrorCode::Sequence)
}

/// Serves a RENAME of a channel that reads a file: deletes it if the words at the address have a zero name, and moves
/// it otherwise.
fn rename_input<D: Disk>(
    alloc: Global,
    volume: &mut Volume<D>,
    job: &mut Job,
    number: u32,
    address: u32,
    channel: OpenChannel,
    input: Input,
) -> Reply
    requires ready { IsCallReady (D.state volume.old.disk) volume.old.map volume.old.failed job.old }
    requires there { slot job.old.channels number ≡ Some channel }
    requires side { channel.input ≡ Some input }
    ensures serving { ServesAlways D.state volume.old.disk volume.new.disk volume.old.map volume.new.map
        volume.new.failed job.old job.new (Rename number address) result }
    ensures layout { volume.new.layout ≡ volume.old.layout }
{
    if lies_outside(&job.core, address, 4) {
        return Reply::AddressCheck;
    }
    if channel.output.is_some() {
        return refuse(&mut job.core, address, ErrorCode::Sequence);
    }
    if word_at(&job.core, address).bits() == 0 {
        remove_file(volume, job, number, address, channel, input)
    } else {
        move_file(alloc, volume, job, number, address, channel, input)
    }
}

/// Returns whether a job may change the file at a place as it asks to, or why not. `protection` is the new protection
/// of the file; a file that is deleted gets none.
fn allow_change(
    found: Found,
    who: Ppn,
    owner: Ppn,
    is_zero: bool,
    protection: Option<u16>,
    is_claimed: bool,
) -> Result<(), ErrorCode>
    ensures { result ≡ allowed_change found who owner is_zero protection is_claimed }
{
    let (directory, own) = match found {
        Found::NoDirectory => return Err(ErrorCode::NoDirectory),
        Found::Absent(directory) => (directory, None),
        Found::Present(directory, own) => (directory, Some(own)),
    };
    if !dir_right(directory, who, owner, DirectoryAct::Look) {
        return Err(ErrorCode::Protection);
    }
    let Some(own) = own else {
        return Err(ErrorCode::NotFound);
    };
    if is_zero {
        return Err(ErrorCode::NotFound);
    }
    if !may_become(own, protection, who, owner) {
        return Err(ErrorCode::Protection);
    }
    if is_claimed {
        return Err(ErrorCode::BeingModified);
    }
    Ok(())
}

/// Returns whether a job may rename a file of this protection, or delete it, and give it the new protection, if there
/// is one.
fn may_become(own: u16, protection: Option<u16>, who: Ppn, owner: Ppn) -> bool
    ensures { result ≡ may_become own protection who owner }
{
    acts_are_nested();
    if !right(own, who, owner, Act::RENAME) {
        return false;
    }
    match protection {
        Some(protection) if protection != own => right(own, who, owner, Act::PROTECT),
        _ => true,
    }
}

/// Returns whether a job may change what an input side reads, as it is at its place now, or why not.
fn may_change<D: Disk>(
    volume: &Volume<D>,
    who: Ppn,
    input: &Input,
    protection: Option<u16>,
) -> Result<(), ErrorCode>
    requires sound { IsSoundMemory (D.state volume.now.disk) volume.now.map volume.now.failed }
    ensures free { OnOk result (claims volume.now.map.pending (place_of input.now.ppn input.now.file) ≡ false) }
    // It answers as the machine does to a RENAME, by any job of this PPN, that asks for this protection.
    ensures answered { (D.state volume.now.disk).honest → volume.now.failed ≡ false → (s : State)
        → IsKnown (D.state volume.now.disk) volume.now.map s
        → (job : SpecJob) (e : ℕ) → job.ppn ≡ who → protection ≡ asked_protection job e
        → IsChangeAnswer result (change_answer s job e (place_of input.now.ppn input.now.file)) }
{
    let found = find(volume, input.ppn, &input.file);
    let claimed = volume.is_claimed(input.ppn, &input.file);
    let is_zero = input.file.name.bits() == 0;
    allow_change(found, who, input.ppn, is_zero, protection, claimed)
}

/// Returns whether a job may give a file the place where this is found, or why not: `who` asks, in the directory of
/// `owner`. `is_other` states that this directory isn't the file's, and `is_same` that the place is the file's own.
fn allow_arrival(
    found: Found,
    who: Ppn,
    owner: Ppn,
    is_other: bool,
    is_same: bool,
    is_claimed: bool,
) -> Result<(), ErrorCode>
    ensures { result ≡ allowed_arrival found who owner is_other is_same is_claimed }
{
    let (directory, is_free) = match found {
        Found::NoDirectory => return Err(ErrorCode::NoDirectory),
        Found::Absent(directory) => (directory, true),
        Found::Present(directory, _) => (directory, false),
    };
    if is_other && !dir_right(directory, who, owner, DirectoryAct::Create) {
        return Err(ErrorCode::Protection);
    }
    if is_same {
        return Ok(()); // the file stays where it is
    }
    if !is_free {
        return Err(ErrorCode::NameExists);
    }
    if is_claimed {
        return Err(ErrorCode::BeingModified);
    }
    Ok(())
}

/// Returns whether a place is the one that an input side reads.
fn is_place_of(input: &Input, ppn: Ppn, name: &FileName) -> bool
    ensures { result ≡ same_place (place_of ppn name.now) (place_of input.now.ppn input.now.file) }
{
    ppn == input.ppn && name.name == input.file.name && name.ext == input.file.ext
}

/// Returns whether a job may give a file that it may change this place, or why not.
fn may_come<D: Disk>(
    volume: &Volume<D>,
    who: Ppn,
    input: &Input,
    ppn: Ppn,
    name: &FileName,
) -> Result<(), ErrorCode>
    ensures free { OnOk result (same_place (place_of ppn name.now) (place_of input.now.ppn input.now.file) ≡ false
        → claims volume.now.map.pending (place_of ppn name.now) ≡ false) }
    // It answers as the machine does to a RENAME, by any job of this PPN, that names this place.
    ensures answered { (D.state volume.now.disk).honest → volume.now.failed ≡ false → (s : State)
        → IsKnown (D.state volume.now.disk) volume.now.map s
        → (job : SpecJob) → job.ppn ≡ who
        → IsChangeAnswer result
        (arrival_answer s job (place_of input.now.ppn input.now.file) (place_of ppn name.now)) }
{
    let found = find(volume, ppn, name);
    let claimed = volume.is_claimed(ppn, name);
    let same = is_place_of(input, ppn, name);
    allow_arrival(found, who, ppn, ppn != input.ppn, same, claimed)
}

/// Closes the input side of a channel, after what it reads was given another place, or none.
fn close_input<D: Disk>(
    volume: &mut Volume<D>,
    job: &mut Job,
    number: u32,
    channel: OpenChannel,
    input: Input,
)
    requires held { 0 < readers_of (version_at volume.old.map.live input.pin.key) }
    ensures closed { Closes volume.old.map volume.new.map [] (input.pin.key ∷ []) }
    ensures pending { volume.new.map.pending ≡ volume.old.map.pending }
    ensures untouched { (volume.new.disk ≡ volume.old.disk) × (volume.new.failed ≡ volume.old.failed) }
    ensures layout { volume.new.layout ≡ volume.old.layout }
    ensures job { job.new ≡ with_input_closed job.old number channel }
{
    release_input(volume, Some(input));
    let closed = OpenChannel {
        status: cleared(channel.status),
        input: None,
        ..channel
    };
    job.set_channel(number, Some(closed));
}

/// Returns the answer to a change of the map that the volume made, or didn't make; if it is made, the channel's input
/// side closes.
fn answer_change<D: Disk>(
    volume: &mut Volume<D>,
    job: &mut Job,
    number: u32,
    address: u32,
    channel: OpenChannel,
    input: Input,
    changed: Result<(), CallError>,
) -> Reply
    requires inside { address < 0o400000 }
    requires held { OnOk changed (0 < readers_of (version_at volume.old.map.live input.pin.key)) }
    ensures answered { result ≡ changed_reply changed }
    ensures job { job.new ≡ changed_job changed job.old number address channel }
    ensures closed { CloseAfter changed volume.old.map volume.new.map input }
    ensures untouched { (volume.new.disk ≡ volume.old.disk) × (volume.new.failed ≡ volume.old.failed) }
    ensures layout { volume.new.layout ≡ volume.old.layout }
{
    match changed {
        Ok(()) => {
            close_input(volume, job, number, channel, input);
            Reply::Done
        }
        Err(CallError::Refused(code)) => refuse(&mut job.core, address, code),
        Err(CallError::NoMemory) => Reply::NoMemory,
        Err(CallError::Device) => Reply::Device,
        Err(CallError::Failed) => Reply::Failed,
    }
}

/// Deletes what an input side has found: the file that has its place now.
fn remove_file<D: Disk>(
    volume: &mut Volume<D>,
    job: &mut Job,
    number: u32,
    address: u32,
    channel: OpenChannel,
    input: Input,
) -> Reply
    requires ready { IsCallReady (D.state volume.old.disk) volume.old.map volume.old.failed job.old }
    requires there { slot job.old.channels number ≡ Some channel }
    requires side { channel.input ≡ Some input }
    requires free { channel.output ≡ None }
    requires inside { lies_outside job.old.core address 4 ≡ false }
    requires deletes { slice_index job.old.core address ≡ 0 }
    ensures serving { ServesAlways D.state volume.old.disk volume.new.disk volume.old.map volume.new.map
        volume.new.failed job.old job.new (Rename number address) result }
    ensures layout { volume.new.layout ≡ volume.old.layout }
{
    let _length = job.core.length(); // its contract states how long a core may be
    if let Err(code) = may_change(volume, job.ppn, &input, None) {
        return refuse(&mut job.core, address, code);
    }
    let changed = volume.delete(input.ppn, &input.file);
    answer_change(volume, job, number, address, channel, input, changed)
}

/// Moves what an input side has found, the file that has its place now, to the place that the words at an address name,
/// and gives it their protection.
fn move_file<D: Disk>(
    alloc: Global,
    volume: &mut Volume<D>,
    job: &mut Job,
    number: u32,
    address: u32,
    channel: OpenChannel,
    input: Input,
) -> Reply
    requires ready { IsCallReady (D.state volume.old.disk) volume.old.map volume.old.failed job.old }
    requires there { slot job.old.channels number ≡ Some channel }
    requires side { channel.input ≡ Some input }
    requires free { channel.output ≡ None }
    requires inside { lies_outside job.old.core address 4 ≡ false }
    requires named { slice_index job.old.core address ≡ 0 → ⊥ }
    ensures serving { ServesAlways D.state volume.old.disk volume.new.disk volume.old.map volume.new.map
        volume.new.failed job.old job.new (Rename number address) result }
    ensures layout { volume.new.layout ≡ volume.old.layout }
{
    let _length = job.core.length(); // no address is beyond it
    let protection = (word_at(&job.core, address + 2).bits() >> 27) as u16;
    if let Err(code) = may_change(volume, job.ppn, &input, Some(protection)) {
        return refuse(&mut job.core, address, code);
    }
    let Some(ppn) = owner_at(job, address) else {
        return refuse(&mut job.core, address, ErrorCode::NoDirectory);
    };
    let name = name_at(&job.core, address);
    if let Err(code) = may_come(volume, job.ppn, &input, ppn, &name) {
        return refuse(&mut job.core, address, code);
    }
    if !volume.quota_allows_move(input.ppn, &input.file, ppn) {
        return refuse(&mut job.core, address, ErrorCode::NoRoom);
    }
    let changed = volume.rename(alloc, input.ppn, &input.file, ppn, &name, protection);
    answer_change(volume, job, number, address, channel, input, changed)
}
