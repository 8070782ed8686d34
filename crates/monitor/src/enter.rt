//! The call ENTER for a new version, and the names, places and attributes in the words of calls.
ghost use Rattle.std.specs.Prelude.{◌≡◌, ◌==◌, ◌&&◌, ◌+◌, ◌%◌, ◌<◌, ◌≤◌, ℕ, false, IfOk, MatchResult, Ok, Err, IfSome};
ghost use Rattle.std.specs.Prelude.{IfNone, None, Some, OnErr, IsErrOf, IsTrue, slice_index};
ghost use Rattle.words36.specs.Common.{left, IsPpn};
ghost use Rattle.spec_machine.specs.Common.{lies_outside, protection_or, State, slot, channel_at, high_date};
ghost use Rattle.spec_machine.specs.Common.{own_if_zero, place_at, with_attributes, directory_digit, file_digit};
ghost use Rattle.spec_machine.specs.Common.{may_look, may_supersede};
ghost use Rattle.spec_image.specs.Common.{File, Files, pack_of, get, attributes, place_of};
ghost use Rattle.spec_machine.specs.declared.call.Reply.TheVariants.{Done, NoMemory, Failed, Device, Refused};
ghost use Rattle.volume.specs.declared.error.CallError.TheVariants.{Failed as VolumeFailed, Device as VolumeDevice};
ghost use Rattle.volume.specs.Common.{is_update, IsBegun, pending_at, is_creation, IsSoundMemory, RestsAt, claims};
ghost use Rattle.volume.specs.declared.pending.PendingKind.{PendingKind};
ghost use Rattle.volume.specs.declared.pending.PendingVersion.{PendingVersion};
ghost use Rattle.monitor.specs.Common.{IsDecided, found_in, begun_as, allowed, kind_for, protection_for, file_begun};
ghost use Rattle.monitor.specs.Common.{IsKnown, IsAnswer, IsPrimeAt, begin_answer_at, entered_kind, IsEntering};
ghost use Rattle.monitor.specs.Common.{IsEnterAnswer, KeepsReading, ArePlaced, IsTimely, UnderKeys, job_of, reader_of};
ghost use Rattle.monitor.specs.Common.{with_code, IsCallReady, ServesJob};
ghost use Rattle.spec_machine.specs.declared.call.Call.TheVariants.{Enter};

use crate::channel::OpenChannel;
use crate::found::Found;
use crate::job::Job;
use crate::open::{lies_outside, word_at};
use crate::output::{Output, OutputKind};
use crate::status::{cleared, refuse};
use crate::update::{reading_side, update};
use blockdisk::Disk;
use protect::{DirectoryAct, acts_are_nested, dir_right, right};
use retrieval::{Mode, Prime};
use spec_image::ErrorCode;
use spec_machine::{Act, Reply};
use std::alloc::Global;
use usercore::Core;
use volume::{CallError, Pending, PendingKind, Volume};
use words36::{FileName, Half, Moment, Ppn, Word};

/// Serves ENTER: opens an output side for the file that the four words at an address name, at a moment. Its rows are
/// `update` on a channel that reads a file, and `enter`.
pub fn serve_enter<D: Disk>(
    alloc: Global,
    volume: &mut Volume<D>,
    job: &mut Job,
    channel: u32,
    address: u32,
    moment: Moment,
) -> Reply
    requires ready { IsCallReady (D.state volume.old.disk) volume.old.map volume.old.failed job.old }
    requires timely { IsTimely (D.state volume.old.disk) moment }
    ensures serving { ServesJob D.state volume.old.disk volume.new.disk volume.old.map volume.new.map
        volume.new.failed job.old job.new (Enter channel address) moment result }
    ensures layout { volume.new.layout ≡ volume.old.layout }
{
    match reading_side(job, channel) {
        Some(reading) => update(alloc, volume, job, channel, address, moment, reading),
        None => enter(alloc, volume, job, channel, address, moment),
    }
}

/// Returns what is at a place of a volume.
pub fn find<D: Disk>(volume: &Volume<D>, ppn: Ppn, file: &FileName) -> Found
    ensures { (D.state volume.now.disk).honest → volume.now.failed ≡ false → (files : Files File)
        → RestsAt (D.state volume.now.disk) files
        → result ≡ found_in (get files ppn) file.now }
{
    let protection = match volume.directory(ppn) {
        Ok(protection) => protection,
        Err(_) => return Found::NoDirectory,
    };
    match volume.look(ppn, file) {
        Ok(facts) => Found::Present(protection, facts.protection),
        Err(_) => Found::Absent(protection),
    }
}

/// Returns whether a job may take the place of a file, by the protections of its directory and its own.
fn may_supersede(protection: u16, own: u16, who: Ppn, owner: Ppn) -> bool
    ensures { result ≡ (may_look (directory_digit protection who owner) && may_supersede (file_digit own who owner)) }
{
    acts_are_nested();
    dir_right(protection, who, owner, DirectoryAct::Look) && right(own, who, owner, Act::SUPERSEDE)
}

/// Returns how a job begins to write if it may do so, or why not.
fn begin_as(
    kind: PendingKind,
    may: bool,
    is_zero: bool,
    is_claimed: bool,
) -> Result<PendingKind, ErrorCode>
    ensures { result ≡ begun_as kind may is_zero is_claimed }
{
    if is_zero {
        return Err(ErrorCode::NotFound);
    }
    if !may {
        return Err(ErrorCode::Protection);
    }
    if is_claimed {
        return Err(ErrorCode::BeingModified);
    }
    Ok(kind)
}

/// Returns how a job may begin to write at a place, or why not.
fn allow(
    found: Found,
    who: Ppn,
    owner: Ppn,
    is_zero: bool,
    is_claimed: bool,
) -> Result<PendingKind, ErrorCode>
    ensures { result ≡ allowed found who owner is_zero is_claimed }
{
    match found {
        Found::NoDirectory => Err(ErrorCode::NoDirectory),
        Found::Absent(protection) => {
            let may = dir_right(protection, who, owner, DirectoryAct::Create);
            begin_as(PendingKind::Create, may, is_zero, is_claimed)
        }
        Found::Present(protection, own) => {
            let may = may_supersede(protection, own, who, owner);
            begin_as(PendingKind::Supersede, may, is_zero, is_claimed)
        }
    }
}

/// Returns how a version begins, by what is at its place: in the place of the file, or as a new one.
fn kind_for(found: Found) -> PendingKind
    ensures { result ≡ kind_for found }
{
    match found {
        Found::Present(_, _) => PendingKind::Supersede,
        Found::NoDirectory | Found::Absent(_) => PendingKind::Create,
    }
}

/// Returns the protection of what is written: the old file's if there is one, else the one that is asked for.
fn protection_for(found: Found, asked: u16) -> u16
    requires { asked < 512 }
    ensures value { result ≡ protection_for found asked }
    ensures few { result < 512 }
{
    match found {
        Found::Present(_, own) => own % 0o1000, // three digits, as each file's are
        _ => asked,
    }
}

/// Returns the protection in bits 0 to 8 of a word, or `default` if they are 0.
pub fn protection_or(word: Word, default: u16) -> u16
    requires { default < 512 }
    ensures value { result ≡ protection_or word default }
    ensures few { result < 512 }
{
    let protection = (word.bits() >> 27) as u16;
    if protection == 0 { default } else { protection }
}

/// Returns the directory that the words at an address name, 0 for the job's own.
pub fn owner_at(job: &Job, address: u32) -> Option<Ppn>
    requires { address + 4 ≤ 0o400000 }
    ensures there { IfSome result (λ ppn. ppn ≡ own_if_zero (slice_index job.now.core (address + 3)) job.now.ppn) }
    ensures none { IfNone result (IsPpn (own_if_zero (slice_index job.now.core (address + 3)) job.now.ppn) → ⊥) }
{
    let word = word_at(&job.core, address + 3);
    if word.bits() == 0 {
        return Some(job.ppn);
    }
    Ppn::from_word(word)
}

/// Returns the name of a file that the words at an address name.
pub fn name_at(core: &Core, address: u32) -> FileName
    requires { address + 4 ≤ 0o400000 }
    ensures { (result.name ≡ slice_index core.now address) × (result.ext ≡ left (slice_index core.now (address + 1))) }
{
    FileName {
        name: word_at(core, address),
        ext: word_at(core, address + 1).left(),
    }
}

/// Returns how an output side began that writes a version without words.
fn kind_of<D: Disk>(volume: &Volume<D>, pending: Pending) -> OutputKind
    ensures { (p : PendingVersion) → pending_at volume.now.map.pending pending.key ≡ Some p
        → result ≡ entered_kind (is_creation p) }
{
    match volume.kind(pending) {
        Some(PendingKind::Create) => OutputKind::Create,
        _ => OutputKind::Supersede,
    }
}

/// Returns protection, mode, time and the low twelve bits of the date of a version in one word.
fn attributes(prime: &Prime) -> Word
    ensures { result ≡ attributes (file_begun prime.now) }
{
    let protection = u64::from(prime.protection) << 27;
    let mode = prime.mode.number() << 23;
    let time = u64::from(prime.moment.minute) << 12;
    Word::from_bits(protection + mode + time + u64::from(prime.moment.date % 4096))
}

/// Returns what the prime block states of the version that an ENTER of the words at an address writes in a mode.
fn prime_for(
    core: &Core,
    address: u32,
    ppn: Ppn,
    file: FileName,
    found: Found,
    mode: Mode,
    moment: Moment,
) -> Prime
    requires there { address + 4 ≤ 0o400000 }
    ensures ppn { result.ppn ≡ ppn }
    ensures file { result.file ≡ file }
    ensures mode { result.mode ≡ mode }
    ensures moment { result.moment ≡ moment }
    ensures protection { result.protection
        ≡ protection_for found (protection_or (slice_index core.now (address + 2)) 0o057) }
{
    let asked = protection_or(word_at(core, address + 2), 0o057);
    let protection = protection_for(found, asked);
    match Prime::new(file, ppn, protection, mode, moment) {
        Some(prime) => prime,
        None => unreachable!(), // the protection has three digits
    }
}

/// Returns a copy of a prime block.
fn copy_of(prime: &Prime) -> Prime
    ensures { result ≡ prime.now }
{
    *prime
}

/// Returns what is at a place if a job may begin to write there, or why it may not.
fn may_begin<D: Disk>(
    volume: &Volume<D>,
    who: Ppn,
    owner: Ppn,
    file: &FileName,
) -> Result<Found, ErrorCode>
    ensures free { IfOk result (λ found. ((file.now.name == 0) ≡ false)
        × (claims volume.now.map.pending (place_of owner file.now) ≡ false)) }
    ensures found { (D.state volume.now.disk).honest → volume.now.failed ≡ false → (files : Files File)
        → RestsAt (D.state volume.now.disk) files
        → MatchResult result
        (λ found. (found ≡ found_in (get files owner) file.now)
        × ((kind : PendingKind) × (allowed found who owner (file.now.name
        == 0) (claims volume.now.map.pending (place_of owner file.now)) ≡ Ok kind)))
        (λ code. allowed (found_in (get files owner) file.now) who owner (file.now.name
        == 0) (claims volume.now.map.pending (place_of owner file.now)) ≡ Err code) }
{
    let found = find(volume, owner, file);
    let claimed = volume.is_claimed(owner, file);
    let is_zero = file.name.bits() == 0;
    match allow(found, who, owner, is_zero, claimed) {
        Ok(_kind) => Ok(found),
        Err(code) => Err(code),
    }
}

/// Begins the version that an ENTER of the words at an address writes in a mode, at the place that they name.
///
/// # Errors
///
/// `Refused` as the machine refuses; `NoMemory` if memory can't grow. Then everything is as before.
fn begin_at<D: Disk>(
    alloc: Global,
    volume: &mut Volume<D>,
    job: &Job,
    mode: Mode,
    address: u32,
    moment: Moment,
) -> Result<(Pending, Prime), CallError>
    requires sound { IsSoundMemory (D.state volume.old.disk) volume.old.map volume.old.failed }
    requires there { address + 4 ≤ 0o400000 }
    requires timely { IsTimely (D.state volume.old.disk) moment }
    ensures untouched { (volume.new.disk ≡ volume.old.disk) × (volume.new.failed ≡ volume.old.failed) }
    ensures layout { volume.new.layout ≡ volume.old.layout }
    ensures begun { IfOk result (λ begun. (kind : PendingKind) × (is_update kind ≡ false)
        × IsBegun volume.old.map volume.new.map begun.0.key kind begun.1) }
    ensures free { IfOk result (λ begun. ((begun.1.file.name == 0) ≡ false)
        × (claims volume.old.map.pending (place_of begun.1.ppn begun.1.file) ≡ false)) }
    ensures same { OnErr result (volume.new.map ≡ volume.old.map) }
    ensures only { (IsErrOf result VolumeFailed → IsTrue volume.old.failed) × (IsErrOf result VolumeDevice → ⊥) }
    ensures prime { IfOk result (λ begun. IsPrimeAt job.now mode address moment begun.1) }
    ensures protection { (D.state volume.new.disk).honest → volume.old.failed ≡ false → (files : Files File)
        → RestsAt (D.state volume.old.disk) files
        → IfOk result (λ begun. begun.1.protection ≡ protection_for (found_in (get files begun.1.ppn) begun.1.file)
        (protection_or (slice_index job.now.core (address + 2)) 0o057)) }
    ensures answered { (D.state volume.new.disk).honest → volume.old.failed ≡ false → (s : State)
        → IsKnown (D.state volume.old.disk) volume.old.map s
        → (under : UnderKeys) → IsAnswer result (begin_answer_at (pack_of (D.state volume.old.disk)) s
        (job_of under job.now) (place_at (job_of under job.now) address)) }
{
    let Some(ppn) = owner_at(job, address) else {
        return Err(CallError::Refused(ErrorCode::NoDirectory));
    };
    let file = name_at(&job.core, address);
    let found = match may_begin(volume, job.ppn, ppn, &file) {
        Ok(found) => found,
        Err(code) => return Err(CallError::Refused(code)),
    };
    let kind = kind_for(found);
    if !volume.quota_allows_begin(kind, ppn, &file) {
        return Err(CallError::Refused(ErrorCode::NoRoom));
    }
    let prime = prime_for(&job.core, address, ppn, file, found, mode, moment);
    let kept = copy_of(&prime);
    match volume.begin(alloc, kind, prime) {
        Ok(pending) => Ok((pending, kept)),
        Err(error) => Err(error),
    }
}

/// Returns the three high bits of a date, in the highest bits of half a word. They come from the date alone: if a
/// layout has no place for them, no date that it holds sets one.
pub fn high_date(moment: Moment) -> Half
    ensures { result ≡ high_date 2 moment.date }
{
    Half::from_bits(moment.date / 4096 << 15)
}

/// Puts the attributes of a version that is begun into the second and third of the words at an address; the high bits
/// of its date follow the extension.
pub fn put_attributes(core: &mut Core, address: u32, prime: &Prime)
    requires { address + 4 ≤ 0o400000 }
    ensures { core.new ≡ with_attributes 2 core.old address (file_begun prime.now) }
{
    let left = word_at(core, address + 1).left();
    let _ = core.set_word(
        address + 1,
        Word::from_halves(left, high_date(prime.moment)),
    );
    let _ = core.set_word(address + 2, attributes(prime));
}

/// Serves ENTER on a channel that reads nothing: opens an output side for the file that the four words at an address
/// name, either a new one, or one that will take the place of the file of that name. Its attributes, with its whole
/// date, are put into the words.
fn enter<D: Disk>(
    alloc: Global,
    volume: &mut Volume<D>,
    job: &mut Job,
    number: u32,
    address: u32,
    moment: Moment,
) -> Reply
    requires sound { IsSoundMemory (D.state volume.old.disk) volume.old.map volume.old.failed }
    // The volume serves.
    requires timely { IsTimely (D.state volume.old.disk) moment }
    requires alive { volume.old.failed ≡ false }
    requires unread { reader_of (slot job.old.channels number) ≡ None }
    // The disk is left alone.
    ensures untouched { (volume.new.disk ≡ volume.old.disk) × (volume.new.failed ≡ volume.old.failed) }
    ensures layout { volume.new.layout ≡ volume.old.layout }
    ensures only { (result ≡ Failed → ⊥) × (result ≡ Device → ⊥) }
    // What it leaves, by its answer.
    ensures begun { result ≡ Done → (channel : OpenChannel) × (key : ℕ) × (prime : Prime)
        × IsEntering volume.old.map volume.new.map job.old job.new number address moment channel key prime
        × ((D.state volume.new.disk).honest → (files : Files File) → RestsAt (D.state volume.old.disk) files
        → prime.protection ≡ protection_for (found_in (get files prime.ppn) prime.file)
        (protection_or (slice_index job.old.core (address + 2)) 0o057)) }
    ensures placed { ArePlaced volume.old.map → ArePlaced volume.new.map }
    ensures kept { (result ≡ Done → ⊥) → (volume.new.map ≡ volume.old.map)
        × (job.new ≡ record job.old { core = job.new.core }) }
    ensures memory { result ≡ NoMemory → job.new ≡ job.old }
    ensures reads { KeepsReading volume.old.map.live volume.new.map.live job.old job.new }
    ensures row { (D.state volume.new.disk).honest → (s : State)
        → IsKnown (D.state volume.old.disk) volume.old.map s
        → (under : UnderKeys) → IsEnterAnswer (pack_of (D.state volume.old.disk)) s (job_of under job.old)
        (job_of under job.new) (channel_at (job_of under job.old) number) address result }
    ensures refused { (code : ℕ) → result ≡ Refused code → job.new ≡ with_code job.old address code }
    ensures decided { IsDecided result → job.new ≡ job.old }
{
    let Some(channel) = job.channel(number) else {
        return Reply::NoChannel;
    };
    if lies_outside(&job.core, address, 4) {
        return Reply::AddressCheck;
    }
    if channel.output.is_some() {
        return refuse(&mut job.core, address, ErrorCode::Sequence);
    }
    match begin_at(alloc, volume, job, channel.mode, address, moment) {
        Ok((pending, prime)) => {
            let output = Output {
                pending,
                kind: kind_of(volume, pending),
                next: 1,
            };
            put_attributes(&mut job.core, address, &prime);
            let entered = OpenChannel {
                status: cleared(channel.status),
                output: Some(output),
                ..channel
            };
            job.set_channel(number, Some(entered));
            Reply::Done
        }
        Err(CallError::Refused(code)) => refuse(&mut job.core, address, code),
        Err(CallError::NoMemory) => Reply::NoMemory,
        Err(CallError::Device) => Reply::Device,
        Err(CallError::Failed) => Reply::Failed,
    }
}
