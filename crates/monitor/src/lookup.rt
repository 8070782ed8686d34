//! The call LOOKUP.
ghost use Rattle.std.specs.Prelude.{◌≡◌, ◌+◌, ◌<◌, ◌≤◌, ◌^◌, ℕ, true, false, None, Some, [], ◌∷◌, IfOk, IfErr, OnErr};
ghost use Rattle.std.specs.Prelude.{length};
ghost use Rattle.words36.specs.Common.{join};
ghost use Rattle.spec_machine.specs.Common.{lies_outside, after_writes, State, channel_at, Channel as MachineChannel};
ghost use Rattle.spec_machine.specs.Common.{place_at, size_word, with_attributes, file_digit, may_read};
ghost use Rattle.spec_image.specs.Common.{File, Files, get, times, attributes, place_of};
ghost use Rattle.spec_machine.specs.declared.call.Reply.TheVariants.{Done, NoMemory, Failed, Device, Refused};
ghost use Rattle.volume.specs.Common.{MemoryMap, slot, prime_at, IsShown, IsSoundMemory, RestsAt};
ghost use Rattle.volume.specs.declared.live.LiveVersion.{LiveVersion};
ghost use Rattle.monitor.specs.Common.{IsDecided, IsKnown, HasShortFacts, IsReadAnswer, IsLookupAnswer};
ghost use Rattle.monitor.specs.Common.{IsLookupRefusal, IsLookingUp, IsLookedUp, IsLookupRow, readers_of};
ghost use Rattle.monitor.specs.Common.{KeepsReading, UnderKeys, job_of, readers_in, pins_of, with_code, IsCallReady};
ghost use Rattle.monitor.specs.Common.{ServesAlways};
ghost use Rattle.monitor.specs.declared.channel.OpenChannel.{OpenChannel};
ghost use Rattle.monitor.specs.declared.input.Input.{Input};
ghost use Rattle.spec_machine.specs.declared.call.Call.TheVariants.{Lookup};

use crate::channel::OpenChannel;
use crate::close_job::release_input;
use crate::enter::{high_date, name_at, owner_at};
use crate::input::Input;
use crate::job::Job;
use crate::open::{lies_outside, word_at};
use crate::status::{cleared, refuse};
use blockdisk::Disk;
use protect::{DirectoryAct, acts_are_nested, dir_right, right};
use spec_image::ErrorCode;
use spec_machine::{Act, Reply};
use usercore::Core;
use volume::{FileFacts, Volume};
use words36::{FileName, Half, Ppn, Word};

/// The largest number of words of a file whose size is given in words, rather than in blocks.
const MOST_WORDS: u32 = 131_072;

/// One more than the largest number of half a word.
const HALF_LIMIT: u32 = 0o1000000;

/// Serves LOOKUP: opens an input side for the file that the four words at an address name. Its row is `lookup`.
pub fn serve_lookup<D: Disk>(
    volume: &mut Volume<D>,
    job: &mut Job,
    channel: u32,
    address: u32,
) -> Reply
    requires ready { IsCallReady (D.state volume.old.disk) volume.old.map volume.old.failed job.old }
    ensures serving { ServesAlways D.state volume.old.disk volume.new.disk volume.old.map volume.new.map
        volume.new.failed job.old job.new (Lookup channel address) result }
    ensures layout { volume.new.layout ≡ volume.old.layout }
{
    lookup(volume, job, channel, address)
}

/// Returns whether a job may read a file of this protection.
fn may_read(own: u16, who: Ppn, owner: Ppn) -> bool
    ensures { result ≡ may_read (file_digit own who owner) }
{
    acts_are_nested();
    right(own, who, owner, Act::READ)
}

/// Returns the facts of the file at a place if a job may read it, or why it may not.
fn readable<D: Disk>(
    volume: &Volume<D>,
    who: Ppn,
    owner: Ppn,
    file: &FileName,
) -> Result<FileFacts, ErrorCode>
    ensures found { (D.state volume.now.disk).honest → volume.now.failed ≡ false → (files : Files File)
        → RestsAt (D.state volume.now.disk) files
        → IsReadAnswer who owner file.now (get files owner) result }
    ensures only { IfErr result IsLookupRefusal }
{
    let Ok(protection) = volume.directory(owner) else {
        return Err(ErrorCode::NoDirectory);
    };
    if !dir_right(protection, who, owner, DirectoryAct::Look) {
        return Err(ErrorCode::Protection);
    }
    if file.name.bits() == 0 {
        return Err(ErrorCode::NotFound);
    }
    let Ok(facts) = volume.look(owner, file) else {
        return Err(ErrorCode::NotFound); // the directory has no such name
    };
    if !may_read(facts.protection, who, owner) {
        return Err(ErrorCode::Protection);
    }
    Ok(facts)
}

/// Finds the file that the four words at an address name, if the job may read it; returns an input side that reads its
/// version, pinned for one more reader, and the file's facts.
///
/// # Errors
///
/// `NoDirectory` if there is no such directory, `NotFound` if it has no such file, `Protection` if the job may not look
/// names up there, or may not read the file. Nothing is pinned then.
pub fn find_input<D: Disk>(
    volume: &mut Volume<D>,
    job: &Job,
    address: u32,
) -> Result<(Input, FileFacts), ErrorCode>
    requires sound { IsSoundMemory (D.state volume.old.disk) volume.old.map volume.old.failed }
    requires there { address + 4 ≤ 0o400000 }
    requires alive { volume.old.failed ≡ false }
    requires few { (key : ℕ) (v : LiveVersion) → slot volume.old.map.live key ≡ Some v → v.readers + 1 < 2 ^ 32 }
    ensures untouched { (volume.new.disk ≡ volume.old.disk) × (volume.new.failed ≡ volume.old.failed) }
    ensures layout { volume.new.layout ≡ volume.old.layout }
    ensures same { OnErr result (volume.new.map ≡ volume.old.map) }
    ensures only { IfErr result IsLookupRefusal }

    // The version is the one that memory has for the place; it has one reader more, and nothing else changes.
    ensures place { IfOk result (λ found. (under : UnderKeys) → place_of found.0.ppn found.0.file
        ≡ place_at (job_of under job.now) address) }
    ensures next { IfOk result (λ found. found.0.next ≡ 1) }
    ensures at { IfOk result (λ found. (v : LiveVersion) × (slot volume.old.map.live found.0.pin.key ≡ Some v)
        × (v.is_current ≡ true) × (prime_at volume.old.map found.0.ppn found.0.file ≡ Some v.at)) }
    ensures pinned { IfOk result (λ found. (v : LiveVersion) × (slot volume.old.map.live found.0.pin.key ≡ Some v)
        × (slot volume.new.map.live found.0.pin.key ≡ Some (record v { readers = v.readers + 1 }))) }
    ensures others { IfOk result (λ found. (k : ℕ) → (k ≡ found.0.pin.key → ⊥)
        → slot volume.new.map.live k ≡ slot volume.old.map.live k) }
    ensures map { volume.new.map ≡ record volume.old.map { live = volume.new.map.live } }

    // It answers as the machine does on a channel without an output side, and the file is the machine's.
    ensures answered { (D.state volume.new.disk).honest → (s : State)
        → IsKnown (D.state volume.old.disk) volume.old.map s
        → (under : UnderKeys) (c : MachineChannel) → c.output ≡ None → lies_outside job.now.core address 4 ≡ false
        → IsLookupAnswer (D.state volume.old.disk).contents volume.new.map.live s
        (job_of under job.now) c address result }
{
    let Some(ppn) = owner_at(job, address) else {
        return Err(ErrorCode::NoDirectory);
    };
    let file = name_at(&job.core, address);
    let facts = match readable(volume, job.ppn, ppn, &file) {
        Ok(facts) => facts,
        Err(code) => return Err(code),
    };
    match volume.pin(ppn, &file) {
        Ok(pin) => {
            let input = Input {
                pin,
                ppn,
                file,
                protection: facts.protection,
                next: 1,
            };
            Ok((input, facts))
        }
        Err(_) => Err(ErrorCode::NotFound), // an honest disk has the file whose facts were found
    }
}

/// Returns protection, mode, time and the low twelve bits of the date of a file in one word.
fn attributes_of(facts: &FileFacts) -> Word
    ensures { (file : File) → IsShown file facts.now → HasShortFacts file → result ≡ attributes file }
{
    let protection = u64::from(facts.protection % 0o1000) << 27; // three digits, as each file's are
    let mode = facts.mode.number() << 23;
    let time = u64::from(facts.moment.minute) << 12;
    Word::from_bits(protection + mode + time + u64::from(facts.moment.date % 4096))
}

/// Returns the size of a file as half a word: minus the number of its words, or, if it is long, the number of its
/// blocks.
fn size_of(facts: &FileFacts) -> Half
    ensures { (file : File) → IsShown file facts.now → HasShortFacts file
        → join result 0 ≡ size_word (length file.body) }
{
    if facts.words <= MOST_WORDS {
        Half::from_bits((HALF_LIMIT - facts.words) % HALF_LIMIT)
    } else {
        Half::from_bits(facts.blocks % HALF_LIMIT) // the blocks of a file fit into half a word
    }
}

/// Puts the attributes of a file and its size into the second, third and fourth of the words at an address; the high
/// bits of its date follow the extension.
pub fn put_found(core: &mut Core, address: u32, facts: &FileFacts)
    requires { address + 4 ≤ 0o400000 }
    ensures { (file : File) → IsShown file facts.now → HasShortFacts file
        → core.new ≡ after_writes (with_attributes 2 core.old address file) ((address + 3, size_word (length file.body))
        ∷ []) }
{
    let left = word_at(core, address + 1).left();
    let zero = Half::from_bits(0);
    let _ = core.set_word(
        address + 1,
        Word::from_halves(left, high_date(facts.moment)),
    );
    let _ = core.set_word(address + 2, attributes_of(facts));
    let _ = core.set_word(address + 3, Word::from_halves(size_of(facts), zero));
}

/// Serves LOOKUP: opens an input side for the file that the four words at an address name. Its version is pinned until
/// the side closes, whatever becomes of the name; the version of an earlier input side of the channel is unpinned. The
/// attributes and the size of the file are put into the words.
fn lookup<D: Disk>(volume: &mut Volume<D>, job: &mut Job, number: u32, address: u32) -> Reply
    requires sound { IsSoundMemory (D.state volume.old.disk) volume.old.map volume.old.failed }
    // The volume serves, and knows what the job reads.
    requires alive { volume.old.failed ≡ false }
    requires held { (key : ℕ) → times key (pins_of (readers_in (Some job.old)))
        ≤ readers_of (slot volume.old.map.live key) }
    requires few { (key : ℕ) (v : LiveVersion) → slot volume.old.map.live key ≡ Some v → v.readers + 1 < 2 ^ 32 }
    // The volume, and what the job reads.
    ensures untouched { (volume.new.disk ≡ volume.old.disk) × (volume.new.failed ≡ volume.old.failed) }
    ensures layout { volume.new.layout ≡ volume.old.layout }
    ensures only { (result ≡ Failed → ⊥) × (result ≡ Device → ⊥) × (result ≡ NoMemory → ⊥) }
    ensures pending { volume.new.map.pending ≡ volume.old.map.pending }
    ensures known { volume.new.map.known ≡ record volume.old.map.known { table = volume.new.map.known.table } }
    ensures kept { (result ≡ Done → ⊥) → (volume.new.map ≡ volume.old.map)
        × (job.new ≡ record job.old { core = job.new.core }) }
    ensures reads { KeepsReading volume.old.map.live volume.new.map.live job.old job.new }
    // What it answers and leaves, by its answer.
    ensures looked { result ≡ Done → (channel : OpenChannel) × (input : Input) × (held : MemoryMap)
        × IsLookingUp volume.old.map held volume.new.map job.old job.new number address channel input
        × ((D.state volume.new.disk).honest → (s : State) → IsKnown (D.state volume.old.disk) volume.old.map s
        → IsLookedUp (D.state volume.old.disk).contents held.live s job.old job.new address input) }
    ensures row { (D.state volume.new.disk).honest → (s : State) → IsKnown (D.state volume.old.disk) volume.old.map s
        → (under : UnderKeys) → IsLookupRow s (job_of under job.old) (job_of under job.new)
        (channel_at (job_of under job.old) number) address result }
    ensures refused { (code : ℕ) → result ≡ Refused code → job.new ≡ with_code job.old address code }
    ensures decided { IsDecided result → job.new ≡ job.old }
{
    let Some(channel) = job.channel(number) else {
        return Reply::NoChannel;
    };
    if lies_outside(&job.core, address, 4) {
        return Reply::AddressCheck;
    }
    if channel.output.is_some() {
        return refuse(&mut job.core, address, ErrorCode::Sequence);
    }
    match find_input(volume, job, address) {
        Ok((input, facts)) => {
            release_input(volume, channel.input);
            put_found(&mut job.core, address, &facts);
            let reading = OpenChannel {
                status: cleared(channel.status),
                input: Some(input),
                ..channel
            };
            job.set_channel(number, Some(reading));
            Reply::Done
        }
        Err(code) => refuse(&mut job.core, address, code),
    }
}
