//! The call OUT.
ghost use Rattle.std.specs.Prelude.{◌≡◌, ◌⊎◌, ◌↔◌, ◌<◌, ◌≤◌, ◌+◌, ◌^◌, ℕ, false, true, IsTrue, All, IfOk, IfErr};
ghost use Rattle.std.specs.Prelude.{IsErrOf, List, length, None, Some, not, ◌&&◌, ◌==◌};
ghost use Rattle.std.specs.List.{AllByRecursion};
ghost use Rattle.blockdisk.specs.Common.{LeavesOnly, SameDisk, one_more};
ghost use Rattle.spec_machine.specs.Common.{word_count, joined, slot, Outgoing, is_before_end};
ghost use Rattle.spec_image.specs.Common.{blocks_of, File, Files, pack_of, StandsOn, times};
ghost use Rattle.usercore.specs.declared.error.CoreError.TheVariants.{AddressCheck, NoMemory};
ghost use Rattle.spec_machine.specs.declared.call.Reply.TheVariants.{Device, Failed};
ghost use Rattle.volume.specs.Common.{pending_at, RestsAt, KeepsRead};
ghost use Rattle.volume.specs.declared.pending.PendingVersion.{PendingVersion};
ghost use Rattle.monitor.specs.Common.{outgoing_at, moved, IsBarred, IsOther, IsOut, KeepsSides, KeepsReading};
ghost use Rattle.monitor.specs.Common.{present, IsSide, kind_of, sides_in, keys_of, IsCallReady, ServesAlways};
ghost use Rattle.spec_machine.specs.declared.call.Call.TheVariants.{Out};

use crate::channel::OpenChannel;
use crate::job::Job;
use crate::output::{Output, OutputKind};
use crate::status::{BLOCK_TOO_LARGE, cleared, stop};
use blockdisk::Disk;
use spec_image::ErrorCode;
use spec_machine::Reply;
use std::alloc::Global;
use usercore::{Core, CoreArea, CoreError, RingStep, word_count};
use volume::{CallError, Volume};
use words36::{BLOCK_WORDS, Word};

/// Serves OUT: puts the words that the command list at an address names, or those of the ring's current buffer, at the
/// block that a channel writes next, and moves past them. Its row is `out`.
pub fn serve_out<D: Disk>(
    alloc: Global,
    volume: &mut Volume<D>,
    job: &mut Job,
    channel: u32,
    address: u32,
) -> Reply
    requires ready { IsCallReady (D.state volume.old.disk) volume.old.map volume.old.failed job.old }
    ensures serving { ServesAlways D.state volume.old.disk volume.new.disk volume.old.map volume.new.map
        volume.new.failed job.old job.new (Out channel address) result }
    ensures layout { volume.new.layout ≡ volume.old.layout }
{
    out(alloc, volume, job, channel, address)
}

/// Returns the words of areas of a core, joined.
///
/// # Errors
///
/// `NoMemory` if there is no memory for them.
fn gathered(alloc: Global, core: &Core, areas: &[CoreArea]) -> Result<Vec<Word>, CoreError>
    requires within { All (λ area. area.first + area.count ≤ length core.now) areas.now }
    requires few { word_count areas.now ≤ 0o400000 }
    ensures words { IfOk result (λ words. words.items ≡ joined core.now areas.now) }
    ensures few { IfOk result (λ words. length words.items ≤ 0o400000) }
    ensures refused { IfErr result (λ error. error ≡ NoMemory) }
{
    let mut words = vec![in alloc; Word::ZERO; word_count(areas)]?;
    core.gather(areas, words.as_mut_slice());
    Ok(words)
}

/// Returns the words that an OUT of a channel puts: those of its ring's current buffer, or those that the command list
/// at an address names, joined.
///
/// # Errors
///
/// `AddressCheck` if the ring or the list isn't valid; `NoMemory` if there is no memory for the words.
fn words_at(
    alloc: Global,
    core: &Core,
    channel: &OpenChannel,
    address: u32,
) -> Result<Vec<Word>, CoreError>
    ensures words { IfOk result (λ words. (left : List ℕ) × (outgoing_at core.now channel.now address
        ≡ Some (record { words = words.items; core = left }))) }
    ensures few { IfOk result (λ words. length words.items ≤ 0o400000) }
    ensures none { IsErrOf result AddressCheck → outgoing_at core.now channel.now address ≡ None }
    ensures some { IsErrOf result NoMemory → outgoing_at core.now channel.now address ≡ None → ⊥ }
{
    if channel.is_buffered() {
        let area = core.ring_check(RingStep::Out, channel.output_header, channel.bytes())?;
        return gathered(alloc, core, &[area]);
    }
    if let Some(area) = core.lone_area(address) {
        return gathered(alloc, core, &[area]);
    }
    let areas = core.dump_list(address)?;
    gathered(alloc, core, areas.as_slice())
}

/// Moves the ring of a channel from the buffer whose words were put to the next one, which will be filled. In dump mode
/// there is no ring.
fn leave_buffer(core: &mut Core, channel: &OpenChannel)
    ensures left { (address : ℕ) (found : Outgoing) → outgoing_at core.old channel.now address ≡ Some found
        → core.new ≡ found.core }
    ensures length { length core.new ≡ length core.old }
{
    if channel.is_buffered() {
        // This can't fail: the words were found in the same core.
        let _ = core.ring_out(channel.output_header, channel.bytes());
    }
}

/// Returns a channel after `count` words were put at the next block of its output side.
fn moved(channel: OpenChannel, output: Output, count: usize) -> OpenChannel
    requires fits { output.next + blocks_of count < 2 ^ 32 }
    requires few { count ≤ 0o400000 }
    ensures { result ≡ moved channel output count }
{
    let blocks = count.div_ceil(BLOCK_WORDS) as u32;
    let output = Output {
        next: output.next + blocks,
        ..output
    };
    OpenChannel {
        status: cleared(channel.status),
        output: Some(output),
        ..channel
    }
}

/// Returns whether `count` words would be put over blocks that an append began with.
fn is_kept(output: Output, count: usize) -> bool
    ensures { result ≡ (not (count == 0) && is_before_end (kind_of output.kind) output.next) }
{
    match output.kind {
        OutputKind::Append(blocks) => count != 0 && output.next <= blocks,
        OutputKind::Create | OutputKind::Supersede | OutputKind::Update => false,
    }
}

/// Returns whether `count` words may not be put at an output side's next block, whatever room there is: they would be
/// put over blocks that an append began with, or the version costs more with them, and by more than the quota of its
/// directory leaves.
pub fn is_barred<D: Disk>(volume: &Volume<D>, output: Output, count: usize) -> bool
    requires first { 0 < output.next }
    ensures { (p : PendingVersion) → pending_at volume.now.map.pending output.pending.key ≡ Some p
        → ((result ≡ true) ↔ IsBarred volume.now.map p output count) }
{
    is_kept(output, count) || !volume.quota_allows_put(output.pending, output.next, count)
}

/// Serves OUT: puts the words that the command list at an address names, or those of the ring's current buffer, at the
/// block that a channel writes next, and moves past them. If they find no room, or exceed the quota, or would be
/// put over what an append began with, it is stopped.
fn out<D: Disk>(
    alloc: Global,
    volume: &mut Volume<D>,
    job: &mut Job,
    number: u32,
    address: u32,
) -> Reply
    // The volume serves, and knows what the job writes.
    requires serves { volume.old.failed ≡ false }
    requires live { (key : ℕ) → times key (keys_of (sides_in (Some job.old)))
        ≤ present (pending_at volume.old.map.pending key) }
    requires sides { AllByRecursion (IsSide volume.old.map.pending) (sides_in (Some job.old)) }

    // The words are put, or not, as the answer tells; and what the job writes and reads stays known.
    ensures outcome { IsOut (D.state volume.old.disk) (D.state volume.new.disk) volume.old.map volume.new.map
        ((volume.new.disk ≡ volume.old.disk) × (volume.new.map ≡ volume.old.map)) job.old job.new number
        address result }
    ensures keeps { volume.new.failed ≡ false
        → KeepsSides volume.old.map.pending volume.new.map.pending job.old job.new }
    ensures reads { volume.new.failed ≡ false → KeepsReading volume.old.map.live volume.new.map.live job.old job.new }
    // A crash finds the files as they were.
    ensures quiet { (D.state volume.new.disk).honest → (f : Files File) → RestsAt (D.state volume.old.disk) f
        → LeavesOnly (D.state volume.old.disk) (D.state volume.new.disk)
        (λ c. StandsOn (pack_of (D.state volume.old.disk)) c f) }
    ensures rests { (D.state volume.new.disk).honest → (f : Files File) → RestsAt (D.state volume.old.disk) f
        → RestsAt (D.state volume.new.disk) f }
    // No other version changes.
    ensures others { (key : ℕ) → IsOther (slot job.old.channels number) key
        → pending_at volume.new.map.pending key ≡ pending_at volume.old.map.pending key }
    ensures live { volume.new.map.live ≡ volume.old.map.live }
    ensures known { volume.new.map.known ≡ record volume.old.map.known { table = volume.new.map.known.table } }
    ensures readers { (D.state volume.new.disk).honest
        → KeepsRead (D.state volume.old.disk).contents (D.state volume.new.disk).contents volume.old.map }
    ensures writers { (D.state volume.new.disk).honest → (key : ℕ) (p : PendingVersion)
        → IsOther (slot job.old.channels number) key → pending_at volume.old.map.pending key ≡ Some p
        → (n : ℕ) → 0 < times n p.version.blocks → (D.state volume.new.disk).contents n
        ≡ (D.state volume.old.disk).contents n }
    // It fails with the volume, and blames the device if that failed.
    ensures failed { IsTrue volume.new.failed ↔ ((result ≡ Device) ⊎ (result ≡ Failed)) }
    ensures counted { result ≡ Device → (D.state volume.new.disk).failures
        ≡ one_more (D.state volume.old.disk).failures }
    ensures served { (result ≡ Device → ⊥) → (D.state volume.new.disk).failures ≡ (D.state volume.old.disk).failures }
    ensures same { SameDisk (D.state volume.old.disk) (D.state volume.new.disk) }
    ensures layout { volume.new.layout ≡ volume.old.layout }
{
    let Some(channel) = job.channel(number) else {
        return Reply::NoChannel;
    };
    let Some(output) = channel.output else {
        return Reply::Refused(ErrorCode::Sequence.number());
    };
    if channel.lacks_header(channel.output_header) {
        return Reply::Refused(ErrorCode::Sequence.number());
    }
    let words = match words_at(alloc, &job.core, &channel, address) {
        Ok(words) => words,
        Err(CoreError::AddressCheck) => return Reply::AddressCheck,
        Err(CoreError::NoMemory) => return Reply::NoMemory,
    };
    if is_barred(volume, output, words.len()) {
        return stop(job, number, channel, BLOCK_TOO_LARGE);
    }
    match volume.put_words(output.pending, output.next, words.as_slice()) {
        Ok(()) => {
            leave_buffer(&mut job.core, &channel);
            let moved = moved(channel, output, words.len());
            job.set_channel(number, Some(moved));
            Reply::Done
        }
        Err(CallError::Refused(_)) => stop(job, number, channel, BLOCK_TOO_LARGE),
        Err(CallError::NoMemory) => Reply::NoMemory,
        Err(CallError::Device) => Reply::Device,
        Err(CallError::Failed) => Reply::Failed,
    }
}
