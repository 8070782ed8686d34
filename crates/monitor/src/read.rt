//! The call IN.
ghost use Rattle.std.specs.Prelude.{◌≡◌, ◌⊎◌, ◌↔◌, ◌<◌, ◌≤◌, ◌+◌, ◌^◌, ℕ, IsTrue, false};
ghost use Rattle.blockdisk.specs.Common.{SameDisk, one_more};
ghost use Rattle.changeset.specs.Common.{OnlyReads};
ghost use Rattle.spec_image.specs.Common.{blocks_of, File, Files, times};
ghost use Rattle.spec_machine.specs.declared.call.Reply.TheVariants.{Device, Failed, NoMemory};
ghost use Rattle.volume.specs.Common.{pending_at, slot as version_at, IsSoundMemory, RestsAt};
ghost use Rattle.monitor.specs.Common.{IsIdle, readers_of, handle_read, read_on, IsIn, KeepsReading, present};
ghost use Rattle.monitor.specs.Common.{HasReaders, sides_in, keys_of, readers_in, pins_of, IsCallReady, ServesAlways};
ghost use Rattle.spec_machine.specs.declared.call.Call.TheVariants.{In};

use crate::channel::OpenChannel;
use crate::input::Input;
use crate::job::Job;
use crate::output::Output;
use crate::read_in::{ReadIn, read_in};
use crate::status::{cleared, stop};
use blockdisk::Disk;
use spec_image::ErrorCode;
use spec_machine::Reply;
use std::alloc::Global;
use volume::{VersionHandle, Volume};
use words36::BLOCK_WORDS;

/// What a channel reports if a body has no more words.
const END_OF_FILE: u32 = 0o20000;

/// Serves IN: moves words of the version that a channel reads into core: into the next buffer of its ring, or in dump
/// mode into the areas that the command list at an address names. Its row is `read`.
pub fn serve_in<D: Disk>(
    alloc: Global,
    volume: &mut Volume<D>,
    job: &mut Job,
    channel: u32,
    address: u32,
) -> Reply
    requires ready { IsCallReady (D.state volume.old.disk) volume.old.map volume.old.failed job.old }
    ensures serving { ServesAlways D.state volume.old.disk volume.new.disk volume.old.map volume.new.map
        volume.new.failed job.old job.new (In channel address) result }
    ensures layout { volume.new.layout ≡ volume.old.layout }
{
    read(alloc, volume, job, channel, address)
}

/// Returns a channel after `count` words were read from the next block of its input side.
fn read_on(channel: OpenChannel, input: Input, count: usize) -> OpenChannel
    requires fits { input.next + blocks_of count < 2 ^ 32 }
    requires few { count ≤ 0o400000 }
    ensures { result ≡ read_on channel input count }
{
    let blocks = count.div_ceil(BLOCK_WORDS) as u32;
    let input = Input {
        next: input.next + blocks,
        ..input
    };
    OpenChannel {
        status: cleared(channel.status),
        input: Some(input),
        ..channel
    }
}

/// Returns the version that a channel reads: while its output side is open, the one that this side writes; else the one
/// that is pinned for its input side.
fn handle_read(output: Option<Output>, input: &Input) -> VersionHandle
    ensures { result ≡ handle_read output input.now }
{
    match output {
        Some(output) => VersionHandle::Pending(output.pending),
        None => VersionHandle::Pinned(input.pin),
    }
}

/// Serves IN: moves the words of the version that a channel reads, from its next block, into the next buffer of its
/// ring, or in dump mode into the areas of core that the command list at an address names, and moves past them. If the
/// body has no more words, it is stopped.
fn read<D: Disk>(
    alloc: Global,
    volume: &mut Volume<D>,
    job: &mut Job,
    number: u32,
    address: u32,
) -> Reply
    requires sound { IsSoundMemory (D.state volume.old.disk) volume.old.map volume.old.failed }
    // The volume serves, and knows what the job reads.
    requires alive { volume.old.failed ≡ false }
    requires held { (key : ℕ) → times key (pins_of (readers_in (Some job.old)))
        ≤ readers_of (version_at volume.old.map.live key) }
    requires readers { HasReaders job.old }
    // and what it writes.
    requires live { (key : ℕ) → times key (keys_of (sides_in (Some job.old)))
        ≤ present (pending_at volume.old.map.pending key) }

    // The volume, and what the job reads.
    ensures map { volume.new.map ≡ volume.old.map }
    ensures outcome { IsIn (D.state volume.old.disk) (D.state volume.new.disk) volume.old.map job.old
        job.new number address result }
    ensures reads { KeepsReading volume.old.map.live volume.new.map.live job.old job.new }
    // The disk is only read, and the device is blamed if it failed.
    ensures only_reads { (D.state volume.new.disk).honest
        → OnlyReads (D.state volume.old.disk) (D.state volume.new.disk) }
    ensures rests { (D.state volume.new.disk).honest → (files : Files File) → RestsAt (D.state volume.old.disk) files
        → RestsAt (D.state volume.new.disk) files }
    ensures failed { IsTrue volume.new.failed ↔ ((result ≡ Device) ⊎ (result ≡ Failed)) }
    ensures blamed { (D.state volume.new.disk).honest → result ≡ Failed → ⊥ }
    ensures counted { result ≡ Device → (D.state volume.new.disk).failures
        ≡ one_more (D.state volume.old.disk).failures }
    ensures served { (result ≡ Device → ⊥) → (D.state volume.new.disk).failures ≡ (D.state volume.old.disk).failures }
    ensures same { SameDisk (D.state volume.old.disk) (D.state volume.new.disk) }
    // Which answers leave the disk, or the disk and the job, alone.
    ensures idle { IsIdle result → volume.new.disk ≡ volume.old.disk }
    ensures memory { result ≡ NoMemory → (volume.new.disk ≡ volume.old.disk) × (job.new ≡ job.old) }
    ensures layout { volume.new.layout ≡ volume.old.layout }
{
    let Some(channel) = job.channel(number) else {
        return Reply::NoChannel;
    };
    let side = channel.input;
    let Some(input) = side else {
        return Reply::Refused(ErrorCode::Sequence.number());
    };
    if channel.lacks_header(channel.input_header) {
        return Reply::Refused(ErrorCode::Sequence.number());
    }
    let handle = handle_read(channel.output, &input);
    match read_in(
        alloc,
        volume,
        &mut job.core,
        &channel,
        handle,
        input.next,
        address,
    ) {
        ReadIn::Moved(count) => {
            job.set_channel(number, Some(read_on(channel, input, count)));
            Reply::Done
        }
        ReadIn::AtEnd => stop(job, number, channel, END_OF_FILE),
        ReadIn::AddressCheck => Reply::AddressCheck,
        ReadIn::NoMemory => Reply::NoMemory,
        ReadIn::Device => Reply::Device,
        ReadIn::Failed => Reply::Failed,
    }
}
