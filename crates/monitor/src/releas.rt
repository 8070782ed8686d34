//! The call RELEAS.
ghost use Rattle.std.specs.Prelude.{◌≡◌, ◌≤◌, ℕ, Some, false};
ghost use Rattle.spec_machine.specs.Common.{slot};
ghost use Rattle.spec_image.specs.Common.{times};
ghost use Rattle.spec_machine.specs.declared.call.Call.TheVariants.{Releas};
ghost use Rattle.spec_machine.specs.declared.call.Reply.TheVariants.{NoMemory, Device, Failed, Refused};
ghost use Rattle.volume.specs.Common.{slot as version_at};
ghost use Rattle.monitor.specs.Common.{OnlyDrops, IsDecided, IsCallReady, ServesAlways, readers_of, IsRow};
ghost use Rattle.monitor.specs.Common.{KeepsSides, KeepsReading, publishes_at, readers_in, pins_of};

use crate::close::{close_both, close_rings, closed_side};
use crate::close_job::release_input;
use crate::job::Job;
use blockdisk::Disk;
use spec_machine::Reply;
use std::alloc::Global;
use volume::Volume;

/// Serves RELEAS: closes both sides of a channel, as CLOSE without bits does, and the channel. If it publishes it is
/// `close_both`, else `release`.
pub fn serve_release<D: Disk>(
    alloc: Global,
    volume: &mut Volume<D>,
    job: &mut Job,
    channel: u32,
) -> Reply
    requires ready { IsCallReady (D.state volume.old.disk) volume.old.map volume.old.failed job.old }
    ensures serving { ServesAlways D.state volume.old.disk volume.new.disk volume.old.map volume.new.map
        volume.new.failed job.old job.new (Releas channel) result }
    ensures layout { volume.new.layout ≡ volume.old.layout }
{
    match closed_side(job, channel, 0) {
        Some((open, output)) => close_both(alloc, volume, job, channel, open, output, false),
        None => release(volume, job, channel),
    }
}

/// Serves a RELEAS of a channel without an output side: unpins what it reads, and closes the channel with its ring.
fn release<D: Disk>(volume: &mut Volume<D>, job: &mut Job, number: u32) -> Reply
    requires held { (key : ℕ) → times key (pins_of (readers_in (Some job.old)))
        ≤ readers_of (version_at volume.old.map.live key) }
    requires unpublished { publishes_at (slot job.old.channels number) 0 ≡ false }
    ensures untouched { (volume.new.disk ≡ volume.old.disk) × (volume.new.failed ≡ volume.old.failed) }
    ensures layout { volume.new.layout ≡ volume.old.layout }
    ensures row { IsRow job.old job.new (Releas number) result }
    ensures keeps { KeepsSides volume.old.map.pending volume.new.map.pending job.old job.new }
    ensures reads { KeepsReading volume.old.map.live volume.new.map.live job.old job.new }
    ensures leaves { OnlyDrops volume.old.map volume.new.map }
    ensures only { (result ≡ Failed → ⊥) × (result ≡ Device → ⊥) × (result ≡ NoMemory → ⊥) }
    ensures refused { (code : ℕ) → result ≡ Refused code → ⊥ }
    ensures decided { IsDecided result → (volume.new.map ≡ volume.old.map) × (job.new ≡ job.old) }
{
    let Some(channel) = job.channel(number) else {
        return Reply::NoChannel;
    };
    release_input(volume, channel.input); // if it reads
    close_rings(&mut job.core, &channel, false, channel.input.is_some());
    job.set_channel(number, None);
    Reply::Done
}
