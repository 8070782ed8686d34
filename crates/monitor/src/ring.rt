//! How a ring of buffers is set up.
ghost use Rattle.std.specs.Prelude.{◌≡◌, ℕ, List, Option, Some};
ghost use Rattle.spec_machine.specs.Common.{slot, sets_up};
ghost use Rattle.spec_machine.specs.declared.call.Reply.TheVariants.{NoMemory, Failed, Device, Refused};
ghost use Rattle.volume.specs.declared.live.LiveVersion.{LiveVersion};
ghost use Rattle.volume.specs.declared.pending.PendingVersion.{PendingVersion};
ghost use Rattle.monitor.specs.Common.{IsDecided, KeepsSides, KeepsReading, UnderKeys, channel_of, job_of};

use crate::channel::OpenChannel;
use crate::job::Job;
use crate::status::cleared;
use spec_image::ErrorCode;
use spec_machine::Reply;

/// Sets up a ring of `count` buffers, where 0 means 2, with the header at an address, for a channel of a job.
pub fn set_up_ring(
    job: &mut Job,
    number: u32,
    channel: OpenChannel,
    header: u32,
    count: u32,
) -> Reply
    requires there { slot job.old.channels number ≡ Some channel }
    ensures row { (under : UnderKeys) → sets_up (job_of under job.old) number (channel_of under channel) header count
        ≡ (result, job_of under job.new) }
    ensures keeps { (pending : List (Option PendingVersion)) → KeepsSides pending pending job.old job.new }
    ensures reads { (live : List (Option LiveVersion)) → KeepsReading live live job.old job.new }
    ensures only { (result ≡ Failed → ⊥) × (result ≡ Device → ⊥) × (result ≡ NoMemory → ⊥) }
    ensures refused { (code : ℕ) → result ≡ Refused code → job.new ≡ job.old }
    ensures decided { IsDecided result → job.new ≡ job.old }
{
    if !channel.is_buffered() || header == 0 {
        return Reply::Refused(ErrorCode::Sequence.number());
    }
    if job.core.ring_setup(header, channel.bytes(), count).is_err() {
        return Reply::AddressCheck;
    }
    let status = cleared(channel.status);
    job.set_channel(number, Some(OpenChannel { status, ..channel }));
    Reply::Done
}
