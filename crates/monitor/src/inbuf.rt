//! The call INBUF.
ghost use Rattle.std.specs.Prelude.{◌≡◌, ℕ, List, Option};
ghost use Rattle.spec_machine.specs.declared.call.Call.TheVariants.{Inbuf};
ghost use Rattle.spec_machine.specs.declared.call.Reply.TheVariants.{NoMemory, Failed, Device, Refused};
ghost use Rattle.volume.specs.declared.live.LiveVersion.{LiveVersion};
ghost use Rattle.volume.specs.declared.pending.PendingVersion.{PendingVersion};
ghost use Rattle.monitor.specs.Common.{IsDecided, IsRow, KeepsSides, KeepsReading};

use crate::job::Job;
use crate::ring::set_up_ring;
use spec_machine::Reply;

/// Serves INBUF: sets up a ring of `count` buffers, where 0 means 2, for what a channel reads.
pub fn inbuf(job: &mut Job, number: u32, count: u32) -> Reply
    ensures row { IsRow job.old job.new (Inbuf number count) result }
    ensures keeps { (pending : List (Option PendingVersion)) → KeepsSides pending pending job.old job.new }
    ensures reads { (live : List (Option LiveVersion)) → KeepsReading live live job.old job.new }
    ensures only { (result ≡ Failed → ⊥) × (result ≡ Device → ⊥) × (result ≡ NoMemory → ⊥) }
    ensures refused { (code : ℕ) → result ≡ Refused code → job.new ≡ job.old }
    ensures decided { IsDecided result → job.new ≡ job.old }
{
    let Some(channel) = job.channel(number) else {
        return Reply::NoChannel;
    };
    let header = channel.input_header;
    set_up_ring(job, number, channel, header, count)
}
