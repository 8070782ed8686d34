//! The call USETI.
ghost use Rattle.std.specs.Prelude.{◌≡◌, List, Option, ℕ};
ghost use Rattle.spec_machine.specs.declared.call.Call.TheVariants.{Useti};
ghost use Rattle.spec_machine.specs.declared.call.Reply.TheVariants.{NoMemory, Failed, Device, Refused};
ghost use Rattle.volume.specs.declared.live.LiveVersion.{LiveVersion};
ghost use Rattle.volume.specs.declared.pending.PendingVersion.{PendingVersion};
ghost use Rattle.monitor.specs.Common.{IsDecided, IsRow, KeepsSides, KeepsReading};

use crate::channel::OpenChannel;
use crate::input::Input;
use crate::job::Job;
use crate::status::{BLOCK_TOO_LARGE, cleared, stop};
use spec_image::ErrorCode;
use spec_machine::Reply;

/// Returns the input side of a channel.
fn input_side(channel: &OpenChannel) -> Option<Input>
    ensures { result ≡ channel.now.input }
{
    channel.input
}

/// Serves USETI: names the block that a channel reads next, counted from 1.
pub fn useti(job: &mut Job, number: u32, block: u32) -> Reply
    ensures row { IsRow job.old job.new (Useti number block) result }
    ensures keeps { (pending : List (Option PendingVersion)) → KeepsSides pending pending job.old job.new }
    ensures reads { (live : List (Option LiveVersion)) → KeepsReading live live job.old job.new }
    ensures only { (result ≡ Failed → ⊥) × (result ≡ Device → ⊥) × (result ≡ NoMemory → ⊥) }
    ensures refused { (code : ℕ) → result ≡ Refused code → job.new ≡ job.old }
    ensures decided { IsDecided result → job.new ≡ job.old }
{
    let Some(channel) = job.channel(number) else {
        return Reply::NoChannel;
    };
    let Some(input) = input_side(&channel) else {
        return Reply::Refused(ErrorCode::Sequence.number());
    };
    if block == 0 {
        return stop(job, number, channel, BLOCK_TOO_LARGE);
    }
    let input = Input {
        next: block,
        ..input
    };
    let moved = OpenChannel {
        status: cleared(channel.status),
        input: Some(input),
        ..channel
    };
    job.set_channel(number, Some(moved));
    Reply::Done
}
