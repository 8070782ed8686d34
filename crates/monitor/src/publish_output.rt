//! The publication of what an output side has written.
ghost use Rattle.std.specs.Prelude.{◌≡◌, ◌<◌, ◌≤◌, ◌+◌, ℕ, List, length, Some, None, IsSome, IfOk, IfErr, OnErr};
ghost use Rattle.std.specs.Prelude.{false};
ghost use Rattle.blockdisk.specs.Common.{SameDisk};
ghost use Rattle.spec_machine.specs.Common.{cleared, block_too_large};
ghost use Rattle.spec_machine.specs.declared.call.Reply.TheVariants.{Stopped};
ghost use Rattle.usercore.specs.declared.error.CoreError.TheVariants.{AddressCheck};
ghost use Rattle.volume.specs.Common.{pending_at, IsPlaced};
ghost use Rattle.volume.specs.declared.pending.PendingVersion.{PendingVersion};
ghost use Rattle.monitor.specs.Common.{IsIdle, unpublished_by, last_at, MayPublish, IsPublishing};
ghost use Rattle.words36.specs.declared.word.TheConstants.{BLOCK_WORDS};

use crate::channel::OpenChannel;
use crate::out::is_barred;
use crate::output::Output;
use crate::status::{BLOCK_TOO_LARGE, cleared};
use blockdisk::Disk;
use spec_machine::Reply;
use std::alloc::Global;
use usercore::{Core, CoreError, RingStep};
use volume::{CallError, Volume};
use words36::Word;

/// Returns the words of a channel's last buffer, at most 128, which are put before its output side is published: none
/// in dump mode.
///
/// # Errors
///
/// `AddressCheck` if the buffer isn't valid.
fn last_words<'a>(core: &'a Core, channel: &OpenChannel) -> Result<&'a [Word], CoreError>
    ensures words { IfOk result (λ words. last_at core.now channel.now ≡ Some words.now) }
    ensures few { IfOk result (λ words. length words.now ≤ BLOCK_WORDS) }
    ensures none { OnErr result (last_at core.now channel.now ≡ None) }
    ensures refused { IfErr result (λ error. error ≡ AddressCheck) }
{
    if !channel.is_buffered() {
        return Ok(&[]);
    }
    let area = core.ring_check(RingStep::Close, channel.output_header, channel.bytes())?;
    core.words(area)
}

/// Returns the answer if the last words of a channel find no place.
fn too_large(channel: &OpenChannel) -> Reply
    ensures { result ≡ Stopped (cleared channel.now.status + block_too_large) }
{
    Reply::Stopped(cleared(channel.status) + BLOCK_TOO_LARGE)
}

/// Returns the answer if the volume did not publish what a channel has written.
fn unpublished_by(channel: &OpenChannel, error: CallError) -> Reply
    ensures { result ≡ unpublished_by channel.now error }
{
    match error {
        CallError::Refused(_) => too_large(channel), // it is only for want of room
        CallError::Device => Reply::Device,
        CallError::NoMemory => Reply::NoMemory,
        CallError::Failed => Reply::Failed,
    }
}

/// Publishes what the output side of a channel has written, with the words of its last buffer. If these find no place,
/// or if there is no such buffer as the ring's header says, nothing is touched.
pub fn publish_output<D: Disk>(
    alloc: Global,
    volume: &mut Volume<D>,
    core: &Core,
    channel: &OpenChannel,
    output: Output,
) -> Reply
    requires serves { volume.old.failed ≡ false }
    requires live { IsSome (pending_at volume.old.map.pending output.pending.key) }
    requires starts { 0 < output.next }
    requires placed { (p : PendingVersion) → pending_at volume.old.map.pending output.pending.key ≡ Some p
        → IsPlaced volume.old.map p }
    ensures whatever { (words : List ℕ) → last_at core.now channel.now ≡ Some words
        → MayPublish (D.state volume.old.disk) (D.state volume.new.disk) volume.old.map volume.new.map output words }
    ensures answered { IsPublishing (D.state volume.old.disk) (D.state volume.new.disk) volume.old.map
        volume.new.map volume.old.failed volume.new.failed channel.now output (last_at core.now channel.now) result }
    ensures idle { IsIdle result → (volume.new.disk ≡ volume.old.disk) × (volume.new.map ≡ volume.old.map)
        × (volume.new.failed ≡ volume.old.failed) }
    ensures same { SameDisk (D.state volume.old.disk) (D.state volume.new.disk) }
    ensures layout { volume.new.layout ≡ volume.old.layout }
{
    let Ok(words) = last_words(core, channel) else {
        return Reply::AddressCheck; // the only error
    };
    if is_barred(volume, output, words.len()) {
        return too_large(channel);
    }
    match volume.publish(alloc, output.pending, output.next, words) {
        Ok(()) => Reply::Done,
        Err(error) => unpublished_by(channel, error),
    }
}
