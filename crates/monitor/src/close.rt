//! The call CLOSE, and how it publishes what a channel has written.
ghost use Rattle.std.specs.Prelude.{if◌then◌else◌, IfSome, ◌≡◌, ◌≤◌, ℕ, Some, None, true, false, ◌&&◌, not, is_some};
ghost use Rattle.spec_machine.specs.Common.{keeps_input, discards, slot};
ghost use Rattle.spec_image.specs.Common.{times};
ghost use Rattle.spec_machine.specs.declared.call.Call.TheVariants.{Close};
ghost use Rattle.spec_machine.specs.declared.call.Reply.TheVariants.{NoMemory, Device, Failed, Refused, Done};
ghost use Rattle.volume.specs.Common.{MemoryMap, pending_at, slot as version_at};
ghost use Rattle.monitor.specs.Common.{both_closed, rings_closed, closed_in, left_open, OnlyDrops, IsIdle, IsDecided};
ghost use Rattle.monitor.specs.Common.{IsCallReady, ServesAlways, last_at, PublishesBy, readers_of, LetsGo};
ghost use Rattle.monitor.specs.Common.{HoldsPublished, IsRow, KeepsSides, KeepsReading, publishes_at, ClosesSide};
ghost use Rattle.monitor.specs.Common.{present, sides_in, keys_of, readers_in, pins_of};

use crate::channel::OpenChannel;
use crate::close_job::{drop_output, release_input};
use crate::hold::renew;
use crate::input::Input;
use crate::job::Job;
use crate::output::Output;
use crate::publish_output::publish_output;
use crate::status::cleared;
use crate::update::prime_of;
use blockdisk::Disk;
use spec_machine::Reply;
use std::alloc::Global;
use usercore::Core;
use volume::Volume;

/// Serves CLOSE: without bit 1 the output side closes, and becomes the file of its name, or with bit 40 (octal) is
/// dropped; without bit 2 the input side closes, and with it the input side pins the version that is published. If it
/// publishes it is `close_both` or `close_and_hold`, else `close`.
pub fn serve_close<D: Disk>(
    alloc: Global,
    volume: &mut Volume<D>,
    job: &mut Job,
    channel: u32,
    bits: u32,
) -> Reply
    requires ready { IsCallReady (D.state volume.old.disk) volume.old.map volume.old.failed job.old }
    ensures serving { ServesAlways D.state volume.old.disk volume.new.disk volume.old.map volume.new.map
        volume.new.failed job.old job.new (Close channel bits) result }
    ensures layout { volume.new.layout ≡ volume.old.layout }
{
    let Some((open, output)) = closed_side(job, channel, bits) else {
        return close(volume, job, channel, bits);
    };
    match input_kept(&open, bits) {
        Some(input) => close_and_hold(alloc, volume, job, channel, open, output, input),
        None => close_both(alloc, volume, job, channel, open, output, true),
    }
}

/// Returns the input side that a CLOSE of a channel with these bits leaves open.
fn input_kept(channel: &OpenChannel, bits: u32) -> Option<Input>
    ensures { result ≡ (if keeps_input bits then channel.now.input else None) }
{
    if bits / 2 % 2 == 1 {
        channel.input
    } else {
        None
    }
}

/// Returns the channel and its output side, if a CLOSE of it with these bits publishes that.
pub fn closed_side(job: &Job, number: u32, bits: u32) -> Option<(OpenChannel, Output)>
    ensures none { result ≡ None → publishes_at (slot job.now.channels number) bits ≡ false }
    ensures some { IfSome result (λ closed. ClosesSide job.now number bits closed.0 closed.1) }
{
    let open = job.channel(number)?;
    let output = open.output?;
    let stays_open = bits % 2 == 1;
    let discards = bits / 0o40 % 2 == 1;
    if stays_open || discards {
        return None;
    }
    Some((open, output))
}

/// Splits a side into what stays open of it and what closes.
fn parted<T>(side: Option<T>, keeps: bool) -> (Option<T>, Option<T>)
    ensures kept { result.0 ≡ (if keeps then side else None) }
    ensures closed { result.1 ≡ (if keeps then None else side) }
{
    if keeps { (side, None) } else { (None, side) }
}

/// Returns the address of a ring's header if its side closes, else 0, which names none.
fn header_if(closes: bool, header: u32) -> u32
    ensures { result ≡ (if closes then header else 0) }
{
    if closes { header } else { 0 }
}

/// Returns whether a CLOSE with these bits marks the ring of the input side that it closes, if any.
fn ends_ring(released: &Option<Input>, bits: u32) -> bool
    ensures { result ≡ (is_some released.now && not (discards bits)) }
{
    let discards = bits / 0o40 % 2 == 1;
    released.is_some() && !discards
}

/// Marks the headers of those of a channel's rings whose sides close. In dump mode there is no ring.
pub fn close_rings(core: &mut Core, channel: &OpenChannel, closes_output: bool, closes_input: bool)
    ensures { core.new ≡ rings_closed core.old channel.now closes_output closes_input }
{
    if channel.is_buffered() {
        let output = header_if(closes_output, channel.output_header);
        let input = header_if(closes_input, channel.input_header);
        core.ring_close(output, input);
    }
}

/// Leaves the channel of a CLOSE or RELEAS that isn't done open; if the call is stopped, the channel gets the status
/// that reports this.
pub fn leave_open(job: &mut Job, number: u32, channel: OpenChannel, reply: Reply)
    ensures { job.new ≡ left_open job.old number channel reply }
{
    if let Reply::Stopped(status) = reply {
        job.set_channel(number, Some(OpenChannel { status, ..channel }));
    }
}

/// Serves a CLOSE that publishes nothing: without bit 1 the output side closes, and what it has written, if anything,
/// is dropped; without bit 2 the input side closes, and what it reads is unpinned. Bit 40 (octal) leaves the rings
/// alone.
fn close<D: Disk>(volume: &mut Volume<D>, job: &mut Job, number: u32, bits: u32) -> Reply
    requires live { (key : ℕ) → times key (keys_of (sides_in (Some job.old)))
        ≤ present (pending_at volume.old.map.pending key) }
    requires held { (key : ℕ) → times key (pins_of (readers_in (Some job.old)))
        ≤ readers_of (version_at volume.old.map.live key) }
    requires unpublished { publishes_at (slot job.old.channels number) bits ≡ false }
    ensures untouched { (volume.new.disk ≡ volume.old.disk) × (volume.new.failed ≡ volume.old.failed) }
    ensures layout { volume.new.layout ≡ volume.old.layout }
    ensures row { IsRow job.old job.new (Close number bits) result }
    ensures keeps { KeepsSides volume.old.map.pending volume.new.map.pending job.old job.new }
    ensures reads { KeepsReading volume.old.map.live volume.new.map.live job.old job.new }
    ensures leaves { OnlyDrops volume.old.map volume.new.map }
    ensures only { (result ≡ Failed → ⊥) × (result ≡ Device → ⊥) × (result ≡ NoMemory → ⊥) }
    ensures refused { (code : ℕ) → result ≡ Refused code → ⊥ }
    ensures decided { IsDecided result → (volume.new.map ≡ volume.old.map) × (job.new ≡ job.old) }
{
    let Some(channel) = job.channel(number) else {
        return Reply::NoChannel;
    };
    let (output, dropped) = parted(channel.output, bits % 2 == 1);
    let (input, released) = parted(channel.input, bits / 2 % 2 == 1);
    let ends = ends_ring(&released, bits);
    drop_output(volume, dropped);
    release_input(volume, released);
    close_rings(&mut job.core, &channel, false, ends);
    let closed = OpenChannel {
        status: cleared(channel.status),
        input,
        output,
        ..channel
    };
    job.set_channel(number, Some(closed));
    Reply::Done
}

/// Returns what is left of a channel whose sides both close: the channel without them, if it stays open.
fn channel_left(channel: OpenChannel, stays_open: bool) -> Option<OpenChannel>
    ensures { result ≡ (if stays_open then Some (both_closed channel) else None) }
{
    if stays_open {
        Some(OpenChannel {
            status: cleared(channel.status),
            input: None,
            output: None,
            ..channel
        })
    } else {
        None
    }
}

/// Publishes what a channel has written, and closes both its sides and their rings. With RELEAS the channel closes too;
/// with CLOSE it stays open. If that isn't done, the job stays as it is, except for the status of a call that is
/// stopped.
pub fn close_both<D: Disk>(
    alloc: Global,
    volume: &mut Volume<D>,
    job: &mut Job,
    number: u32,
    channel: OpenChannel,
    output: Output,
    stays_open: bool,
) -> Reply
    requires ready { IsCallReady (D.state volume.old.disk) volume.old.map volume.old.failed job.old }
    requires there { slot job.old.channels number ≡ Some channel }
    requires side { channel.output ≡ Some output }
    // The volume, whatever the answer: it publishes, and then it unpins what the channel reads.
    ensures published { (between : MemoryMap) × PublishesBy (D.state volume.old.disk) (D.state volume.new.disk)
        volume.old.map between volume.old.failed volume.new.failed channel output (last_at job.old.core channel)
        result × (result ≡ Done → LetsGo between volume.new.map channel.input) }
    ensures idle { IsIdle result → (volume.new.disk ≡ volume.old.disk) × (volume.new.map ≡ volume.old.map)
        × (volume.new.failed ≡ volume.old.failed) }
    // The job: the sides and their rings close if it is done.
    ensures closed { result ≡ Done → job.new ≡ closed_in job.old number channel true (is_some channel.input)
        (if stays_open then Some (both_closed channel) else None) }
    ensures kept { (result ≡ Done → ⊥) → job.new ≡ left_open job.old number channel result }
    ensures layout { volume.new.layout ≡ volume.old.layout }
{
    let reply = publish_output(alloc, volume, &job.core, &channel, output);
    if reply == Reply::Done {
        release_input(volume, channel.input);
        close_rings(&mut job.core, &channel, true, channel.input.is_some());
        job.set_channel(number, channel_left(channel, stays_open));
    } else {
        leave_open(job, number, channel, reply);
    }
    reply
}

/// Serves a CLOSE of a channel with both sides, with neither bit 1 nor bit 40 (octal), that leaves the input side open:
/// publishes what the channel has written, and closes the output side and its ring; the input side then pins the
/// version that is published. If that isn't done, both stay as they are.
fn close_and_hold<D: Disk>(
    alloc: Global,
    volume: &mut Volume<D>,
    job: &mut Job,
    number: u32,
    channel: OpenChannel,
    output: Output,
    input: Input,
) -> Reply
    requires ready { IsCallReady (D.state volume.old.disk) volume.old.map volume.old.failed job.old }
    requires there { slot job.old.channels number ≡ Some channel }
    requires side { channel.output ≡ Some output }
    requires reads { channel.input ≡ Some input }
    // The volume, whatever the answer: it publishes. The job, if it is done: the output side and its ring close, and
    // the input side pins what is published.
    ensures published { (between : MemoryMap) × PublishesBy (D.state volume.old.disk) (D.state volume.new.disk)
        volume.old.map between volume.old.failed volume.new.failed channel output (last_at job.old.core channel)
        result × (result ≡ Done → HoldsPublished (D.state volume.new.disk) volume.old.map between volume.new.map
        output.pending.key job.old job.new number channel input) }
    ensures idle { IsIdle result → (volume.new.disk ≡ volume.old.disk) × (volume.new.map ≡ volume.old.map)
        × (volume.new.failed ≡ volume.old.failed) }
    ensures kept { (result ≡ Done → ⊥) → job.new ≡ left_open job.old number channel result }
    ensures layout { volume.new.layout ≡ volume.old.layout }
{
    let prime = prime_of(volume, output.pending);
    let reply = publish_output(alloc, volume, &job.core, &channel, output);
    if reply == Reply::Done {
        let _failed = volume.has_failed(); // its contract states what holds of a volume between two calls
        let renewed = renew(volume, input, prime.ppn, prime.file, prime.protection);
        close_rings(&mut job.core, &channel, true, false);
        let closed = OpenChannel {
            status: cleared(channel.status),
            input: Some(renewed),
            output: None,
            ..channel
        };
        job.set_channel(number, Some(closed));
    } else {
        leave_open(job, number, channel, reply);
    }
    reply
}
