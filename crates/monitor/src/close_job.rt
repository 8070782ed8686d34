//! How sides close without publishing: versions are dropped and unpinned.
ghost use Rattle.std.specs.Prelude.{◌≡◌, ◌≤◌, ℕ, [], filter_map, option_to_list};
ghost use Rattle.spec_machine.specs.Common.{slot};
ghost use Rattle.spec_image.specs.Common.{times};
ghost use Rattle.volume.specs.Common.{pending_at, slot as version_at};
ghost use Rattle.monitor.specs.Common.{Closes, readers_of, present, AreKeyed, AreReading, side_of, sides_in, keys_of};
ghost use Rattle.monitor.specs.Common.{reader_of, readers_in, pins_of};

use crate::channel::OpenChannel;
use crate::input::Input;
use crate::job::Jobs;
use crate::output::Output;
use blockdisk::Disk;
use volume::Volume;

/// Returns the output side of a channel.
fn side_of(channel: &Option<OpenChannel>) -> Option<Output>
    ensures { result ≡ side_of channel.now }
{
    match channel {
        Some(channel) => channel.output,
        None => None,
    }
}

/// Returns the input side of a channel.
fn reader_of(channel: &Option<OpenChannel>) -> Option<Input>
    ensures { result ≡ reader_of channel.now }
{
    match channel {
        Some(channel) => channel.input,
        None => None,
    }
}

/// Drops what an output side has written.
pub fn drop_output<D: Disk>(volume: &mut Volume<D>, output: Option<Output>)
    requires live { (key : ℕ) → times key (keys_of (option_to_list output))
        ≤ present (pending_at volume.old.map.pending key) }
    ensures closed { Closes volume.old.map volume.new.map (keys_of (option_to_list output)) [] }
    ensures untouched { (volume.new.disk ≡ volume.old.disk) × (volume.new.failed ≡ volume.old.failed) }
    ensures layout { volume.new.layout ≡ volume.old.layout }
{
    if let Some(output) = output {
        volume.discard(output.pending);
    }
}

/// Unpins the version that an input side reads.
pub fn release_input<D: Disk>(volume: &mut Volume<D>, input: Option<Input>)
    requires held { (key : ℕ) → times key (pins_of (option_to_list input))
        ≤ readers_of (version_at volume.old.map.live key) }
    ensures closed { Closes volume.old.map volume.new.map [] (pins_of (option_to_list input)) }
    ensures pending { volume.new.map.pending ≡ volume.old.map.pending }
    ensures untouched { (volume.new.disk ≡ volume.old.disk) × (volume.new.failed ≡ volume.old.failed) }
    ensures layout { volume.new.layout ≡ volume.old.layout }
{
    if let Some(input) = input {
        volume.unpin(input.pin);
    }
}

/// Closes both sides of a channel: drops what it has written, and unpins what it reads.
fn close_sides<D: Disk>(volume: &mut Volume<D>, channel: &Option<OpenChannel>)
    requires live { (key : ℕ) → times key (keys_of (option_to_list (side_of channel.now)))
        ≤ present (pending_at volume.old.map.pending key) }
    requires held { (key : ℕ) → times key (pins_of (option_to_list (reader_of channel.now)))
        ≤ readers_of (version_at volume.old.map.live key) }
    ensures closed { Closes volume.old.map volume.new.map (keys_of (option_to_list (side_of channel.now)))
        (pins_of (option_to_list (reader_of channel.now))) }
    ensures untouched { (volume.new.disk ≡ volume.old.disk) × (volume.new.failed ≡ volume.old.failed) }
    ensures layout { volume.new.layout ≡ volume.old.layout }
{
    drop_output(volume, side_of(channel));
    release_input(volume, reader_of(channel));
}

/// Closes the sides of all channels.
pub fn close_channels<D: Disk>(volume: &mut Volume<D>, channels: &[Option<OpenChannel>])
    requires live { (key : ℕ) → times key (keys_of (filter_map side_of channels.now))
        ≤ present (pending_at volume.old.map.pending key) }
    requires held { (key : ℕ) → times key (pins_of (filter_map reader_of channels.now))
        ≤ readers_of (version_at volume.old.map.live key) }
    ensures closed { Closes volume.old.map volume.new.map (keys_of (filter_map side_of channels.now))
        (pins_of (filter_map reader_of channels.now)) }
    ensures untouched { (volume.new.disk ≡ volume.old.disk) × (volume.new.failed ≡ volume.old.failed) }
    ensures layout { volume.new.layout ≡ volume.old.layout }
{
    for channel in channels {
        close_sides(volume, channel);
    }
}

/// Closes the sides of all channels of the job of a number, if there is one.
pub fn close_job<D: Disk>(volume: &mut Volume<D>, jobs: &Jobs, number: u32)
    requires keyed { AreKeyed volume.old.map.pending jobs.now }
    requires reading { AreReading volume.old.map.live jobs.now }
    ensures closed { Closes volume.old.map volume.new.map (keys_of (sides_in (slot jobs.now number)))
        (pins_of (readers_in (slot jobs.now number))) }
    ensures untouched { (volume.new.disk ≡ volume.old.disk) × (volume.new.failed ≡ volume.old.failed) }
    ensures layout { volume.new.layout ≡ volume.old.layout }
{
    if let Some(job) = jobs.job(number) {
        close_channels(volume, &job.channels);
    }
}
