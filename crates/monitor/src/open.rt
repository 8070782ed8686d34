//! The call OPEN, and the words of a core that calls name.
ghost use Rattle.std.specs.Prelude.{◌≡◌, ◌<◌, ◌≤◌, ◌+◌, ◌^◌, ℕ, true, false, List, Option, None, IfSome, slice_index};
ghost use Rattle.spec_machine.specs.Common.{lies_outside, mode_at, output_header_at, input_header_at, misses_header};
ghost use Rattle.spec_machine.specs.Common.{misses_headers, is_buffered};
ghost use Rattle.spec_machine.specs.declared.call.Call.TheVariants.{Open};
ghost use Rattle.spec_machine.specs.declared.call.Reply.TheVariants.{NoMemory, Failed, Device, Refused};
ghost use Rattle.volume.specs.declared.live.LiveVersion.{LiveVersion};
ghost use Rattle.volume.specs.declared.pending.PendingVersion.{PendingVersion};
ghost use Rattle.retrieval.specs.Common.{mode_number};
ghost use Rattle.monitor.specs.Common.{IsDecided, IsRow, KeepsSides, KeepsReading, improper_at, opened_at};
ghost use Rattle.monitor.specs.Common.{rings_opened};

use crate::channel::OpenChannel;
use crate::job::{CHANNELS, Job};
use retrieval::Mode;
use spec_image::ErrorCode;
use spec_machine::Reply;
use usercore::Core;
use words36::Word;

/// DSK, in SIXBIT.
const DISK: u64 = 0o446353000000;

/// What OPEN reports if there is no such device or no such mode.
const IMPROPER_MODE: u32 = 0o400000;

/// Returns whether not all of `count` words from an address are in a core.
pub fn lies_outside(core: &Core, address: u32, count: usize) -> bool
    requires { count < 2 ^ 32 }
    ensures value { result ≡ lies_outside core.now address count }
    ensures few { result ≡ false → address + count ≤ 0o400000 }
{
    core.length() < address as usize + count
}

/// Returns the word at an address, 0 outside the core.
pub fn word_at(core: &Core, address: u32) -> Word
    ensures value { result ≡ slice_index core.now address }
    ensures fits { result < 2 ^ 36 }
{
    core.word(address).unwrap_or(Word::ZERO)
}

/// Returns the mode that the words at an address ask for.
fn mode_at(core: &Core, address: u32) -> u32
    ensures value { result ≡ mode_at core.now address }
    ensures few { result < 16 }
{
    (word_at(core, address).bits() % 16) as u32
}

/// Returns whether a mode has buffers.
fn is_buffered(mode: u32) -> bool
    ensures { result ≡ is_buffered mode }
{
    mode <= 1 || mode == 0o10 || mode == 0o13 || mode == 0o14
}

/// Returns the addresses of the headers of both rings that the words at an address name, the output's first.
fn headers_at(core: &Core, address: u32) -> (u32, u32)
    requires { address + 3 ≤ 0o400000 }
    ensures { (result.0 ≡ output_header_at core.now address) × (result.1 ≡ input_header_at core.now address) }
{
    let headers = word_at(core, address + 2);
    (headers.left().bits(), headers.right().bits())
}

/// Returns whether a header that is asked for isn't in the core.
fn misses_header(core: &Core, header: u32) -> bool
    ensures { result ≡ misses_header core.now header }
{
    header != 0 && lies_outside(core, header, 3)
}

/// Returns whether a ring's header that the words at an address ask for isn't in the core.
fn misses_headers(core: &Core, address: u32) -> bool
    requires { address + 3 ≤ 0o400000 }
    ensures { result ≡ misses_headers core.now address }
{
    let (output, input) = headers_at(core, address);
    is_buffered(mode_at(core, address))
        && (misses_header(core, output) || misses_header(core, input))
}

/// Returns the mode in which the words at an address open the disk; none if they name another device, or there is no
/// such mode.
fn proper_mode(core: &Core, address: u32) -> Option<Mode>
    requires { address + 3 ≤ 0o400000 }
    ensures some { IfSome result (λ mode. (improper_at core.now address ≡ false)
        × (mode_number mode ≡ mode_at core.now address)) }
    ensures none { result ≡ None → improper_at core.now address ≡ true }
{
    if word_at(core, address + 1).bits() != DISK {
        return None;
    }
    Mode::from_number(u64::from(mode_at(core, address)))
}

/// Returns the channel that the words at an address open in a mode.
fn opened(core: &Core, address: u32, mode: Mode) -> OpenChannel
    requires { address + 3 ≤ 0o400000 }
    ensures { result ≡ opened_at mode core.now address }
{
    let (output_header, input_header) = headers_at(core, address);
    OpenChannel {
        mode,
        input_header,
        output_header,
        status: mode_at(core, address),
        input: None,
        output: None,
    }
}

/// Writes the first words of the headers of the rings of a channel that is opened.
fn open_rings(core: &mut Core, channel: &OpenChannel)
    ensures { core.new ≡ rings_opened core.old channel.now }
{
    if channel.is_buffered() {
        core.ring_open(channel.output_header, channel.input_header, channel.bytes());
    }
}

/// Serves OPEN: opens a channel, 0 to 15, by the three words at an address: the mode in the low four bits, the device,
/// and the addresses of the headers of the two rings, whose first words are written in a mode with buffers.
pub fn open(job: &mut Job, number: u32, address: u32) -> Reply
    ensures row { IsRow job.old job.new (Open number address) result }
    ensures keeps { (pending : List (Option PendingVersion)) → KeepsSides pending pending job.old job.new }
    ensures reads { (live : List (Option LiveVersion)) → KeepsReading live live job.old job.new }
    ensures only { (result ≡ Failed → ⊥) × (result ≡ Device → ⊥) × (result ≡ NoMemory → ⊥) }
    ensures refused { (code : ℕ) → result ≡ Refused code → job.new ≡ job.old }
    ensures decided { IsDecided result → job.new ≡ job.old }
{
    if number as usize >= CHANNELS {
        return Reply::NoChannel;
    }
    if lies_outside(&job.core, address, 3) {
        return Reply::AddressCheck;
    }
    if misses_headers(&job.core, address) {
        return Reply::AddressCheck;
    }
    if job.channel(number).is_some() {
        return Reply::Refused(ErrorCode::Sequence.number());
    }
    let Some(mode) = proper_mode(&job.core, address) else {
        return Reply::Stopped(IMPROPER_MODE + mode_at(&job.core, address));
    };
    let channel = opened(&job.core, address, mode);
    open_rings(&mut job.core, &channel);
    job.set_channel(number, Some(channel));
    Reply::Done
}
