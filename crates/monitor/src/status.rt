//! The status of a channel, and how calls are stopped or refused.
ghost use Rattle.std.specs.Prelude.{◌≡◌, ◌+◌, ◌<◌, ◌^◌, Some, slice_set};
ghost use Rattle.spec_machine.specs.Common.{cleared, with_right};
ghost use Rattle.spec_image.specs.Common.{number_of};
ghost use Rattle.spec_machine.specs.declared.call.Reply.TheVariants.{Stopped, Refused};

use crate::channel::OpenChannel;
use crate::job::Job;
use crate::open::word_at;
use spec_image::ErrorCode;
use spec_machine::Reply;
use usercore::Core;
use words36::{Half, Word};

/// What a channel reports if a file can't have a block, or has no room for it.
pub const BLOCK_TOO_LARGE: u32 = 0o40000;

/// Returns a status without the five bits that calls report.
pub fn cleared(status: u32) -> u32
    ensures value { result ≡ cleared status }
    ensures few { result < 2 ^ 13 }
{
    status % 0o20000
}

/// Stops a call of a channel, which then reports this bit.
pub fn stop(job: &mut Job, number: u32, channel: OpenChannel, bit: u32) -> Reply
    requires { bit < 2 ^ 18 }
    ensures answered { result ≡ Stopped (cleared channel.status + bit) }
    ensures kept { job.new
        ≡ record job.old {
          channels = slice_set job.old.channels number
              (Some (record channel { status = cleared channel.status + bit }));
        } }
{
    let status = cleared(channel.status) + bit;
    job.set_channel(number, Some(OpenChannel { status, ..channel }));
    Reply::Stopped(status)
}

/// Refuses a call that named a block of words: puts the code into the right half of the second of them.
pub fn refuse(core: &mut Core, address: u32, code: ErrorCode) -> Reply
    requires { address < 0o400000 }
    ensures answered { result ≡ Refused (number_of code) }
    ensures kept { core.new ≡ with_right core.old (address + 1) (number_of code) }
{
    let left = word_at(core, address + 1).left();
    let number = Half::from_bits(code.number());
    let _ = core.set_word(address + 1, Word::from_halves(left, number));
    Reply::Refused(code.number())
}
