//! The monitor calls by their operation codes.
ghost use Rattle.std.specs.Prelude.{◌≡◌, ◌<◌, Some, IfSome};
ghost use Rattle.wire.specs.Records.{opcode, channel_named, number_named};
ghost use Rattle.spec_machine.specs.declared.call.Call as calls;

use spec_machine::Call;

/// Returns the call on a channel with this operation code, channel and number, if there is one.
fn channel_call(code: u8, channel: u32, number: u32) -> Option<Call>
    ensures is { IfSome result (λ call. (opcode call ≡ code) × (channel_named call ≡ channel)
        × (number_named call ≡ number)) }
    ensures all { (call : calls.Call) → opcode call ≡ code → channel_named call ≡ channel → number_named call ≡ number
        → 0o47 < code → result ≡ Some call }
{
    match code {
        0o50 => Some(Call::Open(channel, number)),
        0o55 => Some(Call::Rename(channel, number)),
        0o56 => Some(Call::In(channel, number)),
        0o57 => Some(Call::Out(channel, number)),
        0o62 if number == 0 => Some(Call::Getsts(channel)),
        0o64 => Some(Call::Inbuf(channel, number)),
        0o65 => Some(Call::Outbuf(channel, number)),
        0o70 => Some(Call::Close(channel, number)),
        0o71 if number == 0 => Some(Call::Releas(channel)),
        0o74 => Some(Call::Useti(channel, number)),
        0o75 => Some(Call::Useto(channel, number)),
        0o76 => Some(Call::Lookup(channel, number)),
        0o77 => Some(Call::Enter(channel, number)),
        _ => None,
    }
}

/// Returns the call with this operation code, channel and number, if there is one. A part that a call doesn't have is
/// 0.
pub fn call_of(code: u8, channel: u8, number: u32) -> Option<Call>
    ensures is { IfSome result (λ call. (opcode call ≡ code) × (channel_named call ≡ channel)
        × (number_named call ≡ number)) }
    ensures all { (call : calls.Call) → opcode call ≡ code → channel_named call ≡ channel → number_named call ≡ number
        → result ≡ Some call }
{
    match (code, channel) {
        (1, 0) => Some(Call::MakeDir(number)),
        (2, 0) => Some(Call::DeleteDir(number)),
        (3, 0) => Some(Call::Quota(number)),
        (0o47, 0) => (number == 0).then_some(Call::Reset),
        _ => channel_call(code, channel.into(), number),
    }
}
