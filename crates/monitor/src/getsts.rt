//! The call GETSTS.
ghost use Rattle.std.specs.Prelude.{◌≡◌, ℕ};
ghost use Rattle.spec_machine.specs.declared.call.Call.TheVariants.{Getsts};
ghost use Rattle.spec_machine.specs.declared.call.Reply.TheVariants.{NoMemory, Failed, Device, Refused};
ghost use Rattle.monitor.specs.Common.{IsRow};

use crate::job::Job;
use spec_machine::Reply;
use words36::Word;

/// Serves GETSTS: returns what the last call of a channel reported, and its mode.
pub fn getsts(job: &Job, number: u32) -> Reply
    ensures row { IsRow job.now job.now (Getsts number) result }
    ensures only { (result ≡ Failed → ⊥) × (result ≡ Device → ⊥) × (result ≡ NoMemory → ⊥) }
    ensures refused { (code : ℕ) → result ≡ Refused code → ⊥ }
{
    let Some(channel) = job.channel(number) else {
        return Reply::NoChannel;
    };
    Reply::Value(Word::from_bits(u64::from(channel.status)))
}
