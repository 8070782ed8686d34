//! The words of core that an answer reports.
ghost use Rattle.std.specs.Prelude.{◌≡◌, ◌+◌, ◌^◌, ◌<◌, ◌≤◌, ◌++◌, ◌∷◌, [], length, IfSome, IfNone, vec_len};
ghost use Rattle.std.specs.Prelude.{vec_capacity};
ghost use Rattle.std.specs.List.{AllByRecursion, range_with_len};
ghost use Rattle.spec_machine.specs.declared.call.Reply.TheVariants.{Done};
ghost use Rattle.exchange.specs.Turns.{addresses, group};
ghost use Rattle.exchange.specs.Exchanges.{HasRead, IsLow};

use commands::FileService;
use spec_machine::{Event, Reply};
use std::alloc::Global;
use usercore::CoreArea;
use words36::Word;

/// Returns the number whose eight bytes report a word at its address.
fn group_of(address: u32, word: Word) -> u64
    requires { address < 2 ^ 18 }
    ensures { result ≡ group (address, word) }
{
    u64::from(address) * 0x10_0000_0000 + word.bits()
}

/// Appends a group, for which there is room.
fn put(groups: &mut Vec<u64>, group: u64)
    requires { vec_len groups.old < vec_capacity groups.old }
    ensures items { groups.new.items ≡ groups.old.items ++ group ∷ [] }
    ensures capacity { vec_capacity groups.old ≤ vec_capacity groups.new }
{
    let Ok(()) = groups.push(group) else {
        unreachable!()
    };
}

/// Reads a word of a job's core, and reports it with its address. Returns the reply if it isn't a word.
fn push_word<S: FileService>(
    alloc: Global,
    service: &mut S,
    job: u8,
    address: u32,
    groups: &mut Vec<u64>,
) -> Option<Reply>
    requires room { vec_len groups.old < vec_capacity groups.old }
    requires inside { address < 2 ^ 18 }
    ensures told { IfNone result (HasRead S.machine service.old service.new job (address ∷ []) groups.old.items
        groups.new.items Done) }
    ensures untold { IfSome result (HasRead S.machine service.old service.new job (address ∷ []) groups.old.items
        groups.new.items) }
    ensures all { IfNone result (vec_len groups.new ≡ vec_len groups.old + 1) }
    ensures stopped { IfSome result (λ reply. groups.new.items ≡ groups.old.items) }
    ensures capacity { vec_capacity groups.old ≤ vec_capacity groups.new }
{
    match service.event(alloc, &Event::Examine(job.into(), address)) {
        Reply::Value(word) => {
            put(groups, group_of(address, word));
            None
        }
        reply => Some(reply),
    }
}

/// Reads the words of an area of a job's core, and reports each with its address, up to the first answer that is no
/// word.
/// Returns the reply to that one, if there is one.
fn push_area<S: FileService>(
    alloc: Global,
    service: &mut S,
    job: u8,
    area: &CoreArea,
    groups: &mut Vec<u64>,
) -> Option<Reply>
    requires room { vec_len groups.old + area.now.count ≤ vec_capacity groups.old }
    requires inside { area.now.first + area.now.count ≤ 2 ^ 18 }
    ensures told { IfNone result (HasRead S.machine service.old service.new job
        (range_with_len area.now.first area.now.count) groups.old.items groups.new.items Done) }
    ensures untold { IfSome result (HasRead S.machine service.old service.new job
        (range_with_len area.now.first area.now.count) groups.old.items groups.new.items) }
    ensures all { IfNone result (vec_len groups.new ≡ vec_len groups.old + area.now.count) }
    ensures stopped { IfSome result (λ reply. vec_len groups.new < vec_len groups.old + area.now.count) }
    ensures capacity { vec_capacity groups.old ≤ vec_capacity groups.new }
{
    for place in 0..area.count {
        let address = (area.first + place) as u32;
        if let Some(reply) = push_word(alloc, service, job, address, groups) {
            return Some(reply);
        }
    }
    None
}

/// Reads the words of areas of a job's core, and reports each with its address, up to the first answer that is no word.
/// Returns the reply to that one, or Done.
pub(crate) fn push_areas<S: FileService>(
    alloc: Global,
    service: &mut S,
    job: u8,
    areas: &[CoreArea],
    groups: &mut Vec<u64>,
) -> Reply
    requires room { vec_len groups.old + length (addresses areas.now) ≤ vec_capacity groups.old }
    requires inside { AllByRecursion IsLow areas.now }
    ensures { HasRead S.machine service.old service.new job (addresses areas.now) groups.old.items groups.new.items
        result }
{
    for area in areas {
        if let Some(reply) = push_area(alloc, service, job, area, groups) {
            return reply;
        }
    }
    Reply::Done
}
