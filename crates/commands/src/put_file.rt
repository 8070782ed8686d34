//! The storing of a file from words in memory, by calls of job 1.
ghost use Rattle.std.specs.Prelude.{◌≡◌, ◌≤◌, ◌+◌, ◌^◌, ◌∷◌, [], length, Some};
ghost use Rattle.spec_language.specs.Common.{Plan, each, deposit_events, call_event, size_events, create_events};
ghost use Rattle.spec_language.specs.Common.{login_events, fill_events, fill_all_plan as filled_all, own_file};
ghost use Rattle.spec_language.specs.Common.{part_address as address_of, part_words as words_of};
ghost use Rattle.spec_machine.specs.declared.call.Call.TheVariants.{Close};
ghost use Rattle.commands.specs.Common.{FinishesPlan, FollowsPlan, followed, absent, if_absent, put_plan_as, makes_way};
ghost use Rattle.words36.specs.declared.moment.Moment as moments;

use crate::answer::{CORE_WORDS, SESSION_JOB, Tally};
use crate::ask_events::ask_all;
use crate::conclude::conclude;
use crate::existing::Existing;
use crate::requests::{
    BLOCK_AREA, RUN_WORDS, close_event, enter_events, list_events, lookup_events, out_event,
};
use crate::ring_requests::{BUFFER_DATA, create_text_events, size_text_events};
use crate::service::FileService;
use spec_language::{Encoding, Spec};
use spec_machine::{Event, Reply};
use std::alloc::{AllocError, Global};
use words36::{BLOCK_WORDS, FileName, Moment, Ppn, Word};

/// A file that will be put: its place, its encoding, and what happens to a file of its name.
#[derive(Clone, Copy, Debug, PartialEq, Eq)]
pub struct PutFile {
    /// The owner of the directory that it comes into: job 1 logs in as this owner.
    pub owner: Ppn,
    /// Its name.
    pub name: FileName,
    /// The encoding of its bytes.
    pub encoding: Encoding,
    /// What happens to a file that has its name.
    pub existing: Existing,
}

/// Code 4: a file of this name exists.
const ALREADY_EXISTS: u32 = 4;

/// Logs job 1 in.
pub fn enter<S: FileService>(alloc: Global, service: &mut S, owner: Ppn) -> Result<(), Reply>
    ensures { (moment : moments.Moment) (next : Plan) → FollowsPlan S.machine service.old service.new
        (each moment (login_events owner) next) (followed moment result (λ unit. next)) }
{
    ask_all(
        alloc,
        service,
        &[Event::Login(SESSION_JOB, owner, CORE_WORDS)],
    )
}

/// Enters a file.
fn create<S: FileService>(
    alloc: Global,
    service: &mut S,
    moment: Moment,
    encoding: Encoding,
    spec: Spec,
) -> Result<(), Reply>
    ensures { (next : Plan) → FollowsPlan S.machine service.old service.new
        (each moment (create_events moment encoding spec) next) (followed moment result (λ unit. next)) }
{
    match encoding {
        Encoding::Characters => ask_all(alloc, service, &create_text_events(moment, spec)),
        Encoding::Words | Encoding::Octets => ask_all(alloc, service, &enter_events(moment, spec)),
    }
}

/// Deposits words from an address.
fn deposit_all<S: FileService>(
    alloc: Global,
    service: &mut S,
    address: u32,
    words: &[Word],
) -> Result<(), Reply>
    requires { address + length words.now ≤ 2 ^ 18 }
    ensures { (moment : moments.Moment) (next : Plan) → FollowsPlan S.machine service.old service.new
        (each moment (deposit_events address words.now) next) (followed moment result (λ unit. next)) }
{
    if service.deposit_all(address, words) {
        return Ok(());
    }
    for place in 0..words.len() {
        let event = Event::Deposit(SESSION_JOB, address + place as u32, words[place]);
        ask_all(alloc, service, &[event])?;
    }
    Ok(())
}

/// Puts the first `count` of the words that were deposited.
fn announce<S: FileService>(
    alloc: Global,
    service: &mut S,
    moment: Moment,
    encoding: Encoding,
    count: u32,
) -> Result<(), Reply>
    requires { count ≤ words_of encoding }
    ensures { (next : Plan) → FollowsPlan S.machine service.old service.new
        (each moment (size_events moment encoding count) next) (followed moment result (λ unit. next)) }
{
    match encoding {
        Encoding::Characters => ask_all(alloc, service, &size_text_events(moment, count)),
        Encoding::Words | Encoding::Octets => {
            let [command, end] = list_events(count);
            ask_all(alloc, service, &[command, end, out_event(moment)])
        }
    }
}

/// Returns the address at which words are deposited before they are put.
fn part_address(encoding: Encoding) -> u32
    ensures value { result ≡ address_of encoding }
    ensures low { result ≤ BLOCK_WORDS }
{
    match encoding {
        Encoding::Characters => BUFFER_DATA,
        Encoding::Words | Encoding::Octets => BLOCK_AREA,
    }
}

/// Returns how many words are put at once: those of a buffer, or of a run of blocks that a command list names.
fn part_words(encoding: Encoding) -> usize
    ensures { result ≡ words_of encoding }
{
    match encoding {
        Encoding::Characters => BLOCK_WORDS,
        Encoding::Words | Encoding::Octets => RUN_WORDS as usize,
    }
}

/// Puts words, at most as many as are put at once.
fn fill_part<S: FileService>(
    alloc: Global,
    service: &mut S,
    moment: Moment,
    encoding: Encoding,
    part: &[Word],
) -> Result<(), Reply>
    requires { length part.now ≤ words_of encoding }
    ensures { (next : Plan) → FollowsPlan S.machine service.old service.new
        (each moment (fill_events moment encoding part.now) next) (followed moment result (λ unit. next)) }
{
    deposit_all(alloc, service, part_address(encoding), part)?;
    announce(alloc, service, moment, encoding, part.len() as u32)
}

/// Puts words, part by part.
fn fill_all<S: FileService>(
    alloc: Global,
    service: &mut S,
    moment: Moment,
    encoding: Encoding,
    words: &[Word],
) -> Result<(), Reply>
    ensures { (next : Plan) → FollowsPlan S.machine service.old service.new
        (filled_all moment encoding words.now next) (followed moment result (λ unit. next)) }
{
    let mut rest = words;
    while !rest.is_empty() {
        let (part, after) = rest.split_at(rest.len().min(part_words(encoding)));
        fill_part(alloc, service, moment, encoding, part)?;
        rest = after;
    }
    Ok(())
}

/// Checks the reply to a LOOKUP of a file that must not exist. If it exists, its name is refused.
fn absence_of(reply: Reply) -> Result<(), Reply>
    ensures { (moment : moments.Moment) (next : Plan) → followed moment result (λ unit. next)
        ≡ if_absent moment next reply }
{
    match reply {
        Reply::Done => Err(Reply::Refused(ALREADY_EXISTS)),
        Reply::Refused(0) => Ok(()),
        _ => Err(reply),
    }
}

/// Looks up a file that must not exist.
fn refuse_existing<S: FileService>(
    alloc: Global,
    service: &mut S,
    moment: Moment,
    spec: Spec,
) -> Result<(), Reply>
    ensures { (next : Plan) → FollowsPlan S.machine service.old service.new (absent moment spec next)
        (followed moment result (λ unit. next)) }
{
    let events = lookup_events(moment, spec);
    let (names, lookup) = events.as_slice().split_at(events.len() - 1);
    ask_all(alloc, service, names)?;
    let reply = service.event(alloc, &lookup[0]);
    absence_of(reply)
}

/// Checks that a file may be put: if it must not replace another, no file may have its name.
fn make_way<S: FileService>(
    alloc: Global,
    service: &mut S,
    moment: Moment,
    file: &PutFile,
) -> Result<(), Reply>
    ensures { (next : Plan) → FollowsPlan S.machine service.old service.new
        (makes_way file.now.existing moment (own_file file.now.name) next) (followed moment result (λ unit. next)) }
{
    let spec = Spec {
        name: file.name,
        owner: None,
    };
    match file.existing {
        Existing::Replace => Ok(()),
        Existing::Refuse => refuse_existing(alloc, service, moment, spec),
    }
}

/// Logs in, and makes a file of these words.
fn write_file<S: FileService>(
    alloc: Global,
    service: &mut S,
    moment: Moment,
    file: &PutFile,
    words: &[Word],
) -> Result<(), Reply>
    ensures { (next : Plan) → FollowsPlan S.machine service.old service.new
        (each moment (login_events file.now.owner) (makes_way file.now.existing moment (own_file file.now.name)
        (each moment (create_events moment file.now.encoding (own_file file.now.name))
        (filled_all moment file.now.encoding words.now (each moment (call_event moment (Close 2 0) ∷ []) next)))))
        (followed moment result (λ unit. next)) }
{
    let spec = Spec {
        name: file.name,
        owner: None,
    };
    enter(alloc, service, file.owner)?;
    make_way(alloc, service, moment, file)?;
    create(alloc, service, moment, file.encoding, spec)?;
    fill_all(alloc, service, moment, file.encoding, words)?;
    ask_all(alloc, service, &[close_event(moment)])
}

/// Puts a file of these words, by job 1, which logs in for it.
pub fn put_file<S: FileService>(
    alloc: Global,
    service: &mut S,
    moment: Moment,
    tally: &mut Tally,
    file: &PutFile,
    words: &[Word],
) -> Result<Vec<u8>, AllocError>
    ensures { FinishesPlan (λ bytes. bytes.items) result S.machine service.old service.new
        (put_plan_as file.now.existing moment file.now.owner file.now.encoding (own_file file.now.name)
        (Some words.now))
        tally.old tally.new }
{
    let written = write_file(alloc, service, moment, file, words);
    conclude(alloc, service, moment, tally, written)
}
