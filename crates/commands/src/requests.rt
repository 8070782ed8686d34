//! The events that serve a file in dump mode or a directory, and the places in the core for their words.
ghost use Rattle.std.specs.Prelude.{◌≡◌, ◌<◌, ◌≤◌, ◌+◌, ◌-◌, ◌*◌, ◌%◌, ◌^◌, ◌++◌, ◌∷◌, [], unwrap_or};
ghost use Rattle.words36.specs.Common.{join};
ghost use Rattle.spec_language.specs.Common.{block_address, file_words};
ghost use Rattle.spec_machine.specs.declared.call.Call.TheVariants.{Close, Rename};
ghost use Rattle.spec_machine.specs.declared.call.Event.TheVariants.{Deposit};
ghost use Rattle.spec_language.specs.Plans as plans;

use crate::answer::SESSION_JOB;
use spec_language::Spec;
use spec_machine::{Call, Event};
use words36::{BLOCK_WORDS, FileName, Half, Moment, Ppn, Word};

// The places in the core where a session puts what it passes to a call.

/// The three words of an OPEN.
pub const OPEN_WORDS: u32 = 0o30;

/// The four words of a file that is looked up, or the words of a directory.
const FILE_WORDS: u32 = 0o40;

/// The word in which LOOKUP leaves how long the file is.
pub const SIZE_WORD: u32 = FILE_WORDS + 3;

/// The four words of a file that is entered.
pub const NEW_WORDS: u32 = 0o44;

/// A command list of two words.
const LIST_WORDS: u32 = 0o50;

/// The words of a block, or of several.
pub const BLOCK_AREA: u32 = 0o200;

/// The most blocks that an IN or an OUT moves.
pub const RUN_BLOCKS: u32 = 16;

/// The number of words in as many blocks.
pub const RUN_WORDS: u32 = RUN_BLOCKS * BLOCK_WORDS as u32;

/// DSK in SIXBIT.
pub const DISK: u64 = 0o446353000000;

const DUMP_MODE: u64 = 0o17;

/// The channel that a file is read on.
const READER: u32 = 1;

/// The channel that a file is written on.
pub const WRITER: u32 = 2;

/// Returns the word that passes a protection to a call: it is in the nine bits on the left.
fn protection_word(protection: u32) -> Word
    requires { protection < 512 }
    ensures { result ≡ protection * 2 ^ 27 }
{
    Word::from_bits(u64::from(protection) << 27)
}

/// Returns the word of a directory's owner, or 0 for the session's own.
pub fn owner_word(owner: Option<Ppn>) -> Word
    ensures { result ≡ unwrap_or owner 0 }
{
    match owner {
        Some(owner) => owner.word(),
        None => Word::ZERO,
    }
}

/// Returns the word of a file's extension.
pub fn extension_word(name: &FileName) -> Word
    ensures { result ≡ join name.now.ext 0 }
{
    Word::from_halves(name.ext, Half::from_bits(0))
}

/// Returns the events that look a file up, on channel 1.
pub fn lookup_events(moment: Moment, spec: Spec) -> [Event; 9]
    ensures { result ≡ plans.lookup_events moment spec }
{
    let Spec { name, owner } = spec;
    let extension = extension_word(&name);
    let owner = owner_word(owner);
    [
        Event::Deposit(SESSION_JOB, OPEN_WORDS, Word::from_bits(DUMP_MODE)),
        Event::Deposit(SESSION_JOB, OPEN_WORDS + 1, Word::from_bits(DISK)),
        Event::Deposit(SESSION_JOB, OPEN_WORDS + 2, Word::ZERO),
        Event::Call(SESSION_JOB, Call::Open(READER, OPEN_WORDS), moment),
        Event::Deposit(SESSION_JOB, FILE_WORDS, name.name),
        Event::Deposit(SESSION_JOB, FILE_WORDS + 1, extension),
        Event::Deposit(SESSION_JOB, FILE_WORDS + 2, Word::ZERO),
        Event::Deposit(SESSION_JOB, FILE_WORDS + 3, owner),
        Event::Call(SESSION_JOB, Call::Lookup(READER, FILE_WORDS), moment),
    ]
}

/// Returns the events that enter a file, on channel 2.
pub fn enter_events(moment: Moment, spec: Spec) -> [Event; 9]
    ensures { result ≡ plans.enter_events moment spec }
{
    let Spec { name, owner } = spec;
    let extension = extension_word(&name);
    let owner = owner_word(owner);
    [
        Event::Deposit(SESSION_JOB, OPEN_WORDS, Word::from_bits(DUMP_MODE)),
        Event::Deposit(SESSION_JOB, OPEN_WORDS + 1, Word::from_bits(DISK)),
        Event::Deposit(SESSION_JOB, OPEN_WORDS + 2, Word::ZERO),
        Event::Call(SESSION_JOB, Call::Open(WRITER, OPEN_WORDS), moment),
        Event::Deposit(SESSION_JOB, NEW_WORDS, name.name),
        Event::Deposit(SESSION_JOB, NEW_WORDS + 1, extension),
        Event::Deposit(SESSION_JOB, NEW_WORDS + 2, Word::ZERO),
        Event::Deposit(SESSION_JOB, NEW_WORDS + 3, owner),
        Event::Call(SESSION_JOB, Call::Enter(WRITER, NEW_WORDS), moment),
    ]
}

/// Returns the command word for `count` words from the block's first.
fn block_command(count: u32) -> Word
    requires { count ≤ 2048 }
    ensures { result ≡ join ((2 ^ 18 - count) % 2 ^ 18) (block_address - 1) }
{
    Word::from_halves(
        Half::from_bits(((1 << 18) - count) % (1 << 18)),
        Half::from_bits(BLOCK_AREA - 1),
    )
}

/// Returns the events that make the command list name `count` words from the block's first.
pub fn list_events(count: u32) -> [Event; 2]
    requires { count ≤ 2048 }
    ensures { result ≡ plans.list_events count }
{
    [
        Event::Deposit(SESSION_JOB, LIST_WORDS, block_command(count)),
        Event::Deposit(SESSION_JOB, LIST_WORDS + 1, Word::ZERO),
    ]
}

/// Returns an IN of what the command list names.
pub fn in_event(moment: Moment) -> Event
    ensures { result ≡ plans.in_event moment }
{
    Event::Call(SESSION_JOB, Call::In(READER, LIST_WORDS), moment)
}

/// Returns an OUT of what the command list names.
pub fn out_event(moment: Moment) -> Event
    ensures { result ≡ plans.out_event moment }
{
    Event::Call(SESSION_JOB, Call::Out(WRITER, LIST_WORDS), moment)
}

/// Returns the event that makes block n the next that an IN moves.
pub fn useti_event(moment: Moment, n: u32) -> Event
    ensures { result ≡ plans.useti_event moment n }
{
    Event::Call(SESSION_JOB, Call::Useti(READER, n), moment)
}

/// Returns the event that makes the file that was entered the file of its name.
pub fn close_event(moment: Moment) -> Event
    ensures { result ≡ plans.call_event moment (Close 2 0) }
{
    Event::Call(SESSION_JOB, Call::Close(WRITER, 0), moment)
}

/// Returns the event that makes this word of the block the given one.
pub fn fill_event(place: u32, word: Word) -> Event
    requires { place < BLOCK_WORDS }
    ensures { result ≡ Deposit 1 (block_address + place) word }
{
    Event::Deposit(SESSION_JOB, BLOCK_AREA + place, word)
}

/// Returns the events that make a directory.
pub fn make_dir_events(moment: Moment, owner: Ppn, protection: u32) -> [Event; 3]
    requires { protection < 512 }
    ensures { result ≡ plans.make_dir_events moment owner protection }
{
    [
        Event::Deposit(SESSION_JOB, FILE_WORDS, owner.word()),
        Event::Deposit(SESSION_JOB, FILE_WORDS + 1, protection_word(protection)),
        Event::Call(SESSION_JOB, Call::MakeDir(FILE_WORDS), moment),
    ]
}

/// Returns the events that give a directory a quota: a number of blocks.
pub fn quota_events(moment: Moment, owner: Ppn, blocks: u32) -> [Event; 3]
    requires { blocks < 2 ^ 18 }
    ensures { result ≡ plans.quota_events moment owner blocks }
{
    let quota = Word::from_halves(Half::from_bits(blocks), Half::from_bits(0));
    [
        Event::Deposit(SESSION_JOB, FILE_WORDS, owner.word()),
        Event::Deposit(SESSION_JOB, FILE_WORDS + 1, quota),
        Event::Call(SESSION_JOB, Call::Quota(FILE_WORDS), moment),
    ]
}

/// Returns the events that give the file that was looked up another name and place; its protection is where LOOKUP has
/// put it.
pub fn rename_events(moment: Moment, to: Spec) -> [Event; 4]
    ensures { result ≡ Deposit 1 file_words to.name.name ∷ Deposit 1 (file_words + 1) (join to.name.ext 0)
        ∷ Deposit 1 (file_words + 3) (unwrap_or to.owner 0) ∷ plans.call_event moment (Rename 1 file_words) ∷ [] }
{
    let Spec { name, owner } = to;
    [
        Event::Deposit(SESSION_JOB, FILE_WORDS, name.name),
        Event::Deposit(SESSION_JOB, FILE_WORDS + 1, extension_word(&name)),
        Event::Deposit(SESSION_JOB, FILE_WORDS + 3, owner_word(owner)),
        Event::Call(SESSION_JOB, Call::Rename(READER, FILE_WORDS), moment),
    ]
}

/// Returns the events that delete the file that was looked up: it gets the name 0.
pub fn delete_events(moment: Moment) -> [Event; 2]
    ensures { result ≡ Deposit 1 file_words 0 ∷ plans.call_event moment (Rename 1 file_words) ∷ [] }
{
    [
        Event::Deposit(SESSION_JOB, FILE_WORDS, Word::ZERO),
        Event::Call(SESSION_JOB, Call::Rename(READER, FILE_WORDS), moment),
    ]
}

/// Returns the events that give the file that was looked up another protection: it gets its own place once more.
pub fn protect_events(moment: Moment, spec: &Spec, protection: u32) -> [Event; 5]
    requires { protection < 512 }
    ensures { result ≡ plans.name_events file_words spec.now protection
        ++ plans.call_event moment (Rename 1 file_words) ∷ [] }
{
    [
        Event::Deposit(SESSION_JOB, FILE_WORDS, spec.name.name),
        Event::Deposit(SESSION_JOB, FILE_WORDS + 1, extension_word(&spec.name)),
        Event::Deposit(SESSION_JOB, FILE_WORDS + 2, protection_word(protection)),
        Event::Deposit(SESSION_JOB, FILE_WORDS + 3, owner_word(spec.owner)),
        Event::Call(SESSION_JOB, Call::Rename(READER, FILE_WORDS), moment),
    ]
}
