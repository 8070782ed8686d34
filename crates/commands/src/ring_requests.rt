//! The events that put a text through a buffer ring.
ghost use Rattle.std.specs.Prelude.{◌≡◌, ◌≤◌, ◌+◌, ◌-◌};
ghost use Rattle.words36.specs.Common.{join};
ghost use Rattle.spec_language.specs.declared.encoding.Encoding.TheVariants.{Characters};
ghost use Rattle.spec_language.specs.Errands as errands;
ghost use Rattle.words36.specs.declared.word.TheConstants.{BLOCK_WORDS};

use crate::answer::SESSION_JOB;
use crate::requests::{DISK, NEW_WORDS, OPEN_WORDS, WRITER, extension_word, out_event, owner_word};
use spec_language::Spec;
use spec_machine::{Call, Event};
use words36::{Half, Moment, Word};

/// The three words of the header of the ring by which a text is put.
const HEADER_WORDS: u32 = 0o60;

/// The data of its one buffer. A ring of a job that has just logged in begins at 140, and a buffer's data after three
/// words (octal).
pub const BUFFER_DATA: u32 = 0o143;

/// A file's mode for characters.
const ASCII_MODE: Word = Word::ZERO;

/// A byte pointer's left half that names the last character of a word: no bit is right of it but bit 35, and it has 7.
const LAST_CHARACTER: u32 = 0o010700;

/// Returns the events that enter a file for characters, on channel 2, and set up a ring of one buffer for it.
pub fn create_text_events(moment: Moment, spec: Spec) -> [Event; 11]
    ensures { result ≡ errands.create_events moment Characters spec }
{
    let Spec { name, owner } = spec;
    let extension = extension_word(&name);
    let owner = owner_word(owner);
    let header = Word::from_halves(Half::from_bits(HEADER_WORDS), Half::from_bits(0));
    [
        Event::Deposit(SESSION_JOB, OPEN_WORDS, ASCII_MODE),
        Event::Deposit(SESSION_JOB, OPEN_WORDS + 1, Word::from_bits(DISK)),
        Event::Deposit(SESSION_JOB, OPEN_WORDS + 2, header),
        Event::Call(SESSION_JOB, Call::Open(WRITER, OPEN_WORDS), moment),
        Event::Deposit(SESSION_JOB, NEW_WORDS, name.name),
        Event::Deposit(SESSION_JOB, NEW_WORDS + 1, extension),
        Event::Deposit(SESSION_JOB, NEW_WORDS + 2, Word::ZERO),
        Event::Deposit(SESSION_JOB, NEW_WORDS + 3, owner),
        Event::Call(SESSION_JOB, Call::Enter(WRITER, NEW_WORDS), moment),
        Event::Call(SESSION_JOB, Call::Outbuf(WRITER, 1), moment),
        out_event(moment),
    ]
}

/// Returns the byte pointer after the first `count` words of the buffer.
fn pointer_behind(count: u32) -> Word
    requires { count ≤ BLOCK_WORDS }
    ensures { result ≡ join 0o010700 (errands.data_address - 1 + count) }
{
    Word::from_halves(
        Half::from_bits(LAST_CHARACTER),
        Half::from_bits(BUFFER_DATA - 1 + count),
    )
}

/// Returns the events that put the first `count` words of the buffer.
pub fn size_text_events(moment: Moment, count: u32) -> [Event; 2]
    requires { count ≤ BLOCK_WORDS }
    ensures { result ≡ errands.size_events moment Characters count }
{
    [
        Event::Deposit(SESSION_JOB, HEADER_WORDS + 1, pointer_behind(count)),
        out_event(moment),
    ]
}
