//! The grammar of call scripts: the event of a line.
ghost use Rattle.std.specs.Prelude.{◌≡◌, ◌∷◌, [], ℕ, List, codes};
ghost use Rattle.words36.specs.declared.moment.Moment.{Moment};
ghost use Rattle.spec_language.specs.Common.{IsPlace, SaysEvent, MeansEvent, same_text, calls_of_one, calls_of_two};
ghost use Rattle.commands.specs.Common.{line_of, FieldsSay, with_one, with_two};

use crate::fields::{first_field, octal_number, pair, small_number};
use crate::input::InputLine;
use spec_machine::{Call, Event};
use words36::{Moment, Word};

/// The most digits that a number has.
const DIGITS: usize = 12;

/// Returns whether a text is this word.
fn is_word(text: &[u8], word: &str) -> bool
    ensures { result ≡ same_text text.now word.now }
{
    text == word.as_bytes()
}

/// Returns the call that a word and the number after it name: a channel or an address.
fn call_with_one(word: &[u8], number: u32) -> Option<Call>
    ensures { result ≡ with_one (calls_of_one word.now) number }
{
    let call = if is_word(word, "RELEAS") {
        Call::Releas(number)
    } else if is_word(word, "GETSTS") {
        Call::Getsts(number)
    } else if is_word(word, "MAKDIR") {
        Call::MakeDir(number)
    } else if is_word(word, "REMDIR") {
        Call::DeleteDir(number)
    } else if is_word(word, "QUOTA") {
        Call::Quota(number)
    } else {
        return None;
    };
    Some(call)
}

/// Returns the call that a word, a channel and the number after it name.
fn call_with_two(word: &[u8], channel: u32, number: u32) -> Option<Call>
    ensures { result ≡ with_two (calls_of_two word.now) channel number }
{
    if is_word(word, "OPEN") {
        return Some(Call::Open(channel, number));
    }
    if is_word(word, "INBUF") {
        return Some(Call::Inbuf(channel, number));
    }
    if is_word(word, "OUTBUF") {
        return Some(Call::Outbuf(channel, number));
    }
    if is_word(word, "LOOKUP") {
        return Some(Call::Lookup(channel, number));
    }
    if is_word(word, "ENTER") {
        return Some(Call::Enter(channel, number));
    }
    if is_word(word, "RENAME") {
        return Some(Call::Rename(channel, number));
    }
    if is_word(word, "IN") {
        return Some(Call::In(channel, number));
    }
    if is_word(word, "OUT") {
        return Some(Call::Out(channel, number));
    }
    if is_word(word, "USETI") {
        return Some(Call::Useti(channel, number));
    }
    if is_word(word, "USETO") {
        return Some(Call::Useto(channel, number));
    }
    if is_word(word, "CLOSE") {
        return Some(Call::Close(channel, number));
    }
    None
}

/// Returns the event of a job with a word alone.
fn order_alone(job: u32, word: &[u8], moment: Moment) -> Option<Event>
    ensures { (field : List ℕ) → IsPlace field job → FieldsSay (field ∷ word.now ∷ []) moment result }
{
    if is_word(word, "RESET") {
        Some(Event::Call(job, Call::Reset, moment))
    } else {
        None
    }
}

/// Returns the event of a job with a word and one field after it.
fn order_with_one(job: u32, word: &[u8], number: &[u8], moment: Moment) -> Option<Event>
    ensures { (field : List ℕ) → IsPlace field job → FieldsSay (field ∷ word.now ∷ number.now ∷ []) moment result }
{
    let number = small_number(number, DIGITS)?;
    if is_word(word, "EXA") {
        return Some(Event::Examine(job, number));
    }
    let call = call_with_one(word, number)?;
    Some(Event::Call(job, call, moment))
}

/// Returns the login of a job: its project and programmer, and how many words of core it has.
fn login(job: u32, owner: &[u8], words: &[u8]) -> Option<Event>
    ensures { (field : List ℕ) (moment : Moment) → IsPlace field job
        → FieldsSay (field ∷ codes "LOGIN" ∷ owner.now ∷ words.now ∷ []) moment result }
{
    let owner = pair(owner, DIGITS)?;
    let words = small_number(words, DIGITS)?;
    Some(Event::Login(job, owner, words))
}

/// Returns the event of a job with a word and two fields after it.
fn order_with_two(
    job: u32,
    word: &[u8],
    first: &[u8],
    second: &[u8],
    moment: Moment,
) -> Option<Event>
    ensures { (field : List ℕ) → IsPlace field job
        → FieldsSay (field ∷ word.now ∷ first.now ∷ second.now ∷ []) moment result }
{
    if is_word(word, "LOGIN") {
        return login(job, first, second);
    }
    let first = small_number(first, DIGITS)?;
    if is_word(word, "DEP") {
        let bits = octal_number(second, DIGITS)?;
        return Some(Event::Deposit(job, first, Word::from_bits(bits)));
    }
    let second = small_number(second, DIGITS)?;
    let call = call_with_two(word, first, second)?;
    Some(Event::Call(job, call, moment))
}

/// Returns the event, at a moment, of a text in upper case, if it is a line of a call script: a job's number, a word,
/// and up to two fields after it.
pub fn parse_event(text: &[u8], moment: Moment) -> Option<Event>
    ensures { SaysEvent text.now moment result }
{
    let (job, behind) = first_field(text)?;
    let job = small_number(job, DIGITS)?;
    let (word, behind) = first_field(behind)?;
    if behind.is_empty() {
        return order_alone(job, word, moment);
    }
    let (first, behind) = first_field(behind)?;
    if behind.is_empty() {
        return order_with_one(job, word, first, moment);
    }
    let (second, behind) = first_field(behind)?;
    if behind.is_empty() {
        return order_with_two(job, word, first, second, moment);
    }
    None
}

/// Returns the event of a line at a moment; one that is too long has none.
pub fn parse_event_line(line: InputLine<'_>, moment: Moment) -> Option<Event>
    ensures { MeansEvent (line_of line.entry) moment result }
{
    match line {
        InputLine::Text(text) => parse_event(text, moment),
        InputLine::TooLong => None,
    }
}
