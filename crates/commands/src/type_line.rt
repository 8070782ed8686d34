//! The command TYPE, and the reading of a whole file as text or as words.
ghost use Rattle.std.specs.Prelude.{◌≡◌, ◌+◌, ◌≤◌, ◌++◌, ℕ, List, [], Some, true, IfOk, OnOk, flat_map};
ghost use Rattle.words36.specs.Common.{word_bytes, block_bytes, HasRead, octets_unpacked};
ghost use Rattle.spec_language.specs.Common.{Plan, each, examines, fetches, lookup_events, list_events};
ghost use Rattle.spec_language.specs.Common.{file_words, block_address, type_last_plan, type_body_plan};
ghost use Rattle.spec_language.specs.Common.{blocks_said as said_blocks, until_end, read_plan, typed, file_said};
ghost use Rattle.spec_language.specs.Common.{octets_said};
ghost use Rattle.spec_language.specs.declared.encoding.Encoding.TheVariants.{Words};
ghost use Rattle.spec_language.specs.declared.command.Command.TheVariants.{TypeOut as TypeLine};
ghost use Rattle.commands.specs.Common.{FollowsPlan, FinishesPlan, Tells, followed, AreTyped, HasTyped, HasWordsRead};
ghost use Rattle.commands.specs.Common.{CommandDone};
ghost use Rattle.commands.specs.declared.type_line.Target.{Target as Targets};
ghost use Rattle.commands.specs.declared.type_line.Target.TheVariants.{Text, List as ListTarget};
ghost use Rattle.words36.specs.declared.moment.Moment as moments;
ghost use Rattle.spec_language.specs.Plans as plans;

use crate::answer::{Tally, is_broken, refuse};
use crate::ask_events::{ask_all, examine, reset};
use crate::read_body::{blocks_said, find_end, last_count};
use crate::requests::{
    BLOCK_AREA, RUN_BLOCKS, RUN_WORDS, SIZE_WORD, in_event, list_events, lookup_events, useti_event,
};
use crate::service::FileService;
use crate::text;
use spec_language::{Encoding, Spec};
use spec_machine::Reply;
use std::alloc::{AllocError, Global};
use words36::{BLOCK_WORDS, Block, Moment, OctetReader, Ppn, Word, block_to_bytes, unpack_ascii};

/// The form in which the words of a file are returned.
#[derive(Clone, Copy, Debug, PartialEq, Eq)]
pub enum Target {
    /// The text that is printed for them.
    Text(Encoding),
    /// A list of them.
    List,
}

/// What was made so far from the words that were read.
#[derive(Drop)]
struct Typed {
    target: Target,
    /// Their characters, or eight bytes for each word.
    bytes: Vec<u8>,
    /// Their bytes of eight bits.
    octets: OctetReader,
    /// The words.
    words: Vec<Word>,
    /// Whether there was memory for all of it. A file is read to its end in any case, so that the job is left as after
    /// any line.
    is_whole: bool,
}

/// Appends the characters of words to the bytes, without nulls.
pub fn push_characters(alloc: Global, bytes: &mut Vec<u8>, words: &[Word]) -> Result<(), AllocError>
    ensures { OnOk result (bytes.new.items ≡ bytes.old.items ++ typed words.now) }
{
    let Ok(characters) = unpack_ascii(alloc, words) else {
        return Err(AllocError);
    };
    // most words have no null, and their characters are appended at once
    if !characters.as_slice().contains(&0) {
        return bytes.extend_from_slice(characters.as_slice());
    }
    for character in characters.as_slice() {
        if *character != 0 {
            bytes.push(*character)?;
        }
    }
    Ok(())
}

/// Returns the eight bytes of a word, the most significant first.
fn bytes_of(word: Word) -> [u8; 8]
    ensures { result ≡ word_bytes word }
{
    word.bits().to_be_bytes()
}

/// Appends the bytes of blocks to the others.
fn push_blocks(bytes: &mut Vec<u8>, blocks: &[Block]) -> Result<(), AllocError>
    ensures { OnOk result (bytes.new.items ≡ bytes.old.items ++ flat_map block_bytes blocks.now) }
{
    for block in blocks {
        bytes.extend_from_slice(&block_to_bytes(block))?;
    }
    Ok(())
}

/// Appends the bytes of words to the others, eight for each: those of whole blocks at once.
pub fn push_words(bytes: &mut Vec<u8>, words: &[Word]) -> Result<(), AllocError>
    ensures { OnOk result (bytes.new.items ≡ bytes.old.items ++ flat_map word_bytes words.now) }
{
    let (blocks, others) = words.as_chunks::<BLOCK_WORDS>();
    push_blocks(bytes, blocks)?;
    for word in others {
        bytes.extend_from_slice(&bytes_of(*word))?;
    }
    Ok(())
}

/// Appends the bytes of eight bits of words to the others.
fn push_octets(octets: &mut OctetReader, words: &[Word]) -> Result<(), AllocError>
    ensures { (seen : List ℕ) → HasRead octets.old seen → HasRead octets.new (seen ++ words.now) }
{
    for word in words {
        octets.push(*word);
    }
    Ok(())
}

impl Typed {
    fn new(alloc: Global, target: Target) -> Typed
        ensures { AreTyped target result [] }
    {
        Typed {
            target,
            bytes: Vec::new(alloc),
            octets: OctetReader::new(alloc),
            words: Vec::new(alloc),
            is_whole: true,
        }
    }

    /// Appends what is made from words, if there is memory for it.
    fn push(&mut self, alloc: Global, words: &[Word])
        ensures { (target : Targets) (seen : List ℕ) → AreTyped target self.old seen
            → AreTyped target self.new (seen ++ words.now) }
    {
        let pushed = match self.target {
            Target::Text(Encoding::Characters) => push_characters(alloc, &mut self.bytes, words),
            Target::Text(Encoding::Words) => push_words(&mut self.bytes, words),
            Target::Text(Encoding::Octets) => push_octets(&mut self.octets, words),
            Target::List => self.words.extend_from_slice(words),
        };
        if pushed.is_err() {
            self.is_whole = false;
        }
    }

    /// Returns the characters, or eight bytes for each word.
    fn into_bytes(self) -> Result<Vec<u8>, AllocError>
        ensures { IfOk result (λ bytes. (self.is_whole ≡ true) × (bytes.items ≡ self.bytes.items)) }
    {
        if self.is_whole {
            Ok(self.bytes)
        } else {
            Err(AllocError)
        }
    }

    /// Returns the words.
    fn into_words(self) -> Result<Vec<Word>, AllocError>
        ensures { (seen : List ℕ) → AreTyped ListTarget self seen → IfOk result (λ words. words.items ≡ seen) }
    {
        if self.is_whole {
            Ok(self.words)
        } else {
            Err(AllocError)
        }
    }
}

/// Returns the bytes of eight bits of words that were read, or their refusal, and counts that.
fn octet_bytes(alloc: Global, tally: &mut Tally, octets: OctetReader) -> Result<Vec<u8>, AllocError>
    ensures { (words : List ℕ) → HasRead octets words
        → Tells (λ bytes. bytes.items) result (octets_said (octets_unpacked words)) tally.old tally.new }
{
    match octets.finish() {
        Ok(Some(bytes)) => Ok(bytes),
        Ok(None) => refuse(alloc, tally, "?Not bytes", false),
        Err(_) => Err(AllocError),
    }
}

/// Returns what is printed for a file that was read, and counts it if it is a refusal.
fn file_text(
    alloc: Global,
    tally: &mut Tally,
    encoding: Encoding,
    typed: Typed,
) -> Result<Vec<u8>, AllocError>
    ensures { (words : List ℕ) → AreTyped (Text encoding) typed words
        → Tells (λ bytes. bytes.items) result (file_said encoding words) tally.old tally.new }
{
    match encoding {
        Encoding::Characters => typed.into_bytes(),
        Encoding::Words => typed.into_bytes(),
        Encoding::Octets => octet_bytes(alloc, tally, typed.octets),
    }
}

/// Appends words that an IN has moved to those that were read.
fn type_words<S: FileService>(
    alloc: Global,
    service: &mut S,
    count: u32,
    typed: &mut Typed,
) -> Result<(), Reply>
    requires { count ≤ 2048 }
    ensures { (moment : moments.Moment) → HasTyped S.machine service.old service.new moment
        (fetches moment count block_address) result typed.old typed.new }
{
    if let Some(words) = service.examine_all(BLOCK_AREA, count as usize) {
        typed.push(alloc, words);
        return Ok(());
    }
    for place in 0..count {
        let word = examine(alloc, service, BLOCK_AREA + place)?;
        typed.push(alloc, &[word]);
    }
    Ok(())
}

/// Reads by `runs` INs, each of which moves `count` words, from the file's position.
fn type_runs<S: FileService>(
    alloc: Global,
    service: &mut S,
    moment: Moment,
    runs: u32,
    count: u32,
    typed: &mut Typed,
) -> Result<(), Reply>
    requires { count ≤ 2048 }
    ensures { HasTyped S.machine service.old service.new moment (plans.type_runs_plan moment runs count)
        result typed.old typed.new }
{
    for _ in 0..runs {
        ask_all(alloc, service, &[in_event(moment)])?;
        type_words(alloc, service, count, typed)?;
    }
    Ok(())
}

/// Reads `count` whole blocks: by runs, and the blocks that don't fill a run one by one.
fn type_blocks<S: FileService>(
    alloc: Global,
    service: &mut S,
    moment: Moment,
    count: u32,
    typed: &mut Typed,
) -> Result<(), Reply>
    ensures { HasTyped S.machine service.old service.new moment (plans.type_blocks_plan moment count)
        result typed.old typed.new }
{
    ask_all(alloc, service, &list_events(RUN_WORDS))?;
    type_runs(alloc, service, moment, count / RUN_BLOCKS, RUN_WORDS, typed)?;
    ask_all(alloc, service, &list_events(BLOCK_WORDS as u32))?;
    type_runs(
        alloc,
        service,
        moment,
        count % RUN_BLOCKS,
        BLOCK_WORDS as u32,
        typed,
    )
}

/// Reads the words of the last block, which is block n.
fn type_last<S: FileService>(
    alloc: Global,
    service: &mut S,
    moment: Moment,
    n: u32,
    size: Word,
    typed: &mut Typed,
) -> Result<(), Reply>
    ensures { HasTyped S.machine service.old service.new moment
        (type_last_plan moment n size) result typed.old typed.new }
{
    let count = last_count(alloc, service, moment, n, size)?;
    ask_all(alloc, service, &list_events(count))?;
    ask_all(alloc, service, &[useti_event(moment, n), in_event(moment)])?;
    type_words(alloc, service, count, typed)
}

/// Reads all words of a body of this size.
fn type_body<S: FileService>(
    alloc: Global,
    service: &mut S,
    moment: Moment,
    size: Word,
    typed: &mut Typed,
) -> Result<(), Reply>
    ensures { HasTyped S.machine service.old service.new moment (type_body_plan moment (said_blocks size) size)
        result typed.old typed.new }
{
    let blocks = blocks_said(size);
    if blocks == 0 {
        return Ok(());
    }
    type_blocks(alloc, service, moment, blocks - 1, typed)?;
    type_last(alloc, service, moment, blocks, size, typed)
}

/// Looks a file up, and returns the word that gives its size.
fn open_one<S: FileService>(
    alloc: Global,
    service: &mut S,
    moment: Moment,
    spec: Spec,
) -> Result<Word, Reply>
    ensures { (next : ℕ → Plan) → FollowsPlan S.machine service.old service.new
        (each moment (lookup_events moment spec ++ list_events BLOCK_WORDS) (examines moment (file_words + 3) next))
        (followed moment result next) }
{
    ask_all(alloc, service, &lookup_events(moment, spec))?;
    ask_all(alloc, service, &list_events(BLOCK_WORDS as u32))?;
    examine(alloc, service, SIZE_WORD)
}

/// Reads a file.
fn type_file<S: FileService>(
    alloc: Global,
    service: &mut S,
    moment: Moment,
    spec: Spec,
    typed: &mut Typed,
) -> Result<(), Reply>
    ensures { HasTyped S.machine service.old service.new moment
        (λ next. each moment (lookup_events moment spec ++ list_events BLOCK_WORDS)
        (examines moment (file_words + 3) (λ size. type_body_plan moment (said_blocks size) size
        (λ words. until_end moment (next words))))) result typed.old typed.new }
{
    let size = open_one(alloc, service, moment, spec)?;
    type_body(alloc, service, moment, size, typed)?;
    find_end(alloc, service, moment)
}

/// Reads a file and returns what is printed for it, for a job that is logged in: the whole file is read first.
pub fn read_out<S: FileService>(
    alloc: Global,
    service: &mut S,
    moment: Moment,
    tally: &mut Tally,
    encoding: Encoding,
    spec: Spec,
) -> Result<Vec<u8>, AllocError>
    ensures { FinishesPlan (λ bytes. bytes.items) result S.machine service.old service.new
        (read_plan moment encoding spec) tally.old tally.new }
{
    let mut typed = Typed::new(alloc, Target::Text(encoding));
    let read = type_file(alloc, service, moment, spec, &mut typed);
    reset(alloc, service, moment);
    match read {
        Ok(()) => file_text(alloc, tally, encoding, typed),
        Err(reply) => refuse(alloc, tally, text::refusal(&reply), is_broken(&reply)),
    }
}

/// Returns the words of a file, for a job that is logged in.
///
/// # Errors
///
/// The reply that refused the file. The value is an `AllocError` if the words found no room: the file was read all the
/// same.
pub fn read_words<S: FileService>(
    alloc: Global,
    service: &mut S,
    moment: Moment,
    spec: Spec,
) -> Result<Result<Vec<Word>, AllocError>, Reply>
    ensures { HasWordsRead (λ v. v.items) result S.machine service.old service.new (read_plan moment Words spec) }
{
    let mut typed = Typed::new(alloc, Target::List);
    let read = type_file(alloc, service, moment, spec, &mut typed);
    reset(alloc, service, moment);
    match read {
        Ok(()) => Ok(typed.into_words()),
        Err(reply) => Err(reply),
    }
}

/// Answers TYPE, for a job that is logged in.
pub fn type_out<S: FileService>(
    alloc: Global,
    service: &mut S,
    moment: Moment,
    me: Ppn,
    tally: &mut Tally,
    spec: Spec,
) -> Result<Vec<u8>, AllocError>
    ensures { CommandDone (λ bytes. bytes.items) result S.machine service.old service.new moment (Some me)
        (Some me) tally.old tally.new (Some (TypeLine spec)) }
{
    read_out(alloc, service, moment, tally, Encoding::Characters, spec)
}
