//! The errands of job 1 for a command of a person: a file put, got or deleted, and lists.
ghost use Rattle.std.specs.Prelude.{ℕ, List};
ghost use Rattle.spec_language.specs.Common.{get_plan, own_file, list_plan, Say, refuses};
ghost use Rattle.commands.specs.Common.{FinishesPlan, Delivery, Errand, delete_plan, put_plan_as, no_room, HasWords};
ghost use Rattle.commands.specs.Common.{IsInputReason, words_said};
ghost use Rattle.spec_language.specs.declared.encoding.Encoding.{Encoding as Encodings};

use crate::answer::{Tally, is_broken, refuse};
use crate::change_file::remove;
use crate::conclude::conclude;
use crate::input_words::{most_bytes, read_input, unfit, words_of};
use crate::list_directories::survey;
use crate::put_file::{PutFile, enter, put_file};
use crate::run::print;
use crate::service::FileService;
use crate::type_line::read_out;
use crate::{Misfit, Reason, SessionError, text};
use spec_language::{Encoding, Spec, Style};
use spec_machine::Reply;
use std::alloc::{AllocError, Global};
use std::io::{Read, Write};
use words36::{Moment, Ppn, Word};

/// Logs in, and returns a file as it is printed.
fn get_file<S: FileService>(
    alloc: Global,
    service: &mut S,
    moment: Moment,
    tally: &mut Tally,
    owner: Ppn,
    encoding: Encoding,
    spec: Spec,
) -> Result<Vec<u8>, AllocError>
    ensures { FinishesPlan (λ bytes. bytes.items) result S.machine service.old service.new
        (get_plan moment owner encoding spec) tally.old tally.new }
{
    match enter(alloc, service, owner) {
        Ok(()) => read_out(alloc, service, moment, tally, encoding, spec),
        Err(reply) => conclude(alloc, service, moment, tally, Err(reply)),
    }
}

/// Writes a file, by job 1, which logs in for it.
///
/// # Errors
///
/// `Write` if the writer failed, `NoMemory` if the text found no room: then nothing of it is written.
pub fn write_out<W: Write, S: FileService>(
    alloc: Global,
    writer: &mut W,
    service: &mut S,
    moment: Moment,
    owner: Ppn,
    encoding: Encoding,
    spec: Spec,
) -> Result<Tally, SessionError>
    ensures { Errand (W.contents writer.old) (W.contents writer.new) S.machine service.old service.new
        (get_plan moment owner encoding spec) result }
{
    let mut tally = Tally::none();
    let text = get_file(alloc, service, moment, &mut tally, owner, encoding, spec);
    print(writer, text)?;
    Ok(tally)
}

/// Logs in, and deletes a file.
fn delete_file<S: FileService>(
    alloc: Global,
    service: &mut S,
    moment: Moment,
    tally: &mut Tally,
    owner: Ppn,
    spec: Spec,
) -> Result<Vec<u8>, AllocError>
    ensures { FinishesPlan (λ bytes. bytes.items) result S.machine service.old service.new
        (delete_plan moment owner spec) tally.old tally.new }
{
    match enter(alloc, service, owner) {
        Ok(()) => {
            let deleted = remove(alloc, service, moment, spec);
            conclude(alloc, service, moment, tally, deleted)
        }
        Err(reply) => conclude(alloc, service, moment, tally, Err(reply)),
    }
}

/// Deletes a file, by job 1, which logs in for it, and writes how that went.
///
/// # Errors
///
/// The same as those of `write_out`; the calls were made.
pub fn write_deleted<W: Write, S: FileService>(
    alloc: Global,
    writer: &mut W,
    service: &mut S,
    moment: Moment,
    owner: Ppn,
    spec: Spec,
) -> Result<Tally, SessionError>
    ensures { Errand (W.contents writer.old) (W.contents writer.new) S.machine service.old service.new
        (delete_plan moment owner spec) result }
{
    let mut tally = Tally::none();
    let text = delete_file(alloc, service, moment, &mut tally, owner, spec);
    print(writer, text)?;
    Ok(tally)
}

/// Writes the lists of directories in a style, one after the other, as [1,2], who may list all of them.
///
/// # Errors
///
/// The same as those of `write_out`.
pub fn write_lists<W: Write, S: FileService>(
    alloc: Global,
    writer: &mut W,
    service: &mut S,
    moment: Moment,
    style: Style,
    owners: &[Ppn],
) -> Result<Tally, SessionError>
    ensures { Errand (W.contents writer.old) (W.contents writer.new) S.machine service.old service.new
        (list_plan moment style owners.now) result }
{
    let mut tally = Tally::none();
    let text = survey(alloc, service, moment, &mut tally, style, owners);
    print(writer, text)?;
    Ok(tally)
}

/// Writes the refusal of a reply.
///
/// # Errors
///
/// The same as those of `write_out`.
pub fn write_refusal<W: Write, S: FileService>(
    alloc: Global,
    writer: &mut W,
    service: &mut S,
    reply: &Reply,
) -> Result<Tally, SessionError>
    ensures { Errand (W.contents writer.old) (W.contents writer.new) S.machine service.old service.new
        (Say (refuses reply.now)) result }
{
    let mut tally = Tally::none();
    let text = refuse(alloc, &mut tally, text::refusal(reply), is_broken(reply));
    print(writer, text)?;
    Ok(tally)
}

/// Returns the reason that people may be told for bytes that have these words, or none.
pub fn reason_of(words: &Result<Vec<Word>, Misfit>) -> Option<Reason>
    ensures { (encoding : Encodings) (bytes : List ℕ) → HasWords (λ v. v.items) encoding bytes words.now
        → IsInputReason encoding bytes result }
{
    match words {
        Ok(_) => None,
        Err(misfit) => Some(Reason::Input(*misfit)),
    }
}

/// Puts a file of these words, or refuses the bytes if they have none, and returns what is printed.
pub fn put_words<S: FileService>(
    alloc: Global,
    service: &mut S,
    moment: Moment,
    tally: &mut Tally,
    file: &PutFile,
    words: &Result<Vec<Word>, Misfit>,
) -> Result<Vec<u8>, AllocError>
    ensures { FinishesPlan (λ bytes. bytes.items) result S.machine service.old service.new
        (put_plan_as file.now.existing moment file.now.owner file.now.encoding (own_file file.now.name)
        (words_said (λ v. v.items) words.now)) tally.old tally.new }
{
    match words {
        Ok(words) => put_file(alloc, service, moment, tally, file, words),
        Err(_) => refuse(alloc, tally, unfit(file.encoding), false),
    }
}

/// Writes the refusal of an input that is too long.
fn write_no_room<W: Write, S: FileService>(
    alloc: Global,
    writer: &mut W,
    service: &mut S,
) -> Result<Tally, SessionError>
    ensures { Errand (W.contents writer.old) (W.contents writer.new) S.machine service.old service.new
        no_room result }
{
    let mut tally = Tally::none();
    let text = refuse(alloc, &mut tally, "?No room", false);
    print(writer, text)?;
    Ok(tally)
}

/// Makes a file of all that a reader returns, by job 1, which logs in for it, and writes how that went. All of the
/// input is read and tested before the first call. Reading stops early at bytes with which no file begins, and at more
/// than a file can hold; then no call is made.
///
/// # Errors
///
/// `Read` if the reader failed, and `NoMemory` if its bytes or their words found no room: then no call was made.
/// `Write` if the writer failed, `NoMemory` if the text found no room: the calls were made.
pub fn read_in<R: Read, W: Write, S: FileService>(
    alloc: Global,
    reader: &mut R,
    writer: &mut W,
    service: &mut S,
    moment: Moment,
    file: &PutFile,
) -> Result<Tally, SessionError>
    ensures { Delivery (R.remaining reader.old) (R.remaining reader.new) (W.contents writer.old)
        (W.contents writer.new) S.machine service.old service.new file.now.encoding
        (put_plan_as file.now.existing moment file.now.owner file.now.encoding (own_file file.now.name)) result }
{
    let bytes = read_input(alloc, file.encoding, reader)?;
    let most = most_bytes(file.encoding);
    if bytes.len() > most {
        let mut said = write_no_room(alloc, writer, service)?;
        said.reason = Some(Reason::Input(Misfit::Excess(most)));
        return Ok(said);
    }
    let Ok(words) = words_of(alloc, file.encoding, &bytes) else {
        return Err(SessionError::NoMemory);
    };
    let mut tally = Tally::none();
    let text = put_words(alloc, service, moment, &mut tally, file, &words);
    tally.reason = reason_of(&words);
    print(writer, text)?;
    Ok(tally)
}
