//! The import of bytes in memory as a new file, and its answer after a label.
ghost use Rattle.std.specs.Prelude.{◌≡◌, ◌++◌, IfOk};
ghost use Rattle.spec_language.specs.Common.{own_file};
ghost use Rattle.commands.specs.Common.{FinishesPlan, Errand, put_plan_as, no_room, Imported, labels, words_said};
ghost use Rattle.commands.specs.declared.existing.Existing.TheVariants.{Refuse};

use crate::answer::{Tally, refuse};
use crate::existing::Existing;
use crate::input_words::{most_bytes, words_of};
use crate::put_file::PutFile;
use crate::run::print;
use crate::service::FileService;
use crate::transfer::{put_words, reason_of};
use crate::{Misfit, Reason, SessionError};
use spec_language::Encoding;
use std::alloc::{AllocError, Global};
use std::io::Write;
use words36::{FileName, Moment, Ppn, Word};

/// A file that will be made if there is none of its name.
#[derive(Clone, Copy, Debug, PartialEq, Eq)]
pub struct Import<'a> {
    /// The owner of the directory that it comes into: job 1 logs in as this owner.
    pub owner: Ppn,
    /// Its name.
    pub name: FileName,
    /// The encoding of its bytes.
    pub encoding: Encoding,
    /// The moment at which it is made.
    pub moment: Moment,
    /// What is written before the answer.
    pub label: &'a [u8],
    /// The bytes that it is made of.
    pub bytes: &'a [u8],
}

/// Returns a text after a label.
fn text_behind(alloc: Global, label: &[u8], text: &[u8]) -> Result<Vec<u8>, AllocError>
    ensures { IfOk result (λ line. line.items ≡ label.now ++ text.now) }
{
    let mut line = label.to_vec(alloc)?;
    line.extend_from_slice(text)?;
    Ok(line)
}

/// Returns, after a label, the refusal of bytes that are too long.
fn refuse_length<S: FileService>(
    alloc: Global,
    service: &mut S,
    tally: &mut Tally,
    label: &[u8],
) -> Result<Vec<u8>, AllocError>
    ensures { FinishesPlan (λ bytes. bytes.items) result S.machine service.old service.new (labels label.now no_room)
        tally.old tally.new }
{
    let text = refuse(alloc, tally, "?No room", false)?;
    text_behind(alloc, label, &text)
}

/// Writes, after a label, the refusal of bytes that are too long.
fn write_excess<W: Write, S: FileService>(
    alloc: Global,
    writer: &mut W,
    service: &mut S,
    label: &[u8],
) -> Result<Tally, SessionError>
    ensures { Errand (W.contents writer.old) (W.contents writer.new) S.machine service.old service.new
        (labels label.now no_room) result }
{
    let mut tally = Tally::none();
    let text = refuse_length(alloc, service, &mut tally, label);
    print(writer, text)?;
    Ok(tally)
}

/// Puts a file of these words, or refuses the bytes if they have none, and returns the label with what this prints.
fn import_words<S: FileService>(
    alloc: Global,
    service: &mut S,
    tally: &mut Tally,
    file: &Import<'_>,
    words: &Result<Vec<Word>, Misfit>,
) -> Result<Vec<u8>, AllocError>
    ensures { FinishesPlan (λ bytes. bytes.items) result S.machine service.old service.new (labels file.now.label.now
        (put_plan_as Refuse file.now.moment file.now.owner file.now.encoding (own_file file.now.name)
        (words_said (λ v. v.items) words.now))) tally.old tally.new }
{
    let put = PutFile {
        owner: file.owner,
        name: file.name,
        encoding: file.encoding,
        existing: Existing::Refuse,
    };
    let text = put_words(alloc, service, file.moment, tally, &put, words)?;
    text_behind(alloc, file.label, &text)
}

/// Makes a file of bytes if there is none of its name, by job 1, which logs in for it, and writes how that went after a
/// label.
///
/// # Errors
///
/// `Write` if the writer failed, and `NoMemory` if the line found no room: the calls were made. `NoMemory` if the words
/// found no room: no call was made.
pub fn take_in<W: Write, S: FileService>(
    alloc: Global,
    writer: &mut W,
    service: &mut S,
    file: &Import<'_>,
) -> Result<Tally, SessionError>
    ensures { Imported (W.contents writer.old) (W.contents writer.new) S.machine service.old service.new
        file.now.encoding file.now.label.now file.now.bytes.now
        (put_plan_as Refuse file.now.moment file.now.owner file.now.encoding (own_file file.now.name)) result }
{
    let most = most_bytes(file.encoding);
    if file.bytes.len() > most {
        let mut said = write_excess(alloc, writer, service, file.label)?;
        said.reason = Some(Reason::Input(Misfit::Excess(most)));
        return Ok(said);
    }
    let Ok(words) = words_of(alloc, file.encoding, file.bytes) else {
        return Err(SessionError::NoMemory);
    };
    let mut tally = Tally::none();
    let text = import_words(alloc, service, &mut tally, file, &words);
    tally.reason = reason_of(&words);
    print(writer, text)?;
    Ok(tally)
}
