//! The texts that are printed: greeting, refusals, replies of a call script, and lists in columns.
ghost use Rattle.std.specs.Prelude.{◌≡◌, ◌++◌, IfOk, OnOk, codes, string_bytes};
ghost use Rattle.words36.specs.Common.{characters};
ghost use Rattle.spec_language.specs.Common.{words_given, line, refusal, code_text, greeting, right_in, three_digits};
ghost use Rattle.spec_language.specs.Common.{extension_text, month_text, day_text, entry_text, blocks_in, total_text};
ghost use Rattle.spec_language.specs.Common.{listing, list_text, volume_line};

use crate::tsv::table;
use spec_image::Entry;
use spec_language::Style;
use spec_machine::Reply;
use std::alloc::{AllocError, Global};
use words36::{FileName, Half, Ppn, text_of};

/// Returns the bytes of a text, with a line feed after them.
pub fn line(alloc: Global, text: &str) -> Result<Vec<u8>, AllocError>
    ensures { IfOk result (λ bytes. bytes.items ≡ line text.now) }
{
    let mut bytes = Vec::new(alloc);
    bytes.extend_from_slice(text.as_bytes())?;
    bytes.push(b'\n')?;
    Ok(bytes)
}

/// Returns the text of a refusal, by the reply of the call: a text without a line feed.
pub fn refusal(reply: &Reply) -> &'static str
    ensures { result.now ≡ refusal reply.now }
{
    match reply {
        Reply::Refused(code) => code_text(*code),
        Reply::Stopped(_) => "?No room",
        Reply::NoJob => "?Not logged in",
        Reply::NoMemory => "?No memory",
        Reply::Device => "?Device fault",
        Reply::Failed => "?Service stopped",
        Reply::DateRange => "?Date out of range",
        Reply::Done | Reply::Value(_) | Reply::NoChannel | Reply::AddressCheck => {
            "?Illegal sequence"
        }
    }
}

/// Returns the text for a code of a refused call.
fn code_text(code: u32) -> &'static str
    ensures { result.now ≡ code_text code }
{
    match code {
        0 => "?File not found",
        1 => "?No such directory",
        2 => "?Protection failure",
        3 => "?File being modified",
        4 => "?File name already exists",
        0o14 => "?No room",
        0o22 => "?Directory not empty",
        _ => "?Illegal sequence",
    }
}

/// Returns the line that a call script prints for a reply; its numbers are octal.
pub fn reply_line(alloc: Global, reply: &Reply) -> Result<Vec<u8>, AllocError>
    ensures { IfOk result (λ bytes. bytes.items ≡ line (words_given reply.now)) }
{
    match reply {
        Reply::Done => line(alloc, "DONE"),
        Reply::Value(word) => {
            let bits = word.bits();
            let text = format!(in alloc; "VALUE {bits:012o}")?;
            line(alloc, text.as_str())
        }
        Reply::Refused(code) => {
            let text = format!(in alloc; "REFUSED {code:o}")?;
            line(alloc, text.as_str())
        }
        Reply::Stopped(status) => {
            let text = format!(in alloc; "STOPPED {status:06o}")?;
            line(alloc, text.as_str())
        }
        Reply::NoChannel => line(alloc, "NOCHANNEL"),
        Reply::AddressCheck => line(alloc, "ADDRESS"),
        Reply::NoJob => line(alloc, "NOJOB"),
        Reply::NoMemory => line(alloc, "NOMEMORY"),
        Reply::Device => line(alloc, "DEVICE"),
        Reply::Failed => line(alloc, "FAILED"),
        Reply::DateRange => line(alloc, "DATE"),
    }
}

/// Returns what a login prints: the bytes of `Job 1 [10,20]`, with these numbers in octal, and a line feed.
pub fn greeting(alloc: Global, owner: Ppn) -> Result<Vec<u8>, AllocError>
    ensures { IfOk result (λ bytes. bytes.items ≡ greeting owner) }
{
    let text = format!(in alloc; "Job 1 {owner}")?;
    line(alloc, text.as_str())
}

/// Returns the line about a volume: how many blocks it has, and how many are left; the numbers are decimal.
pub fn volume_line(alloc: Global, blocks: u32, room: i64) -> Result<Vec<u8>, AllocError>
    ensures { IfOk result (λ bytes. bytes.items ≡ volume_line blocks room) }
{
    let text = format!(in alloc; "Volume of {blocks} blocks, room {room}")?;
    line(alloc, text.as_str())
}

/// Returns what is printed for the list of a directory, in one style or the other.
pub fn list_text(
    alloc: Global,
    style: Style,
    owner: Ppn,
    entries: &[Entry],
) -> Result<Vec<u8>, AllocError>
    ensures { IfOk result (λ bytes. bytes.items ≡ list_text style owner entries.now) }
{
    match style {
        Style::Columns => listing(alloc, owner, entries),
        Style::Table => table(alloc, owner, entries),
    }
}

/// Returns what DIRECTORY prints: the bytes of a line for each entry, and of a line with the totals.
#[tactic(auto, unfolding(spec_language::specs::Texts::listing))]
fn listing(alloc: Global, owner: Ppn, entries: &[Entry]) -> Result<Vec<u8>, AllocError>
    ensures { IfOk result (λ bytes. bytes.items ≡ listing owner entries.now) }
{
    let mut bytes = Vec::new(alloc);
    for entry in entries {
        push_entry(alloc, &mut bytes, *entry)?;
    }
    let total = total_text(alloc, owner, entries)?;
    bytes.extend_from_slice(total.as_str().as_bytes())?;
    Ok(bytes)
}

/// Appends the line of an entry to the bytes: its name, blocks, protection and day.
fn push_entry(alloc: Global, bytes: &mut Vec<u8>, entry: Entry) -> Result<(), AllocError>
    ensures { OnOk result (bytes.new.items ≡ bytes.old.items ++ entry_text entry) }
{
    let blocks = entry.blocks;
    let blocks = format!(in alloc; "{blocks}")?;
    push_name(bytes, entry.name)?;
    bytes.push(b' ')?;
    push_right(bytes, 5, blocks.as_str())?;
    bytes.extend_from_slice(b"  <")?;
    bytes.extend_from_slice(&three_digits(entry.protection))?;
    bytes.extend_from_slice(b">  ")?;
    push_day(alloc, bytes, entry.date)?;
    bytes.push(b'\n')?;
    Ok(())
}

/// Appends a name and an extension to the bytes, with a blank between them.
fn push_name(bytes: &mut Vec<u8>, name: FileName) -> Result<(), AllocError>
    ensures { OnOk result (bytes.new.items ≡ bytes.old.items
        ++ (characters name.name ++ codes " " ++ extension_text name.ext)) }
{
    bytes.extend_from_slice(&text_of(name.name))?;
    bytes.push(b' ')?;
    bytes.extend_from_slice(&extension_text(name.ext))?;
    Ok(())
}

/// Appends a day to the bytes, as ` 4-Jan-1975`.
fn push_day(alloc: Global, bytes: &mut Vec<u8>, date: u32) -> Result<(), AllocError>
    ensures { OnOk result (bytes.new.items ≡ bytes.old.items ++ day_text date) }
{
    let day = date % 31 + 1;
    let day = format!(in alloc; "{day}")?;
    let month = month_text(date / 31 % 12);
    let year = date / 372 + 1964;
    let rest = format!(in alloc; "-{month}-{year}")?;
    push_right(bytes, 2, day.as_str())?;
    bytes.extend_from_slice(rest.as_str().as_bytes())?;
    Ok(())
}

/// Appends a text to the bytes, after as many blanks as it needs to fill the places.
fn push_right(bytes: &mut Vec<u8>, places: usize, text: &str) -> Result<(), AllocError>
    ensures { OnOk result (bytes.new.items ≡ bytes.old.items ++ right_in places text.now) }
{
    for _i in 0..places.saturating_sub(text.len()) {
        bytes.push(b' ')?;
    }
    bytes.extend_from_slice(text.as_bytes())?;
    Ok(())
}

/// Returns the three characters of an extension.
pub fn extension_text(ext: Half) -> [u8; 3]
    ensures { result ≡ extension_text ext }
{
    let bits = ext.bits();
    [
        (bits / 4096 % 64) as u8 + b' ',
        (bits / 64 % 64) as u8 + b' ',
        (bits % 64) as u8 + b' ',
    ]
}

/// Returns a number as three octal digits.
pub(crate) fn three_digits(number: u32) -> [u8; 3]
    ensures { result ≡ three_digits number }
{
    [
        (number / 64 % 8) as u8 + b'0',
        (number / 8 % 8) as u8 + b'0',
        (number % 8) as u8 + b'0',
    ]
}

/// Returns a month's name; January is 0.
pub(crate) fn month_text(month: u32) -> &'static str
    ensures { result.now ≡ month_text month }
{
    match month {
        0 => "Jan",
        1 => "Feb",
        2 => "Mar",
        3 => "Apr",
        4 => "May",
        5 => "Jun",
        6 => "Jul",
        7 => "Aug",
        8 => "Sep",
        9 => "Oct",
        10 => "Nov",
        _ => "Dec",
    }
}

/// Returns the last line of a list: how many blocks and files it has, or that it has no files.
fn total_text(alloc: Global, owner: Ppn, entries: &[Entry]) -> Result<String, AllocError>
    ensures { IfOk result (λ text. string_bytes text ≡ total_text owner entries.now) }
{
    if entries.is_empty() {
        return format!(in alloc; "No files {owner}\n");
    }
    let blocks = total_blocks(entries);
    let files = entries.len();
    format!(in alloc; "Total {blocks} blocks in {files} files {owner}\n")
}

/// Returns how many blocks the entries have together. No list that fits in memory has a sum of more than 128 bits.
fn total_blocks(entries: &[Entry]) -> u128
    ensures { result ≡ blocks_in entries.now }
{
    let mut blocks: u128 = 0;
    for entry in entries {
        blocks += u128::from(entry.blocks);
    }
    blocks
}
