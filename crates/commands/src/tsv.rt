//! The list of a directory as a table: a line for each file, with tabs between its fields.
ghost use Rattle.std.specs.Prelude.{◌≡◌, ◌++◌, ◌≤◌, All, IfOk, OnOk, string_bytes};
ghost use Rattle.spec_language.specs.Common.{trimmed, two_octal, two_digits, place_fields, right_fields, day_field};
ghost use Rattle.spec_language.specs.Common.{minute_field, owner_text, size_fields, row_text, table};

use crate::text::{extension_text, three_digits};
use spec_image::Entry;
use std::alloc::{AllocError, Global};
use words36::{FileName, Ppn, text_of};

/// Returns a list as a table: the bytes of a line for each entry.
#[tactic(auto, unfolding(spec_language::specs::Texts::table))]
pub fn table(alloc: Global, owner: Ppn, entries: &[Entry]) -> Result<Vec<u8>, AllocError>
    ensures { IfOk result (λ bytes. bytes.items ≡ table owner entries.now) }
{
    let mut bytes = Vec::new(alloc);
    for entry in entries {
        push_row(alloc, &mut bytes, owner, *entry)?;
    }
    Ok(bytes)
}

/// Appends the line of an entry to the bytes.
fn push_row(alloc: Global, bytes: &mut Vec<u8>, owner: Ppn, entry: Entry) -> Result<(), AllocError>
    ensures { OnOk result (bytes.new.items ≡ bytes.old.items ++ row_text owner entry) }
{
    push_place(alloc, bytes, owner, entry.name)?;
    push_rights(bytes, entry.protection, entry.mode)?;
    push_day(alloc, bytes, entry.date)?;
    push_minute(bytes, entry.time)?;
    push_size(alloc, bytes, entry.length, entry.blocks)?;
    bytes.push(b'\n')?;
    Ok(())
}

/// Appends the owner of a file to the bytes, as `10,20`, and its name and extension, each with a tab after it.
fn push_place(
    alloc: Global,
    bytes: &mut Vec<u8>,
    owner: Ppn,
    name: FileName,
) -> Result<(), AllocError>
    ensures { OnOk result (bytes.new.items ≡ bytes.old.items ++ place_fields owner name) }
{
    let place = owner_text(alloc, owner)?;
    bytes.extend_from_slice(place.as_str().as_bytes())?;
    bytes.push(b'\t')?;
    bytes.extend_from_slice(trimmed(&text_of(name.name)))?;
    bytes.push(b'\t')?;
    bytes.extend_from_slice(trimmed(&extension_text(name.ext)))?;
    bytes.push(b'\t')?;
    Ok(())
}

/// Returns an owner as the words of a command line name it: `10,20`.
fn owner_text(alloc: Global, owner: Ppn) -> Result<String, AllocError>
    ensures { IfOk result (λ text. string_bytes text ≡ owner_text owner) }
{
    let project = owner.project().bits();
    let programmer = owner.programmer().bits();
    format!(in alloc; "{project:o},{programmer:o}")
}

/// Returns a text of SIXBIT characters without the blanks at its end.
pub fn trimmed(text: &[u8]) -> &[u8]
    requires { All (λ c. 32 ≤ c) text.now }
    ensures { result.now ≡ trimmed text.now }
{
    text.trim_ascii_end()
}

/// Appends a protection and a mode to the bytes, in octal, each with a tab after it.
fn push_rights(bytes: &mut Vec<u8>, protection: u32, mode: u32) -> Result<(), AllocError>
    ensures { OnOk result (bytes.new.items ≡ bytes.old.items ++ right_fields protection mode) }
{
    bytes.extend_from_slice(&three_digits(protection))?;
    bytes.push(b'\t')?;
    bytes.extend_from_slice(&two_octal(mode))?;
    bytes.push(b'\t')?;
    Ok(())
}

/// Returns a number as two octal digits.
fn two_octal(number: u32) -> [u8; 2]
    ensures { result ≡ two_octal number }
{
    [(number / 8 % 8) as u8 + b'0', (number % 8) as u8 + b'0']
}

/// Returns a number as two decimal digits.
fn two_digits(number: u32) -> [u8; 2]
    ensures { result ≡ two_digits number }
{
    [(number / 10 % 10) as u8 + b'0', (number % 10) as u8 + b'0']
}

/// Appends a day to the bytes, as `1975-01-04`, and a tab.
fn push_day(alloc: Global, bytes: &mut Vec<u8>, date: u32) -> Result<(), AllocError>
    ensures { OnOk result (bytes.new.items ≡ bytes.old.items ++ day_field date) }
{
    let year = date / 372 + 1964;
    let year = format!(in alloc; "{year}-")?;
    bytes.extend_from_slice(year.as_str().as_bytes())?;
    bytes.extend_from_slice(&two_digits(date / 31 % 12 + 1))?;
    bytes.push(b'-')?;
    bytes.extend_from_slice(&two_digits(date % 31 + 1))?;
    bytes.push(b'\t')?;
    Ok(())
}

/// Appends a minute of the day to the bytes, as `10:05`, and a tab.
fn push_minute(bytes: &mut Vec<u8>, minute: u32) -> Result<(), AllocError>
    ensures { OnOk result (bytes.new.items ≡ bytes.old.items ++ minute_field minute) }
{
    bytes.extend_from_slice(&two_digits(minute / 60))?;
    bytes.push(b':')?;
    bytes.extend_from_slice(&two_digits(minute % 60))?;
    bytes.push(b'\t')?;
    Ok(())
}

/// Appends a number of words and one of blocks to the bytes, with a tab between them.
fn push_size(alloc: Global, bytes: &mut Vec<u8>, words: u32, blocks: u32) -> Result<(), AllocError>
    ensures { OnOk result (bytes.new.items ≡ bytes.old.items ++ size_fields words blocks) }
{
    let sizes = format!(in alloc; "{words}\t{blocks}")?;
    bytes.extend_from_slice(sizes.as_str().as_bytes())?;
    Ok(())
}
