//! The paths of files of the host that are made.
ghost use Rattle.std.specs.Prelude.{◌≡◌, ◌++◌, ◌∷◌, ◌<◌, [], All, IfOk, OnOk, flat_map, string_bytes};
ghost use Rattle.spec_language.specs.Common.{owner_text, extension_text, trimmed};
ghost use Rattle.collection.specs.Common.{escaped, extended, folder_of as folder_text, hexadecimal, host_name};
ghost use Rattle.collection.specs.HostNames.{doubtful_folder, numbered_path, path_of as path_text, unnamed_folder};

use crate::host_names::is_plain;
use commands::{extension_text, trimmed};
use std::alloc::{AllocError, Global};
use words36::{FileName, Ppn, text_of};

/// Returns an owner as the words of a command line name it: `10,20`.
pub(crate) fn owner_text(alloc: Global, owner: Ppn) -> Result<String, AllocError>
    ensures { IfOk result (λ text. string_bytes text ≡ owner_text owner) }
{
    let project = owner.project().bits();
    let programmer = owner.programmer().bits();
    format!(in alloc; "{project:o},{programmer:o}")
}

/// Returns the folder of a directory, FOLDER/10,20, with its numbers in octal.
pub(crate) fn folder_of(alloc: Global, folder: &str, owner: Ppn) -> Result<String, AllocError>
    ensures { IfOk result (λ path. string_bytes path ≡ folder_text folder.now owner) }
{
    let owner = owner_text(alloc, owner)?;
    format!(in alloc; "{folder}/{owner}")
}

/// Returns a hexadecimal digit.
fn hexadecimal(number: u8) -> u8
    requires { number < 16 }
    ensures value { result ≡ hexadecimal number }
    ensures ascii { result < 128 }
{
    if number < 10 {
        b'0' + number
    } else {
        b'A' + (number - 10)
    }
}

/// Appends a character.
fn push_character(text: &mut String, character: u8) -> Result<(), AllocError>
    requires { character < 128 }
    ensures { OnOk result (string_bytes text.new ≡ string_bytes text.old ++ character ∷ []) }
{
    text.push(char::from(character))
}

/// Appends a character of a name: a letter or a digit as it is, any other as `%` and its code.
fn push_escaped(text: &mut String, character: u8) -> Result<(), AllocError>
    requires { character < 128 }
    ensures { OnOk result (string_bytes text.new ≡ string_bytes text.old ++ escaped character) }
{
    if is_plain(character) {
        return push_character(text, character);
    }
    push_character(text, b'%')?;
    push_character(text, hexadecimal(character / 16))?;
    push_character(text, hexadecimal(character % 16))
}

/// Appends the characters of a name or an extension.
fn push_part(text: &mut String, part: &[u8]) -> Result<(), AllocError>
    requires { All (λ c. c < 128) part.now }
    ensures { OnOk result (string_bytes text.new ≡ string_bytes text.old ++ flat_map escaped part.now) }
{
    for character in part {
        push_escaped(text, *character)?;
    }
    Ok(())
}

/// Appends the extension of a file of the host, if it has one: `.TXT`.
#[tactic(auto, using(crate::proofs::NameLaws::extended_some))]
fn push_extension(text: &mut String, name: FileName) -> Result<(), AllocError>
    ensures { OnOk result (string_bytes text.new ≡ string_bytes text.old
        ++ extended (trimmed (extension_text name.ext))) }
{
    let extension = extension_text(name.ext);
    let extension = trimmed(&extension);
    if !extension.is_empty() {
        push_character(text, b'.')?;
        push_part(text, extension)?;
    }
    Ok(())
}

/// Appends the name of a file of the host, as `FOO.TXT`.
fn push_name(text: &mut String, name: FileName) -> Result<(), AllocError>
    ensures { OnOk result (string_bytes text.new ≡ string_bytes text.old ++ host_name name) }
{
    push_part(text, trimmed(&text_of(name.name)))?;
    push_extension(text, name)
}

/// Returns the path of a file of the host: FOLDER/10,20/FOO.TXT.
pub(crate) fn path_of(
    alloc: Global,
    folder: &str,
    owner: Ppn,
    name: FileName,
) -> Result<String, AllocError>
    ensures { IfOk result (λ path. string_bytes path ≡ path_text folder.now owner name) }
{
    let mut path = folder_of(alloc, folder, owner)?;
    push_character(&mut path, b'/')?;
    push_name(&mut path, name)?;
    Ok(path)
}

/// Returns the path of a file that no directory names, with the number of its prime block: FOLDER/10,20/FOO%1234.TXT.
pub(crate) fn numbered_path(
    alloc: Global,
    folder: &str,
    owner: Ppn,
    name: FileName,
    prime: u32,
) -> Result<String, AllocError>
    ensures { IfOk result (λ path. string_bytes path ≡ numbered_path folder.now owner name prime) }
{
    let mut path = folder_of(alloc, folder, owner)?;
    push_character(&mut path, b'/')?;
    push_part(&mut path, trimmed(&text_of(name.name)))?;
    let mut path = format!(in alloc; "{path}%{prime}")?;
    push_extension(&mut path, name)?;
    Ok(path)
}

/// Returns the folder for files with a block that may not be theirs: FOLDER/doubtful.
pub(crate) fn doubtful_folder(alloc: Global, folder: &str) -> Result<String, AllocError>
    ensures { IfOk result (λ path. string_bytes path ≡ doubtful_folder folder.now) }
{
    format!(in alloc; "{folder}/doubtful")
}

/// Returns the folder for files that no directory names: FOLDER/unnamed.
pub(crate) fn unnamed_folder(alloc: Global, folder: &str) -> Result<String, AllocError>
    ensures { IfOk result (λ path. string_bytes path ≡ unnamed_folder folder.now) }
{
    format!(in alloc; "{folder}/unnamed")
}
