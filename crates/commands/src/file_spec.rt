//! The names and owners of files in the text of a line.
ghost use Rattle.std.specs.Prelude.{◌≡◌, ◌≤◌, ◌↔◌, true, IfSome, IfNone, ℕ, Option};
ghost use Rattle.spec_language.specs.Common.{is_letter, Are, IsName, IsExtension, IsOwner, IsSpec, AreSpecs};
ghost use Rattle.spec_language.specs.declared.command.Spec.{Spec as SpecValue};
ghost use Rattle.commands.specs.Common.{AreLetters, IsFileName};

use crate::fields::length_before;
use crate::grammar::bracketed;
use spec_language::Spec;
use words36::{FileName, Half, Ppn, Word, sixbit_of};

/// Returns whether a byte is a letter in upper case or a digit.
fn is_letter(byte: u8) -> bool
    ensures { result ≡ is_letter byte }
{
    byte.is_ascii_uppercase() || byte.is_ascii_digit()
}

/// Returns whether all bytes of a text are letters in upper case or digits.
fn are_letters(text: &[u8]) -> bool
    ensures { (result ≡ true) ↔ Are is_letter text.now }
{
    for byte in text {
        if !is_letter(*byte) {
            return false;
        }
    }
    true
}

/// Returns the word of at most `most` letters and digits, which a name can hold.
fn letters(text: &[u8], most: usize) -> Option<Word>
    requires { most ≤ 6 }
    ensures some { IfSome result (λ word. AreLetters most text.now word) }
    ensures none { IfNone result ((word : ℕ) → AreLetters most text.now word → ⊥) }
{
    if most < text.len() || !are_letters(text) {
        return None;
    }
    sixbit_of(text).ok()
}

/// Returns the word of a file's name.
fn name_word(text: &[u8]) -> Option<Word>
    ensures some { IfSome result (λ name. IsName text.now name) }
    ensures none { IfNone result ((name : ℕ) → IsName text.now name → ⊥) }
{
    if text.is_empty() {
        return None;
    }
    letters(text, 6)
}

/// Returns a file's extension, which follows a full stop, or blanks for an empty text.
fn extension(text: &[u8]) -> Option<Half>
    ensures some { IfSome result (λ ext. IsExtension text.now ext) }
    ensures none { IfNone result ((ext : ℕ) → IsExtension text.now ext → ⊥) }
{
    let Some((stop, behind)) = text.split_first() else {
        return Some(Half::from_bits(0));
    };
    if *stop != b'.' {
        return None;
    }
    Some(letters(behind, 3)?.left())
}

/// Returns the file's name that `NAME` or `NAME.EXT` spells.
pub(crate) fn file_name(text: &[u8]) -> Option<FileName>
    ensures some { IfSome result (λ file. IsFileName text.now file.name file.ext) }
    ensures none { IfNone result ((name ext : ℕ) → IsFileName text.now name ext → ⊥) }
{
    let (front, back) = text.split_at(length_before(text, b'.'));
    let name = name_word(front)?;
    let ext = extension(back)?;
    Some(FileName { name, ext })
}

/// Returns the owner of a file: `[p,n]`, or nothing, which is the job's own.
fn owner(text: &[u8]) -> Option<Option<Ppn>>
    ensures some { IfSome result (λ owner. IsOwner text.now owner) }
    ensures none { IfNone result ((owner : Option ℕ) → IsOwner text.now owner → ⊥) }
{
    if text.is_empty() {
        return Some(None);
    }
    Some(Some(bracketed(text)?))
}

/// Returns the file that a text names.
pub(crate) fn spec(text: &[u8]) -> Option<Spec>
    ensures some { IfSome result (λ spec. IsSpec text.now spec) }
    ensures none { IfNone result ((spec : SpecValue) → IsSpec text.now spec → ⊥) }
{
    let (front, back) = text.split_at(length_before(text, b'['));
    let name = file_name(front)?;
    let owner = owner(back)?;
    Some(Spec { name, owner })
}

/// Returns the two files of `SPEC=SPEC`: the new one, and the one that it is made from.
pub(crate) fn specs(text: &[u8]) -> Option<(Spec, Spec)>
    ensures some { IfSome result (λ specs. AreSpecs text.now specs.0 specs.1) }
    ensures none { IfNone result ((to from : SpecValue) → AreSpecs text.now to from → ⊥) }
{
    let (front, behind) = text.split_at(length_before(text, b'='));
    let (_, back) = behind.split_first()?;
    let to = spec(front)?;
    let from = spec(back)?;
    Some((to, from))
}
