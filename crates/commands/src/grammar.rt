//! The grammar of the command language: the command of a line.
ghost use Rattle.std.specs.Prelude.{◌≡◌, ◌++◌, ◌∷◌, [], IfSome, IfNone, ℕ, List};
ghost use Rattle.spec_language.specs.Common.{AreFields, IsBracketed, IsAngled, IsProtection, IsProtected};
ghost use Rattle.spec_language.specs.Common.{IsNewDirectory, IsLimit, IsCommand, Says, Means};
ghost use Rattle.spec_language.specs.declared.command.Command.TheVariants.{Quota as QuotaLine};
ghost use Rattle.spec_language.specs.declared.command.Spec.{Spec as SpecValue};
ghost use Rattle.commands.specs.Common.{line_of};

use crate::fields::{behind_word, block_count, first_field, length_before, pair, small_number};
use crate::file_spec::{spec, specs};
use crate::input::InputLine;
use spec_language::{Command, Spec};
use words36::Ppn;

/// Returns the two fields of a text that has two, with spaces between them and none at its ends.
fn two_fields(text: &[u8]) -> Option<(&[u8], &[u8])>
    ensures some { IfSome result (λ fields. AreFields (fields.0.now ∷ fields.1.now ∷ []) text.now) }
    ensures none { IfNone result ((word argument : List ℕ) → AreFields (word ∷ argument ∷ []) text.now → ⊥) }
{
    let (word, behind) = first_field(text)?;
    let (argument, rest) = first_field(behind)?;
    if rest.is_empty() {
        Some((word, argument))
    } else {
        None
    }
}

/// Returns the text between two brackets of a kind.
fn between(text: &[u8], begin: u8, end: u8) -> Option<&[u8]>
    ensures some { IfSome result (λ inner. text.now ≡ begin ∷ (inner.now ++ end ∷ [])) }
    ensures none { IfNone result ((inner : List ℕ) → text.now ≡ begin ∷ (inner ++ end ∷ []) → ⊥) }
{
    let (first, behind) = text.split_first()?;
    let (last, inner) = behind.split_last()?;
    if *first == begin && *last == end {
        Some(inner)
    } else {
        None
    }
}

/// Returns the project and the programmer of `[p,n]`.
pub(crate) fn bracketed(text: &[u8]) -> Option<Ppn>
    ensures some { IfSome result (λ owner. IsBracketed text.now owner) }
    ensures none { IfNone result ((owner : ℕ) → IsBracketed text.now owner → ⊥) }
{
    pair(between(text, b'[', b']')?, 6)
}

/// Returns the protection of `<PROT>`, one to three digits.
fn angled(text: &[u8]) -> Option<u32>
    ensures some { IfSome result (λ number. IsAngled text.now number) }
    ensures none { IfNone result ((number : ℕ) → IsAngled text.now number → ⊥) }
{
    small_number(between(text, b'<', b'>')?, 3)
}

/// Returns the protection of `<PROT>`, or 0 for an empty text.
fn protection(text: &[u8]) -> Option<u32>
    ensures some { IfSome result (λ number. IsProtection text.now number) }
    ensures none { IfNone result ((number : ℕ) → IsProtection text.now number → ⊥) }
{
    if text.is_empty() {
        return Some(0);
    }
    angled(text)
}

/// Returns the directory and the protection of `[p,n]` or `[p,n]<PROT>`.
fn made(text: &[u8]) -> Option<(Ppn, u32)>
    ensures some { IfSome result (λ made. IsNewDirectory text.now made.0 made.1) }
    ensures none { IfNone result ((owner number : ℕ) → IsNewDirectory text.now owner number → ⊥) }
{
    let (front, back) = text.split_at(length_before(text, b'<'));
    let owner = bracketed(front)?;
    let number = protection(back)?;
    Some((owner, number))
}

/// Returns the directory and the number of blocks of `[p,n] N`, with one space between the two.
fn limit(text: &[u8]) -> Option<(Ppn, u32)>
    ensures some { IfSome result (λ limit. IsLimit text.now limit.0 limit.1) }
    ensures none { IfNone result ((owner blocks : ℕ) → IsLimit text.now owner blocks → ⊥) }
{
    let (front, back) = text.split_at(length_before(text, b' '));
    let owner = bracketed(front)?;
    let (_, digits) = back.split_first()?;
    let blocks = block_count(digits)?;
    Some((owner, blocks))
}

/// Returns the directory and the number of blocks of `QUOTA [p,n] N`.
fn quota_line(text: &[u8]) -> Option<(Ppn, u32)>
    ensures some { IfSome result (λ limit. IsCommand text.now (QuotaLine limit.0 limit.1)) }
    ensures none { IfNone result ((owner blocks : ℕ) → IsCommand text.now (QuotaLine owner blocks) → ⊥) }
{
    limit(behind_word(text, b"QUOTA".as_slice())?)
}

/// Returns the file and the protection of `SPEC<PROT>`.
fn protected(text: &[u8]) -> Option<(Spec, u32)>
    ensures some { IfSome result (λ found. IsProtected text.now found.0 found.1) }
    ensures none { IfNone result ((spec : SpecValue) (number : ℕ) → IsProtected text.now spec number → ⊥) }
{
    let (front, back) = text.split_at(length_before(text, b'<'));
    let spec = spec(front)?;
    let number = angled(back)?;
    Some((spec, number))
}

/// Returns the command that a word and the text after it spell.
fn command_with(word: &[u8], argument: &[u8]) -> Option<Command>
    ensures { (text : List ℕ) → AreFields (word.now ∷ argument.now ∷ []) text → Says text result }
{
    if word == b"LOGIN".as_slice() {
        return Some(Command::Login(bracketed(argument)?));
    }
    if word == b"DIRECTORY".as_slice() {
        return Some(Command::Directory(Some(bracketed(argument)?)));
    }
    if word == b"MAKDIR".as_slice() {
        let (owner, number) = made(argument)?;
        return Some(Command::MakeDir(owner, number));
    }
    if word == b"COPY".as_slice() {
        let (to, from) = specs(argument)?;
        return Some(Command::Copy(to, from));
    }
    if word == b"TYPE".as_slice() {
        return Some(Command::TypeOut(spec(argument)?));
    }
    if word == b"RENAME".as_slice() {
        let (to, from) = specs(argument)?;
        return Some(Command::Rename(to, from));
    }
    if word == b"DELETE".as_slice() {
        return Some(Command::Delete(spec(argument)?));
    }
    if word == b"PROTECT".as_slice() {
        let (spec, number) = protected(argument)?;
        return Some(Command::Protect(spec, number));
    }
    None
}

/// Returns the command that a text in upper case spells.
pub fn command_of(text: &[u8]) -> Option<Command>
    ensures { Says text.now result }
{
    if text == b"DIRECTORY".as_slice() {
        return Some(Command::Directory(None));
    }
    if let Some((owner, blocks)) = quota_line(text) {
        return Some(Command::Quota(owner, blocks));
    }
    let (word, argument) = two_fields(text)?;
    command_with(word, argument)
}

/// Returns the command of a line, if it has one; a line that is too long has none.
pub fn parse_command(line: InputLine<'_>) -> Option<Command>
    ensures { Means (line_of line.entry) result }
{
    match line {
        InputLine::Text(text) => command_of(text),
        InputLine::TooLong => None,
    }
}
