//! The owner and the file that the words of a command line name.
ghost use Rattle.std.specs.Prelude.{map, IfSome, IfNone, ℕ};
ghost use Rattle.spec_language.specs.Common.{upper};
ghost use Rattle.commands.specs.Common.{IsFileName, IsOwnerName};

use crate::fields::pair;
use crate::file_spec::file_name;
use crate::grammar::bracketed;
use crate::input::{InputLine, PartialLine};
use words36::{FileName, Ppn};

/// Returns the owner that `p,n` or `[p,n]` spells: one to six octal digits each, neither of them 0.
pub fn owner_named(text: &[u8]) -> Option<Ppn>
    ensures some { IfSome result (λ owner. IsOwnerName text.now owner) }
    ensures none { IfNone result ((owner : ℕ) → IsOwnerName text.now owner → ⊥) }
{
    match pair(text, 6) {
        Some(owner) => Some(owner),
        None => bracketed(text),
    }
}

/// Returns the file that `NAME` or `NAME.EXT` spells, with letters of either case.
pub fn file_named(text: &[u8]) -> Option<FileName>
    ensures some { IfSome result (λ file. IsFileName (map upper text.now) file.name file.ext) }
    ensures none { IfNone result ((name ext : ℕ) → IsFileName (map upper text.now) name ext → ⊥) }
{
    let mut line = PartialLine::new();
    for byte in text {
        line.push(*byte);
    }
    match line.last() {
        Some(InputLine::Text(text)) => file_name(text),
        Some(InputLine::TooLong) => None,
        None => None,
    }
}
