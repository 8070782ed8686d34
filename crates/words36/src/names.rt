//! Project-programmer numbers, and the names of files.
ghost use Rattle.std.specs.Prelude.{◌≡◌, ◌<◌, ◌^◌, ◌↔◌, Some, IsSome, IfSome};
ghost use Rattle.words36.specs.Common.{left, right, join, IsPpn, ppn_text};

use crate::{Half, Word};
use std::fmt;
use std::marker::Model;

/// A project-programmer number (PPN): a word with the project in its left half and the programmer in its right half,
/// both from 1 to 777777 (octal). Printed as `[10,20]`, in octal.
#[derive(Clone, Copy, Debug, PartialEq, Eq, PartialOrd, Ord, Hash)]
pub struct Ppn {
    word: Word,
}

impl Model for Ppn {
    ghost use Rattle.std.specs.Prelude.{ℕ};
    ghost use Rattle.words36.specs.Common.{IsPpn};

    ghost Value = { ℕ };

    ghost view = { λ p. p.word };

    ghost invariant = { λ p. IsPpn p.word };

    ghost inverse = { λ n. record { word = n } };
}

impl Ppn {
    /// Returns the PPN of a project and a programmer, or `None` if one of them is zero or has more than 18 bits.
    pub fn new(project: u32, programmer: u32) -> Option<Ppn>
        ensures value { IfSome result (λ p. p ≡ join project programmer) }
        ensures project_is { IfSome result (λ p. left p ≡ project) }
        ensures programmer_is { IfSome result (λ p. right p ≡ programmer) }
        ensures fits { IsSome result ↔ ((0 < project) × (project < 2 ^ 18) × (0 < programmer) × (programmer < 2 ^ 18)) }
    {
        Ppn::from_word(Word::from_halves(Half::new(project)?, Half::new(programmer)?))
    }

    /// Returns the PPN that this word is, or `None` if one of its halves is zero.
    pub fn from_word(word: Word) -> Option<Ppn>
        ensures value { IfSome result (λ p. p ≡ word) }
        ensures fits { IsSome result ↔ IsPpn word }
    {
        if word.left().bits() != 0 && word.right().bits() != 0 {
            Some(Ppn { word })
        } else {
            None
        }
    }

    /// Returns the word with the project in its left half and the programmer in its right half.
    pub fn word(self) -> Word
        ensures value { result ≡ self }
        ensures ppn { IsPpn result }
    {
        self.word
    }

    /// Returns the project.
    pub fn project(self) -> Half
        ensures { result ≡ left self }
    {
        self.word.left()
    }

    /// Returns the programmer.
    pub fn programmer(self) -> Half
        ensures { result ≡ right self }
    {
        self.word.right()
    }
}

impl fmt::Display for Ppn {
    ghost output = { λ p. Some (ppn_text p) };

    fn fmt<W: fmt::Write>(&self, f: &mut fmt::Formatter<W>) -> fmt::Result {
        let project = self.project().bits();
        let programmer = self.programmer().bits();
        write!(f, "[{project:o},{programmer:o}]")
    }
}

/// The name of a file in its directory.
#[derive(Clone, Copy, Debug, PartialEq, Eq, PartialOrd, Ord, Hash)]
pub struct FileName {
    /// The name: six SIXBIT characters.
    pub name: Word,
    /// The extension: three SIXBIT characters, the left half of the word that holds it on disk.
    pub ext: Half,
}
