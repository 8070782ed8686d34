//! An area of words in a core.
use std::marker::Model;

/// Consecutive words of a core, seen as an area of the definitions.
#[derive(Clone, Copy, Debug, PartialEq, Eq)]
pub struct CoreArea {
    /// The address of the first word.
    pub first: usize,
    /// The number of words.
    pub count: usize,
}

impl Model for CoreArea {
    ghost use Rattle.spec_machine.specs.declared.area.Area.{Area as Words};

    ghost Value = { Words };

    ghost view = { λ a. record { first = a.first; count = a.count } };

    ghost inverse = { λ a. record { first = a.first; count = a.count } };
}

impl Default for CoreArea {
    ghost use Rattle.std.specs.Prelude.{◌≡◌};

    ghost is_default = { λ area. (area.first ≡ 0) × (area.count ≡ 0) };

    /// Returns no words: they fill the unused room of a list.
    fn default() -> CoreArea {
        CoreArea { first: 0, count: 0 }
    }
}
