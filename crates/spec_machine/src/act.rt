//! The acts that a protection allows.
ghost use Rattle.std.specs.Prelude.{⊤, ◌≡◌, ◌<◌, [], ◌∷◌, codes};
ghost use Rattle.spec_machine.specs.Rights.{acts_of};

use bitflags::{Flag, Flags, bitflag_items};

/// What may be done with a file: a set of acts.
#[derive(Clone, Copy, Debug, PartialEq, Eq)]
pub struct Act(
    /// A bit for each act.
    pub u8,
);

bitflag_items! {
    impl Act: u8 {
        const EXECUTE = 1;
        const READ = 2;
        const APPEND = 4;
        const UPDATE = 8;
        const SUPERSEDE = 16;
        const RENAME = 32;
        const PROTECT = 64;
    }
}

impl Flags for Act {
    type Bits = u8;

    ghost exact = { ⊤ };

    ghost table = { (codes "EXECUTE", 1) ∷ (codes "READ", 2) ∷ (codes "APPEND", 4) ∷ (codes "UPDATE", 8)
        ∷ (codes "SUPERSEDE", 16) ∷ (codes "RENAME", 32) ∷ (codes "PROTECT", 64) ∷ [] };

    ghost set_of = { λ a. a.0 };

    /// Returns the acts, by their names.
    fn flags<'a>() -> &'a [Flag<Act>] {
        Act::FLAGS
    }

    /// Returns the bits.
    fn bits(&self) -> u8 {
        self.0
    }

    /// Returns the acts of these bits.
    fn from_bits_retain(bits: u8) -> Act {
        Act(bits)
    }
}

impl Act {
    /// Returns the acts that a digit of a file's protection allows: the lower the digit, the more.
    pub fn of_digit(digit: u32) -> Act
        requires { digit < 8 }
        ensures { result.0 ≡ acts_of digit }
    {
        let acts = match digit {
            0 => 127,
            1 => 63,
            2 => 31,
            3 => 15,
            4 => 7,
            5 => 3,
            6 => 1,
            _ => 0,
        };
        Act(acts)
    }
}
