//! The rights that protections give.
ghost use Rattle.std.specs.Prelude.{◌≡◌, ◌==◌, ℕ};
ghost use Rattle.spec_machine.specs.Common.{system, digit, file_digit, directory_digit, may_execute, may_read};
ghost use Rattle.spec_machine.specs.Common.{may_append, may_update, may_supersede, may_rename, may_protect};
ghost use Rattle.protect.specs.AllowedActs.{allows, allows_in};

use bitflags::Flags;
use spec_machine::Act;
use words36::Ppn;

/// What may be done in a directory.
#[derive(Clone, Copy, Debug, PartialEq, Eq)]
pub enum DirectoryAct {
    /// To look names up, and to list them.
    Look,
    /// To make new files.
    Create,
}

/// Returns whether this is `[1,2]`, who may do everything.
fn is_system(who: Ppn) -> bool
    ensures { result ≡ (who == system) }
{
    who.word().bits() == 0o1000002
}

/// Returns the digit of a protection that counts for `who`, if the directory is `owner`'s.
fn digit(protection: u16, who: Ppn, owner: Ppn) -> u16
    ensures { result ≡ digit protection who owner }
{
    if who.word() == owner.word() {
        protection / 64
    } else if who.project() == owner.project() {
        protection / 8 % 8
    } else {
        protection % 8
    }
}

/// Returns whether a file of this protection, in the directory of `owner`, lets `who` do all of these acts: three octal
/// digits, by the TOPS-10 Monitor Calls Manual. That the owner's digit has the scale of the others is this project's
/// profile.
pub fn right(protection: u16, who: Ppn, owner: Ppn, act: Act) -> bool
    ensures allowed { result ≡ allows (file_digit protection who owner) act.0 }
{
    let digit = if is_system(who) {
        0
    } else {
        digit(protection, who, owner)
    };
    Act::of_digit(u32::from(digit.min(7))).contains(act)
}

/// Returns whether a directory of this protection, that of `owner`, lets `who` do this: three octal digits, each a sum,
/// by this project's profile.
pub fn dir_right(protection: u16, who: Ppn, owner: Ppn, act: DirectoryAct) -> bool
    ensures allowed { result ≡ allows_in (directory_digit protection who owner) act }
{
    let digit = if is_system(who) {
        7
    } else {
        digit(protection, who, owner)
    };
    match act {
        DirectoryAct::Look => digit / 4 % 2 == 1,
        DirectoryAct::Create => digit / 2 % 2 == 1,
    }
}

/// Proves that each act is allowed by the digits up to its own, so that the next lower digit allows all that a digit
/// allows.
pub fn acts_are_nested()
    ensures execute { (d : ℕ) → allows d 1 ≡ may_execute d }
    ensures read { (d : ℕ) → allows d 2 ≡ may_read d }
    ensures append { (d : ℕ) → allows d 4 ≡ may_append d }
    ensures update { (d : ℕ) → allows d 8 ≡ may_update d }
    ensures supersede { (d : ℕ) → allows d 16 ≡ may_supersede d }
    ensures rename { (d : ℕ) → allows d 32 ≡ may_rename d }
    ensures protect { (d : ℕ) → allows d 64 ≡ may_protect d }
{}
