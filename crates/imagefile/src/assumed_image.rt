//! What is supposed of a file beyond its calls.
ghost use Rattle.std.specs.Borrow.{ftrue};
ghost use Rattle.imagefile.specs.Unseen.{Unseen, unseen_code};

use std::marker::Model;

/// What is supposed of a file that no call shows: its bytes before the first call, which of them were open, what a
/// write left if it took less than it was given, and what a failed sync left. Proofs alone read it: it takes no
/// memory and costs no time.
///
/// What is proved of a function that is given one, or of a file that has one, is proved for every beginning.
#[derive(Drop)]
pub struct AssumedImage {
    pub(crate) ghost unseen: { Unseen } by { unseen_code },
}

impl Model for AssumedImage {
    ghost also_owns = { λ _. ftrue };
}

impl AssumedImage {
    /// Returns some beginning of a file. Nothing is promised about it, so nobody can choose it, or show that no file
    /// has it. It is for the top of a program alone, and for tests.
    pub fn any() -> AssumedImage {
        AssumedImage {}
    }
}
