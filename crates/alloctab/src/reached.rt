//! The marks of a check: which blocks of a disk it has reached.
ghost use Rattle.std.specs.Prelude.{◌≡◌, ◌<◌, ◌↔◌, false, true, IfOk, IsTrue, length, replicate, slice_set};
ghost use Rattle.alloctab.specs.Common.{flag_at};

use blockdisk::NoMemory;
use std::alloc::Global;
use std::marker::Model;

/// The blocks that a check of a disk has reached: a truth value for each block.
#[derive(Drop)]
pub struct Reached {
    marks: Vec<bool>,
}

impl Model for Reached {
    ghost use Rattle.std.specs.Prelude.{Bool, List};

    ghost Value = { List Bool };

    ghost view = { λ r. r.marks.items };
}

impl Reached {
    /// Returns marks for this number of blocks, none of them reached.
    ///
    /// # Errors
    ///
    /// `NoMemory` if there is no room for the marks.
    pub fn new(alloc: Global, size: u32) -> Result<Self, NoMemory>
        ensures { IfOk result (λ reached. reached ≡ replicate size false) }
    {
        Ok(Reached {
            marks: vec![in alloc; false; size as usize]?,
        })
    }

    /// Marks a block, and returns whether it wasn't marked before.
    pub fn mark(&mut self, n: u32) -> bool
        requires { n < length self.old }
        ensures first { IsTrue result ↔ (flag_at self.old n ≡ false) }
        ensures marked { self.new ≡ slice_set self.old n true }
    {
        let is_new = !self.is_marked(n);
        self.marks[n as usize] = true;
        is_new
    }

    /// Returns whether a block is marked.
    pub fn is_marked(&self, n: u32) -> bool
        requires { n < length self.now }
        ensures { result ≡ flag_at self.now n }
    {
        self.marks[n as usize]
    }
}
