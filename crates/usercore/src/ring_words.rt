//! Reads of the words of a ring and of its header.
ghost use Rattle.std.specs.Prelude.{◌≡◌, ◌<◌, ◌^◌, not};
ghost use Rattle.spec_machine.specs.Common.{lies_outside, base, current, next, target, is_unused, is_good};

use crate::Core;
use crate::buffer::{BUFFER_SIZE, DATA_WORDS, is_marked, size_field};
use crate::user_core::FIRST_FREE;

/// What the words of a ring say. A word outside the core counts as 0.
impl Core {
    /// Returns whether a header's three words lie in the core.
    pub(crate) fn has_header(&self, header: usize) -> bool
        requires { header < 2 ^ 32 }
        ensures { result ≡ not (lies_outside self.now header 3) }
    {
        header + 3 <= self.length()
    }

    /// Returns whether a buffer lies in the core and has the size of a disk buffer.
    pub(crate) fn is_good(&self, buffer: usize) -> bool
        requires { buffer < 2 ^ 18 }
        ensures { result ≡ is_good self.now buffer }
    {
        buffer >= 1
            && buffer + 1 + DATA_WORDS < self.length()
            && size_field(self.read(buffer)) == BUFFER_SIZE
    }

    /// Returns where the next ring goes.
    pub(crate) fn base(&self) -> usize
        ensures value { result ≡ base self.now }
        ensures fits { result < 2 ^ 18 }
    {
        self.read(FIRST_FREE as usize).right().bits() as usize
    }

    /// Returns the current buffer of a ring.
    pub(crate) fn current(&self, header: usize) -> usize
        ensures value { result ≡ current self.now header }
        ensures fits { result < 2 ^ 18 }
    {
        self.read(header).right().bits() as usize
    }

    /// Returns the buffer after the current one.
    pub(crate) fn next(&self, header: usize) -> usize
        ensures value { result ≡ next self.now header }
        ensures fits { result < 2 ^ 18 }
    {
        self.read(self.current(header)).right().bits() as usize
    }

    /// Returns the buffer that a step moves on to.
    pub(crate) fn target(&self, header: usize) -> usize
        ensures value { result ≡ target self.now header }
        ensures fits { result < 2 ^ 18 }
    {
        if self.is_unused(header) {
            self.current(header)
        } else {
            self.next(header)
        }
    }

    /// Returns whether a ring isn't in use yet.
    pub(crate) fn is_unused(&self, header: usize) -> bool
        ensures { result ≡ is_unused self.now header }
    {
        is_marked(self.read(header))
    }
}
