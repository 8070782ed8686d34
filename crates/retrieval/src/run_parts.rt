//! The parts of a run, and runs that are joined.
ghost use Rattle.std.specs.Prelude.{◌≡◌, ◌+◌, ◌-◌, ◌≤◌, ◌^◌, ◌↔◌, suc, IsTrue};
ghost use Rattle.spec_image.specs.Common.{count_up};
ghost use Rattle.retrieval.specs.Common.{pair_of, part_blocks};

use crate::run::Run;

impl Run {
    /// Returns the run of one block.
    pub(crate) fn of(n: u32) -> Run
        ensures { pair_of result ≡ (1, n) }
    {
        Run { first: n, last: n }
    }

    /// Returns the number of blocks.
    pub(crate) fn count(self) -> usize
        ensures value { result ≡ suc (self.last - self.first) }
        ensures few { result ≤ 2 ^ 32 }
    {
        (self.last - self.first) as usize + 1
    }

    /// Returns the offset in it that has `before` of its blocks before it.
    pub(crate) fn offset(self, before: usize) -> u32
        requires { before ≤ self.last - self.first }
        ensures { result ≡ before }
    {
        before as u32
    }

    /// Returns the block at a place in it, counted from 0.
    pub(crate) fn at(self, offset: u32) -> u32
        requires { offset ≤ self.last - self.first }
        ensures { result ≡ self.first + offset }
    {
        self.first + offset
    }

    /// Returns the block at a place in it, counted from 0, with those after it.
    pub(crate) fn rest(self, offset: u32) -> Run
        requires { offset ≤ self.last - self.first }
        ensures first { result.first ≡ self.first + offset }
        ensures last { result.last ≡ self.last }
    {
        Run {
            first: self.first + offset,
            last: self.last,
        }
    }

    /// Returns whether another run begins just after this one.
    pub(crate) fn adjoins(self, other: Run) -> bool
        ensures { IsTrue result ↔ (suc (self.last - self.first) + self.first ≡ other.first) }
    {
        self.last.checked_add(1) == Some(other.first)
    }

    /// Returns this run and one that begins just after it, as one run.
    pub(crate) fn joined(self, other: Run) -> Run
        requires { suc (self.last - self.first) + self.first ≡ other.first }
        ensures { pair_of result ≡ (suc (self.last - self.first) + suc (other.last - other.first), self.first) }
    {
        Run {
            first: self.first,
            last: other.last,
        }
    }

    /// Returns the blocks before a place, if there are any.
    pub(crate) fn before(self, offset: u32) -> Option<Run>
        requires { offset ≤ self.last - self.first }
        ensures { part_blocks result ≡ count_up offset self.first }
    {
        if offset == 0 {
            return None;
        }
        Some(Run {
            first: self.first,
            last: self.first + (offset - 1),
        })
    }

    /// Returns the blocks after a place, if there are any.
    pub(crate) fn behind(self, offset: u32) -> Option<Run>
        requires { offset ≤ self.last - self.first }
        ensures { part_blocks result ≡ count_up (self.last - self.first - offset) (self.first + offset + 1) }
    {
        if offset == self.last - self.first {
            return None;
        }
        Some(Run {
            first: self.first + offset + 1,
            last: self.last,
        })
    }
}
