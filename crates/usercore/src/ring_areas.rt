//! The words that the steps of a ring may change.
ghost use Rattle.std.specs.Prelude.{◌≡◌, ◌≤◌};
ghost use Rattle.spec_machine.specs.Common.{buffers_of};
ghost use Rattle.usercore.specs.Common.{setup_areas, step_areas, in_areas, out_areas};

use crate::buffer::BUFFER_WORDS;
use crate::rings::buffers_of;
use crate::user_core::FIRST_FREE;
use crate::{Core, CoreArea};

/// The number of words in the header of a ring.
pub const HEADER_WORDS: usize = 3;

/// Which words the steps of a ring may change.
impl Core {
    /// Returns which words a setup may change, by the number of its buffers, where 0 means 2: the job word that
    /// determines where rings go, the buffers, and the header.
    pub fn setup_areas(&self, header: u32, buffers: u32) -> [CoreArea; 3]
        ensures { result ≡ setup_areas self.now header (buffers_of buffers) }
    {
        self.ring_areas(header as usize, buffers_of(buffers))
    }

    /// Returns which words an IN may change: the header, the word of the buffer that was the current one, and the
    /// buffer that is filled; or what a setup of two may change, if the header names no buffer.
    pub fn in_areas(&self, header: u32) -> [CoreArea; 3]
        ensures { result ≡ in_areas self.now header }
    {
        self.step_areas(header as usize, 1)
    }

    /// Returns which words an OUT may change: the header, the word and the count of the buffer that was the current
    /// one, and the buffer that is emptied; or what a setup of two may change, if the header names no buffer.
    pub fn out_areas(&self, header: u32) -> [CoreArea; 3]
        ensures { result ≡ out_areas self.now header }
    {
        self.step_areas(header as usize, 2)
    }

    /// Returns which words a step may change, by how many it writes of the buffer that was the current one.
    fn step_areas(&self, header: usize, left: usize) -> [CoreArea; 3]
        ensures { result ≡ step_areas self.now header left }
    {
        let current = self.current(header);
        if current == 0 {
            return self.ring_areas(header, 2);
        }
        [
            CoreArea {
                first: header,
                count: HEADER_WORDS,
            },
            CoreArea {
                first: current,
                count: left,
            },
            CoreArea {
                first: self.target(header).saturating_sub(1),
                count: BUFFER_WORDS,
            },
        ]
    }

    /// Returns which words a setup may change, by the number of its buffers.
    fn ring_areas(&self, header: usize, buffers: usize) -> [CoreArea; 3]
        requires { buffers ≤ 0xffffffff }
        ensures { result ≡ setup_areas self.now header buffers }
    {
        [
            CoreArea {
                first: FIRST_FREE as usize,
                count: 1,
            },
            CoreArea {
                first: self.base(),
                count: buffers * BUFFER_WORDS,
            },
            CoreArea {
                first: header,
                count: HEADER_WORDS,
            },
        ]
    }
}
