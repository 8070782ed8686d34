//! The checks before a step of a ring.
ghost use Rattle.std.specs.Prelude.{◌≡◌, ◌<◌, ◌≤◌, ◌+◌, ◌^◌, Some, None, IfOk, IfErr, OnErr, IfSome, IfNone, true};
ghost use Rattle.std.specs.Prelude.{is_some, option_map, length, slice_range};
ghost use Rattle.spec_machine.specs.Common.{current, put_count, last_is_good, in_ready, out_ready, ring_words};
ghost use Rattle.spec_machine.specs.Common.{last_words, first_free};
ghost use Rattle.usercore.specs.Common.{bits_of, first_is_good, words_put};
ghost use Rattle.usercore.specs.declared.error.CoreError.TheVariants.{AddressCheck};

use crate::buffer::{BUFFER_SIZE, BUFFER_WORDS, DATA_WORDS, size_field};
use crate::user_core::FIRST_FREE;
use crate::{ByteSize, Core, CoreArea, CoreError};

/// A step of a ring.
#[derive(Clone, Copy, Debug, PartialEq, Eq)]
pub enum RingStep {
    /// A buffer is filled from the file.
    In,
    /// The current buffer goes to the file, and the next one is emptied.
    Out,
    /// The output side closes: the last buffer goes to the file.
    Close,
}

impl Core {
    /// Checks whether a step of the ring at a header can be done, and returns which words of this core it hands to the
    /// file: at most 200 (octal), and none for an IN or if there is no buffer to put.
    ///
    /// # Errors
    ///
    /// `AddressCheck` if the header doesn't lie in the core or a ring of two has no room there, if a buffer that the
    /// step names isn't good, and if the byte pointer doesn't lie in its buffer.
    pub fn ring_check(
        &self,
        step: RingStep,
        header: u32,
        bytes: ByteSize,
    ) -> Result<CoreArea, CoreError>
        ensures words { IfOk result (λ area. words_put step self.now header (bits_of bytes)
            ≡ Some (slice_range self.now area.first (area.first + area.count))) }
        ensures within { IfOk result (λ area. area.first + area.count ≤ length self.now) }
        ensures few { IfOk result (λ area. area.count ≤ 0o200) }
        ensures none { OnErr result (words_put step self.now header (bits_of bytes) ≡ None) }
        ensures refused { IfErr result (λ error. error ≡ AddressCheck) }
    {
        let header = header as usize;
        let area = match step {
            RingStep::In => self
                .is_ready_in(header, bytes)
                .then_some(CoreArea::default()),
            RingStep::Out => self.out_area(header, bytes),
            RingStep::Close => self.close_area(header),
        };
        area.ok_or(CoreError::AddressCheck)
    }

    /// Returns whether an IN can be done.
    #[tactic(auto, using(crate::proofs::FirstRings::in_first, crate::proofs::FirstRings::in_used, crate::proofs::FirstRings::in_past, std::proofs::lemmas::Bool::Decides::nat_tests))]
    fn is_ready_in(&self, header: usize, bytes: ByteSize) -> bool
        requires { header < 2 ^ 32 }
        ensures { result ≡ is_some (in_ready self.now header (bits_of bytes)) }
    {
        if !self.has_header(header) {
            return false;
        }
        let current = self.current(header);
        if current == 0 {
            return self.first_is_good(header);
        }
        self.is_good(current) && self.is_good(self.target(header))
    }

    /// Returns what an OUT hands to the file: nothing from a ring that isn't in use.
    #[tactic(auto, using(crate::proofs::FirstRings::out_first_good, crate::proofs::FirstRings::out_first_bad, crate::proofs::FirstRings::out_used, crate::proofs::FirstRings::out_past, std::proofs::lemmas::Bool::Decides::nat_tests))]
    fn out_area(&self, header: usize, bytes: ByteSize) -> Option<CoreArea>
        requires { header < 2 ^ 32 }
        ensures words { IfSome result (λ area. option_map (λ ready. ring_words ready header)
            (out_ready self.now header (bits_of bytes))
            ≡ Some (slice_range self.now area.first (area.first + area.count))) }
        ensures within { IfSome result (λ area. area.first + area.count ≤ length self.now) }
        ensures few { IfSome result (λ area. area.count ≤ 0o200) }
        ensures none { IfNone result
            (option_map (λ ready. ring_words ready header) (out_ready self.now header (bits_of bytes)) ≡ None) }
    {
        if !self.has_header(header) {
            return None;
        }
        if self.current(header) == 0 {
            return if self.first_is_good(header) {
                Some(CoreArea::default())
            } else {
                None
            };
        }
        if self.is_unused(header) {
            return if self.is_good(self.current(header)) {
                Some(CoreArea::default())
            } else {
                None
            };
        }
        if self.last_is_good(header) && self.is_good(self.next(header)) {
            Some(self.last_area(header))
        } else {
            None
        }
    }

    /// Returns what a CLOSE hands to the file: nothing if there is no last buffer.
    #[tactic(auto, using(std::proofs::lemmas::Bool::Decides::nat_tests), unfolding(spec_machine::specs::Rings::last_words))]
    fn close_area(&self, header: usize) -> Option<CoreArea>
        requires { header < 2 ^ 32 }
        ensures words { IfSome result (λ area. last_words self.now header
            ≡ Some (slice_range self.now area.first (area.first + area.count))) }
        ensures within { IfSome result (λ area. area.first + area.count ≤ length self.now) }
        ensures few { IfSome result (λ area. area.count ≤ 0o200) }
        ensures none { IfNone result (last_words self.now header ≡ None) }
    {
        if header == 0 || self.is_unused(header) || self.current(header) == 0 {
            return Some(CoreArea::default());
        }
        if self.last_is_good(header) && self.has_header(header) {
            Some(self.last_area(header))
        } else {
            None
        }
    }

    /// Returns whether the current buffer is good, and the byte pointer points into it.
    #[tactic(auto, using(std::proofs::lemmas::Bool::Decides::nat_tests))]
    fn last_is_good(&self, header: usize) -> bool
        requires { header < 2 ^ 32 }
        ensures { result ≡ last_is_good self.now header }
    {
        let current = self.current(header);
        let end = self.read(header + 1).right().bits() as usize;
        self.is_good(current) && current + 1 <= end && end - (current + 1) <= DATA_WORDS
    }

    /// Returns the words of the current buffer, up to the place to which the byte pointer shows it filled.
    fn last_area(&self, header: usize) -> CoreArea
        requires low { header < 2 ^ 32 }
        requires good { last_is_good self.now header ≡ true }
        ensures area { result ≡ record { first = current self.now header + 2; count = put_count self.now header } }
        ensures within { result.first + result.count ≤ length self.now }
        ensures few { result.count ≤ 0o200 }
    {
        let current = self.current(header);
        let end = self.read(header + 1).right().bits() as usize;
        CoreArea {
            first: current + 2,
            count: end - (current + 1),
        }
    }

    /// Returns whether a ring of two that is set up first fits, and its first buffer is good after that.
    fn first_is_good(&self, header: usize) -> bool
        requires { header < 2 ^ 32 }
        ensures value { result ≡ first_is_good self.now header }
        ensures least { first_free < length self.now }
        ensures most { length self.now ≤ 2 ^ 17 }
    {
        let first = self.base() + 1;
        let is_spoiled = first == header || first == header + 1 || first == header + 2;
        let job_word = self.read(FIRST_FREE as usize);
        self.base() + 2 * BUFFER_WORDS <= self.length()
            && self.has_header(header)
            && !is_spoiled
            && (first != FIRST_FREE as usize || size_field(job_word) == BUFFER_SIZE)
    }
}
