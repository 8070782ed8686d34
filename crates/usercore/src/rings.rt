//! The steps of a ring: OPEN, a setup, IN, OUT and CLOSE.
ghost use Rattle.std.specs.Prelude.{ℕ, ◌≡◌, ◌<◌, ◌^◌, ◌++◌, Some, None, OnOk, OnErr, IfErr, length, take};
ghost use Rattle.spec_machine.specs.Common.{after_writes, byte_size, data_words, setup, buffers_of, in_ready};
ghost use Rattle.spec_machine.specs.Common.{out_ready, closed_header, header_opened};
ghost use Rattle.usercore.specs.Common.{bits_of, after_in, after_out};
ghost use Rattle.usercore.specs.declared.error.CoreError.TheVariants.{AddressCheck};

use crate::buffer::{BUFFER_WORDS, DATA_WORDS, marked};
use crate::{ByteSize, Core, CoreError, RingStep};
use spec_machine::IoStatus;
use words36::Word;

impl Core {
    /// Gives the headers that an OPEN names their first words, the output's first: a ring that isn't set up yet.
    /// Address 0 is no header.
    pub fn ring_open(&mut self, output: u32, input: u32, bytes: ByteSize)
        ensures opened { (mode : ℕ) → byte_size mode ≡ bits_of bytes
            → self.new ≡ after_writes self.old (header_opened mode output ++ header_opened mode input) }
        ensures length { length self.new ≡ length self.old }
    {
        self.open_header(output as usize, bytes);
        self.open_header(input as usize, bytes);
    }

    /// Sets up a ring of `buffers` buffers, where 0 means 2, at the place that job word 121 (octal) names. After that,
    /// this word names the place after the ring.
    ///
    /// # Errors
    ///
    /// `AddressCheck` if the buffers or the header don't lie in the core; nothing is changed then.
    #[tactic(auto, using(std::proofs::lemmas::Bool::Decides::nat_tests), unfolding(spec_machine::specs::Rings::setup))]
    pub fn ring_setup(
        &mut self,
        header: u32,
        bytes: ByteSize,
        buffers: u32,
    ) -> Result<(), CoreError>
        ensures done { OnOk result (setup self.old header (bits_of bytes) (buffers_of buffers) ≡ Some self.new) }
        ensures none { OnErr result (setup self.old header (bits_of bytes) (buffers_of buffers) ≡ None) }
        ensures refused { IfErr result (λ error. error ≡ AddressCheck) }
        ensures kept { OnErr result (self.new ≡ self.old) }
        ensures length { length self.new ≡ length self.old }
    {
        let header = header as usize;
        let count = buffers_of(buffers);
        if self.base() + count * BUFFER_WORDS > self.length() || !self.has_header(header) {
            return Err(CoreError::AddressCheck);
        }
        self.set_up(header, bytes, count);
        Ok(())
    }

    /// Does an IN: fills the next buffer of a ring with words, at most 200 (octal), and writes the status before them.
    /// If the header names no buffer, a ring of two is set up first.
    ///
    /// # Errors
    ///
    /// `AddressCheck` if `ring_check` returns it; nothing is changed then.
    pub fn ring_in(
        &mut self,
        header: u32,
        bytes: ByteSize,
        status: IoStatus,
        words: &[Word],
    ) -> Result<(), CoreError>
        ensures done { OnOk result (after_in self.old header (bits_of bytes) status.0 (take data_words words.now)
            ≡ Some self.new) }
        ensures none { OnErr result (in_ready self.old header (bits_of bytes) ≡ None) }
        ensures refused { IfErr result (λ error. error ≡ AddressCheck) }
        ensures kept { OnErr result (self.new ≡ self.old) }
        ensures length { length self.new ≡ length self.old }
    {
        self.ring_check(RingStep::In, header, bytes)?;
        let header = header as usize;
        self.make_ready(header, bytes);
        self.fill(header, bytes, status, &words[..DATA_WORDS.min(words.len())]);
        Ok(())
    }

    /// Does an OUT: takes the current buffer of a ring away, and gives the next one to be filled. `ring_check` names
    /// its words beforehand. If the header names no buffer, a ring of two is set up first.
    ///
    /// # Errors
    ///
    /// `AddressCheck` if `ring_check` returns it; nothing is changed then.
    pub fn ring_out(&mut self, header: u32, bytes: ByteSize) -> Result<(), CoreError>
        ensures done { OnOk result (after_out self.old header (bits_of bytes) ≡ Some self.new) }
        ensures none { OnErr result (out_ready self.old header (bits_of bytes) ≡ None) }
        ensures refused { IfErr result (λ error. error ≡ AddressCheck) }
        ensures kept { OnErr result (self.new ≡ self.old) }
        ensures length { length self.new ≡ length self.old }
    {
        self.ring_check(RingStep::Out, header, bytes)?;
        let header = header as usize;
        self.make_ready(header, bytes);
        self.empty(header, bytes);
        Ok(())
    }

    /// Marks the headers of the sides that close, the output's first. Both are read before that. Address 0 means that
    /// there is no header, or that the side stays open.
    pub fn ring_close(&mut self, output: u32, input: u32)
        ensures closed { self.new
            ≡ after_writes self.old (closed_header self.old output ++ closed_header self.old input) }
        ensures length { length self.new ≡ length self.old }
    {
        let marked_input = marked(self.read(input as usize));
        self.close_header(output as usize, marked(self.read(output as usize)));
        self.close_header(input as usize, marked_input);
    }
}

/// Returns the number of buffers that an argument means: 2 for 0.
pub(crate) fn buffers_of(buffers: u32) -> usize
    ensures value { result ≡ buffers_of buffers }
    ensures fits { result < 2 ^ 32 }
{
    if buffers == 0 { 2 } else { buffers as usize }
}
