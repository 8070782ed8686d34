//! The writes of the steps of a ring, part by part.
ghost use Rattle.std.specs.Prelude.{◌≡◌, ◌<◌, ◌≤◌, ◌+◌, ◌*◌, ◌^◌, Some, IsSome, length};
ghost use Rattle.spec_machine.specs.Common.{after_writes, data_words, buffer_words, base, buffer_writes};
ghost use Rattle.spec_machine.specs.Common.{unused_header, setup, with_ring, buffer_left, in_writes, put_behind};
ghost use Rattle.spec_machine.specs.Common.{out_writes};
ghost use Rattle.usercore.specs.Common.{bits_of, header_unset, header_words, filled_by, emptied_by, closed_by};

use crate::buffer::{BUFFER_SIZE, BUFFER_WORDS, DATA_WORDS, marked, unmarked};
use crate::user_core::FIRST_FREE;
use crate::{ByteSize, Core};
use spec_machine::IoStatus;
use words36::{Half, Word};

/// The left half of the first word of a header whose ring isn't in use.
const UNUSED: u32 = 0o400000;

/// The writes of the steps of a ring, part by part.
impl Core {
    /// Writes the words of a header whose ring isn't in use: they name its first buffer, or 0.
    fn put_header(&mut self, header: usize, bytes: ByteSize, first: usize)
        requires low { header < 2 ^ 32 }
        requires fits { first < 2 ^ 18 }
        ensures put { self.new ≡ after_writes self.old (unused_header header (bits_of bytes) first) }
        ensures length { length self.new ≡ length self.old }
    {
        let name = Word::from_halves(Half::from_bits(UNUSED), Half::from_bits(first as u32));
        self.place(header, &[name, bytes.pointer(0), Word::ZERO]);
    }

    /// Gives a header its first words, if there is one.
    pub(crate) fn open_header(&mut self, header: usize, bytes: ByteSize)
        requires { header < 2 ^ 32 }
        ensures opened { self.new ≡ after_writes self.old (header_unset header (bits_of bytes)) }
        ensures length { length self.new ≡ length self.old }
    {
        if header != 0 {
            self.put_header(header, bytes, 0);
        }
    }

    /// Sets up a ring that fits.
    #[tactic(auto, using(spec_machine::proofs::CoreWrites::writes_length, crate::proofs::WriteLaws::ring_more, crate::proofs::WriteLaws::setup_parts))]
    pub(crate) fn set_up(&mut self, header: usize, bytes: ByteSize, count: usize)
        requires low { header < 2 ^ 32 }
        requires there { header + 3 ≤ length self.old }
        requires fits { base self.old + count * buffer_words ≤ length self.old }
        ensures done { setup self.old header (bits_of bytes) count ≡ Some self.new }
        ensures length { length self.new ≡ length self.old }
    {
        let _ = self.length(); // so that it is known to be small
        let base = self.base();
        let left = self.read(FIRST_FREE as usize).left();
        for k in 0..count {
            self.link_buffer(base, count, k);
        }
        let end = Half::from_bits((base + count * BUFFER_WORDS) as u32);
        self.write(FIRST_FREE as usize, Word::from_halves(left, end));
        self.put_header(header, bytes, base + 1);
    }

    /// Links buffer `k` of a ring of `count` buffers.
    fn link_buffer(&mut self, base: usize, count: usize, k: usize)
        requires there { k < count }
        requires fits { base + count * buffer_words ≤ 2 ^ 17 }
        ensures linked { self.new ≡ after_writes self.old (buffer_writes base count k) }
        ensures length { length self.new ≡ length self.old }
    {
        let follower = if k + 1 == count { 0 } else { k + 1 };
        let next = Half::from_bits((base + follower * BUFFER_WORDS + 1) as u32);
        let link = Word::from_halves(Half::from_bits(BUFFER_SIZE), next);
        self.place(base + k * BUFFER_WORDS, &[Word::ZERO, link, Word::ZERO]);
    }

    /// Sets up a ring of two if the header names no buffer.
    #[tactic(auto, using(std::proofs::lemmas::Bool::Decides::nat_tests), unfolding(spec_machine::specs::Rings::setup))]
    pub(crate) fn make_ready(&mut self, header: usize, bytes: ByteSize)
        requires low { header < 2 ^ 32 }
        requires fits { IsSome (with_ring self.old header (bits_of bytes)) }
        ensures ready { with_ring self.old header (bits_of bytes) ≡ Some self.new }
        ensures length { length self.new ≡ length self.old }
    {
        if self.current(header) == 0 {
            self.set_up(header, bytes, 2);
        }
    }

    /// Fills the next buffer of a ring that exists.
    #[tactic(auto, using(crate::proofs::WriteLaws::in_parts))]
    pub(crate) fn fill(&mut self, header: usize, bytes: ByteSize, status: IoStatus, words: &[Word])
        requires low { header < 2 ^ 32 }
        requires few { length words.now ≤ data_words }
        ensures filled { self.new
            ≡ after_writes self.old (in_writes self.old header (bits_of bytes) status.0 words.now) }
        ensures length { length self.new ≡ length self.old }
    {
        let target = self.target(header);
        let in_use = marked(self.read(target));
        self.leave_behind(header);
        self.fill_buffer(header, bytes, status, words, target, in_use);
    }

    /// Marks the buffer that was the current one as no longer in use.
    fn leave_behind(&mut self, header: usize)
        ensures left { self.new ≡ after_writes self.old (buffer_left self.old header) }
        ensures length { length self.new ≡ length self.old }
    {
        if !self.is_unused(header) {
            let current = self.current(header);
            self.write(current, unmarked(self.read(current)));
        }
    }

    /// Fills a buffer, whose own word becomes `in_use`, and makes it the current one.
    #[tactic(auto, using(spec_machine::proofs::CoreWrites::writes_append))]
    fn fill_buffer(
        &mut self,
        header: usize,
        bytes: ByteSize,
        status: IoStatus,
        words: &[Word],
        buffer: usize,
        in_use: Word,
    )
        requires low { header < 2 ^ 32 }
        requires fits { buffer < 2 ^ 18 }
        requires few { length words.now ≤ data_words }
        ensures filled { self.new
            ≡ after_writes self.old (filled_by header (bits_of bytes) status.0 buffer words.now in_use) }
        ensures length { length self.new ≡ length self.old }
    {
        let count = words.len();
        let status = Word::from_bits(u64::from(status.0));
        self.write(buffer.saturating_sub(1), status);
        self.place(buffer + 2, words);
        self.write(buffer + 1, Word::from_bits(count as u64));
        self.write(buffer, in_use);
        self.name_buffer(header, bytes, buffer, count);
    }

    /// Takes the current buffer away, and empties the one after it.
    #[tactic(auto, using(crate::proofs::WriteLaws::out_parts))]
    pub(crate) fn empty(&mut self, header: usize, bytes: ByteSize)
        requires { header < 2 ^ 32 }
        ensures emptied { self.new ≡ after_writes self.old (out_writes self.old header (bits_of bytes)) }
        ensures length { length self.new ≡ length self.old }
    {
        let target = self.target(header);
        self.put_behind(header);
        self.empty_buffer(header, bytes, target);
    }

    /// Writes the count of the buffer that was the current one, and marks it as no longer in use.
    fn put_behind(&mut self, header: usize)
        requires { header < 2 ^ 32 }
        ensures put { self.new ≡ after_writes self.old (put_behind self.old header) }
        ensures length { length self.new ≡ length self.old }
    {
        if self.is_unused(header) {
            return;
        }
        let current = self.current(header);
        let old = self.read(current);
        let end = self.read(header + 1).right().bits() as usize;
        let count = end.saturating_sub(current + 1);
        self.write(current + 1, Word::from_bits(count as u64));
        self.write(current, unmarked(old));
    }

    /// Empties a buffer, and makes it the current one.
    #[tactic(auto, using(spec_machine::proofs::CoreWrites::writes_append), unfolding(crate::specs::Steps::zeroed))]
    fn empty_buffer(&mut self, header: usize, bytes: ByteSize, buffer: usize)
        requires low { header < 2 ^ 32 }
        requires fits { buffer < 2 ^ 18 }
        ensures emptied { self.new ≡ after_writes self.old (emptied_by header (bits_of bytes) buffer) }
        ensures length { length self.new ≡ length self.old }
    {
        self.place(buffer + 2, &[Word::ZERO; DATA_WORDS]);
        self.write(buffer + 1, Word::ZERO);
        self.name_buffer(header, bytes, buffer, DATA_WORDS);
    }

    /// Writes the header's words: the current buffer, a byte pointer before its data, and the bytes of `count` words.
    fn name_buffer(&mut self, header: usize, bytes: ByteSize, buffer: usize, count: usize)
        requires low { header < 2 ^ 32 }
        requires fits { buffer < 2 ^ 18 }
        requires few { count ≤ data_words }
        ensures named { self.new ≡ after_writes self.old (header_words header (bits_of bytes) buffer count) }
        ensures length { length self.new ≡ length self.old }
    {
        let name = Word::from_bits(buffer as u64);
        let held = Word::from_bits((count * bytes.count_in_word()) as u64);
        self.place(header, &[name, bytes.pointer(buffer + 1), held]);
    }

    /// Marks the header of a side that closes: its first word becomes `unused`.
    pub(crate) fn close_header(&mut self, header: usize, unused: Word)
        requires { header < 2 ^ 32 }
        ensures closed { self.new ≡ after_writes self.old (closed_by header unused) }
        ensures length { length self.new ≡ length self.old }
    {
        if header != 0 {
            self.write(header, unused);
            self.write(header + 2, Word::ZERO);
        }
    }
}
