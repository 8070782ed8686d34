//! Words, names, dates and bytes of the machine. The layer promises:
//!
//! 1. A word has 36 bits, and a block has 128 words. `block_to_bytes` writes eight bytes for each word, the most
//!    significant first. `block_from_bytes` reads exactly such bytes, and names the first word whose top 28 bits aren't
//!    zero. (`of_block`, `bad`)
//! 2. `block_to_nine` packs two words into nine bytes, and any 576 bytes are those of one block. (`reads_back`,
//!    `packs_back`)
//! 3. `pack_ascii` puts five characters into a word, and refuses a byte above 127; `unpack_ascii` returns all
//!    characters of words, nulls included. (`reads_back`, `packs_back`, `not_ascii`)
//! 4. `pack_octets` puts four bytes into a word, and into the last word how many of its bytes count. Different bytes
//!    have different words, and `unpack_octets` finds the bytes of words, if there are any. (`octets_are_exact`)
//! 5. `sixbit_of` and `text_of` undo each other, except for blanks at the end of a text. SIXBIT has no small letters.
//!    (`reads_back`, `packs_back`, `accepts`)
//! 6. `date_of` and `day_of` count days as the machine does: from 1 January 1964, with 31 days in each month.
//!    (`accepts`, `counts_back`)
//! 7. Memory is taken only for lists of words and of bytes: by `pack_ascii`, `unpack_ascii`, `pack_octets`,
//!    `unpack_octets` and `OctetReader`.
//!
//! SIXBIT, ASCII in words and dates are those of the TOPS-10 Monitor Calls Manual. The bytes of an image and octets in
//! words are this project's profile.
#![tactic(auto)]

mod ascii;
mod block;
mod date;
mod error;
mod moment;
mod names;
mod nines;
mod octets;
mod sixbit;
mod word;

pub use ascii::{pack_ascii, unpack_ascii};
pub use block::{BLOCK_BYTES, block_from_bytes, block_to_bytes, first_bad_word};
pub use date::{Day, date_of, day_of};
pub use error::WordError;
pub use moment::Moment;
pub use names::{FileName, Ppn};
pub use nines::{PACKED_BYTES, block_from_nine, block_to_nine};
pub use octets::{OctetReader, octets_are_exact, pack_octets, unpack_octets};
pub use sixbit::{sixbit_of, text_of};
pub use word::{BLOCK_WORDS, Block, Half, Word};
