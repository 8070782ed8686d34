//! The entries of a directory: files.
ghost use Rattle.std.specs.Prelude.{◌≡◌, ◌<◌, ◌↔◌, IsSome, IfSome};

use crate::entry::block_number;
use crate::{ChainEntry, EntryFault};
use std::cmp::Ordering;
use words36::{FileName, Half, Word};

/// An entry of a directory: a file and where its prime retrieval block is.
#[derive(Clone, Copy, Debug, PartialEq, Eq)]
pub struct FileEntry {
    /// The name, which isn't zero, and the extension.
    pub name: FileName,
    /// The number of the prime retrieval block.
    pub prime: u32,
    pub ghost named: { 0 < name.name },
}

impl FileEntry {
    /// Returns the entry of a file, or `None` for a name of zero.
    pub fn new(name: FileName, prime: u32) -> Option<FileEntry>
        ensures name { IfSome result (λ entry. entry.name ≡ name) }
        ensures prime { IfSome result (λ entry. entry.prime ≡ prime) }
        ensures fits { IsSome result ↔ (0 < name.name) }
    {
        if name.name.bits() == 0 {
            return None;
        }
        Some(FileEntry { name, prime })
    }
}

impl ChainEntry for FileEntry {
    ghost use Rattle.std.specs.Prelude.{ℕ, refl};
    ghost use Rattle.spec_image.specs.Common.{name_cmp};
    ghost use Rattle.spec_image.specs.Common.{file_words, IsFileEntry};
    ghost use Rattle.spec_image.proofs.Common.{name_total, name_exact};
    ghost use Rattle.spec_image.proofs.Common.{file_apart};

    type Key = FileName;

    ghost Stored = { ℕ };

    ghost order = { name_cmp };

    ghost view = { λ e. (e.name, e.prime) };

    ghost words_of = { file_words };

    ghost IsEntry = { IsFileEntry };

    ghost target = { λ e. e.1 };

    fn words(&self) -> [Word; 3] {
        let name = Word::from_bits(self.name.name.bits());
        let ext = Half::from_bits(self.name.ext.bits());
        let prime = Word::from_bits(u64::from(self.prime));
        [name, Word::from_halves(ext, Half::from_bits(0)), prime]
    }

    fn parse(words: [Word; 3]) -> Result<Self, EntryFault> {
        let [name, ext, prime] = words;
        let (ext, rest) = (ext.left(), ext.right());
        if name.bits() == 0 || rest.bits() != 0 {
            return Err(EntryFault::Malformed);
        }
        let Some(prime) = block_number(prime) else {
            return Err(EntryFault::Outside);
        };
        Ok(FileEntry {
            name: FileName { name, ext },
            prime,
        })
    }

    fn target(&self) -> u32 {
        self.prime
    }

    fn key(&self) -> FileName {
        self.name
    }

    fn cmp_key(&self, key: &FileName) -> Ordering {
        let names = self.name.name.bits().cmp(&key.name.bits());
        names.then(self.name.ext.bits().cmp(&key.ext.bits()))
    }

    ghost keyed = { λ a b. refl };

    ghost total = { name_total };

    ghost exact = { name_exact };

    ghost apart = { file_apart };
}
