//! The first words of prime blocks and extensions.
ghost use Rattle.std.specs.Prelude.{◌≡◌, ◌+◌, ◌*◌, ◌/◌, ◌%◌, ◌<◌, ◌≤◌, ◌^◌, ℕ, IfSome, IfNone};
ghost use Rattle.spec_image.specs.Common.{layout_number, SpecPrime, extension_word, date_limit};
ghost use Rattle.spec_image.specs.Retrieval.{attributes};
ghost use Rattle.retrieval.specs.Common.{mode_number, with_length, IsAttributes, IsPrimeHead, IsExtensionHead};

use crate::{Mode, Prime};
use spec_image::layout::{
    EXTENSION_POINTERS, Layout, MOST_WORDS, PRIME_HEAD, PRIME_POINTERS, are_zeros,
};
use words36::{Block, FileName, Half, Moment, Ppn, Word};

/// RIB in SIXBIT, the first word of a prime block.
pub const PRIME_WORD: u64 = 0o625142000000;

/// XRB in SIXBIT, the left half of an extension's first word.
pub const EXTENSION_HALF: u32 = 0o706242;

/// The attributes of a file, as one word has them: of the date the low twelve bits.
#[derive(Clone, Copy)]
struct Attributes {
    protection: u16,
    mode: Mode,
    minute: u32,
    low: u32,
    ghost protection_fits: { protection < 512 },
    ghost minute_fits: { minute ≤ 1439 },
    ghost low_fits: { low < 4096 },
}

/// Returns the attributes in a prime block, if they are valid: protection in bits 0 to 8, mode in 9 to 12, time in
/// 13 to 23, the low twelve bits of the date in 24 to 35.
fn attributes_of(word: Word) -> Option<Attributes>
    ensures some { IfSome result
        (λ a. IsAttributes word a.protection (mode_number a.mode) a.minute a.low) }
    ensures none { IfNone result ((protection mode time low : ℕ) → IsAttributes word protection mode time low → ⊥) }
{
    let bits = word.bits();
    let mode = Mode::from_number(bits >> 23 & 0o17)?;
    let minute = (bits >> 12 & 0o3777) as u32;
    if minute > 1439 {
        return None;
    }
    Some(Attributes {
        protection: (bits >> 27) as u16,
        mode,
        minute,
        low: (bits & 0o7777) as u32,
    })
}

/// Returns the date whose three high bits are bits 18 to 20 of a prime block's word 2, of which `half` is the right
/// half, and whose low twelve bits are with the attributes. `None` if the half has another bit, or the layout has no
/// such date.
fn date_in(half: Half, low: u32, layout: Layout) -> Option<u32>
    requires { low < 4096 }
    ensures high { IfSome result (λ date. half ≡ date / 2 ^ 12 * 2 ^ 15) }
    ensures low { IfSome result (λ date. low ≡ date % 2 ^ 12) }
    ensures fits { IfSome result (λ date. date < date_limit (layout_number layout)) }
    ensures in_range { IfSome result (λ date. date ≤ 32767) }
    ensures none { IfNone result ((date : ℕ) → half ≡ date / 2 ^ 12 * 2 ^ 15 → low ≡ date % 2 ^ 12
        → date < date_limit (layout_number layout) → ⊥) }
{
    let bits = half.bits();
    if bits & 0o77777 != 0 {
        return None;
    }
    let date = (bits >> 15) * 4096 + low;
    if date > layout.last_date() {
        return None;
    }
    Some(date)
}

/// The first words of a prime block, those before its pointers.
#[derive(Clone, Copy)]
pub struct PrimeHead {
    /// What the file is.
    pub prime: Prime,
    /// The length in words.
    pub length: u32,
    /// How many pointers there are.
    pub count: usize,
    /// The first extension, or 0.
    pub next: u64,
    pub ghost length_fits: { length ≤ 2097152 },
    pub ghost count_fits: { count ≤ 112 },
}

/// Returns the first words of a prime block, if they are valid in this layout: layout 1 has no date above 4095.
pub fn prime_head(block: &Block, layout: Layout) -> Option<PrimeHead>
    ensures some { IfSome result (λ h. IsPrimeHead (layout_number layout) block.now (with_length h.prime h.length)
        h.count h.next) }
    ensures none { IfNone result ((p : SpecPrime) (count next : ℕ)
        → IsPrimeHead (layout_number layout) block.now p count next → ⊥) }
{
    let words = &block[..];
    let marked = block[0].bits() == PRIME_WORD;
    let plain = are_zeros(&words[8..PRIME_HEAD]);
    let (length, count) = (block[5].bits(), block[6].bits());
    if !marked || !plain || length > u64::from(MOST_WORDS) || count > PRIME_POINTERS as u64 {
        return None;
    }
    let attributes = attributes_of(block[3])?;
    let date = date_in(block[2].right(), attributes.low, layout)?;
    Some(PrimeHead {
        prime: Prime {
            file: FileName {
                name: block[1],
                ext: block[2].left(),
            },
            ppn: Ppn::from_word(block[4])?,
            protection: attributes.protection,
            mode: attributes.mode,
            moment: Moment {
                date,
                minute: attributes.minute,
            },
        },
        length: length as u32,
        count: count as usize,
        next: block[7].bits(),
    })
}

/// The first words of an extension, those before its pointers.
#[derive(Clone, Copy)]
pub struct ExtensionHead {
    /// How many pointers there are.
    pub count: usize,
    /// The next extension, or 0.
    pub next: u64,
    pub ghost count_fits: { count ≤ 126 },
    pub ghost some: { 0 < count },
}

/// Returns the first words of an extension, if they are valid.
pub fn extension_head(block: &Block) -> Option<ExtensionHead>
    ensures some { IfSome result (λ h. IsExtensionHead block.now h.count h.next) }
    ensures none { IfNone result ((count next : ℕ) → IsExtensionHead block.now count next → ⊥) }
{
    let count = block[0].right().bits();
    let marked = block[0].left().bits() == EXTENSION_HALF;
    if !marked || count == 0 || count > EXTENSION_POINTERS as u32 {
        return None;
    }
    Some(ExtensionHead {
        count: count as usize,
        next: block[1].bits(),
    })
}

/// Returns the extension of a file as a prime block has it, with the three high bits of its date in bits 18 to 20,
/// which are zero for the dates of layout 1.
pub fn extension_word(prime: &Prime) -> Word
    ensures { (words : ℕ) → result ≡ extension_word (with_length prime.now words) }
{
    let high = prime.moment.date / 4096;
    Word::from_halves(prime.file.ext, Half::from_bits(high << 15))
}

/// Returns the attributes of a file as a prime block has them: protection in bits 0 to 8, mode in 9 to 12, time in 13
/// to 23, the low twelve bits of the date in 24 to 35.
pub fn attributes_word(prime: &Prime) -> Word
    ensures { (words : ℕ) → result ≡ attributes (with_length prime.now words) }
{
    let protection = u64::from(prime.protection) << 27;
    let mode = prime.mode.number() << 23;
    let minute = u64::from(prime.moment.minute) << 12;
    let low = u64::from(prime.moment.date % 4096);
    Word::from_bits(protection + mode + minute + low)
}
