//! What the words of a prime block or an extension say.
ghost use Rattle.std.specs.Prelude.{◌↔◌, ℕ, List, IsTrue, IfSome, IfNone, take, drop};
ghost use Rattle.spec_image.specs.Common.{layout_number, SpecPrime, SpecRun};
ghost use Rattle.retrieval.specs.Common.{with_length, runs_of, IsPrimeOf, SpellsPrime, SpellsExtension};

use crate::build::{first_of, prime_block_for};
use crate::head::{ExtensionHead, PrimeHead, extension_head, prime_head};
use crate::pointers::are_pointers;
use crate::{Prime, Version};
use spec_image::layout::{EXTENSION_HEAD, Layout, PRIME_HEAD};
use words36::Block;

/// Returns what a prime block says before its pointers, or `None` if its words aren't those of a prime block of this
/// layout.
pub fn parse_prime(block: &Block, layout: Layout) -> Option<PrimeHead>
    ensures some { IfSome result (λ h. SpellsPrime (layout_number layout) block.now (with_length h.prime h.length)
        (runs_of (take h.count (drop 16 block.now))) h.next) }
    ensures none { IfNone result ((p : SpecPrime) (runs : List SpecRun) (next : ℕ)
        → SpellsPrime (layout_number layout) block.now p runs next → ⊥) }
{
    let words = &block[..];
    let head = prime_head(block, layout)?;
    if !are_pointers(&words[PRIME_HEAD..], head.count) {
        return None;
    }
    Some(head)
}

/// Returns what an extension says before its pointers, or `None` if its words aren't those of an extension.
pub fn parse_extension(block: &Block) -> Option<ExtensionHead>
    ensures some { IfSome result (λ h. SpellsExtension block.now (runs_of (take h.count (drop 2 block.now))) h.next) }
    ensures none { IfNone result ((runs : List SpecRun) (next : ℕ) → SpellsExtension block.now runs next → ⊥) }
{
    let words = &block[..];
    let head = extension_head(block)?;
    if !are_pointers(&words[EXTENSION_HEAD..], head.count) {
        return None;
    }
    Some(head)
}

/// Returns whether a block is the prime block of a version in a layout: its words are those of a prime block of this
/// layout, they say of the file what this prime does, and they have the length and the first extension of the version.
/// Its pointers aren't compared.
pub fn is_prime_of(block: &Block, layout: Layout, prime: &Prime, version: &Version) -> bool
    ensures { IsTrue result ↔ IsPrimeOf (layout_number layout) block.now prime.now version.now }
{
    let Some(head) = parse_prime(block, layout) else {
        return false;
    };
    if head.length != version.length() {
        return false;
    }
    if head.next != u64::from(first_of(version.ribs())) {
        return false;
    }
    prime_block_for(block, prime) == *block
}
