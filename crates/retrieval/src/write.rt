//! The retrieval blocks of a version, taken from the table and written.
ghost use Rattle.std.specs.Prelude.{◌≡◌, ◌+◌, ◌-◌, ◌/◌, ◌<◌, ◌≤◌, ◌^◌, ◌∷◌, ℕ, length, take, drop, Some, OnOk, ◌*◌};
ghost use Rattle.std.specs.Prelude.{IfOk, IsErrOf};
ghost use Rattle.std.specs.List.{AllByRecursion};
ghost use Rattle.blockdisk.specs.Common.{SameDisk, Modifies, one_more};
ghost use Rattle.blockdisk.specs.declared.fault.Fault.TheVariants.{Device as DeviceFault, Damaged};
ghost use Rattle.spec_image.specs.Common.{head_or_zero, blocks_of, InSpace, times, IsVolumeSize, IsRun, prime_block};
ghost use Rattle.spec_image.specs.Common.{extension_block, AreExtensions, IsRetrieved, date_limit};
ghost use Rattle.alloctab.specs.Common.{IsTable, IsFree, space, used_in_space};
ghost use Rattle.retrieval.specs.Common.{pairs_of, longest_runs, ribs_of, with_length, IsStandingVersion, rib_count};
ghost use Rattle.retrieval.specs.Common.{Takes, AreApart, IsFixed, extensions_of};
ghost use Rattle.retrieval.specs.declared.error.RetrievalError.TheVariants.{BadRetrieval, Device, NoMemory};
ghost use Rattle.spec_image.specs.Common.{most_blocks};

use crate::build::{first_of, pointer_to, prime_block};
use crate::head::EXTENSION_HALF;
use crate::run::Run;
use crate::{Prime, RetrievalError, Version};
use alloctab::Table;
use blockdisk::{Disk, Fault};
use spec_image::layout::{EXTENSION_HEAD, EXTENSION_POINTERS, PRIME_POINTERS};
use std::alloc::Global;
use words36::{BLOCK_WORDS, Block, Half, Word};

/// Returns the words of an extension: a pointer to each of the runs, and the next extension, or 0.
fn extension_of(runs: &[Run], next: u32) -> Block
    requires few { length runs.now ≤ 126 }
    requires fit { AllByRecursion IsRun (pairs_of runs.now) }
    ensures { result ≡ extension_block (pairs_of runs.now) next }
{
    let mut words = [Word::ZERO; BLOCK_WORDS];
    words[0] = Word::from_halves(
        Half::from_bits(EXTENSION_HALF),
        Half::from_bits(runs.len() as u32),
    );
    words[1] = Word::from_bits(u64::from(next));
    for (i, run) in runs.iter().enumerate() {
        words[EXTENSION_HEAD + i] = pointer_to(*run);
    }
    words
}

/// Writes the ribs with the pointers to these runs, the last rib first.
///
/// # Errors
///
/// `Device` if the device failed; the ribs may then hold anything.
fn write_ribs<D: Disk>(disk: &mut D, ribs: &[u32], runs: &[Run]) -> Result<(), Fault>
    requires inside { AllByRecursion (λ n. n < (D.state disk.old).size) ribs.now }
    requires apart { AreApart ribs.now }
    requires count { length ribs.now ≡ (length runs.now + 125) / 126 }
    requires fit { AllByRecursion IsRun (pairs_of runs.now) }
    ensures written { (D.state disk.new).honest
        → OnOk result (AreExtensions (D.state disk.new).contents (extensions_of ribs.now (pairs_of runs.now))) }
    ensures modified { (D.state disk.new).honest
        → Modifies (λ n. 0 < times n ribs.now) (D.state disk.old) (D.state disk.new) }
    ensures same { SameDisk (D.state disk.old) (D.state disk.new) }
    ensures device { IsErrOf result Damaged → ⊥ }
    ensures failed { IsErrOf result DeviceFault → (D.state disk.new).failures ≡ one_more (D.state disk.old).failures }
    ensures served { OnOk result ((D.state disk.new).failures ≡ (D.state disk.old).failures) }
{
    let Some((rib, further)) = ribs.split_first() else {
        return Ok(());
    };
    let here = runs.len().min(EXTENSION_POINTERS);
    write_ribs(disk, further, &runs[here..])?;
    let words = extension_of(&runs[..here], first_of(further));
    disk.write(*rib, &words)
}

/// Takes free blocks, one after the other.
pub(crate) fn take_blocks(table: &mut Table, blocks: &mut [u32])
    requires sound { IsTable table.old }
    requires fixed { IsFixed table.old }
    requires used { used_in_space table.old + length blocks.old ≤ table.old.booked }
    requires room { table.old.booked ≤ space table.old.size }
    ensures taken { Takes table.old blocks.new table.new }
    ensures length { length blocks.new ≡ length blocks.old }
{
    for i in 0..blocks.len() {
        blocks[i] = table.take_block();
    }
}

/// Returns how many ribs `pointers` pointers need. A rib is a block with up to 126 pointers of a version: those for
/// which its prime block, with the first 112, has no place. That many data blocks never need more.
pub fn rib_count(pointers: usize) -> usize
    ensures { result ≡ rib_count pointers }
{
    let others = pointers.saturating_sub(PRIME_POINTERS);
    others.div_ceil(EXTENSION_POINTERS)
}

/// Takes the blocks that the retrieval blocks of a version will have: its prime block, which is returned, and
/// its ribs, as many as its longest runs need. `ribs` is a list that was allocated for these, with a place for each,
/// or more; its contents aren't read.
pub fn take_retrieval_blocks(table: &mut Table, version: &mut Version, mut ribs: Vec<u32>) -> u32
    requires fixed { IsFixed table.old }
    requires enough { ribs_of version.old.blocks ≤ length ribs.items }
    requires booked { used_in_space table.old + (1 + ribs_of version.old.blocks) ≤ table.old.booked }
    requires room { table.old.booked ≤ space table.old.size }
    ensures kept { version.new ≡ record version.old { ribs = version.new.ribs } }
    ensures count { length version.new.ribs ≡ ribs_of version.new.blocks }
    ensures taken { Takes table.old (result ∷ version.new.ribs) table.new }
{
    let _booked = table.booked(); // which states that the table is sound
    let at = table.take_block();
    ribs.truncate(rib_count(version.runs().len()));
    take_blocks(table, ribs.as_mut_slice());
    version.set_ribs(ribs);
    at
}

/// Writes the retrieval blocks of a version into the blocks that were taken for them: the ribs, and the prime
/// block `at` last.
///
/// # Errors
///
/// `Device` if the device failed; the blocks may then hold anything.
pub fn write_retrieval_blocks<D: Disk>(
    disk: &mut D,
    at: u32,
    prime: &Prime,
    version: &Version,
) -> Result<(), Fault>
    // What the caller ensures.
    requires inside { AllByRecursion (λ n. n < (D.state disk.old).size) (at ∷ version.now.ribs) }
    requires apart { AreApart (at ∷ version.now.ribs) }
    requires nonzero { times 0 version.now.ribs ≡ 0 }
    requires count { length version.now.ribs ≡ ribs_of version.now.blocks }
    requires words { version.now.words ≤ most_blocks * BLOCK_WORDS }
    requires enough { length version.now.blocks ≡ blocks_of version.now.words }
    requires fit { AllByRecursion (λ n. n < 2 ^ 18) version.now.blocks }
    // What is there then, in each layout that has the date.
    ensures written { (D.state disk.new).honest → (layout : ℕ) → prime.now.moment.date < date_limit layout
        → OnOk result (IsRetrieved layout (D.state disk.new).contents (with_length prime.now version.now.words)
        at version.now.ribs version.now.blocks) }
    // The prime block has the first of the longest runs of the data blocks, the ribs have the others.
    ensures prime_is { (D.state disk.new).honest → OnOk result ((D.state disk.new).contents at
        ≡ Some (prime_block (with_length prime.now version.now.words) (take 112 (longest_runs version.now.blocks))
        (head_or_zero version.now.ribs))) }
    ensures ribs_are { (D.state disk.new).honest → OnOk result (AreExtensions (D.state disk.new).contents
        (extensions_of version.now.ribs (drop 112 (longest_runs version.now.blocks)))) }
    ensures modified { (D.state disk.new).honest
        → Modifies (λ n. 0 < times n (at ∷ version.now.ribs)) (D.state disk.old) (D.state disk.new) }
    ensures same { SameDisk (D.state disk.old) (D.state disk.new) }
    // The device: what failed, and how often.
    ensures device { IsErrOf result Damaged → ⊥ }
    ensures failed { IsErrOf result DeviceFault → (D.state disk.new).failures ≡ one_more (D.state disk.old).failures }
    ensures served { OnOk result ((D.state disk.new).failures ≡ (D.state disk.old).failures) }
{
    let runs = version.runs();
    let here = runs.len().min(PRIME_POINTERS);
    write_ribs(disk, version.ribs(), &runs[here..])?;
    let words = prime_block(prime, version);
    disk.write(at, &words)
}

/// Writes the retrieval blocks of a version: takes a prime block and the ribs that its blocks need from
/// the table and writes them, by quiet writes alone. Returns the prime block.
///
/// # Errors
///
/// `NoMemory` if there is no memory for the list of ribs, with nothing done; `Device` if the device failed,
/// with the blocks taken and holding anything.
pub fn write_version<D: Disk>(
    alloc: Global,
    disk: &mut D,
    table: &mut Table,
    prime: &Prime,
    version: &mut Version,
) -> Result<u32, RetrievalError>
    requires volume { IsVolumeSize (D.state disk.old).size }
    requires size { table.old.size ≡ (D.state disk.old).size }
    requires words { version.old.words ≤ most_blocks * BLOCK_WORDS }
    requires enough { length version.old.blocks ≡ blocks_of version.old.words }
    requires blocks { AllByRecursion (λ n. n < 2 ^ 18) version.old.blocks }
    requires fixed { IsFixed table.old }
    requires booked { used_in_space table.old + (1 + ribs_of version.old.blocks) ≤ table.old.booked }
    requires room { table.old.booked ≤ space table.old.size }

    // What was written is there in each layout that has the date, and is read back: `whole` and `reads` of
    // `read_version`.
    ensures written { (D.state disk.new).honest → (layout : ℕ) → prime.now.moment.date < date_limit layout
        → IfOk result (λ n. IsRetrieved layout (D.state disk.new).contents (with_length prime.now version.new.words)
        n version.new.ribs version.new.blocks) }
    ensures read_back { (D.state disk.new).honest → (layout : ℕ) → prime.now.moment.date < date_limit layout
        → AllByRecursion (InSpace (D.state disk.old).size) version.old.blocks
        → IfOk result (λ n. IsStandingVersion (D.state disk.new).size (D.state disk.new).contents layout n
        (with_length prime.now version.new.words) version.new.ribs version.new.blocks) }
    // The prime block has the first of the longest runs of the data blocks, the ribs have the others.
    ensures prime_is { (D.state disk.new).honest → IfOk result (λ n. (D.state disk.new).contents n
        ≡ Some (prime_block (with_length prime.now version.new.words) (take 112 (longest_runs version.new.blocks))
        (head_or_zero version.new.ribs))) }
    ensures ribs_are { (D.state disk.new).honest → OnOk result (AreExtensions (D.state disk.new).contents
        (extensions_of version.new.ribs (drop 112 (longest_runs version.new.blocks)))) }
    ensures kept { version.new ≡ record version.old { ribs = version.new.ribs } }
    ensures count { OnOk result (length version.new.ribs ≡ ribs_of version.new.blocks) }

    // The blocks taken were free, one after the other, even if the device failed.
    ensures taken { IfOk result (λ n. Takes table.old (n ∷ version.new.ribs) table.new) }
    ensures own { IfOk result (λ n. AllByRecursion (λ k. IsFree table.old k × InSpace (D.state disk.old).size k)
        (n ∷ version.new.ribs)) }
    ensures apart { IfOk result (λ n. AreApart (n ∷ version.new.ribs)) }
    ensures left { IsErrOf result Device → (n : ℕ) × Takes table.old (n ∷ version.new.ribs) table.new }

    // Nothing except blocks that were free is written, whatever the result.
    ensures modified { (D.state disk.new).honest
        → Modifies (λ n. IsFree table.old n × InSpace (D.state disk.old).size n) (D.state disk.old) (D.state disk.new) }
    ensures memory { IsErrOf result NoMemory → (table.new ≡ table.old) × (version.new ≡ version.old)
        × (disk.new ≡ disk.old) }
    ensures bad { (k : ℕ) → IsErrOf result (BadRetrieval k) → ⊥ }

    // On every disk.
    ensures same { SameDisk (D.state disk.old) (D.state disk.new) }
    ensures failed { IsErrOf result Device → (D.state disk.new).failures ≡ one_more (D.state disk.old).failures }
    ensures served { (IsErrOf result Device → ⊥) → (D.state disk.new).failures ≡ (D.state disk.old).failures }
{
    // Memory first, so that a refused growth leaves everything unchanged.
    let ribs = vec![in alloc; 0; rib_count(version.runs().len())]?;
    let _booked = table.booked(); // which states that the table is sound
    let _place = (prime.ppn.word(), prime.file.ext.bits()); // which state that the place fits its words
    let at = take_retrieval_blocks(table, version, ribs);
    match write_retrieval_blocks(disk, at, prime, version) {
        Ok(()) => Ok(at),
        Err(_) => Err(RetrievalError::Device),
    }
}
