//! The prime block of a file that gets another place: its words are read, checked and put anew.
ghost use Rattle.std.specs.Prelude.{◌≡◌, ◌⊎◌, ◌<◌, ◌≤◌, ℕ, List, false, length, Some, None, IsTrue, IsSome};
ghost use Rattle.std.specs.Prelude.{IfOk, IfErr, IsErrOf};
ghost use Rattle.changeset.specs.Common.{replaced};
ghost use Rattle.retrieval.specs.Common.{IsRewritten};
ghost use Rattle.retrieval.specs.declared.prime.Prime.{Prime as PrimeValue};
ghost use Rattle.volume.specs.Common.{KeepsDisk, slot, IsPrimeMoved, IsFilePrime};
ghost use Rattle.volume.specs.declared.error.CallError.TheVariants.{Device, Failed};
ghost use Rattle.volume.specs.declared.live.LiveVersion.{LiveVersion};

use crate::CallError;
use crate::live::LiveVersion;
use blockdisk::{Disk, Fault};
use changeset::ChangeSet;
use retrieval::{Prime, is_prime_of, prime_block_for};
use slab::Slab;
use spec_image::layout::Layout;
use words36::{Block, FileName, Ppn};

/// Returns the prime block of the version under a key.
pub(crate) fn prime_of(versions: &Slab<LiveVersion>, key: usize) -> u32
    requires { IsSome (slot versions.now.slots key) }
    ensures { (v : LiveVersion) → slot versions.now.slots key ≡ Some v → result ≡ v.at }
{
    match versions.get(key) {
        Some(version) => version.at,
        None => unreachable!(), // there is one
    }
}

/// Returns the words of a block.
///
/// # Errors
///
/// `Device` if the device failed, and `Failed` if the block is damaged.
fn read_words<D: Disk>(disk: &mut D, at: u32) -> Result<Block, CallError>
    requires { at < (D.state disk.old).size }
    ensures words { (D.state disk.new).honest → IfOk result (λ words. (D.state disk.old).contents at ≡ Some words) }
    ensures damaged { (D.state disk.new).honest → IsErrOf result Failed → (D.state disk.old).contents at ≡ None }
    ensures only { IfErr result (λ error. (error ≡ Device) ⊎ (error ≡ Failed)) }
    ensures disk { KeepsDisk (D.state disk.old) (D.state disk.new) (IsErrOf result Device) }
{
    match disk.read(at) {
        Ok(words) => Ok(words),
        Err(Fault::Damaged) => Err(CallError::Failed),
        Err(Fault::Device) => Err(CallError::Device),
    }
}

/// Returns whether these are the words of the prime block of the version under a key, which a file at this place has.
fn is_file_prime(
    versions: &Slab<LiveVersion>,
    key: usize,
    ppn: Ppn,
    name: &FileName,
    words: &Block,
) -> bool
    requires there { IsSome (slot versions.now.slots key) }
    ensures yes { IsTrue result → (v : LiveVersion) → slot versions.now.slots key ≡ Some v
        → IsFilePrime words.now ppn name.now v }
    ensures no { result ≡ false → (v : LiveVersion) → slot versions.now.slots key ≡ Some v
        → IsFilePrime words.now ppn name.now v → ⊥ }
{
    let Some(version) = versions.get(key) else {
        unreachable!() // there is one
    };
    let prime = prime_moved(&version.prime, ppn, name, version.prime.protection);
    is_prime_of(words, Layout::Two, &prime, &version.version)
}

/// Returns the words of the prime block `at` of the version under a key, which a file at this place has.
///
/// # Errors
///
/// `Device` if the device failed, and `Failed` if the block is damaged, or if its words aren't those of the prime block
/// of this version and place.
pub(crate) fn read_prime<D: Disk>(
    disk: &mut D,
    at: u32,
    versions: &Slab<LiveVersion>,
    key: usize,
    ppn: Ppn,
    name: &FileName,
) -> Result<Block, CallError>
    requires inside { at < (D.state disk.old).size }
    requires there { IsSome (slot versions.now.slots key) }
    ensures words { (D.state disk.new).honest → IfOk result (λ words. (D.state disk.old).contents at ≡ Some words) }
    // On every disk it is the prime block of the version; and if it is that, it isn't refused.
    ensures prime { IfOk result (λ words. (v : LiveVersion) → slot versions.now.slots key ≡ Some v
        → IsFilePrime words ppn name.now v) }
    ensures broken { (D.state disk.new).honest → IsErrOf result Failed → (v : LiveVersion) (words : List ℕ)
        → slot versions.now.slots key ≡ Some v → (D.state disk.old).contents at ≡ Some words
        → IsFilePrime words ppn name.now v → ⊥ }
    ensures only { IfErr result (λ error. (error ≡ Device) ⊎ (error ≡ Failed)) }
    ensures disk { KeepsDisk (D.state disk.old) (D.state disk.new) (IsErrOf result Device) }
{
    let words = match read_words(disk, at) {
        Ok(words) => words,
        Err(error) => return Err(error),
    };
    if !is_file_prime(versions, key, ppn, name, &words) {
        return Err(CallError::Failed); // only a broken promise of the disk explains it
    }
    Ok(words)
}

/// Returns what the prime block of a file says after it gets another place and protection.
fn prime_moved(prime: &Prime, ppn: Ppn, to: &FileName, protection: u16) -> Prime
    requires { protection < 512 }
    ensures { IsPrimeMoved prime.now result ppn to.now protection }
{
    Prime {
        file: *to,
        ppn,
        protection,
        mode: prime.mode,
        moment: prime.moment,
    }
}

/// Puts a prime block that says this; `words` are its words before.
fn put_prime(at: u32, words: &Block, prime: &Prime, set: &mut ChangeSet)
    requires room { length set.old ≤ 4 }
    ensures { (anew : List ℕ) × IsRewritten words.now anew prime.now
        × (set.new ≡ replaced (record { block = at; words = anew }) set.old) }
{
    let anew = prime_block_for(words, prime);
    match set.put(at, &anew) {
        Ok(()) => {}
        Err(_) => unreachable!(), // there is room for a fifth
    }
}

/// Gives the version under a key another place and protection, and puts its prime block, whose words are `words`.
pub(crate) fn move_version(
    versions: &mut Slab<LiveVersion>,
    key: usize,
    ppn: Ppn,
    to: &FileName,
    protection: u16,
    words: &Block,
    set: &mut ChangeSet,
)
    requires there { IsSome (slot versions.old.slots key) }
    requires protection { protection < 512 }
    requires room { length set.old ≤ 4 }
    ensures moved { (v : LiveVersion) → slot versions.old.slots key ≡ Some v → (prime : PrimeValue)
        × IsPrimeMoved v.prime prime ppn to.now protection × (slot versions.new.slots key
        ≡ Some (record v { prime = prime })) × (anew : List ℕ) × IsRewritten words.now anew prime
        × (set.new ≡ replaced (record { block = v.at; words = anew }) set.old) }
    ensures others { (k : ℕ) → (k ≡ key → ⊥) → slot versions.new.slots k ≡ slot versions.old.slots k }
{
    let Some(version) = versions.get_mut(key) else {
        unreachable!() // there is one
    };
    let prime = prime_moved(&version.prime, ppn, to, protection);
    version.prime = prime;
    put_prime(version.at, words, &prime, set);
}
