//! How an IN moves words into core.
ghost use Rattle.std.specs.Prelude.{◌≡◌, ◌↔◌, ◌<◌, ◌≤◌, ℕ, List, [], true, false, length, min, None, Some, IfOk, IfErr};
ghost use Rattle.std.specs.Prelude.{OnErr};
ghost use Rattle.spec_machine.specs.Common.{dump_list, word_count, after_writes, dealt, byte_size, in_ready};
ghost use Rattle.spec_image.specs.Common.{HasBody, words_from};
ghost use Rattle.spec_machine.specs.declared.area.Area.{Area as Words};
ghost use Rattle.retrieval.specs.Common.{mode_number, VersionState};
ghost use Rattle.usercore.specs.declared.error.CoreError.TheVariants.{AddressCheck as NotInCore};
ghost use Rattle.volume.specs.Common.{IsReadable, version_under};
ghost use Rattle.monitor.specs.Common.{Asked, LeavesRead, asked_at, buffer_asked};
ghost use Rattle.monitor.specs.declared.read_in.ReadIn.TheVariants.{Moved, AddressCheck, AtEnd};

use crate::channel::OpenChannel;
use crate::status::cleared;
use blockdisk::Disk;
use spec_machine::IoStatus;
use std::alloc::Global;
use usercore::{Core, CoreError, RingStep, word_count};
use volume::{CallError, VersionHandle, Volume};
use words36::Word;

/// The number of words of data of a disk buffer.
const DATA_WORDS: usize = 0o200;

/// How an IN ends.
#[derive(Clone, Copy, Debug, PartialEq, Eq)]
pub enum ReadIn {
    /// This many words were moved: none if a command list names none.
    Moved(usize),
    /// The command list isn't valid, or names words outside the core; or the ring isn't valid.
    AddressCheck,
    /// The body has no words from that block.
    AtEnd,
    /// There was no memory for the words: nothing was read.
    NoMemory,
    /// The device failed, and the volume with it.
    Device,
    /// A block is damaged, which no honest disk shows: the volume has failed.
    Failed,
}

/// Returns the number of words that an IN of a channel asks for: as many as a buffer takes, or as the command list at
/// an address names.
///
/// # Errors
///
/// `AddressCheck` if the ring or the list isn't valid.
fn count_asked(core: &Core, channel: &OpenChannel, address: u32) -> Result<usize, CoreError>
    ensures count { IfOk result (λ count. (k : Asked) × (asked_at core.now channel.now address ≡ Some k)
        × (k.count ≡ count) × ((count ≡ 0) ↔ (k.none ≡ true))) }
    ensures few { IfOk result (λ count. count ≤ 0o400000) }
    ensures none { OnErr result (asked_at core.now channel.now address ≡ None) }
    ensures refused { IfErr result (λ error. error ≡ NotInCore) }
{
    if channel.is_buffered() {
        core.ring_check(RingStep::In, channel.input_header, channel.bytes())?;
        return Ok(DATA_WORDS);
    }
    if let Some(area) = core.lone_area(address) {
        return Ok(area.count);
    }
    let areas = core.dump_list(address)?;
    Ok(word_count(areas.as_slice()))
}

/// Fills the next buffer of a channel's input ring.
fn fill_buffer(core: &mut Core, channel: &OpenChannel, words: &[Word])
    requires { (ready : List ℕ)
        × (in_ready core.old channel.now.input_header (byte_size (mode_number channel.now.mode)) ≡ Some ready) }
    ensures filled { (ready : List ℕ)
        → in_ready core.old channel.now.input_header (byte_size (mode_number channel.now.mode)) ≡ Some ready
        → core.new ≡ (buffer_asked channel.now ready).filled words.now }
    ensures length { length core.new ≡ length core.old }
{
    let status = IoStatus(cleared(channel.status));
    match core.ring_in(channel.input_header, channel.bytes(), status, words) {
        Ok(()) => {}
        Err(_) => unreachable!(), // it was checked before
    }
}

/// Deals words out to the areas that the command list at an address names. The whole list is read before anything is
/// moved.
fn fill_areas(core: &mut Core, address: u32, words: &[Word])
    requires { (areas : List Words) × (dump_list core.old address ≡ Some areas) }
    ensures filled { (areas : List Words) → dump_list core.old address ≡ Some areas
        → core.new ≡ after_writes core.old (dealt areas words.now) }
    ensures length { length core.new ≡ length core.old }
{
    if let Some(area) = core.lone_area(address) {
        core.deal(&[area], words);
        return;
    }
    match core.dump_list(address) {
        Ok(areas) => core.deal(areas.as_slice(), words),
        Err(_) => unreachable!(), // it was read before
    }
}

/// Moves words to where an IN of a channel asks for them; its core has these places.
fn fill(core: &mut Core, channel: &OpenChannel, address: u32, words: &[Word])
    requires { (k : Asked) × (asked_at core.old channel.now address ≡ Some k) }
    ensures filled { (k : Asked) → asked_at core.old channel.now address ≡ Some k → core.new ≡ k.filled words.now }
    ensures length { length core.new ≡ length core.old }
{
    if channel.is_buffered() {
        fill_buffer(core, channel, words);
    } else {
        fill_areas(core, address, words);
    }
}

/// Moves the words of a version's body, from a block, into core: into the next buffer of a channel's input ring, or in
/// dump mode into the areas that the command list at an address names. The ring or the list is checked before anything
/// is read, and a list that names no words needs neither memory nor the disk.
pub fn read_in<D: Disk>(
    alloc: Global,
    volume: &mut Volume<D>,
    core: &mut Core,
    channel: &OpenChannel,
    handle: VersionHandle,
    block: u32,
    address: u32,
) -> ReadIn
    requires alive { volume.old.failed ≡ false }
    requires live { IsReadable volume.old.map handle }
    requires first { 0 < block }
    // On every disk this depends on the contents of the core alone.
    ensures checked { result ≡ AddressCheck ↔ (asked_at core.old channel.now address ≡ None) }
    ensures named { result ≡ Moved 0 → (k : Asked) → asked_at core.old channel.now address ≡ Some k
        → k.none ≡ true }
    // The words are those of the version's body,
    ensures moved { (D.state volume.new.disk).honest → (v : VersionState)
        → version_under volume.old.map handle ≡ Some v → (body : List ℕ) → length body ≡ v.words
        → HasBody (D.state volume.old.disk).contents v.blocks body → (k : Asked)
        → asked_at core.old channel.now address ≡ Some k
        → (n : ℕ) → result ≡ Moved n → core.new ≡ k.filled (words_from body block) }
    // and, on every disk, as many as are asked for and the body has.
    ensures number { (v : VersionState) → version_under volume.old.map handle ≡ Some v → (body : List ℕ)
        → length body ≡ v.words → (k : Asked) → asked_at core.old channel.now address ≡ Some k
        → (n : ℕ) → result ≡ Moved n → n ≡ min k.count (length (words_from body block)) }
    ensures few { (k : Asked) → asked_at core.old channel.now address ≡ Some k → (n : ℕ) → result ≡ Moved n
        → n ≤ k.count }
    ensures at_end { (v : VersionState) → version_under volume.old.map handle ≡ Some v → (body : List ℕ)
        → length body ≡ v.words → (k : Asked) → asked_at core.old channel.now address ≡ Some k
        → result ≡ AtEnd → (k.none ≡ false) × (words_from body block ≡ []) }
    // What it leaves, however it ends.
    ensures left { LeavesRead (D.state volume.old.disk) (D.state volume.new.disk) volume.old.map volume.new.map
        core.old core.new (volume.new.disk ≡ volume.old.disk) volume.new.failed result }
    ensures layout { volume.new.layout ≡ volume.old.layout }
{
    let Ok(count) = count_asked(core, channel, address) else {
        return ReadIn::AddressCheck; // the only error
    };
    if count == 0 {
        return ReadIn::Moved(0);
    }
    match volume.get_words(alloc, handle, block, count as u32) {
        Ok(words) if words.is_empty() => ReadIn::AtEnd,
        Ok(words) => {
            fill(core, channel, address, words.as_slice());
            ReadIn::Moved(words.len())
        }
        Err(CallError::NoMemory) => ReadIn::NoMemory,
        Err(CallError::Device) => ReadIn::Device,
        Err(CallError::Failed) => ReadIn::Failed,
        Err(CallError::Refused(_)) => unreachable!(),
    }
}
