//! The reading of words of a version.
ghost use Rattle.std.specs.Prelude.{◌≡◌, ◌⊎◌, ◌+◌, ◌-◌, ◌*◌, ◌<◌, ℕ, List, true, Some, None, IfOk, IsErrOf, length};
ghost use Rattle.std.specs.Prelude.{min, slice_index, take};
ghost use Rattle.changeset.specs.Common.{OnlyReads};
ghost use Rattle.spec_image.specs.declared.code.ErrorCode.{ErrorCode};
ghost use Rattle.spec_image.specs.Common.{File, Files, HasBody, block_start, words_from};
ghost use Rattle.retrieval.specs.Common.{VersionState};
ghost use Rattle.volume.specs.Common.{DeviceAnswer, memory_of, version_under, IsReadable, RestsAt};
ghost use Rattle.volume.specs.declared.error.CallError.TheVariants.{Refused, Device, NoMemory, Failed};
ghost use Rattle.words36.specs.declared.word.TheConstants.{BLOCK_WORDS};

use crate::CallError;
use crate::handles::VersionHandle;
use crate::live::LiveMap;
use crate::volume::Volume;
use blockdisk::Disk;
use retrieval::{BodyError, Version, get_words};
use std::alloc::Global;
use words36::Word;

/// Returns the version that a handle is of.
fn version_under(map: &LiveMap, handle: VersionHandle) -> &Version
    requires { IsReadable (memory_of map.now) handle }
    ensures { version_under (memory_of map.now) handle ≡ Some result.now }
{
    match handle {
        VersionHandle::Pinned(pin) => match map.versions.get(pin.key) {
            Some(live) => &live.version,
            None => unreachable!(),
        },
        VersionHandle::Pending(pending) => match map.pending.get(pending.key) {
            Some(version) => &version.version,
            None => unreachable!(),
        },
    }
}

impl<D: Disk> Volume<D> {
    /// Returns the words of a version's body from block `block`, counted from 1: at most `count` of them, and fewer if
    /// the body ends before. They are those of the version that was pinned, whatever its name has now.
    ///
    /// # Errors
    ///
    /// `NoMemory` if there is no memory for the words, with nothing read; `Device` if the device failed, and the volume
    /// with it; `Failed` if the volume failed before, or if a block is damaged, which no honest disk shows: the volume
    /// has failed then.
    pub fn get_words(
        &mut self,
        alloc: Global,
        handle: VersionHandle,
        block: u32,
        count: u32,
    ) -> Result<Vec<Word>, CallError>
        requires live { IsReadable self.old.map handle }
        requires first { 0 < block }
        ensures words { (D.state self.new.disk).honest → (v : VersionState)
            → version_under self.old.map handle ≡ Some v → (body : List ℕ) → length body ≡ v.words
            → HasBody (D.state self.old.disk).contents v.blocks body
            → IfOk result (λ words. words.items ≡ take count (words_from body block)) }
        // A damaged block is never returned as words.
        ensures whole { (D.state self.new.disk).honest → (v : VersionState)
            → version_under self.old.map handle ≡ Some v
            → IfOk result (λ words. (i : ℕ) → i * BLOCK_WORDS < length words.items
            → (D.state self.old.disk).contents (slice_index v.blocks (block - 1 + i)) ≡ None → ⊥) }
        ensures few { (v : VersionState) → version_under self.old.map handle ≡ Some v
            → IfOk result (λ words. length words.items ≡ min count (v.words - block_start block)) }

        // Nothing is written, and memory stays as it was.
        ensures reads { (D.state self.new.disk).honest → OnlyReads (D.state self.old.disk) (D.state self.new.disk) }
        ensures rests { (D.state self.new.disk).honest → (files : Files File) → RestsAt (D.state self.old.disk) files
            → RestsAt (D.state self.new.disk) files }
        ensures map { self.new.map ≡ self.old.map }

        // Which error comes when, and what it leaves.
        ensures plain { (code : ErrorCode) → IsErrOf result (Refused code) → ⊥ }
        ensures memory { IsErrOf result NoMemory → self.new.disk ≡ self.old.disk }
        // If there are no words, the disk isn't called.
        ensures none { IfOk result (λ words. length words.items ≡ 0 → self.new.disk ≡ self.old.disk) }
        ensures failed { self.old.failed ≡ true → IsErrOf result Failed }
        ensures broken { self.old.failed ≡ true → (self.new.disk ≡ self.old.disk) × (self.new.map ≡ self.old.map) }
        ensures given_up { IsErrOf result Failed → (self.old.failed ≡ true) ⊎ ((D.state self.new.disk).honest → ⊥) }
        ensures answer { DeviceAnswer (D.state self.old.disk) (D.state self.new.disk) self.old.failed self.new.failed
            result }
        ensures layout { self.new.layout ≡ self.old.layout }
    {
        if self.failed {
            return Err(CallError::Failed);
        }
        let _booked = self.map.table.booked(); // every table is valid
        let version = version_under(&self.map, handle);
        match get_words(alloc, &mut self.disk, version, block, count) {
            Ok(words) => Ok(words),
            Err(BodyError::NoMemory) => Err(CallError::NoMemory),
            Err(BodyError::Device) => {
                self.failed = true; // nothing is known of the disk any more
                Err(CallError::Device)
            }
            Err(BodyError::BadData(_block)) => {
                self.failed = true; // only a broken promise of the disk explains it
                Err(CallError::Failed)
            }
        }
    }
}
