//! What a volume answers from memory.
ghost use Rattle.std.specs.Prelude.{◌≡◌, ◌↔◌, ◌<◌, ◌^◌, ◌-ℤ◌, pos, ℕ, false, length, map, None, IfOk, IfErr, IsErr};
ghost use Rattle.std.specs.Prelude.{IsErrOf, IsTrue};
ghost use Rattle.std.specs.Ordering.{nat_cmp};
ghost use Rattle.std.specs.FinMap.Entries.{find};
ghost use Rattle.spec_image.specs.declared.code.ErrorCode.TheVariants.{NoDirectory, NotFound};
ghost use Rattle.spec_image.specs.Common.{File, Files, name_cmp, get};
ghost use Rattle.directory.specs.Common.{StandsAt};
ghost use Rattle.volume.specs.Common.{file_view, master_view, IsKeyed, AreStanding, cost_beyond, live_directory};
ghost use Rattle.volume.specs.Common.{room_of, protection_answer, IsPlainRefusal, IsNamedVersion, IsLookAnswer};
ghost use Rattle.volume.specs.Common.{IsSoundMemory, RestsAt};
ghost use Rattle.volume.specs.declared.error.CallError.TheVariants.{Refused, Failed};

use crate::CallError;
use crate::file_facts::FileFacts;
use crate::live::{LiveDirectory, LiveVersion};
use crate::volume::Volume;
use blockdisk::Disk;
use directory::{Chain, MasterEntry};
use slab::Slab;
use spec_image::ErrorCode;
use spec_image::layout::space_start;
use words36::{FileName, Ppn};

/// Returns the place of a directory's entry in the master directory, counted from 0.
///
/// # Errors
///
/// `Refused(NoDirectory)` if there is none.
pub fn directory_place(master: &Chain<MasterEntry>, ppn: Ppn) -> Result<usize, CallError>
    ensures found { IfOk result (λ i. (v : ℕ × ℕ) × StandsAt nat_cmp (map master_view master.now.entries) ppn v i) }
    ensures none { IsErr result → find nat_cmp ppn (map master_view master.now.entries) ≡ None }
    ensures only { IfErr result (λ e. e ≡ Refused NoDirectory) }
{
    match master.find(&ppn) {
        Some(i) => Ok(i),
        None => Err(CallError::Refused(ErrorCode::NoDirectory)),
    }
}

/// Returns the facts of the file with this name in a directory.
///
/// # Errors
///
/// `Refused(NotFound)` if there is none.
pub fn named_facts(
    versions: &Slab<LiveVersion>,
    directory: &LiveDirectory,
    name: &FileName,
) -> Result<FileFacts, CallError>
    requires keyed { IsKeyed versions.now.slots (live_directory versions.now.slots directory.now)
        directory.now.keys.items }
    requires standing { AreStanding versions.now.slots }
    ensures found { IfOk result (IsNamedVersion (live_directory versions.now.slots directory.now) name.now) }
    ensures none { IsErr result → find name_cmp name.now (map file_view directory.now.chain.entries) ≡ None }
    ensures only { IfErr result (λ e. e ≡ Refused NotFound) }
{
    let Some(i) = directory.chain.find(name) else {
        return Err(CallError::Refused(ErrorCode::NotFound));
    };
    let Some(live) = versions.get(directory.keys.at(i)) else {
        unreachable!() // each entry has a version
    };
    Ok(FileFacts {
        protection: live.prime.protection,
        mode: live.prime.mode,
        moment: live.prime.moment,
        words: live.version.length(),
        blocks: live.version.count() as u32,
    })
}

/// Returns `blocks` less `less`, which may be negative.
fn difference(blocks: u32, less: u64) -> i64
    requires { less < 2 ^ 63 }
    ensures { result ≡ pos blocks -ℤ pos less }
{
    i64::from(blocks) - less as i64
}

impl<D: Disk> Volume<D> {
    /// Returns whether a call met a fault of the disk: then the other calls, except `blocks`, say nothing of the disk
    /// any more.
    ///
    /// Its contract states that every volume is sound, whatever the answer: a caller gets that fact by this call.
    pub fn has_failed(&self) -> bool
        ensures value { result ≡ self.now.failed }
        ensures sound { IsSoundMemory (D.state self.now.disk) self.now.map self.now.failed }
    {
        self.failed
    }

    /// Returns how many blocks the disk has.
    pub fn blocks(&self) -> u32
        ensures { result ≡ (D.state self.now.disk).size }
    {
        self.disk.blocks()
    }

    /// Returns how many blocks aren't booked: the blocks of the free space less what the master directory, the
    /// directories and the files cost, the pinned versions that no file has any more, and the versions that are being
    /// written, each with its entry if that is a new one. It may be negative, as on an image that another program made
    /// with long runs, which cost less there than they are counted here.
    pub fn room(&self) -> i64
        ensures { (D.state self.now.disk).honest → self.now.failed ≡ false → (files : Files File)
            → RestsAt (D.state self.now.disk) files
            → result ≡ room_of (D.state self.now.disk).size files (cost_beyond self.now.map) }
    {
        let size = self.disk.blocks();
        difference(size - space_start(size), self.map.table.booked())
    }

    /// Returns the protection of a directory: three octal digits, each a sum of 4 to look names up and 2 to make new
    /// ones.
    ///
    /// # Errors
    ///
    /// `Refused(NoDirectory)` if there is none, `Failed` if the volume failed before.
    pub fn directory(&self, ppn: Ppn) -> Result<u16, CallError>
        ensures value { (D.state self.now.disk).honest → self.now.failed ≡ false → (files : Files File)
            → RestsAt (D.state self.now.disk) files
            → result ≡ protection_answer (get files ppn) }
        ensures failed { IsErrOf result Failed ↔ IsTrue self.now.failed }
        ensures only { IfErr result IsPlainRefusal }
    {
        if self.failed {
            return Err(CallError::Failed);
        }
        let i = directory_place(&self.map.master, ppn)?;
        let entry = self.map.master.entries()[i];
        Ok(entry.protection)
    }

    /// Returns the facts of a file.
    ///
    /// # Errors
    ///
    /// `Refused(NoDirectory)` if there is no such directory, `Refused(NotFound)` if it has no such file, `Failed` if
    /// the volume failed before.
    pub fn look(&self, ppn: Ppn, name: &FileName) -> Result<FileFacts, CallError>
        ensures value { (D.state self.now.disk).honest → self.now.failed ≡ false → (files : Files File)
            → RestsAt (D.state self.now.disk) files
            → IsLookAnswer name.now result (get files ppn) }
        ensures failed { IsErrOf result Failed ↔ IsTrue self.now.failed }
        ensures only { IfErr result IsPlainRefusal }
    {
        if self.failed {
            return Err(CallError::Failed);
        }
        let i = directory_place(&self.map.master, ppn)?;
        let directory = &self.map.directories[i];
        named_facts(&self.map.versions, directory, name)
    }
}
