//! Laws of the versions that are read: they are booked, and they stay.
ghost use Rattle.std.specs.Prelude.{◌≡◌, ℕ, flat_map, None, Some, IfSome};
ghost use Rattle.std.specs.List.{AllByRecursion};
ghost use Rattle.words36.specs.declared.names.FileName.{FileName};
ghost use Rattle.spec_image.specs.Common.{Directory, Files, empty, get, insert, values, SpecVersion};
ghost use Rattle.spec_machine.specs.Common.{HaveDistinctSerials};
ghost use Rattle.volume.specs.Common.{MemoryMap, IsFirstRead, IsWholeMemory, prime_at, KeepsRead};
ghost use Rattle.monitor.specs.Common.{AreBooked, AreRead};

use blockdisk::Disk;

/// Proves that what readers have pinned is booked: if the files' serials are distinct, each version that is read costs
/// in the machine what it costs in memory, and is that of a file if it is current.
pub fn what_is_read_is_booked<D: Disk>(disk: &D)
    ensures { (c : MemoryMap) (files : Files SpecVersion) (read : ℕ → SpecVersion)
        → IsWholeMemory (D.state disk.now).size c
        → HaveDistinctSerials (flat_map (λ d. values d.files) (values files))
        → AreRead (D.state disk.now) c files read
        → AreBooked c.live (flat_map (λ d. values d.files) (values files)) read }
{}

/// Proves that what is read stays. In a volume that has just been opened nothing is read, whatever the machine has
/// under each key. From one state of a disk to another what is read stays if the versions in memory are the same and
/// keep their blocks, and each place keeps its prime block: with the same files, and with one more empty directory.
pub fn what_is_read_stays<D: Disk>(old: &D, new: &D)
    ensures started { (c : MemoryMap) (files : Files SpecVersion) (read : ℕ → SpecVersion)
        → AllByRecursion (λ o. IfSome o IsFirstRead) c.live → AreRead (D.state old.now) c files read }
    ensures kept { (c next : MemoryMap) (read : ℕ → SpecVersion) → next.live ≡ c.live
        → KeepsRead (D.state old.now).contents (D.state new.now).contents c
        → (files : Files SpecVersion) → ((ppn : ℕ) (name : FileName) → prime_at next ppn name ≡ prime_at c ppn name)
        → AreRead (D.state old.now) c files read → AreRead (D.state new.now) next files read }
    ensures made { (c next : MemoryMap) (read : ℕ → SpecVersion) → next.live ≡ c.live
        → KeepsRead (D.state old.now).contents (D.state new.now).contents c
        → (files : Files SpecVersion) (owner : ℕ) (directory : Directory SpecVersion) → directory.files ≡ empty
        → get files owner ≡ None
        → ((ppn : ℕ) (name : FileName) (n : ℕ) → prime_at c ppn name ≡ Some n → prime_at next ppn name ≡ Some n)
        → AreRead (D.state old.now) c files read → AreRead (D.state new.now) next (insert files owner directory) read }
{}
