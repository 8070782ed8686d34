//! Laws of readers: what they have pinned stays when versions are published and other readers come or go.
ghost use Rattle.std.specs.Prelude.{◌≡◌, ◌⊎◌, ◌<◌, ◌+◌, ◌-◌, ◌==◌, ℕ, true, false, if◌then◌else◌, flat_map, Some};
ghost use Rattle.std.specs.Prelude.{None};
ghost use Rattle.spec_image.specs.Common.{Files, Place, values, SpecVersion, file_at, with_file, place_of};
ghost use Rattle.spec_machine.specs.Common.{HaveDistinctSerials};
ghost use Rattle.volume.specs.Common.{as_known, MemoryMap, slot, IsWholeMemory, IsVersionOf, prime_at};
ghost use Rattle.volume.specs.Common.{IsPublishedMemory, KeepsRead};
ghost use Rattle.volume.specs.declared.live.LiveVersion.{LiveVersion};
ghost use Rattle.volume.specs.declared.pending.PendingVersion.{PendingVersion};
ghost use Rattle.monitor.specs.Common.{AreRead};

use blockdisk::Disk;

/// Proves that readers keep their versions when one is published: a version of another place stays current there, and
/// the one that is superseded is past. The new version's serial is that of no version that is read.
pub fn readers_keep_what_is_superseded<D: Disk>(old: &D, new: &D)
    ensures { (c c' : MemoryMap) (files : Files SpecVersion) (read : ℕ
        → SpecVersion) (key : ℕ) (p : PendingVersion) (words : ℕ) (place : Place) (x : SpecVersion)
        → AreRead (D.state old.now) c files read → IsWholeMemory (D.state old.now).size c
        → IsPublishedMemory (D.state old.now).size c c' key p words
        → HaveDistinctSerials (flat_map (λ d. values d.files) (values files)) → place
        ≡ place_of p.prime.ppn p.prime.file
        → ((k : ℕ) (v : LiveVersion) → slot c.live k ≡ Some v → 0 < v.readers → x.serial ≡ (read k).serial → ⊥)
        → KeepsRead (D.state old.now).contents (D.state new.now).contents c
        → AreRead (D.state new.now) c' (with_file files place x) read }
{}

/// Proves that when a reader comes to the version that a place has now, or leaves the one that it has pinned, all
/// others keep theirs.
pub fn readers_come_and_go<D: Disk>(disk: &D)
    ensures comes { (c c' : MemoryMap) (files : Files SpecVersion) (read : ℕ
        → SpecVersion) (key : ℕ) (place : Place) (x : SpecVersion)
        → AreRead (D.state disk.now) c files read → IsWholeMemory (D.state disk.now).size c
        → file_at files place ≡ Some x
        → HaveDistinctSerials (flat_map (λ d. values d.files) (values files))
        → ((v : LiveVersion) × (slot c.live key ≡ Some v)
        × (slot c'.live key ≡ Some (record v { readers = v.readers + 1 })))
        → ((k : ℕ) → (k ≡ key → ⊥) → slot c'.live k ≡ slot c.live k)
        → c' ≡ record c { live = c'.live }
        → ((v : LiveVersion) × (slot c.live key ≡ Some v) × (v.is_current ≡ true)
        × (prime_at c place.ppn place.name ≡ Some v.at))
        → ((v : LiveVersion) × (slot c'.live key ≡ Some v)
        × IsVersionOf (D.state disk.now).contents (as_known v) x.file)
        → AreRead (D.state disk.now) c' files (λ k. if k == key then x else read k) }

    // If it was read before, it was this very version.
    ensures again { (c : MemoryMap) (files : Files SpecVersion) (read : ℕ
        → SpecVersion) (key : ℕ) (v : LiveVersion) (place : Place) (x : SpecVersion)
        → AreRead (D.state disk.now) c files read → IsWholeMemory (D.state disk.now).size c
        → file_at files place ≡ Some x
        → slot c.live key ≡ Some v → 0 < v.readers → v.is_current ≡ true → prime_at c place.ppn place.name ≡ Some v.at
        → read key ≡ x }
    ensures goes { (c c' : MemoryMap) (files : Files SpecVersion) (read : ℕ → SpecVersion) (key : ℕ) (v : LiveVersion)
        → AreRead (D.state disk.now) c files read → slot c.live key ≡ Some v → 0 < v.readers
        → ((v.is_current ≡ true) ⊎ (1 < v.readers) → slot c'.live key ≡ Some (record v { readers = v.readers - 1 }))
        → (v.is_current ≡ false → v.readers ≡ 1 → slot c'.live key ≡ None)
        → ((k : ℕ) → (k ≡ key → ⊥) → slot c'.live k ≡ slot c.live k)
        → c'.known ≡ record c.known { table = c'.known.table }
        → AreRead (D.state disk.now) c' files read }
{}
