//! Laws about what a start refuses and what it finds.
ghost use Rattle.std.specs.Prelude.{ℕ};
ghost use Rattle.blockdisk.specs.Common.{Contents};
ghost use Rattle.spec_image.specs.Faults.{StartFault, HasFault};
ghost use Rattle.spec_image.specs.Files.{File, Files};
ghost use Rattle.spec_image.specs.ReadFindings.{FoundDirectoryIsWhole, FoundDirectoryReaches, FoundMapIsMapped};
ghost use Rattle.spec_image.specs.ReadFindings.{FoundMapReaches, FoundMapStands};
ghost use Rattle.spec_image.specs.Stands.{Stands};

/// Proves that contents with a fault stand for no files.
pub fn faults_exclude()
    ensures { (size : ℕ) (contents : Contents) (files : Files File) (fault : StartFault) → HasFault size contents fault
        → Stands size contents files → ⊥ }
{}

/// Proves that what a reader has found is what the contents have, if it has read everything and the table agrees.
pub fn reading_finds_the_map()
    ensures directory { FoundDirectoryIsWhole }
    ensures reaches { FoundDirectoryReaches }
    ensures mapped { FoundMapIsMapped }
    ensures map_reaches { FoundMapReaches }
    ensures map { FoundMapStands }
{}
