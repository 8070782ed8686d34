//! Laws about what contents stand for.
ghost use Rattle.std.specs.Prelude.{codes, ◌≡◌, ◌+◌, ◌≤◌, ◌∷◌, ℕ, List, length};
ghost use Rattle.blockdisk.specs.Common.{Contents};
ghost use Rattle.spec_image.specs.Blocks.{AgreeOn};
ghost use Rattle.spec_image.specs.Costs.{version_cost, cost_of_files};
ghost use Rattle.spec_image.specs.Counts.{sum_below, size_of_file, size_of_map};
ghost use Rattle.spec_image.specs.Directories.{IsDirectory, file_words, IsFileEntry, master_words, IsMasterEntry};
ghost use Rattle.spec_image.specs.Files.{File, Files, Place, name_cmp};
ghost use Rattle.spec_image.specs.Maps.{FinMap, empty};
ghost use Rattle.std.specs.Ordering.{nat_cmp};
ghost use Rattle.spec_image.specs.Home.{filser_word, SpecHome, IsHome};
ghost use Rattle.spec_image.specs.Layouts.{layout_of, pack_in, SettledStandsOn, StandsOn, Pack};
ghost use Rattle.spec_image.specs.Log.{log_word};
ghost use Rattle.spec_image.specs.Quiet.{DifferInFree, SameOutsideLog};
ghost use Rattle.words36.specs.Common.{sixbit, join};
ghost use Rattle.spec_image.specs.Retrieval.{prime_word, extension_half, SpecPrime, IsRetrieved, HasBody};
ghost use Rattle.spec_image.specs.Stands.{StoredFile, DiskMap, files_of, blocks_of_file, IsVersion, HasMap};
ghost use Rattle.spec_image.specs.Stands.{SettledStands, Stands};
ghost use Rattle.spec_image.specs.Table.{table_bit, fixed};
ghost use Rattle.spec_image.specs.Vector.{v1, v1_files, v1_open};

/// Proves that contents stand for at most one map of files.
pub fn one_meaning()
    ensures { (size : ℕ) (contents : Contents) (f g : Files File) → Stands size contents f → Stands size contents g
        → f ≡ g }
{}

/// Proves that the layout of contents is that of the home copy that counts, so that it stays if the home copies do, and
/// that contents stand for files in one layout at most.
pub fn layouts_are_named()
    ensures named { (size : ℕ) (contents : Contents) (home : SpecHome) → IsHome size contents home
        → layout_of size contents ≡ home.layout }
    ensures kept { (size : ℕ) (contents other : Contents) → contents 1 ≡ other 1 → contents 2 ≡ other 2
        → layout_of size contents ≡ layout_of size other }
    ensures one { (pack : Pack) (settled : Contents) (files : Files File) → SettledStandsOn pack settled files
        → layout_of pack.blocks settled ≡ pack.layout }
    ensures any { (pack : Pack) (contents : Contents) (files : Files File) → StandsOn pack contents files
        → Stands pack.blocks contents files }
    ensures own { (size : ℕ) (settled : Contents) (files : Files File) → SettledStands size settled files
        → SettledStandsOn (pack_in (layout_of size settled) size) settled files }
{}

/// Proves that the contents stand for the same files, whatever is written to blocks that are free in the settled
/// contents.
pub fn quiet_writes()
    ensures { (size : ℕ) (old new : Contents) (files : Files File) (s : Stands size old files)
        → DifferInFree size s.0 old new → Stands size new files }
{}

/// Proves that the gate and the log are no part of what settled contents stand for.
pub fn log_is_no_part()
    ensures { (size : ℕ) (old new : Contents) (m : DiskMap) → SameOutsideLog size old new → HasMap size old m
        → HasMap size new m }
{}

/// Proves that a directory's chain stays what it is if its blocks stay.
pub fn chains_are_kept()
    ensures files { (old new : Contents) (blocks : List ℕ) (m : FinMap name_cmp ℕ)
        → IsDirectory name_cmp file_words IsFileEntry old blocks m → AgreeOn blocks old new
        → IsDirectory name_cmp file_words IsFileEntry new blocks m }
    ensures master { (old new : Contents) (blocks : List ℕ) (m : FinMap nat_cmp (ℕ × ℕ))
        → IsDirectory nat_cmp master_words IsMasterEntry old blocks m → AgreeOn blocks old new
        → IsDirectory nat_cmp master_words IsMasterEntry new blocks m }
{}

/// Proves that what is retrieved stays if the retrieval blocks stay, and a body if the data blocks do.
pub fn versions_are_kept()
    ensures retrieved { (layout : ℕ) (old new : Contents) (p : SpecPrime) (prime : ℕ) (extensions blocks : List ℕ)
        → IsRetrieved layout old p prime extensions blocks → AgreeOn (prime ∷ extensions) old new
        → IsRetrieved layout new p prime extensions blocks }
    ensures body { (old new : Contents) (blocks body : List ℕ) → HasBody old blocks body → AgreeOn blocks old new
        → HasBody new blocks body }
    ensures version { (layout : ℕ) (old new : Contents) (place : Place) (f : StoredFile)
        → IsVersion layout old place f → AgreeOn (blocks_of_file f) old new → IsVersion layout new place f }
{}

/// Proves that a version reaches no more blocks than it costs.
pub fn versions_fit_their_cost()
    ensures { (layout : ℕ) (contents : Contents) (place : Place) (f : StoredFile)
        → IsVersion layout contents place f → size_of_file f ≤ version_cost (length f.file.body) }
{}

/// Proves that a map of the disk reaches no more blocks than its files cost.
pub fn maps_fit_their_cost()
    ensures { (disk_size : ℕ) (contents : Contents) (m : DiskMap) → HasMap disk_size contents m
        → size_of_map m ≤ cost_of_files (files_of m) }
{}

/// Proves that the bits that are set are those of the fixed regions, and as many more as the map reaches blocks.
pub fn bits_are_counted()
    ensures { (size : ℕ) (contents : Contents) (m : DiskMap) → HasMap size contents m
        → sum_below (table_bit size contents) size ≡ sum_below (fixed size) size + size_of_map m }
{}

/// Proves that the words by which home blocks, log headers, prime retrieval blocks and extensions are recognized are
/// their names in SIXBIT.
pub fn names_are_sixbit()
    ensures home { filser_word ≡ sixbit (codes "FILSER") }
    ensures log { log_word ≡ sixbit (codes "LOG") }
    ensures prime { prime_word ≡ sixbit (codes "RIB") }
    ensures extension { join extension_half 0 ≡ sixbit (codes "XRB") }
{}

/// Proves that the vector V1 stands for its one file, which costs 4 blocks with its directories, and that with its gate
/// open it stands for what the log makes of it.
pub fn vectors_stand()
    ensures closed { Stands 64 v1 v1_files }
    ensures cost { cost_of_files v1_files ≡ 4 }
    ensures open_gate { Stands 64 v1_open empty }
{}
