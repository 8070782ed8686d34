//! Laws about the changes of a disk: which map and which files the new contents have.
ghost use Rattle.std.specs.Prelude.{◌≡◌, ◌≢◌, ◌+◌, ◌<◌, ◌≤◌, ◌⊎◌, ◌++◌, ℕ, List, Option, None, Some};
ghost use Rattle.words36.specs.declared.names.FileName.{FileName};
ghost use Rattle.blockdisk.specs.Common.{Contents};
ghost use Rattle.spec_image.specs.Maps.{empty, get, insert, remove, times};
ghost use Rattle.spec_image.specs.Blocks.{AgreeOn, head_or_zero};
ghost use Rattle.spec_image.specs.Files.{File, Place};
ghost use Rattle.spec_image.specs.Table.{table_bit};
ghost use Rattle.spec_image.specs.Home.{home_block, IsLayout};
ghost use Rattle.spec_image.specs.Retrieval.{date_limit, IsPrime, first_extension, prime_block, prime_of};
ghost use Rattle.spec_image.specs.Stands.{StoredFile, StoredDirectory, DiskMap, blocks_of_file, reaches_in_file};
ghost use Rattle.spec_image.specs.Stands.{reaches_in_directory, reaches, directory_of, files_of, home_of};
ghost use Rattle.spec_image.specs.Stands.{quota_limit, entry_of, place_of, IsVersion, IsWhole, IsMapped, HasMap};
ghost use Rattle.spec_image.specs.Changes.{ChangesOnly, IsFileChain, IsMasterChain, PutsOnly, TableFollows};
ghost use Rattle.spec_image.specs.Changes.{WritesFree, bare_directory, entries_of, file_put, file_removed, in_layout};
ghost use Rattle.spec_image.specs.Changes.{in_place_of, primes_of, reaches_in_found, with_directory, with_file};
ghost use Rattle.spec_image.specs.Changes.{with_protection, without_directory, without_file};

/// Proves that the contents have the new map if its parts are on the disk and the table follows: the law behind all the
/// others. The two clauses after it are for directories that change with their files, and keep their protection, quota
/// and first block.
pub fn maps_change_by_parts()
    ensures any { (size : ℕ) (old new : Contents) (m after : DiskMap) (given_up taken : ℕ → ℕ)
        → HasMap size old m → IsMapped size new after → TableFollows size old new given_up taken
        → ((n : ℕ) → reaches n after + given_up n ≡ reaches n m + taken n)
        → HasMap size new after }
    ensures one { (size : ℕ) (old new : Contents) (m : DiskMap) (ppn : ℕ) (d changed : StoredDirectory)
        (given_up taken : ℕ → ℕ)
        → HasMap size old m → get m.directories ppn ≡ Some d → IsWhole m.layout new ppn changed
        → entry_of changed ≡ entry_of d
        → ChangesOnly old new m (λ n. reaches_in_directory n d) → TableFollows size old new given_up taken
        → ((n : ℕ) → reaches_in_directory n changed + given_up n ≡ reaches_in_directory n d + taken n)
        → HasMap size new (with_directory m m.chain ppn changed) }
    ensures two { (size : ℕ) (old new : Contents) (m : DiskMap) (ppn : ℕ) (d changed : StoredDirectory)
        (other : ℕ) (e other_changed : StoredDirectory) (given_up taken : ℕ → ℕ)
        → HasMap size old m → get m.directories ppn ≡ Some d → get m.directories other ≡ Some e → other ≢ ppn
        → IsWhole m.layout new ppn changed → entry_of changed ≡ entry_of d → IsWhole m.layout new other other_changed
        → entry_of other_changed ≡ entry_of e
        → ChangesOnly old new m (λ n. reaches_in_directory n d + reaches_in_directory n e)
        → TableFollows size old new given_up taken
        → ((n : ℕ) → reaches_in_directory n changed + reaches_in_directory n other_changed + given_up n
        ≡ reaches_in_directory n d + reaches_in_directory n e + taken n)
        → HasMap size new (with_directory (with_directory m m.chain ppn changed) m.chain other other_changed) }
{}

/// Proves which map and files a disk has after a version is published under a name, whether the name is new or not.
pub fn versions_are_published()
    ensures stands { (size : ℕ) (old new : Contents) (m : DiskMap) (ppn : ℕ) (d : StoredDirectory) (name : FileName)
        (was : Option StoredFile) (f : StoredFile) (chain : List ℕ)
        → HasMap size old m → get m.directories ppn ≡ Some d → get d.files name ≡ was
        → IsFileChain new chain (insert (primes_of d) name f.prime) → head_or_zero chain ≡ head_or_zero d.chain
        → IsVersion m.layout new (place_of ppn name) f
        → ChangesOnly old new m (λ n. times n d.chain + reaches_in_found n was)
        → TableFollows size old new (λ n. times n d.chain + reaches_in_found n was)
        (λ n. times n chain + reaches_in_file n f)
        → HasMap size new (with_directory m m.chain ppn (with_file d chain name f)) }
    ensures files { (m : DiskMap) (ppn : ℕ) (d : StoredDirectory) (name : FileName) (f : StoredFile) (chain : List ℕ)
        → files_of (with_directory m m.chain ppn (with_file d chain name f))
        ≡ insert (files_of m) ppn (file_put (directory_of d) name f.file) }
{}

/// Proves which map a disk has after a publication, from the contents before its first write: blocks that were free are
/// written, which changes nothing, and then a change set puts a block of the directory and blocks of the table.
pub fn versions_are_superseded()
    ensures written { (size : ℕ) (old new : Contents) (m : DiskMap) (blocks : List ℕ) → HasMap size old m
        → WritesFree size old new blocks → HasMap size new m }
    ensures stands { (size : ℕ) (old written new : Contents) (m : DiskMap) (ppn : ℕ) (d : StoredDirectory)
        (name : FileName) (was : Option StoredFile) (f : StoredFile) (puts : List ℕ)
        → HasMap size old m → get m.directories ppn ≡ Some d → get d.files name ≡ was
        → WritesFree size old written (blocks_of_file f) → IsVersion m.layout written (place_of ppn name) f
        → PutsOnly size written new puts → ((n : ℕ) → 0 < times n puts → 0 < times n d.chain)
        → IsFileChain new d.chain (insert (primes_of d) name f.prime)
        → ((n : ℕ) → table_bit size new n + reaches_in_found n was ≡ table_bit size old n + reaches_in_file n f)
        → HasMap size new (with_directory m m.chain ppn (with_file d d.chain name f)) }
{}

/// Proves which map and files a disk has after a file is removed from its directory.
pub fn files_are_removed()
    ensures stands { (size : ℕ) (old new : Contents) (m : DiskMap) (ppn : ℕ) (d : StoredDirectory) (name : FileName)
        (f : StoredFile) (chain : List ℕ)
        → HasMap size old m → get m.directories ppn ≡ Some d → get d.files name ≡ Some f
        → IsFileChain new chain (remove (primes_of d) name) → head_or_zero chain ≡ head_or_zero d.chain
        → ChangesOnly old new m (λ n. times n d.chain + reaches_in_file n f)
        → TableFollows size old new (λ n. times n d.chain + reaches_in_file n f) (λ n. times n chain)
        → HasMap size new (with_directory m m.chain ppn (without_file d chain name)) }
    ensures files { (m : DiskMap) (ppn : ℕ) (d : StoredDirectory) (name : FileName) (chain : List ℕ)
        → files_of (with_directory m m.chain ppn (without_file d chain name))
        ≡ insert (files_of m) ppn (file_removed (directory_of d) name) }
{}

/// Proves that a version whose prime block is rewritten, for another place or with other attributes, is that of the
/// changed file.
pub fn prime_blocks_are_rewritten()
    ensures { (layout : ℕ) (old new : Contents) (place to : Place) (f : StoredFile) (file : File)
        (is : IsVersion layout old place f) → file.body ≡ f.file.body → IsPrime layout (prime_of to file)
        → new f.prime ≡ Some (prime_block (prime_of to file) is.retrieved.runs (first_extension is.retrieved.further))
        → AgreeOn (f.extensions ++ f.blocks) old new
        → IsVersion layout new to (in_place_of f file) }
{}

/// Proves which map and files a disk has after the attributes of a file change, such as its protection. Its version
/// stays where it is.
pub fn attributes_change()
    ensures stands { (size : ℕ) (old new : Contents) (m : DiskMap) (ppn : ℕ) (d : StoredDirectory) (name : FileName)
        (f : StoredFile) (file : File)
        → HasMap size old m → get m.directories ppn ≡ Some d → get d.files name ≡ Some f
        → IsVersion m.layout new (place_of ppn name) (in_place_of f file)
        → ChangesOnly old new m (λ n. reaches_in_file n f) → TableFollows size old new (λ n. 0) (λ n. 0)
        → HasMap size new (with_directory m m.chain ppn (with_file d d.chain name (in_place_of f file))) }
    ensures files { (m : DiskMap) (ppn : ℕ) (d : StoredDirectory) (name : FileName) (f : StoredFile) (file : File)
        → files_of (with_directory m m.chain ppn (with_file d d.chain name (in_place_of f file)))
        ≡ insert (files_of m) ppn (file_put (directory_of d) name file) }
{}

/// Proves which map and files a disk has after a file is renamed, within its directory or from one into another. Its
/// prime block is rewritten, and its other blocks stay.
pub fn files_are_renamed()
    ensures within { (size : ℕ) (old new : Contents) (m : DiskMap) (ppn : ℕ) (d : StoredDirectory) (name to : FileName)
        (f : StoredFile) (file : File) (chain : List ℕ)
        → HasMap size old m → get m.directories ppn ≡ Some d → get d.files name ≡ Some f
        → (to ≡ name) ⊎ (get d.files to ≡ None)
        → IsFileChain new chain (insert (remove (primes_of d) name) to f.prime)
        → head_or_zero chain ≡ head_or_zero d.chain
        → IsVersion m.layout new (place_of ppn to) (in_place_of f file)
        → ChangesOnly old new m (λ n. times n d.chain + reaches_in_file n f)
        → TableFollows size old new (λ n. times n d.chain) (λ n. times n chain)
        → HasMap size new
        (with_directory m m.chain ppn (with_file (without_file d chain name) chain to (in_place_of f file))) }
    ensures files_within { (m : DiskMap) (ppn : ℕ) (d : StoredDirectory) (name to : FileName) (f : StoredFile)
        (file : File) (chain : List ℕ)
        → files_of (with_directory m m.chain ppn (with_file (without_file d chain name) chain to (in_place_of f file)))
        ≡ insert (files_of m) ppn (file_put (file_removed (directory_of d) name) to file) }
    ensures across { (size : ℕ) (old new : Contents) (m : DiskMap) (ppn : ℕ) (d : StoredDirectory) (name : FileName)
        (f : StoredFile) (chain : List ℕ)
        (other : ℕ) (e : StoredDirectory) (to : FileName) (file : File) (other_chain : List ℕ)
        → HasMap size old m → get m.directories ppn ≡ Some d → get d.files name ≡ Some f
        → get m.directories other ≡ Some e → get e.files to ≡ None → other ≢ ppn
        → IsFileChain new chain (remove (primes_of d) name) → head_or_zero chain ≡ head_or_zero d.chain
        → IsFileChain new other_chain (insert (primes_of e) to f.prime) → head_or_zero other_chain
        ≡ head_or_zero e.chain → IsVersion m.layout new (place_of other to) (in_place_of f file)
        → ChangesOnly old new m (λ n. times n d.chain + times n e.chain + reaches_in_file n f)
        → TableFollows size old new (λ n. times n d.chain + times n e.chain) (λ n. times n chain + times n other_chain)
        → HasMap size new (with_directory (with_directory m m.chain ppn (without_file d chain name)) m.chain other
        (with_file e other_chain to (in_place_of f file))) }
    ensures files_across { (m : DiskMap) (ppn : ℕ) (d : StoredDirectory) (name : FileName) (f : StoredFile)
        (chain : List ℕ) (other : ℕ) (e : StoredDirectory) (to : FileName) (file : File) (other_chain : List ℕ)
        → files_of (with_directory (with_directory m m.chain ppn (without_file d chain name)) m.chain other
        (with_file e other_chain to (in_place_of f file)))
        ≡ insert (insert (files_of m) ppn (file_removed (directory_of d) name)) other
        (file_put (directory_of e) to file) }
{}

/// Proves which map and files a disk has after a directory with no files is made and the master directory names it.
pub fn directories_are_made()
    ensures stands { (size : ℕ) (old new : Contents) (m : DiskMap) (chain : List ℕ) (ppn protection quota : ℕ)
        (blocks : List ℕ)
        → HasMap size old m → get m.directories ppn ≡ None → protection < 512 → quota < quota_limit m.layout
        → IsFileChain new blocks empty
        → IsMasterChain new chain (insert (entries_of m) ppn (entry_of (bare_directory protection quota blocks)))
        → head_or_zero chain ≡ head_or_zero m.chain
        → ChangesOnly old new m (λ n. times n m.chain)
        → TableFollows size old new (λ n. times n m.chain) (λ n. times n chain + times n blocks)
        → HasMap size new (with_directory m chain ppn (bare_directory protection quota blocks)) }
    ensures files { (m : DiskMap) (chain : List ℕ) (ppn protection quota : ℕ) (blocks : List ℕ)
        → files_of (with_directory m chain ppn (bare_directory protection quota blocks))
        ≡ insert (files_of m) ppn (record { protection = protection; quota = quota; files = empty }) }
{}

/// Proves which map and files a disk has after a directory gets another protection and another quota.
pub fn directories_are_protected()
    ensures stands { (size : ℕ) (old new : Contents) (m : DiskMap) (chain : List ℕ) (ppn : ℕ) (d : StoredDirectory)
        (protection quota : ℕ)
        → HasMap size old m → get m.directories ppn ≡ Some d → protection < 512 → quota < quota_limit m.layout
        → IsMasterChain new chain (insert (entries_of m) ppn (entry_of (with_protection d protection quota)))
        → head_or_zero chain ≡ head_or_zero m.chain
        → ChangesOnly old new m (λ n. times n m.chain)
        → TableFollows size old new (λ n. times n m.chain) (λ n. times n chain)
        → HasMap size new (with_directory m chain ppn (with_protection d protection quota)) }
    ensures files { (m : DiskMap) (chain : List ℕ) (ppn : ℕ) (d : StoredDirectory) (protection quota : ℕ)
        → files_of (with_directory m chain ppn (with_protection d protection quota))
        ≡ insert (files_of m) ppn (record { protection = protection; quota = quota; files = (directory_of d).files }) }
{}

/// Proves which map and files a disk has after a directory with no files is removed and its chain is freed.
pub fn directories_are_removed()
    ensures stands { (size : ℕ) (old new : Contents) (m : DiskMap) (chain : List ℕ) (ppn : ℕ) (d : StoredDirectory)
        → HasMap size old m → get m.directories ppn ≡ Some d → d.files ≡ empty
        → IsMasterChain new chain (remove (entries_of m) ppn) → head_or_zero chain ≡ head_or_zero m.chain
        → ChangesOnly old new m (λ n. times n m.chain + times n d.chain)
        → TableFollows size old new (λ n. times n m.chain + times n d.chain) (λ n. times n chain)
        → HasMap size new (without_directory m chain ppn) }
    ensures files { (m : DiskMap) (chain : List ℕ) (ppn : ℕ) → files_of (without_directory m chain ppn)
        ≡ remove (files_of m) ppn }
{}

/// Proves that the contents stand for the same files in another layout if both home copies are rewritten for that
/// layout, its dates and quotas reach at least as far, and every other block stays.
pub fn homes_are_raised()
    ensures stands { (size : ℕ) (old new : Contents) (m : DiskMap) (to : ℕ) → IsLayout to
        → date_limit m.layout ≤ date_limit to → quota_limit m.layout ≤ quota_limit to → HasMap size old m
        → new 1 ≡ Some (home_block size (home_of (in_layout m to)))
        → new 2 ≡ Some (home_block size (home_of (in_layout m to)))
        → ((n : ℕ) → n ≢ 1 → n ≢ 2 → new n ≡ old n) → HasMap size new (in_layout m to) }
    ensures files { (m : DiskMap) (to : ℕ) → files_of (in_layout m to) ≡ files_of m }
{}
