//! Laws about the edits of a directory's chain.
ghost use Rattle.std.specs.Ordering.{nat_cmp};
ghost use Rattle.spec_image.specs.Directories.{file_words, IsFileEntry, master_words, IsMasterEntry};
ghost use Rattle.spec_image.specs.Edits.{EntryReplaced, EntryAdded, ChainGrown, EntryRemoved, EntryRemovedMoved};
ghost use Rattle.spec_image.specs.Edits.{LastDropped, HoleFilled, HoleFilledAdjacent, HoleFilledDropped, ChainCosts};
ghost use Rattle.spec_image.specs.Files.{name_cmp};

/// Proves that a directory's chain, after each edit of it, is the directory with the edit made.
pub fn directory_edits()
    ensures replaced { EntryReplaced name_cmp file_words IsFileEntry }
    ensures added { EntryAdded name_cmp file_words IsFileEntry }
    ensures grown { ChainGrown name_cmp file_words IsFileEntry }
    ensures removed { EntryRemoved name_cmp file_words IsFileEntry }
    ensures removed_moved { EntryRemovedMoved name_cmp file_words IsFileEntry }
    ensures last_dropped { LastDropped name_cmp file_words IsFileEntry }
    ensures hole_filled { HoleFilled name_cmp file_words IsFileEntry }
    ensures hole_filled_adjacent { HoleFilledAdjacent name_cmp file_words IsFileEntry }
    ensures hole_filled_dropped { HoleFilledDropped name_cmp file_words IsFileEntry }
    ensures costs { ChainCosts name_cmp file_words IsFileEntry }
{}

/// Proves the same for the master directory.
pub fn master_edits()
    ensures replaced { EntryReplaced nat_cmp master_words IsMasterEntry }
    ensures added { EntryAdded nat_cmp master_words IsMasterEntry }
    ensures grown { ChainGrown nat_cmp master_words IsMasterEntry }
    ensures removed { EntryRemoved nat_cmp master_words IsMasterEntry }
    ensures removed_moved { EntryRemovedMoved nat_cmp master_words IsMasterEntry }
    ensures last_dropped { LastDropped nat_cmp master_words IsMasterEntry }
    ensures hole_filled { HoleFilled nat_cmp master_words IsMasterEntry }
    ensures hole_filled_adjacent { HoleFilledAdjacent nat_cmp master_words IsMasterEntry }
    ensures hole_filled_dropped { HoleFilledDropped nat_cmp master_words IsMasterEntry }
    ensures costs { ChainCosts nat_cmp master_words IsMasterEntry }
{}
