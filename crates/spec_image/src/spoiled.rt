//! A law about images with one change made by hand.
ghost use Rattle.spec_image.specs.Faults.{HasFault, NotVolume, BadHome, BadLog, BadDirectory, BadRetrieval};
ghost use Rattle.spec_image.specs.Faults.{BlockTwice, TableWrong, BadData};
ghost use Rattle.spec_image.specs.Files.{File, Files};
ghost use Rattle.spec_image.specs.Spoiled.{v1_untouched_copy, v1_latest_minute, latest_files, v1_not_volume};
ghost use Rattle.spec_image.specs.Spoiled.{v1_bad_home, v1_bad_log, v1_too_many_entries, v1_late_minute, v1_too_long};
ghost use Rattle.spec_image.specs.Spoiled.{v1_damaged_data, v1_bit_past_the_end, v1_looping_directory, v1_extra_bit};
ghost use Rattle.spec_image.specs.Spoiled.{v1_shared_block, v1_closed_gate};
ghost use Rattle.spec_image.specs.Stands.{Stands};
ghost use Rattle.spec_image.specs.Vector.{v1_files};

/// Proves what the vector V1 is after one change. With its first home copy damaged, or with a gate that is open except
/// for one word, it stands for its file. With the last minute of a day in the prime block it stands for the file at
/// that time. Each other change is a fault. The last clause states for two of them that they stand for no files, as
/// holds for all contents with a fault.
pub fn spoiled_images()
    // What still stands for files.
    ensures untouched_copy { Stands 64 v1_untouched_copy v1_files }
    ensures latest_minute { Stands 64 v1_latest_minute latest_files }
    ensures closed_gate { Stands 64 v1_closed_gate v1_files }

    // What is refused, and the fault that it has.
    ensures not_volume { HasFault 64 v1_not_volume NotVolume }
    ensures bad_home { HasFault 64 v1_bad_home BadHome }
    ensures bad_log { HasFault 64 v1_bad_log BadLog }
    ensures too_many_entries { HasFault 64 v1_too_many_entries (BadDirectory 15) }
    ensures late_minute { HasFault 64 v1_late_minute (BadRetrieval 17) }
    ensures too_long { HasFault 64 v1_too_long (BadRetrieval 17) }
    ensures damaged_data { HasFault 64 v1_damaged_data (BadData 18) }
    ensures bit_past_the_end { HasFault 64 v1_bit_past_the_end (TableWrong 14) }
    ensures looping_directory { HasFault 64 v1_looping_directory (BadDirectory 16) }
    ensures extra_bit { HasFault 64 v1_extra_bit (TableWrong 14) }
    ensures shared_block { HasFault 64 v1_shared_block (BlockTwice 16) }
    ensures no_files { (files : Files File) → (Stands 64 v1_shared_block files → ⊥)
        × (Stands 64 v1_damaged_data files → ⊥) }
{}
