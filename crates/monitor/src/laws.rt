//! Laws of the states that a service starts from, and of what pinned versions cost.
ghost use Rattle.std.specs.Prelude.{◌≡◌, ◌+◌, ◌++◌, ℕ, List, Option, map};
ghost use Rattle.spec_image.specs.Common.{File, Files, total, SpecVersion};
ghost use Rattle.spec_machine.specs.Common.{State, distinct_cost, IsStart};
ghost use Rattle.volume.specs.Common.{pinned_cost};
ghost use Rattle.volume.specs.declared.live.LiveVersion.{LiveVersion};
ghost use Rattle.monitor.specs.Common.{ArePinned, AreBooked};

/// Proves that there is a state to start from, whatever the files are: each version can have a serial of its own.
pub fn files_have_a_start()
    ensures { (files : Files File) → (s : State) × IsStart files s }
{}

/// Proves that what readers have pinned is booked once: besides the versions of files, each version that is read and no
/// longer current costs what is booked for it in memory, however many readers there are.
pub fn pinned_versions_are_booked_once()
    ensures { (live : List (Option LiveVersion)) (now : List SpecVersion) (read : ℕ → SpecVersion) (pins : List ℕ)
        → ArePinned live pins → AreBooked live now read → distinct_cost (now ++ map read pins)
        ≡ distinct_cost now + total pinned_cost live }
{}
