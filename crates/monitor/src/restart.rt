//! How a service starts over what a crash left.
ghost use Rattle.std.specs.Prelude.{◌≡◌, ◌⊎◌, ℕ, List, IsTrue, IfOk, IfErr};
ghost use Rattle.blockdisk.specs.Common.{Contents, MayLeave, LeavesOnly, Between, SameDisk, Still, one_more};
ghost use Rattle.changeset.specs.Common.{IsRecovered};
ghost use Rattle.spec_machine.specs.Common.{StandsForEither, RunsOn, may_change, State, Service, Serving, step};
ghost use Rattle.spec_image.specs.Common.{File, Files, pack_of, Pack, without_serials, Stands};
ghost use Rattle.spec_machine.specs.declared.call.Event.{Event};
ghost use Rattle.spec_machine.specs.declared.call.Reply.{Reply};
ghost use Rattle.monitor.specs.Common.{IsAlong, ServesFiles, HasStarted, AreStopped};
ghost use Rattle.volume.specs.Common.{NamesInSpace, Refuses};
ghost use Rattle.volume.specs.declared.error.VolumeError.TheVariants.{NoMemory, Device};

use crate::StartError;
use crate::monitor::Monitor;
use blockdisk::Disk;
use std::alloc::Global;

/// Starts a service over what a crash left of a disk that served a list of events, or of a start after such a crash
/// that was stopped itself, and so on: any number of starts may have been stopped before this one.
///
/// At whichever moment of the list the crash came, the files are those after some of the events that were answered,
/// with none before them left out, or those after these and the next event, which was running, if its answer is one
/// that may change files; there is no third case. At whichever moments the earlier starts were stopped, the files are
/// the same. The layout is the one in which the list was served (`pack`).
///
/// # Errors
///
/// `NoMemory`, and `Device` if the device fails; the disk is handed back, and may be started again. Over a disk that no
/// such crash left, the refusals of `Monitor::start`.
pub fn start_after_crash<D: Disk, E: Disk>(
    alloc: Global,
    stopped: &D,
    left: E,
) -> Result<Monitor<E>, (StartError, E)>
    ensures found { (D.state stopped.now).honest → (E.state left).size ≡ (D.state stopped.now).size
        → (pack : Pack) → pack.blocks ≡ (D.state stopped.now).size
        → (t : ℕ) (s : State) (events : List Event) (replies : List Reply) (new : Service)
        → RunsOn pack (D.state stopped.now) t (Serving s) events replies new
        → (starts : List (E × E)) → AreStopped E.state (D.state stopped.now) t starts (E.state left).contents
        → (found : State) × IsAlong pack (Serving s) events replies found
        × IfOk result (λ m. (E.state m.disk).honest → (pack_of (E.state m.disk) ≡ pack)
        × ServesFiles (E.state m.disk) m.map m.failed m.jobs (without_serials found.files)) }
    ensures refused { (D.state stopped.now).honest → (E.state left).size ≡ (D.state stopped.now).size
        → (pack : Pack) → pack.blocks ≡ (D.state stopped.now).size
        → (t : ℕ) (s : State) (events : List Event) (replies : List Reply) (new : Service)
        → RunsOn pack (D.state stopped.now) t (Serving s) events replies new
        → (starts : List (E × E)) → AreStopped E.state (D.state stopped.now) t starts (E.state left).contents
        → IfErr result (λ refused. (E.state refused.1).honest → (refused.0 ≡ NoMemory) ⊎ (refused.0 ≡ Device)) }
    // What was left between the moment before an event and the moment after it: the files before it, or those after it
    // if its answer is one that may change files.
    ensures between { (E.state left).size ≡ (D.state stopped.now).size
        → (pack : Pack) → pack.blocks ≡ (D.state stopped.now).size
        → (t u : ℕ) (s : State) (event : Event) (reply : Reply)
        → Between (D.state stopped.now) t u (StandsForEither pack s event reply)
        → (D.state stopped.now).left_since t (E.state left).contents
        → ((D.state stopped.now).left_since u (E.state left).contents → ⊥)
        → IfOk result (λ m. (E.state m.disk).honest
        → ServesFiles (E.state m.disk) m.map m.failed m.jobs (without_serials s.files)
        ⊎ (IsTrue (may_change reply) × ServesFiles (E.state m.disk) m.map m.failed m.jobs
        (without_serials (step pack 0 s event).1.files))) }

    // It may be stopped itself. If all that a crash may leave at its beginning stands for the same files, so does
    // whatever a crash leaves at any moment of it.
    ensures again { (files : Files File)
        → ((c : Contents) → MayLeave (E.state left) c → Stands (E.state left).size c files)
        → IfOk result (λ m. (E.state m.disk).honest
        → LeavesOnly (E.state left) (E.state m.disk) (λ c. Stands (E.state left).size c files)) }
    ensures again_refused { (files : Files File)
        → ((c : Contents) → MayLeave (E.state left) c → Stands (E.state left).size c files)
        → IfErr result (λ refused. (E.state refused.1).honest
        → LeavesOnly (E.state left) (E.state refused.1) (λ c. Stands (E.state left).size c files)) }
    ensures crash { IfOk result (λ m. (E.state m.disk).honest → HasStarted (E.state left) (E.state m.disk)) }
    ensures crash_refused { IfErr result (λ refused. (E.state refused.1).honest
        → HasStarted (E.state left) (E.state refused.1)) }

    // What is refused, and what becomes of the disk, as for `Monitor::start`.
    ensures faults { IfErr result (λ refused. (E.state refused.1).honest
        → Refuses (E.state left).size (E.state refused.1).contents refused.0) }
    ensures kept { IfErr result (λ refused. (E.state refused.1).honest → (refused.0 ≡ Device → ⊥)
        → Still (E.state left) (E.state refused.1)
        ⊎ IsRecovered (E.state left).size (E.state left).contents (E.state refused.1).contents) }
    ensures recovered { IfOk result (λ m. (E.state m.disk).honest
        → IsRecovered (E.state left).size (E.state left).contents (E.state m.disk).contents) }
    ensures named { IfErr result (λ refused. NamesInSpace (E.state left).size refused.0) }
    ensures same { IfOk result (λ m. SameDisk (E.state left) (E.state m.disk)) }
    ensures served { IfOk result (λ m. (E.state m.disk).failures ≡ (E.state left).failures) }
    ensures same_refused { IfErr result (λ refused. SameDisk (E.state left) (E.state refused.1)) }
    ensures failed { IfErr result (λ refused. refused.0 ≡ Device
        → (E.state refused.1).failures ≡ one_more (E.state left).failures) }
    ensures served_refused { IfErr result (λ refused. (refused.0 ≡ Device → ⊥)
        → (E.state refused.1).failures ≡ (E.state left).failures) }
{
    Monitor::start(alloc, left)
}
