//! A start over what a crash left during a session or a call script.
ghost use Rattle.std.specs.Prelude.{◌≡◌, ◌⊎◌, List, IfOk, IfErr};
ghost use Rattle.spec_language.specs.Common.{Act};
ghost use Rattle.spec_machine.specs.Common.{State, Serving};
ghost use Rattle.spec_image.specs.Common.{pack_of, without_serials};
ghost use Rattle.monitor.specs.Common.{ServesFiles, AreStopped, Serves, MonitorState};
ghost use Rattle.commands.specs.Common.{GoesBy, IsAlongActs, machine_of};
ghost use Rattle.volume.specs.declared.error.VolumeError.TheVariants.{NoMemory, Device};

use blockdisk::Disk;
use monitor::{Monitor, StartError};
use std::alloc::Global;

/// Starts a service over what a crash left of a disk while a session or a call script ran on it, or during a later
/// start that was stopped itself, and so on.
///
/// Whenever the crash came, the files are those after some of the acts of the session or the script, none of them left
/// out, or those after these and the next one, which was running, if its answer is one that may change files; there is
/// no third case. Whenever the starts before were stopped, the files are the same, and so is the layout.
///
/// # Errors
///
/// `NoMemory`, and `Device` if the device fails; the disk is returned, and may be started again. Over a disk that no
/// such crash left, the refusals of `Monitor::start`, which this is.
pub fn start_after_acts<D: Disk, E: Disk>(
    alloc: Global,
    stopped: &Monitor<D>,
    left: E,
) -> Result<Monitor<E>, (StartError, E)>
    ensures { (D.state stopped.now.disk).honest → (begun : MonitorState D) (acts : List Act)
        → GoesBy (λ (m : MonitorState D). machine_of (D.state m.disk) m.map m.failed m.jobs) begun stopped.now acts
        → (E.state left).size ≡ (D.state begun.disk).size → (s : State)
        → Serves (D.state begun.disk) begun.map begun.failed begun.jobs (Serving s)
        → (starts : List (E × E))
        → AreStopped E.state (D.state stopped.now.disk) (D.state begun.disk).clock starts (E.state left).contents
        → (found : State) × IsAlongActs (pack_of (D.state begun.disk)) (Serving s) acts found
        × IfOk result (λ m. (E.state m.disk).honest → (pack_of (E.state m.disk) ≡ pack_of (D.state begun.disk))
        × ServesFiles (E.state m.disk) m.map m.failed m.jobs (without_serials found.files))
        × IfErr result (λ refused. (E.state refused.1).honest → (refused.0 ≡ NoMemory) ⊎ (refused.0 ≡ Device)) }
{
    Monitor::start(alloc, left)
}
