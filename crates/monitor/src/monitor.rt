//! The monitor: a volume and the jobs that are logged in, and how a service starts and ends.
ghost use Rattle.std.specs.Prelude.{◌≡◌, ◌⊎◌, false, IfOk, IfErr};
ghost use Rattle.blockdisk.specs.Common.{NoneOpen, SameDisk, Still, one_more};
ghost use Rattle.changeset.specs.Common.{IsRecovered, SyncsFirst};
ghost use Rattle.spec_image.specs.Common.{File, Files, StandsOn, layout_number, pack_of, Stands};
ghost use Rattle.spec_machine.specs.Common.{State, room, Serving, IsStart};
ghost use Rattle.monitor.specs.Common.{charge_told, HasStarted, Serves, no_jobs};
ghost use Rattle.volume.specs.Common.{NamesInSpace, Refuses, StandsLike};
ghost use Rattle.volume.specs.declared.error.VolumeError.TheVariants.{Device};

use crate::StartError;
use crate::job::Jobs;
use blockdisk::{Disk, NoMemory};
use spec_image::layout::Layout;
use std::alloc::Global;
use std::marker::Model;
use volume::{Charge, Volume};
use words36::Ppn;

/// A service over the files of one disk: a volume, and the jobs that are logged in. Contracts see it as one value
/// (`MonitorState`): the disk, what is known of it, whether it has failed, the jobs, and the layout of the disk.
#[derive(Drop)]
pub struct Monitor<D: Disk> {
    pub(crate) volume: Volume<D>,
    pub(crate) jobs: Jobs,
}

impl<D: Disk> Model for Monitor<D> {
    ghost use Rattle.std.specs.Prelude.{◌≡◌, false};
    ghost use Rattle.monitor.specs.Common.{MonitorState, AreKeyed, ArePlaced, AreReading};

    ghost Value = { MonitorState D };

    ghost view = { λ m. record {
      disk = m.volume.disk;
      map = m.volume.map;
      failed = m.volume.failed;
      jobs = m.jobs;
      layout = m.volume.layout;
    } };

    // A publication during which the device fails leaves the volume in memory between the two states.
    ghost invariant = { λ m. m.volume.failed ≡ false → AreKeyed m.volume.map.pending m.jobs × ArePlaced m.volume.map
        × AreReading m.volume.map.live m.jobs };
}

impl<D: Disk> Monitor<D> {
    /// Starts a service over a disk, which is recovered first and then read whole. Nobody is logged in.
    ///
    /// # Errors
    ///
    /// The refusals of `Volume::open`, with the disk handed back.
    pub fn start(alloc: Global, disk: D) -> Result<Monitor<D>, (StartError, D)>
        ensures started { (files : Files File) → Stands (D.state disk).size (D.state disk).contents files
            → (s : State) → IsStart files s → IfOk result (λ m. (D.state m.disk).honest
            → Serves (D.state m.disk) m.map m.failed m.jobs (Serving s)) }
        // It starts only if the disk stands for some files, and serves them in the layout in which the disk stands for
        // them; nothing but the recovery was written.
        ensures recovered { IfOk result (λ m. (D.state m.disk).honest
            → IsRecovered (D.state disk).size (D.state disk).contents (D.state m.disk).contents) }
        ensures stood { IfOk result (λ m. (D.state m.disk).honest → (files : Files File)
            × StandsOn (pack_of (D.state m.disk)) (D.state disk).contents files
            × ((s : State) → IsStart files s → Serves (D.state m.disk) m.map m.failed m.jobs (Serving s))) }
        ensures settled { IfOk result (λ m. (D.state m.disk).honest → NoneOpen (D.state m.disk)) }
        // On every disk the monitor hasn't failed, and nobody is logged in.
        ensures fresh { IfOk result (λ m. (m.failed ≡ false) × (m.jobs ≡ no_jobs)) }
        ensures crash { IfOk result (λ m. (D.state m.disk).honest → HasStarted (D.state disk) (D.state m.disk)) }
        ensures synced { IfOk result (λ m. (D.state m.disk).honest
            → SyncsFirst D.state disk m.disk ⊥ (StandsLike (D.state disk))) }
        ensures layout { IfOk result (λ m. (D.state m.disk).honest
            → layout_number m.layout ≡ (pack_of (D.state m.disk)).layout) }

        ensures refused { IfErr result (λ refused. (D.state refused.1).honest
            → Refuses (D.state disk).size (D.state refused.1).contents refused.0) }
        ensures kept { IfErr result (λ refused. (D.state refused.1).honest → (refused.0 ≡ Device → ⊥)
            → Still (D.state disk) (D.state refused.1)
            ⊎ IsRecovered (D.state disk).size (D.state disk).contents (D.state refused.1).contents) }
        ensures crash_refused { IfErr result (λ refused. (D.state refused.1).honest
            → HasStarted (D.state disk) (D.state refused.1)) }
        ensures synced_refused { IfErr result (λ refused. (D.state refused.1).honest
            → SyncsFirst D.state disk refused.1 (refused.0 ≡ Device) (StandsLike (D.state disk))) }

        // On every disk a block that a refusal names is in the free space, or is one of the table.
        ensures named { IfErr result (λ refused. NamesInSpace (D.state disk).size refused.0) }
        ensures same { IfOk result (λ m. SameDisk (D.state disk) (D.state m.disk)) }
        ensures served { IfOk result (λ m. (D.state m.disk).failures ≡ (D.state disk).failures) }
        ensures same_refused { IfErr result (λ refused. SameDisk (D.state disk) (D.state refused.1)) }
        ensures failed { IfErr result (λ refused. refused.0 ≡ Device
            → (D.state refused.1).failures ≡ one_more (D.state disk).failures) }
        ensures served_refused { IfErr result (λ refused. (refused.0 ≡ Device → ⊥)
            → (D.state refused.1).failures ≡ (D.state disk).failures) }
    {
        let volume = Volume::open(alloc, disk)?;
        let _layout = volume.layout(); // its contract states that it is the disk's
        match Jobs::new(alloc) {
            Ok(jobs) => Ok(Monitor { volume, jobs }),
            Err(NoMemory) => Err((StartError::NoMemory, volume.into_disk())),
        }
    }

    /// Returns the layout in which the disk was opened; no event changes it. While the disk is honest and the monitor
    /// hasn't failed, it is the disk's.
    pub fn layout(&self) -> Layout
        ensures value { result ≡ self.now.layout }
        ensures disk { (D.state self.now.disk).honest → self.now.failed ≡ false
            → layout_number result ≡ (pack_of (D.state self.now.disk)).layout }
    {
        self.volume.layout()
    }

    /// Returns the number of blocks of the disk, even if the monitor has failed.
    pub fn blocks(&self) -> u32
        ensures { result ≡ (D.state self.now.disk).size }
    {
        self.volume.blocks()
    }

    /// Returns the number of blocks that are left when everything is booked; it may be below 0. Nothing is promised of
    /// it if the monitor has failed.
    pub fn room(&self) -> i64
        ensures { (D.state self.now.disk).honest → (s : State)
            → Serves (D.state self.now.disk) self.now.map self.now.failed self.now.jobs (Serving s)
            → result ≡ room (pack_of (D.state self.now.disk)) s }
    {
        let _failed = self.volume.has_failed(); // its contract states what holds of a volume between two calls
        self.volume.room()
    }

    /// Returns what a directory is charged for, with its quota; `None` if there is no such directory. Nothing is
    /// promised of it if the monitor has failed.
    pub fn charge(&self, ppn: Ppn) -> Option<Charge>
        ensures { (D.state self.now.disk).honest → (s : State)
            → Serves (D.state self.now.disk) self.now.map self.now.failed self.now.jobs (Serving s)
            → result ≡ charge_told s ppn }
    {
        let _failed = self.volume.has_failed(); // its contract states what holds of a volume between two calls
        self.volume.charge(ppn)
    }

    /// Ends the service, and returns the disk as it is.
    pub fn finish(self) -> D
        ensures { result ≡ self.disk }
    {
        self.volume.into_disk()
    }
}
