//! The call RESET, and the reset of a job.
ghost use Rattle.std.specs.Prelude.{◌≡◌, ◌↔◌, ℕ, false, Some, None, slice_set, IsTrue, IsFalse};
ghost use Rattle.spec_machine.specs.Common.{slot, Service, Answers};
ghost use Rattle.spec_image.specs.Common.{layout_number, pack_in, pack_of};
ghost use Rattle.spec_machine.specs.declared.call.Call.TheVariants.{Reset};
ghost use Rattle.spec_machine.specs.declared.call.Event.TheVariants.{Call as Calls};
ghost use Rattle.spec_machine.specs.declared.call.Reply.TheVariants.{Done, Failed};
ghost use Rattle.monitor.specs.Common.{OnlyDrops, reset_answer, Serves, AreKeyed, ArePlaced, AreReading, reset_job};
ghost use Rattle.monitor.specs.Common.{IsCallReady, ServesAlways};
ghost use Rattle.monitor.specs.declared.job.Job.{Job as JobRecord};

use crate::close_job::{close_channels, close_job};
use crate::job::{Job, Jobs};
use crate::monitor::Monitor;
use blockdisk::Disk;
use spec_machine::Reply;
use volume::Volume;
use words36::Moment;

/// Serves RESET: closes all channels of a job, drops what it has written and unpins what it reads. The next ring of
/// buffers will go where the first one does.
pub fn serve_reset<D: Disk>(volume: &mut Volume<D>, job: &mut Job) -> Reply
    requires ready { IsCallReady (D.state volume.old.disk) volume.old.map volume.old.failed job.old }
    ensures serving { ServesAlways D.state volume.old.disk volume.new.disk volume.old.map volume.new.map
        volume.new.failed job.old job.new Reset result }
    ensures layout { volume.new.layout ≡ volume.old.layout }
{
    close_channels(volume, &job.channels);
    job.reset();
    Reply::Done
}

/// Resets the job of a number. Returns whether there is one.
pub fn reset<D: Disk>(volume: &mut Volume<D>, jobs: &mut Jobs, number: u32) -> bool
    requires keyed { AreKeyed volume.old.map.pending jobs.old }
    requires placed { ArePlaced volume.old.map }
    requires reading { AreReading volume.old.map.live jobs.old }
    ensures keyed { AreKeyed volume.new.map.pending jobs.new }
    ensures placed { ArePlaced volume.new.map }
    ensures reading { AreReading volume.new.map.live jobs.new }
    ensures leaves { OnlyDrops volume.old.map volume.new.map }
    ensures untouched { (volume.new.disk ≡ volume.old.disk) × (volume.new.failed ≡ volume.old.failed) }
    ensures layout { volume.new.layout ≡ volume.old.layout }
    ensures found { IsTrue result → (job : JobRecord) × (slot jobs.old number ≡ Some job)
        × (jobs.new ≡ slice_set jobs.old number (Some (reset_job job))) }
    ensures none { IsFalse result → (slot jobs.old number ≡ None) × (jobs.new ≡ jobs.old)
        × (volume.new.map ≡ volume.old.map) }
{
    let Some(_there) = jobs.job(number) else {
        return false;
    };
    close_job(volume, jobs, number);
    jobs.reset(number)
}

impl<D: Disk> Monitor<D> {
    /// Resets a job, as the call RESET does: all its channels are closed, and the right half of word 121 (octal) of its
    /// core becomes 140 (octal).
    ///
    /// The answer is `Done`; `DateRange` for a date that the layout of the disk can't hold; `NoJob` if no job of that
    /// number is logged in; or `Failed`. It needs no memory and doesn't touch the disk.
    pub fn reset(&mut self, job: u32, moment: Moment) -> Reply
        ensures answered { (D.state self.old.disk).honest → (old : Service)
            → Serves (D.state self.old.disk) self.old.map self.old.failed self.old.jobs old
            → (new : Service) × Serves (D.state self.new.disk) self.new.map self.new.failed self.new.jobs new
            × Answers (pack_of (D.state self.old.disk)) old (Calls job Reset moment) result new }
        // The same on every disk, in the layout in which it was opened.
        ensures in_layout { (old : Service)
            → Serves (D.state self.old.disk) self.old.map self.old.failed self.old.jobs old
            → (new : Service) × Serves (D.state self.new.disk) self.new.map self.new.failed self.new.jobs new
            × Answers (pack_in (layout_number self.old.layout) (D.state self.old.disk).size) old
            (Calls job Reset moment) result new }
        ensures kept { self.new ≡ record self.old { map = self.new.map; jobs = self.new.jobs } }
        ensures failed { result ≡ Failed ↔ IsTrue self.old.failed }
        ensures value { self.old.failed ≡ false
            → result ≡ reset_answer (layout_number self.old.layout) moment.date (slot self.old.jobs job) }
        ensures done { result ≡ Done → (there : JobRecord) × (slot self.old.jobs job ≡ Some there)
            × (self.new.jobs ≡ slice_set self.old.jobs job (Some (reset_job there))) }
        ensures refused { (result ≡ Done → ⊥) → (self.new.jobs ≡ self.old.jobs) × (self.new.map ≡ self.old.map) }
        ensures others { (m : ℕ) → (m ≡ job → ⊥) → slot self.new.jobs m ≡ slot self.old.jobs m }
        ensures layout { self.new.layout ≡ self.old.layout }
    {
        if self.volume.has_failed() {
            return Reply::Failed;
        }
        let layout = self.volume.layout();
        if moment.date > layout.last_date() {
            return Reply::DateRange;
        }
        if !reset(&mut self.volume, &mut self.jobs, job) {
            return Reply::NoJob;
        }
        Reply::Done
    }
}
