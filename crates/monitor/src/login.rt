//! How a job logs in.
ghost use Rattle.std.specs.Prelude.{◌≡◌, ◌⊎◌, ◌↔◌, ℕ, false, Some, slice_set, IsTrue};
ghost use Rattle.spec_machine.specs.Common.{slot, Service, Answers, login_answer};
ghost use Rattle.spec_image.specs.Common.{pack_of};
ghost use Rattle.spec_machine.specs.declared.call.Event.TheVariants.{Login};
ghost use Rattle.spec_machine.specs.declared.call.Reply.TheVariants.{Done, Failed, NoMemory};
ghost use Rattle.monitor.specs.Common.{OnlyDrops, Serves, AreKeyed, ArePlaced, AreReading, new_job};

use crate::close_job::close_job;
use crate::job::{Job, Jobs, LARGEST_JOB, all_closed};
use crate::monitor::Monitor;
use blockdisk::Disk;
use spec_machine::Reply;
use std::alloc::Global;
use usercore::{Core, CoreError};
use volume::Volume;
use words36::Ppn;

/// Logs a job in, whoever had its number before.
fn log_in<D: Disk>(
    alloc: Global,
    volume: &mut Volume<D>,
    jobs: &mut Jobs,
    number: u32,
    ppn: Ppn,
    words: u32,
) -> Reply
    // The volume knows what the jobs write and read,
    requires keyed { AreKeyed volume.old.map.pending jobs.old }
    requires placed { ArePlaced volume.old.map }
    requires reading { AreReading volume.old.map.live jobs.old }
    // and still knows it afterwards; what the job wrote before is dropped, and what it read is unpinned.
    ensures keyed { AreKeyed volume.new.map.pending jobs.new }
    ensures placed { ArePlaced volume.new.map }
    ensures reading { AreReading volume.new.map.live jobs.new }
    ensures leaves { OnlyDrops volume.old.map volume.new.map }
    ensures untouched { (volume.new.disk ≡ volume.old.disk) × (volume.new.failed ≡ volume.old.failed) }
    ensures layout { volume.new.layout ≡ volume.old.layout }
    // The answer, and the jobs that follow from it.
    ensures answered { (result ≡ login_answer number words)
        ⊎ ((result ≡ NoMemory) × (login_answer number words ≡ Done)) }
    ensures done { result ≡ Done → jobs.new ≡ slice_set jobs.old number (Some (new_job ppn words)) }
    ensures kept { (result ≡ Done → ⊥) → (jobs.new ≡ jobs.old) × (volume.new.map ≡ volume.old.map) }
{
    if number == 0 || number > LARGEST_JOB {
        return Reply::NoJob;
    }
    match Core::new(alloc, words) {
        Ok(core) => {
            close_job(volume, jobs, number);
            let job = Job {
                ppn,
                core,
                channels: all_closed(),
            };
            jobs.put(number, job);
            Reply::Done
        }
        Err(CoreError::AddressCheck) => Reply::AddressCheck,
        Err(CoreError::NoMemory) => Reply::NoMemory,
    }
}

impl<D: Disk> Monitor<D> {
    /// Logs job `job`, 1 to 64, in as `ppn`, with a core of `words` words, 1000 to 400000 (octal), all zero except word
    /// 121 (octal), which contains 140 (octal). A job that was logged in under that number is reset first.
    ///
    /// The answer is `Done`; `NoJob` for another number; `AddressCheck` for another number of words; `NoMemory` if
    /// there is no memory for the core; or `Failed`. If it isn't `Done`, nothing is changed.
    pub fn login(&mut self, alloc: Global, job: u32, ppn: Ppn, words: u32) -> Reply
        ensures answered { (old : Service)
            → Serves (D.state self.old.disk) self.old.map self.old.failed self.old.jobs old
            → (new : Service) × Serves (D.state self.new.disk) self.new.map self.new.failed self.new.jobs new
            × Answers (pack_of (D.state self.old.disk)) old (Login job ppn words) result new }
        ensures kept { self.new ≡ record self.old { map = self.new.map; jobs = self.new.jobs } }
        ensures failed { result ≡ Failed ↔ IsTrue self.old.failed }
        ensures value { self.old.failed ≡ false → (result ≡ login_answer job words)
            ⊎ ((result ≡ NoMemory) × (login_answer job words ≡ Done)) }
        ensures done { result ≡ Done → self.new.jobs ≡ slice_set self.old.jobs job (Some (new_job ppn words)) }
        ensures refused { (result ≡ Done → ⊥) → (self.new.jobs ≡ self.old.jobs) × (self.new.map ≡ self.old.map) }
        ensures others { (m : ℕ) → (m ≡ job → ⊥) → slot self.new.jobs m ≡ slot self.old.jobs m }
        ensures layout { self.new.layout ≡ self.old.layout }
    {
        if self.volume.has_failed() {
            return Reply::Failed;
        }
        log_in(alloc, &mut self.volume, &mut self.jobs, job, ppn, words)
    }
}
