//! The table of the calls, and how a call of a job is served.
ghost use Rattle.std.specs.Prelude.{◌≡◌, ◌⊎◌, ◌<◌, ◌≤◌, ◌↔◌, ℕ, true, false, Some, IsTrue};
ghost use Rattle.blockdisk.specs.Common.{SameDisk, LeavesOnly, one_more};
ghost use Rattle.spec_machine.specs.Common.{StandsForEither, State, slot, job_at, SpecJob, Service, Serving, Answers};
ghost use Rattle.spec_machine.specs.Common.{last_date};
ghost use Rattle.spec_image.specs.Common.{layout_number, pack_of};
ghost use Rattle.spec_machine.specs.declared.call.Call.TheVariants.{In};
ghost use Rattle.spec_machine.specs.declared.call.Event.TheVariants.{Call as Calls};
ghost use Rattle.spec_machine.specs.declared.call.Reply.TheVariants.{NoMemory, Failed, Device, DateRange, Refused};
ghost use Rattle.monitor.specs.Common.{IsLight, KeepsCore, IsIdle, IsDecided, read_of, IsCallReady, IsServing};
ghost use Rattle.monitor.specs.Common.{ServesJob, IsRefused, IsTimely, Serves, AreKeyed, ArePlaced, AreReading};
ghost use Rattle.volume.specs.Common.{IsSoundMemory};

use crate::close::serve_close;
use crate::delete_dir::serve_delete_dir;
use crate::enter::serve_enter;
use crate::getsts::getsts;
use crate::inbuf::inbuf;
use crate::job::{Job, Jobs};
use crate::lookup::serve_lookup;
use crate::make_dir::serve_make_dir;
use crate::monitor::Monitor;
use crate::open::open;
use crate::out::serve_out;
use crate::outbuf::outbuf;
use crate::quota::serve_quota;
use crate::read::serve_in;
use crate::releas::serve_release;
use crate::rename::serve_rename;
use crate::reset::serve_reset;
use crate::useti::useti;
use crate::useto::useto;
use blockdisk::Disk;
use spec_machine::{Call, Reply};
use std::alloc::Global;
use volume::Volume;
use words36::Moment;

/// Serves a call of a job that is logged in. This is the table of the calls: each row is the file of its name.
fn answer<D: Disk>(
    alloc: Global,
    volume: &mut Volume<D>,
    job: &mut Job,
    call: &Call,
    moment: Moment,
) -> Reply
    requires ready { IsCallReady (D.state volume.old.disk) volume.old.map volume.old.failed job.old }
    requires timely { IsTimely (D.state volume.old.disk) moment }
    ensures serving { ServesJob D.state volume.old.disk volume.new.disk volume.old.map volume.new.map
        volume.new.failed job.old job.new call.now moment result }
    ensures layout { volume.new.layout ≡ volume.old.layout }
{
    match *call {
        Call::Open(channel, address) => open(job, channel, address),
        Call::Inbuf(channel, count) => inbuf(job, channel, count),
        Call::Outbuf(channel, count) => outbuf(job, channel, count),
        Call::Lookup(channel, address) => serve_lookup(volume, job, channel, address),
        Call::Enter(channel, address) => serve_enter(alloc, volume, job, channel, address, moment),
        Call::Rename(channel, address) => serve_rename(alloc, volume, job, channel, address),
        Call::In(channel, address) => serve_in(alloc, volume, job, channel, address),
        Call::Out(channel, address) => serve_out(alloc, volume, job, channel, address),
        Call::Useti(channel, block) => useti(job, channel, block),
        Call::Useto(channel, block) => useto(job, channel, block),
        Call::Close(channel, bits) => serve_close(alloc, volume, job, channel, bits),
        Call::Releas(channel) => serve_release(alloc, volume, job, channel),
        Call::Getsts(channel) => getsts(job, channel),
        Call::Reset => serve_reset(volume, job),
        Call::MakeDir(address) => serve_make_dir(alloc, volume, job, address),
        Call::DeleteDir(address) => serve_delete_dir(volume, job, address),
        Call::Quota(address) => serve_quota(volume, job, address),
    }
}

/// Serves a call of the job of a number, at a moment that the disk can hold. The job stays in its slot meanwhile.
fn serve<D: Disk>(
    alloc: Global,
    volume: &mut Volume<D>,
    jobs: &mut Jobs,
    number: u32,
    call: &Call,
    moment: Moment,
) -> Reply
    requires sound { IsSoundMemory (D.state volume.old.disk) volume.old.map volume.old.failed }
    requires keyed { AreKeyed volume.old.map.pending jobs.old }
    requires placed { ArePlaced volume.old.map }
    requires reading { AreReading volume.old.map.live jobs.old }
    requires alive { volume.old.failed ≡ false }
    requires timely { IsTimely (D.state volume.old.disk) moment }
    ensures serving { IsServing D.state volume.old.disk volume.new.disk volume.old.map volume.new.map
        volume.new.failed jobs.old jobs.new number call.now moment result }
    ensures layout { volume.new.layout ≡ volume.old.layout }
{
    if number as usize >= jobs.slots.len() {
        return Reply::NoJob;
    }
    match &mut jobs.slots[number as usize] {
        Some(job) => answer(alloc, volume, job, call, moment),
        None => Reply::NoJob,
    }
}

impl<D: Disk> Monitor<D> {
    /// Serves a call of a job, at a moment.
    ///
    /// The answer is that of the call; `DateRange` for a date that the layout of the disk can't hold; `NoJob` if no job
    /// of that number is logged in; `NoChannel` if the channel isn't open, or if OPEN names one above 15;
    /// `AddressCheck` if the job's core lacks an address that the call needs; `NoMemory` if memory can't grow. After
    /// each of these everything is as before. `Device` if the device failed; every later call is answered `Failed`. A
    /// later start finds the files from before the call or those after it.
    #[inline(never)] // so that `deposit` and `examine` don't pay for its place on the stack
    pub fn call(&mut self, alloc: Global, job: u32, call: &Call, moment: Moment) -> Reply
        ensures answered { (D.state self.new.disk).honest → (old : Service)
            → Serves (D.state self.old.disk) self.old.map self.old.failed self.old.jobs old
            → (new : Service) × Serves (D.state self.new.disk) self.new.map self.new.failed self.new.jobs new
            × Answers (pack_of (D.state self.old.disk)) old (Calls job call.now moment) result new }
        // Reading holds still: what an IN answers and leaves follows from its own job's record, which no call of
        // another job changes.
        ensures still { (D.state self.new.disk).honest → (channel address : ℕ) → call.now ≡ In channel address
            → moment.date ≤ last_date (layout_number self.old.layout) → (s : State)
            → Serves (D.state self.old.disk) self.old.map self.old.failed self.old.jobs (Serving s)
            → (own : SpecJob) → job_at s job ≡ Some own → (result ≡ NoMemory → ⊥) → (result ≡ Device → ⊥)
            → (after : State)
            × Serves (D.state self.new.disk) self.new.map self.new.failed self.new.jobs (Serving after)
            × (result ≡ (read_of own channel address).0) × (job_at after job ≡ Some (read_of own channel address).1) }
        ensures apart { (D.state self.new.disk).honest → (s : State)
            → Serves (D.state self.old.disk) self.old.map self.old.failed self.old.jobs (Serving s)
            → (after : Service) × Serves (D.state self.new.disk) self.new.map self.new.failed self.new.jobs after
            × Answers (pack_of (D.state self.old.disk)) (Serving s) (Calls job call.now moment) result after
            × ((t : State) → after ≡ Serving t → (m : ℕ) → (m ≡ job → ⊥) → job_at t m ≡ job_at s m) }
        // No other job is changed.
        ensures others { (m : ℕ) → (m ≡ job → ⊥) → slot self.new.jobs m ≡ slot self.old.jobs m }
        // At any moment of it a crash leaves the files from before, or those after it if its answer is one that may
        // change files: `Done` or `Device`.
        ensures crash { (D.state self.new.disk).honest → (s : State)
            → Serves (D.state self.old.disk) self.old.map self.old.failed self.old.jobs (Serving s)
            → LeavesOnly (D.state self.old.disk) (D.state self.new.disk)
            (StandsForEither (pack_of (D.state self.old.disk)) s (Calls job call.now moment) result) }
        // On every disk a refusal leaves its code in the block that the call named, and nothing else.
        ensures refused { (code : ℕ) → result ≡ Refused code → IsRefused call.now job code self.old.jobs self.new.jobs }
        // Which calls, and which answers, leave the disk alone; and which calls take no memory.
        ensures idle { IsIdle result → self.new.disk ≡ self.old.disk }
        ensures light { IsLight call.now (slot self.old.jobs job) → (result ≡ NoMemory → ⊥)
            × (self.new.disk ≡ self.old.disk) }
        ensures memory { result ≡ NoMemory → self.new ≡ self.old }
        // On every disk an answer about the date, the job, the channel or addresses leaves everything as it was.
        ensures decided { IsDecided result → self.new ≡ self.old }
        // It fails with the device, and answers Failed after that; otherwise only a broken promise of the disk makes it
        // fail.
        ensures failed { IsTrue self.new.failed ↔ ((result ≡ Device) ⊎ (result ≡ Failed)) }
        ensures broken { self.old.failed ≡ true → (result ≡ Failed) × (self.new ≡ self.old) }
        ensures blamed { (D.state self.new.disk).honest → result ≡ Failed → self.old.failed ≡ true }
        ensures counted { result ≡ Device → (D.state self.new.disk).failures
            ≡ one_more (D.state self.old.disk).failures }
        ensures served { (result ≡ Device → ⊥) → (D.state self.new.disk).failures ≡ (D.state self.old.disk).failures }
        ensures same { SameDisk (D.state self.old.disk) (D.state self.new.disk) }
        // A date that the layout of the disk can't hold: on every disk.
        ensures late { self.old.failed ≡ false → last_date (layout_number self.old.layout) < moment.date
            → (result ≡ DateRange) × (self.new ≡ self.old) }
        // Which calls leave what is known of the disk as it was.
        ensures kept { KeepsCore call.now → self.new.map ≡ self.old.map }
        ensures layout { self.new.layout ≡ self.old.layout }
    {
        if self.volume.has_failed() {
            return Reply::Failed;
        }
        let layout = self.volume.layout();
        if moment.date > layout.last_date() {
            return Reply::DateRange;
        }
        serve(alloc, &mut self.volume, &mut self.jobs, job, call, moment)
    }
}
