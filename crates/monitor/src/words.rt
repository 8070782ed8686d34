//! Words of a job's core, which are deposited and examined.
ghost use Rattle.std.specs.Prelude.{◌≡◌, ◌↔◌, ◌+◌, ◌<◌, ◌≤◌, ℕ, false, Some, IsSome, IfSome, IsFalse, IsTrue, length};
ghost use Rattle.std.specs.Prelude.{slice_index, slice_set};
ghost use Rattle.spec_machine.specs.Common.{after_writes, placed, slot, Service, Answers};
ghost use Rattle.spec_image.specs.Common.{pack_of};
ghost use Rattle.spec_machine.specs.declared.call.Event.TheVariants.{Deposit, Examine};
ghost use Rattle.spec_machine.specs.declared.call.Reply.TheVariants.{Done, Failed, Value};
ghost use Rattle.monitor.specs.Common.{DepositsBy, deposit_of, examine_of, Serves};
ghost use Rattle.monitor.specs.declared.job.Job.{Job as JobRecord};

use crate::job::Jobs;
use crate::monitor::Monitor;
use blockdisk::Disk;
use spec_machine::Reply;
use usercore::CoreArea;
use words36::Word;

/// Returns a word of the core of a job.
fn examine(jobs: &Jobs, number: u32, address: u32) -> Reply
    ensures { result ≡ examine_of address (slot jobs.now number) }
{
    let Some(job) = jobs.job(number) else {
        return Reply::NoJob;
    };
    match job.core.word(address) {
        Ok(word) => Reply::Value(word),
        Err(_) => Reply::AddressCheck,
    }
}

/// Returns words of the core of a job in a row.
fn examine_all(jobs: &Jobs, number: u32, first: u32, count: usize) -> Option<&[Word]>
    ensures length { IfSome result (λ words. length words.now ≡ count) }
    ensures shown { IfSome result (λ words. (i : ℕ) → i < count
        → Value (slice_index words.now i) ≡ examine_of (first + i) (slot jobs.now number)) }
    ensures there { (job : JobRecord) → slot jobs.now number ≡ Some job → first + count ≤ length job.core
        → IsSome result }
{
    let area = CoreArea {
        first: first as usize,
        count,
    };
    jobs.job(number)?.core.words(area).ok()
}

impl<D: Disk> Monitor<D> {
    /// Puts a word into a job's core, at an address.
    ///
    /// The answer is `Done`; `NoJob` if no job of that number is logged in; `AddressCheck` if its core has no such
    /// address; or `Failed`. If it isn't `Done`, nothing is changed.
    pub fn deposit(&mut self, job: u32, address: u32, word: Word) -> Reply
        ensures answered { (old : Service)
            → Serves (D.state self.old.disk) self.old.map self.old.failed self.old.jobs old
            → (new : Service) × Serves (D.state self.new.disk) self.new.map self.new.failed self.new.jobs new
            × Answers (pack_of (D.state self.old.disk)) old (Deposit job address word) result new }
        ensures kept { self.new ≡ record self.old { jobs = self.new.jobs } }
        ensures failed { result ≡ Failed ↔ IsTrue self.old.failed }
        ensures value { self.old.failed ≡ false → result ≡ deposit_of address (slot self.old.jobs job) }
        ensures done { result ≡ Done → (there : JobRecord) × (slot self.old.jobs job ≡ Some there)
            × (self.new.jobs
            ≡ slice_set self.old.jobs job (Some (record there { core = slice_set there.core address word }))) }
        ensures refused { (result ≡ Done → ⊥) → self.new.jobs ≡ self.old.jobs }
        ensures others { (m : ℕ) → (m ≡ job → ⊥) → slot self.new.jobs m ≡ slot self.old.jobs m }
        ensures layout { self.new.layout ≡ self.old.layout }
    {
        if self.volume.has_failed() {
            return Reply::Failed;
        }
        self.jobs.deposit(job, address, word)
    }

    /// Puts words into a job's core from an address, as `deposit` would put one after the other. Returns true if
    /// `deposit` would answer `Done` each time; otherwise returns false and changes nothing.
    pub fn deposit_all(&mut self, job: u32, first: u32, words: &[Word]) -> bool
        ensures done { IsTrue result → DepositsBy (D.state self.old.disk) self.old.map self.old.failed job
            self.old.jobs first words.now self.new.jobs }
        ensures put { IsTrue result → (there : JobRecord) × (slot self.old.jobs job ≡ Some there)
            × (self.new.jobs ≡ slice_set self.old.jobs job
            (Some (record there { core = after_writes there.core (placed first words.now) }))) }
        ensures others { (m : ℕ) → (m ≡ job → ⊥) → slot self.new.jobs m ≡ slot self.old.jobs m }
        ensures kept { self.new ≡ record self.old { jobs = self.new.jobs } }
        ensures refused { IsFalse result → self.new.jobs ≡ self.old.jobs }
        ensures alive { IsTrue result → self.old.failed ≡ false }
        ensures there { self.old.failed ≡ false → (there : JobRecord) → slot self.old.jobs job ≡ Some there
            → first + length words.now ≤ length there.core → IsTrue result }
        ensures layout { self.new.layout ≡ self.old.layout }
    {
        if self.volume.has_failed() {
            return false;
        }
        self.jobs.deposit_all(job, first, words)
    }

    /// Returns the word of a job's core at an address: `Value`.
    ///
    /// Otherwise the answer is `NoJob` if no job of that number is logged in; `AddressCheck` if its core has no such
    /// address; or `Failed`.
    pub fn examine(&self, job: u32, address: u32) -> Reply
        ensures answered { (old : Service)
            → Serves (D.state self.now.disk) self.now.map self.now.failed self.now.jobs old
            → (new : Service) × Serves (D.state self.now.disk) self.now.map self.now.failed self.now.jobs new
            × Answers (pack_of (D.state self.now.disk)) old (Examine job address) result new }
        ensures failed { result ≡ Failed ↔ IsTrue self.now.failed }
        ensures value { self.now.failed ≡ false → result ≡ examine_of address (slot self.now.jobs job) }
    {
        if self.volume.has_failed() {
            return Reply::Failed;
        }
        examine(&self.jobs, job, address)
    }

    /// Returns `count` words of a job's core in a row, from an address: each is the one that `examine` shows. None if
    /// one of them isn't shown.
    pub fn examine_all(&self, job: u32, first: u32, count: usize) -> Option<&[Word]>
        ensures length { IfSome result (λ words. length words.now ≡ count) }
        ensures answered { IfSome result (λ words. (i : ℕ) → i < count → (old : Service)
            → Serves (D.state self.now.disk) self.now.map self.now.failed self.now.jobs old
            → (new : Service) × Serves (D.state self.now.disk) self.now.map self.now.failed self.now.jobs new
            × Answers (pack_of (D.state self.now.disk)) old (Examine job (first + i))
            (Value (slice_index words.now i)) new) }
        ensures value { IfSome result (λ words. (i : ℕ) → i < count
            → Value (slice_index words.now i) ≡ examine_of (first + i) (slot self.now.jobs job)) }
        ensures alive { IsSome result → self.now.failed ≡ false }
        ensures there { self.now.failed ≡ false → (there : JobRecord) → slot self.now.jobs job ≡ Some there
            → first + count ≤ length there.core → IsSome result }
    {
        if self.volume.has_failed() {
            return None;
        }
        examine_all(&self.jobs, job, first, count)
    }
}
