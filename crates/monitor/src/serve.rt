//! How events are served: one, or a list of them.
ghost use Rattle.std.specs.Prelude.{◌≡◌, ◌⊎◌, ◌↔◌, ◌<◌, ◌≤◌, ℕ, List, Some, length, map, true, false, IsTrue, IfOk};
ghost use Rattle.std.specs.Prelude.{IsErr};
ghost use Rattle.std.specs.List.{AllByRecursion};
ghost use Rattle.blockdisk.specs.Common.{SameDisk, LeavesOnly, one_more};
ghost use Rattle.spec_machine.specs.Common.{StandsForEither, RunsOn, State, slot, job_at, SpecJob, Service, Serving};
ghost use Rattle.spec_machine.specs.Common.{Answers, job_of, last_date};
ghost use Rattle.spec_image.specs.Common.{layout_number, pack_of};
ghost use Rattle.spec_machine.specs.declared.call.Reply.TheVariants.{Refused, Device, Failed, DateRange};
ghost use Rattle.monitor.specs.Common.{RunsBy, HoldsStill, last_of, read_of, TellsFault, FailsOnce, Serves, IsIdle};
ghost use Rattle.monitor.specs.Common.{IsDecided, OfCall, IsNoCall, IsLightEvent, IsRefused, KeepsCore};
ghost use Rattle.spec_machine.specs.declared.call.Call.TheVariants.{In};
ghost use Rattle.spec_machine.specs.declared.call.Reply.TheVariants as replies;

use crate::monitor::Monitor;
use blockdisk::{Disk, NoMemory};
use spec_machine::{Event, Reply};
use std::alloc::Global;

impl<D: Disk> Monitor<D> {
    /// Serves one event, and returns its reply: that of `login`, `deposit`, `examine` or `call`.
    pub fn event(&mut self, alloc: Global, event: &Event) -> Reply
        ensures answered { (D.state self.new.disk).honest → (old : Service)
            → Serves (D.state self.old.disk) self.old.map self.old.failed self.old.jobs old
            → (new : Service) × Serves (D.state self.new.disk) self.new.map self.new.failed self.new.jobs new
            × Answers (pack_of (D.state self.old.disk)) old event.now result new }
        // At any moment of it a crash leaves the files from before, or those after it if its answer is one that may
        // change files: `Done` or `Device`.
        ensures crash { (D.state self.new.disk).honest → (s : State)
            → Serves (D.state self.old.disk) self.old.map self.old.failed self.old.jobs (Serving s)
            → LeavesOnly (D.state self.old.disk) (D.state self.new.disk)
            (StandsForEither (pack_of (D.state self.old.disk)) s event.now result) }
        // The machine's record of another job stays.
        ensures apart { (D.state self.new.disk).honest → (s : State)
            → Serves (D.state self.old.disk) self.old.map self.old.failed self.old.jobs (Serving s)
            → (after : Service) × Serves (D.state self.new.disk) self.new.map self.new.failed self.new.jobs after
            × Answers (pack_of (D.state self.old.disk)) (Serving s) event.now result after
            × ((t : State) → after ≡ Serving t → (m : ℕ) → (m ≡ job_of event.now → ⊥) → job_at t m ≡ job_at s m) }
        // On every disk: no event of another job changes a job. An event that lacks memory, or whose answer is about
        // the date, the job, the channel or addresses, leaves everything as it was.
        ensures others { (m : ℕ) → (m ≡ job_of event.now → ⊥) → slot self.new.jobs m ≡ slot self.old.jobs m }
        ensures memory { result ≡ replies.NoMemory → self.new ≡ self.old }
        ensures decided { IsDecided result → self.new ≡ self.old }
        // Which events, and which answers, leave the disk alone; and which events take no memory.
        ensures idle { IsIdle result → self.new.disk ≡ self.old.disk }
        ensures light { IsLightEvent event.now self.old.jobs → (result ≡ replies.NoMemory → ⊥)
            × (self.new.disk ≡ self.old.disk) }
        ensures apart_from_disk { IsNoCall event.now → self.new.disk ≡ self.old.disk }
        // It fails with the device, and answers Failed after that; otherwise only a broken promise of the disk makes it
        // fail.
        ensures failed { IsTrue self.new.failed ↔ ((result ≡ Device) ⊎ (result ≡ Failed)) }
        ensures broken { self.old.failed ≡ true → (result ≡ Failed) × (self.new ≡ self.old) }
        ensures blamed { (D.state self.new.disk).honest → result ≡ Failed → self.old.failed ≡ true }
        ensures counted { result ≡ Device → (D.state self.new.disk).failures
            ≡ one_more (D.state self.old.disk).failures }
        ensures served { (result ≡ Device → ⊥) → (D.state self.new.disk).failures ≡ (D.state self.old.disk).failures }
        ensures same { SameDisk (D.state self.old.disk) (D.state self.new.disk) }
        // And what `call` states of a call alone.
        ensures still { OfCall event.now (λ job call moment. (D.state self.new.disk).honest → (channel address : ℕ)
            → call ≡ In channel address → moment.date ≤ last_date (layout_number self.old.layout) → (s : State)
            → Serves (D.state self.old.disk) self.old.map self.old.failed self.old.jobs (Serving s)
            → (own : SpecJob) → job_at s job ≡ Some own → (result ≡ replies.NoMemory → ⊥) → (result ≡ Device → ⊥)
            → (after : State)
            × Serves (D.state self.new.disk) self.new.map self.new.failed self.new.jobs (Serving after)
            × (result ≡ (read_of own channel address).0) × (job_at after job ≡ Some (read_of own channel address).1)) }
        ensures refused { OfCall event.now (λ job call moment. (code : ℕ) → result ≡ Refused code
            → IsRefused call job code self.old.jobs self.new.jobs) }
        ensures late { OfCall event.now (λ job call moment. self.old.failed ≡ false
            → last_date (layout_number self.old.layout) < moment.date → (result ≡ DateRange) × (self.new ≡ self.old)) }
        ensures kept { OfCall event.now (λ job call moment. KeepsCore call → self.new.map ≡ self.old.map) }
        ensures layout { self.new.layout ≡ self.old.layout }
    {
        match *event {
            Event::Login(job, ppn, words) => self.login(alloc, job, ppn, words),
            Event::Deposit(job, address, word) => self.deposit(job, address, word),
            Event::Examine(job, address) => self.examine(job, address),
            Event::Call(job, call, moment) => self.call(alloc, job, &call, moment),
        }
    }

    /// Serves a list of events, one after the other, and returns their replies in the same order.
    ///
    /// The replies, and what the monitor stands for after them, are a run of the file machine. At the moment after each
    /// event all that a crash may leave stands for the files after the events so far; between two such moments a crash
    /// leaves these, or those after one more event if its answer is one that may change files (`Done`, `Device`). Each
    /// reader continues in the file that its LOOKUP found. An event that meets a fault of the disk is answered
    /// `Device`, and each event after it `Failed`.
    ///
    /// # Errors
    ///
    /// `NoMemory` if there is no memory for the replies: then no event was served.
    pub fn serve(&mut self, alloc: Global, events: &[Event]) -> Result<Vec<Reply>, NoMemory>
        // One run: through these services, one after each event, the replies are the machine's, moment by moment; and
        // the words that an IN moves are those of the file that its LOOKUP found, whatever other jobs do.
        ensures runs { IfOk result (λ replies. (D.state self.new.disk).honest → (s : State)
            → Serves (D.state self.old.disk) self.old.map self.old.failed self.old.jobs (Serving s)
            → (services : List Service) × Serves (D.state self.new.disk) self.new.map self.new.failed self.new.jobs
            (last_of (Serving s) services)
            × RunsOn (pack_of (D.state self.old.disk)) (D.state self.new.disk) (D.state self.old.disk).clock
            (Serving s) events.now replies.items (last_of (Serving s) services)
            × RunsBy D.state (pack_of (D.state self.old.disk)) self.old.disk
            (Serving s) events.now replies.items services self.new.disk
            × HoldsStill (Serving s) events.now replies.items services) }
        ensures count { IfOk result (λ replies. length replies.items ≡ length events.now) }
        ensures none { IsErr result → self.new ≡ self.old }
        ensures broken { self.old.failed ≡ true
            → IfOk result (λ replies. AllByRecursion (λ reply. reply ≡ Failed) replies.items) × (self.new ≡ self.old) }
        ensures same { SameDisk (D.state self.old.disk) (D.state self.new.disk) }
        // On every disk: Device is among the replies only if the failure count rose, by one; all replies after it are
        // Failed.
        ensures served { IfOk result (λ replies. AllByRecursion (λ reply. reply ≡ Device → ⊥) replies.items
            → (D.state self.new.disk).failures ≡ (D.state self.old.disk).failures) }
        ensures counted { IfOk result (λ replies. TellsFault replies.items
            → (D.state self.new.disk).failures ≡ one_more (D.state self.old.disk).failures) }
        ensures once { IfOk result (λ replies. FailsOnce replies.items) }
        ensures layout { self.new.layout ≡ self.old.layout }
    {
        let mut replies = Vec::with_capacity(alloc, events.len())?;
        for event in events {
            let reply = self.event(alloc, event);
            replies.push(reply).unwrap();
        }
        Ok(replies)
    }
}
