//! The trait of a service of files, as a session calls it.
ghost use Rattle.std.specs.Prelude.{◌≡◌, IfSome, IfOk, IsTrue, IsFalse, MatchResult, Ok, Err, length};
ghost use Rattle.std.specs.Int.{saturate_unsigned, w64};
ghost use Rattle.std.specs.List.{AllByRecursion};
ghost use Rattle.spec_machine.specs.Common.{State, job_at, room, Serving};
ghost use Rattle.spec_language.specs.Common.{deposit_events};
ghost use Rattle.monitor.specs.Common.{IsInside, areas_for, StandsNow};
ghost use Rattle.commands.specs.PlanSteps.{HasDone};
ghost use Rattle.commands.specs.Machines.{Machine, AreShown, IsAnswered, IsListed};

use blockdisk::NoMemory;
use monitor::CoreArea;
use spec_image::Entry;
use spec_machine::{Call, Event, Reply};
use std::alloc::Global;
use words36::{Ppn, Word};

/// A service of files: the operations that a session calls.
pub trait FileService {
    ghost machine: { Self → Machine };

    /// Serves one event, and returns its reply.
    fn event(&mut self, alloc: Global, event: &Event) -> Reply
        ensures { IsAnswered (machine self.old) (machine self.new) event.now result };

    /// Returns `count` words of job 1's core in a row, from an address: each is the one that an event would return.
    /// None if they have to be fetched one by one.
    fn examine_all(&self, first: u32, count: usize) -> Option<&[Word]>
        ensures { IfSome result (λ words. (length words.now ≡ count)
            × AreShown (machine self.now) first words.now) };

    /// Puts words into job 1's core from an address, as events would, one by one, each of which is done. Returns false
    /// if they have to be put one by one; then nothing is changed.
    fn deposit_all(&mut self, first: u32, words: &[Word]) -> bool
        ensures done { IsTrue result
            → HasDone machine self.old self.new (deposit_events first words.now) }
        ensures refused { IsFalse result → self.new ≡ self.old };

    /// Returns the files of a directory, as they are listed for a job: by name and then by extension, as numbers.
    fn list(&mut self, alloc: Global, job: u32, owner: Ppn) -> Result<Vec<Entry>, Reply>
        ensures { MatchResult result
            (λ entries. IsListed (machine self.old) (machine self.new) job owner (Ok entries.items))
            (λ reply. IsListed (machine self.old) (machine self.new) job owner (Err reply)) };

    /// Returns the areas of its core that a call of a job may change, by the call and the job before it: no other word
    /// of any core changes. All lie below address 2^17. The disk isn't called.
    ///
    /// # Errors
    ///
    /// `NoMemory` if the list finds no room.
    fn changed_areas(&self, alloc: Global, job: u32, call: &Call) -> Result<Vec<CoreArea>, NoMemory>
        ensures named { (s : State) → (machine self.now).serves (Serving s)
            → IfOk result (λ areas. areas.items ≡ areas_for (job_at s job) call.now) }
        ensures inside { IfOk result (λ areas. AllByRecursion IsInside areas.items) };

    /// Returns the number of blocks that are left when all is booked, and 0 if more are booked than there are.
    fn room(&self) -> u64
        ensures { (machine self.now).honest → (s : State) → (machine self.now).serves (Serving s)
            → result ≡ saturate_unsigned w64 (room (machine self.now).pack s) };

    /// A proof that all that a crash may leave stands for the files of the state that it serves from.
    ghost stands: { (service : Self) → (machine service).honest → (s : State) → (machine service).serves (Serving s)
        → StandsNow (machine service).pack (machine service).disk s };
}
