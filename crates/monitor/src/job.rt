//! Jobs that are logged in: their cores and their channels.
ghost use Rattle.std.specs.Prelude.{◌≡◌, ◌+◌, ◌≤◌, replicate, None, IfOk, Some, IfSome, IsTrue, IsFalse, length};
ghost use Rattle.std.specs.Prelude.{slice_set};
ghost use Rattle.spec_machine.specs.Common.{after_writes, placed, slot};
ghost use Rattle.spec_machine.specs.declared.call.Reply.TheVariants.{Done};
ghost use Rattle.monitor.specs.Common.{deposit_of, no_jobs, reset_job};
ghost use Rattle.monitor.specs.declared.job.Job.{Job as JobRecord};

use crate::channel::OpenChannel;
use blockdisk::NoMemory;
use spec_machine::Reply;
use std::alloc::{AllocError, Global};
use std::marker::Model;
use usercore::Core;
use words36::{Ppn, Word};

/// The largest number of a job.
pub const LARGEST_JOB: u32 = 64;

/// The number of slots for jobs: one for each number from 1, and one for 0 that stays empty.
const SLOTS: usize = 65;

/// The number of channels of a job.
pub const CHANNELS: usize = 16;

/// A job that is logged in.
#[derive(Drop)]
pub struct Job {
    /// Whose job it is.
    pub ppn: Ppn,
    /// Its core.
    pub core: Core,
    /// Its channels, each open or closed.
    pub channels: [Option<OpenChannel>; CHANNELS],
}

impl Job {
    /// Returns the channel of a number, if it is open.
    pub fn channel(&self, number: u32) -> Option<OpenChannel>
        ensures { result ≡ slot self.now.channels number }
    {
        *self.channels.get(number as usize)?
    }

    /// Opens a channel, or closes it; a number above 15 names none.
    pub fn set_channel(&mut self, number: u32, channel: Option<OpenChannel>)
        ensures { self.new ≡ record self.old { channels = slice_set self.old.channels number channel } }
    {
        if (number as usize) < CHANNELS {
            self.channels[number as usize] = channel;
        }
    }

    /// Closes all channels. The next ring of buffers will go where the first one does.
    pub fn reset(&mut self)
        ensures { self.new ≡ reset_job self.old }
    {
        self.core.reset_rings();
        self.channels = all_closed();
    }
}

/// Returns the channels of a job, all closed.
pub fn all_closed() -> [Option<OpenChannel>; CHANNELS]
    ensures { result ≡ replicate 16 None }
{
    [None; CHANNELS]
}

/// The jobs that are logged in, by their numbers.
#[derive(Drop)]
pub struct Jobs {
    pub(crate) slots: Vec<Option<Job>>,
}

impl Model for Jobs {
    ghost use Rattle.std.specs.Prelude.{◌≡◌, List, Option, length};
    ghost use Rattle.monitor.specs.declared.job.Job.{Job as JobRecord};

    ghost Value = { List (Option JobRecord) };

    ghost view = { λ j. j.slots.items };

    ghost invariant = { λ j. length j.slots.items ≡ 65 };
}

/// Returns a slot for each number, all empty.
fn empty_slots(alloc: Global) -> Result<Vec<Option<Job>>, AllocError>
    ensures { IfOk result (λ slots. slots.items ≡ no_jobs) }
{
    let mut slots = Vec::with_capacity(alloc, SLOTS)?;
    for _made in 0..SLOTS {
        slots.push(None)?;
    }
    Ok(slots)
}

impl Jobs {
    /// Makes a table of jobs in which nobody is logged in.
    ///
    /// # Errors
    ///
    /// `NoMemory` if there is no memory for the slots.
    pub fn new(alloc: Global) -> Result<Jobs, NoMemory>
        ensures { IfOk result (λ jobs. jobs ≡ no_jobs) }
    {
        Ok(Jobs {
            slots: empty_slots(alloc)?,
        })
    }

    /// Returns the job of a number.
    pub fn job(&self, number: u32) -> Option<&Job>
        ensures found { IfSome result (λ job. slot self.now number ≡ Some job.now) }
        ensures none { result ≡ None → slot self.now number ≡ None }
    {
        self.slots.get(number as usize)?.as_ref()
    }

    /// Puts a job into its slot; a job with a number above 64 is lost.
    pub fn put(&mut self, number: u32, job: Job)
        ensures { self.new ≡ slice_set self.old number (Some job) }
    {
        if let Some(slot) = self.slots.get_mut(number as usize) {
            *slot = Some(job);
        }
    }

    /// Resets a job: closes its channels, and the next ring of buffers will go where its first one does. Returns
    /// whether there is a job of that number.
    pub fn reset(&mut self, number: u32) -> bool
        ensures found { IsTrue result → (job : JobRecord) × (slot self.old number ≡ Some job)
            × (self.new ≡ slice_set self.old number (Some (reset_job job))) }
        ensures none { IsFalse result → (slot self.old number ≡ None) × (self.new ≡ self.old) }
    {
        if number as usize >= self.slots.len() {
            return false;
        }
        match &mut self.slots[number as usize] {
            Some(job) => {
                job.reset();
                true
            }
            None => false,
        }
    }

    /// Puts a word into the core of a job, which stays in its slot meanwhile.
    ///
    /// The answer is `Done`; `NoJob` if no job of that number is logged in; or `AddressCheck` if its core has no such
    /// address. If it isn't `Done`, nothing is changed.
    pub fn deposit(&mut self, number: u32, address: u32, word: Word) -> Reply
        ensures answered { result ≡ deposit_of address (slot self.old number) }
        ensures done { result ≡ Done → (there : JobRecord) × (slot self.old number ≡ Some there)
            × (self.new
            ≡ slice_set self.old number (Some (record there { core = slice_set there.core address word }))) }
        ensures refused { (result ≡ Done → ⊥) → self.new ≡ self.old }
    {
        if number as usize >= self.slots.len() {
            return Reply::NoJob;
        }
        match &mut self.slots[number as usize] {
            Some(job) => match job.core.set_word(address, word) {
                Ok(()) => Reply::Done,
                Err(_) => Reply::AddressCheck,
            },
            None => Reply::NoJob,
        }
    }

    /// Puts words into the core of a job from an address; the job stays in its slot meanwhile. Returns false, and
    /// changes nothing, if there is no job of that number, or if not all of the words would lie in its core.
    pub fn deposit_all(&mut self, number: u32, first: u32, words: &[Word]) -> bool
        ensures done { IsTrue result → (there : JobRecord) × (slot self.old number ≡ Some there)
            × (first + length words.now ≤ length there.core) × (self.new ≡ slice_set self.old number
            (Some (record there { core = after_writes there.core (placed first words.now) }))) }
        ensures there { (there : JobRecord) → slot self.old number ≡ Some there
            → first + length words.now ≤ length there.core → IsTrue result }
        ensures refused { IsFalse result → self.new ≡ self.old }
    {
        if number as usize >= self.slots.len() {
            return false;
        }
        match &mut self.slots[number as usize] {
            Some(job) => job.core.put(first, words).is_ok(),
            None => false,
        }
    }
}
