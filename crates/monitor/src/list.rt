//! The list of a directory's files, and the owners of all directories.
ghost use Rattle.std.specs.Prelude.{◌≡◌, ◌↔◌, ◌⊎◌, false, List, None, Result, IfOk, IfErr, IsErrOf, IsTrue};
ghost use Rattle.spec_machine.specs.Common.{State, slot, Service, Serving, Lists};
ghost use Rattle.spec_image.specs.Common.{keys};
ghost use Rattle.spec_image.specs.declared.entry.Entry.{Entry};
ghost use Rattle.spec_machine.specs.declared.call.Reply.{Reply};
ghost use Rattle.spec_machine.specs.declared.call.Reply.TheVariants.{NoJob, NoMemory, Failed};
ghost use Rattle.monitor.specs.Common.{Serves, IsListAnswer, reply_of, IsListRefusal};

use crate::monitor::Monitor;
use blockdisk::Disk;
use protect::{DirectoryAct, dir_right};
use spec_image::{Entry, ErrorCode};
use spec_machine::Reply;
use std::alloc::Global;
use volume::CallError;
use words36::Ppn;

/// Returns the answer to a call that the volume refused.
pub fn reply_of(error: CallError) -> Reply
    ensures { result ≡ reply_of error }
{
    match error {
        CallError::Refused(code) => Reply::Refused(code.number()),
        CallError::Device => Reply::Device,
        CallError::NoMemory => Reply::NoMemory,
        CallError::Failed => Reply::Failed,
    }
}

impl<D: Disk> Monitor<D> {
    /// Returns the list of the files of a directory, by name and then by extension, as numbers.
    ///
    /// # Errors
    ///
    /// `NoJob` if no job of that number is logged in; `Refused(1)` if there is no such directory; `Refused(2)` if its
    /// protection doesn't let the job look names up; `NoMemory` if there is no memory for the list; `Failed` if the
    /// monitor has failed.
    pub fn list(&self, alloc: Global, job: u32, ppn: Ppn) -> Result<Vec<Entry>, Reply>
        ensures listed { (D.state self.now.disk).honest → (service : Service)
            → Serves (D.state self.now.disk) self.now.map self.now.failed self.now.jobs service
            → (answer : Result (List Entry) Reply) × IsListAnswer (λ lines. lines.items) result answer
            × Lists service job ppn answer service }
        ensures failed { IsErrOf result Failed ↔ IsTrue self.now.failed }
        ensures nobody { IsErrOf result NoJob ↔ (self.now.failed ≡ false) × (slot self.now.jobs job ≡ None) }
        ensures only { IfErr result IsListRefusal }
    {
        if self.volume.has_failed() {
            return Err(Reply::Failed);
        }
        let Some(asking) = self.jobs.job(job) else {
            return Err(Reply::NoJob);
        };
        let who = asking.ppn;
        let protection = match self.volume.directory(ppn) {
            Ok(protection) => protection,
            // The volume hasn't failed: it has no such directory.
            Err(_) => return Err(Reply::Refused(ErrorCode::NoDirectory.number())),
        };
        if !dir_right(protection, who, ppn, DirectoryAct::Look) {
            return Err(Reply::Refused(ErrorCode::Protection.number()));
        }
        match self.volume.list(alloc, ppn) {
            Ok(lines) => Ok(lines),
            Err(error) => Err(reply_of(error)),
        }
    }

    /// Returns the owners of all directories, by their numbers. No job is needed to ask for them, and no protection
    /// hides them from anybody.
    ///
    /// # Errors
    ///
    /// `NoMemory` if there is no memory for them, `Failed` if the monitor has failed.
    pub fn owners(&self, alloc: Global) -> Result<Vec<Ppn>, Reply>
        ensures value { (D.state self.now.disk).honest → (s : State)
            → Serves (D.state self.now.disk) self.now.map self.now.failed self.now.jobs (Serving s)
            → IfOk result (λ owners. owners.items ≡ keys s.files) }
        ensures failed { IsErrOf result Failed ↔ IsTrue self.now.failed }
        ensures only { IfErr result (λ reply. (reply ≡ NoMemory) ⊎ (reply ≡ Failed)) }
    {
        match self.volume.owners(alloc) {
            Ok(owners) => Ok(owners),
            Err(error) => Err(reply_of(error)),
        }
    }
}
