//! The sorted list of a directory.
ghost use Rattle.std.specs.Prelude.{◌≡◌, IfOk, map};
ghost use Rattle.spec_image.specs.Common.{entries, from_entries};

use crate::{Chain, ChainEntry};
use blockdisk::NoMemory;
use std::alloc::Global;

impl<E: ChainEntry> Chain<E> {
    /// Returns the entries in ascending key order.
    ///
    /// # Errors
    ///
    /// `NoMemory` if there is no memory for the list.
    pub fn list_sorted(&self, alloc: Global) -> Result<Vec<E>, NoMemory>
        ensures { IfOk result (λ list. map E.view list.items
            ≡ entries (from_entries {R = E.order} (map E.view self.now.entries))) }
    {
        let entries = self.entries();
        let mut list = Vec::with_capacity(alloc, entries.len())?;
        for place in self.entries.places() {
            match list.push(entries[*place]) {
                Ok(()) => {}
                Err(_) => return Err(NoMemory),
            }
        }
        Ok(list)
    }
}
