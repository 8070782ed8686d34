//! The entries of a chain that is being read.
ghost use Rattle.std.specs.Prelude.{◌≡◌, ◌++◌, ◌∷◌, [], IfOk, OnOk, OnErr, IsErrOf, None, map};
ghost use Rattle.std.specs.FinMap.Entries.{find};
ghost use Rattle.directory.specs.declared.gathered.GatherError.TheVariants.{Again};

use crate::ChainEntry;
use crate::entries::Entries;
use crate::prealloc::{preallocate, push, push_into};
use blockdisk::NoMemory;
use std::alloc::Global;
use std::collections::BTreeMap;
use std::marker::Model;

/// Why an entry wasn't added to others.
#[derive(Clone, Copy)]
pub(crate) enum GatherError {
    /// Its key is there already.
    Again,
    /// A growth was refused.
    NoMemory,
}

impl From<NoMemory> for GatherError {
    ghost use Rattle.directory.specs.declared.gathered.GatherError.TheVariants.{NoMemory};

    ghost from_gives = { λ refused error. error ≡ NoMemory };

    fn from(_refused: NoMemory) -> GatherError {
        GatherError::NoMemory
    }
}

/// The entries of a chain that is being read, in the order of the disk, and with them the place of each key in a
/// tree. So n entries take n log n steps, in whatever order their keys come: in a list of places in ascending key order
/// each would move half of those before it, and a chain can have a block for each block of the disk.
#[derive(Drop)]
pub(crate) struct Gathered<E: ChainEntry> {
    list: Vec<E>,
    places: BTreeMap<E::Key, usize>,
}

impl<E: ChainEntry> Model for Gathered<E> {
    ghost use Rattle.std.specs.Prelude.{List, map};
    ghost use Rattle.std.specs.Coded.{coded_list};
    ghost use Rattle.std.specs.Vec.{vec_len, vec_capacity};
    ghost use Rattle.directory.specs.Common.{AreGathered};
    ghost use Rattle.directory.specs.Common.{HasPlaces};

    ghost Value = { List E };

    ghost coded = { coded_list E.code };

    ghost view = { λ g. g.list.items };

    ghost invariant = { λ g. AreGathered E.order (map E.view g.list.items) g.places.entries
        × HasPlaces (vec_len g.list) (vec_capacity g.list) };
}

impl<E: ChainEntry> Gathered<E> {
    /// Returns an empty list.
    pub(crate) fn new(alloc: Global) -> Self
        ensures { result ≡ [] }
    {
        Gathered {
            list: Vec::new(alloc),
            places: BTreeMap::new(alloc),
        }
    }

    /// Returns the entries as a slice.
    pub(crate) fn as_slice(&self) -> &[E]
        ensures { result.now ≡ self.now }
    {
        self.list.as_slice()
    }

    /// Adds an entry after the others.
    ///
    /// # Errors
    ///
    /// `Again` if its key is there already, `NoMemory` if there is no memory; nothing changes then.
    pub(crate) fn push(&mut self, entry: E) -> Result<(), GatherError>
        ensures more { OnOk result (self.new ≡ self.old ++ entry ∷ []) }
        ensures absent { OnOk result (find E.order (E.view entry).0 (map E.view self.old) ≡ None) }
        ensures same { OnErr result (self.new ≡ self.old) }
        ensures again { IsErrOf result Again → find E.order (E.view entry).0 (map E.view self.old) ≡ None → ⊥ }
    {
        let key = entry.key();
        if self.places.contains_key(&key) {
            return Err(GatherError::Again);
        }
        let place = self.list.len();
        let spare = preallocate(*self.list.allocator(), place)?;
        match self.places.insert(key, place) {
            Ok(_) => {
                push_into(&mut self.list, spare, entry);
                Ok(())
            }
            Err(_) => Err(GatherError::NoMemory),
        }
    }

    /// Returns the entries, to be found by their keys after this.
    ///
    /// # Errors
    ///
    /// `NoMemory` if there is no memory for the list of their places.
    pub(crate) fn finish(self) -> Result<Entries<E>, NoMemory>
        ensures { IfOk result (λ entries. entries ≡ self) }
    {
        let mut order = Vec::new(*self.list.allocator());
        for place in self.places.values() {
            push(&mut order, *place)?;
        }
        Ok(Entries::of(self.list, order))
    }
}
