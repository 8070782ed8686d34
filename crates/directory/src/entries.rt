//! The entries of a directory in memory.
ghost use Rattle.std.specs.Prelude.{◌≡◌, ◌<◌, ◌++◌, ◌∷◌, [], IfOk, IfSome, IfNone, None, suc, length, map, get_or};
ghost use Rattle.std.specs.Prelude.{swap_remove, slice_set, take, drop};
ghost use Rattle.std.specs.FinMap.Entries.{find};
ghost use Rattle.directory.specs.Common.{StandsAt, IsIndex, HasPlaces, IsSpareFor};
ghost use Rattle.std.specs.Vec.{vec_len, vec_capacity};

use crate::ChainEntry;
use crate::order::{enter, find_place, rename_place, take_place};
use crate::prealloc::{Prealloc, make_place, preallocate, push_into};
use blockdisk::NoMemory;
use std::alloc::Global;
use std::marker::Model;

/// The entries of a directory in memory, in the order of the disk, and with them their places in ascending key order,
/// so that no search goes through the list. No key occurs twice.
#[derive(Drop)]
pub struct Entries<E: ChainEntry> {
    list: Vec<E>,
    order: Vec<usize>,
}

impl<E: ChainEntry> Model for Entries<E> {
    ghost use Rattle.std.specs.Prelude.{List, map};
    ghost use Rattle.std.specs.Coded.{coded_list};
    ghost use Rattle.std.specs.Vec.{vec_len, vec_capacity};
    ghost use Rattle.directory.specs.Common.{IsIndex, HasPlaces};

    ghost Value = { List E };

    ghost coded = { coded_list E.code };

    ghost view = { λ e. e.list.items };

    ghost invariant = { λ e. IsIndex E.order (map E.view e.list.items) e.order.items
        × HasPlaces (vec_len e.list) (vec_capacity e.list) × HasPlaces (vec_len e.order) (vec_capacity e.order) };
}

impl<E: ChainEntry> Entries<E> {
    /// Returns an empty list.
    pub fn new(alloc: Global) -> Self
        ensures { result ≡ [] }
    {
        Entries {
            list: Vec::new(alloc),
            order: Vec::new(alloc),
        }
    }

    /// Returns these entries, in the order of the disk, with their places in ascending key order.
    pub(crate) fn of(list: Vec<E>, order: Vec<usize>) -> Self
        requires index { IsIndex E.order (map E.view list.items) order.items }
        requires list { HasPlaces (vec_len list) (vec_capacity list) }
        requires order { HasPlaces (vec_len order) (vec_capacity order) }
        ensures { result ≡ list.items }
    {
        Entries { list, order }
    }

    /// Returns the entries as a slice.
    pub fn as_slice(&self) -> &[E]
        ensures { result.now ≡ self.now }
    {
        self.list.as_slice()
    }

    /// Returns the places of the entries in ascending key order.
    pub fn places(&self) -> &[usize]
        ensures { IsIndex E.order (map E.view self.now) result.now }
    {
        self.order.as_slice()
    }

    /// Returns how many there are.
    pub fn len(&self) -> usize
        ensures { result ≡ length self.now }
    {
        self.list.len()
    }

    /// Returns the place of the entry with this key, counted from 0, or `None` if there is no such entry.
    pub fn find(&self, key: &E::Key) -> Option<usize>
        ensures found { IfSome result (λ i. (v : E.Stored) × StandsAt E.order (map E.view self.now) key.now v i) }
        ensures none { IfNone result (find E.order key.now (map E.view self.now) ≡ None) }
    {
        find_place(&self.order, &self.list, key)
    }

    /// Allocates the memory that one more entry takes.
    ///
    /// # Errors
    ///
    /// `NoMemory` if there is none.
    pub fn preallocate(&self, alloc: Global) -> Result<Prealloc<E>, NoMemory>
        ensures { IfOk result (IsSpareFor (length self.now)) }
    {
        preallocate(alloc, self.list.len())
    }

    /// Allocates the memory that the place of one more entry takes.
    ///
    /// # Errors
    ///
    /// `NoMemory` if there is none.
    pub fn preallocate_place(&self, alloc: Global) -> Result<Prealloc<usize>, NoMemory>
        ensures { IfOk result (IsSpareFor (length self.now)) }
    {
        preallocate(alloc, self.list.len())
    }

    /// Adds an entry with a new key after the others, in memory allocated before.
    pub fn push_into(&mut self, spare: Prealloc<E>, places: Prealloc<usize>, entry: E)
        requires absent { find E.order (E.view entry).0 (map E.view self.old) ≡ None }
        requires spare { IsSpareFor (length self.old) spare }
        requires places { IsSpareFor (length self.old) places }
        ensures { self.new ≡ self.old ++ entry ∷ [] }
    {
        make_place(&mut self.order, places);
        enter(&mut self.order, &self.list, &entry.key(), self.list.len());
        push_into(&mut self.list, spare, entry);
    }

    /// Puts an entry in place of another. Its key is in no other place.
    pub fn set(&mut self, i: usize, entry: E)
        requires within { i < length self.old }
        requires alone { find E.order (E.view entry).0 (take i (map E.view self.old)
            ++ drop (suc i) (map E.view self.old)) ≡ None }
        ensures { self.new ≡ slice_set self.old i entry }
    {
        rename_place(&mut self.order, &self.list, i, &entry);
        self.list[i] = entry;
    }

    /// Takes out the entry at a place and returns it; the last one moves there.
    pub fn swap_remove(&mut self, i: usize) -> E
        requires { i < length self.old }
        ensures value { result ≡ get_or self.old i result }
        ensures entries { self.new ≡ swap_remove self.old i result }
    {
        take_place(&mut self.order, &self.list, i);
        self.list.swap_remove(i)
    }
}
