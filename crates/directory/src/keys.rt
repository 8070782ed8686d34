//! Numbers for the entries of a chain.
ghost use Rattle.std.specs.Prelude.{◌≡◌, ◌<◌, ◌++◌, ◌∷◌, [], length, get_or, slice_set, swap_remove, IfOk, OnOk};
ghost use Rattle.std.specs.Prelude.{OnErr};
ghost use Rattle.directory.specs.Common.{IsSpareFor};

use crate::prealloc::{Prealloc, preallocate, push, push_into};
use blockdisk::NoMemory;
use std::alloc::Global;
use std::marker::Model;

/// A number for each entry of a chain, in their order: the key of what is stored for it elsewhere. It grows in memory
/// allocated before, as the chain does.
#[derive(Drop)]
pub struct Keys {
    list: Vec<usize>,
}

impl Model for Keys {
    ghost use Rattle.std.specs.Vec.{vec_len, vec_capacity};
    ghost use Rattle.directory.specs.Common.{HasPlaces, KeyList};

    ghost Value = { KeyList };

    ghost view = { λ k. record { items = k.list.items } };

    ghost invariant = { λ k. HasPlaces (vec_len k.list) (vec_capacity k.list) };
}

impl Keys {
    /// Returns a list of no keys.
    pub fn new(alloc: Global) -> Self
        ensures { result.items ≡ [] }
    {
        Keys {
            list: Vec::new(alloc),
        }
    }

    /// Returns how many there are.
    pub fn len(&self) -> usize
        ensures { result ≡ length self.now.items }
    {
        self.list.len()
    }

    /// Returns the key at a place, counted from 0.
    pub fn at(&self, i: usize) -> usize
        requires { i < length self.now.items }
        ensures { result ≡ get_or self.now.items i result }
    {
        self.list[i]
    }

    /// Allocates the memory that one more key takes.
    ///
    /// # Errors
    ///
    /// `NoMemory` if there is none.
    pub fn preallocate(&self, alloc: Global) -> Result<Prealloc<usize>, NoMemory>
        ensures { IfOk result (IsSpareFor (length self.now.items)) }
    {
        preallocate(alloc, self.list.len())
    }

    /// Adds a key after the others, in memory allocated before.
    pub fn push_into(&mut self, spare: Prealloc<usize>, key: usize)
        requires { IsSpareFor (length self.old.items) spare }
        ensures { self.new.items ≡ self.old.items ++ key ∷ [] }
    {
        push_into(&mut self.list, spare, key);
    }

    /// Adds a key after the others.
    ///
    /// # Errors
    ///
    /// `NoMemory` if there is no memory; nothing changes then.
    pub fn push(&mut self, key: usize) -> Result<(), NoMemory>
        ensures more { OnOk result (self.new.items ≡ self.old.items ++ key ∷ []) }
        ensures same { OnErr result (self.new.items ≡ self.old.items) }
    {
        push(&mut self.list, key)
    }

    /// Puts a key in place of another.
    pub fn set(&mut self, i: usize, key: usize)
        requires { i < length self.old.items }
        ensures { self.new.items ≡ slice_set self.old.items i key }
    {
        self.list[i] = key;
    }

    /// Takes out the key at a place and returns it; the last one moves there.
    pub fn swap_remove(&mut self, i: usize) -> usize
        requires { i < length self.old.items }
        ensures value { result ≡ get_or self.old.items i result }
        ensures items { self.new.items ≡ swap_remove self.old.items i result }
    {
        self.list.swap_remove(i)
    }
}
