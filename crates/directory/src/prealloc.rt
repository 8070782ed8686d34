//! Memory that is allocated before a list grows.
ghost use Rattle.std.specs.Prelude.{◌≡◌, ◌+◌, ◌*◌, ◌<◌, ◌^◌, ◌++◌, ◌∷◌, [], ℕ, suc, IsTrue, IsFalse, IfOk, OnOk, OnErr};
ghost use Rattle.std.specs.Vec.{vec_len, vec_capacity};
ghost use Rattle.directory.specs.Common.{IsFull, HasPlaces, IsSpareFor};

use blockdisk::NoMemory;
use std::alloc::Global;
use std::marker::Model;

/// Memory for a list to grow by one element, allocated before the list changes: contracts see how many places it has.
/// It has none if the list needs none.
#[derive(Drop)]
pub struct Prealloc<T: Copy> {
    places: Vec<T>,
}

impl<T: Copy> Model for Prealloc<T> {
    ghost Value = { ℕ };

    ghost view = { λ r. vec_capacity r.places };

    ghost invariant = { λ r. r.places.items ≡ [] };
}

impl<T: Copy> Prealloc<T> {
    /// Returns no memory.
    pub(crate) fn none(alloc: Global) -> Self {
        Prealloc {
            places: Vec::new(alloc),
        }
    }
}

/// Returns whether a list of `n` elements may have no place left.
fn is_full(n: usize) -> bool
    requires { n < 2 ^ 63 }
    ensures yes { IsTrue result → IsFull n }
    ensures no { IsFalse result → (k : ℕ) × (2 ^ k < n) × (n < 2 * 2 ^ k) }
{
    if n == 0 {
        return true;
    }
    n == 2usize.pow(n.ilog2())
}

/// Allocates the memory that a list of `n` elements takes to grow by one: twice its places if it may be full.
///
/// # Errors
///
/// `NoMemory` if there is none.
pub(crate) fn preallocate<T: Copy>(alloc: Global, n: usize) -> Result<Prealloc<T>, NoMemory>
    requires { n < 2 ^ 63 }
    ensures { IfOk result (IsSpareFor n) }
{
    if !is_full(n) {
        return Ok(Prealloc::none(alloc));
    }
    let mut places = Vec::new(alloc);
    places.reserve((2 * n).max(4))?;
    Ok(Prealloc { places })
}

/// Ensures that a list has a place for one more element, in this memory if it may have none.
pub(crate) fn make_place<T: Copy>(list: &mut Vec<T>, spare: Prealloc<T>)
    requires places { HasPlaces (vec_len list.old) (vec_capacity list.old) }
    requires spare { IsSpareFor (vec_len list.old) spare }
    ensures items { list.new.items ≡ list.old.items }
    ensures places { HasPlaces (suc (vec_len list.old)) (vec_capacity list.new) }
{
    if !is_full(list.len()) {
        return;
    }
    let Prealloc { mut places } = spare;
    match places.extend_from_slice(list) {
        Ok(()) => {}
        Err(_) => unreachable!(), // it has twice the places
    }
    *list = places;
}

/// Adds an element in memory allocated before.
pub(crate) fn push_into<T: Copy>(list: &mut Vec<T>, spare: Prealloc<T>, value: T)
    requires places { HasPlaces (vec_len list.old) (vec_capacity list.old) }
    requires spare { IsSpareFor (vec_len list.old) spare }
    ensures items { list.new.items ≡ list.old.items ++ value ∷ [] }
    ensures places { HasPlaces (vec_len list.new) (vec_capacity list.new) }
{
    make_place(list, spare);
    match list.push(value) {
        Ok(()) => {}
        Err(_) => unreachable!(), // it has a place
    }
}

/// Adds an element.
///
/// # Errors
///
/// `NoMemory` if there is no memory; nothing changes then.
pub(crate) fn push<T: Copy>(list: &mut Vec<T>, value: T) -> Result<(), NoMemory>
    requires { HasPlaces (vec_len list.old) (vec_capacity list.old) }
    ensures more { OnOk result (list.new.items ≡ list.old.items ++ value ∷ []) }
    ensures same { OnErr result (list.new.items ≡ list.old.items) }
    ensures places { HasPlaces (vec_len list.new) (vec_capacity list.new) }
{
    let spare = preallocate(*list.allocator(), list.len())?;
    push_into(list, spare, value);
    Ok(())
}
